// Scans a line after its letter, byte by byte: one space opens a number, and digits follow it. The open number is
// kept apart from the earlier ones, so that the state of the loop stays in registers.
ghost use Rattle.std.specs.Prelude.{◌≡◌, ◌≤◌, Some};
ghost use mathlib.Core.List.{foldl};
ghost use Rattle.tape.specs.Scanning.{wanted, opened, digit as Scanning·digit, step as Scanning·step, closed, begun, turn, finished};

use crate::{Line, MOST_NUMBERS};

// A number has at most this many digits.
const MOST_DIGITS: u32 = 10;

// How far a line has been read.
#[derive(Clone, Copy)]
pub struct Scan {
    // how many numbers were opened
    pub count: usize,
    // how many bytes the last field has; the letter is a field of one
    pub digits: u32,
    // the number that is open
    pub value: u32,
}

// A scan, with the numbers before the open one.
#[derive(Clone, Copy)]
pub struct Reading {
    pub scan: Scan,
    pub numbers: [u32; MOST_NUMBERS],
}

impl Scan {
    // A space opens a number.
    fn space(self) -> Option<Scan>
        ensures { result ≡ opened self }
    {
        if self.digits == 0 || MOST_NUMBERS <= self.count {
            return None;
        }
        Some(Scan {
            count: self.count + 1,
            digits: 0,
            value: 0,
        })
    }

    // Adds a digit to the open number.
    fn digit(self, c: u8) -> Option<Scan>
        requires { (48 ≤ c) × (c ≤ 57) }
        ensures { result ≡ Scanning·digit self c }
    {
        if self.count == 0 || MOST_DIGITS <= self.digits {
            return None;
        }
        let tens = self.value.checked_mul(10)?;
        let value = tens.checked_add(u32::from(c - b'0'))?;
        Some(Scan {
            digits: self.digits + 1,
            value,
            ..self
        })
    }

    // Takes the next byte.
    fn step(self, c: u8) -> Option<Scan>
        ensures { result ≡ Scanning·step self c }
    {
        match c {
            b' ' => self.space(),
            b'0'..=b'9' => self.digit(c),
            _ => None,
        }
    }

    // Puts the open number, if there is one, into its place.
    fn close(self, numbers: &mut [u32; MOST_NUMBERS])
        ensures { numbers.new ≡ closed numbers.old self }
    {
        if 0 < self.count && self.count <= MOST_NUMBERS {
            numbers[self.count - 1] = self.value;
        }
    }
}

// Scans all bytes after the letter.
pub(crate) fn over(bytes: &[u8]) -> Option<Reading>
    ensures { result ≡ foldl turn (Some begun) bytes.now }
{
    // no default: the letter is a field of one byte
    let mut scan = Scan {
        count: 0,
        digits: 1,
        value: 0,
    };
    let mut numbers = [0; MOST_NUMBERS];
    for c in bytes {
        if *c == b' ' {
            scan.close(&mut numbers);
        }
        scan = scan.step(*c)?;
    }
    Some(Reading { scan, numbers })
}

// How many numbers follow a letter, if a line begins with it. Each letter has an arm, as it has a row in `tape.table`: with
// joined arms four goals stayed open.
pub(crate) fn numbers_after(letter: u8) -> Option<usize>
    ensures { result ≡ wanted letter }
{
    match letter {
        b'C' => Some(3),
        b'S' => Some(4),
        b'T' => Some(3),
        b'Q' => Some(5),
        b'O' => Some(4),
        b'P' => Some(3),
        b'R' => Some(4),
        b'X' => Some(4),
        _ => None,
    }
}

impl Reading {
    // The line of that letter, if exactly `want` numbers were read.
    pub(crate) fn line(self, letter: u8, want: usize) -> Option<Line>
        ensures { result ≡ finished letter want self }
    {
        if self.scan.count != want || self.scan.digits == 0 {
            return None;
        }
        let mut numbers = self.numbers;
        self.scan.close(&mut numbers);
        Some(Line { letter, numbers })
    }
}
