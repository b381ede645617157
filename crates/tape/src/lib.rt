// Reads and prints the lines of a day on slices of bytes. No function has a `requires`: bytes that are no line give
// `None`, and a line that does not fit is not printed.
#![tactic(auto)]

ghost use Rattle.std.specs.Prelude.{◌≡◌, ◌≤◌, ◌==◌, length, position};
ghost use Rattle.tape.specs.Lines.{to_feed, Reads};
ghost use Rattle.tape.specs.Printing.{printing};

mod put;
mod scan;

// A line has at most this many numbers.
pub const MOST_NUMBERS: usize = 5;

// A line has at most this many bytes, without its line feed.
pub const LONGEST_LINE: usize = 56;

// A printed line has at most this many numbers behind its letter.
pub const MOST_PRINTED: usize = 16;

// A printed line takes at most this many bytes.
pub const LONGEST_PRINTED: usize = 380;

// The content of a line.
#[derive(Clone, Copy)]
pub struct Line {
    pub letter: u8,
    // unused entries are 0: a list of so many numbers as the letter has would need the heap
    pub numbers: [u32; MOST_NUMBERS],
}

// How many bytes stand before the first line feed; all of them, and no Option, where there is none, since its public
// promise `tape.to_feed` says so.
pub fn to_feed(text: &[u8]) -> usize
    ensures upper_bound { result ≤ length text.now }
    ensures value { result ≡ to_feed text.now }
{
    find(text, b'\n').unwrap_or(text.len())
}

// Where the first `byte` stands, if there is one.
fn find(text: &[u8], byte: u8) -> Option<usize>
    ensures { result ≡ position (λ c. c == byte) text.now }
{
    text.iter().position(|c| *c == byte)
}

// Reads a line, which is given without its line feed.
pub fn read(line: &[u8]) -> Option<Line>
    ensures { Reads line.now result }
{
    let (letter, rest) = line.split_first()?;
    let want = scan::numbers_after(*letter)?;
    scan::over(rest)?.line(*letter, want)
}

// Puts a line from `at` on, and gives the place behind it; where fewer than LONGEST_PRINTED places are left, or the
// numbers are more than MOST_PRINTED, puts nothing and gives `at`, and no Option, since its public promise
// `tape.printing` says so.
pub fn print(out: &mut [u8], at: usize, stock: u64, time: u64, letter: u8, numbers: &[u64]) -> usize
    ensures upper_bound { at ≤ length out.old → result ≤ length out.old }
    ensures out_after { record { to = result; bytes = out.new } ≡ printing out.old at stock time letter numbers.now }
{
    if MOST_PRINTED < numbers.len() || out.len().saturating_sub(at) < LONGEST_PRINTED {
        return at;
    }
    put::line(out, at, stock, time, letter, numbers)
}
