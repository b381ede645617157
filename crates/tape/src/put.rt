// Writes numbers as text into a slice of bytes, from a place on; by hand, since a formatter writes to its own buffer first.
// Each function takes the place and gives the one behind: stored in a struct, it made a line 97 to 130 ns instead of 80.
ghost use Rattle.std.specs.Prelude.{◌≡◌, [], ◌∷◌, map, ◌+◌, ◌≤◌, ◌<◌, length, set};
ghost use Rattle.std.proofs.lemmas.List.Edits.{sets};
ghost use Rattle.tape.specs.Lines.{parted};
ghost use Rattle.tape.specs.Printing.{digits, two, ahead, printed};

// Puts one digit, and gives the place behind it.
pub(crate) fn digit(out: &mut [u8], at: usize, d: u64) -> usize
    requires { (d < 10) × (at < length out.old) }
    ensures value { result ≡ at + 1 }
    ensures out_after { out.new ≡ set out.old at (48 + d) }
{
    out[at] = b'0' + d as u8;
    at + 1
}

// Puts the two digits of a number below 100.
pub(crate) fn pair(out: &mut [u8], at: usize, n: u64) -> usize
    requires { (n < 100) × (at + 2 ≤ length out.old) }
    ensures value { result ≡ at + 2 }
    ensures out_after { out.new ≡ sets out.old at (two n) }
{
    let to = digit(out, at, n / 10);
    digit(out, to, n % 10)
}

// Puts the digits of n, two at a time from the front, and gives the place behind them.
pub(crate) fn number(out: &mut [u8], at: usize, n: u64) -> usize
    requires { at + 20 ≤ length out.old }
    ensures upper_bound { result ≤ at + 20 }
    ensures value { result ≡ at + length (digits n) }
    ensures out_after { out.new ≡ sets out.old at (digits n) }
{
    if n < 10 {
        return digit(out, at, n);
    }
    if n < 100 {
        return pair(out, at, n);
    }
    let to = number(out, at, n / 100);
    pair(out, to, n % 100)
}

// Puts a space and the digits of n.
pub(crate) fn field(out: &mut [u8], at: usize, n: u64) -> usize
    requires { at + 21 ≤ length out.old }
    ensures upper_bound { result ≤ at + 21 }
    ensures value { result ≡ at + length (parted (digits n ∷ [])) }
    ensures out_after { out.new ≡ sets out.old at (parted (digits n ∷ [])) }
{
    out[at] = b' ';
    number(out, at + 1, n)
}

// Puts each number behind a space.
pub(crate) fn fields(out: &mut [u8], at: usize, numbers: &[u64]) -> usize
    requires { (length numbers.now ≤ 16) × (at + 336 ≤ length out.old) }
    ensures upper_bound { result ≤ at + 336 }
    ensures value { result ≡ at + length (parted (map digits numbers.now)) }
    ensures out_after { out.new ≡ sets out.old at (parted (map digits numbers.now)) }
{
    let mut to = at;
    for n in numbers {
        to = field(out, to, *n);
    }
    to
}

// Puts a stock, a time and a letter.
pub(crate) fn head(out: &mut [u8], at: usize, stock: u64, time: u64, letter: u8) -> usize
    requires { at + 43 ≤ length out.old }
    ensures upper_bound { result ≤ at + 43 }
    ensures value { result ≡ at + length (ahead stock time letter) }
    ensures out_after { out.new ≡ sets out.old at (ahead stock time letter) }
{
    let to = number(out, at, stock);
    let to = field(out, to, time);
    out[to] = b' ';
    out[to + 1] = letter;
    to + 2
}

// Puts a whole line.
pub(crate) fn line(
    out: &mut [u8],
    at: usize,
    stock: u64,
    time: u64,
    letter: u8,
    numbers: &[u64],
) -> usize
    requires { (length numbers.now ≤ 16) × (at + 380 ≤ length out.old) }
    ensures upper_bound { result ≤ at + 380 }
    ensures value { result ≡ at + length (printed stock time letter numbers.now) }
    ensures out_after { out.new ≡ sets out.old at (printed stock time letter numbers.now) }
{
    let to = head(out, at, stock, time, letter);
    let to = fields(out, to, numbers);
    out[to] = b'\n';
    to + 1
}
