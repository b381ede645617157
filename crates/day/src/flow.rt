// Buffered input and output, each through one large block. Output is flushed before more input is read, so that a
// reader who waits for an answer gets it.
ghost use Rattle.std.specs.Prelude.{◌≡◌, ◌+◌, ◌-◌, ◌<◌, ◌≤◌, true, length, IfSome};
ghost use Rattle.day.specs.Flow.{reach_of, Sees, lowered_flow, taken_of, flushed, written};
ghost use Rattle.day.specs.Printed.{printed_of, place_of, put_of};

use rules::Answer;
use std::io::{Read, Write};
use std::marker::Model;
use tape::Line;

// The bytes of each block.
const BLOCK: usize = 32_768;

// A line of the input has at most this many bytes, with its line feed.
const LONGEST: usize = tape::LONGEST_LINE + 1;

// A reader and a writer. Their blocks are arrays, since std's BufReader and BufWriter keep theirs on the heap.
#[derive(Drop)]
pub struct Flow<R, W> {
    reader: R,
    writer: W,
    // the unread bytes of the input's block: `from` up to `to`
    input: [u8; BLOCK],
    from: usize,
    to: usize,
    // how many bytes of the output's block are still to be written
    output: [u8; BLOCK],
    at: usize,
    // false once the output has refused a write; a flag, since the laws of day speak of it and a line is put then too
    live: bool,
}

// Clauses see both blocks and the positions in them, which are within the blocks, and whether a write was refused.
impl<R, W> Model for Flow<R, W> {
    ghost use Rattle.std.specs.Prelude.{◌≤◌};
    ghost use Rattle.day.specs.Blocks.{Blocks};
    ghost use Rattle.day.specs.declared.flow.TheConstants.{BLOCK};

    ghost Value = { Blocks };

    ghost view = { λ f. record { input = f.input; from = f.from; to = f.to; output = f.output; at = f.at; live = f.live } };

    ghost invariant = { λ f. (f.from ≤ f.to) × (f.to ≤ BLOCK) × (f.at ≤ BLOCK) };
}

// A line that was found, if it can be read, and where the line after it begins.
#[derive(Clone, Copy)]
pub struct Seen {
    pub line: Option<Line>,
    pub next: usize,
}

// How far to look for the line feed of a line that begins at `from`.
fn reach(from: usize, to: usize) -> usize
    requires { from ≤ to }
    ensures lower_bound { (from ≤ result) × (result ≤ to) }
    ensures value { result ≡ reach_of from to }
{
    from + LONGEST.min(to - from)
}

// The numbers of an answer, in the order in which they are printed.
fn numbers_of(a: Answer) -> [u64; 9]
    ensures { result ≡ printed_of a }
{
    let best = a.best;
    [
        a.number,
        a.state,
        a.reference,
        a.lower,
        a.upper,
        best.bid.price,
        best.bid.flag,
        best.offer.price,
        best.offer.flag,
    ]
    .map(u64::from)
}

impl<R: Read, W: Write> Flow<R, W> {
    pub(crate) fn new(reader: R, writer: W) -> Self {
        Flow {
            reader,
            writer,
            input: [0; BLOCK],
            from: 0,
            to: 0,
            output: [0; BLOCK],
            at: 0,
            live: true,
        }
    }

    // Whether the output has taken all that was written.
    pub(crate) fn is_live(&self) -> bool
        ensures { result ≡ self.now.live }
    {
        self.live
    }

    // Looks for a whole line among the unread bytes.
    fn look(&self) -> Option<Seen>
        ensures within { IfSome result (λ s. (self.now.from ≤ s.next) × (s.next ≤ self.now.to)) }
        ensures sees { Sees self.now.input self.now.from self.now.to result }
    {
        let most = reach(self.from, self.to);
        let end = self.from + tape::to_feed(&self.input[self.from..most]);
        if most <= end {
            return None;
        }
        Some(Seen {
            line: tape::read(&self.input[self.from..end]),
            next: end + 1,
        })
    }

    // Takes the line that was seen, if one was and it can be read.
    fn take(&mut self, seen: Option<Seen>) -> Option<Line>
        requires { IfSome seen (λ s. (self.old.from ≤ s.next) × (s.next ≤ self.old.to)) }
        ensures { record { line = result; flow = self.new } ≡ taken_of seen self.old }
    {
        let seen = seen?;
        self.from = seen.next;
        seen.line
    }

    // Moves the unread bytes to the front of their block.
    fn lower(&mut self)
        ensures { self.new ≡ lowered_flow self.old }
    {
        self.input.copy_within(self.from..self.to, 0);
        self.to -= self.from;
        self.from = 0;
    }

    // Writes the pending output. Nothing of it is left where the output refuses it: nobody knows how much of it was taken.
    pub(crate) fn flush(&mut self)
        ensures { self.new ≡ flushed self.new.live self.old }
    {
        let all = self.writer.write_all(&self.output[..self.at]).is_ok();
        self.live &= all;
        self.at = 0;
    }

    // Moves the unread bytes to the front of their block, reads once into the room after them, and says whether that gave
    // more of them.
    fn refill(&mut self) -> bool
        ensures at_value { (self.new.at ≡ self.old.at) × (self.new.from ≡ 0) }
        ensures more { result ≡ true → self.old.to - self.old.from < self.new.to - self.new.from }
        ensures output_stays { (self.new.output ≡ self.old.output) × (self.new.live ≡ self.old.live) }
    {
        self.lower();
        let n = self.reader.read(&mut self.input[self.to..]).unwrap_or(0);
        self.to += n;
        0 < n
    }

    // Flushes the output and reads once; says whether that gave more bytes. It reads nothing where the unread bytes are
    // already too long for a line, or the output has refused a write.
    fn more(&mut self) -> bool
        ensures more { result ≡ true → (self.old.to - self.old.from < 57) × (self.old.to - self.old.from < self.new.to - self.new.from) }
        ensures output_stays { self.new.output ≡ self.old.output }
    {
        if LONGEST <= self.to - self.from {
            return false;
        }
        self.flush();
        self.live && self.refill()
    }

    // The next line; none where there is none, where it is too long or where it cannot be read.
    pub(crate) fn next_line(&mut self) -> Option<Line>
        ensures { self.new.output ≡ self.old.output }
    {
        let mut seen = self.look();
        while seen.is_none() && self.more() {
            seen = self.look();
        }
        self.take(seen)
    }

    // Makes room for a line: flushes the output's block where a line might not fit.
    #[tactic(auto, using(forms::proofs::Choice::tests), unfolding(crate::specs::Printed::place_of))]
    fn make_room(&mut self)
        ensures { self.new ≡ written (place_of (length self.old.output) self.old.at) self.new.live self.old }
    {
        if self.output.len() - self.at < tape::LONGEST_PRINTED {
            self.flush();
        }
    }

    // Puts a line into the output's block, also where the output has refused a write.
    pub(crate) fn put(&mut self, stock: u32, time: u32, letter: u8, a: Answer)
        ensures output_after { record { to = self.new.at; bytes = self.new.output } ≡ put_of self.old.output self.old.at stock time letter a }
        ensures input_stays { (self.new.input ≡ self.old.input) × (self.new.from ≡ self.old.from) × (self.new.to ≡ self.old.to) }
    {
        self.make_room();
        let numbers = numbers_of(a);
        self.at = tape::print(
            &mut self.output,
            self.at,
            u64::from(stock),
            u64::from(time),
            letter,
            &numbers,
        );
    }

    // Flushes the complete lines, and then reports which line cannot be read.
    pub(crate) fn bad(&mut self, line: u64) {
        self.flush();
        if self.live {
            let _ = writeln!(self.writer, "BAD {line}");
        }
    }
}
