// The table of moments, evaluated from its last row up, and the comparison of a moment with a time.
ghost use Rattle.std.specs.Prelude.{◌≡◌, drop};
ghost use Rattle.rules.specs.Moments as moments;
ghost use Rattle.rules.specs.Moments.{◌at◌while◌, moment_table, earliest, due_by, past_at};
ghost use Rattle.quotes.specs.Parts.{bare};

use quotes::Kept;
use rules::{
    AFTER_END, FIRST_FIVE, Figures, HOLD, LATE, LIMIT, LONGEST_LIMIT, LONGEST_PAUSE, MARK_C,
    MARK_F, MARK_H, MARK_NONE, MARK_P, MARK_V, MARK_W, MARK_X, MARK_Z, Moment, PAUSED, TRADING,
    WAITING, WINDOW,
};

// The times of the first w and of f.
const AT_W: u64 = band::DOUBLED_UNTIL as u64;

const AT_F: u64 = FIRST_FIVE as u64;

// The earlier of a row and what the rows after it give; of two at one time the row. The mark is a number, as in
// `rules::Moment`. `comes` makes no Option of the row: a row of `rules.moment_table` has it, and it would be taken apart at once.
fn sooner(mark: u32, time: u64, comes: bool, after: Moment) -> Moment
    ensures { result ≡ moments.sooner (mark at time while comes) after }
{
    if comes & ((after.mark == MARK_NONE) | (time <= after.time)) {
        return Moment { mark, time };
    }
    after
}

// The earliest of v, f and h.
fn from_v(f: Figures, k: Kept) -> Moment
    ensures { result ≡ earliest (drop 6 (moment_table f (bare k))) }
{
    let state = k.course.state;
    let early = k.course.early;
    let start = k.reference.start as u64;
    let hold = k.reference.hold;
    let oldest = f.oldest as u64;
    let count = f.count;
    let h = sooner(
        MARK_H,
        start + HOLD,
        (TRADING <= state) & (state <= LATE) & (hold != 0),
        Moment::default(),
    );
    let f = sooner(MARK_F, AT_F, (state == WAITING) & (early != 0), h);
    sooner(MARK_V, oldest + WINDOW, (state <= LATE) & (count != 0), f)
}

// The earliest of x, p, c and the rows after them.
fn from_x(f: Figures, k: Kept) -> Moment
    ensures { result ≡ earliest (drop 3 (moment_table f (bare k))) }
{
    let state = k.course.state;
    let entry = k.course.entry as u64;
    let pause = k.course.pause as u64;
    let end = k.end as u64;
    let v = from_v(f, k);
    let c = sooner(MARK_C, end + AFTER_END, state == LATE, v);
    let p = sooner(MARK_P, pause + LONGEST_PAUSE, state == PAUSED, c);
    sooner(MARK_X, entry + LONGEST_LIMIT, state == LIMIT, p)
}

// The earliest moment still to come, with the window's figures; mark 0 where there is none.
pub(crate) fn next(f: Figures, k: Kept) -> Moment
    ensures { result ≡ moments.next f (bare k) }
{
    let state = k.course.state;
    let clock = k.course.clock as u64;
    let end = k.end as u64;
    let edge = band::minus(end, band::DOUBLED_BEFORE_END);
    let x = from_x(f, k);
    let late = sooner(MARK_W, edge, (state <= LATE) & (clock < edge), x);
    let early = sooner(MARK_W, AT_W, (state <= LATE) & (clock < AT_W), late);
    sooner(MARK_Z, end, state <= LIMIT, early)
}

// Whether there is a moment that is not after the time; the next function differs in the comparison, as
// `rules.past_at` does from `rules.due_by`.
pub(crate) fn is_due(time: u32, m: Moment) -> bool
    ensures { result ≡ due_by time m }
{
    (m.mark != MARK_NONE) & (m.time <= (time as u64))
}

// Whether there is a moment before the time.
pub(crate) fn is_past(time: u32, m: Moment) -> bool
    ensures { result ≡ past_at time m }
{
    (m.mark != MARK_NONE) & (m.time < (time as u64))
}
