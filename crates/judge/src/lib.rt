// The judgement of a stock and of a call: the next moment, what is rubbish, and the ordered refusals. No
// public function has a `requires`: each gives for every input what the rules say, and changes nothing; in
// `message_refusal` a reference that band has no room for counts as none.
#![tactic(auto)]

ghost use Rattle.std.specs.Prelude.{◌≡◌};
ghost use Rattle.forms.specs.Checks.{first};
ghost use Rattle.rules.specs.Numbers.{bad_end, bad_setup, message_checks, time_checks};
ghost use Rattle.rules.specs.Refusals.{refused_by};
ghost use Rattle.quotes.specs.Parts.{stock_of, bare, fitted};
ghost use Rattle.judge.specs.Verdict.{verdict_of};

use quotes::Kept;
use rules::{Figures, Message, Moment, Quotes, Refusal, Setup};

mod message;
mod moment;
mod range;
mod table;

// The verdict on a stock: its earliest moment, mark 0 where there is none, and whether it is rubbish. The moment is
// beside the flag and not in an Option, since `judge.verdict_of` gives that of a rubbish stock too.
#[derive(Clone, Copy)]
pub struct Verdict {
    pub earliest: Moment,
    pub rubbish: bool,
}

// Whether a session's end is out of range.
pub fn bad_end(end: u32) -> bool
    ensures { result ≡ bad_end end }
{
    (end < 3_600_000) | (23_400_000 < end)
}

// Whether a number of the setup is out of range.
pub fn bad_setup(u: Setup) -> bool
    ensures { result ≡ bad_setup u }
{
    let tier = u.tier;
    let leverage = u.leverage;
    let primary = range::not_participant(u.primary);
    let close = range::not_price(u.close);
    (tier == 0)
        | (2 < tier)
        | (leverage == 0)
        | (3 < leverage)
        | ((tier == 1) & (1 < leverage))
        | primary
        | close
}

// Judges a stock; of its trades it uses only the figures.
pub fn judged(f: Figures, k: Kept, q: Quotes) -> Verdict
    ensures { result ≡ verdict_of f (stock_of k q) }
{
    let earliest = moment::next(f, k);
    let bad_kept = range::bad_kept(k);
    let bad_quotes = range::bad_quotes(q);
    let past = moment::is_past(k.course.clock, earliest);
    Verdict {
        earliest,
        rubbish: bad_kept | bad_quotes | past,
    }
}

// Why a message to a stock that is no rubbish is refused.
pub fn message_refusal(
    m: Message,
    held: u64,
    earliest: Moment,
    k: Kept,
    q: Quotes,
) -> Result<(), Refusal>
    ensures { refused_by result ≡ first (message_checks m held earliest (stock_of (fitted k) q)) }
{
    let time = letters::time_of(m);
    if message::out_of_range(k.end, m) {
        return Err(Refusal::OutOfRange);
    }
    if time < k.course.clock {
        return Err(Refusal::BeforeClock);
    }
    if moment::is_due(time, earliest) {
        return Err(Refusal::Unsettled);
    }
    if message::not_primary(k.setup.primary, m) {
        return Err(Refusal::NotPrimary);
    }
    table::taken(message::kind_of(m), k.course.state)?;
    message::own_refusal(m, held, k, q)
}

// Why settling a stock that is no rubbish to a time is refused.
pub fn settle_refusal(time: u32, earliest: Moment, k: Kept) -> Result<(), Refusal>
    ensures { refused_by result ≡ first (time_checks time earliest (bare k)) }
{
    if range::not_time(k.end, time) {
        return Err(Refusal::OutOfRange);
    }
    if !moment::is_due(time, earliest) {
        return Err(Refusal::NothingDue);
    }
    Ok(())
}
