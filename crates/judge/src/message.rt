// The checks of a message, by its letter.
ghost use Rattle.std.specs.Prelude.{ℕ, ◌<◌, ◌≡◌};
ghost use Rattle.forms.specs.Checks.{first};
ghost use Rattle.rules.specs.Messages.{kind};
ghost use Rattle.rules.specs.Quotes.{straddle};
ghost use Rattle.rules.specs.Numbers.{out_of_range, not_primary, own_checks};
ghost use Rattle.rules.specs.Refusals.{refused_by};
ghost use Rattle.rules.specs.declared.Message.TheVariants.{Trade};
ghost use Rattle.quotes.specs.Parts.{stock_of, fitted};

use crate::range;
use crate::range::MOST_HELD;
use quotes::Kept;
use rules::{
    FIRST_FIVE, FLAG_NON_EXECUTABLE, HIGHEST_PRICE, Message, Quotes, Refusal, SHORTEST_PAUSE,
};

// The message's row of the table: a number, since document 01 names the form of the table (docs/RULES.md, the 36 entries).
pub(crate) fn kind_of(m: Message) -> usize
    ensures { (result ≡ kind m) × (result < 6) }
{
    match m {
        Message::Trade { .. } => 0,
        Message::Quote { .. } => 1,
        Message::Opening { .. } => 2,
        Message::Pause { .. } => 3,
        Message::Reopening { .. } => 4,
        Message::Closing { .. } => 5,
    }
}

// Whether a price, the participant or the time is out of range.
pub(crate) fn out_of_range(end: u32, m: Message) -> bool
    ensures { result ≡ out_of_range end m }
{
    match m {
        Message::Trade { time, price } => range::not_price(price) | range::not_time(end, time),
        Message::Quote {
            time,
            participant,
            bid,
            offer,
        } => range::not_participant(participant)
            | (HIGHEST_PRICE < bid)
            | (HIGHEST_PRICE < offer)
            | range::not_time(end, time),
        Message::Opening {
            time,
            participant,
            price,
        }
        | Message::Reopening {
            time,
            participant,
            price,
        }
        | Message::Closing {
            time,
            participant,
            price,
        } => range::not_participant(participant)
            | range::not_price(price)
            | range::not_time(end, time),
        Message::Pause { time, participant } => range::not_participant(participant)
            | range::not_time(end, time),
    }
}

// Whether the message must come from the primary and does not.
pub(crate) fn not_primary(primary: u32, m: Message) -> bool
    ensures { result ≡ not_primary primary m }
{
    match m {
        Message::Trade { .. } | Message::Quote { .. } => false,
        Message::Opening { participant, .. }
        | Message::Pause { participant, .. }
        | Message::Reopening { participant, .. }
        | Message::Closing { participant, .. } => participant != primary,
    }
}

// The last checks of T: 12 outside bands in force, 13 where 512 trades are held.
fn trade_refusal(price: u32, held: u64, k: Kept) -> Result<(), Refusal>
    ensures { (time : ℕ) (q : Quotes) → refused_by result ≡ first (own_checks (Trade time price) held (stock_of (fitted k) q)) }
{
    let basis = quotes::basis_of(k);
    let outside = quotes::is_outside(basis, price);
    if outside {
        return Err(Refusal::OutsideBands);
    }
    if MOST_HELD <= held {
        return Err(Refusal::NoRoom);
    }
    Ok(())
}

// Whether a side has flag 2, which P needs.
fn is_straddle(k: Kept, q: Quotes) -> bool
    ensures { result ≡ straddle (stock_of (fitted k) q) }
{
    let basis = quotes::basis_of(k);
    let shown = quotes::show(basis, q);
    let best = shown.best;
    (best.bid.flag == FLAG_NON_EXECUTABLE) | (best.offer.flag == FLAG_NON_EXECUTABLE)
}

// The message's own checks.
pub(crate) fn own_refusal(m: Message, held: u64, k: Kept, q: Quotes) -> Result<(), Refusal>
    ensures { refused_by result ≡ first (own_checks m held (stock_of (fitted k) q)) }
{
    let pause = k.course.pause as u64;
    let end = k.end;
    match m {
        Message::Trade { price, .. } => trade_refusal(price, held, k),
        Message::Opening { time, .. } if FIRST_FIVE <= time => Err(Refusal::TooLate),
        Message::Pause { .. } if !is_straddle(k, q) => Err(Refusal::NoStraddle),
        Message::Reopening { time, .. } if (time as u64) < pause + SHORTEST_PAUSE => {
            Err(Refusal::NotYet)
        }
        Message::Closing { time, .. } if time < end => Err(Refusal::NotYet),
        _ => Ok(()),
    }
}
