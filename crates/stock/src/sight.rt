// The first look of every call at its stock and the held trades, and the refusal of the call.
ghost use Rattle.std.specs.Prelude.{◌≡◌, Some};
ghost use Rattle.quotes.specs.Parts.{stock_of, bare, Room};
ghost use Rattle.stock.specs.Steps.{seen_of, message_number, settle_number, Goes};
ghost use Rattle.stock.specs.declared.sight.Sight.{Sight};

use quotes::Kept;
use rules::{Figures, Message, Moment, Quotes, Refusal};

// What a call has found of its stock.
#[derive(Clone, Copy)]
pub struct Sight {
    pub figures: Figures,
    pub earliest: Moment,
}

// Judges a stock with its places. Whether its totals are wrong is a bool, as `totals::is_wrong` gives it: no value stands
// beside it, and nothing else of the totals is asked for.
pub(crate) fn see(
    wrong: bool,
    count: u64,
    k: Kept,
    q: Quotes,
    times: &[u32],
    prices: &[u32],
) -> Option<Sight>
    ensures { result ≡ seen_of wrong (stock_of k q) count times.now prices.now }
{
    let figures = window::survey(k.course.clock, count, times, prices)?;
    let verdict = judge::judged(figures, k, q);
    if verdict.rubbish | wrong {
        return None;
    }
    Some(Sight {
        figures,
        earliest: verdict.earliest,
    })
}

// What was seen, where the message is taken. `Room k` is no type's ghost field, here and in steps.rt: this function has
// `k` also where nothing was seen, and then nothing says that there is room.
pub(crate) fn taking(
    m: Message,
    seen: Option<Sight>,
    count: u64,
    k: Kept,
    q: Quotes,
) -> Result<Sight, Refusal>
    requires { (g : Sight) → seen ≡ Some g → Room k }
    ensures { Goes seen (message_number m seen count (stock_of k q)) result }
{
    let sight = seen.ok_or(Refusal::Rubbish)?;
    judge::message_refusal(m, count, sight.earliest, k, q)?;
    Ok(sight)
}

// What was seen, where a moment is due by the time.
pub(crate) fn settling(time: u32, seen: Option<Sight>, k: Kept) -> Result<Sight, Refusal>
    ensures { Goes seen (settle_number time seen (bare k)) result }
{
    let sight = seen.ok_or(Refusal::Rubbish)?;
    judge::settle_refusal(time, sight.earliest, k)?;
    Ok(sight)
}
