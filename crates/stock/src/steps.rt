// The effect of an accepted call on the stock and on the window, computed without writing a place.
ghost use Rattle.std.specs.Prelude.{◌≡◌, ◌*◌, ◌≤◌};
ghost use Rattle.rules.specs.Moments.{come};
ghost use Rattle.rules.specs.Messages.{after};
ghost use Rattle.quotes.specs.Parts.{stock_of, Room};
ghost use Rattle.stock.specs.View.{holding};
ghost use Rattle.stock.specs.Window.{Held};
ghost use Rattle.stock.specs.Steps.{change_of, change_at, with_trade, Changed, Makes};

use quotes::Kept;
use rules::{Figures, MARK_C, MARK_V, MARK_Z, Message, Moment, Quotes};
use states::After;
use window::Change;

// The held window: its figures, with the lent places that they are of.
#[derive(Clone, Copy)]
pub struct Window<'a> {
    pub figures: Figures,
    pub times: &'a [u32],
    pub prices: &'a [u32],
    ghost held: { Held figures times.now prices.now },
}

// The stock with what it shows, how many trades it then holds, and the change that is still to be written to its
// places.
#[derive(Clone, Copy)]
pub struct Effect {
    pub after: After,
    pub count: u64,
    pub change: Change,
}

// What an accepted message does to the window.
fn change_of(m: Message) -> Change
    ensures { result ≡ change_of m }
{
    // an arm for each message: of joined arms the check left a goal open
    match m {
        Message::Trade { time, price } => Change::Join { time, price },
        Message::Quote { .. } => Change::Stay,
        Message::Opening { time, price, .. } => Change::Start { time, price },
        Message::Pause { .. } => Change::Stay,
        Message::Reopening { time, price, .. } => Change::Start { time, price },
        Message::Closing { .. } => Change::Empty,
    }
}

// What a moment does to the window; the mark is a number, since `states::after_moment` promises what any gives.
fn change_at(mark: u32, time: u32, count: u32, times: &[u32]) -> Change
    ensures { result ≡ change_at mark time count times.now }
{
    match mark {
        MARK_V => {
            let gone = window::gone(time, count, times);
            Change::Leave { gone }
        }
        // two arms: of `MARK_Z | MARK_C` the prover does not know in the last arm that the mark is neither
        MARK_Z => Change::Empty,
        MARK_C => Change::Empty,
        _ => Change::Stay,
    }
}

// The figures with one more trade.
fn joined(f: Figures, time: u32, price: u32) -> Figures
    requires { (f.count ≤ 512) × (f.sum ≤ 999999999 * f.count) }
    ensures { result ≡ with_trade f time price }
{
    let count = f.count + 1;
    let sum = f.sum + (price as u64);
    if f.count == 0 {
        return Figures {
            count,
            oldest: time,
            sum,
        };
    }
    Figures { count, sum, ..f }
}

// The figures of the window after a change. It is a match over `Change` and no closure, since window::write does the same
// change to the places later.
fn figures_after(change: Change, w: Window) -> Figures
    ensures { Changed change w.entry.figures.count w.entry.times.now w.entry.prices.now result }
{
    let f = w.figures;
    match change {
        Change::Stay => f,
        Change::Join { time, price } => joined(f, time, price),
        Change::Leave { gone } => window::rest(gone, f, w.times, w.prices),
        Change::Empty => Figures::default(),
        Change::Start { time, price } => Figures {
            count: 1,
            oldest: time,
            sum: price as u64,
        },
    }
}

// The step of an accepted message, from the figures of the held window.
pub(crate) fn after_message(m: Message, w: Window, k: Kept, q: Quotes) -> Effect
    requires { Room k }
    ensures { Makes (after m) (holding (stock_of k q) w.entry.figures.count w.entry.times.now w.entry.prices.now) result }
{
    let change = change_of(m);
    let g = figures_after(change, w);
    let after = states::after_message(m, g, k, q);
    Effect {
        after,
        count: g.count as u64,
        change,
    }
}

// A moment's own time, which is at most `by`, the time by which it is due, so that the cast keeps it; u32::try_from would
// have an arm that cannot come about.
pub(crate) fn own_time(m: Moment, by: u32) -> u32
    requires { m.time ≤ by }
    ensures { result ≡ m.time }
{
    m.time as u32
}

// The step of a moment that is due by a time; it happens at its own time.
pub(crate) fn after_moment(m: Moment, by: u32, w: Window, k: Kept, q: Quotes) -> Effect
    requires { Room k × (m.time ≤ by) }
    ensures { Makes (come m) (holding (stock_of k q) w.entry.figures.count w.entry.times.now w.entry.prices.now) result }
{
    let time = own_time(m, by);
    let change = change_at(m.mark, time, w.figures.count, w.times);
    let g = figures_after(change, w);
    let after = states::after_moment(m.mark, time, g, k, q);
    Effect {
        after,
        count: g.count as u64,
        change,
    }
}
