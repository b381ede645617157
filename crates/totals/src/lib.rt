// The day totals beside a stock: whether they are wrong, and what an event makes of them. No public function has a
// `requires`: each gives for every input what the rules say; totals that are wrong are left as they are.
#![tactic(auto)]

ghost use Rattle.std.specs.Prelude.{◌≡◌, ◌+◌, ◌<◌, ◌^◌};
ghost use Rattle.rules.specs.Machine.{message};
ghost use Rattle.rules.specs.Totals.{spend, spent_in_all, traded_by, wrong_totals};
ghost use Rattle.quotes.specs.Parts.{bare};
ghost use Rattle.totals.specs.Bringing.{bringing};

use quotes::Kept;
use rules::{HIGHEST_PRICE, Message, StateTimes, Totals};

mod one;

// Whether the six times do not add up to the clock, or the highest or the lowest is over the price range.
#[tactic(auto, using(forms::proofs::Bools::joined), unfolding(rules::specs::Totals::wrong_totals))]
pub fn is_wrong(t: Totals, clock: u32) -> bool
    ensures { result ≡ wrong_totals clock t }
{
    let s = t.spent;
    // six terms of 32 bits show that the sum fits; a fold over an array of them needs a proof of its bound
    let all = (s.waiting as u64)
        + (s.trading as u64)
        + (s.limit as u64)
        + (s.paused as u64)
        + (s.late as u64)
        + (s.closed as u64);
    (all != (clock as u64)) | (HIGHEST_PRICE < t.highest) | (HIGHEST_PRICE < t.lowest)
}

// The price of a trade message, and 0 for any other message: `rules.traded_by` says the number 0, as document 01 does for
// an absent price, so an Option here and in `brought` would be turned back into it at once.
pub fn traded(m: Message) -> u32
    ensures { result ≡ traded_by (message m) }
{
    match m {
        Message::Trade { price, .. } => price,
        _ => 0,
    }
}

// The six times, after so much more in a state, which is any number of a lent record; a match on it with struct update
// would have as many lines, and a branch.
fn spent(t: StateTimes, state: u32, more: u32) -> StateTimes
    requires { spent_in_all t + more < 2 ^ 32 }
    ensures { result ≡ spend state more t }
{
    StateTimes {
        waiting: one::longer(state == rules::WAITING, more, t.waiting),
        trading: one::longer(state == rules::TRADING, more, t.trading),
        limit: one::longer(state == rules::LIMIT, more, t.limit),
        paused: one::longer(state == rules::PAUSED, more, t.paused),
        late: one::longer(state == rules::LATE, more, t.late),
        closed: one::longer(state == rules::CLOSED, more, t.closed),
    }
}

// The totals after an event, by the price of its trade message (0 for none), and the stock before and after it.
pub fn brought(t: Totals, price: u32, before: Kept, after: Kept) -> Totals
    ensures { result ≡ bringing price (bare before) (bare after) t }
{
    let clock = before.course.clock;
    if is_wrong(t, clock) {
        return t;
    }
    let more = after.course.clock.saturating_sub(clock);
    let state = before.course.state;
    let limit = one::begins_limit(before, after);
    let pause = one::begins_pause(state, after.course.state);
    Totals {
        spent: spent(t.spent, state, more),
        limits: t.limits.saturating_add(u32::from(limit)),
        pauses: t.pauses.saturating_add(u32::from(pause)),
        highest: t.highest.max(price),
        lowest: one::lowest_with(price, t.lowest),
    }
}
