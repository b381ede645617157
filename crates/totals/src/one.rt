// One total at a time.
ghost use Rattle.std.specs.Prelude.{◌≡◌, ◌+◌, ◌<◌, ◌^◌};
ghost use Rattle.rules.specs.Totals.{longer, begins_limit, lowest_with};
ghost use Rattle.quotes.specs.Parts.{bare};
ghost use Rattle.totals.specs.Bringing.{pause_begins};

use quotes::Kept;
use rules::{LATE, LIMIT, PAUSED};

// A time, and so much more of it where the stock was in its state.
#[tactic(auto, using(forms::proofs::Choice::tests), unfolding(rules::specs::Totals::longer))]
pub(crate) fn longer(here: bool, more: u32, time: u32) -> u32
    requires { time + more < 2 ^ 32 }
    ensures { result ≡ longer here more time }
{
    if here { time + more } else { time }
}

// Whether a Limit began; one that began in the call that ended another has another entry or another reference.
#[tactic(auto, using(forms::proofs::Bools::joined), unfolding(rules::specs::Totals::begins_limit))]
pub(crate) fn begins_limit(before: Kept, after: Kept) -> bool
    ensures { result ≡ begins_limit (bare before) (bare after) }
{
    (after.course.state == LIMIT)
        & ((before.course.state != LIMIT)
            | (after.course.entry != before.course.entry)
            | (after.reference.price != before.reference.price))
}

// Whether a pause of either kind began, by the states before and after.
#[tactic(auto, using(forms::proofs::Bools::joined), unfolding(crate::specs::Bringing::pause_begins))]
pub(crate) fn begins_pause(before: u32, after: u32) -> bool
    ensures { result ≡ pause_begins before after }
{
    ((after == PAUSED) | (after == LATE)) & !((before == PAUSED) | (before == LATE))
}

// The lowest with one more price, where 0 is none: no Option, since the totals of a lent record are numbers and
// `rules.lowest_with` says 0.
#[tactic(auto, using(forms::proofs::Bools::joined, forms::proofs::Choice::tests), unfolding(rules::specs::Totals::lowest_with))]
pub(crate) fn lowest_with(price: u32, n: u32) -> u32
    ensures { result ≡ lowest_with price n }
{
    if (price != 0) & ((n == 0) | (price < n)) {
        price
    } else {
        n
    }
}
