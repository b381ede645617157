// The look at the quotes, which can end Limit and can begin it.
ghost use Rattle.std.specs.Prelude.{◌≡◌};
ghost use Rattle.rules.specs.Quotes.{best_of, flagged, crossed};
ghost use Rattle.rules.specs.States.{look};
ghost use Rattle.quotes.specs.Parts.{stock_of};
ghost use Rattle.states.specs.After.{after_of};
ghost use Rattle.states.specs.Turns.{kept_in, ends_limit, turned_to, left_to};

use crate::room::{Held, Ready};
use crate::rule::Turn;
use crate::{After, rule};
use quotes::Kept;
use rules::{Best, FLAG_LIMIT, LIMIT, Quotes, TRADING};

// Whether a side has flag 3.
#[tactic(auto, using(forms::proofs::Bools::joined), unfolding(rules::specs::Quotes::flagged))]
fn at_limit(b: Best) -> bool
    ensures { result ≡ flagged 3 b }
{
    (b.bid.flag == FLAG_LIMIT) | (b.offer.flag == FLAG_LIMIT)
}

// Whether the best bid is above the best offer.
#[tactic(auto, using(forms::proofs::Bools::joined, forms::proofs::Choice::tests), unfolding(rules::specs::Quotes::crossed))]
fn is_crossed(b: Best) -> bool
    ensures { result ≡ crossed b }
{
    (b.offer.price != 0) & (b.offer.price < b.bid.price)
}

// Whether a turn ends Limit: its quotes are looked at, and neither side has flag 3.
#[tactic(auto, using(forms::proofs::Bools::joined), unfolding(crate::specs::Turns::ends_limit))]
fn ends_limit(t: Turn, b: Best) -> bool
    ensures { result ≡ ends_limit t b }
{
    match t {
        Turn::Still(_) => false,
        Turn::Looking(k) => (k.kept.course.state == LIMIT) & !at_limit(b),
    }
}

// Enters Limit from Trading, if a best quote is at its limit band and the quotes do not cross.
#[tactic(auto, using(forms::proofs::Bools::joined, forms::proofs::Choice::tests), unfolding(rules::specs::States::look))]
fn entered(b: Best, k: Ready) -> Kept
    ensures { (q : Quotes) → b ≡ best_of (stock_of k.kept q) → stock_of result q ≡ look (stock_of k.kept q) }
{
    if (k.kept.course.state == TRADING) & at_limit(b) & !is_crossed(b) {
        return k.enter_limit().kept;
    }
    k.kept
}

// The stock of a turn, looked at where the turn says so, by the best quotes that it shows.
#[tactic(auto, using(forms::proofs::Choice::by_case), unfolding(crate::specs::Turns::turned_to))]
fn seen(t: Turn, b: Best) -> Kept
    ensures { (q : Quotes) → b ≡ best_of (stock_of (kept_in t) q) → stock_of result q ≡ turned_to t q }
{
    match t {
        Turn::Still(k) => k.kept,
        Turn::Looking(k) => entered(b, k),
    }
}

// The stock after a turn; entering Limit changes nothing that the stock shows.
pub(crate) fn turned(t: Turn, q: Quotes) -> After
    ensures { result ≡ after_of (turned_to t q) }
{
    let k = t.kept();
    let shown = quotes::show(quotes::basis_of(k.kept), q);
    After {
        kept: seen(t, shown.best),
        quotes: q,
        shown,
    }
}

// The stock after a turn that may end Limit. Its last lines are those of `turned`: a function for both, given the quotes,
// took settling to 1,607 bytes of stack, over the limit of tests/stack.
pub(crate) fn left(t: Turn, f: Held, q: Quotes) -> After
    ensures { result ≡ after_of (left_to t f.figures q) }
{
    let k = t.kept();
    let shown = quotes::show(quotes::basis_of(k.kept), q);
    if ends_limit(t, shown.best) {
        let n = rule::leave(f, k);
        let again = quotes::show(quotes::basis_of(n.kept), q);
        return After {
            kept: entered(again.best, n),
            quotes: q,
            shown: again,
        };
    }
    After {
        kept: seen(t, shown.best),
        quotes: q,
        shown,
    }
}
