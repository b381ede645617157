// The quotes after a message and after a moment.
ghost use Rattle.std.specs.Prelude.{◌≡◌};
ghost use Rattle.rules.specs.States.{no_quotes};
ghost use Rattle.states.specs.Turns.{with_quote, quotes_told, quotes_at};

use rules::{LAST_PARTICIPANT, MARK_C, MARK_Z, Message, Quotes};

// Sets one participant's bid and offer; a participant over 15 changes nothing.
fn with_quote(participant: u32, bid: u32, offer: u32, q: Quotes) -> Quotes
    ensures { result ≡ with_quote participant bid offer q }
{
    if LAST_PARTICIPANT < participant {
        return q;
    }
    let i = participant as usize;
    let mut n = q;
    n.bids[i] = bid;
    n.offers[i] = offer;
    n
}

// Quotes with every side absent: a function, so that its proof, that the default's arrays are zeros, stands once.
fn none() -> Quotes
    ensures { result ≡ no_quotes }
{
    Quotes::default()
}

// The quotes after a message: Q sets a participant's, X leaves none.
#[tactic(auto, using(forms::proofs::Choice::by_case_of), unfolding(crate::specs::Turns::quotes_told))]
pub(crate) fn told(m: Message, q: Quotes) -> Quotes
    ensures { result ≡ quotes_told q m }
{
    match m {
        Message::Quote {
            participant,
            bid,
            offer,
            ..
        } => with_quote(participant, bid, offer, q),
        Message::Closing { .. } => none(),
        _ => q,
    }
}

// The quotes after a moment: z and c leave none. The mark is a number, since `states::after_moment` promises what any
// number gives.
#[tactic(auto, using(forms::proofs::Bools::joined, forms::proofs::Choice::tests), unfolding(crate::specs::Turns::quotes_at))]
pub(crate) fn at(mark: u32, q: Quotes) -> Quotes
    ensures { result ≡ quotes_at mark q }
{
    match mark {
        MARK_Z | MARK_C => none(),
        _ => q,
    }
}
