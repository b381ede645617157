// The answers of the calls.
ghost use Rattle.std.specs.Prelude.{◌≡◌};
ghost use Rattle.rules.specs.Moments.{no_moment};
ghost use Rattle.rules.specs.Numbers.{answer, beside};
ghost use Rattle.rules.specs.Words.{IsReference};
ghost use Rattle.quotes.specs.Parts.{stock_of};
ghost use Rattle.stock.specs.Steps.{Fits, answer_by};

use crate::Reply;
use quotes::{Kept, Shown};
use rules::{Answer, BAD_SETUP, Best, MARK_NONE, NO_STOCK, Notice, Quotes, RUBBISH, Side};

// A number with what is shown of a stock. It is written field by field, so that no struct is copied right after it was written.
pub(crate) fn with_shown(number: u32, k: Kept, s: Shown) -> Answer
    requires { Fits k s }
    ensures { result ≡ answer_by number k s }
{
    let reference = band::printed(k.reference.price);
    Answer {
        number,
        state: k.course.state,
        reference: reference as u32,
        lower: s.bands.lower as u32,
        upper: s.bands.upper as u32,
        best: Best {
            bid: Side {
                price: s.best.bid.price,
                flag: s.best.bid.flag,
            },
            offer: Side {
                price: s.best.offer.price,
                flag: s.best.offer.flag,
            },
        },
    }
}

// A number with what the stock shows, or with zeros for 1, 2 and 3. Only with 1 can the reference be out of range. It is a
// number and no Refusal, since `rules.answer` takes one, and a reading has number 0.
pub(crate) fn answer_of(number: u32, k: Kept, q: Quotes) -> Answer
    requires { ¬ (number ≡ 1) → IsReference k.reference.price }
    ensures { result ≡ answer number (stock_of k q) }
{
    if (number == RUBBISH) | (number == BAD_SETUP) | (number == NO_STOCK) {
        return Answer::beside(number);
    }
    let basis = quotes::basis_of(k);
    // named behind the test: before it, the compiler would copy the quotes on every path
    let own = q;
    let shown = quotes::show(basis, own);
    with_shown(number, k, shown)
}

// An answer with no moment beside it.
pub(crate) fn without_moment(answer: Answer) -> Notice
    ensures { result ≡ beside no_moment answer }
{
    Notice {
        answer,
        mark: MARK_NONE,
        time: 0,
    }
}
