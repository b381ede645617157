// The building blocks of the calls on a book, over one record by value: the first checks of a call, the step of one
// stock in its part of both arrays, and the parts of a setup. No public function has a `requires`: where an array
// is too short for the stock's part, a step gives 1 with zeros and changes nothing. A step that shows quotes first
// copies those of its record array by array: copied as a whole, they would be copied again for each function that
// is passed them (docs/ARCHITECTURE.md, "Inside stock"). Times and prices stay two arguments here and above: the
// caller lends two arrays (document 01), and the C functions take them so.
#![tactic(auto)]

ghost use Rattle.std.specs.Prelude.{◌≡◌, get_or};
ghost use Rattle.forms.specs.Checks.{first};
ghost use Rattle.rules.specs.Book.{no_setup};
ghost use Rattle.rules.specs.Numbers.{call_checks, zeros};
ghost use Rattle.rules.specs.Refusals.{refused_by};
ghost use Rattle.stock.specs.View.{bytes, made, asked};
ghost use Rattle.calls.specs.Parts.{part, StepsAt};
ghost use Rattle.calls.specs.Setup.{setups_of, record_of, setup_number};

use rules::{Answer, DONE, PLACES, Quotes, RUBBISH, Refusal};
use stock::{Asked, Handed, Record, Reply, Step};

mod list;
mod shape;

// Why the first checks of a call refuse it: they check the shape of the book, then the number of the stock. The three
// lengths stay arguments, as docs/PROMISES.md has its promise.
pub fn call_refusal(stocks: usize, times: usize, prices: usize, i: usize) -> Result<(), Refusal>
    ensures { refused_by result ≡ first (call_checks stocks times prices i) }
{
    if shape::bad_shape(stocks, times, prices) {
        return Err(Refusal::Rubbish);
    }
    if stocks <= i {
        return Err(Refusal::NoStock);
    }
    Ok(())
}

// The record with its quotes copied array by array, as the head of this file says; it is inlined always, since a
// call would copy the whole record again.
#[inline(always)]
fn copied(r: Record) -> Record
    ensures { result ≡ r }
{
    let mut s = r.stock;
    let bids = s.quotes.bids;
    let offers = s.quotes.offers;
    let quotes = Quotes { bids, offers };
    s.quotes = quotes;
    let mut own = r;
    own.stock = s;
    own
}

// Takes a step of one stock, in its 512 places of each array; gives 1 with nothing beside it where an array is too
// short for them. It tests the lengths and slices: after `get_mut` of a range, a proof knows the length of the array
// and none of its entries, which `StepsAt` names.
pub fn step_at<S: Step>(
    r: Record,
    times: &mut [u32],
    prices: &mut [u32],
    stock: u32,
    step: S,
) -> Handed<S::Given>
    ensures { StepsAt stock (made (S.rule step) S.Given.beside) r times.old prices.old result times.new prices.new }
{
    if shape::is_short(times.len(), prices.len(), stock) {
        return Handed {
            answer: S::Given::beside(RUBBISH),
            next: r,
        };
    }
    let from = shape::start_of(stock);
    let to = from + PLACES;
    step.step(copied(r), &mut times[from..to], &mut prices[from..to])
}

// Asks one stock, in its 512 places of each array; gives 1 with nothing beside it where an array is too short for
// them, by the test of `step_at`.
pub fn ask_at<T: Asked>(r: Record, times: &[u32], prices: &[u32], stock: u32) -> T
    ensures { result ≡ asked T.own T.beside (bytes r (part stock times.now) (part stock prices.now)) }
{
    if shape::is_short(times.len(), prices.len(), stock) {
        return T::beside(RUBBISH);
    }
    let from = shape::start_of(stock);
    let to = from + PLACES;
    T::ask(copied(r), &times[from..to], &prices[from..to])
}

// The answer of a setup; number 0 means that the caller is to carry it out.
pub fn setup_answer(stocks: usize, times: usize, prices: usize, end: u32, list: &[u32]) -> Answer
    ensures { result ≡ zeros (setup_number stocks times prices end list.now) }
{
    match list::refusal(stocks, times, prices, end, list) {
        Ok(()) => Answer::beside(DONE),
        Err(why) => Answer::beside(why as u32),
    }
}

// The record of stock i after a setup; where the list is too short, that of a placeholder setup, which no call
// reads.
pub fn started_at(list: &[u32], end: u32, i: usize) -> Record
    ensures { result ≡ record_of end (get_or (setups_of list.now) i no_setup) }
{
    let setup = list::setup_at(list, i);
    list::started(setup, end)
}
