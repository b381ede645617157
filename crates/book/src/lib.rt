// The book: the caller lends an array of stock records and two arrays, trade times and trade prices, in which each
// stock owns 512 places. `step_one` takes one record with its part of both arrays instead. No public function has a
// `requires`: for any bytes the promise gives the answer and every byte that the call leaves. Times and prices stay two
// slices, as in window.
#![tactic(auto)]

ghost use Rattle.std.specs.Prelude.{◌≡◌};
ghost use Rattle.stock.specs.View.{bytes, made, Leaves, asked};
ghost use Rattle.book.specs.Lent.{lent, CallsIn, asking};
ghost use Rattle.book.specs.Setup.{SetsUp};

use rules::{Answer, DONE};
use stock::{Asked, Record, Reply, Step};

mod fresh;

// Takes a step of the stock of a lent record.
pub fn step_one<S: Step>(r: &mut Record, times: &mut [u32], prices: &mut [u32], step: S) -> S::Given
    ensures { Leaves (made (S.rule step) S.Given.beside (bytes r.old times.old prices.old)) (record { answer = result; next = r.new }) times.new prices.new }
{
    let d = step.step(*r, times, prices);
    *r = d.next;
    d.answer
}

// Sets up every stock: writes its record from its four numbers of the list (tier, leverage, primary, close), and
// sets every place to 0.
pub fn setup(
    book: &mut [Record],
    times: &mut [u32],
    prices: &mut [u32],
    end: u32,
    setups: &[u32],
) -> Answer
    ensures { SetsUp end setups.now (lent book.old times.old prices.old) result (lent book.new times.new prices.new) }
{
    let answer = calls::setup_answer(book.len(), times.len(), prices.len(), end, setups);
    if answer.number != DONE {
        return answer;
    }
    fresh::fill(book, setups, end);
    window::wipe(times);
    window::wipe(prices);
    answer
}

// Takes a step of a stock of the lent book.
pub fn step<S: Step>(
    book: &mut [Record],
    times: &mut [u32],
    prices: &mut [u32],
    stock: u32,
    step: S,
) -> S::Given
    ensures { CallsIn stock (made (S.rule step) S.Given.beside) S.Given.beside (lent book.old times.old prices.old) result (lent book.new times.new prices.new) }
{
    let i = stock as usize;
    match calls::call_refusal(book.len(), times.len(), prices.len(), i) {
        Ok(()) => {
            let d = calls::step_at(book[i], times, prices, stock, step);
            let answer = d.answer;
            if S::number(answer) != DONE {
                return answer;
            }
            book[i] = d.next;
            answer
        }
        Err(why) => S::Given::beside(why as u32),
    }
}

// Asks a stock of the lent book, and changes nothing.
pub fn ask<T: Asked>(book: &[Record], times: &[u32], prices: &[u32], stock: u32) -> T
    ensures { result ≡ asking stock (asked T.own T.beside) T.beside (lent book.now times.now prices.now) }
{
    let i = stock as usize;
    match calls::call_refusal(book.len(), times.len(), prices.len(), i) {
        Ok(()) => calls::ask_at(book[i], times, prices, stock),
        Err(why) => T::beside(why as u32),
    }
}
