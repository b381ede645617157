// The list of setups: four numbers for each stock.
ghost use Rattle.std.specs.Prelude.{◌≡◌, false, ◌≤◌, length, get_or};
ghost use mathlib.Core.List.{foldl};
ghost use Rattle.rules.specs.Book.{no_setup};
ghost use Rattle.rules.specs.Numbers.{or_bad_setup};
ghost use Rattle.rules.specs.Refusals.{refused_by};
ghost use Rattle.calls.specs.Setup.{setups_of, record_of, setup_number};

use crate::shape;
use rules::{Course, Refusal, SETUP_NUMBERS, Setup, Stock, WAITING};
use stock::Record;

// The setup that four numbers say.
fn setup_of(numbers: &[u32]) -> Setup
    requires { 4 ≤ length numbers.now }
    ensures { result ≡ get_or (setups_of numbers.now) 0 no_setup }
{
    Setup {
        tier: numbers[0],
        leverage: numbers[1],
        primary: numbers[2],
        close: numbers[3],
    }
}

// The setup of any stock; where the list is too short, a placeholder that no call reads. It is no Option, since
// `calls::started_at`, which serves any list, promises a record by this placeholder (`rules.no_setup`).
pub(crate) fn setup_at(list: &[u32], i: usize) -> Setup
    ensures { result ≡ get_or (setups_of list.now) i no_setup }
{
    if i < list.len() / SETUP_NUMBERS {
        return setup_of(&list[SETUP_NUMBERS * i..]);
    }
    Setup {
        tier: 1,
        leverage: 1,
        primary: 0,
        close: 1,
    }
}

// Whether one of the setups is out of range.
fn any_bad(list: &[u32]) -> bool
    ensures { result ≡ foldl or_bad_setup false (setups_of list.now) }
{
    let mut bad = false;
    for numbers in list.chunks_exact(SETUP_NUMBERS) {
        bad = bad | judge::bad_setup(setup_of(numbers));
    }
    bad
}

// Why a setup is refused.
pub(crate) fn refusal(
    stocks: usize,
    times: usize,
    prices: usize,
    end: u32,
    list: &[u32],
) -> Result<(), Refusal>
    ensures { refused_by result ≡ setup_number stocks times prices end list.now }
{
    if shape::bad_shape(stocks, times, prices) {
        return Err(Refusal::Rubbish);
    }
    let n = list.len();
    if n != SETUP_NUMBERS * stocks {
        return Err(Refusal::Rubbish);
    }
    let end_is_bad = judge::bad_end(end);
    let setup_is_bad = any_bad(list);
    if end_is_bad | setup_is_bad {
        return Err(Refusal::BadSetup);
    }
    Ok(())
}

// The record of a stock that is set up: it holds no trade, and every total is 0.
pub(crate) fn started(setup: Setup, end: u32) -> Record
    ensures { result ≡ record_of end setup }
{
    let course = Course {
        state: WAITING,
        early: 1,
        ..Course::default()
    };
    let stock = Stock {
        setup,
        end,
        course,
        ..Stock::default()
    };
    Record {
        stock,
        ..Record::default()
    }
}
