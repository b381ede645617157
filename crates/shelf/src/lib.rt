// A book of at most eight stocks with records of its own, so that a program can keep it in a local variable; the
// first records, as many as it has stocks, are the book. No function has a `requires`: where it has over eight
// stocks, the answer is number 1 and nothing changes. Times and prices stay two slices, as in window.
#![tactic(auto)]

ghost use Rattle.std.specs.Prelude.{◌≡◌};
ghost use Rattle.shelf.specs.Blank.{blank_shelf};
ghost use Rattle.rules.specs.Numbers.{zeros};
ghost use Rattle.stock.specs.View.{made};
ghost use Rattle.shelf.specs.First.{shelved, SetsUpFirst, StepsFirst, undone, Same, Within};

use rules::{Answer, RUBBISH};
use stock::{Record, Reply, Step};

// The records, and how many of them are the book.
#[derive(Clone, Copy)]
pub struct Shelf {
    pub records: [Record; 8],
    pub stocks: usize,
}

impl Shelf {
    // A shelf before any setup.
    pub fn blank(stocks: usize) -> Shelf
        ensures { result ≡ blank_shelf stocks }
    {
        Shelf {
            records: [Record::default(); 8],
            stocks,
        }
    }

    // Sets up every stock.
    pub fn setup(
        &mut self,
        times: &mut [u32],
        prices: &mut [u32],
        end: u32,
        setups: &[u32],
    ) -> Answer
        ensures { Within self.old.stocks (SetsUpFirst end setups.now (shelved self.old times.old prices.old) result (shelved self.new times.new prices.new)) (Same result (undone zeros) (shelved self.old times.old prices.old) (shelved self.new times.new prices.new)) }
    {
        if self.records.len() < self.stocks {
            return Answer::beside(RUBBISH);
        }
        book::setup(&mut self.records[..self.stocks], times, prices, end, setups)
    }

    // Takes a step of one of the stocks.
    pub fn step<S: Step>(
        &mut self,
        times: &mut [u32],
        prices: &mut [u32],
        stock: u32,
        step: S,
    ) -> S::Given
        ensures { Within self.old.stocks (StepsFirst stock (made (S.rule step) S.Given.beside) S.Given.beside (shelved self.old times.old prices.old) result (shelved self.new times.new prices.new)) (Same result (undone S.Given.beside) (shelved self.old times.old prices.old) (shelved self.new times.new prices.new)) }
    {
        if self.records.len() < self.stocks {
            return S::Given::beside(RUBBISH);
        }
        book::step(&mut self.records[..self.stocks], times, prices, stock, step)
    }
}
