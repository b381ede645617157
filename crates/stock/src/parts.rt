// Takes a stock apart and puts a record together.
ghost use Rattle.std.specs.Prelude.{◌≡◌};
ghost use Rattle.quotes.specs.Parts.{kept_of};
ghost use Rattle.stock.specs.Steps.{record_of};

use crate::Record;
use quotes::Kept;
use rules::{Quotes, Stock, Totals};

// The stock without its quotes.
pub(crate) fn kept_of(s: Stock) -> Kept
    ensures { result ≡ kept_of s }
{
    let setup = s.setup;
    let course = s.course;
    let reference = s.reference;
    Kept {
        setup,
        end: s.end,
        course,
        reference,
    }
}

// The record of the stock with these parts, with `count` held trades and these totals.
pub(crate) fn record_of(k: Kept, quotes: Quotes, count: u64, totals: Totals) -> Record
    ensures { result ≡ record_of k quotes count totals }
{
    let setup = k.setup;
    let course = k.course;
    let reference = k.reference;
    let stock = Stock {
        setup,
        end: k.end,
        course,
        reference,
        quotes,
    };
    Record {
        stock,
        count,
        totals,
    }
}
