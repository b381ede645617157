// Checks of the lengths of the arrays.
ghost use Rattle.std.specs.Prelude.{◌≡◌, ◌||◌, ◌+◌, ◌*◌, ltb};
ghost use Rattle.rules.specs.Numbers.{bad_shape};

use rules::{MOST_STOCKS, PLACES};

// Whether the shape of the book is wrong: it must have 1 to 64 stocks, and each array 512 places for each stock.
pub(crate) fn bad_shape(stocks: usize, times: usize, prices: usize) -> bool
    ensures { result ≡ bad_shape stocks times prices }
{
    if (stocks == 0) | (MOST_STOCKS < stocks) {
        return true;
    }
    let places = PLACES * stocks;
    (times != places) | (prices != places)
}

// The place at which the part of a stock begins.
pub(crate) fn start_of(stock: u32) -> usize
    ensures { result ≡ 512 * stock }
{
    PLACES * (stock as usize)
}

// Whether one of the arrays ends before the part of the stock does.
pub(crate) fn is_short(times: usize, prices: usize, stock: u32) -> bool
    ensures { result ≡ (ltb times (512 * stock + 512) || ltb prices (512 * stock + 512)) }
{
    let end = PLACES * (stock as usize) + PLACES;
    (times < end) | (prices < end)
}
