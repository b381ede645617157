// Passes over the held times or the held prices. Each is branch-free arithmetic, so that the compiler vectorizes it;
// only `gone_in` exits early, at the first trade that stays.
ghost use Rattle.std.specs.Prelude.{◌≡◌, ◌+◌, ◌≤◌, length};
ghost use mathlib.Core.List.{foldl};
ghost use Rattle.window.specs.Places.{left_of};
ghost use Rattle.window.specs.Passes.{times_seen, prices_bad};

use rules::{HIGHEST_PRICE, WINDOW};

// Whether one of the times is after the clock or before the time ahead of it.
pub(crate) fn bad_times(clock: u32, times: &[u32]) -> bool
    ensures { result ≡ (times_seen clock times.now).bad }
{
    let Some(last) = times.last() else {
        return false;
    };
    // a time below the one ahead of it leaves bits; by differences the loop takes 15 instructions, by comparisons 18
    let fall = times.iter().zip(&times[1..]).fold(
        0,
        |fall, (before, time)| fall | before.saturating_sub(*time),
    );
    // where the times are in order, the last is the latest
    (fall != 0) | (clock < *last)
}

// Whether one of the prices is out of range, looked at one by one.
fn any_bad_price(prices: &[u32]) -> bool
    ensures { result ≡ prices_bad prices.now }
{
    prices
        .iter()
        .fold(false, |bad, p| bad | (*p == 0) | (HIGHEST_PRICE < *p))
}

// Whether one of the prices is out of range. Each price less 1, where 0 wraps to 4,294,967,295, is at most the bitwise
// OR of all of these: where that is below 999,999,999, every price is 1 to 999,999,999.
pub(crate) fn bad_prices(prices: &[u32]) -> bool
    ensures { result ≡ prices_bad prices.now }
{
    let bits = prices.iter().fold(0, |bits, p| bits | p.wrapping_sub(1));
    if bits < HIGHEST_PRICE {
        return false;
    }
    any_bad_price(prices)
}

// How many at the front of the times have left.
pub(crate) fn gone_in(time: u32, times: &[u32]) -> usize
    ensures { result ≡ left_of time times.now }
{
    let t = time as u64;
    times
        .iter()
        .take_while(|u| (**u as u64) + WINDOW <= t)
        .count()
}

// The sum of the prices; the loop sums their 16-bit halves apart, since a vector holds twice as many 32-bit numbers as
// 64-bit ones.
pub(crate) fn sum(prices: &[u32]) -> u64
    requires { length prices.now ≤ 512 }
    ensures { result ≡ foldl ◌+◌ 0 prices.now }
{
    let mut low: u32 = 0;
    let mut high: u32 = 0;
    for p in prices {
        low += *p % 65_536;
        high += *p / 65_536;
    }
    65_536 * (high as u64) + (low as u64)
}
