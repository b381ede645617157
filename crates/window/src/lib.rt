// The five-minute window of trades, in a stock's part of the two lent arrays: its first `count` places of
// each are the window, the oldest trade first. Times and prices stay two slices side by side: the form of the lent
// arrays is fixed, two arrays of 32-bit numbers, and the C interface passes them. A count stands beside a slice, since
// the lent record has it and may have any, and `write` also sets places behind the used ones. No public function has
// a `requires`: definitions of specs/Places.antt give each its result for every input, and every place at exit.
#![tactic(auto)]

ghost use Rattle.std.specs.Prelude.{◌≡◌};
ghost use Rattle.window.specs.Places.{survey_of, gone_of, rest_of, wiped, Written};

use rules::{Figures, MOST_TRADES, PLACES};

mod one;
mod pass;

// What a step does to the window.
#[derive(Clone, Copy, PartialEq, Eq, Debug)]
pub enum Change {
    Stay,
    Join { time: u32, price: u32 },
    // the `gone` oldest trades leave
    Leave { gone: u32 },
    Empty,
    // the window is this trade alone
    Start { time: u32, price: u32 },
}

// Validates and sums the window, in one pass over the times and two, rarely three, over the prices: it gives the
// figures where both parts have 512 places, at most 512 trades are held, and none is bad at the clock.
pub fn survey(clock: u32, count: u64, times: &[u32], prices: &[u32]) -> Option<Figures>
    ensures { result ≡ survey_of clock count times.now prices.now }
{
    let n = count as usize;
    if times.len() != PLACES {
        return None;
    }
    if prices.len() != PLACES {
        return None;
    }
    if PLACES < n {
        return None;
    }
    let times = &times[..n];
    let prices = &prices[..n];
    let late = pass::bad_times(clock, times);
    let wrong = pass::bad_prices(prices);
    if late | wrong {
        return None;
    }
    Some(Figures {
        count: count as u32,
        oldest: times.first().copied().unwrap_or(0),
        sum: pass::sum(prices),
    })
}

// How many of the oldest trades have left at a time; 0 and no Option where there are not `count` places, since
// `window.gone_of` says 0.
pub fn gone(time: u32, count: u32, times: &[u32]) -> u32
    ensures { result ≡ gone_of time count times.now }
{
    let n = count as usize;
    if n <= times.len() {
        return pass::gone_in(time, &times[..n]) as u32;
    }
    0
}

// The figures of the window without its `gone` oldest trades, from the figures `f` of all of them; zeros where a
// part does not have 512 places, more trades are held, or the sum is less than that of the trades that left.
pub fn rest(gone: u32, f: Figures, times: &[u32], prices: &[u32]) -> Figures
    ensures { result ≡ rest_of gone f times.now prices.now }
{
    // zeros and no Option, since `window.rest_of` says so: of a window that no trade stays in they are the figures
    let none = Figures::default();
    if times.len() != PLACES {
        return none;
    }
    if prices.len() != PLACES {
        return none;
    }
    if MOST_TRADES < f.count {
        return none;
    }
    if f.count <= gone {
        return none;
    }
    let k = gone as usize;
    let left = pass::sum(&prices[..k]);
    if f.sum < left {
        return none;
    }
    Figures {
        count: f.count - gone,
        oldest: times[k],
        sum: f.sum - left,
    }
}

// Sets every place to 0.
pub fn wipe(xs: &mut [u32])
    ensures { xs.new ≡ wiped xs.old }
{
    // no `fill`: by it `sumpheron_setup` takes 16 bytes more of stack, which is over the limit of tests/stack
    for x in xs {
        *x = 0;
    }
}

// Writes the changed window to the front of each part, and zeros to the places that it frees; other unused places
// keep their bytes. A part that is too short stays as it is.
pub fn write(times: &mut [u32], prices: &mut [u32], count: u64, change: Change)
    ensures { Written change count times.old prices.old times.new prices.new }
{
    let n = count as usize;
    match change {
        Change::Stay => {}
        Change::Join { time, price } => {
            one::join(times, n, time);
            one::join(prices, n, price);
        }
        Change::Leave { gone } => {
            one::leave(times, n, gone as usize);
            one::leave(prices, n, gone as usize);
        }
        Change::Empty => {
            one::leave(times, n, n);
            one::leave(prices, n, n);
        }
        Change::Start { time, price } => {
            one::start(times, n, time);
            one::start(prices, n, price);
        }
    }
}
