// The range checks, and the rubbish checks of a stock without its window.
ghost use Rattle.std.specs.Prelude.{◌≡◌, false, ◌≤◌};
ghost use mathlib.Core.List.{foldl};
ghost use Rattle.quotes.specs.Parts.{bare};
ghost use Rattle.rules.specs.Numbers.{not_price, not_participant, not_time, bad_times, or_not_side, bad_quotes, not_reference, bad_reference, bad_stock};

use band::Mean;
use quotes::Kept;
use rules::{
    AFTER_END, CLOSED, HIGHEST_PRICE, LAST_PARTICIPANT, LATE, LATE_BEFORE_END, MOST_TRADES, PAUSED,
    Quotes, TRADING,
};

// A stock holds at most this many trades, and a reference is of at most this many prices.
pub(crate) const MOST_HELD: u64 = MOST_TRADES as u64;

// A price is at most this.
const HIGHEST: u64 = HIGHEST_PRICE as u64;

// Whether a number is no price.
pub(crate) fn not_price(price: u32) -> bool
    ensures { result ≡ not_price price }
{
    (price == 0) | (HIGHEST_PRICE < price)
}

// Whether a number is no participant.
pub(crate) fn not_participant(participant: u32) -> bool
    ensures { result ≡ not_participant participant }
{
    LAST_PARTICIPANT < participant
}

// Whether a time is after the last, `end` + 300,000.
pub(crate) fn not_time(end: u32, time: u32) -> bool
    ensures { result ≡ not_time end time }
{
    (end as u64) + AFTER_END < (time as u64)
}

// Whether a kept time is out of range; stale ones are checked too.
fn bad_times(k: Kept) -> bool
    ensures { result ≡ bad_times (bare k) }
{
    let last = (k.end as u64) + AFTER_END;
    let clock = k.course.clock as u64;
    let start = k.reference.start as u64;
    let entry = k.course.entry as u64;
    let pause = k.course.pause as u64;
    (last < clock) | (last < start) | (last < entry) | (last < pause)
}

// The OR of all sides: where it is at most 999,999,999, so is each side.
fn bits_of(sides: [u32; 16]) -> u32
    ensures { result ≤ 999_999_999 → foldl or_not_side false sides ≡ false }
{
    sides.iter().fold(0, |bits, side| bits | *side)
}

// Whether one was bad before, or one of these sides is out of range.
fn or_not_sides(bad: bool, sides: [u32; 16]) -> bool
    ensures { result ≡ foldl or_not_side bad sides }
{
    sides
        .iter()
        .fold(bad, |any, side| any | (HIGHEST_PRICE < *side))
}

// Whether a bid or an offer is out of range; the OR of all sides nearly always decides it.
pub(crate) fn bad_quotes(q: Quotes) -> bool
    ensures { result ≡ bad_quotes q }
{
    let bids = q.bids;
    let offers = q.offers;
    let bits = bits_of(bids) | bits_of(offers);
    if bits <= HIGHEST_PRICE {
        return false;
    }
    let bad = or_not_sides(false, bids);
    or_not_sides(bad, offers)
}

// Whether a mean is of over 512 prices, or has a sum that so many prices cannot have. Up to 512 the remainder is the
// count itself; it keeps the product from overflowing without a branch.
fn not_reference(m: Mean) -> bool
    ensures { result ≡ not_reference m }
{
    (MOST_HELD < m.count) | (m.sum < m.count) | (HIGHEST * (m.count % 1_024) < m.sum)
}

// Whether the reference is not one that prices can have, or missing where there must be one.
fn bad_reference(k: Kept) -> bool
    ensures { result ≡ bad_reference (bare k) }
{
    let state = k.course.state;
    let price = k.reference.price;
    let bad = not_reference(price);
    bad | ((price.count == 0) & (TRADING <= state) & (state <= LATE))
}

// Whether a stock is rubbish, without a look at its quotes, its window and its next moment.
pub(crate) fn bad_kept(k: Kept) -> bool
    ensures { result ≡ bad_stock (bare k) }
{
    let state = k.course.state;
    let pause = k.course.pause as u64;
    let setup = crate::bad_setup(k.setup);
    let end = crate::bad_end(k.end);
    let times = bad_times(k);
    let reference = bad_reference(k);
    let edge = band::minus(k.end as u64, LATE_BEFORE_END);
    (CLOSED < state) | setup | end | times | reference | ((state == PAUSED) & (edge <= pause))
}
