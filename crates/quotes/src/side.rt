// Bands in force, and the two sides of the quotes.
ghost use Rattle.std.specs.Prelude.{◌-◌, min, true, is_some, ◌≡◌};
ghost use Rattle.forms.specs.Choice.{if◌then◌otherwise◌};
ghost use Rattle.rules.specs.Quotes.{in_force, k_time, bands_in, best_bid, best_offer, bid_flag, offer_flag};
ghost use Rattle.rules.specs.States.{no_quotes};
ghost use Rattle.quotes.specs.Parts.{stock_by};
ghost use Rattle.quotes.specs.Shown.{or_zeros};

use crate::Basis;
use band::Bands;
use rules::{FLAG_ABSENT, FLAG_LIMIT, FLAG_NON_EXECUTABLE, FLAG_PLAIN, LIMIT, Quotes, TRADING};

// The best bid and the best offer, without their flags.
#[derive(Clone, Copy)]
pub struct Prices {
    pub bid: u32,
    pub offer: u32,
}

// The time that decides k.
fn k_time(b: Basis) -> u32
    ensures { result ≡ k_time (stock_by b no_quotes) }
{
    if b.state == LIMIT { b.entry } else { b.clock }
}

// Whether bands are in force.
pub(crate) fn in_force(b: Basis) -> bool
    ensures { result ≡ in_force (stock_by b no_quotes) }
{
    (b.state == TRADING) | (b.state == LIMIT)
}

// The bands, which are those in force where some are. The callers make an Option of them: one that a function returns
// goes through memory, and `show` then copies the quotes first (90 instructions a call and 168 bytes of stack).
pub(crate) fn bands_at(b: Basis) -> Bands
    ensures { in_force (stock_by b no_quotes) ≡ true → result ≡ bands_in (stock_by b no_quotes) }
{
    let percent = band::percent(b.tier, b.close);
    let k = band::factor(b.leverage, k_time(b), b.end);
    band::bands_of(b.reference, percent, k)
}

// The price, capped at the greatest 32-bit number.
fn clipped(price: u64) -> u32
    ensures { result ≡ min price 4_294_967_295 }
{
    u32::try_from(price).unwrap_or(u32::MAX)
}

// The highest bid that counts.
fn cap_of(bands: Option<Bands>) -> u32
    ensures { result ≡ (if is_some bands then min (or_zeros bands).upper 4_294_967_295 otherwise 4_294_967_295) }
{
    bands.map_or(u32::MAX, |b| clipped(b.upper))
}

// The highest offer that does not count: 0, an absent one, where no band excludes more.
fn floor_of(bands: Option<Bands>) -> u32
    ensures { result ≡ (if is_some bands then min ((or_zeros bands).lower - 1) 4_294_967_295 otherwise 0) }
{
    bands.map_or(0, |b| clipped(b.lower.saturating_sub(1)))
}

// The best bid and the best offer, in one loop over the participants; each is 0 and no Option where none counts, since
// `rules.best_bid` and `rules.best_offer` say 0, as an answer does. Distances are modulo
// 2^32: down from the cap, 0 (no bid) is nearer than every bid above the cap; up from the least offer that counts,
// 2^32 (no offer) is nearer than every offer that does not.
pub(crate) fn best_prices(bands: Option<Bands>, q: Quotes) -> Prices
    ensures { result ≡ record { bid = best_bid (is_some bands) (or_zeros bands).upper q.bids; offer = best_offer (is_some bands) (or_zeros bands).lower q.offers } }
{
    let cap = cap_of(bands);
    let least = floor_of(bands).wrapping_add(1);
    let none = least.wrapping_neg();
    let mut down = cap;
    let mut up = none;
    for (bid, offer) in q.bids.iter().zip(&q.offers) {
        down = down.min(cap.wrapping_sub(*bid));
        up = up.min(offer.wrapping_sub(least));
    }
    Prices {
        bid: cap - down,
        // without the comparison the compiler does not vectorize the offers
        offer: if up < none { least + up } else { 0 },
    }
}

// The best bid's flag.
pub(crate) fn bid_flag(bands: Option<Bands>, bid: u32) -> u32
    ensures { result ≡ bid_flag (is_some bands) (or_zeros bands) bid }
{
    let b = bid as u64;
    if b == 0 {
        return FLAG_ABSENT;
    }
    match bands {
        Some(bands) if b < bands.lower => FLAG_NON_EXECUTABLE,
        Some(bands) if b == bands.upper => FLAG_LIMIT,
        _ => FLAG_PLAIN,
    }
}

// The best offer's flag, the mirror image of the bid's: one function for both would be given the bands and the
// comparison turned round, which is no plainer.
pub(crate) fn offer_flag(bands: Option<Bands>, offer: u32) -> u32
    ensures { result ≡ offer_flag (is_some bands) (or_zeros bands) offer }
{
    let o = offer as u64;
    if o == 0 {
        return FLAG_ABSENT;
    }
    match bands {
        Some(bands) if bands.upper < o => FLAG_NON_EXECUTABLE,
        Some(bands) if o == bands.lower => FLAG_LIMIT,
        _ => FLAG_PLAIN,
    }
}
