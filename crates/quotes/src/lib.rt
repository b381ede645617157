// What a stock shows: the bands in force, and the best bid and the best offer with their flags. A function takes
// only the parts of a stock that it needs. No public function has a `requires`: each gives for every input what the
// rules of quotes give for a stock with these parts; a reference that band has no room for counts as none.
#![tactic(auto)]

ghost use Rattle.std.specs.Prelude.{◌≡◌};
ghost use Rattle.rules.specs.States.{no_quotes};
ghost use Rattle.rules.specs.Numbers.{outside};
ghost use Rattle.quotes.specs.Parts.{basis_of, stock_by};
ghost use Rattle.quotes.specs.Shown.{shown_of};

use band::{Bands, Mean};
use rules::{Best, Course, Quotes, Reference, Setup, Side};

mod side;

// A stock without its quotes. Functions take it and, only where they need them, the quotes or the window's figures
// beside it: one struct of all three would be copied at every call that is not inlined (docs/ARCHITECTURE.md).
#[derive(Clone, Copy)]
pub struct Kept {
    pub setup: Setup,
    pub end: u32,
    pub course: Course,
    pub reference: Reference,
}

// The numbers that bands depend on.
#[derive(Clone, Copy)]
pub struct Basis {
    pub tier: u32,
    pub leverage: u32,
    pub close: u32,
    pub end: u32,
    // a number: a lent record may hold any
    pub state: u32,
    pub clock: u32,
    pub entry: u32,
    pub reference: Mean,
}

// What a stock shows.
#[derive(Clone, Copy)]
pub struct Shown {
    pub bands: Bands,
    pub best: Best,
}

// The numbers that the bands of a stock depend on; no From, since docs/PROMISES.md names this function and its promise.
pub fn basis_of(k: Kept) -> Basis
    ensures { result ≡ basis_of k }
{
    let reference = k.reference.price;
    Basis {
        tier: k.setup.tier,
        leverage: k.setup.leverage,
        close: k.setup.close,
        end: k.end,
        state: k.course.state,
        clock: k.course.clock,
        entry: k.course.entry,
        reference,
    }
}

// The bands in force, and the best bid and the best offer, each with its flag.
pub fn show(b: Basis, q: Quotes) -> Shown
    ensures { result ≡ shown_of (stock_by b q) }
{
    let bands = side::in_force(b).then(|| side::bands_at(b));
    let prices = side::best_prices(bands, q);
    let bid_flag = side::bid_flag(bands, prices.bid);
    let offer_flag = side::offer_flag(bands, prices.offer);
    let best = Best {
        bid: Side {
            price: prices.bid,
            flag: bid_flag,
        },
        offer: Side {
            price: prices.offer,
            flag: offer_flag,
        },
    };
    Shown {
        bands: bands.unwrap_or_default(),
        best,
    }
}

// Whether a price is outside bands in force.
pub fn is_outside(b: Basis, price: u32) -> bool
    ensures { result ≡ outside (stock_by b no_quotes) price }
{
    let p = price as u64;
    let bands = side::in_force(b).then(|| side::bands_at(b));
    bands.is_some_and(|bands| (p < bands.lower) | (bands.upper < p))
}
