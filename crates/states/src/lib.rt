// What each message and each moment does to a stock, and what the stock then shows. Of the window it uses only the
// figures. No public function has a `requires`: figures whose mean band has no room for count as no trade, and such a
// reference as none.
#![tactic(auto)]

ghost use Rattle.std.specs.Prelude.{◌≡◌};
ghost use Rattle.rules.specs.Stock.{at_time};
ghost use Rattle.rules.specs.Moments.{effect};
ghost use Rattle.quotes.specs.Parts.{stock_of, fitted};
ghost use Rattle.states.specs.After.{fit, effect_of, after_of};

use quotes::{Kept, Shown};
use room::{Held, Ready};
use rules::{Figures, Message, Quotes};

mod look;
mod quoted;
mod room;
mod rule;

// A stock after a step, and what it shows.
#[derive(Clone, Copy)]
pub struct After {
    pub kept: Kept,
    pub quotes: Quotes,
    pub shown: Shown,
}

// The stock after an accepted message, with the figures of the window that it leaves.
#[tactic(auto, unfolding(crate::specs::After::effect_of))]
pub fn after_message(m: Message, f: Figures, k: Kept, q: Quotes) -> After
    ensures { result ≡ after_of (effect_of m (fit f) (stock_of (fitted k) q)) }
{
    let held = Held::of(f);
    let time = letters::time_of(m);
    let turn = rule::message(m, held, Ready::of(k).at_time(time));
    look::left(turn, held, quoted::told(m, q))
}

// The stock after a moment, by its mark and its time, with the figures of the window that it leaves; the mark is a
// number, since `rules.effect` says what any number gives.
pub fn after_moment(mark: u32, time: u32, f: Figures, k: Kept, q: Quotes) -> After
    ensures { result ≡ after_of (effect mark (fit f) (at_time time (stock_of (fitted k) q))) }
{
    let turn = rule::moment(mark, Held::of(f), Ready::of(k).at_time(time));
    look::turned(turn, quoted::at(mark, q))
}
