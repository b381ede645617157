// The state rules, up to the look at the quotes.
ghost use Rattle.std.specs.Prelude.{◌≡◌};
ghost use Rattle.rules.specs.Stock.{Trading, in_state, refer_to};
ghost use Rattle.rules.specs.States.{begin_trading, test, begin_pause};
ghost use Rattle.rules.specs.Messages.{trade_rules};
ghost use Rattle.rules.specs.Moments.{first_five, effect};
ghost use Rattle.rules.specs.declared.Quotes.{Quotes};
ghost use Rattle.quotes.specs.Parts.{kept_of, bare, stock_of};
ghost use Rattle.states.specs.After.{effect_at};
ghost use Rattle.states.specs.Turns.{kept_in, quotes_told, quotes_at, turned_to, left_to, left_price, Turns};

use crate::room::{Held, Ready};
use band::Fitted;
use rules::{
    CLOSED, FIRST_FIVE, LATE, LATE_BEFORE_END, MARK_C, MARK_F, MARK_P, MARK_V, MARK_W, MARK_X,
    MARK_Z, Message, PAUSED, TRADING, WAITING,
};

// The stock after a step, before the look at its quotes, which follows or does not.
#[derive(Clone, Copy)]
pub enum Turn {
    Still(Ready),
    Looking(Ready),
}

impl Turn {
    // The stock, whether its quotes are to be looked at or not.
    pub(crate) fn kept(self) -> Ready
        ensures { result.kept ≡ kept_in self }
    {
        match self {
            Turn::Still(k) | Turn::Looking(k) => k,
        }
    }
}

// An entry into Trading.
#[tactic(auto, using(crate::proofs::Rules::begun))]
fn begin_trading(price: Fitted, k: Ready) -> Turn
    ensures { Turns (begin_trading price.mean) k.kept result }
{
    Turn::Looking(k.trading(price))
}

// Limit has ended: Trading, with the mean as the reference where there is a trade.
#[tactic(auto, using(forms::proofs::Choice::tests))]
pub(crate) fn leave(f: Held, k: Ready) -> Ready
    ensures { result.kept ≡ kept_of (in_state Trading (refer_to (left_price f.figures k.kept.reference.price) (bare k.kept))) }
{
    if f.figures.count == 0 {
        return k.trading(k.price());
    }
    k.trading(f.mean())
}

// The Test: a mean that is one percent away becomes the reference.
#[tactic(auto, using(crate::proofs::Rules::test_stays, crate::proofs::Rules::test_moves, crate::proofs::Rules::test_near, forms::proofs::Choice::tests))]
fn test(f: Held, k: Ready) -> Turn
    ensures { Turns (test f.figures) k.kept result }
{
    let state = k.kept.course.state;
    let reference = k.kept.reference;
    let count = f.figures.count;
    if state != TRADING {
        return Turn::Still(k);
    }
    if reference.hold != 0 {
        return Turn::Still(k);
    }
    if count == 0 {
        return Turn::Still(k);
    }
    let mean = f.mean();
    if band::moves(mean.mean, reference.price) {
        return Turn::Looking(k.refer_to(mean));
    }
    Turn::Still(k)
}

// Starts a pause now.
#[tactic(auto, using(crate::proofs::Rules::paused_late, crate::proofs::Rules::paused_early))]
fn begin_pause(k: Ready) -> Turn
    ensures { Turns begin_pause k.kept result }
{
    let end = k.kept.end as u64;
    let clock = k.kept.course.clock as u64;
    if end <= clock + LATE_BEFORE_END {
        return Turn::Still(k.enter_pause(LATE));
    }
    Turn::Still(k.enter_pause(PAUSED))
}

// The rule for a trade that has joined the window.
#[tactic(auto, using(crate::proofs::Rules::opens, crate::proofs::Rules::waits, crate::proofs::Rules::tests))]
fn trade(f: Held, k: Ready) -> Turn
    ensures { Turns (trade_rules f.figures) k.kept result }
{
    let c = k.kept.course;
    if c.state == WAITING {
        if FIRST_FIVE <= c.clock {
            return begin_trading(f.mean(), k);
        }
        return Turn::Still(k);
    }
    test(f, k)
}

// The rule of a message; the clock is already at its time.
#[tactic(auto, using(forms::proofs::Choice::by_case), unfolding(crate::specs::Turns::quotes_told, crate::specs::After::effect_at, crate::specs::Turns::left_to, rules::specs::States::shut))]
pub(crate) fn message(m: Message, f: Held, k: Ready) -> Turn
    ensures { (q : Quotes) → left_to result f.figures (quotes_told q m) ≡ effect_at m f.figures (stock_of k.kept q) }
{
    match m {
        Message::Trade { .. } => trade(f, k),
        Message::Quote { .. } => Turn::Looking(k),
        Message::Opening { price, .. } | Message::Reopening { price, .. } => {
            begin_trading(price.into(), k)
        }
        Message::Pause { .. } => begin_pause(k),
        Message::Closing { .. } => Turn::Still(k.in_state(CLOSED)),
    }
}

// The moment f.
#[tactic(auto, using(crate::proofs::Rules::five_none, crate::proofs::Rules::five_some))]
fn first_five(f: Held, k: Ready) -> Turn
    ensures { Turns (first_five f.figures) k.kept result }
{
    let n = k.not_early();
    if f.figures.count == 0 {
        return Turn::Still(n);
    }
    begin_trading(f.mean(), n)
}

// The rule of a moment; the clock is already at its time, and any other mark counts as h. Marks stay numbers, since
// `states::after_moment` promises `rules.effect` for every number.
#[tactic(auto, using(forms::proofs::Choice::tests), unfolding(crate::specs::Turns::quotes_at, rules::specs::Moments::effect, rules::specs::States::shut, crate::specs::Turns::turned_to))]
pub(crate) fn moment(mark: u32, f: Held, k: Ready) -> Turn
    ensures { (q : Quotes) → turned_to result (quotes_at mark q) ≡ effect mark f.figures (stock_of k.kept q) }
{
    match mark {
        MARK_Z | MARK_C => Turn::Still(k.in_state(CLOSED)),
        MARK_W => Turn::Looking(k),
        MARK_X => begin_pause(k),
        MARK_P => begin_trading(k.price(), k),
        MARK_V => test(f, k),
        MARK_F => first_five(f, k),
        _ => test(f, k.hold_ended()),
    }
}
