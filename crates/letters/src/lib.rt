// Builds the message of each letter from its numbers, in the order of document 01, and gives a message's time. No
// function has a `requires`: the book checks the ranges. The six builders stay one for each letter: docs/PROMISES.md has a
// promise of each, the must-fail edits name each, and a generic one would be no plainer.
#![tactic(auto)]

ghost use Rattle.std.specs.Prelude.{◌≡◌};
ghost use Rattle.rules.specs.declared.Message.TheVariants.{Trade, Quote, Opening, Pause, Reopening, Closing};
ghost use Rattle.rules.specs.Messages.{time_of};

use rules::Message;

// T: an eligible trade.
pub fn trade(time: u32, price: u32) -> Message
    ensures { result ≡ Trade time price }
{
    Message::Trade { time, price }
}

// Q: a participant's bid and offer; 0 means absent.
pub fn quote(time: u32, participant: u32, bid: u32, offer: u32) -> Message
    ensures { result ≡ Quote time participant bid offer }
{
    Message::Quote {
        time,
        participant,
        bid,
        offer,
    }
}

// O: the primary's opening price.
pub fn opening(time: u32, participant: u32, price: u32) -> Message
    ensures { result ≡ Opening time participant price }
{
    Message::Opening {
        time,
        participant,
        price,
    }
}

// P: the primary declares a pause.
pub fn pause(time: u32, participant: u32) -> Message
    ensures { result ≡ Pause time participant }
{
    Message::Pause { time, participant }
}

// R: the primary's reopening price.
pub fn reopening(time: u32, participant: u32, price: u32) -> Message
    ensures { result ≡ Reopening time participant price }
{
    Message::Reopening {
        time,
        participant,
        price,
    }
}

// X: the primary's closing.
pub fn closing(time: u32, participant: u32, price: u32) -> Message
    ensures { result ≡ Closing time participant price }
{
    Message::Closing {
        time,
        participant,
        price,
    }
}

// The message's time.
pub fn time_of(m: Message) -> u32
    ensures { result ≡ time_of m }
{
    match m {
        Message::Trade { time, .. }
        | Message::Quote { time, .. }
        | Message::Opening { time, .. }
        | Message::Pause { time, .. }
        | Message::Reopening { time, .. }
        | Message::Closing { time, .. } => time,
    }
}
