// The functions that an engine in another language links (include/sumpheron.h): the version, one for each call on a
// lent book, and one for each message letter, so that no message has an unknown kind. No function has a `requires`:
// for any bytes the promise gives the answer and every byte that the call leaves.
#![tactic(auto)]

ghost use Rattle.std.specs.Prelude.{◌≡◌};
ghost use Rattle.rules.specs.declared.Message.TheVariants.{Trade, Quote, Opening, Pause, Reopening, Closing};
ghost use Rattle.book.specs.Lent.{lent, TellsIn, SettlesIn, reading_in, coming_in, totalling_in};
ghost use Rattle.book.specs.Setup.{SetsUp};
ghost use Rattle.sumpheron.specs.Version.{version};

use rules::{Answer, Notice, Summary, Upcoming};
use stock::{Record, Until};

// The version of these functions, of the structs that they take and return, and of the numbers in them.
#[unsafe(no_mangle)]
pub extern "C" fn sumpheron_version() -> u32
    ensures { result ≡ version }
{
    5
}

// Sets up every stock: writes its record from its four numbers of the list (tier, leverage, primary, close), and
// sets every place to 0.
#[unsafe(no_mangle)]
pub extern "C" fn sumpheron_setup(
    book: &mut [Record],
    times: &mut [u32],
    prices: &mut [u32],
    end: u32,
    setups: &[u32],
) -> Answer
    ensures { SetsUp end setups.now (lent book.old times.old prices.old) result (lent book.new times.new prices.new) }
{
    book::setup(book, times, prices, end, setups)
}

// Settles a stock to a time: does the earliest moment if it is not after that time.
#[unsafe(no_mangle)]
pub extern "C" fn sumpheron_settle(
    book: &mut [Record],
    times: &mut [u32],
    prices: &mut [u32],
    stock: u32,
    time: u32,
) -> Notice
    ensures { SettlesIn stock time (lent book.old times.old prices.old) result (lent book.new times.new prices.new) }
{
    book::step(book, times, prices, stock, Until(time))
}

// Reads a stock, and changes nothing.
#[unsafe(no_mangle)]
pub extern "C" fn sumpheron_read(
    book: &[Record],
    times: &[u32],
    prices: &[u32],
    stock: u32,
) -> Answer
    ensures { result ≡ reading_in stock (lent book.now times.now prices.now) }
{
    book::ask::<Answer>(book, times, prices, stock)
}

// Gives a stock's earliest moment still to come, and changes nothing.
#[unsafe(no_mangle)]
pub extern "C" fn sumpheron_next(
    book: &[Record],
    times: &[u32],
    prices: &[u32],
    stock: u32,
) -> Upcoming
    ensures { result ≡ coming_in stock (lent book.now times.now prices.now) }
{
    book::ask::<Upcoming>(book, times, prices, stock)
}

// Gives a stock's day totals, and changes nothing.
#[unsafe(no_mangle)]
pub extern "C" fn sumpheron_totals(
    book: &[Record],
    times: &[u32],
    prices: &[u32],
    stock: u32,
) -> Summary
    ensures { result ≡ totalling_in stock (lent book.now times.now prices.now) }
{
    book::ask::<Summary>(book, times, prices, stock)
}

// T: an eligible trade.
#[unsafe(no_mangle)]
pub extern "C" fn sumpheron_trade(
    book: &mut [Record],
    times: &mut [u32],
    prices: &mut [u32],
    stock: u32,
    time: u32,
    price: u32,
) -> Answer
    ensures { TellsIn stock (Trade time price) (lent book.old times.old prices.old) result (lent book.new times.new prices.new) }
{
    let message = letters::trade(time, price);
    book::step(book, times, prices, stock, message)
}

// Q: a participant's bid and offer; 0 means absent.
#[unsafe(no_mangle)]
pub extern "C" fn sumpheron_quote(
    book: &mut [Record],
    times: &mut [u32],
    prices: &mut [u32],
    stock: u32,
    time: u32,
    participant: u32,
    bid: u32,
    offer: u32,
) -> Answer
    ensures { TellsIn stock (Quote time participant bid offer) (lent book.old times.old prices.old) result (lent book.new times.new prices.new) }
{
    let message = letters::quote(time, participant, bid, offer);
    book::step(book, times, prices, stock, message)
}

// O: the primary's opening price.
#[unsafe(no_mangle)]
pub extern "C" fn sumpheron_opening(
    book: &mut [Record],
    times: &mut [u32],
    prices: &mut [u32],
    stock: u32,
    time: u32,
    participant: u32,
    price: u32,
) -> Answer
    ensures { TellsIn stock (Opening time participant price) (lent book.old times.old prices.old) result (lent book.new times.new prices.new) }
{
    let message = letters::opening(time, participant, price);
    book::step(book, times, prices, stock, message)
}

// P: the primary declares a pause.
#[unsafe(no_mangle)]
pub extern "C" fn sumpheron_pause(
    book: &mut [Record],
    times: &mut [u32],
    prices: &mut [u32],
    stock: u32,
    time: u32,
    participant: u32,
) -> Answer
    ensures { TellsIn stock (Pause time participant) (lent book.old times.old prices.old) result (lent book.new times.new prices.new) }
{
    let message = letters::pause(time, participant);
    book::step(book, times, prices, stock, message)
}

// R: the primary's reopening price.
#[unsafe(no_mangle)]
pub extern "C" fn sumpheron_reopening(
    book: &mut [Record],
    times: &mut [u32],
    prices: &mut [u32],
    stock: u32,
    time: u32,
    participant: u32,
    price: u32,
) -> Answer
    ensures { TellsIn stock (Reopening time participant price) (lent book.old times.old prices.old) result (lent book.new times.new prices.new) }
{
    let message = letters::reopening(time, participant, price);
    book::step(book, times, prices, stock, message)
}

// X: the primary's closing.
#[unsafe(no_mangle)]
pub extern "C" fn sumpheron_closing(
    book: &mut [Record],
    times: &mut [u32],
    prices: &mut [u32],
    stock: u32,
    time: u32,
    participant: u32,
    price: u32,
) -> Answer
    ensures { TellsIn stock (Closing time participant price) (lent book.old times.old prices.old) result (lent book.new times.new prices.new) }
{
    let message = letters::closing(time, participant, price);
    book::step(book, times, prices, stock, message)
}
