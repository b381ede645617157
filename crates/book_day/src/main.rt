// Plays a day of a book of three stocks twice: the stocks get the same messages and settle to the same time, in
// two orders, mixed with calls that are refused. Prints a line for each call and each moment, and after each day
// a line for each stock's record: the records of both days agree.
#![tactic(auto)]

mod play;

use play::Player;
use rules::{Answer, Course, Message, Notice, PLACES, Setup};
use shelf::Shelf;
use std::{fmt, io};
use stock::{Record, Until};

// How many of the eight records the book uses.
const STOCKS: usize = 3;

// The time that both days settle to.
const SETTLED: u32 = 302_000;

// A record as it is printed: every number, in the order of its fields.
#[derive(Drop)]
struct Row<'a>(&'a Record);

impl fmt::Display for Row<'_> {
    fn fmt<W: fmt::Write>(&self, f: &mut fmt::Formatter<W>) -> fmt::Result {
        let Record { stock, count, .. } = *self.0;
        let Setup {
            tier,
            leverage,
            primary,
            close,
        } = stock.setup;
        let Course {
            state,
            clock,
            early,
            entry,
            pause,
        } = stock.course;
        let reference = stock.reference;
        write!(
            f,
            "record {tier} {leverage} {primary} {close} {}",
            stock.end
        )?;
        write!(f, " {state} {clock} {early} {entry} {pause}")?;
        write!(f, " {} {}", reference.price.sum, reference.price.count)?;
        write!(f, " {} {}", reference.start, reference.hold)?;
        for price in stock.quotes.bids.iter().chain(&stock.quotes.offers) {
            write!(f, " {price}")?;
        }
        write!(f, " {count}")
    }
}

// A message with the number of its stock.
type Call = (u32, Message);

// A book with its places.
#[derive(Drop)]
struct Book {
    shelf: Shelf,
    times: [u32; STOCKS * PLACES],
    prices: [u32; STOCKS * PLACES],
}

impl Book {
    // The book after its setup.
    fn new() -> Book {
        let mut book = Book {
            shelf: Shelf::blank(STOCKS),
            times: [0; STOCKS * PLACES],
            prices: [0; STOCKS * PLACES],
        };
        let setups = [1, 1, 0, 100_000, 2, 1, 1, 110_000, 2, 3, 2, 120_000];
        let _ = book
            .shelf
            .setup(&mut book.times, &mut book.prices, 23_400_000, &setups);
        book
    }
}

impl Player for Book {
    fn tell(&mut self, stock: u32, message: Message) -> Answer {
        self.shelf
            .step(&mut self.times, &mut self.prices, stock, message)
    }

    fn settle(&mut self, stock: u32, time: u32) -> Notice {
        self.shelf
            .step(&mut self.times, &mut self.prices, stock, Until(time))
    }
}

// Plays one day, from the setup to the printed records: makes the calls and then settles the stocks, each in the
// given order.
fn day(rt: &impl Print, calls: &[Call], stocks: &[u32]) -> io::Result<()> {
    let mut book = Book::new();
    for call in calls {
        let (stock, message) = *call;
        book.play(rt, stock, message)?;
    }
    for stock in stocks {
        book.play_to(rt, *stock, SETTLED)?;
    }
    for record in &book.shelf.records[..STOCKS] {
        println!(rt; "{}", Row(record))?;
    }
    Ok(())
}

fn main(rt: HostRuntime) -> io::Result<()> {
    let open = [
        (0, letters::opening(1_000, 0, 100_000)),
        (1, letters::opening(1_100, 1, 110_000)),
        (2, letters::opening(1_200, 2, 120_000)),
    ];
    let quote = [
        (0, letters::quote(2_300, 5, 99_900, 100_100)),
        (1, letters::quote(2_400, 5, 109_900, 110_100)),
        (2, letters::quote(2_500, 5, 119_900, 120_100)),
    ];
    let trade = [
        (0, letters::trade(3_600, 105_000)),
        (1, letters::trade(3_700, 115_000)),
        (2, letters::trade(3_800, 125_000)),
    ];
    // refused for an unknown stock, an unknown participant and price 0
    let no_stock = (3, letters::trade(5_000, 105_000));
    let no_party = (1, letters::quote(5_000, 16, 110_000, 110_000));
    let no_price = (2, letters::trade(5_000, 0));
    let first = [
        open[0], open[1], open[2], no_stock, quote[0], quote[1], quote[2], no_party, trade[0],
        trade[1], trade[2], no_price,
    ];
    let second = [
        open[2], quote[2], trade[2], no_price, open[0], quote[0], no_stock, trade[0], open[1],
        quote[1], trade[1], no_party,
    ];
    day(&rt, &first, &[0, 1, 2])?;
    day(&rt, &second, &[2, 0, 1])
}
