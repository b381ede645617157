// Plays the day of document 01 twice, through the methods of one stock's record and through the book's functions
// over a lent record, and prints the lines of document 01 each time; the stock column is 0.
#![tactic(auto)]

mod play;

ghost use Rattle.stock.specs.View.{bytes, Tells, Settles};

use play::Player;
use rules::{Answer, Message, Notice, PLACES};
use std::io;
use stock::{Record, Until};

// A stock's record with its places.
#[derive(Drop)]
struct Single {
    record: Record,
    times: [u32; PLACES],
    prices: [u32; PLACES],
}

impl Single {
    fn new() -> Single {
        Single {
            record: calls::started_at(&[2, 1, 2, 115_000], 23_400_000, 0),
            times: [0; PLACES],
            prices: [0; PLACES],
        }
    }
}

// Plays by the methods of the record. This program tests both, so they stand side by side, here and where it is lent.
#[derive(Drop)]
struct ByValue(Single);

impl Player for ByValue {
    fn tell(&mut self, _stock: u32, message: Message) -> Answer
        ensures { Tells message (bytes self.old.0.record self.old.0.times self.old.0.prices) (record { answer = result; next = self.new.0.record }) self.new.0.times self.new.0.prices }
    {
        let s = &mut self.0;
        let told = s.record.tell(&mut s.times, &mut s.prices, message);
        s.record = told.next;
        told.answer
    }

    fn settle(&mut self, _stock: u32, time: u32) -> Notice
        ensures { Settles time (bytes self.old.0.record self.old.0.times self.old.0.prices) (record { answer = result; next = self.new.0.record }) self.new.0.times self.new.0.prices }
    {
        let s = &mut self.0;
        let settled = s.record.settle(&mut s.times, &mut s.prices, time);
        s.record = settled.next;
        settled.answer
    }
}

// Plays by the book, which is lent the record.
#[derive(Drop)]
struct Lent(Single);

impl Player for Lent {
    fn tell(&mut self, _stock: u32, message: Message) -> Answer
        ensures { Tells message (bytes self.old.0.record self.old.0.times self.old.0.prices) (record { answer = result; next = self.new.0.record }) self.new.0.times self.new.0.prices }
    {
        let s = &mut self.0;
        book::step_one(&mut s.record, &mut s.times, &mut s.prices, message)
    }

    fn settle(&mut self, _stock: u32, time: u32) -> Notice
        ensures { Settles time (bytes self.old.0.record self.old.0.times self.old.0.prices) (record { answer = result; next = self.new.0.record }) self.new.0.times self.new.0.prices }
    {
        let s = &mut self.0;
        book::step_one(&mut s.record, &mut s.times, &mut s.prices, Until(time))
    }
}

// Plays the day, from its setup on.
fn day(rt: &impl Print, mut player: impl Player + Drop) -> io::Result<()> {
    let messages = [
        letters::opening(1_000, 2, 115_000),
        letters::quote(2_000, 5, 114_900, 115_100),
        // an offer at the lower band, and Limit once the bid is gone
        letters::quote(3_000, 7, 0, 92_000),
        letters::quote(4_000, 5, 0, 115_100),
        // a trade in Limit, and the reopening after the pause that it became
        letters::trade(5_000, 92_000),
        letters::reopening(319_000, 2, 95_000),
        letters::trade(319_500, 120_000),
    ];
    for message in messages {
        player.play(rt, 0, message)?;
    }
    Ok(())
}

fn main(rt: HostRuntime) -> io::Result<()> {
    day(&rt, ByValue(Single::new()))?;
    day(&rt, Lent(Single::new()))
}
