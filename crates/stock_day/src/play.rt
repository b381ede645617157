// Plays stocks through a day, and prints a line for each answer and each moment. This file stands in stock_day and in
// book_day: as a crate's it would have public functions that print, and no promise can say what is printed.
use rules::{Answer, Best, DONE, Message, Notice};
use std::{fmt, io};

// The most moments that are settled before a message.
const MOST_MOMENTS: u32 = 2_000;

// A line in the format of the day program.
#[derive(Clone, Copy)]
struct Line {
    stock: u32,
    time: u32,
    letter: char,
    answer: Answer,
}

impl fmt::Display for Line {
    fn fmt<W: fmt::Write>(&self, f: &mut fmt::Formatter<W>) -> fmt::Result {
        let Line {
            stock,
            time,
            letter,
            answer,
        } = *self;
        let Answer {
            number,
            state,
            reference,
            lower,
            upper,
            best,
        } = answer;
        let Best { bid, offer } = best;
        write!(
            f,
            "{stock} {time} {letter} {number} {state} {reference} {lower} {upper} {} {} {} {}",
            bid.price, bid.flag, offer.price, offer.flag,
        )
    }
}

// The letter of a message.
fn letter_of(message: Message) -> char {
    match message {
        Message::Trade { .. } => 'T',
        Message::Quote { .. } => 'Q',
        Message::Opening { .. } => 'O',
        Message::Pause { .. } => 'P',
        Message::Reopening { .. } => 'R',
        Message::Closing { .. } => 'X',
    }
}

// Stocks with their places.
pub(crate) trait Player {
    // Tells a stock a message.
    fn tell(&mut self, stock: u32, message: Message) -> Answer;

    // Settles a stock to a time.
    fn settle(&mut self, stock: u32, time: u32) -> Notice;

    // Settles a stock to a time, and prints each moment.
    fn play_to(&mut self, rt: &impl Print, stock: u32, time: u32) -> io::Result<()> {
        // a bound and no index: no contract says that a stock's moments end
        for _ in 0..MOST_MOMENTS {
            let notice = self.settle(stock, time);
            if notice.answer.number != DONE {
                break;
            }
            let line = Line {
                stock,
                time: notice.time,
                letter: char::from_u32(notice.mark).unwrap_or('?'),
                answer: notice.answer,
            };
            println!(rt; "{line}")?;
        }
        Ok(())
    }

    // Settles a stock to a message's time, tells the message, and prints its answer.
    fn play(&mut self, rt: &impl Print, stock: u32, message: Message) -> io::Result<()> {
        let time = letters::time_of(message);
        self.play_to(rt, stock, time)?;
        let line = Line {
            stock,
            time,
            letter: letter_of(message),
            answer: self.tell(stock, message),
        };
        println!(rt; "{line}")
    }
}
