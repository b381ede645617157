// The day program of document 01, for up to eight stocks: reads a day's messages from standard input, and prints a
// line for each message and for each moment that is due before it.
#![tactic(auto)]

mod flow;

ghost use Rattle.std.specs.Prelude.{◌≡◌, ◌+◌, ◌*◌, ◌≤◌, ◌<◌, length, IfSome, MatchResult, OnErr};
ghost use Rattle.day.specs.Flow.{with_flow};
ghost use Rattle.day.specs.Spoken.{spoken_of, day_at, ended_of};
ghost use Rattle.day.specs.Contents.{contents_of, setup_of, is_setup, entered};
ghost use Rattle.day.specs.Printed.{mark_of, put_of};

use flow::Flow;
use rules::{DONE, Message, Notice, PLACES, SETUP_NUMBERS, Setup};
use shelf::Shelf;
use std::io::{Read, Write};
use std::marker::Model;
use stock::{Step, Until};
use tape::Line;

// The most stocks that a day has.
const DAY_STOCKS: u32 = 8;

// The places that so many stocks need, in each array.
const DAY_PLACES: usize = DAY_STOCKS as usize * PLACES;

// The numbers of so many setups.
const DAY_NUMBERS: usize = DAY_STOCKS as usize * SETUP_NUMBERS;

// The number of a line that cannot be read: it ends the day early.
#[derive(Clone, Copy)]
struct Bad(u64);

// The content of the first line.
#[derive(Clone, Copy)]
struct Contents {
    stocks: u32,
    messages: u32,
    end: u32,
}

// A message, and what its line says beside it.
#[derive(Clone, Copy)]
struct Call {
    letter: u8,
    stock: u32,
    time: u32,
    message: Message,
}

// A shelf beside its places, which are lent from the day program's own arrays.
#[derive(Drop)]
struct Book<'a> {
    shelf: Shelf,
    times: &'a mut [u32],
    prices: &'a mut [u32],
}

impl Book<'_> {
    // Takes a step of one of the stocks.
    fn step<S: Step>(&mut self, stock: u32, step: S) -> S::Given {
        self.shelf.step(self.times, self.prices, stock, step)
    }
}

// How far a day has been read.
#[derive(Drop)]
struct Day<R, W> {
    flow: Flow<R, W>,
    // the next message, if the day goes on, which it does while the output takes what is written
    next: Option<Call>,
    // the number of the day's last line, and how many messages are still to be read
    last: u64,
    left: u32,
}

// No more messages are left than the day has lines.
impl<R, W> Model for Day<R, W> {
    ghost use Rattle.std.specs.Prelude.{◌≤◌};
    ghost use Rattle.day.specs.Progress.{Progress};

    ghost Value = { Progress };

    ghost view = { λ d. record { flow = d.flow; next = d.next; last = d.last; left = d.left } };

    ghost invariant = { λ d. (d.left ≤ d.last) × (d.last ≤ 5_000_000_000) };
}

// `C stocks messages E`
fn contents_of(line: Line) -> Option<Contents>
    ensures few { IfSome result (λ c. c.stocks ≤ 8) }
    ensures value { result ≡ contents_of line }
{
    let [stocks, messages, end, ..] = line.numbers;
    if line.letter != b'C' || stocks == 0 || DAY_STOCKS < stocks || judge::bad_end(end) {
        return None;
    }
    Some(Contents {
        stocks,
        messages,
        end,
    })
}

// Whether a line is `S tier leverage primary close`, with every number in range.
fn is_setup(line: Line) -> bool
    ensures { result ≡ is_setup line }
{
    let [tier, leverage, primary, close, ..] = line.numbers;
    line.letter == b'S'
        && !judge::bad_setup(Setup {
            tier,
            leverage,
            primary,
            close,
        })
}

// Enters the setup of stock i into the list.
fn enter(list: &mut [u32], i: usize, line: Line)
    requires { 4 * i + 4 ≤ length list.old }
    ensures { list.new ≡ entered list.old i (setup_of line.numbers) }
{
    let at = SETUP_NUMBERS * i;
    list[at..at + SETUP_NUMBERS].copy_from_slice(&line.numbers[..SETUP_NUMBERS]);
}

// The letter of a mark, which has 32 bits as a field of the C interface.
fn mark_of(mark: u32) -> u8
    ensures { result ≡ mark_of mark }
{
    (mark % 256) as u8
}

// The message of a line, if it is one.
fn heard(line: Line) -> Option<Message>
    ensures { result ≡ spoken_of line.numbers line.letter }
{
    let Line { letter, numbers } = line;
    match (letter, numbers) {
        (b'T', [_, time, price, ..]) => Some(Message::Trade { time, price }),
        (b'Q', [_, time, participant, bid, offer]) => Some(Message::Quote {
            time,
            participant,
            bid,
            offer,
        }),
        (b'O', [_, time, participant, price, _]) => Some(Message::Opening {
            time,
            participant,
            price,
        }),
        (b'P', [_, time, participant, ..]) => Some(Message::Pause { time, participant }),
        (b'R', [_, time, participant, price, _]) => Some(Message::Reopening {
            time,
            participant,
            price,
        }),
        (b'X', [_, time, participant, price, _]) => Some(Message::Closing {
            time,
            participant,
            price,
        }),
        _ => None,
    }
}

impl<R: Read, W: Write> Day<R, W> {
    fn new(reader: R, writer: W) -> Self {
        Day {
            flow: Flow::new(reader, writer),
            next: None,
            last: 0,
            left: 0,
        }
    }

    // Ends the day after its last line.
    fn end(&mut self)
        ensures { self.new ≡ ended_of self.old.last self.old.flow }
    {
        self.next = None;
        self.left = 0;
    }

    // Goes on with the message of a line, while the output takes what is written; `left` are behind it.
    #[tactic(auto, using(forms::proofs::Choice::tests))]
    fn hear(&mut self, line: Line, message: Message, left: u32)
        requires { left ≤ self.old.last }
        ensures { self.new ≡ day_at line message self.old.last left self.old.flow }
    {
        let [stock, time, ..] = line.numbers;
        self.next = self.flow.is_live().then(|| Call {
            letter: line.letter,
            stock,
            time,
            message,
        });
        self.left = left;
    }

    // Reads the next message, or ends the day after the last one.
    fn advance(&mut self) -> Result<(), Bad>
        ensures { OnErr result ((self.new.next ≡ self.old.next) × (self.new.last ≡ self.old.last) × (self.new.left ≡ self.old.left)) }
    {
        if self.left == 0 {
            self.flow.flush();
            self.end();
            return Ok(());
        }
        let bad = Bad(self.last - u64::from(self.left) + 1);
        let line = self.flow.next_line().ok_or(bad)?;
        let message = heard(line).ok_or(bad)?;
        self.hear(line, message, self.left - 1);
        Ok(())
    }

    // Prints the line of a moment; the day goes on with the same message, while the output takes what is written.
    #[tactic(auto, using(forms::proofs::Choice::tests))]
    fn moment(&mut self, stock: u32, notice: Notice)
        ensures goes_on { self.new ≡ with_flow self.old self.new.flow }
        ensures output_after { record { to = self.new.flow.at; bytes = self.new.flow.output } ≡ put_of self.old.flow.output self.old.flow.at stock notice.time (mark_of notice.mark) notice.answer }
    {
        self.flow
            .put(stock, notice.time, mark_of(notice.mark), notice.answer);
        if !self.flow.is_live() {
            self.next = None;
        }
    }

    // Plays the messages. A turn settles one moment that is due by the message's time, or, where none is, tells the
    // message and reads the next.
    fn play(&mut self, mut book: Book) -> Result<(), Bad> {
        // a loop has to end, and no contract says that a stock's moments do; no run makes so many turns
        for _ in 0..u64::MAX {
            let Some(call) = self.next else {
                return Ok(());
            };
            let notice = book.step(call.stock, Until(call.time));
            if notice.answer.number == DONE {
                self.moment(call.stock, notice);
                continue;
            }
            let told = book.step(call.stock, call.message);
            self.flow.put(call.stock, call.time, call.letter, told);
            self.advance()?;
        }
        Ok(())
    }

    // Reads the setups, lists their numbers, and gives how many lines were read with the first. It counts the stocks, since
    // `enters` of specs/Laws says where in the whole list each setup stands, which a part of it, as `chunks_exact_mut` gives,
    // does not show.
    fn setups(&mut self, list: &mut [u32], stocks: usize) -> Result<u64, Bad>
        requires { 4 * stocks ≤ length list.old }
        ensures { MatchResult result (λ lines. lines ≡ stocks + 1) (λ bad. (2 ≤ bad.0) × (bad.0 ≤ stocks + 1)) }
    {
        for i in 0..stocks {
            let line = self.flow.next_line().filter(|line| is_setup(*line));
            enter(list, i, line.ok_or(Bad(i as u64 + 2))?);
        }
        Ok(stocks as u64 + 1)
    }

    // Reads and plays a whole day.
    fn run(&mut self) -> Result<(), Bad> {
        let line = self.flow.next_line();
        let contents = line.and_then(contents_of).ok_or(Bad(1))?;
        let stocks = contents.stocks as usize;
        let mut list = [0; DAY_NUMBERS];
        let list = &mut list[..SETUP_NUMBERS * stocks];
        let lines = self.setups(list, stocks)?;
        self.last = lines + u64::from(contents.messages);
        self.left = contents.messages;
        self.advance()?;
        let mut times = [0; DAY_PLACES];
        let mut prices = [0; DAY_PLACES];
        let times = &mut times[..PLACES * stocks];
        let prices = &mut prices[..PLACES * stocks];
        let mut shelf = Shelf::blank(stocks);
        let _ = shelf.setup(times, prices, contents.end, list);
        self.play(Book {
            shelf,
            times,
            prices,
        })
    }
}

fn main(rt: HostRuntime) {
    let mut day = Day::new(rt.stdin(), rt.stdout());
    if let Err(Bad(line)) = day.run() {
        day.flow.bad(line);
    }
}
