// One stock's record by value, with its two lent parts of 512 places. Every call first validates the record and its
// held trades; it computes a step without writing a place, and writes the places at the end. No public function has
// a `requires`: for any record, parts of any length and any numbers the promise gives the answer, the next record
// and every place. Times and prices stay two slices, as in window.
#![tactic(auto)]

ghost use Rattle.std.specs.Prelude.{◌≡◌, ℕ};
ghost use Rattle.rules.specs.Numbers.{zeros, no_notice, none_coming};
ghost use Rattle.rules.specs.Counted.{Counted, read_answer, next_answer, no_summary, totals_answer};
ghost use Rattle.rules.proofs.Answers.{told_number, settled_number};
ghost use Rattle.stock.specs.View.{bytes, Ruling, made, Leaves, Tells, told_by, Settles, settled_by, answer_number, notice_number, asked, reading, coming, totalling};

use rules::{Answer, DONE, Message, Notice, RUBBISH, Stock, Summary, Totals, Upcoming};

mod answers;
mod parts;
mod sight;
mod steps;

// A stock's record: the stock, how many trades its places hold, and its day totals. The count has 64 bits, so that
// there is no padding behind it.
#[repr(C)]
#[derive(Clone, Copy, Default, PartialEq, Eq, Debug)]
pub struct Record {
    pub stock: Stock,
    pub count: u64,
    pub totals: Totals,
}

// What a call hands back: its answer, with the next record.
#[derive(Clone, Copy, PartialEq, Eq, Debug)]
pub struct Handed<A> {
    pub answer: A,
    pub next: Record,
}

// What a call answers.
pub trait Reply: Copy {
    ghost beside: { ℕ → Self };

    // A number with nothing beside it.
    fn beside(number: u32) -> Self
        ensures { result ≡ beside number };
}

// What a stock can be asked for; nothing is changed.
pub trait Asked: Reply {
    ghost own: { Counted → Self };

    // The answer for a stock.
    fn ask(r: Record, times: &[u32], prices: &[u32]) -> Self
        ensures { result ≡ asked own Self.beside (bytes r times.now prices.now) };
}

// What changes a stock.
pub trait Step: Copy {
    type Given: Reply;

    ghost rule: { Self → Ruling Self.Given };

    ghost number_of: { Self.Given → ℕ };

    // Takes the step.
    fn step(self, r: Record, times: &mut [u32], prices: &mut [u32]) -> Handed<Self::Given>
        ensures { Leaves (made (rule self) Self.Given.beside (bytes r times.old prices.old)) result times.new prices.new };

    // The number of an answer, as C gets it.
    fn number(answer: Self::Given) -> u32
        ensures { result ≡ number_of answer };

    // the answer has the rule's number
    ghost numbered: { (x : Self) (h : Counted) → number_of ((rule x).answer h) ≡ (rule x).number h };
}

// The first look of a call at its record: `k` is the stock without its quotes, `q` its quotes, and `seen` what it found.
// A macro, since a function that hands all three out would copy the quotes once more.
macro_rules! look {
    ($r:ident, $times:ident, $prices:ident => $k:ident, $q:ident, $seen:ident) => {
        let s = $r.stock;
        let $q = s.quotes;
        let $k = parts::kept_of(s);
        let wrong = totals::is_wrong($r.totals, $k.course.clock);
        let $seen = sight::see(wrong, $r.count, $k, $q, $times, $prices);
    };
}

// A time to settle to.
#[derive(Clone, Copy, PartialEq, Eq, Debug)]
pub struct Until(pub u32);

// The four are alike but for the type: a macro may write no impl, and no trait of std names a field.
impl Reply for Answer {
    ghost beside = { zeros };

    fn beside(number: u32) -> Answer
        ensures { result ≡ zeros number }
    {
        Answer {
            number,
            ..Answer::default()
        }
    }
}

impl Reply for Notice {
    ghost beside = { no_notice };

    fn beside(number: u32) -> Notice
        ensures { result ≡ no_notice number }
    {
        answers::without_moment(Answer::beside(number))
    }
}

impl Reply for Upcoming {
    ghost beside = { none_coming };

    fn beside(number: u32) -> Upcoming
        ensures { result ≡ none_coming number }
    {
        Upcoming {
            number,
            ..Upcoming::default()
        }
    }
}

impl Reply for Summary {
    ghost beside = { no_summary };

    fn beside(number: u32) -> Summary
        ensures { result ≡ no_summary number }
    {
        Summary {
            number,
            ..Summary::default()
        }
    }
}

// What the stock shows.
impl Asked for Answer {
    ghost own = { read_answer };

    fn ask(r: Record, times: &[u32], prices: &[u32]) -> Answer
        ensures { result ≡ reading (bytes r times.now prices.now) }
    {
        look!(r, times, prices => k, q, seen);
        if seen.is_none() {
            return Answer::beside(RUBBISH);
        }
        answers::answer_of(DONE, k, q)
    }
}

// The stock's earliest moment still to come.
impl Asked for Upcoming {
    ghost own = { next_answer };

    fn ask(r: Record, times: &[u32], prices: &[u32]) -> Upcoming
        ensures { result ≡ coming (bytes r times.now prices.now) }
    {
        look!(r, times, prices => k, q, seen);
        let Some(sight) = seen else {
            return Upcoming::beside(RUBBISH);
        };
        let earliest = sight.earliest;
        Upcoming {
            number: DONE,
            mark: earliest.mark,
            time: earliest.time as u32,
        }
    }
}

// The stock's day totals.
impl Asked for Summary {
    ghost own = { totals_answer };

    fn ask(r: Record, times: &[u32], prices: &[u32]) -> Summary
        ensures { result ≡ totalling (bytes r times.now prices.now) }
    {
        look!(r, times, prices => k, q, seen);
        if seen.is_none() {
            return Summary::beside(RUBBISH);
        }
        Summary {
            number: DONE,
            totals: r.totals,
        }
    }
}

// A message is told.
impl Step for Message {
    type Given = Answer;

    ghost rule = { told_by };

    ghost number_of = { answer_number };

    ghost numbered = { told_number };

    fn step(self, r: Record, times: &mut [u32], prices: &mut [u32]) -> Handed<Answer>
        ensures { Tells self (bytes r times.old prices.old) result times.new prices.new }
    {
        look!(r, times, prices => k, q, seen);
        match sight::taking(self, seen, r.count, k, q) {
            Ok(sight) => {
                let held = steps::Window {
                    figures: sight.figures,
                    times,
                    prices,
                };
                let step = steps::after_message(self, held, k, q);
                let kept = step.after.kept;
                let quotes = step.after.quotes;
                let shown = step.after.shown;
                window::write(times, prices, r.count, step.change);
                let answer = answers::with_shown(DONE, kept, shown);
                let price = totals::traded(self);
                let brought = totals::brought(r.totals, price, k, kept);
                let next = parts::record_of(kept, quotes, step.count, brought);
                Handed { answer, next }
            }
            Err(why) => {
                let answer = answers::answer_of(why as u32, k, q);
                Handed { answer, next: r }
            }
        }
    }

    fn number(answer: Answer) -> u32
        ensures { result ≡ answer_number answer }
    {
        answer.number
    }
}

// A time is settled to.
impl Step for Until {
    type Given = Notice;

    ghost rule = { λ to. settled_by to.0 };

    ghost number_of = { notice_number };

    ghost numbered = { λ to. settled_number to.0 };

    fn step(self, r: Record, times: &mut [u32], prices: &mut [u32]) -> Handed<Notice>
        ensures { Settles self.0 (bytes r times.old prices.old) result times.new prices.new }
    {
        look!(r, times, prices => k, q, seen);
        match sight::settling(self.0, seen, k) {
            Ok(sight) => {
                let moment = sight.earliest;
                let held = steps::Window {
                    figures: sight.figures,
                    times,
                    prices,
                };
                let step = steps::after_moment(moment, self.0, held, k, q);
                let kept = step.after.kept;
                let quotes = step.after.quotes;
                let shown = step.after.shown;
                window::write(times, prices, r.count, step.change);
                let notice = Notice {
                    answer: answers::with_shown(DONE, kept, shown),
                    mark: moment.mark,
                    time: steps::own_time(moment, self.0),
                };
                let brought = totals::brought(r.totals, 0, k, kept);
                let next = parts::record_of(kept, quotes, step.count, brought);
                Handed {
                    answer: notice,
                    next,
                }
            }
            Err(why) => {
                let answer = answers::answer_of(why as u32, k, q);
                Handed {
                    answer: answers::without_moment(answer),
                    next: r,
                }
            }
        }
    }

    fn number(answer: Notice) -> u32
        ensures { result ≡ notice_number answer }
    {
        answer.answer.number
    }
}

impl Record {
    // Tells the stock a message.
    pub fn tell(self, times: &mut [u32], prices: &mut [u32], message: Message) -> Handed<Answer>
        ensures { Tells message (bytes self times.old prices.old) result times.new prices.new }
    {
        message.step(self, times, prices)
    }

    // Settles the stock to a time: its earliest moment is done if it is not after that time.
    pub fn settle(self, times: &mut [u32], prices: &mut [u32], time: u32) -> Handed<Notice>
        ensures { Settles time (bytes self times.old prices.old) result times.new prices.new }
    {
        Until(time).step(self, times, prices)
    }

    // Reads what the stock shows; nothing is changed.
    pub fn read(self, times: &[u32], prices: &[u32]) -> Answer
        ensures { result ≡ reading (bytes self times.now prices.now) }
    {
        Answer::ask(self, times, prices)
    }

    // Gives the stock's earliest moment still to come; nothing is changed.
    pub fn next(self, times: &[u32], prices: &[u32]) -> Upcoming
        ensures { result ≡ coming (bytes self times.now prices.now) }
    {
        Upcoming::ask(self, times, prices)
    }

    // Gives the stock's day totals; nothing is changed.
    pub fn summary(self, times: &[u32], prices: &[u32]) -> Summary
        ensures { result ≡ totalling (bytes self times.now prices.now) }
    {
        Summary::ask(self, times, prices)
    }
}
