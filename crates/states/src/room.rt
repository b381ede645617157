// What band has room for: the figures of a window, and a stock without its quotes, with setters for its parts.
ghost use Rattle.std.specs.Prelude.{◌≡◌};
ghost use Rattle.rules.specs.Stock.{Trading, mean_in, with_course, at_time, in_state, refer_to, hold_ended, not_early, enter_limit, enter_pause};
ghost use Rattle.quotes.specs.Parts.{kept_of, bare, Room, fitted};
ghost use Rattle.states.specs.After as After;

use band::{Fitted, Mean};
use quotes::Kept;
use rules::{Course, Figures, LIMIT, Reference, TRADING};

// The figures of a window, for whose mean band has room.
#[derive(Clone, Copy)]
pub struct Held {
    pub figures: Figures,
    ghost room: { After.Fits figures },
}

impl Held {
    // The figures, or those of no trade where band has no room for their mean.
    pub(crate) fn of(f: Figures) -> Self
        ensures { result.figures ≡ After.fit f }
    {
        if band::fits(mean_of(f)) {
            return Held { figures: f };
        }
        Held {
            figures: Figures::default(),
        }
    }

    // The mean of the window's prices, exact.
    pub(crate) fn mean(self) -> Fitted
        ensures { result.mean ≡ mean_in self.figures }
    {
        Fitted {
            mean: mean_of(self.figures),
        }
    }
}

// The mean of the prices of figures, exact; no From, since Figures and Mean belong to rules, which has no functions, and
// to band, which does not know Figures.
fn mean_of(f: Figures) -> Mean
    ensures { result ≡ mean_in f }
{
    Mean {
        sum: f.sum,
        count: u64::from(f.count),
    }
}

// A stock without its quotes that is ready for the rules: band has room for its reference.
#[derive(Clone, Copy)]
pub struct Ready {
    pub kept: Kept,
    ghost room: { Room kept },
}

impl Ready {
    // The stock, whose reference counts as none where band has no room for it.
    pub(crate) fn of(k: Kept) -> Self
        ensures { result.kept ≡ fitted k }
    {
        Ready {
            kept: Kept {
                reference: Reference {
                    price: Fitted::of(k.reference.price).mean,
                    ..k.reference
                },
                ..k
            },
        }
    }

    // The reference's price.
    pub(crate) fn price(self) -> Fitted
        ensures { result.mean ≡ self.kept.reference.price }
    {
        Fitted {
            mean: self.kept.reference.price,
        }
    }

    // Sets the course.
    fn with_course(self, course: Course) -> Self
        ensures { result.kept ≡ kept_of (with_course course (bare self.kept)) }
    {
        Ready {
            kept: Kept {
                course,
                ..self.kept
            },
        }
    }

    // Sets the clock.
    pub(crate) fn at_time(self, time: u32) -> Self
        ensures { result.kept ≡ kept_of (at_time time (bare self.kept)) }
    {
        self.with_course(Course {
            clock: time,
            ..self.kept.course
        })
    }

    // Sets the state, a number, since a lent record may hold any and `rules.in_state` takes one.
    pub(crate) fn in_state(self, state: u32) -> Self
        ensures { result.kept ≡ kept_of (in_state state (bare self.kept)) }
    {
        self.with_course(Course {
            state,
            ..self.kept.course
        })
    }

    // Enters Limit now.
    pub(crate) fn enter_limit(self) -> Self
        ensures { result.kept ≡ kept_of (enter_limit (bare self.kept)) }
    {
        self.with_course(Course {
            state: LIMIT,
            entry: self.kept.course.clock,
            ..self.kept.course
        })
    }

    // Starts a pause now, whose kind is the number of its state, since `rules.enter_pause` takes one.
    pub(crate) fn enter_pause(self, state: u32) -> Self
        ensures { result.kept ≡ kept_of (enter_pause state (bare self.kept)) }
    {
        self.with_course(Course {
            state,
            pause: self.kept.course.clock,
            ..self.kept.course
        })
    }

    // Marks the moment f as done.
    pub(crate) fn not_early(self) -> Self
        ensures { result.kept ≡ kept_of (not_early (bare self.kept)) }
    {
        self.with_course(Course {
            early: 0,
            ..self.kept.course
        })
    }

    // Starts the reference `price` now, with a new hold.
    pub(crate) fn refer_to(self, price: Fitted) -> Self
        ensures { result.kept ≡ kept_of (refer_to price.mean (bare self.kept)) }
    {
        Ready {
            kept: Kept {
                reference: Reference {
                    price: price.mean,
                    start: self.kept.course.clock,
                    hold: 1,
                },
                ..self.kept
            },
        }
    }

    // Enters Trading with the reference `price`, which starts now.
    pub(crate) fn trading(self, price: Fitted) -> Self
        ensures { result.kept ≡ kept_of (in_state Trading (refer_to price.mean (bare self.kept))) }
    {
        self.refer_to(price).in_state(TRADING)
    }

    // Marks the moment h as done.
    pub(crate) fn hold_ended(self) -> Self
        ensures { result.kept ≡ kept_of (hold_ended (bare self.kept)) }
    {
        Ready {
            kept: Kept {
                reference: Reference {
                    hold: 0,
                    ..self.kept.reference
                },
                ..self.kept
            },
        }
    }
}
