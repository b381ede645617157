// Band arithmetic: percent, factor k, the bands, the printed value of a mean and the one percent test. No public
// function has a `requires`: a definition of specs/Band.antt gives the result for every input.
#![tactic(auto)]

ghost use Rattle.std.specs.Prelude.{◌≡◌, ◌≤◌, ◌<◌, ◌^◌};
ghost use Rattle.band.specs.Band.{percent_of, factor_of, price_of, fits, fit, spread_of, cent, minus_of, bands_of, bands_by, printed_by, moves_by};
ghost use Rattle.band.specs.Words.{Fits};

// The percent value that means the small rule: a number, since `band.percent_of` and the laws of the bands say 0.
const SMALL: u8 = 0;

// k is doubled before this time.
pub const DOUBLED_UNTIL: u32 = 900_000;

// k is also doubled from this long before the session's end on.
pub const DOUBLED_BEFORE_END: u64 = 1_500_000;

// The arithmetic has room for a sum and a count below these, 2^44 and 2^12. The sum of 512 prices of 32 bits is below
// 2^41.
const SUM_BOUND: u64 = 17_592_186_044_416;

const COUNT_BOUND: u64 = 4_096;

// One cent, in ten-thousandths of a dollar.
const CENT: u64 = 100;

// An exact mean: the sum of some prices, and how many they are. A price is the mean of itself alone; none has the sum
// 0 and the count 0, and is no Option, since the bytes of a lent record may hold any sum and any count. The count has 64
// bits too, so that no record that holds a mean has padding.
#[repr(C)]
#[derive(Clone, Copy, Default, PartialEq, Eq, Debug)]
pub struct Mean {
    pub sum: u64,
    pub count: u64,
}

// A lower and an upper band. They have 64 bits: the upper band of a reference that was not validated yet can
// overflow 32.
#[derive(Clone, Copy, Default, PartialEq, Eq, Debug)]
pub struct Bands {
    pub lower: u64,
    pub upper: u64,
}

// The percent that the close fixes for the day; 0 is the small rule.
pub fn percent(tier: u32, close: u32) -> u8
    ensures { result ≡ percent_of tier close }
{
    if 30_000 < close {
        if tier == 1 {
            return 5;
        }
        return 10;
    }
    if 7_500 <= close {
        return 20;
    }
    SMALL
}

// The leverage, doubled at both ends of the session; 0 and no Option for a leverage over 3, since `band.factor_of` says 0.
pub fn factor(leverage: u32, time: u32, end: u32) -> u8
    ensures { result ≡ factor_of leverage time end }
{
    if 3 < leverage {
        return 0;
    }
    let k = leverage as u8;
    if time < DOUBLED_UNTIL {
        return 2 * k;
    }
    if (end as u64) <= (time as u64) + DOUBLED_BEFORE_END {
        return 2 * k;
    }
    k
}

// Whether the arithmetic has room for a mean.
pub fn fits(m: Mean) -> bool
    ensures { result ≡ fits m }
{
    (m.sum < SUM_BOUND) & (m.count < COUNT_BOUND)
}

// Rounds x / count to the nearest cent, a half up. A price alone is divided by constants, which takes the processor
// less time; there half cents are counted, since the compiler would join two divisions of the same form.
fn to_cent(x: u64, count: u64) -> u64
    requires { (x < 2 ^ 61) × (1 ≤ count) × (count < 4_096) }
    ensures { result ≡ cent x count }
{
    if count == 1 {
        return (x / 5_000 + 1) / 2 * 100;
    }
    (x + 5_000 * count) / (10_000 * count) * 100
}

// The difference, or 0 where y is the greater; public, since judge takes differences too.
pub fn minus(x: u64, y: u64) -> u64
    ensures { result ≡ minus_of x y }
{
    x.saturating_sub(y)
}

// A mean that the arithmetic has room for.
#[derive(Clone, Copy)]
pub struct Fitted {
    pub mean: Mean,
    ghost room: { Fits mean },
}

impl Fitted {
    // The mean, or none where there is no room for it.
    pub fn of(mean: Mean) -> Self
        ensures { result.mean ≡ fit mean }
    {
        if fits(mean) {
            return Fitted { mean };
        }
        Fitted {
            mean: Mean::default(),
        }
    }

    // A: how far the bands are from the reference, in hundredths of a price's unit, times the reference's count.
    fn spread(self, percent: u8, k: u8) -> u64
        ensures spread { result ≡ spread_of self.mean.sum self.mean.count percent k }
        ensures bound { result < 2 ^ 60 }
    {
        let m = self.mean;
        let f = k as u64;
        if percent == SMALL {
            return f * (150_000 * m.count).min(75 * m.sum);
        }
        f * ((percent as u64) * m.sum)
    }

    // The lower and the upper band, each rounded once.
    fn bands(self, percent: u8, k: u8) -> Bands
        ensures { result ≡ bands_of self.mean.sum self.mean.count percent k }
    {
        let m = self.mean;
        if m.count == 0 {
            // the least bands, and no default
            return Bands {
                lower: 0,
                upper: CENT,
            };
        }
        let a = self.spread(percent, k);
        let r = 100 * m.sum;
        let lower = to_cent(minus(r, a), m.count);
        let upper = to_cent(r + a, m.count);
        Bands {
            lower,
            upper: upper.max(CENT),
        }
    }
}

// A price is the mean of itself alone.
impl From<u32> for Fitted {
    ghost from_gives = { λ price result. result.mean ≡ price_of price };

    fn from(price: u32) -> Self {
        Fitted {
            mean: Mean {
                sum: u64::from(price),
                count: 1,
            },
        }
    }
}

// The lower and the upper band of a reference, each rounded once; those of none where there is no room for it.
pub fn bands_of(reference: Mean, percent: u8, k: u8) -> Bands
    ensures { result ≡ bands_by reference percent k }
{
    Fitted::of(reference).bands(percent, k)
}

// The printed value of a mean: a whole price, a half rounded up; 0 and no Option where there is none, since
// `band.printed_by` says 0, as an answer does. It divides first and rounds by the remainder, so that nothing overflows; a
// price alone is not divided.
pub fn printed(m: Mean) -> u64
    ensures { result ≡ printed_by m }
{
    let c = m.count;
    if c == 1 {
        return m.sum;
    }
    if c == 0 {
        return 0;
    }
    let q = m.sum / c;
    let rest = m.sum % c;
    if rest < c - rest {
        return q;
    }
    q + 1
}

// Whether a mean differs from the reference by one percent of the reference or more.
pub fn moves(mean: Mean, reference: Mean) -> bool
    ensures { result ≡ moves_by mean reference }
{
    let m = Fitted::of(mean).mean;
    let n = Fitted::of(reference).mean;
    // mean and reference, each times both counts
    let there = m.sum * n.count;
    let here = n.sum * m.count;
    here <= 100 * here.abs_diff(there)
}
