// Instants of Terrestrial Time: which are accepted, the instant some microseconds later, and the one number of microseconds that the sums count in.
#![tactic(auto)]

mod covered;
mod refusal;

ghost use Rattle.std.specs.Prelude.{◌≡◌, ◌<◌};
ghost use Rattle.instants.specs.Limits.{day_micros, days_covered};
ghost use Rattle.instants.specs.Instants.{day_at_index, acceptance, IsAccepted};
ghost use Rattle.instants.specs.Moments as moments;
ghost use Rattle.instants.specs.Inner.{index_limit, index_answer, moment_answer, later_instant, LaterBounds};

pub use covered::Moment;
pub use refusal::Refusal;

// The day numbers of 1900-01-01 and 2100-12-31.
const FIRST_DAY: i64 = 15020;

const LAST_DAY: i64 = 88433;

// The microseconds of a day.
pub const DAY_MICROS: u64 = 86400000000;

// A day's index counts from 1600-01-01, whose day number is minus this.
pub const INDEX_OFFSET: u64 = 94553;

// The same as an i64, for day numbers.
const SIGNED_OFFSET: i64 = INDEX_OFFSET as i64;

// A moment counts from five Julian centuries of 36525 days before J2000.0: that is 36527 days and a half before 1600-01-01 0 h.
const ORIGIN_DAYS: u64 = 36527;

const HALF_DAY: u64 = 43200000000;

// An instant: a day number (Modified Julian Date) and the microseconds of that day.
#[derive(Clone, Copy)]
pub struct Instant {
    pub day: i64,
    pub micros: u64,
}

// A day number's index from 1600-01-01, or that it is not in range: from here on a day is a natural number.
pub fn day_index(day: i64) -> Option<u64>
    ensures { result ≡ index_answer day }
{
    if (day < FIRST_DAY) | (LAST_DAY < day) {
        return None;
    }
    Some((day + SIGNED_OFFSET) as u64)
}

// The day number of an index.
pub fn day_at_index(n: u64) -> i64
    requires { n < index_limit }
    ensures { result ≡ day_at_index n }
{
    (n as i64) - SIGNED_OFFSET
}

impl Instant {
    // The index of the day of an accepted instant, or refusal 8 or 9. Every service that is given an instant asks here.
    pub fn accept(self) -> Result<u64, Refusal>
        ensures { result ≡ acceptance self.day self.micros }
    {
        let index = day_index(self.day).ok_or(Refusal::Day)?;
        if DAY_MICROS <= self.micros {
            return Err(Refusal::Micros);
        }
        Ok(index)
    }

    // The moment of an accepted instant, or refusal 8 or 9.
    pub fn accepted(self) -> Result<Moment, Refusal>
        ensures { result ≡ moment_answer self.day self.micros }
    {
        Ok(Moment::new(moment(self.accept()?, self.micros)))
    }

    // The instant t microseconds after an accepted one.
    pub fn later(self, t: u64) -> Instant
        requires { LaterBounds self.day self.micros t }
        ensures { result ≡ later_instant self.day self.micros t }
    {
        let sum = self.micros + t;
        Instant {
            day: self.day + ((sum / DAY_MICROS) as i64),
            micros: sum % DAY_MICROS,
        }
    }

    // The moment of an accepted instant.
    pub fn moment(self) -> u64
        requires { IsAccepted self.day self.micros }
        ensures { result ≡ moments.moment_of self.day self.micros }
    {
        moment((self.day + SIGNED_OFFSET) as u64, self.micros)
    }
}

// The moment of a day's index and the microseconds of that day: the microseconds since five centuries before J2000.0.
pub fn moment(index: u64, micros: u64) -> u64
    requires index { index < days_covered }
    requires micros { micros < day_micros }
    ensures { result ≡ moments.moment index micros }
{
    (index + ORIGIN_DAYS) * DAY_MICROS + HALF_DAY + micros
}
