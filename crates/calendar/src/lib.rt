// Dates and day numbers (MJD), and times of day.
#![tactic(auto)]

ghost use Rattle.std.specs.Prelude.{◌≡◌, ◌+◌, ◌≤◌, ◌<◌};
ghost use Rattle.instants.specs.Inner.{index_limit};
ghost use Rattle.calendar.specs.Dates.{month_length, year_length, days_of_years, days_before, date_after, day_of, date_of};
ghost use Rattle.calendar.specs.Times.{instant_of};
ghost use Rattle.calendar.specs.Inner.{leap_day, date_acceptance, time_acceptance, twelfths_at, IsYearDay};

use instants::{Instant, Refusal};

// The years of a date.
const FIRST_YEAR: u64 = 1900;

const LAST_YEAR: u64 = 2100;

// The microseconds of a second.
pub const SECOND_MICROS: u64 = 1000000;

// The days of 400 years, and of four that end in a leap year.
const DAYS_400: u64 = 146097;

const DAYS_4: u64 = 1461;

// The days from 1201-01-01, where groups of 400 years begin, to 1600-01-01.
const DAYS_FROM_1201: u64 = 145731;

// A date of the Gregorian calendar.
#[derive(Clone, Copy)]
pub struct Date {
    pub year: u64,
    pub month: u64,
    pub day: u64,
}

// A time of day.
#[derive(Clone, Copy)]
pub struct TimeOfDay {
    pub hour: u64,
    pub minute: u64,
    pub second: u64,
    pub microsecond: u64,
}

// A year from 1600 on, and a day of it, counted from 0.
#[derive(Drop)]
struct YearDay {
    year: u64,
    rest: u64,
}

// The days of a common year before each month.
const BEFORE: [u64; 12] = [0, 31, 59, 90, 120, 151, 181, 212, 243, 273, 304, 334];

// The lengths of the months in a common year.
const LENGTHS: [u64; 12] = [31, 28, 31, 30, 31, 30, 31, 31, 30, 31, 30, 31];

// 1 in a leap year, 0 in another.
fn leap(y: u64) -> u64
    ensures days { result ≡ leap_day y }
    ensures most { result ≤ 1 }
{
    u64::from((y % 4 == 0) & ((y % 100 != 0) | (y % 400 == 0)))
}

// The days of the year y.
#[tactic(auto, using(crate::proofs::Laws::year_length_lem))]
pub fn year_length(y: u64) -> u64
    ensures days { result ≡ year_length y }
    ensures below { result < 367 }
{
    365 + leap(y)
}

// The days of the k years from 1600 on.
#[tactic(auto, using(crate::proofs::Laws::years_counted))]
fn years(k: u64) -> u64
    requires { k ≤ 801 }
    ensures days { result ≡ days_of_years k }
    ensures below { result < 293300 }
{
    365 * k + (k + 3) / 4 + (k + 399) / 400 - (k + 99) / 100
}

impl Date {
    // The days of its month.
    fn month_length(self) -> u64
        requires from { 1 ≤ self.month }
        requires to { self.month ≤ 12 }
        ensures days { result ≡ month_length self.year self.month }
        ensures below { result < 32 }
    {
        let i = (self.month - 1) as usize;
        if self.month == 2 {
            return 28 + leap(self.year);
        }
        LENGTHS[i]
    }

    // The days of its year before its month.
    fn days_before(self) -> u64
        requires from { 1 ≤ self.month }
        requires to { self.month ≤ 12 }
        ensures days { result ≡ days_before self.year self.month }
        ensures below { result < 366 }
    {
        let i = (self.month - 1) as usize;
        if self.month <= 2 {
            return BEFORE[i];
        }
        BEFORE[i] + leap(self.year)
    }

    // The index of an accepted date, or refusal 1, 2 or 3.
    #[tactic(auto, unfolding(crate::specs::Inner::date_acceptance))]
    pub fn accept(self) -> Result<u64, Refusal>
        ensures { result ≡ date_acceptance self.year self.month self.day }
    {
        if (self.year < FIRST_YEAR) | (LAST_YEAR < self.year) {
            return Err(Refusal::Year);
        }
        if (self.month < 1) | (12 < self.month) {
            return Err(Refusal::Month);
        }
        if (self.day < 1) | (self.month_length() < self.day) {
            return Err(Refusal::DayOfMonth);
        }
        Ok(years(self.year - 1600) + self.days_before() + (self.day - 1))
    }

    // The day number of a date, or refusal 1, 2 or 3.
    pub fn day_number(self) -> Result<i64, Refusal>
        ensures { result ≡ day_of self.year self.month self.day }
    {
        let index = self.accept()?;
        Ok(instants::day_at_index(index))
    }
}

// The day e of a year, counted from 0, in twelfths of a day. With thirty days for February the twelve months have 367 days, so 367 twelfths count as a
// month; the first begins at 367, since months count from 1, and 6 more round to the nearest.
fn twelfths(leap: u64, e: u64) -> u64
    requires extra { leap ≤ 1 }
    requires inside { e < 365 + leap }
    ensures { result ≡ twelfths_at leap e }
{
    if e < 59 + leap {
        return 12 * e + 373;
    }
    12 * (e + 2 - leap) + 373
}

// The year of the day n, and the day of that year: groups of 400 and of 100 years, and years, from 1201-01-01 on. A century is a quarter of the days of
// 400 years, and a year a quarter of the days of four, but for the day by which the last of four may be longer. So days are counted in quarters, and three
// quarters more: then that day is the last one's.
fn year_day(n: u64) -> YearDay
    requires { n < index_limit }
    ensures { IsYearDay n result }
{
    let t = n + DAYS_FROM_1201;
    let c = 4 * (t % DAYS_400) + 3;
    let y = 4 * (c % DAYS_400 / 4) + 3;
    YearDay {
        year: 1201 + 400 * (t / DAYS_400) + 100 * (c / DAYS_400) + y / DAYS_4,
        rest: y % DAYS_4 / 4,
    }
}

// The date n days after 1600-01-01.
#[tactic(auto, using(crate::proofs::Groups::date_of_lem))]
pub fn date_after(n: u64) -> Date
    requires { n < index_limit }
    ensures { result ≡ date_after n }
{
    let p = year_day(n);
    let w = twelfths(leap(p.year), p.rest);
    Date {
        year: p.year,
        month: w / 367,
        day: w % 367 / 12 + 1,
    }
}

// The date of a day number, or refusal 8.
pub fn date_of(day: i64) -> Result<Date, Refusal>
    ensures { result ≡ date_of day }
{
    let index = instants::day_index(day).ok_or(Refusal::Day)?;
    Ok(date_after(index))
}

impl TimeOfDay {
    // The microseconds since 0 h of an accepted time of day, in a minute whose last second is `last`, or refusal 4, 5, 6 or 7.
    #[tactic(auto, unfolding(crate::specs::Inner::time_acceptance))]
    pub fn accept(self, last: u64) -> Result<u64, Refusal>
        requires { last ≤ 60 }
        ensures { result ≡ time_acceptance last self.hour self.minute self.second self.microsecond }
    {
        if 23 < self.hour {
            return Err(Refusal::Hour);
        }
        if 59 < self.minute {
            return Err(Refusal::Minute);
        }
        if last < self.second {
            return Err(Refusal::Second);
        }
        if 999999 < self.microsecond {
            return Err(Refusal::Microsecond);
        }
        Ok(((self.hour * 60 + self.minute) * 60 + self.second) * SECOND_MICROS + self.microsecond)
    }
}

// The instant of a date and a time of day, or refusal 1 to 7.
pub fn instant_of(date: Date, time: TimeOfDay) -> Result<Instant, Refusal>
    ensures { result ≡ instant_of date.year date.month date.day time.hour time.minute time.second time.microsecond }
{
    let index = date.accept()?;
    let micros = time.accept(59)?;
    Ok(Instant {
        day: instants::day_at_index(index),
        micros,
    })
}
