// UTC readings, by the IERS list of leap seconds: which are accepted, their instants of Terrestrial Time (TT), and back.
#![tactic(auto)]

ghost use Rattle.std.specs.Prelude.{◌≡◌, ◌*◌, ◌≤◌, ◌<◌};
ghost use Rattle.instants.specs.Limits.{day_micros, days_covered};
ghost use Rattle.utc.specs.Table.{tai_minus_utc, tt_minus_utc};
ghost use Rattle.utc.specs.Readings.{last_second};
ghost use Rattle.utc.specs.Conversions.{tt_at, tt_of, day_begins, minute_of_day, reading_at, utc_of};
ghost use Rattle.utc.specs.Inner.{LastBegun, covered_time, reading_acceptance, OnDay, reading_answer, phase_answer};

use calendar::{Date, SECOND_MICROS, TimeOfDay};
use instants::{DAY_MICROS, Instant, Refusal};

// The days on which TAI - UTC became a second more, as indices from 1600-01-01 on: 1972-07-01 to 2017-01-01.
const STEPS: [u64; 27] = [
    136052, 136236, 136601, 136966, 137331, 137697, 138062, 138427, 138792, 139339, 139704, 140069,
    140800, 141714, 142445, 142810, 143357, 143722, 144087, 144636, 145183, 145732, 148289, 149385,
    150662, 151757, 152307,
];

// TAI - UTC before these, in seconds.
const FIRST_SECONDS: u64 = 10;

// The indices of 1972-01-01 and of the day on which the list expires, 2025-06-28.
const FIRST_INDEX: u64 = 135870;

const EXPIRY_INDEX: u64 = 155407;

// The moments at which these two days begin in UTC.
const FIRST_MOMENT: u64 = 14895144042184000;

const EXPIRY_MOMENT: u64 = 16583140869184000;

// TT - TAI, in microseconds.
const TT_MINUS_TAI: u64 = 32184000;

// The microseconds of a minute, and the minutes of a day.
const MINUTE_MICROS: u64 = 60000000;

const DAY_MINUTES: u64 = 1440;

// A date and a time of day as a clock of UTC shows them.
#[derive(Clone, Copy)]
pub struct Reading {
    pub year: u64,
    pub month: u64,
    pub day: u64,
    pub hour: u64,
    pub minute: u64,
    pub second: u64,
    pub microsecond: u64,
}

// A UTC day by its index from 1600-01-01, and microseconds since its beginning: fewer than a day has, or in second 60 up to a second more.
#[derive(Clone, Copy)]
pub struct UtcTime {
    index: u64,
    micros: u64,
}

// The parts of an instant for phases: one moment as Terrestrial Time and as UTC. They are private, and `phase_parts` alone makes them, of an accepted reading.
#[derive(Clone, Copy)]
pub struct PhaseParts {
    tt: Instant,
    utc: UtcTime,
}

// The place of the last step of a lent table that has begun by the day of index n, counted from 1, or 0: where they rise, how many have. Looks from the last one
// back, since most days that are asked for are late.
fn steps_begun(t: &[u64], n: u64) -> usize
    ensures { LastBegun t.now n result }
{
    t.iter().rposition(|from| *from <= n).map_or(0, |k| k + 1)
}

// TAI - UTC on the day of index n, in seconds.
fn tai_minus_utc(n: u64) -> u64
    ensures seconds { result ≡ tai_minus_utc n }
    ensures most { result ≤ 37 }
{
    FIRST_SECONDS + (steps_begun(&STEPS, n) as u64)
}

// The last second of a minute of the day of index n: 60 in its last minute, where the next day has a second more of TAI - UTC.
#[tactic(auto, using(crate::proofs::Steps::next_tai, crate::proofs::Steps::extra_most, crate::proofs::Readings::last_minute))]
fn last_second(n: u64, hour: u64, minute: u64) -> u64
    requires { n < days_covered }
    ensures second { result ≡ last_second n hour minute }
    ensures most { result ≤ 60 }
{
    if (hour == 23) & (minute == 59) {
        return 59 + tai_minus_utc(n + 1) - tai_minus_utc(n);
    }
    59
}

// TT - UTC on the day of index n, in microseconds.
fn tt_minus_utc(n: u64) -> u64
    ensures micros { result ≡ tt_minus_utc n }
    ensures most { result ≤ 69184000 }
{
    tai_minus_utc(n) * SECOND_MICROS + TT_MINUS_TAI
}

// The moment at which the UTC day of index n begins.
#[tactic(auto, unfolding(crate::specs::Conversions::day_begins))]
fn day_begins(n: u64) -> u64
    requires { n < days_covered }
    ensures { result ≡ day_begins n }
{
    instants::moment(n, tt_minus_utc(n))
}

// The minute that u microseconds after 0 h are in, counted from 0 h. What is past the day's last minute belongs to it: second 60.
fn minute_of_day(u: u64) -> u64
    ensures { result ≡ minute_of_day u }
{
    (u / MINUTE_MICROS).min(DAY_MINUTES - 1)
}

impl UtcTime {
    // This time, or refusal 19 or 20.
    #[tactic(auto, unfolding(crate::specs::Inner::covered_time), using(crate::proofs::Days::first_index_lem, crate::proofs::Days::expiry_index))]
    fn covered(self) -> Result<UtcTime, Refusal>
        ensures { result ≡ covered_time self.index self.micros }
    {
        if self.index < FIRST_INDEX {
            return Err(Refusal::UtcEarly);
        }
        if EXPIRY_INDEX <= self.index {
            return Err(Refusal::UtcExpired);
        }
        Ok(self)
    }

    // Its instant.
    fn tt(self) -> Instant
        requires index { self.index < days_covered }
        requires micros { self.micros < 2 * day_micros }
        ensures { result ≡ tt_at self.index self.micros }
    {
        let m = self.micros + tt_minus_utc(self.index);
        Instant {
            day: instants::day_at_index(self.index + m / DAY_MICROS),
            micros: m % DAY_MICROS,
        }
    }

    // Its reading.
    fn reading(self) -> Reading
        requires { self.index < days_covered }
        ensures { result ≡ reading_at self.index self.micros }
    {
        let date = calendar::date_after(self.index);
        let minute = minute_of_day(self.micros);
        Reading {
            year: date.year,
            month: date.month,
            day: date.day,
            hour: minute / 60,
            minute: minute % 60,
            second: self.micros / SECOND_MICROS - minute * 60,
            microsecond: self.micros % SECOND_MICROS,
        }
    }
}

impl Reading {
    // The time of an accepted reading, or refusal 1 to 7, 19 or 20.
    fn accept(self) -> Result<UtcTime, Refusal>
        ensures { result ≡ reading_acceptance self }
    {
        let date = Date {
            year: self.year,
            month: self.month,
            day: self.day,
        };
        let time = TimeOfDay {
            hour: self.hour,
            minute: self.minute,
            second: self.second,
            microsecond: self.microsecond,
        };
        let index = date.accept()?;
        let micros = time.accept(last_second(index, self.hour, self.minute))?;
        UtcTime { index, micros }.covered()
    }

    // The instant of a reading, or refusal 1 to 7, 19 or 20.
    pub fn to_tt(self) -> Result<Instant, Refusal>
        ensures { result ≡ tt_of self }
    {
        let time = self.accept()?;
        Ok(time.tt())
    }

    // The parts of a reading's instant for phases, or refusal 1 to 7, 19 or 20.
    pub fn phase_parts(self) -> Result<PhaseParts, Refusal>
        ensures { result ≡ phase_answer self }
    {
        let utc = self.accept()?;
        Ok(PhaseParts { tt: utc.tt(), utc })
    }
}

impl PhaseParts {
    // Their TT part.
    pub fn tt(self) -> Instant
        ensures { result ≡ self.tt }
    {
        self.tt
    }

    // The microseconds of their UTC part, since the beginning of its day.
    pub fn utc_micros(self) -> u64
        ensures { result ≡ self.utc.micros }
    {
        self.utc.micros
    }
}

// The reading at the moment x of the TT day of index i, or refusal 19 or 20.
#[tactic(auto, unfolding(crate::specs::Inner::reading_answer), using(crate::proofs::Days::first_begins, crate::proofs::Days::expiry_begins, crate::proofs::Days::begins_to))]
fn reading_on(i: u64, x: u64) -> Result<Reading, Refusal>
    requires { OnDay i x }
    ensures { result ≡ reading_answer i x }
{
    if x < FIRST_MOMENT {
        return Err(Refusal::UtcEarly);
    }
    if EXPIRY_MOMENT <= x {
        return Err(Refusal::UtcExpired);
    }
    let begins = day_begins(i);
    if x < begins {
        let eve = i - 1;
        let time = UtcTime {
            index: eve,
            micros: x - day_begins(eve),
        };
        return Ok(time.reading());
    }
    let time = UtcTime {
        index: i,
        micros: x - begins,
    };
    Ok(time.reading())
}

// The reading of an instant, or refusal 8, 9, 19 or 20.
pub fn to_utc(t: Instant) -> Result<Reading, Refusal>
    ensures { result ≡ utc_of t.day t.micros }
{
    let index = t.accept()?;
    reading_on(index, instants::moment(index, t.micros))
}
