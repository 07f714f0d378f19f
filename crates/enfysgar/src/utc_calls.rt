// Service (h): UTC readings as instants, and back.
ghost use Rattle.std.specs.Prelude.{◌≡◌};
ghost use Rattle.calendar.specs.Times.{instant_day_or, instant_micros_or, instant_day_of, instant_micros_of, instant_refusal_of};
ghost use Rattle.utc.specs.Readings.{reading};
ghost use Rattle.utc.specs.Conversions.{tt_of, utc_of, reading_refusal_of};
ghost use Rattle.utc.specs.Conversions.{reading_year_or, reading_month_or, reading_day_or, reading_hour_or, reading_minute_or, reading_second_or, reading_microsecond_or};
ghost use Rattle.utc.specs.Conversions.{reading_year_of, reading_month_of, reading_day_of, reading_hour_of, reading_minute_of, reading_second_of, reading_microsecond_of};

use crate::number;
use instants::Instant;
use utc::Reading;

// The instant of a UTC reading, or nothing written. Returns the refusal number.
#[unsafe(no_mangle)]
pub extern "C" fn enfys_utc_to_tt(
    year: u64,
    month: u64,
    day_of_month: u64,
    hour: u64,
    minute: u64,
    second: u64,
    microsecond: u64,
    day: &mut i64,
    micros: &mut u64,
) -> u32
    ensures refusal { result ≡ instant_refusal_of (tt_of (reading year month day_of_month hour minute second microsecond)) }
    ensures day { day.new ≡ instant_day_or day.old (tt_of (reading year month day_of_month hour minute second microsecond)) }
    ensures micros { micros.new ≡ instant_micros_or micros.old (tt_of (reading year month day_of_month hour minute second microsecond)) }
{
    match (Reading {
        year,
        month,
        day: day_of_month,
        hour,
        minute,
        second,
        microsecond,
    })
    .to_tt()
    {
        Ok(t) => {
            *day = t.day;
            *micros = t.micros;
            0
        }
        Err(refusal) => u32::from(refusal),
    }
}

// The day number of a UTC reading's instant.
#[unsafe(no_mangle)]
pub extern "C" fn enfys_utc_to_tt_day(
    year: u64,
    month: u64,
    day: u64,
    hour: u64,
    minute: u64,
    second: u64,
    microsecond: u64,
) -> i64
    ensures { result ≡ instant_day_of (tt_of (reading year month day hour minute second microsecond)) }
{
    Reading {
        year,
        month,
        day,
        hour,
        minute,
        second,
        microsecond,
    }
    .to_tt()
    .map_or(0, |t| t.day)
}

// The microseconds of a UTC reading's instant, from 0 h TT on.
#[unsafe(no_mangle)]
pub extern "C" fn enfys_utc_to_tt_micros(
    year: u64,
    month: u64,
    day: u64,
    hour: u64,
    minute: u64,
    second: u64,
    microsecond: u64,
) -> u64
    ensures { result ≡ instant_micros_of (tt_of (reading year month day hour minute second microsecond)) }
{
    Reading {
        year,
        month,
        day,
        hour,
        minute,
        second,
        microsecond,
    }
    .to_tt()
    .map_or(0, |t| t.micros)
}

// The refusal number of a UTC reading.
#[unsafe(no_mangle)]
pub extern "C" fn enfys_utc_to_tt_refusal(
    year: u64,
    month: u64,
    day: u64,
    hour: u64,
    minute: u64,
    second: u64,
    microsecond: u64,
) -> u32
    ensures { result ≡ instant_refusal_of (tt_of (reading year month day hour minute second microsecond)) }
{
    number(Reading {
        year,
        month,
        day,
        hour,
        minute,
        second,
        microsecond,
    }
    .to_tt())
}

// The UTC reading of an instant, or nothing written. Returns the refusal number.
#[unsafe(no_mangle)]
pub extern "C" fn enfys_tt_to_utc(
    day: i64,
    micros: u64,
    year: &mut u64,
    month: &mut u64,
    day_of_month: &mut u64,
    hour: &mut u64,
    minute: &mut u64,
    second: &mut u64,
    microsecond: &mut u64,
) -> u32
    ensures refusal { result ≡ reading_refusal_of (utc_of day micros) }
    ensures year { year.new ≡ reading_year_or year.old (utc_of day micros) }
    ensures month { month.new ≡ reading_month_or month.old (utc_of day micros) }
    ensures day_of_month { day_of_month.new ≡ reading_day_or day_of_month.old (utc_of day micros) }
    ensures hour { hour.new ≡ reading_hour_or hour.old (utc_of day micros) }
    ensures minute { minute.new ≡ reading_minute_or minute.old (utc_of day micros) }
    ensures second { second.new ≡ reading_second_or second.old (utc_of day micros) }
    ensures microsecond { microsecond.new ≡ reading_microsecond_or microsecond.old (utc_of day micros) }
{
    match utc::to_utc(Instant { day, micros }) {
        Ok(t) => {
            *year = t.year;
            *month = t.month;
            *day_of_month = t.day;
            *hour = t.hour;
            *minute = t.minute;
            *second = t.second;
            *microsecond = t.microsecond;
            0
        }
        Err(refusal) => u32::from(refusal),
    }
}

// The year of an instant's UTC reading.
#[unsafe(no_mangle)]
pub extern "C" fn enfys_tt_to_utc_year(day: i64, micros: u64) -> u64
    ensures { result ≡ reading_year_of (utc_of day micros) }
{
    utc::to_utc(Instant { day, micros }).map_or(0, |t| t.year)
}

// The month of an instant's UTC reading.
#[unsafe(no_mangle)]
pub extern "C" fn enfys_tt_to_utc_month(day: i64, micros: u64) -> u64
    ensures { result ≡ reading_month_of (utc_of day micros) }
{
    utc::to_utc(Instant { day, micros }).map_or(0, |t| t.month)
}

// The day of the month of an instant's UTC reading.
#[unsafe(no_mangle)]
pub extern "C" fn enfys_tt_to_utc_day_of_month(day: i64, micros: u64) -> u64
    ensures { result ≡ reading_day_of (utc_of day micros) }
{
    utc::to_utc(Instant { day, micros }).map_or(0, |t| t.day)
}

// The hour of an instant's UTC reading.
#[unsafe(no_mangle)]
pub extern "C" fn enfys_tt_to_utc_hour(day: i64, micros: u64) -> u64
    ensures { result ≡ reading_hour_of (utc_of day micros) }
{
    utc::to_utc(Instant { day, micros }).map_or(0, |t| t.hour)
}

// The minute of an instant's UTC reading.
#[unsafe(no_mangle)]
pub extern "C" fn enfys_tt_to_utc_minute(day: i64, micros: u64) -> u64
    ensures { result ≡ reading_minute_of (utc_of day micros) }
{
    utc::to_utc(Instant { day, micros }).map_or(0, |t| t.minute)
}

// The second of an instant's UTC reading.
#[unsafe(no_mangle)]
pub extern "C" fn enfys_tt_to_utc_second(day: i64, micros: u64) -> u64
    ensures { result ≡ reading_second_of (utc_of day micros) }
{
    utc::to_utc(Instant { day, micros }).map_or(0, |t| t.second)
}

// The microsecond of an instant's UTC reading.
#[unsafe(no_mangle)]
pub extern "C" fn enfys_tt_to_utc_microsecond(day: i64, micros: u64) -> u64
    ensures { result ≡ reading_microsecond_of (utc_of day micros) }
{
    utc::to_utc(Instant { day, micros }).map_or(0, |t| t.microsecond)
}

// The refusal number of an instant's UTC reading.
#[unsafe(no_mangle)]
pub extern "C" fn enfys_tt_to_utc_refusal(day: i64, micros: u64) -> u32
    ensures { result ≡ reading_refusal_of (utc_of day micros) }
{
    number(utc::to_utc(Instant { day, micros }))
}
