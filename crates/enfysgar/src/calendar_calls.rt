// Services (a) and (b): dates, day numbers and instants.
ghost use Rattle.std.specs.Prelude.{◌≡◌};
ghost use Rattle.calendar.specs.Dates.{day_of, date_of, day_number_or, day_number_of, date_refusal_of, year_or, month_or, day_of_month_or, year_of, month_of, day_of_month_of, day_refusal_of};
ghost use Rattle.calendar.specs.Times.{instant_of, instant_day_or, instant_micros_or, instant_day_of, instant_micros_of, instant_refusal_of};

use crate::number;
use calendar::{Date, TimeOfDay};

// The day number of a date, or nothing written. Returns the refusal number.
#[unsafe(no_mangle)]
pub extern "C" fn enfys_day_of_date(year: u64, month: u64, day_of_month: u64, day: &mut i64) -> u32
    ensures refusal { result ≡ date_refusal_of (day_of year month day_of_month) }
    ensures day { day.new ≡ day_number_or day.old (day_of year month day_of_month) }
{
    match (Date {
        year,
        month,
        day: day_of_month,
    })
    .day_number()
    {
        Ok(d) => {
            *day = d;
            0
        }
        Err(refusal) => u32::from(refusal),
    }
}

// The day number of a date.
#[unsafe(no_mangle)]
pub extern "C" fn enfys_date_to_day(year: u64, month: u64, day: u64) -> i64
    ensures { result ≡ day_number_of (day_of year month day) }
{
    Date { year, month, day }.day_number().unwrap_or(0)
}

// The refusal number of a date.
#[unsafe(no_mangle)]
pub extern "C" fn enfys_date_refusal(year: u64, month: u64, day: u64) -> u32
    ensures { result ≡ date_refusal_of (day_of year month day) }
{
    number(Date { year, month, day }.day_number())
}

// The date of a day number, or nothing written. Returns the refusal number.
#[unsafe(no_mangle)]
pub extern "C" fn enfys_date_of_day(
    day: i64,
    year: &mut u64,
    month: &mut u64,
    day_of_month: &mut u64,
) -> u32
    ensures refusal { result ≡ day_refusal_of (date_of day) }
    ensures year { year.new ≡ year_or year.old (date_of day) }
    ensures month { month.new ≡ month_or month.old (date_of day) }
    ensures day_of_month { day_of_month.new ≡ day_of_month_or day_of_month.old (date_of day) }
{
    match calendar::date_of(day) {
        Ok(t) => {
            *year = t.year;
            *month = t.month;
            *day_of_month = t.day;
            0
        }
        Err(refusal) => u32::from(refusal),
    }
}

// The year of a day number.
#[unsafe(no_mangle)]
pub extern "C" fn enfys_day_to_year(day: i64) -> u64
    ensures { result ≡ year_of (date_of day) }
{
    calendar::date_of(day).map_or(0, |t| t.year)
}

// The month of a day number.
#[unsafe(no_mangle)]
pub extern "C" fn enfys_day_to_month(day: i64) -> u64
    ensures { result ≡ month_of (date_of day) }
{
    calendar::date_of(day).map_or(0, |t| t.month)
}

// The day of the month of a day number.
#[unsafe(no_mangle)]
pub extern "C" fn enfys_day_to_day_of_month(day: i64) -> u64
    ensures { result ≡ day_of_month_of (date_of day) }
{
    calendar::date_of(day).map_or(0, |t| t.day)
}

// The refusal number of a day number.
#[unsafe(no_mangle)]
pub extern "C" fn enfys_day_refusal(day: i64) -> u32
    ensures { result ≡ day_refusal_of (date_of day) }
{
    number(calendar::date_of(day))
}

// The instant of a date and time, or nothing written. Returns the refusal number.
#[unsafe(no_mangle)]
pub extern "C" fn enfys_instant(
    year: u64,
    month: u64,
    day_of_month: u64,
    hour: u64,
    minute: u64,
    second: u64,
    microsecond: u64,
    day: &mut i64,
    micros: &mut u64,
) -> u32
    ensures refusal { result ≡ instant_refusal_of (instant_of year month day_of_month hour minute second microsecond) }
    ensures day { day.new ≡ instant_day_or day.old (instant_of year month day_of_month hour minute second microsecond) }
    ensures micros { micros.new ≡ instant_micros_or micros.old (instant_of year month day_of_month hour minute second microsecond) }
{
    match calendar::instant_of(
        Date {
            year,
            month,
            day: day_of_month,
        },
        TimeOfDay {
            hour,
            minute,
            second,
            microsecond,
        },
    ) {
        Ok(t) => {
            *day = t.day;
            *micros = t.micros;
            0
        }
        Err(refusal) => u32::from(refusal),
    }
}

// The day number of a date and time.
#[unsafe(no_mangle)]
pub extern "C" fn enfys_instant_day(
    year: u64,
    month: u64,
    day: u64,
    hour: u64,
    minute: u64,
    second: u64,
    microsecond: u64,
) -> i64
    ensures { result ≡ instant_day_of (instant_of year month day hour minute second microsecond) }
{
    calendar::instant_of(
        Date { year, month, day },
        TimeOfDay {
            hour,
            minute,
            second,
            microsecond,
        },
    )
    .map_or(0, |t| t.day)
}

// The microseconds of a date and time, from 0 h on.
#[unsafe(no_mangle)]
pub extern "C" fn enfys_instant_micros(
    year: u64,
    month: u64,
    day: u64,
    hour: u64,
    minute: u64,
    second: u64,
    microsecond: u64,
) -> u64
    ensures { result ≡ instant_micros_of (instant_of year month day hour minute second microsecond) }
{
    calendar::instant_of(
        Date { year, month, day },
        TimeOfDay {
            hour,
            minute,
            second,
            microsecond,
        },
    )
    .map_or(0, |t| t.micros)
}

// The refusal number of a date and time.
#[unsafe(no_mangle)]
pub extern "C" fn enfys_instant_refusal(
    year: u64,
    month: u64,
    day: u64,
    hour: u64,
    minute: u64,
    second: u64,
    microsecond: u64,
) -> u32
    ensures { result ≡ instant_refusal_of (instant_of year month day hour minute second microsecond) }
{
    number(calendar::instant_of(
        Date { year, month, day },
        TimeOfDay {
            hour,
            minute,
            second,
            microsecond,
        },
    ))
}
