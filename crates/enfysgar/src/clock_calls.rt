// Service (c): clock words.
ghost use Rattle.std.specs.Prelude.{◌≡◌};
ghost use Rattle.clock.specs.Words.{split_of, join_of, day_word_or, time_word_or, day_word_of, time_word_of, split_refusal_of, joined_day_or, joined_micros_or, joined_day_of, joined_micros_of, join_refusal_of};

use crate::number;
use clock::ClockWords;
use instants::Instant;

// The two words of an instant, or nothing written. Returns the refusal number.
#[unsafe(no_mangle)]
pub extern "C" fn enfys_split(day: i64, micros: u64, day_word: &mut i64, time_word: &mut u64) -> u32
    ensures refusal { result ≡ split_refusal_of (split_of day micros) }
    ensures day_word { day_word.new ≡ day_word_or day_word.old (split_of day micros) }
    ensures time_word { time_word.new ≡ time_word_or time_word.old (split_of day micros) }
{
    match clock::split(Instant { day, micros }) {
        Ok(w) => {
            *day_word = w.day;
            *time_word = w.time;
            0
        }
        Err(refusal) => u32::from(refusal),
    }
}

// The day word of an instant.
#[unsafe(no_mangle)]
pub extern "C" fn enfys_split_day_word(day: i64, micros: u64) -> i64
    ensures { result ≡ day_word_of (split_of day micros) }
{
    clock::split(Instant { day, micros }).map_or(0, |w| w.day)
}

// The time word of an instant.
#[unsafe(no_mangle)]
pub extern "C" fn enfys_split_time_word(day: i64, micros: u64) -> u64
    ensures { result ≡ time_word_of (split_of day micros) }
{
    clock::split(Instant { day, micros }).map_or(0, |w| w.time)
}

// The refusal number of splitting an instant.
#[unsafe(no_mangle)]
pub extern "C" fn enfys_split_refusal(day: i64, micros: u64) -> u32
    ensures { result ≡ split_refusal_of (split_of day micros) }
{
    number(clock::split(Instant { day, micros }))
}

// The instant of two clock words, or nothing written. Returns the refusal number.
#[unsafe(no_mangle)]
pub extern "C" fn enfys_join(day_word: i64, time_word: u64, day: &mut i64, micros: &mut u64) -> u32
    ensures refusal { result ≡ join_refusal_of (join_of day_word time_word) }
    ensures day { day.new ≡ joined_day_or day.old (join_of day_word time_word) }
    ensures micros { micros.new ≡ joined_micros_or micros.old (join_of day_word time_word) }
{
    match (ClockWords {
        day: day_word,
        time: time_word,
    })
    .join()
    {
        Ok(t) => {
            *day = t.day;
            *micros = t.micros;
            0
        }
        Err(refusal) => u32::from(refusal),
    }
}

// The day number of two clock words.
#[unsafe(no_mangle)]
pub extern "C" fn enfys_join_day(day: i64, time: u64) -> i64
    ensures { result ≡ joined_day_of (join_of day time) }
{
    ClockWords { day, time }.join().map_or(0, |t| t.day)
}

// The microseconds of two clock words.
#[unsafe(no_mangle)]
pub extern "C" fn enfys_join_micros(day: i64, time: u64) -> u64
    ensures { result ≡ joined_micros_of (join_of day time) }
{
    ClockWords { day, time }.join().map_or(0, |t| t.micros)
}

// The refusal number of two clock words.
#[unsafe(no_mangle)]
pub extern "C" fn enfys_join_refusal(day: i64, time: u64) -> u32
    ensures { result ≡ join_refusal_of (join_of day time) }
{
    number(ClockWords { day, time }.join())
}
