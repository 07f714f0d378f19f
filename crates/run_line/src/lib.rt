// The answer of run_day to a line of input: the bytes that it writes.
#![tactic(auto)]

ghost use Rattle.std.specs.Prelude.{◌≡◌, ◌^◌, ◌<◌, length};
ghost use Rattle.bigendian.specs.Buffers.{at_front};
ghost use Rattle.run_line.specs.Answer.{room, day_run_text, answer_text};

use calendar::{Date, SECOND_MICROS};
use instants::Instant;
use record::LENGTH;

// Puts the run of a day from 0 h on, with a step in seconds, or its refusal at the front of the buffer, and returns the length.
fn day_run(day: i64, count: u64, step: u64, buffer: &mut [u8]) -> usize
    requires step { step < 10 ^ 10 }
    requires room { length buffer.old ≡ room }
    ensures size { result ≡ length (day_run_text day count step) }
    ensures buffer { buffer.new ≡ at_front (day_run_text day count step) buffer.old }
{
    let start = Instant { day, micros: 0 };
    match run::write(start, count, step * SECOND_MICROS, buffer) {
        Ok(()) => LENGTH * (count as usize),
        Err(r) => text::refuse_by(r, buffer),
    }
}

// Puts what is to be written for the input s, of which the first line counts, at the front of the buffer, and returns how many bytes that is.
pub fn answer(s: &[u8], buffer: &mut [u8; 2880]) -> usize
    ensures size { result ≡ length (answer_text s.now) }
    ensures buffer { buffer.new ≡ at_front (answer_text s.now) buffer.old }
{
    let Some(l) = line::parse(s) else {
        return bigendian::copy(b"bad line\n", buffer);
    };
    let date = Date {
        year: l.year,
        month: l.month,
        day: l.day,
    };
    match date.day_number() {
        Ok(day) => day_run(day, l.count, l.step, buffer),
        Err(refused) => text::refuse_by(refused, buffer),
    }
}
