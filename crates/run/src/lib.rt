// A run of records at equal steps from a start, each with the corrections of its own instant.
#![tactic(auto)]

ghost use Rattle.std.specs.Prelude.{◌≡◌, length};
ghost use Rattle.bigendian.specs.Buffers.{at_front};
ghost use Rattle.instants.specs.Inner.{LaterBounds};
ghost use Rattle.instants.specs.Instants.{later_day, later_micros};
ghost use Rattle.instants.specs.Refusals.{check};
ghost use Rattle.run.specs.Run.{run_cases, run_refusal, run_bytes, run_written};
ghost use Rattle.run.specs.Inner.{written_at};

use instants::{DAY_MICROS, Instant, Refusal};
use record::{LENGTH, Record};

// The most records of a run.
const MOST_RECORDS: u64 = 96;

// Accepts a run into a buffer of so many bytes, or refuses it.
fn accept(start: Instant, count: u64, step: u64, size: usize) -> Result<(), Refusal>
    ensures { result ≡ check (run_cases start.day start.micros count step size) }
{
    if (count < 1) | (MOST_RECORDS < count) {
        return Err(Refusal::RunCount);
    }
    if (step < 1) | (DAY_MICROS < step) {
        return Err(Refusal::RunStep);
    }
    start.accept()?;
    start.later((count - 1) * step).accept()?;
    if size < LENGTH * (count as usize) {
        return Err(Refusal::BufferShort);
    }
    Ok(())
}

// Writes the record of the instant t microseconds after a start, with its corrections, at the front of the buffer.
fn write_later(start: Instant, t: u64, buffer: &mut [u8])
    requires { LaterBounds start.day start.micros t }
    ensures { buffer.new ≡ written_at (later_day start.day start.micros t) (later_micros start.micros t) buffer.old }
{
    let i = start.later(t);
    if let Ok(c) = zonal::zonal_of(i) {
        let record = Record {
            day: i.day,
            micros: i.micros,
            ut1: c.ut1,
            lod: c.lod,
            rate: c.rate,
        };
        let _ = record.write(buffer);
    }
}

// Writes the records of a run that is not refused.
fn fill(start: Instant, count: u64, step: u64, buffer: &mut [u8])
    requires { run_refusal start.day start.micros count step (length buffer.old) ≡ 0 }
    ensures { buffer.new ≡ at_front (run_bytes start.day start.micros step count) buffer.old }
{
    // By places: of what is written through `chunks_exact_mut` a proof knows the length alone.
    for k in 0..count {
        write_later(start, k * step, &mut buffer[LENGTH * (k as usize)..]);
    }
}

// Writes a run at the front of the buffer, or leaves the buffer as it was beside a refusal.
pub fn write(start: Instant, count: u64, step: u64, buffer: &mut [u8]) -> Result<(), Refusal>
    ensures refusal { result ≡ check (run_cases start.day start.micros count step (length buffer.old)) }
    ensures buffer { buffer.new ≡ run_written start.day start.micros count step buffer.old }
{
    accept(start, count, step, buffer.len())?;
    fill(start, count, step, buffer);
    Ok(())
}
