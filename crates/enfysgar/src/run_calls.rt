// Service (g): a run of records.
ghost use Rattle.std.specs.Prelude.{◌≡◌, length};
ghost use Rattle.run.specs.Run.{run_refusal, run_written};

use crate::number;
use instants::Instant;

// Writes `count` records, `step` microseconds apart, into the front of the buffer. Returns the refusal number.
#[tactic(auto, using(crate::proofs::Numbers::run_number))]
#[unsafe(no_mangle)]
pub extern "C" fn enfys_run_write(
    day: i64,
    micros: u64,
    count: u64,
    step: u64,
    buffer: &mut [u8],
) -> u32
    ensures refusal { result ≡ run_refusal day micros count step (length buffer.old) }
    ensures buffer { buffer.new ≡ run_written day micros count step buffer.old }
{
    number(run::write(Instant { day, micros }, count, step, buffer))
}
