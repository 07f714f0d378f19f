// The calls that the daemon makes, and nothing else. Each answers any values. On a refusal the call of one number gives 0, and the others write nothing.
#![tactic(auto)]

mod calendar_calls;
mod clock_calls;
mod compare_calls;
mod nutation_calls;
mod nutation_rows_calls;
mod record_calls;
mod rescue_calls;
mod run_calls;
mod schwiderski_calls;
mod tide_calls;
mod utc_calls;
mod zonal_calls;

ghost use Rattle.std.specs.Prelude.{◌≡◌};
ghost use Rattle.instants.specs.Refusals.{refusal_of};

use instants::Refusal;

// The refusal number of an answer, or 0.
fn number<T: Drop>(answer: Result<T, Refusal>) -> u32
    ensures { result ≡ refusal_of answer }
{
    match answer {
        Ok(_) => 0,
        Err(refusal) => u32::from(refusal),
    }
}
