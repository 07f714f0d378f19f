// Service (f): free-core-nutation offsets, in nanoarcseconds.
ghost use Rattle.std.specs.Prelude.{◌≡◌};
ghost use Rattle.row_places.specs.Lookup.{probes_of};
ghost use Rattle.nutation.specs.Ours.{nutation_of, x_or, y_or, uncertainty_or, x_of, y_of, uncertainty_of, nutation_refusal_of};

use crate::number;
use instants::Instant;

// Both offsets and their uncertainty, or nothing written. Returns the refusal number.
#[unsafe(no_mangle)]
pub extern "C" fn enfys_nutation(
    day: i64,
    micros: u64,
    x: &mut i64,
    y: &mut i64,
    uncertainty: &mut u64,
) -> u32
    ensures refusal { result ≡ nutation_refusal_of (nutation_of day micros) }
    ensures x { x.new ≡ x_or x.old (nutation_of day micros) }
    ensures y { y.new ≡ y_or y.old (nutation_of day micros) }
    ensures uncertainty { uncertainty.new ≡ uncertainty_or uncertainty.old (nutation_of day micros) }
{
    match nutation::nutation_of(Instant { day, micros }) {
        Ok(o) => {
            *x = o.x;
            *y = o.y;
            *uncertainty = o.uncertainty;
            0
        }
        Err(refusal) => u32::from(refusal),
    }
}

// The offset X.
#[unsafe(no_mangle)]
pub extern "C" fn enfys_nutation_x(day: i64, micros: u64) -> i64
    ensures { result ≡ x_of (nutation_of day micros) }
{
    nutation::nutation_of(Instant { day, micros }).map_or(0, |o| o.x)
}

// The offset Y.
#[unsafe(no_mangle)]
pub extern "C" fn enfys_nutation_y(day: i64, micros: u64) -> i64
    ensures { result ≡ y_of (nutation_of day micros) }
{
    nutation::nutation_of(Instant { day, micros }).map_or(0, |o| o.y)
}

// The uncertainty of either offset, rounded up.
#[unsafe(no_mangle)]
pub extern "C" fn enfys_nutation_uncertainty(day: i64, micros: u64) -> u64
    ensures { result ≡ uncertainty_of (nutation_of day micros) }
{
    nutation::nutation_of(Instant { day, micros }).map_or(0, |o| o.uncertainty)
}

// The refusal number of the offsets at an instant.
#[unsafe(no_mangle)]
pub extern "C" fn enfys_nutation_refusal(day: i64, micros: u64) -> u32
    ensures { result ≡ nutation_refusal_of (nutation_of day micros) }
{
    number(nutation::nutation_of(Instant { day, micros }))
}

// The rows that the lookup probes at an instant, or 0 beside a refusal.
#[unsafe(no_mangle)]
pub extern "C" fn enfys_nutation_probes(day: i64, micros: u64) -> u64
    ensures { result ≡ probes_of day micros }
{
    row_places::probes_of(Instant { day, micros })
}
