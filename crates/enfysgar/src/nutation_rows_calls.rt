// Service (f) with rows from the caller: free-core-nutation offsets, in nanoarcseconds.
ghost use Rattle.std.specs.Prelude.{◌≡◌};
ghost use Rattle.row_places.specs.Lookup.{probes_rows_of};
ghost use Rattle.nutation.specs.Ours.{nutation_rows_of, x_or, y_or, uncertainty_or, x_of, y_of, uncertainty_of, nutation_refusal_of};

use crate::number;
use instants::Instant;

// Both offsets of the rows and their uncertainty, or nothing written. Returns the refusal number.
#[unsafe(no_mangle)]
pub extern "C" fn enfys_nutation_rows(
    rows: &[u8],
    day: i64,
    micros: u64,
    x: &mut i64,
    y: &mut i64,
    uncertainty: &mut u64,
) -> u32
    ensures refusal { result ≡ nutation_refusal_of (nutation_rows_of rows.now day micros) }
    ensures x { x.new ≡ x_or x.old (nutation_rows_of rows.now day micros) }
    ensures y { y.new ≡ y_or y.old (nutation_rows_of rows.now day micros) }
    ensures uncertainty { uncertainty.new ≡ uncertainty_or uncertainty.old (nutation_rows_of rows.now day micros) }
{
    match nutation::nutation_rows_of(rows, Instant { day, micros }) {
        Ok(o) => {
            *x = o.x;
            *y = o.y;
            *uncertainty = o.uncertainty;
            0
        }
        Err(refusal) => u32::from(refusal),
    }
}

// The offset X of the rows.
#[unsafe(no_mangle)]
pub extern "C" fn enfys_nutation_rows_x(rows: &[u8], day: i64, micros: u64) -> i64
    ensures { result ≡ x_of (nutation_rows_of rows.now day micros) }
{
    nutation::nutation_rows_of(rows, Instant { day, micros }).map_or(0, |o| o.x)
}

// The offset Y of the rows.
#[unsafe(no_mangle)]
pub extern "C" fn enfys_nutation_rows_y(rows: &[u8], day: i64, micros: u64) -> i64
    ensures { result ≡ y_of (nutation_rows_of rows.now day micros) }
{
    nutation::nutation_rows_of(rows, Instant { day, micros }).map_or(0, |o| o.y)
}

// The uncertainty of either offset of the rows, rounded up.
#[unsafe(no_mangle)]
pub extern "C" fn enfys_nutation_rows_uncertainty(rows: &[u8], day: i64, micros: u64) -> u64
    ensures { result ≡ uncertainty_of (nutation_rows_of rows.now day micros) }
{
    nutation::nutation_rows_of(rows, Instant { day, micros }).map_or(0, |o| o.uncertainty)
}

// The refusal number of the rows and the instant.
#[unsafe(no_mangle)]
pub extern "C" fn enfys_nutation_rows_refusal(rows: &[u8], day: i64, micros: u64) -> u32
    ensures { result ≡ nutation_refusal_of (nutation_rows_of rows.now day micros) }
{
    number(nutation::nutation_rows_of(rows, Instant { day, micros }))
}

// The rows that the lookup probes among these at an instant, or 0 beside a refusal.
#[unsafe(no_mangle)]
pub extern "C" fn enfys_nutation_rows_probes(rows: &[u8], day: i64, micros: u64) -> u64
    ensures { result ≡ probes_rows_of rows.now day micros }
{
    row_places::probes_rows_of(rows, Instant { day, micros })
}
