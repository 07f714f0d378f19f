// Service (e): zonal-tide corrections to UT1, length of day and rotation rate, in 64-bit whole numbers.
// Their distance from the exact sums is proved in proofs/Distance.antt, and promised in proofs/Promises.antt.
// Derived from the IERS routine RG_ZONT2; not IERS Conventions software (NOTICE, docs/DIFFERENCES.md).
#![tactic(auto)]

mod table;

ghost use Rattle.std.specs.Prelude.{◌≡◌, ◌≤◌, ◌<◌, nat_abs, ◌+ℤ◌, ◌*ℤ◌};
ghost use Rattle.zonal.specs.Ours as ours;
ghost use Rattle.zonal.specs.Inner.{row_term, product_most, RowBounds, sums_at, corrections_then};

use instants::{Instant, Moment, Refusal};
use table::{COEFFICIENTS, MULTIPLIERS};

// UT1 in nanoseconds, length of day in picoseconds, rate in 10^-20 rad/s.
#[derive(Clone, Copy)]
pub struct Corrections {
    pub ut1: i32,
    pub lod: i32,
    pub rate: i32,
}

// The three sums over the rows, in units of 2^-31.
#[derive(Clone, Copy)]
struct Sums {
    ut1: i64,
    lod: i64,
    rate: i64,
}

// A sum with one more row: its coefficient in a column times p, and that in the next column times q.
fn add_row(total: i64, row: &[i64; 6], column: usize, p: i64, q: i64) -> i64
    requires { RowBounds row.now column total p q }
    ensures { result ≡ total +ℤ row_term row.now column p q }
{
    total + (row[column] * p + row[column + 1] * q)
}

// The sums at a moment.
fn sums_at(at: Moment) -> Sums
    ensures { result ≡ sums_at at }
{
    let a = arguments::arguments(at);
    let mut total = Sums {
        ut1: 0,
        lod: 0,
        rate: 0,
    };
    for (multipliers, row) in MULTIPLIERS.iter().zip(&COEFFICIENTS) {
        let b = arguments::angle(multipliers, &a);
        let s = sine::sine(b);
        let c = sine::cosine(b);
        total.ut1 = add_row(total.ut1, row, 0, s, c);
        total.lod = add_row(total.lod, row, 2, c, s);
        total.rate = add_row(total.rate, row, 4, c, s);
    }
    total
}

// A half, in units of 2^-31.
const HALF: i64 = 1 << 30;

// f times a sum in units of 2^-31, to the nearest whole number.
fn rounded(f: i64, v: i64) -> i32
    requires { nat_abs (f *ℤ v) ≤ product_most }
    ensures { result ≡ ours.rounded f v }
{
    ((f * v + HALF) >> 31) as i32
}

// The corrections at a moment.
fn corrections_at(at: Moment) -> Corrections
    ensures { result ≡ corrections_then at }
{
    let v = sums_at(at);
    Corrections {
        ut1: rounded(10, v.ut1),
        lod: rounded(1000, v.lod),
        rate: rounded(100, v.rate),
    }
}

// The corrections of an instant, or its refusal.
pub fn zonal_of(t: Instant) -> Result<Corrections, Refusal>
    ensures { result ≡ ours.zonal_of t.day t.micros }
{
    Ok(corrections_at(t.accepted()?))
}
