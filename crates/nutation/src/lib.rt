// Service (f): the offsets of the celestial pole by the free core nutation, and their uncertainty.
// The offsets are ours in whole numbers (specs/Ours.antt), within two nanoarcseconds of the exact ones (proofs/Distance.antt); the uncertainty is exact.
// Derived from the IERS routine FCNNUT; not IERS Conventions software (NOTICE, docs/DIFFERENCES.md).
#![tactic(auto)]

ghost use Rattle.std.specs.Prelude.{◌≡◌, ℕ, ◌*◌, ◌/◌, ◌^◌, ◌≤◌, ◌<◌};
ghost use Rattle.instants.specs.Limits.{day_micros};
ghost use Rattle.rows.specs.Table.{largest};
ghost use Rattle.rows.specs.declared.Place.TheVariants.{End, Between};
ghost use Rattle.rows.specs.Inner.{AcceptedRow, Placed};
ghost use Rattle.row_bytes.specs.Form.{table_in};
ghost use Rattle.nutation.specs.Exact.{round_up, uncertainty_at};
ghost use Rattle.nutation.specs.Ours.{our_angle, mixed, offset, offsets_at, nutation_with, nutation_of, nutation_rows_of};
ghost use Rattle.nutation.specs.Inner.{amplitudes, OnTheWay, MixBounds, OffsetBounds, twice_between};

use instants::{DAY_MICROS, Instant, Moment, Refusal};
use row_bytes::Table;
use rows::{Place, Row};
use sine::TURN;

// The amplitudes at a moment, in units of 2^-10 hundredths of a microarcsecond.
#[derive(Clone, Copy)]
struct Amplitudes {
    xc: i64,
    xs: i64,
}

// The offsets and the uncertainty of each, in nanoarcseconds.
#[derive(Clone, Copy)]
pub struct Offsets {
    pub x: i64,
    pub y: i64,
    pub uncertainty: u64,
}

// The angle at the moment 0 and 400 turns, and how far it goes back in a microsecond: in units of 2^-41 and of 2^-105 turn.
const START_ANGLE: u64 = 1813099044544744;

const ANGLE_RATE: u64 = 1091328007965299807;

// How far a moment is on the way from one row to another that is `days` later, in units of 2^-27 of the way.
fn factor_of(days: u64, after: u64) -> u64
    requires { OnTheWay days after }
    ensures factor { result ≡ after * 2 ^ 27 / (days * day_micros) }
    ensures most { result ≤ 2 ^ 27 }
{
    (after / DAY_MICROS * 0x800_0000 + after % DAY_MICROS * 0x800_0000 / DAY_MICROS) / days
}

// From c to d by l units of 2^-27 of the way, in units of 2^-10.
fn mixed_of(c: i64, d: i64, l: u64) -> i64
    requires { MixBounds c d l }
    ensures { result ≡ mixed c d l }
{
    (c * 0x800_0000 + (d - c) * (l as i64)) >> 17
}

// The amplitudes at or outside an end: the row's, in units of 2^-10.
#[tactic(auto, using(crate::proofs::Sizes::times_fits), unfolding(crate::specs::Inner::amplitudes, crate::specs::Ours::amplitude))]
fn amplitudes_end(r: Row) -> Amplitudes
    requires { AcceptedRow r }
    ensures { (x : ℕ) → result ≡ amplitudes (End r) x }
{
    Amplitudes {
        xc: r.xc * 0x400,
        xs: r.xs * 0x400,
    }
}

// The amplitudes between two rows.
fn amplitudes_between(a: Row, b: Row, x: u64) -> Amplitudes
    requires { Placed (Between a b) x }
    ensures { result ≡ amplitudes (Between a b) x }
{
    let l = factor_of(b.day - a.day, x - a.moment());
    Amplitudes {
        xc: mixed_of(a.xc, b.xc, l),
        xs: mixed_of(a.xs, b.xs, l),
    }
}

// The amplitudes at a place, by its two kinds.
fn amplitudes_at(p: Place, x: u64) -> Amplitudes
    requires { Placed p x }
    ensures { result ≡ amplitudes p x }
{
    match p {
        Place::End(r) => amplitudes_end(r),
        Place::Between(a, b) => amplitudes_between(a, b, x),
    }
}

// The angle of the free core nutation, in units of 2^-41 turn.
#[tactic(auto, unfolding(crate::specs::Ours::our_angle))]
fn angle_at(at: Moment) -> u64
    ensures { result ≡ our_angle at }
{
    (START_ANGLE - arguments::high(at.micros(), ANGLE_RATE)) % TURN
}

// Ten times c cos - s sin, which is in units of 2^-41, to the nearest whole nanoarcsecond.
fn offset_of(c: i64, s: i64, cos: i64, sin: i64) -> i64
    requires { OffsetBounds c s cos sin }
    ensures { result ≡ offset c s cos sin }
{
    (10 * (c * cos - s * sin) + 0x100_0000_0000) >> 41
}

// A quotient, rounded up.
fn round_up(n: u64, d: u64) -> u64
    requires { 0 < d }
    ensures { result ≡ round_up n d }
{
    n.div_ceil(d)
}

// Twice u at or outside an end, rounded up: 26.5 hundredths of a microarcsecond are 265 nanoarcseconds.
fn uncertainty_end(r: Row, at: Moment) -> u64
    requires { AcceptedRow r }
    ensures { result ≡ uncertainty_at (End r) at }
{
    20 * r.uncertainty + round_up(265 * at.micros().abs_diff(r.moment()), DAY_MICROS)
}

// Twice what is between u and v, which are `days` apart, `after` microseconds after u, rounded up: whole days and the rest of a day apart, since the
// product with all the microseconds passes 64 bits.
fn uncertainty_mixed(u: u64, v: u64, days: u64, after: u64) -> u64
    requires first { u ≤ largest }
    requires second { v ≤ largest }
    requires way { OnTheWay days after }
    ensures { result ≡ twice_between u v (days * day_micros) after }
{
    let whole = after / DAY_MICROS;
    let micros = after % DAY_MICROS;
    let part = round_up(20 * (u * (DAY_MICROS - micros) + v * micros), DAY_MICROS);
    round_up(20 * (u * (days - 1 - whole) + v * whole) + part, days)
}

// Twice u between two rows, rounded up.
fn uncertainty_between(a: Row, b: Row, x: u64) -> u64
    requires { Placed (Between a b) x }
    ensures { result ≡ uncertainty_at (Between a b) x }
{
    uncertainty_mixed(a.uncertainty, b.uncertainty, b.day - a.day, x - a.moment())
}

// The uncertainty at a place, by its two kinds.
fn uncertainty_of(p: Place, at: Moment) -> u64
    requires { Placed p at }
    ensures { result ≡ uncertainty_at p at }
{
    match p {
        Place::End(r) => uncertainty_end(r, at),
        Place::Between(a, b) => uncertainty_between(a, b, at.micros()),
    }
}

// The offsets and the uncertainty at a place. YC is XS, and YS is -XC.
fn offsets_of(p: Place, at: Moment) -> Offsets
    requires { Placed p at }
    ensures { result ≡ offsets_at p at }
{
    let a = amplitudes_at(p, at.micros());
    let b = angle_at(at);
    let cos = sine::cosine(b);
    let sin = sine::sine(b);
    Offsets {
        x: offset_of(a.xc, a.xs, cos, sin),
        y: offset_of(a.xs, -a.xc, cos, sin),
        uncertainty: uncertainty_of(p, at),
    }
}

// The service over a table: its offsets, or refusal 8 or 9.
fn nutation_with(t: Table, at: Instant) -> Result<Offsets, Refusal>
    ensures { result ≡ nutation_with (table_in t.entry.bytes.now) at.day at.micros }
{
    let moment = at.accepted()?;
    Ok(offsets_of(row_places::place_at(t, moment.micros()), moment))
}

// With the built-in rows.
pub fn nutation_of(at: Instant) -> Result<Offsets, Refusal>
    ensures { result ≡ nutation_of at.day at.micros }
{
    let s = row_places::built_in();
    nutation_with(Table { bytes: &s }, at)
}

// With the rows in the bytes s, or refusal 21 to 24, then 8 or 9.
pub fn nutation_rows_of(s: &[u8], at: Instant) -> Result<Offsets, Refusal>
    ensures { result ≡ nutation_rows_of s.now at.day at.micros }
{
    let t = Table::read(s)?;
    nutation_with(t, at)
}
