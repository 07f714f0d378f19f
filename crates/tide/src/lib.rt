// Service (d): frequency and phase of a tidal constituent, from its six Doodson multipliers and a UTC reading.
// Derived from the IERS routine TDFRPH; not IERS Conventions software (NOTICE, docs/DIFFERENCES.md).
#![tactic(auto)]

ghost use Rattle.std.specs.Prelude.{◌≡◌, ◌*◌, ◌<◌, T, map, fold};
ghost use Rattle.std.specs.List.{zip};
ghost use Rattle.std.specs.Float.{binary64};
ghost use Rattle.std.specs.Float.Ieee.{in_float};
ghost use Rattle.instants.specs.Limits.{day_micros};
ghost use Rattle.utc.specs.PhaseInstants.{PhaseInstant};
ghost use Rattle.utc.specs.Inner.{parts_of, Together};
ghost use Rattle.binary64.specs.Words.{◌⊕◌, ◌⊗◌, whole, zero64};
ghost use Rattle.tide.specs.Delaunay.{horner};
ghost use Rattle.tide.specs.Tidal.{day_fraction, centuries, arguments_of, arguments_at, sum_of_products, multipliers, in_range, all_in_range, answer_of, tide_of};

use instants::Refusal;
use utc::{PhaseParts, Reading};

// The six multipliers of a constituent.
#[derive(Clone, Copy)]
pub struct Doodson {
    pub k1: i64,
    pub k2: i64,
    pub k3: i64,
    pub k4: i64,
    pub k5: i64,
    pub k6: i64,
}

// The six Doodson arguments in degrees and their frequencies in cycles per day.
#[derive(Clone, Copy)]
pub struct Arguments {
    pub degrees: [f64; 6],
    pub cycles: [f64; 6],
}

// A frequency in cycles per day and its phase in degrees.
#[derive(Clone, Copy)]
pub struct Constituent {
    pub frequency: f64,
    pub phase: f64,
}

// The fraction of a day, from its microseconds: 1 or a little more in second 60.
fn day_fraction(micros: u64) -> f64
    requires { micros < 2 * day_micros }
    ensures { result ≡ day_fraction micros }
{
    micros as f64 / 86400000000.0
}

// The Julian centuries from J2000.0 to the fraction f of a day.
fn julian_centuries(day: i64, f: f64) -> f64
    requires { T (in_float binary64 day) }
    ensures { result ≡ centuries day f }
{
    (((day as f64 - 51544.0) - 0.5) + f) / 36525.0
}

// A polynomial of degree four at t, by nested products.
fn quartic(t: f64, c0: f64, c1: f64, c2: f64, c3: f64, c4: f64) -> f64
    ensures { result ≡ horner t c0 c1 c2 c3 c4 }
{
    c0 + t * (c1 + t * (c2 + t * (c3 + t * c4)))
}

// The arguments at the fraction f of a day, t centuries from J2000.0.
fn arguments_of(f: f64, t: f64) -> Arguments
    ensures { result ≡ arguments_of f t }
{
    let f1 = quartic(
        t,
        134.9634025100,
        477198.8675605000,
        0.0088553333,
        0.0000143431,
        -0.0000000680,
    );
    let f2 = quartic(
        t,
        357.5291091806,
        35999.0502911389,
        -0.0001536667,
        0.0000000378,
        -0.0000000032,
    );
    let f3 = quartic(
        t,
        93.2720906200,
        483202.0174577222,
        -0.0035420000,
        -0.0000002881,
        0.0000000012,
    );
    let f4 = quartic(
        t,
        297.8501954694,
        445267.1114469445,
        -0.0017696111,
        0.0000018314,
        -0.0000000088,
    );
    let f5 = quartic(
        t,
        125.0445550100,
        -1934.1362619722,
        0.0020756111,
        0.0000021394,
        -0.0000000165,
    );
    let fd1 = 0.0362916471 + 0.0000000013 * t;
    let fd2 = 0.0027377786;
    let fd3 = 0.0367481951 - 0.0000000005 * t;
    let fd4 = 0.0338631920 - 0.0000000003 * t;
    let fd5 = -0.0001470938 + 0.0000000003 * t;
    let d2 = f3 + f5;
    let d3 = d2 - f4;
    let dd2 = fd3 + fd5;
    let dd3 = dd2 - fd4;
    let d1 = 360.0 * f - f4;
    let d4 = d2 - f1;
    let d6 = d3 - f2;
    let dd1 = 1.0 - fd4;
    let dd4 = dd2 - fd1;
    let dd6 = dd3 - fd2;
    Arguments {
        degrees: [d1, d2, d3, d4, -f5, d6],
        cycles: [dd1, dd2, dd3, dd4, -fd5, dd6],
    }
}

// The arguments at an instant for phases: the hour angle of its UTC part, the centuries of its TT part.
fn arguments_at(p: PhaseParts) -> Arguments
    requires { Together p }
    ensures { (a : PhaseInstant) → p ≡ parts_of a → result ≡ arguments_at a }
{
    let tt = p.tt();
    let utc_micros = p.utc_micros();
    let day = tt.day;
    let t = julian_centuries(day, day_fraction(tt.micros));
    arguments_of(day_fraction(utc_micros), t)
}

// A multiplier is from -12 to 12.
fn in_range(k: i64) -> bool
    ensures { result ≡ in_range k }
{
    -12 <= k && k <= 12
}

// The products of two rows of numbers, added in order from +0.
fn products_added(k: &[f64], x: &[f64]) -> f64
    ensures { result ≡ fold (λ s p. s ⊕ p.0 ⊗ p.1) zero64 (zip k.now x.now) }
{
    k.iter().zip(x).fold(0.0, |sum, (k, x)| sum + *k * *x)
}

impl Doodson {
    // The six in their order.
    fn multipliers(self) -> [i64; 6]
        ensures { result ≡ multipliers self }
    {
        [self.k1, self.k2, self.k3, self.k4, self.k5, self.k6]
    }

    // All six are in range.
    #[tactic(auto, unfolding(crate::specs::Tidal::all_in_range))]
    fn all_in_range(self) -> bool
        ensures { result ≡ all_in_range self }
    {
        self.multipliers().iter().all(|k| in_range(*k))
    }

    // The six as numbers of binary64.
    fn factors(self) -> [f64; 6]
        requires { T (all_in_range self) }
        ensures { result ≡ map whole (multipliers self) }
    {
        [
            self.k1 as f64,
            self.k2 as f64,
            self.k3 as f64,
            self.k4 as f64,
            self.k5 as f64,
            self.k6 as f64,
        ]
    }

    // The products with the six, added in order from +0.
    fn sum_of_products(self, x: [f64; 6]) -> f64
        requires { T (all_in_range self) }
        ensures { result ≡ sum_of_products self x }
    {
        products_added(&self.factors(), &x)
    }
}

impl Arguments {
    // The frequency and phase for any multipliers, or refusal 11.
    fn constituent(self, k: Doodson) -> Result<Constituent, Refusal>
        ensures { result ≡ answer_of self k }
    {
        if !k.all_in_range() {
            return Err(Refusal::Multiplier);
        }
        Ok(Constituent {
            frequency: k.sum_of_products(self.cycles),
            phase: binary64::reduce(k.sum_of_products(self.degrees), 360.0),
        })
    }
}

// The frequency and phase of a constituent at a UTC reading, or the first refusal: of the reading, then of the multipliers.
pub fn tide_of(r: Reading, k: Doodson) -> Result<Constituent, Refusal>
    ensures { result ≡ tide_of r k }
{
    let p = r.phase_parts()?;
    arguments_at(p).constituent(k)
}
