// Binary64 numbers reduced to a range that begins at 0 and ends below a period.
// Derived from the IERS routines TDFRPH and ARG2; not IERS Conventions software (NOTICE, docs/DIFFERENCES.md).
#![tactic(auto)]

ghost use Rattle.std.specs.Prelude.{◌≡◌, ◌*◌, ◌%◌, ◌^◌, ◌<◌, ◌≤◌, true};
ghost use Rattle.std.specs.Float.Ieee as Ieee;
ghost use Rattle.std.specs.Float.{binary64, float_is_finite};
ghost use Rattle.binary64.specs.Inner.{IsUnits};
ghost use Rattle.binary64.specs.Reduction.{settled, reduced};

// A finite number: digits * 2^shift units of 2^-1074, and a sign.
#[derive(Clone, Copy)]
struct Units {
    negative: bool,
    digits: u64,
    shift: u64,
    ghost few: { digits < 2 ^ 53 },
    ghost near: { shift ≤ 2045 },
}

impl Units {
    // A finite number in units. Only where the shift is 0 can the digits be fewer than 53.
    fn of(x: f64) -> Units
        requires { float_is_finite x ≡ true }
        ensures value { IsUnits x result.negative (result.digits * 2 ^ result.shift) }
        ensures leading { 0 < result.shift → 2 ^ 52 ≤ result.digits }
    {
        let bits = x.to_bits();
        let negative = bits >= 1 << 63;
        let digits = bits % (1 << 52);
        let exponent = bits / (1 << 52) % (1 << 11);
        if exponent == 0 {
            return Units {
                negative,
                digits,
                shift: 0,
            };
        }
        Units {
            negative,
            digits: (1 << 52) + digits,
            shift: exponent - 1,
        }
    }

    // The number of these units, rounded once.
    fn number(self) -> f64
        ensures { result ≡ Ieee.round binary64 self.negative (self.digits * 2 ^ self.shift) (2 ^ 1074) }
    {
        // 2^52 times 2^shift units
        let scale = f64::from_bits((self.shift + 1) * (1 << 52));
        self.digits as f64 * f64::EPSILON * if self.negative { -scale } else { scale }
    }
}

// The remainder of a * 2^k by b, a doubling at a time.
fn doubled(a: u64, k: u64, b: u64) -> u64
    requires some { 0 < b }
    requires room { b < 2 ^ 53 }
    ensures { result ≡ a * 2 ^ k % b }
{
    let mut r = a % b;
    for i in 0..k {
        r = r + r;
        if r >= b {
            r -= b;
        }
    }
    r
}

// The remainder of x by y, exact and with x's sign: what C's fmod gives. In whole numbers, since `x % y` would call a library of C.
fn remainder(x: f64, y: f64) -> f64
    ensures { result ≡ Ieee.rem binary64 x y }
{
    if !x.is_finite() | y.is_nan() | (y == 0.0) {
        f64::NAN
    } else if !y.is_finite() {
        x
    } else {
        let a = Units::of(x);
        let b = Units::of(y);
        if a.shift < b.shift {
            a.number()
        } else {
            let digits = doubled(a.digits, a.shift - b.shift, b.digits);
            Units {
                negative: a.negative,
                digits,
                shift: b.shift,
            }
            .number()
        }
    }
}

// What is not below the period, and a zero of either sign, as +0.
fn settle(q: f64, period: f64) -> f64
    ensures { result ≡ settled period q }
{
    if q < period {
        if q == 0.0 { 0.0 } else { q }
    } else {
        0.0
    }
}

// The number x reduced by the period: at least +0 and below it, where the period is finite and above 0.
pub fn reduce(x: f64, period: f64) -> f64
    ensures { result ≡ reduced period x }
{
    let r = remainder(x, period);
    if r < 0.0 {
        settle(r + period, period)
    } else {
        settle(r, period)
    }
}
