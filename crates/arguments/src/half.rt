// One half of an argument.
// Derived from the IERS routine TDFRPH; not IERS Conventions software (NOTICE, docs/DIFFERENCES.md).
ghost use Rattle.std.specs.Prelude.{◌≡◌, ◌^◌, ◌<◌};
ghost use Rattle.arguments.specs.Ours as ours;
ghost use Rattle.arguments.specs.Inner.{HalfBounds};

use crate::high;
use crate::time::Time;

// A century, in units of 2^-24 century.
const CENTURY: u64 = 1 << 24;

// A century, and six of the ten binary places that the constants from the second degree on have more than an angle.
const CENTURY_SIX: u64 = 1 << 30;

// A century, and the other four.
const CENTURY_FOUR: u64 = 1 << 28;

// The constants of one half of an argument: its coefficients over the turn, to nearest, from the degree 0 to the degree 4.
// The first is in units of 2^-41 turn, the second of 2^-105 turn by microsecond, the others of 2^-51 turn.
#[derive(Clone, Copy)]
pub struct Half {
    pub a0: u64,
    pub g: u64,
    pub k2: u64,
    pub k3: u64,
    pub k4: u64,
}

impl Half {
    // The half at a time, in units of 2^-41 turn.
    pub fn at(self, t: Time) -> u64
        requires { HalfBounds self }
        ensures value { result ≡ ours.half_at self t.x }
        ensures below { result < 2 ^ 56 }
    {
        let h3 = self.k3 + t.s * self.k4 / CENTURY;
        let h2 = self.k2 + t.s * h3 / CENTURY;
        let h1 = t.s * h2 / CENTURY_SIX;
        self.a0 + high(t.x, self.g) + t.s * h1 / CENTURY_FOUR
    }
}
