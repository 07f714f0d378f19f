// Moments of the range.

ghost use Rattle.std.specs.Prelude.{◌≡◌, ◌≤◌, ℕ};
ghost use Rattle.instants.specs.Moments.{latest};

use std::marker::Model;

// A moment that is not after the last of the days that are covered. Contracts see the number of its microseconds.
#[derive(Clone, Copy)]
pub struct Moment {
    micros: u64,
}

impl Model for Moment {
    ghost Value = { ℕ };

    ghost view = { λ m. m.micros };

    ghost invariant = { λ m. m.micros ≤ latest };

    ghost inverse = { λ n. record { micros = n } };
}

impl Moment {
    // The moment of so many microseconds.
    pub fn new(micros: u64) -> Moment
        requires { micros ≤ latest }
        ensures { result ≡ micros }
    {
        Moment { micros }
    }

    // Its microseconds since five centuries before J2000.0.
    pub fn micros(self) -> u64
        ensures value { result ≡ self }
        ensures most { result ≤ latest }
    {
        self.micros
    }
}
