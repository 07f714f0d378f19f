// Service (j): the eleven Schwiderski angles at a day of a year, in radians.
// Derived from the IERS routine ARG2; not IERS Conventions software (NOTICE, docs/DIFFERENCES.md).
#![tactic(auto)]

ghost use Rattle.std.specs.Prelude.{◌≡◌, ◌≤◌, T, pos};
ghost use Rattle.std.specs.Float.Ieee as Ieee;
ghost use Rattle.binary64.specs.Words.{whole};
ghost use Rattle.binary64.specs.Reduction.{reduced};
ghost use Rattle.schwiderski.specs.Formula.{two_pi, leap_days, day_count, longitudes, angle_sum, sums, reduced_each, angles_of};
ghost use Rattle.schwiderski.specs.Service.{schwiderski_of};

use instants::Refusal;
use std::num;

const FIRST_YEAR: u64 = 1974;

const LAST_YEAR: u64 = 2100;

// The year from which the formula counts.
const FORMULA_YEAR: u64 = 1900;

const TWO_PI: f64 = 6.283185307179586476925287;

// The radians of a degree.
const DEGREE: f64 = 0.174532925199e-1;

// A day of the year 1900 + y, as the formula takes it.
#[derive(Clone, Copy)]
struct FormulaDay {
    y: u64,
    day: f64,
    ghost year: { y ≤ 200 },
    ghost from: { T (Ieee.le (whole (pos 1)) day) },
    ghost below: { T (Ieee.lt day (whole (pos 367))) },
}

// What every angle is made of: the seconds of the day, and the mean longitudes of the Sun, of the Moon and of its perigee at its beginning, in radians.
#[derive(Clone, Copy)]
struct Longitudes {
    seconds: f64,
    sun: f64,
    moon: f64,
    perigee: f64,
}

// The eleven angles, in radians.
#[derive(Clone, Copy)]
pub struct Angles {
    pub m2: f64,
    pub s2: f64,
    pub n2: f64,
    pub k2: f64,
    pub k1: f64,
    pub o1: f64,
    pub p1: f64,
    pub q1: f64,
    pub mf: f64,
    pub mm: f64,
    pub ssa: f64,
}

impl FormulaDay {
    // The leap days from 1973 to the beginning of the year; before 1973, minus one for each whole four years.
    fn leap_days(self) -> i64
        ensures { result ≡ leap_days self.y }
    {
        (self.y as i64 - 73) / 4
    }

    // The days from the last of 1974 to the day d of the year; before 1973 up to one more.
    fn count(self, d: u64) -> i64
        requires { d ≤ 366 }
        ensures { result ≡ day_count self.y d }
    {
        d as i64 + 365 * (self.y as i64 - 75) + self.leap_days()
    }

    // The seconds and the longitudes at the day.
    fn longitudes(self) -> Longitudes
        ensures { result ≡ longitudes self.y self.day }
    {
        let id = num::truncating_f64_to_u64(self.day);
        let n = self.count(id);
        let t = (27392.500528 + 1.000000035 * (n as f64)) / 36525.0;
        Longitudes {
            seconds: (self.day - id as f64) * 86400.0,
            sun: (279.69668 + (36000.768930485 + 3.03e-4 * t) * t) * DEGREE,
            moon: (((1.9e-6 * t - 0.001133) * t + 481267.88314137) * t + 270.434358) * DEGREE,
            perigee: (((-(1.2e-5 * t) - 0.010325) * t + 4069.0340329577) * t + 334.329653) * DEGREE,
        }
    }
}

impl Longitudes {
    // The angle of a speed, in radians a second, and of four factors: those of the longitudes and of two-pi.
    fn angle(self, speed: f64, h: f64, s: f64, p: f64, turns: f64) -> f64
        ensures { result ≡ reduced two_pi (angle_sum self speed h s p turns) }
    {
        let sum = speed * self.seconds
            + h * self.sun
            + s * self.moon
            + p * self.perigee
            + turns * TWO_PI;
        binary64::reduce(sum, TWO_PI)
    }

    // The eleven angles, each with its row of ARG2's table.
    fn angles(self) -> Angles
        ensures { result ≡ reduced_each (sums self) }
    {
        Angles {
            m2: self.angle(1.40519e-4, 2.0, -2.0, 0.0, 0.0),
            s2: self.angle(1.45444e-4, 0.0, 0.0, 0.0, 0.0),
            n2: self.angle(1.37880e-4, 2.0, -3.0, 1.0, 0.0),
            k2: self.angle(1.45842e-4, 2.0, 0.0, 0.0, 0.0),
            k1: self.angle(0.72921e-4, 1.0, 0.0, 0.0, 0.25),
            o1: self.angle(0.67598e-4, 1.0, -2.0, 0.0, -0.25),
            p1: self.angle(0.72523e-4, -1.0, 0.0, 0.0, -0.25),
            q1: self.angle(0.64959e-4, 1.0, -3.0, 1.0, -0.25),
            mf: self.angle(0.053234e-4, 0.0, 2.0, 0.0, 0.0),
            mm: self.angle(0.026392e-4, 0.0, 1.0, -1.0, 0.0),
            ssa: self.angle(0.003982e-4, 2.0, 0.0, 0.0, 0.0),
        }
    }
}

// The formula: the eleven angles at a day of the year 1900 + y.
pub fn formula(y: u64, day: f64) -> Angles
    requires year { y ≤ 200 }
    requires from { T (Ieee.le (whole (pos 1)) day) }
    requires below { T (Ieee.lt day (whole (pos 367))) }
    ensures { result ≡ angles_of y day }
{
    FormulaDay { y, day }.longitudes().angles()
}

// The eleven angles at a day of a year, or the first refusal: of the year, then of the day.
pub fn schwiderski_of(year: u64, day: f64) -> Result<Angles, Refusal>
    ensures { result ≡ schwiderski_of year day }
{
    if (year < FIRST_YEAR) | (LAST_YEAR < year) {
        return Err(Refusal::Year);
    }
    let end = (calendar::year_length(year) + 1) as f64;
    if (1.0 <= day) & (day < end) {
        Ok(formula(year - FORMULA_YEAR, day))
    } else {
        Err(Refusal::DayOfYear)
    }
}
