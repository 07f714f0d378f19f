// Service (j): the eleven Schwiderski angles at a day of a year.
ghost use Rattle.std.specs.Prelude.{◌≡◌};
ghost use Rattle.schwiderski.specs.Service.{schwiderski_of, angles_or, angle_of, angles_refusal_of};
ghost use Rattle.schwiderski.specs.declared.Angles.{Angles};

use crate::number;

// The eleven angles, in radians and in the order M2, S2, N2, K2, K1, O1, P1, Q1, Mf, Mm, Ssa, or nothing written. Returns the refusal number.
#[unsafe(no_mangle)]
pub extern "C" fn enfys_schwiderski(year: u64, day: f64, angles: &mut [f64; 11]) -> u32
    ensures refusal { result ≡ angles_refusal_of (schwiderski_of year day) }
    ensures angles { angles.new ≡ angles_or angles.old (schwiderski_of year day) }
{
    match schwiderski::schwiderski_of(year, day) {
        Ok(a) => {
            *angles = [
                a.m2, a.s2, a.n2, a.k2, a.k1, a.o1, a.p1, a.q1, a.mf, a.mm, a.ssa,
            ];
            0
        }
        Err(refusal) => u32::from(refusal),
    }
}

// The angle of M2, in radians.
#[unsafe(no_mangle)]
pub extern "C" fn enfys_schwiderski_m2(year: u64, day: f64) -> f64
    ensures { result ≡ angle_of (λ (a : Angles). a.m2) (schwiderski_of year day) }
{
    schwiderski::schwiderski_of(year, day).map_or(0.0, |a| a.m2)
}

// The angle of S2, in radians.
#[unsafe(no_mangle)]
pub extern "C" fn enfys_schwiderski_s2(year: u64, day: f64) -> f64
    ensures { result ≡ angle_of (λ (a : Angles). a.s2) (schwiderski_of year day) }
{
    schwiderski::schwiderski_of(year, day).map_or(0.0, |a| a.s2)
}

// The angle of N2, in radians.
#[unsafe(no_mangle)]
pub extern "C" fn enfys_schwiderski_n2(year: u64, day: f64) -> f64
    ensures { result ≡ angle_of (λ (a : Angles). a.n2) (schwiderski_of year day) }
{
    schwiderski::schwiderski_of(year, day).map_or(0.0, |a| a.n2)
}

// The angle of K2, in radians.
#[unsafe(no_mangle)]
pub extern "C" fn enfys_schwiderski_k2(year: u64, day: f64) -> f64
    ensures { result ≡ angle_of (λ (a : Angles). a.k2) (schwiderski_of year day) }
{
    schwiderski::schwiderski_of(year, day).map_or(0.0, |a| a.k2)
}

// The angle of K1, in radians.
#[unsafe(no_mangle)]
pub extern "C" fn enfys_schwiderski_k1(year: u64, day: f64) -> f64
    ensures { result ≡ angle_of (λ (a : Angles). a.k1) (schwiderski_of year day) }
{
    schwiderski::schwiderski_of(year, day).map_or(0.0, |a| a.k1)
}

// The angle of O1, in radians.
#[unsafe(no_mangle)]
pub extern "C" fn enfys_schwiderski_o1(year: u64, day: f64) -> f64
    ensures { result ≡ angle_of (λ (a : Angles). a.o1) (schwiderski_of year day) }
{
    schwiderski::schwiderski_of(year, day).map_or(0.0, |a| a.o1)
}

// The angle of P1, in radians.
#[unsafe(no_mangle)]
pub extern "C" fn enfys_schwiderski_p1(year: u64, day: f64) -> f64
    ensures { result ≡ angle_of (λ (a : Angles). a.p1) (schwiderski_of year day) }
{
    schwiderski::schwiderski_of(year, day).map_or(0.0, |a| a.p1)
}

// The angle of Q1, in radians.
#[unsafe(no_mangle)]
pub extern "C" fn enfys_schwiderski_q1(year: u64, day: f64) -> f64
    ensures { result ≡ angle_of (λ (a : Angles). a.q1) (schwiderski_of year day) }
{
    schwiderski::schwiderski_of(year, day).map_or(0.0, |a| a.q1)
}

// The angle of Mf, in radians.
#[unsafe(no_mangle)]
pub extern "C" fn enfys_schwiderski_mf(year: u64, day: f64) -> f64
    ensures { result ≡ angle_of (λ (a : Angles). a.mf) (schwiderski_of year day) }
{
    schwiderski::schwiderski_of(year, day).map_or(0.0, |a| a.mf)
}

// The angle of Mm, in radians.
#[unsafe(no_mangle)]
pub extern "C" fn enfys_schwiderski_mm(year: u64, day: f64) -> f64
    ensures { result ≡ angle_of (λ (a : Angles). a.mm) (schwiderski_of year day) }
{
    schwiderski::schwiderski_of(year, day).map_or(0.0, |a| a.mm)
}

// The angle of Ssa, in radians.
#[unsafe(no_mangle)]
pub extern "C" fn enfys_schwiderski_ssa(year: u64, day: f64) -> f64
    ensures { result ≡ angle_of (λ (a : Angles). a.ssa) (schwiderski_of year day) }
{
    schwiderski::schwiderski_of(year, day).map_or(0.0, |a| a.ssa)
}

// The refusal number of a year and a day of the year.
#[unsafe(no_mangle)]
pub extern "C" fn enfys_schwiderski_refusal(year: u64, day: f64) -> u32
    ensures { result ≡ angles_refusal_of (schwiderski_of year day) }
{
    number(schwiderski::schwiderski_of(year, day))
}
