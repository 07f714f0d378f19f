// Service (e): zonal-tide corrections.
ghost use Rattle.std.specs.Prelude.{◌≡◌};
ghost use Rattle.zonal.specs.Ours.{zonal_of, ut1_or, lod_or, rate_or, ut1_of, lod_of, rate_of, zonal_refusal_of};

use crate::number;
use instants::Instant;

// The three corrections, or nothing written. Returns the refusal number.
#[unsafe(no_mangle)]
pub extern "C" fn enfys_zonal(
    day: i64,
    micros: u64,
    ut1: &mut i32,
    lod: &mut i32,
    rate: &mut i32,
) -> u32
    ensures refusal { result ≡ zonal_refusal_of (zonal_of day micros) }
    ensures ut1 { ut1.new ≡ ut1_or ut1.old (zonal_of day micros) }
    ensures lod { lod.new ≡ lod_or lod.old (zonal_of day micros) }
    ensures rate { rate.new ≡ rate_or rate.old (zonal_of day micros) }
{
    match zonal::zonal_of(Instant { day, micros }) {
        Ok(c) => {
            *ut1 = c.ut1;
            *lod = c.lod;
            *rate = c.rate;
            0
        }
        Err(refusal) => u32::from(refusal),
    }
}

// The effect on UT1, in nanoseconds.
#[unsafe(no_mangle)]
pub extern "C" fn enfys_zonal_ut1(day: i64, micros: u64) -> i32
    ensures { result ≡ ut1_of (zonal_of day micros) }
{
    zonal::zonal_of(Instant { day, micros }).map_or(0, |c| c.ut1)
}

// The effect on the length of day, in picoseconds.
#[unsafe(no_mangle)]
pub extern "C" fn enfys_zonal_lod(day: i64, micros: u64) -> i32
    ensures { result ≡ lod_of (zonal_of day micros) }
{
    zonal::zonal_of(Instant { day, micros }).map_or(0, |c| c.lod)
}

// The effect on the rotation rate, in 10^-20 radian per second.
#[unsafe(no_mangle)]
pub extern "C" fn enfys_zonal_rate(day: i64, micros: u64) -> i32
    ensures { result ≡ rate_of (zonal_of day micros) }
{
    zonal::zonal_of(Instant { day, micros }).map_or(0, |c| c.rate)
}

// The refusal number of the corrections at an instant.
#[unsafe(no_mangle)]
pub extern "C" fn enfys_zonal_refusal(day: i64, micros: u64) -> u32
    ensures { result ≡ zonal_refusal_of (zonal_of day micros) }
{
    number(zonal::zonal_of(Instant { day, micros }))
}
