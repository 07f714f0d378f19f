// Service (d): frequency and phase of a tidal constituent at a UTC reading.
ghost use Rattle.std.specs.Prelude.{◌≡◌};
ghost use Rattle.utc.specs.Readings.{reading};
ghost use Rattle.tide.specs.Tidal.{tide_of, frequency_or, phase_or, frequency_of, phase_of, tide_refusal_of, doodson};

use crate::number;
use tide::Doodson;
use utc::Reading;

// The frequency, in cycles per day, and the phase, in degrees, or nothing written. Returns the refusal number.
#[unsafe(no_mangle)]
pub extern "C" fn enfys_tide(
    year: u64,
    month: u64,
    day: u64,
    hour: u64,
    minute: u64,
    second: u64,
    microsecond: u64,
    k1: i64,
    k2: i64,
    k3: i64,
    k4: i64,
    k5: i64,
    k6: i64,
    frequency: &mut f64,
    phase: &mut f64,
) -> u32
    ensures refusal { result ≡ tide_refusal_of (tide_of (reading year month day hour minute second microsecond) (doodson k1 k2 k3 k4 k5 k6)) }
    ensures frequency { frequency.new ≡ frequency_or frequency.old (tide_of (reading year month day hour minute second microsecond) (doodson k1 k2 k3 k4 k5 k6)) }
    ensures phase { phase.new ≡ phase_or phase.old (tide_of (reading year month day hour minute second microsecond) (doodson k1 k2 k3 k4 k5 k6)) }
{
    let k = Doodson {
        k1,
        k2,
        k3,
        k4,
        k5,
        k6,
    };
    match tide::tide_of(
        Reading {
            year,
            month,
            day,
            hour,
            minute,
            second,
            microsecond,
        },
        k,
    ) {
        Ok(x) => {
            *frequency = x.frequency;
            *phase = x.phase;
            0
        }
        Err(refusal) => u32::from(refusal),
    }
}

// The frequency, in cycles per day.
#[unsafe(no_mangle)]
#[tactic(auto, unfolding(crate::proofs::Literals::of_bits))]
pub extern "C" fn enfys_tide_frequency(
    year: u64,
    month: u64,
    day: u64,
    hour: u64,
    minute: u64,
    second: u64,
    microsecond: u64,
    k1: i64,
    k2: i64,
    k3: i64,
    k4: i64,
    k5: i64,
    k6: i64,
) -> f64
    ensures { result ≡ frequency_of (tide_of (reading year month day hour minute second microsecond) (doodson k1 k2 k3 k4 k5 k6)) }
{
    let k = Doodson {
        k1,
        k2,
        k3,
        k4,
        k5,
        k6,
    };
    tide::tide_of(
        Reading {
            year,
            month,
            day,
            hour,
            minute,
            second,
            microsecond,
        },
        k,
    )
    .map_or(0.0, |x| x.frequency)
}

// The phase, in degrees.
#[unsafe(no_mangle)]
#[tactic(auto, unfolding(crate::proofs::Literals::of_bits))]
pub extern "C" fn enfys_tide_phase(
    year: u64,
    month: u64,
    day: u64,
    hour: u64,
    minute: u64,
    second: u64,
    microsecond: u64,
    k1: i64,
    k2: i64,
    k3: i64,
    k4: i64,
    k5: i64,
    k6: i64,
) -> f64
    ensures { result ≡ phase_of (tide_of (reading year month day hour minute second microsecond) (doodson k1 k2 k3 k4 k5 k6)) }
{
    let k = Doodson {
        k1,
        k2,
        k3,
        k4,
        k5,
        k6,
    };
    tide::tide_of(
        Reading {
            year,
            month,
            day,
            hour,
            minute,
            second,
            microsecond,
        },
        k,
    )
    .map_or(0.0, |x| x.phase)
}

// The refusal number of a UTC reading and six multipliers.
#[unsafe(no_mangle)]
pub extern "C" fn enfys_tide_refusal(
    year: u64,
    month: u64,
    day: u64,
    hour: u64,
    minute: u64,
    second: u64,
    microsecond: u64,
    k1: i64,
    k2: i64,
    k3: i64,
    k4: i64,
    k5: i64,
    k6: i64,
) -> u32
    ensures { result ≡ tide_refusal_of (tide_of (reading year month day hour minute second microsecond) (doodson k1 k2 k3 k4 k5 k6)) }
{
    let k = Doodson {
        k1,
        k2,
        k3,
        k4,
        k5,
        k6,
    };
    number(tide::tide_of(
        Reading {
            year,
            month,
            day,
            hour,
            minute,
            second,
            microsecond,
        },
        k,
    ))
}
