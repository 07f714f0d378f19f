// Prints frequencies and phases bit by bit, a line for each case: the refusal number, the bits of
// the frequency and of the phase. Then the angles of ARG2's test case beside its own, and eleven
// angles bit by bit, a line for each case. What it must print, in stdout, is the output of an
// independent implementation of docs/RULES.md.
#![tactic(auto)]

ghost use Rattle.std.specs.Prelude.{◌≡◌, cond};
ghost use Rattle.std.specs.Float.Ieee as Ieee;
ghost use Rattle.std.specs.Float.{binary64};
ghost use Rattle.binary64.specs.Words.{plus};
ghost use Rattle.schwiderski.specs.Formula.{angles_of};

use schwiderski::Angles;
use std::io;
use tide::Doodson;
use utc::Reading;

// The bits of x, one pattern for every NaN.
fn bits(x: f64) -> u64
    ensures { result ≡ cond (Ieee.eq x x) (Ieee.to_bits binary64 x) 0x7ff8000000000000 }
{
    if x == x {
        f64::to_bits(x)
    } else {
        0x7ff8000000000000
    }
}

// A line: a refusal number, and the bits of a frequency and of a phase.
fn line(rt: HostRuntime, refusal: u32, frequency: f64, phase: f64) -> io::Result<()> {
    let frequency = bits(frequency);
    let phase = bits(phase);
    println!(rt; "{refusal} {frequency:016x} {phase:016x}")
}

// The line of a UTC reading and six multipliers.
fn show(rt: HostRuntime, r: [u64; 7], k: [i64; 6]) -> io::Result<()> {
    let [year, month, day, hour, minute, second, microsecond] = r;
    let [k1, k2, k3, k4, k5, k6] = k;
    let reading = Reading {
        year,
        month,
        day,
        hour,
        minute,
        second,
        microsecond,
    };
    let doodson = Doodson {
        k1,
        k2,
        k3,
        k4,
        k5,
        k6,
    };
    match tide::tide_of(reading, doodson) {
        Ok(x) => line(rt, 0, x.frequency, x.phase),
        Err(refusal) => line(rt, u32::from(refusal), 0.0, 0.0),
    }
}

// The bits of an angle, after a blank.
fn angle(rt: HostRuntime, x: f64) -> io::Result<()> {
    let x = bits(x);
    print!(rt; " {x:016x}")
}

// The eleven in their order.
fn eleven(a: Angles) -> [f64; 11] {
    [
        a.m2, a.s2, a.n2, a.k2, a.k1, a.o1, a.p1, a.q1, a.mf, a.mm, a.ssa,
    ]
}

// The line of a year and a day of the year: the refusal number, and the eleven where it is 0.
fn show_angles(rt: HostRuntime, year: u64, day: f64) -> io::Result<()> {
    match schwiderski::schwiderski_of(year, day) {
        Ok(a) => {
            print!(rt; "0")?;
            for x in &eleven(a) {
                angle(rt, *x)?;
            }
        }
        Err(refusal) => {
            let n = u32::from(refusal);
            print!(rt; "{n}")?;
        }
    }
    println!(rt; "")
}

// An angle beside the published one.
fn compare(rt: HostRuntime, name: &str, ours: f64, published: f64) -> io::Result<()> {
    print!(rt; "{name}")?;
    angle(rt, ours)?;
    let apart = ours - published;
    if (-1e-7 <= apart) & (apart <= 1e-7) {
        println!(rt; " within 1e-7 of ARG2's")
    } else {
        println!(rt; " NOT within 1e-7 of ARG2's")
    }
}

// ARG2's test case, year 08 and day 311.5, on the formula with 8.
fn case_angles() -> Angles
    ensures { result ≡ angles_of 8 (plus 1 311_5) }
{
    schwiderski::formula(8, 311.5)
}

// What the head of ARG2 has for that case.
const PUBLISHED: [(&str, f64); 11] = [
    ("M2", 0.5785483804494191418),
    ("S2", 6.28318080000000023),
    ("N2", 5.897950576134803669),
    ("K2", 1.615958909210931438),
    ("K1", 2.378775781400364053),
    ("O1", 4.482957906228527634),
    ("P1", 3.904405018599632626),
    ("Q1", 3.519174794734325928),
    ("Mf", 1.037427808761705705),
    ("Mm", 0.9637917514941207742),
    ("Ssa", 1.615972056390525324),
];

// Its angles beside the published ones.
fn published_case(rt: HostRuntime) -> io::Result<()> {
    let ours = eleven(case_angles());
    for (x, (name, published)) in ours.iter().zip(&PUBLISHED) {
        compare(rt, name, *x, *published)?;
    }
    Ok(())
}

// The cases of the angles, in groups.
fn angles_cases(rt: HostRuntime) -> io::Result<()> {
    published_case(rt)?;
    // The day of that case in 2008, and the years around it.
    show_angles(rt, 2008, 311.5)?;
    show_angles(rt, 2007, 311.5)?;
    show_angles(rt, 2009, 311.5)?;
    // The first and the last years and days.
    show_angles(rt, 1974, 1.0)?;
    show_angles(rt, 1974, 1.0000000000000002)?;
    show_angles(rt, 1974, 365.0)?;
    show_angles(rt, 1974, 365.99999999999994)?;
    show_angles(rt, 2100, 1.0)?;
    show_angles(rt, 2100, 59.5)?;
    show_angles(rt, 2100, 365.99999999999994)?;
    // The last days of leap years.
    show_angles(rt, 1976, 366.0)?;
    show_angles(rt, 2000, 366.99999999999994)?;
    show_angles(rt, 2096, 366.99999999999994)?;
    // Parts of a day.
    show_angles(rt, 2020, 1.25)?;
    show_angles(rt, 2020, 32.5)?;
    show_angles(rt, 2020, 60.000001)?;
    show_angles(rt, 2021, 123.456789012345)?;
    show_angles(rt, 2050, 145.63555555555553)?;
    // Remainders of minus zero: of M2, N2, O1, P1 and Q1.
    show_angles(rt, 1982, 291.01464958320986)?;
    show_angles(rt, 1980, 318.0525718132723)?;
    show_angles(rt, 1979, 198.07416788780444)?;
    show_angles(rt, 1979, 1.0280169178213445)?;
    show_angles(rt, 1978, 280.0070584476192)?;
    // Refused by 1, whatever the day.
    show_angles(rt, 1973, 1.0)?;
    show_angles(rt, 2101, 1.0)?;
    show_angles(rt, 0, 0.0 / 0.0)?;
    show_angles(rt, 8, 311.5)?;
    show_angles(rt, 108, 311.5)?;
    show_angles(rt, 0xffff_ffff_ffff_ffff, 400.0)?;
    // Refused by 26.
    show_angles(rt, 2008, 0.0 / 0.0)?;
    show_angles(rt, 2008, 1.0 / 0.0)?;
    show_angles(rt, 2008, -1.0 / 0.0)?;
    show_angles(rt, 2008, 0.9999999999999999)?;
    show_angles(rt, 2008, 0.0)?;
    show_angles(rt, 2008, -0.0)?;
    show_angles(rt, 2008, -311.5)?;
    show_angles(rt, 2008, 367.0)?;
    show_angles(rt, 2007, 366.0)?;
    show_angles(rt, 2100, 366.0)?;
    show_angles(rt, 2008, 1e300)
}

// The cases, in groups.
fn main(rt: HostRuntime) -> io::Result<()> {
    // M2 at the two readings of TDFRPH's test cases.
    show(rt, [2009, 6, 25, 0, 0, 0, 0], [2, 0, 0, 0, 0, 0])?;
    show(rt, [2009, 6, 25, 12, 1, 45, 0], [2, 0, 0, 0, 0, 0])?;
    // Species 0: Mf, Mm, Ssa, Sa and the lunar node.
    show(rt, [2007, 12, 31, 0, 0, 0, 0], [0, 2, 0, 0, 0, 0])?;
    show(rt, [2007, 12, 31, 0, 0, 0, 0], [0, 1, 0, -1, 0, 0])?;
    show(rt, [2007, 12, 31, 0, 0, 0, 1], [0, 0, 2, 0, 0, 0])?;
    show(rt, [2007, 12, 31, 3, 25, 45, 678901], [0, 0, 1, 0, 0, -1])?;
    show(rt, [2007, 12, 31, 23, 59, 59, 999999], [0, 0, 0, 0, 1, 0])?;
    // Species 1: K1, O1, P1, Q1, psi1.
    show(rt, [2020, 1, 1, 6, 0, 0, 0], [1, 1, 0, 0, 0, 0])?;
    show(rt, [2020, 1, 1, 6, 0, 0, 0], [1, -1, 0, 0, 0, 0])?;
    show(rt, [2020, 1, 1, 18, 0, 0, 0], [1, 1, -2, 0, 0, 0])?;
    show(rt, [2020, 1, 1, 18, 0, 0, 0], [1, -2, 0, 1, 0, 0])?;
    show(rt, [2020, 1, 1, 0, 0, 0, 1], [1, 1, 1, 0, 0, -1])?;
    // Species 2: S2, K2, N2.
    show(rt, [2023, 2, 25, 21, 36, 17, 777777], [2, 2, -2, 0, 0, 0])?;
    show(rt, [2023, 2, 25, 21, 36, 17, 777777], [2, 2, 0, 0, 0, 0])?;
    show(rt, [2023, 2, 25, 21, 36, 17, 777777], [2, -1, 0, 1, 0, 0])?;
    // Species 3: M3, and one with all six.
    show(rt, [1990, 1, 1, 1, 0, 0, 0], [3, 0, 0, 0, 0, 0])?;
    show(rt, [1990, 1, 1, 1, 0, 0, 0], [3, -2, 1, 2, -1, 1])?;
    // Negative species, on both sides of J2000.0, which is 2000-01-01 11:58:55.816.
    show(rt, [2000, 1, 1, 11, 58, 55, 816000], [-1, 0, 0, 0, 0, 0])?;
    show(rt, [2000, 1, 1, 11, 58, 55, 816001], [-2, 1, 0, 0, 3, 0])?;
    show(rt, [2000, 1, 1, 11, 58, 55, 815999], [-3, 0, 4, -5, 0, 0])?;
    show(rt, [1972, 6, 30, 0, 0, 1, 0], [-12, 0, 0, 0, 0, 0])?;
    // The ends of the list.
    show(rt, [1972, 1, 1, 0, 0, 0, 0], [2, 0, 0, 0, 0, 0])?;
    show(rt, [1972, 1, 1, 0, 0, 0, 0], [12, 12, 12, 12, 12, 12])?;
    show(
        rt,
        [1972, 1, 1, 23, 59, 59, 999999],
        [1, -1, 12, -12, 7, -3],
    )?;
    show(
        rt,
        [2025, 6, 27, 0, 0, 0, 0],
        [-12, -12, -12, -12, -12, -12],
    )?;
    show(rt, [2025, 6, 27, 0, 0, 0, 1], [-12, 12, 5, 0, -1, 1])?;
    show(rt, [2025, 6, 27, 23, 59, 59, 999999], [2, 0, 0, 0, 0, 0])?;
    show(
        rt,
        [2025, 6, 27, 23, 59, 59, 999999],
        [12, -12, 12, -12, 12, -12],
    )?;
    // Around a midnight without a leap second.
    show(rt, [2000, 1, 1, 23, 59, 59, 999999], [2, 0, 0, 0, 0, 0])?;
    show(rt, [2000, 1, 2, 0, 0, 0, 0], [2, 0, 0, 0, 0, 0])?;
    show(rt, [2000, 1, 2, 0, 0, 0, 1], [2, 0, 0, 0, 0, 0])?;
    // Around a leap second: in second 60 the fraction of the day is 1 or more.
    show(rt, [2016, 12, 31, 23, 59, 59, 999999], [2, 0, 0, 0, 0, 0])?;
    show(rt, [2016, 12, 31, 23, 59, 60, 0], [2, 0, 0, 0, 0, 0])?;
    show(rt, [2016, 12, 31, 23, 59, 60, 500000], [2, 0, 0, 0, 0, 0])?;
    show(rt, [2016, 12, 31, 23, 59, 60, 999999], [2, 0, 0, 0, 0, 0])?;
    show(rt, [2017, 1, 1, 0, 0, 0, 0], [2, 0, 0, 0, 0, 0])?;
    show(rt, [1972, 6, 30, 23, 59, 60, 0], [2, 0, 0, 0, 0, 0])?;
    show(
        rt,
        [1972, 6, 30, 23, 59, 60, 999999],
        [1, 12, -12, 3, 0, -7],
    )?;
    // Sums that are negative and tiny, on both sides of 0.
    show(rt, [2006, 6, 19, 21, 22, 29, 684935], [0, 0, 0, 0, 1, 0])?;
    show(rt, [2006, 6, 19, 21, 22, 29, 684935], [0, 0, 0, 0, -1, 0])?;
    show(rt, [2006, 6, 19, 21, 22, 29, 684936], [0, 0, 0, 0, -1, 0])?;
    // A sum of -225000, whose remainder is minus zero, and one of 247680.
    show(rt, [2025, 3, 26, 9, 46, 42, 50397], [2, 0, 0, 0, 0, 0])?;
    show(rt, [1972, 2, 27, 10, 28, 39, 410886], [2, 0, 0, 0, 0, 0])?;
    // Six zeros.
    show(rt, [1972, 1, 1, 0, 0, 0, 0], [0, 0, 0, 0, 0, 0])?;
    show(rt, [2016, 12, 31, 23, 59, 60, 999999], [0, 0, 0, 0, 0, 0])?;
    show(rt, [2025, 6, 27, 23, 59, 59, 999999], [0, 0, 0, 0, 0, 0])?;
    // Refused by 1 to 7, whatever else is wrong.
    show(rt, [1899, 13, 1, 0, 0, 0, 0], [2, 0, 0, 0, 0, 0])?;
    show(rt, [2101, 1, 1, 0, 0, 0, 0], [13, 0, 0, 0, 0, 0])?;
    show(
        rt,
        [
            0xffff_ffff_ffff_ffff,
            0,
            0,
            24,
            60,
            61,
            0xffff_ffff_ffff_ffff,
        ],
        [0, 0, 0, 0, 0, -13],
    )?;
    show(rt, [1971, 13, 1, 0, 0, 0, 0], [2, 0, 0, 0, 0, 0])?;
    show(rt, [2025, 2, 29, 24, 0, 0, 0], [13, 0, 0, 0, 0, 0])?;
    show(rt, [2025, 6, 28, 24, 60, 0, 0], [2, 0, 0, 0, 0, 0])?;
    show(rt, [1971, 12, 31, 23, 60, 60, 0], [13, 0, 0, 0, 0, 0])?;
    show(rt, [2016, 12, 30, 23, 59, 60, 0], [2, 0, 0, 0, 0, 0])?;
    show(rt, [2016, 12, 31, 23, 59, 61, 0], [2, 0, 0, 0, 0, 0])?;
    show(rt, [1971, 1, 1, 0, 0, 0, 1000000], [13, 0, 0, 0, 0, 0])?;
    // Refused by 19 and 20, whatever the multipliers.
    show(rt, [1971, 12, 31, 23, 59, 59, 999999], [2, 0, 0, 0, 0, 0])?;
    show(rt, [1900, 1, 1, 0, 0, 0, 0], [0, 0, 13, 0, 0, 0])?;
    show(rt, [2025, 6, 28, 0, 0, 0, 0], [2, 0, 0, 0, 0, 0])?;
    show(
        rt,
        [2100, 12, 31, 23, 59, 59, 999999],
        [0, 0, 0, 0, 0, -0x8000_0000_0000_0000],
    )?;
    // Refused by 11, in each place.
    show(rt, [2009, 6, 25, 0, 0, 0, 0], [13, 0, 0, 0, 0, 0])?;
    show(rt, [2009, 6, 25, 0, 0, 0, 0], [0, -13, 0, 0, 0, 0])?;
    show(rt, [2009, 6, 25, 0, 0, 0, 0], [0, 0, 13, 0, 0, 0])?;
    show(rt, [2009, 6, 25, 0, 0, 0, 0], [0, 0, 0, -13, 0, 0])?;
    show(
        rt,
        [2009, 6, 25, 0, 0, 0, 0],
        [0, 0, 0, 0, 0x7fff_ffff_ffff_ffff, 0],
    )?;
    show(
        rt,
        [2009, 6, 25, 0, 0, 0, 0],
        [0, 0, 0, 0, 0, -0x8000_0000_0000_0000],
    )?;
    angles_cases(rt)
}
