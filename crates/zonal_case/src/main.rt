// The test case of RG_ZONT2, day 54465, microsecond 0: each number beside the routine's own, and how far apart they are in its unit.
#![tactic(auto)]

use instants::Instant;
use std::io;

// Our number, the routine's as it prints it and rounded to our unit, and the limit: the distance stays below it, so that the rounding counts. Each part is a
// write of its own.
fn compare(
    rt: &impl Print,
    name: &str,
    ours: i32,
    printed: &str,
    theirs: i32,
    limit: u32,
) -> io::Result<()> {
    let distance = ours.abs_diff(theirs);
    let within = if distance < limit {
        "within"
    } else {
        "NOT within"
    };
    print!(rt; "{name}")?;
    print!(rt; "{ours}")?;
    print!(rt; "{printed}{distance}")?;
    print!(rt; " apart, {within} ")?;
    println!(rt; "{limit}")
}

// The three numbers, each compared.
fn main(rt: HostRuntime) -> io::Result<()> {
    let t = Instant {
        day: 54465,
        micros: 0,
    };
    match zonal::zonal_of(t) {
        Ok(c) => {
            compare(
                &rt,
                "UT1 ",
                c.ut1,
                " ns, RG_ZONT2 7.983287678576557467E-002 s: ",
                79832877,
                6,
            )?;
            compare(
                &rt,
                "length of day ",
                c.lod,
                " ps, RG_ZONT2 5.035303035410713729E-005 s: ",
                50353030,
                51,
            )?;
            compare(
                &rt,
                "rate ",
                c.rate,
                " 10^-20 rad/s, RG_ZONT2 -4.249711616463017E-014 rad/s: ",
                -4249712,
                6,
            )
        }
        Err(r) => println!(rt; "refused {}", u32::from(r)),
    }
}
