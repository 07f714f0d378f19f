// The five Delaunay arguments and the angle of each row of the zonal table, in whole numbers.
// Their distance from the exact angles is proved in proofs/Distance.antt.
// Derived from the IERS routines TDFRPH (the arguments) and RG_ZONT2 (the rows); not IERS Conventions software (NOTICE, docs/DIFFERENCES.md).
#![tactic(auto)]

mod argument;
mod half;
mod time;

ghost use Rattle.std.specs.Prelude.{◌≡◌, ℕ, ◌*◌, ◌/◌, ◌%◌, ◌^◌, ◌≤◌, get_or, pos};
ghost use Rattle.arguments.specs.Ours as ours;
ghost use Rattle.arguments.specs.Inner.{Multiplier};

use argument::{D, F, L, L_PRIME, OMEGA};
use instants::Moment;
use time::Time;

// A turn, in units of 2^-41 turn.
pub(crate) const TURN: u64 = 1 << 41;

// A unit of the upper half of a number of 64 bits.
const UPPER: u64 = 1 << 32;

// The upper half of the product of two numbers of 64 bits, by halves of 32 bits.
pub fn high(a: u64, b: u64) -> u64
    ensures { result ≡ a * b / 2 ^ 64 }
{
    let a1 = a / UPPER;
    let a0 = a % UPPER;
    let b1 = b / UPPER;
    let b0 = b % UPPER;
    let middle = a1 * b0 + a0 * b0 / UPPER;
    let next = a0 * b1 + middle % UPPER;
    a1 * b1 + middle / UPPER + next / UPPER
}

// A microsecond, in units of 2^-88 century: 2^88 / N, to nearest, where N is the number of microseconds in a century.
const PER_CENTURY: u64 = 98069881683;

// The five arguments l, l', F, D and Omega at the moment x, each in units of 2^-41 turn.
pub fn arguments(at: Moment) -> [u64; 5]
    ensures { result ≡ ours.our_arguments at }
{
    let x = at.micros();
    let t = Time {
        x,
        s: high(x, PER_CENTURY),
    };
    [L.at(t), L_PRIME.at(t), F.at(t), D.at(t), OMEGA.at(t)]
}

// k times a, with two turns added so that nothing is negative.
fn column(k: i8, a: u64) -> u64
    requires multiplier { Multiplier k }
    requires argument { a ≤ 2 ^ 41 }
    ensures value { result ≡ ours.column k a }
    ensures most { result ≤ 2 ^ 44 }
{
    (k + 2) as u64 * a + 2 * (TURN - a)
}

// The angle of a row of multipliers, in units of 2^-41 turn, whole turns removed.
pub fn angle(row: &[i8; 5], a: &[u64; 5]) -> u64
    requires multipliers { (j : ℕ) → Multiplier (get_or row.now j (pos 0)) }
    requires arguments { (j : ℕ) → get_or a.now j 0 ≤ 2 ^ 41 }
    ensures { result ≡ ours.columns row.now a.now % 2 ^ 41 }
{
    let mut sum: u64 = 0;
    for (k, x) in row.iter().zip(a) {
        sum += column(*k, *x);
    }
    sum % TURN
}
