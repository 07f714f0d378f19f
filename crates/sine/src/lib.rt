// The sine and the cosine in 64-bit whole numbers. An angle is in units of 2^-41 turn, and whole turns are removed; an answer is in units of 2^-31.
// Their distance from the exact sine and cosine is proved in proofs/Distance.antt.
#![tactic(auto)]

ghost use Rattle.std.specs.Prelude.{◌≡◌, ◌-◌, ◌*◌, ◌/◌, ◌%◌, ◌^◌, ◌≤◌, ◌<◌, pos, neg_ℤ};
ghost use Rattle.sine.specs.Ours.{quarter_parts, sine_quarter, our_sine, our_cosine};
ghost use Rattle.sine.specs.Inner.{Reduced};

// A turn, in units of 2^-41 turn.
pub const TURN: u64 = 1 << 41;

// A half turn.
const HALF: u64 = 1 << 40;

// A quarter turn.
const QUARTER: u64 = 1 << 39;

// A quarter turn again, in the parts that an angle is cut to.
const PARTS: u64 = 1 << 30;

// One of these parts, in units of 2^-41 turn.
const PART: u64 = QUARTER / PARTS;

// One, in units of 2^-31.
const ONE: u64 = 1 << 31;

// A unit of 2^-31 in squares of such a part of one.
const SQUARES: u64 = PARTS * PARTS / ONE;

// c - z*p, in units of 2^-31.
fn step(c: u64, z: u64, p: u64) -> u64
    requires square { z ≤ 2 ^ 31 }
    requires next { p ≤ c }
    requires constant { c < 2 ^ 32 }
    ensures value { result ≡ c - z * p / 2 ^ 31 }
    ensures most { result ≤ c }
{
    c - z * p / ONE
}

// The sine of q parts of a quarter turn.
#[tactic(auto, unfolding(crate::specs::Ours::sine_quarter, crate::specs::Ours::alternating))]
fn sine_quarter(q: u64) -> u32
    requires { q ≤ quarter_parts }
    ensures { result ≡ sine_quarter q }
{
    let z = q * q / SQUARES;
    let p6 = step(122, z, 1);
    let p5 = step(7728, z, p6);
    let p4 = step(344545, z, p5);
    let p3 = step(10053990, z, p4);
    let p2 = step(171138612, z, p3);
    let p1 = step(1387197337, z, p2);
    let p0 = step(3373259426, z, p1);
    (q * p0 / PARTS) as u32
}

// An angle reduced to a quarter turn, where the sine is the same but for its sign. The functions that choose are small, so that they compile to no
// branch.
fn reduced(a: u64) -> u64
    requires { a < 2 ^ 41 }
    ensures quarters { Reduced a result }
    ensures most { result ≤ 2 ^ 39 }
{
    let h = a % HALF;
    h.min(HALF - h)
}

// The number v, or minus v for an angle above a half turn.
fn signed(a: u64, v: u32) -> i64
    ensures first { a ≤ 2 ^ 40 → result ≡ pos v }
    ensures second { 2 ^ 40 < a → result ≡ neg_ℤ (pos v) }
{
    let v = i64::from(v);
    if a <= HALF { v } else { -v }
}

// The sine of b.
pub fn sine(b: u64) -> i64
    ensures { result ≡ our_sine (b % 2 ^ 41) }
{
    let a = b % TURN;
    signed(a, sine_quarter(reduced(a) / PART))
}

// The cosine of b: the sine of a quarter turn more, which is reduced to what is left of the quarter turn.
pub fn cosine(b: u64) -> i64
    ensures { result ≡ our_cosine (b % 2 ^ 41) }
{
    let a = b % TURN;
    signed(
        (a + QUARTER) % TURN,
        sine_quarter((QUARTER - reduced(a)) / PART),
    )
}
