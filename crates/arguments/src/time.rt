// A moment, and the same in centuries.
// Derived from the IERS routine TDFRPH; not IERS Conventions software (NOTICE, docs/DIFFERENCES.md).
ghost use Rattle.std.specs.Prelude.{◌≡◌, ◌≤◌};
ghost use Rattle.instants.specs.Moments.{latest};
ghost use Rattle.arguments.specs.Ours.{high, per_century};

// The moment x, and s: the same in units of 2^-24 century.
#[derive(Clone, Copy)]
pub struct Time {
    pub x: u64,
    pub s: u64,
    ghost covered: { x ≤ latest },
    ghost centuries: { s ≡ high x per_century },
}
