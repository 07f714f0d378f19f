// The five Delaunay arguments, each with its constants.
// Derived from the IERS routine TDFRPH; not IERS Conventions software (NOTICE, docs/DIFFERENCES.md).
ghost use Rattle.std.specs.Prelude.{◌≡◌};
ghost use Rattle.arguments.specs.Ours as ours;
ghost use Rattle.arguments.specs.Inner.{HalfBounds};

use crate::TURN;
use crate::half::Half;
use crate::time::Time;

// An argument: the difference of its two halves.
#[derive(Clone, Copy)]
pub struct Argument {
    pub up: Half,
    pub down: Half,
    ghost up_bounds: { HalfBounds up },
    ghost down_bounds: { HalfBounds down },
}

impl Argument {
    // The argument at a time, in units of 2^-41 turn, whole turns removed.
    pub fn at(self, t: Time) -> u64
        ensures { result ≡ ours.argument self.up self.down t.x }
    {
        let d = self.down.at(t) % TURN;
        (self.up.at(t) + (TURN - d)) % TURN
    }
}

// l, l', F, D and Omega.
pub const L: Argument = Argument {
    up: Half {
        a0: 0,
        g: 17038933253433341313,
        k2: 53980562968,
        k3: 98222882,
        k4: 0,
    },
    down: Half {
        a0: 14573777127753576,
        g: 0,
        k2: 0,
        k3: 0,
        k4: 425340,
    },
};

pub const L_PRIME: Argument = Argument {
    up: Half {
        a0: 0,
        g: 1285387697776969894,
        k2: 0,
        k3: 636759,
        k4: 0,
    },
    down: Half {
        a0: 1097298715214116,
        g: 0,
        k2: 967734113,
        k3: 0,
        k4: 20016,
    },
};

pub const F: Argument = Argument {
    up: Half {
        a0: 0,
        g: 17253287035876713286,
        k2: 0,
        k3: 0,
        k4: 7506,
    },
    down: Half {
        a0: 14757381818728259,
        g: 0,
        k2: 22127051287,
        k3: 1952185,
        k4: 0,
    },
};

pub const D: Argument = Argument {
    up: Half {
        a0: 0,
        g: 15898776803187135809,
        k2: 0,
        k3: 12556286,
        k4: 0,
    },
    down: Half {
        a0: 13597524398099646,
        g: 0,
        k2: 11249004205,
        k3: 0,
        k4: 55044,
    },
};

pub const OMEGA: Argument = Argument {
    up: Half {
        a0: 59836506886220,
        g: 0,
        k2: 12766736044,
        k3: 15446096,
        k4: 0,
    },
    down: Half {
        a0: 0,
        g: 69061302818403774,
        k2: 0,
        k3: 0,
        k4: 103207,
    },
};
