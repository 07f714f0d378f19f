// Rows of amplitudes of the free core nutation: a row, its date and its limits, and a moment's place among rows.
// Derived from the IERS routine FCNNUT; not IERS Conventions software (NOTICE, docs/DIFFERENCES.md).
#![tactic(auto)]

ghost use Rattle.std.specs.Prelude.{◌≡◌};
ghost use Rattle.rows.specs.Table.{day_out, number_out};
ghost use Rattle.rows.specs.Places.{row_moment};
ghost use Rattle.rows.specs.Inner.{AcceptedRow};

use instants::INDEX_OFFSET;

// A row of a table: the day number of its date, the amplitudes and the uncertainty in hundredths of a microarcsecond.
#[derive(Clone, Copy)]
pub struct Row {
    pub day: u64,
    pub xc: i64,
    pub xs: i64,
    pub uncertainty: u64,
}

// Where a moment is in a table: at or outside an end, with the end's row, or between two rows.
#[derive(Clone, Copy)]
pub enum Place {
    End(Row),
    Between(Row, Row),
}

// The day numbers that a row may have, and the largest amplitude and uncertainty.
const FIRST_DAY: u64 = 15020;

const LAST_DAY: u64 = 88433;

const LARGEST: u64 = 100000;

impl Row {
    // The moment of 0 h of the row's day.
    pub fn moment(self) -> u64
        requires { AcceptedRow self }
        ensures { result ≡ row_moment self }
    {
        instants::moment(self.day + INDEX_OFFSET, 0)
    }

    // The day is out of its limits.
    pub fn day_out(self) -> bool
        ensures { result ≡ day_out self }
    {
        self.day < FIRST_DAY || LAST_DAY < self.day
    }

    // An amplitude or the uncertainty is out of its limits.
    pub fn number_out(self) -> bool
        ensures { result ≡ number_out self }
    {
        LARGEST < self.xc.unsigned_abs()
            || LARGEST < self.xs.unsigned_abs()
            || self.uncertainty < 1
            || LARGEST < self.uncertainty
    }
}
