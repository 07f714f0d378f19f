// A table of rows as bytes: its refusals, and its rows, each read where it stands.
#![tactic(auto)]

ghost use Rattle.std.specs.Prelude.{◌≡◌, ◌||◌, ◌<◌, ◌≤◌, length, IfOk, IfErr, Err};
ghost use Rattle.instants.specs.Refusals.{check};
ghost use Rattle.rows.specs.Table.{row_at, day_out, not_after, days_wrong, numbers_wrong};
ghost use Rattle.row_bytes.specs.Form.{head_length, row_length, row_in, row_count, table_in, form_cases, bytes_cases, AcceptedBytes};
ghost use Rattle.row_bytes.specs.Inner.{Whole, Lent};

use bigendian::Field;
use instants::Refusal;
use rows::Row;

// The bytes of the head, and those of a row.
const HEAD: usize = 3;

const ROW: usize = 16;

// The only version.
const VERSION: u64 = 1;

// How many rows a table has at least and at most.
const FEWEST: usize = 2;

const MOST: usize = 200;

// The fields of the head.
const LENGTH_FIELD: Field = Field { at: 0, size: 2 };

const VERSION_FIELD: Field = Field { at: 2, size: 1 };

// The rows that n bytes hold behind a head.
pub fn row_count(n: usize) -> usize
    requires { head_length ≤ n }
    ensures { result ≡ row_count n }
{
    (n - HEAD) / ROW
}

// The row at the front of s: the day, XC, XS and the uncertainty. One below 0, which no table may have, reads as 0.
fn row_in(s: &[u8]) -> Row
    requires { row_length ≤ length s.now }
    ensures { result ≡ row_in s.now }
{
    Row {
        day: u64::from(u32::from_be_bytes([s[0], s[1], s[2], s[3]])),
        xc: i64::from(i32::from_be_bytes([s[4], s[5], s[6], s[7]])),
        xs: i64::from(i32::from_be_bytes([s[8], s[9], s[10], s[11]])),
        uncertainty: i32::from_be_bytes([s[12], s[13], s[14], s[15]]).max(0) as u64,
    }
}

// The refusal of the form.
fn form(s: &[u8]) -> Result<(), Refusal>
    ensures { result ≡ check (form_cases s.now) }
{
    let n = s.len();
    if n < HEAD
        || LENGTH_FIELD.read(s) != n as u64
        || row_count(n) < FEWEST
        || MOST < row_count(n)
        || n != HEAD + ROW * row_count(n)
    {
        return Err(Refusal::RowsLength);
    }
    if VERSION_FIELD.read(s) != VERSION {
        return Err(Refusal::RowsVersion);
    }
    Ok(())
}

// Bytes that hold whole rows behind a head.
#[derive(Clone, Copy)]
pub struct Rows<'a> {
    pub bytes: &'a [u8],
    pub ghost whole: { Whole bytes.now },
}

impl<'a> Rows<'a> {
    // How many rows there are.
    fn count(self) -> usize
        ensures { result ≡ row_count (length self.entry.bytes.now) }
    {
        row_count(self.bytes.len())
    }

    // The row at an index.
    pub fn row(self, i: usize) -> Row
        requires { i < row_count (length self.bytes.now) }
        ensures { result ≡ row_at (table_in self.entry.bytes.now) i }
    {
        row_in(&self.bytes[HEAD + ROW * i..])
    }

    // A row's day is out of its limits, or not after that of the row before it.
    fn day_wrong(self, i: usize) -> bool
        requires { i < row_count (length self.bytes.now) }
        ensures { result ≡ (day_out (row_at (table_in self.entry.bytes.now) i) || not_after (table_in self.entry.bytes.now) i) }
    {
        let r = self.row(i);
        r.day_out() || i != 0 && r.day <= self.row(i - 1).day
    }

    // Some row's day is wrong.
    fn days_wrong(self) -> bool
        ensures { result ≡ days_wrong (table_in self.entry.bytes.now) }
    {
        (0..self.count()).any(|i| self.day_wrong(i))
    }

    // Some row's amplitude or uncertainty is out of its limits.
    fn numbers_wrong(self) -> bool
        ensures { result ≡ numbers_wrong (table_in self.entry.bytes.now) }
    {
        (0..self.count()).any(|i| self.row(i).number_out())
    }
}

// The bytes of an accepted table.
#[derive(Clone, Copy)]
pub struct Table<'a> {
    pub bytes: &'a [u8],
    pub ghost lent: { Lent bytes.now },
}

impl<'a> Table<'a> {
    // The table in the bytes s, or their refusal: that of their form, else of days, else of numbers, each looked for in all rows.
    pub fn read(s: &'a [u8]) -> Result<Table<'a>, Refusal>
        ensures table { IfOk result (λ t. (t.bytes.now ≡ s.now) × AcceptedBytes s.now) }
        ensures refused { IfErr result (λ r. check (bytes_cases s.now) ≡ Err r) }
    {
        form(s)?;
        let rows = Rows { bytes: s };
        if rows.days_wrong() {
            return Err(Refusal::RowsDay);
        }
        if rows.numbers_wrong() {
            return Err(Refusal::RowsSize);
        }
        Ok(Table { bytes: s })
    }

    // How many rows it has.
    pub fn count(self) -> usize
        ensures { result ≡ length (table_in self.entry.bytes.now) }
    {
        Rows { bytes: self.bytes }.count()
    }

    // The row at an index.
    pub fn row(self, i: usize) -> Row
        requires { i < length (table_in self.bytes.now) }
        ensures { result ≡ row_at (table_in self.entry.bytes.now) i }
    {
        Rows { bytes: self.bytes }.row(i)
    }
}
