// Where a moment is among the rows in bytes, how many of them are probed to find out, and the built-in rows as bytes.
// Derived from the IERS routine FCNNUT; not IERS Conventions software (NOTICE, docs/DIFFERENCES.md).
#![tactic(auto)]

ghost use Rattle.std.specs.Prelude.{◌≡◌, ◌<◌, length};
ghost use Rattle.std.specs.Result.{result_unwrap_or};
ghost use Rattle.rows.specs.BuiltIn.{built_in};
ghost use Rattle.rows.specs.Places.{place};
ghost use Rattle.row_bytes.specs.Form.{table_bytes, table_in};
ghost use Rattle.row_places.specs.Lookup.{bracket, halving, lookup_of, probes_of, probes_rows_of};
ghost use Rattle.row_places.specs.Inner.{probes_answer, probes_rows_answer};

use instants::{Instant, Refusal};
use row_bytes::Table;
use rows::Place;

// The rows at two ends, as indices, and the probes that led to them.
#[derive(Clone, Copy)]
pub struct Bracket {
    pub lower: usize,
    pub upper: usize,
    pub probes: u64,
}

// The built-in rows, in the byte form that tools/rows makes of examples/built_in_rows.txt: the head, then a row on a line (the day, XC, XS and the
// uncertainty, four bytes each).
pub fn built_in() -> [u8; 483]
    ensures { result ≡ table_bytes built_in }
{
    *b"\
        \x01\xe3\x01\
        \x00\x00\xb2\x84\x00\x00\x01\xc7\xff\xff\xf1\xb6\x00\x00\x07\xb4\
        \x00\x00\xb3\xf2\xff\xff\xc8\x9a\xff\xff\xd6\xd9\x00\x00\x04\x58\
        \x00\x00\xb5\x5f\xff\xff\x9f\xb0\xff\xff\xbd\x83\x00\x00\x03\xb3\
        \x00\x00\xb6\xcc\xff\xff\x91\xe3\xff\xff\xc1\xcc\x00\x00\x03\x61\
        \x00\x00\xb8\x39\xff\xff\x9c\x5f\xff\xff\xee\xfa\x00\x00\x03\x2b\
        \x00\x00\xb9\xa7\xff\xff\xad\xca\xff\xff\xdd\x68\x00\x00\x02\xdb\
        \x00\x00\xbb\x14\xff\xff\xb6\xa5\xff\xff\xe9\x99\x00\x00\x02\x81\
        \x00\x00\xbc\x81\xff\xff\xc0\x53\x00\x00\x0a\x42\x00\x00\x02\x28\
        \x00\x00\xbd\xee\xff\xff\xc7\x27\x00\x00\x11\x71\x00\x00\x01\xe0\
        \x00\x00\xbf\x5c\xff\xff\xc7\x50\x00\x00\x14\x1d\x00\x00\x02\x53\
        \x00\x00\xc0\xc9\xff\xff\xd5\x0f\x00\x00\x06\x97\x00\x00\x03\xb1\
        \x00\x00\xc2\x36\xff\xff\xdd\xe6\x00\x00\x02\x18\x00\x00\x03\x39\
        \x00\x00\xc3\xa3\xff\xff\xdc\x9b\x00\x00\x00\x98\x00\x00\x02\xff\
        \x00\x00\xc5\x11\xff\xff\xda\xff\x00\x00\x0d\xcf\x00\x00\x01\xb8\
        \x00\x00\xc6\x7e\xff\xff\xe5\xa0\x00\x00\x0a\xc5\x00\x00\x01\x54\
        \x00\x00\xc7\xeb\xff\xff\xee\xc5\xff\xff\xfa\x69\x00\x00\x01\x59\
        \x00\x00\xc9\x58\x00\x00\x02\x09\xff\xff\xe2\xc1\x00\x00\x01\x46\
        \x00\x00\xca\xc6\x00\x00\x1b\x7d\xff\xff\xcd\x5a\x00\x00\x01\x1e\
        \x00\x00\xcc\x33\x00\x00\x21\xc7\xff\xff\xce\x10\x00\x00\x01\x13\
        \x00\x00\xcd\xa0\x00\x00\x2b\x24\xff\xff\xef\x4f\x00\x00\x01\x03\
        \x00\x00\xcf\x0d\x00\x00\x2c\xd6\xff\xff\xff\xf3\x00\x00\x00\xfd\
        \x00\x00\xd0\x7b\x00\x00\x33\xf0\xff\xff\xfe\x22\x00\x00\x01\x10\
        \x00\x00\xd1\xe8\x00\x00\x3d\x78\x00\x00\x0b\x2f\x00\x00\x00\xdb\
        \x00\x00\xd3\x55\x00\x00\x3e\xa8\x00\x00\x16\xff\x00\x00\x00\xbb\
        \x00\x00\xd4\xc2\x00\x00\x3d\x3c\x00\x00\x27\x8c\x00\x00\x00\xae\
        \x00\x00\xd6\x30\x00\x00\x37\xdb\x00\x00\x37\xdd\x00\x00\x00\xbd\
        \x00\x00\xd7\x9d\x00\x00\x0d\x2a\x00\x00\x48\x0e\x00\x00\x00\xc3\
        \x00\x00\xd9\x0a\x00\x00\x00\x4c\x00\x00\x63\x1a\x00\x00\x00\x72\
        \x00\x00\xda\x77\x00\x00\x09\xf3\x00\x00\x6a\x1e\x00\x00\x00\x6b\
        \x00\x00\xdb\xe5\x00\x00\x2c\x4e\x00\x00\x64\x32\x00\x00\x00\xba"
}

// What halving leaves of the first and the last row: the middle row is probed until the two are neighbours.
// By hand, since `partition_point` says nothing of how many rows it probes, which `probes_of` promises.
fn halve(t: Table, x: u64, last: usize) -> Bracket
    requires { last < length (table_in t.bytes.now) }
    ensures { result ≡ halving (table_in t.entry.bytes.now) x (bracket 0 last 0) }
{
    let mut lower: usize = 0;
    let mut upper = last;
    let mut probes: u64 = 0;
    while lower + 1 < upper {
        let middle = (lower + upper) / 2;
        probes += 1;
        if t.row(middle).moment() <= x {
            lower = middle;
        } else {
            upper = middle;
        }
    }
    Bracket {
        lower,
        upper,
        probes,
    }
}

// The lookup: the row of an end, or the two rows that a moment is between, and the probes that it took.
fn lookup(t: Table, x: u64) -> Bracket
    ensures { result ≡ lookup_of (table_in t.entry.bytes.now) x }
{
    if x <= t.row(0).moment() {
        return Bracket {
            lower: 0,
            upper: 0,
            probes: 0,
        };
    }
    let last = t.count() - 1;
    if t.row(last).moment() <= x {
        return Bracket {
            lower: last,
            upper: last,
            probes: 0,
        };
    }
    halve(t, x, last)
}

// The place of a moment among the rows of a table.
pub fn place_at(t: Table, x: u64) -> Place
    ensures { result ≡ place (table_in t.entry.bytes.now) x }
{
    let b = lookup(t, x);
    let lower = t.row(b.lower);
    if b.lower == b.upper {
        return Place::End(lower);
    }
    Place::Between(lower, t.row(b.upper))
}

// The probes at an instant among the rows of a table, or refusal 8 or 9.
fn probes_with(t: Table, at: Instant) -> Result<u64, Refusal>
    ensures { result ≡ probes_answer (table_in t.entry.bytes.now) at.day at.micros }
{
    let moment = at.accepted()?;
    Ok(lookup(t, moment.micros()).probes)
}

// The probes at an instant with the built-in rows, or refusal 8 or 9.
pub fn try_probes_of(at: Instant) -> Result<u64, Refusal>
    ensures answer { result ≡ probes_answer built_in at.day at.micros }
    ensures number { result_unwrap_or result 0 ≡ probes_of at.day at.micros }
{
    let s = built_in();
    probes_with(Table { bytes: &s }, at)
}

// The same, or 0 beside a refusal.
pub fn probes_of(at: Instant) -> u64
    ensures { result ≡ probes_of at.day at.micros }
{
    try_probes_of(at).unwrap_or(0)
}

// The probes at an instant with the rows in the bytes s, or refusal 21 to 24, then 8 or 9.
pub fn try_probes_rows_of(s: &[u8], at: Instant) -> Result<u64, Refusal>
    ensures answer { result ≡ probes_rows_answer s.now at.day at.micros }
    ensures number { result_unwrap_or result 0 ≡ probes_rows_of s.now at.day at.micros }
{
    probes_with(Table::read(s)?, at)
}

// The same, or 0 beside a refusal.
pub fn probes_rows_of(s: &[u8], at: Instant) -> u64
    ensures { result ≡ probes_rows_of s.now at.day at.micros }
{
    try_probes_rows_of(s, at).unwrap_or(0)
}
