// Records rescued from damaged bytes: a walk keeps what reads as a record and passes every other byte.
#![tactic(auto)]

ghost use Rattle.std.specs.Prelude.{◌≡◌, ◌-◌, ◌*◌, ◌^◌, ◌<◌, ◌≤◌, length, MatchOption};
ghost use Rattle.std.specs.Iterator.{at_most};
ghost use Rattle.bigendian.specs.Numbers.{number_at};
ghost use Rattle.bigendian.specs.Buffers.{at_front};
ghost use Rattle.instants.specs.Refusals.{check};
ghost use Rattle.rescue.specs.Walk.{range};
ghost use Rattle.rescue.specs.Rescue.{most_bytes, entry_length, entry_bytes, counts_of, kept_bytes, list_bytes, ranges_in, rescue_cases, rescue_of, records_after, list_after};
ghost use Rattle.rescue.specs.Inner.{Hop, Chain, Turned, range_to, Fits};

use bigendian::Field;
use instants::Refusal;
use record::LENGTH;

// The most bytes of an input.
pub const MOST_BYTES: usize = 65_536;

// The bytes of an entry in the list of ranges.
pub const ENTRY: usize = 8;

// Its two numbers.
const START: Field = Field { at: 0, size: 4 };

const SIZE: Field = Field { at: 4, size: 4 };

// The numbers of kept records, of passed ranges and of passed bytes.
#[derive(Clone, Copy)]
pub struct Counts {
    pub kept: u64,
    pub ranges: u64,
    pub passed: u64,
}

// Passed bytes side by side: the place of the first, and how many they are.
#[derive(Clone, Copy)]
pub struct Range {
    pub start: u64,
    pub size: u64,
}

impl Range {
    // The range of the entry at the front of a list.
    pub fn read(list: &[u8]) -> Range
        requires { entry_length ≤ length list.now }
        ensures range { result ≡ range (number_at list.now 0 4) (number_at list.now 4 4) }
        ensures start_below { result.start < 256 ^ 4 }
        ensures size_below { result.size < 256 ^ 4 }
    {
        Range {
            start: START.read(list),
            size: SIZE.read(list),
        }
    }

    // Puts its entry at the front of a list.
    fn put(self, list: &mut [u8])
        requires { entry_length ≤ length list.old }
        ensures { list.new ≡ at_front (entry_bytes self) list.old }
    {
        START.put(list, self.start);
        SIZE.put(list, self.size);
    }
}

// The next place, from `from` on, at which a record stands, or the end. By itself, so that the compiler's loop over places holds nothing else.
#[inline(never)]
fn next_record(s: &[u8], from: usize) -> usize
    requires { from ≤ length s.now }
    ensures { Hop s.now from result }
{
    let end = s.len();
    for place in from..end {
        if record::reads(&s[place..]) {
            return place;
        }
    }
    end
}

// The end of the records that follow each other from `from` on. Their heads are looked at apart: the compiler then puts the short test alone into the loop.
fn records_end(s: &[u8], from: usize) -> usize
    requires { from ≤ length s.now }
    ensures { Chain s.now from result }
{
    let mut at = from;
    for r in s[from..].chunks_exact(LENGTH) {
        if record::head(r).is_err() {
            return at;
        }
        if !record::reads_behind(r) {
            return at;
        }
        at += LENGTH;
    }
    at
}

// A turn of the walk: the bytes from `at` to `from` are passed, and records stand from there to `end`.
#[derive(Clone, Copy)]
struct Turn {
    at: usize,
    from: usize,
    end: usize,
}

// The turns of the walk over s from the place `at` on.
#[derive(Clone, Copy)]
struct Turns<'a> {
    s: &'a [u8],
    at: usize,
}

impl<'a> Iterator for Turns<'a> {
    type Item = Turn;

    ghost next_gives = { λ t r u. (u.s ≡ t.s) × MatchOption r (length t.s.now ≤ t.at) (λ x. (x.at ≡ t.at) × (u.at ≡ x.end) × Turned t.s.now t.at x.from x.end) };

    ghost remaining = { λ t. at_most (length t.s.now - t.at) };

    fn next(&mut self) -> Option<Turn> {
        let at = self.at;
        if self.s.len() <= at {
            return None;
        }
        let from = next_record(self.s, at);
        let end = records_end(self.s, from);
        self.at = end;
        Some(Turn { at, from, end })
    }
}

// The numbers of the walk over s.
fn count(s: &[u8]) -> Counts
    requires { length s.now ≤ most_bytes }
    ensures { result ≡ counts_of s.now }
{
    let mut kept: usize = 0;
    let mut ranges: u64 = 0;
    for t in (Turns { s, at: 0 }) {
        ranges += u64::from(t.at < t.from);
        kept += t.end - t.from;
    }
    Counts {
        kept: (kept / LENGTH) as u64,
        ranges,
        passed: (s.len() - kept) as u64,
    }
}

// The numbers of a rescue from s into so many bytes for the records and for the list, or its refusal.
pub fn rescue_of(s: &[u8], records: usize, list: usize) -> Result<Counts, Refusal>
    ensures { result ≡ rescue_of s.now records list }
{
    if MOST_BYTES < s.len() {
        return Err(Refusal::RescueLength);
    }
    let c = count(s);
    if (records < LENGTH * (c.kept as usize)) | (list < ENTRY * (c.ranges as usize)) {
        return Err(Refusal::BufferShort);
    }
    Ok(c)
}

// Puts the entry of the range from `from` to `to`, if there is one, at the front of the list, and returns its bytes.
fn put_range(from: usize, to: usize, list: &mut [u8]) -> usize
    requires { entry_length * length (range_to from to) ≤ length list.old }
    ensures size { result ≡ entry_length * length (range_to from to) }
    ensures list { list.new ≡ at_front (list_bytes (range_to from to)) list.old }
{
    if from < to {
        let range = Range {
            start: from as u64,
            size: (to - from) as u64,
        };
        range.put(list);
        return ENTRY;
    }
    0
}

// Writes the kept records and the list of ranges, where both fit.
fn fill(s: &[u8], records: &mut [u8], list: &mut [u8])
    requires { Fits s.now (length records.old) (length list.old) }
    ensures records { records.new ≡ at_front (kept_bytes s.now) records.old }
    ensures list { list.new ≡ at_front (list_bytes (ranges_in s.now)) list.old }
{
    let mut kept: usize = 0;
    let mut listed: usize = 0;
    for t in (Turns { s, at: 0 }) {
        listed += put_range(t.at, t.from, &mut list[listed..]);
        kept += bigendian::copy(&s[t.from..t.end], &mut records[kept..]);
    }
}

// Writes the kept records and the list of ranges at the fronts of two buffers, or leaves both as they were.
pub fn rescue(s: &[u8], records: &mut [u8], list: &mut [u8]) -> Result<(), Refusal>
    ensures refusal { result ≡ check (rescue_cases s.now (length records.old) (length list.old)) }
    ensures records { records.new ≡ records_after s.now (length list.old) records.old }
    ensures list { list.new ≡ list_after s.now (length records.old) list.old }
{
    rescue_of(s, records.len(), list.len())?;
    fill(s, records, list);
    Ok(())
}
