// What differs between two record files: a walk over both in the order of their instants, once to test and to count, once to write.
#![tactic(auto)]

ghost use Rattle.std.specs.Prelude.{◌≡◌, ◌≢◌, true, false, ◌≤◌, ◌+◌, ◌++◌, ◌-ℤ◌, length, drop, FitsSigned, Err};
ghost use Rattle.std.specs.Int.{w32};
ghost use Rattle.instants.specs.Refusals as refusals;
ghost use Rattle.bigendian.specs.Buffers.{at_front};
ghost use Rattle.record.specs.Format.{record_length};
ghost use Rattle.record.specs.Records.{read_of, is_record};
ghost use Rattle.files.specs.Files.{file_cases};
ghost use Rattle.files.specs.Inner.{sound, sound_after, answers_from};
ghost use Rattle.compare.specs.Walk as walks;
ghost use Rattle.compare.specs.Compare as compared;
ghost use Rattle.compare.specs.Inner.{record_at, records_from, start_of, past_first, past_second, next_place, here, Going, count_of, files_refusal, Fits};

use bigendian::Field;
use files::END;
use instants::Refusal;
use record::{LENGTH, Record};

// The bytes of an entry.
const ENTRY: usize = 37;

// Its six fields, in order.
const SIDE_FIELD: Field = Field { at: 0, size: 1 };

const DAY_FIELD: Field = Field { at: 1, size: 4 };

const MICROS_FIELD: Field = Field { at: 5, size: 8 };

const UT1_FIELD: Field = Field { at: 13, size: 8 };

const LOD_FIELD: Field = Field { at: 21, size: 8 };

const RATE_FIELD: Field = Field { at: 29, size: 8 };

// The files that have an instant, by their number in an entry.
#[derive(Clone, Copy, PartialEq, Eq)]
pub enum Side {
    FirstOnly = 1,
    SecondOnly = 2,
    InBoth = 3,
}

impl From<Side> for u64 {
    ghost from_gives = { λ side n. n ≡ walks.side_number side };

    fn from(side: Side) -> u64 {
        side as u64
    }
}

// An entry of the list: its side, its instant (day number and microseconds of the day), and the differences of the three numbers.
#[derive(Clone, Copy)]
pub struct Entry {
    pub side: Side,
    pub day: i64,
    pub micros: u64,
    pub ut1: i64,
    pub lod: i64,
    pub rate: i64,
}

// Second minus first: 33 bits hold it.
fn difference(first: i32, second: i32) -> i64
    ensures { result ≡ second -ℤ first }
{
    i64::from(second) - i64::from(first)
}

// All three numbers are equal.
fn same_numbers(r: Record, q: Record) -> bool
    ensures { result ≡ walks.same_numbers r q }
{
    ((r.ut1 == q.ut1) & (r.lod == q.lod)) & (r.rate == q.rate)
}

impl Entry {
    // Of a record in one file only.
    fn alone(side: Side, r: Record) -> Entry
        ensures { result ≡ walks.alone side r }
    {
        Entry {
            side,
            day: r.day,
            micros: r.micros,
            ut1: 0,
            lod: 0,
            rate: 0,
        }
    }

    // Of two records of one instant.
    fn changed(r: Record, q: Record) -> Entry
        ensures { result ≡ walks.changed r q }
    {
        Entry {
            side: Side::InBoth,
            day: r.day,
            micros: r.micros,
            ut1: difference(r.ut1, q.ut1),
            lod: difference(r.lod, q.lod),
            rate: difference(r.rate, q.rate),
        }
    }

    // Its bytes, field by field.
    fn bytes(self) -> [u8; ENTRY]
        requires { FitsSigned w32 self.day }
        ensures { result ≡ compared.entry_bytes self }
    {
        let mut b = [0u8; ENTRY];
        SIDE_FIELD.put(&mut b, u64::from(self.side));
        DAY_FIELD.put(&mut b, bigendian::twos_complement(self.day));
        MICROS_FIELD.put(&mut b, self.micros);
        UT1_FIELD.put(&mut b, bigendian::twos_complement_64(self.ut1));
        LOD_FIELD.put(&mut b, bigendian::twos_complement_64(self.lod));
        RATE_FIELD.put(&mut b, bigendian::twos_complement_64(self.rate));
        b
    }

    // Puts it at the front of the list, and returns how many bytes it has.
    fn put(self, list: &mut [u8]) -> usize
        requires day { FitsSigned w32 self.day }
        requires room { compared.entry_length ≤ length list.old }
        ensures size { result ≡ compared.entry_length }
        ensures list { list.new ≡ at_front (compared.entry_bytes self) list.old }
    {
        bigendian::copy(&self.bytes(), list)
    }
}

// The record at a place of s, where one is known to stand.
fn record_at(s: &[u8], i: usize) -> Record
    requires { is_record (read_of (drop i s.now)) ≡ true }
    ensures { result ≡ record_at s.now i }
{
    record::known(&s[i..])
}

// Where a walk stands: a place in each file, and the moments of the records there.
#[derive(Clone, Copy)]
struct Place {
    first: usize,
    second: usize,
    m: u64,
    n: u64,
}

impl Place {
    // Behind the record of the first file.
    fn past_first<const KNOWN: bool>(self, s: &[u8]) -> Place
        requires place { self.first + record_length ≤ length s.now }
        requires known { KNOWN ≡ true → sound_after self.m (answers_from s.now (self.first + record_length)) ≡ true }
        ensures { result ≡ past_first s.now self }
    {
        let first = self.first + LENGTH;
        Place {
            first,
            m: files::moment_at::<KNOWN>(s, first, self.m),
            ..self
        }
    }

    // Behind that of the second.
    fn past_second<const KNOWN: bool>(self, t: &[u8]) -> Place
        requires place { self.second + record_length ≤ length t.now }
        requires known { KNOWN ≡ true → sound_after self.n (answers_from t.now (self.second + record_length)) ≡ true }
        ensures { result ≡ past_second t.now self }
    {
        let second = self.second + LENGTH;
        Place {
            second,
            n: files::moment_at::<KNOWN>(t, second, self.n),
            ..self
        }
    }
}

// Two files. Where both are known to be sound (`KNOWN`), a walk tests none of their records.
#[derive(Clone, Copy)]
struct Pair<'a> {
    s: &'a [u8],
    t: &'a [u8],
}

impl Pair<'_> {
    // The fronts of both.
    fn start<const KNOWN: bool>(self) -> Place
        requires { KNOWN ≡ true → (sound self.s.now ≡ true) × (sound self.t.now ≡ true) }
        ensures { result ≡ start_of self.entry.s.now self.entry.t.now }
    {
        Place {
            first: 0,
            second: 0,
            m: files::moment_at::<KNOWN>(self.s, 0, 0),
            n: files::moment_at::<KNOWN>(self.t, 0, 0),
        }
    }

    // Behind the earlier of two records, or behind both.
    fn next<const KNOWN: bool>(self, p: Place) -> Place
        requires { Going self.s.now self.t.now p KNOWN }
        ensures { result ≡ next_place self.entry.s.now self.entry.t.now p }
    {
        if p.m < p.n {
            return p.past_first::<KNOWN>(self.s);
        }
        if p.n < p.m {
            return p.past_second::<KNOWN>(self.t);
        }
        p.past_first::<KNOWN>(self.s).past_second::<KNOWN>(self.t)
    }

    // How many entries are listed at a place: one or none. No record is read where the moments differ.
    fn count_here(self, p: Place) -> u64
        requires { Going self.s.now self.t.now p false }
        ensures { result ≡ length (here self.entry.s.now self.entry.t.now p) }
    {
        if p.m != p.n {
            return 1;
        }
        u64::from(!same_numbers(record_at(self.s, p.first), record_at(self.t, p.second)))
    }

    // Puts what is listed at a place at the front of the list, and returns how many bytes it has.
    fn put_here(self, p: Place, list: &mut [u8]) -> usize
        requires going { Going self.s.now self.t.now p true }
        requires room { length (compared.list_bytes (here self.s.now self.t.now p)) ≤ length list.old }
        ensures size { result ≡ length (compared.list_bytes (here self.entry.s.now self.entry.t.now p)) }
        ensures list { list.new ≡ at_front (compared.list_bytes (here self.entry.s.now self.entry.t.now p)) list.old }
    {
        if p.m < p.n {
            return Entry::alone(Side::FirstOnly, record_at(self.s, p.first)).put(list);
        }
        if p.n < p.m {
            return Entry::alone(Side::SecondOnly, record_at(self.t, p.second)).put(list);
        }
        let r = record_at(self.s, p.first);
        let q = record_at(self.t, p.second);
        if same_numbers(r, q) {
            return 0;
        }
        Entry::changed(r, q).put(list)
    }

    // The number of entries, if both files are sound.
    fn count(self) -> Option<u64>
        ensures { result ≡ count_of self.entry.s.now self.entry.t.now }
    {
        let mut p = self.start::<false>();
        let mut entries = 0;
        while (p.m < END) | (p.n < END) {
            entries += self.count_here(p);
            p = self.next::<false>(p);
        }
        if p.m != END || p.n != END {
            return None;
        }
        Some(entries)
    }

    // Refuses what are not two files: by the first, else by the second.
    fn check(self) -> Result<(), Refusal>
        ensures { result ≡ refusals.check (file_cases self.entry.s.now ++ file_cases self.entry.t.now) }
    {
        files::check(self.s)?;
        files::check(self.t)
    }

    // The refusal, where one is no file.
    fn refusal(self) -> Refusal
        requires { files_refusal self.s.now self.t.now ≢ 0 }
        ensures { refusals.check (file_cases self.entry.s.now ++ file_cases self.entry.t.now) ≡ Err result }
    {
        self.check().unwrap_err()
    }

    // Writes the list of two sound files, of so many bytes, where it fits.
    fn fill(self, needed: usize, list: &mut [u8])
        requires { Fits self.s.now self.t.now needed (length list.old) }
        ensures { list.new ≡ at_front (compared.list_bytes (walks.walk (records_from self.entry.s.now 0) (records_from self.entry.t.now 0))) list.old }
    {
        let mut p = self.start::<true>();
        let mut done: usize = 0;
        while done < needed {
            done += self.put_here(p, &mut list[done..]);
            p = self.next::<true>(p);
        }
    }
}

// The number of entries of two files for a list of so many bytes, or the refusal.
pub fn compare_of(s: &[u8], t: &[u8], room: usize) -> Result<u64, Refusal>
    ensures { result ≡ compared.compare_of s.now t.now room }
{
    let pair = Pair { s, t };
    if files::wrong_length(s.len()) | files::wrong_length(t.len()) {
        return Err(pair.refusal());
    }
    let Some(n) = pair.count() else {
        return Err(pair.refusal());
    };
    if room < ENTRY * (n as usize) {
        return Err(Refusal::BufferShort);
    }
    Ok(n)
}

// Writes the list at the front of a buffer, or leaves the buffer as it was beside a refusal.
pub fn compare(s: &[u8], t: &[u8], list: &mut [u8]) -> Result<(), Refusal>
    ensures refusal { result ≡ refusals.check (compared.compare_cases s.now t.now (length list.old)) }
    ensures list { list.new ≡ compared.list_after s.now t.now list.old }
{
    let n = compare_of(s, t, list.len())?;
    Pair { s, t }.fill(ENTRY * (n as usize), list);
    Ok(())
}
