// Records of thirty bytes: one written, one read.
#![tactic(auto)]

ghost use Rattle.std.specs.Prelude.{◌≡◌, ◌≤◌, true, [], ◌∷◌, ◌++◌, length, pos, FitsSigned, Ok};
ghost use Rattle.std.specs.Int.{w32};
ghost use Rattle.bigendian.specs.Numbers.{twos_complement};
ghost use Rattle.bigendian.specs.Fields.{field_at};
ghost use Rattle.clock.specs.Words.{join_of};
ghost use Rattle.record.specs.Format.{record_length, day_field, time_field, field_bytes, record_bytes};
ghost use Rattle.instants.specs.Instants.{instant};
ghost use Rattle.instants.specs.Refusals.{check};
ghost use Rattle.record.specs.Inner.{head_of, form_of};
ghost use Rattle.record.specs.Records.{write_cases, written, record_of, read_of, is_record};

use bigendian::Field;
use clock::{ClockWords, MARK_UNIT};
use instants::{Instant, Refusal};

// The bytes of a record.
pub const LENGTH: usize = 30;

// Its 16-bit words.
const WORDS: usize = 15;

// The only version that is written and read.
const VERSION: u64 = 1;

// The nine fields, in order.
const LENGTH_FIELD: Field = Field { at: 0, size: 2 };

const VERSION_FIELD: Field = Field { at: 2, size: 1 };

const ZERO_FIELD: Field = Field { at: 3, size: 1 };

const DAY_FIELD: Field = Field { at: 4, size: 4 };

const TIME_FIELD: Field = Field { at: 8, size: 8 };

const UT1_FIELD: Field = Field { at: 16, size: 4 };

const LOD_FIELD: Field = Field { at: 20, size: 4 };

const RATE_FIELD: Field = Field { at: 24, size: 4 };

const CHECK_FIELD: Field = Field { at: 28, size: 2 };

// A record's instant (day number and microseconds of the day) and its three numbers: UT1 in nanoseconds, length of day in picoseconds, rate in
// 10^-20 rad/s.
#[derive(Clone, Copy)]
pub struct Record {
    pub day: i64,
    pub micros: u64,
    pub ut1: i32,
    pub lod: i32,
    pub rate: i32,
}

// A number's 32 bits.
fn bits(x: i32) -> u64
    ensures { result ≡ twos_complement 4 x }
{
    bigendian::twos_complement(i64::from(x))
}

impl Record {
    // Its instant.
    pub fn instant(self) -> Instant
        ensures { result ≡ instant self.day self.micros }
    {
        Instant {
            day: self.day,
            micros: self.micros,
        }
    }

    // The fields before the check word, with the clock words w, and two zeros in the place of the check word.
    fn fields(self, w: ClockWords) -> [u8; LENGTH]
        requires { FitsSigned w32 w.day }
        ensures { result ≡ field_bytes w self.ut1 self.lod self.rate ++ 0 ∷ 0 ∷ [] }
    {
        let mut s = [0u8; LENGTH];
        LENGTH_FIELD.put(&mut s, LENGTH as u64);
        VERSION_FIELD.put(&mut s, VERSION);
        DAY_FIELD.put(&mut s, bigendian::twos_complement(w.day));
        TIME_FIELD.put(&mut s, w.time);
        UT1_FIELD.put(&mut s, bits(self.ut1));
        LOD_FIELD.put(&mut s, bits(self.lod));
        RATE_FIELD.put(&mut s, bits(self.rate));
        s
    }

    // The thirty bytes: the check word is the wrapping negation of the sum of the others.
    fn bytes(self, w: ClockWords) -> [u8; LENGTH]
        requires { FitsSigned w32 w.day }
        ensures { result ≡ record_bytes w self.ut1 self.lod self.rate }
    {
        let mut s = self.fields(w);
        let check = bigendian::word_sum(&s, 14).wrapping_neg();
        CHECK_FIELD.put(&mut s, u64::from(check));
        s
    }

    // Writes the record at the front of the buffer, or leaves the buffer as it was beside a refusal.
    #[inline(always)]
    pub fn write(self, buffer: &mut [u8]) -> Result<(), Refusal>
        ensures refusal { result ≡ check (write_cases self.day self.micros (length buffer.old)) }
        ensures buffer { buffer.new ≡ written self.day self.micros self.ut1 self.lod self.rate buffer.old }
    {
        let w = clock::split(self.instant())?;
        if buffer.len() < LENGTH {
            return Err(Refusal::BufferShort);
        }
        bigendian::copy(&self.bytes(w), buffer);
        Ok(())
    }
}

// Refuses the bytes of which the head is no record's.
#[tactic(auto, unfolding(crate::specs::Inner::head_of))]
pub fn head(s: &[u8]) -> Result<(), Refusal>
    ensures { result ≡ head_of s.now }
{
    if s.len() < LENGTH {
        return Err(Refusal::BufferShort);
    }
    if VERSION_FIELD.read(s) != VERSION {
        return Err(Refusal::RecordVersion);
    }
    if LENGTH_FIELD.read(s) != LENGTH as u64 {
        return Err(Refusal::RecordLength);
    }
    if ZERO_FIELD.read(s) != 0 {
        return Err(Refusal::RecordZero);
    }
    Ok(())
}

// Refuses the bytes that have not a record's form.
#[tactic(auto, using(crate::proofs::Forms::head_refused, crate::proofs::Forms::head_long, crate::proofs::Forms::sum_refused, crate::proofs::Forms::form_accepted))]
fn form(s: &[u8]) -> Result<(), Refusal>
    ensures { result ≡ form_of s.now }
{
    head(s)?;
    if bigendian::word_sum(s, WORDS) != 0 {
        return Err(Refusal::RecordSum);
    }
    Ok(())
}

// The clock words in s, joined.
fn join_words(s: &[u8]) -> Result<Instant, Refusal>
    requires { record_length ≤ length s.now }
    ensures { result ≡ join_of (pos (field_at s.now day_field)) (field_at s.now time_field) }
{
    let w = ClockWords {
        day: DAY_FIELD.read(s) as i64,
        time: TIME_FIELD.read(s),
    };
    w.join()
}

// An instant with the three numbers in s.
fn record_of(t: Instant, s: &[u8]) -> Record
    requires { record_length ≤ length s.now }
    ensures { result ≡ record_of t s.now }
{
    Record {
        day: t.day,
        micros: t.micros,
        ut1: bigendian::signed_of(UT1_FIELD.read(s)),
        lod: bigendian::signed_of(LOD_FIELD.read(s)),
        rate: bigendian::signed_of(RATE_FIELD.read(s)),
    }
}

// The record that the front of s is, or the refusal of reading it.
pub fn read(s: &[u8]) -> Result<Record, Refusal>
    ensures { result ≡ read_of s.now }
{
    form(s)?;
    let t = join_words(s)?;
    Ok(record_of(t, s))
}

// Whether what has a record's head reads as a record.
pub fn reads_behind(s: &[u8]) -> bool
    requires { head_of s.now ≡ Ok tt }
    ensures { result ≡ is_record (read_of s.now) }
{
    bigendian::word_sum(s, WORDS) == 0 && join_words(s).is_ok()
}

// Whether the front of s reads as a record. The head tells most bytes that do not.
pub fn reads(s: &[u8]) -> bool
    ensures { result ≡ is_record (read_of s.now) }
{
    head(s).is_ok() && reads_behind(s)
}

// The record that the front of s is, where it is known to read as one.
pub fn known(s: &[u8]) -> Record
    requires { is_record (read_of s.now) ≡ true }
    ensures { Ok result ≡ read_of s.now }
{
    let day = DAY_FIELD.read(s) as i64;
    let micros = TIME_FIELD.read(s) % MARK_UNIT;
    record_of(Instant { day, micros }, s)
}
