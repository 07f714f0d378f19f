// Record files: whole records, one behind the other, whose instants rise.
#![tactic(auto)]

ghost use Rattle.std.specs.Prelude.{◌≡◌, true, ◌≤◌, length};
ghost use Rattle.instants.specs.Refusals as refusals;
ghost use Rattle.record.specs.Records.{read_of, is_record};
ghost use Rattle.files.specs.Files.{wrong_length, file_cases};
ghost use Rattle.files.specs.Inner.{moment_in, next_moment, sound_after, answers_from};

use instants::Refusal;
use record::LENGTH;

// The most bytes of a file.
const MOST_BYTES: usize = 65_520;

// Past every moment: where a file ends. These two are numbers and no cases of an enum, since a walk over two files takes the earlier of two moments at each
// step, and so compares two numbers.
pub const END: u64 = 0x4000_0000_0000_0000;

// And past that: where the next record does not read or is not after the one before.
const UNSOUND: u64 = 0x8000_0000_0000_0000;

// A length that no file has.
pub fn wrong_length(n: usize) -> bool
    ensures { result ≡ wrong_length n }
{
    (n % LENGTH != 0) | (MOST_BYTES < n)
}

// The moment of the record that the front of s is, where it is known to read as one.
fn known_moment(s: &[u8]) -> u64
    requires { is_record (read_of s.now) ≡ true }
    ensures { result ≡ moment_in 0 (read_of s.now) }
{
    record::known(s).instant().moment()
}

// The same of any bytes: `UNSOUND` where they do not read as a record, or its moment is not after `last`.
fn moment_in(s: &[u8], last: u64) -> u64
    ensures { result ≡ moment_in last (read_of s.now) }
{
    if !record::reads(s) {
        return UNSOUND;
    }
    let t = known_moment(s);
    if t <= last {
        return UNSOUND;
    }
    t
}

// The moment of the record at a place of s: `UNSOUND` if it does not read or is not after `last`, `END` where none is left. Where the records from there on
// are known to be sound, none is tested.
pub fn moment_at<const KNOWN: bool>(s: &[u8], at: usize, last: u64) -> u64
    requires place { at ≤ length s.now }
    requires known { KNOWN ≡ true → sound_after last (answers_from s.now at) ≡ true }
    ensures { result ≡ next_moment last (answers_from s.now at) }
{
    if s.len() - at < LENGTH {
        return END;
    }
    if KNOWN {
        return known_moment(&s[at..]);
    }
    moment_in(&s[at..], last)
}

// Refuses what is no file: the first record that does not read has the refusal, and only where all read the order of the instants is looked at.
pub fn check(s: &[u8]) -> Result<(), Refusal>
    ensures { result ≡ refusals.check (file_cases s.now) }
{
    if wrong_length(s.len()) {
        return Err(Refusal::FileLength);
    }
    let mut rise = true;
    let mut last: u64 = 0;
    for bytes in s.chunks_exact(LENGTH) {
        let r = record::read(bytes)?;
        let moment = r.instant().moment();
        rise &= last < moment;
        last = moment;
    }
    if !rise {
        return Err(Refusal::FileOrder);
    }
    Ok(())
}
