// Service (i): records rescued from damaged bytes.
ghost use Rattle.std.specs.Prelude.{◌≡◌, length};
ghost use Rattle.rescue.specs.Rescue.{rescue_of, records_after, list_after, kept_of, ranges_number_of, passed_of, rescue_refusal_of};

use crate::number;

// Writes the kept records and the list of passed ranges at the fronts of two buffers. Returns the refusal number.
#[tactic(auto, using(crate::proofs::Numbers::rescue_number))]
#[unsafe(no_mangle)]
pub extern "C" fn enfys_rescue(s: &[u8], records: &mut [u8], list: &mut [u8]) -> u32
    ensures refusal { result ≡ rescue_refusal_of (rescue_of s.now (length records.old) (length list.old)) }
    ensures records { records.new ≡ records_after s.now (length list.old) records.old }
    ensures list { list.new ≡ list_after s.now (length records.old) list.old }
{
    number(rescue::rescue(s, records, list))
}

// The number of kept records, for buffers of so many bytes.
#[unsafe(no_mangle)]
pub extern "C" fn enfys_rescue_kept(s: &[u8], records: usize, list: usize) -> u64
    ensures { result ≡ kept_of (rescue_of s.now records list) }
{
    rescue::rescue_of(s, records, list).map_or(0, |a| a.kept)
}

// The number of passed ranges.
#[unsafe(no_mangle)]
pub extern "C" fn enfys_rescue_ranges(s: &[u8], records: usize, list: usize) -> u64
    ensures { result ≡ ranges_number_of (rescue_of s.now records list) }
{
    rescue::rescue_of(s, records, list).map_or(0, |a| a.ranges)
}

// The number of passed bytes.
#[unsafe(no_mangle)]
pub extern "C" fn enfys_rescue_passed(s: &[u8], records: usize, list: usize) -> u64
    ensures { result ≡ passed_of (rescue_of s.now records list) }
{
    rescue::rescue_of(s, records, list).map_or(0, |a| a.passed)
}

// The refusal number of a rescue.
#[unsafe(no_mangle)]
pub extern "C" fn enfys_rescue_refusal(s: &[u8], records: usize, list: usize) -> u32
    ensures { result ≡ rescue_refusal_of (rescue_of s.now records list) }
{
    number(rescue::rescue_of(s, records, list))
}
