// Service (k): what differs between two record files.
ghost use Rattle.std.specs.Prelude.{◌≡◌, length};
ghost use Rattle.compare.specs.Compare.{compare_of, list_after, entries_number_of, compare_refusal_of};

use crate::number;

// Writes the list of differences at the front of a buffer. Returns the refusal number.
#[tactic(auto, using(instants::proofs::FirstRefusal::first_checked, compare::proofs::Promises::compare_refusal))]
#[unsafe(no_mangle)]
pub extern "C" fn enfys_compare(s: &[u8], t: &[u8], list: &mut [u8]) -> u32
    ensures refusal { result ≡ compare_refusal_of (compare_of s.now t.now (length list.old)) }
    ensures list { list.new ≡ list_after s.now t.now list.old }
{
    number(compare::compare(s, t, list))
}

// The number of entries, for a list of so many bytes.
#[unsafe(no_mangle)]
pub extern "C" fn enfys_compare_entries(s: &[u8], t: &[u8], list: usize) -> u64
    ensures { result ≡ entries_number_of (compare_of s.now t.now list) }
{
    compare::compare_of(s, t, list).unwrap_or(0)
}

// The refusal number of a comparison.
#[unsafe(no_mangle)]
pub extern "C" fn enfys_compare_refusal(s: &[u8], t: &[u8], list: usize) -> u32
    ensures { result ≡ compare_refusal_of (compare_of s.now t.now list) }
{
    number(compare::compare_of(s, t, list))
}
