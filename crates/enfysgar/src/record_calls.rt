// Service (g): one record, written and read.
ghost use Rattle.std.specs.Prelude.{◌≡◌, length};
ghost use Rattle.record.specs.Records.{write_refusal, written, read_of, record_day_or, record_micros_or, record_ut1_or, record_lod_or, record_rate_or, record_day_of, record_micros_of, record_ut1_of, record_lod_of, record_rate_of, read_refusal_of};

use crate::number;
use record::Record;

// Writes a record into the first thirty bytes of the buffer. Returns the refusal number.
#[tactic(auto, using(crate::proofs::Numbers::write_number))]
#[unsafe(no_mangle)]
pub extern "C" fn enfys_record_write(
    day: i64,
    micros: u64,
    ut1: i32,
    lod: i32,
    rate: i32,
    buffer: &mut [u8],
) -> u32
    ensures refusal { result ≡ write_refusal day micros (length buffer.old) }
    ensures buffer { buffer.new ≡ written day micros ut1 lod rate buffer.old }
{
    number(Record {
        day,
        micros,
        ut1,
        lod,
        rate,
    }
    .write(buffer))
}

// The instant and the three numbers in a record, or nothing written. Returns the refusal number.
#[unsafe(no_mangle)]
pub extern "C" fn enfys_record_read(
    s: &[u8],
    day: &mut i64,
    micros: &mut u64,
    ut1: &mut i32,
    lod: &mut i32,
    rate: &mut i32,
) -> u32
    ensures refusal { result ≡ read_refusal_of (read_of s.now) }
    ensures day { day.new ≡ record_day_or day.old (read_of s.now) }
    ensures micros { micros.new ≡ record_micros_or micros.old (read_of s.now) }
    ensures ut1 { ut1.new ≡ record_ut1_or ut1.old (read_of s.now) }
    ensures lod { lod.new ≡ record_lod_or lod.old (read_of s.now) }
    ensures rate { rate.new ≡ record_rate_or rate.old (read_of s.now) }
{
    match record::read(s) {
        Ok(t) => {
            *day = t.day;
            *micros = t.micros;
            *ut1 = t.ut1;
            *lod = t.lod;
            *rate = t.rate;
            0
        }
        Err(refusal) => u32::from(refusal),
    }
}

// The day number in a record.
#[unsafe(no_mangle)]
pub extern "C" fn enfys_record_day(s: &[u8]) -> i64
    ensures { result ≡ record_day_of (read_of s.now) }
{
    record::read(s).map_or(0, |t| t.day)
}

// The microseconds in a record.
#[unsafe(no_mangle)]
pub extern "C" fn enfys_record_micros(s: &[u8]) -> u64
    ensures { result ≡ record_micros_of (read_of s.now) }
{
    record::read(s).map_or(0, |t| t.micros)
}

// The effect on UT1 in a record.
#[unsafe(no_mangle)]
pub extern "C" fn enfys_record_ut1(s: &[u8]) -> i32
    ensures { result ≡ record_ut1_of (read_of s.now) }
{
    record::read(s).map_or(0, |t| t.ut1)
}

// The effect on the length of day in a record.
#[unsafe(no_mangle)]
pub extern "C" fn enfys_record_lod(s: &[u8]) -> i32
    ensures { result ≡ record_lod_of (read_of s.now) }
{
    record::read(s).map_or(0, |t| t.lod)
}

// The effect on the rotation rate in a record.
#[unsafe(no_mangle)]
pub extern "C" fn enfys_record_rate(s: &[u8]) -> i32
    ensures { result ≡ record_rate_of (read_of s.now) }
{
    record::read(s).map_or(0, |t| t.rate)
}

// The refusal number of reading a record.
#[unsafe(no_mangle)]
pub extern "C" fn enfys_record_refusal(s: &[u8]) -> u32
    ensures { result ≡ read_refusal_of (read_of s.now) }
{
    number(record::read(s))
}
