// What the program rescue_records writes: the kept records, and a report of what was passed.
#![tactic(auto)]

ghost use Rattle.std.specs.Prelude.{◌≡◌, ◌++◌, ◌+◌, ◌*◌, ◌/◌, ◌≤◌, length};
ghost use Rattle.bigendian.specs.Buffers.{at_front};
ghost use Rattle.rescue.specs.Rescue.{entry_length};
ghost use Rattle.rescue.specs.Claims.{listed};
ghost use Rattle.rescue_lines.specs.Lines.{line_text, lines_text, totals_text, records_text, report_text};
ghost use Rattle.rescue_lines.specs.Inner.{line_most, totals_most};

use record::LENGTH;
use rescue::{Counts, ENTRY, Range};

// The bytes of the kept records, of the list of ranges and of the report, at most.
pub const RECORDS: usize = 65_520;

const LIST: usize = 16_920;

pub const REPORT: usize = 80_470;

// How many bytes are to be written, of the records and of the report.
#[derive(Clone, Copy)]
pub struct Sizes {
    pub records: usize,
    pub report: usize,
}

// Puts the line of a range at the front of the buffer and returns its length.
fn put_line(range: Range, buffer: &mut [u8]) -> usize
    requires { length (line_text range) ≤ length buffer.old }
    ensures size { result ≡ length (line_text range) }
    ensures buffer { buffer.new ≡ at_front (line_text range) buffer.old }
{
    let passed = text::put_counted(b"passed ", range.size, buffer);
    let at = passed + text::put_counted(b" bytes at ", range.start, &mut buffer[passed..]);
    at + bigendian::copy(b"\n", &mut buffer[at..])
}

// Puts a line for each entry of the list at the front of the buffer and returns their length.
fn put_lines(list: &[u8], buffer: &mut [u8]) -> usize
    requires { line_most * (length list.now / entry_length) ≤ length buffer.old }
    ensures most { result ≤ line_most * (length list.now / entry_length) }
    ensures size { result ≡ length (lines_text (listed (length list.now / entry_length) list.now)) }
    ensures buffer { buffer.new ≡ at_front (lines_text (listed (length list.now / entry_length) list.now)) buffer.old }
{
    let mut end: usize = 0;
    for entry in list.chunks_exact(ENTRY) {
        end += put_line(Range::read(entry), &mut buffer[end..]);
    }
    end
}

// Puts the line of the totals at the front of the buffer and returns its length.
fn put_totals(c: Counts, buffer: &mut [u8]) -> usize
    requires { length (totals_text c) ≤ length buffer.old }
    ensures size { result ≡ length (totals_text c) }
    ensures buffer { buffer.new ≡ at_front (totals_text c) buffer.old }
{
    let kept = text::put_counted(b"kept ", c.kept, buffer);
    let passed = kept + text::put_counted(b" records, passed ", c.passed, &mut buffer[kept..]);
    let ranges = passed + text::put_counted(b" bytes in ", c.ranges, &mut buffer[passed..]);
    ranges + bigendian::copy(b" ranges\n", &mut buffer[ranges..])
}

// Puts the lines of the list's entries and the totals behind them at the front of the buffer, and returns their length.
fn put_report(list: &[u8], c: Counts, buffer: &mut [u8]) -> usize
    requires entries { entry_length * c.ranges ≤ length list.now }
    requires room { line_most * c.ranges + totals_most ≤ length buffer.old }
    ensures size { result ≡ length (lines_text (listed c.ranges list.now) ++ totals_text c) }
    ensures buffer { buffer.new ≡ at_front (lines_text (listed c.ranges list.now) ++ totals_text c) buffer.old }
{
    let end = put_lines(&list[..ENTRY * (c.ranges as usize)], buffer);
    end + put_totals(c, &mut buffer[end..])
}

// Puts what is to be written for the input s, to standard output and to standard error, at the fronts of two buffers, and returns how many bytes that is.
pub fn answer(s: &[u8], records: &mut [u8; RECORDS], report: &mut [u8; REPORT]) -> Sizes
    ensures sizes { (result.records ≡ length (records_text s.now)) × (result.report ≡ length (report_text s.now)) }
    ensures records { records.new ≡ at_front (records_text s.now) records.old }
    ensures report { report.new ≡ at_front (report_text s.now) report.old }
{
    match rescue::rescue_of(s, RECORDS, LIST) {
        Err(r) => Sizes {
            records: 0,
            report: text::refuse_by(r, report),
        },
        Ok(c) => {
            let mut list = [0u8; LIST];
            let _ = rescue::rescue(s, records, &mut list);
            Sizes {
                records: LENGTH * (c.kept as usize),
                report: put_report(&list, c, report),
            }
        }
    }
}
