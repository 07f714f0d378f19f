// The program rescue_records: it reads standard input, calls `rescue_lines::answer`, and writes the kept records to standard output and the report to standard error. Its stored
// input is a few records, some of them damaged.
#![tactic(auto)]

ghost use Rattle.std.specs.Prelude.{◌≤◌, length};

use std::io::{Read, Stdin};

// One byte more than is accepted, which decides.
const MOST: usize = 65_537;

// Reads standard input until s is full, the input ends or a read fails, and returns the part of s that it filled. No index is saved: how far it has come is
// where the next read begins.
fn read_full(mut input: Stdin, s: &mut [u8]) -> &[u8]
    ensures { length result.now ≤ length s.old }
{
    let mut n = 0;
    while n < s.len() {
        let Ok(got) = input.read(&mut s[n..]) else {
            break;
        };
        if got == 0 {
            break;
        }
        n += got;
    }
    &s[..n]
}

// Says that the input was not read to its end, where fewer bytes than the most were read and one more read does not give the end. Then a read failed, as it
// does on a bad disk.
fn say_unread(rt: HostRuntime, read: &[u8]) {
    if read.len() < MOST {
        let mut one = [0u8; 1];
        let Ok(0) = rt.stdin().read(&mut one) else {
            let _ = rt
                .stderr()
                .write_all(b"rescue_records: the input was not read to its end\n");
            return;
        };
    }
}

// The records are written first, and the report whether or not they could be; where one of the two could not, one line to standard error says so.
fn main(rt: HostRuntime) {
    let mut input = [0u8; MOST];
    let read = read_full(rt.stdin(), &mut input);
    say_unread(rt, read);
    let mut records = [0u8; rescue_lines::RECORDS];
    let mut report = [0u8; rescue_lines::REPORT];
    let sizes = rescue_lines::answer(read, &mut records, &mut report);
    let kept = sizes.records;
    let said = sizes.report;
    let output = rt.write_all(&records[..kept]).is_ok();
    let error = rt.stderr().write_all(&report[..said]).is_ok();
    if !output | !error {
        let _ = rt
            .stderr()
            .write_all(b"rescue_records: the answer could not be written\n");
    }
}
