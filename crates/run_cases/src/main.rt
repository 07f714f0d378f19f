// Limits on each side: the count of a run and the seconds of a time of day; and lines of each kind: answered, refused, bad.
#![tactic(auto)]

use calendar::{Date, TimeOfDay};
use instants::{Instant, Refusal};

// A text, and the refusal number behind it, or 0. Here and below each part is a write of its own, and one that fails is passed over.
fn show(rt: HostRuntime, text: &str, answer: Result<(), Refusal>) {
    let number = match answer {
        Ok(()) => 0,
        Err(r) => u32::from(r),
    };
    let _ = print!(rt; "{text}");
    let _ = print!(rt; ": ");
    let _ = print!(rt; "{number}");
    let _ = print!(rt; "\n");
}

// A run of quarter hours, into room for ninety-seven records.
fn quarter_hours(count: u64) -> Result<(), Refusal> {
    let start = Instant {
        day: 54465,
        micros: 0,
    };
    run::write(start, count, 900000000, &mut [0u8; 2910])
}

// A time in the last minute of 2007-12-31.
fn last_minute(second: u64, microsecond: u64) -> Result<(), Refusal> {
    let date = Date {
        year: 2007,
        month: 12,
        day: 31,
    };
    let time = TimeOfDay {
        hour: 23,
        minute: 59,
        second,
        microsecond,
    };
    calendar::instant_of(date, time)?;
    Ok(())
}

// An input, and behind it what the program writes for it: its words, or of a run the number of its bytes. A run is longer than any words.
fn answer(rt: HostRuntime, input: &[u8]) {
    let mut buffer = [0u8; 2880];
    let _ = rt.write_all(input);
    let _ = print!(rt; "  ");
    let size = run_line::answer(input, &mut buffer);
    if size < 12 {
        let _ = rt.write_all(&buffer[..size]);
        return;
    }
    let _ = print!(rt; "{size}");
    let _ = print!(rt; " bytes");
    let _ = print!(rt; "\n");
}

// Lines that are answered by a run.
fn runs(rt: HostRuntime) {
    // a day of quarter hours
    answer(rt, b"2007 12 31 96 900\n");
    // ten digits each
    answer(
        rt,
        b"0000002007 0000000012 0000000031 0000000096 0000000900\n",
    );
    // one record on the last day
    answer(rt, b"2100 12 31 1 86400\n");
    // more behind the newline
    answer(rt, b"2000 2 29 2 1\nx");
}

// Lines whose date is refused.
fn dates(rt: HostRuntime) {
    // year 1899
    answer(rt, b"1899 12 31 1 1\n");
    // year 2101
    answer(rt, b"2101 1 1 97 0\n");
    // month 0
    answer(rt, b"2000 0 1 1 1\n");
    // month 13
    answer(rt, b"2000 13 32 1 1\n");
    // day 0
    answer(rt, b"2000 2 0 1 1\n");
    // 1900-02-29
    answer(rt, b"1900 2 29 1 1\n");
    // 2100-02-29
    answer(rt, b"2100 2 29 0 1\n");
}

// Lines whose count, step or last instant is refused.
fn counts_and_steps(rt: HostRuntime) {
    // count 0, step 0
    answer(rt, b"2000 2 29 0 0\n");
    // count 97
    answer(rt, b"2007 12 31 97 900\n");
    // step 0
    answer(rt, b"2000 2 29 1 0\n");
    // step 86401
    answer(rt, b"2000 2 29 1 86401\n");
    // step 9999999999
    answer(rt, b"2100 12 31 2 9999999999\n");
    // past the last day
    answer(rt, b"2100 12 31 2 86400\n");
}

// Lines with too few, too many or too long numbers, or no end.
fn bad_numbers(rt: HostRuntime) {
    // an empty line
    answer(rt, b"\n");
    // no newline
    answer(rt, b"2000 2 29 1 1");
    // four numbers
    answer(rt, b"2000 2 29 1\n");
    // six numbers
    answer(rt, b"2000 2 29 1 1 1\n");
    // eleven digits
    answer(rt, b"2000 2 29 1 00000000001\n");
}

// Lines with a byte that belongs to none.
fn bad_bytes(rt: HostRuntime) {
    // two spaces
    answer(rt, b"2000  2 29 1 1\n");
    // a space before
    answer(rt, b" 2000 2 29 1 1\n");
    // a space behind
    answer(rt, b"2000 2 29 1 1 \n");
    // a tab
    answer(rt, b"2000\t2 29 1 1\n");
    // a carriage return
    answer(rt, b"2000 2 29 1 1\r\n");
    // a sign
    answer(rt, b"+2000 2 29 1 1\n");
    // a zero byte
    answer(rt, b"2000 2 29 1 1\0\n");
    // a second line
    answer(rt, b"2000 2 29\n1 1\n");
}

// Everything above, a line for each.
fn main(rt: HostRuntime) {
    show(rt, "count 96", quarter_hours(96));
    show(rt, "count 97", quarter_hours(97));
    show(rt, "second 59, microsecond 999999", last_minute(59, 999999));
    show(rt, "second 60", last_minute(60, 0));
    runs(rt);
    dates(rt);
    counts_and_steps(rt);
    bad_numbers(rt);
    bad_bytes(rt);
}
