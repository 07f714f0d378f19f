// The program run_day: it reads a line from standard input, calls `run_line::answer`, and writes what that puts into the buffer. Its stored input asks for a day of
// ninety-six quarter-hour records.
#![tactic(auto)]

ghost use Rattle.std.specs.Prelude.{◌≤◌, length};

use std::io::{Read, Stdin};

// Reads standard input up to its first newline, or until s is full, a byte at a time, so that nothing behind the newline is waited for.
// Returns how many bytes it put at the front of s.
fn read_line(mut input: Stdin, s: &mut [u8]) -> usize
    ensures { result ≤ length s.new }
{
    let mut one = [0u8; 1];
    for (n, x) in s.iter_mut().enumerate() {
        let Ok(1) = input.read(&mut one) else {
            return n;
        };
        *x = one[0];
        if *x == b'\n' {
            return n + 1;
        }
    }
    s.len()
}

// Fifty-five bytes decide a line. What is written for it stands in the program's own buffer; where it cannot be written, one line to standard error says so.
fn main(rt: HostRuntime) {
    let mut line = [0u8; 55];
    let n = read_line(rt.stdin(), &mut line);
    let mut buffer = [0u8; 2880];
    let size = run_line::answer(&line[..n], &mut buffer);
    if rt.write_all(&buffer[..size]).is_err() {
        let _ = rt
            .stderr()
            .write_all(b"run_day: the answer could not be written\n");
    }
}
