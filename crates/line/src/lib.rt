// The line of run_day: five decimal numbers of 1 to 10 digits, one space between and a newline after.
#![tactic(auto)]

ghost use Rattle.std.specs.Prelude.{◌≡◌, not, take, MatchOption};
ghost use Rattle.std.specs.List.{position};
ghost use Rattle.line.specs.Lines.{is_digit, read_number, NoNumber, Number, line_of};

// What a line asks for: a run from 0 h of a date, its count of records and the seconds from each to the next.
#[derive(Clone, Copy)]
pub struct Line {
    pub year: u64,
    pub month: u64,
    pub day: u64,
    pub count: u64,
    pub step: u64,
}

// Where the digits at the front of s end, if they are at most ten and another byte follows.
fn digits_end(s: &[u8]) -> Option<usize>
    ensures { result ≡ position (λ x. not (is_digit x)) (take 11 s.now) }
{
    s.iter().take(11).position(|x| !x.is_ascii_digit())
}

// The number at the front of s, of 1 to 10 digits and with the byte `end` after it, and what follows that byte.
fn number(s: &[u8], end: u8) -> Option<(u64, &[u8])>
    ensures { MatchOption result (read_number end s.now ≡ NoNumber) (λ x. read_number end s.now ≡ Number x.0 x.1.now) }
{
    let n = digits_end(s)?;
    if n == 0 || s[n] != end {
        return None;
    }
    let mut value = 0;
    for x in &s[..n] {
        value = value * 10 + u64::from(*x - b'0');
    }
    Some((value, &s[n + 1..]))
}

// The five numbers of the line at the front of s, or none.
#[tactic(auto, unfolding(crate::specs::Lines::line_of))]
pub fn parse(s: &[u8]) -> Option<Line>
    ensures { result ≡ line_of s.now }
{
    let (year, rest) = number(s, b' ')?;
    let (month, rest) = number(rest, b' ')?;
    let (day, rest) = number(rest, b' ')?;
    let (count, rest) = number(rest, b' ')?;
    let (step, _) = number(rest, b'\n')?;
    Some(Line {
        year,
        month,
        day,
        count,
        step,
    })
}
