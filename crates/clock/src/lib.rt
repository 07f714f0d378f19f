// An instant split into a day word and a time word, and the two joined again.
#![tactic(auto)]

ghost use Rattle.std.specs.Prelude.{◌≡◌};
ghost use Rattle.clock.specs.Words.{split_of, join_of};

use instants::{INDEX_OFFSET, Instant, Refusal};

// What one mark weighs in a time word: 2^37 microseconds, more than a day has.
pub const MARK_UNIT: u64 = 1 << 37;

// How many marks there are: a day's is its number modulo this.
const MARKS: u64 = 8;

// A day number is its index less the offset: modulo the marks, its index and this.
const MARK_SHIFT: u64 = MARKS - INDEX_OFFSET % MARKS;

// A day word, which is a day number, and a time word: microseconds with the day's mark above them.
#[derive(Clone, Copy)]
pub struct ClockWords {
    pub day: i64,
    pub time: u64,
}

// The words of an instant, or refusal 8 or 9.
pub fn split(t: Instant) -> Result<ClockWords, Refusal>
    ensures { result ≡ split_of t.day t.micros }
{
    let index = t.accept()?;
    Ok(ClockWords {
        day: t.day,
        time: t.micros + (index + MARK_SHIFT) % MARKS * MARK_UNIT,
    })
}

impl ClockWords {
    // The instant of two words, or refusal 8, 9 or 10.
    pub fn join(self) -> Result<Instant, Refusal>
        ensures { result ≡ join_of self.day self.time }
    {
        let t = Instant {
            day: self.day,
            micros: self.time % MARK_UNIT,
        };
        let i = t.accept()?;
        if self.time / MARK_UNIT != (i + MARK_SHIFT) % MARKS {
            return Err(Refusal::WordsDisagree);
        }
        Ok(t)
    }
}
