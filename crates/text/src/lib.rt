// The programs' words: decimal numerals, and what is written of a refusal.
#![tactic(auto)]

ghost use Rattle.std.specs.Prelude.{◌≡◌, ◌++◌, ◌≤◌, length};
ghost use Rattle.bigendian.specs.Buffers.{at_front};
ghost use Rattle.text.specs.Text.{numeral, refusal_text, refused_text};

use instants::Refusal;

// The number of decimal digits of n.
fn digits(n: u64) -> usize
    ensures { result ≡ length (numeral n) }
{
    let mut rest = n;
    let mut k: usize = 1;
    while 10 <= rest {
        rest = rest / 10;
        k += 1;
    }
    k
}

// Puts the decimal numeral of n at the front of the buffer, its last digit first, and returns its length.
pub fn put_numeral(n: u64, buffer: &mut [u8]) -> usize
    requires { length (numeral n) ≤ length buffer.old }
    ensures size { result ≡ length (numeral n) }
    ensures buffer { buffer.new ≡ at_front (numeral n) buffer.old }
{
    let size = digits(n);
    let mut rest = n;
    // By places: of what is written through `iter_mut().rev()` a proof knows the length alone.
    for k in (0..size).rev() {
        buffer[k] = b'0' + (rest % 10) as u8;
        rest = rest / 10;
    }
    size
}

// Puts a word and the decimal numeral of n behind it at the front of the buffer, and returns their length.
pub fn put_counted(word: &[u8], n: u64, buffer: &mut [u8]) -> usize
    requires { length (word.now ++ numeral n) ≤ length buffer.old }
    ensures size { result ≡ length (word.now ++ numeral n) }
    ensures buffer { buffer.new ≡ at_front (word.now ++ numeral n) buffer.old }
{
    let end = bigendian::copy(word, buffer);
    end + put_numeral(n, &mut buffer[end..])
}

// Puts the text of a refusal number at the front of the buffer and returns its length.
pub fn refuse(number: u32, buffer: &mut [u8]) -> usize
    requires { length (refusal_text number) ≤ length buffer.old }
    ensures size { result ≡ length (refusal_text number) }
    ensures buffer { buffer.new ≡ at_front (refusal_text number) buffer.old }
{
    let end = put_counted(b"refused ", number as u64, buffer);
    buffer[end] = b'\n';
    end + 1
}

// The same of a refusal.
pub fn refuse_by(refusal: Refusal, buffer: &mut [u8]) -> usize
    requires { length (refused_text refusal) ≤ length buffer.old }
    ensures size { result ≡ length (refused_text refusal) }
    ensures buffer { buffer.new ≡ at_front (refused_text refusal) buffer.old }
{
    refuse(u32::from(refusal), buffer)
}
