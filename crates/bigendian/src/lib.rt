// Numbers as big-endian bytes, the fields of a byte form, signed numbers in two's complement, and sums of 16-bit words.
#![tactic(auto)]

ghost use Rattle.std.specs.Prelude.{◌≡◌, ◌+◌, ◌*◌, ◌%◌, ◌^◌, ◌<◌, ◌≤◌, ◌++◌, length, take, drop, FitsSigned};
ghost use Rattle.std.specs.Int.{w32};
ghost use Rattle.bigendian.specs.Numbers.{bytes_of, number_at, word_sum, twos_complement, signed_of};
ghost use Rattle.bigendian.specs.Fields.{field_at};
ghost use Rattle.bigendian.specs.Buffers.{at_front};
ghost use Rattle.bigendian.specs.Inner.{with_field};

// The place of a number in a byte form: its first byte, and its number of bytes.
#[derive(Clone, Copy)]
pub struct Field {
    pub at: usize,
    pub size: usize,
}

impl Field {
    // The number in the field of s.
    pub fn read(self, s: &[u8]) -> u64
        requires within { self.at + self.size ≤ length s.now }
        requires few { self.size ≤ 8 }
        ensures number { result ≡ field_at s.now self }
        ensures below { result < 256 ^ self.size }
    {
        number_at(s, self.at, self.size)
    }

    // Puts a number into the field of s.
    pub fn put(self, s: &mut [u8], n: u64)
        requires { self.at + self.size ≤ length s.old }
        ensures { s.new ≡ with_field s.old self n }
    {
        put(s, self.at, self.size, n);
    }
}

// The number of values of a byte.
const BASE: u64 = 0x100;

// The number of the `size` bytes of s at the place `at`.
pub fn number_at(s: &[u8], at: usize, size: usize) -> u64
    requires within { at + size ≤ length s.now }
    requires few { size ≤ 8 }
    ensures number { result ≡ number_at s.now at size }
    ensures below { result < 256 ^ size }
{
    let mut value: u64 = 0;
    for x in &s[at..at + size] {
        value = value * BASE + u64::from(*x);
    }
    value
}

// Puts the `size` lowest bytes of n at the place `at` of s.
pub fn put(s: &mut [u8], at: usize, size: usize, n: u64)
    requires { at + size ≤ length s.old }
    ensures { s.new ≡ take at s.old ++ (bytes_of size n ++ drop (at + size) s.old) }
{
    let mut rest = n;
    // By places: of what is written through `iter_mut().rev()` a proof knows the length alone.
    for k in (0..size).rev() {
        s[at + k] = (rest % BASE) as u8;
        rest = rest / BASE;
    }
}

// The first `count` words of s, of 16 bits each, added with wrapping.
pub fn word_sum(s: &[u8], count: usize) -> u16
    requires { 2 * count ≤ length s.now }
    ensures { result ≡ word_sum s.now count % 0x1_0000 }
{
    let mut sum: u16 = 0;
    for word in s[..2 * count].chunks_exact(2) {
        sum = sum.wrapping_add(number_at(word, 0, 2) as u16);
    }
    sum
}

// A number that 32 bits hold, in two's complement.
pub fn twos_complement(x: i64) -> u64
    requires { FitsSigned w32 x }
    ensures number { result ≡ twos_complement 4 x }
    ensures below { result < 256 ^ 4 }
{
    u64::from((x as i32).cast_unsigned())
}

// A number in two's complement of 64 bits.
pub fn twos_complement_64(x: i64) -> u64
    ensures { result ≡ twos_complement 8 x }
{
    x.cast_unsigned()
}

// The number whose two's complement in 32 bits is n.
pub fn signed_of(n: u64) -> i32
    requires { n < 256 ^ 4 }
    ensures { result ≡ signed_of 4 n }
{
    (n as u32).cast_signed()
}

// Copies s over the front of a buffer, and returns its length.
pub fn copy(s: &[u8], buffer: &mut [u8]) -> usize
    requires { length s.now ≤ length buffer.old }
    ensures size { result ≡ length s.now }
    ensures buffer { buffer.new ≡ at_front s.now buffer.old }
{
    let n = s.len();
    buffer[..n].copy_from_slice(s);
    n
}
