// Bit fields packed in bytes without gaps, most significant bit first, at any bit. Bit 0 is the highest bit of byte 0. The
// definitions and their laws hold for any width; one call reads or writes a field of at most 57 bits, or a word of 64. Shifts
// and masks are written as products, quotients and remainders of powers of two, which the compiler makes shifts and masks of
// again. Nothing here knows what a field means.
#![tactic(auto)]

ghost use Rattle.std.specs.Prelude.{◌≡◌, ◌+◌, ◌*◌, ◌^◌, ◌<◌, ◌≤◌, length, take, drop};
ghost use Rattle.fields.specs.Bytes.{number_of, with_bytes};
ghost use Rattle.fields.specs.Fields.{with_part, field_of, with_field, Power, Bits};
ghost use Rattle.fields.specs.Signed.{signed_of, bits_of};

// 2 to the power k: what a shift by k bits multiplies or divides by. A shift, and no call of std's power, which multiplies.
fn pow2(k: usize) -> u64
    requires { k < 64 }
    ensures { Power k result }
{
    1u64 << k
}

// The number of the n bytes from byte `from` on.
fn load(s: &[u8], from: usize, n: usize) -> u64
    requires { (n ≤ 8) × (from + n ≤ length s.now) }
    ensures { Bits (8 * n) (number_of (take n (drop from s.now))) result }
{
    let mut number: u64 = 0;
    for &b in &s[from..from + n] {
        number = number * 256 + u64::from(b);
    }
    number
}

// Stores the n low bytes of v from byte `from` on, the last byte first.
fn store(s: &mut [u8], from: usize, n: usize, v: u64)
    requires { from + n ≤ length s.old }
    ensures { s.new ≡ with_bytes s.old from n v }
{
    let mut rest = v;
    for i in (0..n).rev() {
        s[from + i] = (rest % 256) as u8;
        rest /= 256;
    }
}

// The eight bytes from byte `from` on, as a number. By halves, of which the compiler makes one load.
// std's `from_be_bytes` takes an array, which a slice becomes by a conversion that answers an `Option` or a `Result`: no plainer.
pub fn read_word(s: &[u8], from: usize) -> u64
    requires { from + 8 ≤ length s.now }
    ensures { Bits 64 (number_of (take 8 (drop from s.now))) result }
{
    load(s, from, 4) * 4294967296 + load(s, from + 4, 4)
}

// Stores v in the eight bytes from byte `from` on.
// std's `copy_from_slice` of `to_be_bytes` is no plainer: no law of std joins those bytes to `bytes_of`, and the check, which finds
// this proof alone, was left with one of its own to write.
pub fn write_word(s: &mut [u8], from: usize, v: u64)
    requires { from + 8 ≤ length s.old }
    ensures { s.new ≡ with_bytes s.old from 8 v }
{
    store(s, from, 8, v);
}

// How many bytes the first `bits` bits reach into. std's `div_ceil` asks for the remainder: four instructions more for a width that is not
// known to the compiler.
fn bytes_for(bits: usize) -> usize
    requires { bits ≤ 64 }
    ensures { (bits ≤ 8 * result) × (8 * result < bits + 8) }
{
    (bits + 7) / 8
}

// The field of `width` bits from bit `at` on. Only the bytes that it lies in are loaded: a field that begins within a byte
// reaches into at most eight where it has at most 57 bits.
pub fn read_field(s: &[u8], at: usize, width: usize) -> u64
    requires { (width ≤ 57) × (at + width ≤ 8 * length s.now) }
    ensures { Bits width (field_of s.now at width) result }
{
    let end = at % 8 + width;
    let n = bytes_for(end);
    load(s, at / 8, n) / pow2(8 * n - end) % pow2(width)
}

// A width is a plain number with a clause in each function that takes one: most are constants of a layout, and a type would have to be
// made of each.

// n with `width` of its bits, those that have `low` bits below them, replaced by the `width` low bits of v.
fn replaced(n: u64, low: usize, width: usize, v: u64) -> u64
    requires { (low < 64) × ((width < 64) × (low + width ≤ 64)) }
    ensures { result ≡ with_part n low width v }
{
    let unit = pow2(low);
    let size = pow2(width);
    (n / unit / size * size + v % size) * unit + n % unit
}

// Replaces the field of `width` bits from bit `at` on by the `width` low bits of v. Every other bit stays.
pub fn write_field(s: &mut [u8], at: usize, width: usize, v: u64)
    requires { (width ≤ 57) × (at + width ≤ 8 * length s.old) }
    ensures { s.new ≡ with_field s.old at width v }
{
    let end = at % 8 + width;
    let n = bytes_for(end);
    let from = at / 8;
    let bytes = load(s, from, n);
    store(s, from, n, replaced(bytes, 8 * n - end, width, v));
}

// The integer that the `width` low bits of `bits` stand for, by two's complement. Moved up by half the size and down again: of
// that the compiler makes two shifts, and no branch.
pub fn to_signed(bits: u64, width: usize) -> i64
    requires { width < 64 }
    ensures { result ≡ signed_of width bits }
{
    let size = pow2(width);
    let half = size / 2;
    let moved = (bits % size + half) % size;
    moved as i64 - half as i64
}

// The integer that a whole word stands for, by two's complement.
pub fn signed_word(word: u64) -> i64
    ensures { result ≡ signed_of 64 word }
{
    word.cast_signed()
}

// The `width` low bits of an integer, by two's complement.
pub fn to_bits(z: i64, width: usize) -> u64
    requires { width < 64 }
    ensures { Bits width (bits_of width z) result }
{
    to_word(z) % pow2(width)
}

// The bits of an integer in a whole word, by two's complement: what `signed_word` reads. The compiler makes no instruction of either.
pub fn to_word(z: i64) -> u64
    ensures { result ≡ bits_of 64 z }
{
    z.cast_unsigned()
}
