//! Lines behind the place of their item.
ghost use Rattle.std.specs.Prelude.{◌≡◌, ◌≤◌, ◌<◌, ◌+◌, ◌*◌, ◌^◌, ◌%◌, ◌++◌, flat_map, length, take, drop};
ghost use Rattle.arrayvec.specs.ArrayVec.{array_vec_len};
ghost use Rattle.vp_engine.specs.Lines.{byte_lines_after, leading, line_behind, lines_behind};
ghost use Rattle.vp_engine.specs.Offsets.{offset_line};
ghost use Rattle.vp_engine.specs.declared.offset.TheConstants.{MOST_LEADING, LONGEST_BYTE_LINE};
ghost use Rattle.vp_esc.specs.declared.item.EscItem.TheVariants.{RasterByte};
ghost use Rattle.vp_esc.specs.Lines.{line_of};

use crate::lines::byte_line;
use arrayvec::ArrayVec;
use itoa::Buffer;
use std::marker::Model;
use std::simd::u8x8;

/// The most digits of a place but its last.
const MOST_LEADING: usize = 19;

/// The most bytes of the line of a byte of data behind its place.
pub const LONGEST_BYTE_LINE: usize = 29;

/// Adds a line behind its place.
pub fn append_behind(text: &mut ArrayVec<u8, 821>, offset: u64, line: &[u8])
    requires { array_vec_len text.old + length line.now ≤ 800 }
    ensures line { text.new.items ≡ text.old.items ++ offset_line offset line.now }
    ensures room { array_vec_len text.new ≤ array_vec_len text.old + length line.now + 21 }
{
    let _ = text.try_extend_from_slice(Buffer::new().format(offset).as_bytes());
    let _ = text.try_extend_from_slice(b" ");
    let _ = text.try_extend_from_slice(line);
}

/// The digits of a place but its last, which ten places have in common: the first `count` of `digits`.
#[derive(Drop)]
struct Leading {
    tens: u64,
    digits: [u8; MOST_LEADING],
    count: usize,
}

impl Model for Leading {
    ghost use Rattle.std.specs.Prelude.{◌≡◌, ◌≤◌, ℕ, length, take};
    ghost use Rattle.vp_engine.specs.Lines.{leading};

    ghost Value = { ℕ };

    ghost view = { λ l. l.tens };

    ghost invariant = { λ l. record {
      within : l.count ≤ length l.digits;
      digits : take l.count l.digits ≡ leading l.tens;
    } };
}

impl Leading {
    /// The digits but the last of a place of `tens` tens.
    fn of(tens: u64) -> Self
        requires { length (leading tens) ≤ MOST_LEADING }
        ensures { result ≡ tens }
    {
        let mut digits = [b'0'; MOST_LEADING];
        let mut count = 0;
        if tens > 0 {
            let mut buffer = Buffer::new();
            let text = buffer.format(tens).as_bytes();
            count = text.len();
            digits[..count].copy_from_slice(text);
        }
        Leading {
            tens,
            digits,
            count,
        }
    }

    /// Goes to a place of `tens` tens.
    fn go_to(&mut self, tens: u64)
        requires { length (leading tens) ≤ MOST_LEADING }
        ensures { self.new ≡ tens }
    {
        if self.tens > 0 && tens > 0 && self.tens / 10 == tens / 10 {
            self.digits[self.count - 1] = b'0' + (tens % 10) as u8;
            self.tens = tens;
        } else {
            *self = Leading::of(tens);
        }
    }

    /// Writes the lines of bytes of data, each behind its place, where the first place has this last digit
    /// and all have these digits before it, and gives how long they are.
    fn put_lines(&self, last: u8, bytes: &[u8], output: &mut [u8]) -> usize
        requires last { last + length bytes.now ≤ 10 }
        requires room { LONGEST_BYTE_LINE * length bytes.now ≤ length output.old }
        ensures put { result ≡ length (lines_behind (leading self.now) last bytes.now) }
        ensures bytes { output.new ≡
            lines_behind (leading self.now) last bytes.now ++ drop result output.old }
    {
        if self.count <= 8 {
            put_lines_behind(&self.digits[..8], self.count, last, bytes, output)
        } else {
            put_lines_behind(&self.digits, self.count, last, bytes, output)
        }
    }
}

/// Writes the lines of bytes of data behind places that begin with the first n of these digits.
#[inline(always)]
fn put_lines_behind(digits: &[u8], n: usize, last: u8, bytes: &[u8], output: &mut [u8]) -> usize
    requires last { last + length bytes.now ≤ 10 }
    requires n { n ≤ length digits.now }
    requires covered { length digits.now ≤ n + 10 }
    requires most { length digits.now ≤ MOST_LEADING }
    requires room { LONGEST_BYTE_LINE * length bytes.now ≤ length output.old }
    ensures put { result ≡ (n + 10) * length bytes.now }
    ensures bytes { output.new ≡ lines_behind (take n digits.now) last bytes.now ++ drop result output.old }
{
    let long = n + 10;
    for (i, byte) in bytes.iter().enumerate() {
        put_line_behind(digits, n, last + i as u8, *byte, &mut output[long * i..]);
    }
    long * bytes.len()
}

/// Writes eight bytes over those of the output from one on.
// As one number: for bytes it would be asked each time whether the two overlap.
#[inline(always)]
fn write_eight(bytes: &[u8], at: usize, output: &mut [u8])
    requires bytes { length bytes.now ≡ 8 }
    requires room { at + 8 ≤ length output.old }
    ensures { output.new ≡ take at output.old ++ (bytes.now ++ drop 8 (drop at output.old)) }
{
    u8x8::from_slice(bytes).copy_to_slice(&mut output[at..]);
}

/// Writes digits to the front of the output, which mostly are eight.
#[inline(always)]
fn write_digits(digits: &[u8], output: &mut [u8])
    requires { length digits.now ≤ length output.old }
    ensures { output.new ≡ digits.now ++ drop (length digits.now) output.old }
{
    if digits.len() == 8 {
        write_eight(digits, 0, output);
    } else {
        output[..digits.len()].copy_from_slice(digits);
    }
}

/// Writes one of them. All the digits are written, so that their number is known, and the line's rest over
/// those behind the first n.
#[inline(always)]
fn put_line_behind(digits: &[u8], n: usize, last: u8, byte: u8, output: &mut [u8])
    requires last { last < 10 }
    requires n { n ≤ length digits.now }
    requires covered { length digits.now ≤ n + 10 }
    requires room { n + 10 ≤ length output.old }
    ensures { output.new ≡ line_behind (take n digits.now) last byte ++ drop (n + 10) output.old }
{
    write_digits(digits, output);
    output[n] = b'0' + last;
    output[n + 1] = b' ';
    write_eight(byte_line(byte), n + 2, output);
}

/// How many places from this one on have the same digits but the last. After the greatest comes none.
fn alike_from(offset: u64) -> usize
    ensures some { 0 < result }
    ensures last { offset % 10 + result ≤ 10 }
    ensures most { offset + result ≤ 2 ^ 64 }
{
    1 + (9 - offset % 10).min(u64::MAX - offset) as usize
}

/// Writes the lines of bytes of data to the front of the output, each behind its place, where `taken` bytes
/// are taken before them, and gives how long they are.
// Lines without places don't pay for the room of digits, so this stands in no other function.
#[inline(never)]
pub fn put_byte_lines_after(taken: u64, bytes: &[u8], output: &mut [u8]) -> usize
    requires { LONGEST_BYTE_LINE * length bytes.now ≤ length output.old }
    ensures put { result ≡ length (byte_lines_after taken bytes.now) }
    ensures bytes { output.new ≡ byte_lines_after taken bytes.now ++ drop result output.old }
{
    let mut leading = Leading::of(taken / 10);
    let mut at = 0;
    let mut put = 0;
    while at < bytes.len() {
        let offset = taken.saturating_add(at as u64 + 1);
        let n = alike_from(offset).min(bytes.len() - at);
        leading.go_to(offset / 10);
        put += leading.put_lines((offset % 10) as u8, &bytes[at..at + n], &mut output[put..]);
        at += n;
    }
    put
}
