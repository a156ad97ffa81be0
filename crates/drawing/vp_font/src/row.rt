//! Rows in hexadecimal digits.

ghost use Rattle.std.specs.Prelude.{◌≡◌, ◌+◌, ◌*◌, ◌≤◌, ◌++◌, ◌<◌, true, length, vec_capacity};
ghost use Rattle.std.specs.List.{prefix_len};
ghost use Rattle.vp_font.specs.Rows.{hex_digit, nibble, row_bytes, is_row, row_of};

use std::alloc::Allocator;

/// Whether a byte is a hexadecimal digit.
fn is_hex(b: u8) -> bool
    ensures { result ≡ hex_digit b }
{
    matches!(b, b'0'..=b'9' | b'A'..=b'F' | b'a'..=b'f')
}

/// What a hexadecimal digit counts.
fn nibble(b: u8) -> u8
    requires { hex_digit b ≡ true }
    ensures value { result ≡ nibble b }
    ensures small { result < 16 }
{
    match b {
        b'0'..=b'9' => b - b'0',
        b'A'..=b'F' => b - b'A' + 10,
        _ => b - b'a' + 10,
    }
}

/// How many bytes a row of so many dots has.
pub fn row_bytes(width: u32) -> u32
    ensures { result ≡ row_bytes width }
{
    width / 8 + u32::from(width % 8 > 0)
}

/// How many hexadecimal digits stand at the front.
fn count_hex(text: &[u8]) -> usize
    ensures { result ≡ prefix_len hex_digit text.now }
{
    text.iter().take_while(|b| is_hex(**b)).count()
}

/// Whether a line begins with the digits of so many bytes.
#[tactic(auto, unfolding(crate::specs::Rows::is_row))]
pub fn is_row(line: &[u8], bytes: u32) -> bool
    ensures { result ≡ is_row bytes line.now }
{
    2 * bytes as usize <= count_hex(line)
}

/// Appends the bytes that a row tells, in room that there is.
pub fn push_row<A: Allocator>(raster: &mut Vec<u8, A>, line: &[u8], bytes: u32)
    requires row { is_row bytes line.now ≡ true }
    requires room { length raster.old.items + bytes ≤ vec_capacity raster.old }
    ensures items { raster.new.items ≡ raster.old.items ++ row_of bytes line.now }
    ensures room { vec_capacity raster.new ≡ vec_capacity raster.old }
{
    for i in 0..bytes as usize {
        raster.push_reserved(16 * nibble(line[2 * i]) + nibble(line[2 * i + 1]));
    }
}
