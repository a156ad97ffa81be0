//! How many bytes at the front are data by themselves: codes are looked at sixteen at a time, or 64.
ghost use Rattle.std.specs.Prelude.{◌≡◌, ◌+◌, ◌≤◌, ◌==◌, true, if◌then◌else◌, length, take, drop};
ghost use Rattle.std.specs.Int.{w64, trailing_zeros};
ghost use Rattle.std.specs.List.{prefix_len};
ghost use Rattle.vp_zpl.specs.Spelling.{is_sign, is_line_end};
ghost use Rattle.vp_zpl.specs.Runs.{is_text, is_kept_code};

use std::simd::prelude::*;

/// How many bytes are looked at at once.
const LANES: usize = 16;

/// How many bytes are looked at at once where most are data.
const WIDE: usize = 64;

/// How many bytes at the front are data of ^FD that are themselves.
pub fn text_front(indicator: Option<u8>, input: &[u8]) -> usize
    ensures { result ≡ prefix_len (is_text indicator) input.now }
{
    for i in 0..input.len() {
        let byte = input[i];
        if is_sign(byte) || is_line_end(byte) || Some(byte) == indicator {
            return i;
        }
    }
    input.len()
}

/// How many bytes at the front are data of ^GF A.
pub fn code_front(input: &[u8]) -> usize
    ensures { result ≡ prefix_len is_kept_code input.now }
{
    let mut at = wide_front(input);
    while input.len() - at >= LANES {
        let count = codes_in(input, at);
        if count < LANES {
            return at + count;
        }
        at += LANES;
    }
    for i in at..input.len() {
        let byte = input[i];
        if is_sign(byte) || is_line_end(byte) || byte == b' ' || byte == b'\t' {
            return i;
        }
    }
    input.len()
}

/// How many bytes at the front are data of ^GF A, as far as they can be told `WIDE` at a time.
fn wide_front(input: &[u8]) -> usize
    ensures inside { result ≤ length input.now }
    ensures front { prefix_len is_kept_code input.now
        ≡ result + prefix_len is_kept_code (drop result input.now) }
{
    let mut at = 0;
    while input.len() - at >= WIDE && are_codes(input, at) {
        at += WIDE;
    }
    at
}

/// Whether the next `WIDE` bytes are data of ^GF A. Where a control character is among them it isn't told.
#[inline(always)]
fn are_codes(bytes: &[u8], at: usize) -> bool
    requires { at + WIDE ≤ length bytes.now }
    ensures { result ≡ true → prefix_len is_kept_code (take WIDE (drop at bytes.now)) ≡ WIDE }
{
    let codes = u8x64::from_slice(&bytes[at..]);
    let blanks = codes.simd_le(u8x64::splat(b' '));
    // ^ and ~ differ in one bit
    let signs = (codes | u8x64::splat(0x20)).simd_eq(u8x64::splat(b'~'));
    (blanks | signs).to_bitmask() == 0
}

/// How many of the next sixteen bytes come before the first that is no data of ^GF A.
#[inline(always)]
fn codes_in(bytes: &[u8], at: usize) -> usize
    requires { at + LANES ≤ length bytes.now }
    ensures few { result ≤ LANES }
    ensures count { result ≡ prefix_len is_kept_code (take LANES (drop at bytes.now)) }
{
    let codes = u8x16::from_slice(&bytes[at..]);
    // ^ and ~ differ in one bit
    let signs = (codes & u8x16::splat(0xDF)).simd_eq(u8x16::splat(b'^'));
    let blanks = codes.simd_eq(u8x16::splat(b' ')) | codes.simd_eq(u8x16::splat(b'\t'));
    let ends = codes.simd_eq(u8x16::splat(b'\r')) | codes.simd_eq(u8x16::splat(b'\n'));
    first_set((signs | blanks | ends).to_bitmask())
}

/// The place of the first bit that is set, and 16 where none is.
#[inline(always)]
fn first_set(mask: u64) -> usize
    ensures { result ≡ (if mask == 0 then LANES else trailing_zeros w64 mask) }
{
    if mask == 0 {
        LANES
    } else {
        mask.trailing_zeros() as usize
    }
}

/// ^ and ~
pub fn is_sign(byte: u8) -> bool
    ensures { result ≡ is_sign byte }
{
    byte == b'^' || byte == b'~'
}

/// CR and LF
pub fn is_line_end(byte: u8) -> bool
    ensures { result ≡ is_line_end byte }
{
    byte == b'\r' || byte == b'\n'
}
