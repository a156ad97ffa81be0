//! The check that stands behind a text.

ghost use Rattle.std.specs.Prelude.{◌≡◌, ◌<◌, IfSome};
ghost use Rattle.vp_packed.specs.Check.{crc_bit, crc_bits, crc_behind, crc, hex_of, check_of};

/// A bit further.
#[tactic(auto, unfolding(crate::specs::Check::crc_bit))]
fn bit_on(c: u16) -> u16
    ensures { result ≡ crc_bit c }
{
    (u32::from(c) * 2 % 65536) as u16 ^ (c / 32768 * 0x1021)
}

/// A byte further.
#[tactic(auto, unfolding(crate::specs::Check::crc_bits))]
fn byte_on(c: u16) -> u16
    ensures { result ≡ crc_bits 8 c }
{
    let c = bit_on(bit_on(bit_on(bit_on(c))));
    bit_on(bit_on(bit_on(bit_on(c))))
}

/// The check of signs.
pub fn crc(signs: &[u8]) -> u16
    ensures { result ≡ crc signs.now }
{
    let mut c = 0;
    for sign in signs {
        c = byte_on(c ^ u16::from(*sign) * 256);
    }
    c
}

/// A hex digit's value.
#[tactic(auto, unfolding(crate::specs::Check::hex_of))]
fn hex(digit: u8) -> Option<u16>
    ensures value { result ≡ hex_of digit }
    ensures small { IfSome result (λ v. v < 16) }
{
    match digit {
        b'0'..=b'9' => Some(u16::from(digit - b'0')),
        b'A'..=b'F' => Some(u16::from(digit - b'A' + 10)),
        b'a'..=b'f' => Some(u16::from(digit - b'a' + 10)),
        _ => None,
    }
}

/// The number of the four hex digits at the front.
pub fn said(text: &[u8]) -> Option<u16>
    ensures { result ≡ check_of text.now }
{
    let [a, b, c, d, ..] = text else {
        return None;
    };
    let high = 16 * hex(*a)? + hex(*b)?;
    let low = 16 * hex(*c)? + hex(*d)?;
    Some(256 * high + low)
}
