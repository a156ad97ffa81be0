//! The header of a sheet: raw PBM's, with white bytes and comments between its parts.
ghost use Rattle.std.specs.Prelude.{◌≡◌, ℕ, List, ◌-◌, ◌^◌, ◌≤◌, min, IsTrue, EachIndex, MatchOption, Some, None, length, take, slice_index};
ghost use Rattle.std.specs.List.{prefix_len};
ghost use Rattle.std.specs.Str.Parse.{digits_value};
ghost use Rattle.vp_glyph.specs.Grammar.{IsHeader};
ghost use Rattle.vp_glyph.specs.Headers.{white, ends_line, digit, begins_gap, past_gap, number_behind, behind_white, header_behind};

/// What a header tells, and the bytes behind it.
#[derive(Clone, Copy)]
pub struct Header<'a> {
    pub width: u32,
    pub height: u32,
    pub raster: &'a [u8],
}

/// A blank, TAB, CR or LF.
fn is_white(b: u8) -> bool
    ensures { result ≡ white b }
{
    matches!(b, b' ' | b'\t' | b'\r' | b'\n')
}

/// The bytes behind the white bytes and comments at the front.
fn past_gap(text: &[u8]) -> &[u8]
    ensures { result.now ≡ past_gap text.now }
{
    let mut in_comment = false;
    for i in 0..text.len() {
        let b = text[i];
        if in_comment {
            in_comment = b != b'\r' && b != b'\n';
        } else if b == b'#' {
            in_comment = true;
        } else if !is_white(b) {
            return &text[i..];
        }
    }
    &[]
}

/// Whether a gap begins here.
fn begins_gap(text: &[u8]) -> bool
    ensures { result ≡ begins_gap text.now }
{
    match text {
        [b, ..] => is_white(*b) || *b == b'#',
        [] => false,
    }
}

/// How many digits stand at the front.
fn digits(text: &[u8]) -> usize
    ensures { result ≡ prefix_len digit text.now }
{
    text.iter()
        .take_while(|b| **b >= b'0' && **b <= b'9')
        .count()
}

/// The number that digits write, or the greatest u32 if that is less.
fn value(digits: &[u8]) -> u32
    requires { EachIndex digits.now (λ k. IsTrue (digit (slice_index digits.now k))) }
    ensures { result ≡ min (digits_value 10 digits.now) (2 ^ 32 - 1) }
{
    let mut value = 0u32;
    for d in digits {
        value = value
            .saturating_mul(10)
            .saturating_add(u32::from(*d - b'0'));
    }
    value
}

/// The number behind a gap, and what stands behind it.
fn number_behind(text: &[u8]) -> Option<(u32, &[u8])>
    ensures { MatchOption result (number_behind text.now ≡ None) (λ r. (n : ℕ)
        × (number_behind text.now ≡ Some (record { value = n; rest = r.1.now }))
        × (r.0 ≡ min n (2 ^ 32 - 1))) }
{
    if !begins_gap(text) {
        return None;
    }
    let rest = past_gap(text);
    let n = digits(rest);
    if n == 0 {
        return None;
    }
    Some((value(&rest[..n]), &rest[n..]))
}

/// What a header behind its magic tells. A number above the greatest u32 is told as that.
pub fn header_behind(text: &[u8]) -> Option<Header<'_>>
    ensures { MatchOption result (header_behind text.now ≡ None) (λ r. (w h : ℕ)
        × (header_behind text.now ≡ Some (record { width = w; height = h; raster = r.raster.now }))
        × (r.width ≡ min w (2 ^ 32 - 1)) × (r.height ≡ min h (2 ^ 32 - 1))) }
{
    let (width, text) = number_behind(text)?;
    let (height, text) = number_behind(text)?;
    match text {
        [b, raster @ ..] if is_white(*b) => Some(Header {
            width,
            height,
            raster,
        }),
        _ => None,
    }
}

/// A law: a text of the form of a header is read as that header, and what is read as a header has its form.
pub fn header_law()
    ensures read { (text : List ℕ) (width height : ℕ) (raster : List ℕ) → IsHeader text width height raster
        → header_behind text ≡ Some (record { width = width; height = height; raster = raster }) }
    ensures only { (text : List ℕ) (width height : ℕ) (raster : List ℕ)
        → header_behind text ≡ Some (record { width = width; height = height; raster = raster })
        → IsHeader text width height raster }
{}
