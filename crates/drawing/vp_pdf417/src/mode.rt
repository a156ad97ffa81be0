//! Which compaction bytes are in.

ghost use Rattle.std.specs.Prelude.{◌≡◌, ◌<◌, ◌≤◌, length, take};
ghost use Rattle.std.specs.List.{list_all};
ghost use Rattle.vp_pdf417.specs.Messages.{is_digit, is_text, begins_numeric, mode_at, is_byte_mode, goes_on, front};

/// A compaction.
#[derive(Clone, Copy)]
pub enum Mode {
    Text,
    Bytes,
    Numeric,
}

/// A digit.
fn is_digit(byte: u8) -> bool
    ensures { result ≡ is_digit byte }
{
    byte.is_ascii_digit()
}

/// A character of text compaction.
fn is_text(byte: u8) -> bool
    ensures { result ≡ is_text byte }
{
    matches!(byte, b'\t' | b'\n' | b'\r' | 32..=126)
}

/// Digits alone.
fn are_digits(src: &[u8]) -> bool
    ensures { result ≡ list_all is_digit src.now }
{
    src.iter().all(|byte| is_digit(*byte))
}

/// Characters of text compaction alone.
fn are_text(src: &[u8]) -> bool
    ensures { result ≡ list_all is_text src.now }
{
    src.iter().all(|byte| is_text(*byte))
}

/// Whether bytes begin with 13 digits.
fn begins_numeric(src: &[u8]) -> bool
    ensures { result ≡ begins_numeric src.now }
{
    src.len() >= 13 && are_digits(&src[..13])
}

/// Whether the first five bytes, or all where there are fewer, are characters of text compaction.
fn begins_text(src: &[u8]) -> bool
    ensures { result ≡ list_all is_text (take 5 src.now) }
{
    if src.len() < 5 {
        are_text(src)
    } else {
        are_text(&src[..5])
    }
}

impl Mode {
    /// The compaction in which bytes begin.
    #[tactic(auto, unfolding(crate::specs::Messages::mode_at))]
    pub fn at(src: &[u8]) -> Mode
        ensures { result ≡ mode_at src.now }
    {
        if begins_numeric(src) {
            return Mode::Numeric;
        }
        if begins_text(src) {
            return Mode::Text;
        }
        Mode::Bytes
    }

    /// Whether it goes on at these bytes.
    #[tactic(auto, unfolding(crate::specs::Messages::goes_on))]
    fn goes_on(self, src: &[u8]) -> bool
        requires { 0 < length src.now }
        ensures { result ≡ goes_on self src.now }
    {
        match self {
            Mode::Numeric => is_digit(src[0]),
            Mode::Text => is_text(src[0]) && !begins_numeric(src),
            Mode::Bytes => matches!(Mode::at(src), Mode::Bytes),
        }
    }

    /// For how many bytes it goes on.
    pub fn front(self, src: &[u8]) -> usize
        ensures front { result ≡ front self src.now }
        ensures within { result ≤ length src.now }
    {
        let mut count = 0;
        let mut left = src;
        while !left.is_empty() && self.goes_on(left) {
            count += 1;
            left = &left[1..];
        }
        count
    }
}
