//! The words that begin lines.

ghost use Rattle.std.specs.Prelude.{◌≡◌};
ghost use Rattle.vp_font.specs.Keywords.{keyword};

/// What a line is about.
#[derive(Clone, Copy)]
pub enum Keyword {
    StartFont,
    BoundingBox,
    Ascent,
    Descent,
    DefaultChar,
    Chars,
    StartChar,
    Encoding,
    Scalable,
    Device,
    Box,
    Bitmap,
    EndChar,
    EndFont,
    /// What is passed.
    Other,
}

/// What a line is about that begins with this word.
#[tactic(auto, unfolding(crate::specs::Keywords::keyword))]
pub fn keyword_of(word: &[u8]) -> Keyword
    ensures { result ≡ keyword word.now }
{
    if word == b"STARTFONT".as_slice() {
        Keyword::StartFont
    } else if word == b"FONTBOUNDINGBOX".as_slice() {
        Keyword::BoundingBox
    } else if word == b"FONT_ASCENT".as_slice() {
        Keyword::Ascent
    } else if word == b"FONT_DESCENT".as_slice() {
        Keyword::Descent
    } else if word == b"DEFAULT_CHAR".as_slice() {
        Keyword::DefaultChar
    } else if word == b"CHARS".as_slice() {
        Keyword::Chars
    } else if word == b"STARTCHAR".as_slice() {
        Keyword::StartChar
    } else if word == b"ENCODING".as_slice() {
        Keyword::Encoding
    } else if word == b"SWIDTH".as_slice() {
        Keyword::Scalable
    } else if word == b"DWIDTH".as_slice() {
        Keyword::Device
    } else if word == b"BBX".as_slice() {
        Keyword::Box
    } else if word == b"BITMAP".as_slice() {
        Keyword::Bitmap
    } else if word == b"ENDCHAR".as_slice() {
        Keyword::EndChar
    } else if word == b"ENDFONT".as_slice() {
        Keyword::EndFont
    } else {
        Keyword::Other
    }
}
