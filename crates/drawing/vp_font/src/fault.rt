//! Why a file is refused.

use thiserror::Error;

/// Which rule a line breaks.
#[derive(Clone, Copy, Debug, PartialEq, Eq, Error)]
pub enum Fault {
    /// The first line doesn't begin with STARTFONT.
    #[error("not STARTFONT")]
    NotBdf,
    /// A number is missing or isn't one, or is out of the range of its line.
    #[error("bad number")]
    Number,
    /// CHARS isn't 0 to 65,535.
    #[error("bad number of letters")]
    Count,
    /// Neither FONTBOUNDINGBOX nor both FONT_ASCENT and FONT_DESCENT stand before CHARS.
    #[error("no heights")]
    Height,
    /// A code doesn't rise above the one before, or is beyond 10FFFF.
    #[error("bad code")]
    Code,
    /// An advance isn't 0 to 2,048 dots.
    #[error("bad advance")]
    Advance,
    /// A box has more than 1,024 dots on a side, or stands more than 1,024 dots from the origin.
    #[error("bad box")]
    Box,
    /// A letter has no ENCODING, DWIDTH or BBX before BITMAP, or no BITMAP.
    #[error("no ENCODING, DWIDTH, BBX or BITMAP")]
    Incomplete,
    /// A row isn't hexadecimal, is too short, or is one too many.
    #[error("bad row")]
    Row,
    /// There are more letters than CHARS says.
    #[error("too many letters")]
    More,
    /// There are fewer letters than CHARS says.
    #[error("too few letters")]
    Fewer,
    /// There is no letter with a code.
    #[error("no letter")]
    NoLetter,
    /// The file ends before ENDFONT.
    #[error("no ENDFONT")]
    Ends,
}
