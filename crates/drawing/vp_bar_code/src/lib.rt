//! The bar codes that a command may ask for, and where their text stands.
//!
//! Who reads commands and who draws symbols know no more of each other than this.
#![tactic(auto)]

/// A linear bar code, and how its data are read.
#[derive(Clone, Copy, Debug, PartialEq, Eq)]
pub enum BarCode {
    /// Code 39 (ISO/IEC 16388), with its check character or without.
    Code39 { check: bool },
    /// EAN-13 (ISO/IEC 15420), of 12 or 13 digits, or padded to 12 with zeros on the left.
    Ean13 { padded: bool },
    /// Code 128 (ISO/IEC 15417).
    Code128 { data: Code128Data },
    /// Interleaved 2 of 5 (ISO/IEC 16390), with its check digit or without.
    Interleaved { check: bool },
    /// Codabar (EN 798), with its start and its stop.
    Codabar { ends: CodabarEnds },
    /// Code 11, with so many check characters.
    Code11 { checks: Code11Checks },
    /// EAN-8 (ISO/IEC 15420), of 7 or 8 digits, or padded to 7 with zeros on the left.
    Ean8 { padded: bool },
    /// UPC-A (ISO/IEC 15420), of 11 or 12 digits, or padded to 11 with zeros on the left.
    UpcA { padded: bool },
    /// UPC-E (ISO/IEC 15420), of number system 0.
    UpcE { data: UpcEData },
    /// An add-on (ISO/IEC 15420), of 2 or 5 digits, or padded to these with zeros on the left.
    AddOn { padded: bool },
    /// Code 93 (AIM BC5), with its two check characters.
    Code93 { data: Code93Data },
    /// MSI, with these check digits.
    Msi { checks: MsiChecks },
}

/// The check characters of Code 11.
#[derive(Clone, Copy, Debug, PartialEq, Eq)]
pub enum Code11Checks {
    /// C alone.
    One,
    /// C, and K behind it.
    Two,
}

/// The check digits of MSI.
#[derive(Clone, Copy, Debug, PartialEq, Eq)]
pub enum MsiChecks {
    /// There is none.
    None,
    /// One, modulo 10.
    Mod10,
    /// One modulo 10, and one behind it of the digits with it.
    Mod10Twice,
    /// One modulo 11 by the weights 2 to 7, and one modulo 10 behind it of the digits with it.
    Mod11Mod10,
}

/// Where the start and the stop of Codabar come from.
#[derive(Clone, Copy, Debug, PartialEq, Eq)]
pub enum CodabarEnds {
    /// They are the first and the last of the data, capitals or small letters, as in GS k.
    Data,
    /// These are put around the data, unless the data have their own, as in ^BK.
    Around { start: CodabarEnd, stop: CodabarEnd },
}

/// A character that starts or stops a symbol of Codabar.
#[derive(Clone, Copy, Debug, PartialEq, Eq)]
pub enum CodabarEnd {
    A,
    B,
    C,
    D,
}

/// Which numbers the data of UPC-E are.
#[derive(Clone, Copy, Debug, PartialEq, Eq)]
pub enum UpcEData {
    /// The six digits, also behind the 0 of their number system and before a check digit, or a UPC-A that has
    /// a short form, as in GS k.
    Digits,
    /// These, or the five digits of a maker and the five of an article, as in ^B9.
    MakerArticle,
}

/// What the bytes of data of Code 93 stand for.
#[derive(Clone, Copy, Debug, PartialEq, Eq)]
pub enum Code93Data {
    /// For the characters themselves, and `&`, `'`, `(`, `)` for the four shifts, as in ^BA.
    Signs,
    /// For the characters of ASCII, of which most are a shift and a letter, as in GS k.
    Ascii,
}

/// How data name the code sets of Code 128.
#[derive(Clone, Copy, Debug, PartialEq, Eq)]
pub enum Code128Data {
    /// By `{` and a letter, as in GS k.
    Escapes,
    /// By `>` and a byte, as in ^BC.
    Invocations,
    /// They don't: runs of digits are packed, as in ^BC's mode A.
    Packed,
}

/// Where the text of a symbol stands (HRI, human-readable interpretation).
#[derive(Clone, Copy, Debug, PartialEq, Eq)]
pub enum HriPosition {
    /// There is no text.
    None,
    Above,
    Below,
    /// Above and below.
    Both,
}
