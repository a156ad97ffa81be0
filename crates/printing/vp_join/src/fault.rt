//! Why images are not joined.
ghost use Rattle.std.specs.Prelude.{◌≡◌};

/// What is wrong with a text that isn't images of one width.
#[derive(Clone, Copy, Debug, PartialEq, Eq)]
pub enum Offence {
    /// No header of an image: `P4`, LF, the width, a blank, the height and LF, both numbers of 1 to 9
    /// digits that begin with no zero.
    Header,
    /// An image of another width than the first.
    Width,
    /// An image with which the heights add up to more than 999,999,999.
    TooTall,
    /// An image whose rows the end of the text cuts.
    Short,
}

/// Why a call of `join` ended before all was written.
#[derive(Clone, Copy, Debug, PartialEq, Eq)]
pub enum JoinFault {
    /// The first reader's first offence, as `Offence::Header`. Nothing is written.
    Header,
    /// The first reader's first offence, as `Offence::Width`. Nothing is written.
    Width,
    /// The first reader's first offence, as `Offence::TooTall`. Nothing is written.
    TooTall,
    /// The first reader's first offence, as `Offence::Short`. Nothing is written.
    Short,
    /// The joined image is wider than what it is written to takes. Nothing is written.
    TooWide,
    /// The second reader doesn't tell images of the first one's width and of its height in all.
    Differ,
    /// A read failed.
    Read,
    /// A write failed, or took no byte.
    Write,
    /// The readers didn't end within 1,000,000,000 reads.
    TooManyTurns,
}

impl Offence {
    ghost use Rattle.vp_join.specs.Passes.{fault_of};

    /// The answer where the first reader tells a text with this offence.
    pub fn fault(self) -> JoinFault
        ensures { result ≡ fault_of self }
    {
        match self {
            Offence::Header => JoinFault::Header,
            Offence::Width => JoinFault::Width,
            Offence::TooTall => JoinFault::TooTall,
            Offence::Short => JoinFault::Short,
        }
    }
}
