//! What a stream is written in.

/// What a stream is written in, and on which paper it is printed.
#[derive(Clone, Copy, Debug, PartialEq, Eq)]
pub enum Language {
    /// The profile of ESC/POS, on paper of 576 dots.
    Receipt,
    /// The profile of ESC/POS, on paper of 384 dots.
    Receipt58,
    /// The whole language of ESC/POS, on paper of 576 dots.
    WholeReceipt,
    /// The whole language of ESC/POS, on paper of 384 dots.
    WholeReceipt58,
    /// The profile of ZPL II, on labels as wide and as long as they say.
    Label,
    /// The whole language of ZPL II, on such labels.
    WholeLabel,
}
