//! Which commands a stream is read by.

/// Which commands a stream is read by.
#[derive(Clone, Copy)]
pub enum Reading {
    /// The commands of the profile. At any other the stream ends with a fault.
    Profile,
    /// All commands. What none of them is is read past: a lead and the byte behind it, or a lead, a byte and
    /// a first argument that the command doesn't have. No stream ends with a fault.
    Whole,
}
