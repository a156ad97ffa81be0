//! Which commands a stream is read by.

/// Which commands a stream is read by. Either skips every other command.
#[derive(Clone, Copy)]
pub enum Reading {
    /// The commands of the profile.
    Profile,
    /// These, and those that the whole language adds.
    Whole,
}
