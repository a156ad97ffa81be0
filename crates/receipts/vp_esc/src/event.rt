//! What a byte gives.

/// What a byte gives; the item is the one that the reader keeps.
#[derive(Clone, Copy)]
pub enum Event {
    Nothing,
    Given,
}
