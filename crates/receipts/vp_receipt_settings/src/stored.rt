//! The bytes that are stored for a QR symbol.
ghost use Rattle.std.specs.Prelude.{◌≡◌, ◌+◌, ◌≤◌, ◌∷◌, ◌++◌, [], List, ℕ, length};
ghost use Rattle.vp_esc.specs.declared.item.EscItem.{EscItem};
ghost use Rattle.vp_receipt_settings.specs.Runs.{stored_after};
ghost use Rattle.vp_receipt_settings.specs.Symbols.{qr_data, IsStored};

use arrayvec::ArrayVec;

/// The most bytes that are stored: those that the largest symbol holds.
pub const STORED_BYTES: usize = 652;

/// The bytes that are stored for a QR symbol.
#[derive(Drop)]
pub struct Stored {
    pub bytes: ArrayVec<u8, STORED_BYTES>,
    /// Whether there were more.
    pub more: bool,
}

/// Appends bytes that there is room for.
fn append(kept: &mut ArrayVec<u8, STORED_BYTES>, bytes: &[u8])
    requires { length kept.old.items + length bytes.now ≤ STORED_BYTES }
    ensures { kept.new.items ≡ kept.old.items ++ bytes.now }
{
    let _fits = kept.try_extend_from_slice(bytes);
}

impl Stored {
    /// None.
    pub fn none() -> Stored
        ensures { IsStored result [] }
    {
        Stored {
            bytes: ArrayVec::new(),
            more: false,
        }
    }

    /// Stores a byte, or marks that there is one more.
    pub(crate) fn push(&mut self, byte: u8)
        ensures { (bytes : List ℕ) → IsStored self.old bytes →
            IsStored self.new (bytes ++ byte ∷ []) }
    {
        if self.bytes.len() < STORED_BYTES {
            self.bytes.push(byte);
            return;
        }
        self.more = true;
    }

    /// Stores bytes as far as there is room, or marks that there are more.
    pub fn take_all(&mut self, bytes: &[u8])
        ensures { (before : List EscItem) → IsStored self.old (qr_data before) →
            IsStored self.new (qr_data (stored_after bytes.now before)) }
    {
        let n = self.bytes.remaining_capacity().min(bytes.len());
        append(&mut self.bytes, &bytes[..n]);
        if n == bytes.len() {
            return;
        }
        self.more = true;
    }

    /// Gives up what is stored.
    pub(crate) fn clear(&mut self)
        ensures { IsStored self.new [] }
    {
        self.bytes.clear();
        self.more = false;
    }
}
