//! Bytes of which the first are kept.
ghost use Rattle.std.specs.Prelude.{◌≡◌, ◌∷◌, ◌++◌, [], take};

use arrayvec::ArrayVec;

/// Keeps a byte, as long as there is room.
pub fn keep<const N: usize>(kept: &mut ArrayVec<u8, N>, byte: u8)
    ensures { kept.new.items ≡ take N (kept.old.items ++ byte ∷ []) }
{
    if kept.is_full() {
        return;
    }
    kept.push(byte);
}
