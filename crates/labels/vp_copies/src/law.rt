//! The laws of the text of copies.
ghost use Rattle.std.specs.Prelude.{◌≡◌, ℕ, ◌+◌, ◌-◌, ◌*◌, ◌%◌, ◌++◌, ◌<◌, ◌≤◌, ◌↔◌, length};
ghost use Rattle.vp_dots.specs.Images.{Image, pbm};
ghost use Rattle.vp_copies.specs.Copies.{bytes_above, copies_text, pending, Place};
ghost use Rattle.vp_copies.specs.Progress.{IsPlaceOf};

/// A law: the text of copies is that of one image as often, and copies put out one after the other are all of
/// them.
pub fn copies_law()
    ensures one { (i : Image) → copies_text i 1 ≡ pbm i }
    ensures count { (i : Image) (copies : ℕ) → length (copies_text i copies) ≡ copies * length (pbm i) }
    ensures more { (i : Image) (first others : ℕ) →
        copies_text i (first + others) ≡ copies_text i first ++ copies_text i others }
{}

/// A law: bytes are left while copies are.
pub fn pending_law()
    ensures { (i : Image) (p : Place) → 0 < i.height → IsPlaceOf i.width i.height p →
        (0 < p.copies) ↔ (0 < length (pending i p)) }
{}

/// A law: how far a copy is put out follows from how many bytes of `copies` copies are left.
pub fn place_law()
    ensures { (i : Image) (p : Place) (copies : ℕ) → 0 < i.height → IsPlaceOf i.width i.height p →
        0 < p.copies →
        length (pending i p) ≤ length (copies_text i copies) →
        (length (copies_text i copies) - length (pending i p)) % length (pbm i)
        ≡ bytes_above i.width i.height p.line + p.byte }
{}
