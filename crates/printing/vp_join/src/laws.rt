//! Laws of images one after the other.
ghost use Rattle.std.specs.Prelude.{◌≡◌, ◌≤◌, ℕ, List, flat_map, Option, Some, None, Err};
ghost use Rattle.vp_dots.specs.Images.{Image, pbm};
ghost use Rattle.vp_join.specs.Strips.{IsNumber, IsJoined, IsOffence, IsDecided, AreImages, height_together, greatest};
ghost use Rattle.vp_join.specs.Told.{told};
ghost use Rattle.vp_join.specs.Passes.{IsExact, IsOfCalls};
ghost use Rattle.vp_join.specs.declared.fault.JoinFault.{JoinFault};
ghost use Rattle.vp_join.specs.declared.fault.Offence.{Offence};

/// Every text is images of one width, within the greatest height, or has one first offence; and never both.
pub fn each_text_is_decided()
    ensures one { (text : List ℕ) → IsDecided text }
    ensures images { (text : List ℕ) (image : Image) (offence : Offence) →
        IsJoined text image → IsOffence text offence → ⊥ }
    ensures offence { (text : List ℕ) (one other : Offence) →
        IsOffence text one → IsOffence text other → one ≡ other }
    ensures image { (text : List ℕ) (one other : Image) →
        IsJoined text one → IsJoined text other → pbm one ≡ pbm other }
{}

/// Images of one width, within the greatest height, are never refused: where both readers tell them, only a
/// call that fails, or too many of them, ends a call of `join` early.
pub fn images_are_not_refused()
    ensures { (text : List ℕ) (image : Image) (held holds : Option (List ℕ)) (fault : JoinFault) →
        IsJoined text image → IsExact text held holds (Err fault) → IsOfCalls fault }
{}

/// Images of one width, one after the other, make one image, as wide as each and as high as all of them
/// together, where that is within the greatest height.
pub fn images_make_one()
    ensures { (width : ℕ) (images : List Image) → IsNumber width → AreImages width images →
        height_together images ≤ greatest → (image : Image) × IsJoined (flat_map pbm images) image
        × (image.width ≡ width) × (image.height ≡ height_together images) }
{}

/// Joining what was joined changes nothing.
pub fn joined_twice()
    ensures { (text : List ℕ) (image : Image) → IsJoined text image → IsJoined (pbm image) image }
{}

/// What a text tells byte by byte is what it is.
pub fn told_agrees()
    ensures joined { (text : List ℕ) (image : Image) → IsJoined text image → (told text).offence ≡ None }
    ensures images { (text : List ℕ) → (told text).offence ≡ None → (image : Image) × IsJoined text image }
    ensures refused { (text : List ℕ) (offence : Offence) →
        IsOffence text offence → (told text).offence ≡ Some offence }
    ensures offence { (text : List ℕ) (offence : Offence) →
        (told text).offence ≡ Some offence → IsOffence text offence }
{}
