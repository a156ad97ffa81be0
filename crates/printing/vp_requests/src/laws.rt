//! What the definitions of `specs/` say of every stream, whichever program reads it.
ghost use Rattle.std.specs.Prelude.{◌≡◌, ◌++◌, ℕ, List};
ghost use Rattle.vp_language.specs.declared.language.Language.{Language};
ghost use Rattle.vp_requests.specs.Requests.{requests, real_time_requests, unit_requests};
ghost use Rattle.vp_requests.specs.Laws.{from_left, units_ask};
ghost use Rattle.vp_esc.specs.Split.{split};
ghost use Rattle.vp_esc.specs.declared.reading.Reading.TheVariants.{Whole};
ghost use Rattle.vp_requests.specs.Standing.{IsFront};

/// What is asked stays asked: more bytes only ask more, behind it.
#[tactic(auto, using(crate::proofs::Lefts::only_more))]
pub fn only_more()
    ensures { (language : Language) (bytes more : List ℕ) →
        IsFront (requests language bytes) (requests language (bytes ++ more)) }
{}

/// The real-time requests are the rows of the table in the bytes, found from the left, none within another
/// one, each with the place where it stands.
#[tactic(auto, using(crate::proofs::Lefts::from_the_left))]
pub fn from_the_left()
    ensures { (bytes : List ℕ) → real_time_requests bytes ≡ from_left 0 0 bytes }
{}

/// A receipt's other requests are those of the units of the whole reading, one behind the other.
#[tactic(auto, using(crate::proofs::EachUnit::each_unit))]
pub fn each_unit()
    ensures { (bytes : List ℕ) → unit_requests bytes ≡ units_ask 0 (split Whole bytes).units }
{}
