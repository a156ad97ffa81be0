//! What the definitions say of all texts.

ghost use Rattle.std.specs.Prelude.{◌≡◌, ℕ, ◌+◌, ◌*◌, ◌/◌, ◌%◌, ◌∷◌, [], List, Ok};
ghost use Rattle.vp_packed.specs.Base64.{bytes_of};

/// Four values of six bits are three bytes; three are two, and two are one.
pub fn groups_of_four()
    ensures four { (a b c d : ℕ) (rest : List ℕ) → bytes_of (a ∷ b ∷ c ∷ d ∷ rest)
        ≡ (4 * a + b / 16) ∷ (b % 16 * 16 + c / 4) ∷ (c % 4 * 64 + d) ∷ bytes_of rest }
    ensures three { (a b c : ℕ) → bytes_of (a ∷ b ∷ c ∷ [])
        ≡ (4 * a + b / 16) ∷ (b % 16 * 16 + c / 4) ∷ [] }
    ensures two { (a b : ℕ) → bytes_of (a ∷ b ∷ []) ≡ (4 * a + b / 16) ∷ [] }
{}
