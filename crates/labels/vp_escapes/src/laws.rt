//! What the definitions say of all data.

ghost use Rattle.std.specs.Prelude.{◌≡◌, ◌≢◌, ◌-◌, ◌≤◌, ℕ, List, [], ◌∷◌, true, false, None, drop};
ghost use Rattle.std.specs.List.{All};
ghost use Rattle.vp_escapes.specs.Escapes.{are_digits, number_of, value_of, is_control, fnc1, by_value, separator, read, is_gs1, unescaped};
ghost use Rattle.vp_escapes.specs.Laws.{escaped};

/// A byte that isn't the sign stands for itself, and so does a sign that begins no escape.
pub fn plain_bytes()
    ensures byte { (sign c : ℕ) (rest : List ℕ) → c ≢ sign → read sign 0 (c ∷ rest) ≡ c ∷ read sign 0 rest }
    ensures end { (sign : ℕ) → read sign 0 (sign ∷ []) ≡ sign ∷ [] }
    ensures other { (sign c : ℕ) (rest : List ℕ) → c ≢ sign → c ≢ fnc1 → c ≢ by_value → is_control c ≡ false
        → read sign 0 (sign ∷ c ∷ rest) ≡ sign ∷ read sign 0 (c ∷ rest) }
    ensures no_value { (sign : ℕ) (rest : List ℕ) → by_value ≢ sign → value_of rest ≡ None
        → read sign 0 (sign ∷ by_value ∷ rest) ≡ sign ∷ read sign 0 (by_value ∷ rest) }
{}

/// What each escape stands for.
pub fn escapes()
    ensures twice { (sign : ℕ) (rest : List ℕ) → read sign 0 (sign ∷ sign ∷ rest) ≡ sign ∷ read sign 0 rest }
    ensures fnc1 { (sign : ℕ) (rest : List ℕ) → fnc1 ≢ sign
        → read sign 0 (sign ∷ fnc1 ∷ rest) ≡ separator ∷ read sign 0 rest }
    ensures control { (sign c : ℕ) (rest : List ℕ) → c ≢ sign → is_control c ≡ true
        → read sign 0 (sign ∷ c ∷ rest) ≡ (c - 64) ∷ read sign 0 rest }
    ensures value { (sign a b c : ℕ) (rest : List ℕ) → by_value ≢ sign → are_digits a b c ≡ true
        → number_of a b c ≤ 255
        → read sign 0 (sign ∷ by_value ∷ a ∷ b ∷ c ∷ rest) ≡ number_of a b c ∷ read sign 0 rest }
{}

/// Data are GS1 element strings where the sign and FNC1 begin them, and stand for what follows these.
pub fn fnc1_at_the_front()
    ensures gs1 { (sign : ℕ) (rest : List ℕ) → fnc1 ≢ sign → is_gs1 sign (sign ∷ fnc1 ∷ rest) ≡ true }
    ensures bytes { (sign : ℕ) (rest : List ℕ) → fnc1 ≢ sign
        → unescaped sign (sign ∷ fnc1 ∷ rest) ≡ read sign 0 rest }
    ensures only { (sign : ℕ) (bytes : List ℕ) → is_gs1 sign bytes ≡ true
        → (fnc1 ≢ sign) × (bytes ≡ sign ∷ fnc1 ∷ drop 2 bytes) }
    ensures no_front { (sign : ℕ) (bytes : List ℕ) → is_gs1 sign bytes ≡ false
        → unescaped sign bytes ≡ read sign 0 bytes }
{}

/// Data without the sign stand for themselves.
pub fn no_sign()
    ensures gs1 { (sign : ℕ) (bytes : List ℕ) → All (λ c. c ≢ sign) bytes → is_gs1 sign bytes ≡ false }
    ensures bytes { (sign : ℕ) (bytes : List ℕ) → All (λ c. c ≢ sign) bytes → unescaped sign bytes ≡ bytes }
{}

/// With each sign doubled, any data can be said: they aren't GS1 element strings, and stand for what they
/// were.
pub fn doubled_signs()
    ensures gs1 { (sign : ℕ) (bytes : List ℕ) → is_gs1 sign (escaped sign bytes) ≡ false }
    ensures bytes { (sign : ℕ) (bytes : List ℕ) → unescaped sign (escaped sign bytes) ≡ bytes }
{}
