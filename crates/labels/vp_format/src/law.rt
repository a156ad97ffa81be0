//! Laws of codes.
ghost use Rattle.std.specs.Prelude.{◌≡◌, ◌≢◌, ℕ, ◌+◌, ◌*◌, ◌/◌, ◌%◌, ◌<◌, ◌≤◌, max, List, [], ◌∷◌, ◌++◌, false, slice_index};
ghost use Rattle.vp_format.specs.declared.codes.Code.TheVariants.{Digit, Fill, Above, Other};
ghost use Rattle.vp_format.specs.declared.rows.Coding.TheVariants.{RunLength, Binary};
ghost use Rattle.vp_format.specs.Codes.{code_of, symbols};
ghost use Rattle.vp_format.specs.Pictures.{Picture, Shown, Value, AsAbove, Unreadable, shown_at, width_of, value, is_refused, nibble};
ghost use Rattle.vp_format.specs.Reads.{AreDigits, AreCounts, goes_on, ReadTo};

/// A law: digits alone are the places of the rows, one after the other, and where they end the picture is
/// white.
pub fn digits_law()
    ensures value { (p : Picture) (values : List ℕ) (y x : ℕ) → p.coding ≡ RunLength →
        AreDigits p.codes values → value p y x ≡ slice_index values (width_of p * y + x) }
    ensures taken { (p : Picture) (values : List ℕ) (y : ℕ) → p.coding ≡ RunLength →
        AreDigits p.codes values → is_refused p y ≡ false }
{}

/// A law: bytes as they are are the rows' bytes, one after the other, and where
/// they end the picture is white.
pub fn binary_law()
    ensures value { (p : Picture) (y x : ℕ) → p.coding ≡ Binary →
        value p y x ≡ nibble p.codes (width_of p * y + x) }
    ensures taken { (p : Picture) (y : ℕ) → p.coding ≡ Binary → is_refused p y ≡ false }
{}

/// A law: what the codes behind accepted ones show, whatever comes after, and where they are refused.
pub fn codes_law()
    ensures run { (width place n b v j : ℕ) (front counts back : List ℕ) → 0 < width →
        ReadTo width front place → AreCounts counts n → code_of b ≡ Digit v → place ≤ j → j < place + max n 1
        → shown_at width 0 (symbols RunLength (front ++ (counts ++ b ∷ back))) j ≡ Value v }
    ensures row { (width place b v j : ℕ) (front back : List ℕ) → 0 < width → ReadTo width front place →
        code_of b ≡ Fill v → place ≤ j → j < (place / width + 1) * width
        → shown_at width 0 (symbols RunLength (front ++ b ∷ back)) j ≡ Value v }
    ensures again { (width place b j : ℕ) (front back : List ℕ) → 0 < width → ReadTo width front place →
        code_of b ≡ Above → place % width ≡ 0 → place ≤ j → j < (place / width + 1) * width
        → shown_at width 0 (symbols RunLength (front ++ b ∷ back)) j ≡ AsAbove }
    ensures end { (width place j : ℕ) (front : List ℕ) → 0 < width → ReadTo width front place → place ≤ j →
        shown_at width 0 (symbols RunLength front) j ≡ Value 0 }
    ensures inside { (width place b : ℕ) (front back : List ℕ) →
        0 < width → ReadTo width front place → code_of b ≡ Above → place % width ≢ 0 →
        shown_at width 0 (symbols RunLength (front ++ b ∷ back)) place ≡ Unreadable }
    ensures other { (width place b : ℕ) (front back : List ℕ) → 0 < width → ReadTo width front place →
        code_of b ≡ Other → shown_at width 0 (symbols RunLength (front ++ b ∷ back)) place ≡ Unreadable }
    ensures counted { (width place n b : ℕ) (front counts back : List ℕ) → 0 < width →
        ReadTo width front place → AreCounts counts n → 0 < n → goes_on (code_of b) ≡ false
        → shown_at width 0 (symbols RunLength (front ++ (counts ++ b ∷ back))) place ≡ Unreadable }
    ensures cut { (width place n : ℕ) (front counts : List ℕ) → 0 < width → ReadTo width front place →
        AreCounts counts n → 0 < n →
        shown_at width 0 (symbols RunLength (front ++ counts)) place ≡ Unreadable }
{}
