//! What the definitions of `specs/` say of all bytes.

ghost use Rattle.std.specs.Prelude.{◌≡◌, ◌≢◌, ◌<◌, ◌++◌, ◌∷◌, [], ℕ, List, None, Some, length, true};
ghost use Rattle.vp_code_tables.specs.declared.country.Country.TheVariants.{Usa};
ghost use Rattle.vp_code_tables.specs.declared.encoding.Encoding.{Encoding};
ghost use Rattle.vp_code_tables.specs.declared.national.NationalSet.{NationalSet};
ghost use Rattle.vp_code_tables.specs.declared.national.NationalSet.TheVariants as sets;
ghost use Rattle.vp_code_tables.specs.declared.national.TheConstants.{EURO_BYTE};
ghost use Rattle.vp_code_tables.specs.declared.table.CodeTable.{CodeTable};
ghost use Rattle.vp_code_tables.specs.Sets.{place_of};
ghost use Rattle.vp_code_tables.specs.Units.{byte_character, units, total};
ghost use Rattle.vp_code_tables.specs.Utf8.{Whole, Begins, part_of, value_of, is_scalar, utf8, utf8_len};
ghost use Rattle.vp_code_tables.specs.Laws.{IsUnit, text, written};
ghost use Rattle.vp_code_tables.specs.Utf16.{utf16};
ghost use Rattle.vp_code_tables.specs.declared.utf16.ByteOrder.{ByteOrder};
ghost use Rattle.vp_code_tables.specs.declared.encoding.Encoding.TheVariants as encodings;
ghost use Rattle.std.specs.List.{list_all};

/// Below 80 every table is ASCII with the set of the United States, and with any other set wherever the byte
/// isn't one of the twelve that sets change, or the Euro sign of labels. In UTF-8 it is ASCII too.
pub fn ascii()
    ensures usa { (table : CodeTable) (byte : ℕ) → byte < 128 →
        byte_character table (sets.Country Usa) byte ≡ Some byte }
    ensures unchanged { (table : CodeTable) (set : NationalSet) (byte : ℕ) → byte < 128 →
        place_of byte ≡ None → byte ≢ EURO_BYTE → byte_character table set byte ≡ Some byte }
    ensures utf8 { (byte : ℕ) (bytes : List ℕ) → byte < 128 → units encodings.Utf8 (byte ∷ bytes)
        ≡ record { character = Some byte; len = 1 } ∷ units encodings.Utf8 bytes }
{}

/// Each byte belongs to one unit.
#[tactic(auto, using(crate::proofs::EachByte::each_byte))]
pub fn each_byte_once()
    ensures { (encoding : Encoding) (bytes : List ℕ) → total (units encoding bytes) ≡ length bytes }
{}

/// What stands at the front of bytes is a unit of UTF-8.
#[tactic(auto, using(crate::proofs::FirstUnit::first_unit))]
pub fn first_unit()
    ensures { (byte : ℕ) (bytes : List ℕ) → IsUnit (byte ∷ bytes) (utf8_len (byte ∷ bytes)) }
{}

/// A scalar value is written as a well-formed sequence, which is read as that value; and what is well-formed
/// is written so.
pub fn well_formed()
    ensures whole { (value : ℕ) → is_scalar value ≡ true → part_of (utf8 value) ≡ Whole }
    ensures value { (value : ℕ) → is_scalar value ≡ true → value_of (utf8 value) ≡ value }
    ensures scalar { (bytes : List ℕ) → part_of bytes ≡ Whole → is_scalar (value_of bytes) ≡ true }
    ensures back { (bytes : List ℕ) → part_of bytes ≡ Whole → utf8 (value_of bytes) ≡ bytes }
{}

/// What begins a sequence is just what more bytes make well-formed.
#[tactic(auto, using(crate::proofs::Completed::front, crate::proofs::Completed::completed))]
pub fn begun_is_completed()
    ensures front { (bytes : List ℕ) (byte : ℕ) (rest : List ℕ) →
        part_of (bytes ++ byte ∷ rest) ≡ Whole → part_of bytes ≡ Begins }
    ensures completed { (bytes : List ℕ) → part_of bytes ≡ Begins →
        (rest : List ℕ) × (part_of (bytes ++ rest) ≡ Whole) }
{}

/// What is written in UTF-8 is read back.
#[tactic(auto, using(crate::proofs::ReadBack::utf8_read_back))]
pub fn utf8_is_read_back()
    ensures { (values : List ℕ) → list_all is_scalar values ≡ true →
        units encodings.Utf8 (text utf8 values) ≡ written utf8 values }
{}

/// And what is written in UTF-16.
#[tactic(auto, using(crate::proofs::ReadBack::utf16_read_back))]
pub fn utf16_is_read_back()
    ensures { (order : ByteOrder) (values : List ℕ) → list_all is_scalar values ≡ true →
        units (encodings.Utf16 order) (text (utf16 order) values) ≡ written (utf16 order) values }
{}
