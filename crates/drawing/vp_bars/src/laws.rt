//! What holds of the tables of patterns as a whole: no symbol is mistaken for another for want of a
//! difference. What the texts of symbols are, and how many bytes have one.

ghost use Rattle.std.specs.Prelude.{◌≡◌, ℕ, ◌+◌, ◌-◌, ◌*◌, ◌<◌, Bool, true, false, ◌==◌, length, replicate, List, [], ◌∷◌, ◌++◌, map, Ok, Err, Some, IsTrue, take, drop, slice_index};
ghost use Rattle.vp_bars.specs.declared.bars.TheConstants.{DATA_BYTES};
ghost use Rattle.vp_bars.specs.Symbols.{Linear};
ghost use Rattle.vp_bars.specs.Code39.{alphabet, values_of, code39_check, unstarred, code39_of};
ghost use Rattle.vp_bars.specs.Ean13.{ean13_check as check_digit_of, digits_of, ean13_of};
ghost use Rattle.vp_bars.specs.Escapes.{brace, code128_esc_of};
ghost use Rattle.vp_bars.specs.Invocations.{greater};
ghost use Rattle.vp_bars.specs.Packing.{code128_zpl_of};
ghost use Rattle.vp_dots.specs.declared.fault.Fault.TheVariants as faults;
ghost use Rattle.vp_dots.specs.declared.fault.Why.TheVariants.{Empty};
ghost use Rattle.vp_bar_code.specs.declared.BarCode.{BarCode};
ghost use Rattle.vp_bars.specs.Symbologies.{symbol_of, text_of};
ghost use Rattle.std.specs.List.{list_all, list_any};
ghost use Rattle.vp_bars.specs.Patterns.{code39_table, code128_table};
ghost use Rattle.vp_bars.specs.Laws.{distinct, three_of_nine, wide_of, codabar_elements, code11_elements, nine_modules, eleven_modules, thirteen_modules, digit_patterns, seven_modules, printed, filled, has_article, is_letter, end_letter};
ghost use Rattle.vp_bars.specs.Interleaved.{two_of_five, pairs_table};
ghost use Rattle.vp_bar_code.specs.declared.CodabarEnd.{CodabarEnd};
ghost use Rattle.vp_bar_code.specs.declared.CodabarEnds.TheVariants.{Data, Around};
ghost use Rattle.vp_bar_code.specs.declared.Code93Data.TheVariants.{Signs, Ascii};
ghost use Rattle.vp_bars.specs.Codabar.{codabar_table, capital, codabar_of};
ghost use Rattle.vp_bars.specs.Code11.{code11_table, code11_end};
ghost use Rattle.vp_bars.specs.Msi.{msi_table};
ghost use Rattle.vp_bars.specs.Code93.{code93_table, code93_start, code93_of};
ghost use Rattle.std.specs.Option.{is_some};
ghost use Rattle.vp_bar_code.specs.declared.UpcEData.TheVariants.{Digits};
ghost use Rattle.vp_bars.specs.Upc.{is_count};
ghost use Rattle.vp_bars.specs.Ean8.{ean8_of};
ghost use Rattle.vp_bars.specs.UpcA.{upca_of};
ghost use Rattle.vp_bars.specs.UpcE.{long_form, short_form, upce_table, upce_of};
ghost use Rattle.vp_bars.specs.AddOn.{two_sets, five_sets, add_on_count, add_on_of};

/// A law: each character of Code 39 has three wide elements of nine, and no two are alike.
pub fn code39_patterns_law()
    ensures elements { IsTrue (list_all three_of_nine code39_table) }
    ensures apart { IsTrue (distinct code39_table) }
{}

/// A law: each digit of EAN-13 has seven modules in each number set, and no two of the thirty patterns are
/// alike.
pub fn ean13_patterns_law()
    ensures modules { IsTrue (list_all seven_modules digit_patterns) }
    ensures apart { IsTrue (distinct digit_patterns) }
{}

/// A law: each character of Code 128 has eleven modules, the stop thirteen, and no two are alike.
pub fn code128_patterns_law()
    ensures modules { IsTrue (list_all eleven_modules (take 106 code128_table)) }
    ensures stop { IsTrue (list_all thirteen_modules (drop 106 code128_table)) }
    ensures apart { IsTrue (distinct code128_table) }
{}

/// A law: two of the five elements of each digit of Interleaved 2 of 5 are wide, no two digits are alike, and
/// no two of the hundred pairs.
pub fn interleaved_patterns_law()
    ensures elements { IsTrue (list_all (wide_of 2 5) two_of_five) }
    ensures digits_apart { IsTrue (distinct two_of_five) }
    ensures pairs_apart { IsTrue (distinct pairs_table) }
{}

/// A law: each character of Codabar has two or three wide elements of seven, each of Code 11 one or two of
/// five, as start and stop have, and each digit of MSI four of eight; no two of one kind are alike.
pub fn wide_patterns_law()
    ensures codabar { IsTrue (list_all codabar_elements codabar_table) }
    ensures codabar_apart { IsTrue (distinct codabar_table) }
    ensures code11 { IsTrue (list_all code11_elements (code11_end ∷ code11_table)) }
    ensures code11_apart { IsTrue (distinct (code11_end ∷ code11_table)) }
    ensures msi { IsTrue (list_all (wide_of 4 8) msi_table) }
    ensures msi_apart { IsTrue (distinct msi_table) }
{}

/// A law: each character of Code 93 has nine modules, as its start has, and no two are alike.
pub fn code93_patterns_law()
    ensures modules { IsTrue (list_all nine_modules (code93_start ∷ code93_table)) }
    ensures apart { IsTrue (distinct (code93_start ∷ code93_table)) }
{}

/// A law: no two check digits have the same sets in UPC-E; three digits are of set A and three of B. Nor have
/// two remainders the same in an add-on, of five digits two in B.
pub fn upc_sets_law()
    ensures halves { IsTrue (list_all (wide_of 3 6) upce_table) }
    ensures apart { IsTrue (distinct upce_table) }
    ensures two_apart { IsTrue (distinct two_sets) }
    ensures five { IsTrue (list_all (wide_of 2 5) five_sets) }
    ensures five_apart { IsTrue (distinct five_sets) }
{}

/// A law: the text of a Codabar symbol is its data in capitals, with start and stop, also where these are put
/// around data without letters, and that of Code 93 its data, without the check characters; of ASCII a blank
/// stands for a control character.
pub fn signs_text_law()
    ensures codabar { (src : List ℕ) (bars : Linear) → codabar_of src Data ≡ Ok bars
        → text_of bars ≡ map capital src }
    ensures around { (start stop : CodabarEnd) (bars : Linear) (src : List ℕ) →
        list_any is_letter src ≡ false → codabar_of src (Around start stop) ≡ Ok bars
        → text_of bars ≡ end_letter start ∷ src ++ end_letter stop ∷ [] }
    ensures code93 { (src : List ℕ) (bars : Linear) → code93_of src Signs ≡ Ok bars → text_of bars ≡ src }
    ensures ascii { (src : List ℕ) (bars : Linear) → code93_of src Ascii ≡ Ok bars
        → text_of bars ≡ map printed src }
{}

/// A law: the symbol of data that are padded is that of the digits that they are padded to.
pub fn padded_law()
    ensures ean8 { (src : List ℕ) (bars : Linear) → ean8_of src true ≡ Ok bars
        → ean8_of (filled 7 src) false ≡ Ok bars }
    ensures upca { (src : List ℕ) (bars : Linear) → upca_of src true ≡ Ok bars
        → upca_of (filled 11 src) false ≡ Ok bars }
    ensures add_on { (src : List ℕ) (bars : Linear) → add_on_of src true ≡ Ok bars
        → add_on_of (filled (add_on_count (length src)) src) false ≡ Ok bars }
{}

/// A law: six digits of UPC-E stand for the eleven of which they are the short form; a maker's articles have
/// one by their number, and the symbol of seven or eight digits is that of the six behind the first.
pub fn upce_law()
    ensures stands { (a b c d e f g h i j k : ℕ) (six : List ℕ) →
        (let eleven = a ∷ b ∷ c ∷ d ∷ e ∷ f ∷ g ∷ h ∷ i ∷ j ∷ k ∷ []
        in short_form eleven ≡ Some six → long_form six ≡ eleven) }
    ensures articles { (f g h i j : ℕ) → f < 10 → g < 10 → h < 10 → i < 10 → j < 10
        → (a b c d e : ℕ) → is_some (short_form (0 ∷ a ∷ b ∷ c ∷ d ∷ e ∷ f ∷ g ∷ h ∷ i ∷ j ∷ []))
        ≡ has_article c d e (10000 * f + 1000 * g + 100 * h + 10 * i + j) }
    ensures system { (src : List ℕ) (bars : Linear) → is_count 7 (length src) ≡ true
        → upce_of src Digits ≡ Ok bars → upce_of (take 6 (drop 1 src)) Digits ≡ Ok bars }
{}

/// A law: the text of a Code 128 symbol whose data are packed by themselves is the data.
pub fn packed_text_law()
    ensures { (src : List ℕ) (bars : Linear) → code128_zpl_of src true ≡ Ok bars → text_of bars ≡ src }
{}

/// A law: the text of a Code 39 symbol is its data without stars, and behind them the check character if
/// there is one.
pub fn code39_text_law()
    ensures data_alone { (src : List ℕ) (bars : Linear) → code39_of src false ≡ Ok bars
        → text_of bars ≡ unstarred src }
    ensures with_check { (src vs : List ℕ) (bars : Linear) → code39_of src true ≡ Ok bars
        → values_of (unstarred src) ≡ Some vs
        → text_of bars ≡ unstarred src ++ slice_index alphabet (code39_check vs) ∷ [] }
{}

/// A law: the text of an EAN-13 symbol is twelve digits, with zeros on the left where fewer came, and their
/// check digit.
pub fn ean13_text_law()
    ensures { (src : List ℕ) (pad : Bool) (bars : Linear) → ean13_of src pad ≡ Ok bars
        → (let twelve = take 12 (replicate (12 - length src) 48 ++ src)
        in text_of bars ≡ twelve ++ (check_digit_of (digits_of twelve) + 48) ∷ []) }
{}

/// A law: in code set B, without codes, each byte stands for itself: of a label's data, which begin in B,
/// and of a receipt's behind `{B`.
pub fn set_b_text_law()
    ensures label { (src : List ℕ) (bars : Linear) → list_any (λ b. b == greater) src ≡ false
        → code128_zpl_of src false ≡ Ok bars
        → text_of bars ≡ src }
    ensures receipt { (src : List ℕ) (bars : Linear) → list_any (λ b. b == brace) src ≡ false
        → code128_esc_of (brace ∷ 66 ∷ src) ≡ Ok bars → text_of bars ≡ src }
{}

/// A law: of no data there is no symbol, nor of more than 255 bytes, whatever they are.
pub fn data_are_counted()
    ensures none { (code : BarCode) (bytes : List ℕ) → length bytes ≡ 0
        → symbol_of code bytes ≡ Err (faults.Symbol Empty) }
    ensures many { (code : BarCode) (bytes : List ℕ) → DATA_BYTES < length bytes
        → symbol_of code bytes ≡ Err faults.SymbolTooLong }
{}
