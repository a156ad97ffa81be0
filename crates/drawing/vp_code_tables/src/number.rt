//! What the numbers of commands mean.

ghost use Rattle.std.specs.Prelude.{◌≡◌};
ghost use Rattle.vp_code_tables.specs.Numbers.{esc_t_table, esc_r_country, fs_c_encoding, ci_set, ci_page, ci_unicode, ci_encoding};

use crate::country::Country;
use crate::encoding::Encoding;
use crate::iso::IsoPart;
use crate::label_set::LabelSet;
use crate::national::NationalSet;
use crate::table::CodeTable;
use crate::utf16::ByteOrder;

/// The code table of ESC t n (ESC/POS); none where no table here has the number.
#[tactic(auto, unfolding(crate::specs::Numbers::esc_t_table))]
pub fn esc_t(n: u8) -> Option<CodeTable>
    ensures { result ≡ esc_t_table n }
{
    match n {
        0 => Some(CodeTable::Cp437),
        1 => Some(CodeTable::Katakana),
        2 => Some(CodeTable::Cp850),
        3 => Some(CodeTable::Cp860),
        4 => Some(CodeTable::Cp863),
        5 => Some(CodeTable::Cp865),
        11 => Some(CodeTable::Cp851),
        13 => Some(CodeTable::Cp857),
        14 => Some(CodeTable::Cp737),
        15 => Some(CodeTable::Iso8859(IsoPart::Part7)),
        16 => Some(CodeTable::Cp1252),
        17 => Some(CodeTable::Cp866),
        18 => Some(CodeTable::Cp852),
        19 => Some(CodeTable::Cp858),
        21 => Some(CodeTable::Tis620),
        26 => Some(CodeTable::Cp874),
        32 => Some(CodeTable::Cp720),
        33 => Some(CodeTable::Cp775),
        34 => Some(CodeTable::Cp855),
        35 => Some(CodeTable::Cp861),
        36 => Some(CodeTable::Cp862),
        37 => Some(CodeTable::Cp864),
        38 => Some(CodeTable::Cp869),
        39 => Some(CodeTable::Iso8859(IsoPart::Part2)),
        40 => Some(CodeTable::Iso8859(IsoPart::Part15)),
        44 => Some(CodeTable::Cp1125),
        45 => Some(CodeTable::Cp1250),
        46 => Some(CodeTable::Cp1251),
        47 => Some(CodeTable::Cp1253),
        48 => Some(CodeTable::Cp1254),
        49 => Some(CodeTable::Cp1255),
        50 => Some(CodeTable::Cp1256),
        51 => Some(CodeTable::Cp1257),
        52 => Some(CodeTable::Cp1258),
        53 => Some(CodeTable::Kz1048),
        _ => None,
    }
}

/// The national set of ESC R n (ESC/POS), 0 to 17.
#[tactic(auto, unfolding(crate::specs::Numbers::esc_r_country))]
pub fn esc_r(n: u8) -> Option<Country>
    ensures { result ≡ esc_r_country n }
{
    match n {
        0 => Some(Country::Usa),
        1 => Some(Country::France),
        2 => Some(Country::Germany),
        3 => Some(Country::UnitedKingdom),
        4 => Some(Country::DenmarkOne),
        5 => Some(Country::Sweden),
        6 => Some(Country::Italy),
        7 => Some(Country::SpainOne),
        8 => Some(Country::Japan),
        9 => Some(Country::Norway),
        10 => Some(Country::DenmarkTwo),
        11 => Some(Country::SpainTwo),
        12 => Some(Country::LatinAmerica),
        13 => Some(Country::Korea),
        14 => Some(Country::Croatia),
        15 => Some(Country::China),
        16 => Some(Country::Vietnam),
        17 => Some(Country::Usa),
        _ => None,
    }
}

/// The encoding of FS ( C's function 48 with m (ESC/POS): 1 and 49 say the table and the country that are in
/// force, 2 and 50 UTF-8.
#[tactic(auto, unfolding(crate::specs::Numbers::fs_c_encoding))]
pub fn fs_c(m: u8, table: CodeTable, country: Country) -> Option<Encoding>
    ensures { result ≡ fs_c_encoding m table country }
{
    match m {
        1 | 49 => Some(Encoding::Bytes(table, NationalSet::Country(country))),
        2 | 50 => Some(Encoding::Utf8),
        _ => None,
    }
}

/// The national set of ^CI n.
#[tactic(auto, unfolding(crate::specs::Numbers::ci_set))]
fn ci_set(n: u8) -> Option<LabelSet>
    ensures { result ≡ ci_set n }
{
    match n {
        0 => Some(LabelSet::UsaOne),
        1 => Some(LabelSet::UsaTwo),
        2 => Some(LabelSet::UnitedKingdom),
        3 => Some(LabelSet::Holland),
        4 => Some(LabelSet::Denmark),
        5 => Some(LabelSet::Sweden),
        6 => Some(LabelSet::Germany),
        7 => Some(LabelSet::FranceOne),
        8 => Some(LabelSet::FranceTwo),
        9 => Some(LabelSet::Italy),
        10 => Some(LabelSet::Spain),
        11 => Some(LabelSet::Miscellaneous),
        12 => Some(LabelSet::Japan),
        13 | 14 | 24 | 26 => Some(LabelSet::Plain),
        _ => None,
    }
}

/// The code page of ^CI n.
#[tactic(auto, unfolding(crate::specs::Numbers::ci_page))]
fn ci_page(n: u8) -> Option<CodeTable>
    ensures { result ≡ ci_page n }
{
    match n {
        27 => Some(CodeTable::Cp1252),
        31 => Some(CodeTable::Cp1250),
        33 => Some(CodeTable::Cp1251),
        34 => Some(CodeTable::Cp1253),
        35 => Some(CodeTable::Cp1254),
        36 => Some(CodeTable::Cp1255),
        _ => None,
    }
}

/// The encoding of Unicode of ^CI n.
#[tactic(auto, unfolding(crate::specs::Numbers::ci_unicode))]
fn ci_unicode(n: u8) -> Option<Encoding>
    ensures { result ≡ ci_unicode n }
{
    match n {
        28 => Some(Encoding::Utf8),
        17 | 29 => Some(Encoding::Utf16(ByteOrder::HighFirst)),
        30 => Some(Encoding::Utf16(ByteOrder::LowFirst)),
        _ => None,
    }
}

/// The encoding of ^CI n (ZPL II); none where no encoding here has the number.
#[tactic(auto, unfolding(crate::specs::Numbers::ci_encoding))]
pub fn zpl_ci(n: u8) -> Option<Encoding>
    ensures { result ≡ ci_encoding n }
{
    if let Some(set) = ci_set(n) {
        return Some(Encoding::Bytes(CodeTable::Cp850, NationalSet::Label(set)));
    }
    if let Some(page) = ci_page(n) {
        return Some(Encoding::Bytes(page, NationalSet::Country(Country::Usa)));
    }
    ci_unicode(n)
}
