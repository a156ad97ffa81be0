//! The code tables: what a byte from 80 to FF is.

ghost use Rattle.std.specs.Prelude.{◌≡◌, ◌≤◌, ◌<◌, slice_index};
ghost use Rattle.vp_code_tables.specs.Tables.{codes_of, in_table};

use crate::iso::IsoPart;
use crate::{dos, iso, windows};

/// What a table has where a byte is no character.
pub const HOLE: u16 = 0xfffd;

/// A code table, by its name. Below 80 every table is ASCII.
#[derive(Clone, Copy, Debug, PartialEq, Eq)]
pub enum CodeTable {
    /// Code page 437: United States.
    Cp437,
    /// Code page 720: Arabic.
    Cp720,
    /// Code page 737: Greek.
    Cp737,
    /// Code page 775: Baltic.
    Cp775,
    /// Code page 850: Western Europe.
    Cp850,
    /// Code page 851: Greek.
    Cp851,
    /// Code page 852: Central Europe.
    Cp852,
    /// Code page 855: Cyrillic.
    Cp855,
    /// Code page 857: Turkish.
    Cp857,
    /// Code page 858: code page 850 with the Euro.
    Cp858,
    /// Code page 860: Portuguese.
    Cp860,
    /// Code page 861: Icelandic.
    Cp861,
    /// Code page 862: Hebrew.
    Cp862,
    /// Code page 863: Canadian French.
    Cp863,
    /// Code page 864: Arabic.
    Cp864,
    /// Code page 865: Nordic.
    Cp865,
    /// Code page 866: Cyrillic.
    Cp866,
    /// Code page 869: Greek.
    Cp869,
    /// Code page 1125: Ukrainian.
    Cp1125,
    /// Code page 874: Thai.
    Cp874,
    /// Code page 1250: Central Europe.
    Cp1250,
    /// Code page 1251: Cyrillic.
    Cp1251,
    /// Code page 1252: Western Europe.
    Cp1252,
    /// Code page 1253: Greek.
    Cp1253,
    /// Code page 1254: Turkish.
    Cp1254,
    /// Code page 1255: Hebrew.
    Cp1255,
    /// Code page 1256: Arabic.
    Cp1256,
    /// Code page 1257: Baltic.
    Cp1257,
    /// Code page 1258: Vietnamese.
    Cp1258,
    /// KZ-1048: Kazakh.
    Kz1048,
    /// A part of ISO/IEC 8859.
    Iso8859(IsoPart),
    /// TIS-620: Thai.
    Tis620,
    /// Half-width katakana, with the blocks, lines and signs of receipt printers around it.
    Katakana,
}

impl CodeTable {
    /// The code point at a place of the table, which begins at byte 80.
    #[tactic(auto, unfolding(crate::specs::Tables::codes_of))]
    fn code(self, place: usize) -> u16
        requires { place < 128 }
        ensures { result ≡ slice_index (codes_of self) place }
    {
        match self {
            CodeTable::Cp437 => dos::in_cp437(place),
            CodeTable::Cp720 => dos::in_cp720(place),
            CodeTable::Cp737 => dos::in_cp737(place),
            CodeTable::Cp775 => dos::in_cp775(place),
            CodeTable::Cp850 => dos::in_cp850(place),
            CodeTable::Cp851 => dos::in_cp851(place),
            CodeTable::Cp852 => dos::in_cp852(place),
            CodeTable::Cp855 => dos::in_cp855(place),
            CodeTable::Cp857 => dos::in_cp857(place),
            CodeTable::Cp858 => dos::in_cp858(place),
            CodeTable::Cp860 => dos::in_cp860(place),
            CodeTable::Cp861 => dos::in_cp861(place),
            CodeTable::Cp862 => dos::in_cp862(place),
            CodeTable::Cp863 => dos::in_cp863(place),
            CodeTable::Cp864 => dos::in_cp864(place),
            CodeTable::Cp865 => dos::in_cp865(place),
            CodeTable::Cp866 => dos::in_cp866(place),
            CodeTable::Cp869 => dos::in_cp869(place),
            CodeTable::Cp1125 => dos::in_cp1125(place),
            CodeTable::Cp874 => windows::in_cp874(place),
            CodeTable::Cp1250 => windows::in_cp1250(place),
            CodeTable::Cp1251 => windows::in_cp1251(place),
            CodeTable::Cp1252 => windows::in_cp1252(place),
            CodeTable::Cp1253 => windows::in_cp1253(place),
            CodeTable::Cp1254 => windows::in_cp1254(place),
            CodeTable::Cp1255 => windows::in_cp1255(place),
            CodeTable::Cp1256 => windows::in_cp1256(place),
            CodeTable::Cp1257 => windows::in_cp1257(place),
            CodeTable::Cp1258 => windows::in_cp1258(place),
            CodeTable::Kz1048 => windows::in_kz1048(place),
            CodeTable::Iso8859(part) => part.code(place),
            CodeTable::Tis620 => iso::in_tis620(place),
            CodeTable::Katakana => iso::in_katakana(place),
        }
    }

    /// The character of a byte from 80 on.
    #[tactic(auto, unfolding(crate::specs::Tables::in_table))]
    pub fn character(self, byte: u8) -> Option<u32>
        requires { 128 ≤ byte }
        ensures { result ≡ in_table self byte }
    {
        match self.code(usize::from(byte) - 128) {
            HOLE => None,
            code => Some(u32::from(code)),
        }
    }
}
