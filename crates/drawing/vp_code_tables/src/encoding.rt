//! By what bytes are characters.

ghost use Rattle.std.specs.Prelude.{◌≡◌};
ghost use Rattle.vp_code_tables.specs.Units.{byte_character};

use crate::national::NationalSet;
use crate::table::CodeTable;
use crate::utf16::ByteOrder;

/// How bytes are characters.
#[derive(Clone, Copy, Debug, PartialEq, Eq)]
pub enum Encoding {
    /// A byte a character: from 80 on the table's, below it the national set's.
    Bytes(CodeTable, NationalSet),
    /// UTF-8 (The Unicode Standard 15, 3.9, D92).
    Utf8,
    /// UTF-16 without a mark of its order (3.10, D97 and D98).
    Utf16(ByteOrder),
}

/// The character of one byte.
#[tactic(auto, unfolding(crate::specs::Units::byte_character))]
pub fn byte_character(table: CodeTable, set: NationalSet, byte: u8) -> Option<u32>
    ensures { result ≡ byte_character table set byte }
{
    if byte < 0x80 {
        Some(set.character(byte))
    } else {
        table.character(byte)
    }
}
