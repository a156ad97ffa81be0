//! Printers are made of numbers and bytes.
ghost use Rattle.std.specs.Prelude.{◌≡◌, ◌≤◌, ◌⊎◌, None, Err, IfOk, IfErr, IsOk, MatchOption, alloc_error};
ghost use Rattle.vp_calls.specs.Making.{language_of, sheet_in, IsMade, IsRefused, IsListing};

use crate::answer::Refusal;
use vp_dots::Small;
use vp_engine::{Language, Printer};
use vp_glyph::{Sheet, SheetError, Sheets};

/// The language of a number.
pub fn language_of(number: u32) -> Option<Language>
    ensures { result ≡ language_of number }
{
    match number {
        0 => Some(Language::Receipt),
        1 => Some(Language::Receipt58),
        2 => Some(Language::Label),
        3 => Some(Language::WholeReceipt),
        4 => Some(Language::WholeReceipt58),
        5 => Some(Language::WholeLabel),
        _ => None,
    }
}

/// The sheet of these bytes with cells of w by h dots; none of no bytes.
fn sheet_in<A: Small + Copy>(
    alloc: A,
    bytes: &[u8],
    w: u32,
    h: u32,
) -> Result<Option<Sheet<A>>, SheetError>
    requires w { w ≤ 64 }
    requires h { h ≤ 64 }
    ensures { (result ≡ sheet_in bytes.now w h)
        ⊎ ((result ≡ Err (SheetError.Memory alloc_error)) × IsOk (sheet_in bytes.now w h)) }
{
    if bytes.is_empty() {
        return Ok(None);
    }
    match Sheet::read(alloc, bytes, w, h) {
        Ok(sheet) => Ok(Some(sheet)),
        Err(error) => Err(error),
    }
}

/// The printer of a language's number with sheets of these bytes, or why there is none.
pub fn made<A: Small + Copy>(
    alloc: A,
    number: u32,
    a: &[u8],
    b: &[u8],
) -> Result<Printer<A>, Refusal>
    ensures made { IfOk result (λ printer. IsMade number a.now b.now printer) }
    ensures refused { IfErr result (λ why. IsRefused number a.now b.now why) }
{
    let Some(language) = language_of(number) else {
        return Err(Refusal::Language);
    };
    let a = match sheet_in(alloc, a, 12, 24) {
        Ok(sheet) => sheet,
        Err(error) => return Err(Refusal::SheetA(error)),
    };
    let b = match sheet_in(alloc, b, 9, 17) {
        Ok(sheet) => sheet,
        Err(error) => return Err(Refusal::SheetB(error)),
    };
    match Printer::new(alloc, language, Sheets { a, b }) {
        Ok(printer) => Ok(printer),
        Err(_) => Err(Refusal::Memory),
    }
}

/// The printer of a line for each item of a language's number, behind its place where `with_offsets` isn't
/// 0; none where there is no such language. It takes no memory.
pub fn listed<A: Small>(number: u32, with_offsets: u32) -> Option<Printer<A>>
    ensures { MatchOption result (language_of number ≡ None)
        (λ printer. IsListing number with_offsets printer) }
{
    match language_of(number) {
        Some(language) => Some(Printer::listed(language, with_offsets != 0)),
        None => None,
    }
}
