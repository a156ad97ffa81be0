//! Texts about faults, answers and the version.
ghost use Rattle.std.specs.Prelude.{◌≡◌, None};
ghost use Rattle.vp_calls.specs.Faults.{from_c};
ghost use Rattle.vp_calls.specs.Texts.{HasText};

use crate::answer::{NO_LANGUAGE, NO_MEMORY, NO_PRINTER, PENDING, SHEET_A, SHEET_B};
use crate::fault::FaultOfC;
use crate::text;
use arrayvec::ArrayString;
use std::fmt::Write;
use vp_command_line::VERSION;
use vp_exit_status::Stop;
use vp_glyph::SheetError;

/// The longest text has fewer bytes.
type Text = ArrayString<95>;

/// Writes the line that the program prints of a fault after so many bytes; nothing where there is no fault.
pub fn fault_line(fault: &FaultOfC, after: u64, line: &mut [u8]) -> usize
    ensures written { HasText line.old line.new result }
    ensures none { from_c fault.now ≡ None → result ≡ 0 }
{
    let mut text = Text::new();
    if let Some(fault) = fault.fault() {
        let _ = write!(text, "vp: {}", Stop::Print { fault, after });
    }
    text::put(text.as_str().as_bytes(), line)
}

/// The offence of a sheet that an answer tells of.
fn offence(answer: u32) -> Option<SheetError> {
    let number = if answer < SHEET_B {
        answer.checked_sub(SHEET_A)?
    } else {
        answer - SHEET_B
    };
    match number {
        1 => Some(SheetError::Magic),
        2 => Some(SheetError::Header),
        3 => Some(SheetError::Size),
        4 => Some(SheetError::Short),
        _ => None,
    }
}

/// What an answer means, but for that of a sheet.
fn meaning(answer: u32) -> &'static str {
    match answer {
        NO_MEMORY => "out of memory",
        NO_LANGUAGE => "no such language",
        NO_PRINTER => "no printer",
        PENDING => "paper is still to be put out",
        _ => "",
    }
}

/// Writes what an answer means; nothing where it is none, or OK.
pub fn answer_text(answer: u32, text: &mut [u8]) -> usize
    ensures { HasText text.old text.new result }
{
    let Some(error) = offence(answer) else {
        return text::put(meaning(answer).as_bytes(), text);
    };
    let mut told = Text::new();
    if let Some(number) = error.number() {
        let _ = write!(told, "S{number} {error}");
    }
    text::put(told.as_str().as_bytes(), text)
}

/// Writes the version.
pub fn version(text: &mut [u8]) -> usize
    ensures { HasText text.old text.new result }
{
    text::put(VERSION.as_bytes(), text)
}
