//! Rows of bytes, the command that they give last and their lines, in either case.
use super::listing;
use crate::checks::same;
use arrayvec::ArrayVec;
use std::alloc::{AllocError, Global};
use std::process::Abort;
use std::test::Fail;
use vp_zpl::{Command, Reading, ZplItem, ZplReader};

/// The bytes of a command and the sign behind it, the command and its lines.
pub type Row = (&'static [u8], Command, &'static [u8]);

/// The last command of the bytes.
fn last_command(bytes: &[u8]) -> Option<Command> {
    let mut reader = ZplReader::new(Reading::Profile);
    let mut last = None;
    for byte in bytes {
        if let Some(ZplItem::Command(sent)) = reader.take(*byte) {
            last = Some(sent.command);
        }
    }
    last
}

/// The bytes with the command's name in small letters.
fn with_small_name(bytes: &[u8]) -> ArrayVec<u8, 32> {
    let mut small = ArrayVec::new();
    for i in 0..bytes.len() {
        let is_name = i == 1 || i == 2;
        let _fits = small.try_push(if is_name {
            bytes[i].to_ascii_lowercase()
        } else {
            bytes[i]
        });
    }
    small
}

/// Whether the bytes give this command last and these lines.
fn gives(alloc: Global, bytes: &[u8], command: Command, lines: &[u8]) -> Result<bool, AllocError> {
    let Some(found) = last_command(bytes) else {
        return Ok(false);
    };
    let (found_lines, _) = listing(alloc, Reading::Profile, bytes)?;
    Ok(is_same(found, command) && found_lines.as_slice() == lines)
}

/// The first row whose bytes don't give its command last, or don't give its lines, with the name in capitals
/// or in small letters.
fn wrong_row(alloc: Global, rows: &[Row]) -> Result<Option<usize>, AllocError> {
    for i in 0..rows.len() {
        let (bytes, command, lines) = rows[i];
        let small = with_small_name(bytes);
        if !gives(alloc, bytes, command, lines)?
            || !gives(alloc, small.as_slice(), command, lines)?
        {
            return Ok(Some(i));
        }
    }
    Ok(None)
}

/// Each row's bytes give its command last, and its lines, with the name in capitals and in small letters.
pub fn right(rt: &impl Abort, alloc: Global, rows: &[Row]) -> Result<(), Fail> {
    same(rt, &wrong_row(alloc, rows)?, &None);
    Ok(())
}

/// Whether two commands and their arguments are the same.
fn is_same(a: Command, b: Command) -> bool {
    match (a, b) {
        (Command::FormatStart, Command::FormatStart)
        | (Command::FormatEnd, Command::FormatEnd)
        | (Command::FieldSeparator, Command::FieldSeparator)
        | (Command::ReversePrint, Command::ReversePrint)
        | (Command::Comment, Command::Comment)
        | (Command::FieldData, Command::FieldData)
        | (Command::Skipped, Command::Skipped) => true,
        _ => {
            is_same_place(a, b)
                || is_same_label(a, b)
                || is_same_font(a, b)
                || is_same_style(a, b)
                || is_same_bars(a, b)
                || is_same_symbol(a, b)
                || is_same_picture(a, b)
                || is_same_indicator(a, b)
        }
    }
}

/// Where a field stands, and the home.
fn is_same_place(a: Command, b: Command) -> bool {
    match (a, b) {
        (
            Command::FieldOrigin { x, y },
            Command::FieldOrigin {
                x: other_x,
                y: other_y,
            },
        ) => x == other_x && y == other_y,
        (
            Command::FieldTypeset { x, y },
            Command::FieldTypeset {
                x: other_x,
                y: other_y,
            },
        ) => x == other_x && y == other_y,
        (
            Command::LabelHome { x, y },
            Command::LabelHome {
                x: other_x,
                y: other_y,
            },
        ) => x == other_x && y == other_y,
        _ => false,
    }
}

/// How a label is put out.
fn is_same_label(a: Command, b: Command) -> bool {
    match (a, b) {
        (Command::PrintWidth { dots }, Command::PrintWidth { dots: other_dots }) => dots
            == other_dots,
        (Command::LabelLength { dots }, Command::LabelLength { dots: other_dots }) => dots
            == other_dots,
        (
            Command::PrintQuantity { copies },
            Command::PrintQuantity {
                copies: other_copies,
            },
        ) => copies == other_copies,
        (
            Command::PrintOrientation { inverted },
            Command::PrintOrientation {
                inverted: other_inverted,
            },
        ) => inverted == other_inverted,
        (
            Command::MirrorImage { mirrored },
            Command::MirrorImage {
                mirrored: other_mirrored,
            },
        ) => mirrored == other_mirrored,
        (
            Command::LabelReverse { reversed },
            Command::LabelReverse {
                reversed: other_reversed,
            },
        ) => reversed == other_reversed,
        _ => false,
    }
}

/// How texts are drawn.
fn is_same_font(a: Command, b: Command) -> bool {
    match (a, b) {
        (
            Command::FieldOrientation { orientation },
            Command::FieldOrientation {
                orientation: other_orientation,
            },
        ) => orientation == other_orientation,
        (
            Command::DefaultFont { height, width },
            Command::DefaultFont {
                height: other_height,
                width: other_width,
            },
        ) => height == other_height && width == other_width,
        (
            Command::Font {
                orientation,
                height,
                width,
            },
            Command::Font {
                orientation: other_orientation,
                height: other_height,
                width: other_width,
            },
        ) => orientation == other_orientation && height == other_height && width == other_width,
        _ => false,
    }
}

/// How bars and blocks are drawn.
fn is_same_style(a: Command, b: Command) -> bool {
    match (a, b) {
        (
            Command::BarDefaults {
                module,
                ratio_tenths,
                height,
            },
            Command::BarDefaults {
                module: other_module,
                ratio_tenths: other_ratio_tenths,
                height: other_height,
            },
        ) => module == other_module && ratio_tenths == other_ratio_tenths && height == other_height,
        (
            Command::FieldBlock {
                width,
                lines,
                space,
                justification,
            },
            Command::FieldBlock {
                width: other_width,
                lines: other_lines,
                space: other_space,
                justification: other_justification,
            },
        ) => width == other_width
            && lines == other_lines
            && space == other_space
            && justification == other_justification,
        _ => false,
    }
}

/// Bars of one kind alone.
fn is_same_bars(a: Command, b: Command) -> bool {
    match (a, b) {
        (
            Command::Code39 {
                orientation,
                check,
                height,
                text,
                above,
            },
            Command::Code39 {
                orientation: other_orientation,
                check: other_check,
                height: other_height,
                text: other_text,
                above: other_above,
            },
        ) => orientation == other_orientation
            && check == other_check
            && height == other_height
            && text == other_text
            && above == other_above,
        (
            Command::Ean13 {
                orientation,
                height,
                text,
                above,
            },
            Command::Ean13 {
                orientation: other_orientation,
                height: other_height,
                text: other_text,
                above: other_above,
            },
        ) => orientation == other_orientation
            && height == other_height
            && text == other_text
            && above == other_above,
        _ => false,
    }
}

/// Bars of a mode, or a QR symbol.
fn is_same_symbol(a: Command, b: Command) -> bool {
    match (a, b) {
        (
            Command::Code128 {
                orientation,
                height,
                text,
                above,
                mode,
            },
            Command::Code128 {
                orientation: other_orientation,
                height: other_height,
                text: other_text,
                above: other_above,
                mode: other_mode,
            },
        ) => orientation == other_orientation
            && height == other_height
            && text == other_text
            && above == other_above
            && mode == other_mode,
        (
            Command::QrCode { model, module },
            Command::QrCode {
                model: other_model,
                module: other_module,
            },
        ) => model == other_model && module == other_module,
        _ => false,
    }
}

/// A box or a picture.
fn is_same_picture(a: Command, b: Command) -> bool {
    match (a, b) {
        (
            Command::GraphicBox {
                width,
                height,
                thickness,
                colour,
            },
            Command::GraphicBox {
                width: other_width,
                height: other_height,
                thickness: other_thickness,
                colour: other_colour,
            },
        ) => width == other_width
            && height == other_height
            && thickness == other_thickness
            && colour == other_colour,
        (
            Command::Graphic {
                format,
                binary_bytes,
                picture_bytes,
                row_bytes,
            },
            Command::Graphic {
                format: other_format,
                binary_bytes: other_binary_bytes,
                picture_bytes: other_picture_bytes,
                row_bytes: other_row_bytes,
            },
        ) => format == other_format
            && binary_bytes == other_binary_bytes
            && picture_bytes == other_picture_bytes
            && row_bytes == other_row_bytes,
        _ => false,
    }
}

/// How data are read.
fn is_same_indicator(a: Command, b: Command) -> bool {
    match (a, b) {
        (
            Command::FieldHex { indicator },
            Command::FieldHex {
                indicator: other_indicator,
            },
        ) => indicator == other_indicator,
        _ => false,
    }
}
