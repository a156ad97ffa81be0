//! What bytes say: their items and lines, faults, and where text ends.
mod rows;
mod values;
mod whole;

use crate::checks::{all_hold, same};
use std::alloc::{AllocError, Global};
use std::test::Fail;
use vp_dots::Fault;
use vp_esc::{EscItem, EscReader, Reading};

/// Appends the line of an item.
fn push_line(item: &EscItem, lines: &mut Vec<u8>) -> Result<(), AllocError> {
    lines.extend_from_slice(item.line().as_slice())
}

/// Appends the lines of the bytes' items, and answers the fault where there is one.
fn push_lines(
    reader: &mut EscReader,
    bytes: &[u8],
    lines: &mut Vec<u8>,
) -> Result<Option<Fault>, AllocError> {
    for byte in bytes {
        match reader.take(*byte) {
            Ok(None) => {}
            Ok(Some(item)) => push_line(item, lines)?,
            Err(fault) => return Ok(Some(fault)),
        }
    }
    Ok(None)
}

/// Whether the bytes give these lines and this fault, and the reader is at rest where there is none.
fn lists(
    alloc: Global,
    reading: Reading,
    bytes: &[u8],
    want: &[u8],
    fault: Option<Fault>,
) -> Result<bool, AllocError> {
    let mut reader = EscReader::new(reading);
    let mut lines = Vec::new(alloc);
    let found = push_lines(&mut reader, bytes, &mut lines)?;
    Ok(lines.as_slice() == want && found == fault && reader.at_rest() == fault.is_none())
}

/// The item that the last of the bytes gives.
fn last_item<'a>(reader: &'a mut EscReader, bytes: &[u8]) -> Option<&'a EscItem> {
    let (last, front) = bytes.split_last()?;
    for byte in front {
        let _earlier = reader.take(*byte).is_ok();
    }
    reader.take(*last).ok().flatten()
}

/// Bytes, the lines before their fault, and the fault.
type Faulty = (&'static [u8], &'static [u8], Fault);

static FAULTS: [Faulty; 11] = [
    (b"\x0A\x1B\x7F", b"LF\n", Fault::Unknown(0x1B, 0x7F)),
    (b"\x1D\x41", b"", Fault::Unknown(0x1D, 0x41)),
    (b"\x1C\x00", b"", Fault::Unknown(0x1C, 0x00)),
    (b"\x10\x14", b"", Fault::Unknown(0x10, 0x14)),
    (b"\x1B\x63\x32", b"", Fault::Unknown(0x1B, 0x63)),
    (b"\x1B\x2A\x02", b"", Fault::Unknown(0x1B, 0x2A)),
    (b"\x1D\x56\x02", b"", Fault::Unknown(0x1D, 0x56)),
    (b"\x1D\x76\x31", b"", Fault::Unknown(0x1D, 0x76)),
    (b"\x1D\x6B\x07", b"", Fault::Unknown(0x1D, 0x6B)),
    (b"\x1D\x6B\x4A", b"", Fault::Unknown(0x1D, 0x6B)),
    (b"\x1D\x38\x4B", b"", Fault::Unknown(0x1D, 0x38)),
];

/// The first row whose bytes don't end with this fault behind these lines.
fn wrong_fault(alloc: Global, rows: &[Faulty]) -> Result<Option<usize>, AllocError> {
    for i in 0..rows.len() {
        let (bytes, lines, fault) = rows[i];
        if !lists(alloc, Reading::Profile, bytes, lines, Some(fault))? {
            return Ok(Some(i));
        }
    }
    Ok(None)
}

#[test]
fn faults(rt: HostRuntime) -> Result<(), Fail> {
    same(&rt, &wrong_fault(rt.alloc(), &FAULTS)?, &None);
    Ok(())
}

/// Appends a symbol of `count` bytes that end at a 0.
fn push_symbol(bytes: &mut Vec<u8>, count: usize) -> Result<(), AllocError> {
    bytes.extend_from_slice(b"\x1D\x6B\x04")?;
    for _ in 0..count {
        bytes.push(b'A')?;
    }
    bytes.push(0)?;
    Ok(())
}

/// How many bytes of a symbol of `count` bytes that end at a 0 are kept, and whether there are more.
fn long_symbol(alloc: Global, count: usize) -> Result<(usize, bool), AllocError> {
    let mut bytes = Vec::new(alloc);
    push_symbol(&mut bytes, count)?;
    Ok(
        match last_item(&mut EscReader::new(Reading::Profile), bytes.as_slice()) {
            Some(EscItem::Symbol { data, more, .. }) => (data.len(), *more),
            _ => (0, false),
        },
    )
}

/// How many bytes are sent, how many are kept, and whether there are more.
static LONG_SYMBOLS: [(usize, usize, bool); 4] = [
    (254, 254, false),
    (255, 255, false),
    (256, 255, true),
    (300, 255, true),
];

#[test]
fn long_symbols(rt: HostRuntime) -> Result<(), Fail> {
    for (count, kept, more) in &LONG_SYMBOLS {
        same(&rt, &long_symbol(rt.alloc(), *count)?, &(*kept, *more));
    }
    Ok(())
}

/// Whether the bytes give nothing.
fn gives_nothing(reader: &mut EscReader, bytes: &[u8]) -> bool {
    for byte in bytes {
        if !matches!(reader.take(*byte), Ok(None)) {
            return false;
        }
    }
    true
}

/// The start of ESC D with its first 31 stops.
static STOPS: &[u8] = b"\x1BD\
    \x01\x02\x03\x04\x05\x06\x07\x08\x09\x0A\x0B\x0C\x0D\x0E\x0F\x10\
    \x11\x12\x13\x14\x15\x16\x17\x18\x19\x1A\x1B\x1C\x1D\x1E\x1F";

#[test]
fn stop_32_ends_the_stops(rt: HostRuntime) {
    let mut reader = EscReader::new(Reading::Profile);
    let found = [
        gives_nothing(&mut reader, STOPS),
        matches!(
            reader.take(0x20),
            Ok(Some(EscItem::TabStops { end: None, .. }))
        ),
        matches!(reader.take(0x21), Ok(Some(EscItem::Character(0x21)))),
    ];
    all_hold(&rt, &found);
}

#[test]
fn faults_stay(rt: HostRuntime) {
    let mut reader = EscReader::new(Reading::Profile);
    all_hold(&rt, &[gives_nothing(&mut reader, b"\x1B")]);
    for byte in b"\x7F\x0A\x1B\x40" {
        let fault = reader.take(*byte).err();
        same(
            &rt,
            &(fault, reader.at_rest()),
            &(Some(Fault::Unknown(0x1B, 0x7F)), false),
        );
    }
}

#[test]
fn text_in_runs(rt: HostRuntime) {
    let mut reader = EscReader::new(Reading::Profile);
    let found = [
        reader.take_text(b"7\x0D\x00~\xFF\x0Aa") == 5,
        matches!(reader.take(0x1B), Ok(None)),
        reader.take_text(b"@a") == 0,
        matches!(reader.take(0x40), Ok(Some(EscItem::Initialize))),
        reader.take_text(b"a\x09") == 1,
    ];
    all_hold(&rt, &found);
}
