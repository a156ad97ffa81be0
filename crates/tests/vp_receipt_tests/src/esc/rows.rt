//! The lines of every command of the table, by one spelling or more.
use super::lists;
use std::alloc::{AllocError, Global};
use std::process::Abort;
use std::test::Fail;
use vp_esc::Reading;

/// The bytes of whole units, and their lines.
pub type Row = (&'static [u8], &'static [u8]);

/// The first row whose bytes aren't whole units with these lines.
pub fn wrong_row(
    alloc: Global,
    reading: Reading,
    rows: &[Row],
) -> Result<Option<usize>, AllocError> {
    for i in 0..rows.len() {
        let (bytes, lines) = rows[i];
        if !lists(alloc, reading, bytes, lines, None)? {
            return Ok(Some(i));
        }
    }
    Ok(None)
}

/// Each row's bytes are whole units with its lines, in the profile and in the whole language, or the number of
/// the first for which that fails is told.
fn right(rt: &impl Abort, alloc: Global, rows: &[Row]) -> Result<(), Fail> {
    let wrong = wrong_row(alloc, Reading::Profile, rows)?;
    assert_eq!(rt; wrong, None);
    let wrong = wrong_row(alloc, Reading::Whole, rows)?;
    assert_eq!(rt; wrong, None);
    Ok(())
}

static SINGLE_BYTES: [Row; 10] = [
    (b"\x0A", b"LF\n"),
    (b"\x09", b"HT\n"),
    (b"\x0D", b"CR\n"),
    (b"\x0C", b"FF\n"),
    (b"\x18", b"CAN\n"),
    (b"\x00", b"ctl 00\n"),
    (b"\x1F", b"ctl 1f\n"),
    (b"\x20", b"char 20\n"),
    (b"\x4D", b"char 4d\n"),
    (b"\xFF", b"char ff\n"),
];

#[test]
fn single_bytes(rt: HostRuntime) -> Result<(), Fail> {
    right(&rt, rt.alloc(), &SINGLE_BYTES)
}

static AFTER_ESC: [Row; 42] = [
    (b"\x1B\x20\x03", b"esc 20 03\n"),
    (b"\x1B\x21\x88", b"esc 21 88\n"),
    (b"\x1B\x24\xE8\x03", b"esc 24 e8 03\n"),
    (b"\x1B\x2D\x01", b"esc 2d 01\n"),
    (b"\x1B\x32", b"esc 32\n"),
    (b"\x1B\x33\x00", b"esc 33 00\n"),
    (b"\x1B\x40", b"esc 40\n"),
    (b"\x1B\x45\x01", b"esc 45 01\n"),
    (b"\x1B\x47\x02", b"esc 47 02\n"),
    (b"\x1B\x4A\x05", b"esc 4a 05\n"),
    (b"\x1B\x64\x02", b"esc 64 02\n"),
    (b"\x1B\x4C", b"esc 4c\n"),
    (b"\x1B\x53", b"esc 53\n"),
    (b"\x1B\x0C", b"esc 0c\n"),
    (b"\x1B\x4D\x01", b"esc 4d 01\n"),
    (b"\x1B\x54\x03", b"esc 54 03\n"),
    (
        b"\x1B\x57\x01\x02\x03\x04\x05\x06\xFF\x08",
        b"esc 57 01 02 03 04 05 06 ff 08\n",
    ),
    (b"\x1B\x5C\xFF\xFF", b"esc 5c ff ff\n"),
    (b"\x1B\x61\x31", b"esc 61 31\n"),
    (b"\x1B\x69", b"esc 69\n"),
    (b"\x1B\x6D", b"esc 6d\n"),
    (b"\x1B\x25\x01", b"esc 25 01\n"),
    (b"\x1B\x3F\x41", b"esc 3f 41\n"),
    (b"\x1B\x52\x00", b"esc 52 00\n"),
    (b"\x1B\x74\x01", b"esc 74 01\n"),
    (b"\x1B\x3D\x01", b"esc 3d 01\n"),
    (b"\x1B\x55\x01", b"esc 55 01\n"),
    (b"\x1B\x72\x01", b"esc 72 01\n"),
    (b"\x1B\x7B\x01", b"esc 7b 01\n"),
    (b"\x1B\x56\x01", b"esc 56 01\n"),
    (b"\x1B\x63\x33\x01", b"esc 63 33 01\n"),
    (b"\x1B\x63\x34\x02", b"esc 63 34 02\n"),
    (b"\x1B\x63\x35\x03", b"esc 63 35 03\n"),
    (b"\x1B\x70\x00\x32\x78", b"esc 70 00 32 78\n"),
    (
        b"\x1B\x2A\x00\x02\x00\x80\x01",
        b"esc 2a 00 02 00\ncolumn 80\ncolumn 01\n",
    ),
    (b"\x1B\x2A\x01\x01\x00\x41", b"esc 2a 01 01 00\ncolumn 41\n"),
    (
        b"\x1B\x2A\x20\x01\x00\x01\x02\x03",
        b"esc 2a 20 01 00\ncolumn 01 02 03\n",
    ),
    (
        b"\x1B\x2A\x21\x02\x00\x80\x00\x01\xFF\x00\xFE\x0A",
        b"esc 2a 21 02 00\ncolumn 80 00 01\ncolumn ff 00 fe\nLF\n",
    ),
    (b"\x1B\x2A\x21\x00\x00\x0A", b"esc 2a 21 00 00\nLF\n"),
    (
        b"\x1B\x44\x08\x10\xFF\x00\x41",
        b"esc 44 08 10 ff 00\nchar 41\n",
    ),
    (b"\x1B\x44\x08\x08\x41", b"esc 44 08 08\nchar 41\n"),
    (b"\x1B\x44\x00", b"esc 44 00\n"),
];

#[test]
fn after_esc(rt: HostRuntime) -> Result<(), Fail> {
    right(&rt, rt.alloc(), &AFTER_ESC)
}

static AFTER_GS: [Row; 27] = [
    (b"\x1D\x21\x11", b"gs 21 11\n"),
    (b"\x1D\x24\xE8\x03", b"gs 24 e8 03\n"),
    (b"\x1D\x5C\x00\x80", b"gs 5c 00 80\n"),
    (b"\x1D\x42\x01", b"gs 42 01\n"),
    (b"\x1D\x48\x03", b"gs 48 03\n"),
    (b"\x1D\x66\x30", b"gs 66 30\n"),
    (b"\x1D\x68\xA2", b"gs 68 a2\n"),
    (b"\x1D\x77\x03", b"gs 77 03\n"),
    (b"\x1D\x4C\x08\x00", b"gs 4c 08 00\n"),
    (b"\x1D\x57\x14\x00", b"gs 57 14 00\n"),
    (b"\x1D\x56\x00", b"gs 56 00\n"),
    (b"\x1D\x56\x31", b"gs 56 31\n"),
    (b"\x1D\x56\x41\x02", b"gs 56 41 02\n"),
    (b"\x1D\x56\x42\x03", b"gs 56 42 03\n"),
    (b"\x1D\x61\x01", b"gs 61 01\n"),
    (b"\x1D\x72\x01", b"gs 72 01\n"),
    (b"\x1D\x49\x01", b"gs 49 01\n"),
    (b"\x1D\x62\x01", b"gs 62 01\n"),
    (b"\x1D\x50\xCB\x00", b"gs 50 cb 00\n"),
    (
        b"\x1D\x76\x30\x00\x01\x00\x02\x00\x80\x01",
        b"gs 76 30 00 01 00 02 00\nbyte 80\nbyte 01\n",
    ),
    (
        b"\x1D\x76\x30\x33\x02\x00\x01\x00\x80\x01",
        b"gs 76 30 33 02 00 01 00\nbyte 80\nbyte 01\n",
    ),
    (
        b"\x1D\x76\x30\x04\x01\x00\x02\x00\x80\x01\x0A",
        b"gs 76 30 04 01 00 02 00\nLF\n",
    ),
    (
        b"\x1D\x76\x30\x30\x00\x00\x05\x00\x0A",
        b"gs 76 30 30 00 00 05 00\nLF\n",
    ),
    (
        b"\x1D\x6B\x04\x41\x42\x00\x41",
        b"gs 6b 04 41 42 00\nchar 41\n",
    ),
    (b"\x1D\x6B\x00\x00", b"gs 6b 00 00\n"),
    (
        b"\x1D\x6B\x49\x03\x7B\x41\x31\x41",
        b"gs 6b 49 03 7b 41 31\nchar 41\n",
    ),
    (b"\x1D\x6B\x43\x00\x0A", b"gs 6b 43 00\nLF\n"),
];

#[test]
fn after_gs(rt: HostRuntime) -> Result<(), Fail> {
    right(&rt, rt.alloc(), &AFTER_GS)
}

static QR: [Row; 16] = [
    (
        b"\x1D\x28\x6B\x04\x00\x31\x41\x31\x00",
        b"gs 28 6b 04 00 31 41 31 00\n",
    ),
    (
        b"\x1D\x28\x6B\x04\x00\x31\x41\x33\x00",
        b"gs 28 6b 04 00 31 41 33 00\n",
    ),
    (
        b"\x1D\x28\x6B\x03\x00\x31\x43\x10",
        b"gs 28 6b 03 00 31 43 10\n",
    ),
    (
        b"\x1D\x28\x6B\x03\x00\x31\x45\x33",
        b"gs 28 6b 03 00 31 45 33\n",
    ),
    (
        b"\x1D\x28\x6B\x03\x00\x31\x51\x30",
        b"gs 28 6b 03 00 31 51 30\n",
    ),
    (
        b"\x1D\x28\x6B\x05\x00\x31\x50\x30\x48\x49\x0A",
        b"gs 28 6b 05 00 31 50 30\nbyte 48\nbyte 49\nLF\n",
    ),
    (
        b"\x1D\x28\x6B\x04\x00\x31\x50\x30\x48\x0A",
        b"gs 28 6b 04 00 31 50 30\nbyte 48\nLF\n",
    ),
    (b"\x1D\x28\x6B\x00\x00\x0A", b"gs 28 6b 00 00\nLF\n"),
    (b"\x1D\x28\x6B\x01\x00\x31\x0A", b"gs 28 6b 01 00 31\nLF\n"),
    (
        b"\x1D\x28\x6B\x02\x00\x31\x43\x0A",
        b"gs 28 6b 02 00 31 43\nLF\n",
    ),
    (
        b"\x1D\x28\x6B\x04\x00\x30\x43\x31\x32\x0A",
        b"gs 28 6b 04 00 30 43\nLF\n",
    ),
    (
        b"\x1D\x28\x6B\x03\x00\x31\x50\x30\x0A",
        b"gs 28 6b 03 00 31 50\nLF\n",
    ),
    (
        b"\x1D\x28\x6B\x03\x00\x31\x43\x11\x0A",
        b"gs 28 6b 03 00 31 43 11\nLF\n",
    ),
    (
        b"\x1D\x28\x6B\x04\x00\x31\x41\x34\x00\x0A",
        b"gs 28 6b 04 00 31 41 34\nLF\n",
    ),
    (
        b"\x1D\x28\x6B\x04\x00\x31\x41\x32\x01\x0A",
        b"gs 28 6b 04 00 31 41 32 01\nLF\n",
    ),
    (
        b"\x1D\x28\x6B\x05\x00\x31\x50\x31\x48\x49\x0A",
        b"gs 28 6b 05 00 31 50 31\nLF\n",
    ),
];

#[test]
fn qr(rt: HostRuntime) -> Result<(), Fail> {
    right(&rt, rt.alloc(), &QR)
}

static READ_PAST: [Row; 16] = [
    (b"\x1D\x28\x4C\x02\x00\x31\x32\x0A", b"gs 28 4c 02 00\nLF\n"),
    (b"\x1D\x28\x41\x00\x00\x0A", b"gs 28 41 00 00\nLF\n"),
    (
        b"\x1D\x38\x4C\x03\x00\x00\x00\x41\x42\x43\x0A",
        b"gs 38 4c 03 00 00 00\nLF\n",
    ),
    (b"\x10\x04\x01", b"dle 04 01\n"),
    (b"\x10\x04\x07\x01", b"dle 04 07 01\n"),
    (b"\x10\x04\x08\x01", b"dle 04 08 01\n"),
    (b"\x10\x04\x12\x02", b"dle 04 12 02\n"),
    (b"\x10\x05\x05", b"dle 05 05\n"),
    (b"\x1C\x2E", b"fs 2e\n"),
    (b"\x1C\x26", b"fs 26\n"),
    (b"\x1C\x21\x01", b"fs 21 01\n"),
    (b"\x1C\x2D\x01", b"fs 2d 01\n"),
    (b"\x1C\x43\x01", b"fs 43 01\n"),
    (b"\x1C\x57\x01", b"fs 57 01\n"),
    (b"\x1C\x53\x01\x02", b"fs 53 01 02\n"),
    (b"\x1C\x70\x01\x00", b"fs 70 01 00\n"),
];

#[test]
fn read_past(rt: HostRuntime) -> Result<(), Fail> {
    right(&rt, rt.alloc(), &READ_PAST)
}
