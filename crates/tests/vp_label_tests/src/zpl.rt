//! Streams, with what is listed of them and whether the reader is then at rest.
mod pictures;
mod rows;
mod table;
mod whole;

use crate::checks::same;
use arrayvec::ArrayVec;
use std::alloc::{AllocError, Global};
use std::process::Abort;
use std::test::Fail;
use vp_dots::list;
use vp_zpl::{Reading, ZplReader};

/// Appends the lines of the items that the bytes give.
fn list_items(reader: &mut ZplReader, bytes: &[u8], lines: &mut Vec<u8>) -> Result<(), AllocError> {
    for byte in bytes {
        if let Some(item) = reader.take(*byte) {
            lines.extend_from_slice(item.line().as_slice())?;
        }
    }
    Ok(())
}

/// The lines of the bytes' items, and whether the reader is at rest.
fn listing(alloc: Global, reading: Reading, bytes: &[u8]) -> Result<(Vec<u8>, bool), AllocError> {
    let mut reader = ZplReader::new(reading);
    let mut lines = Vec::new(alloc);
    list_items(&mut reader, bytes, &mut lines)?;
    Ok((lines, reader.at_rest()))
}

/// Bytes, their lines, and whether the reader is at rest behind them.
type Row = (&'static [u8], &'static [u8], bool);

/// The first row whose bytes don't give these lines, or don't leave the reader so.
fn wrong_row(alloc: Global, rows: &[Row]) -> Result<Option<usize>, AllocError> {
    for i in 0..rows.len() {
        let (bytes, lines, rests) = rows[i];
        let (found, found_rests) = listing(alloc, Reading::Profile, bytes)?;
        if found.as_slice() != lines || found_rests != rests {
            return Ok(Some(i));
        }
    }
    Ok(None)
}

/// Each row's bytes give its lines, and leave the reader so.
fn right(rt: &impl Abort, alloc: Global, rows: &[Row]) -> Result<(), Fail> {
    same(rt, &wrong_row(alloc, rows)?, &None);
    Ok(())
}

static LABELS: [Row; 12] = [
    (
        b"^XA^PW16^LL4^FO2,1^GB5,3,1^FS^XZ",
        b"^XA\n^PW16\n^LL4\n^FO2,1\n^GB5,3,1\n^FS\n^XZ\n",
        true,
    ),
    (
        b"^XA^PW16^LL2^FO0,0^GB8,2,2^FS^FO4,0^FR^GB8,2,2^FS^XZ",
        b"^XA\n^PW16\n^LL2\n^FO0,0\n^GB8,2,2\n^FS\n^FO4,0\n^FR\n^GB8,2,2\n^FS\n^XZ\n",
        true,
    ),
    (
        b"^XA^PW32^LL1^FO0,0^GFA,4,4,4,MB^FS^XZ",
        b"^XA\n^PW32\n^LL1\n^FO0,0\n^GFA,4,4,4\nbyte 4d\nbyte 42\n^FS\n^XZ\n",
        true,
    ),
    (
        b"^XA^FO0,0^GFA,34,34,1,80::01^FS^XZ",
        b"^XA\n^FO0,0\n^GFA,34,34,1\nbyte 38\nbyte 30\nbyte 3a\nbyte 3a\nbyte 30\nbyte 31\n^FS\n^XZ\n",
        true,
    ),
    (
        b"^XA^FO0,32^GB8,1,1,W^FS^FO0,31^FR^GB4,3,3^FS^XZ",
        b"^XA\n^FO0,32\n^GB8,1,1,W\n^FS\n^FO0,31\n^FR\n^GB4,3,3\n^FS\n^XZ\n",
        true,
    ),
    (
        b"^XA^PW16^LL24^A0N,24,12^FDM^FS^XZ",
        b"^XA\n^PW16\n^LL24\n^A0N,24,12\n^FD\nbyte 4d\n^FS\n^XZ\n",
        true,
    ),
    (
        b"^XA^A0R,24,12^FDB^FS^XZ",
        b"^XA\n^A0R,24,12\n^FD\nbyte 42\n^FS\n^XZ\n",
        true,
    ),
    (b"^XA^FO0,0^GB8,2,2", b"^XA\n^FO0,0\n", false),
    (
        b"^XA^FO0,0^GB8,2,2^FS",
        b"^XA\n^FO0,0\n^GB8,2,2\n^FS\n",
        true,
    ),
    (
        b"^XA^GFA,2,2,1,:Z64:x^FS",
        b"^XA\n^GFA,2,2,1\nbyte 3a\nbyte 5a\nbyte 36\nbyte 34\nbyte 3a\nbyte 78\n^FS\n",
        true,
    ),
    (
        b"^XA^FDA^ZZ1^XZ",
        b"^XA\n^FD\nbyte 41\n^ZZ skipped\n^XZ\n",
        true,
    ),
    (
        b"^XA^PW24^LL48^A0N,24,12^FB24,2,0,R^FDMM M^FS^XZ",
        b"^XA\n^PW24\n^LL48\n^A0N,24,12\n^FB24,2,0,R\n^FD\nbyte 4d\nbyte 4d\nbyte 20\nbyte 4d\n^FS\n^XZ\n",
        true,
    ),
];

/// Labels of boxes, pictures, text and field blocks.
#[test]
fn labels(rt: HostRuntime) -> Result<(), Fail> {
    right(&rt, rt.alloc(), &LABELS)
}

static DATA: [Row; 16] = [
    (b"^XA^FH^FD_4d^FS", b"^XA\n^FH\n^FD\nbyte 4d\n^FS\n", true),
    (
        b"^XA^FH^FD_4X^FS",
        b"^XA\n^FH\n^FD\nbyte 5f\nbyte 34\nbyte 58\n^FS\n",
        true,
    ),
    (b"^XA^FH^FD_4", b"^XA\n^FH\n^FD\n", false),
    (b"^XA^FH^FD_4^", b"^XA\n^FH\n^FD\nbyte 5f\nbyte 34\n", false),
    (
        b"^XA^FH^FD__4_4^FS",
        b"^XA\n^FH\n^FD\nbyte 5f\nbyte 5f\nbyte 34\nbyte 5f\nbyte 34\n^FS\n",
        true,
    ),
    (
        b"^XA^FH\\^FD\\41_41^FS^FD\\41",
        b"^XA\n^FH\\\n^FD\nbyte 41\nbyte 5f\nbyte 34\nbyte 31\n^FS\n^FD\nbyte 5c\nbyte 34\nbyte 31\n",
        false,
    ),
    (
        b"^XA^FHab^FD_41^XZ^FH^FD_41",
        b"^XA\n^FHab\n^FD\nbyte 41\n^XZ\n^FH\n^FD\nbyte 5f\nbyte 34\nbyte 31\n",
        true,
    ),
    (
        b"^XA^FDa b\r\nc\td^FS",
        b"^XA\n^FD\nbyte 61\nbyte 20\nbyte 62\nbyte 63\nbyte 09\nbyte 64\n^FS\n",
        true,
    ),
    (
        b"^XA^PW8^LL1^FO0,0^GFB,1,1,1,\x5E^FS^XZ",
        b"^XA\n^PW8\n^LL1\n^FO0,0\n^GFB,1,1,1\nbyte 5e\n^FS\n^XZ\n",
        true,
    ),
    (
        b"^XA^GFB,4,4,1,\x5E\r\n,more^FS",
        b"^XA\n^GFB,4,4,1\nbyte 5e\nbyte 0d\nbyte 0a\nbyte 2c\n^FS\n",
        true,
    ),
    (b"^GFb,2,,,\x7E", b"^GFb,2,,\nbyte 7e\n", false),
    (b"^GFB,,4,4,x^FS", b"^GFB,,4,4\n^FS\n", true),
    (b"^XA^GFA,4,4,4^FS", b"^XA\n^GFA,4,4,4\n^FS\n", true),
    (
        b"^GFC,1,1,1,a b\t\r\n,c^FS",
        b"^GFC,1,1,1\nbyte 61\nbyte 62\nbyte 2c\nbyte 63\n^FS\n",
        true,
    ),
    (b"^XA^GFA,1,1", b"^XA\n", false),
    (b"^XA^GFA,1,1,1,", b"^XA\n^GFA,1,1,1\n", false),
];

/// Data behind ^FH, and binary data.
#[test]
fn data(rt: HostRuntime) -> Result<(), Fail> {
    right(&rt, rt.alloc(), &DATA)
}

static SPELLING: [Row; 24] = [
    (b"", b"", true),
    (b"abc\n", b"", true),
    (b"^", b"", false),
    (b"~J", b"", false),
    (b"~JAx,y", b"~JA skipped\n", true),
    (b"~A0N", b"~A0 skipped\n", true),
    (b"~xa", b"~XA skipped\n", true),
    (b"^x^xa", b"^XA\n", true),
    (b"^\rx\na", b"^XA\n", true),
    (b"^F O1", b"^F. skipped\n", true),
    (b"^A", b"", false),
    (b"^aaN,1^FS", b"^AaN,1\n^FS\n", true),
    (b"^A,N^A ^A\xFFr~", b"^A,N\n^A.\n^A.r\n", false),
    (b"^A^FS", b"^FS\n", true),
    (b"^XAx,y", b"^XA\n", true),
    (b"^XA^FSx^FRy^XZz", b"^XA\n^FS\n^FR\n^XZ\n", true),
    (b"^FO^FO,^FO 1 , 2 ^", b"^FO\n^FO,\n^FO1,2\n", false),
    (b"^FO1,2,3,4,5,6,7,8,9^", b"^FO1,2,3,4,5,6,7,8\n", false),
    (
        b"^FO0 1\r2\n3456789abcdefgh,\t\x80^",
        b"^FO0123456789abcdef,..\n",
        false,
    ),
    (b"^XA^FXa, b^FS", b"^XA\n^FXa,b\n^FS\n", true),
    (b"^XA^FXa", b"^XA\n", false),
    (b"^FXa", b"", true),
    (b"^FDa", b"^FD\nbyte 61\n", true),
    (b"^XA^ZZa", b"^XA\n^ZZ skipped\n", true),
];

/// Names, and what parameters are kept.
#[test]
fn spelling(rt: HostRuntime) -> Result<(), Fail> {
    right(&rt, rt.alloc(), &SPELLING)
}

/// Appends the lines of data.
fn list_bytes(data: &[u8], lines: &mut Vec<u8>) -> Result<(), AllocError> {
    for byte in data {
        let mut line = ArrayVec::<u8, 8>::new();
        list(&mut line, b"byte", &[*byte]);
        lines.extend_from_slice(line.as_slice())?;
    }
    Ok(())
}

/// The lines of a head's items and of what stands behind it, its first bytes taken as a run of data.
fn listing_by_run(
    alloc: Global,
    head: &[u8],
    input: &[u8],
) -> Result<(Vec<u8>, usize, bool), AllocError> {
    let mut reader = ZplReader::new(Reading::Profile);
    let mut lines = Vec::new(alloc);
    list_items(&mut reader, head, &mut lines)?;
    let n = reader.take_data(input);
    list_bytes(&input[..n], &mut lines)?;
    list_items(&mut reader, &input[n..], &mut lines)?;
    Ok((lines, n, reader.at_rest()))
}

/// Bytes, their front that is taken one by one, what stands behind it, and how long its run is.
type Run = (&'static [u8], &'static [u8], &'static [u8], usize);

/// Whether a run has `run` bytes, and its items and rest are those of single bytes.
fn is_run(alloc: Global, (whole, head, input, run): Run) -> Result<bool, AllocError> {
    let (lines, rests) = listing(alloc, Reading::Profile, whole)?;
    let (found, n, found_rests) = listing_by_run(alloc, head, input)?;
    Ok(found.as_slice() == lines.as_slice() && n == run && found_rests == rests)
}

/// The first row whose run isn't so.
fn wrong_run(alloc: Global, rows: &[Run]) -> Result<Option<usize>, AllocError> {
    for i in 0..rows.len() {
        if !is_run(alloc, rows[i])? {
            return Ok(Some(i));
        }
    }
    Ok(None)
}

static RUNS: [Run; 7] = [
    (b"^XA^FDsome text^FS", b"^XA^FD", b"some text^FS", 9),
    (b"^XA^FH^FDa_41b^FS", b"^XA^FH^FD", b"a_41b^FS", 1),
    (b"^XA^FH^FD_41b^FS", b"^XA^FH^FD_", b"41b^FS", 0),
    (
        b"^XA^GFA,4,4,4,MB 0\t1^FS",
        b"^XA^GFA,4,4,4,",
        b"MB 0\t1^FS",
        2,
    ),
    (
        b"^XA^GFB,5,5,5,\x5E\x7E\r\n,^FS",
        b"^XA^GFB,5,5,5,",
        b"\x5E\x7E\r\n,^FS",
        5,
    ),
    (b"^GFB,9,9,9,\x5E\x7E", b"^GFB,9,9,9,", b"\x5E\x7E", 2),
    (b"^XA^FO1,23^FS", b"^XA^FO1,2", b"3^FS", 0),
];

/// Data taken as runs, as far as they can be.
#[test]
fn runs(rt: HostRuntime) -> Result<(), Fail> {
    same(&rt, &wrong_run(rt.alloc(), &RUNS)?, &None);
    Ok(())
}
