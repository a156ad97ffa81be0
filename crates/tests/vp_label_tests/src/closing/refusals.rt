//! Why fields are refused.
use super::closed;
use crate::checks::same;
use std::alloc::{AllocError, Global};
use std::process::Abort;
use std::test::Fail;
use vp_dots::{Fault, Why};

/// The first row whose field, which these bytes begin, with these data is refused for another reason.
fn wrong_row(
    alloc: Global,
    rows: &[(&[u8], &[u8], Option<Fault>)],
) -> Result<Option<usize>, AllocError> {
    for i in 0..rows.len() {
        let (before, data, want) = rows[i];
        let mut stream = before.to_vec(alloc)?;
        stream.extend_from_slice(data)?;
        stream.extend_from_slice(b"^FS")?;
        let (count, _, refused) = closed(alloc, stream.as_slice())?;
        if refused != want || (count == 0) != (want != None) {
            return Ok(Some(i));
        }
    }
    Ok(None)
}

/// Each row's field is closed, or refused for its reason.
fn right(
    rt: &impl Abort,
    alloc: Global,
    rows: &[(&[u8], &[u8], Option<Fault>)],
) -> Result<(), AllocError> {
    same(rt, &wrong_row(alloc, rows)?, &None);
    Ok(())
}

const EMPTY: Option<Fault> = Some(Fault::Symbol(Why::Empty));

const UNSUPPORTED: Option<Fault> = Some(Fault::Symbol(Why::Unsupported));

const CODE_SET: Option<Fault> = Some(Fault::Symbol(Why::CodeSet));

const CHAR: Option<Fault> = Some(Fault::Symbol(Why::Char));

/// Bars of data, some of a kind that isn't drawn.
static BARS: [(&[u8], &[u8], Option<Fault>); 14] = [
    (b"^XA^BC,,,,,U^FD", b"", UNSUPPORTED),
    (b"^XA^BC,,,,,U^FD", b"1", UNSUPPORTED),
    (b"^XA^BC,,,,,D^FD", b"1", UNSUPPORTED),
    (b"^XA^BC^FD", b"", EMPTY),
    (b"^XA^BC^FD", b">;1A", EMPTY),
    (b"^XA^BC^FD", b"A>9", CODE_SET),
    (b"^XA^BC^FD", b">;123", None),
    (b"^XA^BC,,,,,A^FD", b"A>9", None),
    (b"^XA^B3^FD", b"**", EMPTY),
    (b"^XA^B3^FD", b"a", CHAR),
    (b"^XA^B3^FD", &[b'A'; 255], None),
    (b"^XA^B3^FD", &[b'A'; 256], Some(Fault::SymbolTooLong)),
    (b"^XA^BE^FD", b"1", None),
    (b"^XA^BE^FD", b"1 ", CHAR),
];

/// Bars whose kind isn't drawn, then those without data, then the first offence.
#[test]
fn bar_codes(rt: HostRuntime) -> Result<(), Fail> {
    right(&rt, rt.alloc(), &BARS)?;
    Ok(())
}

/// QR symbols of data.
static QR_SYMBOLS: [(&[u8], &[u8], Option<Fault>); 6] = [
    (b"^XA^BQ,1^FD", b"", UNSUPPORTED),
    (b"^XA^BQ,2^FD", b"", EMPTY),
    (b"^XA^BQ,2^FD", b"XA,1", CODE_SET),
    (b"^XA^BQ,2^FD", b"HM,N1A", CHAR),
    (b"^XA^BQ,2^FD", b"HA,", EMPTY),
    (b"^XA^BQ,2^FD", b"HA,1", None),
];

/// A QR symbol is refused for its model, then for want of data, then by its front, then by its bytes.
#[test]
fn qr_codes(rt: HostRuntime) -> Result<(), Fail> {
    right(&rt, rt.alloc(), &QR_SYMBOLS)?;
    Ok(())
}

const GRAPHIC: Option<Fault> = Some(Fault::Graphic);

/// Pictures of codes: first row, a row's end, behind the row, a count in two rows and behind one, many rows.
static PICTURES: [(&[u8], &[u8], Option<Fault>); 6] = [
    (b"^XA^GFA,,2,1,", b":Z64:x", GRAPHIC),
    (b"^XA^GFA,,4,2,", b"FFFF8:", GRAPHIC),
    (b"^XA^GFA,,1,1,", b"80:x", None),
    (b"^XA^GFA,,2,1,", b"80G", GRAPHIC),
    (b"^XA^GFA,,1,1,", b"80G", None),
    (b"^XA^GFA,,99999999,1,", b"zz0", None),
];

/// Codes are refused in any row, and not behind the last one.
#[test]
fn pictures(rt: HostRuntime) -> Result<(), Fail> {
    right(&rt, rt.alloc(), &PICTURES)?;
    Ok(())
}
