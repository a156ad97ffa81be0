//! The lines of the commands that the whole language adds, and of the same bytes in the profile.
use super::listing;
use crate::checks::same;
use std::alloc::{AllocError, Global};
use std::process::Abort;
use std::test::Fail;
use vp_zpl::Reading;

/// Bytes, their lines in the whole language, and in the profile.
type Row = (&'static [u8], &'static [u8], &'static [u8]);

/// Whether the bytes give these lines.
fn gives(alloc: Global, reading: Reading, bytes: &[u8], lines: &[u8]) -> Result<bool, AllocError> {
    let (found, _) = listing(alloc, reading, bytes)?;
    Ok(found.as_slice() == lines)
}

/// The first row whose bytes don't give its lines.
fn wrong_row(alloc: Global, rows: &[Row]) -> Result<Option<usize>, AllocError> {
    for i in 0..rows.len() {
        let (bytes, whole, profile) = rows[i];
        if !gives(alloc, Reading::Whole, bytes, whole)?
            || !gives(alloc, Reading::Profile, bytes, profile)?
        {
            return Ok(Some(i));
        }
    }
    Ok(None)
}

fn right(rt: &impl Abort, alloc: Global, rows: &[Row]) -> Result<(), Fail> {
    same(rt, &wrong_row(alloc, rows)?, &None);
    Ok(())
}

static SYMBOLS: [Row; 9] = [
    (b"^B1N,Y,50,N,Y^", b"^B1N,Y,50,N,Y\n", b"^B1 skipped\n"),
    (b"^b2r,60,y,n,y^", b"^B2r,60,y,n,y\n", b"^B2 skipped\n"),
    (b"^B8,40^", b"^B8,40\n", b"^B8 skipped\n"),
    (b"^B9N,,N^", b"^B9N,,N\n", b"^B9 skipped\n"),
    (b"^BaN,30,Y,N,Y^", b"^BAN,30,Y,N,Y\n", b"^BA skipped\n"),
    (
        b"^BKN,N,20,Y,N,A,B^",
        b"^BKN,N,20,Y,N,A,B\n",
        b"^BK skipped\n",
    ),
    (b"^BMN,D^", b"^BMN,D\n", b"^BM skipped\n"),
    (b"^BS^", b"^BS\n", b"^BS skipped\n"),
    (b"^BUI,9,N^", b"^BUI,9,N\n", b"^BU skipped\n"),
];

/// The linear symbols, by their names in either case.
#[test]
fn symbols(rt: HostRuntime) -> Result<(), Fail> {
    right(&rt, rt.alloc(), &SYMBOLS)
}

static ADDED: [Row; 8] = [
    (
        b"^BXN,4,200,,,,_,1^",
        b"^BXN,4,200,,,,_,1\n",
        b"^BX skipped\n",
    ),
    (b"^b7n,8,5,14^", b"^B7n,8,5,14\n", b"^B7 skipped\n"),
    (b"^BO^", b"^BO\n", b"^BO skipped\n"),
    (b"^B0N,4^", b"^B0N,4\n", b"^B0 skipped\n"),
    (b"^GC40,2,W^", b"^GC40,2,W\n", b"^GC skipped\n"),
    (b"^GE40,20^", b"^GE40,20\n", b"^GE skipped\n"),
    (b"^GD40,20,1,B,/^", b"^GD40,20,1,B,/\n", b"^GD skipped\n"),
    (b"~GC40^", b"~GC skipped\n", b"~GC skipped\n"),
];

/// The two-dimensional symbols and the shapes.
#[test]
fn added(rt: HostRuntime) -> Result<(), Fail> {
    right(&rt, rt.alloc(), &ADDED)
}

static OTHERS: [Row; 6] = [
    (b"^XA^PW8^XZ", b"^XA\n^PW8\n^XZ\n", b"^XA\n^PW8\n^XZ\n"),
    (
        b"^B4^BZ^ZZ^",
        b"^B4 skipped\n^BZ skipped\n^ZZ skipped\n",
        b"^B4 skipped\n^BZ skipped\n^ZZ skipped\n",
    ),
    (b"~B2N^", b"~B2 skipped\n", b"~B2 skipped\n"),
    // an added command is given at the sign that ends it, and one that is skipped at its name
    (b"^XA^B2N,5", b"^XA\n", b"^XA\n^B2 skipped\n"),
    (
        b"^B2N^FDa^",
        b"^B2N\n^FD\nbyte 61\n",
        b"^B2 skipped\n^FD\nbyte 61\n",
    ),
    (
        b"^FH^B2^FD_41^",
        b"^FH\n^B2\n^FD\nbyte 5f\nbyte 34\nbyte 31\n",
        b"^FH\n^B2 skipped\n^FD\nbyte 5f\nbyte 34\nbyte 31\n",
    ),
];

/// What is read alike, and where the readings part.
#[test]
fn others(rt: HostRuntime) -> Result<(), Fail> {
    right(&rt, rt.alloc(), &OTHERS)
}
