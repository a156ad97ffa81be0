//! Symbols on paper, and those that are refused.
use super::{Case, M, Strip, apply, new_receipt, print_by, print_on, put_all, right, wanted};
use crate::checks::same;
use std::alloc::{AllocError, Global};
use std::process::Abort;
use std::test::Fail;
use vp_dots::{Fault, Why};
use vp_esc::{EscReader, Reading};
use vp_receipt::{Receipt, Width};

/// The fault of the last item, and how many bytes all of them print.
fn refused(alloc: Global, sent: &[u8]) -> Result<(Option<Fault>, usize), Fail> {
    let mut receipt = new_receipt(alloc, Width::W576)?;
    let mut paper = Vec::new(alloc);
    let fault = print_on(&mut receipt, sent, 4096, &mut paper)?;
    Ok((fault, paper.len()))
}

/// What is sent, and why the last item is refused.
type Refusal = (&'static [u8], Fault);

/// What is sent has this fault first, and nothing is printed.
fn is_refused(rt: &impl Abort, alloc: Global, sent: &[u8], fault: Fault) -> Result<(), Fail> {
    let found = refused(alloc, sent)?;
    assert_eq!(rt; found, (Some(fault), 0));
    Ok(())
}

/// Each case is refused so.
fn all_are_refused(rt: &impl Abort, alloc: Global, cases: &[Refusal]) -> Result<(), Fail> {
    for (sent, fault) in cases {
        is_refused(rt, alloc, sent, *fault)?;
    }
    Ok(())
}

/// A symbol of 21 modules, each of one dot.
static QR: [Case; 1] = [(
    b"\x1D(k\x03\x001E1\x1D(k\x03\x001C\x01\x1D(k\x0E\x001P0HELLO WORLD\x1D(k\x03\x001Q0",
    &[Strip {
        head: b"P4\n576 21\n",
        rows: &[
            (1, b"\xFE+\xF8"),
            (1, b"\x82\xE2\x08"),
            (1, b"\xBA*\xE8"),
            (1, b"\xBA*\xE8"),
            (1, b"\xBA\xBA\xE8"),
            (1, b"\x82r\x08"),
            (1, b"\xFE\xAB\xF8"),
            (1, b"\x00\x00\x00"),
            (1, b"\xAAH\x90"),
            (1, b"x\x90\x88"),
            (1, b"\x1F\xD2\xC0"),
            (1, b"\xF5\x9Dp"),
            (1, b"OS\xA8"),
            (1, b"\x00\xA2("),
            (1, b"\xFE\x09`"),
            (1, b"\x82c@"),
            (1, b"\xBA\xCB\xF8"),
            (1, b"\xBA5\x10"),
            (1, b"\xBA\xF7H"),
            (1, b"\x82\x1CX"),
            (1, b"\xFE\xD7\x08"),
        ],
    }],
)];

#[test]
fn qr_symbols(rt: HostRuntime) -> Result<(), Fail> {
    right(&rt, rt.alloc(), Width::W576, &QR)
}

/// Takes the bytes that are stored in runs of at most `run`, and all others one by one. How many came in
/// runs comes back.
fn print_in_runs(
    receipt: &mut Receipt,
    sent: &[u8],
    run: usize,
    paper: &mut Vec<u8>,
) -> Result<usize, AllocError> {
    let mut reader = EscReader::new(Reading::Profile);
    let mut rest = sent;
    let mut in_runs = 0usize;
    for _ in 0..sent.len() {
        if receipt.pending() || rest.is_empty() {
            return Ok(in_runs);
        }
        let stored = reader.take_stored(&rest[..run.min(rest.len())]);
        if stored > 0 {
            receipt.apply_stored(&rest[..stored.min(rest.len())]);
            rest = &rest[stored.min(rest.len())..];
            in_runs = in_runs.saturating_add(stored);
        } else {
            if let Ok(Some(item)) = reader.take(rest[0]) {
                let _ = apply(receipt, item);
            }
            rest = &rest[1..];
            put_all(receipt, 4096, paper)?;
        }
    }
    Ok(in_runs)
}

#[test]
fn qr_data_stored_in_runs(rt: HostRuntime) -> Result<(), Fail> {
    let (sent, strips) = QR[0];
    let want = wanted(rt.alloc(), Width::W576, strips)?;
    // of eleven bytes the last one comes alone
    for (run, in_runs) in [(0, 0), (1, 10), (3, 10), (10, 10), (4096, 10)] {
        let mut receipt = new_receipt(rt.alloc(), Width::W576)?;
        let mut paper = Vec::new(rt.alloc());
        let came = print_in_runs(&mut receipt, sent, run, &mut paper)?;
        same(&rt, &came, &in_runs);
        same(&rt, &(paper.as_slice() == want.as_slice()), &true);
    }
    Ok(())
}

static REFUSED_QR: [Refusal; 2] = [
    (b"M\x1D(k\x03\x001Q0", Fault::Symbol(Why::Empty)),
    (
        b"\x1D(k\x04\x001A1\x00\x1D(k\x0E\x001P0HELLO WORLDM\x1D(k\x03\x001Q0",
        Fault::Symbol(Why::Unsupported),
    ),
];

#[test]
fn refused_symbols(rt: HostRuntime) -> Result<(), Fail> {
    all_are_refused(&rt, rt.alloc(), &REFUSED_QR)
}

/// `front` and `back`, with `byte` `count` times between them.
fn filled(
    alloc: Global,
    front: &[u8],
    byte: u8,
    count: usize,
    back: &[u8],
) -> Result<Vec<u8>, AllocError> {
    let mut sent = Vec::new(alloc);
    sent.extend_from_slice(front)?;
    for _ in 0..count {
        sent.push(byte)?;
    }
    sent.extend_from_slice(back)?;
    Ok(sent)
}

#[test]
fn more_than_a_qr_symbol_holds(rt: HostRuntime) -> Result<(), Fail> {
    let front = b"\x1D(k\x90\x021P0";
    let sent = filled(rt.alloc(), front, b'1', 653, b"\x1D(k\x03\x001Q0")?;
    is_refused(&rt, rt.alloc(), sent.as_slice(), Fault::SymbolTooLong)
}

#[test]
fn as_much_qr_data_as_a_command_holds(rt: HostRuntime) -> Result<(), Fail> {
    let front = b"\x1D(k\xFF\xFF1P0";
    let sent = filled(rt.alloc(), front, b'1', 65532, b"\x1D(k\x03\x001Q0")?;
    is_refused(&rt, rt.alloc(), sent.as_slice(), Fault::SymbolTooLong)
}

#[test]
fn a_qr_symbol_wider_than_the_line(rt: HostRuntime) -> Result<(), Fail> {
    let front = b"\x1D(k\x8F\x021P0";
    let back = b"\x1D(k\x03\x001C\x0BM\x1D(k\x03\x001Q0";
    let sent = filled(rt.alloc(), front, b'1', 652, back)?;
    is_refused(&rt, rt.alloc(), sent.as_slice(), Fault::SymbolTooWide)
}

static BAR_CODES: [Case; 2] = [
    (
        b"\x1Dw\x02\x1Dh\x01\x1Dk\x04A\0",
        &[Strip {
            head: b"P4\n576 1\n",
            rows: &[(1, b"\xC1\x9F\x3E\x67\xCC\xC1\x9F\x30\x67\xCF\x98")],
        }],
    ),
    (
        b"M\x1Dw\x02\x1Dh\x01\x1DH\x02\x1Dk\x043\0",
        &[
            M,
            Strip {
                head: b"P4\n576 25\n",
                rows: &[
                    (1, b"\xC1\x9F\x3E\x67\xCF\x83\x33\x30\x67\xCF\x98"),
                    (24, b"\0\0\0\0\x0F\xFF"),
                ],
            },
        ],
    ),
];

#[test]
fn bar_codes(rt: HostRuntime) -> Result<(), Fail> {
    right(&rt, rt.alloc(), Width::W576, &BAR_CODES)
}

static REFUSED_BARS: [Refusal; 6] = [
    (b"M\x1Dw\x03\x1Dk\x0212\0", Fault::Symbol(Why::Length)),
    (b"M\x1Dw\x06\x1Dk\x04AAAAA\0", Fault::SymbolTooWide),
    (b"M\x1Dw\x03\x1DkA\x010", Fault::Symbol(Why::Unsupported)),
    (b"M\x1Dw\x03\x1Dk\x04\0", Fault::Symbol(Why::Empty)),
    (b"M\x1Dw\x03\x1Dk\x04a\0", Fault::Symbol(Why::Char)),
    (b"M\x1Dw\x03\x1DkI\x01A", Fault::Symbol(Why::CodeSet)),
];

#[test]
fn refused_bar_codes(rt: HostRuntime) -> Result<(), Fail> {
    all_are_refused(&rt, rt.alloc(), &REFUSED_BARS)?;
    let sent = filled(rt.alloc(), b"M\x1Dw\x03\x1Dk\x04", b'A', 256, b"\0")?;
    is_refused(&rt, rt.alloc(), sent.as_slice(), Fault::SymbolTooLong)
}

/// A bar code that the whole language adds, with modules of two dots, and its bars as an encoder from outside
/// has them.
static ADDED_BAR_CODES: [Case; 8] = [
    (
        b"\x1Dw\x02\x1Dh\x01\x1Dk\x0003600029145\0",
        &[Strip {
            head: b"P4\n576 1\n",
            rows: &[(
                1,
                b"\xCC\x0F\x33\xFC\xCC\xFF\x03\xCC\x0F\x30\x3C\xCC\
    \xCF\x3C\x3F\x30\xF0\xF3\x3F\x0C\x3F\x3C\xF0\xCC",
            )],
        }],
    ),
    (
        b"\x1Dw\x02\x1Dh\x01\x1DkB\x06654321",
        &[Strip {
            head: b"P4\n576 1\n",
            rows: &[(1, b"\xCC\x03\x33\xC0\xC3\xF3\x3F\xCC\x3C\xF0\xF0\xCC\xCC")],
        }],
    ),
    (
        b"\x1Dw\x02\x1Dh\x01\x1Dk\x037351353\0",
        &[Strip {
            head: b"P4\n576 1\n",
            rows: &[(
                1,
                b"\xCC\xFC\xF3\xFC\xCF\x03\x0F\x0C\xCC\xC0\x33\x0F\xCC\x03\x30\x30\xCC",
            )],
        }],
    ),
    (
        b"\x1Dw\x02\x1Dh\x01\x1DkF\x0812345670",
        &[Strip {
            head: b"P4\n576 1\n",
            rows: &[(
                1,
                b"\xCC\xF9\x83\x33\xE0\xF9\xF3\x06\x60\xF9\x83\xE0\xCC\xCC\xC1\xF0\x7C\xF9\x80",
            )],
        }],
    ),
    (
        b"\x1Dw\x02\x1Dh\x01\x1Dk\x06A40156B\0",
        &[Strip {
            head: b"P4\n576 1\n",
            rows: &[(
                1,
                b"\xCF\x83\x06\x67\xCC\x19\x99\x83\xE6\x67\xC1\x9F\x33\x06\x60\xCC\xF9\x83\x06\x7C",
            )],
        }],
    ),
    (
        b"\x1Dw\x02\x1Dh\x01\x1DkG\x07a40156b",
        &[Strip {
            head: b"P4\n576 1\n",
            rows: &[(
                1,
                b"\xCF\x83\x06\x67\xCC\x19\x99\x83\xE6\x67\xC1\x9F\x33\x06\x60\xCC\xF9\x83\x06\x7C",
            )],
        }],
    ),
    (
        b"\x1Dw\x02\x1Dh\x01\x1DkB\x0806543217",
        &[Strip {
            head: b"P4\n576 1\n",
            rows: &[(1, b"\xCC\x03\x33\xC0\xC3\xF3\x3F\xCC\x3C\xF0\xF0\xCC\xCC")],
        }],
    ),
    (
        b"\x1Dw\x02\x1Dh\x01\x1DkH\x06TEST93",
        &[Strip {
            head: b"P4\n576 1\n",
            rows: &[(
                1,
                b"\xCC\xFF\x3C\xC3\xCF\x0C\x33\xCC\xF0\xF3\x0F\x30\
    \x0C\xCC\xC0\x33\x3F\x3C\xC3\x03\x33\x3F\xCC",
            )],
        }],
    ),
];

/// The fault in the whole language, and whether just these strips are printed.
fn in_whole(alloc: Global, sent: &[u8], strips: &[Strip]) -> Result<(Option<Fault>, bool), Fail> {
    let mut receipt = new_receipt(alloc, Width::W576)?;
    let mut paper = Vec::new(alloc);
    let fault = print_by(Reading::Whole, &mut receipt, sent, 4096, &mut paper)?;
    let want = wanted(alloc, Width::W576, strips)?;
    Ok((fault, paper.as_slice() == want.as_slice()))
}

#[test]
fn bar_codes_that_the_whole_language_adds(rt: HostRuntime) -> Result<(), Fail> {
    for (sent, strips) in &ADDED_BAR_CODES {
        same(&rt, &in_whole(rt.alloc(), sent, strips)?, &(None, true));
        is_refused(&rt, rt.alloc(), sent, Fault::Symbol(Why::Unsupported))?;
    }
    Ok(())
}

/// Kinds that the whole language reads and doesn't draw, and data that a kind hasn't.
static REFUSED_IN_WHOLE: [Refusal; 5] = [
    (b"\x1DkJ\x0212", Fault::Symbol(Why::Unsupported)),
    (b"\x1DkO\x0212", Fault::Symbol(Why::Unsupported)),
    (b"\x1Dk\x017654321\0", Fault::Symbol(Why::Length)),
    (b"\x1DkG\x03a1e", Fault::Symbol(Why::Char)),
    (b"\x1DkH\x03A\x80B", Fault::Symbol(Why::Char)),
];

#[test]
fn bar_codes_that_the_whole_language_refuses(rt: HostRuntime) -> Result<(), Fail> {
    for (sent, fault) in &REFUSED_IN_WHOLE {
        same(
            &rt,
            &in_whole(rt.alloc(), sent, &[])?,
            &(Some(*fault), true),
        );
    }
    Ok(())
}
