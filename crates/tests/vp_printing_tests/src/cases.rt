//! Streams, and the bytes that they must print.
use crate::labels::{Label, Printed};
use crate::sheet::repeat;
use crate::streams::{Image, Stream};
use crate::{fields, labels, pages, streams, symbols, whole};
use std::alloc::{AllocError, Global};
use std::io::Write;
use std::test::Fail;
use vp_dots::Fault;
use vp_engine::Language;

/// What the cases are streams of.
#[derive(Clone, Copy)]
pub enum Kind {
    /// Receipts without pages and QR symbols.
    Streams,
    Pages,
    /// QR symbols, and symbols on pages.
    Symbols,
    Labels,
}

/// A stream, what it must print, and its fault.
#[derive(Drop)]
pub struct Case {
    pub name: &'static str,
    pub language: Language,
    pub bytes: &'static [u8],
    pub paper: Vec<u8>,
    pub fault: Option<Fault>,
}

/// Adds a row of `width` bytes that begins with `front`.
fn add_row(paper: &mut Vec<u8>, front: &[u8], width: usize) -> Result<(), AllocError> {
    paper.extend_from_slice(front)?;
    repeat(paper, b"\0", width.saturating_sub(front.len()))
}

/// Adds an image of a receipt.
fn add_strip(paper: &mut Vec<u8>, image: &Image, width: usize) -> Result<(), AllocError> {
    paper.extend_from_slice(image.head)?;
    for (count, front) in image.rows {
        for _ in 0..*count {
            add_row(paper, front, width)?;
        }
    }
    Ok(())
}

/// The bytes of the images of a receipt.
fn receipt_paper(alloc: Global, stream: &Stream) -> Result<Vec<u8>, AllocError> {
    let width: usize = match stream.language {
        Language::Receipt58 => 48,
        _ => 72,
    };
    let mut paper = Vec::new(alloc);
    for image in stream.images {
        add_strip(&mut paper, image, width)?;
    }
    Ok(paper)
}

/// Dots x to x + 7 of a row whose dots begin there.
fn eight_dots(left: usize, dots: &[u8], x: usize) -> u8 {
    let mut byte: u8 = 0;
    for i in 0..8usize {
        let at = x.wrapping_add(i).wrapping_sub(left);
        let black = dots.get(at) == Some(&b'#');
        byte = byte.wrapping_mul(2).wrapping_add(u8::from(black));
    }
    byte
}

/// Adds a row of a label.
fn add_dots(paper: &mut Vec<u8>, width: usize, left: usize, dots: &[u8]) -> Result<(), AllocError> {
    for byte in 0..width.div_ceil(8) {
        paper.push(eight_dots(left, dots, byte.wrapping_mul(8)))?;
    }
    Ok(())
}

/// Adds `count` rows of a label that are alike.
fn add_alike(
    paper: &mut Vec<u8>,
    width: usize,
    count: usize,
    left: usize,
    dots: &[u8],
) -> Result<(), AllocError> {
    for _ in 0..count {
        add_dots(paper, width, left, dots)?;
    }
    Ok(())
}

/// Adds the header of an image of a label.
fn add_head(paper: &mut Vec<u8>, width: usize, height: usize) -> Result<(), Fail> {
    write!(paper, "P4\n{width} {height}\n")?;
    Ok(())
}

/// Adds an image of a label.
fn add(paper: &mut Vec<u8>, printed: &Printed) -> Result<(), Fail> {
    add_head(paper, printed.width, printed.height)?;
    let mut below = printed.height;
    for (count, left, dots) in printed.rows {
        add_alike(paper, printed.width, *count, *left, dots)?;
        below = below.wrapping_sub(*count);
    }
    repeat(paper, b"\0", below.wrapping_mul(printed.width.div_ceil(8)))?;
    Ok(())
}

/// What a receipt must come to.
fn receipt(alloc: Global, stream: &Stream) -> Result<Case, AllocError> {
    Ok(Case {
        name: stream.name,
        language: stream.language,
        bytes: stream.bytes,
        paper: receipt_paper(alloc, stream)?,
        fault: stream.fault,
    })
}

/// Adds what these receipts must come to.
fn add_receipts(
    alloc: Global,
    cases: &mut Vec<Case>,
    tables: &[&'static [Stream]],
) -> Result<(), Fail> {
    for table in tables {
        for stream in *table {
            cases.push(receipt(alloc, stream)?)?;
        }
    }
    Ok(())
}

/// The bytes of the images of a label.
fn label_paper(alloc: Global, label: &Label) -> Result<Vec<u8>, Fail> {
    let mut paper = Vec::new(alloc);
    for printed in label.prints {
        for _ in 0..printed.copies {
            add(&mut paper, printed)?;
        }
    }
    Ok(paper)
}

/// What a label must come to.
fn label(alloc: Global, language: Language, label: &Label) -> Result<Case, Fail> {
    Ok(Case {
        name: label.name,
        language,
        bytes: label.bytes,
        paper: label_paper(alloc, label)?,
        fault: label.fault,
    })
}

/// Adds what these labels must come to.
fn add_labels(
    alloc: Global,
    cases: &mut Vec<Case>,
    language: Language,
    tables: &[&'static [Label]],
) -> Result<(), Fail> {
    for table in tables {
        for each in *table {
            cases.push(label(alloc, language, each)?)?;
        }
    }
    Ok(())
}

/// Adds what the cases of a kind must come to.
fn add_cases(alloc: Global, cases: &mut Vec<Case>, kind: Kind) -> Result<(), Fail> {
    match kind {
        Kind::Streams => add_receipts(alloc, cases, &streams::tables()),
        Kind::Pages => add_receipts(alloc, cases, &pages::tables()),
        Kind::Symbols => add_receipts(alloc, cases, &symbols::tables()),
        Kind::Labels => {
            add_labels(alloc, cases, Language::Label, &labels::tables())?;
            add_labels(alloc, cases, Language::Label, &fields::tables())?;
            add_labels(alloc, cases, Language::WholeLabel, &whole::tables())
        }
    }
}

/// What the cases of a kind must come to.
pub fn cases(alloc: Global, kind: Kind) -> Result<Vec<Case>, Fail> {
    let mut cases = Vec::new(alloc);
    add_cases(alloc, &mut cases, kind)?;
    Ok(cases)
}
