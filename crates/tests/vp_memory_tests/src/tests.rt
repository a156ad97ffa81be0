use std::alloc::Global;
use std::test::Fail;
use vp_dots::{Band, Store};
use vp_engine::{Counted, Language, Printer, Session, State, print_all};
use vp_format::Format;
use vp_glyph::{Sheet, Sheets};
use vp_label::Label;
use vp_receipt::{Receipt, Width};

/// A raster of a row, and the image that it prints.
const ROW: &[u8] = b"\x1dv0\x00\x01\x00\x01\x00\x80";

const HEAD: &[u8] = b"P4\n576 1\n\x80";

/// A label of a box, and the image that it prints.
const BOX: &[u8] = b"^XA^PW8^LL1^GB4,1,1^FS^XZ";

const BOXED: &[u8] = b"P4\n8 1\n\xF0";

/// No sheets: the cells of fonts are white.
const BLANK: Sheets = Sheets { a: None, b: None };

/// The font A of white cells.
fn white(alloc: Global) -> Result<Sheets, Fail> {
    let mut image = [0; 9227];
    image[..11].copy_from_slice(b"P4\n192 384\n");
    Ok(Sheets {
        a: Some(Sheet::read(alloc, &image, 12, 24)?),
        b: None,
    })
}

#[test]
fn bands_and_stores(rt: HostRuntime) -> Result<(), Fail> {
    let band = Band::<72, 2>::new(rt.alloc())?;
    assert_eq!(rt; band.get(575, 1), Some(false));
    let mut store = Store::<2>::new(rt.alloc())?;
    assert!(rt; store.push(1).is_ok());
    Ok(())
}

#[test]
fn sheets(rt: HostRuntime) -> Result<(), Fail> {
    let sheets = white(rt.alloc())?;
    assert!(rt; sheets.a.is_some());
    Ok(())
}

#[test]
fn receipts(rt: HostRuntime) -> Result<(), Fail> {
    let sheets = white(rt.alloc())?;
    let receipt = Receipt::new(rt.alloc(), sheets, Width::W384)?;
    assert!(rt; receipt.at_rest());
    Ok(())
}

#[test]
fn formats(rt: HostRuntime) -> Result<(), Fail> {
    let mut format = Format::new(rt.alloc())?;
    assert!(rt; format.keep(BOX).is_ok());
    assert_eq!(rt; format.stored(), BOX);
    Ok(())
}

#[test]
fn labels(rt: HostRuntime) -> Result<(), Fail> {
    let label = Label::new(rt.alloc(), BLANK)?;
    assert!(rt; label.at_rest());
    Ok(())
}

#[test]
fn printers(rt: HostRuntime) -> Result<(), Fail> {
    let sheets = white(rt.alloc())?;
    let mut printer = Printer::new(rt.alloc(), Language::Receipt, sheets)?;
    let mut paper = [0; 96];
    let step = printer.step(ROW, &mut paper);
    assert_eq!(rt; step.put, 81);
    assert_eq!(rt; step.state, State::More);
    assert!(rt; paper.starts_with(HEAD));
    Ok(())
}

#[test]
fn whole_inputs(rt: HostRuntime) -> Result<(), Fail> {
    let sheets = white(rt.alloc())?;
    let (paper, fault) = print_all(rt.alloc(), Language::Receipt, sheets, ROW)?;
    assert_eq!(rt; fault, None);
    assert_eq!(rt; paper.len(), 81);
    assert!(rt; paper.as_slice().starts_with(HEAD));
    Ok(())
}

#[test]
fn sessions(rt: HostRuntime) -> Result<(), Fail> {
    let sheets = white(rt.alloc())?;
    let mut session = Session::new(rt.alloc(), Language::Receipt, sheets)?;
    let mut paper = [0; 96];
    let mut reader = Counted::new(ROW);
    let mut writer = Counted::new(paper.as_mut_slice());
    assert!(rt; session.pump(&mut reader, &mut writer).is_ok());
    assert!(rt; paper.starts_with(HEAD));
    Ok(())
}

#[test]
fn label_printers(rt: HostRuntime) -> Result<(), Fail> {
    let mut printer = Printer::new(rt.alloc(), Language::Label, BLANK)?;
    let mut paper = [0; 8];
    let step = printer.step(BOX, &mut paper);
    assert_eq!(rt; step.put, 8);
    assert_eq!(rt; step.state, State::More);
    assert!(rt; paper.starts_with(BOXED));
    Ok(())
}

#[test]
fn whole_labels(rt: HostRuntime) -> Result<(), Fail> {
    let sheets = white(rt.alloc())?;
    let (paper, fault) = print_all(rt.alloc(), Language::Label, sheets, BOX)?;
    assert_eq!(rt; fault, None);
    assert_eq!(rt; paper.as_slice(), BOXED);
    Ok(())
}

#[test]
fn label_sessions(rt: HostRuntime) -> Result<(), Fail> {
    let mut session = Session::new(rt.alloc(), Language::Label, BLANK)?;
    let mut paper = [0; 8];
    let mut reader = Counted::new(BOX);
    let mut writer = Counted::new(paper.as_mut_slice());
    assert!(rt; session.pump(&mut reader, &mut writer).is_ok());
    assert!(rt; paper.starts_with(BOXED));
    Ok(())
}
