//! A printer that took a front of one stream begins anew, and prints another as a new one does.
use crate::cases::{Case, Kind, cases};
use crate::checks::same;
use crate::sheet::{sheet, sheets};
use crate::ways::end;
use std::alloc::Global;
use std::process::Abort;
use std::test::Fail;
use vp_engine::{Language, Printer, State};

/// Takes a front of a stream, of which at most 1,000 bytes are put out.
fn take_front(printer: &mut Printer, front: &[u8]) {
    let mut rest = front;
    for _ in 0..10u32 {
        let step = printer.step(rest, &mut [0; 100]);
        rest = &rest[step.taken.min(rest.len())..];
    }
}

/// Prints a stream, at most 1,024 bytes of its paper a step.
fn print(printer: &mut Printer, bytes: &[u8], paper: &mut Vec<u8>) -> Result<State, Fail> {
    let mut state = State::More;
    let mut rest = bytes;
    for _ in 0..2000u32 {
        let mut output = [0; 1024];
        let step = printer.step(rest, &mut output);
        paper.extend_from_slice(&output[..step.put.min(1024)])?;
        rest = &rest[step.taken.min(rest.len())..];
        state = step.state;
    }
    Ok(state)
}

/// Behind a front of a stream a printer begins anew, and prints a case.
fn prints_anew(
    rt: &impl Abort,
    alloc: Global,
    printer: &mut Printer,
    front: &[u8],
    case: &Case,
) -> Result<(), Fail> {
    take_front(printer, front);
    let memory = printer.memory();
    printer.begin_anew();
    let begun = (
        printer.pending(),
        printer.stopped(),
        printer.work(),
        printer.memory(),
    );
    same(rt, case.name, &begun, &(false, None, 0, memory));
    let mut paper = Vec::new(alloc);
    let state = print(printer, case.bytes, &mut paper)?;
    let want = (case.paper.as_slice(), end(case.fault));
    same(rt, case.name, &(paper.as_slice(), state), &want);
    Ok(())
}

/// One printer prints all cases of a language, each behind these streams, whole and cut in half.
fn all_print_anew(
    rt: &impl Abort,
    alloc: Global,
    language: Language,
    kind: Kind,
    streams: &[&[u8]],
) -> Result<(), Fail> {
    let image = sheet(alloc)?;
    let mut printer = Printer::new(alloc, language, sheets(alloc, image.as_slice()))?;
    let cases = cases(alloc, kind)?;
    for case in &cases {
        if case.language == language {
            for stream in streams {
                prints_anew(rt, alloc, &mut printer, stream, case)?;
                prints_anew(rt, alloc, &mut printer, &stream[..stream.len() / 2], case)?;
            }
        }
    }
    Ok(())
}

/// Settings, an open line, stored bytes of a symbol, and a page that is laid on; half of a raster; a fault.
const RECEIPTS: &[&[u8]] = &[
    b"\x1DL\x20\x00\x1BD\x03\x00\x1BE\x01\x1B3\x50\x1Dh\x20\x1D(k\x06\x001P0abcdef",
    b"\x1BLpage\x0A\x1BT\x01up\x0Along\x1BJ\x40more",
    b"AB\x0A\x1Dv0\x00\x02\x00\x04\x00\xFF\xFF\xFF\xFF\xFF",
    b"text\x1B\x7F",
];

/// A format that is open, with settings that outlive it; one of many copies; half of a command.
const LABELS: &[&[u8]] = &[
    b"^XA^CF0,60^LH40,40^POI^PMY^LRY^FWR^BY5^FO10,10^FDopen^FS^FO20,20^FR^FD",
    b"^XA^PW200^LL100^PQ99999999^FO0,0^GB50,50,20^FS^XZ",
    b"^XA^PW80^LL80^FO0,0^GFA,10,10,1,FFFF",
    b"^XA^FO0,0^FH_^FDa_4",
];

#[test]
fn receipts_print_as_on_a_new_printer(rt: HostRuntime) -> Result<(), Fail> {
    all_print_anew(&rt, rt.alloc(), Language::Receipt, Kind::Streams, RECEIPTS)?;
    all_print_anew(&rt, rt.alloc(), Language::Receipt, Kind::Pages, RECEIPTS)
}

#[test]
fn symbols_print_as_on_a_new_printer(rt: HostRuntime) -> Result<(), Fail> {
    all_print_anew(&rt, rt.alloc(), Language::Receipt, Kind::Symbols, RECEIPTS)
}

#[test]
fn labels_print_as_on_a_new_printer(rt: HostRuntime) -> Result<(), Fail> {
    all_print_anew(&rt, rt.alloc(), Language::Label, Kind::Labels, LABELS)
}
