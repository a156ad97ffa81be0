//! What stands from one call to the next: a session behind a failed write and behind the end of the
//! input, a printer without room, and the faults of a format that is full.
use crate::checks::{same, same_at};
use crate::pieces::{Sips, reader, writer};
use crate::sheet::{joined, repeat, repeated, sheet, sheets};
use crate::ways::pump;
use std::alloc::Global;
use std::process::Abort;
use std::test::Fail;
use vp_dots::Fault;
use vp_engine::{
    Counted, Language, Printer, Report, RunFault, Session, Sink, Source, State, print_all,
};
use vp_glyph::Sheets;

/// No font is drawn.
const NO_SHEETS: Sheets = Sheets { a: None, b: None };

/// A session comes to this between a reader and a writer.
fn pumps<S: Source, K: Sink>(
    rt: &impl Abort,
    session: &mut Session,
    reader: &mut S,
    writer: &mut K,
    want: Result<Report, RunFault>,
) {
    same(rt, "answer", &session.pump(reader, writer), &want);
}

/// A stream, and how many bytes it prints.
#[derive(Drop)]
struct Written {
    language: Language,
    bytes: &'static [u8],
    written: usize,
}

/// Reverses one box by another, on two copies.
const TWICE: &[u8] = b"^XA^PW16^LL2^PQ2^FO0,0^GB8,2,2^FS^FO4,0^FR^GB8,2,2^FS^XZ";

static WRITTEN: &[Written] = &[
    Written {
        language: Language::Receipt,
        bytes: b"\x1Dv0\x00\x01\x00\x02\x00\x80\x01",
        written: 153,
    },
    Written {
        language: Language::Label,
        bytes: TWICE,
        written: 24,
    },
];

/// A byte a call was written, and one call failed.
fn has_sipped(rt: &impl Abort, sips: &Sips, written: usize) {
    let want = (written, written.saturating_add(1));
    same(
        rt,
        "bytes and calls",
        &(sips.bytes.len(), sips.calls),
        &want,
    );
}

/// The writer takes one byte a call, and fails at the ninth.
fn goes_on_at_the_ninth(rt: &impl Abort, alloc: Global, session: &mut Session, stream: &Written) {
    let mut reader = Counted::new(stream.bytes);
    let mut writer = writer(alloc, 1, 9);
    pumps(rt, session, &mut reader, &mut writer, Err(RunFault::Write));
    let whole = Report {
        taken: stream.bytes.len() as u64,
        written: stream.written as u64,
    };
    pumps(rt, session, &mut reader, &mut writer, Ok(whole));
    has_sipped(rt, &writer.into_inner(), stream.written);
}

/// A new session goes on where its writer, which takes one byte a call, fails at the ninth.
fn goes_on_writing(
    rt: &impl Abort,
    alloc: Global,
    image: &[u8],
    stream: &Written,
) -> Result<(), Fail> {
    let mut session = Session::new(alloc, stream.language, sheets(alloc, image))?;
    goes_on_at_the_ninth(rt, alloc, &mut session, stream);
    Ok(())
}

#[test]
fn goes_on_behind_the_byte_that_was_written_last(rt: HostRuntime) -> Result<(), Fail> {
    let image = sheet(rt.alloc())?;
    for stream in WRITTEN {
        goes_on_writing(&rt, rt.alloc(), &image, stream)?;
    }
    Ok(())
}

/// A raster, of which so many bytes are listed.
fn listed_raster(written: usize) -> Written {
    Written {
        language: Language::Receipt,
        bytes: b"\x1Dv0\x00\x01\x00\x02\x00\x80\x01",
        written,
    }
}

#[test]
fn goes_on_behind_the_byte_of_a_line_that_was_written_last(rt: HostRuntime) {
    let mut alone = Session::listing(Language::Receipt);
    goes_on_at_the_ninth(&rt, rt.alloc(), &mut alone, &listed_raster(40));
    let mut placed = Session::listing_with_offsets(Language::Receipt);
    goes_on_at_the_ninth(&rt, rt.alloc(), &mut placed, &listed_raster(47));
}

/// A stream that ends early, what it comes to then, and what the rest of it comes to: the paper of both, in
/// parts, each with how often it comes.
struct GoneOn {
    language: Language,
    front: &'static [u8],
    early: RunFault,
    back: &'static [u8],
    whole: Report,
    paper: &'static [(&'static [u8], usize)],
}

static GONE_ON: &[GoneOn] = &[
    GoneOn {
        language: Language::Label,
        front: b"^XA^FO0,0^GB8,2,2^FS",
        early: RunFault::Print {
            fault: Fault::Unprinted,
            after: 20,
        },
        back: b"^PW8^LL2^XZ",
        whole: Report {
            taken: 31,
            written: 9,
        },
        paper: &[(b"P4\n8 2\n\xFF\xFF", 1)],
    },
    GoneOn {
        language: Language::Receipt,
        front: b"\x1Dv0\x00\x01\x00\x02\x00\x80",
        early: RunFault::Print {
            fault: Fault::Truncated,
            after: 9,
        },
        back: b"\x01",
        whole: Report {
            taken: 10,
            written: 153,
        },
        paper: &[
            (b"P4\n576 2\n\x80", 1),
            (b"\0", 71),
            (b"\x01", 1),
            (b"\0", 71),
        ],
    },
];

fn goes_on(rt: &impl Abort, alloc: Global, session: &mut Session, stream: &GoneOn, paper: &[u8]) {
    let mut writer = Counted::new(Vec::new(alloc));
    let mut first = Counted::new(stream.front);
    pumps(rt, session, &mut first, &mut writer, Err(stream.early));
    let mut second = Counted::new(stream.back);
    pumps(rt, session, &mut second, &mut writer, Ok(stream.whole));
    let written: Vec<u8> = writer.into_inner();
    same(rt, "paper", &written.as_slice(), &paper);
}

/// A new session prints the front of a stream, which ends early, and goes on with its back.
fn goes_on_printing(rt: &impl Abort, alloc: Global, stream: &GoneOn) -> Result<(), Fail> {
    let paper = joined(alloc, stream.paper)?;
    let mut session = Session::new(alloc, stream.language, NO_SHEETS)?;
    goes_on(rt, alloc, &mut session, stream, &paper);
    Ok(())
}

#[test]
fn goes_on_in_the_next_input(rt: HostRuntime) -> Result<(), Fail> {
    for stream in GONE_ON {
        goes_on_printing(&rt, rt.alloc(), stream)?;
    }
    Ok(())
}

/// A feed, and a command that isn't known: the fault is answered again, and nothing is read or written.
fn answers_again(rt: &impl Abort, alloc: Global, session: &mut Session, paper: &[u8]) {
    let mut first = reader(b"\x1BJ\x02\x1B\x7F\x0A", 6, 0);
    let mut writer = writer(alloc, 4096, 0);
    let fault = RunFault::Print {
        fault: UNKNOWN,
        after: 5,
    };
    pumps(rt, session, &mut first, &mut writer, Err(fault));
    let mut second = reader(b"M\x0A", 2, 0);
    pumps(rt, session, &mut second, &mut writer, Err(fault));
    let (sips, calls) = (writer.into_inner(), second.into_inner().calls);
    let found = (sips.bytes.as_slice(), sips.calls, calls);
    same(rt, "paper, writes, reads", &found, &(paper, 1, 0));
}

#[test]
fn stays_at_its_fault(rt: HostRuntime) -> Result<(), Fail> {
    let paper = repeated(rt.alloc(), b"P4\n576 2\n", b"\0", 144)?;
    let mut session = Session::new(rt.alloc(), Language::Receipt, NO_SHEETS)?;
    answers_again(&rt, rt.alloc(), &mut session, &paper);
    Ok(())
}

/// A step: its input, its room, how many bytes it takes and puts out, what it comes to, and what its output
/// begins with.
type Stage = (&'static [u8], usize, (usize, usize, State), &'static [u8]);

/// A step, the nth of a printer, comes to what it says.
fn steps(rt: &impl Abort, printer: &mut Printer, n: usize, stage: &Stage) {
    let (input, room, want, front) = *stage;
    let mut out = [0; 81];
    let step = printer.step(input, &mut out[..room.min(81)]);
    let found = (step.taken, step.put, step.state);
    let begins = &out[..front.len().min(81)];
    same_at(rt, "step", n, &(found, begins), &(want, front));
}

/// The steps of a printer come to what they say.
fn each_steps(rt: &impl Abort, printer: &mut Printer, stages: &[Stage]) {
    for (n, stage) in stages.iter().enumerate() {
        steps(rt, printer, n, stage);
    }
}

/// A raster of two rows, the first of which has room in one part, and the other in the next one.
static ROWS: [Stage; 3] = [
    (
        b"\x1Dv0\x00\x01\x00\x02\x00\x80\x01",
        0,
        (8, 0, State::Room),
        b"",
    ),
    (b"\x80\x01", 81, (2, 81, State::Room), b"P4\n576 2\n\x80"),
    (b"", 72, (0, 72, State::More), b"\x01"),
];

#[test]
fn waits_for_room(rt: HostRuntime) -> Result<(), Fail> {
    let mut printer = Printer::new(rt.alloc(), Language::Receipt, NO_SHEETS)?;
    each_steps(&rt, &mut printer, &ROWS);
    Ok(())
}

/// The fault of a command that isn't known.
const UNKNOWN: Fault = Fault::Unknown(0x1B, 0x7F);

static STOPPED: [Stage; 2] = [
    (b"\x1B\x7F", 16, (2, 0, State::Stopped(UNKNOWN)), b""),
    (b"\x0A", 16, (0, 0, State::Stopped(UNKNOWN)), b""),
];

/// What a printer ends in; nothing where anything is pending.
pub fn ending(printer: &Printer) -> Option<Result<(), Fault>> {
    if printer.pending() {
        return None;
    }
    Some(printer.finish())
}

#[test]
fn stays_stopped(rt: HostRuntime) -> Result<(), Fail> {
    let mut printer = Printer::new(rt.alloc(), Language::Receipt, NO_SHEETS)?;
    each_steps(&rt, &mut printer, &STOPPED);
    same(&rt, "finish", &ending(&printer), &Some(Err(UNKNOWN)));
    Ok(())
}

/// The whole paper of a stream, and its fault.
fn prints(
    rt: &impl Abort,
    alloc: Global,
    language: Language,
    bytes: &[u8],
    (paper, want): (&[u8], Option<Fault>),
) -> Result<(), Fail> {
    let (found, fault) = print_all(alloc, language, NO_SHEETS, bytes)?;
    same(
        rt,
        "paper and fault",
        &(found.as_slice(), fault),
        &(paper, want),
    );
    Ok(())
}

/// A raster of a row that is as wide as can be said.
#[test]
fn the_widest_raster(rt: HostRuntime) -> Result<(), Fail> {
    let bytes = repeated(rt.alloc(), b"\x1Dv0\x00\xFF\xFF\x01\x00", b"\xFF", 65535)?;
    let black = repeated(rt.alloc(), b"P4\n576 1\n", b"\xFF", 72)?;
    prints(&rt, rt.alloc(), Language::Receipt, &bytes, (&black, None))
}

/// 99,999,999 copies, more than an output holds: each call puts out the next one.
static COPIES: [Stage; 4] = [
    (
        b"^XA^PW8^LL1^PQ99999999^GB8,1,1^FS^XZ",
        0,
        (36, 0, State::Room),
        b"",
    ),
    (b"", 8, (0, 8, State::Room), b"P4\n8 1\n\xFF"),
    (b"", 8, (0, 8, State::Room), b"P4\n8 1\n\xFF"),
    (b"", 8, (0, 8, State::Room), b"P4\n8 1\n\xFF"),
];

#[test]
fn copies_come_as_there_is_room(rt: HostRuntime) -> Result<(), Fail> {
    let mut printer = Printer::new(rt.alloc(), Language::Label, NO_SHEETS)?;
    each_steps(&rt, &mut printer, &COPIES);
    Ok(())
}

/// A session prints `paper` of a label and stops at `fault`, behind `after` bytes.
fn is_refused(
    rt: &impl Abort,
    alloc: Global,
    bytes: &[u8],
    paper: &[u8],
    (fault, after): (Fault, u64),
) -> Result<(), Fail> {
    let pumped = pump(alloc, b"", Language::Label, bytes, 4096, (0, 0))?;
    let want = (paper, Err(RunFault::Print { fault, after }));
    same(
        rt,
        "paper and fault",
        &(pumped.paper.as_slice(), pumped.first),
        &want,
    );
    Ok(())
}

/// As many fields as a format holds, and in the next one a field more.
static FULL_OF_FIELDS: [(&[u8], usize); 5] = [
    (b"^XA^PW8^LL1", 1),
    (b"^GB1,1,1^FS", 1024),
    (b"^XZ^XA", 1),
    (b"^GB1,1,1^FS", 1025),
    (b"^XZ", 1),
];

/// None of the fields is printed where there is one more than a format holds.
#[test]
fn one_field_more_than_are_held(rt: HostRuntime) -> Result<(), Fail> {
    let bytes = joined(rt.alloc(), &FULL_OF_FIELDS)?;
    // the first format, ^XA and the 1,025 fields
    let after = (11 + 1024 * 11 + 3) + (3 + 1025 * 11);
    is_refused(
        &rt,
        rt.alloc(),
        &bytes,
        b"P4\n8 1\n\x80",
        (Fault::FieldsFull, after),
    )
}

/// Data that a format holds print nothing, and a byte more is refused.
fn one_more_is_refused(rt: &impl Abort, alloc: Global, bytes: &mut Vec<u8>) -> Result<(), Fail> {
    let held = (b"".as_slice(), Some(Fault::Truncated));
    prints(rt, alloc, Language::Label, bytes, held)?;
    repeat(bytes, b"M^FS^XZ", 1)?;
    is_refused(rt, alloc, bytes, b"", (Fault::StoreFull, 6 + 262145))
}

/// As many bytes of data as a format holds, and one more.
#[test]
fn one_byte_more_than_is_held(rt: HostRuntime) -> Result<(), Fail> {
    let mut bytes = repeated(rt.alloc(), b"^XA^FD", b"M", 262144)?;
    one_more_is_refused(&rt, rt.alloc(), &mut bytes)
}

/// Data of `digits` digits behind `head` come to `fault`.
fn refuses(
    rt: &impl Abort,
    alloc: Global,
    head: &[u8],
    digits: usize,
    fault: Fault,
) -> Result<(), Fail> {
    let mut bytes = repeated(alloc, head, b"7", digits)?;
    repeat(&mut bytes, b"^FS", 1)?;
    prints(rt, alloc, Language::Label, &bytes, (b"", Some(fault)))
}

/// One more than 255 bytes of bars, and one more than the digits of the largest QR symbol.
static TOO_LONG: [(&[u8], usize, Fault); 4] = [
    (b"^XA^BC^FD", 255, Fault::Unprinted),
    (b"^XA^BC^FD", 256, Fault::SymbolTooLong),
    (b"^XA^BQ^FDLA,", 652, Fault::Unprinted),
    (b"^XA^BQ^FDLA,", 653, Fault::SymbolTooLong),
];

#[test]
fn data_too_long_for_a_symbol(rt: HostRuntime) -> Result<(), Fail> {
    for (head, digits, fault) in &TOO_LONG {
        refuses(&rt, rt.alloc(), head, *digits, *fault)?;
    }
    Ok(())
}
