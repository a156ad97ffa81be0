//! What a printer holds while it prints: the rows of its line, its page and its band, and the bytes and
//! fields of a format.
use crate::checks::{same, same_at};
use crate::sessions::ending;
use crate::sheet::repeated;
use std::alloc::Global;
use std::process::Abort;
use std::test::Fail;
use vp_dots::Fault;
use vp_engine::{Language, Printer, State};
use vp_glyph::Sheets;

/// No font is drawn.
const NO_SHEETS: Sheets = Sheets { a: None, b: None };

/// A step: its input, its room, what it comes to, and the rows that are then held of the line and of the
/// page.
type Stage = (&'static [u8], usize, State, (u16, u16));

/// ESC L, an area of two rows, and FF: a page of 153 bytes.
const PAGE: &[u8] = b"\x1BL\x1BW\x00\x00\x00\x00\x10\x00\x02\x00\x0C";

/// Each from a new printer on.
static STAGES: &[&[Stage]] = &[
    // a line on paper
    &[
        (b"", 0, State::More, (0, 0)),
        (b"M", 0, State::More, (24, 0)),
        (b"\n", 0, State::Room, (24, 0)),
        (b"", 1, State::Room, (24, 0)),
        (b"", 2456, State::Room, (24, 0)),
        (b"", 1, State::More, (0, 0)),
    ],
    // ESC L, and FF
    &[
        (b"\x1BL", 0, State::More, (0, 1664)),
        (b"\x0C", 0, State::Room, (0, 1664)),
    ],
    // FF prints the page and ends page mode
    &[
        (PAGE, 0, State::Room, (0, 1664)),
        (b"", 152, State::Room, (0, 1664)),
        (b"", 1, State::More, (0, 0)),
        (b"\x0C", 0, State::More, (0, 0)),
        (b"\n", 0, State::Room, (0, 0)),
    ],
    // ESC FF keeps it
    &[
        (
            b"\x1BL\x1BW\x00\x00\x00\x00\x10\x00\x02\x00",
            0,
            State::More,
            (0, 1664),
        ),
        (b"\x1B\x0C", 0, State::Room, (0, 1664)),
        (b"", 152, State::Room, (0, 1664)),
        (b"", 1, State::More, (0, 1664)),
    ],
    // ESC S, ESC @
    &[
        (b"\x1BLM", 0, State::More, (24, 1664)),
        (b"\x1BS", 0, State::More, (0, 0)),
    ],
    &[
        (b"\x1BL", 0, State::More, (0, 1664)),
        (b"\x1B@", 0, State::More, (0, 0)),
    ],
];

/// A stage of a printer, the nth of all, comes to what it says.
fn holds(rt: &impl Abort, printer: &mut Printer, room: &mut [u8], n: usize, stage: &Stage) {
    let (input, most, state, rows) = *stage;
    let most = most.min(room.len());
    let step = printer.step(input, &mut room[..most]);
    let held = printer.held();
    let found = (step.state, (held.line_rows, held.page_rows));
    same_at(rt, "stage", n, &found, &(state, rows));
}

/// The stages of a printer come to what they say.
fn holds_all(rt: &impl Abort, printer: &mut Printer, room: &mut [u8], stages: &[Stage]) {
    for (n, stage) in stages.iter().enumerate() {
        holds(rt, printer, room, n, stage);
    }
}

/// The stages of a new printer come to what they say.
fn each_holds(
    rt: &impl Abort,
    alloc: Global,
    room: &mut [u8],
    stages: &[Stage],
) -> Result<(), Fail> {
    let mut printer = Printer::new(alloc, Language::Receipt, NO_SHEETS)?;
    holds_all(rt, &mut printer, room, stages);
    Ok(())
}

#[test]
fn the_heights_of_line_and_page_are_held(rt: HostRuntime) -> Result<(), Fail> {
    let mut room = repeated(rt.alloc(), b"", b"\0", 2457)?;
    for stages in STAGES {
        each_holds(&rt, rt.alloc(), &mut room, stages)?;
    }
    Ok(())
}

/// The nth byte is put out.
fn puts_a_byte(rt: &impl Abort, printer: &mut Printer, n: usize, state: State, rows: (u16, u16)) {
    holds(rt, printer, &mut [0], n, &(b"", 1, state, rows));
}

fn holds_a_page(rt: &impl Abort, printer: &mut Printer) {
    holds(rt, printer, &mut [], 0, &(PAGE, 0, State::Room, (0, 1664)));
    for n in 1..153usize {
        puts_a_byte(rt, printer, n, State::Room, (0, 1664));
    }
    puts_a_byte(rt, printer, 153, State::More, (0, 0));
}

#[test]
fn a_page_is_held_to_its_last_byte(rt: HostRuntime) -> Result<(), Fail> {
    let mut printer = Printer::new(rt.alloc(), Language::Receipt, NO_SHEETS)?;
    holds_a_page(&rt, &mut printer);
    Ok(())
}

#[test]
fn a_page_is_unprinted(rt: HostRuntime) -> Result<(), Fail> {
    let mut printer = Printer::new(rt.alloc(), Language::Receipt, NO_SHEETS)?;
    let begun = (b"\x1BL".as_slice(), 0, State::More, (0, 1664));
    holds(&rt, &mut printer, &mut [], 0, &begun);
    same(
        &rt,
        "finish",
        &ending(&printer),
        &Some(Err(Fault::Unprinted)),
    );
    Ok(())
}

/// A step of a label: its input, its room, what it comes to, and the rows of the band, the stored bytes and
/// the fields that are then held.
type LabelStage = (&'static [u8], usize, State, (u16, u32, u16));

/// Three boxes over two bands: the bands are held one after the other.
static BANDS: &[LabelStage] = &[
    (
        b"^XA^PW8^LL34^FO0,30^GB8,4,4^FS^FO0,32^GB8,1,1,W^FS^FO0,31^FR^GB4,3,3^FS^XZ",
        7,
        State::Room,
        (0, 0, 3),
    ),
    (b"", 1, State::Room, (32, 0, 3)),
    (b"", 32, State::Room, (2, 0, 3)),
    (b"", 2, State::More, (0, 0, 0)),
];

/// A format of two fields and two copies.
static FORMAT: &[LabelStage] = &[
    // data outside a format are none
    (b"^FDAB^FS", 0, State::More, (0, 0, 0)),
    (b"^XA^PW8^LL1^PQ2^FDAB", 0, State::More, (0, 2, 0)),
    (b"^FS", 0, State::More, (0, 2, 1)),
    // what is replaced stays stored
    (b"^FDC^GB8,1,1^FS", 0, State::More, (0, 3, 2)),
    // the first copy, and the second
    (b"^XZ", 0, State::Room, (0, 3, 2)),
    (b"", 7, State::Room, (1, 3, 2)),
    (b"", 1, State::Room, (0, 3, 2)),
    (b"", 7, State::Room, (1, 3, 2)),
    (b"", 1, State::More, (0, 0, 0)),
];

/// A stage of a label, the nth of all, comes to what it says.
fn label_holds(rt: &impl Abort, printer: &mut Printer, n: usize, stage: &LabelStage) {
    let (input, room, state, counts) = *stage;
    let mut out = [0; 32];
    let step = printer.step(input, &mut out[..room.min(32)]);
    let held = printer.held();
    let found = (step.state, (held.band_rows, held.stored, held.fields));
    same_at(rt, "stage", n, &found, &(state, counts));
}

/// The stages of a printer of labels come to what they say.
fn label_holds_all(rt: &impl Abort, printer: &mut Printer, stages: &[LabelStage]) {
    for (n, stage) in stages.iter().enumerate() {
        label_holds(rt, printer, n, stage);
    }
}

/// The stages of a new printer of labels come to what they say.
fn each_label_holds(rt: &impl Abort, alloc: Global, stages: &[LabelStage]) -> Result<(), Fail> {
    let mut printer = Printer::new(alloc, Language::Label, NO_SHEETS)?;
    label_holds_all(rt, &mut printer, stages);
    Ok(())
}

#[test]
fn the_band_is_held(rt: HostRuntime) -> Result<(), Fail> {
    each_label_holds(&rt, rt.alloc(), BANDS)
}

#[test]
fn the_format_is_held(rt: HostRuntime) -> Result<(), Fail> {
    each_label_holds(&rt, rt.alloc(), FORMAT)
}

/// A label printer stops at the first byte that its store has no place for.
fn stops_full(rt: &impl Abort, printer: &mut Printer, bytes: &[u8]) {
    let step = printer.step(bytes, &mut []);
    let found = (step.taken, step.state, printer.held().stored);
    let want = (262_151, State::Stopped(Fault::StoreFull), 262_144);
    same(rt, "taken, state, stored", &found, &want);
}

#[test]
fn stops_where_the_store_is_full(rt: HostRuntime) -> Result<(), Fail> {
    let bytes = repeated(rt.alloc(), b"^XA^FD", b"A", 262_147)?;
    let mut printer = Printer::new(rt.alloc(), Language::Label, NO_SHEETS)?;
    stops_full(&rt, &mut printer, &bytes);
    Ok(())
}
