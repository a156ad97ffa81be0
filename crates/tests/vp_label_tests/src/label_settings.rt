//! Streams, and what is in force behind them.
use crate::checks::same;
use std::process::Abort;
use std::test::Fail;
use vp_bars::{
    BarCode, CodabarEnd, CodabarEnds, Code11Checks, Code93Data, HriPosition, MsiChecks, UpcEData,
};
use vp_label_settings::{BarChoice, Home, InForce, Settings, SymbolChoice};
use vp_zpl::{Reading, ZplItem, ZplReader};

/// What is in force behind a stream, of which no command is refused.
fn in_force(reading: Reading, stream: &[u8]) -> Option<InForce> {
    let mut reader = ZplReader::new(reading);
    let mut now = InForce::new();
    for byte in stream {
        if let Some(ZplItem::Command(sent)) = reader.take(*byte) {
            match now.after(sent.command, 0) {
                Ok(behind) => now = behind,
                Err(_) => return None,
            }
        }
    }
    Some(now)
}

/// The first row behind whose stream these settings aren't in force.
fn wrong_settings(rows: &[(&[u8], Settings)]) -> Option<usize> {
    for i in 0..rows.len() {
        let (stream, settings) = rows[i];
        match in_force(Reading::Profile, stream) {
            Some(found) if found.settings == settings => {}
            _ => return Some(i),
        }
    }
    None
}

/// Behind each stream these settings are in force.
fn right(rt: &impl Abort, rows: &[(&[u8], Settings)]) {
    same(rt, &wrong_settings(rows), &None);
}

/// The settings at the start, with these sizes of a label.
fn label(print_width: u16, label_length: u16) -> Settings {
    Settings {
        print_width,
        label_length,
        ..Settings::new()
    }
}

/// The settings at the start, with a quantity.
fn copies(quantity: u32) -> Settings {
    Settings {
        quantity,
        ..Settings::new()
    }
}

/// A command that leaves a parameter out sets its default, not what was in force.
#[test]
fn defaults(rt: HostRuntime) -> Result<(), Fail> {
    let first = Settings::new();
    let rows = [
        (
            b"^XA^POI^XZ".as_slice(),
            Settings {
                is_inverted: true,
                ..first
            },
        ),
        (b"^XA^POI^PO^XZ".as_slice(), first),
        (
            b"^XA^PMY^XZ^XA^LRX^XZ".as_slice(),
            Settings {
                is_mirrored: true,
                ..first
            },
        ),
        (b"^XA^LRY^LR^FWB^FWX^XZ".as_slice(), first),
        (
            b"^XA^LH5,7^LH,9^XZ".as_slice(),
            Settings {
                home: Home { x: 0, y: 9 },
                ..first
            },
        ),
        (b"^XA^PW100^PW^LL7^LLx^XZ".as_slice(), first),
        (b"^XA^PW1300^LL0^XZ".as_slice(), label(1248, 1)),
        (b"^XA^PW0^LL9000^XZ".as_slice(), label(1, 8000)),
    ];
    right(&rt, &rows);
    Ok(())
}

/// Commands act in a format alone; ^XA inside one is ignored, and ^XZ outside.
#[test]
fn formats(rt: HostRuntime) -> Result<(), Fail> {
    let rows = [
        (
            b"^PW100^FO1,1^FDabc^FS^XZ^POI^FX".as_slice(),
            Settings::new(),
        ),
        (b"^XA^PW100^XZ^PW200^XZ".as_slice(), label(100, 1218)),
        (b"^XA^PW100^XA^XZ".as_slice(), label(100, 1218)),
        (b"^XA^PQ7^XA".as_slice(), copies(7)),
        (b"^XA^PQ7^XZ^XA".as_slice(), copies(1)),
        (b"^PQ7^XA".as_slice(), copies(1)),
        (b"^XA^PQ7^PQ0^FX".as_slice(), copies(1)),
        (b"^XA^PQ999999999^FX".as_slice(), copies(99_999_999)),
    ];
    right(&rt, &rows);
    Ok(())
}

/// The bars that the open field asks for behind a stream of the whole language.
fn bars(stream: &[u8]) -> Option<BarChoice> {
    match in_force(Reading::Whole, stream)?.parts.symbol {
        Some(SymbolChoice::Bars(choice)) => Some(choice),
        _ => None,
    }
}

/// A command in a format and the sign behind it, the code that it asks for, and where its text stands.
type Asked = (&'static [u8], BarCode, HriPosition);

/// The first row whose stream doesn't ask for its symbol.
fn wrong_bars(rows: &[Asked]) -> Option<usize> {
    for i in 0..rows.len() {
        let (stream, code, place) = rows[i];
        match bars(stream) {
            Some(choice) if choice.code == code && choice.place == place => {}
            _ => return Some(i),
        }
    }
    None
}

const TWO: BarCode = BarCode::Code11 {
    checks: Code11Checks::Two,
};

const ONE: BarCode = BarCode::Code11 {
    checks: Code11Checks::One,
};

const MOD_10: BarCode = BarCode::Msi {
    checks: MsiChecks::Mod10,
};

const NO_CHECK: BarCode = BarCode::Msi {
    checks: MsiChecks::None,
};

const BOTH: BarCode = BarCode::Msi {
    checks: MsiChecks::Mod11Mod10,
};

const CODABAR_A_A: BarCode = BarCode::Codabar {
    ends: CodabarEnds::Around {
        start: CodabarEnd::A,
        stop: CodabarEnd::A,
    },
};

const CODABAR_B_C: BarCode = BarCode::Codabar {
    ends: CodabarEnds::Around {
        start: CodabarEnd::B,
        stop: CodabarEnd::C,
    },
};

const UPC_E: BarCode = BarCode::UpcE {
    data: UpcEData::MakerArticle,
};

const CODE_93: BarCode = BarCode::Code93 {
    data: Code93Data::Signs,
};

const ADD_ON: BarCode = BarCode::AddOn { padded: true };

static SYMBOLS: [Asked; 16] = [
    (b"^XA^B1^", TWO, HriPosition::Below),
    (b"^XA^B1N,Y,9,N^", ONE, HriPosition::None),
    (
        b"^XA^B2^",
        BarCode::Interleaved { check: false },
        HriPosition::Below,
    ),
    (
        b"^XA^B2N,9,Y,Y,Y^",
        BarCode::Interleaved { check: true },
        HriPosition::Above,
    ),
    (
        b"^XA^B8^",
        BarCode::Ean8 { padded: true },
        HriPosition::Below,
    ),
    (b"^XA^B9,,N^", UPC_E, HriPosition::None),
    (b"^XA^BA,,Y,Y^", CODE_93, HriPosition::Above),
    (b"^XA^BK,,,N^", CODABAR_A_A, HriPosition::None),
    (b"^XA^BKN,N,9,,,b,*^", CODABAR_B_C, HriPosition::Below),
    (b"^XA^BM^", MOD_10, HriPosition::Below),
    (b"^XA^BMN,A^", NO_CHECK, HriPosition::Below),
    (b"^XA^BMN,d,,Y,Y^", BOTH, HriPosition::Above),
    (b"^XA^BS^", ADD_ON, HriPosition::Above),
    (b"^XA^BS,,,N^", ADD_ON, HriPosition::Below),
    (b"^XA^BS,,N,Y^", ADD_ON, HriPosition::None),
    (
        b"^XA^BU^",
        BarCode::UpcA { padded: true },
        HriPosition::Below,
    ),
];

/// The linear symbols of the whole language, and what stands where nothing is said.
#[test]
fn symbols(rt: HostRuntime) -> Result<(), Fail> {
    same(&rt, &wrong_bars(&SYMBOLS), &None);
    Ok(())
}
