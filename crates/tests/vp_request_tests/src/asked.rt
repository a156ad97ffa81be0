//! Worked examples of receipts and labels.
use crate::checks::{Row, each_asks};
use vp_language::Language;
use vp_requests::Ask;

static RECEIPTS: [Row; 14] = [
    (
        b"a\x10\x04\x01b\x1Dr\x01c\x1DIC\x1Da\x0F",
        &[
            (Ask::Status, b"\x01", 1, 4),
            (Ask::Sensor, b"\x01", 5, 8),
            (Ask::PrinterId, b"C", 9, 12),
            (Ask::AutomaticStatus, b"\x0F", 12, 15),
        ],
    ),
    // within the data of a raster, and behind them
    (
        b"\x1Dv0\0\x02\0\x03\0\x10\x04\x01\x10\x05\x02\x1Bu\0\x1Bvx",
        &[
            (Ask::Status, b"\x01", 8, 11),
            (Ask::Recover, b"\x02", 11, 14),
            (Ask::Drawer, b"\0", 14, 17),
            (Ask::Paper, b"", 17, 19),
        ],
    ),
    // data that look like a request
    (
        b"\x1Dv0\0\x01\0\x03\0\x1Dr\x01\x1Dr\x02",
        &[(Ask::Sensor, b"\x02", 11, 14)],
    ),
    (
        b"\x1D(H\x06\x000012\x1Dr",
        &[(Ask::Response, b"0012\x1Dr", 0, 11)],
    ),
    (
        b"\x1D(E\x03\0\x01IN\x1Dg2\0\x14\0.\x1Dj\x02",
        &[
            (Ask::Setup, b"\x01IN", 0, 8),
            (Ask::Maintenance, b"2\0\x14\0", 8, 14),
            (Ask::Ink, b"\x02", 15, 18),
        ],
    ),
    // keys are loaded, and then asked for
    (
        b"\x1D(L\x06\x000EAB\x01\x01\x1D(L\x04\x000@KC.",
        &[(Ask::Graphics, b"0@KC", 11, 20)],
    ),
    // the size of a QR symbol, and of no other
    (
        b"\x1D(k\x05\x001P0HE\x1D(k\x03\x001R0.\x1D(k\x03\x000R0",
        &[(Ask::SymbolSize, b"1R0", 10, 18)],
    ),
    // out of range
    (
        b"\x10\x04\x05\x10\x04\x09\x10\x05\x03\x10\x14\x01\x02\x01\x10\x14\x07\x03\x10\x14\x02\x01\x07",
        &[],
    ),
    (
        b"\x10\x14\x01\0\x01\x1Dr1\x10\x14\x08\x01\x03\x14\x01\x06\x02\x08\
            \x10\x14\x02\x01\x08\x10\x14\x07\x01",
        &[
            (Ask::RealTime, b"\x01\0\x01", 0, 5),
            (Ask::Sensor, b"1", 5, 8),
            (Ask::RealTime, b"\x08\x01\x03\x14\x01\x06\x02\x08", 8, 18),
            (Ask::RealTime, b"\x02\x01\x08", 18, 23),
            (Ask::RealTime, b"\x07\x01", 23, 27),
        ],
    ),
    // what was begun is none, and its last byte begins another
    (
        b"\x10\x10\x04\x07\x01\x10\x04\x12\x02\x10\x04\x10\x05\x00",
        &[
            (Ask::Status, b"\x07\x01", 1, 5),
            (Ask::Status, b"\x12\x02", 5, 9),
            (Ask::Recover, b"\x00", 11, 14),
        ],
    ),
    // the bytes of a buzzer are its own, whatever they are
    (
        b"\x10\x14\x03\x10\x04\x01\x00\x00\x10\x04\x02",
        &[
            (Ask::RealTime, b"\x03\x10\x04\x01\x00\x00", 0, 8),
            (Ask::Status, b"\x02", 8, 11),
        ],
    ),
    // two that one byte makes known
    (
        b"\x1D(H\x03\x00\x10\x04\x01",
        &[
            (Ask::Status, b"\x01", 5, 8),
            (Ask::Response, b"\x10\x04\x01", 0, 8),
        ],
    ),
    // sixteen arguments, and one more
    (
        b"\x1D(H\x10\x000123456789ABCDEF\x1D(H\x11\x000123456789ABCDEFG\x1Dr\x01",
        &[
            (Ask::Response, b"0123456789ABCDEF", 0, 21),
            (Ask::Sensor, b"\x01", 43, 46),
        ],
    ),
    // what is no command is passed over
    (b"\x1BB\x1Dr\x1Dr\x02", &[(Ask::Sensor, b"\x1D", 2, 5)]),
];

#[test]
fn receipts(rt: HostRuntime) {
    each_asks(&rt, Language::Receipt, &RECEIPTS);
    each_asks(&rt, Language::WholeReceipt58, &RECEIPTS);
}

static LABELS: [Row; 8] = [
    (
        b"^XA^FO1,1^FDab~HScd^FS~HI^HH^HV1,9,a,b^XZ~hs",
        &[
            (Ask::HostStatus, b"", 14, 17),
            (Ask::HostIdentification, b"", 22, 25),
            (Ask::Configuration, b"", 25, 28),
            (Ask::HostVerification, b"1,9,a,b", 28, 38),
            (Ask::HostStatus, b"", 41, 44),
        ],
    ),
    (
        b"~HQES~HQMA\r\n~HQ^XA^XZ~SD15~HD~HM",
        &[
            (Ask::HostQuery, b"ES", 0, 5),
            (Ask::HostQuery, b"MA", 5, 10),
            (Ask::HostQuery, b"", 12, 15),
            (Ask::SetDarkness, b"15", 21, 26),
            (Ask::HeadDiagnostic, b"", 26, 29),
            (Ask::HostMemory, b"", 29, 32),
        ],
    ),
    // the end of the stream ends one
    (b"^XA^HWR:*.*", &[(Ask::HostDirectory, b"R:*.*", 3, 11)]),
    (b"~HQ", &[(Ask::HostQuery, b"", 0, 3)]),
    (b"^XA^FX ~ HS ^FS^XZ", &[]),
    // the ends of lines are no part of a name or of arguments
    (
        b"~H\nS^HV1,\r\n9^FS",
        &[
            (Ask::HostStatus, b"", 0, 4),
            (Ask::HostVerification, b"1,9", 4, 12),
        ],
    ),
    // binary data of a picture
    (b"^GFB,4,4,1,~HS~~HS", &[(Ask::HostStatus, b"", 15, 18)]),
    (
        b"~HU~HB~PP~PS~JA~JR~JX^HZa^HFx^HGy^HYz^HTt^XZ",
        &[
            (Ask::HostAlerts, b"", 0, 3),
            (Ask::BatteryStatus, b"", 3, 6),
            (Ask::Pause, b"", 6, 9),
            (Ask::PrintStart, b"", 9, 12),
            (Ask::CancelAll, b"", 12, 15),
            (Ask::PowerOnReset, b"", 15, 18),
            (Ask::CancelFormat, b"", 18, 21),
            (Ask::DisplayDescription, b"a", 21, 25),
            (Ask::HostFormat, b"x", 25, 29),
            (Ask::HostGraphic, b"y", 29, 33),
            (Ask::UploadGraphics, b"z", 33, 37),
            (Ask::LinkedFonts, b"t", 37, 41),
        ],
    ),
];

#[test]
fn labels(rt: HostRuntime) {
    each_asks(&rt, Language::Label, &LABELS);
    each_asks(&rt, Language::WholeLabel, &LABELS);
}
