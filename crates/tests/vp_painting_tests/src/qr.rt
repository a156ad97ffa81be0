//! Outside vectors: the standard's worked examples and capacities, and symbols of an encoder
//! written apart from this one.

ghost use Rattle.std.specs.Prelude.{◌<◌};

use crate::checks::same;
use arrayvec::ArrayVec;
use std::process::Abort;
use vp_dots::{Fault, Ink, Op, Why, paint_dot};
use vp_qr::{Level, Mode, Qr, QrInk, drawn, encode, rs};

type Sample = ArrayVec<u8, 700>;

static LEVELS: [Level; 4] = [Level::L, Level::M, Level::Q, Level::H];

static ALPHABET: [u8; 45] = *b"0123456789ABCDEFGHIJKLMNOPQRSTUVWXYZ $%*+-./:";

/// A sample of `n` bytes that a mode has.
fn sample(mode: Mode, n: usize) -> Sample {
    let mut sample = ArrayVec::new();
    for i in 0..n {
        let byte = match mode {
            Mode::Digits => b'0' + (i % 10 * 7 + 3) as u8 % 10,
            Mode::Alnum => ALPHABET[(i % 45 * 11 + 5) % 45],
            Mode::Auto | Mode::Bytes => ((i % 256 * 37 + 11) % 256) as u8,
        };
        let _ = sample.try_push(byte);
    }
    sample
}

/// The symbol's version, or 0 where it is refused.
fn version_of(mode: Mode, n: usize, level: Level) -> usize {
    match encode(sample(mode, n).as_slice(), level, mode) {
        Ok(qr) => qr.version(),
        Err(_) => 0,
    }
}

/// The symbol of some bytes, which have one.
fn symbol(rt: &impl Abort, src: &[u8], level: Level, mode: Mode) -> Qr {
    encode(src, level, mode).expect(rt, "no symbol")
}

/// The symbol of a sample.
fn sample_symbol(rt: &impl Abort, mode: Mode, n: usize, level: Level) -> Qr {
    symbol(rt, sample(mode, n).as_slice(), level, mode)
}

/// The modules of a row of a symbol whose modules are single dots: bit x is that of column x.
fn modules(ink: &QrInk, y: u32) -> u64 {
    let mut row = 0u64;
    for x in 0..57u32 {
        if ink.ink(x, y) {
            row |= 1 << x;
        }
    }
    row
}

/// The rows of a symbol as one number.
fn checksum(qr: &Qr) -> u64 {
    let ink = qr.scaled(1);
    let mut sum: u64 = 0;
    for y in 0..57u32 {
        let row = modules(&ink, y);
        if row != 0 {
            sum = sum.wrapping_mul(31).wrapping_add(row);
        }
    }
    sum
}

#[test]
fn check_codewords(rt: HostRuntime) {
    // "01234567" in version 1-M, the standard's own example
    let data = [
        16, 32, 12, 86, 97, 128, 236, 17, 236, 17, 236, 17, 236, 17, 236, 17,
    ];
    let check = [165, 36, 212, 193, 237, 54, 199, 135, 44, 85];
    same(&rt, &rs(&data, 10).as_slice(), &check.as_slice());
}

static HELLO_WORLD_CODEWORDS: [u8; 26] = [
    32, 91, 11, 120, 209, 114, 220, 77, 67, 64, 236, 17, 236, 17, 236, 17, 196, 35, 39, 119, 235,
    215, 231, 226, 93, 23,
];

#[test]
fn hello_world(rt: HostRuntime) {
    let qr = symbol(&rt, b"HELLO WORLD", Level::M, Mode::Auto);
    same(&rt, &(qr.version(), qr.mask()), &(1, 0));
    same(&rt, &qr.codewords(), &HELLO_WORLD_CODEWORDS.as_slice());
}

/// The rows of that symbol.
static HELLO_WORLD: [u64; 21] = [
    2086015, 1066817, 1528925, 1528925, 1531229, 1068609, 2086271, 0, 594517, 1116446, 216056,
    965039, 1428210, 1328384, 430207, 181825, 2085725, 568413, 1240925, 1718337, 1108863,
];

/// Ink has those rows, and the first of them is painted so.
fn is_hello_world(rt: &impl Abort, ink: &QrInk) {
    same(rt, &ink.size(), &(21, 21));
    for y in 0..21u32 {
        same(rt, &modules(ink, y), &HELLO_WORLD[y as usize]);
    }
    let mut row = [0; 4];
    ink.paint_row(0, Op::Black, 0, &mut row);
    same(rt, &row, &[0xfe, 0x2b, 0xf8, 0]);
}

#[test]
fn hello_world_to_the_module(rt: HostRuntime) {
    let qr = symbol(&rt, b"HELLO WORLD", Level::M, Mode::Auto);
    is_hello_world(&rt, &qr.scaled(1));
}

/// Adds a module to bits, behind them.
fn with(bits: u32, ink: &QrInk, x: u32, y: u32) -> u32 {
    bits.wrapping_mul(2) | u32::from(ink.ink(x, y))
}

/// The bits of the format beside the upper left finder: to the right below it, and then up on its right.
fn format(ink: &QrInk) -> u32 {
    let mut bits = 0;
    for x in [0, 1, 2, 3, 4, 5, 7, 8] {
        bits = with(bits, ink, x, 8);
    }
    for y in [7, 5, 4, 3, 2, 1, 0] {
        bits = with(bits, ink, 8, y);
    }
    bits
}

/// The same bits beside the other finders of a symbol of version 1: up on the right of the lower left one,
/// and to the right below the upper right one.
fn format_again(ink: &QrInk) -> u32 {
    let mut bits = 0;
    for y in [20, 19, 18, 17, 16, 15, 14] {
        bits = with(bits, ink, 8, y);
    }
    for x in [13, 14, 15, 16, 17, 18, 19, 20] {
        bits = with(bits, ink, x, 8);
    }
    bits
}

/// Data of symbols of version 1 for each mask, from 0 on, and the bits of the format of this level and mask
/// (ISO/IEC 18004, table C.1).
type Formats = (Level, &'static [(&'static [u8], u32)]);

static FORMATS: [Formats; 4] = [
    (
        Level::L,
        &[
            (b"MZG", 0x77c4),
            (b"TNUAWREV", 0x72f3),
            (b"YIH", 0x7daa),
            (b"OPU", 0x789d),
            (b"AMZ", 0x662f),
            (b"AZH", 0x6318),
            (b"PQM", 0x6c41),
            (b"ESZ", 0x6976),
        ],
    ),
    (
        Level::M,
        &[
            (b"QVS", 0x5412),
            (b"YNT", 0x5125),
            (b"ATJ", 0x5e7c),
            (b"IHG", 0x5b4b),
            (b"OVE", 0x45f9),
            (b"JZZ", 0x40ce),
            (b"APG", 0x4f97),
            (b"OBNUPOGS", 0x4aa0),
        ],
    ),
    (
        Level::Q,
        &[
            (b"UAP", 0x355f),
            (b"OHI", 0x3068),
            (b"MUT", 0x3f31),
            (b"BJM", 0x3a06),
            (b"RVW", 0x24b4),
            (b"DGT", 0x2183),
            (b"JAP", 0x2eda),
            (b"MUB", 0x2bed),
        ],
    ),
    (
        Level::H,
        &[
            (b"NIQ", 0x1689),
            (b"XDY", 0x13be),
            (b"YBC", 0x1ce7),
            (b"YDK", 0x19d0),
            (b"IPT", 0x0762),
            (b"EZC", 0x0255),
            (b"IVV", 0x0d0c),
            (b"ZER", 0x083b),
        ],
    ),
];

/// The mask of a symbol, and its bits of the format.
fn masked(rt: &impl Abort, src: &[u8], level: Level) -> (usize, u32, u32) {
    let qr = symbol(rt, src, level, Mode::Auto);
    let ink = qr.scaled(1);
    (qr.mask(), format(&ink), format_again(&ink))
}

#[test]
fn formats(rt: HostRuntime) {
    for (level, symbols) in &FORMATS {
        for (mask, (src, bits)) in symbols.iter().enumerate() {
            same(&rt, &masked(&rt, src, *level), &(mask, *bits, *bits));
        }
    }
}

/// The bits of the version of a symbol of so many modules a row: the six rows of three modules on the left of
/// its upper right finder, from their lower right on, and the six columns of three above its lower left one.
fn versions(ink: &QrInk, size: u32) -> [u32; 2] {
    let mut bits = [0; 2];
    for far in 0..6u32 {
        for near in 9..12u32 {
            let (along, across) = (size.wrapping_sub(near), 5u32.wrapping_sub(far));
            bits = [
                with(bits[0], ink, along, across),
                with(bits[1], ink, across, along),
            ];
        }
    }
    bits
}

/// How many bytes give a symbol of level L of versions 7 to 10, how many modules it has in a row, and the
/// bits of its version (ISO/IEC 18004, table D.1).
static VERSIONS: [(usize, u32, u32); 4] = [
    (154, 45, 0x07c94),
    (192, 49, 0x085bc),
    (230, 53, 0x09a99),
    (271, 57, 0x0a4d3),
];

#[test]
fn versions_in_symbols(rt: HostRuntime) {
    for (n, size, bits) in &VERSIONS {
        let qr = sample_symbol(&rt, Mode::Bytes, *n, Level::L);
        same(&rt, &versions(&qr.scaled(1), *size), &[*bits; 2]);
    }
}

/// Why bytes have no symbol.
fn fault(src: &[u8], mode: Mode) -> Option<Fault> {
    match encode(src, Level::L, mode) {
        Ok(_) => None,
        Err(fault) => Some(fault),
    }
}

static REFUSALS: [(&'static [u8], Mode, Option<Fault>); 4] = [
    (b"", Mode::Auto, Some(Fault::Symbol(Why::Empty))),
    (b"a", Mode::Alnum, Some(Fault::Symbol(Why::Char))),
    (b"12A", Mode::Digits, Some(Fault::Symbol(Why::Char))),
    (b"a", Mode::Auto, None),
];

/// Numbers of digits.
static LENGTHS: [(usize, Option<Fault>); 2] = [(652, None), (653, Some(Fault::SymbolTooLong))];

#[test]
fn refusals(rt: HostRuntime) {
    for (src, mode, want) in &REFUSALS {
        same(&rt, &fault(src, *mode), want);
    }
    for (n, want) in &LENGTHS {
        same(
            &rt,
            &fault(sample(Mode::Digits, *n).as_slice(), Mode::Auto),
            want,
        );
    }
}

/// The greatest numbers of digits, alphanumeric characters and bytes that levels L, M, Q and H of
/// each version hold (table 7 of the standard).
static CAPACITIES: [[(usize, usize, usize); 4]; 10] = [
    [(41, 25, 17), (34, 20, 14), (27, 16, 11), (17, 10, 7)],
    [(77, 47, 32), (63, 38, 26), (48, 29, 20), (34, 20, 14)],
    [(127, 77, 53), (101, 61, 42), (77, 47, 32), (58, 35, 24)],
    [(187, 114, 78), (149, 90, 62), (111, 67, 46), (82, 50, 34)],
    [
        (255, 154, 106),
        (202, 122, 84),
        (144, 87, 60),
        (106, 64, 44),
    ],
    [
        (322, 195, 134),
        (255, 154, 106),
        (178, 108, 74),
        (139, 84, 58),
    ],
    [
        (370, 224, 154),
        (293, 178, 122),
        (207, 125, 86),
        (154, 93, 64),
    ],
    [
        (461, 279, 192),
        (365, 221, 152),
        (259, 157, 108),
        (202, 122, 84),
    ],
    [
        (552, 335, 230),
        (432, 262, 180),
        (312, 189, 130),
        (235, 143, 98),
    ],
    [
        (652, 395, 271),
        (513, 311, 213),
        (364, 221, 151),
        (288, 174, 119),
    ],
];

/// The greatest number that fits a version does, and one more takes the next.
fn holds(rt: &impl Abort, mode: Mode, most: usize, level: Level, version: usize) {
    let next = if version < 10 { version + 1 } else { 0 };
    let versions = [
        version_of(mode, most, level),
        version_of(mode, most.saturating_add(1), level),
    ];
    same(rt, &versions, &[version, next]);
}

#[test]
fn capacities(rt: HostRuntime) {
    for (i, row) in CAPACITIES.iter().enumerate() {
        for (k, level) in LEVELS.iter().enumerate() {
            let (digits, alnum, bytes) = row[k];
            holds(&rt, Mode::Digits, digits, *level, i + 1);
            holds(&rt, Mode::Alnum, alnum, *level, i + 1);
            holds(&rt, Mode::Bytes, bytes, *level, i + 1);
        }
    }
}

/// Samples of each version at each level, with the version, the mask and the checksum of the rows that they
/// give.
static SYMBOLS: [(Mode, usize, Level, usize, usize, u64); 42] = [
    (Mode::Digits, 41, Level::L, 1, 6, 885061506499725426),
    (Mode::Alnum, 20, Level::M, 1, 2, 8853321219724140617),
    (Mode::Bytes, 11, Level::Q, 1, 0, 8140171652356610937),
    (Mode::Alnum, 4, Level::H, 1, 5, 11681583600701038955),
    (Mode::Digits, 7, Level::H, 1, 1, 8048749137363741816),
    (Mode::Digits, 77, Level::L, 2, 3, 15187934712728799907),
    (Mode::Alnum, 38, Level::M, 2, 0, 16665154609381878406),
    (Mode::Bytes, 20, Level::Q, 2, 0, 7924698432542904124),
    (Mode::Bytes, 14, Level::H, 2, 4, 4176834384437916714),
    (Mode::Digits, 127, Level::L, 3, 2, 13771097570406448524),
    (Mode::Alnum, 61, Level::M, 3, 2, 9575372318225765699),
    (Mode::Bytes, 32, Level::Q, 3, 2, 5872944132391729915),
    (Mode::Digits, 58, Level::H, 3, 4, 1089666235147253452),
    (Mode::Digits, 187, Level::L, 4, 4, 9898622200787118774),
    (Mode::Bytes, 62, Level::M, 4, 2, 10621477148810131946),
    (Mode::Alnum, 67, Level::Q, 4, 4, 9905016592498883290),
    (Mode::Bytes, 34, Level::H, 4, 3, 9557381100977690803),
    (Mode::Bytes, 106, Level::L, 5, 2, 14081563637946888618),
    (Mode::Digits, 202, Level::M, 5, 7, 9895459262321595642),
    (Mode::Alnum, 87, Level::Q, 5, 0, 5813238348046485764),
    (Mode::Alnum, 64, Level::H, 5, 1, 7575754623938467783),
    (Mode::Bytes, 134, Level::L, 6, 7, 1143989564852677055),
    (Mode::Digits, 255, Level::M, 6, 4, 6999614135335378645),
    (Mode::Alnum, 108, Level::Q, 6, 2, 5999592770790511805),
    (Mode::Digits, 139, Level::H, 6, 2, 12986685033864707472),
    (Mode::Bytes, 154, Level::L, 7, 7, 7466712694949902229),
    (Mode::Alnum, 178, Level::M, 7, 0, 1110297228461666887),
    (Mode::Digits, 207, Level::Q, 7, 6, 796791183924704889),
    (Mode::Alnum, 93, Level::H, 7, 5, 2912025350202500333),
    (Mode::Bytes, 192, Level::L, 8, 7, 13120313123889634396),
    (Mode::Bytes, 152, Level::M, 8, 2, 16322943985155479770),
    (Mode::Digits, 259, Level::Q, 8, 6, 7129584391053860064),
    (Mode::Alnum, 122, Level::H, 8, 0, 15739984026859876932),
    (Mode::Bytes, 230, Level::L, 9, 1, 15711501660168692158),
    (Mode::Digits, 432, Level::M, 9, 6, 12734168214769407116),
    (Mode::Digits, 312, Level::Q, 9, 0, 1200604923597109206),
    (Mode::Alnum, 143, Level::H, 9, 4, 8935368610759116994),
    (Mode::Bytes, 271, Level::L, 10, 3, 8391701922847712325),
    (Mode::Digits, 652, Level::L, 10, 6, 718976473595783743),
    (Mode::Digits, 513, Level::M, 10, 4, 7959983387593902926),
    (Mode::Bytes, 150, Level::Q, 10, 7, 323455786406555968),
    (Mode::Alnum, 174, Level::H, 10, 3, 13227549535668860470),
];

#[test]
fn whole_symbols(rt: HostRuntime) {
    for (mode, n, level, version, mask, rows) in &SYMBOLS {
        let qr = sample_symbol(&rt, *mode, *n, *level);
        let found = (qr.version(), qr.mask(), checksum(&qr));
        same(&rt, &found, &(*version, *mask, *rows));
    }
}

/// The checksum of a symbol, drawn in the version and with the mask that encoding takes.
fn checksum_again(rt: &impl Abort, src: &[u8], level: Level, mode: Mode) -> u64 {
    let qr = encode(src, level, mode).expect(rt, "no symbol");
    checksum(&drawn(src, level, mode, qr.version(), qr.mask()))
}

#[test]
fn drawn_again(rt: HostRuntime) {
    for (mode, n, level, _, _, rows) in &SYMBOLS {
        let src = sample(*mode, *n);
        same(
            &rt,
            &checksum_again(&rt, src.as_slice(), *level, *mode),
            rows,
        );
    }
}

/// A row that is painted dot by dot.
fn expected(ink: &QrInk, y: u32, right: u32, left: u32) -> [u8; 12]
    requires right { right < 1000 }
    requires left { left < 1000 }
{
    let mut row = [0x5a; 12];
    for d in 0..96u32 {
        if d >= right && ink.ink(d + left - right, y) {
            paint_dot(Op::Flip, d as u128, &mut row);
        }
    }
    row
}

/// A row is painted as dot by dot, this far to the right and to the left.
fn row_is_its_dots(rt: &impl Abort, ink: &QrInk, y: u32, far: u32)
    requires { far < 1000 }
{
    let mut to_the_right = [0x5a; 12];
    ink.paint_row(y, Op::Flip, far as i64, &mut to_the_right);
    let mut to_the_left = [0x5a; 12];
    ink.paint_row(y, Op::Flip, -(far as i64), &mut to_the_left);
    let dots = [expected(ink, y, far, 0), expected(ink, y, 0, far)];
    same(rt, &[to_the_right, to_the_left], &dots);
}

#[test]
fn rows_are_the_dots(rt: HostRuntime) {
    let ink = symbol(&rt, b"vp", Level::Q, Mode::Bytes).scaled(3);
    for far in 0..40u32 {
        for y in 0..70u32 {
            row_is_its_dots(&rt, &ink, y, far);
        }
    }
}
