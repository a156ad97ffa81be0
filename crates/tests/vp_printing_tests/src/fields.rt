//! Streams of labels of texts, blocks, bars and QR symbols, with what they print under the tests' sheet.
use crate::labels::{Label, Printed};
use vp_dots::{Fault, Why};

/// Texts.
static TEXT_LABELS: &[Label] = &[
    Label {
        name: "a text",
        bytes: b"^XA^PW16^LL24^A0N,24,12^FDM^FS^XZ",
        prints: &[Printed {
            width: 16,
            height: 24,
            rows: &[(24, 0, b"############")],
            copies: 1,
        }],
        fault: None,
    },
    Label {
        name: "a turned text",
        bytes: b"^XA^PW24^LL12^A0R,24,12^FDB^FS^XZ",
        prints: &[Printed {
            width: 24,
            height: 12,
            rows: &[(1, 0, b"########################")],
            copies: 1,
        }],
        fault: None,
    },
    Label {
        name: "a text by hex digits",
        bytes: b"^XA^PW16^LL24^A0N,24,12^FH^FD_4d^FS^XZ",
        prints: &[Printed {
            width: 16,
            height: 24,
            rows: &[(24, 0, b"############")],
            copies: 1,
        }],
        fault: None,
    },
    Label {
        name: "a text in each orientation, by its upper corner",
        bytes: b"^XA^PW22^LL22^A0N,4,6^FDCI^FS^FO18,0^A0R,4,6^FDCI^FS^FO10,18^A0I,4,6^FDCI^FS\
            ^FO0,10^A0B,4,6^FDCI^FS^XZ",
        prints: &[Printed {
            width: 22,
            height: 22,
            rows: &[
                (1, 0, b"#.....####........####"),
                (3, 0, b"#.....####"),
                (2, 0, b""),
                (4, 18, b"####"),
                (2, 0, b""),
                (4, 0, b"####"),
                (2, 0, b""),
                (3, 12, b"####.....#"),
                (1, 0, b"####........####.....#"),
            ],
            copies: 1,
        }],
        fault: None,
    },
    Label {
        name: "a text in each orientation, by its lower corner",
        bytes: b"^XA^PW22^LL22^FT0,4^A0N,4,6^FDCI^FS^FT18,0^A0R,4,6^FDCI^FS^FT22,18^A0I,4,6^FDCI\
            ^FS^FT4,22^A0B,4,6^FDCI^FS^XZ",
        prints: &[Printed {
            width: 22,
            height: 22,
            rows: &[
                (1, 0, b"#.....####........####"),
                (3, 0, b"#.....####"),
                (2, 0, b""),
                (4, 18, b"####"),
                (2, 0, b""),
                (4, 0, b"####"),
                (2, 0, b""),
                (3, 12, b"####.....#"),
                (1, 0, b"####........####.....#"),
            ],
            copies: 1,
        }],
        fault: None,
    },
    Label {
        name: "the font and the orientation as they stand when the field is closed",
        bytes: b"^XA^PW8^LL18^CF0,2,2^FDM^FWB^CF0,6^FS^FO4,8^A0,,2^FDMC^FS^XZ",
        prints: &[Printed {
            width: 8,
            height: 18,
            rows: &[(3, 0, b"######"), (6, 0, b""), (3, 0, b"....####")],
            copies: 1,
        }],
        fault: None,
    },
    Label {
        name: "a text that is reversed in a box",
        bytes: b"^XA^PW20^LL6^FO0,0^GB18,6,6^FS^FO4,1^FR^A0N,4,6^FDDM^FS^XZ",
        prints: &[Printed {
            width: 20,
            height: 6,
            rows: &[
                (1, 0, b"##################"),
                (4, 0, b"####..####......##"),
                (1, 0, b"##################"),
            ],
            copies: 1,
        }],
        fault: None,
    },
];

/// Blocks.
static BLOCK_LABELS: &[Label] = &[
    Label {
        name: "a block to the right",
        bytes: b"^XA^PW24^LL48^A0N,24,12^FB24,2,0,R^FDMM M^FS^XZ",
        prints: &[Printed {
            width: 24,
            height: 48,
            rows: &[
                (24, 0, b"########################"),
                (24, 12, b"############"),
            ],
            copies: 1,
        }],
        fault: None,
    },
    Label {
        name: "a block of one line",
        bytes: b"^XA^PW24^LL48^A0N,24,12^FB24^FDMM M^FS^XZ",
        prints: &[Printed {
            width: 24,
            height: 48,
            rows: &[(24, 0, b"########################")],
            copies: 1,
        }],
        fault: None,
    },
    Label {
        name: "a block in the middle, of two paragraphs",
        bytes: b"^XA^PW24^LL48^A0N,24,12^FB24,2,0,C^FDM\\&MM^FS^XZ",
        prints: &[Printed {
            width: 24,
            height: 48,
            rows: &[
                (24, 0, b"......############"),
                (24, 0, b"########################"),
            ],
            copies: 1,
        }],
        fault: None,
    },
    Label {
        name: "a block that cuts a word",
        bytes: b"^XA^PW24^LL48^A0N,24,12^FB24,2^FDMMM^FS^XZ",
        prints: &[Printed {
            width: 24,
            height: 48,
            rows: &[
                (24, 0, b"########################"),
                (24, 0, b"############"),
            ],
            copies: 1,
        }],
        fault: None,
    },
    Label {
        name: "a turned block",
        bytes: b"^XA^PW48^LL24^A0R,24,12^FB24,2,0,R^FDMM M^FS^XZ",
        prints: &[Printed {
            width: 48,
            height: 24,
            rows: &[
                (12, 24, b"########################"),
                (12, 0, b"################################################"),
            ],
            copies: 1,
        }],
        fault: None,
    },
    Label {
        name: "a block with lines over one another, and a backslash",
        bytes: b"^XA^PW24^LL12^A0N,4,6^FB20,3,-1,R^FDCM C\\\\ D FH\\&^FS^XZ",
        prints: &[Printed {
            width: 24,
            height: 12,
            rows: &[
                (4, 0, b"........#.....######"),
                (2, 0, b"........#.....#"),
                (4, 0, b"........###...####"),
            ],
            copies: 1,
        }],
        fault: None,
    },
];

/// Bar codes, and a QR symbol.
static BAR_LABELS: &[Label] = &[
    Label {
        name: "Code 39",
        bytes: b"^XA^PW80^LL1^BY2,2.0,1^FO0,0^B3N,N,1,N,N^FDA^FS^XZ",
        prints: &[Printed {
            width: 80,
            height: 1,
            rows: &[(
                1,
                0,
                b"##....##..####..####..##..####..##..##....##..####..##....##..####..####..##",
            )],
            copies: 1,
        }],
        fault: None,
    },
    Label {
        name: "Code 39 with its check character and its text below",
        bytes: b"^XA^PW56^LL30^BY1,2.0,3^FO2,1^B3,Y^FD1^FS^XZ",
        prints: &[Printed {
            width: 56,
            height: 30,
            rows: &[
                (1, 0, b""),
                (
                    3,
                    0,
                    b"..#..#.##.##.#.##.#..#.#.##.##.#..#.#.##.#..#.##.##.#",
                ),
                (24, 15, b"##########..##########"),
            ],
            copies: 1,
        }],
        fault: None,
    },
    Label {
        name: "Code 128 with its text above, turned back",
        bytes: b"^XA^PW46^LL30^BY1,,4^FWI^BC,,,Y^FDD^FS^XZ",
        prints: &[Printed {
            width: 46,
            height: 30,
            rows: &[
                (4, 0, b"##.#.###...##...#.##...#...#...##.#....#..#.##"),
                (24, 26, b"###"),
            ],
            copies: 1,
        }],
        fault: None,
    },
    Label {
        name: "Code 128 by pairs of digits, up the label",
        bytes: b"^XA^PW8^LL46^BY1^FO1,0^BCB,5,N^FD>;09^FS^XZ",
        prints: &[Printed {
            width: 8,
            height: 46,
            rows: &[
                (2, 0, b".#####"),
                (1, 0, b""),
                (1, 0, b".#####"),
                (1, 0, b""),
                (3, 0, b".#####"),
                (3, 0, b""),
                (2, 0, b".#####"),
                (2, 0, b""),
                (1, 0, b".#####"),
                (2, 0, b""),
                (1, 0, b".#####"),
                (3, 0, b""),
                (2, 0, b".#####"),
                (3, 0, b""),
                (1, 0, b".#####"),
                (2, 0, b""),
                (1, 0, b".#####"),
                (2, 0, b""),
                (2, 0, b".#####"),
                (2, 0, b""),
                (3, 0, b".#####"),
                (2, 0, b""),
                (1, 0, b".#####"),
                (1, 0, b""),
                (2, 0, b".#####"),
            ],
            copies: 1,
        }],
        fault: None,
    },
    Label {
        name: "Code 128 with automatic sets",
        bytes: b"^XA^PW80^LL1^BY1^BC,1,N,,,A^FD12345^FS^XZ",
        prints: &[Printed {
            width: 80,
            height: 1,
            rows: &[(
                1,
                0,
                b"##.#..###..#.##..###..#...#.##...#.####.###.##.###..#..###.#.##...##...###.#.##",
            )],
            copies: 1,
        }],
        fault: None,
    },
    Label {
        name: "EAN-13 of the digits that are there, wider by its text",
        bytes: b"^XA^PW156^LL26^BY1,,2^BE^FD393^FS^XZ",
        prints: &[Printed {
            width: 156,
            height: 26,
            rows: &[
                (
                    2,
                    30,
                    b"#.#...##.#...##.#...##.#...##.#...##.#...##.#.#.#.###..#.###..#.#....#.#\
                    ##.#..#....#.#....#.#.#",
                ),
                (
                    24,
                    0,
                    b"#########...#########...#########...#########...#########...#########...\
                    #########...#########...#########...#################.......############\
                    ############",
                ),
            ],
            copies: 1,
        }],
        fault: None,
    },
    Label {
        name: "a QR symbol of two dots a module",
        bytes: b"^XA^PW44^LL44^FO1,1^BQN,2,2^FDMA,HELLO WORLD^FS^XZ",
        prints: &[Printed {
            width: 44,
            height: 44,
            rows: &[
                (1, 0, b""),
                (2, 0, b".##############......##..##..##############"),
                (2, 0, b".##..........##..######......##..........##"),
                (4, 0, b".##..######..##......##..##..##..######..##"),
                (2, 0, b".##..######..##..##..######..##..######..##"),
                (2, 0, b".##..........##....######....##..........##"),
                (2, 0, b".##############..##..##..##..##############"),
                (2, 0, b""),
                (2, 0, b".##..##..##..##....##....##......##....##"),
                (2, 0, b"...########......##....##........##......##"),
                (2, 0, b".......##############..##....##..####"),
                (2, 0, b".########..##..####....######..##..######"),
                (2, 0, b"...##....########..##..##....######..##..##"),
                (2, 17, b"##..##......##......##..##"),
                (2, 0, b".##############..........##....##..####"),
                (2, 0, b".##..........##....####......####..##"),
                (2, 0, b".##..######..##..####....##..##############"),
                (2, 0, b".##..######..##......####..##..##......##"),
                (2, 0, b".##..######..##..########..######..##....##"),
                (2, 0, b".##..........##........######......##..####"),
                (2, 0, b".##############..####..##..######........##"),
            ],
            copies: 1,
        }],
        fault: None,
    },
];

/// Symbols that are refused.
static REFUSED_LABELS: &[Label] = &[
    Label {
        name: "a QR symbol without its level",
        bytes: b"^XA^BQN,2,2^FDXA,1^FS",
        prints: &[],
        fault: Some(Fault::Symbol(Why::CodeSet)),
    },
    Label {
        name: "a QR symbol of letters for digits",
        bytes: b"^XA^BQN,2,2^FDHM,N1A^FS",
        prints: &[],
        fault: Some(Fault::Symbol(Why::Char)),
    },
    Label {
        name: "a QR symbol of model 1",
        bytes: b"^XA^BQN,1,2^FD^FS",
        prints: &[],
        fault: Some(Fault::Symbol(Why::Unsupported)),
    },
    Label {
        name: "a letter that Code 39 lacks",
        bytes: b"^XA^B3^FDa^FS",
        prints: &[],
        fault: Some(Fault::Symbol(Why::Char)),
    },
    Label {
        name: "Code 128 of nothing",
        bytes: b"^XA^BC^FD>;1A^FS",
        prints: &[],
        fault: Some(Fault::Symbol(Why::Empty)),
    },
    Label {
        name: "Code 128 in a mode that isn't drawn",
        bytes: b"^XA^BCN,,,,,U^FD^FS",
        prints: &[],
        fault: Some(Fault::Symbol(Why::Unsupported)),
    },
    Label {
        name: "EAN-13 of letters",
        bytes: b"^XA^BE^FDx^XZ",
        prints: &[],
        fault: Some(Fault::Symbol(Why::Char)),
    },
];

fn texts() -> &'static [Label] {
    TEXT_LABELS
}

fn blocks() -> &'static [Label] {
    BLOCK_LABELS
}

fn bars() -> &'static [Label] {
    BAR_LABELS
}

fn refused() -> &'static [Label] {
    REFUSED_LABELS
}

/// All of them, each table from a function of its own: a check of a function takes the longer the more its
/// tables hold.
pub fn tables() -> [&'static [Label]; 4] {
    [texts(), blocks(), bars(), refused()]
}
