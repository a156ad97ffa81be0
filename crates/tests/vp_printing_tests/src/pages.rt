//! Streams in page mode, with what they print under the tests' sheet.
use crate::streams::{Image, Stream};
use vp_dots::Fault;
use vp_engine::Language;

/// Rasters in each direction.
static RASTER_PAGES: &[Stream] = &[
    Stream {
        name: "a raster along a page",
        language: Language::Receipt,
        bytes: b"\x1BL\x1BW\x00\x00\x00\x00\x10\x00\x08\x00\x1BT\x00\x1Dv0\x00\x01\x00\x01\x00\xE0\x0C",
        images: &[Image {
            head: b"P4\n576 8\n",
            rows: &[(1, b"\xE0"), (7, b"")],
        }],
        fault: None,
    },
    Stream {
        name: "a raster up a page",
        language: Language::Receipt,
        bytes: b"\x1BL\x1BW\x00\x00\x00\x00\x10\x00\x08\x00\x1BT\x01\x1Dv0\x00\x01\x00\x01\x00\xE0\x0C",
        images: &[Image {
            head: b"P4\n576 8\n",
            rows: &[(5, b""), (3, b"\x80")],
        }],
        fault: None,
    },
    Stream {
        name: "a raster back along a page",
        language: Language::Receipt,
        bytes: b"\x1BL\x1BW\x00\x00\x00\x00\x10\x00\x08\x00\x1BT\x02\x1Dv0\x00\x01\x00\x01\x00\xE0\x0C",
        images: &[Image {
            head: b"P4\n576 8\n",
            rows: &[(7, b""), (1, b"\x00\x07")],
        }],
        fault: None,
    },
    Stream {
        name: "a raster down a page",
        language: Language::Receipt,
        bytes: b"\x1BL\x1BW\x00\x00\x00\x00\x10\x00\x08\x00\x1BT\x03\x1Dv0\x00\x01\x00\x01\x00\xE0\x0C",
        images: &[Image {
            head: b"P4\n576 8\n",
            rows: &[(3, b"\x00\x01"), (5, b"")],
        }],
        fault: None,
    },
    Stream {
        name: "a raster that is cancelled",
        language: Language::Receipt,
        bytes: b"\x1BL\x1BW\x00\x00\x00\x00\x10\x00\x08\x00\x1BT\x01\x1Dv0\x00\x01\x00\x01\x00\xE0\x18\x0C",
        images: &[Image {
            head: b"P4\n576 8\n",
            rows: &[(8, b"")],
        }],
        fault: None,
    },
    Stream {
        name: "a page that is printed and kept",
        language: Language::Receipt,
        bytes: b"\x1BL\x1BW\x00\x00\x00\x00\x10\x00\x08\x00\x1BT\x01\x1Dv0\x00\x01\x00\x01\x00\xE0\x1B\x0C",
        images: &[Image {
            head: b"P4\n576 8\n",
            rows: &[(5, b""), (3, b"\x80")],
        }],
        fault: Some(Fault::Unprinted),
    },
];

/// Areas, and how pages end.
static AREA_PAGES: &[Stream] = &[
    Stream {
        name: "an area that is cancelled beside another",
        language: Language::Receipt,
        bytes: b"\x1BL\x1BW\x00\x00\x00\x00\x08\x00\x01\x00\x1Dv0\x00\x01\x00\x01\x00\xFF\
            \x1BW\x08\x00\x00\x00\x08\x00\x01\x00\x1Dv0\x00\x01\x00\x01\x00\xFF\x18\x0C",
        images: &[Image {
            head: b"P4\n576 1\n",
            rows: &[(1, b"\xFF")],
        }],
        fault: None,
    },
    Stream {
        name: "a raster at a vertical position",
        language: Language::Receipt,
        bytes: b"\x1BL\x1BW\x00\x00\x00\x00\x08\x00\x04\x00\x1D$\x02\x00\x1Dv0\x00\x01\x00\x01\x00\xFF\x0C",
        images: &[Image {
            head: b"P4\n576 4\n",
            rows: &[(2, b""), (1, b"\xFF"), (1, b"")],
        }],
        fault: None,
    },
    Stream {
        name: "a raster below a line on a page",
        language: Language::Receipt,
        bytes: b"\x1BL\x1BW\x00\x00\x00\x00\x10\x00(\x00M\x1Dv0\x03\x01\x00\x02\x00\xF0\x0F\
            \x1Dv0\x00\x01\x00\x01\x00\xFF\x0C",
        images: &[Image {
            head: b"P4\n576 40\n",
            rows: &[
                (24, b"\xFF\xF0"),
                (10, b""),
                (2, b"\xFF\x00"),
                (2, b"\x00\xFF"),
                (1, b"\xFF"),
                (1, b""),
            ],
        }],
        fault: None,
    },
    Stream {
        name: "a raster that its page cuts off",
        language: Language::Receipt,
        bytes: b"\x1BL\x1BW\x00\x00\x00\x00\x10\x00\x08\x00\x1Dv0\x00\x01\x00\x01\x00",
        images: &[],
        fault: Some(Fault::Truncated),
    },
    Stream {
        name: "a raster on a narrow page",
        language: Language::Receipt58,
        bytes: b"\x1BL\x1BWx\x01\x00\x00\x10\x00\x08\x00\x1BT\x02\x1Dv0\x00\x01\x00\x01\x00\xE0\x0C",
        images: &[Image {
            head: b"P4\n384 8\n",
            rows: &[
                (7, b""),
                (
                    1,
                    b"\x00\x00\x00\x00\x00\x00\x00\x00\x00\x00\x00\x00\x00\x00\x00\x00\
                    \x00\x00\x00\x00\x00\x00\x00\x00\x00\x00\x00\x00\x00\x00\x00\x00\
                    \x00\x00\x00\x00\x00\x00\x00\x00\x00\x00\x00\x00\x00\x00\x00\x07",
                ),
            ],
        }],
        fault: None,
    },
    Stream {
        name: "a white page on narrow paper",
        language: Language::Receipt58,
        bytes: b"\x1BL\x0C",
        images: &[Image {
            head: b"P4\n384 1664\n",
            rows: &[(1664, b"")],
        }],
        fault: None,
    },
    Stream {
        name: "a page that is dropped",
        language: Language::Receipt,
        bytes: b"\x1BLM\x1BS\x0A",
        images: &[Image {
            head: b"P4\n576 34\n",
            rows: &[(34, b"")],
        }],
        fault: None,
    },
    Stream {
        name: "a page at the end",
        language: Language::Receipt,
        bytes: b"\x1BL",
        images: &[],
        fault: Some(Fault::Unprinted),
    },
];

fn rasters() -> &'static [Stream] {
    RASTER_PAGES
}

fn areas() -> &'static [Stream] {
    AREA_PAGES
}

/// All of them, each table from a function of its own: a check of a function takes the longer the more its
/// tables hold.
pub fn tables() -> [&'static [Stream]; 2] {
    [rasters(), areas()]
}
