//! Streams, and their listings.
use crate::checks::{same, same_at};
use crate::pieces::{reader, writer};
use crate::sheet::repeated;
use std::alloc::{AllocError, Global};
use std::process::Abort;
use std::test::Fail;
use vp_dots::Fault;
use vp_engine::{Language, RunFault, list, list_with_offsets};

/// Never reached: no call fails.
const NEVER: usize = 0;

/// The languages of receipts, and those of labels.
const RECEIPTS: &[Language] = &[Language::Receipt, Language::Receipt58];

const LABELS: &[Language] = &[Language::Label, Language::WholeLabel];

/// With places, or without.
#[derive(Clone, Copy)]
enum Form {
    Alone,
    WithOffsets,
}

const FORMS: [Form; 2] = [Form::Alone, Form::WithOffsets];

/// A stream, its lines in each of its languages, and the answer of `list`.
struct Listing {
    languages: &'static [Language],
    bytes: &'static [u8],
    lines: &'static [u8],
    /// The lines of `lines`, each behind its place.
    placed: &'static [u8],
    answer: Result<u64, RunFault>,
}

static LISTINGS: &[Listing] = &[
    Listing {
        languages: RECEIPTS,
        bytes: b"",
        lines: b"",
        placed: b"",
        answer: Ok(0),
    },
    // a raster of two rows
    Listing {
        languages: RECEIPTS,
        bytes: b"\x1Dv0\x00\x01\x00\x02\x00\x80\x01",
        lines: b"gs 76 30 00 01 00 02 00\nbyte 80\nbyte 01\n",
        placed: b"8 gs 76 30 00 01 00 02 00\n9 byte 80\n10 byte 01\n",
        answer: Ok(3),
    },
    // an unknown command
    Listing {
        languages: RECEIPTS,
        bytes: b"\n\x1B\x7F",
        lines: b"LF\n",
        placed: b"1 LF\n",
        answer: Err(RunFault::Print {
            fault: Fault::Unknown(0x1B, 0x7F),
            after: 3,
        }),
    },
    // a raster that is cut off
    Listing {
        languages: RECEIPTS,
        bytes: b"\x1Dv0\x00\x01\x00\x02\x00\x80",
        lines: b"gs 76 30 00 01 00 02 00\nbyte 80\n",
        placed: b"8 gs 76 30 00 01 00 02 00\n9 byte 80\n",
        answer: Err(RunFault::Print {
            fault: Fault::Truncated,
            after: 9,
        }),
    },
    // a raster of rows of nine bytes, behind it a character, a feed and an unknown command, and more
    Listing {
        languages: RECEIPTS,
        bytes: b"\x1Dv0\x00\x09\x00\x01\x00abcdefghiM\x1BJ\x02\x1B\x7FM\n",
        lines: b"gs 76 30 00 09 00 01 00\nbyte 61\nbyte 62\nbyte 63\nbyte 64\n\
            byte 65\nbyte 66\nbyte 67\nbyte 68\nbyte 69\nchar 4d\nesc 4a 02\n",
        placed: b"8 gs 76 30 00 09 00 01 00\n9 byte 61\n10 byte 62\n11 byte 63\n12 byte 64\n\
            13 byte 65\n14 byte 66\n15 byte 67\n16 byte 68\n17 byte 69\n18 char 4d\n\
            21 esc 4a 02\n",
        answer: Err(RunFault::Print {
            fault: Fault::Unknown(0x1B, 0x7F),
            after: 23,
        }),
    },
    // an item that a printer refuses is listed
    Listing {
        languages: RECEIPTS,
        bytes: b"\x1Dk\x00\x00",
        lines: b"gs 6b 00 00\n",
        placed: b"4 gs 6b 00 00\n",
        answer: Ok(1),
    },
    // a box
    Listing {
        languages: LABELS,
        bytes: b"^XA^PW16^LL4^FO2,1^GB5,3,1^FS^XZ",
        lines: b"^XA\n^PW16\n^LL4\n^FO2,1\n^GB5,3,1\n^FS\n^XZ\n",
        placed: b"3 ^XA\n9 ^PW16\n13 ^LL4\n19 ^FO2,1\n27 ^GB5,3,1\n29 ^FS\n32 ^XZ\n",
        answer: Ok(7),
    },
    // data, and a command that is skipped
    Listing {
        languages: LABELS,
        bytes: b"^XA^FDA^ZZ1^XZ",
        lines: b"^XA\n^FD\nbyte 41\n^ZZ skipped\n^XZ\n",
        placed: b"3 ^XA\n6 ^FD\n7 byte 41\n10 ^ZZ skipped\n14 ^XZ\n",
        answer: Ok(5),
    },
    // a symbol that the whole language adds, and the profile skips
    Listing {
        languages: &[Language::WholeLabel],
        bytes: b"^XA^B2N,1^FDA^XZ",
        lines: b"^XA\n^B2N,1\n^FD\nbyte 41\n^XZ\n",
        placed: b"3 ^XA\n10 ^B2N,1\n12 ^FD\n13 byte 41\n16 ^XZ\n",
        answer: Ok(5),
    },
    Listing {
        languages: &[Language::Label],
        bytes: b"^XA^B2N,1^FDA^XZ",
        lines: b"^XA\n^B2 skipped\n^FD\nbyte 41\n^XZ\n",
        placed: b"3 ^XA\n6 ^B2 skipped\n12 ^FD\n13 byte 41\n16 ^XZ\n",
        answer: Ok(5),
    },
    // a font, a block, and data by hex digits, of which three and then two bytes are known at once
    Listing {
        languages: LABELS,
        bytes: b"^XA^a0n, 24,12^FB24,2,0,R^FH^FDM_4DM_4X M_4^FS~ja1",
        lines: b"^XA\n^A0n,24,12\n^FB24,2,0,R\n^FH\n^FD\nbyte 4d\nbyte 4d\nbyte 4d\n\
            byte 5f\nbyte 34\nbyte 58\nbyte 20\nbyte 4d\nbyte 5f\nbyte 34\n^FS\n~JA skipped\n",
        placed: b"3 ^XA\n15 ^A0n,24,12\n26 ^FB24,2,0,R\n29 ^FH\n31 ^FD\n32 byte 4d\n35 byte 4d\n\
            36 byte 4d\n39 byte 5f\n39 byte 34\n39 byte 58\n40 byte 20\n41 byte 4d\n\
            44 byte 5f\n44 byte 34\n46 ^FS\n49 ~JA skipped\n",
        answer: Ok(17),
    },
    // three bytes are known at once
    Listing {
        languages: LABELS,
        bytes: b"^XA^FH^FDa_4g^FS^XZ",
        lines: b"^XA\n^FH\n^FD\nbyte 61\nbyte 5f\nbyte 34\nbyte 67\n^FS\n^XZ\n",
        placed: b"3 ^XA\n7 ^FH\n9 ^FD\n10 byte 61\n13 byte 5f\n13 byte 34\n13 byte 67\n16 ^FS\n\
            19 ^XZ\n",
        answer: Ok(9),
    },
    // a picture as bytes that are signs and a line end, and one that is cut off
    Listing {
        languages: LABELS,
        bytes: b"^XA^GFB,3,3,1,^~\nx^GFA,9,9,3,0 F",
        lines: b"^XA\n^GFB,3,3,1\nbyte 5e\nbyte 7e\nbyte 0a\n^GFA,9,9,3\nbyte 30\nbyte 46\n",
        placed: b"3 ^XA\n14 ^GFB,3,3,1\n15 byte 5e\n16 byte 7e\n17 byte 0a\n29 ^GFA,9,9,3\n\
            30 byte 30\n32 byte 46\n",
        answer: Err(RunFault::Print {
            fault: Fault::Truncated,
            after: 32,
        }),
    },
    // what a printer refuses is listed, and what is no command isn't
    Listing {
        languages: LABELS,
        bytes: b"A\x1B@^XZ^GFC,1,2,^FX a, b\x7F,,^F O\r\n",
        lines: b"^XZ\n^GFC,1,2,\n^FXa,b.,,\n^F. skipped\n",
        placed: b"6 ^XZ\n16 ^GFC,1,2,\n27 ^FXa,b.,,\n29 ^F. skipped\n",
        answer: Ok(4),
    },
];

impl Listing {
    /// What is written in a form.
    fn text(&self, form: Form) -> &'static [u8] {
        match form {
            Form::Alone => self.lines,
            Form::WithOffsets => self.placed,
        }
    }
}

/// What was written, the answer, and how often it read and wrote.
#[derive(Drop)]
struct Outcome {
    lines: Vec<u8>,
    answer: Result<u64, RunFault>,
    reads: usize,
    writes: usize,
}

impl Outcome {
    /// How often it read, or else wrote.
    fn calls(&self, fault: RunFault) -> usize {
        match fault {
            RunFault::Read => self.reads,
            _ => self.writes,
        }
    }
}

/// Lists `bytes`, with at most `most` bytes a call.
fn listed(
    alloc: Global,
    (language, form): (Language, Form),
    bytes: &[u8],
    most: usize,
    (bad_read, bad_write): (usize, usize),
) -> Outcome {
    let mut reader = reader(bytes, most, bad_read);
    let mut writer = writer(alloc, most, bad_write);
    let answer = match form {
        Form::Alone => list(language, &mut reader, &mut writer),
        Form::WithOffsets => list_with_offsets(language, &mut reader, &mut writer),
    };
    let writer = writer.into_inner();
    Outcome {
        lines: writer.bytes,
        answer,
        reads: reader.into_inner().calls,
        writes: writer.calls,
    }
}

/// `bytes` are listed in the lines and with the answer of `want`, with at most `most` bytes a call.
fn lists(
    rt: &impl Abort,
    alloc: Global,
    (language, form): (Language, Form),
    bytes: &[u8],
    most: usize,
    want: (&[u8], Result<u64, RunFault>),
) {
    let whole = listed(alloc, (language, form), bytes, most, (NEVER, NEVER));
    same_at(
        rt,
        "bytes a call",
        most,
        &(whole.lines.as_slice(), whole.answer),
        &want,
    );
}

/// A listing in a language comes to its lines and its answer, with at most `most` bytes a call.
fn is_listed(
    rt: &impl Abort,
    alloc: Global,
    listing: &Listing,
    (language, form): (Language, Form),
    most: usize,
) {
    let want = (listing.text(form), listing.answer);
    lists(rt, alloc, (language, form), listing.bytes, most, want);
}

#[test]
fn each_item_has_its_line(rt: HostRuntime) {
    for listing in LISTINGS {
        for language in listing.languages {
            for form in FORMS {
                is_listed(&rt, rt.alloc(), listing, (*language, form), 1000);
            }
        }
    }
}

#[test]
fn a_listing_is_cut_into_bytes(rt: HostRuntime) {
    for listing in LISTINGS {
        for language in listing.languages {
            for most in [1, 2, 3, 7, 8, 9] {
                for form in FORMS {
                    is_listed(&rt, rt.alloc(), listing, (*language, form), most);
                }
            }
        }
    }
}

/// A read or a write failed at this call, which was the last of its kind, and what is written begins the
/// listing.
fn ends_in(rt: &impl Abort, text: &[u8], cut: &Outcome, (fault, call): (RunFault, usize)) {
    let front = &text[..cut.lines.len().min(text.len())];
    let found = (cut.answer, cut.lines.as_slice(), cut.calls(fault));
    same_at(rt, "call", call, &found, &(Err(fault), front, call));
}

/// A read or a write of at most `most` bytes fails.
fn fail_at(
    rt: &impl Abort,
    alloc: Global,
    listing: &Listing,
    (language, form): (Language, Form),
    most: usize,
    (fault, call): (RunFault, usize),
) {
    let fails = match fault {
        RunFault::Read => (call, NEVER),
        _ => (NEVER, call),
    };
    let cut = listed(alloc, (language, form), listing.bytes, most, fails);
    ends_in(rt, listing.text(form), &cut, (fault, call));
}

/// How often a listing that doesn't fail reads, or else writes, with at most `most` bytes a call.
fn calls(
    alloc: Global,
    listing: &Listing,
    (language, form): (Language, Form),
    most: usize,
    fault: RunFault,
) -> usize {
    listed(alloc, (language, form), listing.bytes, most, (NEVER, NEVER)).calls(fault)
}

/// How often at least a listing reads up to its end or its fault, or else writes, with at most `most` bytes a
/// call.
fn fewest(listing: &Listing, form: Form, most: usize, fault: RunFault) -> usize {
    let bytes = match (fault, listing.answer) {
        (RunFault::Read, Err(RunFault::Print { after, .. })) => after as usize,
        (RunFault::Read, _) => listing.bytes.len(),
        _ => listing.text(form).len(),
    };
    bytes.div_ceil(most.max(1))
}

/// Each read, or each write, of at most `most` bytes fails.
fn fail_each(
    rt: &impl Abort,
    alloc: Global,
    listing: &Listing,
    (language, form): (Language, Form),
    most: usize,
    fault: RunFault,
) {
    let calls = calls(alloc, listing, (language, form), most, fault);
    let are_all = calls >= fewest(listing, form, most, fault);
    same_at(rt, "calls", calls, &are_all, &true);
    for call in 1..calls.saturating_add(1) {
        fail_at(rt, alloc, listing, (language, form), most, (fault, call));
    }
}

/// Each read and each write fails, up to the last: what is written begins the listing.
#[test]
fn a_failed_read_or_write_ends_a_listing(rt: HostRuntime) {
    for listing in LISTINGS {
        for language in listing.languages {
            for most in [1, 5, 1000] {
                for form in FORMS {
                    let what = (*language, form);
                    fail_each(&rt, rt.alloc(), listing, what, most, RunFault::Read);
                    fail_each(&rt, rt.alloc(), listing, what, most, RunFault::Write);
                }
            }
        }
    }
}

/// More lines than a buffer holds.
#[test]
fn a_long_raster_is_listed(rt: HostRuntime) -> Result<(), Fail> {
    let bytes = repeated(rt.alloc(), b"\x1Dv0\x00\x10\x27\x01\x00", b"\xA5", 10000)?;
    let lines = repeated(
        rt.alloc(),
        b"gs 76 30 00 10 27 01 00\n",
        b"byte a5\n",
        10000,
    )?;
    for most in [100, 4096, 100000] {
        lists(
            &rt,
            rt.alloc(),
            (Language::Receipt, Form::Alone),
            &bytes,
            most,
            (&lines, Ok(10001)),
        );
    }
    Ok(())
}

/// The lines of a raster of `times` bytes A5, behind their places; its head has eight bytes.
fn placed_lines(alloc: Global, times: u64) -> Result<Vec<u8>, AllocError> {
    let mut lines = repeated(alloc, b"8 gs 76 30 00 10 27 01 00\n", b"", 0)?;
    for n in 0..times {
        let line = format!(in alloc; "{} byte a5\n", n.saturating_add(9))?;
        lines.extend_from_slice(line.as_bytes())?;
    }
    Ok(lines)
}

/// Places of one to five digits.
#[test]
fn a_long_raster_is_listed_with_places(rt: HostRuntime) -> Result<(), Fail> {
    let bytes = repeated(rt.alloc(), b"\x1Dv0\x00\x10\x27\x01\x00", b"\xA5", 10000)?;
    let lines = placed_lines(rt.alloc(), 10000)?;
    for most in [1, 100, 1129, 4096, 100000] {
        lists(
            &rt,
            rt.alloc(),
            (Language::Receipt, Form::WithOffsets),
            &bytes,
            most,
            (&lines, Ok(10001)),
        );
    }
    Ok(())
}
