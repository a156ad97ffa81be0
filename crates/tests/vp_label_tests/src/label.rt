//! Streams and what they print, also where there is room for one byte at a time.
use crate::checks::same;
use crate::sheets::NONE;
use std::alloc::{AllocError, Global};
use std::process::Abort;
use std::test::Fail;
use vp_dots::{Fault, Why};
use vp_label::Label;
use vp_zpl::{Reading, ZplReader};

/// Takes the bytes of a stream up to the first item that prints something or is refused: how many bytes are
/// taken, and why it is refused.
fn fed(label: &mut Label, reader: &mut ZplReader, stream: &[u8]) -> (usize, Option<Fault>) {
    for i in 0..stream.len() {
        if label.pending() {
            return (i, None);
        }
        if let Some(item) = reader.take(stream[i]) {
            if let Err(fault) = label.apply(item) {
                return (i + 1, Some(fault));
            }
        }
    }
    (stream.len(), None)
}

/// A printer behind the bytes of a stream up to the first item that prints something or is refused.
fn behind(alloc: Global, stream: &[u8]) -> Result<(Label, usize, Option<Fault>), AllocError> {
    let mut label = Label::new(alloc, NONE)?;
    let (taken, fault) = fed(&mut label, &mut ZplReader::new(Reading::Profile), stream);
    Ok((label, taken, fault))
}

/// Puts out what is pending behind `text`, where there is room for `room` bytes at once.
fn put_behind(label: &mut Label, room: usize, text: &mut Vec<u8>) -> Result<(), AllocError> {
    let mut out = [0u8; 64];
    for _ in 0..200 {
        let n = label.put(&mut out[..room.min(64)]);
        text.extend_from_slice(&out[..n])?;
    }
    Ok(())
}

/// The bytes that `stream` prints at its end where there is room for `room` at once, and why it is refused.
fn printed(
    alloc: Global,
    stream: &[u8],
    room: usize,
) -> Result<(Vec<u8>, Option<Fault>), AllocError> {
    let (mut label, _, fault) = behind(alloc, stream)?;
    let mut text = Vec::new(alloc);
    put_behind(&mut label, room, &mut text)?;
    Ok((text, fault))
}

/// Whether `stream` prints `want` and isn't refused where there is room for `room` bytes at once.
fn prints(alloc: Global, stream: &[u8], room: usize, want: &[u8]) -> Result<bool, AllocError> {
    let (text, fault) = printed(alloc, stream, room)?;
    Ok(text.as_slice() == want && fault == None)
}

/// The first row whose stream doesn't print these bytes, whatever room there is.
fn wrong_row(alloc: Global, rows: &[(&[u8], &[u8])]) -> Result<Option<usize>, AllocError> {
    for i in 0..rows.len() {
        let (stream, want) = rows[i];
        for room in [1usize, 7, 64] {
            if !prints(alloc, stream, room, want)? {
                return Ok(Some(i));
            }
        }
    }
    Ok(None)
}

/// Streams, and what they print.
static LABELS: [(&[u8], &[u8]); 8] = [
    (
        b"^XA^PW16^LL4^FO2,1^GB5,3,1^FS^XZ",
        b"P4\n16 4\n\x00\x00\x3e\x00\x22\x00\x3e\x00",
    ),
    (
        b"^XA^PW16^LL4^FT2,4^GB5,3,1^FS^XZ",
        b"P4\n16 4\n\x00\x00\x3e\x00\x22\x00\x3e\x00",
    ),
    (
        b"^XA^PW16^LL2^FO0,0^GB8,2,2^FS^FO4,0^FR^GB8,2,2^FS^XZ",
        b"P4\n16 2\n\xf0\xf0\xf0\xf0",
    ),
    (
        b"^XA^PW32^LL1^FO0,0^GFA,4,4,4,MB^FS^XZ",
        b"P4\n32 1\n\xbb\xbb\xbb\xb0",
    ),
    (
        b"^XA^PW8^LL2^PMY^PQ2^GB4,1,1^FS^XZ",
        b"P4\n8 2\n\x0f\x00P4\n8 2\n\x0f\x00",
    ),
    (b"^XA^PW8^LL1^FR^GB8,1,1^FS^GB8,1,1^FS^XZ", b"P4\n8 1\n\xff"),
    (
        b"^XA^PW8^LL1^GB8,1,1^FS^LRY^GB4,1,1^FS^GB2,1,1,W^FS^XZ",
        b"P4\n8 1\n\xcf",
    ),
    (b"^XA^FO0,0^GB8,2,2^FS", b""),
];

#[test]
fn labels(rt: HostRuntime) -> Result<(), Fail> {
    same(&rt, &wrong_row(rt.alloc(), &LABELS)?, &None);
    Ok(())
}

/// A hundred million rows that end with the label's last one, of which each band is put out from below.
#[test]
fn rows_above_the_label(rt: HostRuntime) -> Result<(), Fail> {
    let stream = b"^XA^PW8^LL8000^POI^FT0,8000^GFA,,99999999,1^FS^XZ";
    let mut want = [0u8; 8010];
    want[..10].copy_from_slice(b"P4\n8 8000\n");
    same(&rt, &prints(rt.alloc(), stream, 64, &want)?, &true);
    Ok(())
}

/// Puts out `bytes` more bytes, one at a time.
fn put_out(rt: &impl Abort, label: &mut Label, bytes: usize) {
    let mut out = [0u8; 1];
    let mut put: usize = 0;
    for _ in 0..bytes {
        put = put.saturating_add(label.put(&mut out));
    }
    same(rt, &put, &bytes);
}

/// The rows of the band, the stored bytes and the fields that are held.
fn held(label: &Label) -> (u16, u32, u16) {
    (label.band_rows(), label.stored(), label.fields())
}

/// A label of two bands, the second of two rows, in copies of 42 bytes with a header of 8, and three fields.
const TWO_BANDS: &[u8] = b"^FO0,30^GB8,4,4^FS^FO0,32^GB8,1,1,W^FS^FO0,31^FR^GB4,3,3^FS^XZ";

/// How many bytes are put out, and what is held behind them.
static COUNTS: [(usize, (u16, u32, u16)); 9] = [
    (0, (0, 5, 4)),
    (7, (0, 5, 4)),
    (1, (32, 5, 4)),
    (31, (32, 5, 4)),
    (1, (2, 5, 4)),
    (1, (2, 5, 4)),
    (1, (0, 5, 4)),
    (8, (32, 5, 4)),
    (34, (0, 0, 0)),
];

/// While bytes are pending, what is held is of the format that ended.
#[test]
fn counts(rt: HostRuntime) -> Result<(), Fail> {
    let mut label = Label::new(rt.alloc(), NONE)?;
    let mut reader = ZplReader::new(Reading::Profile);
    fed(&mut label, &mut reader, b"^XA^PW8^LL34^PQ2^FDabc^FDde^FS");
    same(&rt, &held(&label), &(0, 5, 1));
    fed(&mut label, &mut reader, TWO_BANDS);
    for (bytes, want) in &COUNTS {
        put_out(&rt, &mut label, *bytes);
        same(&rt, &held(&label), want);
    }
    Ok(())
}

/// A copy took at least `least` and at most `most` looks so far.
fn took(rt: &impl Abort, label: &Label, least: u64, most: u64) {
    let looks = label.visits();
    assert!(rt; looks >= least && looks <= most, "{looks} looks");
}

/// Five pairs of a band and a field that it meets, in each of two copies.
#[test]
fn looks(rt: HostRuntime) -> Result<(), Fail> {
    let mut label = Label::new(rt.alloc(), NONE)?;
    let mut reader = ZplReader::new(Reading::Profile);
    fed(&mut label, &mut reader, b"^XA^PW8^LL34^PQ2");
    fed(&mut label, &mut reader, TWO_BANDS);
    took(&rt, &label, 0, 0);
    for _ in 0..2 {
        put_out(&rt, &mut label, 42);
        took(&rt, &label, 5, 12);
    }
    Ok(())
}

/// A thousand boxes in the first of 250 bands.
fn looks_in_the_first_band(rt: &impl Abort, label: &mut Label) {
    let mut reader = ZplReader::new(Reading::Profile);
    fed(label, &mut reader, b"^XA^PW8^LL8000");
    for _ in 0..1000 {
        fed(label, &mut reader, b"^FO0,0^GB8,1,1^FS");
    }
    fed(label, &mut reader, b"^XZ");
    put_out(rt, label, 8010);
    same(rt, &label.pending(), &false);
    took(rt, label, 1000, 2250);
}

/// A box below a label of two bands.
fn looks_below(rt: &impl Abort, label: &mut Label) {
    let stream = b"^XA^PW8^LL34^FO0,100^GB8,1,1^FS^XZ";
    fed(label, &mut ZplReader::new(Reading::Profile), stream);
    put_out(rt, label, 42);
    took(rt, label, 0, 2);
}

/// Fields of the first of 250 bands, and one that lies below the label.
#[test]
fn looks_of_many_bands(rt: HostRuntime) -> Result<(), Fail> {
    looks_in_the_first_band(&rt, &mut Label::new(rt.alloc(), NONE)?);
    looks_below(&rt, &mut Label::new(rt.alloc(), NONE)?);
    Ok(())
}

/// `head`, and behind it `bytes` `times` times.
fn repeated(alloc: Global, head: &[u8], bytes: &[u8], times: usize) -> Result<Vec<u8>, AllocError> {
    let mut stream = Vec::new(alloc);
    stream.extend_from_slice(head)?;
    for _ in 0..times {
        stream.extend_from_slice(bytes)?;
    }
    Ok(stream)
}

/// `stream` is refused at its last byte; `holds` is then held, and there is room for `room` bytes more.
fn fills(
    rt: &impl Abort,
    alloc: Global,
    stream: &[u8],
    why: Fault,
    holds: (u16, u32, u16),
    room: usize,
) -> Result<(), AllocError> {
    let (label, taken, fault) = behind(alloc, stream)?;
    same(rt, &(taken, fault), &(stream.len(), Some(why)));
    same(rt, &(held(&label), label.data_room()), &(holds, room));
    Ok(())
}

/// A format holds 262,144 bytes, and 1,024 fields.
#[test]
fn full(rt: HostRuntime) -> Result<(), Fail> {
    let bytes = repeated(rt.alloc(), b"^XA^FD", b"A", 262_145)?;
    fills(
        &rt,
        rt.alloc(),
        bytes.as_slice(),
        Fault::StoreFull,
        (0, 262_144, 0),
        0,
    )?;
    let fields = repeated(rt.alloc(), b"^XA", b"^GB1,1,1^FS", 1025)?;
    fills(
        &rt,
        rt.alloc(),
        fields.as_slice(),
        Fault::FieldsFull,
        (0, 0, 1024),
        262_144,
    )?;
    Ok(())
}

/// Data are stored behind each other in an open format, and wait for no room outside one.
#[test]
fn stored(rt: HostRuntime) -> Result<(), Fail> {
    let rows = [
        (b"^XA^FDabc^XAde^FS".as_slice(), 3, 262_141),
        (b"^XA^FDabc^FS^FDde^FS".as_slice(), 5, 262_139),
        (b"^XA^FDabc^FDde^GB1^FS".as_slice(), 5, 262_139),
        (b"^FDabc^FS".as_slice(), 0, 262_144),
        (b"^XA^FDabc^XZ".as_slice(), 3, 262_144),
    ];
    for i in 0..rows.len() {
        let (stream, stored, room) = rows[i];
        let (label, _, fault) = behind(rt.alloc(), stream)?;
        same(
            &rt,
            &(label.stored(), label.data_room(), fault),
            &(stored, room, None),
        );
    }
    Ok(())
}

/// Takes a run of data where there is room for it: how many of its bytes are taken.
fn taken_in_a_run(label: &mut Label, reader: &mut ZplReader, data: &[u8]) -> Option<usize> {
    if label.pending() || label.data_room() < data.len() {
        return None;
    }
    let n = reader.take_data(data);
    label.apply_data(&data[..n]);
    Some(n)
}

/// Bytes of a picture that are taken in one run.
#[test]
fn data_by_runs(rt: HostRuntime) -> Result<(), Fail> {
    let mut label = Label::new(rt.alloc(), NONE)?;
    let mut reader = ZplReader::new(Reading::Profile);
    fed(&mut label, &mut reader, b"^XA^PW32^LL1^FO0,0^GFA,4,4,4,");
    let taken = taken_in_a_run(&mut label, &mut reader, b"MB");
    same(&rt, &(taken, held(&label)), &(Some(2), (0, 2, 0)));
    fed(&mut label, &mut reader, b"^FS^XZ");
    let mut out = [0u8; 64];
    let n = label.put(&mut out);
    same(&rt, &&out[..n], &b"P4\n32 1\n\xbb\xbb\xbb\xb0".as_slice());
    Ok(())
}

/// Why the first item that is refused is, and how many bytes are taken.
fn refused(alloc: Global, stream: &[u8]) -> Result<(usize, Option<Fault>), AllocError> {
    let (_, taken, fault) = behind(alloc, stream)?;
    Ok((taken, fault))
}

/// Streams, how many of their bytes are taken, and why no more are.
static REFUSALS: [(&[u8], usize, Fault); 6] = [
    (b"^XA^GFA,2,2,1,:Z64:x^FS", 23, Fault::Graphic),
    (b"^XA^GFX,2,2,1,00^GB1,1,1^FS", 14, Fault::Graphic),
    (b"^XA^BQN,2,2^FDXA,1^FS", 21, Fault::Symbol(Why::CodeSet)),
    (b"^XA^BQN,2,2^FDHM,N1A^FS", 23, Fault::Symbol(Why::Char)),
    (b"^XA^BC^FD>;1A^XZ", 16, Fault::Symbol(Why::Empty)),
    (b"^XA^BC^FDA>9^FS", 15, Fault::Symbol(Why::CodeSet)),
];

#[test]
fn refusals(rt: HostRuntime) -> Result<(), Fail> {
    for (stream, taken, fault) in &REFUSALS {
        same(&rt, &refused(rt.alloc(), *stream)?, &(*taken, Some(*fault)));
    }
    Ok(())
}

/// Three labels one behind the other: copies of one band, others of the same size, and copies of two bands.
const THREE_LABELS: [&[u8]; 3] = [
    b"^XA^PW8^LL2^PQ3^FO0,0^GB8,1,1^FS^XZ",
    b"^XA^PW8^LL2^PQ2^FO0,1^GB4,1,1^FS^XZ",
    b"^XA^PW8^LL34^PQ2^FO0,0^GB8,1,1^FS^FO0,33^GB2,1,1^FS^XZ",
];

/// What they print.
fn three_texts(alloc: Global) -> Result<Vec<u8>, AllocError> {
    let mut text = Vec::new(alloc);
    for _ in 0..3 {
        text.extend_from_slice(b"P4\n8 2\n\xff\x00")?;
    }
    for _ in 0..2 {
        text.extend_from_slice(b"P4\n8 2\n\x00\xf0")?;
    }
    for _ in 0..2 {
        text.extend_from_slice(b"P4\n8 34\n\xff")?;
        text.extend_from_slice(&[0u8; 32])?;
        text.push(0xc0)?;
    }
    Ok(text)
}

/// No label shows a band of the one before, nor a copy the wrong band of its own, whatever room there is.
#[test]
fn labels_behind_copies(rt: HostRuntime) -> Result<(), Fail> {
    let want = three_texts(rt.alloc())?;
    for room in [1usize, 7, 64] {
        let mut label = Label::new(rt.alloc(), NONE)?;
        let mut reader = ZplReader::new(Reading::Profile);
        let mut text = Vec::new(rt.alloc());
        for stream in &THREE_LABELS {
            fed(&mut label, &mut reader, *stream);
            put_behind(&mut label, room, &mut text)?;
        }
        same(&rt, &text.as_slice(), &want.as_slice());
    }
    Ok(())
}

/// The looks and the work of the copy that was painted last.
fn costs(label: &Label) -> (u64, u64) {
    (label.visits(), label.work())
}

/// The first copy of a label of one band is painted, and stands for the second and the third; each copy of two
/// bands is begun and painted.
#[test]
fn copies_cost_what_is_painted(rt: HostRuntime) -> Result<(), Fail> {
    let mut label = Label::new(rt.alloc(), NONE)?;
    let mut reader = ZplReader::new(Reading::Profile);
    fed(&mut label, &mut reader, THREE_LABELS[0]);
    same(&rt, &costs(&label), &(0, 0));
    put_out(&rt, &mut label, 9);
    let first = costs(&label);
    same(&rt, &(first.0 > 0, first.1 > 0), &(true, true));
    for _ in 0..18 {
        put_out(&rt, &mut label, 1);
        same(&rt, &costs(&label), &first);
    }
    fed(&mut label, &mut reader, THREE_LABELS[2]);
    for _ in 0..2 {
        put_out(&rt, &mut label, 1);
        same(&rt, &costs(&label), &(0, 0));
        put_out(&rt, &mut label, 41);
        took(&rt, &label, 2, 6);
    }
    Ok(())
}
