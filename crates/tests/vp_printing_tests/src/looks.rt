//! The looks at fields and links while copies of a label are painted, whole copy by whole copy.
use crate::checks::same;
use crate::sheet::{repeat, repeated};
use std::alloc::{AllocError, Global};
use std::process::Abort;
use std::test::Fail;
use vp_dots::Fault;
use vp_glyph::Sheets;
use vp_label::Label;
use vp_zpl::{Reading, ZplItem, ZplReader};

/// Prints an item, if nothing is pending.
fn apply(label: &mut Label, item: ZplItem<'_>) -> Result<(), Fault> {
    if label.pending() {
        return Ok(());
    }
    label.apply(item)
}

/// A label printer behind all of a stream, of which only the last byte prints.
fn printing(alloc: Global, stream: &[u8]) -> Result<Label, AllocError> {
    let mut label = Label::new(alloc, Sheets { a: None, b: None })?;
    let mut reader = ZplReader::new(Reading::Profile);
    for byte in stream {
        if let Some(item) = reader.take(*byte) {
            let _ = apply(&mut label, item);
        }
    }
    Ok(label)
}

/// Puts out up to `bytes` bytes, one a call, and says how many there were.
fn put_bytes(label: &mut Label, bytes: usize) -> usize {
    let mut put: usize = 0;
    for _ in 0..bytes {
        put = put.saturating_add(label.put(&mut [0]));
    }
    put
}

/// A copy is pending, puts out `bytes` bytes, and takes at least `least` and at most `most` looks.
fn a_copy_takes(rt: &impl Abort, label: &mut Label, bytes: usize, (least, most): (u64, u64)) {
    let pending = label.pending();
    let put = put_bytes(label, bytes);
    let looks = label.visits();
    let few = looks.max(least).min(most);
    same(
        rt,
        "pending, bytes, looks",
        &(pending, put, looks),
        &(true, bytes, few),
    );
}

/// Each of `copies` copies takes from `looks.0` to `looks.1` looks, and nothing is pending behind the last.
fn copies_take(
    rt: &impl Abort,
    label: &mut Label,
    (copies, bytes): (usize, usize),
    looks: (u64, u64),
) {
    for _ in 0..copies {
        a_copy_takes(rt, label, bytes, looks);
    }
    same(rt, "pending", &label.pending(), &false);
}

/// Each of the `copies.0` copies of `copies.1` bytes takes from `looks.0` to `looks.1` looks.
fn takes(
    rt: &impl Abort,
    alloc: Global,
    stream: &[u8],
    copies: (usize, usize),
    looks: (u64, u64),
) -> Result<(), Fail> {
    let mut label = printing(alloc, stream)?;
    copies_take(rt, &mut label, copies, looks);
    Ok(())
}

#[test]
fn each_copy_takes_few_looks(rt: HostRuntime) -> Result<(), Fail> {
    // two bands, which meet two fields and three
    let three = b"^XA^PW8^LL34^FO0,30^GB8,4,4^FS^FO0,32^GB8,1,1,W^FS^FO0,31^FR^GB4,3,3^FS^XZ";
    takes(&rt, rt.alloc(), three, (1, 42), (5, 12))?;
    let twice = b"^XA^PW8^LL34^PQ2^FO0,30^GB8,4,4^FS^FO0,32^GB8,1,1,W^FS^FO0,31^FR^GB4,3,3^FS^XZ";
    takes(&rt, rt.alloc(), twice, (2, 42), (5, 12))?;
    takes(
        &rt,
        rt.alloc(),
        b"^XA^PW8^LL34^FO0,100^GB8,1,1^FS^XZ",
        (1, 42),
        (0, 2),
    )
}

/// 250 bands, of which one meets 1,000 fields.
#[test]
fn a_copy_of_many_bands_takes_few_looks(rt: HostRuntime) -> Result<(), Fail> {
    let mut many = repeated(rt.alloc(), b"^XA^PW8^LL8000", b"^FO0,0^GB8,1,1^FS", 1000)?;
    repeat(&mut many, b"^XZ", 1)?;
    takes(&rt, rt.alloc(), &many, (1, 8010), (1000, 2250))
}
