//! Printers of both languages over a heap of just as many bytes as they hold with their sheets, beside
//! printers over `Global`.
use linked_list_allocator::LocalHeap;
use std::alloc::Global;
use std::process::Abort;
use std::test::Fail;
use vp_dots::Small;
use vp_engine::{Language, Printer, State};
use vp_glyph::{Sheet, Sheets};

/// Texts, bars, a QR symbol, a raster, columns, and a page with all of them.
const RECEIPT: &[u8] = b"\x1B@Till 3\n\x1DB\x01\x1D!\x11Sum\n\
    \x1Dw\x02\x1Dh\x08\x1DH\x02\x1Dk\x04A\x00\
    \x1D(k\x03\x001E1\x1D(k\x03\x001C\x01\x1D(k\x0E\x001P0HELLO WORLD\x1D(k\x03\x001Q0\
    \x1Dv0\x00\x02\x00\x02\x00\xFF\x00\xFF\x00\
    \x1B*\x00\x02\x00\x80\x01\n\
    \x1BL\x1BW\x00\x00\x00\x00\x00\x01\x40\x00Page\n\x1Dk\x04A\x00\x1D(k\x03\x001Q0\x1BT\x01A\x0C\
    \x1DV\x00";

/// A text, bars, a QR symbol, a picture, a box and a block, in three copies.
const LABEL: &[u8] = b"^XA^PW320^LL96^FO8,8^A0N,20,20^FDText^FS^FO8,32^BY1^BCN,16,Y^FD12^FS\
    ^FO96,8^BQN,2,1^FDMA,1^FS^FO160,8^GFA,4,4,2,FF80FF80^FS^FO200,8^GB40,40,4^FS\
    ^FO240,8^FB64,2^ADN,18,10^FDtwo lines^FS^PQ3^XZ";

/// The image of a sheet, in which each byte is 37 more than the one before.
fn image<const N: usize>(head: &[u8; 11]) -> [u8; N] {
    let mut image = [0; N];
    let mut byte: u8 = 0;
    for at in 0..N {
        image[at] = byte;
        byte = byte.wrapping_add(37);
    }
    for at in 0..N.min(11) {
        image[at] = head[at];
    }
    image
}

/// The sheets of both fonts.
fn sheets<A: Small + Copy>(alloc: A) -> Result<Sheets<A>, Fail> {
    let a = Sheet::read(alloc, &image::<9227>(b"P4\n192 384\n"), 12, 24)?;
    let b = Sheet::read(alloc, &image::<4907>(b"P4\n144 272\n"), 9, 17)?;
    Ok(Sheets {
        a: Some(a),
        b: Some(b),
    })
}

/// Whether a stream may end here.
fn is_at_end<A: Small>(printer: &Printer<A>) -> bool {
    if printer.pending() {
        return false;
    }
    printer.finish().is_ok()
}

/// Both put out the same for each byte of a stream, while nothing of the heap is free: how much.
fn prints_alike(
    rt: &impl Abort,
    heap: &LocalHeap,
    inside: &mut Printer<&LocalHeap>,
    plain: &mut Printer,
    stream: &[u8],
) -> usize {
    let mut paper = [0; 16384];
    let mut other = [0; 16384];
    let mut all: usize = 0;
    for byte in stream {
        let step = inside.step(&[*byte], &mut paper);
        let same = plain.step(&[*byte], &mut other);
        assert!(rt; step == same);
        assert!(rt; step.state == State::More);
        assert!(rt; paper[..step.put] == other[..step.put]);
        assert_eq!(rt; heap.free(), 0);
        all = all.wrapping_add(step.put);
    }
    assert!(rt; is_at_end(inside));
    all
}

/// How much a printer puts out of a stream in a heap of just its size, as one over `Global` does.
fn printed(
    rt: &impl Abort,
    alloc: Global,
    language: Language,
    stream: &[u8],
) -> Result<usize, Fail> {
    let mut plain = Printer::new(alloc, language, sheets(alloc)?)?;
    let size = plain.memory();
    let heap = LocalHeap::new(alloc, size)?;
    assert_eq!(rt; heap.free(), size);
    let all = {
        let mut inside = Printer::<&LocalHeap>::new(&heap, language, sheets(&heap)?)?;
        assert_eq!(rt; inside.memory(), size);
        prints_alike(rt, &heap, &mut inside, &mut plain, stream)
    };
    assert_eq!(rt; heap.free(), size);
    Ok(all)
}

#[test]
fn a_receipt_takes_its_memory_and_nothing_after(rt: HostRuntime) -> Result<(), Fail> {
    assert_eq!(rt;
        printed(&rt, rt.alloc(), Language::Receipt, RECEIPT)?,
        17_070
    );
    Ok(())
}

#[test]
fn a_label_takes_its_memory_and_nothing_after(rt: HostRuntime) -> Result<(), Fail> {
    assert_eq!(rt; printed(&rt, rt.alloc(), Language::Label, LABEL)?, 11_550);
    Ok(())
}

/// A printer is refused in a smaller heap, and what it took is given back. A heap comes by 16 bytes.
fn is_refused(rt: &impl Abort, alloc: Global, language: Language) -> Result<(), Fail> {
    let size = Printer::new(alloc, language, sheets(alloc)?)?
        .memory()
        .saturating_sub(16);
    let heap = LocalHeap::new(alloc, size)?;
    assert!(rt; Printer::<&LocalHeap>::new(&heap, language, sheets(&heap)?).is_err());
    assert_eq!(rt; heap.free(), size);
    Ok(())
}

#[test]
fn a_printer_is_refused_in_a_smaller_heap(rt: HostRuntime) -> Result<(), Fail> {
    is_refused(&rt, rt.alloc(), Language::Receipt)?;
    is_refused(&rt, rt.alloc(), Language::Label)
}
