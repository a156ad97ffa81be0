use linked_list_allocator::LocalHeap;
use std::test::Fail;
use vp_dots::{Band, Full, Op, Store, fill_dots, paint_words};
use vp_page::{Area, Direction, Page};

#[test]
fn a_band_takes_its_rows_and_nothing_after(rt: HostRuntime) -> Result<(), Fail> {
    let heap = LocalHeap::new(rt.alloc(), 144)?;
    {
        let mut band = Band::<72, 2, &LocalHeap>::new(&heap)?;
        assert_eq!(rt; band.memory(), 144);
        assert_eq!(rt; heap.free(), 0);
        fill_dots(Op::Black, 8, 16, band.row_mut(1));
        assert_eq!(rt; band.get(8, 1), Some(true));
        band.clear();
        assert_eq!(rt; band.get(8, 1), Some(false));
        paint_words(Op::Black, &[1 << 63], 1, 23, 0, &mut band);
        assert_eq!(rt; band.get(23, 0), Some(true));
        assert_eq!(rt; heap.free(), 0);
    }
    assert_eq!(rt; heap.free(), 144);
    Ok(())
}

#[test]
fn a_store_takes_its_bytes_and_nothing_after(rt: HostRuntime) -> Result<(), Fail> {
    let heap = LocalHeap::new(rt.alloc(), 32)?;
    {
        let mut store = Store::<32, &LocalHeap>::new(&heap)?;
        assert_eq!(rt; store.memory(), 32);
        assert_eq!(rt; heap.free(), 0);
        assert!(rt; store.append(&[1; 31]).is_ok());
        assert_eq!(rt; store.append(&[2; 2]), Err(Full));
        assert!(rt; store.push(3).is_ok());
        assert_eq!(rt; store.push(4), Err(Full));
        store.clear();
        assert!(rt; store.append(&[5; 32]).is_ok());
        assert_eq!(rt; heap.free(), 0);
    }
    assert_eq!(rt; heap.free(), 32);
    Ok(())
}

#[test]
fn a_page_takes_its_rows_and_nothing_after(rt: HostRuntime) -> Result<(), Fail> {
    let heap = LocalHeap::new(rt.alloc(), 239_616)?;
    let area = Area {
        x: 8,
        y: 0,
        dx: 16,
        dy: 16,
    };
    {
        let mut page = Page::<&LocalHeap>::new(&heap)?;
        assert_eq!(rt; page.memory(), 239_616);
        assert_eq!(rt; heap.free(), 0);
        page.lay_row(area, Direction::LeftToRight, 1, &[0xA0]);
        page.lay_row(area, Direction::TopToBottom, 0, &[0xFF]);
        page.turn_in();
        assert_eq!(rt; page.row(1)[1], 0xA0);
        assert_eq!(rt; page.row(1)[2], 0x01);
        page.wipe(area);
        assert_eq!(rt; page.row(1)[1], 0);
        assert_eq!(rt; page.row(1)[2], 0);
        page.clear();
        assert_eq!(rt; heap.free(), 0);
    }
    assert_eq!(rt; heap.free(), 239_616);
    Ok(())
}

#[test]
fn a_heap_that_is_too_small_is_refused(rt: HostRuntime) -> Result<(), Fail> {
    let heap = LocalHeap::new(rt.alloc(), 128)?;
    assert!(rt; Band::<72, 2, &LocalHeap>::new(&heap).is_err());
    assert!(rt; Store::<129, &LocalHeap>::new(&heap).is_err());
    assert!(rt; Page::<&LocalHeap>::new(&heap).is_err());
    assert_eq!(rt; heap.free(), 128);
    Ok(())
}
