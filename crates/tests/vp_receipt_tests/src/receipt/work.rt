//! The rows that the last item which ended the line of a page laid and made white.
use super::{new_receipt, print_whole};
use crate::checks::same;
use std::alloc::Global;
use std::process::Abort;
use std::test::Fail;
use vp_receipt::Width;

/// What is sent, and the work that is then told.
type Work = (&'static [u8], u64);

/// ESC L finds a white page, and then one on which a line was laid.
static PAGES: &[Work] = &[(b"\x1BL", 0), (b"\x1BLM\x0C\x1BL", 24)];

/// A line of 24 rows, and of 192; text alone, no line, and a line that is deeper than its area.
static LINES: &[Work] = &[
    (b"\x1BLM\n", 24),
    (b"\x1BL\x1D!\x77M\n", 192),
    (b"\x1BLM\nM", 24),
    (b"\x1BLM\n\n", 0),
    (b"\x1BL\x1BW\0\0\0\0\x10\0\x10\0M\n", 16),
];

/// CAN behind an open line, behind a laid one, and where all is white; and behind a line that runs up.
static WIPES: &[Work] = &[
    (b"\x1BLM\x18", 48),
    (b"\x1BLM\n\x18", 24),
    (b"\x1BLM\n\x18\x18", 0),
    (b"\x1BL\x1BW\0\0\0\0\x20\0\x10\0\x1BT\x01M\x18", 48),
];

/// Rows of a raster, laid twice, or behind the line that it ends; bars 162 rows high behind one.
static OWN: &[Work] = &[
    (b"\x1BL\x1Dv0\x02\x01\0\x02\0\xFF\xFF", 4),
    (b"\x1BLM\x1Dv0\0\x01\0\x02\0\xFF\xFF", 26),
    (b"\x1BLM\x1Dk\x04A\0", 186),
];

/// The work behind what is sent.
fn work_of(alloc: Global, sent: &[u8]) -> Result<u64, Fail> {
    let mut receipt = new_receipt(alloc, Width::W576)?;
    let mut paper = Vec::new(alloc);
    print_whole(&mut receipt, sent, 4096, &mut paper)?;
    Ok(receipt.work())
}

/// Each takes the work that it says.
fn take(rt: &impl Abort, alloc: Global, works: &[Work]) -> Result<(), Fail> {
    for (sent, work) in works {
        same(rt, &work_of(alloc, sent)?, work);
    }
    Ok(())
}

#[test]
fn work_is_what_the_last_item_took(rt: HostRuntime) -> Result<(), Fail> {
    take(&rt, rt.alloc(), PAGES)?;
    take(&rt, rt.alloc(), LINES)?;
    take(&rt, rt.alloc(), WIPES)?;
    take(&rt, rt.alloc(), OWN)
}
