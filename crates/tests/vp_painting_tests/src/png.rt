//! PNG files: whole ones, whose tokens were found by hand and whose sums are zlib's, and what is refused.

use vp_png::{Png, PngError};

const ONE_BYTE: [u8; 88] = [
    137, 80, 78, 71, 13, 10, 26, 10, 0, 0, 0, 13, 73, 72, 68, 82, 0, 0, 0, 8, 0, 0, 0, 1, 1, 0, 0,
    0, 0, 203, 123, 210, 238, 0, 0, 0, 9, 112, 72, 89, 115, 0, 0, 31, 64, 0, 0, 31, 64, 1, 147,
    168, 91, 167, 0, 0, 0, 10, 73, 68, 65, 84, 120, 1, 99, 248, 0, 0, 0, 242, 0, 241, 167, 43, 184,
    143, 0, 0, 0, 0, 73, 69, 78, 68, 174, 66, 96, 130,
];

const WHITE: [u8; 95] = [
    137, 80, 78, 71, 13, 10, 26, 10, 0, 0, 0, 13, 73, 72, 68, 82, 0, 0, 0, 48, 0, 0, 0, 80, 1, 0,
    0, 0, 0, 119, 141, 203, 112, 0, 0, 0, 9, 112, 72, 89, 115, 0, 0, 31, 64, 0, 0, 31, 64, 1, 147,
    168, 91, 167, 0, 0, 0, 17, 73, 68, 65, 84, 120, 1, 99, 248, 15, 6, 35, 157, 26, 165, 136, 164,
    0, 19, 213, 222, 48, 165, 163, 56, 3, 0, 0, 0, 0, 73, 69, 78, 68, 174, 66, 96, 130,
];

const CHECKS: [u8; 92] = [
    137, 80, 78, 71, 13, 10, 26, 10, 0, 0, 0, 13, 73, 72, 68, 82, 0, 0, 0, 64, 0, 0, 0, 3, 1, 0, 0,
    0, 0, 11, 222, 52, 177, 0, 0, 0, 9, 112, 72, 89, 115, 0, 0, 31, 64, 0, 0, 31, 64, 1, 147, 168,
    91, 167, 0, 0, 0, 14, 73, 68, 65, 84, 120, 1, 99, 88, 26, 5, 129, 152, 12, 0, 163, 59, 11, 245,
    1, 149, 191, 102, 0, 0, 0, 0, 73, 69, 78, 68, 174, 66, 96, 130,
];

/// An image of one row, again and again, gives the file, which is handed out in pieces.
fn gives(width: u32, height: u32, row: &[u8], piece: usize, wanted: &[u8]) -> bool {
    let Ok(mut png) = Png::new(width, height) else {
        return false;
    };
    let mut rest = wanted;
    for _ in 0..1000 {
        let n = png.waiting().len().min(piece);
        if n > rest.len() || png.waiting()[..n] != rest[..n] {
            return false;
        }
        png.hand_out(n);
        rest = &rest[n..];
        if png.is_done() {
            return rest.is_empty();
        }
        if !png.is_waiting() && png.row(row).is_err() {
            return false;
        }
    }
    false
}

#[test]
fn files(rt: HostRuntime) {
    // 8 dots, four of them black
    assert!(rt; gives(8, 1, &[0x0f], 64, &ONE_BYTE));
    assert!(rt; gives(8, 1, &[0x0f], 1, &ONE_BYTE));
    // 80 white rows: matches with the row above, which go on over rows
    assert!(rt; gives(48, 80, &[0; 6], 7, &WHITE));
    // every second byte is the same
    assert!(rt;
        gives(
            64,
            3,
            &[0x5a, 0xa5, 0x5a, 0xa5, 0x5a, 0xa5, 0x5a, 0xa5],
            64,
            &CHECKS
        )
    );
}

/// An image of this size is refused so.
fn refuses(width: u32, height: u32, wanted: PngError) -> bool {
    match Png::new(width, height) {
        Ok(_) => false,
        Err(error) => error == wanted,
    }
}

/// A row is refused so.
fn refuses_row(png: &mut Png, row: &[u8], wanted: PngError) -> bool {
    match png.row(row) {
        Ok(()) => false,
        Err(error) => error == wanted,
    }
}

#[test]
fn refusals(rt: HostRuntime) {
    assert!(rt; refuses(0, 1, PngError::ZeroSize));
    assert!(rt; refuses(1, 0, PngError::ZeroSize));
    assert!(rt; refuses(1665, 1, PngError::TooWide));
    let Ok(mut png) = Png::new(9, 1) else {
        assert!(rt; false);
        return;
    };
    assert!(rt; refuses_row(&mut png, &[0], PngError::RowLength));
    assert!(rt; refuses_row(&mut png, &[0, 0], PngError::Waiting));
    assert!(rt; png.waiting().len() == 54);
    png.hand_out(54);
    assert!(rt; png.row(&[0, 0]).is_ok());
    assert!(rt; refuses_row(&mut png, &[0, 0], PngError::TooManyRows));
    assert!(rt; !png.is_done());
}
