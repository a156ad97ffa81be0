//! Copies in pieces of each length: the room may end at any byte.
ghost use Rattle.std.specs.Prelude.{◌<◌, ◌≤◌, length};

use crate::checks::same;
use std::alloc::{AllocError, Global};
use std::process::Abort;
use std::test::Fail;
use vp_copies::{Ahead, Copies};
use vp_label_size::LabelBand;

/// Paints a band so that the first byte of each row of the image is the row's number.
fn paint(number: usize, band: &mut LabelBand) {
    for y in 0..32 {
        band.row_mut(y)[0] = ((32 * (number % 8) + y) % 256) as u8;
    }
}

/// Puts out whole rows of the band or, where none come next, bytes of a line.
fn put_next(copies: &mut Copies, band: &LabelBand, out: &mut [u8]) -> usize
    requires { 0 < copies.old.place.copies }
    ensures { result ≤ length out.old }
{
    let n = copies.put_rows(band, out);
    if n > 0 {
        return n;
    }
    copies.put_line(band, out)
}

/// Puts out `copies` behind `text`, where there is room for `room` bytes at once.
fn put_out(
    copies: &mut Copies,
    band: &mut LabelBand,
    room: usize,
    text: &mut Vec<u8>,
) -> Result<(), AllocError> {
    let mut out = [0u8; 64];
    for _ in 0..1000 {
        if !copies.is_pending() {
            break;
        }
        if let Ahead::Band(number) = copies.ahead() {
            paint(number, band);
        }
        let n = put_next(copies, band, &mut out[..room.min(64)]);
        text.extend_from_slice(&out[..n])?;
    }
    Ok(())
}

/// `copies` are put out as `want`, where there is room for `room` bytes at once.
fn prints(
    rt: &impl Abort,
    alloc: Global,
    mut copies: Copies,
    room: usize,
    want: &[u8],
) -> Result<(), Fail> {
    let mut band = LabelBand::new(alloc)?;
    let mut text = Vec::new(alloc);
    put_out(&mut copies, &mut band, room, &mut text)?;
    same(rt, &text.as_slice(), &want);
    Ok(())
}

/// Two copies of an image of 34 rows of 8 dots.
fn two_copies(alloc: Global) -> Result<Vec<u8>, AllocError> {
    let mut text = Vec::new(alloc);
    for _ in 0..2 {
        text.extend_from_slice(b"P4\n8 34\n")?;
        for y in 0..34u8 {
            text.push(y)?;
        }
    }
    Ok(text)
}

#[test]
fn in_pieces(rt: HostRuntime) -> Result<(), Fail> {
    let want = two_copies(rt.alloc())?;
    for room in 1..10 {
        prints(
            &rt,
            rt.alloc(),
            Copies::new(8, 34, 2),
            room,
            want.as_slice(),
        )?;
    }
    Ok(())
}

/// A row of 12 dots fills two bytes.
#[test]
fn last_byte_of_a_row(rt: HostRuntime) -> Result<(), Fail> {
    let want = b"P4\n12 2\n\x00\x00\x01\x00";
    prints(&rt, rt.alloc(), Copies::new(12, 2, 1), 3, want)
}

#[test]
fn no_copies(rt: HostRuntime) -> Result<(), Fail> {
    prints(&rt, rt.alloc(), Copies::new(8, 34, 0), 1, b"")
}

/// What is wanted next where something is, and how many rows its band has, as copies are put out in pieces of
/// at most eight bytes.
fn see(
    copies: &mut Copies,
    band: &LabelBand,
    seen: &mut Vec<(Ahead, usize)>,
) -> Result<(), AllocError> {
    let mut out = [0u8; 8];
    for _ in 0..106 {
        if copies.is_pending() {
            if copies.ahead() != Ahead::Nothing {
                seen.push((copies.ahead(), copies.band_rows()))?;
            }
            copies.put_line(band, &mut out);
        }
    }
    Ok(())
}

/// What `copies` want, one after the other.
fn wants(
    rt: &impl Abort,
    alloc: Global,
    mut copies: Copies,
    want: &[(Ahead, usize)],
) -> Result<(), Fail> {
    let mut band = LabelBand::new(alloc)?;
    paint(0, &mut band);
    let mut seen = Vec::new(alloc);
    see(&mut copies, &band, &mut seen)?;
    same(rt, &seen.as_slice(), &want);
    same(rt, &copies.is_pending(), &false);
    Ok(())
}

/// The bands of an image of 34 rows, in each of its copies: what is wanted next, and how many of its rows the
/// band has.
#[test]
fn bands(rt: HostRuntime) -> Result<(), Fail> {
    let want = [
        (Ahead::Band(0), 32),
        (Ahead::Band(1), 2),
        (Ahead::Copy, 0),
        (Ahead::Band(0), 32),
        (Ahead::Band(1), 2),
    ];
    wants(&rt, rt.alloc(), Copies::new(8, 34, 2), &want)
}

/// The only band of an image of 32 rows stands for all copies.
#[test]
fn one_band(rt: HostRuntime) -> Result<(), Fail> {
    let want = [(Ahead::Band(0), 32)];
    wants(&rt, rt.alloc(), Copies::new(8, 32, 3), &want)
}
