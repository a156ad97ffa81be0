//! Boxes and other shapes, and the heads of pictures.
ghost use Rattle.std.specs.Prelude.{◌≡◌, ◌&&◌, nat_le};
ghost use Rattle.vp_label_settings.specs.Graphics.{box_of, circle_of, ellipse_of, diagonal_of, picture_coding, picture_head, has_rows};

use crate::range::ranged;
use vp_format::{Coding, GraphicBox};
use vp_shapes::{Diagonal, Leaning, Ring};
use vp_zpl::item::GraphicFormat;

/// The box of ^GB, each way 1 to 32,000 dots and at least as many as its lines: where no width or height is
/// given it is that of the line.
pub fn box_of(width: Option<u32>, height: Option<u32>, thickness: Option<u32>) -> GraphicBox
    ensures { result ≡ box_of width height thickness }
{
    let thickness = ranged(1, 32_000, 1, thickness);
    GraphicBox {
        width: ranged(1, 32_000, thickness, width).max(thickness),
        height: ranged(1, 32_000, thickness, height).max(thickness),
        thickness,
    }
}

/// The circle of ^GC, 3 to 4,095 dots across, whose line is 1 to 4,095 dots thick.
pub fn circle_of(diameter: Option<u32>, thickness: Option<u32>) -> Ring
    ensures { result ≡ circle_of diameter thickness }
{
    let diameter = ranged(3, 4095, 3, diameter);
    Ring {
        width: diameter,
        height: diameter,
        thickness: ranged(1, 4095, 1, thickness),
    }
}

/// The ellipse of ^GE, each way 3 to 4,095 dots: where no width or height is given it is that of its line.
pub fn ellipse_of(width: Option<u32>, height: Option<u32>, thickness: Option<u32>) -> Ring
    ensures { result ≡ ellipse_of width height thickness }
{
    let thickness = ranged(1, 4095, 1, thickness);
    let side = thickness.max(3);
    Ring {
        width: ranged(3, 4095, side, width),
        height: ranged(3, 4095, side, height),
        thickness,
    }
}

/// The diagonal of ^GD, whose box has 3 to 32,000 dots each way: where no width or height is given it is that
/// of its line.
pub fn diagonal_of(
    width: Option<u32>,
    height: Option<u32>,
    thickness: Option<u32>,
    leaning: Option<Leaning>,
) -> Diagonal
    ensures { result ≡ diagonal_of width height thickness leaning }
{
    let thickness = ranged(1, 32_000, 1, thickness);
    let side = thickness.max(3);
    Diagonal {
        width: ranged(3, 32_000, side, width),
        height: ranged(3, 32_000, side, height),
        thickness,
        leaning: leaning.unwrap_or(Leaning::Right),
    }
}

/// What ^GF says of the picture that follows.
#[derive(Clone, Copy, PartialEq, Eq)]
pub struct PictureHead {
    pub coding: Coding,
    /// 1 to 1,024.
    pub row_bytes: u16,
    /// At least one.
    pub rows: u32,
}

/// Whether a row may have `row_bytes` bytes, 1 to 1,024, and `picture_bytes` bytes hold one.
fn has_rows(picture_bytes: u32, row_bytes: u32) -> bool
    ensures { result ≡ has_rows picture_bytes row_bytes }
{
    1 <= row_bytes && row_bytes <= 1024 && row_bytes <= picture_bytes
}

/// The coding of a picture, unless there is none such, or it sends the bytes of another one.
fn picture_coding(
    format: Option<GraphicFormat>,
    binary_bytes: Option<u32>,
    picture_bytes: u32,
) -> Option<Coding>
    ensures { result ≡ picture_coding format binary_bytes picture_bytes }
{
    match format {
        None | Some(GraphicFormat::Ascii) => Some(Coding::RunLength),
        Some(GraphicFormat::Binary) => match binary_bytes {
            Some(bytes) if bytes == picture_bytes => Some(Coding::Binary),
            _ => None,
        },
        Some(GraphicFormat::Other) => None,
    }
}

impl PictureHead {
    /// The head of ^GF, unless it can't be one.
    pub fn new(
        format: Option<GraphicFormat>,
        binary_bytes: Option<u32>,
        picture_bytes: Option<u32>,
        row_bytes: Option<u32>,
    ) -> Option<PictureHead>
        ensures { result ≡ picture_head format binary_bytes picture_bytes row_bytes }
    {
        let picture_bytes = picture_bytes?;
        let row_bytes = row_bytes?;
        if !has_rows(picture_bytes, row_bytes) {
            return None;
        }
        let coding = picture_coding(format, binary_bytes, picture_bytes)?;
        Some(PictureHead {
            coding,
            row_bytes: row_bytes as u16,
            rows: picture_bytes / row_bytes,
        })
    }
}
