//! Images that a raster makes, painted dot by dot as the rules say it.
use std::alloc::Global;
use std::io::Write;
use std::test::Fail;

/// The dots of a raster: its rows of `row` bytes, each dot perhaps twice as wide or twice as high.
#[derive(Clone, Copy)]
pub struct Dots<'a> {
    pub bytes: &'a [u8],
    pub row: usize,
    pub scale: u8,
}

/// Where they go.
#[derive(Clone, Copy)]
pub enum Ground {
    /// On paper, from dot `left` on, cut after `length` dots.
    Paper { left: usize, length: usize },
    /// In an area of a page, its place, width and height, in a direction.
    Page { area: [u16; 4], direction: u8 },
}

/// Where dot u of row v falls in an area: a line runs to the right, up, to the left or down, and the next one
/// lies below, to the right, above or to the left of it.
fn place_in([x, y, wide, high]: [usize; 4], direction: u8, u: usize, v: usize) -> (usize, usize) {
    let from = |end: usize, n: usize| end.wrapping_sub(1).wrapping_sub(n);
    let (across, down) = match direction {
        0 => (u, v),
        1 => (v, from(high, u)),
        2 => (from(wide, u), from(high, v)),
        _ => (from(wide, v), u),
    };
    (x.wrapping_add(across), y.wrapping_add(down))
}

/// An area as far as it lies on the page.
pub fn cut(area: [u16; 4]) -> [usize; 4] {
    let [x, y, wide, high] = area;
    [
        usize::from(x),
        usize::from(y),
        usize::from(wide.min(576u16.saturating_sub(x))),
        usize::from(high.min(1664u16.saturating_sub(y))),
    ]
}

impl Ground {
    /// Where dot u of row v falls, if it isn't cut off.
    fn place(self, u: usize, v: usize) -> Option<(usize, usize)> {
        match self {
            Ground::Paper { left, length } => (u < length).then_some((left.wrapping_add(u), v)),
            Ground::Page { area, direction } => {
                let area = cut(area);
                let (length, depth) = match direction {
                    0 | 2 => (area[2], area[3]),
                    _ => (area[3], area[2]),
                };
                (u < length && v < depth).then_some(place_in(area, direction, u, v))
            }
        }
    }
}

impl Dots<'_> {
    /// How many dots a row has.
    fn wide(&self) -> usize {
        let dots = self.row.wrapping_mul(8);
        if self.scale % 2 == 1 {
            dots.wrapping_mul(2)
        } else {
            dots
        }
    }

    /// How many rows there are.
    pub fn high(&self) -> usize {
        let rows = self.bytes.len() / self.row.max(1);
        if self.scale >= 2 {
            rows.wrapping_mul(2)
        } else {
            rows
        }
    }

    /// Whether dot u of row v is black.
    fn is_black(&self, u: usize, v: usize) -> bool {
        let x = if self.scale % 2 == 1 { u / 2 } else { u };
        let y = if self.scale >= 2 { v / 2 } else { v };
        match self.bytes.get(y.wrapping_mul(self.row).wrapping_add(x / 8)) {
            Some(byte) => *byte & (0x80 >> (x % 8)) != 0,
            None => false,
        }
    }

    /// Blackens their places in rows of `row` bytes.
    fn paint(&self, ground: Ground, row: usize, image: &mut [u8]) {
        for v in 0..self.high() {
            for u in 0..self.wide() {
                if self.is_black(u, v) {
                    blacken(ground.place(u, v), row, image);
                }
            }
        }
    }
}

/// Blackens a place, if it is one.
fn blacken(place: Option<(usize, usize)>, row: usize, image: &mut [u8]) {
    let Some((x, y)) = place else {
        return;
    };
    if let Some(byte) = image.get_mut(y.wrapping_mul(row).wrapping_add(x / 8)) {
        *byte |= 0x80 >> (x % 8);
    }
}

/// An image with these dots.
pub fn image(
    alloc: Global,
    width: usize,
    height: usize,
    dots: &Dots<'_>,
    ground: Ground,
) -> Result<Vec<u8>, Fail> {
    let mut rows = Vec::new(alloc);
    for _ in 0..(width / 8).wrapping_mul(height) {
        rows.push(0)?;
    }
    dots.paint(ground, width / 8, &mut rows);
    let mut image = Vec::new(alloc);
    write!(image, "P4\n{width} {height}\n")?;
    image.extend_from_slice(rows.as_slice())?;
    Ok(image)
}
