//! The raster whose bytes come: its scale, the rows that are not whole, and the first bytes of the row.
ghost use Rattle.std.specs.Prelude.{◌≡◌, ℕ, ◌+◌, ◌-◌, ◌*◌, ◌<◌, ◌≤◌, ◌++◌, List, [], ◌∷◌, take, min, length, ◌&&◌, true, Option};
ghost use Rattle.vp_esc.specs.declared.item.EscItem.{EscItem};
ghost use Rattle.vp_esc.specs.declared.item.RasterScale.{RasterScale};
ghost use Rattle.vp_esc.specs.declared.item.Spelled.{Spelled};
ghost use Rattle.vp_page.specs.declared.line.TheConstants.{LINE_BYTES};
ghost use Rattle.vp_receipt_settings.specs.Rasters.{times_across, times_down, scale_or, draws, is_row_end, row_so_far, bytes_after};
ghost use Rattle.vp_receipt_settings.specs.Gathering.{IsGathering, IsPartRow, EndsRow, kept_of, room_of, left_of};

use vp_esc::item::RasterScale;
use vp_page::LINE_BYTES;

/// A raster whose bytes come, and the bytes of its row as far as they have come.
#[derive(Clone, Copy)]
pub struct Raster {
    pub scale: RasterScale,
    /// The bytes of a row.
    pub bytes: u16,
    /// The rows that are not whole.
    pub rows: u16,
    /// How many bytes of the first of them have come.
    pub got: u16,
    /// The first of these, as many as the longest line of a page has.
    pub row: [u8; LINE_BYTES],
}

/// Whether a raster has bytes to print.
pub fn draws(scale: Option<RasterScale>, bytes: u16, rows: u16) -> bool
    ensures { result ≡ draws scale bytes rows }
{
    scale.is_some() && bytes > 0 && rows > 0
}

/// How often a dot is drawn across.
pub fn times_across(scale: RasterScale) -> u32
    ensures value { result ≡ times_across scale }
    ensures some { 0 < result }
    ensures few { result ≤ 2 }
{
    match scale {
        RasterScale::Normal | RasterScale::DoubleHeight => 1,
        RasterScale::DoubleWidth | RasterScale::Quadruple => 2,
    }
}

/// How often a row is drawn.
pub fn times_down(scale: RasterScale) -> u32
    ensures value { result ≡ times_down scale }
    ensures some { 0 < result }
    ensures few { result ≤ 2 }
{
    match scale {
        RasterScale::Normal | RasterScale::DoubleWidth => 1,
        RasterScale::DoubleHeight | RasterScale::Quadruple => 2,
    }
}

/// The scale of a raster's head.
pub fn scale_named(scale: Option<RasterScale>) -> RasterScale
    ensures { result ≡ scale_or scale }
{
    match scale {
        Some(scale) => scale,
        None => RasterScale::Normal,
    }
}

/// Keeps a byte, if it is one of the first that are kept.
#[inline(always)]
fn keep(row: &mut [u8; LINE_BYTES], got: u16, byte: u8)
    ensures { (came : List ℕ) → got ≡ length came → take (min got LINE_BYTES) row.old ≡ take LINE_BYTES came →
        take (min (got + 1) LINE_BYTES) row.new ≡ take LINE_BYTES (came ++ byte ∷ []) }
{
    let i = usize::from(got);
    if i < LINE_BYTES {
        row[i] = byte;
    }
}

/// Keeps bytes, those of them that are among the first that are kept.
fn keep_all(row: &mut [u8; LINE_BYTES], got: u16, bytes: &[u8])
    ensures { (came : List ℕ) → got ≡ length came → take (min got LINE_BYTES) row.old ≡ take LINE_BYTES came →
        take (min (got + length bytes.now) LINE_BYTES) row.new ≡ take LINE_BYTES (came ++ bytes.now) }
{
    let from = usize::from(got).min(LINE_BYTES);
    let n = bytes.len().min(LINE_BYTES - from);
    row[from..from + n].copy_from_slice(&bytes[..n]);
}

impl Raster {
    /// None.
    pub fn none() -> Raster
        ensures gathers { IsGathering result [] }
        ensures part { IsPartRow result }
    {
        Raster {
            scale: RasterScale::Normal,
            bytes: 0,
            rows: 0,
            got: 0,
            row: [0; LINE_BYTES],
        }
    }

    /// Ends the raster that came.
    pub fn end(&mut self)
        ensures gathers { IsGathering self.new [] }
        ensures part { IsPartRow self.new }
    {
        self.scale = RasterScale::Normal;
        self.bytes = 0;
        self.rows = 0;
        self.got = 0;
    }

    /// Begins the raster of a head, where none comes.
    pub(crate) fn begin(&mut self, scale: Option<RasterScale>, bytes: u16, rows: u16)
        requires { IsGathering self.old [] }
        ensures gathers { (head : Spelled (Option RasterScale)) (before : List EscItem) →
            head.value ≡ scale → IsGathering self.new (EscItem.Raster head bytes rows ∷ before) }
        ensures part { IsPartRow self.new }
    {
        self.scale = scale_named(scale);
        self.bytes = bytes;
        if draws(scale, bytes, rows) {
            self.rows = rows;
        }
    }

    /// Goes on to the next row.
    #[inline(always)]
    fn next_row(&mut self)
        requires { 0 < self.old.rows }
        ensures { self.new ≡ record self.old { rows = self.old.rows - 1; got = 0 } }
    {
        self.got = 0;
        self.rows -= 1;
    }

    /// Takes a byte, and tells whether it ends a row.
    #[inline(always)]
    pub fn take(&mut self, byte: u8) -> bool
        requires { IsPartRow self.old }
        ensures part { IsPartRow self.new }
        ensures ends { (before : List EscItem) → IsGathering self.old before → result ≡ is_row_end before }
        ensures gathers { (before : List EscItem) → IsGathering self.old before →
            IsGathering self.new (EscItem.RasterByte byte ∷ before) }
        ensures row { (before : List EscItem) → IsGathering self.old before → result ≡ true →
            EndsRow self.new before byte }
    {
        if self.rows == 0 {
            return false;
        }
        keep(&mut self.row, self.got, byte);
        self.got += 1;
        if self.got < self.bytes {
            return false;
        }
        self.next_row();
        true
    }

    /// How many bytes come before the one that ends the row.
    pub fn room(&self) -> u16
        requires { IsPartRow self.now }
        ensures { result ≡ room_of self.now }
    {
        if self.rows == 0 {
            return 0;
        }
        self.bytes - self.got - 1
    }

    /// Takes bytes before the one that ends the row.
    pub fn take_all(&mut self, bytes: &[u8])
        requires part { IsPartRow self.old }
        requires few { length bytes.now ≤ room_of self.old }
        ensures part { IsPartRow self.new }
        ensures gathers { (before : List EscItem) → IsGathering self.old before →
            IsGathering self.new (bytes_after bytes.now before) }
    {
        keep_all(&mut self.row, self.got, bytes);
        self.got += bytes.len() as u16;
    }

    /// How many bytes have not come.
    pub fn left(&self) -> usize
        requires { IsPartRow self.now }
        ensures { result ≡ left_of self.now }
    {
        usize::from(self.rows) * usize::from(self.bytes) - usize::from(self.got)
    }

    /// Takes the bytes that end the row, as many as it lacks.
    pub fn end_row(&mut self, bytes: &[u8])
        requires some { 0 < self.old.rows }
        requires few { self.old.got < self.old.bytes }
        requires lacks { self.old.got + length bytes.now ≡ self.old.bytes }
        ensures part { IsPartRow self.new }
        ensures value { self.new ≡
            record self.old { rows = self.old.rows - 1; got = 0; row = self.new.row } }
        ensures gathers { (before : List EscItem) → IsGathering self.old before →
            IsGathering self.new (bytes_after bytes.now before) }
        ensures row { (before : List EscItem) → IsGathering self.old before →
            kept_of self.new ≡ take LINE_BYTES (row_so_far before ++ bytes.now) }
    {
        keep_all(&mut self.row, self.got, bytes);
        self.next_row();
    }

    /// Passes whole rows, whose bytes are not kept.
    pub fn pass(&mut self, rows: u16)
        requires part { IsPartRow self.old }
        requires begins { self.old.got ≡ 0 }
        requires few { rows ≤ self.old.rows }
        ensures part { IsPartRow self.new }
        ensures value { self.new ≡ record self.old { rows = self.old.rows - rows } }
        ensures gathers { (bytes : List ℕ) (before : List EscItem) → IsGathering self.old before →
            rows * self.old.bytes ≤ length bytes →
            IsGathering self.new (bytes_after (take (rows * self.old.bytes) bytes) before) }
    {
        self.rows -= rows;
    }

    /// The bytes that are kept of a whole row.
    pub fn kept(&self) -> &[u8]
        ensures bytes { result.now ≡ kept_of self.now }
        ensures few { length result.now ≤ LINE_BYTES }
    {
        &self.row[..usize::from(self.bytes).min(LINE_BYTES)]
    }
}
