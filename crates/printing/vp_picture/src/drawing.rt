//! An image on its way into a PNG file, of whose rows bytes come in any pieces.
ghost use Rattle.std.specs.Prelude.{◌≡◌, ℕ, ◌+◌, ◌*◌, ◌/◌, ◌<◌, ◌≤◌, List, [], ◌++◌, length, take, Err, OnOk};
ghost use Rattle.arrayvec.specs.ArrayVec.{array_vec_len};

use arrayvec::ArrayVec;
use vp_join::JoinFault;
use vp_png::Png;
use vp_streams::Sink;

/// An image on its way into a PNG file.
#[derive(Drop)]
pub struct Drawing {
    png: Png,
    /// How many bytes a row has.
    across: usize,
    /// What has come of the next row.
    part: ArrayVec<u8, 208>,
    ghost wide: { across ≡ (png.width + 7) / 8 },
    ghost few: { across ≤ 208 },
    ghost tall: { (0 < png.height) × (png.height ≤ 999999999) },
    ghost cut: { array_vec_len part < across },
}

impl Drawing {
    ghost use Rattle.vp_dots.specs.Headers.{header_of};
    ghost use Rattle.vp_dots.specs.Images.{row_bytes};
    ghost use Rattle.vp_png.specs.Kept.{waiting_bytes};
    ghost use Rattle.vp_join.specs.Passes.{Writes, is_write_fault};
    ghost use Rattle.vp_streams.specs.Count.{one_more_if};
    ghost use Rattle.vp_picture.specs.Kept.{Shows, Draws, IsAnswered, to_come};

    /// An image of `width` times `height` dots, of whose rows nothing has come.
    pub fn new(width: u32, height: u32) -> Self
        requires some { 0 < width }
        requires rows { 0 < height }
        requires narrow { width ≤ 1664 }
        requires low { height ≤ 999999999 }
        ensures shows { Shows result (header_of width height) [] }
        ensures to_come { to_come result ≡ height * row_bytes width }
        ensures none { result.part.items ≡ [] }
    {
        match Png::new(width, height) {
            Ok(png) => Drawing {
                png,
                across: width.div_ceil(8) as usize,
                part: ArrayVec::new(),
            },
            Err(_) => unreachable!(),
        }
    }

    /// Takes bytes of rows, up to the end of a row, and answers how many.
    fn take(&mut self, bytes: &[u8]) -> usize
        requires some { 0 < length bytes.now }
        requires left { 0 < self.old.png.left }
        requires idle { waiting_bytes self.old.png ≡ [] }
        ensures some { 0 < result }
        ensures within { result ≤ length bytes.now }
        ensures shows { (text out : List ℕ) → Shows self.old text out →
            Shows self.new (text ++ take result bytes.now) out }
        ensures to_come { result + length self.old.part.items + to_come self.new
            ≡ length self.new.part.items + to_come self.old }
    {
        let n = (self.across - self.part.len()).min(bytes.len());
        let _ = self.part.try_extend_from_slice(&bytes[..n]);
        if self.part.len() == self.across {
            let _ = self.png.row(self.part.as_slice());
            self.part.clear();
        }
        n
    }

    /// Takes the next bytes of rows, and puts out what comes of them.
    pub fn draw<K: Sink>(&mut self, rows: &[u8], output: &mut K) -> Result<(), JoinFault>
        requires room { (more : ℕ) × (length rows.now + more + length self.old.part.items ≡ to_come self.old) }
        requires idle { waiting_bytes self.old.png ≡ [] }
        ensures writes { Writes
            (λ bytes. Draws (K.contents output.old) (K.contents output.new) self.old self.new bytes)
            rows.now result }
        ensures room { (more : ℕ) → length rows.now + more + length self.old.part.items ≡ to_come self.old →
            OnOk result (more + length self.new.part.items ≡ to_come self.new) }
        ensures idle { OnOk result (waiting_bytes self.new.png ≡ []) }
        ensures failed { K.failed_writes output.new
            ≡ one_more_if (is_write_fault result) (K.failed_writes output.old) }
    {
        let mut at = 0;
        'pieces: while at < rows.len() {
            let n = self.take(&rows[at..]);
            at += n;
            self.flush(output)?;
        }
        Ok(())
    }

    /// Puts out what waits.
    pub fn flush<K: Sink>(&mut self, output: &mut K) -> Result<(), JoinFault>
        ensures draws { Draws (K.contents output.old) (K.contents output.new) self.old self.new [] }
        ensures idle { OnOk result (waiting_bytes self.new.png ≡ []) }
        ensures answer { IsAnswered result }
        ensures part { self.new.part.items ≡ self.old.part.items }
        ensures to_come { to_come self.new ≡ to_come self.old }
        ensures failed { K.failed_writes output.new
            ≡ one_more_if (is_write_fault result) (K.failed_writes output.old) }
    {
        'writes: while self.png.is_waiting() {
            let Ok(n) = output.write(self.png.waiting()) else {
                return Err(JoinFault::Write);
            };
            if n == 0 {
                return Err(JoinFault::Write);
            }
            self.png.hand_out(n);
        }
        Ok(())
    }
}
