//! What a joined image is written to: its size, and then its rows, in any pieces.
ghost use Rattle.std.specs.Prelude.{◌≡◌, ℕ, ◌+◌, ◌*◌, ◌≤◌, Bool, false, List, [], ⊤, length, OnOk};
ghost use Rattle.std.specs.Io.KnownBytes.{Appends};
ghost use Rattle.std.proofs.KnownBytes.{Appends-nil};
ghost use Rattle.vp_dots.specs.Images.{row_bytes};
ghost use Rattle.vp_streams.specs.Count.{one_more_if};
ghost use Rattle.vp_join.specs.Strips.{greatest};
ghost use Rattle.vp_join.specs.Passes.{Writes, Follows, is_write_fault, head_of, never};

use crate::fault::JoinFault;
use crate::reading::Size;
use arrayvec::ArrayVec;
use vp_dots::header;
use vp_streams::Sink;

/// What a joined image is written to. Any `Sink` is one, and gets the image as raw pbm (netpbm).
pub trait ImageWriter {
    /// Between two states these bytes of an image's text (raw pbm) were taken, in whatever form they are kept.
    ghost has: { Self → List ℕ → Self → Type 0 };

    /// So many bytes of rows are still to come, and nothing of those before is kept back.
    ghost awaits: { Self → ℕ → Type 0 };

    /// Whether an image of this width isn't taken.
    ghost too_wide: { ℕ → Bool };

    /// How many writes failed or took no byte; it stops at the greatest u64.
    ghost failures: { Self → ℕ };

    /// Whether an image of `width` dots isn't taken.
    fn is_too_wide(&self, width: u32) -> bool
        ensures { result ≡ too_wide width };

    /// Begins an image. One of no rows has no header either.
    fn begin(&mut self, size: Size) -> Result<(), JoinFault>
        requires narrow { too_wide size.width ≡ false }
        requires wide { size.width ≡ 0 → size.height ≡ 0 }
        requires low { size.height ≤ greatest }
        ensures writes { Writes (λ bytes. has self.old bytes self.new) (head_of size) result }
        ensures awaits { OnOk result (awaits self.new (size.height * row_bytes size.width)) }
        ensures failed { failures self.new ≡ one_more_if (is_write_fault result) (failures self.old) };

    /// Takes the next bytes of its rows.
    fn put(&mut self, rows: &[u8]) -> Result<(), JoinFault>
        requires { (more : ℕ) × awaits self.old (length rows.now + more) }
        ensures writes { Writes (λ bytes. Follows has self.old bytes self.new) rows.now result }
        ensures awaits { (more : ℕ) → awaits self.old (length rows.now + more) →
            OnOk result (awaits self.new more) }
        ensures failed { failures self.new ≡ one_more_if (is_write_fault result) (failures self.old) };

    /// Nothing was taken between a state and itself.
    ghost nothing: { (a : Self) → has a [] a };
}

/// Writes all of some bytes.
fn write_all<K: Sink>(writer: &mut K, bytes: &[u8]) -> Result<(), JoinFault>
    ensures writes { Writes (λ taken. Appends (K.contents writer.old) (K.contents writer.new) taken)
        bytes.now result }
    ensures failed { K.failed_writes writer.new
        ≡ one_more_if (is_write_fault result) (K.failed_writes writer.old) }
{
    let mut from = 0;
    'writes: while from < bytes.len() {
        let Ok(n) = writer.write(&bytes[from..]) else {
            return Err(JoinFault::Write);
        };
        if n == 0 {
            return Err(JoinFault::Write);
        }
        from += n;
    }
    Ok(())
}

/// The header of the joined image, where there is one.
fn head(size: Size) -> ArrayVec<u8, 32>
    ensures { result.items ≡ head_of size }
{
    if size.height == 0 {
        return ArrayVec::new();
    }
    header(size.width, size.height)
}

impl<K: Sink> ImageWriter for K {
    ghost has = { λ a bytes b. Appends (K.contents a) (K.contents b) bytes };

    ghost awaits = { λ s more. ⊤ };

    ghost too_wide = { never };

    ghost failures = { λ s. K.failed_writes s };

    fn is_too_wide(&self, _width: u32) -> bool {
        false
    }

    fn begin(&mut self, size: Size) -> Result<(), JoinFault> {
        write_all(self, head(size).as_slice())
    }

    fn put(&mut self, rows: &[u8]) -> Result<(), JoinFault> {
        write_all(self, rows)
    }

    ghost nothing = { λ a. Appends-nil (K.contents a) };
}
