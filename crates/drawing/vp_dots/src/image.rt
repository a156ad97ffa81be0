//! Images as bytes: the header, and the laws of rows.
ghost use Rattle.std.specs.Prelude.{◌≡◌, ℕ, ◌+◌, ◌-◌, ◌*◌, ◌/◌, ◌%◌, ◌^◌, ◌<◌, ◌≤◌, Bool, false, ◌++◌, length, slice_index};
ghost use Rattle.arrayvec.specs.ArrayVec.{array_vec_len};
ghost use Rattle.vp_dots.specs.Dots.{bit, dot};
ghost use Rattle.vp_dots.specs.Headers.{header_of};
ghost use Rattle.vp_dots.specs.Images.{Image, row_of, row_bytes, image_row, image_rows, pbm};

use arrayvec::ArrayVec;
use itoa::Buffer;

/// The header of an image of w by h dots: `P4`, the width and the height (netpbm, raw pbm).
pub fn header(w: u32, h: u32) -> ArrayVec<u8, 32>
    ensures { result.items ≡ header_of w h }
{
    let mut out = ArrayVec::new();
    append(&mut out, b"P4\n");
    append(&mut out, Buffer::new().format(w).as_bytes());
    append(&mut out, b" ");
    append(&mut out, Buffer::new().format(h).as_bytes());
    append(&mut out, b"\n");
    out
}

fn append(out: &mut ArrayVec<u8, 32>, bytes: &[u8])
    requires { array_vec_len out.old + length bytes.now ≤ 32 }
    ensures { out.new.items ≡ out.old.items ++ bytes.now }
{
    let _ = out.try_extend_from_slice(bytes);
}

/// A law: the bytes of a row are as many as asked for, have the dots asked for, and hang on nothing
/// else.
pub fn row_law()
    ensures count { (n : ℕ) (f : ℕ → Bool) → length (row_of n f) ≡ n }
    ensures bytes { (n : ℕ) (f : ℕ → Bool) (i : ℕ) → slice_index (row_of n f) i < 2 ^ 8 }
    ensures dots { (n : ℕ) (f : ℕ → Bool) (d : ℕ) → d < 8 * n → dot (row_of n f) d ≡ f d }
    ensures same { (n : ℕ) (f g : ℕ → Bool) → ((d : ℕ) → d < 8 * n → f d ≡ g d) → row_of n f ≡ row_of n g }
{}

/// A law: bytes with these dots are the bytes of that row.
pub fn dots_decide(row: &[u8])
    ensures row { (n : ℕ) (f : ℕ → Bool) → length row.now ≡ n → ((d : ℕ) → d < 8 * n → dot row.now d ≡ f d) →
        row.now ≡ row_of n f }
    ensures image { (i : Image) (y : ℕ) → length row.now ≡ row_bytes i.width →
        ((x : ℕ) → x < i.width → dot row.now x ≡ i.is_black x y)
        → ((x : ℕ) → i.width ≤ x → dot row.now x ≡ false) → row.now ≡ image_row i y }
{}

/// A law: in the bytes of an image's rows, bit 7 - x mod 8 of byte x div 8 of row y is dot (x, y),
/// and the bits past the width are 0; the text hangs on the dots inside the box alone.
pub fn image_law()
    ensures count { (i : Image) → length (image_rows i) ≡ i.height * row_bytes i.width }
    ensures black { (i : Image) (x y : ℕ) → x < i.width → y < i.height
        → bit (slice_index (image_rows i) (y * row_bytes i.width + x / 8)) (7 - x % 8) ≡ i.is_black x y }
    ensures padding { (i : Image) (x y : ℕ) → i.width ≤ x → x < 8 * row_bytes i.width → y < i.height
        → bit (slice_index (image_rows i) (y * row_bytes i.width + x / 8)) (7 - x % 8) ≡ false }
    ensures same { (w h : ℕ) (f g : ℕ → ℕ → Bool) → ((x y : ℕ) → x < w → y < h → f x y ≡ g x y)
        → pbm (record { width = w; height = h; is_black = f })
        ≡ pbm (record { width = w; height = h; is_black = g }) }
{}
