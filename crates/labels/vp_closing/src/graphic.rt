//! Pictures whose codes are read.
ghost use Rattle.std.specs.Prelude.{◌≡◌, ◌<◌, ◌≤◌, ◌+◌, length, false, true, MatchResult, IfOk};
ghost use Rattle.vp_label_settings.specs.Laws.{IsPictureHead};
ghost use Rattle.vp_glyph.specs.Sheets.{Sheets};
ghost use Rattle.vp_closing.specs.Contents.{sized_if};
ghost use Rattle.vp_closing.specs.Graphics.{picture_with, picture_unless, has_refused};
ghost use Rattle.vp_field.specs.Contents.{picture_of, LiesIn, IsStored};

use vp_dots::Fault;
use vp_field::{SizedContent, bytes_of};
use vp_format::{Picture, STORED, Span, check};
use vp_label_settings::PictureHead;

fn headed(head: PictureHead, codes: Span) -> Picture
    ensures { result ≡ picture_with head codes }
{
    Picture {
        codes,
        coding: head.coding,
        row_bytes: head.row_bytes,
        rows: head.rows,
    }
}

/// Whether the rows of a picture can be read: `Graphic` where a symbol that starts in one of them is refused.
fn read(stored: &[u8], picture: Picture) -> Result<(), Fault>
    requires some { 0 < picture.row_bytes }
    requires short { picture.row_bytes ≤ 1024 }
    requires codes { LiesIn stored.now picture.codes }
    ensures { MatchResult result (λ _. has_refused (picture_of stored.now picture) ≡ false)
        (λ why. (why ≡ Fault.Graphic) × (has_refused (picture_of stored.now picture) ≡ true)) }
{
    let codes = bytes_of(stored, picture.codes);
    let row_bytes = usize::from(picture.row_bytes);
    check(codes, picture.coding, row_bytes, picture.rows)
}

/// A picture, unless its codes are refused.
pub fn picture_content(stored: &[u8], head: PictureHead, codes: Span) -> Result<SizedContent, Fault>
    requires picture { IsPictureHead head }
    requires among { codes.start + codes.len ≤ length stored.now }
    requires few { length stored.now ≤ STORED }
    ensures value { (sheets : Sheets) → result ≡ sized_if sheets stored.now
        (picture_unless (has_refused (picture_of stored.now (picture_with head codes)))
        (picture_with head codes)) }
    ensures stored { IfOk result (λ shown. IsStored stored.now shown.content) }
{
    let picture = headed(head, codes);
    read(stored, picture)?;
    Ok(SizedContent::picture(picture))
}
