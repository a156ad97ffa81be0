//! Listings with places: a line for each item, behind how many bytes are taken when it is given.
ghost use Rattle.std.specs.Prelude.{◌≡◌, ◌≤◌, ◌+◌, ℕ, Err};
ghost use Rattle.std.specs.Io.KnownBytes.{IsAtEnd};
ghost use Rattle.vp_dots.specs.declared.fault.Fault.{Fault};
ghost use Rattle.vp_streams.specs.Count.{grown, one_more_if};
ghost use Rattle.vp_engine.specs.Listing.{ListsWithOffsets};
ghost use Rattle.vp_engine.specs.Paper.{IsOfEnd};
ghost use Rattle.vp_engine.specs.Session.{is_read_fault, is_write_fault};

use crate::laws::{a_listing_is_its_lines, paper_grows};
use crate::session::{RunFault, Session};
use vp_language::Language;
use vp_streams::{Sink, Source};

/// Does what `list` does, but each line stands behind the place of its item and a blank: how many bytes are
/// taken when the item is given, in decimal, which stops at the greatest u64.
pub fn list_with_offsets<S: Source, K: Sink>(
    language: Language,
    reader: &mut S,
    writer: &mut K,
) -> Result<u64, RunFault>
    ensures lists { ListsWithOffsets language (S.remaining reader.old) (S.remaining reader.new)
        (K.contents writer.old) (K.contents writer.new) result }
    ensures at_end { (f : Fault) (after : ℕ) → result ≡ Err (RunFault.Print f after) → IsOfEnd f →
        IsAtEnd (S.remaining reader.new) }
    ensures failed_reads { S.failed_reads reader.new ≡
        one_more_if (is_read_fault result) (S.failed_reads reader.old) }
    ensures failed_writes { K.failed_writes writer.new ≡
        one_more_if (is_write_fault result) (K.failed_writes writer.old) }
    ensures reads { S.reads reader.new ≤ S.reads reader.old + 1000000000 }
    ensures turns { result ≡ Err RunFault.TooManyTurns →
        S.reads reader.new ≡ grown (S.reads reader.old) 1000000000 }
{
    paper_grows();
    a_listing_is_its_lines();
    let mut session = Session::listing_with_offsets(language);
    match session.pump(reader, writer) {
        Ok(_) => Ok(session.lines()),
        Err(fault) => Err(fault),
    }
}
