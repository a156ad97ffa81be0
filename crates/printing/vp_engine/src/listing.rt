//! Listings: a line for each item.
ghost use Rattle.std.specs.Prelude.{◌≡◌, ◌≤◌, ◌+◌, ℕ, Err};
ghost use Rattle.std.specs.Io.KnownBytes.{IsAtEnd};
ghost use Rattle.vp_dots.specs.declared.fault.Fault.{Fault};
ghost use Rattle.vp_streams.specs.Count.{grown, one_more_if};
ghost use Rattle.vp_engine.specs.Listing.{Lists};
ghost use Rattle.vp_engine.specs.Paper.{IsOfEnd};
ghost use Rattle.vp_engine.specs.Session.{is_read_fault, is_write_fault};

use crate::laws::{a_listing_is_its_lines, paper_grows};
use crate::session::{RunFault, Session};
use vp_language::Language;
use vp_streams::{Sink, Source};

/// Reads to the end, writes a line for each item, and gives the number of the lines, which stops at the
/// greatest u64. It takes no memory and reads at most 1,000,000,000 times. At a fault of the stream the lines
/// of all items before it are written, and its `after` counts the bytes up to and with the one that made it,
/// or all where they end inside a command.
pub fn list<S: Source, K: Sink>(
    language: Language,
    reader: &mut S,
    writer: &mut K,
) -> Result<u64, RunFault>
    ensures lists { Lists language (S.remaining reader.old) (S.remaining reader.new)
        (K.contents writer.old) (K.contents writer.new) result }
    ensures at_end { (f : Fault) (after : ℕ) → result ≡ Err (RunFault.Print f after) → IsOfEnd f →
        IsAtEnd (S.remaining reader.new) }
    ensures failed_reads { S.failed_reads reader.new ≡
        one_more_if (is_read_fault result) (S.failed_reads reader.old) }
    ensures failed_writes { K.failed_writes writer.new ≡
        one_more_if (is_write_fault result) (K.failed_writes writer.old) }
    ensures reads { S.reads reader.new ≤ S.reads reader.old + 1000000000 }
    ensures turns { result ≡ Err RunFault.TooManyTurns →
        S.reads reader.new ≡ grown (S.reads reader.old) 1000000000 }
{
    paper_grows();
    a_listing_is_its_lines();
    let mut session = Session::listing(language);
    match session.pump(reader, writer) {
        Ok(_) => Ok(session.lines()),
        Err(fault) => Err(fault),
    }
}
