//! A stream between a reader and a writer, which goes on where one of these failed.
ghost use Rattle.std.specs.Prelude.{IfOk};
ghost use Rattle.vp_engine.specs.Setups.{setup_of};
ghost use Rattle.vp_print_session.specs.Written.{IsWritten};

use std::alloc::{AllocError, Global};
use vp_engine::laws::paper_grows;
use vp_engine::{Language, Report, RunFault, Session, Sink, Source};
use vp_glyph::Sheets;

/// Prints what a reader gives, and writes the paper as it comes. Where a read or a write fails, it goes on
/// where it stood, at most `times` times.
pub fn print<S: Source, K: Sink>(
    alloc: Global,
    language: Language,
    sheets: Sheets,
    reader: &mut S,
    writer: &mut K,
    times: u32,
) -> Result<Result<Report, RunFault>, AllocError>
    ensures { IfOk result (λ answer. IsWritten (S.remaining reader.old) (S.remaining reader.new)
        (K.contents writer.old) (K.contents writer.new) (setup_of language sheets) answer) }
{
    paper_grows();
    let mut session = Session::new(alloc, language, sheets)?;
    let mut answer = session.pump(reader, writer);
    'again: for _again in 0..times {
        if !matches!(answer, Err(RunFault::Read | RunFault::Write)) {
            return Ok(answer);
        }
        answer = session.pump(reader, writer);
    }
    Ok(answer)
}
