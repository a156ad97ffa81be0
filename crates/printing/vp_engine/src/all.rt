//! Whole inputs.
ghost use Rattle.std.specs.Prelude.{◌≡◌, IfOk};
ghost use Rattle.vp_engine.specs.Paper.{paper, fault_at_end};
ghost use Rattle.vp_engine.specs.Setups.{setup_of, rules_of};

use crate::laws::{nothing_follows_a_fault, paper_grows};
use crate::printer::{Printer, State};
use std::alloc::AllocError;
use vp_dots::{Fault, Small};
use vp_glyph::Sheets;
use vp_language::Language;

/// The whole paper of some bytes, and their first fault, else that of ending there.
pub fn print_all<A: Small + Copy>(
    alloc: A,
    language: Language,
    sheets: Sheets<A>,
    src: &[u8],
) -> Result<(Vec<u8, A>, Option<Fault>), AllocError>
    ensures paper { IfOk result (λ r. r.0.items ≡ paper (rules_of (setup_of language sheets)) src.now) }
    ensures fault { IfOk result (λ r. r.1 ≡ fault_at_end (rules_of (setup_of language sheets)) src.now) }
{
    paper_grows();
    nothing_follows_a_fault();
    let mut printer = Printer::new(alloc, language, sheets)?;
    let mut paper = Vec::new(alloc);
    let mut buffer = [0; 4096];
    let mut at = 0;
    'steps: loop {
        let step = printer.step(&src[at..], &mut buffer);
        paper.extend_from_slice(&buffer[..step.put])?;
        at += step.taken;
        match step.state {
            State::More => return Ok((paper, printer.finish().err())),
            State::Room => {}
            State::Stopped(fault) => return Ok((paper, Some(fault))),
        }
    }
}
