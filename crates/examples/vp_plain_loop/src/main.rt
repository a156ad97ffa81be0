//! An example of a program over `vp_engine` that proves no paper: it prints the label that comes on standard
//! input.
#![tactic(auto)]

mod print;

use print::print;
use std::alloc::{AllocError, Global};
use std::io::{Read, Write};
use std::process::ExitCode;
use vp_dots::Fault;
use vp_engine::{Language, Printer};
use vp_glyph::Sheets;

/// Without glyph sheets characters are white.
const NONE: Sheets = Sheets { a: None, b: None };

/// The paper of bytes, and their fault.
fn printed(alloc: Global, bytes: &[u8]) -> Result<(Vec<u8>, Option<Fault>), AllocError> {
    let mut printer = Printer::new(alloc, Language::Label, NONE)?;
    let mut paper = Vec::new(alloc);
    let fault = print(&mut printer, bytes, &mut paper)?;
    Ok((paper, fault))
}

fn main(rt: HostRuntime) -> ExitCode {
    let mut bytes = Vec::new(rt.alloc());
    if rt.stdin().read_to_end(&mut bytes).is_err() {
        return ExitCode::from(3);
    }
    let Ok((paper, fault)) = printed(rt.alloc(), bytes.as_slice()) else {
        return ExitCode::from(4);
    };
    if rt.stdout().write_all(paper.as_slice()).is_err() {
        return ExitCode::from(3);
    }
    let Some(fault) = fault else {
        return ExitCode::from(0);
    };
    let _ = writeln!(rt.stderr(), "{fault}");
    ExitCode::from(1)
}
