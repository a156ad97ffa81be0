//! An example of a program over `vp_engine`: it prints the receipt that comes on standard input.
#![tactic(auto)]

mod print;

use print::print;
use std::io::Write;
use std::process::ExitCode;
use vp_engine::Language;
use vp_glyph::Sheets;

/// Without glyph sheets characters are white.
const NONE: Sheets = Sheets { a: None, b: None };

fn main(rt: HostRuntime) -> ExitCode {
    let Ok((paper, fault)) = print(rt.alloc(), Language::Receipt, NONE, &mut rt.stdin()) else {
        return ExitCode::from(3);
    };
    if rt.stdout().write_all(paper.as_slice()).is_err() {
        return ExitCode::from(3);
    }
    let Some(fault) = fault else {
        return ExitCode::from(0);
    };
    let _ = writeln!(rt.stderr(), "{fault}");
    ExitCode::from(1)
}
