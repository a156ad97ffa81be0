//! An example of a program over sessions: it prints the receipt that comes on standard input to standard
//! output, as it comes.
#![tactic(auto)]

mod print;

use print::print;
use std::io::Write;
use std::process::ExitCode;
use vp_engine::{Counted, Language, RunFault};
use vp_glyph::Sheets;

/// Without glyph sheets characters are white.
const NONE: Sheets = Sheets { a: None, b: None };

fn main(rt: HostRuntime) -> ExitCode {
    let mut reader = Counted::new(rt.stdin());
    let mut writer = Counted::new(rt.stdout());
    let Ok(answer) = print(
        rt.alloc(),
        Language::Receipt,
        NONE,
        &mut reader,
        &mut writer,
        3,
    ) else {
        return ExitCode::from(4);
    };
    match answer {
        Ok(_) => ExitCode::from(0),
        Err(RunFault::Print { fault, after }) => {
            let _ = writeln!(rt.stderr(), "{fault} after {after} bytes");
            ExitCode::from(1)
        }
        Err(_) => ExitCode::from(3),
    }
}
