//! `vp`, the virtual printer: prints what shop software sends to a printer as PBM images.
#![tactic(auto)]

mod file;
mod run;
mod sheets;

use run::{run, words};
use std::process::ExitCode;
use vp_engine::Counted;

fn main(rt: HostRuntime) -> ExitCode {
    let mut errors = rt.stderr();
    match words(&rt, &mut errors) {
        Ok(words) => {
            let mut input = Counted::new(rt.stdin());
            let output = rt.stdout();
            let (status, _) = run(
                &rt,
                rt.alloc(),
                words.as_slice(),
                &mut input,
                output,
                &mut errors,
            );
            ExitCode::from(status)
        }
        Err(status) => ExitCode::from(status),
    }
}
