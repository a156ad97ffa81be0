//! The benches: how long parts of the printer take, beside copying as many bytes. The times are those of the
//! machine they run on; the ratios are what to look at.
#![tactic(auto)]

mod bench;
mod dots;
mod esc;
mod glyph;
mod measure;
mod page;
mod qr;

use anyhow::Result;
use bench::Bench;
use std::rt::Env;
use std::{env, io};

/// The bench that the first word names, if there is one and it names any.
fn chosen(rt: &(impl Alloc + Env)) -> io::Result<Option<Bench>> {
    match env::args(rt)?.nth(1) {
        Some(word) => Ok(Bench::named(word.as_str())),
        None => Ok(None),
    }
}

fn main(rt: HostRuntime) -> Result<()> {
    match chosen(&rt)? {
        Some(Bench::Dots) => dots::run(&rt),
        Some(Bench::Glyph) => glyph::run(&rt),
        Some(Bench::Esc) => esc::run(&rt),
        Some(Bench::Page) => page::run(&rt),
        Some(Bench::Qr) => qr::run(&rt),
        None => {
            println!(rt; "a bench is one of: dots glyph esc page qr")?;
            Ok(())
        }
    }
}
