//! How many symbols of each version are encoded in a second, and how many modules their masks test.
use crate::measure::least;
use anyhow::Result;
use std::rt::Clock;
use vp_qr::{Level, Mode, encode};

const ROUNDS: u32 = 100;

/// As many digits as each version holds at level M.
const DIGITS: [usize; 10] = [34, 63, 101, 149, 202, 255, 293, 365, 432, 513];

/// The mask of the symbol of some digits.
#[inline(never)]
fn mask(digits: &[u8]) -> usize {
    match encode(digits, Level::M, Mode::Auto) {
        Ok(qr) => qr.mask(),
        Err(_) => 8,
    }
}

/// Prints the times.
pub fn run(rt: &(impl Clock + Print)) -> Result<()> {
    let mut digits = [b'7'; 513];
    for (i, n) in DIGITS.iter().enumerate() {
        let mut masks = 0usize;
        let took = least(rt, ROUNDS, || {
            digits[0] = b'0' + digits[0] % 10;
            masks = masks.wrapping_add(mask(&digits[..(*n).min(513)]));
        })?;
        let version = i + 1;
        let size = 17 + 4 * version;
        let tested = 8 * size * size;
        println!(rt;
            "version {version}, masks that add up to {masks}: {:.0} symbols/s, {:.3} ms each, \
            {tested} modules tested",
            1e9 / took,
            took / 1e6
        )?;
    }
    Ok(())
}
