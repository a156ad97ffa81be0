//! The time of some work, and the work that the rest stands beside.
ghost use Rattle.std.specs.Prelude.{◌≡◌, ◌%◌, ◌++◌, length, take, drop, map, IfOk};
ghost use Rattle.std.specs.List.{range_with_len};

use std::alloc::{AllocError, Global};
use std::io;
use std::num::nearest_usize_to_f64;
use std::rt::Clock;
use std::time::{Duration, Instant};

/// How long a round of `work` takes, in nanoseconds: the least of five times, each of `rounds` rounds.
pub fn least<W: FnMut()>(rt: &impl Clock, rounds: u32, mut work: W) -> io::Result<f64>
    requires { W.IsAlwaysCallable work }
{
    let mut least = Duration::MAX;
    for _ in 0..5u8 {
        let start = Instant::now(rt)?;
        for _ in 0..rounds {
            work();
        }
        least = least.min(start.elapsed(rt)?);
    }
    Ok(least.as_secs_f64() * 1e9 / f64::from(rounds))
}

/// Copies a row, as far as there is room.
#[inline(never)]
pub fn copy(source: &[u8], row: &mut [u8])
    ensures { row.new ≡ take (length row.old) source.now ++ drop (length source.now) row.old }
{
    let n = source.len().min(row.len());
    row[..n].copy_from_slice(&source[..n]);
}

/// Copies 4,096 bytes at a time, each time to the beginning of the output.
#[inline(never)]
fn copy_all(input: &[u8], output: &mut [u8]) {
    for part in input.chunks(4096) {
        copy(part, output);
    }
}

/// How long copying takes, in nanoseconds a byte.
pub fn copying(rt: &impl Clock, input: &[u8]) -> io::Result<f64> {
    let mut output = [0; 4096];
    let copied = least(rt, 1, || copy_all(input, &mut output))?;
    Ok(copied / nearest_usize_to_f64(input.len()))
}

/// `n` bytes: 0 to 250, again and again.
pub fn some_bytes(alloc: Global, n: usize) -> Result<Vec<u8>, AllocError>
    ensures { IfOk result (λ bytes. bytes.items ≡ map (λ i. i % 251) (range_with_len 0 n)) }
{
    (0..n).map(|i| (i % 251) as u8).collect(alloc)
}
