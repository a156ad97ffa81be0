//! Readers and writers that count their calls.
ghost use Rattle.std.specs.Prelude.{◌≡◌, ◌≤◌, ℕ, List, Option, Ok, Err, is_err, length, take};
ghost use Rattle.std.specs.Io.{ReadsAtMost, WritesAtMost};
ghost use Rattle.std.specs.Io.KnownBytes.{ReadConsumes, WriteAppends};
ghost use Rattle.vp_streams.specs.Count.{grown, one_more_if, has_failed_to_write, uncounted};

use std::io;
use std::io::{Read, Write};
use std::marker::Model;

/// A reader that counts its calls, and apart those that failed.
pub trait Source {
    /// The bytes that reads will give from here on, where they are known.
    ghost remaining: { Self → Option (List ℕ) };

    /// How often it was called; it stops at the greatest u64.
    ghost reads: { Self → ℕ };

    /// How many of the calls failed; it stops at the greatest u64.
    ghost failed_reads: { Self → ℕ };

    /// As `Read` has it.
    fn read(&mut self, buf: &mut [u8]) -> io::Result<usize>
        ensures bound { ReadsAtMost result buf.new }
        ensures bytes { ReadConsumes (remaining self.old) (remaining self.new) result buf.new }
        ensures reads { reads self.new ≡ grown (reads self.old) 1 }
        ensures failed { failed_reads self.new ≡ one_more_if (is_err result) (failed_reads self.old) };
}

/// A writer that counts its calls, and apart those that failed or took no byte.
pub trait Sink {
    /// The bytes that the writer holds, where they are known.
    ghost contents: { Self → Option (List ℕ) };

    /// How often it was called; it stops at the greatest u64.
    ghost writes: { Self → ℕ };

    /// How many of the calls failed or took no byte; it stops at the greatest u64.
    ghost failed_writes: { Self → ℕ };

    /// As `Write` has it.
    fn write(&mut self, buf: &[u8]) -> io::Result<usize>
        ensures bound { WritesAtMost result buf.now }
        ensures bytes { WriteAppends (contents self.old) (contents self.new) result buf.now }
        ensures writes { writes self.new ≡ grown (writes self.old) 1 }
        ensures failed { failed_writes self.new
            ≡ one_more_if (has_failed_to_write result) (failed_writes self.old) };
}

/// Any reader or writer, with the counts of a `Source` or a `Sink`.
#[derive(Drop)]
pub struct Counted<T> {
    inner: T,
    calls: u64,
    failed: u64,
}

impl<T> Model for Counted<T> {
    ghost use Rattle.vp_streams.specs.Count.{Tally};

    ghost Value = { Tally T };

    ghost view = { λ c. record { inner = c.inner; calls = c.calls; failed = c.failed } };
}

impl<T> Counted<T> {
    /// Nothing is counted yet.
    pub fn new(inner: T) -> Self
        ensures { result ≡ uncounted inner }
    {
        Counted {
            inner,
            calls: 0,
            failed: 0,
        }
    }

    /// The reader or writer itself.
    pub fn into_inner(self) -> T
        ensures { result ≡ self.inner }
    {
        let Counted {
            inner,
            calls: _,
            failed: _,
        } = self;
        inner
    }
}

impl<T: Read> Source for Counted<T> {
    ghost remaining = { λ s. T.remaining s.inner };

    ghost reads = { λ s. s.calls };

    ghost failed_reads = { λ s. s.failed };

    fn read(&mut self, buf: &mut [u8]) -> io::Result<usize> {
        let result = self.inner.read(buf);
        self.calls = self.calls.saturating_add(1);
        if result.is_err() {
            self.failed = self.failed.saturating_add(1);
        }
        result
    }
}

impl<T: Write> Sink for Counted<T> {
    ghost contents = { λ s. T.contents s.inner };

    ghost writes = { λ s. s.calls };

    ghost failed_writes = { λ s. s.failed };

    fn write(&mut self, buf: &[u8]) -> io::Result<usize> {
        let result = self.inner.write(buf);
        self.calls = self.calls.saturating_add(1);
        if matches!(&result, Ok(0) | Err(_)) {
            self.failed = self.failed.saturating_add(1);
        }
        result
    }
}
