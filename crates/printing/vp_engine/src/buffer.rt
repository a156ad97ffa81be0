//! Bytes on their way, in room of fixed length.
ghost use Rattle.std.specs.Prelude.{◌≡◌, ◌≤◌, ◌<◌, ◌++◌, ◌↔◌, IsTrue, List, [], ℕ, length, take, drop, Ok, Err, IfOk, OnErr, None, is_err};
ghost use Rattle.std.specs.Io.KnownBytes.{Consumes, IsAtEnd, Keeps};
ghost use Rattle.vp_streams.specs.Count.{grown, one_more_if};
ghost use Rattle.vp_engine.specs.Session.{buffer_size};
ghost use Rattle.vp_engine.specs.Setups.{Setup};
ghost use Rattle.vp_engine.specs.Stands.{Stands};

use crate::printer::{Printer, Step};
use std::io;
use std::marker::Model;
use vp_dots::Small;
use vp_streams::Source;

/// How many bytes a buffer holds.
const SIZE: usize = 32768;

/// The bytes of its room from one place to another.
#[derive(Drop)]
pub struct Buffer {
    room: [u8; SIZE],
    from: usize,
    to: usize,
}

impl Model for Buffer {
    ghost use Rattle.std.specs.Prelude.{List, ℕ, slice_range, ◌≤◌};
    ghost use Rattle.vp_engine.specs.Session.{buffer_size};

    ghost Value = { List ℕ };

    ghost view = { λ b. slice_range b.room b.from b.to };

    ghost invariant = { λ b. record { start : b.from ≤ b.to; end : b.to ≤ buffer_size } };
}

impl Buffer {
    /// An empty buffer.
    pub fn new() -> Self
        ensures { result ≡ [] }
    {
        Buffer {
            room: [0; SIZE],
            from: 0,
            to: 0,
        }
    }

    pub fn as_slice(&self) -> &[u8]
        ensures value { result.now ≡ self.now }
        ensures fit { length self.now ≤ buffer_size }
    {
        &self.room[self.from..self.to]
    }

    pub fn is_empty(&self) -> bool
        ensures { IsTrue result ↔ (self.now ≡ []) }
    {
        self.from == self.to
    }

    /// Drops the first n bytes.
    pub fn consume(&mut self, n: usize)
        requires { n ≤ length self.old }
        ensures { self.new ≡ drop n self.old }
    {
        self.from += n;
    }

    /// Reads once, where nothing is held.
    pub fn read_from<S: Source>(&mut self, reader: &mut S) -> io::Result<usize>
        requires { self.old ≡ [] }
        ensures bytes { IfOk result
            (λ n. Consumes (S.remaining reader.old) (S.remaining reader.new) self.new) }
        ensures end { IfOk result (λ n. n ≡ 0 → IsAtEnd (S.remaining reader.new)) }
        ensures count { IfOk result (λ n. n ≡ length self.new) }
        ensures fit { length self.new ≤ buffer_size }
        ensures err { OnErr result (Keeps (S.remaining reader.old) (S.remaining reader.new)
            × (self.new ≡ [])) }
        ensures reads { S.reads reader.new ≡ grown (S.reads reader.old) 1 }
        ensures failed { S.failed_reads reader.new ≡ one_more_if (is_err result) (S.failed_reads reader.old) }
    {
        self.from = 0;
        self.to = 0;
        let n = reader.read(&mut self.room)?;
        self.to = n;
        Ok(n)
    }

    /// One step of a printer, where nothing is held. What it puts out is held then.
    pub fn step<A: Small>(&mut self, printer: &mut Printer<A>, input: &[u8]) -> Step
        requires { self.old ≡ [] }
        ensures taken { result.taken ≤ length input.now }
        ensures stands { (setup : Setup) (t o : List ℕ) → Stands setup printer.old t o →
            Stands setup printer.new (t ++ take result.taken input.now) (o ++ self.new) }
        ensures drains { result.taken ≡ 0 → printer.old.pending ≡ self.new ++ printer.new.pending }
        ensures moves { 0 < length input.now → printer.old.pending ≡ [] → printer.old.stopped ≡ None →
            0 < result.taken }
        ensures full { 0 < length printer.new.pending → length self.new ≡ buffer_size }
        ensures fit { length self.new ≤ buffer_size }
    {
        let step = printer.step(input, &mut self.room);
        self.from = 0;
        self.to = step.put;
        step
    }
}
