//! The bytes of codes, read one after the other or in a quick way, and counted. They are had in no other way.
ghost use Rattle.std.specs.Prelude.{◌≡◌, ℕ, ◌+◌, ◌*◌, ◌^◌, ◌<◌, ◌≤◌, ◌⊎◌, true, false, List, length, slice_index, take, drop, min};
ghost use Rattle.vp_format.specs.Codes.{Spelled, code_of};
ghost use Rattle.vp_format.specs.Pictures.{nibble};
ghost use Rattle.vp_format.specs.Cursors.{Advanced, HasRoom, InHand, IsReading, Passed, ReadsOn, digit_value, held, symbols_from};

use crate::digits::{digits, plain_row};
use crate::passing::pass_runs;
use crate::short_runs::short_runs;

/// Codes, the place of the next byte, and how many bytes were handed out.
#[derive(Drop)]
pub struct Codes<'a> {
    bytes: &'a [u8],
    at: usize,
    read: u64,
}

impl<'a> Codes<'a> {
    /// Codes from a place on, of which nothing was handed out.
    pub fn new(bytes: &'a [u8], at: usize) -> Self
        ensures bytes { result.bytes.now ≡ bytes.now }
        ensures at { result.at ≡ at }
        ensures read { result.read ≡ 0 }
    {
        Codes { bytes, at, read: 0 }
    }

    /// The next byte, if there is one.
    pub fn next(&mut self) -> Option<u8>
        requires { IsReading self.old }
        ensures advanced { Advanced self.old self.new }
        ensures at { self.new.at ≡ self.old.at + held result }
        ensures hand { InHand self.new result }
        ensures end { held result ≡ 0 → self.new.at ≡ length self.new.bytes.now }
    {
        if self.at == self.bytes.len() {
            return None;
        }
        let byte = self.bytes[self.at];
        self.at += 1;
        self.read += 1;
        Some(byte)
    }

    /// The next n bytes, or as many as there are.
    pub fn up_to(&mut self, n: usize) -> &'a [u8]
        requires { IsReading self.old }
        ensures advanced { Advanced self.old self.new }
        ensures bytes { result.now ≡ take n (drop self.old.at self.old.bytes.now) }
        ensures at { self.new.at ≡ min (self.old.at + n) (length self.old.bytes.now) }
    {
        let to = self.at + n.min(self.bytes.len() - self.at);
        let part = &self.bytes[self.at..to];
        self.read += part.len() as u64;
        self.at = to;
        part
    }

    /// How many bytes there are.
    pub fn len(&self) -> usize
        ensures { result ≡ length self.now.bytes.now }
    {
        self.bytes.len()
    }

    /// Where the next byte stands.
    pub fn at(&self) -> usize
        ensures { result ≡ self.now.at }
    {
        self.at
    }

    /// How many bytes were handed out.
    pub fn read(&self) -> u64
        ensures { result ≡ self.now.read }
    {
        self.read
    }

    /// Reads digits and short runs from place `from` of a row of `width` places on, as far as they end within
    /// it, and gives the place behind them.
    pub fn short_runs(&mut self, from: usize, width: usize, places: &mut [u8]) -> usize
        requires reading { IsReading self.old }
        requires room { HasRoom width places.old from }
        ensures advanced { Advanced self.old self.new }
        ensures read { ReadsOn width self.old.bytes.now places.old from self.old.at places.new result
            self.new.at }
    {
        let (x, at) = digits(self.bytes, self.at, from, width, places);
        let (x, at) = short_runs(self.bytes, at, x, width, places);
        self.go_on_to(at);
        x
    }

    /// Reads a row, if digits alone spell it: whether they do. Where a digit comes first, a row that isn't
    /// read may be written all the same.
    pub fn plain_row(&mut self, row: &mut [u8]) -> bool
        requires reading { IsReading self.old }
        requires short { length row.old ≤ 1024 }
        ensures len { length row.new ≡ length row.old }
        ensures advanced { Advanced self.old self.new }
        ensures at { result ≡ true → self.new.at ≡ self.old.at + 2 * length row.old }
        ensures same { result ≡ false → self.new ≡ self.old }
        ensures inside { result ≡ true → self.old.at + 2 * length row.old ≤ length self.old.bytes.now }
        ensures digits { result ≡ true → (k : ℕ) → k < 2 * length row.old →
            digit_value (code_of (slice_index self.old.bytes.now (self.old.at + k))) < 16 }
        ensures packed { result ≡ true → (j : ℕ) → j < 2 * length row.old →
            nibble row.new j ≡ digit_value (code_of (slice_index self.old.bytes.now (self.old.at + j))) }
        ensures kept { result ≡ false → (row.new ≡ row.old)
            ⊎ ((self.old.at < length self.old.bytes.now)
            × (digit_value (code_of (slice_index self.old.bytes.now self.old.at)) < 16)) }
    {
        if !plain_row(self.bytes, self.at, row) {
            return false;
        }
        self.go_on_to(self.at + 2 * row.len());
        true
    }

    /// Passes digits, and those behind counts, from a place on, as far as they go, but none that starts at an
    /// end: gives the place of the next symbol.
    pub fn pass_runs(&mut self, from: u64, end: u64) -> u64
        requires reading { IsReading self.old }
        requires end { end < 2 ^ 44 }
        ensures advanced { Advanced self.old self.new }
        ensures passed { (width : ℕ) (all : List Spelled) →
            Passed width all from (symbols_from self.old.bytes.now self.old.at) →
            Passed width all result (symbols_from self.new.bytes.now self.new.at) }
    {
        let (x, at) = pass_runs(self.bytes, self.at, from, end);
        self.go_on_to(at);
        x
    }

    /// Counts the bytes up to a place, and goes on there.
    fn go_on_to(&mut self, at: usize)
        requires reading { IsReading self.old }
        requires from { self.old.at ≤ at }
        requires inside { at ≤ length self.old.bytes.now }
        ensures advanced { Advanced self.old self.new }
        ensures at { self.new.at ≡ at }
    {
        self.read += (at - self.at) as u64;
        self.at = at;
    }

    /// Goes on at a place.
    pub fn go_to(&mut self, at: usize)
        ensures { self.new ≡ record { bytes = self.old.bytes; at = at; read = self.old.read } }
    {
        self.at = at;
    }
}
