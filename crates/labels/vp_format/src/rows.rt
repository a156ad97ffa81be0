//! The rows of a picture, one after the other.
ghost use Rattle.std.specs.Prelude.{◌≡◌, ℕ, ◌+◌, ◌-◌, ◌*◌, ◌^◌, if◌then◌else◌, ◌<◌, ◌≤◌, Result, Ok, Err, IfOk, IfErr, true, false, List, length};
ghost use Rattle.vp_format.specs.Pictures.{value, is_refused, nibble, answer, row_after, passing, rows_after, start_of, bound_of};
ghost use Rattle.vp_format.specs.Cursors.{marked_row, is_white, IsMark, IsSpot, IsWhole, spot_behind, Even};

use crate::packing::SHORT;
use crate::reading::Codes;
use crate::row::{RowEnd, next_row};
use std::marker::Model;
use vp_dots::Fault;

/// The most bytes of a row.
pub const ROW: usize = 1024;

/// The places of a row, and the room behind them.
const PLACES: usize = 2 * ROW + SHORT;

/// How the codes of a picture spell its rows.
#[derive(Clone, Copy, Debug, PartialEq, Eq)]
pub enum Coding {
    /// By hex digits, counts and `,` `!` `:` (^GF's A).
    RunLength,
    /// By the bytes of the rows (^GF's B).
    Binary,
}

/// A place of the codes where a row starts: what is left there of a digit's run, and the next byte.
#[derive(Clone, Copy)]
pub struct Spot {
    pub left: u128,
    pub digit: u8,
    pub at: usize,
}

impl Spot {
    /// Whether white is all that comes: none of `codes` bytes of codes is left, and no run but a white one.
    fn is_white(self, codes: usize) -> bool
        ensures { result ≡ is_white codes self }
    {
        self.at == codes && (self.left == 0 || self.digit == 0)
    }

    /// How many rows of `row_bytes` bytes from the spot on, `most` at most, are one digit that no code
    /// spells, and the digit: rows that a run covers whole, and those where white is all that comes.
    fn even_rows(self, row_bytes: usize, codes: usize, most: u32) -> (u32, u8)
        requires some { 0 < row_bytes }
        requires short { row_bytes ≤ 1024 }
        requires digit { self.digit < 16 }
        ensures most { result.0 ≤ most }
        ensures digit { result.1 < 16 }
        ensures even { (coding : Coding) (bytes : List ℕ) (k : ℕ) → length bytes ≡ codes → IsSpot bytes self →
            IsWhole coding self → k ≤ result.0 →
            Even (2 * row_bytes) coding bytes self k result.1 (spot_behind (2 * row_bytes) self k) }
        ensures none { result.0 ≡ 0 → 0 < most →
            (self.left < 2 * row_bytes) × (is_white codes self ≡ false) }
    {
        let places = 2 * row_bytes as u128;
        if self.left >= places {
            let rows = (self.left / places).min(u128::from(most));
            (rows as u32, self.digit)
        } else if self.is_white(codes) {
            (most, 0)
        } else {
            (0, self.digit)
        }
    }

    /// The spot behind `rows` rows of `row_bytes` bytes that no code spells.
    fn behind(self, row_bytes: usize, rows: u32) -> Spot
        requires short { row_bytes ≤ 1024 }
        ensures { result ≡ spot_behind (2 * row_bytes) self rows }
    {
        let places = 2 * row_bytes as u128 * u128::from(rows);
        Spot {
            left: self.left.saturating_sub(places),
            ..self
        }
    }
}

/// Where a cursor stands before a row.
#[derive(Clone, Copy)]
pub struct RunMark {
    /// The row.
    next: u32,
    /// Where it starts.
    here: Spot,
    /// Where the last row before it starts that isn't the one before once more: the end of the codes, a white
    /// row, where there is none.
    before: Spot,
}

impl RunMark {
    /// The mark before the first row of `len` bytes of codes.
    fn first(len: usize) -> RunMark
        ensures { result ≡ record {
          next = 0;
          here = record { left = 0; digit = 0; at = 0 };
          before = record { left = 0; digit = 0; at = len };
        } }
    {
        let here = Spot {
            left: 0,
            digit: 0,
            at: 0,
        };
        RunMark {
            next: 0,
            here,
            before: Spot { at: len, ..here },
        }
    }

    /// The row before which the cursor stood.
    pub fn row(self) -> u32
        ensures { result ≡ marked_row self }
    {
        self.next
    }

    /// The mark behind a row that ended so at a place.
    fn behind(self, end: RowEnd, at: usize) -> RunMark
        requires { self.next < 2 ^ 32 - 1 }
        ensures next { result.next ≡ self.next + 1 }
        ensures here { result.here ≡ record { left = end.left; digit = end.digit; at = at } }
        ensures before { result.before ≡ (if end.repeats then self.before else self.here) }
    {
        RunMark {
            next: self.next + 1,
            here: Spot {
                left: end.left,
                digit: end.digit,
                at,
            },
            before: if end.repeats { self.before } else { self.here },
        }
    }

    /// The mark behind `rows` rows of `row_bytes` bytes that no code spells.
    fn behind_even(self, row_bytes: usize, rows: u32) -> RunMark
        requires short { row_bytes ≤ 1024 }
        requires some { 0 < rows }
        requires room { self.next + rows < 2 ^ 32 }
        ensures next { result.next ≡ self.next + rows }
        ensures here { result.here ≡ spot_behind (2 * row_bytes) self.here rows }
        ensures before { result.before ≡ spot_behind (2 * row_bytes) self.here (rows - 1) }
    {
        RunMark {
            next: self.next + rows,
            here: self.here.behind(row_bytes, rows),
            before: self.here.behind(row_bytes, rows - 1),
        }
    }
}

/// A cursor in the codes of a picture.
#[derive(Drop)]
pub struct RunRows<'a> {
    codes: Codes<'a>,
    coding: Coding,
    row_bytes: usize,
    rows: u32,
    /// The row before which the cursor began.
    first: u32,
    mark: RunMark,
    /// The row before, in its first bytes.
    row: [u8; ROW],
    /// The room in which a row is put together.
    places: [u8; PLACES],
    refused: bool,
    /// How many rows were passed by their codes, with the one that was read again to go on at a mark.
    passed: u64,
}

impl<'a> Model for RunRows<'a> {
    ghost use Rattle.vp_format.specs.Pictures.{Cursor};
    ghost use Rattle.vp_format.specs.Cursors.{IsCursor, cursor_of};

    ghost Value = { Cursor };

    ghost view = { cursor_of };

    ghost invariant = { IsCursor };
}

impl<'a> RunRows<'a> {
    /// A cursor before the first of `rows` rows of `row_bytes` bytes, 1 to 1,024.
    pub fn new(codes: &'a [u8], coding: Coding, row_bytes: usize, rows: u32) -> Self
        requires some { 0 < row_bytes }
        requires short { row_bytes ≤ 1024 }
        ensures { result ≡ record {
          picture = record {
            coding = coding;
            codes = codes.now;
            row_bytes = row_bytes;
            rows = rows;
          };
          first = 0;
          next = 0;
        } }
    {
        RunRows {
            codes: Codes::new(codes, 0),
            coding,
            row_bytes,
            rows,
            first: 0,
            mark: RunMark::first(codes.len()),
            row: [0; ROW],
            places: [0; PLACES],
            refused: false,
            passed: 0,
        }
    }

    /// Writes the first bytes of the next row, as many as there is room for, if there is one; `Graphic` where
    /// a symbol that starts in it is refused. From the fault on each call answers it, and the bytes are any.
    pub fn next_row(&mut self, out: &mut [u8]) -> Result<bool, Fault>
        requires { length out.old ≤ self.old.picture.row_bytes }
        ensures answer { result ≡ answer self.old.picture self.old.next }
        ensures row { result ≡ Ok true → (x : ℕ) → x < 2 * length out.old →
            nibble out.new x ≡ value self.old.picture self.old.next x }
        ensures next { self.new ≡ record self.old { next = row_after self.old.picture self.old.next } }
        ensures len { length out.new ≡ length out.old }
    {
        if self.mark.next >= self.rows {
            return Ok(false);
        }
        if self.refused {
            return Err(Fault::Graphic);
        }
        let end = next_row(
            &mut self.codes,
            self.coding,
            self.mark.here,
            self.row_bytes,
            &mut self.places,
            &mut self.row,
        );
        match end {
            Err(_) => {
                self.refused = true;
                Err(Fault::Graphic)
            }
            Ok(end) => {
                out.copy_from_slice(&self.row[..out.len()]);
                self.mark = self.mark.behind(end, self.codes.at());
                Ok(true)
            }
        }
    }

    /// Passes rows, `most` at most: at once those that no code spells, else one by its codes, which is
    /// counted.
    fn pass(&mut self, most: u32) -> Result<u32, Fault>
        requires some { 0 < most }
        requires rows { self.old.next + most ≤ self.old.picture.rows }
        requires room { self.old.next + most < 2 ^ 32 }
        ensures some { IfOk result (λ k. (0 < k) × (k ≤ most)) }
        ensures next { IfOk result (λ k. self.new ≡ record self.old { next = self.old.next + k }) }
        ensures taken { IfOk result (λ k. (y : ℕ) → self.old.next ≤ y → y < self.old.next + k →
            is_refused self.old.picture y ≡ false) }
        ensures fault { IfErr result (λ why. (Err why ≡ answer self.old.picture self.old.next)
            × (self.new ≡ record self.old { next = row_after self.old.picture self.old.next })) }
    {
        let (rows, v) = self
            .mark
            .here
            .even_rows(self.row_bytes, self.codes.len(), most);
        if rows > 0 {
            self.row = [v * 16 + v; ROW];
            self.mark = self.mark.behind_even(self.row_bytes, rows);
            return Ok(rows);
        }
        if self.refused {
            return Err(Fault::Graphic);
        }
        let Ok(end) = next_row(
            &mut self.codes,
            self.coding,
            self.mark.here,
            self.row_bytes,
            &mut self.places,
            &mut self.row,
        ) else {
            self.refused = true;
            return Err(Fault::Graphic);
        };
        self.mark = self.mark.behind(end, self.codes.at());
        self.passed += 1;
        Ok(1)
    }

    /// Goes on as `rows` calls of `next_row` would, and answers the first fault that one of them would. Rows
    /// that no code spells are passed at once.
    pub fn skip(&mut self, rows: u32) -> Result<(), Fault>
        ensures answer { result ≡ passing self.old.picture self.old.next rows }
        ensures next { self.new ≡ record self.old { next = rows_after self.old.picture self.old.next rows } }
    {
        let mut left = rows;
        while left > 0 {
            if self.mark.next >= self.rows {
                return Ok(());
            }
            let passed = self.pass(left.min(self.rows - self.mark.next))?;
            left -= passed;
        }
        Ok(())
    }

    /// Where the cursor stands.
    pub fn mark(&self) -> RunMark
        ensures is { IsMark self.now.picture result }
        ensures row { marked_row result ≡ self.now.next }
    {
        self.mark
    }

    /// A cursor that goes on where one over the same codes and rows was marked.
    pub fn resume(
        codes: &'a [u8],
        coding: Coding,
        row_bytes: usize,
        rows: u32,
        mark: RunMark,
    ) -> Self
        requires some { 0 < row_bytes }
        requires short { row_bytes ≤ 1024 }
        requires mark { IsMark (record {
          coding = coding;
          codes = codes.now;
          row_bytes = row_bytes;
          rows = rows;
        }) mark }
        ensures { result ≡ record {
          picture = record {
            coding = coding;
            codes = codes.now;
            row_bytes = row_bytes;
            rows = rows;
          };
          first = marked_row mark;
          next = marked_row mark;
        } }
    {
        let mut row = [0; ROW];
        let mut places = [0; PLACES];
        let mut bytes = Codes::new(codes, mark.before.at);
        let _ = next_row(
            &mut bytes,
            coding,
            mark.before,
            row_bytes,
            &mut places,
            &mut row,
        );
        bytes.go_to(mark.here.at);
        RunRows {
            codes: bytes,
            coding,
            row_bytes,
            rows,
            first: mark.next,
            mark,
            row,
            places,
            refused: false,
            passed: 1,
        }
    }

    /// How many bytes of the codes were read, each reading counted: at least those of the symbols that start
    /// in the rows given, and none before the place of the last row before the first of these that isn't `:`.
    pub fn read(&self) -> u64
        ensures at_least { start_of self.now.picture self.now.next
            ≤ start_of self.now.picture self.now.first + result }
        ensures at_most { bound_of self.now.picture self.now.first + result ≤ length self.now.picture.codes }
    {
        self.codes.read()
    }

    /// How many rows `skip` passed by their codes, with the one that `resume` read again. Each has a byte of
    /// the codes, but that one and the last before white is all that comes.
    pub fn passed(&self) -> u64
        ensures bytes { start_of self.now.picture self.now.first + result
            ≤ start_of self.now.picture self.now.next + 2 }
        ensures at_most { result ≤ length self.now.picture.codes + 2 }
    {
        self.passed
    }
}
