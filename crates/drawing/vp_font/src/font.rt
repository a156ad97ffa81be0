//! A font, read from a whole file.

ghost use Rattle.std.specs.Prelude.{◌≡◌, ◌⊎◌, ◌+◌, ◌≤◌, ◌<◌, ◌^◌, true, [], length, vec_capacity, Ok, Err, IsOk, OnOk, MatchResult, MatchOption, drop, alloc_error};
ghost use Rattle.vp_font.specs.Words.{lines};
ghost use Rattle.vp_font.specs.Steps.{row_fits, start};
ghost use Rattle.vp_font.specs.Glyphs.{Rising, Lacks, Has};
ghost use Rattle.vp_font.specs.Fonts.{ends, more_letters, more_bytes, letters_with, raster_with, count_from, font_of, font_memory};

use crate::fault::Fault;
use crate::glyph::Glyph;
use crate::letter::{Entry, Metrics};
use crate::row::push_row;
use crate::search::place_of;
use crate::state::{Given, start, step};
use crate::words::next_line;
use std::alloc::{AllocError, Allocator, Global};
use std::marker::Model;
use std::mem::size_of;
use thiserror::Error;
use vp_dots::Small;

/// Why a file is no font.
#[derive(Debug, Drop, PartialEq, Eq, Error)]
pub enum FontError {
    /// A line, counted from 1, breaks a rule: no line before it breaks any. A file that ends too early breaks
    /// it at the line behind its last one.
    #[error("line {0}: {1}")]
    At(usize, Fault),
    /// There is no memory for the font.
    #[error(transparent)]
    Memory(AllocError),
}

/// The bytes of one of these.
const ENTRY_BYTES: usize = size_of::<Entry>();

/// How many letters and bytes of rows there are.
#[derive(Clone, Copy)]
pub struct Counts {
    pub letters: usize,
    pub bytes: usize,
}

/// A font of letters.
#[derive(Drop)]
pub struct Font<A: Small = Global> {
    metrics: Metrics,
    letters: Vec<Entry, A>,
    raster: Vec<u8, A>,
}

impl<A: Small> Model for Font<A> {
    ghost use Rattle.std.specs.Prelude.{◌≡◌, length, vec_capacity};
    ghost use Rattle.vp_font.specs.Fonts.{Face};
    ghost use Rattle.vp_font.specs.Glyphs.{Rising};

    ghost Value = { Face };

    ghost view = { λ s. record { metrics = s.metrics; letters = s.letters.items; raster = s.raster.items } };

    ghost invariant = { λ s. record {
      rising : Rising s.letters.items;
      letters_room : vec_capacity s.letters ≡ length s.letters.items;
      raster_room : vec_capacity s.raster ≡ length s.raster.items;
    } };
}

/// Whether this ends a font.
fn ends(given: Given) -> bool
    ensures { result ≡ ends given }
{
    matches!(given, Given::End)
}

/// How many there are with what a line gives.
fn counted(counts: Counts, given: Given) -> Counts
    requires letters { counts.letters + 1 < 2 ^ 64 }
    requires bytes { more_bytes given counts.bytes < 2 ^ 64 }
    ensures letters { result.letters ≡ more_letters given counts.letters }
    ensures bytes { result.bytes ≡ more_bytes given counts.bytes }
{
    let Counts { letters, bytes } = counts;
    match given {
        Given::Letter(_) => Counts {
            letters: letters + 1,
            bytes,
        },
        Given::Row(more) => Counts {
            letters,
            bytes: bytes + more as usize,
        },
        _ => counts,
    }
}

/// Counts what a file has, and says why it is refused.
fn count(src: &[u8]) -> Result<Counts, FontError>
    ensures { result ≡ count_from 1 start 0 0 (lines src.now) }
{
    let mut state = start();
    let mut rest = src;
    let mut number = 1usize;
    let mut counts = Counts {
        letters: 0,
        bytes: 0,
    };
    while let Some((line, behind)) = next_line(rest) {
        let (next, given) = match step(state, line) {
            Err(fault) => return Err(FontError::At(number, fault)),
            Ok(told) => told,
        };
        if ends(given) {
            return Ok(counts);
        }
        counts = counted(counts, given);
        state = next;
        rest = behind;
        number += 1;
    }
    Err(FontError::At(number, Fault::Ends))
}

/// Keeps what a line gives, in room that there is.
fn keep<A: Allocator>(
    letters: &mut Vec<Entry, A>,
    raster: &mut Vec<u8, A>,
    given: Given,
    line: &[u8],
)
    requires row { row_fits given line.now ≡ true }
    requires letters_fit { more_letters given (length letters.old.items) ≤ vec_capacity letters.old }
    requires bytes_fit { more_bytes given (length raster.old.items) ≤ vec_capacity raster.old }
    ensures letters { letters.new.items ≡ letters_with given letters.old.items raster.old.items }
    ensures raster { raster.new.items ≡ raster_with given line.now raster.old.items }
    ensures letters_room { vec_capacity letters.new ≡ vec_capacity letters.old }
    ensures raster_room { vec_capacity raster.new ≡ vec_capacity raster.old }
{
    match given {
        Given::Letter(letter) => letters.push_reserved(Entry {
            letter,
            from: raster.len(),
        }),
        Given::Row(bytes) => push_row(raster, line, bytes),
        _ => {}
    }
}

/// Reads a file into room that is as large as it has to be.
fn fill<A: Allocator>(
    src: &[u8],
    letters: &mut Vec<Entry, A>,
    raster: &mut Vec<u8, A>,
) -> Result<Metrics, FontError>
    requires letters { letters.old.items ≡ [] }
    requires raster { raster.old.items ≡ [] }
    requires room { count_from 1 start 0 0 (lines src.now)
        ≡ Ok (record { letters = vec_capacity letters.old; bytes = vec_capacity raster.old }) }
    ensures font { MatchResult result (λ metrics. font_of src.now ≡ Ok (record {
      metrics = metrics;
      letters = letters.new.items;
      raster = raster.new.items;
    })) (λ why. font_of src.now ≡ Err why) }
    ensures rising { OnOk result (Rising letters.new.items) }
    ensures letters_room { vec_capacity letters.new ≡ vec_capacity letters.old }
    ensures raster_room { vec_capacity raster.new ≡ vec_capacity raster.old }
{
    let mut state = start();
    let mut rest = src;
    let mut number = 1usize;
    while let Some((line, behind)) = next_line(rest) {
        let (next, given) = match step(state, line) {
            Err(fault) => return Err(FontError::At(number, fault)),
            Ok(told) => told,
        };
        if ends(given) {
            return Ok(next.metrics);
        }
        keep(letters, raster, given, line);
        state = next;
        rest = behind;
        number += 1;
    }
    Err(FontError::At(number, Fault::Ends))
}

/// The bytes from a place on, none behind the last.
fn rows_from(raster: &[u8], from: usize) -> &[u8]
    ensures { result.now ≡ drop from raster.now }
{
    if from < raster.len() {
        &raster[from..]
    } else {
        &[]
    }
}

impl<A: Small + Copy> Font<A> {
    /// Reads a BDF file. Memory is taken here alone, as much as the letters and their rows need. Of the
    /// lines that break a rule the first one is told.
    pub fn read(alloc: A, src: &[u8]) -> Result<Self, FontError>
        ensures { (result ≡ font_of src.now)
            ⊎ ((result ≡ Err (FontError.Memory alloc_error)) × IsOk (font_of src.now)) }
    {
        let counts = match count(src) {
            Err(why) => return Err(why),
            Ok(counts) => counts,
        };
        let mut letters = match Vec::with_capacity(alloc, counts.letters) {
            Err(why) => return Err(FontError::Memory(why)),
            Ok(letters) => letters,
        };
        let mut raster = match Vec::with_capacity(alloc, counts.bytes) {
            Err(why) => return Err(FontError::Memory(why)),
            Ok(raster) => raster,
        };
        match fill(src, &mut letters, &mut raster) {
            Err(why) => Err(why),
            Ok(metrics) => Ok(Font {
                metrics,
                letters,
                raster,
            }),
        }
    }
}

impl<A: Small> Font<A> {
    /// How many dots a line reaches above the baseline.
    pub fn ascent(&self) -> i64
        ensures { result ≡ self.now.metrics.ascent }
    {
        self.metrics.ascent
    }

    /// How many dots a line reaches below the baseline.
    pub fn descent(&self) -> i64
        ensures { result ≡ self.now.metrics.descent }
    {
        self.metrics.descent
    }

    /// The code of the letter that stands for those that are missing, if the file tells one.
    pub fn default_char(&self) -> Option<u32>
        ensures { result ≡ self.now.metrics.default_char }
    {
        self.metrics.default_char
    }

    /// The letter of a code, if the font has it.
    pub fn glyph(&self, code: u32) -> Option<Glyph<'_>>
        ensures { MatchOption result (Lacks self.now.letters code)
            (λ glyph. Has self.now code glyph.letter glyph.rows.now) }
    {
        let place = place_of(&self.letters, code)?;
        let Entry { letter, from } = self.letters[place];
        Some(Glyph {
            letter,
            rows: rows_from(&self.raster, from),
        })
    }

    /// The bytes of memory that it holds, on the heap.
    pub fn memory(&self) -> u128
        ensures { result ≡ font_memory self.now }
    {
        let letters = self.letters.capacity() as u128;
        let bytes = self.raster.capacity() as u128;
        ENTRY_BYTES as u128 * letters + bytes
    }
}
