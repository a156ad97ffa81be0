//! What is put out: a strip from a place on, and the strips that come after it.
ghost use Rattle.std.specs.Prelude.{◌≡◌, ℕ, ◌+◌, ◌-◌, ◌<◌, ◌≤◌, ◌++◌, [], true, min, take, drop, length, IsTrue, ◌↔◌, None, ◌==◌, if◌then◌else◌, MatchOption};
ghost use Rattle.vp_strips.specs.Canvases.{canvas_of, Canvas as TheCanvas};
ghost use Rattle.vp_strips.specs.declared.lines.Lines.{Lines};
ghost use Rattle.vp_strips.specs.declared.strip.Strip.{Strip};
ghost use Rattle.vp_strips.specs.Rows.{rows_text};
ghost use Rattle.vp_strips.specs.Jobs.{strip_dot, IsPlace};
ghost use Rattle.vp_receipt_settings.specs.Setup.{row_bytes};
ghost use Rattle.vp_strips.specs.Held.{IsAtRow, job_text, part_of, SomeLeft, whole, whole_if, after_text, IsJob, IsTurned, IsLow, IsLowIf, IsOwn, AreOwn, IsShowing, showing_of, IsHigh};
ghost use Rattle.std.specs.Option.{option_map};

use crate::canvas::Canvas;
use crate::lines::Lines;
use crate::many_rows::copy_rows;
use crate::strip::{Dots, Strip};
use vp_dots::Small;
use vp_output::{Line, Place, put_part};
use vp_receipt_settings::Width;

/// The strips that come after one.
#[derive(Clone, Copy)]
pub enum After {
    End,
    One(Strip),
    Two(Strip, Strip),
}

/// A strip that is being put out, from a place on, and what comes then.
#[derive(Clone, Copy)]
pub struct Job {
    pub strip: Strip,
    /// None, and nothing of the strip is left.
    pub place: Option<Place>,
    pub after: After,
}

impl Job {
    /// One that puts out nothing.
    pub fn none() -> Job
        ensures job { (canvas : TheCanvas) (lines : Lines) → IsJob result canvas lines }
        ensures turned { IsTurned result.place result.after }
        ensures text { (canvas : TheCanvas) → job_text result canvas ≡ [] }
        ensures shows { (canvas : TheCanvas) (high others : ℕ) → IsShowing result canvas high others }
    {
        Job {
            strip: Strip::white(Width::W576, 0),
            place: None,
            after: After::End,
        }
    }

    /// The strips, one after the other.
    pub fn of(first: Option<Strip>, after: After) -> Job
        requires first { IsLowIf first }
        requires after { AreOwn after }
        ensures job { (canvas : TheCanvas) (lines : Lines) → IsJob result canvas lines }
        ensures turned { IsTurned result.place result.after }
        ensures text { (canvas : TheCanvas) →
            job_text result canvas ≡ whole_if first canvas ++ after_text after canvas }
        ensures shows { (canvas : TheCanvas) (high : ℕ) → IsHigh first high →
            IsShowing result canvas high (length (after_text after canvas)) }
    {
        let Some(strip) = first else {
            let mut job = Job {
                strip: Strip::white(Width::W576, 0),
                place: None,
                after,
            };
            job.turn();
            return job;
        };
        Job {
            strip,
            place: Some(Place::start()),
            after,
        }
    }

    /// One strip that shows no line, if it has rows.
    pub fn alone(strip: Strip) -> Job
        requires own { IsOwn strip }
        ensures job { (canvas : TheCanvas) (lines : Lines) → IsJob result canvas lines }
        ensures turned { IsTurned result.place result.after }
        ensures text { (canvas : TheCanvas) →
            job_text result canvas ≡ (if strip.rows == 0 then [] else whole strip canvas) }
        ensures shows { (canvas : TheCanvas) (high : ℕ) →
            IsShowing result canvas high (length (job_text result canvas)) }
    {
        if strip.rows == 0 {
            return Job::none();
        }
        Job::of(None, After::One(strip))
    }

    /// The rows of a strip without a header.
    pub fn of_rows(strip: Strip) -> Job
        requires own { IsOwn strip }
        requires some { 0 < strip.rows }
        ensures job { (canvas : TheCanvas) (lines : Lines) → IsJob result canvas lines }
        ensures turned { IsTurned result.place result.after }
        ensures text { (canvas : TheCanvas) →
            job_text result canvas ≡ rows_text strip.paper (strip_dot strip canvas) 0 strip.rows }
        ensures shows { (canvas : TheCanvas) (high : ℕ) →
            IsShowing result canvas high (length (job_text result canvas)) }
    {
        Job {
            strip,
            place: Some(Place {
                line: Line::Row(0),
                byte: 0,
            }),
            after: After::End,
        }
    }

    /// The row that comes next, where none of it is put out and there is room for all of it.
    fn next_row(&self, room: usize) -> Option<u32>
        ensures { MatchOption result Unit (λ y. IsAtRow self.now y
            × (row_bytes self.now.strip.paper ≤ room)) }
    {
        let place = self.place?;
        match place.line {
            Line::Row(y) if place.byte == 0 && self.strip.paper.row_bytes() <= room => Some(y),
            _ => None,
        }
    }

    /// Puts out rows, from row y on, as many as there are and room is for.
    fn put_rows<A: Small>(&mut self, y: u32, canvas: &Canvas<A>, out: &mut [u8]) -> usize
        requires at { IsAtRow self.old y }
        requires room { row_bytes self.old.strip.paper ≤ length out.old }
        requires low { IsLow self.old.strip }
        requires place { IsPlace self.old.strip.rows self.old.place }
        ensures strip { self.new.strip ≡ self.old.strip }
        ensures after { self.new.after ≡ self.old.after }
        ensures job { (lines : Lines) → IsJob self.old (canvas_of canvas.now) lines →
            IsJob self.new (canvas_of canvas.now) lines }
        ensures some { 0 < result }
        ensures fits { result ≤ length out.old }
        ensures within { result ≤ length (part_of self.old (canvas_of canvas.now)) }
        ensures bytes { out.new ≡
            take result (part_of self.old (canvas_of canvas.now)) ++ drop result out.old }
        ensures rest { part_of self.new (canvas_of canvas.now) ≡
            drop result (part_of self.old (canvas_of canvas.now)) }
    {
        let bytes = self.strip.paper.row_bytes();
        let all = self.strip.rows();
        let rows = (out.len() / bytes).min((all - y) as usize);
        copy_rows(self.strip, y, rows as u32, canvas, out);
        let place = Place {
            line: Line::Row(y + (rows as u32 - 1)),
            byte: 0,
        };
        self.place = place.advanced(bytes, bytes, all);
        rows * bytes
    }

    /// Puts out bytes of one line, or rows.
    fn put_line<A: Small>(&mut self, canvas: &Canvas<A>, lines: &mut Lines, out: &mut [u8]) -> usize
        requires job { IsJob self.old (canvas_of canvas.now) lines.old }
        requires pending { 0 < length (part_of self.old (canvas_of canvas.now)) }
        requires room { 0 < length out.old }
        ensures strip { self.new.strip ≡ self.old.strip }
        ensures after { self.new.after ≡ self.old.after }
        ensures job { IsJob self.new (canvas_of canvas.now) lines.new }
        ensures some { 0 < result }
        ensures fits { result ≤ length out.old }
        ensures within { result ≤ length (part_of self.old (canvas_of canvas.now)) }
        ensures bytes { out.new ≡
            take result (part_of self.old (canvas_of canvas.now)) ++ drop result out.old }
        ensures rest { part_of self.new (canvas_of canvas.now) ≡
            drop result (part_of self.old (canvas_of canvas.now)) }
    {
        if let Some(y) = self.next_row(out.len()) {
            return self.put_rows(y, canvas, out);
        }
        let Some(place) = self.place else {
            return 0;
        };
        lines.make(self.strip, place, canvas);
        let line = lines.at(place.line, self.strip.paper);
        let output = put_part(place, line, self.strip.rows, out);
        self.place = output.next;
        output.count
    }

    /// Begins the next strip where one ended.
    fn turn(&mut self)
        ensures text { (canvas : TheCanvas) → job_text self.new canvas ≡ job_text self.old canvas }
        ensures job { (canvas : TheCanvas) (lines : Lines) → IsJob self.old canvas lines →
            IsJob self.new canvas lines }
        ensures turned { IsTurned self.new.place self.new.after }
        ensures shows { (canvas : TheCanvas) (high others : ℕ) → AreOwn self.old.after →
            IsShowing self.old canvas high others → IsShowing self.new canvas high others }
    {
        if self.place.is_none() {
            let (strip, after) = match self.after {
                After::End => return,
                After::One(strip) => (strip, After::End),
                After::Two(strip, last) => (strip, After::One(last)),
            };
            self.strip = strip;
            self.place = Some(Place::start());
            self.after = after;
        }
    }

    /// Puts out bytes of one line, or rows, and begins the next strip where one ends.
    // Where nothing is pending, its room isn't paid for.
    #[inline(never)]
    fn put_some<A: Small>(&mut self, canvas: &Canvas<A>, lines: &mut Lines, out: &mut [u8]) -> usize
        requires job { IsJob self.old (canvas_of canvas.now) lines.old }
        requires turned { IsTurned self.old.place self.old.after }
        requires pending { 0 < length (job_text self.old (canvas_of canvas.now)) }
        requires room { 0 < length out.old }
        ensures job { IsJob self.new (canvas_of canvas.now) lines.new }
        ensures turned { IsTurned self.new.place self.new.after }
        ensures some { 0 < result }
        ensures fits { result ≤ length out.old }
        ensures within { result ≤ length (job_text self.old (canvas_of canvas.now)) }
        ensures bytes { out.new ≡
            take result (job_text self.old (canvas_of canvas.now)) ++ drop result out.old }
        ensures rest { job_text self.new (canvas_of canvas.now) ≡
            drop result (job_text self.old (canvas_of canvas.now)) }
        ensures shows { (high others : ℕ) → IsShowing self.old (canvas_of canvas.now) high others →
            IsShowing self.new (canvas_of canvas.now) high others }
    {
        let n = self.put_line(canvas, lines, out);
        self.turn();
        n
    }

    /// The height of the line of whose strip bytes are left.
    pub fn line_rows(&self) -> Option<u16>
        ensures { (canvas : TheCanvas) →
            result ≡ option_map (λ shown. shown.height) (showing_of self.now canvas) }
    {
        match (self.place, self.strip.dots) {
            (None, _) => None,
            (_, Dots::Line { height, .. }) => Some(height),
            _ => None,
        }
    }

    /// Whether bytes are left.
    pub fn is_pending(&self) -> bool
        ensures { (canvas : TheCanvas) → SomeLeft self.now.strip self.now.place →
            IsTurned self.now.place self.now.after →
            IsTrue result ↔ (0 < length (job_text self.now canvas)) }
    {
        self.place.is_some()
    }

    /// Puts out the next bytes, as many as there are and room is for, and answers how many.
    pub fn put<A: Small>(&mut self, canvas: &Canvas<A>, lines: &mut Lines, out: &mut [u8]) -> usize
        requires job { IsJob self.old (canvas_of canvas.now) lines.old }
        requires turned { IsTurned self.old.place self.old.after }
        ensures job { IsJob self.new (canvas_of canvas.now) lines.new }
        ensures turned { IsTurned self.new.place self.new.after }
        ensures count { result ≡ min (length (job_text self.old (canvas_of canvas.now))) (length out.old) }
        ensures bytes { out.new ≡
            take result (job_text self.old (canvas_of canvas.now)) ++ drop result out.old }
        ensures rest { job_text self.new (canvas_of canvas.now) ≡
            drop result (job_text self.old (canvas_of canvas.now)) }
        ensures shows { (high others : ℕ) → IsShowing self.old (canvas_of canvas.now) high others →
            IsShowing self.new (canvas_of canvas.now) high others }
    {
        let mut n = 0;
        while n < out.len() && self.is_pending() {
            n += self.put_some(canvas, lines, &mut out[n..]);
        }
        n
    }
}
