//! What a line says where a file stands.

ghost use Rattle.std.specs.Prelude.{◌≡◌, ℕ, List, true, IfOk, OnSome};
ghost use Rattle.vp_font.specs.Orders.{code_rises, ordered, Follows};
ghost use Rattle.vp_font.specs.Rows.{is_row};
ghost use Rattle.vp_font.specs.Steps.{row_fits, start, at_start, in_head, between, at_bitmap, in_letter, row_or_end, in_rows, in_passed, step};

use crate::fault::Fault;
use crate::head::{Head, empty, metrics, with_line};
use crate::keyword::{Keyword, keyword_of};
use crate::letter::{Letter, Metrics};
use crate::parts::{Begun, Parts, complete, no_parts, with_part};
use crate::range::whole_at;
use crate::row::{is_row, row_bytes};
use crate::words::word;

/// What the next line belongs to.
#[derive(Clone, Copy)]
pub enum Place {
    /// Nothing was read.
    Start,
    /// What stands before CHARS, of which this is told.
    Head(Head),
    /// What stands between letters.
    Between,
    /// A letter, of which this is told.
    Letter(Parts),
    /// So many rows to come, each of so many bytes, of a letter that has a code.
    Rows(u32, u32),
    /// The same of a letter without one.
    Passed(u32, u32),
}

/// Where a file stands.
#[derive(Clone, Copy)]
pub struct State {
    pub place: Place,
    pub metrics: Metrics,
    /// How many letters are still to begin.
    pub to_come: u32,
    /// The code of the last letter.
    pub last: Option<u32>,
}

/// What a line gives.
#[derive(Clone, Copy)]
pub enum Given {
    Nothing,
    /// A letter whose rows come.
    Letter(Letter),
    /// A row of so many bytes.
    Row(u32),
    /// The end of the font.
    End,
}

/// Before the first line.
pub fn start() -> State
    ensures { result ≡ start }
{
    State {
        place: Place::Start,
        metrics: Metrics {
            ascent: 0,
            descent: 0,
            default_char: None,
        },
        to_come: 0,
        last: None,
    }
}

/// A line before CHARS, or that one.
#[tactic(auto, unfolding(crate::specs::Steps::in_head))]
fn in_head(state: State, told: Head, line: &[u8]) -> Result<(State, Given), Fault>
    ensures value { result ≡ in_head state told line.now }
    ensures row { IfOk result (λ r. row_fits r.1 line.now ≡ true) }
    ensures follows { IfOk result (λ r. Follows state.last r.1 r.0.last) }
    ensures ordered { IfOk result (λ r. ordered r.0 ≡ true) }
{
    let mut state = state;
    match keyword_of(word(line, 0)) {
        Keyword::Chars => {
            state.to_come = whole_at(line, 1, 65535, Fault::Count)?;
            state.metrics = metrics(told)?;
            state.place = Place::Between;
        }
        Keyword::StartChar => return Err(Fault::More),
        Keyword::EndFont => return Err(Fault::NoLetter),
        about => state.place = Place::Head(with_line(told, about, line)?),
    }
    Ok((state, Given::Nothing))
}

/// A line between letters.
#[tactic(auto, unfolding(crate::specs::Steps::between))]
fn between(state: State, about: Keyword) -> Result<(State, Given), Fault>
    requires { ordered state ≡ true }
    ensures value { result ≡ between state about }
    ensures row { IfOk result (λ r. (line : List ℕ) → row_fits r.1 line ≡ true) }
    ensures follows { IfOk result (λ r. Follows state.last r.1 r.0.last) }
    ensures ordered { IfOk result (λ r. ordered r.0 ≡ true) }
{
    let mut state = state;
    match about {
        Keyword::StartChar => {
            if state.to_come == 0 {
                return Err(Fault::More);
            }
            state.to_come -= 1;
            state.place = Place::Letter(no_parts());
            Ok((state, Given::Nothing))
        }
        Keyword::EndFont => {
            if state.to_come > 0 {
                return Err(Fault::Fewer);
            }
            if state.last.is_none() {
                return Err(Fault::NoLetter);
            }
            Ok((state, Given::End))
        }
        _ => Ok((state, Given::Nothing)),
    }
}

/// The rows of a letter come.
#[tactic(auto, unfolding(crate::specs::Steps::at_bitmap))]
fn at_bitmap(state: State, parts: Parts) -> Result<(State, Given), Fault>
    requires { code_rises parts.code state.last ≡ true }
    ensures value { result ≡ at_bitmap state parts }
    ensures row { IfOk result (λ r. (line : List ℕ) → row_fits r.1 line ≡ true) }
    ensures follows { IfOk result (λ r. Follows state.last r.1 r.0.last) }
    ensures ordered { IfOk result (λ r. ordered r.0 ≡ true) }
{
    let mut state = state;
    match complete(parts)? {
        Begun::Passed(shape) => {
            state.place = Place::Passed(shape.height, row_bytes(shape.width));
            Ok((state, Given::Nothing))
        }
        Begun::Letter(letter) => {
            state.place = Place::Rows(letter.shape.height, row_bytes(letter.shape.width));
            state.last = Some(letter.code);
            Ok((state, Given::Letter(letter)))
        }
    }
}

/// A line of a letter, up to BITMAP.
#[tactic(auto, unfolding(crate::specs::Steps::in_letter))]
fn in_letter(state: State, parts: Parts, line: &[u8]) -> Result<(State, Given), Fault>
    requires { code_rises parts.code state.last ≡ true }
    ensures value { result ≡ in_letter state parts line.now }
    ensures row { IfOk result (λ r. row_fits r.1 line.now ≡ true) }
    ensures follows { IfOk result (λ r. Follows state.last r.1 r.0.last) }
    ensures ordered { IfOk result (λ r. ordered r.0 ≡ true) }
{
    let about = keyword_of(word(line, 0));
    if matches!(about, Keyword::Bitmap) {
        return at_bitmap(state, parts);
    }
    let mut state = state;
    state.place = Place::Letter(with_part(parts, state.last, about, line)?);
    Ok((state, Given::Nothing))
}

/// A row, or the end of a letter behind the last one: how many rows are left, none at the end.
#[tactic(auto, unfolding(crate::specs::Steps::row_or_end))]
fn row_or_end(left: u32, bytes: u32, line: &[u8]) -> Result<Option<u32>, Fault>
    ensures value { result ≡ row_or_end left bytes line.now }
    ensures row { IfOk result (λ left. OnSome left (is_row bytes line.now ≡ true)) }
{
    if left > 0 {
        if !is_row(line, bytes) {
            return Err(Fault::Row);
        }
        return Ok(Some(left - 1));
    }
    if !matches!(keyword_of(word(line, 0)), Keyword::EndChar) {
        return Err(Fault::Row);
    }
    Ok(None)
}

/// A row of a letter that has a code, or its end.
#[tactic(auto, unfolding(crate::specs::Steps::in_rows))]
fn in_rows(state: State, left: u32, bytes: u32, line: &[u8]) -> Result<(State, Given), Fault>
    ensures value { result ≡ in_rows state left bytes line.now }
    ensures row { IfOk result (λ r. row_fits r.1 line.now ≡ true) }
    ensures follows { IfOk result (λ r. Follows state.last r.1 r.0.last) }
    ensures ordered { IfOk result (λ r. ordered r.0 ≡ true) }
{
    let mut state = state;
    match row_or_end(left, bytes, line)? {
        Some(left) => {
            state.place = Place::Rows(left, bytes);
            Ok((state, Given::Row(bytes)))
        }
        None => {
            state.place = Place::Between;
            Ok((state, Given::Nothing))
        }
    }
}

/// A row of a letter without a code, or its end.
#[tactic(auto, unfolding(crate::specs::Steps::in_passed))]
fn in_passed(state: State, left: u32, bytes: u32, line: &[u8]) -> Result<(State, Given), Fault>
    ensures value { result ≡ in_passed state left bytes line.now }
    ensures row { IfOk result (λ r. row_fits r.1 line.now ≡ true) }
    ensures follows { IfOk result (λ r. Follows state.last r.1 r.0.last) }
    ensures ordered { IfOk result (λ r. ordered r.0 ≡ true) }
{
    let mut state = state;
    state.place = match row_or_end(left, bytes, line)? {
        Some(left) => Place::Passed(left, bytes),
        None => Place::Between,
    };
    Ok((state, Given::Nothing))
}

/// The first line.
#[tactic(auto, unfolding(crate::specs::Steps::at_start))]
fn at_start(state: State, line: &[u8]) -> Result<(State, Given), Fault>
    ensures value { result ≡ at_start state line.now }
    ensures row { IfOk result (λ r. row_fits r.1 line.now ≡ true) }
    ensures follows { IfOk result (λ r. Follows state.last r.1 r.0.last) }
    ensures ordered { IfOk result (λ r. ordered r.0 ≡ true) }
{
    if !matches!(keyword_of(word(line, 0)), Keyword::StartFont) {
        return Err(Fault::NotBdf);
    }
    let mut state = state;
    state.place = Place::Head(empty());
    Ok((state, Given::Nothing))
}

/// What a line does and gives.
#[tactic(auto, unfolding(crate::specs::Steps::step))]
pub fn step(state: State, line: &[u8]) -> Result<(State, Given), Fault>
    requires { ordered state ≡ true }
    ensures value { result ≡ step state line.now }
    ensures row { IfOk result (λ r. row_fits r.1 line.now ≡ true) }
    ensures follows { IfOk result (λ r. Follows state.last r.1 r.0.last) }
    ensures ordered { IfOk result (λ r. ordered r.0 ≡ true) }
{
    match state.place {
        Place::Start => at_start(state, line),
        Place::Head(told) => in_head(state, told, line),
        Place::Between => between(state, keyword_of(word(line, 0))),
        Place::Letter(parts) => in_letter(state, parts, line),
        Place::Rows(left, bytes) => in_rows(state, left, bytes, line),
        Place::Passed(left, bytes) => in_passed(state, left, bytes, line),
    }
}
