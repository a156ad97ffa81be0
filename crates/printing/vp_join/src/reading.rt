//! Reads images, one after the other, from bytes that come in any pieces.
ghost use Rattle.std.specs.Prelude.{◌≡◌, ◌<◌, ◌≤◌, ◌+◌, ℕ, length, take, true, false, List, [], ◌∷◌, ◌++◌, Some, None, Option, MatchOption, IfSome};
ghost use Rattle.vp_dots.specs.Images.{row_bytes};
ghost use Rattle.vp_join.specs.Told.{Seen, continues, with_digit, images, width, height, told, stops};
ghost use Rattle.vp_join.specs.Standing.{from_phase, so_far, Stands, HasRead, IsAnswer, IsCounted, IsWide, is_beyond, left, length_of, rows_in, offence_in};

use crate::fault::Offence;

/// The greatest number in a header, and the greatest height of a joined image.
const GREATEST: u64 = 999_999_999;

/// A width and a height in dots, both 0 where there is no image.
#[derive(Clone, Copy, Debug, PartialEq, Eq)]
pub struct Size {
    pub width: u32,
    pub height: u32,
}

/// What is read next.
#[derive(Clone, Copy)]
enum Phase {
    /// An image, or the end.
    Between,
    AfterP,
    After4,
    /// More of the width, of which this is read.
    InWidth(u32),
    /// More of the height, behind this width.
    InHeight { width: u32, read: u32 },
    /// A byte of the rows, with `behind` bytes behind it.
    InRows { behind: u64 },
    Stopped(Offence),
}

/// What is taken at once: a byte of a header, or a number of bytes of rows.
#[derive(Clone, Copy)]
pub enum Piece {
    Head,
    Rows(usize),
}

/// A reading of images: what is read next, and the width and the heights so far.
#[derive(Clone, Copy)]
pub struct Reading {
    width: u32,
    height: u32,
    phase: Phase,
}

/// A number with one more digit, where that makes one of 1 to 9 digits with no zero in front.
fn continued(n: u32, b: u8) -> Option<u32>
    ensures { MatchOption result (continues n b ≡ false)
        (λ m. (continues n b ≡ true) × (m ≡ with_digit n b)) }
{
    if b < b'0' || b > b'9' {
        return None;
    }
    let m = u64::from(n) * 10 + u64::from(b - b'0');
    if m == 0 || m > GREATEST {
        return None;
    }
    Some(m as u32)
}

/// How many bytes hold a row of `width` dots.
pub fn bytes_of_row(width: u32) -> u64
    ensures { result ≡ row_bytes width }
{
    (u64::from(width) + 7) / 8
}

/// The phase behind the first byte of an image.
#[tactic(auto, using(crate::proofs::Starts::no_first))]
fn first(b: u8) -> Phase
    ensures next { (so : Seen) (text : List ℕ) → images so (b ∷ text) ≡ from_phase result so text }
    ensures left { left result ≡ 0 }
    ensures wide { IsWide result }
{
    if b == b'P' {
        return Phase::AfterP;
    }
    Phase::Stopped(Offence::Header)
}

/// The phase behind its second byte.
#[tactic(auto, using(crate::proofs::Starts::no_second))]
fn second(b: u8) -> Phase
    ensures next { (so : Seen) (text : List ℕ) → images so (80 ∷ b ∷ text) ≡ from_phase result so text }
    ensures left { left result ≡ 0 }
    ensures wide { IsWide result }
{
    if b == b'4' {
        return Phase::After4;
    }
    Phase::Stopped(Offence::Header)
}

/// The phase behind its third byte.
fn third(b: u8) -> Phase
    ensures next { (so : Seen) (text : List ℕ) → images so (80 ∷ 52 ∷ b ∷ text) ≡ from_phase result so text }
    ensures left { left result ≡ 0 }
    ensures wide { IsWide result }
{
    if b == b'\n' {
        return Phase::InWidth(0);
    }
    Phase::Stopped(Offence::Header)
}

/// The phase behind a byte of the width, of which n is read.
fn in_width(n: u32, b: u8) -> Phase
    ensures next { (so : Seen) (text : List ℕ) → width so n (b ∷ text) ≡ from_phase result so text }
    ensures left { left result ≡ 0 }
    ensures wide { IsWide result }
{
    if let Some(m) = continued(n, b) {
        return Phase::InWidth(m);
    }
    if n > 0 && b == b' ' {
        return Phase::InHeight { width: n, read: 0 };
    }
    Phase::Stopped(Offence::Header)
}

/// Puts bytes behind the n first ones.
fn put(rows: &mut [u8], n: usize, run: &[u8])
    requires { n + length run.now ≤ length rows.old }
    ensures bytes { take (n + length run.now) rows.new ≡ take n rows.old ++ run.now }
    ensures same_length { length rows.new ≡ length rows.old }
{
    rows[n..n + run.len()].copy_from_slice(run);
}

impl Reading {
    /// Nothing is read yet.
    pub fn new() -> Self
        ensures stands { Stands result [] [] }
        ensures counted { IsCounted result 0 }
        ensures wide { IsWide result.phase }
    {
        Reading {
            width: 0,
            height: 0,
            phase: Phase::Between,
        }
    }

    /// The header is read: what follows it.
    fn begin(&mut self, w: u32, n: u32)
        requires wide { 0 < w }
        requires high { 0 < n }
        ensures next { (r text : List ℕ) → height (so_far self.old r) w n (10 ∷ text)
            ≡ from_phase self.new.phase (so_far self.new r) text }
        ensures counted { (m : ℕ) → left self.old.phase ≡ 0 → IsCounted self.old m → IsCounted self.new m }
        ensures wide { IsWide self.new.phase }
    {
        if self.width > 0 && self.width != w {
            self.phase = Phase::Stopped(Offence::Width);
            return;
        }
        let total = u64::from(self.height) + u64::from(n);
        if total > GREATEST {
            self.phase = Phase::Stopped(Offence::TooTall);
            return;
        }
        self.width = w;
        self.height = total as u32;
        self.phase = Phase::InRows {
            behind: (bytes_of_row(w) * u64::from(n)).saturating_sub(1),
        };
    }

    /// Takes a byte of the height, of which n is read, behind a width.
    fn take_in_height(&mut self, w: u32, n: u32, b: u8)
        requires wide { 0 < w }
        ensures next { (r text : List ℕ) → height (so_far self.old r) w n (b ∷ text)
            ≡ from_phase self.new.phase (so_far self.new r) text }
        ensures counted { (m : ℕ) → left self.old.phase ≡ 0 → IsCounted self.old m → IsCounted self.new m }
        ensures wide { IsWide self.new.phase }
    {
        if let Some(m) = continued(n, b) {
            self.phase = Phase::InHeight { width: w, read: m };
            return;
        }
        if n > 0 && b == b'\n' {
            self.begin(w, n);
            return;
        }
        self.phase = Phase::Stopped(Offence::Header);
    }

    /// Takes a byte that is no byte of rows.
    fn take_head(&mut self, byte: u8)
        requires head { left self.old.phase ≡ 0 }
        requires wide { IsWide self.old.phase }
        ensures next { (r text : List ℕ) → from_phase self.old.phase (so_far self.old r) (byte ∷ text)
            ≡ from_phase self.new.phase (so_far self.new r) text }
        ensures counted { (m : ℕ) → IsCounted self.old m → IsCounted self.new m }
        ensures wide { IsWide self.new.phase }
    {
        match self.phase {
            Phase::Between => self.phase = first(byte),
            Phase::AfterP => self.phase = second(byte),
            Phase::After4 => self.phase = third(byte),
            Phase::InWidth(n) => self.phase = in_width(n, byte),
            Phase::InHeight { width, read } => self.take_in_height(width, read, byte),
            Phase::InRows { behind: _ } => {}
            Phase::Stopped(_) => {}
        }
    }

    /// Takes `n` bytes of rows, where `behind` bytes stand behind the next one.
    fn take_rows(&mut self, behind: u64, n: u64)
        requires rows { self.old.phase ≡ Phase.InRows behind }
        requires some { 0 < n }
        requires within { n ≤ behind + 1 }
        ensures next { (r bytes text : List ℕ) → length bytes ≡ n →
            from_phase self.old.phase (so_far self.old r) (bytes ++ text)
            ≡ from_phase self.new.phase (so_far self.new (r ++ bytes)) text }
        ensures counted { (m : ℕ) → IsCounted self.old m → IsCounted self.new (m + n) }
        ensures wide { IsWide self.new.phase }
    {
        if n > behind {
            self.phase = Phase::Between;
            return;
        }
        self.phase = Phase::InRows { behind: behind - n };
    }

    /// Takes the bytes of rows that are in front, or else one byte.
    pub fn take(&mut self, bytes: &[u8]) -> Piece
        requires some { 0 < length bytes.now }
        requires wide { IsWide self.old.phase }
        ensures some { 0 < length_of result }
        ensures within { length_of result ≤ length bytes.now }
        ensures stands { (b r : List ℕ) → Stands self.old b r →
            Stands self.new (b ++ take (length_of result) bytes.now) (r ++ rows_in result bytes.now) }
        ensures counted { (m : ℕ) → IsCounted self.old m →
            IsCounted self.new (m + length (rows_in result bytes.now)) }
        ensures wide { IsWide self.new.phase }
    {
        if let Phase::InRows { behind } = self.phase {
            let n = behind.min(bytes.len() as u64 - 1) + 1;
            self.take_rows(behind, n);
            return Piece::Rows(n as usize);
        }
        self.take_head(bytes[0]);
        Piece::Head
    }

    /// Takes bytes.
    pub fn skim(&mut self, bytes: &[u8])
        requires { IsWide self.old.phase }
        ensures stands { (b r : List ℕ) → Stands self.old b r → HasRead self.new (b ++ bytes.now) r }
        ensures wide { IsWide self.new.phase }
    {
        let mut at = 0;
        'pieces: while at < bytes.len() {
            match self.take(&bytes[at..]) {
                Piece::Head => at += 1,
                Piece::Rows(n) => at += n,
            }
        }
    }

    /// Takes bytes, and puts the bytes of rows among them out; it gives how many these are.
    pub fn fill(&mut self, bytes: &[u8], rows: &mut [u8]) -> usize
        requires room { length bytes.now ≤ length rows.old }
        requires wide { IsWide self.old.phase }
        ensures stands { (b r : List ℕ) → Stands self.old b r →
            Stands self.new (b ++ bytes.now) (r ++ take result rows.new) }
        ensures counted { (m : ℕ) → IsCounted self.old m → IsCounted self.new (m + result) }
        ensures wide { IsWide self.new.phase }
        ensures within { result ≤ length rows.old }
    {
        let mut at = 0;
        let mut n = 0;
        'pieces: while at < bytes.len() {
            let rest = &bytes[at..];
            match self.take(rest) {
                Piece::Head => at += 1,
                Piece::Rows(run) => {
                    put(rows, n, &rest[..run]);
                    at += run;
                    n += run;
                }
            }
        }
        n
    }

    /// The width and the height of all images, or the first offence, where no byte follows.
    pub fn finish(&self) -> Result<Size, Offence>
        ensures { (b r : List ℕ) → Stands self.now b r → IsAnswer result b r }
    {
        match self.phase {
            Phase::Between => Ok(Size {
                width: self.width,
                height: self.height,
            }),
            Phase::InRows { .. } => Err(Offence::Short),
            Phase::Stopped(offence) => Err(offence),
            Phase::AfterP | Phase::After4 | Phase::InWidth(_) | Phase::InHeight { .. } => {
                Err(Offence::Header)
            }
        }
    }

    /// The offence that was found, if any.
    pub fn offence(&self) -> Option<Offence>
        ensures found { result ≡ offence_in self.now.phase }
        ensures told { (b r : List ℕ) → Stands self.now b r →
            IfSome result (λ o. (text : List ℕ) → told (b ++ text) ≡ stops (so_far self.now r) o) }
    {
        match self.phase {
            Phase::Stopped(offence) => Some(offence),
            _ => None,
        }
    }

    /// Whether the images so far have another width than this, or are taller together.
    pub fn exceeds(&self, size: Size) -> bool
        ensures { result ≡ is_beyond self.now size }
    {
        self.height > size.height || self.height > 0 && self.width != size.width
    }
}
