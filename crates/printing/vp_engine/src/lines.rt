//! The lines of a listing: each is put out before the next begins, and stands behind its place or without it.
ghost use Rattle.std.specs.Prelude.{◌≡◌, ◌≤◌, ◌<◌, ◌+◌, ◌*◌, ◌++◌, ◌↔◌, [], IsTrue, flat_map, is_some, length, min, take, drop};
ghost use Rattle.arrayvec.specs.ArrayVec.{array_vec_len};
ghost use Rattle.vp_streams.specs.Count.{grown};
ghost use Rattle.vp_engine.specs.Lines.{listed_line, byte_lines, listed_bytes, longest_line, more_taken, no_lines};
ghost use Rattle.vp_esc.specs.Lines.{line_of};
ghost use Rattle.vp_esc.specs.declared.item.EscItem.TheVariants.{RasterByte};

use crate::offset::{LONGEST_BYTE_LINE, append_behind, put_byte_lines_after};
use arrayvec::ArrayVec;
use std::marker::Model;

/// The last lines that were begun, where in them the next byte is, how many lines there were, and how many
/// bytes were taken, where lines stand behind their places. Both counts stop at the greatest u64.
#[derive(Drop)]
pub struct Lines {
    text: ArrayVec<u8, 821>,
    at: usize,
    count: u64,
    taken: Option<u64>,
}

impl Model for Lines {
    ghost use Rattle.std.specs.Prelude.{drop, length, ◌≤◌};
    ghost use Rattle.vp_engine.specs.Lines.{Listed};

    ghost Value = { Listed };

    ghost view = { λ l. record { pending = drop l.at l.text.items; count = l.count; taken = l.taken } };

    ghost invariant = { λ l. l.at ≤ length l.text.items };
}

impl Lines {
    /// No line, of those behind their places or of those without.
    pub fn new(with_offsets: bool) -> Self
        ensures { result ≡ no_lines with_offsets }
    {
        Lines {
            text: ArrayVec::new(),
            at: 0,
            count: 0,
            taken: with_offsets.then_some(0),
        }
    }

    /// Begins anew: no line, of those behind their places or of those without, as it was.
    pub fn begin_anew(&mut self)
        ensures { self.new ≡ no_lines (is_some self.old.taken) }
    {
        self.text.clear();
        self.at = 0;
        self.count = 0;
        if self.taken.is_some() {
            self.taken = Some(0);
        }
    }

    /// So many bytes more were taken.
    pub fn advance(&mut self, n: usize)
        ensures { self.new ≡ record self.old { taken = more_taken self.old.taken n } }
    {
        if let Some(taken) = self.taken {
            self.taken = Some(taken.saturating_add(n as u64));
        }
    }

    /// Begins a line, where those before it are put out.
    pub fn begin(&mut self, line: &[u8])
        requires idle { self.old.pending ≡ [] }
        requires room { length line.now ≤ 800 }
        ensures pending { self.new.pending ≡ listed_line self.old.taken line.now }
        ensures count { self.new.count ≡ grown self.old.count 1 }
        ensures taken { self.new.taken ≡ self.old.taken }
    {
        self.text.clear();
        self.at = 0;
        self.count = self.count.saturating_add(1);
        append(&mut self.text, self.taken, line);
    }

    /// Begins the lines of up to three bytes of data that are given at once.
    pub fn begin_bytes(&mut self, bytes: &[u8])
        requires idle { self.old.pending ≡ [] }
        requires room { length bytes.now ≤ 3 }
        ensures pending { self.new.pending
            ≡ flat_map (λ b. listed_line self.old.taken (line_of (RasterByte b))) bytes.now }
        ensures count { self.new.count ≡ grown self.old.count (length bytes.now) }
        ensures taken { self.new.taken ≡ self.old.taken }
    {
        self.text.clear();
        self.at = 0;
        self.count = self.count.saturating_add(bytes.len() as u64);
        append_bytes(&mut self.text, self.taken, bytes);
    }

    /// Whether anything is still to be put out.
    pub fn pending(&self) -> bool
        ensures { IsTrue result ↔ (0 < length self.now.pending) }
    {
        self.at < self.text.len()
    }

    /// Puts out what is pending, as far as there is room.
    pub fn put(&mut self, output: &mut [u8]) -> usize
        ensures put { result ≡ min (length self.old.pending) (length output.old) }
        ensures bytes { output.new ≡ take result self.old.pending ++ drop result output.old }
        ensures rest { self.new.pending ≡ drop result self.old.pending }
        ensures count { self.new.count ≡ self.old.count }
        ensures taken { self.new.taken ≡ self.old.taken }
    {
        let rest = &self.text.as_slice()[self.at..];
        let n = rest.len().min(output.len());
        output[..n].copy_from_slice(&rest[..n]);
        self.at += n;
        n
    }

    /// For how many bytes of data there is room in so long an output, however long their lines are.
    pub fn room(&self, output: usize) -> usize
        ensures { longest_line self.now.taken * result ≤ output }
    {
        match self.taken {
            None => output / 8,
            Some(_) => output / LONGEST_BYTE_LINE,
        }
    }

    /// Takes bytes of data and puts out their whole lines, where nothing is pending and there is room for
    /// them, and gives how long they are.
    pub fn put_bytes(&mut self, bytes: &[u8], output: &mut [u8]) -> usize
        requires idle { self.old.pending ≡ [] }
        requires room { longest_line self.old.taken * length bytes.now ≤ length output.old }
        ensures put { result ≡ length (listed_bytes self.old.taken bytes.now) }
        ensures bytes { output.new ≡ listed_bytes self.old.taken bytes.now ++ drop result output.old }
        ensures pending { self.new.pending ≡ [] }
        ensures count { self.new.count ≡ grown self.old.count (length bytes.now) }
        ensures taken { self.new.taken ≡ more_taken self.old.taken (length bytes.now) }
    {
        let put = put_listed_bytes(self.taken, bytes, output);
        self.count = self.count.saturating_add(bytes.len() as u64);
        self.advance(bytes.len());
        put
    }

    /// How many lines there were.
    pub fn count(&self) -> u64
        ensures { result ≡ self.now.count }
    {
        self.count
    }
}

/// Adds a line, behind its place where it has one.
#[inline(always)]
fn append(text: &mut ArrayVec<u8, 821>, place: Option<u64>, line: &[u8])
    requires { array_vec_len text.old + length line.now ≤ 800 }
    ensures line { text.new.items ≡ text.old.items ++ listed_line place line.now }
    ensures room { array_vec_len text.new ≤ array_vec_len text.old + length line.now + 21 }
{
    match place {
        None => {
            let _ = text.try_extend_from_slice(line);
        }
        Some(offset) => append_behind(text, offset, line),
    }
}

/// Adds the lines of up to three bytes of data, each behind the same place where they have one.
fn append_bytes(text: &mut ArrayVec<u8, 821>, place: Option<u64>, bytes: &[u8])
    requires empty { text.old.items ≡ [] }
    requires room { length bytes.now ≤ 3 }
    ensures { text.new.items ≡ flat_map (λ b. listed_line place (line_of (RasterByte b))) bytes.now }
{
    for byte in bytes {
        append(text, place, byte_line(*byte));
    }
}

/// The lines of all bytes of data, one after the other.
static BYTE_LINES: [u8; 2048] = *b"\
    byte 00\nbyte 01\nbyte 02\nbyte 03\nbyte 04\nbyte 05\nbyte 06\nbyte 07\n\
    byte 08\nbyte 09\nbyte 0a\nbyte 0b\nbyte 0c\nbyte 0d\nbyte 0e\nbyte 0f\n\
    byte 10\nbyte 11\nbyte 12\nbyte 13\nbyte 14\nbyte 15\nbyte 16\nbyte 17\n\
    byte 18\nbyte 19\nbyte 1a\nbyte 1b\nbyte 1c\nbyte 1d\nbyte 1e\nbyte 1f\n\
    byte 20\nbyte 21\nbyte 22\nbyte 23\nbyte 24\nbyte 25\nbyte 26\nbyte 27\n\
    byte 28\nbyte 29\nbyte 2a\nbyte 2b\nbyte 2c\nbyte 2d\nbyte 2e\nbyte 2f\n\
    byte 30\nbyte 31\nbyte 32\nbyte 33\nbyte 34\nbyte 35\nbyte 36\nbyte 37\n\
    byte 38\nbyte 39\nbyte 3a\nbyte 3b\nbyte 3c\nbyte 3d\nbyte 3e\nbyte 3f\n\
    byte 40\nbyte 41\nbyte 42\nbyte 43\nbyte 44\nbyte 45\nbyte 46\nbyte 47\n\
    byte 48\nbyte 49\nbyte 4a\nbyte 4b\nbyte 4c\nbyte 4d\nbyte 4e\nbyte 4f\n\
    byte 50\nbyte 51\nbyte 52\nbyte 53\nbyte 54\nbyte 55\nbyte 56\nbyte 57\n\
    byte 58\nbyte 59\nbyte 5a\nbyte 5b\nbyte 5c\nbyte 5d\nbyte 5e\nbyte 5f\n\
    byte 60\nbyte 61\nbyte 62\nbyte 63\nbyte 64\nbyte 65\nbyte 66\nbyte 67\n\
    byte 68\nbyte 69\nbyte 6a\nbyte 6b\nbyte 6c\nbyte 6d\nbyte 6e\nbyte 6f\n\
    byte 70\nbyte 71\nbyte 72\nbyte 73\nbyte 74\nbyte 75\nbyte 76\nbyte 77\n\
    byte 78\nbyte 79\nbyte 7a\nbyte 7b\nbyte 7c\nbyte 7d\nbyte 7e\nbyte 7f\n\
    byte 80\nbyte 81\nbyte 82\nbyte 83\nbyte 84\nbyte 85\nbyte 86\nbyte 87\n\
    byte 88\nbyte 89\nbyte 8a\nbyte 8b\nbyte 8c\nbyte 8d\nbyte 8e\nbyte 8f\n\
    byte 90\nbyte 91\nbyte 92\nbyte 93\nbyte 94\nbyte 95\nbyte 96\nbyte 97\n\
    byte 98\nbyte 99\nbyte 9a\nbyte 9b\nbyte 9c\nbyte 9d\nbyte 9e\nbyte 9f\n\
    byte a0\nbyte a1\nbyte a2\nbyte a3\nbyte a4\nbyte a5\nbyte a6\nbyte a7\n\
    byte a8\nbyte a9\nbyte aa\nbyte ab\nbyte ac\nbyte ad\nbyte ae\nbyte af\n\
    byte b0\nbyte b1\nbyte b2\nbyte b3\nbyte b4\nbyte b5\nbyte b6\nbyte b7\n\
    byte b8\nbyte b9\nbyte ba\nbyte bb\nbyte bc\nbyte bd\nbyte be\nbyte bf\n\
    byte c0\nbyte c1\nbyte c2\nbyte c3\nbyte c4\nbyte c5\nbyte c6\nbyte c7\n\
    byte c8\nbyte c9\nbyte ca\nbyte cb\nbyte cc\nbyte cd\nbyte ce\nbyte cf\n\
    byte d0\nbyte d1\nbyte d2\nbyte d3\nbyte d4\nbyte d5\nbyte d6\nbyte d7\n\
    byte d8\nbyte d9\nbyte da\nbyte db\nbyte dc\nbyte dd\nbyte de\nbyte df\n\
    byte e0\nbyte e1\nbyte e2\nbyte e3\nbyte e4\nbyte e5\nbyte e6\nbyte e7\n\
    byte e8\nbyte e9\nbyte ea\nbyte eb\nbyte ec\nbyte ed\nbyte ee\nbyte ef\n\
    byte f0\nbyte f1\nbyte f2\nbyte f3\nbyte f4\nbyte f5\nbyte f6\nbyte f7\n\
    byte f8\nbyte f9\nbyte fa\nbyte fb\nbyte fc\nbyte fd\nbyte fe\nbyte ff\n";

/// The line of a byte among those of all.
fn line_among(lines: &'static [u8], byte: u8) -> &'static [u8]
    requires { 8 * byte + 8 ≤ length lines.now }
    ensures { result.now ≡ take 8 (drop (8 * byte) lines.now) }
{
    let at = 8 * usize::from(byte);
    &lines[at..at + 8]
}

/// The line of a byte of data.
pub fn byte_line(byte: u8) -> &'static [u8]
    ensures line { result.now ≡ line_of (RasterByte byte) }
    ensures long { length result.now ≡ 8 }
{
    line_among(&BYTE_LINES, byte)
}

/// Writes the lines of bytes of data to the front of the output, behind places where `taken` bytes are taken
/// before them, and gives how long they are.
fn put_listed_bytes(taken: Option<u64>, bytes: &[u8], output: &mut [u8]) -> usize
    requires { longest_line taken * length bytes.now ≤ length output.old }
    ensures put { result ≡ length (listed_bytes taken bytes.now) }
    ensures bytes { output.new ≡ listed_bytes taken bytes.now ++ drop result output.old }
{
    match taken {
        None => {
            put_byte_lines(bytes, output);
            8 * bytes.len()
        }
        Some(taken) => put_byte_lines_after(taken, bytes, output),
    }
}

/// Writes the lines of bytes of data to the front of the output, without places.
fn put_byte_lines(bytes: &[u8], output: &mut [u8])
    requires { 8 * length bytes.now ≤ length output.old }
    ensures { output.new ≡ byte_lines bytes.now ++ drop (8 * length bytes.now) output.old }
{
    for (i, byte) in bytes.iter().enumerate() {
        output[8 * i..8 * i + 8].copy_from_slice(byte_line(*byte));
    }
}
