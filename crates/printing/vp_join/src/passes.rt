//! The passes over two readers of the same bytes: the first checks all, the second copies.
ghost use Rattle.std.specs.Prelude.{◌≡◌, ◌≤◌, ◌<◌, ◌+◌, ◌*◌, ◌-◌, ◌++◌, ℕ, List, length, take, Some, Ok, Err, IfOk, IfSome, MatchBool, OnOk};
ghost use Rattle.vp_dots.specs.Images.{row_bytes};
ghost use Rattle.vp_streams.specs.Count.{one_more_if};
ghost use Rattle.vp_join.specs.Strips.{without_padding};
ghost use Rattle.vp_join.specs.Standing.{Stands, IsCounted, IsWide};
ghost use Rattle.vp_join.specs.Passes.{Tells, Measures, Follows, Copies, HasCalled, GivesRows, Joins, IsExactly, HaveCalled, HasFailed, after_calls, is_read_fault, is_write_fault};

use crate::fault::JoinFault;
use crate::padding::clear_padding;
use crate::reading::{Reading, Size};
use crate::writing::ImageWriter;
use vp_streams::Source;

/// How many bytes are read at once.
const ROOM: usize = 32768;

/// How often a call reads at most.
const MOST_READS: u32 = 1_000_000_000;

/// The size of all images together, and how many reads it took to learn it.
#[derive(Clone, Copy)]
pub struct Measured {
    pub size: Size,
    pub reads: u32,
}

/// The size of all images that a reader gives, or the first offence.
fn measure<S: Source>(reader: &mut S) -> Result<Measured, JoinFault>
    ensures measures { Measures (S.remaining reader.old) (S.remaining reader.new) result }
    ensures reads { HasCalled MOST_READS (S.reads reader.old) (S.reads reader.new)
        (result ≡ Err JoinFault.TooManyTurns) }
    ensures reads_told { IfOk result (λ m.
        (m.reads ≤ MOST_READS) × (S.reads reader.new ≡ after_calls (S.reads reader.old) m.reads)) }
    ensures failed { S.failed_reads reader.new
        ≡ one_more_if (is_read_fault result) (S.failed_reads reader.old) }
{
    let mut reading = Reading::new();
    let mut input = [0u8; ROOM];
    'turns: for turn in 0..MOST_READS {
        let Ok(n) = reader.read(&mut input) else {
            return Err(JoinFault::Read);
        };
        if n == 0 {
            return match reading.finish() {
                Ok(size) => Ok(Measured {
                    size,
                    reads: turn + 1,
                }),
                Err(offence) => Err(offence.fault()),
            };
        }
        reading.skim(&input[..n]);
        if let Some(offence) = reading.offence() {
            return Err(offence.fault());
        }
    }
    Err(JoinFault::TooManyTurns)
}

/// How many bytes of rows stand among the next bytes of the second reader, and these without padding; none
/// where it differs.
fn next_rows(
    reading: &mut Reading,
    size: Size,
    given: u64,
    bytes: &[u8],
    rows: &mut [u8],
) -> Option<usize>
    requires room { length bytes.now ≤ length rows.old }
    requires wide { IsWide reading.old.phase }
    requires counted { IsCounted reading.old given }
    requires none { size.width ≡ 0 → size.height ≡ 0 }
    ensures rows { (b r : List ℕ) → Stands reading.old b r → given ≡ length r →
        GivesRows result reading.new size b r bytes.now rows.new }
    ensures wide { IsWide reading.new.phase }
    ensures within { IfSome result (λ m.
        (m ≤ length rows.new) × (given + m ≤ size.height * row_bytes size.width)
        × IsCounted reading.new (given + m)) }
{
    let m = reading.fill(bytes, rows);
    if let Some(_) = reading.offence() {
        return None;
    }
    if reading.exceeds(size) {
        return None;
    }
    clear_padding(size.width, given, &mut rows[..m]);
    Some(m)
}

/// Whether all that the second reader told is images of this size.
fn is_of_size(reading: &Reading, size: Size) -> bool
    ensures { (b r : List ℕ) → Stands reading.now b r → MatchBool result (Tells b size) (Tells b size → ⊥) }
{
    let Ok(told) = reading.finish() else {
        return false;
    };
    if told.width != size.width {
        return false;
    }
    told.height == size.height
}

/// Writes the rows of all that a reader gives, without padding, where they are images of this size.
fn copy<T: Source, W: ImageWriter>(
    reader: &mut T,
    writer: &mut W,
    size: Size,
    most: u32,
) -> Result<(), JoinFault>
    requires none { size.width ≡ 0 → size.height ≡ 0 }
    requires awaits { W.awaits writer.old (size.height * row_bytes size.width) }
    ensures copies { Copies (T.remaining reader.old) (T.remaining reader.new)
        (λ bytes. Follows W.has writer.old bytes writer.new) size result }
    ensures awaits { OnOk result (W.awaits writer.new 0) }
    ensures reads { HasCalled most (T.reads reader.old) (T.reads reader.new)
        (result ≡ Err JoinFault.TooManyTurns) }
    ensures failed_reads { T.failed_reads reader.new
        ≡ one_more_if (is_read_fault result) (T.failed_reads reader.old) }
    ensures failed_writes { W.failures writer.new
        ≡ one_more_if (is_write_fault result) (W.failures writer.old) }
{
    let mut reading = Reading::new();
    let mut input = [0u8; ROOM];
    let mut rows = [0u8; ROOM];
    let mut given = 0;
    'turns: for _turn in 0..most {
        let Ok(n) = reader.read(&mut input) else {
            return Err(JoinFault::Read);
        };
        if n == 0 {
            if is_of_size(&reading, size) {
                return Ok(());
            }
            return Err(JoinFault::Differ);
        }
        let Some(m) = next_rows(&mut reading, size, given, &input[..n], &mut rows) else {
            return Err(JoinFault::Differ);
        };
        given += m as u64;
        writer.put(&rows[..m])?;
    }
    Err(JoinFault::TooManyTurns)
}

/// Writes the one image with the rows of all images that two readers of the same bytes tell, and gives its
/// height in dots; nothing, and 0, where there is no image. The images have one width, and stand one after
/// the other as raw pbm (netpbm), as a printer writes them; padding bits, whatever they are, are written as
/// 0. All is checked before anything is written. It reads at most 1,000,000,000 times, and takes no memory.
/// A `Sink` is given the image as raw pbm.
pub fn join<S: Source, T: Source, W: ImageWriter>(
    first: &mut S,
    second: &mut T,
    writer: &mut W,
) -> Result<u64, JoinFault>
    ensures joins { Joins (S.remaining first.old) (S.remaining first.new)
        (T.remaining second.old) (T.remaining second.new)
        (λ bytes. W.has writer.old bytes writer.new) W.too_wide result }
    ensures exact { (text : List ℕ) → S.remaining first.old ≡ Some text → T.remaining second.old ≡ Some text →
        IsExactly text (λ bytes. W.has writer.old bytes writer.new) W.too_wide result }
    ensures awaits { OnOk result (W.awaits writer.new 0) }
    ensures reads { HaveCalled MOST_READS (S.reads first.old) (S.reads first.new)
        (T.reads second.old) (T.reads second.new)
        (result ≡ Err JoinFault.TooManyTurns) }
    ensures failed_reads { HasFailed (S.failed_reads first.old) (S.failed_reads first.new)
        (T.failed_reads second.old) (T.failed_reads second.new) (is_read_fault result) }
    ensures failed_writes { W.failures writer.new
        ≡ one_more_if (is_write_fault result) (W.failures writer.old) }
{
    let measured = measure(first)?;
    if writer.is_too_wide(measured.size.width) {
        return Err(JoinFault::TooWide);
    }
    writer.begin(measured.size)?;
    let most = MOST_READS - measured.reads;
    copy(second, writer, measured.size, most)?;
    Ok(measured.size.height as u64)
}
