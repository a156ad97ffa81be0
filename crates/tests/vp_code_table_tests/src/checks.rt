//! Bytes that are decoded, beside what they are.
use std::process::Abort;
use vp_code_tables::{Decoded, Decoder, Encoding};

/// A character, or none, and how many bytes it was written in.
pub type Unit = (Option<u32>, u8);

/// Bytes, and the units that they are.
pub type Row = (&'static [u8], &'static [Unit]);

/// How many units are known behind one that is given, or none where it isn't the one that is wanted.
fn counted(unit: Option<Decoded>, wants: &[Unit], known: usize) -> Option<usize> {
    let Some(unit) = unit else {
        return Some(known);
    };
    if known >= wants.len() {
        return None;
    }
    let (character, len) = wants[known];
    if unit.character != character || unit.len != len {
        return None;
    }
    Some(known + 1)
}

/// Whether bytes are these units.
fn are(encoding: Encoding, bytes: &[u8], wants: &[Unit]) -> bool {
    let mut decoder = Decoder::new(encoding);
    let mut known = 0;
    for byte in bytes {
        let given = decoder.take(*byte);
        let Some(cut) = counted(given.cut, wants, known) else {
            return false;
        };
        let Some(count) = counted(given.unit, wants, cut) else {
            return false;
        };
        known = count;
    }
    let given = decoder.finish();
    let Some(cut) = counted(given.cut, wants, known) else {
        return false;
    };
    counted(given.unit, wants, cut) == Some(wants.len())
}

/// Each row's bytes are its units; the number of the first row whose aren't is told.
pub fn each_is(rt: &impl Abort, encoding: Encoding, rows: &[Row]) {
    let mut wrong = None;
    for i in 0..rows.len() {
        let (bytes, wants) = rows[i];
        if !are(encoding, bytes, wants) {
            wrong = Some(i);
        }
    }
    assert_eq!(rt; wrong, None);
}
