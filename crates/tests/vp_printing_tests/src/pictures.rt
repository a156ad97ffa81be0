//! Joined images as PNG files, between readers and a writer that give and take few or many bytes a call, and where a
//! write fails.
use crate::checks::same_at;
use crate::pieces::{reader, writer};
use std::alloc::Global;
use std::process::Abort;
use vp_join::JoinFault;
use vp_picture::{PngWriter, join_png};

/// 8 dots, the last four of them black.
const TEXT: &[u8] = b"P4\n8 1\n\x0F";

/// Its file, whose tokens were found by hand and whose sums are zlib's.
const FILE: [u8; 88] = [
    137, 80, 78, 71, 13, 10, 26, 10, 0, 0, 0, 13, 73, 72, 68, 82, 0, 0, 0, 8, 0, 0, 0, 1, 1, 0, 0,
    0, 0, 203, 123, 210, 238, 0, 0, 0, 9, 112, 72, 89, 115, 0, 0, 31, 64, 0, 0, 31, 64, 1, 147,
    168, 91, 167, 0, 0, 0, 10, 73, 68, 65, 84, 120, 1, 99, 248, 0, 0, 0, 242, 0, 241, 167, 43, 184,
    143, 0, 0, 0, 0, 73, 69, 78, 68, 174, 66, 96, 130,
];

/// Where at most so many bytes are read or written a call, and one write fails, a text comes to this answer and
/// these bytes.
fn comes_to(
    rt: &impl Abort,
    alloc: Global,
    text: &[u8],
    (most, fails): (usize, usize),
    answer: Result<u64, JoinFault>,
    bytes: &[u8],
) {
    let mut first = reader(text, most, 0);
    let mut second = reader(text, most, 0);
    let mut picture = PngWriter::new(writer(alloc, most, fails));
    let found = join_png(&mut first, &mut second, &mut picture);
    let written = picture.into_output().into_inner().bytes;
    let found = (found, written.as_slice());
    same_at(rt, "bytes a call:", most, &found, &(answer, bytes));
}

#[test]
fn pictures(rt: HostRuntime) {
    for most in [1, 7, 100_000] {
        comes_to(&rt, rt.alloc(), TEXT, (most, 0), Ok(1), &FILE);
        comes_to(&rt, rt.alloc(), b"", (most, 0), Ok(0), b"");
        let short = Err(JoinFault::Short);
        comes_to(&rt, rt.alloc(), &TEXT[..7], (most, 0), short, b"");
    }
}

/// 1,665 dots are one too many; their rows are missing, which is told first.
#[test]
fn wide_images(rt: HostRuntime) {
    let mut row = [0; 220];
    row[..10].copy_from_slice(b"P4\n1665 1\n");
    let wide = Err(JoinFault::TooWide);
    comes_to(&rt, rt.alloc(), &row[..219], (100, 0), wide, b"");
    let short = Err(JoinFault::Short);
    comes_to(&rt, rt.alloc(), &row[..218], (100, 0), short, b"");
}

#[test]
fn each_write_fails_in_turn(rt: HostRuntime) {
    for call in 1..89usize {
        let written = &FILE[..call - 1];
        let fault = Err(JoinFault::Write);
        comes_to(&rt, rt.alloc(), TEXT, (1, call), fault, written);
    }
}
