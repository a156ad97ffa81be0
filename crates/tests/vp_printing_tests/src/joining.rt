//! Images joined to one, between readers and a writer that give and take few or many bytes a call, where one
//! call fails, and where the second reader gives other bytes than the first.
use crate::checks::{same, same_at};
use crate::pieces::{reader, writer};
use crate::sheet::joined;
use std::alloc::{AllocError, Global};
use std::io::Write;
use std::process::Abort;
use std::test::Fail;
use vp_engine::Counted;
use vp_join::{JoinFault, join};

/// Which call of the first reader, of the second one and of the writer fails; the calls are counted from 1.
#[derive(Clone, Copy)]
struct Fails {
    first: usize,
    second: usize,
    write: usize,
}

const NEVER: Fails = Fails {
    first: 0,
    second: 0,
    write: 0,
};

/// What was answered and written.
#[derive(Drop)]
struct Ran {
    answer: Result<u64, JoinFault>,
    written: Vec<u8>,
}

/// Joins `first` and `second` where at most `most` bytes are read or written a call.
fn run(alloc: Global, first: &[u8], second: &[u8], most: usize, fails: Fails) -> Ran {
    let mut a = reader(first, most, fails.first);
    let mut b = reader(second, most, fails.second);
    let mut writer = writer(alloc, most, fails.write);
    let answer = join(&mut a, &mut b, &mut writer);
    Ran {
        answer,
        written: writer.into_inner().bytes,
    }
}

/// What was tried: words and a number.
type Tried = (&'static str, usize);

/// A run came to this answer and these bytes.
fn came_to(
    rt: &impl Abort,
    ran: &Ran,
    (what, n): Tried,
    answer: Result<u64, JoinFault>,
    bytes: &[u8],
) {
    let found = (ran.answer, ran.written.as_slice());
    same_at(rt, what, n, &found, &(answer, bytes));
}

/// A run came to this answer, and wrote a beginning of the three strips joined.
fn ended(rt: &impl Abort, ran: &Ran, tried: Tried, answer: Result<u64, JoinFault>) {
    let written = ran.written.len().min(THREE_JOINED.len());
    came_to(rt, ran, tried, answer, &THREE_JOINED[..written]);
}

/// The text comes to this answer and these bytes, whatever its pieces.
fn comes_to(
    rt: &impl Abort,
    alloc: Global,
    text: &[u8],
    want: Result<u64, JoinFault>,
    bytes: &[u8],
) {
    for most in [1, 2, 3, 7, 100_000] {
        let ran = run(alloc, text, text, most, NEVER);
        came_to(rt, &ran, ("bytes a call:", most), want, bytes);
    }
}

/// Three strips of four dots, the padding of which is set in part.
const THREE: &[u8] = b"P4\n4 1\n\xFFP4\n4 2\n\xA5\x1FP4\n4 1\n\x40";

const THREE_JOINED: &[u8] = b"P4\n4 4\n\xF0\xA0\x10\x40";

#[test]
fn images_are_joined(rt: HostRuntime) {
    comes_to(&rt, rt.alloc(), b"", Ok(0), b"");
    comes_to(&rt, rt.alloc(), b"P4\n8 1\n\x81", Ok(1), b"P4\n8 1\n\x81");
    comes_to(&rt, rt.alloc(), THREE, Ok(4), THREE_JOINED);
    comes_to(&rt, rt.alloc(), THREE_JOINED, Ok(4), THREE_JOINED);
}

/// A header, a feed of two rows, perhaps another header, and a partial cut.
fn fed_and_cut<'a>(
    alloc: Global,
    head: &'a [u8],
    between: &'a [u8],
) -> Result<Vec<u8>, AllocError> {
    let parts = [(head, 1), (b"\0", 144), (between, 1), (b"\xFF\0", 36)];
    joined(alloc, &parts)
}

#[test]
fn a_feed_and_a_cut_are_joined(rt: HostRuntime) -> Result<(), Fail> {
    let strips = fed_and_cut(rt.alloc(), b"P4\n576 2\n", b"P4\n576 1\n")?;
    let whole = fed_and_cut(rt.alloc(), b"P4\n576 3\n", b"")?;
    comes_to(&rt, rt.alloc(), &strips, Ok(3), &whole);
    Ok(())
}

/// A text, and why it is refused.
type Refused = (&'static [u8], JoinFault);

const REFUSED: &[Refused] = &[
    (b"P4\n8 1\n", JoinFault::Short),
    (b"P4\n8 2\n\x80", JoinFault::Short),
    (b"P4\n8 1\n\x80P4\n8 2\n\x80", JoinFault::Short),
    (b"P4\n08 1\n\x80", JoinFault::Header),
    (b"P4\n8 01\n\x80", JoinFault::Header),
    (b"P4\n8 0\n", JoinFault::Header),
    (b"P4\n0 8\n", JoinFault::Header),
    (b"P4\n8", JoinFault::Header),
    (b"P", JoinFault::Header),
    (b"P5\n8 1\n\x80", JoinFault::Header),
    (b"P4 8 1\n\x80", JoinFault::Header),
    (b"P4\n8  1\n\x80", JoinFault::Header),
    (b"P4\n8\n1\n\x80", JoinFault::Header),
    (b"P4\n1000000000 1\n", JoinFault::Header),
    (b"P4\n8 1\n\x80\n", JoinFault::Header),
    (b"P4\n8 1\n\x80P4\n16 1\n\x80\x00", JoinFault::Width),
    (b"P4\n8 1\n\x80P4\n16 999999999\n", JoinFault::Width),
    (b"P4\n8 1\n\x80P4\n8 999999999\n", JoinFault::TooTall),
    // the tallest image is no fault of its header
    (b"P4\n8 999999999\n\x80", JoinFault::Short),
];

fn refused() -> &'static [Refused] {
    REFUSED
}

#[test]
fn texts_are_refused(rt: HostRuntime) {
    for (text, fault) in refused() {
        comes_to(&rt, rt.alloc(), text, Err(*fault), b"");
    }
}

/// Adds a row of black dots, its padding set or not.
fn add_row(image: &mut Vec<u8>, width: u32, last: u8) -> Result<(), Fail> {
    for _ in 1..width.div_ceil(8) {
        image.push(0xFF)?;
    }
    Ok(image.push(last)?)
}

/// Adds an image of black dots, its padding set or not.
fn add_black(image: &mut Vec<u8>, width: u32, height: u32, last: u8) -> Result<(), Fail> {
    write!(image, "P4\n{width} {height}\n")?;
    for _ in 0..height {
        add_row(image, width, last)?;
    }
    Ok(())
}

/// An image of three rows and one of this height are joined.
fn a_size_is_joined(
    rt: &impl Abort,
    alloc: Global,
    width: u32,
    height: u32,
    last: u8,
) -> Result<(), Fail> {
    let mut text = Vec::new(alloc);
    add_black(&mut text, width, 3, 0xFF)?;
    add_black(&mut text, width, height, 0xFF)?;
    let mut want = Vec::new(alloc);
    add_black(&mut want, width, height.saturating_add(3), last)?;
    let ran = run(alloc, &text, &text, 5, NEVER);
    let answer = Ok(u64::from(height).saturating_add(3));
    came_to(rt, &ran, ("dots a row:", width as usize), answer, &want);
    Ok(())
}

/// The last byte of a row of black dots.
fn last_byte(width: u32) -> u8 {
    match width % 8 {
        0 => 0xFF,
        dots => !(0xFFu8 >> dots),
    }
}

#[test]
fn each_size_is_joined(rt: HostRuntime) -> Result<(), Fail> {
    for width in 1..21u32 {
        for height in 1..41u32 {
            a_size_is_joined(&rt, rt.alloc(), width, height, last_byte(width))?;
        }
    }
    Ok(())
}

/// The answer where call `call` is to fail, of `calls` that are made.
fn failing(call: usize, calls: usize, fault: JoinFault) -> Result<u64, JoinFault> {
    if call <= calls { Err(fault) } else { Ok(4) }
}

/// A run ended with `answer`, and where that is a fault the first `written` bytes are written.
fn failed(
    rt: &impl Abort,
    ran: &Ran,
    tried: Tried,
    answer: Result<u64, JoinFault>,
    written: usize,
) {
    let written = match answer {
        Ok(_) => THREE_JOINED.len(),
        Err(_) => written.min(THREE_JOINED.len()),
    };
    came_to(rt, ran, tried, answer, &THREE_JOINED[..written]);
}

fn first_read_fails(rt: &impl Abort, alloc: Global, call: usize) {
    let fails = Fails {
        first: call,
        ..NEVER
    };
    let ran = run(alloc, THREE, THREE, 1, fails);
    let answer = failing(call, THREE.len() + 1, JoinFault::Read);
    failed(rt, &ran, ("read", call), answer, 0);
}

fn second_read_fails(rt: &impl Abort, alloc: Global, call: usize) {
    let fails = Fails {
        second: call,
        ..NEVER
    };
    let ran = run(alloc, THREE, THREE, 1, fails);
    let answer = failing(call, THREE.len() + 1, JoinFault::Read);
    ended(rt, &ran, ("second read", call), answer);
}

fn write_fails(rt: &impl Abort, alloc: Global, call: usize) {
    let fails = Fails {
        write: call,
        ..NEVER
    };
    let ran = run(alloc, THREE, THREE, 1, fails);
    let answer = failing(call, THREE_JOINED.len(), JoinFault::Write);
    failed(rt, &ran, ("write", call), answer, call.wrapping_sub(1));
}

#[test]
fn each_call_fails_in_turn(rt: HostRuntime) {
    for call in 1..60usize {
        first_read_fails(&rt, rt.alloc(), call);
        second_read_fails(&rt, rt.alloc(), call);
        write_fails(&rt, rt.alloc(), call);
    }
}

#[test]
fn a_writer_that_takes_nothing_has_failed(rt: HostRuntime) {
    let mut a = Counted::new(THREE);
    let mut b = Counted::new(THREE);
    let mut writer = writer(rt.alloc(), 0, 0);
    let answer = join(&mut a, &mut b, &mut writer);
    same(&rt, "answer", &answer, &Err(JoinFault::Write));
}

/// Another width; and the same rows in other images, which are no difference.
#[test]
fn the_second_reader_differs(rt: HostRuntime) {
    let wide = b"P4\n16 1\n\x80\x00";
    let ran = run(rt.alloc(), b"P4\n8 1\n\x80", wide, 100, NEVER);
    let begun = b"P4\n8 1\n";
    came_to(&rt, &ran, ("width", 16), Err(JoinFault::Differ), begun);
    let ran = run(rt.alloc(), THREE, THREE_JOINED, 3, NEVER);
    came_to(&rt, &ran, ("images", 1), Ok(4), THREE_JOINED);
    let ran = run(rt.alloc(), b"", THREE, 3, NEVER);
    came_to(&rt, &ran, ("images", 3), Err(JoinFault::Differ), b"");
}

/// The second reader gives other bytes than the first one.
fn differs(rt: &impl Abort, alloc: Global, second: &[u8], most: usize, tried: Tried) {
    let ran = run(alloc, THREE, second, most, NEVER);
    ended(rt, &ran, tried, Err(JoinFault::Differ));
}

#[test]
fn the_second_reader_gives_fewer_bytes(rt: HostRuntime) {
    for most in [1, 4, 100] {
        for n in 0..THREE.len() {
            differs(&rt, rt.alloc(), &THREE[..n], most, ("bytes:", n));
        }
    }
}

#[test]
fn the_second_reader_gives_more_bytes(rt: HostRuntime) -> Result<(), Fail> {
    for most in [1, 4, 100] {
        for more in [b"P".as_slice(), b"\n", b"P4\n4 1\n\xFF"] {
            let text = joined(rt.alloc(), &[(THREE, 1), (more, 1)])?;
            differs(&rt, rt.alloc(), &text, most, ("more bytes:", more.len()));
        }
    }
    Ok(())
}

/// What the first one's header and the rows of the second one begin, which is the first one with byte n
/// changed: behind a third row that it says it has in its second image it stops, and that is the next
/// header's `P`.
fn changed_at(n: usize) -> &'static [u8] {
    match n {
        13 => b"P4\n4 4\n\xF0\xA0\x10\x50",
        _ => THREE_JOINED,
    }
}

/// 7, 15, 16 and 24 are bytes of rows, of which only padding is changed; else the readers differ, and what is
/// written begins as it should.
fn is_changed_at(rt: &impl Abort, ran: &Ran, n: usize) {
    if n == 7 || n == 15 || n == 16 || n == 24 {
        came_to(rt, ran, ("byte", n), Ok(4), THREE_JOINED);
    } else {
        let text = changed_at(n);
        let written = ran.written.len().min(text.len());
        came_to(
            rt,
            ran,
            ("byte", n),
            Err(JoinFault::Differ),
            &text[..written],
        );
    }
}

fn another_byte_differs(rt: &impl Abort, alloc: Global, n: usize, most: usize) -> Result<(), Fail> {
    let mut text = joined(alloc, &[(THREE, 1)])?;
    if let Some(byte) = text.get_mut(n) {
        *byte ^= 1;
    }
    is_changed_at(rt, &run(alloc, THREE, &text, most, NEVER), n);
    Ok(())
}

#[test]
fn the_second_reader_gives_another_byte(rt: HostRuntime) -> Result<(), Fail> {
    for most in [1, 4, 100] {
        for n in 0..THREE.len() {
            another_byte_differs(&rt, rt.alloc(), n, most)?;
        }
    }
    Ok(())
}
