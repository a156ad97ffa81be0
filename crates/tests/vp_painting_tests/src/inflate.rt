//! Unpacking: streams that Python's zlib made, and streams that break each rule, as zlib says of them too.

use crate::checks::same;
use std::alloc::Global;
use std::process::Abort;
use std::test::Fail;
use vp_inflate::{Fault, Inflate, State};

static WORDS: [u8; 44] = *b"Labels, labels, labels and receipts: labels.";

static LETTERS: [u8; 200] = [
    101, 102, 32, 97, 104, 100, 97, 99, 98, 102, 104, 100, 103, 32, 98, 100, 97, 100, 103, 101, 99,
    103, 99, 98, 99, 104, 99, 99, 97, 97, 100, 100, 99, 99, 101, 102, 100, 32, 100, 99, 100, 103,
    101, 97, 102, 103, 99, 99, 101, 98, 102, 101, 97, 102, 98, 101, 102, 101, 104, 102, 99, 104,
    104, 99, 97, 101, 97, 102, 103, 97, 32, 103, 102, 103, 97, 104, 97, 99, 100, 98, 100, 104, 102,
    32, 102, 32, 101, 104, 98, 102, 101, 97, 103, 98, 100, 102, 32, 102, 99, 102, 101, 32, 98, 101,
    102, 101, 99, 98, 99, 101, 104, 99, 97, 98, 32, 103, 97, 100, 102, 101, 104, 103, 99, 97, 97,
    104, 102, 100, 99, 99, 103, 98, 99, 103, 102, 99, 97, 103, 101, 99, 104, 99, 32, 104, 104, 102,
    104, 101, 101, 104, 103, 99, 98, 103, 32, 99, 104, 102, 99, 98, 104, 101, 32, 32, 32, 102, 98,
    102, 97, 101, 102, 32, 101, 104, 101, 101, 102, 99, 97, 104, 32, 101, 102, 101, 104, 101, 32,
    102, 102, 101, 102, 103, 102, 99, 104, 102, 102, 32, 99, 32,
];

// The words at level 0.
static STORED: [u8; 55] = [
    120, 1, 1, 44, 0, 211, 255, 76, 97, 98, 101, 108, 115, 44, 32, 108, 97, 98, 101, 108, 115, 44,
    32, 108, 97, 98, 101, 108, 115, 32, 97, 110, 100, 32, 114, 101, 99, 101, 105, 112, 116, 115,
    58, 32, 108, 97, 98, 101, 108, 115, 46, 92, 189, 15, 159,
];

// The words at level 1.
static FAST: [u8; 35] = [
    120, 1, 243, 73, 76, 74, 205, 41, 214, 81, 200, 65, 161, 21, 18, 243, 82, 20, 138, 82, 147, 83,
    51, 11, 74, 138, 173, 160, 146, 122, 0, 92, 189, 15, 159,
];

// The words by the fixed codes.
static FIXED: [u8; 35] = [
    120, 1, 243, 73, 76, 74, 205, 41, 214, 81, 200, 65, 161, 21, 18, 243, 82, 20, 138, 82, 147, 83,
    51, 11, 74, 138, 173, 160, 130, 122, 0, 92, 189, 15, 159,
];

// The letters at level 9: codes of their own.
static DYNAMIC: [u8; 111] = [
    120, 218, 21, 141, 65, 17, 0, 64, 8, 2, 171, 80, 77, 17, 164, 127, 130, 243, 62, 142, 34, 44,
    50, 42, 83, 108, 103, 22, 61, 53, 43, 46, 155, 33, 171, 102, 72, 121, 48, 60, 185, 188, 119,
    181, 111, 105, 89, 49, 19, 214, 151, 11, 123, 35, 197, 233, 137, 97, 40, 223, 182, 61, 119,
    208, 194, 247, 31, 83, 231, 111, 108, 205, 165, 247, 240, 241, 241, 183, 185, 102, 93, 109,
    136, 196, 209, 127, 246, 130, 215, 208, 17, 0, 183, 75, 159, 42, 157, 51, 248, 237, 130, 45,
    95, 50, 54, 136, 7, 67, 3, 73, 137,
];

// A stream, and the front of another.
static TWICE: [u8; 40] = [
    120, 1, 243, 73, 76, 74, 205, 41, 214, 81, 200, 65, 161, 21, 18, 243, 82, 20, 138, 82, 147, 83,
    51, 11, 74, 138, 173, 160, 130, 122, 0, 92, 189, 15, 159, 120, 1, 243, 73, 76,
];

/// What packed bytes stand for, taken in pieces and put out where there is room for up to seven more each time,
/// and how they end.
fn unpacked(alloc: Global, packed: &[u8], piece: usize) -> Result<(Vec<u8>, State), Fail> {
    let mut inflate = Inflate::new();
    let mut room = [0; 300];
    let mut filled = 0;
    let mut left = packed;
    let mut state = State::More;
    for _ in 0..1000 {
        let n = left.len().min(piece);
        let done = filled.min(300);
        let end = (done + 7).min(300);
        let step = inflate.step(&left[..n], &mut room[..end], done);
        filled = step.filled;
        left = &left[step.taken..];
        state = step.state;
        if state != State::Full && (state != State::More || left.is_empty()) {
            break;
        }
    }
    let mut all = Vec::new(alloc);
    all.extend_from_slice(&room[..filled.min(300)])?;
    Ok((all, state))
}

/// Packed bytes stand for these, and end the stream, in pieces of any size.
fn unpack_to(rt: &impl Abort, alloc: Global, packed: &[u8], want: &[u8]) -> Result<(), Fail> {
    for piece in 1..10 {
        let (found, state) = unpacked(alloc, packed, piece)?;
        same(rt, &found.as_slice(), &want);
        same(rt, &state, &State::Ended);
    }
    Ok(())
}

/// Packed bytes break a rule, in pieces of any size.
fn break_by(rt: &impl Abort, alloc: Global, packed: &[u8], fault: Fault) -> Result<(), Fail> {
    for piece in 1..10 {
        let (_, state) = unpacked(alloc, packed, piece)?;
        same(rt, &state, &State::Broken(fault));
    }
    Ok(())
}

#[test]
fn blocks_of_each_type(rt: HostRuntime) -> Result<(), Fail> {
    unpack_to(&rt, rt.alloc(), &STORED, &WORDS)?;
    unpack_to(&rt, rt.alloc(), &FAST, &WORDS)?;
    unpack_to(&rt, rt.alloc(), &FIXED, &WORDS)?;
    unpack_to(&rt, rt.alloc(), &DYNAMIC, &LETTERS)
}

#[test]
fn a_front_needs_more(rt: HostRuntime) -> Result<(), Fail> {
    for n in 0..FAST.len() {
        let (_, state) = unpacked(rt.alloc(), &FAST[..n], n + 1)?;
        same(&rt, &state, &State::More);
    }
    Ok(())
}

/// Behind the end nothing is taken.
#[test]
fn once_ended(rt: HostRuntime) {
    let mut inflate = Inflate::new();
    let mut room = [0; 100];
    let step = inflate.step(&FIXED, &mut room, 0);
    same(&rt, &step.state, &State::Ended);
    same(&rt, &step.filled, &WORDS.len());
    let step = inflate.step(&FIXED, &mut room, step.filled);
    same(&rt, &step.state, &State::Ended);
    same(&rt, &step.taken, &0);
}

/// What stands behind a stream isn't taken.
#[test]
fn behind_the_end(rt: HostRuntime) {
    let mut inflate = Inflate::new();
    let mut room = [0; 300];
    let step = inflate.step(&TWICE, &mut room, 0);
    same(&rt, &step.state, &State::Ended);
    same(&rt, &step.taken, &FIXED.len());
}

#[test]
fn rules_of_header(rt: HostRuntime) -> Result<(), Fail> {
    let alloc = rt.alloc();
    let packed = [120, 157];
    break_by(&rt, alloc, &packed, Fault::HeaderCheck)?;
    let packed = [119, 9];
    break_by(&rt, alloc, &packed, Fault::Method)?;
    let packed = [136, 28];
    break_by(&rt, alloc, &packed, Fault::WindowSize)?;
    let packed = [120, 32];
    break_by(&rt, alloc, &packed, Fault::Dictionary)
}

#[test]
fn rules_of_blocks(rt: HostRuntime) -> Result<(), Fail> {
    let alloc = rt.alloc();
    let packed = [120, 156, 7];
    break_by(&rt, alloc, &packed, Fault::BlockType)?;
    let packed = [120, 156, 1, 2, 0, 2, 0];
    break_by(&rt, alloc, &packed, Fault::StoredLength)?;
    let packed = [120, 1, 1, 3, 0, 252, 255, 97, 98, 99, 2, 77, 1, 38];
    break_by(&rt, alloc, &packed, Fault::Checksum)
}

#[test]
fn rules_of_tables(rt: HostRuntime) -> Result<(), Fail> {
    let alloc = rt.alloc();
    let packed = [120, 156, 245, 0, 0];
    break_by(&rt, alloc, &packed, Fault::TooManyCodes)?;
    let packed = [120, 156, 5, 0, 146, 0];
    break_by(&rt, alloc, &packed, Fault::LengthCode)?;
    let packed = [120, 156, 5, 0, 2, 36];
    break_by(&rt, alloc, &packed, Fault::Repeat)?;
    let packed = [120, 156, 5, 0, 128, 228, 127, 27];
    break_by(&rt, alloc, &packed, Fault::NoEnd)?;
    let packed = [120, 156, 5, 192, 1, 9, 0, 0, 0, 128, 160, 255, 175, 3];
    break_by(&rt, alloc, &packed, Fault::LiteralCode)?;
    let packed = [120, 156, 5, 192, 1, 9, 0, 0, 0, 128, 32, 255, 175, 54];
    break_by(&rt, alloc, &packed, Fault::DistanceCode)
}

#[test]
fn rules_of_symbols(rt: HostRuntime) -> Result<(), Fail> {
    let alloc = rt.alloc();
    let packed = [
        120, 156, 5, 192, 1, 9, 0, 0, 0, 128, 160, 255, 175, 229, 255, 15,
    ];
    break_by(&rt, alloc, &packed, Fault::NoCode)?;
    let packed = [120, 156, 27, 3];
    break_by(&rt, alloc, &packed, Fault::LengthSymbol)?;
    let packed = [120, 156, 75, 4, 62];
    break_by(&rt, alloc, &packed, Fault::DistanceSymbol)?;
    let packed = [120, 156, 75, 4, 66];
    break_by(&rt, alloc, &packed, Fault::TooFarBack)
}
