//! Escapes in the data of Data Matrix fields.
use crate::checks::same;
use vp_escapes::{MOST, unescaped};

/// Data, whether they are GS1 element strings, and the bytes that they stand for.
type Row = (&'static [u8], bool, &'static [u8]);

/// Behind the sign `_`.
static UNDERSCORES: [Row; 26] = [
    (b"", false, b""),
    (b"AB12~@", false, b"AB12~@"),
    (b"A__B", false, b"A_B"),
    (b"____", false, b"__"),
    (b"__1", false, b"_1"),
    (b"___1", false, b"_\x1d"),
    (b"_1", true, b""),
    (b"_1_1", true, b"\x1d"),
    (b"A_1B", false, b"A\x1dB"),
    (
        b"_1011234567890128_11725010110AB_121XY",
        true,
        b"011234567890128\x1d1725010110AB\x1d21XY",
    ),
    (b"_d065_d255_d000", false, b"A\xff\x00"),
    (b"_d0651", false, b"A1"),
    (b"_d256", false, b"_d256"),
    (b"_d06", false, b"_d06"),
    (b"_d06__d066", false, b"_d06_d066"),
    (b"_d06_d066", false, b"_d06B"),
    (b"_d6A5", false, b"_d6A5"),
    (b"_d", false, b"_d"),
    (b"_@_G_M_J_Z", false, b"\x00\x07\x0d\x0a\x1a"),
    (b"_[_\\_]_^", false, b"\x1b\x1c\x1d\x1e"),
    (b"A_", false, b"A_"),
    (b"A_ B", false, b"A_ B"),
    (b"_a_?_`", false, b"_a_?_`"),
    (b"_2001002003_0", false, b"_2001002003_0"),
    (b"_D065", false, b"\x04065"),
    (b"\xff_A\x80", false, b"\xff\x01\x80"),
];

/// Behind the sign `~`, where `_` is a byte like any other.
static TILDES: [Row; 7] = [
    (b"~1A~1B", true, b"A\x1dB"),
    (b"_1A~~B_", false, b"_1A~B_"),
    (b"~d126~d095", false, b"~_"),
    (b"~G_G", false, b"\x07_G"),
    (b"~^~_", false, b"\x1e~_"),
    (b"_d065~", false, b"_d065~"),
    (b"~~~@", false, b"~\x00"),
];

/// Behind the sign `A`, which is a control character's letter.
static LETTERS: [Row; 5] = [
    (b"AA", false, b"A"),
    (b"A1AAAB", true, b"A\x02"),
    (b"BAd066", false, b"BB"),
    (b"A@A", false, b"\x00A"),
    (b"AAAA1", false, b"AA1"),
];

/// Behind the signs `1` and `d`, which begin rules of their own.
static ONES: [Row; 4] = [
    (b"11", false, b"1"),
    (b"1111", false, b"11"),
    (b"1d0651G", false, b"A\x07"),
    (b"21", false, b"21"),
];

static DEES: [Row; 3] = [
    (b"dd065", false, b"d065"),
    (b"d1d1", true, b"\x1d"),
    (b"ddd065", false, b"dd065"),
];

/// The first row that stands for something else.
fn wrong_row(sign: u8, rows: &[Row]) -> Option<usize> {
    for i in 0..rows.len() {
        let (data, gs1, bytes) = rows[i];
        match unescaped(sign, data) {
            Some(found) => {
                if found.gs1 != gs1 || found.bytes.as_slice() != bytes {
                    return Some(i);
                }
            }
            None => return Some(i),
        }
    }
    None
}

/// What the rules' examples stand for, by sign.
#[test]
fn escapes(rt: HostRuntime) {
    same(&rt, &wrong_row(b'_', &UNDERSCORES), &None);
    same(&rt, &wrong_row(b'~', &TILDES), &None);
    same(&rt, &wrong_row(b'A', &LETTERS), &None);
    same(&rt, &wrong_row(b'1', &ONES), &None);
    same(&rt, &wrong_row(b'd', &DEES), &None);
}

/// How many bytes data stand for.
fn count(data: &[u8]) -> Option<usize> {
    match unescaped(b'_', data) {
        Some(found) => Some(found.bytes.len()),
        None => None,
    }
}

/// As many bytes as the largest symbol holds digits, and one more.
#[test]
fn most(rt: HostRuntime) {
    same(&rt, &MOST, &3116);
    let mut data = [b'0'; 3118];
    same(&rt, &count(&data[..3116]), &Some(3116));
    same(&rt, &count(&data[..3117]), &None);
    same(&rt, &count(&data), &None);
    data[0] = b'_';
    data[1] = b'_';
    same(&rt, &count(&data[..3117]), &Some(3116));
    same(&rt, &count(&data), &None);
    data[1] = b'1';
    same(&rt, &count(&data), &Some(3116));
    data[1] = b'2';
    same(&rt, &count(&data[..3117]), &None);
}
