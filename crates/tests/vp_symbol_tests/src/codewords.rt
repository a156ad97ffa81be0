//! Check codewords: the standards' worked examples, and those that linear equations over the roots give.

ghost use Rattle.std.specs.Prelude.{◌<◌};

use vp_reed_solomon::{Field, check, generator};

/// The codewords have these check codewords.
fn has_check(field: Field, first: u32, words: &[u16], wanted: &[u16]) -> bool {
    let n = wanted.len();
    if n == 0 || n > 16 {
        return false;
    }
    let order = field.order();
    if !words.iter().all(|word| *word < order) {
        return false;
    }
    let mut low = [0; 16];
    let mut found = [0; 16];
    generator(field, first, &mut low[..n]);
    check(field, &low[..n], words, &mut found[..n]);
    &found[..n] == wanted
}

/// The generator has these coefficients below its highest.
fn has_generator(field: Field, first: u32, wanted: &[u16]) -> bool {
    if wanted.len() > 16 {
        return false;
    }
    let mut low = [0; 16];
    generator(field, first, &mut low[..wanted.len()]);
    &low[..wanted.len()] == wanted
}

#[test]
fn worked_examples(rt: HostRuntime) {
    // "01234567" in version 1-M of QR
    let words = [
        16, 32, 12, 86, 97, 128, 236, 17, 236, 17, 236, 17, 236, 17, 236, 17,
    ];
    let wanted = [165, 36, 212, 193, 237, 54, 199, 135, 44, 85];
    assert!(rt; has_check(Field::Gf256Qr, 0, &words, &wanted));
    // "123456" in Data Matrix
    let wanted = [114, 25, 5, 88, 102];
    assert!(rt; has_check(Field::Gf256, 1, &[142, 164, 186], &wanted));
    // PDF417 at level 1
    let words = [5, 453, 178, 121, 239];
    let wanted = [452, 327, 657, 619];
    assert!(rt; has_check(Field::Gf929, 1, &words, &wanted));
}

#[test]
fn found_by_the_roots(rt: HostRuntime) {
    assert!(rt; has_check(Field::Gf16, 1, &[1, 2], &[8, 4, 1, 0, 9]));
    let wanted = [32, 49, 31, 15, 12, 32, 39, 30];
    assert!(rt; has_check(Field::Gf64, 1, &[5, 42, 63, 17, 33], &wanted));
    let wanted = [412, 876, 707, 756, 86, 761];
    assert!(rt; has_check(Field::Gf1024, 1, &[1000, 1, 513, 77], &wanted));
    let wanted = [2469, 3200, 3939, 1284, 2321, 162];
    assert!(rt; has_check(Field::Gf4096, 1, &[4000, 1, 2049, 77], &wanted));
}

#[test]
fn generators(rt: HostRuntime) {
    // the standards' tables
    assert!(rt; has_generator(Field::Gf256, 1, &[62, 111, 15, 48, 228]));
    assert!(rt; has_generator(Field::Gf929, 1, &[917, 27]));
    assert!(rt; has_generator(Field::Gf929, 1, &[809, 723, 568, 522]));
}
