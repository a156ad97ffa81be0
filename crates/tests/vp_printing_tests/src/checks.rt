//! What the tests compare, once for all of them.
use std::fmt::Debug;
use std::process::Abort;

/// Both are the same, or the test fails with what they are.
pub fn same<T: PartialEq + Debug>(rt: &impl Abort, what: &str, found: &T, want: &T) {
    assert_eq!(rt; found, want, "{what}");
}

/// Both are the same at this row, front or call, or the test fails with what they are.
pub fn same_at<T: PartialEq + Debug>(rt: &impl Abort, what: &str, n: usize, found: &T, want: &T) {
    assert_eq!(rt; found, want, "{what}, {n}");
}
