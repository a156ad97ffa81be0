//! What the tests compare, once for all of them.
use std::fmt::Debug;
use std::process::Abort;

/// What was found is what is wanted.
pub fn same<T: PartialEq + Debug>(rt: &impl Abort, found: &T, want: &T) {
    assert_eq!(rt; found, want);
}

/// Each of these holds; the number of the first one that doesn't is told.
pub fn all_hold(rt: &impl Abort, found: &[bool]) {
    let wrong = found.iter().position(|holds| !*holds);
    assert_eq!(rt; wrong, None);
}
