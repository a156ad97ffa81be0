//! What the tests compare, once for all of them.
use std::fmt::Debug;
use std::process::Abort;

/// What is found is what is wanted.
pub fn same<T: PartialEq + Debug>(rt: &impl Abort, found: &T, want: &T) {
    assert_eq!(rt; found, want);
}

/// What is found by this name is what is wanted.
pub fn same_by<T: PartialEq + Debug>(rt: &impl Abort, name: &str, found: &T, want: &T) {
    assert_eq!(rt; found, want, "{name}");
}
