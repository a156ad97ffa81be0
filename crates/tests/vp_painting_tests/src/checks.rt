//! What the tests compare, once for all of them.
use std::alloc::Global;
use std::fmt::{Debug, Display};
use std::process::Abort;
use std::test::Fail;

/// What is found is what is wanted.
pub fn same<T: PartialEq + Debug>(rt: &impl Abort, found: &T, want: &T) {
    assert_eq!(rt; found, want);
}

/// A value is shown in these words.
pub fn reads<T: Display>(
    rt: &impl Abort,
    alloc: Global,
    value: &T,
    words: &str,
) -> Result<(), Fail> {
    let shown = format!(in alloc; "{value}")?;
    same(rt, &shown.as_str(), &words);
    Ok(())
}
