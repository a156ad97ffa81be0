//! Room of an allocator that is taken once: for just as many values as are asked for.
// std doesn't promise how much `vec!` and `Vec::from_slice` take.
ghost use Rattle.std.specs.Prelude.{◌≡◌, ◌+◌, ◌≤◌, ◌++◌, length, replicate, vec_capacity, IfOk};

use core::mem::replace_with;
use std::alloc::{AllocError, Allocator};

/// As many times the same value.
pub fn filled<T: Copy, A: Allocator>(
    alloc: A,
    count: usize,
    value: T,
) -> Result<Vec<T, A>, AllocError>
    ensures items { IfOk result (λ values. values.items ≡ replicate count value) }
    ensures room { IfOk result (λ values. vec_capacity values ≡ count) }
{
    let mut values = Vec::with_capacity(alloc, count)?;
    for _ in 0..count {
        values.push_reserved(value);
    }
    Ok(values)
}

/// The same values again.
pub fn copied<T: Copy, A: Allocator>(alloc: A, from: &[T]) -> Result<Vec<T, A>, AllocError>
    ensures items { IfOk result (λ values. values.items ≡ from.now) }
    ensures room { IfOk result (λ values. vec_capacity values ≡ length from.now) }
{
    let mut values = Vec::with_capacity(alloc, from.len())?;
    append_reserved(&mut values, from);
    Ok(values)
}

/// Appends values in room that there is.
pub(crate) fn append_reserved<T: Copy, A: Allocator>(values: &mut Vec<T, A>, more: &[T])
    requires { length values.old.items + length more.now ≤ vec_capacity values.old }
    ensures items { values.new.items ≡ values.old.items ++ more.now }
    ensures room { vec_capacity values.new ≡ vec_capacity values.old }
{
    // In hand its place and length stay in registers.
    replace_with(values, more, with_more)
}

fn with_more<T: Copy, A: Allocator>(mut values: Vec<T, A>, more: &[T]) -> (Vec<T, A>, ())
    requires { length values.items + length more.now ≤ vec_capacity values }
    ensures items { result.0.items ≡ values.items ++ more.now }
    ensures room { vec_capacity result.0 ≡ vec_capacity values }
{
    for value in more {
        values.push_reserved(*value);
    }
    (values, ())
}
