//! A stack that is lent.
ghost use Rattle.std.specs.Prelude.{◌≡◌, ◌<◌, length, slice_set};

use py_scope::StackStack;
use std::alloc::{AllocError, Global};

fn count(stack: &mut StackStack<u32>) -> usize
    ensures count { result ≡ length stack.old }
    ensures kept { stack.new ≡ stack.old }
{
    stack.len()
}

/// Writes 9 in the place of the first value.
fn write_nine(stack: &mut StackStack<u32>)
    requires { 0 < length stack.old }
    ensures { stack.new ≡ slice_set stack.old 0 9 }
{
    stack.as_mut()[0] = 9;
}

/// Whether the stack is empty, its first value, and its last.
fn seen(stack: &mut StackStack<u32>) -> (bool, Option<u32>, Option<u32>)
    ensures kept { stack.new ≡ stack.old }
{
    let first = stack.as_ref().first().copied();
    (stack.is_empty(), first, stack.iter().last().copied())
}

/// Writes 8 in the place of the first value.
fn write_eight(stack: &mut StackStack<u32>)
    ensures kept { length stack.new ≡ length stack.old }
{
    if let Some(value) = stack.iter_mut().next() {
        *value = 8;
    }
}

/// What four calls over a stack answer which is lent with this value on top, each with the value that is taken back, and the
/// stack after them.
pub fn lent(alloc: Global, word: &str) -> Result<String, AllocError> {
    let Ok(value) = word.parse::<u32>() else {
        return String::from_str(alloc, "no number");
    };
    let mut stack = StackStack::new(alloc);
    let before = stack.is_empty();
    let counted = stack.with_append(value, count);
    let shown = stack.with_append(value, seen);
    let nine = stack.with_append(value, write_nine);
    let eight = stack.with_append(value, write_eight);
    let text = format!(in alloc; "{before} {counted:?} {shown:?} {nine:?} {eight:?}")?;
    let after = format!(in alloc; " {} {}", stack.len(), stack.is_empty())?;
    let mut line = text;
    line.push_str(after.as_str())?;
    Ok(line)
}
