//! Building nodes on the stack.
ghost use Rattle.typst_c.specs.Calls.{Does};
ghost use Rattle.typst_session.specs.Building.{PushesLeaf, PushesError, PushesCopy, Wraps, Warns, Hints, Pops};

use crate::handle::Handle;
use crate::told::{NOT_MADE, status};
use std::alloc::Global;

/// Puts a leaf on the stack, by the number of its kind and its text.
#[unsafe(no_mangle)]
pub extern "C" fn typst_push_leaf(alloc: Global, handle: &mut Handle, kind: u32, text: &[u8]) -> u32
    ensures { Does (PushesLeaf kind text.now) handle.old.at.value result handle.new.at.value }
{
    let Some(mut session) = handle.take(alloc) else {
        return NOT_MADE;
    };
    let outcome = session.push_leaf(alloc, kind, text);
    handle.put(session);
    status(outcome)
}

/// Puts an error on the stack, by its message and its text.
#[unsafe(no_mangle)]
pub extern "C" fn typst_push_error(
    alloc: Global,
    handle: &mut Handle,
    message: &[u8],
    text: &[u8],
) -> u32
    ensures { Does (PushesError message.now text.now) handle.old.at.value result handle.new.at.value }
{
    let Some(mut session) = handle.take(alloc) else {
        return NOT_MADE;
    };
    let outcome = session.push_error(alloc, message, text);
    handle.put(session);
    status(outcome)
}

/// Puts a copy of the subtree at a path on the stack.
#[unsafe(no_mangle)]
pub extern "C" fn typst_push_copy(alloc: Global, handle: &mut Handle, path: &[usize]) -> u32
    ensures { Does (PushesCopy path.now) handle.old.at.value result handle.new.at.value }
{
    let Some(mut session) = handle.take(alloc) else {
        return NOT_MADE;
    };
    let outcome = session.push_copy(path);
    handle.put(session);
    status(outcome)
}

/// Replaces the last nodes of the stack by an inner node. They become its children.
#[unsafe(no_mangle)]
pub extern "C" fn typst_wrap(alloc: Global, handle: &mut Handle, kind: u32, count: usize) -> u32
    ensures { Does (Wraps kind count) handle.old.at.value result handle.new.at.value }
{
    let Some(mut session) = handle.take(alloc) else {
        return NOT_MADE;
    };
    let outcome = session.wrap(alloc, kind, count);
    handle.put(session);
    status(outcome)
}

/// Puts one more warning around the last node of the stack.
#[unsafe(no_mangle)]
pub extern "C" fn typst_warn(alloc: Global, handle: &mut Handle, message: &[u8]) -> u32
    ensures { Does (Warns message.now) handle.old.at.value result handle.new.at.value }
{
    let Some(mut session) = handle.take(alloc) else {
        return NOT_MADE;
    };
    let outcome = session.warn(alloc, message);
    handle.put(session);
    status(outcome)
}

/// Adds a hint to the last node of the stack.
#[unsafe(no_mangle)]
pub extern "C" fn typst_hint(alloc: Global, handle: &mut Handle, text: &[u8]) -> u32
    ensures { Does (Hints text.now) handle.old.at.value result handle.new.at.value }
{
    let Some(mut session) = handle.take(alloc) else {
        return NOT_MADE;
    };
    let outcome = session.hint(alloc, text);
    handle.put(session);
    status(outcome)
}

/// Drops the last nodes of the stack.
#[unsafe(no_mangle)]
pub extern "C" fn typst_pop(alloc: Global, handle: &mut Handle, count: usize) -> u32
    ensures { Does (Pops count) handle.old.at.value result handle.new.at.value }
{
    let Some(mut session) = handle.take(alloc) else {
        return NOT_MADE;
    };
    let outcome = session.pop(count);
    handle.put(session);
    status(outcome)
}
