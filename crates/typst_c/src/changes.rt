//! Edits of the tree that a handle holds, after which kept numbers can be followed.
ghost use Rattle.std.specs.Prelude.{ℕ, ◌≡◌, Option, Result};
ghost use Rattle.typst_c.specs.Calls.{Changes, IsStatus, Reads, status_of, Told};
ghost use Rattle.typst_c.specs.Lending.{IsSameHandle};
ghost use Rattle.typst_c.specs.Told.{buffer, IsChange, IsUpdate, Tells, TellsValue};
ghost use Rattle.typst_session.specs.Changes.{Follows, Reconciles, Sends, Updates, WritesPath};
ghost use Rattle.typst_session.specs.declared.changes.Change.{Change as TreeChange};
ghost use Rattle.typst_session.specs.declared.refusal.Refusal.{Refusal};

use crate::handle::Handle;
use crate::told::{Change, Length, NOT_MADE, status, tell, tell_change, tell_update, write_path};
use std::alloc::Global;

/// Replaces the children from `from` up to, not including, `to` of the node at a path by the last `count` nodes of the
/// stack. The nodes that go on can be followed.
#[unsafe(no_mangle)]
pub extern "C" fn typst_reconcile(
    alloc: Global,
    handle: &mut Handle,
    path: &[usize],
    from: usize,
    to: usize,
    count: usize,
    change: &mut Change,
) -> u32
    ensures { Changes (change.new ≡ change.old) (λ s t. Told (Tells IsChange change.old change.new result)
        (λ outcome. Reconciles path.now from to count s outcome t)) handle.old.at.value result handle.new.at.value }
{
    let Some(mut session) = handle.take(alloc) else {
        return NOT_MADE;
    };
    let outcome = session.reconcile(alloc, path, from..to, count);
    handle.put(session);
    tell_change(outcome, change)
}

/// Puts the last node of the stack in place of the tree. The nodes that go on can be followed.
#[unsafe(no_mangle)]
pub extern "C" fn typst_update(alloc: Global, handle: &mut Handle, change: &mut Change) -> u32
    ensures { Changes (change.new ≡ change.old) (λ s t. Told (Tells IsUpdate change.old change.new result)
        (λ outcome. Updates s outcome t)) handle.old.at.value result handle.new.at.value }
{
    let Some(mut session) = handle.take(alloc) else {
        return NOT_MADE;
    };
    let outcome = session.update(alloc);
    handle.put(session);
    tell_update(outcome, change)
}

/// The number that a node has after the last edit, by its number before that edit.
#[unsafe(no_mangle)]
pub extern "C" fn typst_follow(handle: &mut Handle, number: u64, now: &mut u64) -> u32
    ensures kept { IsSameHandle handle.old handle.new }
    ensures read { Reads (now.new ≡ now.old) (λ s. Told (TellsValue now.old now.new result)
        (Follows number s)) handle.old.at.value result }
{
    let Some(session) = handle.read() else {
        return NOT_MADE;
    };
    let outcome = session.follow(number);
    tell(outcome, now)
}

/// Writes the path to the node whose children the last edit changed.
#[unsafe(no_mangle)]
pub extern "C" fn typst_edited_path(
    handle: &mut Handle,
    out: &mut [usize],
    length: &mut Length,
) -> u32
    ensures kept { IsSameHandle handle.old handle.new }
    ensures read { Reads ((out.new ≡ out.old) × (length.new.len ≡ length.old.len)) (λ s.
        Told (IsStatus result)
        (WritesPath s (buffer out.old length.old) (buffer out.new length.new))) handle.old.at.value result }
{
    let Some(session) = handle.read() else {
        return NOT_MADE;
    };
    match session.edited_path() {
        Ok(path) => status(write_path(path, out, &mut length.len)),
        Err(refusal) => refusal.code(),
    }
}

/// Moves the last node of the stack to the stack of another handle.
#[unsafe(no_mangle)]
pub extern "C" fn typst_send(alloc: Global, handle: &mut Handle, other: &mut Handle) -> u32
    ensures { Changes (other.new.at.value ≡ other.old.at.value) (λ s t. Changes (t ≡ s) (λ o p.
        Told (IsStatus result) (λ outcome. Sends s o outcome t p))
        other.old.at.value result other.new.at.value) handle.old.at.value result handle.new.at.value }
{
    let Some(mut session) = handle.take(alloc) else {
        return NOT_MADE;
    };
    let Some(mut receiver) = other.take(alloc) else {
        handle.put(session);
        return NOT_MADE;
    };
    let outcome = session.send(&mut receiver);
    handle.put(session);
    other.put(receiver);
    status(outcome)
}
