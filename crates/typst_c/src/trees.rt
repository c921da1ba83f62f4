//! Numbering and editing the tree that a handle holds.
ghost use Rattle.std.specs.Prelude.{◌≡◌, Result};
ghost use Rattle.typst_c.specs.Calls.{Changes, Does, Told};
ghost use Rattle.typst_c.specs.Told.{IsWindow, Tells};
ghost use Rattle.typst_node.specs.declared.node.replace.Renumbered.{Renumbered as Done};
ghost use Rattle.typst_session.specs.Trees.{NumbersLast, Renumbers, Replaces, TakesTree};
ghost use Rattle.typst_session.specs.declared.refusal.Refusal.{Refusal};

use crate::handle::Handle;
use crate::told::{NOT_MADE, Window, status, tell_window};
use std::alloc::Global;

/// Numbers the last node of the stack for a file, with node numbers from `from` up to, not including, `to`, and makes
/// it the tree.
#[unsafe(no_mangle)]
pub extern "C" fn typst_number(
    alloc: Global,
    handle: &mut Handle,
    file: u16,
    from: u64,
    to: u64,
) -> u32
    ensures { Does (NumbersLast file from to) handle.old.at.value result handle.new.at.value }
{
    let Some(mut session) = handle.take(alloc) else {
        return NOT_MADE;
    };
    let outcome = session.number(file, from..to);
    handle.put(session);
    status(outcome)
}

/// Numbers the tree anew for a file, with node numbers from `from` up to, not including, `to`.
#[unsafe(no_mangle)]
pub extern "C" fn typst_renumber(
    alloc: Global,
    handle: &mut Handle,
    file: u16,
    from: u64,
    to: u64,
) -> u32
    ensures { Does (Renumbers file from to) handle.old.at.value result handle.new.at.value }
{
    let Some(mut session) = handle.take(alloc) else {
        return NOT_MADE;
    };
    let outcome = session.renumber(file, from..to);
    handle.put(session);
    status(outcome)
}

/// Puts the tree back on the stack.
#[unsafe(no_mangle)]
pub extern "C" fn typst_take_tree(alloc: Global, handle: &mut Handle) -> u32
    ensures { Does TakesTree handle.old.at.value result handle.new.at.value }
{
    let Some(mut session) = handle.take(alloc) else {
        return NOT_MADE;
    };
    let outcome = session.take_tree();
    handle.put(session);
    status(outcome)
}

/// Replaces the children from `from` up to, not including, `to` of the node at a path by the last `count` nodes of the
/// stack.
#[unsafe(no_mangle)]
pub extern "C" fn typst_replace(
    alloc: Global,
    handle: &mut Handle,
    path: &[usize],
    from: usize,
    to: usize,
    count: usize,
    window: &mut Window,
) -> u32
    ensures { Changes (window.new ≡ window.old) (λ s t. Told (Tells IsWindow window.old window.new result)
        (λ outcome. Replaces path.now from to count s outcome t)) handle.old.at.value result handle.new.at.value }
{
    let Some(mut session) = handle.take(alloc) else {
        return NOT_MADE;
    };
    let outcome = session.replace(alloc, path, from..to, count);
    handle.put(session);
    tell_window(outcome, window)
}
