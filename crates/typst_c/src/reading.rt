//! Reading the tree that a handle holds.
ghost use Rattle.std.specs.Prelude.{◌≡◌, Result};
ghost use Rattle.typst_c.specs.Calls.{IsStatus, Reads, status_of, Told};
ghost use Rattle.typst_c.specs.Lending.{IsSameHandle};
ghost use Rattle.typst_c.specs.Told.{buffer, TellsValue};
ghost use Rattle.typst_node.specs.Text.{text, own_text};
ghost use Rattle.typst_session.specs.Reading.{ReadsInfo};
ghost use Rattle.typst_session.specs.Texts.{WritesOf};
ghost use Rattle.typst_session.specs.declared.info.NodeInfo.{NodeInfo as Info};
ghost use Rattle.typst_session.specs.declared.refusal.Refusal.{Refusal};

use crate::handle::Handle;
use crate::told::{Length, NOT_MADE, status, tell};
use std::alloc::Global;
use typst_session::NodeInfo;

/// Reads the node at a path.
#[unsafe(no_mangle)]
pub extern "C" fn typst_node(handle: &mut Handle, path: &[usize], info: &mut NodeInfo) -> u32
    ensures kept { IsSameHandle handle.old handle.new }
    ensures read { Reads (info.new ≡ info.old) (λ s. Told (TellsValue info.old info.new result)
        (ReadsInfo path.now s)) handle.old.at.value result }
{
    let Some(session) = handle.read() else {
        return NOT_MADE;
    };
    let outcome = session.node(path);
    tell(outcome, info)
}

/// Writes the text of the leaf or error at a path.
#[unsafe(no_mangle)]
pub extern "C" fn typst_leaf_text(
    handle: &mut Handle,
    path: &[usize],
    out: &mut [u8],
    length: &mut Length,
) -> u32
    ensures kept { IsSameHandle handle.old handle.new }
    ensures read { Reads ((out.new ≡ out.old) × (length.new.len ≡ length.old.len)) (λ s.
        Told (IsStatus result)
        (WritesOf (λ t. own_text t.label) path.now s (buffer out.old length.old) (buffer out.new length.new)))
        handle.old.at.value result }
{
    let Some(session) = handle.read() else {
        return NOT_MADE;
    };
    let outcome = session.leaf_text(path, out, &mut length.len);
    status(outcome)
}

/// Writes the text of the subtree at a path.
#[unsafe(no_mangle)]
pub extern "C" fn typst_full_text(
    alloc: Global,
    handle: &mut Handle,
    path: &[usize],
    out: &mut [u8],
    length: &mut Length,
) -> u32
    ensures kept { IsSameHandle handle.old handle.new }
    ensures read { Reads ((out.new ≡ out.old) × (length.new.len ≡ length.old.len)) (λ s.
        Told (IsStatus result)
        (WritesOf text path.now s (buffer out.old length.old) (buffer out.new length.new))) handle.old.at.value result }
{
    let Some(session) = handle.read() else {
        return NOT_MADE;
    };
    let outcome = session.full_text(alloc, path, out, &mut length.len);
    status(outcome)
}
