//! Reading many nodes of the tree that a handle holds.
ghost use Rattle.std.specs.Prelude.{◌≡◌, Result};
ghost use Rattle.typst_c.specs.Told.{buffer};
ghost use Rattle.typst_c.specs.Calls.{IsStatus, Reads, status_of, Told};
ghost use Rattle.typst_c.specs.Lending.{IsSameHandle};
ghost use Rattle.typst_node.specs.Preorder.{subtrees};
ghost use Rattle.typst_node.specs.Tree.{trees};
ghost use Rattle.typst_session.specs.Infos.{ReadsInfos};
ghost use Rattle.typst_session.specs.declared.refusal.Refusal.{Refusal};

use crate::handle::Handle;
use crate::told::{Length, NOT_MADE, status};
use typst_session::NodeInfo;

/// Reads each child of the node at a path.
#[unsafe(no_mangle)]
pub extern "C" fn typst_children(
    handle: &mut Handle,
    path: &[usize],
    out: &mut [NodeInfo],
    length: &mut Length,
) -> u32
    ensures kept { IsSameHandle handle.old handle.new }
    ensures read { Reads ((out.new ≡ out.old) × (length.new.len ≡ length.old.len)) (λ s.
        Told (IsStatus result)
        (ReadsInfos (λ t. trees t.children) path.now s (buffer out.old length.old) (buffer out.new length.new)))
        handle.old.at.value result }
{
    let Some(session) = handle.read() else {
        return NOT_MADE;
    };
    let outcome = session.children(path, out, &mut length.len);
    status(outcome)
}

/// Reads each node of the subtree at a path, in preorder.
#[unsafe(no_mangle)]
pub extern "C" fn typst_preorder(
    handle: &mut Handle,
    path: &[usize],
    out: &mut [NodeInfo],
    length: &mut Length,
) -> u32
    ensures kept { IsSameHandle handle.old handle.new }
    ensures read { Reads ((out.new ≡ out.old) × (length.new.len ≡ length.old.len)) (λ s.
        Told (IsStatus result)
        (ReadsInfos subtrees path.now s (buffer out.old length.old) (buffer out.new length.new)))
        handle.old.at.value result }
{
    let Some(session) = handle.read() else {
        return NOT_MADE;
    };
    let outcome = session.preorder(path, out, &mut length.len);
    status(outcome)
}
