//! Reading many nodes in one call.
ghost use Rattle.std.specs.List.{AllZip};
ghost use Rattle.std.specs.Prelude.{◌≡◌, ◌+◌, ◌≤◌, drop, length, take};
ghost use Rattle.typst_node.specs.Count.{count};
ghost use Rattle.typst_node.specs.Preorder.{subtrees};
ghost use Rattle.typst_node.specs.Tree.{trees};
ghost use Rattle.typst_session.specs.Infos.{AreWritten, ReadsInfos};
ghost use Rattle.typst_session.specs.Reading.{IsInfo};

use crate::info::NodeInfo;
use crate::refusal::Refusal;
use crate::session::Session;
use typst_tree::SyntaxNode;

/// Writes what is read of nodes, in their order.
fn write_all(nodes: &[SyntaxNode], out: &mut [NodeInfo])
    requires { length nodes.now ≤ length out.old }
    ensures { AreWritten nodes.now out.old out.new }
{
    for at in 0..nodes.len() {
        out[at] = NodeInfo::of(&nodes[at]);
    }
}

/// Writes what is read of the nodes of a tree, in preorder, from an index on, and returns the index after them.
fn write_subtree(node: &SyntaxNode, out: &mut [NodeInfo], at: usize) -> usize
    requires { at + count node.now ≤ length out.old }
    ensures end { result ≡ at + count node.now }
    ensures before { take at out.new ≡ take at out.old }
    ensures told { AllZip IsInfo (subtrees node.now) (take (count node.now) (drop at out.new)) }
    ensures behind { drop (at + count node.now) out.new ≡ drop (at + count node.now) out.old }
{
    out[at] = NodeInfo::of(node);
    let mut next = at + 1;
    for child in node.child_slice() {
        next = write_subtree(child, out, next);
    }
    next
}

/// Writes what is read of the nodes of a tree, in preorder.
fn write_tree(node: &SyntaxNode, out: &mut [NodeInfo])
    requires { count node.now ≤ length out.old }
    ensures { AreWritten (subtrees node.now) out.old out.new }
{
    write_subtree(node, out, 0);
}

/// # Many nodes
impl Session {
    /// Writes what is read of each child of the node that a path leads to, in order, and tells how many there are.
    pub fn children(
        &self,
        path: &[usize],
        out: &mut [NodeInfo],
        len: &mut usize,
    ) -> Result<(), Refusal>
        ensures { ReadsInfos (λ t. trees t.children) path.now self.now (record { items = out.old; len = len.old })
            (record { items = out.new; len = len.new }) result }
    {
        match self.node_at(path) {
            Ok(node) => {
                let children = node.child_slice();
                *len = children.len();
                if out.len() < children.len() {
                    return Err(Refusal::Buffer);
                }
                write_all(children, out);
                Ok(())
            }
            Err(refusal) => Err(refusal),
        }
    }

    /// Writes what is read of each node of the subtree that a path leads to, in preorder: each node before its
    /// children. Tells how many nodes there are.
    ///
    /// It takes time in proportion to the nodes, and no memory.
    #[tactic(auto, using(crate::proofs::Listed::length_subtrees))]
    pub fn preorder(
        &self,
        path: &[usize],
        out: &mut [NodeInfo],
        len: &mut usize,
    ) -> Result<(), Refusal>
        ensures { ReadsInfos subtrees path.now self.now (record { items = out.old; len = len.old })
            (record { items = out.new; len = len.new }) result }
    {
        match self.node_at(path) {
            Ok(node) => {
                *len = node.descendants();
                if out.len() < node.descendants() {
                    return Err(Refusal::Buffer);
                }
                write_tree(node, out);
                Ok(())
            }
            Err(refusal) => Err(refusal),
        }
    }
}
