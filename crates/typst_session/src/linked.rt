//! The node that a path leads to, with its parents.
ghost use Rattle.std.specs.Prelude.{◌≡◌, IfOk, IfErr, IsSomeAnd};
ghost use Rattle.typst_node.specs.Paths.{IsPath};
ghost use Rattle.typst_session.specs.Finding.{place_in};
ghost use Rattle.typst_session.specs.Neighbors.{IsNotReached};
ghost use Rattle.typst_session.specs.Sessions.{root_of};

use crate::refusal::Refusal;
use crate::session::Session;
use std::alloc::Global;
use typst_tree::{LinkedNode, node_at};

impl Session {
    /// The node that a path leads to in the tree that is held, with its parents.
    ///
    /// The node is found by its own span, which takes as long as [`LinkedNode::find`].
    pub(crate) fn linked_at(&self, alloc: Global, path: &[usize]) -> Result<LinkedNode<'_>, Refusal>
        ensures ok { IfOk result (λ node. IsSomeAnd (root_of self.now.held) (λ root.
            IsPath path.now root × (node ≡ place_in root path.now))) }
        ensures err { IfErr result (IsNotReached path.now self.now) }
    {
        let Some(root) = self.root() else {
            return Err(Refusal::NoTree);
        };
        let Some(node) = node_at(root, path) else {
            return Err(Refusal::NoNode);
        };
        match LinkedNode::new(root).find(alloc, node.span())? {
            Some(node) => Ok(node),
            None => unreachable!(),
        }
    }
}
