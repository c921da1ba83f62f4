//! Where a node is, and which nodes are next to it.
ghost use Rattle.std.specs.Prelude.{◌≡◌, IfOk};
ghost use Rattle.typst_session.specs.Neighbors.{neighbor_of, FindsNeighbor, ReadsRange};

use crate::finding::Found;
use crate::refusal::Refusal;
use crate::session::Session;
use std::alloc::{AllocError, Global};
use std::ops::Range;
use typst_tree::LinkedNode;

/// A node next to another one.
#[derive(Clone, Copy, PartialEq, Eq, Debug, Drop)]
pub enum Neighbor {
    /// The nearest leaf after it that isn't trivia.
    NextLeaf,
    /// The nearest leaf before it that isn't trivia.
    PrevLeaf,
    /// The nearest sibling after it that isn't trivia.
    NextSibling,
    /// The nearest sibling before it that isn't trivia.
    PrevSibling,
}

/// The node that is next to another one.
fn next_to<'a>(
    alloc: Global,
    node: &LinkedNode<'a>,
    which: Neighbor,
) -> Result<Option<LinkedNode<'a>>, AllocError>
    ensures { IfOk result (λ found. found ≡ neighbor_of which node.now) }
{
    match which {
        Neighbor::NextLeaf => node.next_leaf(alloc),
        Neighbor::PrevLeaf => node.prev_leaf(alloc),
        Neighbor::NextSibling => node.next_sibling(),
        Neighbor::PrevSibling => node.prev_sibling(),
    }
}

/// # Places
///
/// Each call takes as long as [`LinkedNode::find`], and takes memory for the parents of the node.
impl Session {
    /// The bytes of the text that belong to the node that a path leads to.
    pub fn range(&self, alloc: Global, path: &[usize]) -> Result<Range<usize>, Refusal>
        ensures { ReadsRange path.now self.now result }
    {
        match self.linked_at(alloc, path) {
            Ok(node) => Ok(node.range()),
            Err(refusal) => Err(refusal),
        }
    }

    /// Finds the node next to the one that a path leads to, as [`LinkedNode`] finds it.
    pub fn neighbor(&self, alloc: Global, path: &[usize], which: Neighbor) -> Result<Found, Refusal>
        ensures { FindsNeighbor which path.now self.now result }
    {
        let node = match self.linked_at(alloc, path) {
            Ok(node) => node,
            Err(refusal) => return Err(refusal),
        };
        match next_to(alloc, &node, which)? {
            Some(found) => Found::of(alloc, &found),
            None => Err(Refusal::NotFound),
        }
    }
}
