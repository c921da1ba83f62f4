//! Finding nodes of the tree that a session holds.
ghost use Rattle.std.specs.Prelude.{◌≡◌, MatchResult};
ghost use Rattle.typst_node.specs.Text.{offset};
ghost use Rattle.typst_session.specs.Finding.{Finds, FindsByCover, FindsByRange, FindsLeaf};
ghost use Rattle.typst_session.specs.declared.refusal.Refusal.TheVariants.{Memory};

use crate::refusal::Refusal;
use crate::session::Session;
use std::alloc::Global;
use std::ops::Range;
use typst_tree::{FileId, LinkedNode, Side, Span, SpanNumber};

/// Where a node is.
#[derive(Drop)]
pub struct Found {
    /// Child indices from the root down.
    pub path: Vec<usize>,
    /// Where its text begins, in bytes.
    pub offset: usize,
}

impl Found {
    /// Where a linked node is.
    pub(crate) fn of(alloc: Global, node: &LinkedNode) -> Result<Found, Refusal>
        ensures { MatchResult result
            (λ found. (found.path.items ≡ node.now.path) × (found.offset ≡ offset node.now.path node.now.root))
            (λ refusal. refusal ≡ Memory) }
    {
        let path = node.path(alloc)?;
        Ok(Found {
            path,
            offset: node.offset(),
        })
    }
}

/// # Searches
impl Session {
    /// Finds the node with a number in the tree that is held. It takes as long as [`LinkedNode::find`].
    pub fn find(&self, alloc: Global, number: u64) -> Result<Found, Refusal>
        ensures { Finds number self.now result }
    {
        let Some(root) = self.root() else {
            return Err(Refusal::NoTree);
        };
        if number < Span::FULL.start || Span::FULL.end <= number {
            return Err(Refusal::NotFound);
        }
        // A search by a number doesn't look at the file.
        let span = Span::from_number(FileId::FIRST, SpanNumber(number));
        match LinkedNode::new(root).find(alloc, span)? {
            Some(node) => Found::of(alloc, &node),
            None => Err(Refusal::NotFound),
        }
    }

    /// Finds the node with a range of bytes in the tree that is held, as [`LinkedNode::find_range`] finds it from the
    /// root.
    pub fn find_range(&self, alloc: Global, range: Range<usize>) -> Result<Found, Refusal>
        ensures { FindsByRange range.start range.end self.now result }
    {
        let Some(root) = self.root() else {
            return Err(Refusal::NoTree);
        };
        match LinkedNode::new(root).find_range(alloc, range.start, range.end)? {
            Some(node) => Found::of(alloc, &node),
            None => Err(Refusal::NotFound),
        }
    }

    /// Finds the smallest node that covers a range of bytes in the tree that is held, as [`LinkedNode::find_cover`] finds
    /// it from the root.
    pub fn find_cover(&self, alloc: Global, range: Range<usize>) -> Result<Found, Refusal>
        ensures { FindsByCover range.start range.end self.now result }
    {
        let Some(root) = self.root() else {
            return Err(Refusal::NoTree);
        };
        match LinkedNode::new(root).find_cover(alloc, range.start, range.end)? {
            Some(node) => Found::of(alloc, &node),
            None => Err(Refusal::NotFound),
        }
    }

    /// Finds the leaf at a cursor in the tree that is held, as [`LinkedNode::leaf_at`] finds it from the root.
    pub fn leaf_at(&self, alloc: Global, cursor: usize, side: Side) -> Result<Found, Refusal>
        ensures { FindsLeaf side cursor self.now result }
    {
        let Some(root) = self.root() else {
            return Err(Refusal::NoTree);
        };
        match LinkedNode::new(root).leaf_at(alloc, cursor, side)? {
            Some(node) => Found::of(alloc, &node),
            None => Err(Refusal::NotFound),
        }
    }
}
