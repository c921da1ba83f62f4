//! The leaf at a cursor.
ghost use Rattle.std.specs.Prelude.{◌≡◌, ◌+◌, ◌<◌, ◌≤◌, ◌^◌, length, IfOk, IfSome};
ghost use Rattle.std.specs.Option.{ForSome};
ghost use Rattle.typst_node.specs.Count.{count};
ghost use Rattle.typst_linked.specs.Place.{subtree};
ghost use Rattle.typst_linked.specs.Search.{found_below};
ghost use Rattle.typst_linked.specs.Ranges.{begin_of};
ghost use Rattle.typst_linked.specs.LeafAt.{reaches_cursor, covers_cursor, begins_at_cursor, least_end, leaf_place, last_leaf, CoversCursor, IsCoveringBelow};
ghost use Rattle.typst_linked.specs.LeafLooks.{HasWay, HasLookEachCover, HasLookEachFork};
ghost use Rattle.typst_linked.specs.declared.cursor.Side.TheVariants.{Before};

use crate::endings::child_ending;
use crate::halving::{first_ending, last_at_once};
use crate::looks::Looks;
use crate::node::LinkedNode;
use std::alloc::{AllocError, Global};
use std::ops::Range;

/// The side of a cursor on which a leaf is searched.
#[derive(Clone, Copy, Debug)]
pub enum Side {
    /// The leaf that has the byte before the cursor.
    Before,
    /// The leaf that has the byte after the cursor.
    After,
}

impl Side {
    /// Whether a text that ends here reaches the cursor.
    fn reaches(self, cursor: usize, end: usize) -> bool
        ensures { result ≡ reaches_cursor self cursor end }
    {
        match self {
            Side::Before => cursor <= end,
            Side::After => cursor < end,
        }
    }

    /// Whether a text with this range has the byte on this side of the cursor.
    fn covers(self, cursor: usize, range: &Range<usize>) -> bool
        ensures { result ≡ covers_cursor self cursor range.now.start range.now.end }
    {
        match self {
            Side::Before => range.start < cursor && cursor <= range.end,
            Side::After => range.start <= cursor && cursor < range.end,
        }
    }

    /// Whether a text that begins here may be the answer at the cursor without having that byte.
    fn begins(self, cursor: usize, begin: usize) -> bool
        ensures { result ≡ begins_at_cursor self cursor begin }
    {
        match self {
            Side::Before => begin == cursor,
            Side::After => false,
        }
    }

    /// The least end of a text that has that byte.
    fn least_end(self, cursor: usize) -> usize
        requires { least_end self cursor < 2 ^ 64 }
        ensures { result ≡ least_end self cursor }
    {
        match self {
            Side::Before => cursor,
            Side::After => cursor + 1,
        }
    }
}

/// # The leaf at a cursor
impl<'a> LinkedNode<'a> {
    /// The leaf at a cursor. It is the node without children, below this node, that has the byte before the cursor or
    /// after it. `cursor` is in bytes from the beginning of the root's text.
    ///
    /// If this node's text has no such byte, [`Side::Before`] answers the last node without children, if that begins at
    /// the cursor. Trivia and errors aren't skipped. If this node has no children, it is the only candidate, and then
    /// only its end counts. It fails only if memory runs out.
    ///
    /// On the way down, it reads up to ten children one after the other. Among more children it uses binary search.
    pub fn leaf_at(
        &self,
        alloc: Global,
        cursor: usize,
        side: Side,
    ) -> Result<Option<Self>, AllocError>
        ensures { IfOk result (λ r. r ≡ leaf_place side cursor self.now) }
    {
        if !self.get().child_slice().is_empty() && side.covers(cursor, &self.range()) {
            return Ok(Some(self.clone()?.into_covered(alloc, cursor, side)?));
        }
        self.leaf_at_counted(alloc, cursor, side, &mut Looks::new())
    }

    /// The node without children that covers the cursor, below a node that covers it.
    fn into_covered(self, alloc: Global, cursor: usize, side: Side) -> Result<Self, AllocError>
        requires { CoversCursor side cursor self }
        ensures { IfOk result (IsCoveringBelow side cursor self.entry) }
    {
        let end = side.least_end(cursor) - self.offset();
        let Some(part) = child_ending(self.get(), end) else {
            return Ok(self);
        };
        let child = self.into_part(alloc, part)?;
        child.into_covered(alloc, cursor, side)
    }

    /// The same as [`LinkedNode::leaf_at`]. Afterwards `looks` holds the number of ends of children that this call
    /// read, even if memory was refused. This is at most the binary digits of the numbers of children along the path
    /// from this node down to the last node reached. For an answer it is at least one for each node above the answer,
    /// from this node down, that has two or more children.
    pub fn leaf_at_counted(
        &self,
        alloc: Global,
        cursor: usize,
        side: Side,
        looks: &mut Looks,
    ) -> Result<Option<Self>, AllocError>
        ensures found { IfOk result (λ r. r ≡ leaf_place side cursor self.now) }
        ensures looks { HasWay side cursor self.now 0 looks.new }
        ensures steps { IfOk result (HasLookEachCover side cursor self.now looks.new) }
        ensures forks { IfOk result (λ r. IfSome r (HasLookEachFork self.now 0 looks.new)) }
    {
        *looks = Looks::new();
        // Read for the proof: the node count is a usize, so no count of looks along one path passes a u64.
        let _count = self.get().descendants();
        let range = self.range();
        if self.get().child_slice().is_empty() {
            if side.reaches(cursor, range.end) {
                return Ok(Some(self.clone()?));
            }
            return Ok(None);
        }
        if side.covers(cursor, &range) {
            let leaf = self.clone()?.into_covering(alloc, cursor, side, looks)?;
            return Ok(Some(leaf));
        }
        if side.begins(cursor, range.start) {
            return self.clone()?.into_last(alloc, looks);
        }
        Ok(None)
    }

    /// The same as `into_covered`, with the number of ends that it read.
    fn into_covering(
        self,
        alloc: Global,
        cursor: usize,
        side: Side,
        looks: &mut Looks,
    ) -> Result<Self, AllocError>
        requires room { ForSome (subtree self) (λ t. looks.old + count t < 2 ^ 64) }
        requires covers { CoversCursor side cursor self }
        ensures leaf { IfOk result (IsCoveringBelow side cursor self.entry) }
        ensures looks { HasWay side cursor self.entry looks.old looks.new }
        ensures steps { IfOk result (λ found. looks.old + length found.path ≤ looks.new + length self.entry.path) }
        ensures forks { IfOk result (HasLookEachFork self.entry looks.old looks.new) }
    {
        let end = side.least_end(cursor) - self.offset();
        let Some(part) = first_ending(self.get(), end, looks) else {
            return Ok(self);
        };
        let child = self.into_part(alloc, part)?;
        child.into_covering(alloc, cursor, side, looks)
    }

    /// The last node without children, if it begins where this node does.
    fn into_last(self, alloc: Global, looks: &mut Looks) -> Result<Option<Self>, AllocError>
        requires { ForSome (subtree self) (λ t. looks.old + count t < 2 ^ 64) }
        ensures leaf { let begin = begin_of self.entry in IfOk result (λ r. r
            ≡ found_below (last_leaf Before begin begin) self.entry) }
        ensures looks { HasWay Before (begin_of self.entry) self.entry looks.old looks.new }
        ensures forks { IfOk result (λ r. IfSome r (HasLookEachFork self.entry looks.old looks.new)) }
    {
        if self.get().child_slice().is_empty() {
            return Ok(Some(self));
        }
        let Some(part) = last_at_once(self.get(), looks) else {
            return Ok(None);
        };
        let child = self.into_part(alloc, part)?;
        child.into_last(alloc, looks)
    }
}
