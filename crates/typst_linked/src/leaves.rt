//! Walks from leaf to leaf.
ghost use Rattle.std.specs.Prelude.{◌≡◌, ◌+◌, ◌≤◌, ◌↔◌, true, false, [], length, IfOk, IsTrue};
ghost use Rattle.std.specs.Option.{ForSome};
ghost use Rattle.typst_linked.specs.Place.{subtree, child_place, last_step, BeginsAt, HasChild};
ghost use Rattle.typst_node.specs.Tree.{trees};
ghost use Rattle.typst_linked.specs.Search.{found_below, first_path, last_path};
ghost use Rattle.typst_linked.specs.Leaves.{is_good, stop_behind, stop_before, elsewhere, later_from, earlier_up};

use crate::children::len_of_child;
use crate::node::LinkedNode;
use std::alloc::{AllocError, Global};
use std::rc::Rc;
use typst_node::SyntaxNode;

/// # Leaves
///
/// A good leaf is a leaf whose kind isn't trivia, or an error whose text isn't empty.
impl<'a> LinkedNode<'a> {
    /// The first good leaf of this node's subtree, this node included.
    pub fn leftmost_leaf(&self, alloc: Global) -> Result<Option<Self>, AllocError>
        ensures { IfOk result (λ r. r ≡ found_below (first_path is_good) self.now) }
    {
        self.clone()?.into_leftmost(alloc)
    }

    /// The same as `leftmost_leaf`, for an owned node.
    fn into_leftmost(self, alloc: Global) -> Result<Option<Self>, AllocError>
        ensures { IfOk result (λ r. r ≡ found_below (first_path is_good) self.entry) }
    {
        if is_good_leaf(self.get()) {
            Ok(Some(self))
        } else {
            self.leftmost_below(alloc)
        }
    }

    /// The first good leaf below this node, which is no good leaf itself.
    #[inline(never)]
    fn leftmost_below(self, alloc: Global) -> Result<Option<Self>, AllocError>
        requires { ForSome (subtree self) (λ t. is_good t ≡ false) }
        ensures { IfOk result (λ r. r ≡ found_below (first_path is_good) self.entry) }
    {
        let count = self.get().child_slice().len();
        if count == 0 {
            return Ok(None);
        }
        let node = self.get();
        let parent = Rc::new(alloc, self)?;
        let mut begin = 0;
        for index in 0..count {
            let next = &node.child_slice()[index];
            if is_good_leaf(next) {
                return Ok(Some(LinkedNode::child_at(parent, index, begin)));
            }
            if !is_childless(next) {
                let child = LinkedNode::shared_child(&parent, index, begin)?;
                if let Some(leaf) = child.leftmost_below(alloc)? {
                    return Ok(Some(leaf));
                }
            }
            begin += len_of_child(node, index);
        }
        Ok(None)
    }

    /// The last good leaf of this node's subtree, this node included.
    pub fn rightmost_leaf(&self, alloc: Global) -> Result<Option<Self>, AllocError>
        ensures { IfOk result (λ r. r ≡ found_below (last_path is_good) self.now) }
    {
        self.clone()?.into_rightmost(alloc)
    }

    /// The same as `rightmost_leaf`, for an owned node.
    fn into_rightmost(self, alloc: Global) -> Result<Option<Self>, AllocError>
        ensures { IfOk result (λ r. r ≡ found_below (last_path is_good) self.entry) }
    {
        if is_good_leaf(self.get()) {
            Ok(Some(self))
        } else {
            self.rightmost_below(alloc)
        }
    }

    /// The last good leaf below this node, which is no good leaf itself.
    #[inline(never)]
    fn rightmost_below(self, alloc: Global) -> Result<Option<Self>, AllocError>
        requires { ForSome (subtree self) (λ t. is_good t ≡ false) }
        ensures { IfOk result (λ r. r ≡ found_below (last_path is_good) self.entry) }
    {
        let count = self.get().child_slice().len();
        if count == 0 {
            return Ok(None);
        }
        let node = self.get();
        let mut begin = node.child_end(count - 1);
        let parent = Rc::new(alloc, self)?;
        for index in (0..count).rev() {
            begin -= len_of_child(node, index);
            let previous = &node.child_slice()[index];
            if is_good_leaf(previous) {
                return Ok(Some(LinkedNode::child_at(parent, index, begin)));
            }
            if !is_childless(previous) {
                let child = LinkedNode::shared_child(&parent, index, begin)?;
                if let Some(leaf) = child.rightmost_below(alloc)? {
                    return Ok(Some(leaf));
                }
            }
        }
        Ok(None)
    }

    /// The first good leaf after this node's subtree. The search goes through the later siblings, then through those of
    /// the parent, and so on outwards. It skips a sibling whose kind is trivia with everything below it.
    pub fn next_leaf(&self, alloc: Global) -> Result<Option<Self>, AllocError>
        ensures { IfOk result (λ r. r ≡ elsewhere stop_behind self.now) }
    {
        let Some(parent) = self.shared_parent() else {
            return Ok(None);
        };
        let begin = self.end_below(parent);
        if let Some(leaf) = LinkedNode::leaf_behind(parent, alloc, self.index(), begin)? {
            return Ok(Some(leaf));
        }
        parent.next_leaf(alloc)
    }

    /// The last good leaf before this node. The search goes through the earlier siblings, then through those of the
    /// parent, and so on outwards. It skips a sibling whose kind is trivia with everything below it.
    pub fn prev_leaf(&self, alloc: Global) -> Result<Option<Self>, AllocError>
        ensures { IfOk result (λ r. r ≡ elsewhere stop_before self.now) }
    {
        let Some(parent) = self.shared_parent() else {
            return Ok(None);
        };
        let end = self.index();
        let begin = self.begin_below(parent);
        if let Some(leaf) = LinkedNode::leaf_before(parent, alloc, end, begin)? {
            return Ok(Some(leaf));
        }
        parent.prev_leaf(alloc)
    }

    /// The last good leaf among the children of a node before the index `end`. It skips children whose kind is trivia.
    /// `begin` is where the text of the children before that index ends.
    fn leaf_before(
        parent: &Rc<LinkedNode<'a>>,
        alloc: Global,
        end: usize,
        mut begin: usize,
    ) -> Result<Option<Self>, AllocError>
        requires within { ForSome (subtree parent.now.value) (λ t. end ≤ length (trees t.children)) }
        requires begin { BeginsAt parent.now.value end begin }
        ensures { IfOk result (λ r. r ≡ found_below (λ t. earlier_up t end) parent.now.value) }
    {
        let node = parent.get();
        let children = node.child_slice();
        for before in (0..end).rev() {
            begin -= len_of_child(node, before);
            let previous = &children[before];
            if !previous.kind().is_trivia() {
                if is_good_leaf(previous) {
                    return Ok(Some(LinkedNode::shared_child(parent, before, begin)?));
                }
                let child = LinkedNode::shared_child(parent, before, begin)?;
                if let Some(leaf) = child.rightmost_below(alloc)? {
                    return Ok(Some(leaf));
                }
            }
        }
        Ok(None)
    }

    /// The first good leaf among the children of a node behind the child at the index `before`. It skips children whose
    /// kind is trivia. `begin` is where the text of that child ends.
    fn leaf_behind(
        parent: &Rc<LinkedNode<'a>>,
        alloc: Global,
        before: usize,
        mut begin: usize,
    ) -> Result<Option<Self>, AllocError>
        requires child { HasChild parent.now.value before }
        requires begin { BeginsAt parent.now.value (before + 1) begin }
        ensures { IfOk result (λ r. r ≡ found_below (λ t. later_from t (before + 1)) parent.now.value) }
    {
        let node = parent.get();
        let children = node.child_slice();
        for index in before + 1..children.len() {
            let next = &children[index];
            if !next.kind().is_trivia() {
                if is_good_leaf(next) {
                    return Ok(Some(LinkedNode::shared_child(parent, index, begin)?));
                }
                let child = LinkedNode::shared_child(parent, index, begin)?;
                if let Some(leaf) = child.leftmost_below(alloc)? {
                    return Ok(Some(leaf));
                }
            }
            begin += len_of_child(node, index);
        }
        Ok(None)
    }
}

/// Whether a walk from leaf to leaf may stop at this node. Such a node has no children.
fn is_good_leaf(node: &SyntaxNode) -> bool
    ensures good { IsTrue result ↔ (is_good node.now ≡ true) }
    ensures childless { IsTrue result → trees node.now.children ≡ [] }
{
    node.is_leaf() && !node.kind().is_trivia()
}

/// Whether a node has no children. A walk finds nothing below such a node.
fn is_childless(node: &SyntaxNode) -> bool
    ensures { IsTrue result ↔ (trees node.now.children ≡ []) }
{
    node.child_slice().is_empty()
}
