//! A node of a borrowed tree with its parents.
ghost use Rattle.std.specs.Prelude.{◌≡◌, ◌+◌, ◌<◌, ◌≤◌, [], length, take, Some, MatchOption, IfOk, IsSome};
ghost use Rattle.typst_node.specs.Tree.{Tree, trees};
ghost use Rattle.typst_node.specs.Text.{text, text_of_all, offset};
ghost use Rattle.typst_linked.specs.Place.{subtree, child_place, last_step, HasChild, BeginsAt};
ghost use Rattle.std.specs.Option.{ForSome};
ghost use Rattle.typst_linked.specs.Part.{IsPart};
ghost use Rattle.typst_linked.specs.Siblings.{siblings};
ghost use Rattle.typst_linked.specs.Children.{IsAllOf};

use crate::children::LinkedChildren;
use crate::floor::Part;
use std::alloc::{AllocError, Global};
use std::fmt::{self, Debug, Formatter, Write};
use std::marker::Model;
use std::ops::{Deref, Range};
use std::rc::Rc;
use typst_node::SyntaxNode;

/// A node of a borrowed tree that knows its parents, its index among its siblings and where its text begins.
///
/// Nodes share their parents, so a clone takes no memory. It fails only if the parent is shared too often.
pub struct LinkedNode<'a> {
    node: &'a SyntaxNode,
    parent: Option<Rc<LinkedNode<'a>>>,
    /// Among the parent's children; 0 for a root.
    index: usize,
    /// In bytes from the beginning of the root's text.
    offset: usize,
}

impl<'a> Model for LinkedNode<'a> {
    ghost use Rattle.typst_linked.specs.Place.{Place, place_code};

    ghost Value = { Place };

    ghost coded = { place_code };

    ghost use Rattle.typst_linked.specs.Linked.{place_of, IsLinked};

    ghost view = { place_of };

    ghost invariant = { IsLinked };

    ghost use Rattle.std.specs.Prelude.{length};

    ghost size = { λ p. length p.path };

    ghost use Rattle.typst_linked.specs.Falls.{parent_is_less};

    ghost size_decreases = { λ a h. parent_is_less a.node.now a.index a.parent };
}

/// By hand, so that crates above call this one and don't each prove how shared parents are dropped.
impl Drop for LinkedNode<'_> {
    #[cycle(drop_linked)]
    fn drop(self) {
        let LinkedNode {
            node: _,
            parent: _,
            index: _,
            offset: _,
        } = self;
    }
}

/// # Reads
impl<'a> LinkedNode<'a> {
    /// The root of a tree, without a parent, at offset 0.
    pub fn new(root: &'a SyntaxNode) -> Self
        ensures root { result.root ≡ root.now }
        ensures path { result.path ≡ [] }
    {
        // Read for the proof: the root's length and node count are usizes, which bounds each offset and index below it.
        let _len = root.len();
        let _count = root.descendants();
        LinkedNode {
            node: root,
            parent: None,
            index: 0,
            offset: 0,
        }
    }

    /// The node itself, borrowed from the tree.
    pub fn get(&self) -> &'a SyntaxNode
        ensures { subtree self.now ≡ Some result.now }
    {
        self.node
    }

    /// The index among the parent's children, and 0 for the root.
    pub fn index(&self) -> usize
        ensures { result ≡ last_step self.now.path }
    {
        self.index
    }

    /// Where the node's text begins in the root's text, in bytes.
    pub fn offset(&self) -> usize
        ensures { result ≡ offset self.now.path self.now.root }
    {
        self.offset
    }

    /// The range of the node's bytes in the root's text.
    pub fn range(&self) -> Range<usize>
        ensures start { result.start ≡ offset self.now.path self.now.root }
        ensures end { (t : Tree) → subtree self.now ≡ Some t → result.end ≡ result.start + length (text t) }
    {
        let start = self.offset;
        start..start + self.node.len()
    }

    /// The parent, or `None` for the root.
    pub fn parent(&self) -> Option<&Self>
        ensures { MatchOption result (self.now.path ≡ []) (λ p. self.now
            ≡ child_place p.now (last_step self.now.path)) }
    {
        match &self.parent {
            None => None,
            Some(parent) => Some(&**parent),
        }
    }
}

impl<'a> LinkedNode<'a> {
    /// The parent, which its children share.
    pub(crate) fn shared_parent(&self) -> Option<&Rc<LinkedNode<'a>>>
        ensures parent { MatchOption result (self.now.path ≡ []) (λ p. self.now
            ≡ child_place p.now.value (last_step self.now.path)) }
        ensures there { IsSome (subtree self.now) }
    {
        self.parent.as_ref()
    }
}

impl<'a> LinkedNode<'a> {
    /// The children of the parent, with this node among them. A root has none.
    pub(crate) fn siblings(&self) -> &'a [SyntaxNode]
        ensures siblings { result.now ≡ siblings self.now }
        ensures within { last_step self.now.path ≤ length result.now }
    {
        match &self.parent {
            None => &[],
            Some(parent) => parent.node.child_slice(),
        }
    }
}

impl<'a> LinkedNode<'a> {
    /// Where the text of this node begins, in bytes from the beginning of its parent's text.
    pub(crate) fn begin_below(&self, parent: &LinkedNode<'a>) -> usize
        requires { self.now ≡ child_place parent.now (last_step self.now.path) }
        ensures { BeginsAt parent.now (last_step self.now.path) result }
    {
        self.offset - parent.offset
    }

    /// Where the text of this node ends, in bytes from the beginning of its parent's text.
    pub(crate) fn end_below(&self, parent: &LinkedNode<'a>) -> usize
        requires { self.now ≡ child_place parent.now (last_step self.now.path) }
        ensures { BeginsAt parent.now (last_step self.now.path + 1) result }
    {
        self.offset - parent.offset + self.node.len()
    }
}

/// # Children
impl<'a> LinkedNode<'a> {
    /// The children, in order. They can be read from both ends. It fails only if memory runs out.
    pub fn children(&self, alloc: Global) -> Result<LinkedChildren<'a>, AllocError>
        ensures { IfOk result (IsAllOf self.now) }
    {
        let parent = Rc::new(alloc, self.clone()?)?;
        Ok(LinkedChildren::new(parent))
    }

    /// The child at an index. Its text begins `begin` bytes after the beginning of its parent's text.
    pub(crate) fn child_at(parent: Rc<LinkedNode<'a>>, index: usize, begin: usize) -> Self
        requires child { HasChild parent.value index }
        requires begin { BeginsAt parent.value index begin }
        ensures { result ≡ child_place parent.entry.value index }
    {
        let above: &LinkedNode = &parent;
        let offset = above.offset + begin;
        let node = &above.node.child_slice()[index];
        LinkedNode {
            node,
            parent: Some(parent),
            index,
            offset,
        }
    }

    /// The child at an index, below a parent that others share. Its text begins `begin` bytes after that of its parent.
    pub(crate) fn shared_child(
        parent: &Rc<LinkedNode<'a>>,
        index: usize,
        begin: usize,
    ) -> Result<Self, AllocError>
        requires child { HasChild parent.now.value index }
        requires begin { BeginsAt parent.now.value index begin }
        ensures { IfOk result (λ l. l ≡ child_place parent.now.value index) }
    {
        Ok(LinkedNode::child_at(parent.clone()?, index, begin))
    }

    /// The child at an index, below a parent that others share.
    pub(crate) fn nth_child(parent: &Rc<LinkedNode<'a>>, index: usize) -> Result<Self, AllocError>
        requires child { HasChild parent.now.value index }
        ensures { IfOk result (λ l. l ≡ child_place parent.now.value index) }
    {
        let begin = child_begin(parent.get(), index);
        LinkedNode::shared_child(parent, index, begin)
    }

    /// The child at an index, below this node.
    pub(crate) fn into_child(self, alloc: Global, index: usize) -> Result<Self, AllocError>
        requires child { HasChild self index }
        ensures { IfOk result (λ l. l ≡ child_place self.entry index) }
    {
        let begin = child_begin(self.node, index);
        let parent = Rc::new(alloc, self)?;
        Ok(LinkedNode::child_at(parent, index, begin))
    }

    /// The same as `into_child`, if it is known where the child's text begins.
    pub(crate) fn into_part(self, alloc: Global, part: Part) -> Result<Self, AllocError>
        requires { ForSome (subtree self) (λ t. IsPart (trees t.children) part) }
        ensures { IfOk result (λ l. l ≡ child_place self.entry part.index) }
    {
        let parent = Rc::new(alloc, self)?;
        Ok(LinkedNode::child_at(parent, part.index, part.begin))
    }
}

/// How many bytes of a node's text come before the text of the child at an index.
pub(crate) fn child_begin(node: &SyntaxNode, index: usize) -> usize
    requires { index < length (trees node.now.children) }
    ensures { result ≡ length (text_of_all (take index (trees node.now.children))) }
{
    if index == 0 {
        0
    } else {
        node.child_end(index - 1)
    }
}

impl<'a> Clone for LinkedNode<'a> {
    ghost is_clone = { λ a b. b ≡ a };

    fn clone(&self) -> Result<Self, AllocError> {
        let parent = match &self.parent {
            None => None,
            Some(parent) => Some(parent.clone()?),
        };
        Ok(LinkedNode {
            node: self.node,
            parent,
            index: self.index,
            offset: self.offset,
        })
    }
}

impl<'a> Deref for LinkedNode<'a> {
    type Target = SyntaxNode;

    ghost deref_gives = { λ l n. subtree l ≡ Some n };

    fn deref(&self) -> &SyntaxNode {
        self.get()
    }
}

impl<'a> Debug for LinkedNode<'a> {
    /// Writes the node as `SyntaxNode` does.
    fn fmt<W: Write>(&self, f: &mut Formatter<W>) -> fmt::Result {
        self.get().fmt(f)
    }
}
