//! The children of a linked node. They can be read from both ends.
ghost use Rattle.std.specs.Prelude.{◌≡◌, ◌+◌, ◌-◌, ◌^◌, ◌<◌, length, take, Some, IfSome};
ghost use Rattle.typst_node.specs.Tree.{trees};
ghost use Rattle.typst_node.specs.Text.{text_of_all};
ghost use Rattle.std.specs.Iterator.{at_most, UpTo};
ghost use Rattle.std.specs.Iterator.SizeHint.{IsWithinCount};
ghost use Rattle.typst_linked.specs.Children.{IsAllOf, GivesFirst, GivesLast};

use crate::node::LinkedNode;
use std::alloc::AllocError;
use std::iter::FusedIterator;
use std::marker::Model;
use std::rc::Rc;
use typst_node::SyntaxNode;

/// The children of a linked node, in order. They can be read from both ends.
///
/// If memory for a child is refused, the item for that child is an error, and the next step goes on after it. A clone
/// takes no memory. It fails only if the parent is shared too often.
#[derive(Debug, Drop)]
pub struct LinkedChildren<'a> {
    parent: Rc<LinkedNode<'a>>,
    /// The children from the first index up to the second are left.
    from: usize,
    to: usize,
    /// Where the text of the first of them begins, in bytes from the beginning of the parent's text.
    begin: usize,
}

impl<'a> Model for LinkedChildren<'a> {
    ghost use Rattle.typst_linked.specs.Below.{Below, below_code};

    ghost Value = { Below };

    ghost coded = { below_code };

    ghost view = { λ a. record { parent = a.parent.value; from = a.from; to = a.to } };

    ghost use Rattle.typst_linked.specs.Children.{IsBelow};

    ghost invariant = { IsBelow };
}

impl<'a> LinkedChildren<'a> {
    /// All children of a node that others share.
    pub(crate) fn new(parent: Rc<LinkedNode<'a>>) -> Self
        ensures { IsAllOf parent.entry.value result }
    {
        let to = parent.get().child_slice().len();
        LinkedChildren {
            parent,
            from: 0,
            to,
            begin: 0,
        }
    }
}

impl<'a> Clone for LinkedChildren<'a> {
    ghost is_clone = { λ children copy. copy ≡ children };

    fn clone(&self) -> Result<Self, AllocError> {
        Ok(LinkedChildren {
            parent: self.parent.clone()?,
            from: self.from,
            to: self.to,
            begin: self.begin,
        })
    }
}

/// The length of a child's text. The text ends where the next one begins.
pub(crate) fn len_of_child(node: &SyntaxNode, index: usize) -> usize
    requires { index < length (trees node.now.children) }
    ensures more { length (text_of_all (take (index + 1) (trees node.now.children)))
        ≡ length (text_of_all (take index (trees node.now.children))) + result }
    ensures fits { length (text_of_all (take (index + 1) (trees node.now.children))) < 2 ^ 64 }
{
    // Read for the proof: the whole length is a usize.
    let _len = node.len();
    node.child_slice()[index].len()
}

impl<'a> Iterator for LinkedChildren<'a> {
    type Item = Result<LinkedNode<'a>, AllocError>;

    ghost next_gives = { GivesFirst };

    ghost remaining = { λ s. at_most (s.to - s.from) };

    fn next(&mut self) -> Option<Self::Item> {
        if self.from == self.to {
            return None;
        }
        let (index, begin) = (self.from, self.begin);
        self.begin = begin + len_of_child(self.parent.get(), index);
        self.from += 1;
        Some(LinkedNode::shared_child(&self.parent, index, begin))
    }

    fn size_hint(&self) -> (usize, Option<usize>)
        ensures lower { IsWithinCount result.0 (at_most (self.now.to - self.now.from)) }
        ensures upper { IfSome result.1 (UpTo (at_most (self.now.to - self.now.from))) }
        ensures exact_lower { result.0 ≡ self.now.to - self.now.from }
        ensures exact_upper { result.1 ≡ Some (self.now.to - self.now.from) }
    {
        let left = self.to - self.from;
        (left, Some(left))
    }
}

impl<'a> DoubleEndedIterator for LinkedChildren<'a> {
    ghost next_back_gives = { GivesLast };

    fn next_back(&mut self) -> Option<Self::Item> {
        if self.from == self.to {
            return None;
        }
        self.to -= 1;
        Some(LinkedNode::nth_child(&self.parent, self.to))
    }
}

impl<'a> ExactSizeIterator for LinkedChildren<'a> {
    fn len(&self) -> usize {
        self.to - self.from
    }
}

impl<'a> FusedIterator for LinkedChildren<'a> {}
