//! The nodes of a linked subtree, in preorder.
ghost use Rattle.std.specs.Prelude.{◌≡◌, ◌∷◌, IfOk, IfSome, MatchOption, Some, length, min, []};
ghost use Rattle.std.specs.Iterator.{UpTo, at_most};
ghost use Rattle.std.specs.Iterator.SizeHint.{IsWithinCount};
ghost use Rattle.typst_linked.specs.Preorder.{places_below, GivesHead};
ghost use Rattle.typst_linked.specs.Onwards.{places_behind, places_from};

use crate::node::LinkedNode;
use std::alloc::{AllocError, Global};
use std::fmt;
use std::iter::FusedIterator;
use std::marker::Model;

/// The nodes of a linked subtree in preorder: each node before its children, and children from left to right.
///
/// If memory is refused, the item is an error, and it is the last item. A clone takes no memory. It fails only if a
/// parent is shared too often.
#[derive(Drop)]
pub struct LinkedPreorder<'a> {
    alloc: Global,
    next: Option<LinkedNode<'a>>,
    /// The number of nodes that are left, including the next node.
    left: usize,
}

impl<'a> Model for LinkedPreorder<'a> {
    ghost use Rattle.std.specs.Prelude.{List};
    ghost use Rattle.std.specs.Coded.{coded_list};
    ghost use Rattle.typst_linked.specs.Place.{Place, place_code};

    ghost Value = { List Place };

    ghost coded = { coded_list place_code };

    ghost use Rattle.typst_linked.specs.Walk.{left_of, IsWalk};

    ghost view = { left_of };

    ghost invariant = { IsWalk };
}

/// # Preorder
impl<'a> LinkedNode<'a> {
    /// The nodes of this node's subtree in preorder, starting with this node. It fails only if memory runs out.
    pub fn preorder(&self, alloc: Global) -> Result<LinkedPreorder<'a>, AllocError>
        ensures { IfOk result (λ left. left ≡ places_below self.now) }
    {
        Ok(LinkedPreorder {
            alloc,
            next: Some(self.clone()?),
            left: self.get().descendants(),
        })
    }

    /// The node after this one in the preorder of the root.
    fn following(&self, alloc: Global) -> Result<Option<Self>, AllocError>
        ensures { IfOk result (λ next. MatchOption next (places_from self.now
            ≡ self.now ∷ []) (λ place. places_from self.now ≡ self.now ∷ places_from place)) }
    {
        if self.get().child_slice().is_empty() {
            return self.beyond();
        }
        Ok(Some(self.clone()?.into_child(alloc, 0)?))
    }

    /// The first node after this node's whole subtree.
    fn beyond(&self) -> Result<Option<Self>, AllocError>
        ensures { IfOk result (λ next. MatchOption next (places_behind self.now ≡ []) (λ place. places_behind self.now
            ≡ places_from place)) }
    {
        let Some(parent) = self.shared_parent() else {
            return Ok(None);
        };
        let siblings = parent.get().child_slice();
        let index = self.index() + 1;
        if index < siblings.len() {
            return Ok(Some(LinkedNode::nth_child(parent, index)?));
        }
        parent.beyond()
    }
}

impl<'a> Clone for LinkedPreorder<'a> {
    ghost is_clone = { λ nodes copy. copy ≡ nodes };

    fn clone(&self) -> Result<Self, AllocError> {
        let next = match &self.next {
            None => None,
            Some(next) => Some(next.clone()?),
        };
        Ok(LinkedPreorder {
            alloc: self.alloc,
            next,
            left: self.left,
        })
    }
}

impl<'a> fmt::Debug for LinkedPreorder<'a> {
    /// Writes the next node, and the number of nodes that are left with it.
    fn fmt<W: fmt::Write>(&self, f: &mut fmt::Formatter<W>) -> fmt::Result {
        f.debug_struct("LinkedPreorder")
            .field("next", &self.next)
            .field("left", &self.left)
            .finish_non_exhaustive()
    }
}

impl<'a> Iterator for LinkedPreorder<'a> {
    type Item = Result<LinkedNode<'a>, AllocError>;

    ghost next_gives = { GivesHead };

    ghost remaining = { λ left. at_most (length left) };

    fn next(&mut self) -> Option<Self::Item> {
        let here = self.next.take()?;
        self.left -= 1;
        if self.left > 0 {
            match here.following(self.alloc) {
                Ok(next) => self.next = next,
                Err(error) => return Some(Err(error)),
            }
        }
        Some(Ok(here))
    }

    /// At least the next node, if there is one, or the error in its place. At most all nodes that are left.
    fn size_hint(&self) -> (usize, Option<usize>)
        ensures lower { IsWithinCount result.0 (at_most (length self.now)) }
        ensures upper { IfSome result.1 (UpTo (at_most (length self.now))) }
        ensures exact_lower { result.0 ≡ min 1 (length self.now) }
        ensures exact_upper { result.1 ≡ Some (length self.now) }
    {
        match self.next {
            Some(_) => (1, Some(self.left)),
            None => (0, Some(0)),
        }
    }
}

impl<'a> FusedIterator for LinkedPreorder<'a> {}
