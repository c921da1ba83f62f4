//! The nodes of a list that have a view of some type. They can be read from both ends.
ghost use Rattle.std.specs.Prelude.{◌≡◌, ⊤, IfSome, Some, length};
ghost use Rattle.std.specs.Iterator.{UpTo, YieldsFirstBy, YieldsLastBy, at_most, item_count};
ghost use Rattle.std.specs.Iterator.SizeHint.{IsWithinCount};
ghost use Rattle.typst_node.specs.Children.{all_in};
ghost use Rattle.typst_node.specs.Items.{nodes_ahead, nodes_left, told_left};
ghost use Rattle.typst_node.specs.Views.{told};

use crate::ast_node::AstNode;
use crate::node::SyntaxNode;
use std::alloc::AllocError;
use std::fmt;
use std::iter::FusedIterator;
use std::marker::PhantomData;

/// The views of the nodes of a list whose kind lies in the class of `T`, in order. They can be read from both ends.
///
/// Each step skips the nodes of other kinds, so all steps together read the list once.
#[derive(Drop)]
pub struct Items<'a, T> {
    rest: &'a [SyntaxNode],
    of: PhantomData<T>,
}

impl<'a, T: AstNode<'a>> Items<'a, T> {
    /// The views of these nodes.
    pub fn over(nodes: &'a [SyntaxNode]) -> Self
        ensures left { nodes_left T.class result ≡ all_in T.class nodes.now }
        ensures ahead { nodes_ahead result ≡ nodes.now }
    {
        Items {
            rest: nodes,
            of: PhantomData,
        }
    }
}

impl<'a, T> Clone for Items<'a, T> {
    ghost is_clone = { λ items copy. copy ≡ items };

    ghost is_infallible = { λ _. ⊤ };

    fn clone(&self) -> Result<Self, AllocError> {
        Ok(Items {
            rest: self.rest,
            of: PhantomData,
        })
    }
}

impl<'a, T> fmt::Debug for Items<'a, T> {
    /// Writes the nodes that it hasn't passed yet, including those without a view: `Items([..])`.
    fn fmt<W: fmt::Write>(&self, f: &mut fmt::Formatter<W>) -> fmt::Result {
        f.debug_tuple("Items").field(&self.rest).finish()
    }
}

impl<'a, T: AstNode<'a>> Iterator for Items<'a, T> {
    type Item = T;

    ghost next_gives = { YieldsFirstBy (told T.node_of T.view_kind T.proper) (told_left T.class) };

    ghost remaining = { item_count (nodes_left T.class) };

    fn next(&mut self) -> Option<T> {
        while let [first, rest @ ..] = self.rest {
            self.rest = rest;
            if let Some(view) = T::from_untyped(first) {
                return Some(view);
            }
        }
        None
    }

    /// At least 0, and at most the number of nodes that it hasn't passed yet.
    #[tactic(auto, using(crate::proofs::NoMore::no_more_in_class))]
    fn size_hint(&self) -> (usize, Option<usize>)
        ensures lower { IsWithinCount result.0 (at_most (length (nodes_left T.class self.now))) }
        ensures upper { IfSome result.1 (UpTo (at_most (length (nodes_left T.class self.now)))) }
        ensures exact { result ≡ (0, Some (length (nodes_ahead self.now))) }
    {
        (0, Some(self.rest.len()))
    }
}

impl<'a, T: AstNode<'a>> DoubleEndedIterator for Items<'a, T> {
    ghost next_back_gives = { YieldsLastBy (told T.node_of T.view_kind T.proper) (told_left T.class) };

    fn next_back(&mut self) -> Option<T> {
        while let Some((last, rest)) = self.rest.split_last() {
            self.rest = rest;
            if let Some(view) = T::from_untyped(last) {
                return Some(view);
            }
        }
        None
    }
}

impl<'a, T: AstNode<'a>> FusedIterator for Items<'a, T> {}
