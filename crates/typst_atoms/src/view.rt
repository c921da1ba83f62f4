//! The generic view of nodes of one kind.
ghost use Rattle.std.specs.Prelude.{◌≡◌, true, false, IsTrue, Some, refl, ⊤};
ghost use Rattle.std.specs.Option.{option_copied};
ghost use Rattle.typst_atoms.specs.Kinds.{is_kind};
ghost use Rattle.typst_atoms.specs.OfKind.{is_missing_or_of_kind, kind_from_test};
ghost use Rattle.typst_base.specs.contracts.kind.SyntaxKind.{the_type};
ghost use Rattle.typst_node.specs.Views.{node_kind};
ghost use denote.Enum.Bare.{true_same};

use crate::marker::Kind;
use crate::nodes::leaf_text;
use crate::same_views::Parts;
use std::alloc::AllocError;
use std::fmt;
use std::marker::PhantomData;
use typst_base::{Span, SyntaxKind};
use typst_node::{AstNode, SyntaxNode, span_of};

/// A view of a node of the marker's kind, or the kind's placeholder.
///
/// Two views are equal if their nodes are equal, spans and bounds included. Placeholders of one type are equal.
pub struct View<'a, M: Kind> {
    node: Option<&'a SyntaxNode>,
    kind: PhantomData<M>,
    ghost of_kind: { IsTrue (is_missing_or_of_kind M.KIND node) },
}

impl<'a, M: Kind> Clone for View<'a, M> {
    ghost is_clone = { λ view copy. copy ≡ view };

    ghost is_infallible = { λ _. ⊤ };

    fn clone(&self) -> Result<Self, AllocError> {
        Ok(*self)
    }
}

impl<'a, M: Kind> Copy for View<'a, M> {}

impl<'a, M: Kind> fmt::Debug for View<'a, M> {
    /// Writes the name of the kind and the node, as `Heading(Heading: 3 [..])`. Without a node it writes
    /// `Heading(placeholder)`.
    fn fmt<W: fmt::Write>(&self, f: &mut fmt::Formatter<W>) -> fmt::Result {
        Parts::of(*self).show(f)
    }
}

impl<'a, M: Kind> AstNode<'a> for View<'a, M> {
    ghost class = { is_kind M.KIND };

    ghost node_of = { λ view. option_copied view.node };

    ghost view_kind = { λ _. M.KIND };

    ghost blank = { M.KIND };

    ghost blank_in_class = { true_same the_type M.KIND M.KIND refl };

    ghost kind_is_node_kind = { λ view. kind_from_test M.KIND view.node view.of_kind };

    fn from_untyped(node: &'a SyntaxNode) -> Option<Self> {
        if node.kind() == M::KIND {
            Some(View {
                node: Some(node),
                kind: PhantomData,
            })
        } else {
            None
        }
    }

    fn to_untyped(self) -> Option<&'a SyntaxNode> {
        self.node
    }

    fn span(self) -> Span {
        span_of(self.node)
    }

    fn kind(self) -> SyntaxKind {
        M::KIND
    }

    fn placeholder() -> Self {
        View {
            node: None,
            kind: PhantomData,
        }
    }
}

impl<'a, M: Kind> View<'a, M> {
    ghost use Rattle.typst_atoms.specs.Texts.{text_in};
    ghost use Rattle.typst_atoms.specs.View.{atom_node};

    /// The view of a node, if `SyntaxNode::is` has told that the node is of the view's kind.
    pub fn of_kind(node: &'a SyntaxNode) -> Self
        requires { node_kind node.now ≡ M.KIND }
        ensures { atom_node result ≡ Some node.now }
    {
        View {
            node: Some(node),
            kind: PhantomData,
        }
    }

    /// The node, or `None` for a placeholder.
    pub(crate) fn node(self) -> Option<&'a SyntaxNode>
        ensures { option_copied result ≡ atom_node self.entry }
    {
        self.node
    }

    /// The node's leaf text. It is empty for a placeholder.
    pub(crate) fn leaf_text(self) -> &'a str
        ensures { result.now ≡ text_in (atom_node self.entry) }
    {
        leaf_text(self.node)
    }
}
