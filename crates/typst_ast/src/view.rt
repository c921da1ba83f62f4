//! The generic view of nodes of one kind.
ghost use Rattle.std.specs.Prelude.{◌≡◌, true, false, IsTrue, Some, refl, ⊤};
ghost use Rattle.std.specs.Option.{option_copied};
ghost use Rattle.typst_atoms.specs.Kinds.{is_kind};
ghost use Rattle.typst_atoms.specs.OfKind.{is_missing_or_of_kind, kind_from_test};
ghost use Rattle.typst_base.specs.contracts.kind.SyntaxKind.{the_type};
ghost use Rattle.typst_node.specs.Views.{node_kind};
ghost use denote.Enum.Bare.{true_same};

use std::alloc::AllocError;
use std::fmt;
use std::hash::{Hash, Hasher};
use std::marker::PhantomData;
use typst_atoms::marker::Kind;
use typst_atoms::same_views::{Parts, are_same_nodes, feed_node};
use typst_base::{Span, SyntaxKind};
use typst_node::{AstNode, SyntaxNode, span_of};

/// A view of a node of the marker's kind, or the kind's placeholder.
///
/// Two views are equal if their nodes are equal, spans and bounds included. Placeholders of one type are equal.
pub struct View<'a, M: Kind> {
    node: Option<&'a SyntaxNode>,
    kind: PhantomData<M>,
    ghost of_kind: { IsTrue (is_missing_or_of_kind M.KIND node) },
}

impl<'a, M: Kind> Clone for View<'a, M> {
    ghost is_clone = { λ view copy. copy ≡ view };

    ghost is_infallible = { λ _. ⊤ };

    fn clone(&self) -> Result<Self, AllocError> {
        Ok(*self)
    }
}

impl<'a, M: Kind> Copy for View<'a, M> {}

/// Two views of one kind are equal if they are of the same tree, spans and bounds included, or if both are
/// placeholders. A comparison takes time at most in proportion to the smaller tree, and no memory.
impl<'a, M: Kind> PartialEq for View<'a, M> {
    ghost use Rattle.std.specs.Prelude.{◌≡◌, ◌↔◌, IsTrue};
    ghost use Rattle.typst_ast.specs.View.{node_of};
    ghost use Rattle.typst_atoms.specs.SameViews.{same_by_node, same_by_node_laws};

    ghost eq = { same_by_node node_of };

    ghost laws = { same_by_node_laws node_of };

    fn eq(&self, other: &Self) -> bool
        ensures is { result ≡ same_by_node node_of self.now other.now }
        ensures same { IsTrue result ↔ (node_of self.now ≡ node_of other.now) }
    {
        are_same_nodes(self.node(), other.node())
    }
}

impl<'a, M: Kind> Eq for View<'a, M> {
    ghost use Rattle.typst_ast.specs.View.{node_of};
    ghost use Rattle.typst_atoms.specs.SameViews.{same_by_node_equivalence};

    ghost laws = { same_by_node_equivalence node_of };
}

impl<'a, M: Kind> Hash for View<'a, M> {
    ghost use Rattle.typst_ast.specs.View.{node_of};
    ghost use Rattle.typst_atoms.specs.SameViews.{by_node_input, same_by_node_alike};

    ghost hash_input = { by_node_input node_of };

    ghost respects_eq = { same_by_node_alike node_of };

    fn hash<H: Hasher>(&self, state: &mut H) {
        feed_node(self.node(), state);
    }
}

impl<'a, M: Kind> fmt::Debug for View<'a, M> {
    /// Writes the name of the kind and the node, as `Heading(Heading: 3 [..])`. Without a node it writes
    /// `Heading(placeholder)`.
    fn fmt<W: fmt::Write>(&self, f: &mut fmt::Formatter<W>) -> fmt::Result {
        Parts::of(*self).show(f)
    }
}

impl<'a, M: Kind> AstNode<'a> for View<'a, M> {
    ghost class = { is_kind M.KIND };

    ghost node_of = { λ view. option_copied view.node };

    ghost view_kind = { λ _. M.KIND };

    ghost blank = { M.KIND };

    ghost blank_in_class = { true_same the_type M.KIND M.KIND refl };

    ghost kind_is_node_kind = { λ view. kind_from_test M.KIND view.node view.of_kind };

    fn from_untyped(node: &'a SyntaxNode) -> Option<Self> {
        if node.kind() == M::KIND {
            Some(View::of_kind(node))
        } else {
            None
        }
    }

    fn to_untyped(self) -> Option<&'a SyntaxNode> {
        self.node
    }

    fn span(self) -> Span {
        span_of(self.node)
    }

    fn kind(self) -> SyntaxKind {
        M::KIND
    }

    fn placeholder() -> Self {
        View {
            node: None,
            kind: PhantomData,
        }
    }
}

impl<'a, M: Kind> View<'a, M> {
    ghost use Rattle.typst_ast.specs.View.{node_of};

    /// The view of a node that is known to be of the view's kind.
    pub fn of_kind(node: &'a SyntaxNode) -> Self
        requires { node_kind node.now ≡ M.KIND }
        ensures { node_of result ≡ Some node.now }
    {
        View {
            node: Some(node),
            kind: PhantomData,
        }
    }

    /// The node, or `None` for a placeholder.
    pub(crate) fn node(self) -> Option<&'a SyntaxNode>
        ensures { option_copied result ≡ node_of self.entry }
    {
        self.to_untyped()
    }
}
