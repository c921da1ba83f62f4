//! Typed views of nodes.
ghost use Rattle.std.specs.Prelude.{◌≡◌, ◌↔◌, true, false, Bool, IsTrue, Option, Some, None, MatchOption, IfSome, IsSome};
ghost use Rattle.std.specs.Option.{option_copied};
ghost use Rattle.typst_base.specs.declared.kind.SyntaxKind.{SyntaxKind};
ghost use Rattle.typst_node.specs.Tree.{Tree};
ghost use Rattle.typst_node.specs.Views.{node_kind, span_or_detached, IsViewOf};

use crate::node::SyntaxNode;
use typst_base::{Span, SyntaxKind};

/// A typed view of a node whose kind lies in the view's class, or a placeholder, which has no node.
///
/// A view is a reference, so it is copied freely and lives as long as the tree's borrow.
/// An accessor whose node lacks a part answers the placeholder of that part, so reading a tree never fails.
pub trait AstNode<'a>: Copy {
    // The kinds of the nodes that the view can show.
    ghost class: { SyntaxKind → Bool };

    // The node of the view, with its spans and bounds. A placeholder has none.
    ghost node_of: { Self → Option Tree };

    // The kind of the view.
    ghost view_kind: { Self → SyntaxKind };

    // The kind of the type's placeholder.
    ghost blank: { SyntaxKind };

    // Whether the view is the form that its node or placeholder has. It matters only for a type with several forms of
    // one node.
    ghost proper: { Self → Bool } = { λ _. true };

    /// The view of a node, if the node's kind lies in the class.
    fn from_untyped(node: &'a SyntaxNode) -> Option<Self>
        ensures in_class { IsSome result ↔ (class (node_kind node.now) ≡ true) }
        ensures view { IfSome result (IsViewOf node_of view_kind proper blank (Some node.now)) };

    /// The node, or `None` for a placeholder.
    fn to_untyped(self) -> Option<&'a SyntaxNode>
        ensures { option_copied result ≡ node_of self };

    /// The node's span, or a detached span for a placeholder.
    fn span(self) -> Span
        ensures { result ≡ span_or_detached (node_of self) };

    /// The node's kind. For a placeholder it is the kind of the missing node, which lies in the class.
    fn kind(self) -> SyntaxKind
        ensures { result ≡ view_kind self };

    /// The placeholder, which is the view of a missing node.
    fn placeholder() -> Self
        ensures { IsViewOf node_of view_kind proper blank None result };

    // A placeholder's kind lies in the class.
    ghost blank_in_class: { class blank ≡ true };

    // A view of a node has the node's kind.
    ghost kind_is_node_kind: { (v : Self) → IfSome (node_of v) (λ node. view_kind v ≡ node_kind node) };
}

/// The node's span, or a detached span if there is no node: the answer of `AstNode::span`.
pub fn span_of(node: Option<&SyntaxNode>) -> Span
    ensures { result ≡ span_or_detached (option_copied node.entry) }
{
    match node {
        Some(node) => node.span(),
        None => Span::detached(),
    }
}

impl SyntaxNode {
    /// Whether the node has a view of this type.
    pub fn is<'a, T: AstNode<'a>>(&'a self) -> bool
        ensures { result ≡ T.class (node_kind self.now) }
    {
        self.cast::<T>().is_some()
    }

    /// The node's view of this type, if its kind lies in the type's class.
    pub fn cast<'a, T: AstNode<'a>>(&'a self) -> Option<T>
        ensures in_class { IsSome result ↔ (T.class (node_kind self.now) ≡ true) }
        ensures view { IfSome result (IsViewOf T.node_of T.view_kind T.proper T.blank (Some self.now)) }
    {
        T::from_untyped(self)
    }
}
