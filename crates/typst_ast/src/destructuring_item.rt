//! An item of a destructuring pattern.
ghost use Rattle.typst_atoms.specs.Classes.{is_destructuring_item_kind};

use crate::pattern::Pattern;
use crate::views::{Named, Spread};
use std::hash::Hash;
use typst_base::{Span, SyntaxKind};
use typst_node::{AstNode, SyntaxNode, span_of};

/// An item of a destructuring pattern.
#[derive(Clone, Copy, Debug, Hash)]
pub enum DestructuringItem<'a> {
    /// A sub-pattern: `x`.
    Pattern(Pattern<'a>),
    /// A renamed destructuring: `x: y`.
    Named(Named<'a>),
    /// A destructuring sink: `..y` or `..`.
    Spread(Spread<'a>),
}

/// Two items are equal if they are of one variant, and of the same tree or both placeholders. Spans and bounds count. A
/// comparison takes time at most in proportion to the smaller tree, and no memory.
impl<'a> PartialEq for DestructuringItem<'a> {
    ghost use Rattle.std.specs.Prelude.{◌≡◌, ◌↔◌, IsTrue};
    ghost use Rattle.typst_ast.specs.EqualViews.{AreSameDestructuringItems, destructuring_items_eq, destructuring_items_laws};

    ghost eq = { destructuring_items_eq };

    ghost laws = { destructuring_items_laws };

    fn eq(&self, other: &Self) -> bool
        ensures is { result ≡ destructuring_items_eq self.now other.now }
        ensures same { IsTrue result ↔ AreSameDestructuringItems self.now other.now }
    {
        match (self, other) {
            (DestructuringItem::Pattern(view), DestructuringItem::Pattern(other)) => *view
                == *other,
            (DestructuringItem::Named(view), DestructuringItem::Named(other)) => *view == *other,
            (DestructuringItem::Spread(view), DestructuringItem::Spread(other)) => *view == *other,
            _ => false,
        }
    }
}

impl<'a> Eq for DestructuringItem<'a> {
    ghost use Rattle.typst_ast.specs.EqualViews.{destructuring_items_equivalence};

    ghost laws = { destructuring_items_equivalence };
}

#[derived]
impl<'a> Hash for DestructuringItem<'a> {
    ghost use Rattle.typst_ast.specs.EqualHashes.{destructuring_items_alike};

    ghost respects_eq = { destructuring_items_alike };
}

impl<'a> AstNode<'a> for DestructuringItem<'a> {
    ghost use Rattle.std.specs.Prelude.{refl};
    ghost use Rattle.typst_ast.specs.DestructuringItem.{destructuring_item_node, destructuring_item_kind, destructuring_item_kind_is_node_kind, is_proper_destructuring_item};
    ghost use Rattle.typst_base.specs.declared.kind.SyntaxKind.TheVariants as kinds;

    ghost class = { is_destructuring_item_kind };

    ghost node_of = { destructuring_item_node };

    ghost view_kind = { destructuring_item_kind };

    ghost blank = { kinds.None };

    ghost proper = { is_proper_destructuring_item };

    ghost blank_in_class = { refl };

    ghost kind_is_node_kind = { destructuring_item_kind_is_node_kind };

    fn from_untyped(node: &'a SyntaxNode) -> Option<Self> {
        match node.kind() {
            SyntaxKind::Named => Some(DestructuringItem::Named(Named::of_kind(node))),
            SyntaxKind::Spread => Some(DestructuringItem::Spread(Spread::of_kind(node))),
            _ => Some(DestructuringItem::Pattern(Pattern::from_untyped(node)?)),
        }
    }

    fn to_untyped(self) -> Option<&'a SyntaxNode> {
        match self {
            DestructuringItem::Pattern(view) => view.to_untyped(),
            DestructuringItem::Named(view) => view.to_untyped(),
            DestructuringItem::Spread(view) => view.to_untyped(),
        }
    }

    fn span(self) -> Span {
        span_of(self.to_untyped())
    }

    fn kind(self) -> SyntaxKind {
        match self {
            DestructuringItem::Pattern(view) => view.kind(),
            DestructuringItem::Named(view) => view.kind(),
            DestructuringItem::Spread(view) => view.kind(),
        }
    }

    fn placeholder() -> Self {
        DestructuringItem::Pattern(Pattern::placeholder())
    }
}
