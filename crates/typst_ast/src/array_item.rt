//! An item of an array.
ghost use Rattle.typst_ast.specs.Kinds.{is_array_item_kind};

use crate::expr::Expr;
use crate::views::Spread;
use std::hash::Hash;
use typst_base::{Span, SyntaxKind};
use typst_node::{AstNode, SyntaxNode, span_of};

/// An item of an array.
#[derive(Clone, Copy, Debug, Hash)]
pub enum ArrayItem<'a> {
    /// A bare expression: `12`.
    Pos(Expr<'a>),
    /// A spread array: `..array`.
    Spread(Spread<'a>),
}

/// Two items are equal if they are of one variant, and of the same tree or both placeholders. Spans and bounds count. A
/// comparison takes time at most in proportion to the smaller tree, and no memory.
impl<'a> PartialEq for ArrayItem<'a> {
    ghost use Rattle.std.specs.Prelude.{◌≡◌, ◌↔◌, IsTrue};
    ghost use Rattle.typst_ast.specs.EqualViews.{AreSameArrayItems, array_items_eq, array_items_laws};

    ghost eq = { array_items_eq };

    ghost laws = { array_items_laws };

    fn eq(&self, other: &Self) -> bool
        ensures is { result ≡ array_items_eq self.now other.now }
        ensures same { IsTrue result ↔ AreSameArrayItems self.now other.now }
    {
        match (self, other) {
            (ArrayItem::Pos(view), ArrayItem::Pos(other)) => *view == *other,
            (ArrayItem::Spread(view), ArrayItem::Spread(other)) => *view == *other,
            _ => false,
        }
    }
}

impl<'a> Eq for ArrayItem<'a> {
    ghost use Rattle.typst_ast.specs.EqualViews.{array_items_equivalence};

    ghost laws = { array_items_equivalence };
}

#[derived]
impl<'a> Hash for ArrayItem<'a> {
    ghost use Rattle.typst_ast.specs.EqualHashes.{array_items_alike};

    ghost respects_eq = { array_items_alike };
}

impl<'a> AstNode<'a> for ArrayItem<'a> {
    ghost use Rattle.std.specs.Prelude.{refl};
    ghost use Rattle.typst_ast.specs.ArrayItem.{array_item_node, array_item_kind, array_item_kind_is_node_kind};
    ghost use Rattle.typst_base.specs.declared.kind.SyntaxKind.TheVariants as kinds;

    ghost class = { is_array_item_kind };

    ghost node_of = { array_item_node };

    ghost view_kind = { array_item_kind };

    ghost blank = { kinds.None };

    ghost blank_in_class = { refl };

    ghost kind_is_node_kind = { array_item_kind_is_node_kind };

    fn from_untyped(node: &'a SyntaxNode) -> Option<Self> {
        match node.kind() {
            SyntaxKind::Spread => Some(ArrayItem::Spread(Spread::of_kind(node))),
            _ => Some(ArrayItem::Pos(Expr::from_untyped(node)?)),
        }
    }

    fn to_untyped(self) -> Option<&'a SyntaxNode> {
        match self {
            ArrayItem::Pos(view) => view.to_untyped(),
            ArrayItem::Spread(view) => view.to_untyped(),
        }
    }

    fn span(self) -> Span {
        span_of(self.to_untyped())
    }

    fn kind(self) -> SyntaxKind {
        match self {
            ArrayItem::Pos(view) => view.kind(),
            ArrayItem::Spread(view) => view.kind(),
        }
    }

    fn placeholder() -> Self {
        ArrayItem::Pos(Expr::placeholder())
    }
}
