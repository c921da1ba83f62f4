//! An item of a dictionary.
ghost use Rattle.typst_ast.specs.Kinds.{is_dict_item_kind};

use crate::views::{Keyed, Named, Spread};
use std::hash::Hash;
use typst_base::{Span, SyntaxKind};
use typst_node::{AstNode, SyntaxNode, span_of};

/// An item of a dictionary.
#[derive(Clone, Copy, Debug, Hash)]
pub enum DictItem<'a> {
    /// A named pair: `thickness: 3pt`.
    Named(Named<'a>),
    /// A keyed pair: `"spaced key": true`.
    Keyed(Keyed<'a>),
    /// A spread dictionary: `..dict`.
    Spread(Spread<'a>),
}

/// Two items are equal if they are of one variant, and of the same tree or both placeholders. Spans and bounds count. A
/// comparison takes time at most in proportion to the smaller tree, and no memory.
impl<'a> PartialEq for DictItem<'a> {
    ghost use Rattle.std.specs.Prelude.{◌≡◌, ◌↔◌, IsTrue};
    ghost use Rattle.typst_ast.specs.EqualViews.{AreSameDictItems, dict_items_eq, dict_items_laws};

    ghost eq = { dict_items_eq };

    ghost laws = { dict_items_laws };

    fn eq(&self, other: &Self) -> bool
        ensures is { result ≡ dict_items_eq self.now other.now }
        ensures same { IsTrue result ↔ AreSameDictItems self.now other.now }
    {
        match (self, other) {
            (DictItem::Named(view), DictItem::Named(other)) => *view == *other,
            (DictItem::Keyed(view), DictItem::Keyed(other)) => *view == *other,
            (DictItem::Spread(view), DictItem::Spread(other)) => *view == *other,
            _ => false,
        }
    }
}

impl<'a> Eq for DictItem<'a> {
    ghost use Rattle.typst_ast.specs.EqualViews.{dict_items_equivalence};

    ghost laws = { dict_items_equivalence };
}

#[derived]
impl<'a> Hash for DictItem<'a> {
    ghost use Rattle.typst_ast.specs.EqualHashes.{dict_items_alike};

    ghost respects_eq = { dict_items_alike };
}

impl<'a> AstNode<'a> for DictItem<'a> {
    ghost use Rattle.std.specs.Prelude.{refl};
    ghost use Rattle.typst_ast.specs.DictItem.{dict_item_node, dict_item_kind, dict_item_kind_is_node_kind};
    ghost use Rattle.typst_base.specs.declared.kind.SyntaxKind.TheVariants as kinds;

    ghost class = { is_dict_item_kind };

    ghost node_of = { dict_item_node };

    ghost view_kind = { dict_item_kind };

    ghost blank = { kinds.Spread };

    ghost blank_in_class = { refl };

    ghost kind_is_node_kind = { dict_item_kind_is_node_kind };

    fn from_untyped(node: &'a SyntaxNode) -> Option<Self> {
        match node.kind() {
            SyntaxKind::Named => Some(DictItem::Named(Named::of_kind(node))),
            SyntaxKind::Keyed => Some(DictItem::Keyed(Keyed::of_kind(node))),
            SyntaxKind::Spread => Some(DictItem::Spread(Spread::of_kind(node))),
            _ => None,
        }
    }

    fn to_untyped(self) -> Option<&'a SyntaxNode> {
        match self {
            DictItem::Named(view) => view.to_untyped(),
            DictItem::Keyed(view) => view.to_untyped(),
            DictItem::Spread(view) => view.to_untyped(),
        }
    }

    fn span(self) -> Span {
        span_of(self.to_untyped())
    }

    fn kind(self) -> SyntaxKind {
        match self {
            DictItem::Named(view) => view.kind(),
            DictItem::Keyed(view) => view.kind(),
            DictItem::Spread(view) => view.kind(),
        }
    }

    fn placeholder() -> Self {
        DictItem::Spread(Spread::placeholder())
    }
}
