//! Arrays, dictionaries and destructuring patterns, and their items.
ghost use Rattle.std.specs.Prelude.{◌≡◌};
ghost use Rattle.typst_ast.specs.Expr.{IsExprOf, IsOptionalExprOf};
ghost use Rattle.typst_ast.specs.Kinds.{is_array_item_kind, is_dict_item_kind};
ghost use Rattle.typst_ast.specs.Pattern.{IsPatternOf};
ghost use Rattle.typst_ast.specs.View.{IsOptionalAtom, node_of};
ghost use Rattle.typst_node.specs.Children.{all_children, children_in, first_child, last_child};
ghost use Rattle.typst_atoms.specs.Classes.{is_destructuring_item_kind, is_pattern_kind};
ghost use Rattle.typst_atoms.specs.ExprKinds.{is_expr_kind};
ghost use Rattle.typst_node.specs.Items.{nodes_ahead, nodes_left};
ghost use Rattle.typst_atoms.specs.Kinds.{is_kind};
ghost use Rattle.typst_atoms.specs.View.{atom_node};
ghost use Rattle.typst_base.specs.declared.kind.SyntaxKind.TheVariants as kinds;

use crate::array_item::ArrayItem;
use crate::destructuring_item::DestructuringItem;
use crate::dict_item::DictItem;
use crate::expr::Expr;
use crate::nodes::{first_expr, last_expr};
use crate::pattern::Pattern;
use crate::views::{Array, Destructuring, Dict, Ident, Keyed, Named, Spread};
use typst_atoms::{cast_all, cast_first, cast_last, try_cast_first};
use typst_node::Items;

impl<'a> Array<'a> {
    /// The items in order. They can be read from both ends.
    pub fn items(self) -> Items<'a, ArrayItem<'a>>
        ensures left { nodes_left is_array_item_kind result ≡ all_children is_array_item_kind (node_of self.entry) }
        ensures ahead { nodes_ahead result ≡ children_in (node_of self.entry) }
    {
        cast_all(self.node())
    }
}

impl<'a> Dict<'a> {
    /// The items in order. They can be read from both ends.
    pub fn items(self) -> Items<'a, DictItem<'a>>
        ensures left { nodes_left is_dict_item_kind result ≡ all_children is_dict_item_kind (node_of self.entry) }
        ensures ahead { nodes_ahead result ≡ children_in (node_of self.entry) }
    {
        cast_all(self.node())
    }
}

impl<'a> Destructuring<'a> {
    /// The items in order. They can be read from both ends.
    pub fn items(self) -> Items<'a, DestructuringItem<'a>>
        ensures left { nodes_left is_destructuring_item_kind result
            ≡ all_children is_destructuring_item_kind (node_of self.entry) }
        ensures ahead { nodes_ahead result ≡ children_in (node_of self.entry) }
    {
        cast_all(self.node())
    }
}

impl<'a> Named<'a> {
    /// The name: `thickness` of `thickness: 3pt`.
    pub fn name(self) -> Ident<'a>
        ensures { atom_node result ≡ first_child (is_kind kinds.Ident) (node_of self.entry) }
    {
        cast_first(self.node())
    }

    /// The expression after the name. If the pair is part of a pattern, use [`Self::pattern`].
    pub fn expr(self) -> Expr<'a>
        ensures { IsExprOf (last_child is_expr_kind (node_of self.entry)) result }
    {
        last_expr(self.node())
    }

    /// The pattern after the name, if the pair is part of a pattern.
    pub fn pattern(self) -> Pattern<'a>
        ensures { IsPatternOf (last_child is_pattern_kind (node_of self.entry)) result }
    {
        cast_last(self.node())
    }
}

impl<'a> Keyed<'a> {
    /// The key: `"spaced key"` of `"spaced key": true`.
    pub fn key(self) -> Expr<'a>
        ensures { IsExprOf (first_child is_expr_kind (node_of self.entry)) result }
    {
        first_expr(self.node())
    }

    /// The expression after the key.
    pub fn expr(self) -> Expr<'a>
        ensures { IsExprOf (last_child is_expr_kind (node_of self.entry)) result }
    {
        last_expr(self.node())
    }
}

impl<'a> Spread<'a> {
    /// The expression that is spread. If the spread is in a pattern or among parameters, use [`Self::sink_expr`] or
    /// [`Self::sink_ident`].
    pub fn expr(self) -> Expr<'a>
        ensures { IsExprOf (first_child is_expr_kind (node_of self.entry)) result }
    {
        first_expr(self.node())
    }

    /// The name of the sink, if it has one: the first identifier. It has a meaning only if the spread is in a pattern
    /// or among parameters.
    pub fn sink_ident(self) -> Option<Ident<'a>>
        ensures { IsOptionalAtom kinds.Ident (first_child (is_kind kinds.Ident) (node_of self.entry)) result }
    {
        try_cast_first(self.node())
    }

    /// The expression of the sink, if it has one: the first expression. It has a meaning only if the spread is in a
    /// pattern.
    pub fn sink_expr(self) -> Option<Expr<'a>>
        ensures { IsOptionalExprOf (first_child is_expr_kind (node_of self.entry)) result }
    {
        try_cast_first(self.node())
    }
}
