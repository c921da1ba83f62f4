//! Code, and blocks of it.
ghost use Rattle.std.specs.Prelude.{◌≡◌};
ghost use Rattle.typst_ast.specs.Expr.{IsExprOf};
ghost use Rattle.typst_ast.specs.Pattern.{IsPatternOf};
ghost use Rattle.typst_ast.specs.View.{node_of};
ghost use Rattle.typst_node.specs.Children.{all_children, children_in, first_child};
ghost use Rattle.typst_atoms.specs.Classes.{is_pattern_kind};
ghost use Rattle.typst_atoms.specs.ExprKinds.{is_expr_kind};
ghost use Rattle.typst_node.specs.Items.{nodes_ahead, nodes_left};
ghost use Rattle.typst_atoms.specs.Kinds.{is_kind};
ghost use Rattle.typst_base.specs.declared.kind.SyntaxKind.TheVariants as kinds;

use crate::expr::Expr;
use crate::nodes::first_expr;
use crate::pattern::Pattern;
use crate::views::{Code, CodeBlock, Contextual, Parenthesized};
use typst_atoms::{cast_all, cast_first};
use typst_node::Items;

impl<'a> Code<'a> {
    /// The expressions in order. They can be read from both ends.
    pub fn exprs(self) -> Items<'a, Expr<'a>>
        ensures left { nodes_left is_expr_kind result ≡ all_children is_expr_kind (node_of self.entry) }
        ensures ahead { nodes_ahead result ≡ children_in (node_of self.entry) }
    {
        cast_all(self.node())
    }
}

impl<'a> CodeBlock<'a> {
    /// The block's code.
    pub fn body(self) -> Code<'a>
        ensures { node_of result ≡ first_child (is_kind kinds.Code) (node_of self.entry) }
    {
        cast_first(self.node())
    }
}

impl<'a> Parenthesized<'a> {
    /// The expression in the parens. If the parens are a pattern, use [`Self::pattern`].
    pub fn expr(self) -> Expr<'a>
        ensures { IsExprOf (first_child is_expr_kind (node_of self.entry)) result }
    {
        first_expr(self.node())
    }

    /// The pattern in the parens, if they are a pattern.
    pub fn pattern(self) -> Pattern<'a>
        ensures { IsPatternOf (first_child is_pattern_kind (node_of self.entry)) result }
    {
        cast_first(self.node())
    }
}

impl<'a> Contextual<'a> {
    /// The expression that depends on the context.
    pub fn body(self) -> Expr<'a>
        ensures { IsExprOf (first_child is_expr_kind (node_of self.entry)) result }
    {
        first_expr(self.node())
    }
}
