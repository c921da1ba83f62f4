//! Set rules and show rules.
ghost use Rattle.std.specs.Prelude.{◌≡◌};
ghost use Rattle.typst_ast.specs.Expr.{IsExprOf, IsOptionalExprOf};
ghost use Rattle.typst_ast.specs.Lists.{before_last};
ghost use Rattle.typst_ast.specs.View.{node_of};
ghost use Rattle.typst_node.specs.Children.{all_in, behind_first, children_in, first_child, first_of, last_child, last_of};
ghost use Rattle.typst_atoms.specs.ExprKinds.{is_expr_kind};
ghost use Rattle.typst_atoms.specs.Kinds.{is_kind};
ghost use Rattle.typst_base.specs.declared.kind.SyntaxKind.TheVariants as kinds;

use crate::expr::Expr;
use crate::nodes::{before_last, first_expr, first_expr_in, last_expr};
use crate::views::{Args, SetRule, ShowRule};
use typst_atoms::cast_last;
use typst_atoms::nodes::{behind, children};
use typst_base::SyntaxKind;
use typst_node::casts::last_in;

impl<'a> SetRule<'a> {
    /// The function whose defaults are set.
    pub fn target(self) -> Expr<'a>
        ensures { IsExprOf (first_child is_expr_kind (node_of self.entry)) result }
    {
        first_expr(self.node())
    }

    /// The arguments that become the defaults.
    pub fn args(self) -> Args<'a>
        ensures { node_of result ≡ last_child (is_kind kinds.Args) (node_of self.entry) }
    {
        cast_last(self.node())
    }

    /// The condition under which the rule holds: the first expression after the first `if`.
    pub fn condition(self) -> Option<Expr<'a>>
        ensures { IsOptionalExprOf
            (first_of (all_in is_expr_kind
            (behind_first (is_kind kinds.If) (children_in (node_of self.entry)))))
            result }
    {
        first_expr_in(behind(self.node(), SyntaxKind::If))
    }
}

impl<'a> ShowRule<'a> {
    /// The selector of the rule: the last expression before the last colon.
    pub fn selector(self) -> Option<Expr<'a>>
        ensures { IsOptionalExprOf
            (last_of (all_in is_expr_kind
            (before_last (is_kind kinds.Colon) (children_in (node_of self.entry)))))
            result }
    {
        last_in(before_last(children(self.node()), SyntaxKind::Colon))
    }

    /// The transformation of what the rule selects.
    pub fn transform(self) -> Expr<'a>
        ensures { IsExprOf (last_child is_expr_kind (node_of self.entry)) result }
    {
        last_expr(self.node())
    }
}
