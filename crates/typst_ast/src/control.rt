//! Conditionals, loops and returns.
ghost use Rattle.typst_ast.specs.Expr.{IsExprOf, IsOptionalExprOf};
ghost use Rattle.typst_ast.specs.Pattern.{IsPatternOf};
ghost use Rattle.typst_ast.specs.Lists.{third_of};
ghost use Rattle.typst_ast.specs.View.{node_of};
ghost use Rattle.typst_node.specs.Children.{all_children, all_in, behind_first, children_in, first_child, first_of, last_child, second_child};
ghost use Rattle.typst_atoms.specs.Classes.{is_pattern_kind};
ghost use Rattle.typst_atoms.specs.ExprKinds.{is_expr_kind};
ghost use Rattle.typst_atoms.specs.Kinds.{is_kind};
ghost use Rattle.typst_base.specs.declared.kind.SyntaxKind.TheVariants as kinds;

use crate::expr::Expr;
use crate::nodes::{first_expr, first_expr_in, last_expr, second_expr, third_expr};
use crate::pattern::Pattern;
use crate::views::{Conditional, ForLoop, FuncReturn, WhileLoop};
use typst_atoms::nodes::{behind, children};
use typst_atoms::{cast_first, try_cast_last};
use typst_base::SyntaxKind;
use typst_node::AstNode;

impl<'a> Conditional<'a> {
    /// The condition.
    pub fn condition(self) -> Expr<'a>
        ensures { IsExprOf (first_child is_expr_kind (node_of self.entry)) result }
    {
        first_expr(self.node())
    }

    /// The expression for a true condition: the second expression.
    pub fn if_body(self) -> Expr<'a>
        ensures { IsExprOf (second_child is_expr_kind (node_of self.entry)) result }
    {
        match second_expr(children(self.node())) {
            Some(body) => body,
            None => Expr::placeholder(),
        }
    }

    /// The expression for a false condition: the third expression, if there is one.
    pub fn else_body(self) -> Option<Expr<'a>>
        ensures { IsOptionalExprOf (third_of (all_children is_expr_kind (node_of self.entry))) result }
    {
        third_expr(children(self.node()))
    }
}

impl<'a> WhileLoop<'a> {
    /// The condition.
    pub fn condition(self) -> Expr<'a>
        ensures { IsExprOf (first_child is_expr_kind (node_of self.entry)) result }
    {
        first_expr(self.node())
    }

    /// The loop's body.
    pub fn body(self) -> Expr<'a>
        ensures { IsExprOf (last_child is_expr_kind (node_of self.entry)) result }
    {
        last_expr(self.node())
    }
}

impl<'a> ForLoop<'a> {
    /// The pattern that each item is bound to.
    pub fn pattern(self) -> Pattern<'a>
        ensures { IsPatternOf (first_child is_pattern_kind (node_of self.entry)) result }
    {
        cast_first(self.node())
    }

    /// The value that the loop goes through: the first expression after the first `in`.
    pub fn iterable(self) -> Expr<'a>
        ensures { IsExprOf
            (first_of (all_in is_expr_kind
            (behind_first (is_kind kinds.In) (children_in (node_of self.entry)))))
            result }
    {
        match first_expr_in(behind(self.node(), SyntaxKind::In)) {
            Some(expr) => expr,
            None => Expr::placeholder(),
        }
    }

    /// The loop's body.
    pub fn body(self) -> Expr<'a>
        ensures { IsExprOf (last_child is_expr_kind (node_of self.entry)) result }
    {
        last_expr(self.node())
    }
}

impl<'a> FuncReturn<'a> {
    /// The value that is returned, if there is one.
    pub fn body(self) -> Option<Expr<'a>>
        ensures { IsOptionalExprOf (last_child is_expr_kind (node_of self.entry)) result }
    {
        try_cast_last(self.node())
    }
}
