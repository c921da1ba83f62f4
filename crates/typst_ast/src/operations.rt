//! Operations with operators, and accesses of fields.
ghost use Rattle.std.specs.Prelude.{◌≡◌};
ghost use Rattle.typst_ast.specs.Expr.{IsExprOf};
ghost use Rattle.typst_ast.specs.Operators.{binary_operator_in, unary_operator_in};
ghost use Rattle.typst_ast.specs.View.{node_of};
ghost use Rattle.typst_node.specs.Children.{children_in, first_child, last_child};
ghost use Rattle.typst_atoms.specs.ExprKinds.{is_expr_kind};
ghost use Rattle.typst_atoms.specs.Kinds.{is_kind};
ghost use Rattle.typst_atoms.specs.View.{atom_node};
ghost use Rattle.typst_base.specs.declared.kind.SyntaxKind.TheVariants as kinds;

use crate::expr::Expr;
use crate::nodes::{first_expr, last_expr};
use crate::views::{Binary, FieldAccess, Ident, Unary};
use typst_atoms::nodes::children;
use typst_atoms::{BinOp, UnOp, cast_last};
use typst_base::SyntaxKind;

impl<'a> Unary<'a> {
    /// The operator: that of the first child that is a unary operator, or `+` if there is none.
    pub fn op(self) -> UnOp
        ensures { result ≡ unary_operator_in (children_in (node_of self.entry)) }
    {
        children(self.node())
            .iter()
            .find_map(|child| UnOp::from_kind(child.kind()))
            .unwrap_or(UnOp::Pos)
    }

    /// The operand.
    pub fn expr(self) -> Expr<'a>
        ensures { IsExprOf (last_child is_expr_kind (node_of self.entry)) result }
    {
        last_expr(self.node())
    }
}

impl<'a> Binary<'a> {
    /// The operator: that of the first child that is a binary operator, or `+` if there is none. An `in` after a `not`
    /// is `not in`.
    #[tactic(auto, using(crate::proofs::OperatorBehind::behind_nothing_is_in))]
    pub fn op(self) -> BinOp
        ensures { result ≡ binary_operator_in (children_in (node_of self.entry)) }
    {
        let mut negated = false;
        for child in children(self.node()) {
            let kind = child.kind();
            if negated && kind == SyntaxKind::In {
                return BinOp::NotIn;
            }
            if let Some(op) = BinOp::from_kind(kind) {
                return op;
            }
            negated = negated || kind == SyntaxKind::Not;
        }
        BinOp::Add
    }

    /// The left operand.
    pub fn lhs(self) -> Expr<'a>
        ensures { IsExprOf (first_child is_expr_kind (node_of self.entry)) result }
    {
        first_expr(self.node())
    }

    /// The right operand.
    pub fn rhs(self) -> Expr<'a>
        ensures { IsExprOf (last_child is_expr_kind (node_of self.entry)) result }
    {
        last_expr(self.node())
    }
}

impl<'a> FieldAccess<'a> {
    /// The target whose field is accessed.
    pub fn target(self) -> Expr<'a>
        ensures { IsExprOf (first_child is_expr_kind (node_of self.entry)) result }
    {
        first_expr(self.node())
    }

    /// The field's name.
    pub fn field(self) -> Ident<'a>
        ensures { atom_node result ≡ last_child (is_kind kinds.Ident) (node_of self.entry) }
    {
        cast_last(self.node())
    }
}
