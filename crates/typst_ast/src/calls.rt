//! Calls of functions, and closures.
ghost use Rattle.std.specs.Prelude.{◌≡◌};
ghost use Rattle.typst_ast.specs.Expr.{IsExprOf};
ghost use Rattle.typst_ast.specs.Kinds.{is_param_kind};
ghost use Rattle.typst_ast.specs.Lists.{all_but_last, last_significant};
ghost use Rattle.typst_ast.specs.Closures.{closure_name};
ghost use Rattle.typst_ast.specs.View.{IsOptionalAtom, node_of};
ghost use Rattle.typst_node.specs.Children.{all_children, children_in, first_child, last_child};
ghost use Rattle.typst_atoms.specs.Classes.{is_arg_kind};
ghost use Rattle.typst_atoms.specs.ExprKinds.{is_expr_kind};
ghost use Rattle.typst_node.specs.Items.{nodes_ahead, nodes_left};
ghost use Rattle.typst_atoms.specs.Kinds.{is_kind};
ghost use Rattle.typst_atoms.specs.Missing.{is_of_kind};
ghost use Rattle.typst_base.specs.declared.kind.SyntaxKind.TheVariants as kinds;

use crate::arg::Arg;
use crate::expr::Expr;
use crate::nodes::{
    all_but_last, first_expr, first_ident, is_of_kind, last_expr, last_significant,
};
use crate::param::Param;
use crate::views::{Args, Closure, FuncCall, Ident, Params};
use typst_atoms::nodes::children;
use typst_atoms::{cast_all, cast_first, cast_last};
use typst_base::SyntaxKind;
use typst_node::Items;

impl<'a> FuncCall<'a> {
    /// The function that is called.
    pub fn callee(self) -> Expr<'a>
        ensures { IsExprOf (first_child is_expr_kind (node_of self.entry)) result }
    {
        first_expr(self.node())
    }

    /// The arguments of the call.
    pub fn args(self) -> Args<'a>
        ensures { node_of result ≡ last_child (is_kind kinds.Args) (node_of self.entry) }
    {
        cast_last(self.node())
    }
}

impl<'a> Args<'a> {
    /// The arguments in order. They can be read from both ends.
    pub fn items(self) -> Items<'a, Arg<'a>>
        ensures left { nodes_left is_arg_kind result ≡ all_children is_arg_kind (node_of self.entry) }
        ensures ahead { nodes_ahead result ≡ children_in (node_of self.entry) }
    {
        cast_all(self.node())
    }

    /// Whether a comma comes after the last argument: among the children before the last one, the last child that isn't
    /// trivia is a comma.
    pub fn trailing_comma(self) -> bool
        ensures { result
            ≡ is_of_kind kinds.Comma (last_significant (all_but_last (children_in (node_of self.entry)))) }
    {
        let before = all_but_last(children(self.node()));
        is_of_kind(last_significant(before), SyntaxKind::Comma)
    }
}

impl<'a> Closure<'a> {
    /// The closure's name, if it has one. The name is then the first child.
    pub fn name(self) -> Option<Ident<'a>>
        ensures { IsOptionalAtom kinds.Ident (closure_name (node_of self.entry)) result }
    {
        first_ident(children(self.node()))
    }

    /// The closure's parameters.
    pub fn params(self) -> Params<'a>
        ensures { node_of result ≡ first_child (is_kind kinds.Params) (node_of self.entry) }
    {
        cast_first(self.node())
    }

    /// The closure's body.
    pub fn body(self) -> Expr<'a>
        ensures { IsExprOf (last_child is_expr_kind (node_of self.entry)) result }
    {
        last_expr(self.node())
    }
}

impl<'a> Params<'a> {
    /// The parameters in order. They can be read from both ends.
    pub fn children(self) -> Items<'a, Param<'a>>
        ensures left { nodes_left is_param_kind result ≡ all_children is_param_kind (node_of self.entry) }
        ensures ahead { nodes_ahead result ≡ children_in (node_of self.entry) }
    {
        cast_all(self.node())
    }
}
