//! Parts of lists of nodes.
ghost use Rattle.std.specs.Prelude.{◌≡◌};
ghost use Rattle.std.specs.Option.{option_copied};
ghost use Rattle.typst_ast.specs.Expr.{IsExprOf, IsOptionalExprOf};
ghost use Rattle.typst_ast.specs.Lists.{all_but_last, before_last, last_significant, of_class, third_of};
ghost use Rattle.typst_ast.specs.View.{IsOptionalAtom};
ghost use Rattle.typst_node.specs.Children.{all_in, behind_first, first_child, first_of, last_child, last_of, second_of};
ghost use Rattle.typst_atoms.specs.ExprKinds.{is_expr_kind};
ghost use Rattle.typst_atoms.specs.Kinds.{is_kind};
ghost use Rattle.typst_atoms.specs.Missing.{is_of_kind};
ghost use Rattle.typst_base.specs.declared.kind.SyntaxKind.TheVariants as kinds;

use crate::expr::Expr;
use crate::views::Ident;
use typst_atoms::casts::{cast_first, cast_last};
use typst_atoms::expr_kinds::is_expr;
use typst_base::SyntaxKind;
use typst_node::casts::first_in;
use typst_node::{AstNode, SyntaxNode};

/// Whether there is a node of the kind.
pub(crate) fn is_of_kind(node: Option<&SyntaxNode>, kind: SyntaxKind) -> bool
    ensures { result ≡ is_of_kind kind (option_copied node.entry) }
{
    node.is_some_and(|node| node.kind() == kind)
}

/// The second node.
pub(crate) fn second(nodes: &[SyntaxNode]) -> Option<&SyntaxNode>
    ensures { option_copied result ≡ second_of nodes.now }
{
    match nodes {
        [_, second, ..] => Some(second),
        _ => None,
    }
}

/// The last node.
#[tactic(auto, using(typst_atoms::proofs::Ends::last_of_append))]
pub(crate) fn last(nodes: &[SyntaxNode]) -> Option<&SyntaxNode>
    ensures { option_copied result ≡ last_of nodes.now }
{
    match nodes.split_last() {
        Some((last, _)) => Some(last),
        None => None,
    }
}

/// The nodes without the last one.
#[tactic(auto, using(crate::proofs::Ends::all_but_last_append))]
pub(crate) fn all_but_last(nodes: &[SyntaxNode]) -> &[SyntaxNode]
    ensures { result.now ≡ all_but_last nodes.now }
{
    match nodes.split_last() {
        Some((_, before)) => before,
        None => nodes,
    }
}

/// The nodes after the first expression.
pub(crate) fn behind_first_expr(nodes: &[SyntaxNode]) -> &[SyntaxNode]
    ensures { result.now ≡ behind_first is_expr_kind nodes.now }
{
    match nodes.iter().position(|node| is_expr(node.kind())) {
        Some(first) => &nodes[first + 1..],
        None => &[],
    }
}

/// The first node, if it is an identifier.
pub(crate) fn first_ident<'a>(nodes: &'a [SyntaxNode]) -> Option<Ident<'a>>
    ensures { IsOptionalAtom kinds.Ident (of_class (is_kind kinds.Ident) (first_of nodes.now)) result }
{
    match nodes {
        [first, ..] => Ident::from_untyped(first),
        [] => None,
    }
}

/// The nodes before the last one of the kind. There are none if there is no such node.
pub(crate) fn before_last(nodes: &[SyntaxNode], kind: SyntaxKind) -> &[SyntaxNode]
    ensures { result.now ≡ before_last (is_kind kind) nodes.now }
{
    match nodes.iter().rposition(|node| node.kind() == kind) {
        Some(last) => &nodes[..last],
        None => &[],
    }
}

/// The last node that isn't trivia.
pub(crate) fn last_significant(nodes: &[SyntaxNode]) -> Option<&SyntaxNode>
    ensures { option_copied result ≡ last_significant nodes.now }
{
    nodes.iter().rev().find(|node| !node.kind().is_trivia())
}

/// The first child that is an expression, or the placeholder of expressions.
pub(crate) fn first_expr<'a>(node: Option<&'a SyntaxNode>) -> Expr<'a>
    ensures { IsExprOf (first_child is_expr_kind (option_copied node.entry)) result }
{
    cast_first(node)
}

/// The last child that is an expression, or the placeholder of expressions.
pub(crate) fn last_expr<'a>(node: Option<&'a SyntaxNode>) -> Expr<'a>
    ensures { IsExprOf (last_child is_expr_kind (option_copied node.entry)) result }
{
    cast_last(node)
}

/// The first of these nodes that is an expression.
pub(crate) fn first_expr_in<'a>(nodes: &'a [SyntaxNode]) -> Option<Expr<'a>>
    ensures { IsOptionalExprOf (first_of (all_in is_expr_kind nodes.now)) result }
{
    first_in(nodes)
}

/// The second node that is an expression.
pub(crate) fn second_expr<'a>(nodes: &'a [SyntaxNode]) -> Option<Expr<'a>>
    ensures { IsOptionalExprOf (second_of (all_in is_expr_kind nodes.now)) result }
{
    first_expr_in(behind_first_expr(nodes))
}

/// The third node that is an expression.
pub(crate) fn third_expr<'a>(nodes: &'a [SyntaxNode]) -> Option<Expr<'a>>
    ensures { IsOptionalExprOf (third_of (all_in is_expr_kind nodes.now)) result }
{
    let behind_one = behind_first_expr(nodes);
    let behind_two = behind_first_expr(behind_one);
    first_expr_in(behind_two)
}
