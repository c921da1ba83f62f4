//! The expressions of markup and of math. They can be read from both ends.
ghost use Rattle.std.specs.Prelude.{◌≡◌, ◌↔◌, true, IsSome, IfSome, Some, length};
ghost use Rattle.std.specs.Iterator.{UpTo, YieldsFirstBy, YieldsLastBy, at_most, item_count};
ghost use Rattle.std.specs.Iterator.SizeHint.{IsWithinCount};
ghost use Rattle.typst_ast.specs.Expr.{IsExprOf};
ghost use Rattle.typst_ast.specs.ExprTable.{expr_node, expr_kind};
ghost use Rattle.typst_ast.specs.Exprs.{is_expr_or_space_kind, markup_exprs, nodes_ahead, exprs_left, told_exprs_left};
ghost use Rattle.typst_ast.specs.View.{node_of};
ghost use Rattle.typst_node.specs.Children.{all_children, children_in};
ghost use Rattle.typst_node.specs.Views.{node_kind, told};

use crate::expr::Expr;
use crate::views as of;
use std::iter::FusedIterator;
use typst_atoms::KeptNodes;
use typst_atoms::expr_kinds::is_expr;
use typst_base::SyntaxKind;
use typst_node::{AstNode, SyntaxNode};

/// The expressions and spaces of markup or of math, in order. They can be read from both ends.
///
/// Markup leaves out each space directly after a statement. Each step skips the children of other kinds, so all steps
/// together read the children once.
#[derive(Clone, Debug, Drop)]
pub struct Exprs<'a> {
    nodes: KeptNodes<'a>,
}

/// Whether nodes of the kind are expressions or spaces.
fn is_expr_or_space(kind: SyntaxKind) -> bool
    ensures { result ≡ is_expr_or_space_kind kind }
{
    kind == SyntaxKind::Space || is_expr(kind)
}

/// The view of the node as an expression or a space, if it is one.
fn expr_or_space<'a>(node: &'a SyntaxNode) -> Option<Expr<'a>>
    ensures in_class { IsSome result ↔ (is_expr_or_space_kind (node_kind node.now) ≡ true) }
    ensures view { IfSome result (IsExprOf (Some node.now)) }
{
    if node.kind() == SyntaxKind::Space {
        Some(Expr::Space(of::Space::of_kind(node)))
    } else {
        Expr::from_untyped(node)
    }
}

impl<'a> Iterator for Exprs<'a> {
    type Item = Expr<'a>;

    ghost next_gives = { YieldsFirstBy (told expr_node expr_kind (λ _. true)) told_exprs_left };

    ghost remaining = { item_count exprs_left };

    fn next(&mut self) -> Option<Expr<'a>> {
        self.nodes.find_map(expr_or_space)
    }

    /// At least 0, and at most the number of nodes that it hasn't passed yet.
    #[tactic(auto, using(typst_node::proofs::NoMore::no_more_in_class))]
    fn size_hint(&self) -> (usize, Option<usize>)
        ensures lower { IsWithinCount result.0 (at_most (length (exprs_left self.now))) }
        ensures upper { IfSome result.1 (UpTo (at_most (length (exprs_left self.now)))) }
        ensures exact { result ≡ (0, Some (length (nodes_ahead self.now))) }
    {
        self.nodes.size_hint()
    }
}

impl<'a> DoubleEndedIterator for Exprs<'a> {
    ghost next_back_gives = { YieldsLastBy (told expr_node expr_kind (λ _. true)) told_exprs_left };

    fn next_back(&mut self) -> Option<Expr<'a>> {
        let node = self.nodes.rfind(|node| is_expr_or_space(node.kind()))?;
        expr_or_space(node)
    }
}

impl<'a> FusedIterator for Exprs<'a> {}

impl<'a> of::Markup<'a> {
    /// The expressions and spaces in order. They can be read from both ends. A space directly after a statement is left
    /// out.
    pub fn exprs(self) -> Exprs<'a>
        ensures left { exprs_left result ≡ markup_exprs (children_in (node_of self.entry)) }
        ensures ahead { nodes_ahead result ≡ children_in (node_of self.entry) }
    {
        Exprs {
            nodes: KeptNodes::of_markup(self.node()),
        }
    }
}

impl<'a> of::Math<'a> {
    /// The expressions and spaces in order. They can be read from both ends.
    pub fn exprs(self) -> Exprs<'a>
        ensures left { exprs_left result ≡ all_children is_expr_or_space_kind (node_of self.entry) }
        ensures ahead { nodes_ahead result ≡ children_in (node_of self.entry) }
    {
        Exprs {
            nodes: KeptNodes::of_all(self.node()),
        }
    }
}
