//! Accessors of math.
ghost use Rattle.std.specs.Prelude.{◌≡◌};
ghost use Rattle.typst_ast.specs.Equations.{is_block_equation, is_deparenthesized};
ghost use Rattle.typst_ast.specs.Expr.{IsExprOf, IsOptionalExprOf};
ghost use Rattle.typst_ast.specs.Lists.{of_class};
ghost use Rattle.typst_ast.specs.Roots.{IsRootIndex};
ghost use Rattle.typst_ast.specs.View.{IsOptionalAtom, node_of};
ghost use Rattle.typst_node.specs.Children.{all_in, behind_first, children_in, first_of, first_child, last_child};
ghost use Rattle.typst_atoms.specs.ExprKinds.{is_expr_kind};
ghost use Rattle.typst_atoms.specs.Kinds.{is_kind, is_math_access_kind};
ghost use Rattle.typst_atoms.specs.MathAccess.{IsMathAccessOf};
ghost use Rattle.typst_atoms.specs.Texts.{text_in};
ghost use Rattle.typst_base.specs.declared.kind.SyntaxKind.TheVariants as kinds;

use crate::expr::Expr;
use crate::nodes::{
    all_but_last, behind_first_expr, first_expr, first_expr_in, is_of_kind, last, last_expr, second,
};
use crate::views::{
    Equation, Math, MathArgs, MathAttach, MathCall, MathDelimited, MathFrac, MathPrimes, MathRoot,
};
use typst_atoms::nodes::{behind, children};
use typst_atoms::{MathAccess, cast_first, cast_last};
use typst_base::SyntaxKind;
use typst_node::{AstNode, SyntaxNode};

impl<'a> Equation<'a> {
    /// The equation's content.
    pub fn body(self) -> Math<'a>
        ensures { node_of result ≡ first_child (is_kind kinds.Math) (node_of self.entry) }
    {
        cast_first(self.node())
    }

    /// Whether the equation is a block: its second child and its last child but one are spaces.
    pub fn block(self) -> bool
        ensures { result ≡ is_block_equation (children_in (node_of self.entry)) }
    {
        let nodes = children(self.node());
        is_of_kind(second(nodes), SyntaxKind::Space)
            && is_of_kind(last(all_but_last(nodes)), SyntaxKind::Space)
    }
}

impl<'a> Math<'a> {
    /// Whether these are the contents of parens that were removed. There are at least two children, the first is an
    /// opening paren, and the last is a closing paren.
    pub fn was_deparenthesized(self) -> bool
        ensures { result ≡ is_deparenthesized (children_in (node_of self.entry)) }
    {
        match children(self.node()) {
            [first, rest @ ..] => {
                first.kind() == SyntaxKind::LeftParen
                    && is_of_kind(last(rest), SyntaxKind::RightParen)
            }
            [] => false,
        }
    }
}

impl<'a> MathCall<'a> {
    /// The function that is called.
    pub fn callee(self) -> MathAccess<'a>
        ensures { IsMathAccessOf (first_child is_math_access_kind (node_of self.entry)) result }
    {
        cast_first(self.node())
    }

    /// The arguments of the call.
    pub fn args(self) -> MathArgs<'a>
        ensures { node_of result ≡ last_child (is_kind kinds.MathArgs) (node_of self.entry) }
    {
        cast_last(self.node())
    }
}

impl<'a> MathDelimited<'a> {
    /// The opening delimiter.
    pub fn open(self) -> Expr<'a>
        ensures { IsExprOf (first_child is_expr_kind (node_of self.entry)) result }
    {
        first_expr(self.node())
    }

    /// The contents without the delimiters.
    pub fn body(self) -> Math<'a>
        ensures { node_of result ≡ first_child (is_kind kinds.Math) (node_of self.entry) }
    {
        cast_first(self.node())
    }

    /// The closing delimiter.
    pub fn close(self) -> Expr<'a>
        ensures { IsExprOf (last_child is_expr_kind (node_of self.entry)) result }
    {
        last_expr(self.node())
    }
}

/// The first node, if it is primes.
fn first_primes<'a>(nodes: &'a [SyntaxNode]) -> Option<MathPrimes<'a>>
    ensures { IsOptionalAtom kinds.MathPrimes
        (of_class (is_kind kinds.MathPrimes) (first_of nodes.now)) result }
{
    match nodes {
        [first, ..] => MathPrimes::from_untyped(first),
        [] => None,
    }
}

impl<'a> MathAttach<'a> {
    /// The base of the attachments.
    pub fn base(self) -> Expr<'a>
        ensures { IsExprOf (first_child is_expr_kind (node_of self.entry)) result }
    {
        first_expr(self.node())
    }

    /// The bottom attachment: the first expression after the first underscore.
    pub fn bottom(self) -> Option<Expr<'a>>
        ensures { IsOptionalExprOf
            (first_of (all_in is_expr_kind
            (behind_first (is_kind kinds.Underscore) (children_in (node_of self.entry)))))
            result }
    {
        first_expr_in(behind(self.node(), SyntaxKind::Underscore))
    }

    /// The top attachment: the first expression after the first hat.
    pub fn top(self) -> Option<Expr<'a>>
        ensures { IsOptionalExprOf
            (first_of (all_in is_expr_kind
            (behind_first (is_kind kinds.Hat) (children_in (node_of self.entry)))))
            result }
    {
        first_expr_in(behind(self.node(), SyntaxKind::Hat))
    }

    /// The primes, if they come directly after the base.
    pub fn primes(self) -> Option<MathPrimes<'a>>
        ensures { IsOptionalAtom kinds.MathPrimes
            (of_class (is_kind kinds.MathPrimes)
            (first_of (behind_first is_expr_kind (children_in (node_of self.entry)))))
            result }
    {
        first_primes(behind_first_expr(children(self.node())))
    }
}

impl<'a> MathFrac<'a> {
    /// The numerator.
    pub fn num(self) -> Expr<'a>
        ensures { IsExprOf (first_child is_expr_kind (node_of self.entry)) result }
    {
        first_expr(self.node())
    }

    /// The denominator.
    pub fn denom(self) -> Expr<'a>
        ensures { IsExprOf (last_child is_expr_kind (node_of self.entry)) result }
    {
        last_expr(self.node())
    }
}

impl<'a> MathRoot<'a> {
    /// The index: 3 if the first child is `∛`, 4 if it is `∜`, else none.
    pub fn index(self) -> Option<u8>
        ensures { IsRootIndex (text_in (first_of (children_in (node_of self.entry)))) result }
    {
        match children(self.node()) {
            [sign, ..] => match sign.leaf_text() {
                "∛" => Some(3),
                "∜" => Some(4),
                _ => None,
            },
            [] => None,
        }
    }

    /// The radicand of the root.
    pub fn radicand(self) -> Expr<'a>
        ensures { IsExprOf (first_child is_expr_kind (node_of self.entry)) result }
    {
        first_expr(self.node())
    }
}
