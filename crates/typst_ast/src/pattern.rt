//! The target of a binding: a single name, or parts of a value.
ghost use Rattle.typst_atoms.specs.Classes.{is_pattern_kind};

use crate::expr::Expr;
use crate::views as of;
use std::hash::Hash;
use typst_base::{Span, SyntaxKind};
use typst_node::{AstNode, SyntaxNode, span_of};

/// The target of a binding: a single name, or parts of a value.
#[derive(Clone, Copy, Debug, Hash)]
pub enum Pattern<'a> {
    /// A single expression: `x`.
    Normal(Expr<'a>),
    /// A placeholder, which binds nothing: `_`.
    Placeholder(of::Underscore<'a>),
    /// A parenthesized pattern: `(x)`.
    Parenthesized(of::Parenthesized<'a>),
    /// A destructuring pattern: `(x, _, ..y)`.
    Destructuring(of::Destructuring<'a>),
}

/// Two patterns are equal if they are of one variant, and of the same tree or both placeholders. Spans and bounds
/// count. A comparison takes time at most in proportion to the smaller tree, and no memory.
impl<'a> PartialEq for Pattern<'a> {
    ghost use Rattle.std.specs.Prelude.{◌≡◌, ◌↔◌, IsTrue};
    ghost use Rattle.typst_ast.specs.EqualViews.{AreSamePatterns, patterns_eq, patterns_laws};

    ghost eq = { patterns_eq };

    ghost laws = { patterns_laws };

    fn eq(&self, other: &Self) -> bool
        ensures is { result ≡ patterns_eq self.now other.now }
        ensures same { IsTrue result ↔ AreSamePatterns self.now other.now }
    {
        match (self, other) {
            (Pattern::Normal(view), Pattern::Normal(other)) => *view == *other,
            (Pattern::Placeholder(view), Pattern::Placeholder(other)) => *view == *other,
            (Pattern::Parenthesized(view), Pattern::Parenthesized(other)) => *view == *other,
            (Pattern::Destructuring(view), Pattern::Destructuring(other)) => *view == *other,
            _ => false,
        }
    }
}

impl<'a> Eq for Pattern<'a> {
    ghost use Rattle.typst_ast.specs.EqualViews.{patterns_equivalence};

    ghost laws = { patterns_equivalence };
}

#[derived]
impl<'a> Hash for Pattern<'a> {
    ghost use Rattle.typst_ast.specs.EqualHashes.{patterns_alike};

    ghost respects_eq = { patterns_alike };
}

impl<'a> AstNode<'a> for Pattern<'a> {
    ghost use Rattle.std.specs.Prelude.{refl};
    ghost use Rattle.typst_ast.specs.Pattern.{pattern_node, pattern_kind, pattern_kind_is_node_kind, is_proper_pattern};
    ghost use Rattle.typst_base.specs.declared.kind.SyntaxKind.TheVariants as kinds;

    ghost class = { is_pattern_kind };

    ghost node_of = { pattern_node };

    ghost view_kind = { pattern_kind };

    ghost blank = { kinds.None };

    ghost proper = { is_proper_pattern };

    ghost blank_in_class = { refl };

    ghost kind_is_node_kind = { pattern_kind_is_node_kind };

    fn from_untyped(node: &'a SyntaxNode) -> Option<Self> {
        Some(match node.kind() {
            SyntaxKind::Underscore => Pattern::Placeholder(of::Underscore::of_kind(node)),
            SyntaxKind::Parenthesized => Pattern::Parenthesized(of::Parenthesized::of_kind(node)),
            SyntaxKind::Destructuring => Pattern::Destructuring(of::Destructuring::of_kind(node)),
            _ => Pattern::Normal(Expr::from_untyped(node)?),
        })
    }

    fn to_untyped(self) -> Option<&'a SyntaxNode> {
        match self {
            Pattern::Normal(view) => view.to_untyped(),
            Pattern::Placeholder(view) => view.to_untyped(),
            Pattern::Parenthesized(view) => view.to_untyped(),
            Pattern::Destructuring(view) => view.to_untyped(),
        }
    }

    fn span(self) -> Span {
        span_of(self.to_untyped())
    }

    fn kind(self) -> SyntaxKind {
        match self {
            Pattern::Normal(view) => view.kind(),
            Pattern::Placeholder(view) => view.kind(),
            Pattern::Parenthesized(view) => view.kind(),
            Pattern::Destructuring(view) => view.kind(),
        }
    }

    fn placeholder() -> Self {
        Pattern::Normal(Expr::placeholder())
    }
}
