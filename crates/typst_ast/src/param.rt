//! A parameter of a closure.
ghost use Rattle.typst_ast.specs.Kinds.{is_param_kind};

use crate::pattern::Pattern;
use crate::views::{Named, Spread};
use std::hash::Hash;
use typst_base::{Span, SyntaxKind};
use typst_node::{AstNode, SyntaxNode, span_of};

/// A parameter of a closure.
#[derive(Clone, Copy, Debug, Hash)]
pub enum Param<'a> {
    /// A positional parameter: `x`.
    Pos(Pattern<'a>),
    /// A named parameter with a default value: `draw: false`.
    Named(Named<'a>),
    /// An argument sink: `..args` or `..`.
    Spread(Spread<'a>),
}

/// Two parameters are equal if they are of one variant, and of the same tree or both placeholders. Spans and bounds
/// count. A comparison takes time at most in proportion to the smaller tree, and no memory.
impl<'a> PartialEq for Param<'a> {
    ghost use Rattle.std.specs.Prelude.{◌≡◌, ◌↔◌, IsTrue};
    ghost use Rattle.typst_ast.specs.EqualViews.{AreSameParams, params_eq, params_laws};

    ghost eq = { params_eq };

    ghost laws = { params_laws };

    fn eq(&self, other: &Self) -> bool
        ensures is { result ≡ params_eq self.now other.now }
        ensures same { IsTrue result ↔ AreSameParams self.now other.now }
    {
        match (self, other) {
            (Param::Pos(view), Param::Pos(other)) => *view == *other,
            (Param::Named(view), Param::Named(other)) => *view == *other,
            (Param::Spread(view), Param::Spread(other)) => *view == *other,
            _ => false,
        }
    }
}

impl<'a> Eq for Param<'a> {
    ghost use Rattle.typst_ast.specs.EqualViews.{params_equivalence};

    ghost laws = { params_equivalence };
}

#[derived]
impl<'a> Hash for Param<'a> {
    ghost use Rattle.typst_ast.specs.EqualHashes.{params_alike};

    ghost respects_eq = { params_alike };
}

impl<'a> AstNode<'a> for Param<'a> {
    ghost use Rattle.std.specs.Prelude.{refl};
    ghost use Rattle.typst_ast.specs.Param.{param_node, param_kind, param_kind_is_node_kind, is_proper_param};
    ghost use Rattle.typst_base.specs.declared.kind.SyntaxKind.TheVariants as kinds;

    ghost class = { is_param_kind };

    ghost node_of = { param_node };

    ghost view_kind = { param_kind };

    ghost blank = { kinds.None };

    ghost proper = { is_proper_param };

    ghost blank_in_class = { refl };

    ghost kind_is_node_kind = { param_kind_is_node_kind };

    fn from_untyped(node: &'a SyntaxNode) -> Option<Self> {
        match node.kind() {
            SyntaxKind::Named => Some(Param::Named(Named::of_kind(node))),
            SyntaxKind::Spread => Some(Param::Spread(Spread::of_kind(node))),
            _ => Some(Param::Pos(Pattern::from_untyped(node)?)),
        }
    }

    fn to_untyped(self) -> Option<&'a SyntaxNode> {
        match self {
            Param::Pos(view) => view.to_untyped(),
            Param::Named(view) => view.to_untyped(),
            Param::Spread(view) => view.to_untyped(),
        }
    }

    fn span(self) -> Span {
        span_of(self.to_untyped())
    }

    fn kind(self) -> SyntaxKind {
        match self {
            Param::Pos(view) => view.kind(),
            Param::Named(view) => view.kind(),
            Param::Spread(view) => view.kind(),
        }
    }

    fn placeholder() -> Self {
        Param::Pos(Pattern::placeholder())
    }
}
