//! An argument of a function call.
ghost use Rattle.typst_atoms.specs.Classes.{is_arg_kind};

use crate::expr::Expr;
use crate::views::{Named, Spread};
use std::hash::Hash;
use typst_base::{Span, SyntaxKind};
use typst_node::{AstNode, SyntaxNode, span_of};

/// An argument of a function call.
#[derive(Clone, Copy, Debug, Hash)]
pub enum Arg<'a> {
    /// A positional argument: `12`.
    Pos(Expr<'a>),
    /// A named argument: `draw: false`.
    Named(Named<'a>),
    /// A spread argument: `..things`.
    Spread(Spread<'a>),
}

/// Two arguments are equal if they are of one variant, and of the same tree or both placeholders. Spans and bounds
/// count. A comparison takes time at most in proportion to the smaller tree, and no memory.
impl<'a> PartialEq for Arg<'a> {
    ghost use Rattle.std.specs.Prelude.{◌≡◌, ◌↔◌, IsTrue};
    ghost use Rattle.typst_ast.specs.EqualViews.{AreSameArgs, args_eq, args_laws};

    ghost eq = { args_eq };

    ghost laws = { args_laws };

    fn eq(&self, other: &Self) -> bool
        ensures is { result ≡ args_eq self.now other.now }
        ensures same { IsTrue result ↔ AreSameArgs self.now other.now }
    {
        match (self, other) {
            (Arg::Pos(view), Arg::Pos(other)) => *view == *other,
            (Arg::Named(view), Arg::Named(other)) => *view == *other,
            (Arg::Spread(view), Arg::Spread(other)) => *view == *other,
            _ => false,
        }
    }
}

impl<'a> Eq for Arg<'a> {
    ghost use Rattle.typst_ast.specs.EqualViews.{args_equivalence};

    ghost laws = { args_equivalence };
}

#[derived]
impl<'a> Hash for Arg<'a> {
    ghost use Rattle.typst_ast.specs.EqualHashes.{args_alike};

    ghost respects_eq = { args_alike };
}

impl<'a> AstNode<'a> for Arg<'a> {
    ghost use Rattle.std.specs.Prelude.{refl};
    ghost use Rattle.typst_ast.specs.Arg.{arg_node, arg_kind, arg_kind_is_node_kind};
    ghost use Rattle.typst_base.specs.declared.kind.SyntaxKind.TheVariants as kinds;

    ghost class = { is_arg_kind };

    ghost node_of = { arg_node };

    ghost view_kind = { arg_kind };

    ghost blank = { kinds.None };

    ghost blank_in_class = { refl };

    ghost kind_is_node_kind = { arg_kind_is_node_kind };

    fn from_untyped(node: &'a SyntaxNode) -> Option<Self> {
        match node.kind() {
            SyntaxKind::Named => Some(Arg::Named(Named::of_kind(node))),
            SyntaxKind::Spread => Some(Arg::Spread(Spread::of_kind(node))),
            _ => Some(Arg::Pos(Expr::from_untyped(node)?)),
        }
    }

    fn to_untyped(self) -> Option<&'a SyntaxNode> {
        match self {
            Arg::Pos(view) => view.to_untyped(),
            Arg::Named(view) => view.to_untyped(),
            Arg::Spread(view) => view.to_untyped(),
        }
    }

    fn span(self) -> Span {
        span_of(self.to_untyped())
    }

    fn kind(self) -> SyntaxKind {
        match self {
            Arg::Pos(view) => view.kind(),
            Arg::Named(view) => view.kind(),
            Arg::Spread(view) => view.kind(),
        }
    }

    fn placeholder() -> Self {
        Arg::Pos(Expr::placeholder())
    }
}
