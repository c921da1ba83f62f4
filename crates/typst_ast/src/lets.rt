//! Let bindings and assignments of parts.
ghost use Rattle.std.specs.Prelude.{◌≡◌};
ghost use Rattle.std.specs.Option.{option_copied};
ghost use Rattle.typst_ast.specs.Expr.{IsExprOf, IsOptionalExprOf};
ghost use Rattle.typst_ast.specs.LetBindings.{IsLetBindingKindOf, is_no_expr_besides, let_value};
ghost use Rattle.typst_ast.specs.Pattern.{IsPatternOf};
ghost use Rattle.typst_ast.specs.View.{node_of};
ghost use Rattle.typst_node.specs.Children.{first_child, last_child};
ghost use Rattle.typst_atoms.specs.Classes.{is_pattern_kind};
ghost use Rattle.typst_atoms.specs.ExprKinds.{is_expr_kind};
ghost use Rattle.typst_base.specs.declared.kind.SyntaxKind.TheVariants as kinds;
ghost use Rattle.typst_node.specs.Views.{kind_or};

use crate::expr::Expr;
use crate::nodes::{first_ident, last_expr, second_expr};
use crate::pattern::Pattern;
use crate::views::{DestructAssignment, Ident, LetBinding};
use std::hash::Hash;
use typst_atoms::bindings::first_pattern;
use typst_atoms::nodes::children;
use typst_atoms::{cast_first, try_cast_first};
use typst_base::SyntaxKind;
use typst_node::{AstNode, SyntaxNode};

/// The target of a let binding.
#[derive(Clone, Copy, Debug, Hash)]
pub enum LetBindingKind<'a> {
    /// The names of a pattern: `let x = 1`, `let (x, y) = z`.
    Normal(Pattern<'a>),
    /// The name of a closure: `let f(x) = 1`.
    Closure(Ident<'a>),
}

/// Two targets are equal if both have equal patterns, or if both have names of closures of the same tree. Spans and
/// bounds count. A comparison takes time at most in proportion to the smaller tree, and no memory.
impl<'a> PartialEq for LetBindingKind<'a> {
    ghost use Rattle.std.specs.Prelude.{◌≡◌, ◌↔◌, IsTrue};
    ghost use Rattle.typst_ast.specs.EqualViews.{AreSameLetBindingKinds, let_binding_kinds_eq, let_binding_kinds_laws};

    ghost eq = { let_binding_kinds_eq };

    ghost laws = { let_binding_kinds_laws };

    fn eq(&self, other: &Self) -> bool
        ensures is { result ≡ let_binding_kinds_eq self.now other.now }
        ensures same { IsTrue result ↔ AreSameLetBindingKinds self.now other.now }
    {
        match (self, other) {
            (LetBindingKind::Normal(view), LetBindingKind::Normal(other)) => *view == *other,
            (LetBindingKind::Closure(view), LetBindingKind::Closure(other)) => *view == *other,
            _ => false,
        }
    }
}

impl<'a> Eq for LetBindingKind<'a> {
    ghost use Rattle.typst_ast.specs.EqualViews.{let_binding_kinds_equivalence};

    ghost laws = { let_binding_kinds_equivalence };
}

#[derived]
impl<'a> Hash for LetBindingKind<'a> {
    ghost use Rattle.typst_ast.specs.EqualHashes.{let_binding_kinds_alike};

    ghost respects_eq = { let_binding_kinds_alike };
}

/// Whether the pattern is not an expression apart from the value. A closure is the value itself, and a `_` or a
/// destructuring is not an expression.
fn is_no_expr_besides(pattern: Option<&SyntaxNode>) -> bool
    ensures { result ≡ is_no_expr_besides (kind_or kinds.None (option_copied pattern.entry)) }
{
    match pattern {
        Some(pattern) => matches!(
            pattern.kind(),
            SyntaxKind::Closure | SyntaxKind::Underscore | SyntaxKind::Destructuring
        ),
        None => false,
    }
}

impl<'a> LetBinding<'a> {
    /// The target of the binding.
    pub fn kind(self) -> LetBindingKind<'a>
        ensures { IsLetBindingKindOf (node_of self.entry) result }
    {
        let pattern: Pattern<'a> = cast_first(self.node());
        if pattern.kind() == SyntaxKind::Closure {
            let name = first_ident(children(pattern.to_untyped()));
            LetBindingKind::Closure(name.unwrap_or(Ident::placeholder()))
        } else {
            LetBindingKind::Normal(pattern)
        }
    }

    /// The value that is bound. If the pattern is an expression apart from the value, it is the second expression. A
    /// closure is the value itself. After a `_` or a destructuring it is the first expression.
    pub fn init(self) -> Option<Expr<'a>>
        ensures { IsOptionalExprOf (let_value (node_of self.entry)) result }
    {
        if is_no_expr_besides(first_pattern(self.node())) {
            try_cast_first(self.node())
        } else {
            second_expr(children(self.node()))
        }
    }
}

impl<'a> DestructAssignment<'a> {
    /// The pattern whose parts are assigned to.
    pub fn pattern(self) -> Pattern<'a>
        ensures { IsPatternOf (first_child is_pattern_kind (node_of self.entry)) result }
    {
        cast_first(self.node())
    }

    /// The expression that is assigned.
    pub fn value(self) -> Expr<'a>
        ensures { IsExprOf (last_child is_expr_kind (node_of self.entry)) result }
    {
        last_expr(self.node())
    }
}
