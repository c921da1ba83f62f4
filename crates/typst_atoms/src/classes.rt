//! The classes of kinds that hold expressions and more: arguments and patterns.
ghost use Rattle.std.specs.Prelude.{◌≡◌};
ghost use Rattle.typst_atoms.specs.Classes.{is_arg_kind, is_pattern_kind};

use crate::expr_kinds::is_expr;
use typst_base::SyntaxKind;

/// Whether nodes of the kind are arguments of function calls: expressions, named pairs and spreads.
pub fn is_arg(kind: SyntaxKind) -> bool
    ensures { result ≡ is_arg_kind kind }
{
    matches!(kind, SyntaxKind::Named | SyntaxKind::Spread) || is_expr(kind)
}

/// Whether nodes of the kind are patterns: expressions, underscores, groups and destructurings.
pub fn is_pattern(kind: SyntaxKind) -> bool
    ensures { result ≡ is_pattern_kind kind }
{
    matches!(
        kind,
        SyntaxKind::Underscore | SyntaxKind::Parenthesized | SyntaxKind::Destructuring
    ) || is_expr(kind)
}
