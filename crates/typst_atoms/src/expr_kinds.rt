// Written by bench/kinds.py from crates/kinds.txt: change that and run it.
//! The kinds of expressions.
ghost use Rattle.std.specs.Prelude.{◌≡◌};
ghost use Rattle.typst_atoms.specs.ExprKinds.{is_expr_kind};

use typst_base::SyntaxKind;

/// Whether a node of the kind is an expression: a variant of `Expr` that `from_untyped` answers, so not `Space`.
pub fn is_expr(kind: SyntaxKind) -> bool
    ensures { result ≡ is_expr_kind kind }
{
    matches!(
        kind,
        SyntaxKind::Text
            | SyntaxKind::Linebreak
            | SyntaxKind::Parbreak
            | SyntaxKind::Escape
            | SyntaxKind::Shorthand
            | SyntaxKind::SmartQuote
            | SyntaxKind::Strong
            | SyntaxKind::Emph
            | SyntaxKind::Raw
            | SyntaxKind::Link
            | SyntaxKind::Label
            | SyntaxKind::Ref
            | SyntaxKind::Heading
            | SyntaxKind::ListItem
            | SyntaxKind::EnumItem
            | SyntaxKind::TermItem
            | SyntaxKind::Equation
            | SyntaxKind::Math
            | SyntaxKind::MathText
            | SyntaxKind::MathIdent
            | SyntaxKind::MathFieldAccess
            | SyntaxKind::MathShorthand
            | SyntaxKind::MathAlignPoint
            | SyntaxKind::MathCall
            | SyntaxKind::MathDelimited
            | SyntaxKind::MathAttach
            | SyntaxKind::MathPrimes
            | SyntaxKind::MathFrac
            | SyntaxKind::MathRoot
            | SyntaxKind::None
            | SyntaxKind::Auto
            | SyntaxKind::Ident
            | SyntaxKind::Bool
            | SyntaxKind::Int
            | SyntaxKind::Float
            | SyntaxKind::Numeric
            | SyntaxKind::Str
            | SyntaxKind::CodeBlock
            | SyntaxKind::ContentBlock
            | SyntaxKind::Parenthesized
            | SyntaxKind::Array
            | SyntaxKind::Dict
            | SyntaxKind::Unary
            | SyntaxKind::Binary
            | SyntaxKind::FieldAccess
            | SyntaxKind::FuncCall
            | SyntaxKind::Closure
            | SyntaxKind::LetBinding
            | SyntaxKind::SetRule
            | SyntaxKind::ShowRule
            | SyntaxKind::Contextual
            | SyntaxKind::Conditional
            | SyntaxKind::WhileLoop
            | SyntaxKind::ForLoop
            | SyntaxKind::ModuleImport
            | SyntaxKind::ModuleInclude
            | SyntaxKind::LoopBreak
            | SyntaxKind::LoopContinue
            | SyntaxKind::FuncReturn
            | SyntaxKind::DestructAssignment
    )
}
