//! The named sets of kinds: what an expression, a statement, a pattern and the like may begin with.
ghost use Rattle.std.specs.Prelude.{◌≡◌};
ghost use Rattle.typst_base.specs.KindSet.{holds};
ghost use Rattle.typst_base.specs.NamedSets.{arg_set, array_or_dict_item_set, atomic_code_expr_set, binary_op_set, code_expr_set, destructuring_item_set, math_expr_set, param_set, pattern_leaf_set, pattern_set, stmt_set, unary_op_set};
ghost use Rattle.typst_base.specs.declared.kind.SyntaxKind.{SyntaxKind};

use crate::kind::SyntaxKind;
use crate::set::SyntaxSet;

/// The word with the bits of these kinds, whose numbers are below 128.
macro_rules! bits {
    ($($kind:ident),+) => {
        $(1u128 << SyntaxKind::$kind as u32)|+
    };
}

/// The kinds that a statement may begin with, as bits.
const STMT: u128 = bits!(Let, Set, Show, Return, Import, Include);

/// The kinds that an expression in an equation may begin with, as bits.
const MATH_EXPR: u128 = bits!(
    Linebreak,
    Escape,
    MathText,
    MathIdent,
    MathFieldAccess,
    MathShorthand,
    MathAlignPoint,
    MathPrimes,
    Hash,
    LeftBrace,
    RightBrace,
    LeftParen,
    RightParen,
    Comma,
    Semicolon,
    Dot,
    Root,
    Bang,
    Str
);

/// The kinds that a code expression without an operator may begin with, as bits.
const ATOMIC_CODE_EXPR: u128 = bits!(
    Raw,
    Label,
    LeftBrace,
    LeftBracket,
    LeftParen,
    Dollar,
    None,
    Auto,
    Let,
    Set,
    Show,
    Context,
    If,
    For,
    While,
    Break,
    Continue,
    Return,
    Import,
    Include,
    Ident,
    Bool,
    Int,
    Float,
    Numeric,
    Str
);

/// The kinds that a pattern without parts may begin with, as bits: those of an atomic expression.
const PATTERN_LEAF: u128 = ATOMIC_CODE_EXPR;

/// The kinds of operators before an operand, as bits.
const UNARY_OP: u128 = bits!(Plus, Minus, Not);

/// The kinds of operators between two operands, as bits.
const BINARY_OP: u128 = bits!(
    Star, Plus, Minus, Slash, Eq, EqEq, ExclEq, Lt, LtEq, Gt, GtEq, PlusEq, HyphEq, StarEq,
    SlashEq, And, Or, In
);

/// The kinds that a statement may begin with.
pub fn stmt() -> SyntaxSet
    ensures { (k : SyntaxKind) → holds result k ≡ stmt_set k }
{
    SyntaxSet::from_low_word(STMT)
}

/// The kinds that an expression in an equation may begin with.
pub fn math_expr() -> SyntaxSet
    ensures { (k : SyntaxKind) → holds result k ≡ math_expr_set k }
{
    SyntaxSet::from_low_word(MATH_EXPR)
}

/// The kinds that a code expression without an operator may begin with.
pub fn atomic_code_expr() -> SyntaxSet
    ensures { (k : SyntaxKind) → holds result k ≡ atomic_code_expr_set k }
{
    SyntaxSet::from_low_word(ATOMIC_CODE_EXPR)
}

/// The kinds of operators before an operand.
pub fn unary_op() -> SyntaxSet
    ensures { (k : SyntaxKind) → holds result k ≡ unary_op_set k }
{
    SyntaxSet::from_low_word(UNARY_OP)
}

/// The kinds of operators between two operands.
pub fn binary_op() -> SyntaxSet
    ensures { (k : SyntaxKind) → holds result k ≡ binary_op_set k }
{
    SyntaxSet::from_low_word(BINARY_OP)
}

/// The kinds that a code expression may begin with.
pub fn code_expr() -> SyntaxSet
    ensures { (k : SyntaxKind) → holds result k ≡ code_expr_set k }
{
    atomic_code_expr()
        .union(unary_op())
        .add(SyntaxKind::Underscore)
}

/// The kinds that an item of an array or a dictionary may begin with.
pub fn array_or_dict_item() -> SyntaxSet
    ensures { (k : SyntaxKind) → holds result k ≡ array_or_dict_item_set k }
{
    code_expr().add(SyntaxKind::Dots)
}

/// The kinds that an argument of a call may begin with.
pub fn arg() -> SyntaxSet
    ensures { (k : SyntaxKind) → holds result k ≡ arg_set k }
{
    let expr = code_expr();
    expr.add(SyntaxKind::Dots)
}

/// The kinds that a pattern without parts may begin with.
pub fn pattern_leaf() -> SyntaxSet
    ensures { (k : SyntaxKind) → holds result k ≡ pattern_leaf_set k }
{
    SyntaxSet::from_low_word(PATTERN_LEAF)
}

/// The kinds that a pattern may begin with.
pub fn pattern() -> SyntaxSet
    ensures { (k : SyntaxKind) → holds result k ≡ pattern_set k }
{
    pattern_leaf()
        .add(SyntaxKind::LeftParen)
        .add(SyntaxKind::Underscore)
}

/// The kinds that a parameter of a closure may begin with.
pub fn param() -> SyntaxSet
    ensures { (k : SyntaxKind) → holds result k ≡ param_set k }
{
    pattern().add(SyntaxKind::Dots)
}

/// The kinds that an item of a destructuring pattern may begin with.
pub fn destructuring_item() -> SyntaxSet
    ensures { (k : SyntaxKind) → holds result k ≡ destructuring_item_set k }
{
    let item = pattern();
    item.add(SyntaxKind::Dots)
}
