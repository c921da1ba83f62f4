//! Kinds by their numbers: their names, classes and sets.
ghost use Rattle.std.specs.Prelude.{◌≡◌, IfOk, IfErr};
ghost use Rattle.typst_base.specs.KindNumber.{number_of};
ghost use Rattle.typst_base.specs.KindSet.{holds};
ghost use Rattle.typst_base.specs.declared.kind.SyntaxKind.{SyntaxKind};
ghost use Rattle.typst_session.specs.Kinds.{is_in_set, number_of_set, ClassesOf, IsNoKind, IsNoSet, NumbersName, TellsHolding, WritesName};

use crate::info::bit;
use crate::reading::write_bytes;
use crate::refusal::Refusal;
use typst_tree::{SyntaxKind, SyntaxSet, named_sets};

/// The classes of a kind: 1 if the kind is in the class, else 0.
#[repr(C)]
#[derive(Clone, Copy, Drop)]
pub struct KindClasses {
    /// A bracket, a brace or a parenthesis.
    pub grouping: u8,
    /// A token that ends an expression.
    pub terminator: u8,
    /// A block of code or of content.
    pub block: u8,
    /// A statement.
    pub stmt: u8,
    /// A keyword.
    pub keyword: u8,
    /// What a parser skips.
    pub trivia: u8,
}

/// A named set of kinds.
#[derive(Clone, Copy, PartialEq, Eq, Debug, Drop)]
pub enum KindSet {
    /// What a statement may begin with.
    Stmt,
    /// What an expression in an equation may begin with.
    MathExpr,
    /// What a code expression without an operator may begin with.
    AtomicCodeExpr,
    /// A unary operator.
    UnaryOp,
    /// A binary operator.
    BinaryOp,
    /// What a code expression may begin with.
    CodeExpr,
    /// What an item of an array or a dictionary may begin with.
    ArrayOrDictItem,
    /// What an argument may begin with.
    Arg,
    /// What a pattern that holds no other may begin with.
    PatternLeaf,
    /// What a pattern may begin with.
    Pattern,
    /// What a parameter may begin with.
    Param,
    /// What an item of a destructuring pattern may begin with.
    DestructuringItem,
}

/// The kind with a number. It may be the kind of errors.
pub(crate) fn kind_of(number: u32) -> Result<SyntaxKind, Refusal>
    ensures ok { IfOk result (λ kind. number_of kind ≡ number) }
    ensures err { IfErr result (IsNoKind number) }
{
    if number > 255 {
        return Err(Refusal::Kind);
    }
    let Some(kind) = SyntaxKind::from_u8(number as u8) else {
        return Err(Refusal::Kind);
    };
    // The comparison is for the proof: the number is the kind's number.
    if kind.to_u8() as u32 != number {
        return Err(Refusal::Kind);
    }
    Ok(kind)
}

/// Writes the name of the kind with a number, as messages to a user write it, and tells how long it is.
pub fn write_name(number: u32, out: &mut [u8], len: &mut usize) -> Result<(), Refusal>
    ensures { WritesName number (record { items = out.old; len = len.old }) (record { items = out.new; len = len.new })
        result }
{
    let kind = kind_of(number)?;
    write_bytes(kind.name().as_bytes(), out, len)
}

/// The number of the kind with a name. No two kinds have the same name.
pub fn kind_of_name(name: &[u8]) -> Result<u32, Refusal>
    ensures { NumbersName name.now result }
{
    for number in 0..137 {
        let Some(kind) = SyntaxKind::from_u8(number) else {
            unreachable!();
        };
        if kind.name().as_bytes() == name {
            return Ok(kind.to_u8() as u32);
        }
    }
    Err(Refusal::NotFound)
}

/// The classes of the kind with a number.
pub fn classes(number: u32) -> Result<KindClasses, Refusal>
    ensures { ClassesOf number result }
{
    let kind = kind_of(number)?;
    Ok(KindClasses {
        grouping: bit(kind.is_grouping()),
        terminator: bit(kind.is_terminator()),
        block: bit(kind.is_block()),
        stmt: bit(kind.is_stmt()),
        keyword: bit(kind.is_keyword()),
        trivia: bit(kind.is_trivia()),
    })
}

/// The kinds of a set.
fn kinds_of(set: KindSet) -> SyntaxSet
    ensures { (kind : SyntaxKind) → holds result kind ≡ is_in_set set kind }
{
    match set {
        KindSet::Stmt => named_sets::stmt(),
        KindSet::MathExpr => named_sets::math_expr(),
        KindSet::AtomicCodeExpr => named_sets::atomic_code_expr(),
        KindSet::UnaryOp => named_sets::unary_op(),
        KindSet::BinaryOp => named_sets::binary_op(),
        KindSet::CodeExpr => named_sets::code_expr(),
        KindSet::ArrayOrDictItem => named_sets::array_or_dict_item(),
        KindSet::Arg => named_sets::arg(),
        KindSet::PatternLeaf => named_sets::pattern_leaf(),
        KindSet::Pattern => named_sets::pattern(),
        KindSet::Param => named_sets::param(),
        KindSet::DestructuringItem => named_sets::destructuring_item(),
    }
}

/// The set with a number, in the order of the variants.
fn set_of(number: u32) -> Result<KindSet, Refusal>
    ensures ok { IfOk result (λ set. number_of_set set ≡ number) }
    ensures err { IfErr result (IsNoSet number) }
{
    Ok(match number {
        0 => KindSet::Stmt,
        1 => KindSet::MathExpr,
        2 => KindSet::AtomicCodeExpr,
        3 => KindSet::UnaryOp,
        4 => KindSet::BinaryOp,
        5 => KindSet::CodeExpr,
        6 => KindSet::ArrayOrDictItem,
        7 => KindSet::Arg,
        8 => KindSet::PatternLeaf,
        9 => KindSet::Pattern,
        10 => KindSet::Param,
        11 => KindSet::DestructuringItem,
        _ => return Err(Refusal::Set),
    })
}

/// Whether the set with a number, in the order of [`KindSet`], holds the kind with a number.
pub fn set_holds(set: u32, kind: u32) -> Result<bool, Refusal>
    ensures { TellsHolding set kind result }
{
    let set = set_of(set)?;
    let kind = kind_of(kind)?;
    Ok(kinds_of(set).contains(kind))
}
