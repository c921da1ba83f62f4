//! What every accessor of every view answers.

use crate::answers::Answers;
use crate::subject::Subject;
use crate::{code, control, imports, markup, math, pairs, texts};
use std::alloc::AllocError;
use typst_tree::ast::{AstNode, Expr, Pattern};
use typst_tree::{LinkedNode, SyntaxKind, SyntaxNode};

/// The answers for all nodes, each parent before its children.
pub fn views(out: &mut Answers, tree: &SyntaxNode) -> Result<(), AllocError> {
    for node in LinkedNode::new(tree).preorder(out.alloc)? {
        let node = node?;
        of_node(out, node.get());
    }
    Ok(())
}

/// The answers for a node of the tree: as an expression, as a pattern, and as its own view.
pub fn of_node(out: &mut Answers, node: &SyntaxNode) {
    let subject = Subject::Node(node);
    out.turn_to(subject.place());
    of_expr(out, Expr::from_untyped(node));
    of_pattern(out, Pattern::from_untyped(node));
    of_own_view(out, subject);
}

/// The answers of the view of the kind.
fn of_own_view(out: &mut Answers, subject: Subject) {
    of_content(out, subject);
    of_code(out, subject);
}

/// The answers of texts, markup and math.
fn of_content(out: &mut Answers, subject: Subject) {
    texts::answer(out, subject);
    texts::answer_reading(out, subject);
    markup::answer(out, subject);
    math::answer(out, subject);
}

/// The answers of code.
fn of_code(out: &mut Answers, subject: Subject) {
    imports::answer(out, subject);
    code::answer(out, subject);
    pairs::answer(out, subject);
    control::answer(out, subject);
}

/// The answers of an expression.
fn of_expr(out: &mut Answers, expr: Option<Expr>) {
    if let Some(expr) = expr {
        out.flag("hash", expr.hash());
        out.flag("is_literal", expr.is_literal());
    }
}

/// The answers of a pattern.
fn of_pattern(out: &mut Answers, pattern: Option<Pattern>) {
    if let Some(pattern) = pattern {
        out.names("bindings", pattern.bindings(out.alloc));
    }
}

/// The answers for the placeholders of expressions and patterns, and for those of each view of one kind.
pub fn blanks(out: &mut Answers) {
    of_blank_classes(out);
    for kind in KINDS {
        of_blank(out, kind);
    }
}

/// The answers of the placeholders of expressions and patterns.
fn of_blank_classes(out: &mut Answers) {
    out.turn_to(Subject::Blank(SyntaxKind::None).place());
    of_expr(out, Some(Expr::placeholder()));
    of_pattern(out, Some(Pattern::placeholder()));
}

/// The answers of the placeholder of a kind.
fn of_blank(out: &mut Answers, kind: SyntaxKind) {
    let subject = Subject::Blank(kind);
    out.turn_to(subject.place());
    of_own_view(out, subject);
}

/// The kinds whose views have accessors.
const KINDS: [SyntaxKind; 68] = [
    SyntaxKind::LineComment,
    SyntaxKind::BlockComment,
    SyntaxKind::Text,
    SyntaxKind::RawLang,
    SyntaxKind::Link,
    SyntaxKind::Ident,
    SyntaxKind::MathIdent,
    SyntaxKind::Escape,
    SyntaxKind::Shorthand,
    SyntaxKind::MathShorthand,
    SyntaxKind::SmartQuote,
    SyntaxKind::Raw,
    SyntaxKind::Label,
    SyntaxKind::MathText,
    SyntaxKind::MathFieldAccess,
    SyntaxKind::MathPrimes,
    SyntaxKind::Bool,
    SyntaxKind::Int,
    SyntaxKind::Float,
    SyntaxKind::Numeric,
    SyntaxKind::Str,
    SyntaxKind::ImportItemPath,
    SyntaxKind::RenamedImportItem,
    SyntaxKind::ImportItems,
    SyntaxKind::Markup,
    SyntaxKind::Math,
    SyntaxKind::Code,
    SyntaxKind::Strong,
    SyntaxKind::Emph,
    SyntaxKind::ListItem,
    SyntaxKind::ContentBlock,
    SyntaxKind::Heading,
    SyntaxKind::EnumItem,
    SyntaxKind::TermItem,
    SyntaxKind::Ref,
    SyntaxKind::Equation,
    SyntaxKind::MathCall,
    SyntaxKind::MathArgs,
    SyntaxKind::MathDelimited,
    SyntaxKind::MathAttach,
    SyntaxKind::MathFrac,
    SyntaxKind::MathRoot,
    SyntaxKind::CodeBlock,
    SyntaxKind::Parenthesized,
    SyntaxKind::Array,
    SyntaxKind::Dict,
    SyntaxKind::Destructuring,
    SyntaxKind::Named,
    SyntaxKind::Keyed,
    SyntaxKind::Spread,
    SyntaxKind::Unary,
    SyntaxKind::Binary,
    SyntaxKind::FieldAccess,
    SyntaxKind::FuncCall,
    SyntaxKind::Args,
    SyntaxKind::Closure,
    SyntaxKind::Params,
    SyntaxKind::LetBinding,
    SyntaxKind::DestructAssignment,
    SyntaxKind::SetRule,
    SyntaxKind::ShowRule,
    SyntaxKind::Contextual,
    SyntaxKind::Conditional,
    SyntaxKind::WhileLoop,
    SyntaxKind::ForLoop,
    SyntaxKind::ModuleImport,
    SyntaxKind::ModuleInclude,
    SyntaxKind::FuncReturn,
];
