//! What nodes are viewed as.
use crate::ast::bindings::BINDING;
use crate::rows::assert_all;
use crate::trees::{shown, text, view};
use std::alloc::{AllocError, Global};
use std::process::Abort;
use std::test::Fail;
use typst_ast::{Arg, ArrayItem, DestructuringItem, DictItem, Expr, Param, Pattern, views as of};
use typst_atoms::BinOp;
use typst_base::SyntaxKind;
use typst_drawn::{DrawingError, drawn, drawn_all};
use typst_node::{AstNode, SyntaxNode};

/// Asserts what `a not in b` is viewed as.
fn assert_not_in(rt: &impl Abort, view: of::Binary) {
    let op = view.op();
    let rows = [
        ("the operator", op == BinOp::NotIn),
        ("its precedence", op.precedence() == 4),
        ("before it", text(view.lhs()) == "a"),
        ("after it", text(view.rhs()) == "b"),
    ];
    assert_all(rt, &rows);
}

#[test]
fn not_in_is_one_operator(rt: HostRuntime) -> Result<(), Fail> {
    let tree = drawn(rt.alloc(), "Binary[ Ident:a Not:not In:in Ident:b ]")?;
    assert_not_in(&rt, view(Some(&tree)));
    Ok(())
}

/// What a node is viewed as, or what is then read from the view.
#[derive(Clone, Copy)]
enum As {
    Arg,
    ArrayItem,
    DestructuringItem,
    DictItem,
    Expr,
    LetKind,
    LetValue,
    Param,
    Pattern,
}

/// The `Debug` text of a node's view, or `-` for none. Without a node it is that of the placeholder.
fn told_as(alloc: Global, node: Option<&SyntaxNode>, it: As) -> Result<String, AllocError> {
    match node {
        Some(node) => told(alloc, node, it),
        None => told_blank(alloc, it),
    }
}

/// What a node is viewed as.
fn told(alloc: Global, node: &SyntaxNode, it: As) -> Result<String, AllocError> {
    match it {
        As::Arg => shown(alloc, Arg::from_untyped(node)),
        As::ArrayItem => shown(alloc, ArrayItem::from_untyped(node)),
        As::DestructuringItem => shown(alloc, DestructuringItem::from_untyped(node)),
        As::DictItem => shown(alloc, DictItem::from_untyped(node)),
        As::Expr => shown(alloc, Expr::from_untyped(node)),
        As::LetKind => told_kind(alloc, view(Some(node))),
        As::LetValue => told_value(alloc, view(Some(node))),
        As::Param => shown(alloc, Param::from_untyped(node)),
        As::Pattern => shown(alloc, Pattern::from_untyped(node)),
    }
}

/// What the placeholder is.
fn told_blank(alloc: Global, it: As) -> Result<String, AllocError> {
    match it {
        As::Arg => shown(alloc, Some(Arg::placeholder())),
        As::ArrayItem => shown(alloc, Some(ArrayItem::placeholder())),
        As::DestructuringItem => shown(alloc, Some(DestructuringItem::placeholder())),
        As::DictItem => shown(alloc, Some(DictItem::placeholder())),
        As::Expr => shown(alloc, Some(Expr::placeholder())),
        As::LetKind => told_kind(alloc, of::LetBinding::placeholder()),
        As::LetValue => told_value(alloc, of::LetBinding::placeholder()),
        As::Param => shown(alloc, Some(Param::placeholder())),
        As::Pattern => shown(alloc, Some(Pattern::placeholder())),
    }
}

/// What a binding binds.
fn told_kind(alloc: Global, binding: of::LetBinding) -> Result<String, AllocError> {
    shown(alloc, Some(binding.kind()))
}

/// The value of a binding.
fn told_value(alloc: Global, binding: of::LetBinding) -> Result<String, AllocError> {
    shown(alloc, binding.init())
}

/// What is shown, a drawing of a node, or of none, what it is viewed as, and how the view's `Debug` text begins.
type Row = (&'static str, &'static str, As, &'static str);

/// What nodes are viewed as.
const VIEWED: [Row; 31] = [
    ("a pair in a dictionary", "Named[ ]", As::DictItem, "Named("),
    ("a pair as an argument", "Named[ ]", As::Arg, "Named("),
    ("a pair as a parameter", "Named[ ]", As::Param, "Named("),
    (
        "a pair among parts",
        "Named[ ]",
        As::DestructuringItem,
        "Named(",
    ),
    ("no pair in an array", "Named[ ]", As::ArrayItem, "-"),
    ("a pair is no pattern", "Named[ ]", As::Pattern, "-"),
    (
        "a spread in a dictionary",
        "Spread[ ]",
        As::DictItem,
        "Spread(",
    ),
    ("a spread as an argument", "Spread[ ]", As::Arg, "Spread("),
    (
        "a spread in an array",
        "Spread[ ]",
        As::ArrayItem,
        "Spread(",
    ),
    ("a spread as a parameter", "Spread[ ]", As::Param, "Spread("),
    (
        "a spread among parts",
        "Spread[ ]",
        As::DestructuringItem,
        "Spread(",
    ),
    (
        "a keyed pair in a dictionary",
        "Keyed[ ]",
        As::DictItem,
        "Keyed(",
    ),
    ("a name in an array", "Ident:x", As::ArrayItem, "Pos(Ident("),
    ("a name as an argument", "Ident:x", As::Arg, "Pos(Ident("),
    (
        "a name as a parameter",
        "Ident:x",
        As::Param,
        "Pos(Normal(Ident(",
    ),
    (
        "a name among parts",
        "Ident:x",
        As::DestructuringItem,
        "Pattern(Normal(Ident(",
    ),
    (
        "an underscore as a parameter",
        "Underscore:_",
        As::Param,
        "Pos(Placeholder(",
    ),
    ("an underscore is no argument", "Underscore:_", As::Arg, "-"),
    (
        "an underscore as a pattern",
        "Underscore:_",
        As::Pattern,
        "Placeholder(",
    ),
    (
        "a group as a pattern",
        "Parenthesized[ ]",
        As::Pattern,
        "Parenthesized(",
    ),
    (
        "parts as a pattern",
        "Destructuring[ ]",
        As::Pattern,
        "Destructuring(",
    ),
    (
        "the placeholder in an array",
        "",
        As::ArrayItem,
        "Pos(None(placeholder))",
    ),
    (
        "the placeholder in a dictionary",
        "",
        As::DictItem,
        "Spread(Spread(placeholder))",
    ),
    (
        "the placeholder as an argument",
        "",
        As::Arg,
        "Pos(None(placeholder))",
    ),
    (
        "the placeholder as a parameter",
        "",
        As::Param,
        "Pos(Normal(None(placeholder)))",
    ),
    (
        "the placeholder among parts",
        "",
        As::DestructuringItem,
        "Pattern(Normal(None(placeholder)))",
    ),
    (
        "the placeholder as an expression",
        "",
        As::Expr,
        "None(placeholder)",
    ),
    (
        "a let binding of a name",
        "LetBinding[ Let:let Ident:x Eq:= Int:1 ]",
        As::LetKind,
        "Normal(Normal(Ident(",
    ),
    (
        "the value of a let binding of a name",
        "LetBinding[ Let:let Ident:x Eq:= Int:1 ]",
        As::LetValue,
        "Int(Int: \"1\")",
    ),
    (
        "a let binding of a closure without a name",
        "LetBinding[ Let:let Closure[ Params[ ] Arrow:=> Int:1 ] ]",
        As::LetKind,
        "Closure(Ident(placeholder))",
    ),
    (
        "the value of a let binding of parts",
        BINDING,
        As::LetValue,
        "Ident(Ident: \"v\")",
    ),
];

/// What a drawn node is viewed as.
fn told_of(alloc: Global, drawing: &str, it: As) -> Result<String, DrawingError> {
    let nodes = drawn_all(alloc, drawing)?;
    Ok(told_as(alloc, nodes.first(), it)?)
}

/// Asserts how a text begins.
fn assert_begin(rt: &impl Abort, shows: &str, said: &str, wanted: &str) {
    assert!(rt; said.starts_with(wanted), "{shows}: {said}");
}

#[test]
fn nodes_are_viewed_by_their_kinds(rt: HostRuntime) -> Result<(), Fail> {
    for (shows, drawing, it, wanted) in &VIEWED {
        let said = told_of(rt.alloc(), drawing, *it)?;
        assert_begin(&rt, shows, &said, wanted);
    }
    Ok(())
}

#[test]
fn a_placeholder_of_an_expression_is_none(rt: HostRuntime) {
    let blank = Expr::placeholder();
    let rows = [
        ("the kind", blank.kind() == SyntaxKind::None),
        ("no node", blank.to_untyped().is_none()),
        ("no span", blank.span().is_detached()),
        ("a literal", blank.is_literal()),
        ("after a hash", blank.hash()),
    ];
    assert_all(&rt, &rows);
}
