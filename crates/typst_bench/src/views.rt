//! What views read of their nodes.
use crate::asked::Asked;
use crate::shapes::{Leaf, row};
use crate::stopwatch::Stopwatch;
use anyhow::Result;
use std::alloc::Global;
use typst_tree::ast::{
    Arg, Args, AstNode, BinOp, Binary, Expr, Markup, MathArgs, MathShorthand, Str,
};
use typst_tree::{SyntaxKind, SyntaxNode};

/// Reads all parts of a node in each round, and returns what was counted in all.
pub fn made(alloc: Global, watch: &mut Stopwatch<'_>, asked: Asked<'_>) -> Result<Option<usize>> {
    let Some(node) = node(alloc, asked)? else {
        return Ok(None);
    };
    let mut seen = 0usize;
    for _ in 0..asked.rounds {
        // The clock is read in each round, so that the compiler can't read the node once for all rounds.
        watch.start()?;
        let parts = read(alloc, &node, asked.verb)?;
        watch.stop()?;
        seen = seen.saturating_add(parts);
    }
    Ok(Some(seen))
}

/// A leaf that is still to be made.
fn leaf(kind: SyntaxKind, text: &'static str) -> Leaf {
    Leaf { kind, text }
}

/// The node that a verb reads, with as many parts as the line says. None if there is no such verb.
fn node(alloc: Global, asked: Asked<'_>) -> Result<Option<SyntaxNode>> {
    let size = asked.size;
    let made = match asked.verb {
        "exprs" => row(
            alloc,
            SyntaxKind::Markup,
            &[leaf(SyntaxKind::Text, "ab"), leaf(SyntaxKind::Space, " ")],
            size,
        ),
        "items" => row(
            alloc,
            SyntaxKind::Args,
            &[leaf(SyntaxKind::Int, "12"), leaf(SyntaxKind::Comma, ",")],
            size,
        ),
        "arg_items" => row(
            alloc,
            SyntaxKind::MathArgs,
            &[
                leaf(SyntaxKind::MathText, "x"),
                leaf(SyntaxKind::Comma, ","),
            ],
            size,
        ),
        "str" => row(
            alloc,
            SyntaxKind::Code,
            &[leaf(SyntaxKind::Str, "\"abc\"")],
            size,
        ),
        "math_shorthand" => row(
            alloc,
            SyntaxKind::Math,
            &[leaf(SyntaxKind::MathShorthand, "->")],
            size,
        ),
        "binary" => sums(alloc, size),
        _ => return Ok(None),
    };
    Ok(Some(made?))
}

/// A node of `size` sums `12 + 34`.
fn sums(alloc: Global, size: usize) -> Result<SyntaxNode> {
    let parts = [
        leaf(SyntaxKind::Int, "12"),
        leaf(SyntaxKind::Space, " "),
        leaf(SyntaxKind::Plus, "+"),
        leaf(SyntaxKind::Space, " "),
        leaf(SyntaxKind::Int, "34"),
    ];
    let mut nodes = Vec::new(alloc);
    for _ in 0..size {
        nodes.push(row(alloc, SyntaxKind::Binary, &parts, 1)?)?;
    }
    Ok(SyntaxNode::inner(alloc, SyntaxKind::Code, nodes)?)
}

/// Reads all parts of a node once.
fn read(alloc: Global, node: &SyntaxNode, verb: &str) -> Result<usize> {
    match verb {
        "exprs" => Ok(exprs(node)),
        "items" => Ok(items(node)),
        "arg_items" => Ok(arg_items(node)),
        "str" => strings(alloc, node),
        "math_shorthand" => Ok(arrows(node)),
        _ => Ok(operands(node)),
    }
}

/// How many expressions of markup are texts and spaces.
fn exprs(node: &SyntaxNode) -> usize {
    let Some(markup) = Markup::from_untyped(node) else {
        return 0;
    };
    let mut seen = 0usize;
    for expr in markup.exprs() {
        let is_text = matches!(expr, Expr::Text(_) | Expr::Space(_));
        seen = seen.saturating_add(usize::from(is_text));
    }
    seen
}

/// How many arguments are numbers without a name.
fn items(node: &SyntaxNode) -> usize {
    let Some(args) = Args::from_untyped(node) else {
        return 0;
    };
    let mut seen = 0usize;
    for item in args.items() {
        let is_positional = matches!(item, Arg::Pos(Expr::Int(_)));
        seen = seen.saturating_add(usize::from(is_positional));
    }
    seen
}

/// How many arguments in math are texts without a name.
fn arg_items(node: &SyntaxNode) -> usize {
    let Some(args) = MathArgs::from_untyped(node) else {
        return 0;
    };
    let mut seen = 0usize;
    for item in args.arg_items() {
        let is_positional = matches!(item.arg, Arg::Pos(Expr::MathText(_)));
        seen = seen.saturating_add(usize::from(is_positional));
    }
    seen
}

/// How many bytes the strings have without their quotes.
fn strings(alloc: Global, node: &SyntaxNode) -> Result<usize> {
    let mut bytes = 0usize;
    for child in node.children() {
        if let Some(string) = Str::from_untyped(child) {
            bytes = bytes.saturating_add(string.get(alloc)?.len());
        }
    }
    Ok(bytes)
}

/// How many shorthands are arrows.
fn arrows(node: &SyntaxNode) -> usize {
    let mut seen = 0usize;
    for child in node.children() {
        if let Some(shorthand) = MathShorthand::from_untyped(child) {
            seen = seen.saturating_add(usize::from(shorthand.get() == '→'));
        }
    }
    seen
}

/// How many sums have a number on both sides.
fn operands(node: &SyntaxNode) -> usize {
    let mut seen = 0usize;
    for child in node.children() {
        if let Some(binary) = Binary::from_untyped(child) {
            seen = seen.saturating_add(usize::from(is_sum(binary)));
        }
    }
    seen
}

/// Whether an operation is a sum of numbers.
fn is_sum(binary: Binary<'_>) -> bool {
    binary.op() == BinOp::Add
        && matches!(binary.lhs(), Expr::Int(_))
        && matches!(binary.rhs(), Expr::Int(_))
}
