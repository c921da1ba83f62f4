//! What accessors of single kinds answer.
use crate::rows::{assert_all, assert_texts, assert_told};
use crate::trees::{cast, got, is_missing};
use std::alloc::Global;
use std::test::Fail;
use typst_atoms::nodes::leaf_text;
use typst_atoms::{
    Assoc, BinOp, MathAccess, UnOp, cast_all, cast_first, cast_last, try_cast_first, try_cast_last,
    views as of,
};
use typst_base::{SyntaxKind, named_sets};
use typst_drawn::{DrawingError, drawn, drawn_all};
use typst_node::{AstNode, SyntaxNode};

/// The identifiers below, taken from the back, the front, the back, the front and the back.
fn taken<'a>(node: Option<&'a SyntaxNode>) -> [&'a str; 5] {
    let mut all = cast_all::<of::Ident>(node);
    let last = got(all.next_back());
    let first = got(all.next());
    let middle = got(all.next_back());
    let no_next = got(all.next());
    [last, first, middle, no_next, got(all.next_back())]
}

#[test]
fn casts_find_the_first_the_last_and_all(rt: HostRuntime) -> Result<(), Fail> {
    let tree = drawn(
        rt.alloc(),
        "ImportItemPath[ Ident:a Space:~ Ident:b Dot:. Ident:c Space:~ ]",
    )?;
    let node = Some(&tree);
    let first: of::Ident = cast_first(node);
    let last: of::Ident = cast_last(node);
    let blank: of::Bool = cast_first(node);
    let [last_of_all, first_of_all, middle, no_next, no_last] = taken(node);
    let rows = [
        ("the first", first.get(), "a"),
        ("the last", last.as_str(), "c"),
        ("of all, the last", last_of_all, "c"),
        ("of all, the first", first_of_all, "a"),
        ("then the one before the last", middle, "b"),
        ("then none", no_next, "-"),
        ("from the back neither", no_last, "-"),
    ];
    assert_texts(&rt, &rows);
    let rows = [
        ("no first", try_cast_first::<of::Bool>(node).is_none()),
        ("no last", try_cast_last::<of::Bool>(node).is_none()),
        ("a placeholder", blank.to_untyped().is_none()),
        ("its kind", blank.kind() == SyntaxKind::Bool),
        ("one of no node", is_missing(cast_last::<of::Bool>(None))),
    ];
    assert_all(&rt, &rows);
    Ok(())
}

#[test]
fn views_tell_node_kind_and_span(rt: HostRuntime) -> Result<(), Fail> {
    let node = drawn(rt.alloc(), "Ident:it")?;
    let view = cast::<of::Ident>(&node)?;
    let rows = [
        ("an identifier", node.is::<of::Ident>()),
        ("no text", !node.is::<of::Text>()),
        ("no access in math", node.cast::<MathAccess>().is_none()),
        ("the node", leaf_text(view.to_untyped()) == "it"),
        ("the kind", view.kind() == SyntaxKind::Ident),
        ("the span", view.span() == node.span()),
        ("none", of::Ident::placeholder().span().is_detached()),
    ];
    assert_all(&rt, &rows);
    Ok(())
}

/// The characters that end a line.
#[derive(Drop)]
enum Ends {
    At(char),
    Everywhere,
    Nowhere,
}

/// Whether raw text is a block for a reader of line ends.
fn block(view: of::Raw, ends: Ends) -> bool {
    view.block(|c| match ends {
        Ends::At(end) => c == end,
        Ends::Everywhere => true,
        Ends::Nowhere => false,
    })
}

/// Raw text with a line end, which no drawing has.
fn raw(alloc: Global) -> Result<SyntaxNode, DrawingError> {
    let mut children = drawn_all(alloc, "RawDelim:```")?;
    children.push(SyntaxNode::leaf(alloc, SyntaxKind::RawTrimmed, "x\n")?)?;
    Ok(SyntaxNode::inner(alloc, SyntaxKind::Raw, children)?)
}

/// A caller says what line ends are. The comparison has one reader for all its trees.
#[test]
fn a_block_of_raw_text_asks_its_reader_what_ends_a_line(rt: HostRuntime) -> Result<(), Fail> {
    let node = raw(rt.alloc())?;
    let view = cast::<of::Raw>(&node)?;
    let rows = [
        ("a line end", block(view, Ends::At('\n'))),
        ("a letter of the text", block(view, Ends::At('x'))),
        ("another letter", !block(view, Ends::At('y'))),
        ("nothing", !block(view, Ends::Nowhere)),
        ("no node", !block(of::Raw::placeholder(), Ends::Everywhere)),
    ];
    assert_all(&rt, &rows);
    Ok(())
}

/// A binary operator's text, its precedence, and whether it associates to the right.
fn binary(op: BinOp) -> (&'static str, u8, bool) {
    (op.as_str(), op.precedence(), op.assoc() == Assoc::Right)
}

/// The same of the binary operator of a kind.
fn binary_of(kind: SyntaxKind) -> Option<(&'static str, u8, bool)> {
    Some(binary(BinOp::from_kind(kind)?))
}

/// A unary operator's text and precedence.
fn unary_of(kind: SyntaxKind) -> Option<(&'static str, u8)> {
    let op = UnOp::from_kind(kind)?;
    Some((op.as_str(), op.precedence()))
}

#[test]
fn operators_have_kinds_texts_and_precedences(rt: HostRuntime) {
    for (kind, text, precedence) in [
        (SyntaxKind::Star, "*", 6),
        (SyntaxKind::Slash, "/", 6),
        (SyntaxKind::Plus, "+", 5),
        (SyntaxKind::Minus, "-", 5),
        (SyntaxKind::EqEq, "==", 4),
        (SyntaxKind::ExclEq, "!=", 4),
        (SyntaxKind::Lt, "<", 4),
        (SyntaxKind::LtEq, "<=", 4),
        (SyntaxKind::Gt, ">", 4),
        (SyntaxKind::GtEq, ">=", 4),
        (SyntaxKind::In, "in", 4),
        (SyntaxKind::And, "and", 3),
        (SyntaxKind::Or, "or", 2),
        (SyntaxKind::Eq, "=", 1),
        (SyntaxKind::PlusEq, "+=", 1),
        (SyntaxKind::HyphEq, "-=", 1),
        (SyntaxKind::StarEq, "*=", 1),
        (SyntaxKind::SlashEq, "/=", 1),
    ] {
        let wanted = Some((text, precedence, precedence == 1));
        assert_eq!(rt; binary_of(kind), wanted, "{text}");
    }
    assert_eq!(rt; binary(BinOp::NotIn), ("not in", 4, false));
    for (kind, text, precedence) in [
        (SyntaxKind::Plus, "+", 7),
        (SyntaxKind::Minus, "-", 7),
        (SyntaxKind::Not, "not", 4),
    ] {
        assert_eq!(rt; unary_of(kind), Some((text, precedence)), "{text}");
    }
}

/// Whether a kind is one of binary and of unary operators.
fn is_operator(kind: SyntaxKind) -> (bool, bool) {
    (
        BinOp::from_kind(kind).is_some(),
        UnOp::from_kind(kind).is_some(),
    )
}

/// Whether a kind is in the sets of binary and of unary operators.
fn is_in_sets(kind: SyntaxKind) -> (bool, bool) {
    (
        named_sets::binary_op().contains(kind),
        named_sets::unary_op().contains(kind),
    )
}

#[test]
fn operators_are_the_kinds_of_the_named_sets(rt: HostRuntime) {
    let mut binary = 0u8;
    let mut unary = 0u8;
    for number in 0..=u8::MAX {
        if let Some(kind) = SyntaxKind::from_u8(number) {
            let (is_binary, is_unary) = is_operator(kind);
            assert_told(&rt, number, is_in_sets(kind), (is_binary, is_unary));
            binary = binary.saturating_add(u8::from(is_binary));
            unary = unary.saturating_add(u8::from(is_unary));
        }
    }
    assert_eq!(rt; (binary, unary), (18, 3));
}
