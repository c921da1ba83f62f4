//! The examples of the crates' own documents.
use crate::rows::assert_text;
use std::alloc::Global;
use std::test::Fail;
use typst_drawn::{labels, numbered};
use typst_tree::ast::{self, AstNode, BinOp, Binary, Expr, Int, Str};
use typst_tree::session::{self, Request, Slot};
use typst_tree::{
    DiagSpan, DiagSpanKind, FileId, LinkedNode, Looks, RangeMapper, Span, SpanNumber, SubRange,
    SyntaxKind, SyntaxNode, named_sets,
};

#[test]
fn spans_and_kinds(rt: HostRuntime) -> Result<(), Fail> {
    let span = Span::from_number(FileId::FIRST, SpanNumber(5));
    let first_two = DiagSpan::from_span(span, SubRange::new(0, 2));
    let DiagSpanKind::Number { num, sub_range, .. } = first_two.get() else {
        return Err("no number")?;
    };
    assert!(rt; num.0 == 5 && sub_range.is_some());

    let kinds = named_sets::stmt().add(SyntaxKind::Hash);
    assert!(rt; kinds.contains(SyntaxKind::Let) && kinds.contains(SyntaxKind::Hash));
    Ok(())
}

#[test]
fn mappers(rt: HostRuntime) -> Result<(), Fail> {
    let alloc = rt.alloc();
    let mapper = RangeMapper::new(alloc, &[2..5, 8..10])?;
    assert!(rt; mapper.total_len() == 5);
    assert!(rt; mapper.map(2..4) == (4..9));
    Ok(())
}

/// A tree of two texts.
fn two(alloc: Global) -> Result<SyntaxNode, Fail> {
    let ab = SyntaxNode::leaf(alloc, SyntaxKind::Text, "ab")?;
    let c = SyntaxNode::leaf(alloc, SyntaxKind::Text, "c")?;
    let mut tree = SyntaxNode::inner(alloc, SyntaxKind::Markup, vec![in alloc; ab, c]?)?;
    tree.numberize(FileId::FIRST, 2..14)?;
    // The root has number 3 and bound 14, its children have 5 and 7.
    Ok(tree)
}

#[test]
fn nodes(rt: HostRuntime) -> Result<(), Fail> {
    let tree = two(rt.alloc())?;
    assert!(rt; tree.cast::<ast::Markup>().is_some());
    let labels = labels(rt.alloc(), &tree)?;
    assert_text(&rt, "two texts", "labels", &labels, "3..14[5..6 7..8]");
    Ok(())
}

#[test]
fn drawn_trees_and_linked_nodes(rt: HostRuntime) -> Result<(), Fail> {
    let alloc = rt.alloc();
    let tree = numbered(alloc, "Markup[ Text:ab Text:c ]", 2..14)?;
    assert_eq!(rt; labels(alloc, &tree)?.as_str(), "3..14[5..6 7..8]");
    let span = Span::from_number(FileId::FIRST, SpanNumber(7));
    let root = LinkedNode::new(&tree);
    let mut looks = Looks::new();
    let found = root.find_counted(alloc, span, &mut looks)?;
    // The last child, by at most three numbers that were read.
    assert!(rt; found.is_some_and(|node| node.range() == (2..3)) && looks.count() <= 3);
    Ok(())
}

#[test]
fn views_of_single_kinds(rt: HostRuntime) -> Result<(), Fail> {
    let alloc = rt.alloc();
    let node = SyntaxNode::leaf(alloc, SyntaxKind::Int, "0x1F")?;
    let int = node.cast::<Int>().unwrap_or(Int::placeholder());
    assert!(rt; int.get() == 31 && Int::placeholder().get() == 0);
    assert_eq!(rt; Str::placeholder().get(alloc)?.as_str(), "");
    Ok(())
}

#[test]
fn expressions(rt: HostRuntime) -> Result<(), Fail> {
    let alloc = rt.alloc();
    let name = SyntaxNode::leaf(alloc, SyntaxKind::Ident, "x")?;
    let plus = SyntaxNode::leaf(alloc, SyntaxKind::Plus, "+")?;
    let one = SyntaxNode::leaf(alloc, SyntaxKind::Int, "1")?;
    let tree = SyntaxNode::inner(alloc, SyntaxKind::Binary, vec![in alloc; name, plus, one]?)?;
    let sum = tree.cast::<Binary>().unwrap_or(Binary::placeholder());
    assert!(rt; sum.op() == BinOp::Add);
    assert!(rt; matches!(sum.lhs(), Expr::Ident(_)) && matches!(sum.rhs(), Expr::Int(_)));
    Ok(())
}

#[test]
fn runs(rt: HostRuntime) -> Result<(), Fail> {
    let alloc = rt.alloc();
    let mut tree = numbered(alloc, "Markup[ Text:ab Text:c ]", 2..14)?;
    let edit = Request::Replace {
        path: Vec::new(alloc),
        range: 0..1,
        replacement: Vec::new(alloc),
    };
    let span = Span::from_number(FileId::FIRST, SpanNumber(7));
    let mut slots = [Slot::Ask(edit), Slot::Ask(Request::Find(span))];
    assert!(rt; tree.is_numbered());
    session::run(alloc, &mut tree, &mut slots);
    assert!(rt; slots.iter().all(|slot| slot.reply().is_some()));
    Ok(())
}
