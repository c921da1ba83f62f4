//! Tests of lists that are read from both ends. Parts of a list of texts represent the three ways to read.
use crate::asserting::assert_after;
use std::alloc::{AllocError, Global};
use std::test::Fail;
use typst_answers::Parts;
use typst_answers::lists::both;
use typst_tree::ast::{AstNode, Items, Text};
use typst_tree::{SyntaxKind, SyntaxNode};

/// What is read from the front, from the back and from both ends in turn, and whether the three are the same.
const READ: [((usize, usize), (usize, usize), (usize, usize), bool); 8] = [
    ((0, 3), (0, 3), (0, 3), true),
    ((0, 0), (0, 0), (0, 0), true),
    ((0, 3), (0, 4), (0, 3), false),
    ((0, 3), (1, 3), (0, 3), false),
    ((0, 3), (0, 3), (0, 4), false),
    ((0, 3), (0, 3), (0, 2), false),
    ((0, 3), (0, 3), (1, 4), false),
    ((0, 0), (0, 0), (0, 1), false),
];

/// Four texts that differ.
fn texts(alloc: Global) -> Result<Vec<SyntaxNode>, AllocError> {
    let mut texts = Vec::new(alloc);
    for text in ["a", "b", "c", "d"] {
        texts.push(SyntaxNode::leaf(alloc, SyntaxKind::Text, text)?)?;
    }
    Ok(texts)
}

/// The texts from one index up to another.
fn part<'t>(texts: &'t [SyntaxNode], ends: (usize, usize)) -> Items<'t, Text<'t>> {
    Items::over(texts.get(ends.0..ends.1).unwrap_or(&[]))
}

/// The kind and the node of a text.
fn parts_of<'t>(text: Text<'t>) -> Parts<'t> {
    Parts {
        kind: text.kind(),
        node: text.to_untyped(),
    }
}

/// Whether a list that is read from the front, from the back and from both ends is reported as the same list.
fn agree(
    alloc: Global,
    texts: &[SyntaxNode],
    front: (usize, usize),
    back: (usize, usize),
    mixed: (usize, usize),
) -> Result<bool, AllocError> {
    let (front, back, mixed) = (part(texts, front), part(texts, back), part(texts, mixed));
    let ends = both(alloc, front, back, mixed, parts_of)?;
    Ok(ends.agree)
}

#[test]
fn ends_that_differ_are_told(rt: HostRuntime) -> Result<(), Fail> {
    let texts = texts(rt.alloc())?;
    for (row, (front, back, mixed, wanted)) in READ.iter().enumerate() {
        let same = agree(rt.alloc(), &texts, *front, *back, *mixed)?;
        assert_after(&rt, row, same, *wanted);
    }
    Ok(())
}
