//! Spans that synthesis gives.
use crate::node::diagnostics::listed;
use crate::node::numbering::is_of;
use crate::rows::{assert_row, assert_said, assert_text};
use std::alloc::{AllocError, Global};
use std::test::Fail;
use typst_base::{FileId, RangeMapper, Span, SpanKind};
use typst_drawn::{DrawingError, drawn_all, labels, numbered};
use typst_node::{ReplaceError, SyntaxNode, SynthesizeError};

/// The words for a tree: its labels, whether all nodes of its two levels are of no file, its diagnostics and its
/// `Debug` text.
fn told(alloc: Global, tree: &SyntaxNode) -> Result<String, AllocError> {
    let labels = labels(alloc, tree)?;
    let detached = is_of(tree, None);
    let listed = listed(alloc, tree)?;
    format!(in alloc; "{labels} {detached} {listed}{tree:?}")
}

/// A drawn tree after all its spans became the detached one.
fn detached(alloc: Global, drawing: &str) -> Result<SyntaxNode, DrawingError> {
    let mut tree = numbered(alloc, drawing, 2..14)?;
    tree.synthesize(Span::detached());
    Ok(tree)
}

#[test]
fn synthesis_gives_one_span(rt: HostRuntime) -> Result<(), Fail> {
    let tree = detached(rt.alloc(), "Markup[ Text:ab Text:c ^0..1@m +0..1@h ]")?;
    let said = told(rt.alloc(), &tree)?;
    assert_text(
        &rt,
        "the detached span",
        &said,
        r#"1..1[1..2 1..2] true | warning m at - hint h at - Markup: 3 [Text: "ab", Warning: {message: "m", hint: "h", Text: "c"}]"#,
    );
    Ok(())
}

/// Whether replacing the first child of a tree of no file by a text is refused, and changes nothing.
fn takes_none(alloc: Global, tree: &mut SyntaxNode) -> Result<bool, DrawingError> {
    if tree.span().id().is_some() || !tree.edit_fits(&[], 0..1) {
        return Ok(false);
    }
    let before = tree.clone()?;
    let answer = tree.replace_children(alloc, 0..1, drawn_all(alloc, "Text:x")?);
    Ok(answer == Err(ReplaceError::Unnumberable) && *tree == before)
}

#[test]
fn a_synthesized_tree_takes_no_replacement(rt: HostRuntime) -> Result<(), Fail> {
    let mut tree = detached(rt.alloc(), "Markup[ Text:ab Text:c ]")?;
    let refused = takes_none(rt.alloc(), &mut tree)?;
    assert_row(&rt, "it is refused, and nothing changes", refused);
    Ok(())
}

/// The words for a span: the original bytes and their file.
fn bytes(alloc: Global, span: Span) -> Result<String, AllocError> {
    match span.get() {
        SpanKind::Range { id, range } => {
            let file = id.into_raw().get();
            format!(in alloc; "{file}/{range:?} ")
        }
        SpanKind::Number { .. } => String::from_str(alloc, "number "),
        SpanKind::Detached => String::from_str(alloc, "- "),
    }
}

/// The words for the tree of two levels that a drawing shows, after it is numbered and then mapped by the mapper of the
/// bytes 2, 3, 4, 8 and 9. They are the spans of its nodes, its diagnostics and its `Debug` text.
fn mapped(alloc: Global, drawing: &str) -> Result<String, DrawingError> {
    let mut tree = numbered(alloc, drawing, 2..100)?;
    let before = tree.clone()?;
    match map(alloc, &mut tree)? {
        Ok(()) => Ok(placed(alloc, &tree)?),
        Err(error) => {
            let left = if tree == before {
                "unchanged"
            } else {
                "changed"
            };
            Ok(format!(in alloc; "{error:?} {left}")?)
        }
    }
}

/// Gives the nodes of a tree the ranges of two segments.
fn map(alloc: Global, tree: &mut SyntaxNode) -> Result<Result<(), SynthesizeError>, DrawingError> {
    let mapper = RangeMapper::new(alloc, &[2..5, 8..10])
        .ok()
        .ok_or(DrawingError::Memory)?;
    Ok(tree.synthesize_mapped(FileId::FIRST, &mapper))
}

/// The ranges of a node and its children.
fn ranges(alloc: Global, tree: &SyntaxNode) -> Result<String, AllocError> {
    let mut said = bytes(alloc, tree.span())?;
    for child in tree.child_slice() {
        said.push_str(bytes(alloc, child.span())?.as_str())?;
    }
    Ok(said)
}

/// The ranges of a node and its children, its diagnostics, and how it is shown.
fn placed(alloc: Global, tree: &SyntaxNode) -> Result<String, AllocError> {
    let ranges = ranges(alloc, tree)?;
    let listed = listed(alloc, tree)?;
    format!(in alloc; "{ranges}{listed}{tree:?}")
}

/// Drawings, and the words for their trees after they are mapped.
const MAPPED: [(&str, &str); 3] = [
    // The part went from 0..2 to 0..5, which is more bytes than the text has.
    (
        "Markup[ Text:ab Text:cd ^0..2@m ]",
        r#"1/2..9 1/2..4 1/4..9 | warning m at 1/4..9 Markup: 4 [Text: "ab", Warning: {message @(0..5): "m", Text: "cd"}]"#,
    ),
    ("Text:abcdef", "TooLong { text: 6, mapper: 5 } unchanged"),
    (
        "Markup[ Text:abc Text:def ]",
        "TooLong { text: 6, mapper: 5 } unchanged",
    ),
];

#[test]
fn mapped_nodes_have_the_places_of_their_bytes(rt: HostRuntime) {
    for (drawing, wanted) in &MAPPED {
        assert_said(&rt, drawing, mapped(rt.alloc(), drawing), wanted);
    }
}

/// A node under a warning about its four bytes, after its text was replaced by one of one byte.
fn shortened(alloc: Global) -> Result<SyntaxNode, DrawingError> {
    let mut strong = numbered(alloc, "Strong[ Text:abcd ] ^0..4@m", 2..100)?;
    if strong.is_numbered() && strong.edit_fits(&[], 0..1) {
        let shorter = drawn_all(alloc, "Text:a")?;
        let _ = strong.replace_children(alloc, 0..1, shorter);
    }
    Ok(strong)
}

/// The words for that node, and for its `Debug` text after its bytes were mapped.
fn shortened_and_mapped(alloc: Global) -> Result<String, DrawingError> {
    let mut strong = shortened(alloc)?;
    let labels = labels(alloc, &strong)?;
    let shown = format!(in alloc; "{labels} {strong:?}")?;
    let mapped = map(alloc, &mut strong)?;
    Ok(format!(in alloc; "{shown}, then {mapped:?} {strong:?}")?)
}

#[test]
fn a_part_beyond_the_text_is_dropped(rt: HostRuntime) {
    assert_said(
        &rt,
        "a shorter text",
        shortened_and_mapped(rt.alloc()),
        r#"14..100[36..37] Warning: {message @(0..4): "m", Strong: 1 [Text: "a"]}, then Ok(()) Warning: {message: "m", Strong: 1 [Text: "a"]}"#,
    );
}
