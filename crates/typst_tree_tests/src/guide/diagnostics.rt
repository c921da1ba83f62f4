//! Errors, warnings, and spans of generated text.
use crate::rows::assert_text;
use std::alloc::{AllocError, Global};
use std::ops::Range;
use std::process::Abort;
use std::test::Fail;
use typst_drawn::drawn;
use typst_tree::{
    FileId, InnerError, RangeMapper, Span, SpanKind, SyntaxDiagnostic, SyntaxKind, SyntaxNode,
    SynthesizeError,
};

/// `*a` whose end is missing, with a warning about the `a`.
fn broken(alloc: Global) -> Result<SyntaxNode, InnerError> {
    let mut text = SyntaxNode::leaf(alloc, SyntaxKind::Text, "a")?;
    text.warn(alloc, "a short text")?;
    let mut missing = SyntaxNode::error(alloc, "unclosed delimiter", "")?;
    missing.hint(alloc, "add a star")?;
    let parts = vec![in alloc;
        SyntaxNode::leaf(alloc, SyntaxKind::Star, "*")?,
        text,
        missing,
    ]?;
    SyntaxNode::inner(alloc, SyntaxKind::Strong, parts)
}

/// The message of each diagnostic, and how many hints it has.
fn listed(alloc: Global, diagnostics: &[SyntaxDiagnostic]) -> Result<String, AllocError> {
    let mut words = String::new(alloc);
    for diagnostic in diagnostics {
        let hints = diagnostic.hints.len();
        writeln!(words, "{}, hints: {hints}", diagnostic.message.as_str())?;
    }
    Ok(words)
}

/// The words for a tree's errors, and those for its warnings.
fn told(alloc: Global, tree: &SyntaxNode) -> Result<(String, String), AllocError> {
    let (errors, warnings) = tree.errors_and_warnings(alloc)?;
    Ok((listed(alloc, &errors)?, listed(alloc, &warnings)?))
}

#[test]
fn a_tree_tells_its_errors_and_warnings(rt: HostRuntime) -> Result<(), Fail> {
    let tree = broken(rt.alloc())?;
    assert!(rt; tree.diagnosis().both());
    let (errors, warnings) = told(rt.alloc(), &tree)?;
    let (error, warning) = ("unclosed delimiter, hints: 1\n", "a short text, hints: 0\n");
    assert_text(&rt, "a tree", "errors", &errors, error);
    assert_text(&rt, "a tree", "warnings", &warnings, warning);
    Ok(())
}

/// Gives the nodes of a generated text the ranges of the original that its bytes come from.
fn synthesize(
    alloc: Global,
    tree: &mut SyntaxNode,
    file: FileId,
    segments: &[Range<usize>],
) -> Result<(), Fail> {
    let mapper = RangeMapper::new(alloc, segments)?;
    match tree.synthesize_mapped(file, &mapper) {
        Ok(()) => Ok(()),
        // Nothing has changed.
        Err(SynthesizeError::TooLong { .. }) => Err("the text is longer than the segments")?,
    }
}

/// The bytes that a span is of.
fn bytes(span: Span) -> Option<Range<usize>> {
    match span.get() {
        SpanKind::Range { range, .. } => Some(range),
        _ => None,
    }
}

/// Asserts the ranges that the children of a node have.
fn assert_children(rt: &impl Abort, tree: &SyntaxNode, wanted: &[Range<usize>]) {
    for (child, range) in tree.children().zip(wanted) {
        assert!(rt; bytes(child.span()) == Some(range.start..range.end));
    }
}

#[test]
fn generated_text_has_the_ranges_of_its_original(rt: HostRuntime) -> Result<(), Fail> {
    let mut tree = drawn(rt.alloc(), "Markup[ Text:ab Text:cd ]")?;
    synthesize(rt.alloc(), &mut tree, FileId::FIRST, &[2..5, 8..10])?;
    assert!(rt; bytes(tree.span()) == Some(2..9));
    assert_children(&rt, &tree, &[2..4, 4..9]);
    Ok(())
}
