//! The errors and warnings of a tree.
use crate::rows::{assert_row, assert_said, assert_text};
use std::alloc::{AllocError, Global};
use std::process::Abort;
use std::test::Fail;
use typst_base::{DiagSpan, DiagSpanKind};
use typst_drawn::{DrawingError, drawn, drawn_all, numbered};
use typst_node::{SyntaxDiagnostic, SyntaxNode};

/// What is shown, a tree, and the words for its errors and its warnings before and after it is numbered within 4..16.
type Row = (&'static str, &'static str, &'static str, &'static str);

/// Which errors and warnings trees have.
const LISTED: [Row; 6] = [
    ("a tree without any", "Markup[ Text:ab ]", "|", "|"),
    (
        "outer warnings come first",
        "Text:ab ^p ^q +h",
        "| warning q at - hint h at - warning p at -",
        "| warning q at 1/10 hint h at - warning p at 1/10",
    ),
    (
        "an error under a warning is in its list, the warning in its own",
        "!m:# +h ^w",
        "error m at - hint h at - | warning w at -",
        "error m at 1/10 hint h at - | warning w at 1/10",
    ),
    (
        "a warning and a hint point to their parts",
        "Text:ab ^0..1@m +1..2@h",
        "| warning m at - hint h at -",
        "| warning m at 1/10:0..1 hint h at 1/10:1..2",
    ),
    (
        "errors come in the order of the nodes",
        "Markup[ Strong[ !m:# ] Text:c !n: ] ^w",
        "error m at - error n at - | warning w at -",
        "error m at 1/6 error n at 1/8 | warning w at 1/4",
    ),
    (
        "an error's hint points to a part",
        "!m:abc +1..2@g +h",
        "error m at - hint g at - hint h at - |",
        "error m at 1/10 hint g at 1/10:1..2 hint h at - |",
    ),
];

/// The words for where a diagnostic is: file, number and part, the original bytes, or `-`.
fn place(alloc: Global, span: DiagSpan) -> Result<String, AllocError> {
    match span.get() {
        DiagSpanKind::Detached => String::from_str(alloc, "-"),
        DiagSpanKind::Number { id, num, sub_range } => {
            let file = id.into_raw().get();
            let number = num.0;
            match sub_range {
                None => format!(in alloc; "{file}/{number}"),
                Some(part) => {
                    let part = part.to_relative();
                    format!(in alloc; "{file}/{number}:{part:?}")
                }
            }
        }
        DiagSpanKind::Range { id, range } => {
            let file = id.into_raw().get();
            format!(in alloc; "{file}/{range:?}")
        }
    }
}

/// Adds the words for a message and where it points.
fn push_placed(
    alloc: Global,
    what: &str,
    message: &str,
    span: DiagSpan,
    said: &mut String,
) -> Result<(), AllocError> {
    let place = place(alloc, span)?;
    said.push_str(format!(in alloc; "{what} {message} at {place} ")?.as_str())
}

/// Adds the words for a diagnostic and its hints.
fn push_one(alloc: Global, one: &SyntaxDiagnostic, said: &mut String) -> Result<(), AllocError> {
    let what = if one.is_error { "error" } else { "warning" };
    push_placed(alloc, what, one.message.as_str(), one.span, said)?;
    for hint in &one.hints {
        push_placed(alloc, "hint", hint.v.as_str(), hint.span, said)?;
    }
    Ok(())
}

/// Adds the words for each diagnostic of a list.
fn push_listed(
    alloc: Global,
    list: &[SyntaxDiagnostic],
    said: &mut String,
) -> Result<(), AllocError> {
    for one in list {
        push_one(alloc, one, said)?;
    }
    Ok(())
}

/// The words for a tree's errors, and after a bar for its warnings.
pub(crate) fn listed(alloc: Global, tree: &SyntaxNode) -> Result<String, AllocError> {
    let (errors, warnings) = tree.errors_and_warnings(alloc)?;
    let mut said = String::new(alloc);
    push_listed(alloc, &errors, &mut said)?;
    said.push_str("| ")?;
    push_listed(alloc, &warnings, &mut said)?;
    Ok(said)
}

/// Asserts that a tree's errors and warnings have these words, but for the blank at their end.
fn assert_listed(
    rt: &impl Abort,
    alloc: Global,
    shows: &str,
    tree: Result<SyntaxNode, DrawingError>,
    wanted: &str,
) -> Result<(), DrawingError> {
    let said = listed(alloc, &tree?)?;
    assert_text(rt, shows, said.as_str().trim_end(), wanted);
    Ok(())
}

#[test]
fn errors_and_warnings_are_listed(rt: HostRuntime) -> Result<(), Fail> {
    let alloc = rt.alloc();
    for (shows, drawing, before, after) in &LISTED {
        assert_listed(&rt, alloc, shows, drawn(alloc, drawing), before)?;
        let tree = numbered(alloc, drawing, 4..16);
        assert_listed(&rt, alloc, shows, tree, after)?;
    }
    Ok(())
}

#[test]
fn a_warning_about_a_part_has_its_nodes_number(rt: HostRuntime) -> Result<(), Fail> {
    let tree = numbered(rt.alloc(), "Text:ab ^0..1@m", 4..6)?;
    let said = listed(rt.alloc(), &tree)?;
    assert_text(&rt, "a part", &said, "| warning m at 1/5:0..1 ");
    Ok(())
}

/// Clones of diagnostics.
fn copies(alloc: Global, list: &[SyntaxDiagnostic]) -> Result<Vec<SyntaxDiagnostic>, AllocError> {
    let mut copies = Vec::new(alloc);
    for one in list {
        copies.push(one.clone()?)?;
    }
    Ok(copies)
}

/// The words for whether the tree's errors are equal to their clones, and for what these are.
fn cloned(alloc: Global, tree: &SyntaxNode) -> Result<String, AllocError> {
    let (errors, _warnings) = tree.errors_and_warnings(alloc)?;
    let copies = copies(alloc, &errors)?;
    let mut said = String::new(alloc);
    push_listed(alloc, &copies, &mut said)?;
    said.push_str(if copies == errors { "equal" } else { "unequal" })?;
    Ok(said)
}

#[test]
fn a_diagnostic_equals_its_clone(rt: HostRuntime) -> Result<(), Fail> {
    let tree = numbered(rt.alloc(), "Markup[ !m:# +0..1@h !n: ]", 4..16)?;
    let said = cloned(rt.alloc(), &tree)?;
    let wanted = "error m at 1/7 hint h at 1/7:0..1 error n at 1/9 equal";
    assert_text(&rt, "two errors", &said, wanted);
    Ok(())
}

/// The words for a node with two more hints, its own allocator's.
fn with_two_hints(alloc: Global, drawing: &str) -> Result<String, DrawingError> {
    let node = drawn(alloc, drawing)?;
    if !node.can_hint() {
        return Err(DrawingError::Misplaced);
    }
    let texts = vec![in alloc;
        String::from_str(alloc, "g")?,
        String::from_str(alloc, "h")?,
    ]?;
    let node = node.with_hints(alloc, texts)?;
    Ok(format!(in alloc; "{node:?}")?)
}

/// Drawings, and the words for their nodes with two more hints.
const HINTED: [(&str, &str); 2] = [
    (
        "!m:",
        r#"Error: { text: "", message: "m", hint: "g", hint: "h" }"#,
    ),
    (
        "Text:a ^w +f",
        r#"Warning: {message: "w", hint: "f", hint: "g", hint: "h", Text: "a"}"#,
    ),
];

#[test]
fn several_hints_keep_their_order(rt: HostRuntime) {
    for (drawing, wanted) in &HINTED {
        assert_said(&rt, drawing, with_two_hints(rt.alloc(), drawing), wanted);
    }
}

/// Asserts which parts fit within a text of two bytes.
fn assert_parts_fit(rt: &impl Abort, node: &SyntaxNode) {
    assert_row(rt, "0..1 fits", node.range_fits(0..1));
    assert_row(rt, "1..2 fits", node.range_fits(1..2));
    assert_row(rt, "0..2 fits", node.range_fits(0..2));
    assert_row(rt, "0..3 does not", !node.range_fits(0..3));
    assert_row(rt, "1..1 does not", !node.range_fits(1..1));
    assert_row(rt, "0..0 does not", !node.range_fits(0..0));
}

#[test]
fn parts_fit_within_the_text(rt: HostRuntime) -> Result<(), Fail> {
    let nodes = drawn_all(rt.alloc(), "Text:ab !m: Text:ab ^w")?;
    let [node, error, warned] = nodes.as_slice() else {
        return Err("no nodes")?;
    };
    assert_parts_fit(&rt, node);
    assert_row(&rt, "a leaf takes no hint", !node.can_hint());
    assert_row(&rt, "an error takes a hint", error.can_hint());
    assert_row(&rt, "a warned leaf takes a hint", warned.can_hint());
    Ok(())
}
