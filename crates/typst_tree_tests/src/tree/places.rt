//! The bytes that diagnostics are about.
use crate::rows::assert_text;
use crate::tree::asking::{kept, span_of};
use std::alloc::Global;
use std::ops::Range;
use std::process::Abort;
use std::test::Fail;
use typst_drawn::DrawingError;
use typst_tree::{DiagSpan, FileId, NumberedTree, SubRange};

/// What a diagnostic points to.
enum Points {
    /// Nothing.
    Nowhere,
    /// The node with a number in file 1, or a part of it.
    Number(u64, Option<Range<usize>>),
    /// Bytes of a file.
    Bytes(u16, Range<usize>),
}

/// Strong content and a text.
const TREE: &str = "Markup[ Strong[ Star:* Markup[ Text:bcd ] Star:* ] Text:e ]";

/// What a row shows, what the diagnostic points to, and the bytes. The tree's numbers are 3, 4, 5, 6, 7, 8, 15.
const ROWS: [(&str, Points, &str); 13] = [
    ("a detached span", Points::Nowhere, "None"),
    ("the root", Points::Number(3, None), "Some(0..6)"),
    ("a node below", Points::Number(6, None), "Some(1..4)"),
    ("a leaf", Points::Number(7, None), "Some(1..4)"),
    ("the last leaf", Points::Number(15, None), "Some(5..6)"),
    (
        "a part of a leaf",
        Points::Number(7, Some(1..2)),
        "Some(2..3)",
    ),
    (
        "a part up to the end",
        Points::Number(7, Some(1..3)),
        "Some(2..4)",
    ),
    (
        "a part past the end",
        Points::Number(7, Some(1..4)),
        "Some(1..4)",
    ),
    ("a number of no node", Points::Number(9, None), "None"),
    ("a number before all", Points::Number(2, None), "None"),
    ("bytes of the text", Points::Bytes(1, 2..6), "Some(2..6)"),
    ("bytes past the text", Points::Bytes(1, 2..7), "None"),
    ("bytes of another file", Points::Bytes(2, 2..6), "None"),
];

/// The diagnostic span that points there.
fn pointing(points: &Points) -> Result<DiagSpan, DrawingError> {
    Ok(match points {
        Points::Nowhere => DiagSpan::detached(),
        Points::Number(number, part) => {
            let part = part
                .as_ref()
                .and_then(|part| SubRange::new(part.start, part.end));
            DiagSpan::from_span(span_of(*number)?, part)
        }
        Points::Bytes(file, range) => {
            let file = FileId::new(*file).ok_or(DrawingError::Numbers)?;
            DiagSpan::from_range(file, range.start..range.end)
        }
    })
}

/// The words for the bytes that are pointed to.
fn place(alloc: Global, tree: &NumberedTree, points: &Points) -> Result<String, DrawingError> {
    Ok(format!(in alloc; "{:?}", tree.place_of(&pointing(points)?))?)
}

/// Asserts the bytes that each row points to in a tree.
fn assert_places(
    rt: &(impl Abort + AllocGlobal),
    tree: &NumberedTree,
    rows: &[(&str, Points, &str)],
) -> Result<(), Fail> {
    for (shows, points, wanted) in rows {
        assert_text(
            rt,
            shows,
            "place",
            &place(rt.alloc(), tree, points)?,
            wanted,
        );
    }
    Ok(())
}

#[test]
fn a_diagnostic_leads_to_its_bytes(rt: HostRuntime) -> Result<(), Fail> {
    assert_places(&rt, &kept(rt.alloc(), TREE, 2..30)?, &ROWS)
}
