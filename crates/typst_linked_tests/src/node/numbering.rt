//! Numbering a tree.
use crate::rows::{assert_row, assert_said};
use std::alloc::Global;
use std::ops::Range;
use std::test::Fail;
use typst_base::FileId;
use typst_drawn::{DrawingError, drawn, labels};
use typst_node::SyntaxNode;

/// What is shown, a tree, the two ranges that it is numbered within in order, `0..0` for none, and the result: the
/// answers, and the labels at the end.
type Row = (
    &'static str,
    &'static str,
    Range<u64>,
    Range<u64>,
    &'static str,
);

/// Which numbers nodes are given.
const NUMBERINGS: [Row; 11] = [
    (
        "a new tree has no numbers",
        "Markup[ Text:ab Text:c ]",
        0..0,
        0..0,
        "1..0[1..2 1..2] free",
    ),
    (
        "numbers are spread over the first half",
        "Markup[ Text:ab Text:c ]",
        2..14,
        0..0,
        "done 3..14[5..6 7..8] numbered",
    ),
    (
        "as many numbers as nodes are enough",
        "Markup[ Text:ab Text:c ]",
        2..5,
        0..0,
        "done 2..5[3..4 4..5] numbered",
    ),
    (
        "fewer numbers than nodes, and none, change nothing",
        "Markup[ Text:ab Text:c ]",
        2..4,
        14..2,
        "refused refused 1..0[1..2 1..2] free",
    ),
    (
        "a refusal leaves earlier numbers",
        "Markup[ Text:ab Text:c ]",
        2..14,
        2..4,
        "done refused 3..14[5..6 7..8] numbered",
    ),
    (
        "a lone leaf takes the middle",
        "Text:ab",
        4..6,
        0..0,
        "done 5..6 numbered",
    ),
    (
        "a range for the root and one child",
        "Markup[ Text:a ]",
        2..4,
        0..0,
        "done 2..4[3..4] numbered",
    ),
    (
        "deeper nodes share what their parent takes",
        "Markup[ Strong[ Star:* Markup[ Text:b ] Star:* ] Text:c ]",
        2..30,
        0..0,
        "done 3..30[4..14[5..6 6..8[7..8] 8..9] 15..16] numbered",
    ),
    (
        "errors are numbered as leaves",
        "Markup[ Strong[ !m:# ] Text:c ]",
        2..18,
        0..0,
        "done 3..18[4..8[5..6] 9..10] numbered",
    ),
    (
        "a warning takes no number",
        "Strong[ Text:abcd ] ^0..4@m",
        2..100,
        0..0,
        "done 14..100[38..39] numbered",
    ),
    (
        "eight leaves within the fewest numbers for a second stride",
        "Markup[ Text:a Text:b Text:c Text:d Text:e Text:f Text:g Text:h ]",
        2..20,
        0..0,
        "done 2..20[3..4 4..5 5..6 6..7 7..8 8..9 9..10 10..11] numbered",
    ),
];

/// The word for the answer to a numbering within a range, empty for `0..0`.
fn answer(tree: &mut SyntaxNode, within: &Range<u64>) -> Result<&'static str, DrawingError> {
    if within.end == 0 {
        return Ok("");
    }
    if within.start < 2 || within.end > 1 << 47 {
        return Err(DrawingError::Numbers);
    }
    let before = tree.clone()?;
    Ok(
        match tree.numberize(FileId::FIRST, within.start..within.end) {
            Ok(()) => "done ",
            Err(_) if *tree == before => "refused ",
            Err(_) => "refused and changed ",
        },
    )
}

/// The words for a drawn tree after numberings within two ranges: the answers, and its labels.
fn numbering(
    alloc: Global,
    drawing: &str,
    first: &Range<u64>,
    second: &Range<u64>,
) -> Result<String, DrawingError> {
    let mut tree = drawn(alloc, drawing)?;
    let one = answer(&mut tree, first)?;
    let two = answer(&mut tree, second)?;
    let labels = labels(alloc, &tree)?;
    let state = if tree.is_numbered() {
        "numbered"
    } else {
        "free"
    };
    Ok(format!(in alloc; "{one}{two}{labels} {state}")?)
}

#[test]
fn numbers_are_given_in_preorder(rt: HostRuntime) {
    for (shows, drawing, first, second, wanted) in &NUMBERINGS {
        assert_said(
            &rt,
            shows,
            numbering(rt.alloc(), drawing, first, second),
            wanted,
        );
    }
}

/// Whether all nodes of a tree of two levels are of a file.
pub(crate) fn is_of(tree: &SyntaxNode, file: Option<FileId>) -> bool {
    tree.span().id() == file
        && tree
            .child_slice()
            .iter()
            .all(|child| child.span().id() == file)
}

#[test]
fn all_nodes_get_the_file(rt: HostRuntime) -> Result<(), Fail> {
    let mut tree = drawn(rt.alloc(), "Markup[ Text:ab Text:c ]")?;
    let file = FileId::new(65535).ok_or("no file")?;
    assert_row(&rt, "a new tree is of no file", is_of(&tree, None));
    let done = tree.numberize(file, 2..14).is_ok();
    assert_row(&rt, "it is numbered", done);
    assert_row(&rt, "all are of the file", is_of(&tree, Some(file)));
    Ok(())
}
