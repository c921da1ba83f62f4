//! Replacements, and the numbers after them.
use crate::node::numbering::is_of;
use crate::node::reading::diagnosed;
use crate::rows::{assert_row, assert_said, assert_text};
use std::alloc::{AllocError, Global};
use std::ops::Range;
use std::test::Fail;
use typst_base::FileId;
use typst_drawn::{DrawingError, drawn, drawn_all, labels, numbered, sizes};
use typst_node::{Renumbered, ReplaceError, SyntaxNode};

/// A replacement and its result.
struct Row {
    shows: &'static str,
    tree: &'static str,
    within: Range<u64>,
    path: &'static [usize],
    range: Range<usize>,
    others: &'static str,
    /// The answer and the tree's text.
    answer: &'static str,
    labels: &'static str,
    sizes: &'static str,
}

/// Two texts.
const TWO: &str = "Markup[ Text:ab Text:c ]";

/// Strong content and a text.
const STRONG: &str = "Markup[ Strong[ Star:* Markup[ Text:b ] Star:* ] Text:c ]";

/// Eight texts.
const EIGHT: &str = "Markup[ Text:a Text:b Text:c Text:d Text:e Text:f Text:g Text:h ]";

/// What edits leave.
const EDITS: [Row; 15] = [
    Row {
        shows: "inserting between widens the window",
        tree: TWO,
        within: 2..14,
        path: &[],
        range: 1..1,
        others: "Text:x",
        answer: "window 0..3 tried 2 <abxc>",
        labels: "3..14[4..5 5..6 6..7]",
        sizes: "4/4(2 3 4)[2/1 1/1 1/1]",
    },
    Row {
        shows: "removing leaves the other numbers",
        tree: TWO,
        within: 2..14,
        path: &[],
        range: 0..1,
        others: "",
        answer: "window 0..0 tried 1 <c>",
        labels: "3..14[7..8]",
        sizes: "1/2(1)[1/1]",
    },
    Row {
        shows: "equal nodes keep their numbers",
        tree: TWO,
        within: 2..14,
        path: &[],
        range: 0..2,
        others: "Text:ab Text:c",
        answer: "window 2..2 tried 1 <abc>",
        labels: "3..14[5..6 7..8]",
        sizes: "3/3(2 3)[2/1 1/1]",
    },
    Row {
        shows: "without room nothing changes",
        tree: "Markup[ Text:a ]",
        within: 2..4,
        path: &[],
        range: 0..1,
        others: "Text:z",
        answer: "Unnumberable unchanged <a>",
        labels: "2..4[3..4]",
        sizes: "1/2(1)[1/1]",
    },
    Row {
        shows: "a leaf stays",
        tree: "Text:a",
        within: 2..4,
        path: &[],
        range: 3..1,
        others: "Text:z",
        answer: "window 0..0 tried 0 <a>",
        labels: "3..4",
        sizes: "1/1",
    },
    Row {
        shows: "an insertion in the middle widens the window by powers of two",
        tree: EIGHT,
        within: 2..20,
        path: &[],
        range: 4..4,
        others: "Text:x",
        answer: "window 0..9 tried 4 <abcdxefgh>",
        labels: "2..20[3..4 4..5 5..6 6..7 7..8 8..9 9..10 10..11 11..12]",
        sizes: "9/10(1 2 3 4 5 6 7 8 9)[1/1 1/1 1/1 1/1 1/1 1/1 1/1 1/1 1/1]",
    },
    Row {
        shows: "an insertion at the front widens the window to the right",
        tree: EIGHT,
        within: 2..20,
        path: &[],
        range: 0..0,
        others: "Text:x",
        answer: "window 0..9 tried 5 <xabcdefgh>",
        labels: "2..20[3..4 4..5 5..6 6..7 7..8 8..9 9..10 10..11 11..12]",
        sizes: "9/10(1 2 3 4 5 6 7 8 9)[1/1 1/1 1/1 1/1 1/1 1/1 1/1 1/1 1/1]",
    },
    Row {
        shows: "an insertion at the end has room at once",
        tree: EIGHT,
        within: 2..20,
        path: &[],
        range: 8..8,
        others: "Text:x",
        answer: "window 8..9 tried 1 <abcdefghx>",
        labels: "2..20[3..4 4..5 5..6 6..7 7..8 8..9 9..10 10..11 13..14]",
        sizes: "9/10(1 2 3 4 5 6 7 8 9)[1/1 1/1 1/1 1/1 1/1 1/1 1/1 1/1 1/1]",
    },
    Row {
        shows: "equal neighbours of a change stay as they are",
        tree: EIGHT,
        within: 2..20,
        path: &[],
        range: 0..8,
        others: "Text:a Text:b Text:c Text:y Text:e Text:f Text:g Text:h",
        answer: "window 0..8 tried 4 <abcyefgh>",
        labels: "2..20[3..4 4..5 5..6 6..7 7..8 8..9 9..10 10..11]",
        sizes: "8/9(1 2 3 4 5 6 7 8)[1/1 1/1 1/1 1/1 1/1 1/1 1/1 1/1]",
    },
    Row {
        shows: "two nodes have no room in the innermost one",
        tree: STRONG,
        within: 2..30,
        path: &[0, 1],
        range: 0..1,
        others: "Text:x Text:y",
        answer: "Unnumberable unchanged <*b*c>",
        labels: "3..30[4..14[5..6 6..8[7..8] 8..9] 15..16]",
        sizes: "4/7(3 4)[3/5(1 2 3)[1/1 1/2(1)[1/1] 1/1] 1/1]",
    },
    Row {
        shows: "replacing below renumbers the node around, and corrects what is above",
        tree: STRONG,
        within: 2..30,
        path: &[0],
        range: 1..2,
        others: "Markup[ Text:x Text:y ]",
        answer: "window 0..3 tried 2 <*xy*c>",
        labels: "3..30[4..14[5..6 6..9[7..8 8..9] 9..10] 15..16]",
        sizes: "5/8(4 5)[4/6(1 3 4)[1/1 2/3(1 2)[1/1 1/1] 1/1] 1/1]",
    },
    Row {
        shows: "a leaf below stays, whatever the range",
        tree: STRONG,
        within: 2..30,
        path: &[1],
        range: 7..3,
        others: "Text:z",
        answer: "window 0..0 tried 0 <*b*c>",
        labels: "3..30[4..14[5..6 6..8[7..8] 8..9] 15..16]",
        sizes: "4/7(3 4)[3/5(1 2 3)[1/1 1/2(1)[1/1] 1/1] 1/1]",
    },
    Row {
        shows: "a growth three levels deep is accepted where there is room, and corrects all above",
        tree: "Markup[ Strong[ Markup[ Text:a ] Star:* ] Text:c ]",
        within: 2..200,
        path: &[0, 0],
        range: 1..1,
        others: "Text:bb",
        answer: "window 1..2 tried 1 <abb*c>",
        labels: "10..200[22..82[28..42[32..33 35..36] 46..47] 90..91]",
        sizes: "5/7(4 5)[4/5(3 4)[3/3(1 3)[1/1 2/1] 1/1] 1/1]",
    },
    Row {
        shows: "a replaced error is reported no more",
        tree: "Markup[ Strong[ !m:# ] Text:c ]",
        within: 2..18,
        path: &[0],
        range: 0..1,
        others: "Text:b",
        answer: "window 0..1 tried 1 <bc>",
        labels: "3..18[4..8[5..6] 9..10]",
        sizes: "2/4(1 2)[1/2(1)[1/1] 1/1]",
    },
    Row {
        shows: "a shorter text keeps its node's warning, whose part is then beyond it",
        tree: "Strong[ Text:abcd ] ^0..4@m",
        within: 2..100,
        path: &[],
        range: 0..1,
        others: "Text:a",
        answer: "window 0..1 tried 1 <a>",
        labels: "14..100[36..37]",
        sizes: "1/2(1)[1/1]",
    },
];

/// The words for an answer, and for whether an edit that was refused changed the tree.
fn answered(
    alloc: Global,
    answer: &Result<Renumbered, ReplaceError>,
    tree: &SyntaxNode,
    before: &SyntaxNode,
) -> Result<String, DrawingError> {
    let text = tree.full_text(alloc)?;
    Ok(match answer {
        Ok(Renumbered { window, tried }) => {
            format!(in alloc; "window {window:?} tried {tried} <{text}>")?
        }
        Err(error) if tree == before => format!(in alloc; "{error:?} unchanged <{text}>")?,
        Err(error) => format!(in alloc; "{error:?} changed <{text}>")?,
    })
}

/// Replaces children of the node at a path, after testing the conditions. `replace_children` also makes a replacement
/// at the tree itself, and `try_replace_at` one below it. These do the same.
fn edit(
    alloc: Global,
    tree: &mut SyntaxNode,
    path: &[usize],
    range: &Range<usize>,
    others: &str,
) -> Result<String, DrawingError> {
    if !tree.edit_fits(path, range.start..range.end) || !tree.is_numbered() {
        return Err(DrawingError::Numbers);
    }
    let before = tree.clone()?;
    let same = tree.clone()?;
    let again = drawn_all(alloc, others)?;
    let replacement = drawn_all(alloc, others)?;
    let answer = tree.replace_at(alloc, path, range.start..range.end, replacement);
    if !is_same(alloc, same, path, range, again, &answer, tree) {
        return Err(DrawingError::Nodes);
    }
    answered(alloc, &answer, tree, &before)
}

/// Whether the same replacement by another call gives this answer and leaves this tree.
fn is_same(
    alloc: Global,
    mut tree: SyntaxNode,
    path: &[usize],
    range: &Range<usize>,
    others: Vec<SyntaxNode>,
    answer: &Result<Renumbered, ReplaceError>,
    after: &SyntaxNode,
) -> bool {
    // A replacement that isn't made at a leaf is shown as an empty window.
    let not_made = Ok(Renumbered {
        window: 0..0,
        tried: 0,
    });
    let again = made(alloc, &mut tree, path, range, others).unwrap_or(not_made);
    again == *answer && tree == *after
}

/// The replacement at the tree itself by `replace_children`, and one below it by `try_replace_at`.
fn made(
    alloc: Global,
    tree: &mut SyntaxNode,
    path: &[usize],
    range: &Range<usize>,
    others: Vec<SyntaxNode>,
) -> Option<Result<Renumbered, ReplaceError>> {
    if !tree.is_numbered() {
        return None;
    }
    if path.is_empty() && tree.edit_fits(&[], range.start..range.end) {
        return Some(tree.replace_children(alloc, range.start..range.end, others));
    }
    tree.try_replace_at(alloc, path, range.start..range.end, others)
}

/// The words for a tree's labels and sizes, for whether it is numbered, and for whether all nodes of two levels are of
/// file 1.
fn told(alloc: Global, tree: &SyntaxNode) -> Result<String, DrawingError> {
    let labels = labels(alloc, tree)?;
    let sizes = sizes(alloc, tree)?;
    let numbered = tree.is_numbered() && is_of(tree, FileId::new(1));
    Ok(format!(in alloc; "{labels} {sizes} {numbered}")?)
}

/// The words for the result of a row's replacement.
fn edited(alloc: Global, row: &Row) -> Result<String, DrawingError> {
    let mut tree = numbered(alloc, row.tree, row.within.start..row.within.end)?;
    let answer = edit(alloc, &mut tree, row.path, &row.range, row.others)?;
    let told = told(alloc, &tree)?;
    Ok(format!(in alloc; "{answer} {told}")?)
}

/// The words that are wanted for the result of a row's replacement.
fn wanted(alloc: Global, row: &Row) -> Result<String, AllocError> {
    format!(in alloc; "{} {} {} true", row.answer, row.labels, row.sizes)
}

#[test]
fn replacements_are_numbered_within_windows(rt: HostRuntime) -> Result<(), Fail> {
    let alloc = rt.alloc();
    for row in &EDITS {
        let said = edited(alloc, row)?;
        assert_text(&rt, row.shows, &said, &wanted(alloc, row)?);
    }
    Ok(())
}

/// The words for what a tree that isn't numbered answers. It doesn't change.
fn edit_detached(
    alloc: Global,
    drawing: &str,
    range: &Range<usize>,
    others: &str,
) -> Result<String, DrawingError> {
    let mut tree = drawn(alloc, drawing)?;
    if !tree.edit_fits(&[], range.start..range.end) || tree.span().id().is_some() {
        return Err(DrawingError::Numbers);
    }
    let before = tree.clone()?;
    let others = drawn_all(alloc, others)?;
    let answer = tree.replace_children(alloc, range.start..range.end, others);
    if tree != before {
        return Err(DrawingError::Nodes);
    }
    answered(alloc, &answer, &tree, &before)
}

/// Drawings, ranges of children, and what detached trees answer.
const DETACHED: [(&str, Range<usize>, &str); 2] = [
    ("Markup[ Text:a ]", 0..1, "Unnumberable unchanged <a>"),
    ("Text:a", 3..1, "window 0..0 tried 0 <a>"),
];

#[test]
fn a_detached_tree_takes_no_replacement(rt: HostRuntime) {
    for (drawing, range, wanted) in &DETACHED {
        assert_said(
            &rt,
            drawing,
            edit_detached(rt.alloc(), drawing, range, "Text:z"),
            wanted,
        );
    }
}

/// A text that is numbered for another file.
fn of_file_2(alloc: Global) -> Result<Vec<SyntaxNode>, DrawingError> {
    let mut other = drawn(alloc, "Text:x")?;
    let two = FileId::new(2).ok_or(DrawingError::Numbers)?;
    other.numberize(two, 2..100)?;
    Ok(vec![in alloc; other]?)
}

/// The words for the result of inserting a text that is numbered for another file.
fn inserted(alloc: Global) -> Result<String, DrawingError> {
    let mut tree = numbered(alloc, TWO, 2..14)?;
    if !tree.is_numbered() || !tree.edit_fits(&[], 1..1) {
        return Err(DrawingError::Numbers);
    }
    let before = tree.clone()?;
    let done = tree.replace_children(alloc, 1..1, of_file_2(alloc)?);
    let answer = answered(alloc, &done, &tree, &before)?;
    let told = told(alloc, &tree)?;
    Ok(format!(in alloc; "{answer} {told}")?)
}

#[test]
fn a_replacement_is_numbered_for_the_trees_file(rt: HostRuntime) {
    assert_said(
        &rt,
        "a text of another file",
        inserted(rt.alloc()),
        "window 0..3 tried 2 <abxc> 3..14[4..5 5..6 6..7] 4/4(2 3 4)[2/1 1/1 1/1] true",
    );
}

/// What is shown, the path and the range of an edit, whether it fits, and whether it is made.
type Trial = (&'static str, &'static [usize], Range<usize>, bool, bool);

/// Edits of `STRONG`.
const TRIALS: [Trial; 6] = [
    ("the only child", &[0, 1], 0..1, true, true),
    ("one more", &[0, 1], 0..2, false, false),
    ("a reversed range", &[0, 1], 1..0, false, false),
    ("no node", &[5], 0..0, false, false),
    ("a leaf, whatever the range", &[1], 7..3, true, false),
    ("below a leaf", &[1, 0], 0..0, false, false),
];

#[test]
fn edits_fit_where_their_path_leads_and_their_range_ends(rt: HostRuntime) -> Result<(), Fail> {
    let tree = numbered(rt.alloc(), STRONG, 2..30)?;
    for (shows, path, range, wanted, _) in &TRIALS {
        let fits = tree.edit_fits(path, range.start..range.end);
        assert_row(&rt, shows, fits == *wanted);
    }
    Ok(())
}

/// Whether a replacement by a text that is tried answers that it fits. If it doesn't fit, the tree must stay as it is.
fn is_made(
    alloc: Global,
    tree: &SyntaxNode,
    path: &[usize],
    range: &Range<usize>,
) -> Result<bool, DrawingError> {
    let mut copy = tree.clone()?;
    let others = drawn_all(alloc, "Text:z")?;
    let answer = made(alloc, &mut copy, path, range, others);
    if answer.is_none() && copy != *tree {
        return Err(DrawingError::Nodes);
    }
    Ok(answer.is_some())
}

#[test]
fn replacements_are_tried_where_their_path_leads_and_their_range_ends(
    rt: HostRuntime,
) -> Result<(), Fail> {
    let tree = numbered(rt.alloc(), STRONG, 2..30)?;
    for (shows, path, range, _, wanted) in &TRIALS {
        let made = is_made(rt.alloc(), &tree, path, range)?;
        assert_row(&rt, shows, made == *wanted);
    }
    Ok(())
}

/// The words for a tree's diagnosis before and after its first child's first child is replaced by a text.
fn diagnosed_around(alloc: Global, drawing: &str) -> Result<String, DrawingError> {
    let mut tree = numbered(alloc, drawing, 2..18)?;
    let before = diagnosed(&tree);
    edit(alloc, &mut tree, &[0], &(0..1), "Text:b")?;
    let after = diagnosed(&tree);
    Ok(format!(in alloc; "{before}, then {after}")?)
}

/// Drawings, and the words for their diagnoses.
const DIAGNOSED: [(&str, &str); 4] = [
    ("Markup[ Strong[ !m:# ] Text:c ]", "errors, then -"),
    ("Markup[ Strong[ !m:# ] ^w Text:c ]", "both, then warnings"),
    ("Markup[ Strong[ !m:# ] !n:c ]", "errors, then errors"),
    ("Markup[ Strong[ !m:# ^w ] Text:c ]", "both, then -"),
];

#[test]
fn a_replaced_error_leaves_the_warnings_above_it(rt: HostRuntime) {
    for (drawing, wanted) in &DIAGNOSED {
        assert_said(&rt, drawing, diagnosed_around(rt.alloc(), drawing), wanted);
    }
}
