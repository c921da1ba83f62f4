//! Edits that answer a `Result`: what they do, and what they say where they do nothing.
use crate::rows::assert_text;
use crate::tree::asking::{kept, said};
use std::alloc::{AllocError, Global};
use std::ops::Range;
use std::process::Abort;
use std::test::Fail;
use typst_drawn::{DrawingError, drawn_all};
use typst_tree::session::Reply;
use typst_tree::{EditError, NumberedTree, Renumbered};

/// An edit of a node's children.
enum Edit {
    /// Other nodes in place of a range of them.
    Replace(Range<usize>),
    /// Nodes before one of them.
    Insert(usize),
    /// No nodes in place of a range of them.
    Remove(Range<usize>),
}

/// An edit of the node at a path, with the nodes that come, what it answers, and the tree's text after it.
struct Row {
    shows: &'static str,
    path: &'static [usize],
    edit: Edit,
    nodes: &'static str,
    answer: &'static str,
    text: &'static str,
}

/// A strong text and another one, numbered within 2..30. It has room at the root, and none below the strong text.
const TREE: &str = "Markup[ Strong[ Star:* Markup[ Text:b ] Star:* ] Text:c ]";

/// What edits answer, and the text after each.
const ROWS: [Row; 8] = [
    Row {
        shows: "nodes come for a child",
        path: &[],
        edit: Edit::Replace(1..2),
        nodes: "Text:x Text:y",
        answer: "window 1..3 tried 1",
        text: "*b*xy",
    },
    Row {
        shows: "a node comes behind the last child",
        path: &[],
        edit: Edit::Insert(2),
        nodes: "Text:x",
        answer: "window 2..3 tried 1",
        text: "*b*cx",
    },
    Row {
        shows: "a child goes, at any depth",
        path: &[0, 1],
        edit: Edit::Remove(0..1),
        nodes: "",
        answer: "window 0..0 tried 1",
        text: "**c",
    },
    Row {
        shows: "a path that leads past the children",
        path: &[0, 3, 1],
        edit: Edit::Remove(0..0),
        nodes: "",
        answer: "the path leads to no node: at depth 1 child 3 is wanted, but the node has 3 children",
        text: "*b*c",
    },
    Row {
        shows: "a path that leads below a leaf",
        path: &[1, 0],
        edit: Edit::Remove(0..0),
        nodes: "",
        answer: "the path leads to no node: at depth 1 child 0 is wanted, but the node has 0 children",
        text: "*b*c",
    },
    Row {
        shows: "a path to a leaf",
        path: &[1],
        edit: Edit::Insert(0),
        nodes: "Text:x",
        answer: "the path leads to a leaf, which has no children to replace",
        text: "*b*c",
    },
    Row {
        shows: "a range past the children",
        path: &[0],
        edit: Edit::Replace(2..4),
        nodes: "Text:x",
        answer: "the range 2..4 isn't one of the node's 3 children",
        text: "*b*c",
    },
    Row {
        shows: "a refusal",
        path: &[0, 1],
        edit: Edit::Insert(1),
        nodes: "Text:x Text:y Text:z",
        answer: "no window of children has room for new numbers",
        text: "*b*c",
    },
];

/// The words for what an edit answers.
fn told(alloc: Global, answer: Result<Renumbered, EditError>) -> Result<String, AllocError> {
    match answer {
        Ok(renumbered) => said(alloc, Some(&Reply::Renumbered(renumbered))),
        Err(error) => format!(in alloc; "{error}"),
    }
}

/// The words for what an edit of a tree answers.
fn answer(alloc: Global, tree: &mut NumberedTree, row: &Row) -> Result<String, DrawingError> {
    let nodes = drawn_all(alloc, row.nodes)?;
    let answer = match &row.edit {
        Edit::Replace(range) => tree.replace(alloc, row.path, range.start..range.end, nodes),
        Edit::Insert(index) => tree.insert(alloc, row.path, *index, nodes),
        Edit::Remove(range) => tree.remove(alloc, row.path, range.start..range.end),
    };
    Ok(told(alloc, answer)?)
}

/// The words for what an edit answers, and the tree's text after it.
fn edited(alloc: Global, row: &Row) -> Result<(String, String), DrawingError> {
    let mut tree = kept(alloc, TREE, 2..30)?;
    let answer = answer(alloc, &mut tree, row)?;
    Ok((answer, tree.root().full_text(alloc)?))
}

/// Asserts what each edit answers, and the tree's text after it.
fn assert_edits(rt: &(impl Abort + AllocGlobal), rows: &[Row]) -> Result<(), Fail> {
    for row in rows {
        let (answer, text) = edited(rt.alloc(), row)?;
        assert_text(rt, row.shows, "answer", &answer, row.answer);
        assert_text(rt, row.shows, "text", &text, row.text);
    }
    Ok(())
}

#[test]
fn an_edit_is_done_or_says_why_not(rt: HostRuntime) -> Result<(), Fail> {
    assert_edits(&rt, &ROWS)
}

#[test]
fn a_numbered_tree_is_shown_as_its_root(rt: HostRuntime) -> Result<(), Fail> {
    let alloc = rt.alloc();
    let tree = kept(alloc, "Markup[ Text:ab ]", 2..30)?;
    let shown = format!(in alloc; "{tree:?}")?;
    assert_text(&rt, "a tree", "Debug", &shown, r#"Markup: 2 [Text: "ab"]"#);
    Ok(())
}
