//! Trees that are kept numbered, and the nodes that come back.
use crate::rows::assert_text;
use crate::tree::asking::{kept, said, span_of};
use std::alloc::{AllocError, Global};
use std::ops::Range;
use std::process::Abort;
use std::test::Fail;
use typst_drawn::{DrawingError, drawn, labels, numbered};
use typst_tree::{FileId, NumberedTree, Span, SyntaxNode, node_at};

/// Two texts.
const TWO: &str = "Markup[ Text:ab Text:c ]";

/// What is done with a tree of two texts.
enum Act {
    /// It is numbered within a range, and its root is taken out.
    Number(Range<u64>),
    /// It is taken as numbered, after it is numbered within a range or as it was drawn.
    Take(Option<Range<u64>>),
    /// It is numbered anew within a range for file 7.
    Renumber(Range<u64>),
    /// The span of a number, or a detached one, is sought in it.
    Find(Option<u64>),
}

/// The words for what comes of an act.
fn outcome(alloc: Global, act: &Act) -> Result<String, DrawingError> {
    match act {
        Act::Number(within) => number(alloc, within.start..within.end),
        Act::Take(within) => take(alloc, within.as_ref()),
        Act::Renumber(within) => renumber(alloc, within.start..within.end),
        Act::Find(number) => find(alloc, *number),
    }
}

/// Asserts what comes of each act. A row has what it shows, the act, and the words.
fn assert_acts(rt: &(impl Abort + AllocGlobal), rows: &[(&str, Act, &str)]) -> Result<(), Fail> {
    for (shows, act, wanted) in rows {
        assert_text(rt, shows, "outcome", &outcome(rt.alloc(), act)?, wanted);
    }
    Ok(())
}

/// The words for a tree that came back, beside the tree as it was.
fn returned(tree: &SyntaxNode, same: &SyntaxNode) -> &'static str {
    if tree == same {
        "came back as it was"
    } else {
        "came back changed"
    }
}

/// The labels of a numbered tree, and of its root after it is taken out.
fn lent_and_taken(alloc: Global, tree: NumberedTree) -> Result<String, AllocError> {
    let lent = labels(alloc, tree.root())?;
    let taken = labels(alloc, &tree.into_root())?;
    format!(in alloc; "{lent} and {taken}")
}

/// The labels of a tree that is numbered within a range, and of its root after it is taken out, or what came back.
fn number(alloc: Global, within: Range<u64>) -> Result<String, DrawingError> {
    if within.start < 2 || within.end > 1 << 47 {
        return Err(DrawingError::Numbers);
    }
    let root = drawn(alloc, TWO)?;
    let same = root.clone()?;
    Ok(match NumberedTree::number(root, FileId::FIRST, within) {
        Ok(tree) => lent_and_taken(alloc, tree),
        Err(error) => String::from_str(alloc, returned(&error.tree, &same)),
    }?)
}

#[test]
fn a_tree_is_numbered_or_comes_back_as_it_was(rt: HostRuntime) -> Result<(), Fail> {
    assert_acts(
        &rt,
        &[
            (
                "numbers to spare",
                Act::Number(2..14),
                "3..14[5..6 7..8] and 3..14[5..6 7..8]",
            ),
            (
                "a number for each node",
                Act::Number(2..5),
                "2..5[3..4 4..5] and 2..5[3..4 4..5]",
            ),
            ("a number too few", Act::Number(2..4), "came back as it was"),
            ("no numbers", Act::Number(14..2), "came back as it was"),
        ],
    )
}

/// The tree, numbered within a range or as it was drawn.
fn two(alloc: Global, within: Option<&Range<u64>>) -> Result<SyntaxNode, DrawingError> {
    match within {
        Some(within) => numbered(alloc, TWO, within.start..within.end),
        None => drawn(alloc, TWO),
    }
}

/// The words for a tree that is taken, beside the tree as it was.
fn taken(tree: &SyntaxNode, same: &SyntaxNode) -> &'static str {
    if tree == same {
        "taken as it was"
    } else {
        "taken and changed"
    }
}

/// The words for whether a tree is taken as numbered, and whether it is then or comes back as it was.
fn take(alloc: Global, within: Option<&Range<u64>>) -> Result<String, DrawingError> {
    let root = two(alloc, within)?;
    let same = root.clone()?;
    let words = match NumberedTree::from_numbered(root) {
        Ok(tree) => taken(tree.root(), &same),
        Err(error) => returned(&error.tree, &same),
    };
    Ok(String::from_str(alloc, words)?)
}

#[test]
fn only_a_numbered_tree_is_taken_as_one(rt: HostRuntime) -> Result<(), Fail> {
    assert_acts(
        &rt,
        &[
            ("a drawn tree", Act::Take(None), "came back as it was"),
            ("a numbered tree", Act::Take(Some(2..14)), "taken as it was"),
        ],
    )
}

/// The words for the answer of a renumbering, the labels after it, and whether they are for a file.
fn renumbered(
    alloc: Global,
    answer: &str,
    root: &SyntaxNode,
    file: FileId,
) -> Result<String, AllocError> {
    let labels = labels(alloc, root)?;
    let is_of_file = root.span().id() == Some(file);
    format!(in alloc; "{answer} {labels} {is_of_file}")
}

/// The labels of a tree after it is numbered anew within a range for file 7.
fn renumber(alloc: Global, within: Range<u64>) -> Result<String, DrawingError> {
    if within.start < 2 || within.end > 1 << 47 {
        return Err(DrawingError::Numbers);
    }
    let file = FileId::new(7).ok_or(DrawingError::Numbers)?;
    let mut tree = kept(alloc, TWO, 2..14)?;
    let answer = match tree.renumber(file, within) {
        Ok(()) => "done",
        Err(_) => "refused",
    };
    Ok(renumbered(alloc, answer, tree.root(), file)?)
}

#[test]
fn a_refused_renumbering_keeps_the_old_one(rt: HostRuntime) -> Result<(), Fail> {
    assert_acts(
        &rt,
        &[
            (
                "numbers to spare",
                Act::Renumber(1000..1012),
                "done 1001..1012[1003..1004 1005..1006] true",
            ),
            (
                "a number too few",
                Act::Renumber(2..4),
                "refused 3..14[5..6 7..8] false",
            ),
        ],
    )
}

/// The span of a number, or a detached one.
fn span_at(number: Option<u64>) -> Result<Span, DrawingError> {
    match number {
        Some(number) => span_of(number),
        None => Ok(Span::detached()),
    }
}

/// The words for where the span of a number, or a detached one, is found.
fn find(alloc: Global, number: Option<u64>) -> Result<String, DrawingError> {
    let span = span_at(number)?;
    let tree = kept(alloc, TWO, 2..14)?;
    Ok(said(alloc, Some(&tree.find(alloc, span)))?)
}

#[test]
fn a_span_is_found_where_its_node_is(rt: HostRuntime) -> Result<(), Fail> {
    assert_acts(
        &rt,
        &[
            ("a node's number", Act::Find(Some(7)), "[1] at 2"),
            ("a number between two nodes'", Act::Find(Some(6)), "none"),
            ("a detached span", Act::Find(None), "none"),
        ],
    )
}

/// The own text of the node at a path, or a word for no node.
fn text_at<'a>(tree: &'a SyntaxNode, path: &[usize]) -> &'a str {
    match node_at(tree, path) {
        Some(node) => node.leaf_text(),
        None => "nowhere",
    }
}

/// Asserts where paths lead. A row has what it shows, the path, and the own text of the node there.
fn assert_at(rt: &impl Abort, tree: &SyntaxNode, rows: &[(&str, &[usize], &str)]) {
    for (shows, path, wanted) in rows {
        assert_text(rt, shows, "path", text_at(tree, path), wanted);
    }
}

#[test]
fn a_path_leads_to_a_node_or_nowhere(rt: HostRuntime) -> Result<(), Fail> {
    let tree = drawn(rt.alloc(), "Markup[ Strong[ Text:ab Space:~ ] Text:c ]")?;
    assert_at(
        &rt,
        &tree,
        &[
            ("the root", &[], ""),
            ("a child", &[1], "c"),
            ("a grandchild", &[0, 0], "ab"),
            ("behind the children", &[0, 2], "nowhere"),
            ("below a leaf", &[1, 0], "nowhere"),
        ],
    );
    Ok(())
}
