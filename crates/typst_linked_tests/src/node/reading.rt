//! What is read from a node.
use crate::rows::{assert_row, assert_said, assert_text};
use std::alloc::Global;
use std::test::Fail;
use typst_base::SyntaxKind;
use typst_drawn::{DrawingError, drawn, drawn_all, numbered, sizes};
use typst_node::{Diagnosis, SyntaxNode, count_nodes};

/// What is shown, a tree, and the words for what is read from it: its kind, its form, its sizes, its diagnosis, its own
/// text and its full text.
type Row = (&'static str, &'static str, &'static str);

/// What nodes answer.
const READ: [Row; 11] = [
    (
        "an inner node",
        "Markup[ Text:ab Text:c ]",
        "Markup inner 3/3(2 3)[2/1 1/1] - <> <abc>",
    ),
    ("a leaf", "Text:ab", "Text leaf 2/1 - <ab> <ab>"),
    ("an empty leaf", "Text:", "Text leaf 0/1 - <> <>"),
    (
        "a leaf with the longest short text",
        "Text:abcdefghijklmnopqrstu",
        "Text leaf 21/1 - <abcdefghijklmnopqrstu> <abcdefghijklmnopqrstu>",
    ),
    (
        "a leaf with a text one byte longer",
        "Markup[ Text:abcdefghijklmnopqrstuv Text:w ]",
        "Markup inner 23/3(22 23)[22/1 1/1] - <> <abcdefghijklmnopqrstuvw>",
    ),
    (
        "an inner node without children",
        "Markup[ ]",
        "Markup inner 0/1 - <> <>",
    ),
    (
        "an error with a text counts as a leaf",
        "!m:#",
        "Error leaf 1/1 errors <#> <#>",
    ),
    (
        "an error without a text does not",
        "!m:",
        "Error neither 0/1 errors <> <>",
    ),
    (
        "a warning has the node's kind and text",
        "Text:ab ^w",
        "Text leaf 2/1 warnings <ab> <ab>",
    ),
    (
        "child ends go on after an empty child",
        "Markup[ Text:ab Markup[ ] Text:c ]",
        "Markup inner 3/4(2 2 3)[2/1 0/1 1/1] - <> <abc>",
    ),
    (
        "an error and a warning below",
        "Markup[ Strong[ !m:# ] Text:c ^w ]",
        "Markup inner 2/4(1 2)[1/2(1)[1/1] 1/1] both <> <#c>",
    ),
];

/// Whether a node is inner or a leaf.
fn form(node: &SyntaxNode) -> &'static str {
    if node.is_inner() {
        "inner"
    } else if node.is_leaf() {
        "leaf"
    } else {
        "neither"
    }
}

/// Whether there are errors or warnings.
pub(crate) fn diagnosed(node: &SyntaxNode) -> &'static str {
    let diagnosis = node.diagnosis();
    if diagnosis.both() {
        "both"
    } else if diagnosis.errors {
        "errors"
    } else if diagnosis.warnings {
        "warnings"
    } else {
        "-"
    }
}

/// What a drawn node answers.
fn read(alloc: Global, drawing: &str) -> Result<String, DrawingError> {
    let node = drawn(alloc, drawing)?;
    let kind = node.kind();
    let form = form(&node);
    let sizes = sizes(alloc, &node)?;
    let diagnosed = diagnosed(&node);
    let own = node.leaf_text();
    let full = node.full_text(alloc)?;
    Ok(format!(in alloc; "{kind:?} {form} {sizes} {diagnosed} <{own}> <{full}>")?)
}

#[test]
fn nodes_are_read(rt: HostRuntime) {
    for (shows, drawing, wanted) in &READ {
        assert_said(&rt, shows, read(rt.alloc(), drawing), wanted);
    }
}

#[test]
fn a_placeholder_is_an_empty_leaf(rt: HostRuntime) -> Result<(), Fail> {
    let nodes = drawn_all(rt.alloc(), "Space: End: Text:a")?;
    let [space, end, text] = nodes.as_slice() else {
        return Err("no nodes")?;
    };
    let leaf = SyntaxNode::placeholder(rt.alloc(), SyntaxKind::Space);
    assert_row(&rt, "its kind", leaf.kind() == SyntaxKind::Space);
    assert_row(&rt, "it is empty", leaf.is_empty());
    assert_row(&rt, "it is a leaf", leaf == *space);
    let is_end = SyntaxNode::default() == *end;
    assert_row(&rt, "the default is an end", is_end);
    assert_row(&rt, "a text is not empty", !text.is_empty());
    Ok(())
}

#[test]
fn nodes_of_a_list_are_counted_with_those_below_them(rt: HostRuntime) -> Result<(), Fail> {
    let nodes = drawn_all(rt.alloc(), "Text:a Markup[ Strong[ Text:b ] Text: ] !m:#")?;
    assert_row(&rt, "all of them", count_nodes(&nodes) == 6);
    assert_row(
        &rt,
        "one of them",
        count_nodes(nodes.get(1..2).unwrap_or(&[])) == 4,
    );
    assert_row(&rt, "none", count_nodes(&[]) == 0);
    Ok(())
}

#[test]
fn diagnoses_join_member_by_member(rt: HostRuntime) {
    let none = Diagnosis::default();
    let errors = Diagnosis {
        errors: true,
        warnings: false,
    };
    let warnings = Diagnosis {
        errors: false,
        warnings: true,
    };
    assert_row(&rt, "errors are either", errors.either());
    assert_row(&rt, "warnings are either", warnings.either());
    assert_row(&rt, "none is not", !none.either());
    let both = errors.or(warnings).both();
    assert_row(&rt, "errors or warnings are both", both);
    assert_row(&rt, "errors are not", !errors.both());
    assert_row(&rt, "nor warnings", !warnings.both());
    assert_row(&rt, "errors or none", errors.or(none) == errors);
    assert_row(&rt, "none or warnings", none.or(warnings) == warnings);
}

/// The words for whether two trees are equal, or equal but for spans.
fn compared(one: &SyntaxNode, other: &SyntaxNode) -> &'static str {
    match (one == other, one.spanless_eq(other)) {
        (true, true) => "equal",
        (false, true) => "equal but for spans",
        (false, false) => "unequal",
        (true, false) => "equal, but not without spans",
    }
}

/// Two trees, the ends of the ranges from 2 on that they are numbered within, and how they compare.
type Pair = (&'static str, u64, &'static str, u64, &'static str);

/// Which nodes are equal.
const PAIRS: [Pair; 13] = [
    ("Text:ab ^0..1@m", 100, "Text:ab ^0..1@m", 100, "equal"),
    ("Text:ab ^0..1@m", 100, "Text:ab ^0..2@m", 100, "unequal"),
    (
        "Text:ab ^m +0..1@h",
        100,
        "Text:ab ^m +0..2@h",
        100,
        "unequal",
    ),
    ("Text:ab ^m", 100, "Text:ab", 100, "unequal"),
    ("Text:ab", 100, "Ident:ab", 100, "unequal"),
    (
        "Text:abcdefghijklmnopqrstuv",
        100,
        "Text:abcdefghijklmnopqrstuv",
        100,
        "equal",
    ),
    (
        "Text:abcdefghijklmnopqrstuv",
        100,
        "Text:abcdefghijklmnopqrstuw",
        100,
        "unequal",
    ),
    (
        "Text:abcdefghijklmnopqrstu",
        100,
        "Text:abcdefghijklmnopqrstuv",
        100,
        "unequal",
    ),
    ("!m:ab", 100, "!n:ab", 100, "unequal"),
    (
        "Markup[ Text:a Text:b ]",
        100,
        "Markup[ Text:a Text:b ]",
        100,
        "equal",
    ),
    (
        "Markup[ Text:a Text:b ]",
        100,
        "Markup[ Text:ab ]",
        100,
        "unequal",
    ),
    (
        "Markup[ Strong[ Star:* Text:b ] Text:c ]",
        30,
        "Markup[ Strong[ Star:* Text:b ] Text:c ]",
        100,
        "equal but for spans",
    ),
    // The same numbers, and another bound.
    ("Markup[ ]", 4, "Markup[ ]", 5, "equal but for spans"),
];

/// The words for whether the trees of a row are equal.
fn paired(alloc: Global, row: &Pair) -> Result<&'static str, DrawingError> {
    let (one, end, other, other_end, _) = row;
    let tree = numbered(alloc, one, 2..*end)?;
    let other_tree = numbered(alloc, other, 2..*other_end)?;
    Ok(compared(&tree, &other_tree))
}

#[test]
fn trees_are_compared_by_all_that_they_hold(rt: HostRuntime) -> Result<(), Fail> {
    for row in &PAIRS {
        assert_text(&rt, row.2, paired(rt.alloc(), row)?, row.4);
    }
    Ok(())
}

#[test]
fn a_tree_equals_its_clone(rt: HostRuntime) -> Result<(), Fail> {
    let tree = numbered(
        rt.alloc(),
        "Markup[ Strong[ Star:* Text:b ] Text:c ]",
        2..30,
    )?;
    let said = compared(&tree, &tree.clone()?);
    assert_text(&rt, "a clone", said, "equal");
    Ok(())
}
