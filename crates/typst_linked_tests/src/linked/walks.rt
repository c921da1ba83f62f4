//! Walks over children and in preorder.
use crate::linked::asking::{at, place};
use crate::rows::assert_said;
use std::alloc::{AllocError, Global};
use typst_drawn::{DrawingError, drawn};
use typst_linked::{LinkedChildren, LinkedNode, LinkedPreorder};

/// Adds the words for a node.
fn push_place(
    alloc: Global,
    node: Option<&LinkedNode>,
    said: &mut String,
) -> Result<(), AllocError> {
    said.push_str(place(alloc, node)?.as_str())?;
    said.push_str("; ")
}

/// The words for the nodes of the subtree at a path, in preorder.
fn in_preorder(alloc: Global, drawing: &str, path: &[usize]) -> Result<String, DrawingError> {
    let tree = drawn(alloc, drawing)?;
    let start = at(alloc, &LinkedNode::new(&tree), path)?;
    let mut said = String::new(alloc);
    for below in start.preorder(alloc)? {
        push_place(alloc, Some(&below?), &mut said)?;
    }
    Ok(said)
}

/// A start in the tree `Markup[ Strong[ Star:* Emph[ Text:b ] ] Text:c ]`, and the words for the nodes below it.
const IN_PREORDER: [(&[usize], &str); 2] = [
    (
        &[0],
        r#"[0] 0..2 Strong: 2 [Star: "*", Emph: 1 [Text: "b"]]; [0, 0] 0..1 Star: "*"; [0, 1] 1..2 Emph: 1 [Text: "b"]; [0, 1, 0] 1..2 Text: "b"; "#,
    ),
    (
        &[],
        r#"[] 0..3 Markup: 3 [Strong: 2 [Star: "*", Emph: 1 [Text: "b"]], Text: "c"]; [0] 0..2 Strong: 2 [Star: "*", Emph: 1 [Text: "b"]]; [0, 0] 0..1 Star: "*"; [0, 1] 1..2 Emph: 1 [Text: "b"]; [0, 1, 0] 1..2 Text: "b"; [1] 2..3 Text: "c"; "#,
    ),
];

#[test]
fn preorder_gives_a_node_before_its_children(rt: HostRuntime) {
    for (path, wanted) in &IN_PREORDER {
        let tree = "Markup[ Strong[ Star:* Emph[ Text:b ] ] Text:c ]";
        assert_said(
            &rt,
            "in preorder",
            in_preorder(rt.alloc(), tree, path),
            wanted,
        );
    }
}

/// The size hint of a walk in preorder at first and after each node, and that of a copy of it then.
fn hinted(alloc: Global, drawing: &str) -> Result<String, DrawingError> {
    let tree = drawn(alloc, drawing)?;
    let mut nodes = LinkedNode::new(&tree).preorder(alloc)?;
    let mut said = String::new(alloc);
    for _ in 0..3 {
        push_hints(alloc, &nodes, &mut said)?;
        let _next = nodes.next().transpose()?;
    }
    Ok(said)
}

/// Adds the size hint of a walk, and that of a copy of it.
fn push_hints(alloc: Global, nodes: &LinkedPreorder, said: &mut String) -> Result<(), AllocError> {
    let hint = nodes.size_hint();
    let again = nodes.clone()?.size_hint();
    said.push_str(format!(in alloc; "{hint:?} {again:?}; ")?.as_str())
}

#[test]
fn a_preorder_hints_the_nodes_that_are_left(rt: HostRuntime) {
    assert_said(
        &rt,
        "hints",
        hinted(rt.alloc(), "Markup[ Text:a ]"),
        "(1, Some(2)) (1, Some(2)); (1, Some(1)) (1, Some(1)); (0, Some(0)) (0, Some(0)); ",
    );
}

/// How a walk over a tree's children and one in preorder are shown after one step each.
fn shown_ahead(alloc: Global, drawing: &str) -> Result<String, DrawingError> {
    let tree = drawn(alloc, drawing)?;
    let root = LinkedNode::new(&tree);
    let mut children = root.clone()?.children(alloc)?;
    let mut nodes = root.preorder(alloc)?;
    Ok(shown_behind_first(alloc, &mut children, &mut nodes)?)
}

/// How lists show what is left after the first node.
fn shown_behind_first(
    alloc: Global,
    children: &mut LinkedChildren,
    nodes: &mut LinkedPreorder,
) -> Result<String, AllocError> {
    let _child = children.next().transpose()?;
    let _node = nodes.next().transpose()?;
    format!(in alloc; "{children:?} {nodes:?}")
}

#[test]
fn walks_show_what_is_left(rt: HostRuntime) {
    assert_said(
        &rt,
        "walks after a step",
        shown_ahead(rt.alloc(), "Markup[ Text:a Text:b ]"),
        r#"LinkedChildren { parent: Markup: 2 [Text: "a", Text: "b"], from: 1, to: 2, begin: 1 } LinkedPreorder { next: Some(Text: "a"), left: 2, .. }"#,
    );
}

/// The words for a tree's children, taken from the front for `f` and from the back for `b`, and how many are left.
fn taken(alloc: Global, drawing: &str, ends: &str) -> Result<String, DrawingError> {
    let tree = drawn(alloc, drawing)?;
    let mut children = LinkedNode::new(&tree).children(alloc)?;
    let mut said = String::new(alloc);
    for end in ends.chars() {
        let child = next_of(&mut children, end)?;
        push_place(alloc, child.as_ref(), &mut said)?;
    }
    push_left(alloc, &children, &mut said)?;
    Ok(said)
}

/// The next child from this end.
fn next_of<'a>(
    children: &mut LinkedChildren<'a>,
    end: char,
) -> Result<Option<LinkedNode<'a>>, AllocError> {
    if end == 'f' {
        children.next().transpose()
    } else {
        children.next_back().transpose()
    }
}

/// Adds how many children are left in a copy.
fn push_left(
    alloc: Global,
    children: &LinkedChildren,
    said: &mut String,
) -> Result<(), AllocError> {
    let left = children.clone()?.len();
    said.push_str(format!(in alloc; "{left} left")?.as_str())
}

/// The ends that children of `Markup[ Text:ab Text:c Text:d ]` are taken from, and the words for them.
const TAKEN: [(&str, &str); 3] = [
    ("", "3 left"),
    ("bf", r#"[2] 3..4 Text: "d"; [0] 0..2 Text: "ab"; 1 left"#),
    (
        "ffbfb",
        r#"[0] 0..2 Text: "ab"; [1] 2..3 Text: "c"; [2] 3..4 Text: "d"; -; -; 0 left"#,
    ),
];

#[test]
fn children_come_from_both_ends(rt: HostRuntime) {
    for (ends, wanted) in &TAKEN {
        assert_said(
            &rt,
            ends,
            taken(rt.alloc(), "Markup[ Text:ab Text:c Text:d ]", ends),
            wanted,
        );
    }
}

/// The words for a copy of the node at a path.
fn copied(alloc: Global, drawing: &str, path: &[usize]) -> Result<String, DrawingError> {
    let tree = drawn(alloc, drawing)?;
    let copy = at(alloc, &LinkedNode::new(&tree), path)?.clone()?;
    Ok(place(alloc, Some(&copy))?)
}

#[test]
fn a_clone_stands_where_its_node_does(rt: HostRuntime) {
    assert_said(
        &rt,
        "a copy",
        copied(rt.alloc(), "Markup[ Text:ab Text:c ]", &[1]),
        r#"[1] 2..3 Text: "c""#,
    );
}
