//! From a cursor to a view, and from a view to its place.
use crate::guide::editing::numbered;
use crate::rows::assert_text;
use std::test::Fail;
use typst_tree::ast::{AstNode, Heading, Text};
use typst_tree::session::Reply;
use typst_tree::{LinkedNode, NumberedTree, Side, Span, SyntaxKind, node_at};

#[test]
fn a_cursor_leads_to_a_leaf_and_its_view(rt: HostRuntime) -> Result<(), Fail> {
    let alloc = rt.alloc();
    let tree = numbered(alloc, Span::FULL)?;
    let root = LinkedNode::new(tree.root());
    // In `= Hello`, an empty line and `See *this*`, byte 16 is the `i`.
    let leaf = root.leaf_at(alloc, 16, Side::After)?.ok_or("no leaf")?;
    let text = leaf.get().cast::<Text>().ok_or("no text")?;
    assert!(rt; text.get() == "this" && leaf.offset() == 14);
    let around = leaf.parent().and_then(LinkedNode::parent);
    assert!(rt; around.is_some_and(|node| node.get().kind() == SyntaxKind::Strong));
    let path = leaf.path(alloc)?;
    assert!(rt; path.as_slice() == [3, 1, 0].as_slice());
    Ok(())
}

#[test]
fn bytes_lead_to_their_node(rt: HostRuntime) -> Result<(), Fail> {
    let alloc = rt.alloc();
    let tree = numbered(alloc, Span::FULL)?;
    let root = LinkedNode::new(tree.root());
    // `*this*` begins at byte 13 and ends before byte 19.
    let strong = root.find_range(alloc, 13, 19)?.ok_or("no node")?;
    assert_eq!(rt; strong.get().kind(), SyntaxKind::Strong);
    Ok(())
}

/// The view of the document's heading.
fn heading_of(tree: &NumberedTree) -> Result<Heading<'_>, Fail> {
    let first = tree.root().children().next().ok_or("no children")?;
    Ok(first.cast::<Heading>().ok_or("no heading")?)
}

#[test]
fn a_view_leads_to_its_place(rt: HostRuntime) -> Result<(), Fail> {
    let alloc = rt.alloc();
    let tree = numbered(alloc, Span::FULL)?;
    let heading = heading_of(&tree)?;
    // A span is all that has to be kept.
    let span = heading.body().span();
    let Reply::Found { path, offset, .. } = tree.find(alloc, span) else {
        return Err("not found")?;
    };
    assert!(rt; path.as_slice() == [0, 2].as_slice() && offset == 2);
    let node = node_at(tree.root(), &path).ok_or("no node")?;
    let text = node.full_text(alloc)?;
    assert_text(&rt, "the heading's body", "text", &text, "Hello");
    Ok(())
}
