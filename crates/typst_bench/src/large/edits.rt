//! Edits of a numbered node of many children, and searches in it.
use crate::asked::Asked;
use crate::shapes::numbered;
use anyhow::Result;
use std::alloc::Global;
use typst_tree::session::{Reply, Request, Slot};
use typst_tree::{NumberedTree, SyntaxKind, SyntaxNode};

/// Makes the call that is asked for as often as asked, and answers whether each call gave the right answer.
pub fn made(alloc: Global, root: SyntaxNode, asked: Asked<'_>) -> Result<Option<bool>> {
    let mut tree = numbered(root)?;
    let right = match asked.verb {
        "find" => Ok(are_found(alloc, &tree, asked.rounds)),
        "replace" => are_replaced(alloc, &mut tree, asked.rounds),
        "insert" => are_inserted(alloc, &mut tree, asked.rounds),
        _ => are_served(alloc, &mut tree, asked.rounds),
    };
    Ok(Some(right?))
}

/// Whether the last child is found by its number.
fn are_found(alloc: Global, tree: &NumberedTree, count: usize) -> bool {
    let size = tree.root().child_slice().len();
    let Some(last) = tree.root().child_slice().last() else {
        return false;
    };
    let span = last.span();
    (0..count).all(|_| match tree.find(alloc, span) {
        Reply::Found { path, offset, .. } => {
            path.first()
                .is_some_and(|index| size.saturating_sub(*index) == 1)
                && size.saturating_sub(offset / 2) == 1
        }
        _ => false,
    })
}

/// A text that replaces the children of the root from one index up to another.
fn edit(alloc: Global, start: usize, end: usize, text: &str) -> Result<Request> {
    let leaf = SyntaxNode::leaf(alloc, SyntaxKind::Text, text)?;
    Ok(Request::Replace {
        path: Vec::new(alloc),
        range: start..end,
        replacement: vec![in alloc; leaf]?,
    })
}

/// Whether another text of the same length replaces a text in the middle.
fn are_replaced(alloc: Global, tree: &mut NumberedTree, count: usize) -> Result<bool> {
    let size = tree.root().child_slice().len();
    let middle = size / 2;
    for _ in 0..count {
        let request = edit(alloc, middle, middle.saturating_add(1), "cd")?;
        if !matches!(tree.serve(alloc, request), Reply::Renumbered(_)) {
            return Ok(false);
        }
    }
    Ok(tree.root().len() / 2 == size)
}

/// Whether texts are inserted before the last child.
fn are_inserted(alloc: Global, tree: &mut NumberedTree, count: usize) -> Result<bool> {
    let size = tree.root().child_slice().len();
    let last = size.saturating_sub(1);
    for _ in 0..count {
        let request = edit(alloc, last, last, "cd")?;
        if !matches!(tree.serve(alloc, request), Reply::Renumbered(_)) {
            return Ok(false);
        }
    }
    Ok(tree.root().len() / 2 == size.saturating_add(count))
}

/// Whether a run serves an insertion and a search after it.
fn are_served(alloc: Global, tree: &mut NumberedTree, count: usize) -> Result<bool> {
    let Some(last) = tree.root().child_slice().last() else {
        return Ok(false);
    };
    let span = last.span();
    for _ in 0..count {
        let mut slots = [
            Slot::Ask(edit(alloc, 0, 1, "cd")?),
            Slot::Ask(Request::Find(span)),
        ];
        tree.run(alloc, &mut slots);
        let is_found = matches!(slots[1], Slot::Told(Reply::Found { .. }));
        if !is_found || !matches!(slots[0], Slot::Told(Reply::Renumbered(_))) {
            return Ok(false);
        }
    }
    Ok(true)
}
