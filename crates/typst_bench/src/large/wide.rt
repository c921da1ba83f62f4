//! Calls that read a node of many children, each a text of two bytes.
use crate::asked::Asked;
use crate::large::edits;
use crate::shapes::wide;
use anyhow::Result;
use std::alloc::Global;
use typst_tree::{LinkedNode, Side, SyntaxNode};

/// Makes the call that is asked for as often as asked, and answers whether each call gave the right answer.
pub fn made(alloc: Global, asked: Asked<'_>) -> Result<Option<bool>> {
    let root = wide(alloc, asked.size)?;
    match asked.verb {
        "find" | "replace" | "insert" | "run" => edits::made(alloc, root, asked),
        _ => read(alloc, &root, asked),
    }
}

/// Makes a call that reads the node.
fn read(alloc: Global, root: &SyntaxNode, asked: Asked<'_>) -> Result<Option<bool>> {
    let right = match asked.verb {
        "inner" => Ok(ends_after(root, asked.size)),
        "clone" => is_cloned(root),
        "full_text" => is_whole(alloc, root, asked.size),
        "leaf_at" => are_leaves(alloc, root, asked.rounds),
        "errors_and_warnings" => are_clean(alloc, root, asked.rounds),
        "children" => are_children(alloc, root, asked.size),
        "preorder" => are_nodes(alloc, root, asked.size),
        _ => return Ok(None),
    };
    Ok(Some(right?))
}

/// Whether the node has `size` children, the last of which ends at the end of the text.
fn ends_after(tree: &SyntaxNode, size: usize) -> bool {
    let Some(last) = tree.child_slice().len().checked_sub(1) else {
        return false;
    };
    last < size && size - last == 1 && tree.child_end(last) == tree.len() && tree.len() / 2 == size
}

/// Whether a clone equals the tree.
fn is_cloned(tree: &SyntaxNode) -> Result<bool> {
    let same = tree.clone()?;
    Ok(same == *tree)
}

/// Whether the whole text has two bytes a child.
fn is_whole(alloc: Global, tree: &SyntaxNode, size: usize) -> Result<bool> {
    Ok(tree.full_text(alloc)?.len() / 2 == size)
}

/// Whether the leaf before the last byte is the last child.
fn are_leaves(alloc: Global, tree: &SyntaxNode, count: usize) -> Result<bool> {
    let size = tree.child_slice().len();
    let root = LinkedNode::new(tree);
    let cursor = tree.len().saturating_sub(1);
    for _ in 0..count {
        let leaf = root.leaf_at(alloc, cursor, Side::Before)?;
        if !leaf.is_some_and(|leaf| size.saturating_sub(leaf.index()) == 1) {
            return Ok(false);
        }
    }
    Ok(true)
}

/// Whether no error and no warning is reported.
fn are_clean(alloc: Global, tree: &SyntaxNode, count: usize) -> Result<bool> {
    for _ in 0..count {
        let (errors, warnings) = tree.errors_and_warnings(alloc)?;
        if !errors.is_empty() || !warnings.is_empty() {
            return Ok(false);
        }
    }
    Ok(true)
}

/// Whether there are `size` linked children, the last of which ends where the text does.
fn are_children(alloc: Global, tree: &SyntaxNode, size: usize) -> Result<bool> {
    let mut seen = 0usize;
    let mut end = 0;
    for child in LinkedNode::new(tree).children(alloc)? {
        end = child?.range().end;
        seen = seen.saturating_add(1);
    }
    Ok(seen == size && end == tree.len())
}

/// Whether a walk in preorder gives the root and `size` nodes after it.
fn are_nodes(alloc: Global, tree: &SyntaxNode, size: usize) -> Result<bool> {
    let mut seen = 0usize;
    for node in LinkedNode::new(tree).preorder(alloc)? {
        let _node = node?;
        seen = seen.saturating_add(1);
    }
    Ok(seen.saturating_sub(1) == size)
}
