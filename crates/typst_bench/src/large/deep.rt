//! Calls on a chain of nodes, each inside the one before, with a text of two bytes in the last. bench/depth.py looks for
//! the depths that a stack holds.
//!
//! A chain is forgotten after the call, so only the call `drop` uses the stack for dropping.
use crate::shapes::{chain, chain_over, numbered};
use anyhow::Result;
use std::alloc::Global;
use std::hash::{DefaultHasher, Hash, Hasher};
use std::mem;
use typst_tree::session::{Reply, Request};
use typst_tree::{LinkedNode, Side, SyntaxKind, SyntaxNode};

/// Makes the call of this name, and answers whether it gave the right answer.
pub fn made(alloc: Global, name: &str, depth: usize) -> Result<Option<bool>> {
    let root = chain(alloc, depth, "ab")?;
    let right = match name {
        "build" => {
            mem::forget(root);
            Ok(true)
        }
        "drop" => {
            drop(root);
            Ok(true)
        }
        "number" => {
            mem::forget(numbered(root)?);
            Ok(true)
        }
        "is_numbered" => is_numbered(root),
        "find" => is_found(alloc, root, depth),
        "replace" => is_replaced(alloc, root, depth),
        "next_leaf" => is_next(alloc, root, depth),
        _ => {
            let right = read(alloc, name, &root, depth);
            mem::forget(root);
            return right;
        }
    };
    Ok(Some(right?))
}

/// Makes a call that reads a chain.
fn read(alloc: Global, name: &str, root: &SyntaxNode, depth: usize) -> Result<Option<bool>> {
    let right = match name {
        "path" => is_as_deep(alloc, root, depth),
        "leaf_at" => is_leaf(alloc, root),
        "clone" => is_cloned(root),
        "compare" => is_equal(alloc, root, depth),
        "hash" => Ok(is_hashed(root)),
        "full_text" => is_whole(alloc, root),
        "errors_and_warnings" => is_told(alloc, depth),
        _ => return Ok(None),
    };
    Ok(Some(right?))
}

/// Hashes the chain.
fn is_hashed(root: &SyntaxNode) -> bool {
    let mut state = DefaultHasher::new();
    root.hash(&mut state);
    let _ = state.finish();
    true
}

/// Whether the chain's text is that of its end.
fn is_whole(alloc: Global, root: &SyntaxNode) -> Result<bool> {
    Ok(root.full_text(alloc)?.as_str() == "ab")
}

/// Whether a clone equals the chain. Comparing takes less of the stack than cloning does.
fn is_cloned(root: &SyntaxNode) -> Result<bool> {
    let same = root.clone()?;
    let right = same == *root;
    mem::forget(same);
    Ok(right)
}

/// Whether the chain equals another one.
fn is_equal(alloc: Global, root: &SyntaxNode, depth: usize) -> Result<bool> {
    let same = chain(alloc, depth, "ab")?;
    let right = same == *root;
    mem::forget(same);
    Ok(right)
}

/// Whether the path to the text has as many steps as there are levels.
fn is_as_deep(alloc: Global, tree: &SyntaxNode, depth: usize) -> Result<bool> {
    let Some(leaf) = LinkedNode::new(tree).leftmost_leaf(alloc)? else {
        return Ok(false);
    };
    let path = leaf.path(alloc)?;
    Ok(path.len() == depth && path.iter().all(|index| *index == 0))
}

/// Whether the text is the leaf before the second byte.
fn is_leaf(alloc: Global, tree: &SyntaxNode) -> Result<bool> {
    let leaf = LinkedNode::new(tree).leaf_at(alloc, 1, Side::Before)?;
    Ok(leaf.is_some_and(|leaf| leaf.get().leaf_text() == "ab"))
}

/// Whether of two chains side by side each has the other's text next to its own.
fn is_next(alloc: Global, root: SyntaxNode, depth: usize) -> Result<bool> {
    let chains = vec![in alloc; root, chain(alloc, depth, "ab")?]?;
    let tree = SyntaxNode::inner(alloc, SyntaxKind::Markup, chains)?;
    let right = are_neighbors(alloc, &tree)?;
    mem::forget(tree);
    Ok(right)
}

/// Whether the first text is the one before the last, which begins at byte 2.
fn are_neighbors(alloc: Global, tree: &SyntaxNode) -> Result<bool> {
    let root = LinkedNode::new(tree);
    let Some(first) = root.leftmost_leaf(alloc)? else {
        return Ok(false);
    };
    let Some(last) = root.rightmost_leaf(alloc)? else {
        return Ok(false);
    };
    let next = first.next_leaf(alloc)?;
    let previous = last.prev_leaf(alloc)?;
    Ok(
        next.is_some_and(|leaf| leaf.offset() == 2)
            && previous.is_some_and(|leaf| leaf.offset() == 0),
    )
}

/// Whether an error at the end of a chain is reported.
fn is_told(alloc: Global, depth: usize) -> Result<bool> {
    let tree = chain_over(alloc, SyntaxNode::error(alloc, "m", "ab")?, depth)?;
    let (errors, warnings) = tree.errors_and_warnings(alloc)?;
    mem::forget(tree);
    Ok(errors.len() == 1 && warnings.is_empty())
}

/// Whether a chain with numbers is found to have them.
fn is_numbered(root: SyntaxNode) -> Result<bool> {
    let tree = numbered(root)?;
    let right = tree.root().is_numbered();
    mem::forget(tree);
    Ok(right)
}

/// Whether the text is found by its number.
fn is_found(alloc: Global, root: SyntaxNode, depth: usize) -> Result<bool> {
    let tree = numbered(root)?;
    let reply = end_of(tree.root(), depth).map(|leaf| tree.find(alloc, leaf.span()));
    mem::forget(tree);
    Ok(match reply {
        Some(Reply::Found { path, offset, .. }) => path.len() == depth && offset == 0,
        _ => false,
    })
}

/// The node at the end of a chain, if there are as many levels, and each of them is of markup and has one child.
fn end_of(root: &SyntaxNode, depth: usize) -> Option<&SyntaxNode> {
    let mut node = root;
    for _ in 0..depth {
        let [child] = node.child_slice() else {
            return None;
        };
        if node.kind() != SyntaxKind::Markup {
            return None;
        }
        node = child;
    }
    Some(node)
}

/// Whether the text is removed, and all nodes above it are empty then. Other texts would find no room, because a deep
/// chain has as many numbers there as nodes.
fn is_replaced(alloc: Global, root: SyntaxNode, depth: usize) -> Result<bool> {
    let request = Request::Replace {
        path: vec![in alloc; 0; depth.saturating_sub(1)]?,
        range: 0..1,
        replacement: Vec::new(alloc),
    };
    let mut tree = numbered(root)?;
    let reply = tree.serve(alloc, request);
    let is_empty = tree.root().is_empty();
    mem::forget(tree);
    Ok(is_empty && matches!(reply, Reply::Renumbered(_)))
}
