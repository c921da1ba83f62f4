//! Walks from node to node.
use crate::asked::Asked;
use crate::shapes::tree;
use crate::stopwatch::Stopwatch;
use anyhow::Result;
use std::alloc::Global;
use typst_tree::{LinkedNode, SyntaxNode};

/// For how many levels of a tree linked children are listed: for all levels of every shape except a chain.
const LEVELS: usize = 8;

/// Walks over a tree in each round, and returns the sum of the places where the visited nodes begin.
pub fn made(alloc: Global, watch: &mut Stopwatch<'_>, asked: Asked<'_>) -> Result<Option<usize>> {
    let Some(tree) = tree(alloc, asked.shape, asked.size)? else {
        return Ok(None);
    };
    let mut sum = 0usize;
    watch.start()?;
    for _ in 0..asked.rounds {
        sum = sum.saturating_add(walked(alloc, asked.verb, &tree)?);
    }
    watch.stop()?;
    Ok(Some(sum))
}

/// Walks over a tree once.
fn walked(alloc: Global, verb: &str, tree: &SyntaxNode) -> Result<usize> {
    match verb {
        "next_leaf" => onwards(alloc, tree),
        "prev_leaf" => backwards(alloc, tree),
        "children" => below(alloc, &LinkedNode::new(tree), LEVELS),
        _ => in_preorder(alloc, tree),
    }
}

/// Walks from the first leaf to the last.
fn onwards(alloc: Global, tree: &SyntaxNode) -> Result<usize> {
    let mut sum = 0usize;
    let mut next = LinkedNode::new(tree).leftmost_leaf(alloc)?;
    for _ in 0..tree.descendants() {
        let Some(leaf) = next else {
            break;
        };
        sum = sum.saturating_add(leaf.offset());
        next = leaf.next_leaf(alloc)?;
    }
    Ok(sum)
}

/// Walks from the last leaf to the first.
fn backwards(alloc: Global, tree: &SyntaxNode) -> Result<usize> {
    let mut sum = 0usize;
    let mut next = LinkedNode::new(tree).rightmost_leaf(alloc)?;
    for _ in 0..tree.descendants() {
        let Some(leaf) = next else {
            break;
        };
        sum = sum.saturating_add(leaf.offset());
        next = leaf.prev_leaf(alloc)?;
    }
    Ok(sum)
}

/// Walks over the linked children of a node and of all nodes below it, for this many levels.
fn below(alloc: Global, node: &LinkedNode<'_>, levels: usize) -> Result<usize> {
    let Some(left) = levels.checked_sub(1) else {
        return Ok(0);
    };
    let mut sum = node.offset();
    for child in node.children(alloc)? {
        sum = sum.saturating_add(below(alloc, &child?, left)?);
    }
    Ok(sum)
}

/// Walks over all nodes.
fn in_preorder(alloc: Global, tree: &SyntaxNode) -> Result<usize> {
    let mut sum = 0usize;
    for node in LinkedNode::new(tree).preorder(alloc)? {
        sum = sum.saturating_add(node?.offset());
    }
    Ok(sum)
}
