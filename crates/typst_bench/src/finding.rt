//! Searches for a node: by its number, and by a place in the text.
use crate::asked::Asked;
use crate::drawn::place;
use crate::shapes::tree;
use crate::stopwatch::Stopwatch;
use anyhow::{Context, Result};
use std::alloc::Global;
use typst_tree::{FileId, LinkedNode, Side, Span, SyntaxNode};

/// Searches a numbered tree in each round, and returns the sum of the places where the nodes that were found begin.
pub fn made(alloc: Global, watch: &mut Stopwatch<'_>, asked: Asked<'_>) -> Result<Option<usize>> {
    let Some(mut tree) = tree(alloc, asked.shape, asked.size)? else {
        return Ok(None);
    };
    tree.numberize(FileId::FIRST, Span::FULL)?;
    let spans = spans(alloc, &tree, asked.rounds)?;
    watch.start()?;
    let sum = match asked.verb {
        "find" => found(alloc, &tree, &spans),
        _ => found_at(alloc, &tree, asked.rounds),
    };
    watch.stop()?;
    Ok(Some(sum?))
}

/// The spans of this many nodes, spread over the tree.
fn spans(alloc: Global, tree: &SyntaxNode, count: usize) -> Result<Vec<Span>> {
    let mut all = Vec::new(alloc);
    for node in LinkedNode::new(tree).preorder(alloc)? {
        all.push(node?.get().span())?;
    }
    let mut drawn = Vec::new(alloc);
    for round in 0..count {
        let span = all.get(place(round, all.len())).context("there is a node")?;
        drawn.push(*span)?;
    }
    Ok(drawn)
}

/// Finds nodes by their numbers.
fn found(alloc: Global, tree: &SyntaxNode, spans: &[Span]) -> Result<usize> {
    let root = LinkedNode::new(tree);
    let mut sum = 0usize;
    for span in spans {
        let node = root.find(alloc, *span)?.context("a span has its node")?;
        sum = sum.saturating_add(node.offset());
    }
    Ok(sum)
}

/// Finds the leaves before places that are spread over the text.
fn found_at(alloc: Global, tree: &SyntaxNode, rounds: usize) -> Result<usize> {
    let root = LinkedNode::new(tree);
    let mut sum = 0usize;
    for round in 0..rounds {
        let cursor = place(round, tree.len()).saturating_add(1);
        let leaf = root
            .leaf_at(alloc, cursor, Side::Before)?
            .context("each byte has its leaf")?;
        sum = sum.saturating_add(leaf.offset());
    }
    Ok(sum)
}
