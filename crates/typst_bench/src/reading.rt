//! Operations on a whole tree.
use crate::asked::Asked;
use crate::shapes::tree;
use crate::stopwatch::Stopwatch;
use anyhow::Result;
use std::alloc::Global;
use typst_tree::{FileId, Span, SyntaxNode};

/// Walks over a tree in each round, and returns how many nodes, bytes or errors were seen in all.
pub fn made(alloc: Global, watch: &mut Stopwatch<'_>, asked: Asked<'_>) -> Result<Option<usize>> {
    let Some(mut tree) = tree(alloc, asked.shape, asked.size)? else {
        return Ok(None);
    };
    if asked.verb == "spanless_eq" {
        return Ok(Some(compared(alloc, watch, &tree, asked)?));
    }
    watch.start()?;
    let seen = match asked.verb {
        "number" => numbered(&mut tree, asked.rounds),
        "synthesize" => Ok(synthesized(&mut tree, asked.rounds)),
        "full_text" => written(alloc, &tree, asked.rounds),
        _ => told(alloc, &tree, asked.rounds),
    };
    watch.stop()?;
    Ok(Some(seen?))
}

/// Numbers a tree, and returns how many nodes were numbered.
fn numbered(tree: &mut SyntaxNode, rounds: usize) -> Result<usize> {
    let mut nodes = 0usize;
    for _ in 0..rounds {
        tree.numberize(FileId::FIRST, Span::FULL)?;
        nodes = nodes.saturating_add(tree.descendants());
    }
    Ok(nodes)
}

/// Gives all nodes one span, and returns how many nodes there are.
fn synthesized(tree: &mut SyntaxNode, rounds: usize) -> usize {
    let mut nodes = 0usize;
    for _ in 0..rounds {
        tree.synthesize(Span::detached());
        nodes = nodes.saturating_add(tree.descendants());
    }
    nodes
}

/// Joins the texts of all leaves, and returns how many bytes they have.
fn written(alloc: Global, tree: &SyntaxNode, rounds: usize) -> Result<usize> {
    let mut bytes = 0usize;
    for _ in 0..rounds {
        bytes = bytes.saturating_add(tree.full_text(alloc)?.len());
    }
    Ok(bytes)
}

/// Lists the errors, and returns how many there are.
fn told(alloc: Global, tree: &SyntaxNode, rounds: usize) -> Result<usize> {
    let mut told = 0usize;
    for _ in 0..rounds {
        let (errors, _) = tree.errors_and_warnings(alloc)?;
        told = told.saturating_add(errors.len());
    }
    Ok(told)
}

/// Compares a tree with another one of its shape, and returns how many nodes were found equal.
fn compared(
    alloc: Global,
    watch: &mut Stopwatch<'_>,
    one: &SyntaxNode,
    asked: Asked<'_>,
) -> Result<usize> {
    let Some(other) = tree(alloc, asked.shape, asked.size)? else {
        return Ok(0);
    };
    let mut nodes = 0usize;
    for _ in 0..asked.rounds {
        // The clock is read in each round, so that the compiler can't do one comparison for all rounds.
        watch.start()?;
        let is_equal = one.spanless_eq(&other);
        watch.stop()?;
        if is_equal {
            nodes = nodes.saturating_add(one.descendants());
        }
    }
    Ok(nodes)
}
