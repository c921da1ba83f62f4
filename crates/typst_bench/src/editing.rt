//! Edits of numbered trees.
use crate::asked::Asked;
use crate::drawn::place;
use crate::shapes::{PARAGRAPHS, chain, numbered, tree};
use crate::stopwatch::Stopwatch;
use anyhow::{Context, Result};
use std::alloc::Global;
use typst_tree::{NumberedTree, SyntaxKind, SyntaxNode, node_at};

/// Edits a tree in each round. Returns the sum of the tree's lengths after each edit, plus one for each letter `c` that
/// the tree has at the end. Only text from edits has this letter, once in each edit.
pub fn made(alloc: Global, watch: &mut Stopwatch<'_>, asked: Asked<'_>) -> Result<Option<usize>> {
    let Some(root) = tree(alloc, asked.shape, asked.size)? else {
        return Ok(None);
    };
    let mut tree = numbered(root)?;
    watch.start()?;
    let Some(lengths) = edited(alloc, &mut tree, asked)? else {
        return Ok(None);
    };
    watch.stop()?;
    let letters = letters(alloc, tree.root())?;
    Ok(Some(lengths.saturating_add(letters)))
}

/// Makes the edits, and returns the sum of the lengths.
fn edited(alloc: Global, tree: &mut NumberedTree, asked: Asked<'_>) -> Result<Option<usize>> {
    let rounds = asked.rounds;
    let lengths = match (asked.verb, asked.shape) {
        ("replace", "wide") => replace_wide(alloc, tree, rounds),
        ("resize", "wide") => resize_wide(alloc, tree, rounds),
        ("insert_front", "wide") => insert_front(alloc, tree, rounds),
        ("insert_end", "wide") => insert_end(alloc, tree, rounds),
        ("replace", "ten") => replace_ten(alloc, tree, rounds),
        ("replace", "document") => replace_document(alloc, tree, rounds),
        ("replace_equal", "document") => replace_equal(alloc, tree, rounds),
        ("replace", "chain") => replace_chain(alloc, tree, asked),
        ("reconcile", "chain") => reconcile_chain(alloc, tree, asked),
        _ => return Ok(None),
    };
    Ok(Some(lengths?))
}

/// How many letters `c` a tree has.
fn letters(alloc: Global, root: &SyntaxNode) -> Result<usize> {
    let text = root.full_text(alloc)?;
    Ok(text.bytes().filter(|byte| *byte == b'c').count())
}

/// A list of one leaf.
fn leaf(alloc: Global, text: &str) -> Result<Vec<SyntaxNode>> {
    let leaf = SyntaxNode::leaf(alloc, SyntaxKind::Text, text)?;
    Ok(vec![in alloc; leaf]?)
}

/// Replaces the child with an index of the node at a path by a leaf, and returns the tree's length after that.
fn replace(
    alloc: Global,
    tree: &mut NumberedTree,
    path: &[usize],
    index: usize,
    text: &str,
) -> Result<usize> {
    tree.replace(
        alloc,
        path,
        index..index.saturating_add(1),
        leaf(alloc, text)?,
    )?;
    Ok(tree.root().len())
}

/// Replaces leaves of one node by leaves of the same length.
fn replace_wide(alloc: Global, tree: &mut NumberedTree, rounds: usize) -> Result<usize> {
    let size = tree.root().child_slice().len();
    let mut lengths = 0usize;
    for round in 0..rounds {
        let len = replace(alloc, tree, &[], place(round, size), "cd")?;
        lengths = lengths.saturating_add(len);
    }
    Ok(lengths)
}

/// Replaces leaves of one node by leaves of other lengths, which are a byte and three bytes by turns.
fn resize_wide(alloc: Global, tree: &mut NumberedTree, rounds: usize) -> Result<usize> {
    let size = tree.root().child_slice().len();
    let mut lengths = 0usize;
    for round in 0..rounds {
        let text = if round % 2 == 0 { "c" } else { "cde" };
        let len = replace(alloc, tree, &[], place(round, size), text)?;
        lengths = lengths.saturating_add(len);
    }
    Ok(lengths)
}

/// Inserts leaves before all others of one node.
fn insert_front(alloc: Global, tree: &mut NumberedTree, rounds: usize) -> Result<usize> {
    let mut lengths = 0usize;
    for _ in 0..rounds {
        tree.insert(alloc, &[], 0, leaf(alloc, "cd")?)?;
        lengths = lengths.saturating_add(tree.root().len());
    }
    Ok(lengths)
}

/// Inserts leaves after all others of one node, and removes each again.
fn insert_end(alloc: Global, tree: &mut NumberedTree, rounds: usize) -> Result<usize> {
    let size = tree.root().child_slice().len();
    let mut lengths = 0usize;
    for _ in 0..rounds {
        tree.insert(alloc, &[], size, leaf(alloc, "cd")?)?;
        lengths = lengths.saturating_add(tree.root().len());
        tree.remove(alloc, &[], size..size.saturating_add(1))?;
        lengths = lengths.saturating_add(tree.root().len());
    }
    Ok(lengths)
}

/// Replaces leaves in nodes of ten leaves, by leaves of the same length.
fn replace_ten(alloc: Global, tree: &mut NumberedTree, rounds: usize) -> Result<usize> {
    let size = tree.root().child_slice().len();
    let mut lengths = 0usize;
    for round in 0..rounds {
        let len = replace(alloc, tree, &[place(round, size)], round % 10, "cd")?;
        lengths = lengths.saturating_add(len);
    }
    Ok(lengths)
}

/// The path of the paragraph that a round edits.
fn paragraph(tree: &NumberedTree, round: usize) -> [usize; 2] {
    let sections = tree.root().child_slice().len();
    [place(round, sections), round % PARAGRAPHS]
}

/// Replaces the first leaves of paragraphs by leaves of the same length.
fn replace_document(alloc: Global, tree: &mut NumberedTree, rounds: usize) -> Result<usize> {
    let mut lengths = 0usize;
    for round in 0..rounds {
        let path = paragraph(tree, round);
        let len = replace(alloc, tree, &path, 0, "cdef")?;
        lengths = lengths.saturating_add(len);
    }
    Ok(lengths)
}

/// Replaces all nodes of paragraphs by equal ones.
fn replace_equal(alloc: Global, tree: &mut NumberedTree, rounds: usize) -> Result<usize> {
    let mut lengths = 0usize;
    for round in 0..rounds {
        let path = paragraph(tree, round);
        let nodes = copies(alloc, tree, &path)?;
        tree.replace(alloc, &path, 0..nodes.len(), nodes)?;
        lengths = lengths.saturating_add(tree.root().len());
    }
    Ok(lengths)
}

/// Copies of the children of the node at a path.
fn copies(alloc: Global, tree: &NumberedTree, path: &[usize]) -> Result<Vec<SyntaxNode>> {
    let node = node_at(tree.root(), path).context("there is a paragraph")?;
    let mut nodes = Vec::new(alloc);
    for child in node.children() {
        nodes.push(child.clone()?)?;
    }
    Ok(nodes)
}

/// Replaces the leaf in the last node of a chain.
fn replace_chain(alloc: Global, tree: &mut NumberedTree, asked: Asked<'_>) -> Result<usize> {
    let path = vec![in alloc; 0; asked.size.saturating_sub(1)]?;
    let mut lengths = 0usize;
    for _ in 0..asked.rounds {
        let len = replace(alloc, tree, &path, 0, "cd")?;
        lengths = lengths.saturating_add(len);
    }
    Ok(lengths)
}

/// Puts a new chain in place of the root's child in each round. Only its leaf differs from the one that is there.
fn reconcile_chain(alloc: Global, tree: &mut NumberedTree, asked: Asked<'_>) -> Result<usize> {
    let mut lengths = 0usize;
    for round in 0..asked.rounds {
        let text = if round % 2 == 0 { "cd" } else { "ce" };
        let below = chain(alloc, asked.size.saturating_sub(1), text)?;
        tree.reconcile(alloc, &[], 0..1, vec![in alloc; below]?)?;
        lengths = lengths.saturating_add(tree.root().len());
    }
    Ok(lengths)
}
