//! Building, dropping and copying trees.
use crate::asked::Asked;
use crate::shapes::tree;
use crate::stopwatch::Stopwatch;
use anyhow::{Context, Result};
use std::alloc::Global;

/// Builds, drops or clones a tree in each round, and returns how many nodes the trees have together. The first tree
/// that is built and the first clone take memory that the process hasn't had before, so they are neither timed nor
/// counted.
pub fn made(alloc: Global, watch: &mut Stopwatch<'_>, asked: Asked<'_>) -> Result<Option<usize>> {
    let nodes = match asked.verb {
        "build" => built(alloc, watch, asked),
        "drop" => dropped(alloc, watch, asked),
        "clone" => cloned(alloc, watch, asked),
        _ => return Ok(None),
    };
    Ok(Some(nodes?))
}

fn built(alloc: Global, watch: &mut Stopwatch<'_>, asked: Asked<'_>) -> Result<usize> {
    let mut nodes = 0usize;
    drop(tree(alloc, asked.shape, asked.size)?);
    for _ in 0..asked.rounds {
        watch.start()?;
        let tree = tree(alloc, asked.shape, asked.size)?.context("no shape")?;
        watch.stop()?;
        nodes = nodes.saturating_add(tree.descendants());
    }
    Ok(nodes)
}

fn dropped(alloc: Global, watch: &mut Stopwatch<'_>, asked: Asked<'_>) -> Result<usize> {
    let mut nodes = 0usize;
    for _ in 0..asked.rounds {
        let tree = tree(alloc, asked.shape, asked.size)?.context("no shape")?;
        nodes = nodes.saturating_add(tree.descendants());
        watch.start()?;
        drop(tree);
        watch.stop()?;
    }
    Ok(nodes)
}

fn cloned(alloc: Global, watch: &mut Stopwatch<'_>, asked: Asked<'_>) -> Result<usize> {
    let tree = tree(alloc, asked.shape, asked.size)?.context("no shape")?;
    let mut nodes = 0usize;
    drop(tree.clone()?);
    for _ in 0..asked.rounds {
        watch.start()?;
        let same = tree.clone()?;
        watch.stop()?;
        nodes = nodes.saturating_add(same.descendants());
    }
    Ok(nodes)
}
