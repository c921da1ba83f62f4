//! Calls that give long lists.
use anyhow::Result;
use std::alloc::Global;
use typst_tree::ast::{Destructuring, LetBinding, Pattern};
use typst_tree::{RangeMapper, SyntaxKind, SyntaxNode};

/// Makes the call of this name, and answers whether it gave the right answer.
pub fn made(alloc: Global, name: &str, size: usize) -> Result<Option<bool>> {
    let right = match name {
        "errors_and_warnings" => are_told(alloc, size),
        "bindings" => are_bound(alloc, size),
        "hints" => are_kept(alloc, size),
        "RangeMapper::new" => is_mapped(alloc, size),
        _ => return Ok(None),
    };
    Ok(Some(right?))
}

/// Whether `size` errors and as many warnings are reported.
fn are_told(alloc: Global, size: usize) -> Result<bool> {
    let mut nodes = Vec::new(alloc);
    for _ in 0..size {
        let mut error = SyntaxNode::error(alloc, "m", "a")?;
        error.warn(alloc, "w")?;
        nodes.push(error)?;
    }
    let tree = SyntaxNode::inner(alloc, SyntaxKind::Markup, nodes)?;
    let (errors, warnings) = tree.errors_and_warnings(alloc)?;
    Ok(errors.len() == size && warnings.len() == size)
}

/// Whether `size` names are bound: by the parts, by the pattern and by the binding.
fn are_bound(alloc: Global, size: usize) -> Result<bool> {
    let mut names = Vec::new(alloc);
    for _ in 0..size {
        names.push(SyntaxNode::leaf(alloc, SyntaxKind::Ident, "x")?)?;
    }
    let parts = SyntaxNode::inner(alloc, SyntaxKind::Destructuring, names)?;
    if bound_by_parts(alloc, &parts)? != size || bound_by_pattern(alloc, &parts)? != size {
        return Ok(false);
    }
    let binding = SyntaxNode::inner(alloc, SyntaxKind::LetBinding, vec![in alloc; parts]?)?;
    Ok(bound_by_binding(alloc, &binding)? == size)
}

/// How many names the parts bind.
fn bound_by_parts(alloc: Global, parts: &SyntaxNode) -> Result<usize> {
    match parts.cast::<Destructuring>() {
        Some(view) => Ok(view.bindings(alloc)?.len()),
        None => Ok(0),
    }
}

/// How many names they bind as a pattern.
fn bound_by_pattern(alloc: Global, parts: &SyntaxNode) -> Result<usize> {
    match parts.cast::<Pattern>() {
        Some(view) => Ok(view.bindings(alloc)?.len()),
        None => Ok(0),
    }
}

/// How many names a let binding binds.
fn bound_by_binding(alloc: Global, binding: &SyntaxNode) -> Result<usize> {
    match binding.cast::<LetBinding>() {
        Some(view) => Ok(view.kind().bindings(alloc)?.len()),
        None => Ok(0),
    }
}

/// Whether an error keeps `size` hints.
fn are_kept(alloc: Global, size: usize) -> Result<bool> {
    let mut error = SyntaxNode::error(alloc, "m", "a")?;
    for _ in 0..size {
        if !error.can_hint() {
            return Ok(false);
        }
        error.hint(alloc, "h")?;
    }
    let (errors, _) = error.errors_and_warnings(alloc)?;
    Ok(errors.first().is_some_and(|it| it.hints.len() == size))
}

/// Whether `size` segments of two bytes, each with a gap of one byte before it, make one text.
fn is_mapped(alloc: Global, size: usize) -> Result<bool> {
    let mut segments = Vec::new(alloc);
    let mut start = 1usize;
    for _ in 0..size {
        segments.push(start..start.saturating_add(2))?;
        start = start.saturating_add(3);
    }
    let mapper = RangeMapper::new(alloc, segments.as_slice())?;
    Ok(mapper.total_len() / 2 == size)
}
