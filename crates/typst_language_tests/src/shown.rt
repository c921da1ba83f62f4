//! A tree as text, one node a line, and one line for each warning and hint.

use std::alloc::{AllocError, Global};
use typst_base::SyntaxKind;
use typst_linked::LinkedNode;
use typst_node::{SyntaxDiagnostic, SyntaxNode};

/// The lines of a tree.
pub(crate) fn shown(alloc: Global, root: &SyntaxNode) -> Result<String, AllocError> {
    let mut lines = String::new(alloc);
    for node in LinkedNode::new(root).preorder(alloc)? {
        let node = node?;
        let depth = node.path(alloc)?.len();
        push_blanks(&mut lines, depth)?;
        push_node(alloc, &mut lines, depth, node.get())?;
        push_warnings(alloc, &mut lines, depth, node.get())?;
    }
    Ok(lines)
}

/// Adds two blanks a level.
fn push_blanks(lines: &mut String, depth: usize) -> Result<(), AllocError> {
    for _ in 0..depth {
        lines.push_str("  ")?;
    }
    Ok(())
}

/// Adds what a node is without its children and warnings.
fn push_node(
    alloc: Global,
    lines: &mut String,
    depth: usize,
    node: &SyntaxNode,
) -> Result<(), AllocError> {
    let kind = node.kind();
    let text = node.leaf_text();
    if kind == SyntaxKind::Error {
        let (errors, _) = node.errors_and_warnings(alloc)?;
        for error in &errors {
            let message = &error.message;
            writeln!(lines, "Error {text:?}: {message}")?;
            push_hints(lines, depth, error)?;
        }
        return Ok(());
    }
    if node.is_leaf() {
        writeln!(lines, "{kind:?} {text:?}")
    } else {
        writeln!(lines, "{kind:?}")
    }
}

/// Adds the hints of an error or a warning of a node, one level deeper than the node.
fn push_hints(
    lines: &mut String,
    depth: usize,
    found: &SyntaxDiagnostic,
) -> Result<(), AllocError> {
    for hint in &found.hints {
        push_blanks(lines, depth.saturating_add(1))?;
        let text = &hint.v;
        writeln!(lines, "hint: {text}")?;
    }
    Ok(())
}

/// How many warnings the children of a node have, with all that is below them.
fn warnings_below(alloc: Global, node: &SyntaxNode) -> Result<usize, AllocError> {
    let mut count = 0usize;
    for child in node.children() {
        let (_, warnings) = child.errors_and_warnings(alloc)?;
        count = count.saturating_add(warnings.len());
    }
    Ok(count)
}

/// Adds the warnings of a node with their hints, one level deeper than the node.
fn push_warnings(
    alloc: Global,
    lines: &mut String,
    depth: usize,
    node: &SyntaxNode,
) -> Result<(), AllocError> {
    if !node.diagnosis().warnings {
        return Ok(());
    }
    let (_, warnings) = node.errors_and_warnings(alloc)?;
    let own = warnings.len().saturating_sub(warnings_below(alloc, node)?);
    for warning in warnings.iter().take(own) {
        push_blanks(lines, depth.saturating_add(1))?;
        let message = &warning.message;
        writeln!(lines, "warning: {message}")?;
        push_hints(lines, depth, warning)?;
    }
    Ok(())
}
