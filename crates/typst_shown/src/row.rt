//! The row of a node.
ghost use Rattle.std.specs.Prelude.{◌≡◌, ◌≤◌, ◌^◌, IfOk, IsErr, length};
ghost use Rattle.std.specs.Option.{is_none};
ghost use Rattle.typst_linked.specs.Siblings.{sibling, behind_it};
ghost use Rattle.typst_shown.specs.Rows.{row_at};

use std::alloc::AllocError;
use typst_base::SyntaxKind;
use typst_linked::LinkedNode;

/// What is shown of a node, apart from its text. Ranges are in bytes of the root's text.
#[derive(Clone, Copy, Debug, PartialEq, Eq)]
pub struct Row {
    /// How many nodes are above it.
    pub depth: usize,
    /// Its index among its parent's children, and 0 for the root.
    pub index: usize,
    /// Whether no sibling comes after it.
    pub is_last: bool,
    /// Its kind.
    pub kind: SyntaxKind,
    /// Whether it has a list of children, which may be empty.
    pub is_inner: bool,
    /// Where its text begins.
    pub start: usize,
    /// Where its text ends.
    pub end: usize,
    /// The number of its span. It means nothing in a tree that isn't numbered.
    pub number: u64,
    /// A number above all numbers of its subtree.
    pub bound: u64,
}

impl Row {
    /// The row of a node. It takes time in proportion to the depth, and no memory. It fails only if more nodes are above
    /// the node than a `usize` counts.
    pub fn of(node: &LinkedNode<'_>) -> Result<Row, AllocError>
        ensures returns { IfOk result (λ row. row ≡ row_at node.now) }
        ensures too_deep { IsErr result → 2 ^ 64 ≤ length node.now.path }
    {
        let depth = depth_of(node)?;
        let range = node.range();
        let tree = node.get();
        Ok(Row {
            depth,
            index: node.index(),
            is_last: is_last(node),
            kind: tree.kind(),
            is_inner: tree.is_inner(),
            start: range.start,
            end: range.end,
            number: tree.span().number(),
            bound: tree.upper(),
        })
    }
}

/// How many nodes are above a node.
fn depth_of(node: &LinkedNode<'_>) -> Result<usize, AllocError>
    ensures depth { IfOk result (λ depth. depth ≡ length node.now.path) }
    ensures too_deep { IsErr result → 2 ^ 64 ≤ length node.now.path }
{
    let Some(parent) = node.parent() else {
        return Ok(0);
    };
    match depth_of(parent)?.checked_add(1) {
        Some(depth) => Ok(depth),
        None => Err(AllocError),
    }
}

/// Whether no sibling comes after a node.
fn is_last(node: &LinkedNode<'_>) -> bool
    ensures { result ≡ is_none (sibling behind_it node.now) }
{
    match node.parent() {
        None => true,
        Some(parent) => parent.get().child_slice().len() <= node.index().saturating_add(1),
    }
}
