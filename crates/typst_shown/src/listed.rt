//! The rows of a tree.
ghost use Rattle.std.specs.Prelude.{◌≡◌, IfOk, length};
ghost use Rattle.typst_node.specs.Count.{count};
ghost use Rattle.typst_shown.specs.Rows.{rows_of};

use crate::row::Row;
use std::alloc::{AllocError, Global};
use typst_linked::LinkedNode;
use typst_node::SyntaxNode;

/// The rows of a tree's nodes, in preorder. It fails only where memory runs out.
pub fn rows(alloc: Global, root: &SyntaxNode) -> Result<Vec<Row>, AllocError>
    ensures each { IfOk result (λ rows. rows.items ≡ rows_of root.now) }
    ensures many { IfOk result (λ rows. length rows.items ≡ count root.now) }
{
    let mut rows = Vec::with_capacity(alloc, root.descendants())?;
    for node in LinkedNode::new(root).preorder(alloc)? {
        let node = node?;
        rows.push(Row::of(&node)?)?;
    }
    Ok(rows)
}
