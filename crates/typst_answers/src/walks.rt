//! What the walks of linked nodes answer.

use crate::answers::Answers;
use crate::form::path_of;
use std::alloc::AllocError;
use typst_tree::{LinkedNode, Side, SyntaxMode, SyntaxNode};

/// The neighbours and the modes of all nodes, each parent before its children, and the leaves at all cursors.
pub fn walks(out: &mut Answers, tree: &SyntaxNode) -> Result<(), AllocError> {
    let root = LinkedNode::new(tree);
    for node in root.preorder(out.alloc)? {
        neighbours(out, &node?);
    }
    for cursor in 0..=tree.len().saturating_add(1) {
        leaves_at(out, &root, cursor);
    }
    Ok(())
}

/// Writes the line of a node.
fn neighbours(out: &mut Answers, node: &LinkedNode) {
    let alloc = out.alloc;
    let offset = node.offset();
    out.put_made(path_of(alloc, node));
    out.put_made(format!(in alloc; " offset {offset} siblings"));
    put_siblings(out, node);
    out.put(" leaves");
    put_leaves(out, node);
    out.put(" modes");
    put_mode(out, node.mode_after());
    put_mode(out, node.parent_mode());
    out.end();
}

/// Writes the siblings of a node.
fn put_siblings(out: &mut Answers, node: &LinkedNode) {
    put_found(out, node.prev_sibling());
    put_found(out, node.next_sibling());
    put_found(out, node.prev_sibling_with_trivia());
    put_found(out, node.next_sibling_with_trivia());
}

/// Writes the leaves of a node, and the leaves next to it.
fn put_leaves(out: &mut Answers, node: &LinkedNode) {
    let alloc = out.alloc;
    put_found(out, node.leftmost_leaf(alloc));
    put_found(out, node.rightmost_leaf(alloc));
    put_found(out, node.prev_leaf(alloc));
    put_found(out, node.next_leaf(alloc));
}

/// Writes ` PATH@OFFSET`, or ` none`.
fn put_found(out: &mut Answers, found: Result<Option<LinkedNode>, AllocError>) {
    let alloc = out.alloc;
    out.put(" ");
    match found {
        Ok(Some(node)) => {
            let offset = node.offset();
            out.put_made(path_of(alloc, &node));
            out.put_made(format!(in alloc; "@{offset}"));
        }
        Ok(None) => out.put("none"),
        Err(_) => out.refuse(),
    }
}

/// Writes a mode, or `none`.
fn put_mode(out: &mut Answers, mode: Option<SyntaxMode>) {
    let alloc = out.alloc;
    match mode {
        Some(mode) => out.put_made(format!(in alloc; " {mode:?}")),
        None => out.put(" none"),
    }
}

/// Writes the line of a cursor.
fn leaves_at(out: &mut Answers, root: &LinkedNode, cursor: usize) {
    let alloc = out.alloc;
    out.put_made(format!(in alloc; "leaf_at {cursor}"));
    put_leaf(out, root.leaf_at(alloc, cursor, Side::Before));
    put_leaf(out, root.leaf_at(alloc, cursor, Side::After));
    out.end();
}

/// Writes ` PATH`, or ` none`.
fn put_leaf(out: &mut Answers, leaf: Result<Option<LinkedNode>, AllocError>) {
    let alloc = out.alloc;
    out.put(" ");
    match leaf {
        Ok(Some(leaf)) => out.put_made(path_of(alloc, &leaf)),
        Ok(None) => out.put("none"),
        Err(_) => out.refuse(),
    }
}
