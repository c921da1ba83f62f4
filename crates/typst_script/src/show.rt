//! Prints a tree, one node per line.

use std::io;
use std::io::Write;
use typst_tree::SyntaxNode;

/// Prints the nodes in preorder, indented by two blanks for each level. A line has the kind's number, the span's
/// number, the bound and the length in bytes, and after them the text of a leaf or an error, if it has one.
pub fn show<W: Write>(out: &mut W, tree: &SyntaxNode) -> io::Result<()> {
    show_below(out, tree, 0)
}

/// Prints a node, and its children below it.
fn show_below<W: Write>(out: &mut W, node: &SyntaxNode, level: u64) -> io::Result<()> {
    show_line(out, node, level)?;
    for child in node.child_slice() {
        show_below(out, child, level.saturating_add(1))?;
    }
    Ok(())
}

/// Prints the line of a node.
fn show_line<W: Write>(out: &mut W, node: &SyntaxNode, level: u64) -> io::Result<()> {
    for _ in 0..level {
        out.write_all(b"  ")?;
    }
    let kind = node.kind().to_u8();
    let number = node.span().number();
    let bound = node.upper();
    let len = node.len();
    write!(out, "{kind} {number} {bound} {len}")?;
    let text = node.leaf_text();
    if !text.is_empty() {
        write!(out, " {text}")?;
    }
    out.write_all(b"\n")
}
