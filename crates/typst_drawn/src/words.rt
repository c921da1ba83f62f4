//! Words for the labels and the sizes of a tree.
use std::alloc::{AllocError, Global};
use typst_node::SyntaxNode;

/// What the words say about each node.
#[derive(Clone, Copy)]
enum Words {
    Labels,
    Sizes,
}

/// The numbers and bounds of a tree, as `3..14[5..6 7..8]`: those of the node, and in brackets those of its children.
pub fn labels(alloc: Global, node: &SyntaxNode) -> Result<String, AllocError> {
    let mut said = String::new(alloc);
    push_tree(alloc, Words::Labels, node, &mut said)?;
    Ok(said)
}

/// The sizes of a tree, as `3/3(2 3)[2/1 1/1]`: the bytes and the nodes of the node, in parentheses the ends of its
/// children, counted from its first byte, and in brackets the sizes of its children.
pub fn sizes(alloc: Global, node: &SyntaxNode) -> Result<String, AllocError> {
    let mut said = String::new(alloc);
    push_tree(alloc, Words::Sizes, node, &mut said)?;
    Ok(said)
}

/// Writes the words for a tree.
fn push_tree(
    alloc: Global,
    words: Words,
    node: &SyntaxNode,
    said: &mut String,
) -> Result<(), AllocError> {
    match words {
        Words::Labels => push_label(alloc, node, said)?,
        Words::Sizes => push_size(alloc, node, said)?,
    }
    let mut before = '[';
    for child in node.child_slice() {
        said.push(before)?;
        push_tree(alloc, words, child, said)?;
        before = ' ';
    }
    if before == ' ' {
        said.push(']')?;
    }
    Ok(())
}

/// Writes the number and the bound of a node.
fn push_label(alloc: Global, node: &SyntaxNode, said: &mut String) -> Result<(), AllocError> {
    let number = node.span().number();
    let upper = node.upper();
    said.push_str(format!(in alloc; "{number}..{upper}")?.as_str())
}

/// Writes the length and the number of nodes, and where the children end.
fn push_size(alloc: Global, node: &SyntaxNode, said: &mut String) -> Result<(), AllocError> {
    let len = node.len();
    let nodes = node.descendants();
    said.push_str(format!(in alloc; "{len}/{nodes}")?.as_str())?;
    let mut before = '(';
    for index in 0..node.child_slice().len() {
        let end = node.child_end(index);
        said.push_str(format!(in alloc; "{before}{end}")?.as_str())?;
        before = ' ';
    }
    if before == ' ' {
        said.push(')')?;
    }
    Ok(())
}
