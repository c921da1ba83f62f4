//! Builds a tree, edits it, and finds a node again by its number.
#![tactic(auto)]

use anyhow::{Context, Result};
use typst_tree::session::Reply;
use typst_tree::{FileId, NumberedTree, Span, SyntaxKind, SyntaxNode};

fn main(rt: HostRuntime) -> Result<()> {
    let alloc = rt.alloc();
    let texts = vec![in alloc;
        SyntaxNode::leaf(alloc, SyntaxKind::Text, "Hello")?,
        SyntaxNode::leaf(alloc, SyntaxKind::Text, "world")?,
    ]?;
    let root = SyntaxNode::inner(alloc, SyntaxKind::Markup, texts)?;
    let mut tree = NumberedTree::number(root, FileId::FIRST, Span::FULL)?;
    let world = tree.root().children().last().context("no child")?.span();

    // A space between the two.
    let space = SyntaxNode::leaf(alloc, SyntaxKind::Space, " ")?;
    tree.insert(alloc, &[], 1, vec![in alloc; space]?)?;
    println!(rt; "{}", tree.root().full_text(alloc)?)?;
    // The number of the second word leads back to it.
    if let Reply::Found { offset, .. } = tree.find(alloc, world) {
        println!(rt; "the second word begins at byte {offset}")?;
    }
    Ok(())
}
