//! Whole trees that a parser makes anew, in place of one another.
use std::alloc::Global;
use std::test::Fail;
use typst_tree::SyntaxKind::{Markup, Space, Text};
use typst_tree::session::Reply;
use typst_tree::{FileId, InnerError, NumberedTree, Span, SyntaxNode, node_at};

/// The tree of some words, by a parser that knows of no edits.
fn parse(alloc: Global, text: &str) -> Result<SyntaxNode, InnerError> {
    let mut nodes = Vec::new(alloc);
    for word in text.split(' ') {
        if !nodes.is_empty() {
            nodes.push(SyntaxNode::leaf(alloc, Space, " ")?)?;
        }
        nodes.push(SyntaxNode::leaf(alloc, Text, word)?)?;
    }
    SyntaxNode::inner(alloc, Markup, nodes)
}

#[test]
fn a_parser_of_whole_texts_gets_numbers_that_last(rt: HostRuntime) -> Result<(), Fail> {
    let alloc = rt.alloc();
    let root = parse(alloc, "one two three")?;
    let mut tree = NumberedTree::number(root, FileId::FIRST, Span::FULL)?;
    let three = node_at(tree.root(), &[4]).ok_or("no node")?.span();
    // A word is typed, and the whole text is parsed anew.
    let done = tree.update(alloc, parse(alloc, "one and two three")?)?;
    let three = done.moves.follow_span(three).ok_or("gone")?;
    let Reply::Found { path, .. } = tree.find(alloc, three) else {
        return Err("not found")?;
    };
    assert!(rt; path.as_slice() == [6].as_slice());
    Ok(())
}
