//! Building a tree.
use crate::rows::assert_text;
use std::alloc::{AllocError, Global};
use std::test::Fail;
use typst_tree::SyntaxKind::{Heading, HeadingMarker, Markup, Parbreak, Space, Star, Strong, Text};
use typst_tree::{InnerError, SyntaxNode};

/// The tree of `= Hello`.
fn heading(alloc: Global) -> Result<SyntaxNode, InnerError> {
    let title = vec![in alloc; SyntaxNode::leaf(alloc, Text, "Hello")?]?;
    let parts = vec![in alloc;
        SyntaxNode::leaf(alloc, HeadingMarker, "=")?,
        SyntaxNode::leaf(alloc, Space, " ")?,
        SyntaxNode::inner(alloc, Markup, title)?,
    ]?;
    SyntaxNode::inner(alloc, Heading, parts)
}

/// The tree of `*this*`.
fn strong(alloc: Global) -> Result<SyntaxNode, InnerError> {
    let body = vec![in alloc; SyntaxNode::leaf(alloc, Text, "this")?]?;
    let parts = vec![in alloc;
        SyntaxNode::leaf(alloc, Star, "*")?,
        SyntaxNode::inner(alloc, Markup, body)?,
        SyntaxNode::leaf(alloc, Star, "*")?,
    ]?;
    SyntaxNode::inner(alloc, Strong, parts)
}

/// The tree of `= Hello`, an empty line and `See *this*`.
pub(crate) fn document(alloc: Global) -> Result<SyntaxNode, InnerError> {
    let parts = vec![in alloc;
        heading(alloc)?,
        SyntaxNode::leaf(alloc, Parbreak, "\n\n")?,
        SyntaxNode::leaf(alloc, Text, "See ")?,
        strong(alloc)?,
    ]?;
    SyntaxNode::inner(alloc, Markup, parts)
}

#[test]
fn a_tree_keeps_its_text(rt: HostRuntime) -> Result<(), Fail> {
    let tree = document(rt.alloc())?;
    assert!(rt; tree.len() == 19);
    assert!(rt; tree.descendants() == 13);
    let text = tree.full_text(rt.alloc())?;
    assert_text(&rt, "the document", "text", &text, "= Hello\n\nSee *this*");
    Ok(())
}

/// A leaf under the kind that `spelled` has as a keyword, or else an identifier: a lexer's last step.
fn word(alloc: Global, spelled: &str) -> Result<SyntaxNode, AllocError> {
    match spelled {
        "let" => SyntaxNode::leaf(alloc, typst_tree::SyntaxKind::Let, spelled),
        _ => SyntaxNode::leaf(alloc, typst_tree::SyntaxKind::Ident, spelled),
    }
}

#[test]
fn a_leaf_has_a_kind_and_a_text(rt: HostRuntime) -> Result<(), Fail> {
    let leaf = word(rt.alloc(), "let")?;
    assert!(rt; leaf.kind().is_keyword() && leaf.leaf_text() == "let");
    assert!(rt; !word(rt.alloc(), "x")?.kind().is_keyword());
    Ok(())
}
