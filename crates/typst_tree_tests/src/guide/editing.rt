//! Numbering and editing a tree.
use crate::guide::building::document;
use crate::rows::assert_text;
use std::alloc::Global;
use std::ops::Range;
use std::test::Fail;
use typst_tree::session::{Reply, Request, Slot};
use typst_tree::{EditError, FileId, NumberedTree, ReplaceError, Span, SyntaxKind, SyntaxNode};

/// The document, numbered within a range.
pub(crate) fn numbered(alloc: Global, within: Range<u64>) -> Result<NumberedTree, Fail> {
    let root = document(alloc)?;
    if within.start < 2 || within.end > 1 << 47 {
        return Err("no node's numbers")?;
    }
    let tree = NumberedTree::number(root, FileId::FIRST, within)?;
    Ok(tree)
}

/// One node of text.
fn words(alloc: Global, text: &str) -> Result<Vec<SyntaxNode>, Fail> {
    let node = SyntaxNode::leaf(alloc, SyntaxKind::Text, text)?;
    Ok(vec![in alloc; node]?)
}

#[test]
fn an_edit_is_done_at_any_depth(rt: HostRuntime) -> Result<(), Fail> {
    let alloc = rt.alloc();
    let mut tree = numbered(alloc, Span::FULL)?;
    // At the end of the strong content, whose markup is child 1 of child 3 of the root.
    let done = tree.insert(alloc, &[3, 1], 1, words(alloc, " too")?)?;
    // Child 1 of that markup is new, and the first window tried had room.
    assert!(rt; done.window == (1..2) && done.tried == 1);
    // The first two children of the root go.
    tree.remove(alloc, &[], 0..2)?;
    let text = tree.root().full_text(alloc)?;
    assert_text(&rt, "two edits", "text", &text, "See *this too*");
    Ok(())
}

/// A text at the end of the strong content.
fn insertion(alloc: Global, text: &str) -> Result<Request, Fail> {
    Ok(Request::Replace {
        path: vec![in alloc; 3, 1]?,
        range: 1..1,
        replacement: words(alloc, text)?,
    })
}

/// That the first two children of the root go.
fn deletion(alloc: Global) -> Request {
    Request::Replace {
        path: Vec::new(alloc),
        range: 0..2,
        replacement: Vec::new(alloc),
    }
}

#[test]
fn requests_are_served_together(rt: HostRuntime) -> Result<(), Fail> {
    let alloc = rt.alloc();
    let mut tree = numbered(alloc, Span::FULL)?;
    let mut slots = vec![in alloc;
        Slot::Ask(insertion(alloc, " too")?),
        Slot::Ask(deletion(alloc)),
    ]?;
    tree.run(alloc, &mut slots);
    for slot in &slots {
        assert!(rt; matches!(slot.reply(), Some(Reply::Renumbered(_))));
    }
    Ok(())
}

#[test]
fn a_refused_edit_is_done_after_a_renumbering(rt: HostRuntime) -> Result<(), Fail> {
    let alloc = rt.alloc();
    // As many numbers as nodes.
    let mut tree = numbered(alloc, 2..15)?;
    let refused = tree.insert(alloc, &[3, 1], 1, words(alloc, " too")?);
    assert!(rt; refused == Err(EditError::Refused(ReplaceError::Unnumberable)));
    tree.renumber(FileId::FIRST, Span::FULL)?;
    tree.insert(alloc, &[3, 1], 1, words(alloc, " too")?)?;
    Ok(())
}
