//! The tree of a script, before and after it is numbered.
ghost use Rattle.std.specs.Prelude.{◌≤◌, ◌^◌};

use crate::asserting::assert_shown;
use std::ops::Range;
use std::process::Abort;
use std::test::Fail;
use typst_script::ScriptTree;
use typst_tree::{FileId, SyntaxKind, SyntaxNode};

/// The tree of a numbering, and whether the numbering was done.
fn numbered(tree: ScriptTree, within: Range<u64>) -> (ScriptTree, bool)
    requires starts_in_span_full { 2 ≤ within.start }
    requires ends_in_span_full { within.end ≤ 2 ^ 47 }
{
    match tree.number(FileId::FIRST, within) {
        Ok(tree) => (tree, true),
        Err(tree) => (tree, false),
    }
}

/// The tree after a test whether it is numbered, and what the test says.
fn tested(tree: ScriptTree) -> (ScriptTree, bool) {
    match tree.into_numbered() {
        Ok(tree) => (ScriptTree::from(tree), true),
        Err(tree) => (tree, false),
    }
}

/// Asserts whether a call did something, and the number of the root after it.
fn assert_number(rt: &impl Abort, done: (&ScriptTree, bool), wanted: (u64, bool)) {
    assert_shown(rt, "done", done.1, wanted.1);
    assert_shown(rt, "number", done.0.root().span().number(), wanted.0);
}

#[test]
fn a_tree_is_numbered_from_the_first_numbering_that_is_done(rt: HostRuntime) -> Result<(), Fail> {
    let leaf = SyntaxNode::leaf(rt.alloc(), SyntaxKind::Text, "ab")?;
    let (tree, done) = tested(ScriptTree::from(leaf));
    assert_number(&rt, (&tree, done), (1, false));
    let (tree, done) = numbered(tree, 4..4);
    assert_number(&rt, (&tree, done), (1, false));
    let (tree, done) = numbered(tree, 2..14);
    assert_number(&rt, (&tree, done), (8, true));
    let (tree, done) = numbered(tree, 4..4);
    assert_number(&rt, (&tree, done), (8, false));
    let (tree, done) = numbered(tree, 4..6);
    assert_number(&rt, (&tree, done), (5, true));
    let (tree, done) = tested(tree);
    assert_shown(&rt, "done", done, true);
    assert_shown(&rt, "number", tree.into_root().span().number(), 5);
    Ok(())
}
