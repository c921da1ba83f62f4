//! A caller can promise that `==` of nodes and of diagnostics says whether both hold and report the same.
ghost use Rattle.std.specs.Prelude.{◌≡◌, ◌↔◌, IsTrue};
ghost use Rattle.typst_node.specs.Reported.{report};

use crate::rows::assert_row;
use std::alloc::{AllocError, Global};
use std::test::Fail;
use typst_drawn::{drawn, drawn_all, numbered};
use typst_node::{SyntaxDiagnostic, SyntaxNode};

/// Equality of nodes.
fn are_same_nodes(a: &SyntaxNode, b: &SyntaxNode) -> bool
    ensures { IsTrue result ↔ (a.now ≡ b.now) }
{
    *a == *b
}

/// Equality of diagnostics.
fn report_the_same(a: &SyntaxDiagnostic, b: &SyntaxDiagnostic) -> bool
    ensures { IsTrue result ↔ (report a.now ≡ report b.now) }
{
    *a == *b
}

/// Equality of diagnostics behind references.
#[tactic(auto, using(typst_node::specs::EqualReports::diagnostic_same))]
fn report_the_same_behind(a: &SyntaxDiagnostic, b: &SyntaxDiagnostic) -> bool
    ensures { IsTrue result ↔ (report a.now ≡ report b.now) }
{
    a == b
}

#[test]
fn nodes_are_equal_where_both_are_the_same(rt: HostRuntime) -> Result<(), Fail> {
    let nodes = drawn_all(rt.alloc(), "Text:a Text:a Text:b")?;
    let [a, again, b] = nodes.as_slice() else {
        return Err("no nodes")?;
    };
    assert_row(&rt, "the same", are_same_nodes(a, again));
    assert_row(&rt, "another text", !are_same_nodes(a, b));
    Ok(())
}

/// Whether the first two of three errors report the same, asked in both ways, and whether the first and the third do.
fn compared(alloc: Global, tree: &SyntaxNode) -> Result<Option<(bool, bool, bool)>, AllocError> {
    let (errors, _) = tree.errors_and_warnings(alloc)?;
    let [one, two, three] = errors.as_slice() else {
        return Ok(None);
    };
    let same = report_the_same(one, two);
    let same_behind = report_the_same_behind(one, two);
    Ok(Some((same, same_behind, report_the_same(one, three))))
}

#[test]
fn diagnostics_are_equal_where_they_report_the_same(rt: HostRuntime) -> Result<(), Fail> {
    let alloc = rt.alloc();
    let drawing = "Markup[ !m:# +h !m:# +h !m:# +g ]";
    let detached = compared(alloc, &drawn(alloc, drawing)?)?;
    let same = detached == Some((true, true, false));
    assert_row(&rt, "the same text and hint", same);
    let placed = compared(alloc, &numbered(alloc, drawing, 4..64)?)?;
    let other = placed == Some((false, false, false));
    assert_row(&rt, "the same at other places", other);
    Ok(())
}
