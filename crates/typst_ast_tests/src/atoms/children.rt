//! The children that views pick.
use crate::rows::{assert_all, assert_texts};
use crate::trees::got;
use std::alloc::{AllocError, Global};
use std::test::Fail;
use typst_atoms::nodes::{behind, children, first_of_kind, leaf_text};
use typst_atoms::{KeptNodes, MathItems, cast_all, views as of};
use typst_base::SyntaxKind;
use typst_drawn::drawn;
use typst_node::casts::{first_in, last_in};
use typst_node::{AstNode, Items, SyntaxNode};

/// The pair `a: b`.
const PAIR: &str = "Named[ Ident:a Colon:: Space:~ Ident:b ]";

#[test]
fn children_are_found_by_kind(rt: HostRuntime) -> Result<(), Fail> {
    let pair = drawn(rt.alloc(), PAIR)?;
    let node = Some(&pair);
    let colon = first_of_kind(node, SyntaxKind::Colon);
    let rows = [
        ("children", children(node).len() == 4),
        ("a colon", colon.is_some() && leaf_text(colon) == ":"),
        ("an inner node's text", leaf_text(node) == ""),
        ("no comma", first_of_kind(node, SyntaxKind::Comma).is_none()),
        (
            "after the colon",
            behind(node, SyntaxKind::Colon).len() == 2,
        ),
        ("after no comma", behind(node, SyntaxKind::Comma).len() == 0),
        ("no node's children", children(None).len() == 0),
        ("no node's text", leaf_text(None) == ""),
        (
            "no node's colon",
            first_of_kind(None, SyntaxKind::Colon).is_none(),
        ),
        (
            "after no node's colon",
            behind(None, SyntaxKind::Colon).len() == 0,
        ),
    ];
    assert_all(&rt, &rows);
    Ok(())
}

#[test]
fn views_are_found_in_a_list_of_nodes(rt: HostRuntime) -> Result<(), Fail> {
    let pair = drawn(rt.alloc(), PAIR)?;
    let node = Some(&pair);
    let mut items = Items::<of::Ident>::over(behind(node, SyntaxKind::Colon));
    let rows = [
        ("the first", got(first_in(children(node))), "a"),
        ("the last", got(last_in(children(node))), "b"),
        ("after the colon", got(items.next()), "b"),
        ("then none", got(items.next()), "-"),
    ];
    assert_texts(&rt, &rows);
    Ok(())
}

#[test]
fn children_are_cast_from_both_ends(rt: HostRuntime) -> Result<(), Fail> {
    let pair = drawn(rt.alloc(), PAIR)?;
    let mut items = pair.cast_all::<of::Ident>();
    let first: of::Ident = pair.cast_first();
    let last: of::Ident = pair.cast_last();
    let missing: of::Int = pair.cast_first();
    let none: of::Int = pair.cast_last();
    let rows = [
        ("the first", got(pair.try_cast_first::<of::Ident>()), "a"),
        ("the last", got(pair.try_cast_last::<of::Ident>()), "b"),
        ("all, from the back", got(items.next_back()), "b"),
        ("the first itself", got(Some(first)), "a"),
        ("the last itself", got(Some(last)), "b"),
    ];
    assert_texts(&rt, &rows);
    let missing_ones = [
        ("no first", pair.try_cast_first::<of::Int>().is_none()),
        ("no last", pair.try_cast_last::<of::Int>().is_none()),
        ("a placeholder", missing.to_untyped().is_none()),
        ("a placeholder from the back", none.to_untyped().is_none()),
    ];
    assert_all(&rt, &missing_ones);
    Ok(())
}

/// The size hints of the lists of views, of kept nodes and of items in math, and those of copies that gave their last
/// one.
fn hints(node: Option<&SyntaxNode>) -> Result<[(usize, Option<usize>); 6], AllocError> {
    let views = cast_all::<of::Ident>(node);
    let nodes = KeptNodes::of_all(node);
    let items = MathItems::new(node);
    let mut fewer_views = views.clone()?;
    let mut fewer_nodes = nodes.clone()?;
    let mut fewer_items = items.clone()?;
    let _view = fewer_views.next_back();
    let _node = fewer_nodes.next_back();
    let _item = fewer_items.next_back();
    Ok([
        views.size_hint(),
        nodes.size_hint(),
        items.size_hint(),
        fewer_views.size_hint(),
        fewer_nodes.size_hint(),
        fewer_items.size_hint(),
    ])
}

#[test]
fn lists_hint_at_most_the_nodes_ahead(rt: HostRuntime) -> Result<(), Fail> {
    let pair = drawn(rt.alloc(), PAIR)?;
    let four = (0, Some(4));
    let three = (0, Some(3));
    assert_eq!(rt;
        hints(Some(&pair))?,
        [four, four, four, three, three, three]
    );
    Ok(())
}

/// How the lists of views, of kept nodes and of items in math are shown after one step each.
fn shown_ahead(alloc: Global, node: &SyntaxNode) -> Result<String, AllocError> {
    let mut views = node.cast_all::<of::Ident>();
    let mut nodes = KeptNodes::of_markup(Some(node));
    let mut items = MathItems::new(Some(node));
    let _view = views.next();
    let _node = nodes.next_back();
    let _item = items.next();
    format!(in alloc; "{views:?}\n{nodes:?}\n{items:?}")
}

/// The three lists, one a line.
const AHEAD: &str = r#"Items([Colon: ":", Space: " ", Ident: "b"])
KeptNodes { rest: [Ident: "a", Colon: ":", Space: " "], drops: true, behind_stmt: false }
MathItems { rest: [Colon: ":", Space: " ", Ident: "b"], behind_hash: false }"#;

#[test]
fn lists_show_the_nodes_ahead(rt: HostRuntime) -> Result<(), Fail> {
    let pair = drawn(rt.alloc(), PAIR)?;
    let said = shown_ahead(rt.alloc(), &pair)?;
    assert_eq!(rt; said.as_str(), AHEAD);
    Ok(())
}
