//! Equality, hashes and texts of views.
use crate::rows::assert_all;
use crate::trees::shown;
use std::hash::{DefaultHasher, Hash, Hasher};
use std::process::Abort;
use std::test::Fail;
use typst_atoms::{ImportItem, MathAccess, views as of};
use typst_base::SyntaxKind;
use typst_drawn::{drawn, drawn_all, numbered};
use typst_node::{AstNode, SyntaxNode};

/// The hash of a value.
fn hash_of<T: Hash>(value: &T) -> u64 {
    let mut state = DefaultHasher::new();
    value.hash(&mut state);
    state.finish()
}

#[test]
fn placeholders_of_one_type_are_equal(rt: HostRuntime) {
    let blank = of::Ident::placeholder();
    let again = of::Ident::placeholder();
    let access = MathAccess::placeholder();
    let ident = MathAccess::MathIdent(of::MathIdent::placeholder());
    let field = MathAccess::MathFieldAccess(of::MathFieldAccess::placeholder());
    let item = ImportItem::placeholder();
    let simple = ImportItem::Simple(of::ImportItemPath::placeholder());
    let renamed = ImportItem::Renamed(of::RenamedImportItem::placeholder());
    let rows = [
        ("one type", blank == again),
        ("their hashes", hash_of(&blank) == hash_of(&again)),
        ("an access is an identifier", access == ident),
        ("and no field", access != field),
        ("an item is simple", item == simple),
        ("and not renamed", item != renamed),
    ];
    assert_all(&rt, &rows);
}

/// The view of an identifier.
fn ident<'a>(node: &'a SyntaxNode) -> Option<of::Ident<'a>> {
    node.cast()
}

/// How the views of the identifiers `it`, `it`, `at`, an empty one and a numbered `it` compare.
fn compare_idents(
    rt: &impl Abort,
    nodes: &[SyntaxNode],
    numbered: &SyntaxNode,
) -> Result<(), Fail> {
    let [one, same, other, empty] = nodes else {
        return Err("no nodes")?;
    };
    let views = (
        ident(one),
        ident(same),
        ident(other),
        ident(empty),
        ident(numbered),
    );
    let (Some(view), Some(equal), Some(other), Some(empty), Some(numbered)) = views else {
        return Err("no views")?;
    };
    let blank = of::Ident::placeholder();
    let rows = [
        ("equal nodes", view == equal),
        ("their hashes", hash_of(&view) == hash_of(&equal)),
        ("another text", view != other),
        ("another span", view != numbered),
        ("an empty leaf, and none", empty != blank),
        ("none, and an empty leaf", blank != empty),
        ("no node", view != blank),
    ];
    assert_all(rt, &rows);
    Ok(())
}

#[test]
fn views_are_equal_by_their_nodes(rt: HostRuntime) -> Result<(), Fail> {
    let mut nodes = drawn_all(rt.alloc(), "Ident:it Ident:it Ident:at")?;
    nodes.push(SyntaxNode::placeholder(rt.alloc(), SyntaxKind::Ident))?;
    let numbered = numbered(rt.alloc(), "Ident:it", 2..4)?;
    compare_idents(&rt, &nodes, &numbered)
}

/// The view of an access.
fn access<'a>(node: &'a SyntaxNode) -> Option<MathAccess<'a>> {
    node.cast()
}

/// How views of several kinds compare: of the identifiers `pi` and `pi`, and of a field `pi`.
fn compare_accesses(rt: &impl Abort, nodes: &[SyntaxNode]) -> Result<(), Fail> {
    let [one, same, field] = nodes else {
        return Err("no nodes")?;
    };
    let views = (access(one), access(same), access(field));
    let (Some(view), Some(equal), Some(field)) = views else {
        return Err("no views")?;
    };
    let rows = [
        ("equal nodes", view == equal),
        ("their hashes", hash_of(&view) == hash_of(&equal)),
        ("another kind", view != field),
    ];
    assert_all(rt, &rows);
    Ok(())
}

#[test]
fn views_of_several_kinds_compare_by_kind_and_node(rt: HostRuntime) -> Result<(), Fail> {
    let nodes = drawn_all(rt.alloc(), "MathIdent:pi MathIdent:pi MathFieldAccess:pi")?;
    compare_accesses(&rt, &nodes)
}

#[test]
fn a_view_shows_its_node(rt: HostRuntime) -> Result<(), Fail> {
    let node = drawn(rt.alloc(), "Ident:it")?;
    let said = shown(rt.alloc(), ident(&node))?;
    assert!(rt; said.as_str().contains("Ident: \"it\""));
    Ok(())
}
