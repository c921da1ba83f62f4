//! Which views read alike.
use crate::rows::assert_all;
use std::process::Abort;
use std::test::Fail;
use typst_ast::{is_alike, views as of};
use typst_drawn::{drawn, drawn_all, numbered};
use typst_node::{AstNode, SyntaxNode};

/// The view of strong content.
fn strong<'a>(node: &'a SyntaxNode) -> Option<of::Strong<'a>> {
    node.cast()
}

/// How the views of an edited tree and those of a tree that was built anew compare.
fn compare_edited(rt: &impl Abort, edited: &SyntaxNode, anew: &SyntaxNode) -> Result<(), Fail> {
    let (Some(view), Some(other)) = (strong(edited), strong(anew)) else {
        return Err("no views")?;
    };
    let rows = [
        ("the views", is_alike(view, other)),
        ("their parts", is_alike(view.body(), other.body())),
        ("the spans differ", view.span() != other.span()),
    ];
    assert_all(rt, &rows);
    Ok(())
}

#[test]
fn views_of_an_edited_tree_read_as_those_of_the_tree_built_anew(
    rt: HostRuntime,
) -> Result<(), Fail> {
    let mut edited = numbered(rt.alloc(), "Strong[ Markup[ Text:a ] ]", 2..1 << 47)?;
    assert!(rt; edited.edit_fits(&[0], 0..1) && edited.is_numbered());
    let b = drawn_all(rt.alloc(), "Text:b")?;
    edited.replace_at(rt.alloc(), &[0], 0..1, b)?;
    let anew = drawn(rt.alloc(), "Strong[ Markup[ Text:b ] ]")?;
    compare_edited(&rt, &edited, &anew)
}

/// How the views of strong content compare: of `a`, of `a`, of `b`, and twice of nothing.
fn compare(rt: &impl Abort, nodes: &[SyntaxNode]) -> Result<(), Fail> {
    let [a, again, b, hollow, hollow_again] = nodes else {
        return Err("no nodes")?;
    };
    let views = (
        strong(a),
        strong(again),
        strong(b),
        strong(hollow),
        strong(hollow_again),
    );
    let (Some(view), Some(equal), Some(other), Some(hollow), Some(hollow_again)) = views else {
        return Err("no views")?;
    };
    let blank = of::Strong::placeholder();
    let rows = [
        ("another text is not alike", !is_alike(view, other)),
        ("no node is not alike", !is_alike(view, blank)),
        (
            "placeholders are alike",
            is_alike(blank, of::Strong::placeholder()),
        ),
        ("equal nodes are equal", view == equal),
        ("another text is not equal", view != other),
        ("no node is not equal", view != blank),
        ("hollow nodes are equal by ==", hollow == hollow_again),
        (
            "placeholders are equal by ==",
            blank == of::Strong::placeholder(),
        ),
        ("a hollow node is no placeholder", hollow != blank),
    ];
    assert_all(rt, &rows);
    Ok(())
}

#[test]
fn views_are_compared_by_their_nodes(rt: HostRuntime) -> Result<(), Fail> {
    let nodes = drawn_all(
        rt.alloc(),
        "Strong[ Markup[ Text:a ] ] Strong[ Markup[ Text:a ] ] Strong[ Markup[ Text:b ] ] \
        Strong[ ] Strong[ ]",
    )?;
    compare(&rt, &nodes)
}
