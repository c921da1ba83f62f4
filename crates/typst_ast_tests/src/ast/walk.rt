//! A walk over the expressions of a document.
use crate::trees::view;
use std::alloc::{AllocError, Global};
use std::test::Fail;
use typst_ast::Expr;
use typst_ast::views::Markup;
use typst_drawn::drawn;
use typst_node::AstNode;

/// `= Hi` and ` *there*`.
const DOCUMENT: &str =
    "Markup[ Heading[ HeadingMarker:= Markup[ Text:Hi ] ] Space:~ Strong[ Markup[ Text:there ] ] ]";

/// The body of a heading or of strong content, else a placeholder.
fn body<'a>(expr: Expr<'a>) -> Markup<'a> {
    match expr {
        Expr::Heading(heading) => heading.body(),
        Expr::Strong(strong) => strong.body(),
        _ => Markup::placeholder(),
    }
}

/// The text that markup begins with.
fn first_text<'a>(markup: Markup<'a>) -> Option<&'a str> {
    match markup.exprs().next() {
        Some(Expr::Text(text)) => Some(text.get()),
        _ => None,
    }
}

/// The texts of headings and of strong content, each on a line.
fn texts(alloc: Global, markup: Markup) -> Result<String, AllocError> {
    let mut found = String::new(alloc);
    for expr in markup.exprs() {
        if let Some(text) = first_text(body(expr)) {
            found.push_str(text)?;
            found.push('\n')?;
        }
    }
    Ok(found)
}

#[test]
fn a_short_walk_over_a_tree_by_typed_views(rt: HostRuntime) -> Result<(), Fail> {
    let tree = drawn(rt.alloc(), DOCUMENT)?;
    let found = texts(rt.alloc(), view(Some(&tree)))?;
    assert_eq!(rt; found.as_str(), "Hi\nthere\n");
    Ok(())
}
