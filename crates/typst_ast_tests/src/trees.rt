//! What the tests share.
use std::alloc::{AllocError, Global};
use std::fmt::Debug;
use std::test::Fail;
use typst_atoms::views as of;
use typst_node::{AstNode, SyntaxNode};

/// The node's view.
pub(crate) fn cast<'a, T: AstNode<'a>>(node: &'a SyntaxNode) -> Result<T, Fail> {
    Ok(node.cast::<T>().ok_or("no view")?)
}

/// The node's view, or a placeholder if there is no node or it is of another kind.
pub(crate) fn view<'a, T: AstNode<'a>>(node: Option<&'a SyntaxNode>) -> T {
    match node {
        Some(node) => match node.cast::<T>() {
            Some(view) => view,
            None => T::placeholder(),
        },
        None => T::placeholder(),
    }
}

/// The view's text, which is empty for a placeholder.
pub(crate) fn text<'a, T: AstNode<'a>>(view: T) -> &'a str {
    match view.to_untyped() {
        Some(node) => node.leaf_text(),
        None => "",
    }
}

/// Whether the view is a placeholder.
pub(crate) fn is_missing<'a, T: AstNode<'a>>(view: T) -> bool {
    view.to_untyped().is_none()
}

/// The `Debug` text of what there is; `-` for nothing.
pub(crate) fn shown<T: Debug + Copy>(alloc: Global, it: Option<T>) -> Result<String, AllocError> {
    match it {
        Some(it) => format!(in alloc; "{it:?}"),
        None => String::from_str(alloc, "-"),
    }
}

/// The identifier's text; `-` for none.
pub(crate) fn got<'a>(view: Option<of::Ident<'a>>) -> &'a str {
    match view {
        Some(view) => view.get(),
        None => "-",
    }
}
