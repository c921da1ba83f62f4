//! The node of a view that may be missing.
ghost use Rattle.std.specs.Prelude.{◌≡◌, None, MatchOption};
ghost use Rattle.std.specs.Option.{option_copied};

use typst_node::{AstNode, SyntaxNode};

/// The node of a view, if there is a view and it has a node.
pub(crate) fn node_of_optional<'a, T: AstNode<'a>>(view: Option<T>) -> Option<&'a SyntaxNode>
    ensures { MatchOption view (result ≡ None) (λ v. option_copied result ≡ T.node_of v) }
{
    match view {
        Some(view) => view.to_untyped(),
        None => None,
    }
}
