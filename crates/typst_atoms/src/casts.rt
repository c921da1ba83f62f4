//! The first, the last and all children of a class, of a node that may be missing.
ghost use Rattle.std.specs.Prelude.{◌≡◌};
ghost use Rattle.std.specs.Option.{option_copied};
ghost use Rattle.typst_node.specs.Children.{all_children, children_in, first_child, last_child};
ghost use Rattle.typst_node.specs.Items.{nodes_ahead, nodes_left};
ghost use Rattle.typst_node.specs.Views.{IsViewOf, IsOptionalViewOf};

use crate::nodes::children;
use typst_node::casts::{first_in, last_in};
use typst_node::{AstNode, Items, SyntaxNode};

/// The views of the node's children. They can be read from both ends. There are none if there is no node.
pub fn cast_all<'a, T: AstNode<'a>>(node: Option<&'a SyntaxNode>) -> Items<'a, T>
    ensures left { nodes_left T.class result ≡ all_children T.class (option_copied node.entry) }
    ensures ahead { nodes_ahead result ≡ children_in (option_copied node.entry) }
{
    Items::over(children(node))
}

/// The view of the first child that has a view of this type.
pub fn try_cast_first<'a, T: AstNode<'a>>(node: Option<&'a SyntaxNode>) -> Option<T>
    ensures { IsOptionalViewOf T.node_of T.view_kind T.proper T.blank
        (first_child T.class (option_copied node.entry)) result }
{
    first_in(children(node))
}

/// The view of the last child that has a view of this type.
pub fn try_cast_last<'a, T: AstNode<'a>>(node: Option<&'a SyntaxNode>) -> Option<T>
    ensures { IsOptionalViewOf T.node_of T.view_kind T.proper T.blank
        (last_child T.class (option_copied node.entry)) result }
{
    last_in(children(node))
}

/// The view of the first child that has a view of this type, or else a placeholder.
pub fn cast_first<'a, T: AstNode<'a>>(node: Option<&'a SyntaxNode>) -> T
    ensures { IsViewOf T.node_of T.view_kind T.proper T.blank
        (first_child T.class (option_copied node.entry)) result }
{
    try_cast_first(node).unwrap_or(T::placeholder())
}

/// The view of the last child that has a view of this type, or else a placeholder.
pub fn cast_last<'a, T: AstNode<'a>>(node: Option<&'a SyntaxNode>) -> T
    ensures { IsViewOf T.node_of T.view_kind T.proper T.blank
        (last_child T.class (option_copied node.entry)) result }
{
    try_cast_last(node).unwrap_or(T::placeholder())
}
