//! The first, the last and all children of a node that have a view of some type.
ghost use Rattle.std.specs.Prelude.{◌≡◌, Some};
ghost use Rattle.typst_node.specs.Children.{all_in, all_children, first_of, last_of, first_child, last_child};
ghost use Rattle.typst_node.specs.Items.{nodes_ahead, nodes_left};
ghost use Rattle.typst_node.specs.Tree.{trees};
ghost use Rattle.typst_node.specs.Views.{IsViewOf, IsOptionalViewOf};

use crate::ast_node::AstNode;
use crate::items::Items;
use crate::node::SyntaxNode;

/// The view of the first of these nodes that has one.
pub fn first_in<'a, T: AstNode<'a>>(nodes: &'a [SyntaxNode]) -> Option<T>
    ensures { IsOptionalViewOf T.node_of T.view_kind T.proper T.blank
        (first_of (all_in T.class nodes.now)) result }
{
    Items::over(nodes).next()
}

/// The view of the last of these nodes that has one.
pub fn last_in<'a, T: AstNode<'a>>(nodes: &'a [SyntaxNode]) -> Option<T>
    ensures { IsOptionalViewOf T.node_of T.view_kind T.proper T.blank
        (last_of (all_in T.class nodes.now)) result }
{
    Items::over(nodes).next_back()
}

/// # Views of children
///
/// Each call reads the children from one end, only as far as it must, and takes no memory.
impl SyntaxNode {
    /// The views of the children that have a view of this type, in order. They can be read from both ends.
    pub fn cast_all<'a, T: AstNode<'a>>(&'a self) -> Items<'a, T>
        ensures left { nodes_left T.class result ≡ all_children T.class (Some self.now) }
        ensures ahead { nodes_ahead result ≡ trees self.now.children }
    {
        Items::over(self.child_slice())
    }

    /// The view of the first child that has a view of this type.
    pub fn try_cast_first<'a, T: AstNode<'a>>(&'a self) -> Option<T>
        ensures { IsOptionalViewOf T.node_of T.view_kind T.proper T.blank
            (first_child T.class (Some self.now)) result }
    {
        first_in(self.child_slice())
    }

    /// The view of the last child that has a view of this type.
    pub fn try_cast_last<'a, T: AstNode<'a>>(&'a self) -> Option<T>
        ensures { IsOptionalViewOf T.node_of T.view_kind T.proper T.blank
            (last_child T.class (Some self.now)) result }
    {
        last_in(self.child_slice())
    }

    /// The view of the first child that has a view of this type, or else the type's placeholder.
    pub fn cast_first<'a, T: AstNode<'a>>(&'a self) -> T
        ensures { IsViewOf T.node_of T.view_kind T.proper T.blank
            (first_child T.class (Some self.now)) result }
    {
        match self.try_cast_first() {
            Some(view) => view,
            None => T::placeholder(),
        }
    }

    /// The view of the last child that has a view of this type, or else the type's placeholder.
    pub fn cast_last<'a, T: AstNode<'a>>(&'a self) -> T
        ensures { IsViewOf T.node_of T.view_kind T.proper T.blank
            (last_child T.class (Some self.now)) result }
    {
        match self.try_cast_last() {
            Some(view) => view,
            None => T::placeholder(),
        }
    }
}
