//! Paths to imported items.
ghost use Rattle.std.specs.Prelude.{◌≡◌};
ghost use Rattle.typst_node.specs.Children.{all_children, children_in, last_child};
ghost use Rattle.typst_node.specs.Items.{nodes_ahead, nodes_left};
ghost use Rattle.typst_atoms.specs.Kinds.{is_kind};
ghost use Rattle.typst_atoms.specs.View.{atom_node};
ghost use Rattle.typst_base.specs.declared.kind.SyntaxKind.TheVariants as kinds;

use crate::casts::{cast_all, cast_last};
use crate::views::{Ident, ImportItemPath};
use typst_node::Items;

impl<'a> ImportItemPath<'a> {
    /// The path's parts in order. They can be read from both ends.
    pub fn iter(self) -> Items<'a, Ident<'a>>
        ensures left { nodes_left (is_kind kinds.Ident) result
            ≡ all_children (is_kind kinds.Ident) (atom_node self.entry) }
        ensures ahead { nodes_ahead result ≡ children_in (atom_node self.entry) }
    {
        cast_all(self.node())
    }

    /// The path's last part, which is the item's name.
    pub fn name(self) -> Ident<'a>
        ensures { atom_node result ≡ last_child (is_kind kinds.Ident) (atom_node self.entry) }
    {
        cast_last(self.node())
    }
}
