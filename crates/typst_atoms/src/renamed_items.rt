//! Imported items under another name.
ghost use Rattle.std.specs.Prelude.{◌≡◌};
ghost use Rattle.typst_node.specs.Children.{first_child, last_child};
ghost use Rattle.typst_atoms.specs.Kinds.{is_kind};
ghost use Rattle.typst_atoms.specs.View.{atom_node};
ghost use Rattle.typst_base.specs.declared.kind.SyntaxKind.TheVariants as kinds;

use crate::casts::{cast_first, cast_last};
use crate::views::{Ident, ImportItemPath, RenamedImportItem};

impl<'a> RenamedImportItem<'a> {
    /// The path to the item.
    pub fn path(self) -> ImportItemPath<'a>
        ensures { atom_node result ≡ first_child (is_kind kinds.ImportItemPath) (atom_node self.entry) }
    {
        cast_first(self.node())
    }

    /// The item's own name, which is the name in its path.
    pub fn original_name(self) -> Ident<'a>
        ensures { atom_node result
            ≡ last_child (is_kind kinds.Ident)
            (first_child (is_kind kinds.ImportItemPath) (atom_node self.entry)) }
    {
        self.path().name()
    }

    /// The name that the item gets.
    pub fn new_name(self) -> Ident<'a>
        ensures { atom_node result ≡ last_child (is_kind kinds.Ident) (atom_node self.entry) }
    {
        cast_last(self.node())
    }
}
