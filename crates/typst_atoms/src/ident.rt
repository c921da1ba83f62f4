//! Identifiers.
ghost use Rattle.std.specs.Prelude.{◌≡◌};
ghost use Rattle.typst_atoms.specs.Texts.{text_in};
ghost use Rattle.typst_atoms.specs.View.{atom_node};

use crate::views::Ident;

impl<'a> Ident<'a> {
    /// The identifier.
    pub fn get(self) -> &'a str
        ensures { result.now ≡ text_in (atom_node self.entry) }
    {
        self.leaf_text()
    }

    /// The identifier.
    pub fn as_str(self) -> &'a str
        ensures { result.now ≡ text_in (atom_node self.entry) }
    {
        self.get()
    }
}
