//! Hyperlinks.
ghost use Rattle.std.specs.Prelude.{◌≡◌};
ghost use Rattle.typst_atoms.specs.Texts.{text_in};
ghost use Rattle.typst_atoms.specs.View.{atom_node};

use crate::views::Link;

impl<'a> Link<'a> {
    /// The URL.
    pub fn get(self) -> &'a str
        ensures { result.now ≡ text_in (atom_node self.entry) }
    {
        self.leaf_text()
    }
}
