//! Plain texts.
ghost use Rattle.std.specs.Prelude.{◌≡◌};
ghost use Rattle.typst_atoms.specs.Texts.{text_in};
ghost use Rattle.typst_atoms.specs.View.{atom_node};

use crate::views::Text;

impl<'a> Text<'a> {
    /// The text.
    pub fn get(self) -> &'a str
        ensures { result.now ≡ text_in (atom_node self.entry) }
    {
        self.leaf_text()
    }
}
