//! The name of a label.
ghost use Rattle.std.specs.Prelude.{◌≡◌};
ghost use Rattle.typst_atoms.specs.Labels.{label_name};
ghost use Rattle.typst_atoms.specs.Texts.{text_in};
ghost use Rattle.typst_atoms.specs.View.{atom_node};

use crate::views::Label;

impl<'a> Label<'a> {
    /// The label's name: the text without all `<` at its beginning and all `>` at its end.
    pub fn get(self) -> &'a str
        ensures { result.now ≡ label_name (text_in (atom_node self.entry)) }
    {
        self.leaf_text()
            .trim_start_matches('<')
            .trim_end_matches('>')
    }
}
