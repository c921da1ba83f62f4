//! The content of comments.
ghost use Rattle.typst_atoms.specs.BlockComments.{IsBlockCommentText};
ghost use Rattle.typst_atoms.specs.LineComments.{IsLineCommentText};
ghost use Rattle.typst_atoms.specs.Texts.{text_in};
ghost use Rattle.typst_atoms.specs.View.{atom_node};

use crate::views::{BlockComment, LineComment};

impl<'a> LineComment<'a> {
    /// The content of the comment: its text without a leading `//`.
    pub fn text(self) -> &'a str
        ensures { IsLineCommentText (text_in (atom_node self.entry)) result.now }
    {
        let text = self.leaf_text();
        text.strip_prefix("//").unwrap_or(text)
    }
}

impl<'a> BlockComment<'a> {
    /// The content of the comment: the text between `/*` and `*/`, or the whole text if one of them is missing.
    pub fn text(self) -> &'a str
        ensures { IsBlockCommentText (text_in (atom_node self.entry)) result.now }
    {
        let text = self.leaf_text();
        match text.strip_prefix("/*") {
            Some(rest) => rest.strip_suffix("*/").unwrap_or(text),
            None => text,
        }
    }
}
