//! Documents: texts that are edited together with their trees.
ghost use Rattle.typst_session.specs.Documents.{Opens, EditsText, SetsLineEnds};

use crate::building::text_of;
use crate::changes::Change;
use crate::document::Document;
use crate::refusal::Refusal;
use crate::session::{Held, LastEdit, Session};
use std::alloc::Global;
use std::ops::Range;
use typst_lines::LineEnds;
use typst_tree::FileId;

/// What an edit of a text did.
#[derive(Clone, Debug, PartialEq, Eq, Drop)]
pub struct TextChange {
    /// The bytes of the new text that were parsed anew.
    pub reparsed: Range<usize>,
    /// What the edit changed in the tree.
    pub change: Change,
}

/// # Documents
impl Session {
    /// Parses a text of Typst, numbers its tree for a file, and holds both and the text's lines. They replace what was
    /// held before.
    pub fn open(&mut self, alloc: Global, file: u16, text: &[u8]) -> Result<(), Refusal>
        ensures { Opens file text.now self.old result self.new }
    {
        let Some(file) = FileId::new(file) else {
            return Err(Refusal::File);
        };
        let text = text_of(text)?;
        let document = Document::new(alloc, file, text)?;
        self.held = Held::Document(document);
        self.last = None;
        Ok(())
    }

    /// Replaces a range of bytes of the document's text by another text, and tells which bytes were parsed anew and
    /// what the edit changed in the tree. [`Session::follow`] follows each node that goes on.
    pub fn edit(
        &mut self,
        alloc: Global,
        range: Range<usize>,
        with: &[u8],
    ) -> Result<TextChange, Refusal>
        ensures { EditsText range with.now self.old result self.new }
    {
        let Held::Document(document) = &mut self.held else {
            return Err(Refusal::NoDocument);
        };
        let with = text_of(with)?;
        if !document.fits(&range) {
            return Err(Refusal::Range);
        }
        let done = document.edit(alloc, range, with)?;
        let change = Change {
            depth: done.path.len(),
            touched: done.touched,
            moved: done.moves.moved().0.len(),
        };
        self.last = Some(LastEdit {
            path: done.path,
            moves: done.moves,
        });
        Ok(TextChange {
            reparsed: done.reparsed,
            change,
        })
    }

    /// Takes other line ends for the document's text. Until then these are [`LineEnds::Unicode`].
    ///
    /// It takes time in proportion to the text, and memory for the lines.
    pub fn set_line_ends(&mut self, alloc: Global, ends: LineEnds) -> Result<(), Refusal>
        ensures { SetsLineEnds ends self.old result self.new }
    {
        let Held::Document(document) = &mut self.held else {
            return Err(Refusal::NoDocument);
        };
        document.set_line_ends(alloc, ends)?;
        Ok(())
    }
}
