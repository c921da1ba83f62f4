//! Texts that are edited together with their trees and lines.
ghost use Rattle.std.specs.Prelude.{ℕ, List, [], ◌∷◌, ◌≡◌, ◌≤◌, ◌↔◌, length, IsTrue, IfErr, IfOk, MatchOption, MatchResult, OnErr, OnOk};
ghost use Rattle.std.specs.List.{replace_range, splice};
ghost use Rattle.std.specs.Str.{IsCharBoundary};
ghost use Rattle.typst_language.specs.Block.{first};
ghost use Rattle.typst_lines.specs.Clamped.{HasNoClampedPlace, IsClampedPlace};
ghost use Rattle.typst_lines.specs.Columns.{IsPlace};
ghost use Rattle.typst_lines.specs.LineStarts.{line_starts};
ghost use Rattle.typst_lines.specs.LineTable.{AreLines};
ghost use Rattle.typst_lines.specs.TextLines.{lines};
ghost use Rattle.typst_node.specs.Numbered.{IsNumbered};
ghost use Rattle.typst_node.specs.Text.{text};
ghost use Rattle.typst_source.specs.Blocks.{document};
ghost use Rattle.typst_node.specs.Depth.{AreWithin};
ghost use Rattle.typst_source.specs.Edited.{IsEdited, IsRefusedBy};
ghost use Rattle.typst_source.specs.Fits.{FitsText};
ghost use Rattle.typst_session.specs.Documents.{IsDocumentOf, WhyNoDocument};
ghost use Rattle.typst_session.specs.Places.{IsRangeOfLine};

use crate::places::LineColumn;
use std::alloc::{AllocError, Global};
use std::marker::Model;
use std::ops::Range;
use typst_language::Typst;
use typst_lines::{ColumnUnit, LineEnds, Lines};
use typst_source::{Edited, Source, SourceError};
use typst_tree::{FileId, SyntaxNode};

/// A text of Typst with its tree and its lines, edited together.
///
/// In contracts a document is the root of the tree, whose text is the text, and what ends the text's lines.
#[derive(Drop)]
pub struct Document {
    source: Source<Typst>,
    lines: Lines,
}

impl Model for Document {
    ghost use Rattle.typst_session.specs.LinedText.{LinedText, lined_text_code};

    ghost Value = { LinedText };

    ghost coded = { lined_text_code };

    ghost use Rattle.typst_lines.specs.LineTable.{AreLines};
    ghost use Rattle.typst_node.specs.Text.{text};

    ghost view = { λ a. record { tree = a.source; ends = a.lines.ends } };

    ghost invariant = { λ a. AreLines a.lines (text a.source) };
}

/// Makes lines follow the reverse of an edit that they followed. In that edit `with` replaced the text's `range`.
fn follow_back(lines: &mut Lines, text: &str, range: Range<usize>, with: &str)
    requires lines { AreLines lines.old (splice text.now range.start range.end with.now) }
    requires fits { FitsText text.now range }
    requires room { length (line_starts lines.old.ends text.now) ≤ lines.old.room }
    ensures lines { AreLines lines.new text.now }
    ensures ends { lines.new.ends ≡ lines.old.ends }
{
    let (front, gone, back) = (
        &text[..range.start],
        &text[range.start..range.end],
        &text[range.end..],
    );
    match lines.replace(front, with, gone, back) {
        Ok(()) => {}
        Err(_) => unreachable!(),
    }
}

/// # A text, its tree and its lines
impl Document {
    /// Parses a text, numbers its tree for a file, and finds its lines.
    pub fn new(alloc: Global, file: FileId, content: &str) -> Result<Document, SourceError>
        ensures { MatchResult result (IsDocumentOf file content.now) (WhyNoDocument content.now) }
    {
        let source = Source::new(alloc, file, content, Typst)?;
        let lines = Lines::new(alloc, content)?;
        Ok(Document { source, lines })
    }

    /// The text with its tree, for reading: [`Source`] finds nodes by number, and bytes of nodes.
    pub fn source(&self) -> &Source<Typst>
        ensures { result.now ≡ self.now.tree }
    {
        &self.source
    }

    /// The text.
    pub fn text(&self) -> &str
        ensures { result.now ≡ text self.now.tree }
    {
        self.source.text()
    }

    /// The root of the tree.
    pub fn root(&self) -> &SyntaxNode
        ensures same { result.now ≡ self.now.tree }
        ensures numbered { IsNumbered self.now.tree }
    {
        self.source.root()
    }

    /// Whether a range of bytes can be edited: it is a range of the text, and both of its ends lie between characters.
    pub fn fits(&self, range: &Range<usize>) -> bool
        ensures { IsTrue result ↔ FitsText (text self.now.tree) range.now }
    {
        self.source.fits(range)
    }

    /// Replaces a range of bytes by another text, as [`Source::edit`] does, and makes the lines follow. After an error
    /// nothing has changed. [`Document::fits`] tests the condition.
    pub fn edit(
        &mut self,
        alloc: Global,
        range: Range<usize>,
        with: &str,
    ) -> Result<Edited, SourceError>
        requires fits_ask_fits { FitsText (text self.old.tree) range }
        ensures edited { IfOk result (λ done. IsEdited first self.old.tree range with.now done self.new.tree) }
        ensures refused { IfErr result (λ error. IsRefusedBy error first self.old.tree
            (replace_range (text self.old.tree) range.start range.end with.now)) }
        ensures ends { self.new.ends ≡ self.old.ends }
        ensures err { OnErr result (self.new ≡ self.old) }
    {
        let (start, end) = (range.start, range.end);
        self.lines.edit(self.source.text(), start..end, with)?;
        match self.source.edit(alloc, range, with) {
            Ok(done) => Ok(done),
            Err(error) => {
                follow_back(&mut self.lines, self.source.text(), start..end, with);
                Err(error)
            }
        }
    }
}

impl Clone for Document {
    ghost is_clone = { λ document copy. copy ≡ document };

    /// Copies the text, its tree with all numbers, and its lines.
    fn clone(&self) -> Result<Document, AllocError> {
        Ok(Document {
            source: self.source.clone()?,
            lines: self.lines.clone()?,
        })
    }
}

/// # Lines and columns
impl Document {
    /// Takes other line ends for the text. At first these are [`LineEnds::Unicode`]. After an error nothing has changed.
    ///
    /// It takes time in proportion to the text, and memory for the lines.
    pub fn set_line_ends(&mut self, alloc: Global, ends: LineEnds) -> Result<(), AllocError>
        ensures tree { self.new.tree ≡ self.old.tree }
        ensures ok { OnOk result (self.new.ends ≡ ends) }
        ensures err { OnErr result (self.new.ends ≡ self.old.ends) }
    {
        self.lines = Lines::with_ends(alloc, self.source.text(), ends)?;
        Ok(())
    }

    /// How many lines the text has: one more than it has line ends.
    pub fn len_lines(&self) -> usize
        ensures { result ≡ length (lines self.now.ends (text self.now.tree)) }
    {
        self.lines.len_lines()
    }

    /// The line and the column of a byte, both from 0. `None` if the byte is past the end of the text or within a
    /// character. The cost is a walk over the line up to the byte.
    pub fn byte_to_line_column(&self, byte: usize, unit: ColumnUnit) -> Option<LineColumn>
        ensures { MatchOption result (¬ (IsCharBoundary (text self.now.tree) byte))
            (λ place. IsPlace self.now.ends unit (text self.now.tree) place.line place.column byte) }
    {
        let text = self.source.text();
        let line = self.lines.byte_to_line(text, byte)?;
        let column = self.lines.byte_to_column(text, byte, unit)?;
        Some(LineColumn { line, column })
    }

    /// The bytes of a line with its line end. `None` if there is no such line.
    pub fn line_to_range(&self, line: usize) -> Option<Range<usize>>
        ensures { MatchOption result (length (lines self.now.ends (text self.now.tree)) ≤ line)
            (λ range. IsRangeOfLine self.now.ends (text self.now.tree) line range) }
    {
        self.lines.line_to_range(self.source.text(), line)
    }

    /// The byte at a line and a column, both from 0. `None` if no byte has them. The cost is a walk over the line.
    pub fn line_column_to_byte(&self, place: LineColumn, unit: ColumnUnit) -> Option<usize>
        ensures { MatchOption result
            ((at : ℕ) → ¬ (IsPlace self.now.ends unit (text self.now.tree) place.line place.column at))
            (λ at. IsPlace self.now.ends unit (text self.now.tree) place.line place.column at) }
    {
        let text = self.source.text();
        self.lines
            .line_column_to_byte(text, place.line, place.column, unit)
    }

    /// The byte at a line and a column, both from 0. A column past the line's text counts as its end, before the line
    /// end. `None` if there is no such line, or if the column is within a character. The cost is a walk over the line.
    pub fn line_column_to_byte_clamped(&self, place: LineColumn, unit: ColumnUnit) -> Option<usize>
        ensures { MatchOption result
            (HasNoClampedPlace self.now.ends unit (text self.now.tree) place.line place.column)
            (λ at. IsClampedPlace self.now.ends unit (text self.now.tree) place.line place.column at) }
    {
        let text = self.source.text();
        self.lines
            .line_column_to_byte_clamped(text, place.line, place.column, unit)
    }
}

/// A law of all texts: the tree of a text has at most 256 levels, however its syntax nests, since the trees of its blocks
/// have at most 255. So a path in it has at most 255 child indices.
pub fn documents_are_shallow()
    ensures { (source : List ℕ) → AreWithin 256 (document first source ∷ []) }
{}
