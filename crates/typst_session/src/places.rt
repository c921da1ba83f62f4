//! Lines and columns of the document's text.
ghost use Rattle.std.specs.Prelude.{◌≡◌, IfOk, IfErr};
ghost use Rattle.typst_session.specs.Documents.{HoldsNoDocument};
ghost use Rattle.typst_session.specs.Places.{CountsLines, FindsByte, FindsByteClamped, FindsByteOfOffset, FindsLine, FindsOffset, PlacesByte, WritesPart};
ghost use Rattle.typst_session.specs.declared.refusal.Refusal.TheVariants.{NoDocument};
ghost use Rattle.typst_session.specs.declared.session.Held.TheVariants as held;

use crate::document::Document;
use crate::reading::write_bytes;
use crate::refusal::Refusal;
use crate::session::{Held, Session};
use std::ops::Range;
use typst_lines::ColumnUnit;

/// A place in a text, by its line and column. Both count from 0.
#[repr(C)]
#[derive(Clone, Copy, Drop)]
pub struct LineColumn {
    /// The line.
    pub line: usize,
    /// How much of the line is before the place.
    pub column: usize,
}

/// # Lines and columns
impl Session {
    /// The document that is held.
    fn document(&self) -> Result<&Document, Refusal>
        ensures ok { IfOk result (λ document. self.now.held ≡ held.Document document.now) }
        ensures err { IfErr result (λ refusal. (refusal ≡ NoDocument) × HoldsNoDocument self.now) }
    {
        match &self.held {
            Held::Document(document) => Ok(document),
            _ => Err(Refusal::NoDocument),
        }
    }

    /// How many lines the document's text has: one more than it has line ends.
    pub fn len_lines(&self) -> Result<usize, Refusal>
        ensures { CountsLines self.now result }
    {
        Ok(self.document()?.len_lines())
    }

    /// The line and the column of a byte of the document's text. The cost is a walk over the line up to the byte.
    pub fn byte_to_line_column(&self, byte: usize, unit: ColumnUnit) -> Result<LineColumn, Refusal>
        ensures { PlacesByte unit byte self.now result }
    {
        match self.document()?.byte_to_line_column(byte, unit) {
            Some(place) => Ok(place),
            None => Err(Refusal::NoPlace),
        }
    }

    /// The bytes of a line of the document's text, with its line end.
    pub fn line_to_range(&self, line: usize) -> Result<Range<usize>, Refusal>
        ensures { FindsLine line self.now result }
    {
        match self.document()?.line_to_range(line) {
            Some(range) => Ok(range),
            None => Err(Refusal::NoPlace),
        }
    }

    /// Writes the bytes of a range of the document's text, and tells how many there are. It takes no memory.
    pub fn text_in(
        &self,
        range: Range<usize>,
        out: &mut [u8],
        len: &mut usize,
    ) -> Result<(), Refusal>
        ensures { WritesPart range self.now (record { items = out.old; len = len.old })
            (record { items = out.new; len = len.new }) result }
    {
        let document = self.document()?;
        if !document.fits(&range) {
            return Err(Refusal::Range);
        }
        let part = &document.text()[range];
        write_bytes(part.as_bytes(), out, len)
    }

    /// The byte of the document's text at a line and a column. The cost is a walk over the line.
    pub fn line_column_to_byte(&self, place: LineColumn, unit: ColumnUnit) -> Result<usize, Refusal>
        ensures { FindsByte unit place.line place.column self.now result }
    {
        match self.document()?.line_column_to_byte(place, unit) {
            Some(byte) => Ok(byte),
            None => Err(Refusal::NoPlace),
        }
    }

    /// The same with a column past the line's text taken as its end, before the line end. The cost is a walk over the
    /// line.
    pub fn line_column_to_byte_clamped(
        &self,
        place: LineColumn,
        unit: ColumnUnit,
    ) -> Result<usize, Refusal>
        ensures { FindsByteClamped unit place.line place.column self.now result }
    {
        match self.document()?.line_column_to_byte_clamped(place, unit) {
            Some(byte) => Ok(byte),
            None => Err(Refusal::NoPlace),
        }
    }

    /// How much of the document's text is before a byte. The cost is a walk over the text up to the byte.
    pub fn byte_to_offset(&self, byte: usize, unit: ColumnUnit) -> Result<usize, Refusal>
        ensures { FindsOffset unit byte self.now result }
    {
        match unit.byte_to_offset(self.document()?.text(), byte) {
            Some(offset) => Ok(offset),
            None => Err(Refusal::NoPlace),
        }
    }

    /// The byte that has so much of the document's text before it. The cost is a walk over the text up to the byte.
    pub fn offset_to_byte(&self, offset: usize, unit: ColumnUnit) -> Result<usize, Refusal>
        ensures { FindsByteOfOffset unit offset self.now result }
    {
        match unit.offset_to_byte(self.document()?.text(), offset) {
            Some(byte) => Ok(byte),
            None => Err(Refusal::NoPlace),
        }
    }
}
