//! Where the lines of a text begin.
ghost use Rattle.std.specs.Prelude.{ℕ, List, ◌≡◌, ◌+◌, ◌-◌, ◌^◌, ◌≤◌, ◌<◌, ◌++◌, length, slice_index, slice_range, IfSome, slice_get, IfOk, OnOk, OnErr, IsOk, MatchOption};
ghost use Rattle.std.specs.Option.{SomeIff};
ghost use Rattle.std.specs.Str.{IsCharBoundary};
ghost use Rattle.std.specs.List.{splice};
ghost use Rattle.typst_lines.specs.Clamped.{HasNoClampedPlace, IsClampedPlace, IsTextOfLine};
ghost use Rattle.typst_lines.specs.Columns.{column_of, IsPlace};
ghost use Rattle.typst_lines.specs.LineStarts.{line_starts, line_of, line_start, line_range, starts_between};
ghost use Rattle.typst_lines.specs.TextLines.{lines, line_bytes, bytes_before, IsInLine};
ghost use Rattle.typst_lines.specs.declared.ends.LineEnds.TheVariants.{Unicode};
ghost use Rattle.typst_lines.specs.Parts.{whole, whole_with, starts_before, starts_through};

use crate::column::ColumnUnit;
use crate::ends::{LineEnds, line_end_len};
use crate::parts::{Parts, whole_text};
use crate::place::{make_place, reseam};
use std::alloc::{AllocError, Global};
use std::marker::Model;
use std::ops::Range;

/// Where the lines of a text begin, in bytes.
///
/// For the lines before the last edit it keeps where they begin, and for those after it how far before the end of the
/// text they begin. So an edit in the same place moves none of them. In contracts it is a `LineTable`.
#[derive(Drop)]
pub struct Lines {
    // In order. The first `seam` of them count from the beginning of the text, the others back from its end.
    kept: Vec<usize>,
    seam: usize,
    // How long the text is.
    end: usize,
    // What ends lines.
    ends: LineEnds,
}

impl Model for Lines {
    ghost use Rattle.std.specs.Prelude.{length, vec_capacity, ◌≤◌};
    ghost use Rattle.typst_lines.specs.LineTable.{LineTable};
    ghost use Rattle.typst_lines.specs.Seamed.{seamed};

    ghost Value = { LineTable };

    ghost view = { λ a. record {
      starts = seamed a.seam a.end a.kept.items;
      len = a.end;
      room = vec_capacity a.kept;
      ends = a.ends;
    } };

    ghost invariant = { λ a. a.seam ≤ length a.kept.items };
}

impl Clone for Lines {
    ghost use Rattle.typst_lines.specs.LineTable.{AreSameLines};

    ghost is_clone = { λ lines copy. AreSameLines lines copy };

    fn clone(&self) -> Result<Lines, AllocError> {
        Ok(Lines {
            kept: self.kept.clone()?,
            seam: self.seam,
            end: self.end,
            ends: self.ends,
        })
    }
}

/// Where the lines of a text begin.
fn starts_of(alloc: Global, text: &[u8], ends: LineEnds) -> Result<Vec<usize>, AllocError>
    ensures { IfOk result (λ starts. starts.items ≡ line_starts ends text.now) }
{
    let parts = whole_text(text, ends);
    let mut starts = Vec::new(alloc);
    starts.push(0)?;
    for at in 0..text.len() {
        if parts.begins_line(at + 1) {
            starts.push(at + 1)?;
        }
    }
    Ok(starts)
}

impl Lines {
    ghost use Rattle.typst_lines.specs.LineTable.{AreLines, AreSameLines};

    /// Finds where the lines of a text begin, by [`LineEnds::Unicode`].
    pub fn new(alloc: Global, text: &str) -> Result<Lines, AllocError>
        ensures lines { IfOk result (λ lines. AreLines lines text.now) }
        ensures ends { IfOk result (λ lines. lines.ends ≡ Unicode) }
    {
        Lines::with_ends(alloc, text, LineEnds::Unicode)
    }

    /// Finds where the lines of a text begin, by some line ends.
    pub fn with_ends(alloc: Global, text: &str, ends: LineEnds) -> Result<Lines, AllocError>
        ensures lines { IfOk result (λ lines. AreLines lines text.now) }
        ensures ends { IfOk result (λ lines. lines.ends ≡ ends) }
    {
        let kept = starts_of(alloc, text.as_bytes(), ends)?;
        Ok(Lines {
            seam: kept.len(),
            kept,
            end: text.len(),
            ends,
        })
    }

    /// How many lines there are: one more than there are line ends.
    pub fn len_lines(&self) -> usize
        ensures starts { result ≡ length self.now.starts }
        ensures counts { (text : List ℕ) → AreLines self.now text → result ≡ length (lines self.now.ends text) }
    {
        self.kept.len()
    }

    /// The byte at which an existing line begins.
    fn start(&self, line: usize) -> usize
        requires { line < length self.now.starts }
        ensures { result ≡ slice_index self.now.starts line }
    {
        let kept = self.kept[line];
        if line < self.seam {
            kept
        } else {
            self.end.saturating_sub(kept)
        }
    }

    /// The byte at which a line begins, or `None` if there is no such line. Lines are counted from 0.
    pub fn line_to_byte(&self, line: usize) -> Option<usize>
        ensures start { result ≡ slice_get self.now.starts line }
        ensures before { (text : List ℕ) → AreLines self.now text
            → SomeIff result (line < length (lines self.now.ends text)) (bytes_before self.now.ends text line) }
    {
        if line < self.kept.len() {
            Some(self.start(line))
        } else {
            None
        }
    }

    /// How many lines begin at a place of the text or before it.
    fn count_through(&self, place: usize) -> usize
        ensures { (text : List ℕ) → AreLines self.now text → place ≤ length text
            → result ≡ length (starts_between self.now.ends text 0 (place + 1)) }
    {
        let (near, far) = self.kept.split_at(self.seam);
        near.partition_point(|start| *start <= place)
            + far.partition_point(|left| self.end.saturating_sub(*left) <= place)
    }

    /// The line of a place in the text.
    fn line_at(&self, text: &str, byte: usize) -> usize
        requires lines { AreLines self.now text.now }
        requires inside { byte ≤ length text.now }
        ensures line { result ≡ line_of self.now.ends text.now byte }
        ensures inside { IsInLine self.now.ends text.now byte result }
    {
        self.count_through(byte) - 1
    }

    /// Where the line of a place in the text begins.
    fn start_at(&self, text: &str, byte: usize) -> usize
        requires lines { AreLines self.now text.now }
        requires inside { byte ≤ length text.now }
        ensures start { result ≡ line_start self.now.ends text.now (line_of self.now.ends text.now byte) }
        ensures before { result ≤ byte }
    {
        self.start(self.line_at(text, byte))
    }

    /// The line of a byte offset, counted from 0. It is `None` if the offset is past the text or within a character.
    pub fn byte_to_line(&self, text: &str, byte: usize) -> Option<usize>
        requires { AreLines self.now text.now }
        ensures line { SomeIff result (IsCharBoundary text.now byte) (line_of self.now.ends text.now byte) }
        ensures inside { IfSome result (λ line. IsInLine self.now.ends text.now byte line) }
    {
        if text.is_char_boundary(byte) {
            Some(self.line_at(text, byte))
        } else {
            None
        }
    }

    /// Where an existing line ends: where the next one begins, or at the end of the text.
    fn end_of(&self, text: &str, line: usize) -> usize
        requires lines { AreLines self.now text.now }
        requires there { line < length (line_starts self.now.ends text.now) }
        ensures { result ≡ (line_range self.now.ends text.now line).end }
    {
        let count = self.len_lines();
        if line + 1 < count {
            self.start(line + 1)
        } else {
            text.len()
        }
    }

    /// The bytes of a line with its line end, or `None` if there is no such line. Lines are counted from 0.
    pub fn line_to_range(&self, text: &str, line: usize) -> Option<Range<usize>>
        requires { AreLines self.now text.now }
        ensures range { SomeIff result (line < length (line_starts self.now.ends text.now))
            (line_range self.now.ends text.now line) }
        ensures there { MatchOption result (length (lines self.now.ends text.now) ≤ line)
            (λ range. line < length (lines self.now.ends text.now)) }
        ensures start { IfSome result (λ range. range.start ≡ bytes_before self.now.ends text.now line) }
        ensures bytes { IfSome result (λ range. slice_range text.now range.start range.end
            ≡ line_bytes self.now.ends text.now line) }
        ensures order { IfSome result (λ range. range.start ≤ range.end) }
        ensures front { IfSome result (λ range. IsCharBoundary text.now range.start) }
        ensures back { IfSome result (λ range. IsCharBoundary text.now range.end) }
    {
        let start = self.line_to_byte(line)?;
        let end = self.end_of(text, line);
        Some(Range { start, end })
    }

    /// The bytes of an existing line.
    fn bytes_of(&self, text: &str, line: usize) -> Range<usize>
        requires lines { AreLines self.now text.now }
        requires there { line < length (line_starts self.now.ends text.now) }
        ensures range { result ≡ line_range self.now.ends text.now line }
        ensures order { result.start ≤ result.end }
        ensures inside { result.end ≤ length text.now }
    {
        match self.line_to_range(text, line) {
            Some(range) => range,
            None => unreachable!(),
        }
    }

    /// The column of a byte offset: how much of its line is before it, in the unit. It is `None` if the offset is past
    /// the text or within a character. It walks over that part of the line.
    pub fn byte_to_column(&self, text: &str, byte: usize, unit: ColumnUnit) -> Option<usize>
        requires lines { AreLines self.now text.now }
        ensures { SomeIff result (IsCharBoundary text.now byte) (column_of self.now.ends unit text.now byte) }
    {
        if text.is_char_boundary(byte) {
            let start = self.start_at(text, byte);
            Some(unit.columns(&text.as_bytes()[start..byte]))
        } else {
            None
        }
    }

    /// The byte offset that has an existing line and a column.
    fn place_in_line(
        &self,
        text: &str,
        line: usize,
        column: usize,
        unit: ColumnUnit,
    ) -> Option<usize>
        requires lines { AreLines self.now text.now }
        requires there { line < length (line_starts self.now.ends text.now) }
        ensures { MatchOption result
            ((at : ℕ) → ¬ (IsPlace self.now.ends unit text.now line column at))
            (λ at. IsPlace self.now.ends unit text.now line column at) }
    {
        let count = self.len_lines();
        let range = self.bytes_of(text, line);
        match unit.place_between(text.as_bytes(), range.start, range.end, column) {
            None => None,
            Some(passed) => {
                if passed < range.end - range.start || line + 1 == count {
                    Some(range.start + passed)
                } else {
                    None
                }
            }
        }
    }

    /// The byte offset that has a line and a column, in the unit. It is `None` if no offset has them: there is no such
    /// line, the line is shorter, or the column is within a character. It walks over this line only.
    pub fn line_column_to_byte(
        &self,
        text: &str,
        line: usize,
        column: usize,
        unit: ColumnUnit,
    ) -> Option<usize>
        requires { AreLines self.now text.now }
        ensures { MatchOption result
            ((at : ℕ) → ¬ (IsPlace self.now.ends unit text.now line column at))
            (λ at. IsPlace self.now.ends unit text.now line column at) }
    {
        if line < self.len_lines() {
            self.place_in_line(text, line, column, unit)
        } else {
            None
        }
    }

    /// The bytes of an existing line before its line end.
    fn text_of(&self, text: &str, line: usize) -> Option<Range<usize>>
        requires { AreLines self.now text.now }
        ensures { MatchOption result (length (lines self.now.ends text.now) ≤ line)
            (IsTextOfLine self.now.ends text.now line) }
    {
        let Range { start, end } = self.line_to_range(text, line)?;
        let bytes = &text.as_bytes()[start..end];
        let len = bytes.len() - line_end_len(self.ends, bytes);
        Some(Range {
            start,
            end: start + len,
        })
    }

    /// The byte offset that has a line and a column, in the unit. A column past the text of the line counts as its end,
    /// which is before the line end. It is `None` if there is no such line, or if the column is within a character. It
    /// walks over this line only.
    pub fn line_column_to_byte_clamped(
        &self,
        text: &str,
        line: usize,
        column: usize,
        unit: ColumnUnit,
    ) -> Option<usize>
        requires { AreLines self.now text.now }
        ensures { MatchOption result
            (HasNoClampedPlace self.now.ends unit text.now line column)
            (λ at. IsClampedPlace self.now.ends unit text.now line column at) }
    {
        let range = self.text_of(text, line)?;
        if unit.columns(&text.as_bytes()[range.start..range.end]) <= column {
            Some(range.end)
        } else {
            self.line_column_to_byte(text, line, column, unit)
        }
    }

    /// The lines that begin in the part that is gone, or so soon after it that the part may decide it.
    fn touched(&self, parts: &Parts<'_>, gone: &[u8]) -> Range<usize>
        requires lines { AreLines self.now (whole_with parts.now gone.now) }
        requires fits { length (whole_with parts.now gone.now) < 2 ^ 64 }
        requires ends { parts.now.ends ≡ self.now.ends }
        ensures start { result.start ≡ length (starts_before parts.now gone.now) }
        ensures end { result.end ≡ length (starts_through parts.now gone.now) }
    {
        let from = parts.front.len();
        Range {
            start: match from.checked_sub(1) {
                Some(last) => self.count_through(last),
                None => 0,
            },
            end: self.count_through(from + gone.len() + parts.near()),
        }
    }

    /// Follows an edit of the middle part of the text, which was `gone`.
    fn exchange(&mut self, parts: &Parts<'_>, gone: &[u8]) -> Result<(), AllocError>
        requires lines { AreLines self.old (whole_with parts.now gone.now) }
        requires ends { parts.now.ends ≡ self.old.ends }
        requires fitted { length (whole_with parts.now gone.now) < 2 ^ 64 }
        requires fits { length (whole parts.now) < 2 ^ 64 - 1 }
        ensures ok { OnOk result (AreLines self.new (whole parts.now)) }
        ensures err { OnErr result (AreSameLines self.old self.new) }
        ensures ends { self.new.ends ≡ self.old.ends }
        ensures room { self.old.room ≤ self.new.room }
        ensures back { length (line_starts self.old.ends (whole_with parts.now gone.now)) ≤ self.new.room }
        ensures succeeds { length (line_starts self.old.ends (whole parts.now)) ≤ self.old.room → IsOk result }
    {
        let window = self.touched(parts, gone);
        let many = parts.count_about();
        reseam(&mut self.kept, self.seam, window.start, self.end);
        self.seam = window.start;
        make_place(&mut self.kept, window.start, window.end, many)?;
        parts.write_about(&mut self.kept, window.start);
        self.seam = window.start + many;
        self.end = self.end - gone.len() + parts.middle.len();
        Ok(())
    }

    /// Follows an edit that is given by the text around it: `gone` becomes `added` between `front` and `back`. It does
    /// what `edit` does, for a text that isn't in one piece or is edited already.
    pub fn replace(
        &mut self,
        front: &str,
        gone: &str,
        added: &str,
        back: &str,
    ) -> Result<(), AllocError>
        requires lines { AreLines self.old (front.now ++ (gone.now ++ back.now)) }
        requires fitted { length (front.now ++ (gone.now ++ back.now)) < 2 ^ 64 }
        requires fits { length (front.now ++ (added.now ++ back.now)) < 2 ^ 64 - 1 }
        ensures ok { OnOk result (AreLines self.new (front.now ++ (added.now ++ back.now))) }
        ensures err { OnErr result (AreSameLines self.old self.new) }
        ensures ends { self.new.ends ≡ self.old.ends }
        ensures room { self.old.room ≤ self.new.room }
        ensures back { length (line_starts self.old.ends (front.now ++ (gone.now ++ back.now))) ≤ self.new.room }
        ensures succeeds { length (line_starts self.old.ends (front.now ++ (added.now ++ back.now))) ≤ self.old.room → IsOk result }
    {
        let parts = Parts {
            front: front.as_bytes(),
            middle: added.as_bytes(),
            back: back.as_bytes(),
            ends: self.ends,
        };
        self.exchange(&parts, gone.as_bytes())
    }

    /// Follows an edit: `with` replaces the `range` of the text, which is in bytes.
    ///
    /// It walks over the new text, and over the lines between this edit and the last one. If the number of lines
    /// changes, it also moves the entries of the lines after the edit. It takes memory only if it has none for so many
    /// lines, and changes nothing if that is refused. An edit that takes this one back succeeds.
    pub fn edit(&mut self, text: &str, range: Range<usize>, with: &str) -> Result<(), AllocError>
        requires lines { AreLines self.old text.now }
        requires order { range.start ≤ range.end }
        requires start { IsCharBoundary text.now range.start }
        requires end { IsCharBoundary text.now range.end }
        requires fits { length (splice text.now range.start range.end with.now) < 2 ^ 64 - 1 }
        ensures ok { OnOk result (AreLines self.new (splice text.now range.start range.end with.now)) }
        ensures err { OnErr result (AreSameLines self.old self.new) }
        ensures ends { self.new.ends ≡ self.old.ends }
        ensures room { self.old.room ≤ self.new.room }
        ensures back { length (line_starts self.old.ends text.now) ≤ self.new.room }
        ensures succeeds { length (line_starts self.old.ends (splice text.now range.start range.end with.now)) ≤ self.old.room
            → IsOk result }
    {
        let bytes = text.as_bytes();
        let parts = Parts {
            front: &bytes[..range.start],
            middle: with.as_bytes(),
            back: &bytes[range.end..],
            ends: self.ends,
        };
        self.exchange(&parts, &bytes[range.start..range.end])
    }
}
