//! What the lines of a text are, and what columns count.
ghost use Rattle.std.specs.Prelude.{ℕ, List, ◌≡◌, ◌-◌, ◌<◌, ◌≤◌, length, take, sum_by};
ghost use Rattle.std.specs.List.{concat};
ghost use Rattle.std.specs.Char.Escape.{encode_utf16};
ghost use Rattle.std.specs.Str.{IsUtf8, IsCharBoundary, chars};
ghost use Rattle.typst_lines.specs.Columns.{line_before, column_of, offset_in};
ghost use Rattle.typst_lines.specs.LineStarts.{line_of, line_starts, line_start};
ghost use Rattle.typst_lines.specs.TextLines.{lines, line_bytes, bytes_before, AreLinesInRow, IsInLine};
ghost use Rattle.typst_lines.specs.declared.ends.LineEnds.{LineEnds};
ghost use Rattle.typst_lines.specs.declared.column.ColumnUnit.TheVariants.{Byte, Character, Utf16};

/// A law of all texts: a text has at least one line, and its lines joined are the text. No line has a line end within
/// it, and each ends with a line end exactly where another line follows. No other list of lines has these properties. A
/// line begins after all the bytes of the lines before it.
pub fn lines_join()
    ensures some { (ends : LineEnds) (text : List ℕ) → 0 < length (lines ends text) }
    ensures joined { (ends : LineEnds) (text : List ℕ) → concat (lines ends text) ≡ text }
    ensures in_row { (ends : LineEnds) (text : List ℕ) → AreLinesInRow ends (lines ends text) }
    ensures only { (ends : LineEnds) (text : List ℕ) (parts : List (List ℕ)) → 0 < length parts → concat parts ≡ text
        → AreLinesInRow ends parts → parts ≡ lines ends text }
    ensures many { (ends : LineEnds) (text : List ℕ) → length (line_starts ends text) ≡ length (lines ends text) }
    ensures starts { (ends : LineEnds) (text : List ℕ) (line : ℕ) → line < length (lines ends text)
        → line_start ends text line ≡ bytes_before ends text line }
{}

/// A law of all texts: a place is in its line, and the bytes before it in that line are the first bytes of the line.
/// Its column is their number. In a text of UTF-8 it is, by the unit, also the number of their characters, or of the
/// units of UTF-16 that these take. So is the offset of a place in the text.
pub fn columns_count_characters()
    ensures in_line { (ends : LineEnds) (text : List ℕ) (at : ℕ) → at ≤ length text → IsInLine ends text at (line_of ends text at) }
    ensures before { (ends : LineEnds) (text : List ℕ) (at : ℕ) → at ≤ length text → line_before ends text at
        ≡ take (at - bytes_before ends text (line_of ends text at)) (line_bytes ends text (line_of ends text at)) }
    ensures bytes { (ends : LineEnds) (text : List ℕ) (at : ℕ) → column_of ends Byte text at ≡ length (line_before ends text at) }
    ensures characters { (ends : LineEnds) (text : List ℕ) (at : ℕ) → IsUtf8 text → IsCharBoundary text at
        → column_of ends Character text at ≡ length (chars (line_before ends text at)) }
    ensures utf16 { (ends : LineEnds) (text : List ℕ) (at : ℕ) → IsUtf8 text → IsCharBoundary text at
        → column_of ends Utf16 text at ≡ sum_by (λ c. length (encode_utf16 c)) (chars (line_before ends text at)) }
    ensures characters_of_text { (text : List ℕ) (at : ℕ) → IsUtf8 text → IsCharBoundary text at
        → offset_in Character text at ≡ length (chars (take at text)) }
    ensures utf16_of_text { (text : List ℕ) (at : ℕ) → IsUtf8 text → IsCharBoundary text at
        → offset_in Utf16 text at ≡ sum_by (λ c. length (encode_utf16 c)) (chars (take at text)) }
{}
