//! Lines and columns of the document that a session holds.
use crate::answers::{Answer, place, value};
use crate::calls::Call::{Held, Line};
use crate::calls::{Call, follow};
use crate::held::HeldCall::{Edit, Number, Open, SetLineEnds};
use LineCall::{ByteToLineColumn, ByteToOffset, Clamped, LenLines, LineColumnToByte, OffsetToByte};
use std::alloc::Global;
use std::test::Fail;
use typst_lines::ColumnUnit::{Byte, Character, Utf16};
use typst_lines::{ColumnUnit, LineEnds};
use typst_session::{LineColumn, Session};

/// A call that reads lines or finds a place by them.
#[derive(Clone, Copy)]
pub(crate) enum LineCall {
    /// Counts the lines.
    LenLines,
    /// By a byte, with the column in units.
    ByteToLineColumn(usize, ColumnUnit),
    /// By a line and a column in units.
    LineColumnToByte(usize, usize, ColumnUnit),
    /// By a line and a column in units, which may be past the line's text.
    Clamped(usize, usize, ColumnUnit),
    /// By a byte, in units.
    ByteToOffset(usize, ColumnUnit),
    /// By an offset in units.
    OffsetToByte(usize, ColumnUnit),
}

/// What the call answers.
pub(crate) fn answer(alloc: Global, session: &Session, call: LineCall) -> Answer {
    match call {
        LineCall::LenLines => value(alloc, session.len_lines()),
        LineCall::ByteToLineColumn(byte, unit) => {
            place(alloc, session.byte_to_line_column(byte, unit))
        }
        LineCall::LineColumnToByte(line, column, unit) => {
            let place = LineColumn { line, column };
            value(alloc, session.line_column_to_byte(place, unit))
        }
        LineCall::Clamped(line, column, unit) => {
            let place = LineColumn { line, column };
            value(alloc, session.line_column_to_byte_clamped(place, unit))
        }
        LineCall::ByteToOffset(byte, unit) => value(alloc, session.byte_to_offset(byte, unit)),
        LineCall::OffsetToByte(offset, unit) => value(alloc, session.offset_to_byte(offset, unit)),
    }
}

/// Calls on a text of three lines, before and after lines are inserted and removed. The character of four bytes begins at
/// byte 1, and the one of two bytes at byte 7.
const TEXT: &[(Call, &str)] = &[
    (Line(LenLines), "there is no document"),
    (Held(Number(1, 10, 11)), "done"),
    (Line(LenLines), "there is no document"),
    (Line(ByteToLineColumn(0, Byte)), "there is no document"),
    (Line(LineColumnToByte(0, 0, Byte)), "there is no document"),
    (Held(Open(1, b"a\xf0\x9f\x97\xbab\n\xc3\xa9cd\n")), "done"),
    (Line(LenLines), "3"),
    (Line(ByteToLineColumn(5, Byte)), "0:5"),
    (Line(ByteToLineColumn(5, Character)), "0:2"),
    (Line(ByteToLineColumn(5, Utf16)), "0:3"),
    (
        Line(ByteToLineColumn(2, Byte)),
        "the text has no such place",
    ),
    (
        Line(ByteToLineColumn(13, Byte)),
        "the text has no such place",
    ),
    (Line(LineColumnToByte(1, 4, Byte)), "11"),
    (Line(LineColumnToByte(1, 1, Utf16)), "9"),
    (
        Line(LineColumnToByte(1, 1, Byte)),
        "the text has no such place",
    ),
    (
        Line(LineColumnToByte(3, 0, Byte)),
        "the text has no such place",
    ),
    (Held(Edit(6, 7, b"\r\n\n")), "0..9 parsed, 0: 1..2 of 1"),
    (Line(LenLines), "4"),
    (
        Line(ByteToLineColumn(10, Byte)),
        "the text has no such place",
    ),
    (Line(ByteToLineColumn(11, Character)), "2:1"),
];

#[test]
fn places_follow_the_text(rt: HostRuntime) -> Result<(), Fail> {
    follow(&rt, rt.alloc(), "Text:tree", TEXT)
}

/// Calls on a text whose lines end with a carriage return and a line feed, a carriage return, a vertical tab and a line
/// separator, which has the bytes 8, 9 and 10.
const ENDED: &[(Call, &str)] = &[
    (Held(SetLineEnds(LineEnds::Editor)), "there is no document"),
    (Line(Clamped(0, 0, Byte)), "there is no document"),
    (Line(ByteToOffset(0, Byte)), "there is no document"),
    (Line(OffsetToByte(0, Byte)), "there is no document"),
    (Held(Open(1, b"a\r\nb\rc\x0bd\xe2\x80\xa8e")), "done"),
    (Line(LenLines), "5"),
    (Line(ByteToLineColumn(11, Utf16)), "4:0"),
    (Line(Clamped(2, 9, Byte)), "6"),
    (Line(Clamped(3, 9, Byte)), "8"),
    (Held(SetLineEnds(LineEnds::Editor)), "done"),
    (Line(LenLines), "3"),
    (Line(ByteToLineColumn(11, Utf16)), "2:4"),
    (Line(Clamped(0, 0, Byte)), "0"),
    (Line(Clamped(0, 1, Byte)), "1"),
    (Line(Clamped(0, 2, Byte)), "1"),
    (Line(LineColumnToByte(0, 2, Byte)), "2"),
    (Line(Clamped(1, 100, Utf16)), "4"),
    (Line(Clamped(2, 4, Utf16)), "11"),
    (Line(Clamped(2, 5, Utf16)), "12"),
    (Line(Clamped(2, 6, Utf16)), "12"),
    (Line(Clamped(2, 4, Byte)), "the text has no such place"),
    (Line(Clamped(3, 0, Byte)), "the text has no such place"),
    (Held(SetLineEnds(LineEnds::Unicode)), "done"),
    (Line(LenLines), "5"),
    (Line(ByteToOffset(11, Character)), "9"),
    (Line(ByteToOffset(12, Byte)), "12"),
    (Line(ByteToOffset(9, Utf16)), "the text has no such place"),
    (Line(ByteToOffset(13, Utf16)), "the text has no such place"),
    (Line(OffsetToByte(9, Character)), "11"),
    (Line(OffsetToByte(9, Byte)), "the text has no such place"),
    (Line(OffsetToByte(11, Utf16)), "the text has no such place"),
    // A character of four bytes has two units.
    (Held(Open(1, b"\xf0\x9f\x97\xbaa")), "done"),
    (Line(ByteToOffset(4, Utf16)), "2"),
    (Line(ByteToOffset(5, Utf16)), "3"),
    (Line(OffsetToByte(1, Utf16)), "the text has no such place"),
    (Line(OffsetToByte(3, Utf16)), "5"),
];

#[test]
fn lines_end_as_they_are_asked_to(rt: HostRuntime) -> Result<(), Fail> {
    follow(&rt, rt.alloc(), "Text:tree", ENDED)
}
