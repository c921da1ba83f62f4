//! Lines and columns of the text of the document that a handle holds.
ghost use Rattle.std.specs.Prelude.{ℕ, ◌≡◌, Result};
ghost use Rattle.std.specs.declared.ops.Range.{Range as Interval};
ghost use Rattle.typst_c.specs.Calls.{IsStatus, Reads, status_of, Told};
ghost use Rattle.typst_c.specs.Lending.{IsSameHandle};
ghost use Rattle.typst_c.specs.Told.{buffer, IsByteRange, range_from, Tells, TellsValue, unit_of};
ghost use Rattle.typst_session.specs.Places.{CountsLines, FindsByte, FindsByteClamped, FindsByteOfOffset, FindsLine, FindsOffset, PlacesByte, WritesPart};
ghost use Rattle.typst_session.specs.declared.places.LineColumn.{LineColumn as Place};
ghost use Rattle.typst_session.specs.declared.refusal.Refusal.{Refusal};

use crate::handle::Handle;
use crate::told::{ByteRange, Length, NOT_MADE, status, tell, tell_range};
use typst_lines::ColumnUnit;
use typst_session::LineColumn;

/// How many lines the document's text has.
#[unsafe(no_mangle)]
pub extern "C" fn typst_len_lines(handle: &mut Handle, count: &mut usize) -> u32
    ensures kept { IsSameHandle handle.old handle.new }
    ensures read { Reads (count.new ≡ count.old) (λ s. Told (TellsValue count.old count.new result)
        (CountsLines s)) handle.old.at.value result }
{
    let Some(session) = handle.read() else {
        return NOT_MADE;
    };
    let outcome = session.len_lines();
    tell(outcome, count)
}

/// The unit with a number: 0 is a byte, 1 a character, and any other number a unit of UTF-16.
fn unit_from(number: u32) -> ColumnUnit
    ensures { result ≡ unit_of number }
{
    match number {
        0 => ColumnUnit::Byte,
        1 => ColumnUnit::Character,
        _ => ColumnUnit::Utf16,
    }
}

/// The line and the column of a byte of the document's text.
#[unsafe(no_mangle)]
pub extern "C" fn typst_byte_to_line_column(
    handle: &mut Handle,
    byte: usize,
    unit: u32,
    place: &mut LineColumn,
) -> u32
    ensures kept { IsSameHandle handle.old handle.new }
    ensures read { Reads (place.new ≡ place.old) (λ s. Told (TellsValue place.old place.new result)
        (PlacesByte (unit_of unit) byte s)) handle.old.at.value result }
{
    let Some(session) = handle.read() else {
        return NOT_MADE;
    };
    let outcome = session.byte_to_line_column(byte, unit_from(unit));
    tell(outcome, place)
}

/// The bytes of a line of the document's text, with its line end.
#[unsafe(no_mangle)]
pub extern "C" fn typst_line_to_range(
    handle: &mut Handle,
    line: usize,
    range: &mut ByteRange,
) -> u32
    ensures kept { IsSameHandle handle.old handle.new }
    ensures read { Reads (range.new ≡ range.old) (λ s. Told (Tells IsByteRange range.old range.new result)
        (FindsLine line s)) handle.old.at.value result }
{
    let Some(session) = handle.read() else {
        return NOT_MADE;
    };
    let outcome = session.line_to_range(line);
    tell_range(outcome, range)
}

/// Writes the bytes of the document's text from `from` up to, not including, `to`.
#[unsafe(no_mangle)]
pub extern "C" fn typst_text(
    handle: &mut Handle,
    from: usize,
    to: usize,
    out: &mut [u8],
    length: &mut Length,
) -> u32
    ensures kept { IsSameHandle handle.old handle.new }
    ensures read { Reads ((out.new ≡ out.old) × (length.new.len ≡ length.old.len)) (λ s.
        Told (IsStatus result)
        (WritesPart (range_from from to) s (buffer out.old length.old) (buffer out.new length.new)))
        handle.old.at.value result }
{
    let Some(session) = handle.read() else {
        return NOT_MADE;
    };
    let outcome = session.text_in(from..to, out, &mut length.len);
    status(outcome)
}

/// The byte of the document's text at a line and a column.
#[unsafe(no_mangle)]
pub extern "C" fn typst_line_column_to_byte(
    handle: &mut Handle,
    line: usize,
    column: usize,
    unit: u32,
    byte: &mut usize,
) -> u32
    ensures kept { IsSameHandle handle.old handle.new }
    ensures read { Reads (byte.new ≡ byte.old) (λ s. Told (TellsValue byte.old byte.new result)
        (FindsByte (unit_of unit) line column s)) handle.old.at.value result }
{
    let Some(session) = handle.read() else {
        return NOT_MADE;
    };
    let place = LineColumn { line, column };
    let outcome = session.line_column_to_byte(place, unit_from(unit));
    tell(outcome, byte)
}

/// The same with a column past the line's text taken as its end, before the line end.
#[unsafe(no_mangle)]
pub extern "C" fn typst_line_column_to_byte_clamped(
    handle: &mut Handle,
    line: usize,
    column: usize,
    unit: u32,
    byte: &mut usize,
) -> u32
    ensures kept { IsSameHandle handle.old handle.new }
    ensures read { Reads (byte.new ≡ byte.old) (λ s. Told (TellsValue byte.old byte.new result)
        (FindsByteClamped (unit_of unit) line column s)) handle.old.at.value result }
{
    let Some(session) = handle.read() else {
        return NOT_MADE;
    };
    let place = LineColumn { line, column };
    let outcome = session.line_column_to_byte_clamped(place, unit_from(unit));
    tell(outcome, byte)
}

/// How much of the document's text is before a byte, in a unit.
#[unsafe(no_mangle)]
pub extern "C" fn typst_byte_to_offset(
    handle: &mut Handle,
    byte: usize,
    unit: u32,
    offset: &mut usize,
) -> u32
    ensures kept { IsSameHandle handle.old handle.new }
    ensures read { Reads (offset.new ≡ offset.old) (λ s. Told (TellsValue offset.old offset.new result)
        (FindsOffset (unit_of unit) byte s)) handle.old.at.value result }
{
    let Some(session) = handle.read() else {
        return NOT_MADE;
    };
    let outcome = session.byte_to_offset(byte, unit_from(unit));
    tell(outcome, offset)
}

/// The byte that has so much of the document's text before it, in a unit.
#[unsafe(no_mangle)]
pub extern "C" fn typst_offset_to_byte(
    handle: &mut Handle,
    offset: usize,
    unit: u32,
    byte: &mut usize,
) -> u32
    ensures kept { IsSameHandle handle.old handle.new }
    ensures read { Reads (byte.new ≡ byte.old) (λ s. Told (TellsValue byte.old byte.new result)
        (FindsByteOfOffset (unit_of unit) offset s)) handle.old.at.value result }
{
    let Some(session) = handle.read() else {
        return NOT_MADE;
    };
    let outcome = session.offset_to_byte(offset, unit_from(unit));
    tell(outcome, byte)
}
