//! Lines and columns.
ghost use Rattle.std.specs.List.{take_while};
ghost use Rattle.std.specs.Prelude.{◌≡◌, ◌≤◌, true, false, [], ◌∷◌, length};
ghost use Rattle.typst_parser.specs.Columns.{column_after, column_step, has_newline, is_printable};
ghost use Rattle.typst_lexer.specs.Classes.{begins_char, is_newline};
ghost use Rattle.typst_lexer.specs.LoneBlank.{IsBlankByte};

use typst_lexer::{begins_inside_char, begins_newline};

/// Whether the byte is a printable character of ASCII.
fn is_printable(byte: u8) -> bool
    ensures { result ≡ is_printable byte }
{
    matches!(byte, b' '..=b'~')
}

/// Whether a text begins with a printable character of ASCII, which is no newline.
#[inline(always)]
#[tactic(auto, using(crate::proofs::Columns::printable_begins))]
fn begins_printable(text: &[u8]) -> bool
    ensures { result ≡ true → begins_char is_newline text.now ≡ false }
{
    matches!(text, [byte, ..] if is_printable(*byte))
}

/// Whether a text begins with a newline. For a printable character of ASCII nothing is decoded.
#[inline(always)]
fn is_at_newline(text: &[u8]) -> bool
    ensures { result ≡ begins_char is_newline text.now }
{
    !begins_printable(text) && begins_newline(text)
}

/// The column after the first byte of a text.
#[inline(always)]
fn column_step(column: usize, text: &[u8]) -> usize
    ensures { result ≡ column_step column text.now }
{
    if is_at_newline(text) {
        0
    } else if begins_inside_char(text) {
        column
    } else {
        column.saturating_add(1)
    }
}

/// How many bytes from the front are printable characters of ASCII.
fn printables(text: &[u8]) -> usize
    ensures value { result ≡ length (take_while is_printable text.now) }
    ensures within { result ≤ length text.now }
{
    text.iter().take_while(|byte| is_printable(**byte)).count()
}

/// The column after some bytes, if they begin in a column. Each printable character of ASCII is one more.
pub(crate) fn column_after(column: usize, text: &[u8]) -> usize
    ensures { result ≡ column_after column text.now }
{
    let len = printables(text);
    let mut now = column.saturating_add(len);
    let mut rest = &text[len..];
    while let [_, more @ ..] = rest {
        now = column_step(now, rest);
        rest = more;
    }
    now
}

/// Whether one of the characters is a newline.
pub(crate) fn has_newline(text: &[u8]) -> bool
    ensures { result ≡ has_newline text.now }
{
    let mut rest = text;
    while let [_, more @ ..] = rest {
        if is_at_newline(rest) {
            return true;
        }
        rest = more;
    }
    false
}

/// Whether a blank or a line feed is a newline.
#[tactic(auto, using(crate::proofs::Columns::line_is))]
pub(crate) fn is_line_feed(byte: u8) -> bool
    requires { IsBlankByte byte }
    ensures { result ≡ has_newline (byte ∷ []) }
{
    byte == b'\n'
}

/// The column after a blank or a line feed.
#[tactic(auto, using(crate::proofs::Columns::line_feed_column, crate::proofs::Columns::blank_column))]
pub(crate) fn column_after_blank(column: usize, byte: u8) -> usize
    requires { IsBlankByte byte }
    ensures { result ≡ column_after column (byte ∷ []) }
{
    if byte == b'\n' {
        0
    } else {
        column.saturating_add(1)
    }
}
