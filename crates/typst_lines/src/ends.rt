//! What ends a line.
ghost use Rattle.std.specs.Prelude.{◌≡◌, ◌-◌, ◌<◌, ◌≤◌, IsTrue, length};
ghost use Rattle.typst_lines.specs.Clamped.{end_width, line_end_len};
ghost use Rattle.typst_lines.specs.LineEnds.{newline_before, within_crlf};

use crate::parts::whole_text;

/// Which characters end a line. In both sets a carriage return and a line feed after it end one line together.
#[derive(Clone, Copy, PartialEq, Eq, Debug, Drop)]
pub enum LineEnds {
    /// A line feed, a vertical tab, a form feed, a carriage return, a NEL (U+0085), a line separator (U+2028) or a
    /// paragraph separator (U+2029). These are the line ends of Unicode and of Typst.
    Unicode,
    /// A line feed or a carriage return. Editors have these, and so has the protocol between editors and language
    /// servers.
    Editor,
}

/// Whether the last character of some bytes ends lines.
fn is_ended(ends: LineEnds, line: &[u8]) -> bool
    ensures ended { result ≡ newline_before ends line.now (length line.now) }
    ensures some { IsTrue result → 0 < length line.now }
{
    !line.is_empty() && whole_text(line, ends).begins_line(line.len())
}

/// Whether some bytes end with a carriage return and a line feed.
fn ends_with_crlf(line: &[u8]) -> bool
    ensures crlf { result ≡ within_crlf line.now (length line.now - 1) }
    ensures two { IsTrue result → 2 ≤ length line.now }
{
    let len = line.len();
    len >= 2 && line[len - 2] == b'\r' && line[len - 1] == b'\n'
}

/// How many bytes a character that ends lines has, by its last byte.
fn end_width(last: u8) -> usize
    ensures { result ≡ end_width last }
{
    if last < 0x80 {
        1
    } else if last == 0x85 {
        2
    } else {
        3
    }
}

/// How many bytes the line end has that some bytes end with.
pub(crate) fn line_end_len(ends: LineEnds, line: &[u8]) -> usize
    ensures len { result ≡ line_end_len ends line.now }
    ensures inside { result ≤ length line.now }
{
    if !is_ended(ends, line) {
        0
    } else if ends_with_crlf(line) {
        2
    } else {
        end_width(line[line.len() - 1])
    }
}
