//! Lines of raw text, and the white space in them.
ghost use Rattle.std.specs.Prelude.{◌≡◌, ◌≤◌, ◌<◌, ◌+◌, ◌^◌, true, length, map, IfOk};
ghost use Rattle.typst_parser.specs.Lines.{indent, is_blank, is_wide_space, line_at, line_len, lines, newline_len, white_len, whites_len};
ghost use Rattle.typst_parser.specs.LineViews.{line_of};

use std::alloc::{AllocError, Global};

/// A line of a text.
#[derive(Clone, Copy)]
pub struct Line<'a> {
    /// Where it begins.
    pub(crate) from: usize,
    /// Where it ends, before its newline.
    pub(crate) to: usize,
    /// Its text, without the newline.
    pub(crate) text: &'a [u8],
}

/// The length of the newline with which a text begins, or 0.
fn newline_len(bytes: &[u8]) -> usize
    ensures len { result ≡ newline_len bytes.now }
    ensures within { result ≤ length bytes.now }
{
    if bytes.starts_with(b"\r\n") {
        2
    } else if matches!(bytes, [10..=13, ..]) {
        1
    } else if bytes.starts_with(b"\xC2\x85") {
        2
    } else if bytes.starts_with(b"\xE2\x80\xA8") || bytes.starts_with(b"\xE2\x80\xA9") {
        3
    } else {
        0
    }
}

/// Whether a text begins with a space from U+2000 to U+200A, U+2028, U+2029 or U+202F.
fn is_wide_space(bytes: &[u8]) -> bool
    ensures wide { result ≡ is_wide_space bytes.now }
    ensures within { result ≡ true → 3 ≤ length bytes.now }
{
    bytes.starts_with(b"\xE2\x80") && matches!(bytes, [_, _, 0x80..=0x8A | 0xA8 | 0xA9 | 0xAF, ..])
}

/// The length of the white space character with which a text begins, or 0.
fn white_len(bytes: &[u8]) -> usize
    ensures len { result ≡ white_len bytes.now }
    ensures within { result ≤ length bytes.now }
{
    if matches!(bytes, [9..=13 | 32, ..]) {
        1
    } else if bytes.starts_with(b"\xC2\x85") || bytes.starts_with(b"\xC2\xA0") {
        2
    } else if is_wide_space(bytes)
        || bytes.starts_with(b"\xE1\x9A\x80")
        || bytes.starts_with(b"\xE2\x81\x9F")
        || bytes.starts_with(b"\xE3\x80\x80")
    {
        3
    } else {
        0
    }
}

/// How many bytes the first so many white space characters of a text have, or all of them.
pub(crate) fn whites_len(most: usize, bytes: &[u8]) -> usize
    ensures len { result ≡ whites_len most bytes.now }
    ensures within { result ≤ length bytes.now }
{
    let mut at = 0;
    for _ in 0..most {
        let len = white_len(&bytes[at..]);
        if len == 0 {
            return at;
        }
        at += len;
    }
    at
}

/// How many white space characters a text begins with.
pub(crate) fn indent(bytes: &[u8]) -> usize
    ensures { result ≡ indent bytes.now }
{
    let mut rest = bytes;
    for n in 0..bytes.len() {
        let len = white_len(rest);
        if len == 0 {
            return n;
        }
        rest = &rest[len..];
    }
    bytes.len()
}

/// Whether a text is white space.
pub(crate) fn is_blank(bytes: &[u8]) -> bool
    ensures { result ≡ is_blank bytes.now }
{
    whites_len(bytes.len(), bytes) == bytes.len()
}

/// How many bytes come before the first newline.
fn line_len(bytes: &[u8]) -> usize
    ensures len { result ≡ line_len bytes.now }
    ensures within { result ≤ length bytes.now }
{
    let mut len = 0;
    while len < bytes.len() && newline_len(&bytes[len..]) == 0 {
        len += 1;
    }
    len
}

/// A line with so many bytes of a text that begins at this place.
fn line_at<'a>(from: usize, len: usize, text: &'a [u8]) -> Line<'a>
    requires fits { from + length text.now < 2 ^ 64 }
    requires within { len ≤ length text.now }
    ensures { line_of result ≡ line_at from len text.now }
{
    Line {
        from,
        to: from + len,
        text: &text[..len],
    }
}

/// The lines of a text that begins at this place.
pub(crate) fn lines<'a>(
    alloc: Global,
    from: usize,
    text: &'a [u8],
) -> Result<Vec<Line<'a>>, AllocError>
    requires { from + length text.now < 2 ^ 64 }
    ensures { IfOk result (λ all. map line_of all.items ≡ lines from text.now) }
{
    let mut all = Vec::new(alloc);
    let mut from = from;
    let mut rest = text;
    loop {
        let len = line_len(rest);
        let next = newline_len(&rest[len..]);
        all.push(line_at(from, len, rest))?;
        if next == 0 {
            return Ok(all);
        }
        from += len + next;
        rest = &rest[len + next..];
    }
}
