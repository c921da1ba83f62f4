//! What an ASCII byte decides at once, before a look at the rules: most bytes of a text are such bytes.
ghost use Rattle.std.specs.Prelude.{◌≡◌, ◌≤◌, ◌<◌, drop, length};
ghost use Rattle.std.specs.List.{take_while};
ghost use Rattle.typst_lexer.specs.Bytes.{behind_byte, behind_first, easy_len, ends_at, ends_before, goes_over_text, is_alone, is_bracket, is_commented, is_mark, is_no_t, is_other, is_quoted, is_raw, is_text_end, is_undotted, text_len};
ghost use Rattle.typst_lexer.specs.Characters.{begins, is_name, is_white};
ghost use Rattle.typst_lexer.specs.Classes.{is_blank, is_newline};
ghost use Rattle.typst_lexer.specs.Letters.{is_letter};

use crate::characters::{is_name, is_white};
use crate::classes::{is_blank, is_newline};
use crate::code::is_suffix;
use crate::place::{Behind, Place};
use ucd_breaks::GraphemeClusterBreak;

/// What is directly before a place after the byte, which is no dot.
pub fn behind_byte(byte: u8) -> Behind
    ensures { result ≡ behind_byte byte }
{
    if byte == b'@' {
        Behind::At
    } else if byte.is_ascii_alphanumeric() {
        Behind::Word
    } else {
        Behind::Other
    }
}

/// Whether the byte is one of ASCII, but no dot.
fn is_undotted(byte: u8) -> bool
    ensures { result ≡ is_undotted byte }
{
    byte < 128 && byte != b'.'
}

/// Whether such a byte is next.
pub fn begins_undotted(window: &[u8]) -> bool
    ensures { result ≡ begins is_undotted window.now }
{
    matches!(window, [byte, ..] if is_undotted(*byte))
}

/// What is directly before a place after the first byte, which is such a byte.
pub fn behind_first(window: &[u8]) -> Behind
    ensures { result ≡ behind_first window.now }
{
    match window {
        [] => Behind::Other,
        [byte, ..] => behind_byte(*byte),
    }
}

/// Whether text goes on over the byte in any case.
fn is_letter(byte: u8) -> bool
    ensures { result ≡ is_letter byte }
{
    byte.is_ascii_alphabetic() && byte != b'h'
}

/// Whether such a byte is next.
pub fn begins_letter(window: &[u8]) -> bool
    ensures { result ≡ begins is_letter window.now }
{
    matches!(window, [byte, ..] if is_letter(*byte))
}

/// Whether a string goes on over the byte.
fn is_quoted(byte: u8) -> bool
    ensures { result ≡ is_quoted byte }
{
    byte < 128 && !(byte == b'"' || byte == b'\\' || byte == b'.')
}

/// Whether the comment of a line goes on over the byte.
fn is_commented(byte: u8) -> bool
    ensures { result ≡ is_commented byte }
{
    byte < 128 && !(is_newline(byte as char) || byte == b'.')
}

/// Whether raw text goes on over the byte.
fn is_raw(byte: u8) -> bool
    ensures { result ≡ is_raw byte }
{
    byte < 128 && !(byte == b'`' || byte == b'.')
}

/// Whether the byte is a digit, or a sign that text goes over in any case.
fn is_mark(byte: u8) -> bool
    ensures { result ≡ is_mark byte }
{
    matches!(
        byte,
        b'0'..=b'9' | b'!' | b'%' | b'(' | b')' | b',' | b';' | b'?'
    )
}

/// Whether the byte is one of ASCII, but no `t`.
fn is_no_t(byte: u8) -> bool
    ensures { result ≡ is_no_t byte }
{
    byte < 128 && byte != b't'
}

/// Whether text goes over the byte at a place: a letter, a mark, a space before a letter, or an `h` that begins no link.
fn goes_over_text(at: usize, bytes: &[u8]) -> bool
    requires { at < length bytes.now }
    ensures { result ≡ goes_over_text (drop at bytes.now) }
{
    let byte = bytes[at];
    is_letter(byte)
        || is_mark(byte)
        || byte == b' ' && at + 1 < bytes.len() && bytes[at + 1].is_ascii_alphabetic()
        || byte == b'h' && at + 1 < bytes.len() && is_no_t(bytes[at + 1])
}

/// How many bytes from the front text goes over.
pub fn text_len(bytes: &[u8]) -> usize
    ensures value { result ≡ text_len bytes.now }
    ensures within { result ≤ length bytes.now }
{
    let mut at = 0;
    while at < bytes.len() && goes_over_text(at, bytes) {
        at += 1;
    }
    at
}

/// How many bytes from the front are white space.
pub fn blanks(bytes: &[u8]) -> usize
    ensures value { result ≡ length (take_while is_white bytes.now) }
    ensures within { result ≤ length bytes.now }
{
    bytes.iter().take_while(|byte| is_white(**byte)).count()
}

/// How many bytes from the front a name goes over.
pub fn names(bytes: &[u8]) -> usize
    ensures value { result ≡ length (take_while is_name bytes.now) }
    ensures within { result ≤ length bytes.now }
{
    bytes.iter().take_while(|byte| is_name(**byte)).count()
}

/// How many bytes from the front a string goes over.
fn quoted(bytes: &[u8]) -> usize
    ensures value { result ≡ length (take_while is_quoted bytes.now) }
    ensures within { result ≤ length bytes.now }
{
    bytes.iter().take_while(|byte| is_quoted(**byte)).count()
}

/// How many bytes from the front the comment of a line goes over.
fn commented(bytes: &[u8]) -> usize
    ensures value { result ≡ length (take_while is_commented bytes.now) }
    ensures within { result ≤ length bytes.now }
{
    bytes.iter().take_while(|byte| is_commented(**byte)).count()
}

/// How many bytes from the front raw text goes over.
fn raw(bytes: &[u8]) -> usize
    ensures value { result ≡ length (take_while is_raw bytes.now) }
    ensures within { result ≤ length bytes.now }
{
    bytes.iter().take_while(|byte| is_raw(**byte)).count()
}

/// How many bytes from the front a token inside of this goes over, without a change.
pub fn easy_len(place: Place, bytes: &[u8]) -> usize
    ensures value { result ≡ easy_len place bytes.now }
    ensures within { result ≤ length bytes.now }
{
    match place {
        Place::Text => text_len(bytes),
        Place::Blank => blanks(bytes),
        Place::Name => names(bytes),
        Place::FieldName => names(bytes),
        Place::Str => quoted(bytes),
        Place::LineComment => commented(bytes),
        Place::RawText(_, 0) => raw(bytes),
        _ => 0,
    }
}

/// Whether text ends before the byte, whatever comes next.
pub fn is_text_end(byte: u8) -> bool
    ensures { result ≡ is_text_end byte }
{
    matches!(
        byte,
        b'\t'..=b'\r'
            | b'"'
            | b'#'
            | b'$'
            | b'\''
            | b'*'
            | b':'
            | b'<'
            | b'>'
            | b'['
            | b'\\'
            | b']'
            | b'_'
            | b'`'
            | b'~'
    )
}

/// Whether the class is that of most characters.
fn is_other(class: GraphemeClusterBreak) -> bool
    ensures { result ≡ is_other class }
{
    matches!(class, GraphemeClusterBreak::Other)
}

/// Whether a token inside of this ends before a byte of ASCII.
fn ends_before(place: Place, byte: u8) -> bool
    ensures { result ≡ ends_before place byte }
{
    match place {
        Place::Space | Place::Line | Place::Parbreak => !is_blank(byte as char),
        Place::Text => is_text_end(byte),
        Place::Blank => !(byte as char).is_whitespace(),
        Place::Integer => !(is_suffix(byte) || byte == b'.'),
        Place::Name | Place::FieldName => !is_name(byte),
        Place::Cluster(_, cluster) => is_other(cluster.last),
        Place::MathName(_, _) => !byte.is_ascii_alphanumeric(),
        Place::MathNumber => !(byte.is_ascii_digit() || byte == b'.'),
        Place::Rest(_, more) => more == 0,
        _ => false,
    }
}

/// Whether a token inside of this ends before the byte in any case.
pub fn ends_at(place: Place, byte: u8) -> bool
    ensures { result ≡ ends_at place byte }
{
    byte < 128 && ends_before(place, byte)
}

/// Whether the byte is a token of code by itself in any case.
fn is_bracket(byte: u8) -> bool
    ensures { result ≡ is_bracket byte }
{
    matches!(
        byte,
        b'{' | b'}' | b'[' | b']' | b'(' | b')' | b'$' | b',' | b';' | b':'
    )
}

/// Whether such a byte is next.
pub fn begins_bracket(window: &[u8]) -> bool
    ensures { result ≡ begins is_bracket window.now }
{
    matches!(window, [byte, ..] if is_bracket(*byte))
}

/// Whether the byte is one of ASCII that no shorthand of math begins with.
pub fn is_alone(byte: u8) -> bool
    ensures { result ≡ is_alone byte }
{
    byte < 128
        && !matches!(
            byte,
            b'<' | b'-' | b'|' | b'>' | b'~' | b'=' | b'.' | b':' | b'!' | b'[' | b'*'
        )
}

/// Whether such a byte is next.
pub fn begins_alone(window: &[u8]) -> bool
    ensures { result ≡ begins is_alone window.now }
{
    matches!(window, [byte, ..] if is_alone(*byte))
}
