//! Classes of characters, and what a text begins with.
ghost use Rattle.std.specs.Prelude.{◌≡◌, Some, None, if◌then◌else◌};
ghost use Rattle.std.specs.Char.{is_whitespace};
ghost use Rattle.std.specs.Char.Unicode.Numeric.{is_numeric};
ghost use Rattle.typst_lexer.specs.Characters.{begins};
ghost use Rattle.typst_lexer.specs.Letters.{is_low};
ghost use Rattle.typst_lexer.specs.Classes.{begins_char, char_of, ends_line, first_char, is_alphanumeric, is_at_blank, is_blank, is_label_part, is_name_part, is_name_start, is_newline, is_unspaced, is_wordy};

use crate::words::first_code;
use ucd_script::Script;

/// The character of a code.
fn char_of(code: u32) -> Option<char>
    ensures { result ≡ char_of code }
{
    char::from_u32(code)
}

/// The first character of a text.
pub fn first_char(text: &[u8]) -> Option<char>
    ensures { result ≡ first_char text.now }
{
    match first_code(text) {
        Some(code) => char_of(code),
        None => None,
    }
}

/// Whether the character is a newline.
pub fn is_newline(c: char) -> bool
    ensures { result ≡ is_newline c }
{
    c == '\n'
        || c == '\u{b}'
        || c == '\u{c}'
        || c == '\r'
        || c == '\u{85}'
        || c == '\u{2028}'
        || c == '\u{2029}'
}

/// Whether the character is a blank of markup.
pub fn is_blank(c: char) -> bool
    ensures { result ≡ is_blank c }
{
    c == ' ' || c == '\t' || is_newline(c)
}

/// Whether a name may begin with the character.
pub fn is_name_start(c: char) -> bool
    ensures { result ≡ is_name_start c }
{
    unicode_ident::is_xid_start(c) || c == '_'
}

/// Whether the character may be in a name.
pub fn is_name_part(c: char) -> bool
    ensures { result ≡ is_name_part c }
{
    unicode_ident::is_xid_continue(c) || c == '_' || c == '-'
}

/// Whether the character may be in a label.
fn is_label_part(c: char) -> bool
    ensures { result ≡ is_label_part c }
{
    is_name_part(c) || c == '.' || c == ':'
}

/// Whether the character is a letter or a number.
fn is_alphanumeric(c: char) -> bool
    ensures { result ≡ is_alphanumeric c }
{
    c.is_alphanumeric()
}

/// Whether the script puts no spaces between words.
fn is_unspaced(script: Script) -> bool
    ensures { result ≡ is_unspaced script }
{
    matches!(
        script,
        Script::Han | Script::Hiragana | Script::Katakana | Script::Hangul
    )
}

/// Whether the character is a letter or a number of a script that puts spaces between words.
fn is_wordy(c: char) -> bool
    ensures { result ≡ is_wordy c }
{
    is_alphanumeric(c) && ((c as u32) < 128 || !is_unspaced(Script::for_char(c)))
}

/// Whether the text begins with a byte of ASCII, which is a character by itself.
fn begins_low(text: &[u8]) -> bool
    ensures { result ≡ begins is_low text.now }
{
    matches!(text, [byte, ..] if *byte < 128)
}

/// Whether the text begins with a byte that is a newline.
fn begins_newline_byte(text: &[u8]) -> bool
    ensures { result ≡ begins is_newline text.now }
{
    matches!(text, [byte, ..] if is_newline(*byte as char))
}

/// Whether the text begins with a newline.
pub fn begins_newline(text: &[u8]) -> bool
    ensures { result ≡ begins_char is_newline text.now }
{
    if begins_low(text) {
        return begins_newline_byte(text);
    }
    match first_char(text) {
        Some(c) => is_newline(c),
        None => false,
    }
}

/// Whether the text begins with a byte that is a blank of markup.
fn begins_blank_byte(text: &[u8]) -> bool
    ensures { result ≡ begins is_blank text.now }
{
    matches!(text, [byte, ..] if is_blank(*byte as char))
}

/// Whether the text begins with a blank of markup.
pub fn begins_blank(text: &[u8]) -> bool
    ensures { result ≡ begins_char is_blank text.now }
{
    if begins_low(text) {
        return begins_blank_byte(text);
    }
    match first_char(text) {
        Some(c) => is_blank(c),
        None => false,
    }
}

/// Whether the text begins with a byte that is white space.
fn begins_space_byte(text: &[u8]) -> bool
    ensures { result ≡ begins is_whitespace text.now }
{
    matches!(text, [byte, ..] if (*byte as char).is_whitespace())
}

/// Whether the text begins with white space.
pub fn begins_space(text: &[u8]) -> bool
    ensures { result ≡ begins_char is_whitespace text.now }
{
    if begins_low(text) {
        return begins_space_byte(text);
    }
    match first_char(text) {
        Some(c) => c.is_whitespace(),
        None => false,
    }
}

/// Whether a newline ends with the first character.
pub fn ends_line(text: &[u8]) -> bool
    ensures { result ≡ ends_line text.now }
{
    begins_newline(text) && !text.starts_with(b"\r\n")
}

/// Whether the text begins with a character with which a name may begin.
pub fn begins_name_start(text: &[u8]) -> bool
    ensures { result ≡ begins_char is_name_start text.now }
{
    match first_char(text) {
        Some(c) => is_name_start(c),
        None => false,
    }
}

/// Whether the text begins with a character that may be in a name.
pub fn begins_name_part(text: &[u8]) -> bool
    ensures { result ≡ begins_char is_name_part text.now }
{
    match first_char(text) {
        Some(c) => is_name_part(c),
        None => false,
    }
}

/// Whether the text begins with a character that may be in a label.
pub fn begins_label_part(text: &[u8]) -> bool
    ensures { result ≡ begins_char is_label_part text.now }
{
    match first_char(text) {
        Some(c) => is_label_part(c),
        None => false,
    }
}

/// Whether the text begins with a number.
pub fn begins_numeric(text: &[u8]) -> bool
    ensures { result ≡ begins_char is_numeric text.now }
{
    match first_char(text) {
        Some(c) => c.is_numeric(),
        None => false,
    }
}

/// Whether the text begins with a letter or a number.
pub fn begins_alphanumeric(text: &[u8]) -> bool
    ensures { result ≡ begins_char is_alphanumeric text.now }
{
    match first_char(text) {
        Some(c) => is_alphanumeric(c),
        None => false,
    }
}

/// Whether the text begins with a wordy character.
pub fn begins_wordy(text: &[u8]) -> bool
    ensures { result ≡ begins_char is_wordy text.now }
{
    match first_char(text) {
        Some(c) => is_wordy(c),
        None => false,
    }
}

/// Whether the text is at its end, or begins with white space or a comment.
pub fn is_at_blank(text: &[u8]) -> bool
    ensures { result ≡ is_at_blank text.now }
{
    match text {
        [] => true,
        [_, ..] => begins_space(text) || text.starts_with(b"//") || text.starts_with(b"/*"),
    }
}
