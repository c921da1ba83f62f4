//! Text in a page.

use std::alloc::AllocError;
use typst_shown::quoted::is_printed_byte;

/// Adds a text so that a browser shows it between elements and reads no markup in it. A page may have no control
/// characters other than tabs and line feeds. The others become the signs that represent them.
pub(crate) fn push_escaped(out: &mut String, text: &str) -> Result<(), AllocError> {
    if is_plain(text.as_bytes()) {
        out.push_str(text)
    } else {
        push_changed(out, text)
    }
}

/// Whether each character of a text stands in a page as it is. The loop has no way out, so it is fast.
fn is_plain(text: &[u8]) -> bool {
    let mut is_plain = true;
    for byte in text {
        is_plain = is_plain & begins_plain(*byte);
    }
    is_plain
}

/// Whether `{:?}` and a page show a text of these bytes as it is. The loop has no way out, so it is fast.
pub(crate) fn is_simple(text: &[u8]) -> bool {
    let mut is_simple = true;
    for byte in text {
        is_simple = is_simple & is_printed_byte(*byte) & begins_plain(*byte);
    }
    is_simple
}

/// Whether a character with this byte first stands in a page as it is. Control characters begin with a byte below 32,
/// with 127 or with 194.
fn begins_plain(byte: u8) -> bool {
    let is_markup = (byte == b'&') | (byte == b'<') | (byte == b'>');
    let is_control = (byte < 32) & (byte != b'\t') & (byte != b'\n')
        | (byte == 127)
        | (byte == 194);
    !(is_markup | is_control)
}

/// Adds a text character by character.
fn push_changed(out: &mut String, text: &str) -> Result<(), AllocError> {
    for c in text.chars() {
        match c {
            '&' => out.push_str("&amp;")?,
            '<' => out.push_str("&lt;")?,
            '>' => out.push_str("&gt;")?,
            other => out.push(sign_of(other))?,
        }
    }
    Ok(())
}

/// The sign that represents a control character, or else the character itself.
fn sign_of(c: char) -> char {
    match c {
        '\t' | '\n' => c,
        '\u{7f}' => '\u{2421}',
        '\0'..='\u{1f}' => char::from_u32(u32::from(c).saturating_add(0x2400)).unwrap_or(
            '\u{fffd}',
        ),
        '\u{80}'..='\u{9f}' => '\u{fffd}',
        other => other,
    }
}
