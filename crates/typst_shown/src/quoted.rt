//! Texts in quotes.

use std::alloc::AllocError;

/// Adds the first `most` characters of a text in quotes, with `…` after them if the text goes on.
pub fn push_beginning(out: &mut String, text: &str, most: usize) -> Result<(), AllocError> {
    // A text has at least as many bytes as characters.
    let cut = if text.len() <= most {
        None
    } else {
        text.char_indices().nth(most)
    };
    match cut {
        Some((end, _)) => {
            push_quoted(out, text.get(..end).unwrap_or(""))?;
            out.push_str("…")
        }
        None => push_quoted(out, text),
    }
}

/// Adds a text in quotes, as `{:?}` prints it. Most texts stand there as they are.
fn push_quoted(out: &mut String, text: &str) -> Result<(), AllocError> {
    if !is_printed(text.as_bytes()) {
        return write!(out, "{text:?}");
    }
    out.push_str("\"")?;
    out.push_str(text)?;
    out.push_str("\"")
}

/// Whether `{:?}` shows a text of these bytes as it is. The loop has no way out, so it is fast.
fn is_printed(text: &[u8]) -> bool {
    let mut is_printed = true;
    for byte in text {
        is_printed = is_printed & is_printed_byte(*byte);
    }
    is_printed
}

/// Whether a byte is a printable character of ASCII other than a quote and a backslash, so that `{:?}` shows it as it is.
pub fn is_printed_byte(byte: u8) -> bool {
    (byte >= b' ') & (byte < 127) & (byte != b'"') & (byte != b'\\')
}
