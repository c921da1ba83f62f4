//! The ends of lines.

/// The characters that end a line. A carriage return and a line feed end one line together.
const LINE_ENDS: [char; 7] = [
    '\n', '\r', '\u{b}', '\u{c}', '\u{85}', '\u{2028}', '\u{2029}',
];

/// A line without its end.
pub(crate) fn without_end(line: &str) -> &str {
    line.trim_end_matches(LINE_ENDS)
}
