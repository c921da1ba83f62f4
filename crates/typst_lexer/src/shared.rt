//! Tokens that several modes have: comments, raw text, escapes and labels.
ghost use Rattle.std.specs.Prelude.{◌≡◌, ◌+◌, ◌<◌, ◌≤◌, length};
ghost use Rattle.typst_lexer.specs.Shared.{enter_comment, enter_escape, escape_kind, has_digits, is_character, is_label_start, stay_comment, stay_escape, stay_label, stay_line, stay_mark, stay_opening, stay_raw};

use crate::characters::{begins_alphanumeric as begins_ascii_alphanumeric, behind};
use crate::classes::{begins_label_part, begins_name_part, begins_newline, begins_space};
use crate::escapes::{hex_len, hex_value, is_code};
use crate::place::Place;
use crate::token::TokenKind;

/// What a comment is inside of after its first byte, or that of one that hasn't begun, if one is next.
pub fn enter_comment(window: &[u8]) -> Option<Place>
    ensures { result ≡ enter_comment window.now }
{
    if window.starts_with(b"//") {
        Some(Place::LineComment)
    } else if window.starts_with(b"/*") {
        Some(Place::CommentMark(1))
    } else if window.starts_with(b"*/") {
        Some(Place::Rest(TokenKind::UnexpectedCommentEnd, 1))
    } else {
        None
    }
}

/// What the comment of a line is inside of after one more character.
pub fn stay_line(here: Place, window: &[u8]) -> Option<Place>
    ensures { result ≡ stay_line here window.now }
{
    if begins_newline(window) {
        None
    } else {
        Some(here)
    }
}

/// What a block comment is inside of after one more character.
pub fn stay_comment(depth: usize, window: &[u8]) -> Place
    requires { depth < usize.MAX }
    ensures { result ≡ stay_comment depth window.now }
{
    if window.starts_with(b"*/") {
        Place::CommentMark(depth.saturating_sub(1))
    } else if window.starts_with(b"/*") {
        Place::CommentMark(depth + 1)
    } else {
        Place::BlockComment(depth)
    }
}

/// What a block comment is inside of after the second byte of a `/*` or `*/`.
pub fn stay_mark(depth: usize) -> Place
    ensures { result ≡ stay_mark depth }
{
    if depth == 0 {
        Place::Rest(TokenKind::BlockComment, 0)
    } else {
        Place::BlockComment(depth)
    }
}

/// What a run of backticks is inside of after one more character.
pub fn stay_opening(n: usize, window: &[u8]) -> Option<Place>
    requires { n < usize.MAX }
    ensures { result ≡ stay_opening n window.now }
{
    if window.starts_with(b"`") {
        Some(Place::RawOpening(n + 1))
    } else if n == 2 {
        None
    } else {
        Some(Place::RawText(n, 0))
    }
}

/// What raw text is inside of after one more character.
pub fn stay_raw(opening: usize, run: usize, window: &[u8]) -> Place
    requires { run < usize.MAX }
    ensures { result ≡ stay_raw opening run window.now }
{
    if !window.starts_with(b"`") {
        Place::RawText(opening, 0)
    } else if run + 1 == opening {
        Place::Rest(TokenKind::Raw, 0)
    } else {
        Place::RawText(opening, run + 1)
    }
}

/// What a token with a backslash is inside of after the backslash.
pub fn enter_escape(window: &[u8]) -> Place
    ensures { result ≡ enter_escape window.now }
{
    if window.starts_with(b"\\u{") {
        Place::EscapeDigits(2)
    } else if begins_space(behind(window, 1)) || window.len() == 1 {
        Place::Rest(TokenKind::Linebreak, 0)
    } else {
        Place::Rest(TokenKind::Escape, 1)
    }
}

/// What `\u{..` is inside of after one more character.
pub fn stay_escape(left: u8, window: &[u8]) -> Option<Place>
    ensures { result ≡ stay_escape left window.now }
{
    if left >= 1 {
        Some(Place::EscapeDigits(left - 1))
    } else if begins_ascii_alphanumeric(window) {
        Some(Place::EscapeDigits(0))
    } else if window.starts_with(b"}") {
        Some(Place::EscapeEnd)
    } else {
        None
    }
}

/// Whether hexadecimal digits are between the braces of `\u{..}`, and nothing else.
fn has_digits(text: &[u8]) -> bool
    ensures { result ≡ has_digits text.now }
{
    let digits = hex_len(behind(text, 3));
    digits >= 1 && behind(text, 3 + digits).starts_with(b"}")
}

/// Whether the digits of `\u{..}` are the number of a character.
#[tactic(auto, using(crate::proofs::HexRuns::capped_is_code))]
fn is_character(text: &[u8]) -> bool
    ensures { result ≡ is_character text.now }
{
    is_code(hex_value(behind(text, 3)))
}

/// The kind of `\u{..}`.
pub fn escape_kind(text: &[u8]) -> TokenKind
    ensures { result ≡ escape_kind text.now }
{
    if has_digits(text) && is_character(text) {
        TokenKind::Escape
    } else {
        TokenKind::InvalidEscape
    }
}

/// Whether a label begins.
pub fn is_label_start(window: &[u8]) -> bool
    ensures { result ≡ is_label_start window.now }
{
    window.starts_with(b"<") && begins_name_part(behind(window, 1))
}

/// What a label is inside of after one more character.
pub fn stay_label(window: &[u8]) -> Option<Place>
    ensures { result ≡ stay_label window.now }
{
    if begins_label_part(window) {
        Some(Place::Label)
    } else if window.starts_with(b">") {
        Some(Place::Rest(TokenKind::Label, 0))
    } else {
        None
    }
}
