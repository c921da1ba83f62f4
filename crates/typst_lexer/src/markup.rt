//! Which token of markup begins at a place, and how it goes on.
ghost use Rattle.std.specs.Prelude.{◌≡◌, ◌≤◌, ◌<◌, ◌^◌};
ghost use Rattle.std.specs.Char.{is_ascii_alphanumeric};
ghost use Rattle.typst_lexer.specs.Characters.{begins};
ghost use Rattle.typst_lexer.specs.Classes.{begins_char};
ghost use Rattle.typst_lexer.specs.Markup.{digits_with, enter_content, enter_markup, enter_marker, enter_sign, first_digit, heading, is_at_sign, is_hyphen, is_in_word, is_link, is_link_mark, is_letter_h, is_link_start, is_period, is_plain, is_ref_start, is_sign, is_slash, is_space_in_text, is_start, is_word, shorthand_len, stay_large, stay_link, stay_number, stay_ref, stay_space, stay_text, text_goes_on};

use crate::bytes::begins_letter;
use crate::characters::{begins_digit, behind};
use crate::classes::{
    begins_alphanumeric, begins_blank, begins_label_part, begins_name_part, begins_numeric,
    begins_wordy, ends_line, first_char, is_at_blank,
};
use crate::place::{Behind, Place};
use crate::shared::{enter_comment, enter_escape, is_label_start};
use crate::token::TokenKind;

/// Whether nothing is before the place.
pub fn is_start(behind: Behind) -> bool
    ensures { result ≡ is_start behind }
{
    matches!(behind, Behind::Start)
}

/// Whether a wordy character is before the place.
pub fn is_word(behind: Behind) -> bool
    ensures { result ≡ is_word behind }
{
    matches!(behind, Behind::Word)
}

/// Whether wordy characters are on both sides of the next character.
fn is_in_word(before: Behind, window: &[u8]) -> bool
    ensures { result ≡ is_in_word before window.now }
{
    is_word(before) && begins_wordy(behind(window, 1))
}

/// What white space is inside of after one more character: the same place, or another one after a newline.
pub fn stay_space(same: Place, more: Place, window: &[u8]) -> Option<Place>
    ensures { result ≡ stay_space same more window.now }
{
    if ends_line(window) {
        Some(more)
    } else if begins_blank(window) {
        Some(same)
    } else {
        None
    }
}

/// Whether a link begins.
fn is_link_start(window: &[u8]) -> bool
    ensures { result ≡ is_link_start window.now }
{
    window.starts_with(b"http://") || window.starts_with(b"https://")
}

/// Whether the byte may be anywhere in a link.
fn is_link(byte: u8) -> bool
    ensures { result ≡ is_link byte }
{
    byte.is_ascii_alphanumeric()
        || byte == b'#'
        || byte == b'$'
        || byte == b'%'
        || byte == b'&'
        || byte == b'*'
        || byte == b'+'
        || byte == b'-'
        || byte == b'/'
        || byte == b'='
        || byte == b'@'
        || byte == b'_'
        || byte == b'~'
}

/// Whether the byte may be in a link, but not at its end.
fn is_link_mark(byte: u8) -> bool
    ensures { result ≡ is_link_mark byte }
{
    byte == b'!'
        || byte == b','
        || byte == b'.'
        || byte == b':'
        || byte == b';'
        || byte == b'?'
        || byte == b'\''
}

/// Whether the text begins with a byte that may be anywhere in a link.
fn begins_link(window: &[u8]) -> bool
    ensures { result ≡ begins is_link window.now }
{
    matches!(window, [byte, ..] if is_link(*byte))
}

/// Whether the text begins with a byte that may be in a link, but not at its end.
fn begins_link_mark(window: &[u8]) -> bool
    ensures { result ≡ begins is_link_mark window.now }
{
    matches!(window, [byte, ..] if is_link_mark(*byte))
}

/// What a link is inside of after one more character, with its open brackets before it.
pub fn stay_link(brackets: u64, window: &[u8]) -> Option<Place>
    ensures { result ≡ stay_link brackets window.now }
{
    if begins_link(window) {
        Some(Place::Link(brackets))
    } else if begins_link_mark(window) {
        Some(Place::LinkMark(brackets))
    } else if window.starts_with(b"(") && brackets < 0x4000_0000_0000_0000 {
        Some(Place::Link(brackets * 2 + 1))
    } else if window.starts_with(b"[") && brackets < 0x4000_0000_0000_0000 {
        Some(Place::Link(brackets * 2 + 2))
    } else if window.starts_with(b")") && brackets % 2 == 1 {
        Some(Place::Link(brackets / 2))
    } else if window.starts_with(b"]") && brackets % 2 == 0 && brackets > 0 {
        Some(Place::Link(brackets / 2 - 1))
    } else {
        None
    }
}

/// Whether a reference begins.
fn is_ref_start(window: &[u8]) -> bool
    ensures { result ≡ is_ref_start window.now }
{
    window.starts_with(b"@") && begins_name_part(behind(window, 1))
}

/// What a reference is inside of after one more character.
pub fn stay_ref(window: &[u8]) -> Option<Place>
    ensures { result ≡ stay_ref window.now }
{
    if window.starts_with(b".") || window.starts_with(b":") {
        Some(Place::RefMark)
    } else if begins_name_part(window) {
        Some(Place::Ref)
    } else {
        None
    }
}

/// The length of the shorthand that is next, or 0.
fn shorthand_len(window: &[u8]) -> u8
    ensures { result ≡ shorthand_len window.now }
{
    if window.starts_with(b"...") || window.starts_with(b"---") {
        3
    } else if window.starts_with(b"--") || window.starts_with(b"-?") {
        2
    } else if window.starts_with(b"~")
        || window.starts_with(b"-") && begins_numeric(behind(window, 1))
    {
        1
    } else {
        0
    }
}

/// What the marker of a heading is inside of after a `=`.
pub fn heading(window: &[u8]) -> Place
    ensures { result ≡ heading window.now }
{
    let rest = behind(window, 1);
    if rest.starts_with(b"=") {
        Place::Heading
    } else if is_at_blank(rest) {
        Place::Rest(TokenKind::HeadingMarker, 0)
    } else {
        Place::Text
    }
}

/// What digits are inside of after one more digit.
fn digits_with(value: u64, digit: u8) -> Place
    ensures { result ≡ digits_with value digit }
{
    let more = u128::from(value) * 10 + u128::from(digit);
    if more < 0x1_0000_0000_0000_0000 {
        Place::EnumNumber(more as u64)
    } else {
        Place::LargeNumber
    }
}

/// The value of the digit that the text begins with.
fn first_digit(window: &[u8]) -> u8
    ensures { result ≡ first_digit window.now }
{
    match window {
        [] => 0,
        [byte, ..] => byte.saturating_sub(48),
    }
}

/// Whether another token may begin with the character, in text.
fn is_sign(c: char) -> bool
    ensures { result ≡ is_sign c }
{
    matches!(
        c,
        '\\' | '/'
            | '['
            | ']'
            | '~'
            | '-'
            | '.'
            | '\''
            | '"'
            | '*'
            | '_'
            | ':'
            | 'h'
            | '`'
            | '$'
            | '<'
            | '>'
            | '@'
            | '#'
    )
}

/// Whether text goes on over the character, whatever comes next.
pub fn is_plain(c: char) -> bool
    ensures { result ≡ is_plain c }
{
    !(c.is_whitespace() || is_sign(c))
}

/// Whether such a character is next.
fn begins_plain(window: &[u8]) -> bool
    ensures { result ≡ begins_char is_plain window.now }
{
    match first_char(window) {
        Some(c) => is_plain(c),
        None => false,
    }
}

/// Whether a slash is next that begins no comment.
fn is_slash(window: &[u8]) -> bool
    ensures { result ≡ is_slash window.now }
{
    window.starts_with(b"/") && !(window.starts_with(b"//") || window.starts_with(b"/*"))
}

/// Whether a hyphen is next that begins no shorthand.
fn is_hyphen(window: &[u8]) -> bool
    ensures { result ≡ is_hyphen window.now }
{
    window.starts_with(b"-")
        && !(window.starts_with(b"--")
            || window.starts_with(b"-?")
            || begins_numeric(behind(window, 1)))
}

/// Whether a space before a letter or a number is next.
fn is_space_in_text(window: &[u8]) -> bool
    ensures { result ≡ is_space_in_text window.now }
{
    window.starts_with(b" ") && begins_alphanumeric(behind(window, 1))
}

/// Whether a period is next that begins no shorthand.
fn is_period(window: &[u8]) -> bool
    ensures { result ≡ is_period window.now }
{
    window.starts_with(b".") && !window.starts_with(b"...")
}

/// Whether an `h` is next that begins no link.
fn is_letter_h(window: &[u8]) -> bool
    ensures { result ≡ is_letter_h window.now }
{
    window.starts_with(b"h") && !is_link_start(window)
}

/// Whether `@` is next without a character of a label after it.
fn is_at_sign(window: &[u8]) -> bool
    ensures { result ≡ is_at_sign window.now }
{
    window.starts_with(b"@") && !begins_label_part(behind(window, 1))
}

/// Whether text goes on with the next character.
fn text_goes_on(window: &[u8]) -> bool
    ensures { result ≡ text_goes_on window.now }
{
    begins_plain(window)
        || is_space_in_text(window)
        || is_slash(window)
        || is_hyphen(window)
        || is_period(window)
        || is_letter_h(window)
        || is_at_sign(window)
}

/// What text is inside of after one more character.
pub fn stay_text(window: &[u8]) -> Option<Place>
    ensures { result ≡ stay_text window.now }
{
    if text_goes_on(window) {
        Some(Place::Text)
    } else {
        None
    }
}

/// What digits with this number are inside of after one more character.
pub fn stay_number(value: u64, window: &[u8]) -> Option<Place>
    ensures { result ≡ stay_number value window.now }
{
    if begins_digit(window) {
        Some(digits_with(value, first_digit(window)))
    } else if !window.starts_with(b".") {
        stay_text(window)
    } else if is_at_blank(behind(window, 1)) {
        Some(Place::Rest(TokenKind::EnumMarker, 0))
    } else {
        Some(Place::Text)
    }
}

/// What digits with too large a number are inside of after one more character.
pub fn stay_large(window: &[u8]) -> Option<Place>
    ensures { result ≡ stay_large window.now }
{
    if begins_digit(window) {
        Some(Place::LargeNumber)
    } else if window.starts_with(b".") {
        Some(Place::Text)
    } else {
        stay_text(window)
    }
}

/// What a token is inside of after its first character, if it is a marker or text.
fn enter_marker(window: &[u8]) -> Place
    ensures { result ≡ enter_marker window.now }
{
    if window.starts_with(b"=") {
        heading(window)
    } else if window.starts_with(b"-") && is_at_blank(behind(window, 1)) {
        Place::Rest(TokenKind::ListMarker, 0)
    } else if window.starts_with(b"+") && is_at_blank(behind(window, 1)) {
        Place::Rest(TokenKind::EnumMarker, 0)
    } else if window.starts_with(b"/") && is_at_blank(behind(window, 1)) {
        Place::Rest(TokenKind::TermMarker, 0)
    } else if begins_digit(window) {
        Place::EnumNumber(u64::from(first_digit(window)))
    } else {
        Place::Text
    }
}

/// What a token is inside of after its first character, if it is a sign, a marker or text.
fn enter_sign(before: Behind, window: &[u8]) -> Place
    ensures { result ≡ enter_sign before window.now }
{
    if window.starts_with(b"*") && !is_in_word(before, window) {
        Place::Rest(TokenKind::Star, 0)
    } else if window.starts_with(b"_") && !is_in_word(before, window) {
        Place::Rest(TokenKind::Underscore, 0)
    } else if window.starts_with(b"#") {
        Place::Rest(TokenKind::Hash, 0)
    } else if window.starts_with(b"[") {
        Place::Rest(TokenKind::LeftBracket, 0)
    } else if window.starts_with(b"]") {
        Place::Rest(TokenKind::RightBracket, 0)
    } else if window.starts_with(b"'") || window.starts_with(b"\"") {
        Place::Rest(TokenKind::SmartQuote, 0)
    } else if window.starts_with(b"$") {
        Place::Rest(TokenKind::Dollar, 0)
    } else if window.starts_with(b":") {
        Place::Rest(TokenKind::Colon, 0)
    } else {
        enter_marker(window)
    }
}

/// What a token is inside of after its first character, if it is no white space and no comment.
fn enter_content(before: Behind, window: &[u8]) -> Place
    ensures { result ≡ enter_content before window.now }
{
    if window.starts_with(b"`") {
        Place::RawOpening(1)
    } else if window.starts_with(b"\\") {
        enter_escape(window)
    } else if is_link_start(window) {
        Place::Link(0)
    } else if is_label_start(window) {
        Place::Label
    } else if is_ref_start(window) {
        Place::Ref
    } else if shorthand_len(window) > 0 {
        Place::Rest(TokenKind::Shorthand, shorthand_len(window) - 1)
    } else {
        enter_sign(before, window)
    }
}

/// What a token of markup is inside of after its first character.
pub fn enter_markup(before: Behind, window: &[u8]) -> Place
    ensures { result ≡ enter_markup before window.now }
{
    if begins_letter(window) {
        return Place::Text;
    }
    enter_markup_by_rules(before, window)
}

/// The same by all rules.
fn enter_markup_by_rules(before: Behind, window: &[u8]) -> Place
    ensures { result ≡ enter_markup before window.now }
{
    if ends_line(window) {
        Place::Line
    } else if begins_blank(window) {
        Place::Space
    } else if is_start(before) && window.starts_with(b"#!") {
        Place::Shebang
    } else {
        match enter_comment(window) {
            None => enter_content(before, window),
            Some(place) => place,
        }
    }
}
