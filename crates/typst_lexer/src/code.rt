//! Which token of code begins at a place, and how it goes on.
ghost use Rattle.std.specs.Prelude.{◌≡◌, ◌≤◌, ◌<◌, length, if◌then◌else◌};
ghost use Rattle.std.specs.Char.{is_whitespace};
ghost use Rattle.std.specs.List.{take_while};
ghost use Rattle.typst_lexer.specs.Characters.{begins};
ghost use Rattle.typst_lexer.specs.Classes.{begins_char, is_name_part};
ghost use Rattle.typst_lexer.specs.Code.{after_exponent, begins_field_name, enter_bracket, enter_code, enter_dot, enter_expression, enter_one, enter_operation, enter_operator, enter_operator_sign, enter_suffix, enter_word, is_based, is_field, is_fraction, is_minus, is_long_unit, is_short_unit, is_suffix, is_word_here, stay_based, stay_exponent, stay_fraction, stay_integer, stay_letters, stay_power, stay_sign, stay_string, stay_unit, stay_while};

use crate::bytes::begins_bracket;
use crate::characters::{begins_digit, begins_name_start as begins_ascii_name, behind};
use crate::classes::{begins_name_part, begins_name_start, begins_space, first_char};
use crate::names::is;
use crate::place::{Behind, Place};
use crate::shared::{enter_comment, is_label_start};
use crate::token::TokenKind;

/// What white space is inside of after one more character.
pub fn stay_blank(window: &[u8]) -> Option<Place>
    ensures { result ≡ stay_while is_whitespace Place.Blank window.now }
{
    if begins_space(window) {
        Some(Place::Blank)
    } else {
        None
    }
}

/// What a name is inside of after one more character.
pub fn stay_name(here: Place, window: &[u8]) -> Option<Place>
    ensures { result ≡ stay_while is_name_part here window.now }
{
    if begins_name_part(window) {
        Some(here)
    } else {
        None
    }
}

/// Whether a dot or `@` is before the place, after which a keyword is a name.
pub fn is_field(behind: Behind) -> bool
    ensures { result ≡ is_field behind }
{
    matches!(behind, Behind::Dot | Behind::At)
}

/// Whether a number with the prefix of a base begins.
fn is_based(window: &[u8]) -> bool
    ensures { result ≡ is_based window.now }
{
    window.starts_with(b"0b") || window.starts_with(b"0o") || window.starts_with(b"0x")
}

/// Whether a dot before a digit is next.
fn is_fraction(window: &[u8]) -> bool
    ensures { result ≡ is_fraction window.now }
{
    window.starts_with(b".") && begins_digit(behind(window, 1))
}

/// Whether the byte may be in the suffix of a number.
pub fn is_suffix(byte: u8) -> bool
    ensures { result ≡ is_suffix byte }
{
    byte.is_ascii_alphanumeric() || byte == b'%'
}

/// Whether such a byte is next.
fn begins_suffix(window: &[u8]) -> bool
    ensures { result ≡ begins is_suffix window.now }
{
    matches!(window, [byte, ..] if is_suffix(*byte))
}

/// How many such bytes are next.
fn suffix_len(window: &[u8]) -> usize
    ensures value { result ≡ length (take_while is_suffix window.now) }
    ensures within { result ≤ length window.now }
{
    window.iter().take_while(|byte| is_suffix(**byte)).count()
}

/// Whether the suffix is a unit of two letters.
fn is_short_unit(suffix: &[u8]) -> bool
    ensures { result ≡ is_short_unit suffix.now }
{
    is(suffix, b"pt")
        || is(suffix, b"mm")
        || is(suffix, b"cm")
        || is(suffix, b"in")
        || is(suffix, b"em")
        || is(suffix, b"fr")
}

/// Whether the suffix is a unit of three letters.
fn is_long_unit(suffix: &[u8]) -> bool
    ensures { result ≡ is_long_unit suffix.now }
{
    is(suffix, b"deg") || is(suffix, b"rad")
}

/// What the letters of a number are inside of after one more character.
pub fn stay_letters(kind: TokenKind, window: &[u8]) -> Option<Place>
    ensures { result ≡ stay_letters kind window.now }
{
    if begins_suffix(window) {
        Some(Place::Letters(kind))
    } else {
        None
    }
}

/// What a number with the prefix of a base is inside of after one more character.
pub fn stay_based(window: &[u8]) -> Option<Place>
    ensures { result ≡ stay_based window.now }
{
    if begins_suffix(window) {
        Some(Place::Based)
    } else {
        None
    }
}

/// The bytes of the suffix that is next.
fn suffix_of(window: &[u8]) -> &[u8]
    ensures { result.now ≡ take_while is_suffix window.now }
{
    &window[..suffix_len(window)]
}

/// What a number is inside of after the first character of its suffix.
fn enter_suffix(window: &[u8]) -> Place
    ensures { result ≡ enter_suffix window.now }
{
    let suffix = suffix_of(window);
    if is(suffix, b"%") {
        Place::Rest(TokenKind::Numeric, 0)
    } else if is_short_unit(suffix) {
        Place::Rest(TokenKind::Numeric, 1)
    } else if is_long_unit(suffix) {
        Place::Rest(TokenKind::Numeric, 2)
    } else {
        Place::Letters(TokenKind::InvalidSuffix)
    }
}

/// What a number is inside of after one more character, if only its suffix may come.
fn stay_unit(window: &[u8]) -> Option<Place>
    ensures { result ≡ stay_unit window.now }
{
    if begins_suffix(window) {
        Some(enter_suffix(window))
    } else {
        None
    }
}

/// What a number is inside of after one more character, if its exponent or its suffix may come.
fn stay_exponent(window: &[u8]) -> Option<Place>
    ensures { result ≡ stay_exponent window.now }
{
    if (window.starts_with(b"e") || window.starts_with(b"E")) && !window.starts_with(b"em") {
        Some(Place::Exponent)
    } else {
        stay_unit(window)
    }
}

/// What a number is inside of after one more character, if it has no dot yet.
pub fn stay_integer(window: &[u8]) -> Option<Place>
    ensures { result ≡ stay_integer window.now }
{
    if begins_digit(window) {
        Some(Place::Integer)
    } else if window.starts_with(b".")
        && !(window.starts_with(b"..") || begins_name_start(behind(window, 1)))
    {
        Some(Place::Fraction)
    } else {
        stay_exponent(window)
    }
}

/// What a number with a dot is inside of after one more character.
pub fn stay_fraction(window: &[u8]) -> Option<Place>
    ensures { result ≡ stay_fraction window.now }
{
    if begins_digit(window) {
        Some(Place::Fraction)
    } else {
        stay_exponent(window)
    }
}

/// What an exponent is inside of after its sign and one more character.
pub fn stay_sign(window: &[u8]) -> Option<Place>
    ensures { result ≡ stay_sign window.now }
{
    if begins_digit(window) {
        Some(Place::Power)
    } else {
        stay_letters(TokenKind::InvalidFloat, window)
    }
}

/// What an exponent is inside of after its letter and one more character.
pub fn after_exponent(window: &[u8]) -> Option<Place>
    ensures { result ≡ after_exponent window.now }
{
    if window.starts_with(b"+") || window.starts_with(b"-") {
        Some(Place::ExponentSign)
    } else {
        stay_sign(window)
    }
}

/// What the digits of an exponent are inside of after one more character.
pub fn stay_power(window: &[u8]) -> Option<Place>
    ensures { result ≡ stay_power window.now }
{
    if begins_digit(window) {
        Some(Place::Power)
    } else {
        stay_unit(window)
    }
}

/// What a string is inside of after one more character that isn't escaped.
pub fn stay_string(window: &[u8]) -> Place
    ensures { result ≡ stay_string window.now }
{
    if window.starts_with(b"\"") {
        Place::Rest(TokenKind::Str, 0)
    } else if window.starts_with(b"\\") {
        Place::StrEscape
    } else {
        Place::Str
    }
}

/// Whether a minus sign is next, as it is written in mathematics.
fn begins_minus(window: &[u8]) -> bool
    ensures { result ≡ begins_char is_minus window.now }
{
    match first_char(window) {
        Some(c) => c == '\u{2212}',
        None => false,
    }
}

/// Whether a name begins that a field may have: it isn't `_` alone.
fn begins_field_name(window: &[u8]) -> bool
    ensures { result ≡ begins_field_name window.now }
{
    begins_name_start(window) && !is_word_here(b"_", window)
}

/// What a dot is inside of.
fn enter_dot(window: &[u8]) -> Place
    ensures { result ≡ enter_dot window.now }
{
    if begins_field_name(behind(window, 1)) {
        Place::Rest(TokenKind::Field, 0)
    } else {
        Place::Rest(TokenKind::Dot, 0)
    }
}

/// What a bracket or a sign that separates is inside of, or one character of another kind of token.
fn enter_bracket(other: TokenKind, window: &[u8]) -> Place
    ensures { result ≡ enter_bracket other window.now }
{
    let kind = if window.starts_with(b"{") {
        TokenKind::LeftBrace
    } else if window.starts_with(b"}") {
        TokenKind::RightBrace
    } else if window.starts_with(b"[") {
        TokenKind::LeftBracket
    } else if window.starts_with(b"]") {
        TokenKind::RightBracket
    } else if window.starts_with(b"(") {
        TokenKind::LeftParen
    } else if window.starts_with(b")") {
        TokenKind::RightParen
    } else if window.starts_with(b"$") {
        TokenKind::Dollar
    } else if window.starts_with(b",") {
        TokenKind::Comma
    } else if window.starts_with(b";") {
        TokenKind::Semicolon
    } else if window.starts_with(b":") {
        TokenKind::Colon
    } else {
        other
    };
    Place::Rest(kind, 0)
}

/// What a sign of one character is inside of, or one character of another kind of token.
fn enter_one(other: TokenKind, window: &[u8]) -> Place
    ensures { result ≡ enter_one other window.now }
{
    if window.starts_with(b".") {
        enter_dot(window)
    } else if window.starts_with(b"+") {
        Place::Rest(TokenKind::Plus, 0)
    } else if window.starts_with(b"-") || begins_minus(window) {
        Place::Rest(TokenKind::Minus, 0)
    } else if window.starts_with(b"*") {
        Place::Rest(TokenKind::Star, 0)
    } else if window.starts_with(b"/") {
        Place::Rest(TokenKind::Slash, 0)
    } else if window.starts_with(b"=") {
        Place::Rest(TokenKind::Eq, 0)
    } else if window.starts_with(b"<") {
        Place::Rest(TokenKind::Lt, 0)
    } else if window.starts_with(b">") {
        Place::Rest(TokenKind::Gt, 0)
    } else {
        enter_bracket(other, window)
    }
}

/// What a sign is inside of after its first character, or one character of another kind of token.
fn enter_operator_sign(other: TokenKind, window: &[u8]) -> Place
    ensures { result ≡ enter_operator_sign other window.now }
{
    if window.starts_with(b"==") {
        Place::Rest(TokenKind::EqEq, 1)
    } else if window.starts_with(b"!=") {
        Place::Rest(TokenKind::ExclEq, 1)
    } else if window.starts_with(b"<=") {
        Place::Rest(TokenKind::LtEq, 1)
    } else if window.starts_with(b">=") {
        Place::Rest(TokenKind::GtEq, 1)
    } else if window.starts_with(b"+=") {
        Place::Rest(TokenKind::PlusEq, 1)
    } else if window.starts_with(b"-=")
        || begins_minus(window) && behind(window, 3).starts_with(b"=")
    {
        Place::Rest(TokenKind::HyphEq, 1)
    } else if window.starts_with(b"*=") {
        Place::Rest(TokenKind::StarEq, 1)
    } else if window.starts_with(b"/=") {
        Place::Rest(TokenKind::SlashEq, 1)
    } else if window.starts_with(b"..") {
        Place::Rest(TokenKind::Dots, 1)
    } else if window.starts_with(b"=>") {
        Place::Rest(TokenKind::Arrow, 1)
    } else {
        enter_one(other, window)
    }
}

/// What a token of an expression is inside of after its first character.
fn enter_expression(before: Behind, window: &[u8]) -> Place
    ensures { result ≡ enter_expression before window.now }
{
    if window.starts_with(b"`") {
        Place::RawOpening(1)
    } else if is_label_start(window) {
        Place::Label
    } else if is_based(window) {
        Place::Based
    } else if begins_digit(window) {
        Place::Integer
    } else if is_fraction(window) {
        Place::Fraction
    } else if window.starts_with(b"\"") {
        Place::Str
    } else if !begins_name_start(window) {
        enter_operator_sign(TokenKind::InvalidCharacter, window)
    } else if is_field(before) {
        Place::FieldName
    } else {
        Place::Name
    }
}

/// What a name is inside of after its first character.
fn enter_name(before: Behind) -> Place
    ensures { result ≡ (if is_field before then Place.FieldName else Place.Name) }
{
    if is_field(before) {
        Place::FieldName
    } else {
        Place::Name
    }
}

/// What a token of code is inside of after its first character.
pub fn enter_code(before: Behind, window: &[u8]) -> Place
    ensures { result ≡ enter_code before window.now }
{
    if begins_ascii_name(window) {
        return enter_name(before);
    }
    if begins_bracket(window) {
        return enter_bracket(TokenKind::InvalidCharacter, window);
    }
    enter_code_by_rules(before, window)
}

/// The same by all rules.
fn enter_code_by_rules(before: Behind, window: &[u8]) -> Place
    ensures { result ≡ enter_code before window.now }
{
    if begins_space(window) {
        return Place::Blank;
    }
    match enter_comment(window) {
        None => enter_expression(before, window),
        Some(place) => place,
    }
}

/// Whether this name is next, and ends with it.
fn is_word_here(word: &[u8], window: &[u8]) -> bool
    ensures { result ≡ is_word_here word.now window.now }
{
    window.starts_with(word) && !begins_name_part(behind(window, word.len()))
}

/// What a keyword that may come where an operator may is inside of after its first character, or one character of
/// another token.
fn enter_word(window: &[u8]) -> Place
    ensures { result ≡ enter_word window.now }
{
    if is_word_here(b"not", window) {
        Place::Rest(TokenKind::Not, 2)
    } else if is_word_here(b"and", window) {
        Place::Rest(TokenKind::And, 2)
    } else if is_word_here(b"or", window) {
        Place::Rest(TokenKind::Or, 1)
    } else if is_word_here(b"in", window) {
        Place::Rest(TokenKind::In, 1)
    } else if is_word_here(b"if", window) {
        Place::Rest(TokenKind::If, 1)
    } else if is_word_here(b"else", window) {
        Place::Rest(TokenKind::Else, 3)
    } else if is_word_here(b"as", window) {
        Place::Rest(TokenKind::As, 1)
    } else {
        Place::Rest(TokenKind::Other, 0)
    }
}

/// What an operator is inside of after its first character, or one character of another token.
fn enter_operation(before: Behind, window: &[u8]) -> Place
    ensures { result ≡ enter_operation before window.now }
{
    if is_label_start(window) || begins_digit(window) || is_fraction(window) {
        Place::Rest(TokenKind::Other, 0)
    } else if !begins_name_start(window) {
        enter_operator_sign(TokenKind::Other, window)
    } else if is_field(before) {
        Place::Rest(TokenKind::Other, 0)
    } else {
        enter_word(window)
    }
}

/// What a token that begins a name is inside of after its first character, where only an operator may come.
fn enter_operator_name(before: Behind, window: &[u8]) -> Place
    ensures { result ≡ (if is_field before then Place.Rest TokenKind.Other 0 else enter_word window.now) }
{
    if is_field(before) {
        Place::Rest(TokenKind::Other, 0)
    } else {
        enter_word(window)
    }
}

/// What a token is inside of after its first character, where only an operator may come.
pub fn enter_operator(before: Behind, window: &[u8]) -> Place
    ensures { result ≡ enter_operator before window.now }
{
    if begins_ascii_name(window) {
        return enter_operator_name(before, window);
    }
    if begins_bracket(window) {
        return enter_bracket(TokenKind::Other, window);
    }
    enter_operator_by_rules(before, window)
}

/// The same by all rules.
fn enter_operator_by_rules(before: Behind, window: &[u8]) -> Place
    ensures { result ≡ enter_operator before window.now }
{
    if begins_space(window) {
        return Place::Blank;
    }
    match enter_comment(window) {
        None => enter_operation(before, window),
        Some(place) => place,
    }
}
