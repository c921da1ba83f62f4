//! Tokens that bytes of ASCII decide at once: most tokens of a text. The machine isn't run for them.
ghost use Rattle.std.specs.Prelude.{true, false, ℕ, ◌≡◌, ◌≤◌, ◌&&◌, List, ◌∷◌, length, IfSome};
ghost use Rattle.std.specs.Char.{is_ascii_alphanumeric};
ghost use Rattle.typst_lexer.specs.declared.mode.Mode.{Mode};
ghost use Rattle.typst_lexer.specs.declared.place.Behind.{Behind};
ghost use Rattle.typst_lexer.specs.declared.token.TokenKind.{TokenKind};
ghost use Rattle.typst_lexer.specs.Bytes.{is_bracket};
ghost use Rattle.typst_lexer.specs.Code.{enter_bracket};
ghost use Rattle.typst_lexer.specs.Characters.{begins, is_name_start};
ghost use Rattle.typst_lexer.specs.Markup.{is_word};
ghost use Rattle.typst_lexer.specs.Letters.{is_letter};
ghost use Rattle.typst_lexer.specs.Quick.{IsQuick, Stops, is_no_word};
ghost use Rattle.typst_lexer.specs.Spaces.{is_markup};

use crate::bytes::{begins_letter, blanks, is_text_end, names, text_len};
use crate::characters::{begins_name_start, begins_white, is_name};
use crate::code::is_field;
use crate::markup::is_word;
use crate::mode::Mode;
use crate::names::{name_kind, plain_name};
use crate::place::{Behind, Place};
use crate::quick_math::{quick_of_argument, quick_of_math};
use crate::token::TokenKind;

/// What a token is and how many bytes it has, or 0 bytes where the machine decides.
#[derive(Clone, Copy)]
pub struct Quick {
    pub kind: TokenKind,
    pub len: usize,
}

/// Whether white space of code or math ends before these bytes in any case.
fn stops_space(bytes: &[u8]) -> bool
    ensures { result ≡ true → Stops Place.Blank bytes.now }
{
    match bytes {
        [] => true,
        [byte, ..] => byte.is_ascii_graphic(),
    }
}

/// The white space of code or math at the beginning, if its end is certain.
fn spaces(bytes: &[u8]) -> Quick
    ensures first { (mode : Mode) (before : Behind) → is_markup mode ≡ false
        → IsQuick mode before bytes.now result }
    ensures within { result.len ≤ length bytes.now }
{
    let len = blanks(bytes);
    let kind = TokenKind::Space;
    if stops_space(&bytes[len..]) {
        Quick { kind, len }
    } else {
        Quick { kind, len: 0 }
    }
}

/// Whether the byte is one of ASCII, but no letter and no digit.
pub fn is_no_word(byte: u8) -> bool
    ensures { result ≡ is_no_word byte }
{
    byte < 128 && !byte.is_ascii_alphanumeric()
}

/// Whether text ends before these bytes in any case.
fn stops_text(bytes: &[u8]) -> bool
    ensures { result ≡ true → Stops Place.Text bytes.now }
{
    match bytes {
        [] => true,
        [byte, next, ..] if *byte == b' ' => is_no_word(*next),
        [byte, ..] => is_text_end(*byte),
    }
}

/// The words at the beginning, if their end is certain. They begin with a letter.
fn words(bytes: &[u8]) -> Quick
    ensures first { (before : Behind) → begins is_letter bytes.now ≡ true
        → IsQuick Mode.Markup before bytes.now result }
    ensures within { result.len ≤ length bytes.now }
{
    let len = text_len(bytes);
    let kind = TokenKind::Text;
    if stops_text(&bytes[len..]) {
        Quick { kind, len }
    } else {
        Quick { kind, len: 0 }
    }
}

/// Whether a name ends before these bytes in any case.
fn stops_name(bytes: &[u8]) -> bool
    ensures name { result ≡ true → Stops Place.Name bytes.now }
    ensures field { result ≡ true → Stops Place.FieldName bytes.now }
{
    match bytes {
        [] => true,
        [byte, ..] => *byte < 128 && !is_name(*byte),
    }
}

/// The name at the beginning, if its end is certain. A keyword behind a dot is one.
fn quick_name(before: Behind, bytes: &[u8]) -> Quick
    ensures first { begins is_name_start bytes.now ≡ true → IsQuick Mode.Code before bytes.now result }
    ensures within { result.len ≤ length bytes.now }
{
    let len = names(bytes);
    let name = &bytes[..len];
    if is_field(before) {
        if stops_name(&bytes[len..]) {
            let kind = plain_name(name);
            return Quick { kind, len };
        }
    } else if stops_name(&bytes[len..]) {
        let kind = name_kind(name);
        return Quick { kind, len };
    }
    let kind = TokenKind::Ident;
    Quick { kind, len: 0 }
}

/// Whether a sign before the byte of ASCII is part of a word.
fn is_in_word(before: Behind, next: u8) -> bool
    ensures { result ≡ (is_word before && is_ascii_alphanumeric next) }
{
    is_word(before) && next.is_ascii_alphanumeric()
}

/// What a byte of markup is before another one, if it is a token by itself.
fn sign(before: Behind, byte: u8, next: u8) -> Option<TokenKind>
    ensures { IfSome result (λ kind. (rest : List ℕ)
        → IsQuick Mode.Markup before (byte ∷ next ∷ rest) (record { kind = kind; len = 1 })) }
{
    if next >= 128 {
        return None;
    }
    match byte {
        b' ' if next.is_ascii_graphic() => Some(TokenKind::Space),
        b'\n' if next.is_ascii_graphic() => Some(TokenKind::Space),
        b'*' if next != b'/' && !is_in_word(before, next) => Some(TokenKind::Star),
        b'_' if !is_in_word(before, next) => Some(TokenKind::Underscore),
        b'#' if next != b'!' => Some(TokenKind::Hash),
        b'[' => Some(TokenKind::LeftBracket),
        b']' => Some(TokenKind::RightBracket),
        b'$' => Some(TokenKind::Dollar),
        b':' => Some(TokenKind::Colon),
        b'\'' => Some(TokenKind::SmartQuote),
        b'"' => Some(TokenKind::SmartQuote),
        b'~' => Some(TokenKind::Shorthand),
        b'-' if next == b' ' => Some(TokenKind::ListMarker),
        b'+' if next == b' ' => Some(TokenKind::EnumMarker),
        b'=' if next == b' ' => Some(TokenKind::HeadingMarker),
        b'/' if next == b' ' => Some(TokenKind::TermMarker),
        _ => None,
    }
}

/// The paragraph break at the beginning, if it is two line feeds before a printed character of ASCII.
fn parbreak(bytes: &[u8]) -> Quick
    ensures first { (before : Behind) → IsQuick Mode.Markup before bytes.now result }
    ensures within { result.len ≤ length bytes.now }
{
    let kind = TokenKind::Parbreak;
    match bytes {
        [first, second, next, ..]
            if *first == b'\n' && *second == b'\n' && next.is_ascii_graphic() => {
            Quick { kind, len: 2 }
        }
        _ => Quick { kind, len: 0 },
    }
}

/// The sign or the white space of markup at the beginning, if it is quickly found.
fn quick_sign(before: Behind, bytes: &[u8]) -> Quick
    ensures first { IsQuick Mode.Markup before bytes.now result }
    ensures within { result.len ≤ length bytes.now }
{
    if let [byte, next, ..] = bytes {
        if let Some(kind) = sign(before, *byte, *next) {
            return Quick { kind, len: 1 };
        }
    }
    parbreak(bytes)
}

/// The token of markup at the beginning, if it is quickly found.
fn quick_of_markup(before: Behind, bytes: &[u8]) -> Quick
    ensures first { IsQuick Mode.Markup before bytes.now result }
    ensures within { result.len ≤ length bytes.now }
{
    if begins_letter(bytes) {
        words(bytes)
    } else {
        quick_sign(before, bytes)
    }
}

/// What a byte is in code, if it is a bracket or a sign that separates.
fn bracket(byte: u8) -> Option<TokenKind>
    ensures is { IfSome result (λ kind. is_bracket byte ≡ true) }
    ensures enters { IfSome result (λ kind. (other : TokenKind) (rest : List ℕ)
        → enter_bracket other (byte ∷ rest) ≡ Place.Rest kind 0) }
{
    match byte {
        b'{' => Some(TokenKind::LeftBrace),
        b'}' => Some(TokenKind::RightBrace),
        b'[' => Some(TokenKind::LeftBracket),
        b']' => Some(TokenKind::RightBracket),
        b'(' => Some(TokenKind::LeftParen),
        b')' => Some(TokenKind::RightParen),
        b'$' => Some(TokenKind::Dollar),
        b',' => Some(TokenKind::Comma),
        b';' => Some(TokenKind::Semicolon),
        b':' => Some(TokenKind::Colon),
        _ => None,
    }
}

/// Whether a token of one byte ends before these bytes in any case.
fn stops_sign(bytes: &[u8]) -> bool
    ensures { result ≡ true → (kind : TokenKind) → Stops (Place.Rest kind 0) bytes.now }
{
    match bytes {
        [] => true,
        [byte, ..] => *byte < 128,
    }
}

/// The bracket at the beginning, or the white space, if its end is certain.
fn quick_bracket(bytes: &[u8]) -> Quick
    ensures code { (before : Behind) → IsQuick Mode.Code before bytes.now result }
    ensures operator { (before : Behind) → IsQuick Mode.Operator before bytes.now result }
    ensures within { result.len ≤ length bytes.now }
{
    if let [byte, ..] = bytes {
        if let Some(kind) = bracket(*byte) {
            if stops_sign(&bytes[1..]) {
                return Quick { kind, len: 1 };
            }
        }
    }
    spaces(bytes)
}

/// The token of code at the beginning, if it is quickly found.
fn quick_of_code(before: Behind, bytes: &[u8]) -> Quick
    ensures first { IsQuick Mode.Code before bytes.now result }
    ensures within { result.len ≤ length bytes.now }
{
    if begins_name_start(bytes) {
        quick_name(before, bytes)
    } else {
        quick_bracket(bytes)
    }
}

/// What a byte is where only an operator may come, before a blank, if it is an operator.
fn operator(byte: u8) -> Option<TokenKind>
    ensures { IfSome result (λ kind. (before : Behind) (rest : List ℕ)
        → IsQuick Mode.Operator before (byte ∷ 32 ∷ rest) (record { kind = kind; len = 1 })) }
{
    match byte {
        b'=' => Some(TokenKind::Eq),
        b'+' => Some(TokenKind::Plus),
        b'-' => Some(TokenKind::Minus),
        b'*' => Some(TokenKind::Star),
        b'/' => Some(TokenKind::Slash),
        b'<' => Some(TokenKind::Lt),
        b'>' => Some(TokenKind::Gt),
        _ => None,
    }
}

/// The token at the beginning where only an operator may come, if it is quickly found.
fn quick_operator(bytes: &[u8]) -> Quick
    ensures first { (before : Behind) → IsQuick Mode.Operator before bytes.now result }
    ensures within { result.len ≤ length bytes.now }
{
    if let [byte, b' ', ..] = bytes {
        if let Some(kind) = operator(*byte) {
            return Quick { kind, len: 1 };
        }
    }
    quick_bracket(bytes)
}

/// The token at the beginning, if it is quickly found.
pub fn quick_token(mode: Mode, before: Behind, bytes: &[u8]) -> Quick
    ensures first { IsQuick mode before bytes.now result }
    ensures within { result.len ≤ length bytes.now }
{
    match mode {
        Mode::Markup => quick_of_markup(before, bytes),
        Mode::Code => quick_of_code(before, bytes),
        Mode::Operator => quick_operator(bytes),
        Mode::Math if !begins_white(bytes) => quick_of_math(bytes),
        Mode::Argument if !begins_white(bytes) => quick_of_argument(bytes),
        _ => spaces(bytes),
    }
}
