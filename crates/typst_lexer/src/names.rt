//! What names of code are, by their texts.
ghost use Rattle.std.specs.Prelude.{false, ◌≡◌};
ghost use Rattle.std.specs.Str.{bytes_eq};
ghost use Rattle.typst_lexer.specs.Names.{name_kind, plain_name, statement_kind};

use crate::token::TokenKind;

/// Whether the name is this one.
pub fn is(name: &[u8], other: &[u8]) -> bool
    ensures { result ≡ bytes_eq name.now other.now }
{
    name == other
}

/// The kind of a name that is no keyword.
pub fn plain_name(name: &[u8]) -> TokenKind
    ensures { result ≡ plain_name name.now }
{
    if is(name, b"_") {
        TokenKind::Underscore
    } else {
        TokenKind::Ident
    }
}

/// The kind of a name that may begin a statement or a loop.
fn statement_kind(name: &[u8]) -> TokenKind
    ensures { result ≡ statement_kind name.now }
{
    if is(name, b"let") {
        TokenKind::Let
    } else if is(name, b"set") {
        TokenKind::Set
    } else if is(name, b"show") {
        TokenKind::Show
    } else if is(name, b"context") {
        TokenKind::Context
    } else if is(name, b"for") {
        TokenKind::For
    } else if is(name, b"while") {
        TokenKind::While
    } else if is(name, b"break") {
        TokenKind::Break
    } else if is(name, b"continue") {
        TokenKind::Continue
    } else if is(name, b"return") {
        TokenKind::Return
    } else if is(name, b"import") {
        TokenKind::Import
    } else if is(name, b"include") {
        TokenKind::Include
    } else {
        plain_name(name)
    }
}

/// Whether a keyword has as many bytes and this first one.
#[tactic(auto, using(crate::proofs::Keywords::none_of_2, crate::proofs::Keywords::none_of_3, crate::proofs::Keywords::none_of_4, crate::proofs::Keywords::none_of_5, crate::proofs::Keywords::none_of_6, crate::proofs::Keywords::none_of_7, crate::proofs::Keywords::none_of_8, crate::proofs::Keywords::none_longer))]
fn is_like_keyword(name: &[u8]) -> bool
    ensures { result ≡ false → name_kind name.now ≡ plain_name name.now }
{
    let [first, ..] = name else {
        return false;
    };
    match name.len() {
        2 => matches!(first, b'a' | b'i' | b'o'),
        3 => matches!(first, b'a' | b'f' | b'l' | b'n' | b's'),
        4 => matches!(first, b'a' | b'e' | b'n' | b's' | b't'),
        5 => matches!(first, b'b' | b'f' | b'w'),
        6 => matches!(first, b'i' | b'r'),
        7 => matches!(first, b'c' | b'i'),
        8 => *first == b'c',
        _ => false,
    }
}

/// The kind of a name that may be a keyword. Most names have another length or first letter than each keyword.
pub fn name_kind(name: &[u8]) -> TokenKind
    ensures { result ≡ name_kind name.now }
{
    if !is_like_keyword(name) {
        return plain_name(name);
    }
    if is(name, b"not") {
        TokenKind::Not
    } else if is(name, b"and") {
        TokenKind::And
    } else if is(name, b"or") {
        TokenKind::Or
    } else if is(name, b"none") {
        TokenKind::None
    } else if is(name, b"auto") {
        TokenKind::Auto
    } else if is(name, b"true") || is(name, b"false") {
        TokenKind::Bool
    } else if is(name, b"if") {
        TokenKind::If
    } else if is(name, b"else") {
        TokenKind::Else
    } else if is(name, b"in") {
        TokenKind::In
    } else if is(name, b"as") {
        TokenKind::As
    } else {
        statement_kind(name)
    }
}
