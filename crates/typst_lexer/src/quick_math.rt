//! Tokens of math that bytes of ASCII decide at once. The machine isn't run for them.
ghost use Rattle.std.specs.Prelude.{Bool, true, ℕ, ◌≡◌, ◌≤◌, List, ◌∷◌, length, IfSome};
ghost use Rattle.std.specs.Char.{is_ascii_alphabetic, is_ascii_alphanumeric, is_ascii_digit};
ghost use Rattle.std.specs.List.{take_while};
ghost use Rattle.typst_lexer.specs.declared.cluster.Cluster.{Cluster};
ghost use Rattle.typst_lexer.specs.declared.mode.Mode.{Mode};
ghost use Rattle.typst_lexer.specs.declared.place.Behind.{Behind};
ghost use Rattle.typst_lexer.specs.declared.token.TokenKind.{TokenKind};
ghost use Rattle.typst_lexer.specs.Arguments.{enter_argument};
ghost use Rattle.typst_lexer.specs.Bytes.{is_other};
ghost use Rattle.typst_lexer.specs.Characters.{begins};
ghost use Rattle.typst_lexer.specs.Math.{enter_math};
ghost use Rattle.typst_lexer.specs.Quick.{IsQuick, Stops};

use crate::bytes::is_alone;
use crate::characters::{is_name, is_name_start};
use crate::place::Place;
use crate::quick::{Quick, is_no_word};
use crate::token::TokenKind;

/// What a byte is in math before another one, if it is a sign that is a token by itself.
fn sign(byte: u8, next: u8) -> Option<TokenKind>
    ensures { IfSome result (λ kind. (before : Behind) (rest : List ℕ)
        → IsQuick Mode.Math before (byte ∷ next ∷ rest) (record { kind = kind; len = 1 })) }
{
    if next >= 128 {
        return None;
    }
    match byte {
        b',' => Some(TokenKind::Comma),
        b';' => Some(TokenKind::Semicolon),
        b'(' => Some(TokenKind::LeftParen),
        b')' => Some(TokenKind::RightParen),
        b'{' => Some(TokenKind::LeftBrace),
        b'}' => Some(TokenKind::RightBrace),
        b'#' => Some(TokenKind::Hash),
        b'$' => Some(TokenKind::Dollar),
        b'_' => Some(TokenKind::Underscore),
        b'^' => Some(TokenKind::Hat),
        b'&' => Some(TokenKind::MathAlignPoint),
        b']' => Some(TokenKind::Closing),
        b'[' if next != b'|' => Some(TokenKind::Opening),
        b'!' if next != b'=' => Some(TokenKind::Bang),
        b'/' if next != b'/' && next != b'*' => Some(TokenKind::Slash),
        b'*' if next != b'/' => Some(TokenKind::MathShorthand),
        b'-' if next != b'-' && next != b'>' => Some(TokenKind::MathShorthand),
        b'~' if next != b'~' && next != b'>' => Some(TokenKind::MathShorthand),
        b'%' => Some(TokenKind::MathText),
        b'+' => Some(TokenKind::MathText),
        b'?' => Some(TokenKind::MathText),
        b'@' => Some(TokenKind::MathText),
        b'`' => Some(TokenKind::MathText),
        b':' if is_alone(next) => Some(TokenKind::MathText),
        b'<' if is_alone(next) => Some(TokenKind::MathText),
        b'=' if is_alone(next) => Some(TokenKind::MathText),
        b'>' if is_alone(next) => Some(TokenKind::MathText),
        b'|' if is_alone(next) && next != b']' => Some(TokenKind::MathText),
        _ => None,
    }
}

/// How many bytes from the front are letters and digits of ASCII.
fn word_len(bytes: &[u8]) -> usize
    ensures value { result ≡ length (take_while is_ascii_alphanumeric bytes.now) }
    ensures within { result ≤ length bytes.now }
{
    bytes
        .iter()
        .take_while(|byte| byte.is_ascii_alphanumeric())
        .count()
}

/// Whether a letter and a name of math end before these bytes in any case.
fn stops_word(bytes: &[u8]) -> bool
    ensures letter { result ≡ true → (kind : TokenKind) (cluster : Cluster) → is_other cluster.last ≡ true
        → Stops (Place.Cluster kind cluster) bytes.now }
    ensures name { result ≡ true → (single : Bool) (cluster : Cluster)
        → Stops (Place.MathName single cluster) bytes.now }
{
    match bytes {
        [] => true,
        [byte, ..] => is_no_word(*byte),
    }
}

/// The letter or the name at the beginning, if its end is certain.
fn quick_word(bytes: &[u8]) -> Quick
    ensures first { (before : Behind) → begins is_ascii_alphabetic bytes.now ≡ true
        → IsQuick Mode.Math before bytes.now result }
    ensures within { result.len ≤ length bytes.now }
{
    let len = word_len(bytes);
    let kind = if len == 1 {
        TokenKind::MathLetter
    } else {
        TokenKind::MathIdent
    };
    if stops_word(&bytes[len..]) {
        Quick { kind, len }
    } else {
        Quick { kind, len: 0 }
    }
}

/// How many bytes from the front are digits of ASCII.
fn digit_len(bytes: &[u8]) -> usize
    ensures value { result ≡ length (take_while is_ascii_digit bytes.now) }
    ensures within { result ≤ length bytes.now }
{
    bytes
        .iter()
        .take_while(|byte| byte.is_ascii_digit())
        .count()
}

/// Whether a number of math ends before these bytes in any case.
fn stops_number(bytes: &[u8]) -> bool
    ensures { result ≡ true → Stops Place.MathNumber bytes.now }
{
    match bytes {
        [] => true,
        [byte, ..] => *byte < 128 && !(byte.is_ascii_digit() || *byte == b'.'),
    }
}

/// The number at the beginning, if it is one of digits and its end is certain.
fn quick_number(bytes: &[u8]) -> Quick
    ensures first { (before : Behind) → begins is_ascii_digit bytes.now ≡ true
        → IsQuick Mode.Math before bytes.now result }
    ensures within { result.len ≤ length bytes.now }
{
    let len = digit_len(bytes);
    let kind = TokenKind::MathText;
    if stops_number(&bytes[len..]) {
        Quick { kind, len }
    } else {
        Quick { kind, len: 0 }
    }
}

/// The sign at the beginning, if it is quickly found.
fn quick_sign(bytes: &[u8]) -> Quick
    ensures first { (before : Behind) → IsQuick Mode.Math before bytes.now result }
    ensures within { result.len ≤ length bytes.now }
{
    if let [byte, next, ..] = bytes {
        if let Some(kind) = sign(*byte, *next) {
            return Quick { kind, len: 1 };
        }
    }
    Quick {
        kind: TokenKind::MathText,
        len: 0,
    }
}

/// The token of math at the beginning, if it is quickly found.
#[tactic(auto, using(crate::proofs::QuickMath::begins_first))]
pub fn quick_of_math(bytes: &[u8]) -> Quick
    ensures first { (before : Behind) → IsQuick Mode.Math before bytes.now result }
    ensures within { result.len ≤ length bytes.now }
{
    match bytes {
        [byte, ..] if byte.is_ascii_alphabetic() => quick_word(bytes),
        [byte, ..] if byte.is_ascii_digit() => quick_number(bytes),
        _ => quick_sign(bytes),
    }
}

/// Whether the token at the beginning of an argument is that of math: no name of an argument and no `..` begins here.
fn is_nameless(byte: u8, next: u8) -> bool
    ensures { result ≡ true → (rest : List ℕ)
        → enter_argument (byte ∷ next ∷ rest) ≡ enter_math (byte ∷ next ∷ rest) }
{
    if byte >= 128 || byte == b'.' {
        return false;
    }
    if !is_name_start(byte) {
        return true;
    }
    if next >= 128 || is_name(next) {
        return false;
    }
    next != b':'
}

/// The token at the beginning of an argument of math, if it is quickly found and no name of an argument may begin there.
#[tactic(auto, using(crate::proofs::QuickArguments::argument_found))]
pub fn quick_of_argument(bytes: &[u8]) -> Quick
    ensures first { (before : Behind) → IsQuick Mode.Argument before bytes.now result }
    ensures within { result.len ≤ length bytes.now }
{
    match bytes {
        [byte, next, ..] if is_nameless(*byte, *next) => quick_of_math(bytes),
        _ => Quick {
            kind: TokenKind::MathText,
            len: 0,
        },
    }
}
