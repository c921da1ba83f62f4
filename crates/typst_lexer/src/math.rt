//! Which token of math begins at a place, and how it goes on.
ghost use Rattle.std.specs.Prelude.{◌≡◌, ◌≤◌, ◌<◌};
ghost use Rattle.typst_lexer.specs.Classes.{begins_char};
ghost use Rattle.typst_lexer.specs.Math.{after_char, char_kind, char_len, dot_kind, enter_char, enter_first, enter_formula, enter_math, enter_math_sign, enter_shorthand, is_arrow_to_left, is_arrow_to_right, is_closing, is_math_field, is_math_name, is_math_part, is_math_start, is_opening, is_root, is_shorthand_of_four, is_shorthand_of_one, is_shorthand_of_three, is_shorthand_of_two, longer_kind, name_with, stay_cluster, stay_math_fraction, stay_math_name, stay_math_number, stay_primes};

use crate::bytes::begins_alone;
use crate::characters::{begins_alphanumeric as begins_ascii_alphanumeric, behind};
use crate::classes::{begins_numeric, begins_space, first_char};
use crate::cluster::{Cluster, cluster_of, joins, with_char};
use crate::place::Place;
use crate::shared::{enter_comment, enter_escape};
use crate::token::TokenKind;

/// Whether a name of math may begin with the character.
fn is_math_start(c: char) -> bool
    ensures { result ≡ is_math_start c }
{
    unicode_ident::is_xid_start(c)
}

/// Whether the character may be in a name of math.
pub fn is_math_part(c: char) -> bool
    ensures { result ≡ is_math_part c }
{
    unicode_ident::is_xid_continue(c) && c != '_'
}

/// Whether a character is next with which a name of math may begin.
fn begins_math_start(window: &[u8]) -> bool
    ensures { result ≡ begins_char is_math_start window.now }
{
    match first_char(window) {
        Some(c) => is_math_start(c),
        None => false,
    }
}

/// Whether a character is next that may be in a name of math.
fn begins_math_part(window: &[u8]) -> bool
    ensures { result ≡ begins_char is_math_part window.now }
{
    match first_char(window) {
        Some(c) => is_math_part(c),
        None => false,
    }
}

/// How many bytes the character has that begins with this byte.
fn char_len(byte: u8) -> usize
    ensures { result ≡ char_len byte }
{
    if byte < 128 {
        1
    } else if byte < 224 {
        2
    } else if byte < 240 {
        3
    } else {
        4
    }
}

/// The text after its first character.
pub fn after_char(window: &[u8]) -> &[u8]
    ensures { result.now ≡ after_char window.now }
{
    match window {
        [] => &[],
        [byte, ..] => behind(window, char_len(*byte)),
    }
}

/// Whether a shorthand of four characters is next.
fn is_shorthand_of_four(window: &[u8]) -> bool
    ensures { result ≡ is_shorthand_of_four window.now }
{
    window.starts_with(b"<-->") || window.starts_with(b"<==>")
}

/// Whether an arrow of three characters is next that begins with `<`.
fn is_arrow_to_left(window: &[u8]) -> bool
    ensures { result ≡ is_arrow_to_left window.now }
{
    window.starts_with(b"<--")
        || window.starts_with(b"<-<")
        || window.starts_with(b"<<-")
        || window.starts_with(b"<->")
        || window.starts_with(b"<~~")
        || window.starts_with(b"<==")
        || window.starts_with(b"<=>")
}

/// Whether another arrow of three characters is next.
fn is_arrow_to_right(window: &[u8]) -> bool
    ensures { result ≡ is_arrow_to_right window.now }
{
    window.starts_with(b"-->")
        || window.starts_with(b"|->")
        || window.starts_with(b">->")
        || window.starts_with(b"->>")
        || window.starts_with(b"~~>")
        || window.starts_with(b"|=>")
        || window.starts_with(b"==>")
}

/// Whether a shorthand of three characters is next.
fn is_shorthand_of_three(window: &[u8]) -> bool
    ensures { result ≡ is_shorthand_of_three window.now }
{
    window.starts_with(b"...")
        || window.starts_with(b"::=")
        || window.starts_with(b"<<<")
        || window.starts_with(b">>>")
        || is_arrow_to_left(window)
        || is_arrow_to_right(window)
}

/// Whether a shorthand of two characters is next that is no delimiter.
fn is_shorthand_of_two(window: &[u8]) -> bool
    ensures { result ≡ is_shorthand_of_two window.now }
{
    window.starts_with(b"!=")
        || window.starts_with(b":=")
        || window.starts_with(b"=:")
        || window.starts_with(b"<<")
        || window.starts_with(b">>")
        || window.starts_with(b"<=")
        || window.starts_with(b">=")
        || window.starts_with(b"->")
        || window.starts_with(b"<-")
        || window.starts_with(b"~>")
        || window.starts_with(b"<~")
        || window.starts_with(b"=>")
        || window.starts_with(b"||")
}

/// Whether a shorthand of one character is next.
fn is_shorthand_of_one(window: &[u8]) -> bool
    ensures { result ≡ is_shorthand_of_one window.now }
{
    window.starts_with(b"-") || window.starts_with(b"*") || window.starts_with(b"~")
}

/// Whether a sign for a root is next.
fn begins_root(window: &[u8]) -> bool
    ensures { result ≡ begins_char is_root window.now }
{
    match first_char(window) {
        Some(c) => c == '√' || c == '∛' || c == '∜',
        None => false,
    }
}

/// Whether the character opens, but is neither `(` nor `{`.
fn is_opening(c: char) -> bool
    ensures { result ≡ is_opening c }
{
    matches!(
        c,
        '[' | '⌈'
            | '⌊'
            | '⌜'
            | '⌞'
            | '⎰'
            | '❲'
            | '⟅'
            | '⟦'
            | '⟨'
            | '⟪'
            | '⟬'
            | '⟮'
            | '⦃'
            | '⦅'
            | '⦇'
            | '⦉'
            | '⦋'
            | '⦍'
            | '⦏'
            | '⦑'
            | '⦓'
            | '⦕'
            | '⦗'
            | '⧘'
            | '⧚'
            | '⧼'
    )
}

/// Whether the character closes, but is neither `)` nor `}`.
fn is_closing(c: char) -> bool
    ensures { result ≡ is_closing c }
{
    matches!(
        c,
        ']' | '⌉'
            | '⌋'
            | '⌝'
            | '⌟'
            | '⎱'
            | '❳'
            | '⟆'
            | '⟧'
            | '⟩'
            | '⟫'
            | '⟭'
            | '⟯'
            | '⦄'
            | '⦆'
            | '⦈'
            | '⦊'
            | '⦌'
            | '⦎'
            | '⦐'
            | '⦒'
            | '⦔'
            | '⦖'
            | '⦘'
            | '⧙'
            | '⧛'
            | '⧽'
    )
}

/// The kind of a token that is a single character.
pub fn char_kind(c: char) -> TokenKind
    ensures { result ≡ char_kind c }
{
    if c == '{' {
        TokenKind::LeftBrace
    } else if c == '}' {
        TokenKind::RightBrace
    } else if is_opening(c) {
        TokenKind::Opening
    } else if is_closing(c) {
        TokenKind::Closing
    } else if c.is_alphabetic() {
        TokenKind::MathLetter
    } else {
        TokenKind::MathText
    }
}

/// The kind of a token that began with such a character and has more.
fn longer_kind(kind: TokenKind) -> TokenKind
    ensures { result ≡ longer_kind kind }
{
    match kind {
        TokenKind::MathLetter => TokenKind::MathLetter,
        _ => TokenKind::MathText,
    }
}

/// What a token of one grapheme cluster is inside of after one more character.
pub fn stay_cluster(kind: TokenKind, cluster: Cluster, window: &[u8]) -> Option<Place>
    ensures { result ≡ stay_cluster kind cluster window.now }
{
    match first_char(window) {
        None => None,
        Some(c) => {
            if joins(cluster, c) {
                Some(Place::Cluster(longer_kind(kind), with_char(cluster, c)))
            } else {
                None
            }
        }
    }
}

/// What a name is inside of after one more character, given whether it is one grapheme cluster, and the last one of
/// its clusters.
fn name_with(single: bool, cluster: Cluster, c: char) -> Place
    ensures { result ≡ name_with single cluster c }
{
    if joins(cluster, c) {
        Place::MathName(single, with_char(cluster, c))
    } else {
        Place::MathName(false, cluster_of(c))
    }
}

/// Whether a dot directly before a name of math is next.
fn is_math_field(window: &[u8]) -> bool
    ensures { result ≡ is_math_field window.now }
{
    window.starts_with(b".") && begins_math_start(behind(window, 1))
}

/// The kind of a dot.
fn dot_kind(window: &[u8]) -> TokenKind
    ensures { result ≡ dot_kind window.now }
{
    if is_math_field(window) {
        TokenKind::Field
    } else {
        TokenKind::Dot
    }
}

/// What a name of math is inside of after one more character.
pub fn stay_math_name(single: bool, cluster: Cluster, window: &[u8]) -> Option<Place>
    ensures { result ≡ stay_math_name single cluster window.now }
{
    match first_char(window) {
        None => None,
        Some(c) => {
            if is_math_part(c) {
                Some(name_with(single, cluster, c))
            } else {
                None
            }
        }
    }
}

/// What a number of math is inside of after one more character.
pub fn stay_math_number(window: &[u8]) -> Option<Place>
    ensures { result ≡ stay_math_number window.now }
{
    if begins_numeric(window) {
        Some(Place::MathNumber)
    } else if window.starts_with(b".") && begins_numeric(behind(window, 1)) {
        Some(Place::MathFraction)
    } else {
        None
    }
}

/// What a number of math with a dot is inside of after one more character.
pub fn stay_math_fraction(window: &[u8]) -> Option<Place>
    ensures { result ≡ stay_math_fraction window.now }
{
    if begins_numeric(window) {
        Some(Place::MathFraction)
    } else {
        None
    }
}

/// What a run of primes is inside of after one more character.
pub fn stay_primes(window: &[u8]) -> Option<Place>
    ensures { result ≡ stay_primes window.now }
{
    if window.starts_with(b"'") {
        Some(Place::Primes)
    } else {
        None
    }
}

/// Whether a name is next, with another character of the name after the first one.
pub fn is_math_name(window: &[u8]) -> bool
    ensures { result ≡ is_math_name window.now }
{
    begins_math_start(window) && begins_math_part(after_char(window))
}

/// What a token is inside of after its first character, if it is a name, a number, or another character.
fn enter_char(c: char, window: &[u8]) -> Place
    ensures { result ≡ enter_char c window.now }
{
    if is_math_name(window) {
        Place::MathName(true, cluster_of(c))
    } else if c.is_numeric() {
        Place::MathNumber
    } else {
        Place::Cluster(char_kind(c), cluster_of(c))
    }
}

/// What a name, a number or another character that is next is inside of after its first character.
fn enter_first(window: &[u8]) -> Place
    ensures { result ≡ enter_first window.now }
{
    match first_char(window) {
        None => Place::Rest(TokenKind::MathText, 0),
        Some(c) => enter_char(c, window),
    }
}

/// What a token is inside of after its first character, if it is a sign, or no shorthand.
fn enter_math_sign(window: &[u8]) -> Place
    ensures { result ≡ enter_math_sign window.now }
{
    if begins_ascii_alphanumeric(window) {
        return enter_first(window);
    }
    enter_math_sign_by_rules(window)
}

/// The same by all rules.
fn enter_math_sign_by_rules(window: &[u8]) -> Place
    ensures { result ≡ enter_math_sign window.now }
{
    if window.starts_with(b".") {
        Place::Rest(dot_kind(window), 0)
    } else if window.starts_with(b",") {
        Place::Rest(TokenKind::Comma, 0)
    } else if window.starts_with(b";") {
        Place::Rest(TokenKind::Semicolon, 0)
    } else if window.starts_with(b"(") {
        Place::Rest(TokenKind::LeftParen, 0)
    } else if window.starts_with(b")") {
        Place::Rest(TokenKind::RightParen, 0)
    } else if window.starts_with(b"#") {
        Place::Rest(TokenKind::Hash, 0)
    } else if window.starts_with(b"_") {
        Place::Rest(TokenKind::Underscore, 0)
    } else if window.starts_with(b"$") {
        Place::Rest(TokenKind::Dollar, 0)
    } else if window.starts_with(b"/") {
        Place::Rest(TokenKind::Slash, 0)
    } else if window.starts_with(b"^") {
        Place::Rest(TokenKind::Hat, 0)
    } else if window.starts_with(b"&") {
        Place::Rest(TokenKind::MathAlignPoint, 0)
    } else if begins_root(window) {
        Place::Rest(TokenKind::Root, 0)
    } else if window.starts_with(b"!") {
        Place::Rest(TokenKind::Bang, 0)
    } else {
        enter_first(window)
    }
}

/// What a token is inside of after its first character, if it is a shorthand or a sign.
fn enter_shorthand(window: &[u8]) -> Place
    ensures { result ≡ enter_shorthand window.now }
{
    if begins_alone(window) {
        return enter_math_sign(window);
    }
    enter_shorthand_by_rules(window)
}

/// The same by all rules.
fn enter_shorthand_by_rules(window: &[u8]) -> Place
    ensures { result ≡ enter_shorthand window.now }
{
    if is_shorthand_of_four(window) {
        Place::Rest(TokenKind::MathShorthand, 3)
    } else if is_shorthand_of_three(window) {
        Place::Rest(TokenKind::MathShorthand, 2)
    } else if is_shorthand_of_two(window) {
        Place::Rest(TokenKind::MathShorthand, 1)
    } else if window.starts_with(b"[|") {
        Place::Rest(TokenKind::OpeningShorthand, 1)
    } else if window.starts_with(b"|]") {
        Place::Rest(TokenKind::ClosingShorthand, 1)
    } else if is_shorthand_of_one(window) {
        Place::Rest(TokenKind::MathShorthand, 0)
    } else {
        enter_math_sign(window)
    }
}

/// What a token of a formula is inside of after its first character.
pub fn enter_formula(window: &[u8]) -> Place
    ensures { result ≡ enter_formula window.now }
{
    if window.starts_with(b"\\") {
        enter_escape(window)
    } else if window.starts_with(b"\"") {
        Place::Str
    } else if window.starts_with(b"'") {
        Place::Primes
    } else {
        enter_shorthand(window)
    }
}

/// What a token of math is inside of after its first character.
pub fn enter_math(window: &[u8]) -> Place
    ensures { result ≡ enter_math window.now }
{
    if begins_space(window) {
        return Place::Blank;
    }
    match enter_comment(window) {
        None => enter_formula(window),
        Some(place) => place,
    }
}
