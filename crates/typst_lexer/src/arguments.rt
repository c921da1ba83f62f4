//! Tokens of math at the beginning of an argument.
ghost use Rattle.std.specs.Prelude.{◌≡◌};
ghost use Rattle.typst_lexer.specs.Arguments.{after_argument_name, argument_with, enter_argument, enter_name, enter_value, first_kind, is_colon_after, is_nothing, is_spread, stay_argument, stay_argument_name};

use crate::characters::behind;
use crate::classes::{begins_name_part, begins_space, first_char, is_name_part, is_name_start};
use crate::cluster::{Cluster, cluster_of, joins, with_char};
use crate::math::{after_char, char_kind, enter_formula, is_math_name, is_math_part};
use crate::place::Place;
use crate::shared::enter_comment;
use crate::token::TokenKind;

/// Whether a colon comes after the next character that begins neither `:=` nor `::=`.
fn is_colon_after(window: &[u8]) -> bool
    ensures { result ≡ is_colon_after window.now }
{
    let rest = after_char(window);
    rest.starts_with(b":") && !(rest.starts_with(b":=") || rest.starts_with(b"::="))
}

/// Whether nothing is next that `..` could spread.
fn is_nothing(window: &[u8]) -> bool
    ensures { result ≡ is_nothing window.now }
{
    match window {
        [] => true,
        [_, ..] => {
            begins_space(window)
                || window.starts_with(b",")
                || window.starts_with(b";")
                || window.starts_with(b")")
                || window.starts_with(b"$")
        }
    }
}

/// Whether `..` before the value of an argument is next.
fn is_spread(window: &[u8]) -> bool
    ensures { result ≡ is_spread window.now }
{
    window.starts_with(b"..") && !(window.starts_with(b"...") || is_nothing(behind(window, 2)))
}

/// The kind of the first character of a name, as a token of math by itself.
fn first_kind(c: char) -> TokenKind
    ensures { result ≡ first_kind c }
{
    if c == '_' {
        TokenKind::Underscore
    } else {
        char_kind(c)
    }
}

/// What a name that may be an argument's is inside of after its first character.
fn enter_name(c: char, window: &[u8]) -> Place
    ensures { result ≡ enter_name c window.now }
{
    if is_colon_after(window) {
        let kind = if c == '_' {
            TokenKind::ArgumentBlank
        } else {
            TokenKind::ArgumentName
        };
        Place::Rest(kind, 0)
    } else if is_math_name(window) {
        Place::ArgumentName(true, cluster_of(c))
    } else if begins_name_part(after_char(window)) {
        Place::ArgumentFirst(first_kind(c))
    } else {
        enter_formula(window)
    }
}

/// What the value or the name of an argument is inside of after its first character.
fn enter_value(window: &[u8]) -> Place
    ensures { result ≡ enter_value window.now }
{
    match first_char(window) {
        None => enter_formula(window),
        Some(c) => {
            if is_name_start(c) {
                enter_name(c, window)
            } else {
                enter_formula(window)
            }
        }
    }
}

/// What a token at the beginning of an argument is inside of after its first character.
pub fn enter_argument(window: &[u8]) -> Place
    ensures { result ≡ enter_argument window.now }
{
    if begins_space(window) {
        return Place::Blank;
    }
    if is_spread(window) {
        return Place::Rest(TokenKind::Dots, 1);
    }
    match enter_comment(window) {
        None => enter_value(window),
        Some(place) => place,
    }
}

/// What a name that can only be an argument's is inside of after one more character.
pub fn stay_argument(window: &[u8]) -> Option<Place>
    ensures { result ≡ stay_argument window.now }
{
    if !begins_name_part(window) {
        None
    } else if is_colon_after(window) {
        Some(Place::Rest(TokenKind::ArgumentName, 0))
    } else {
        Some(Place::ArgumentRest)
    }
}

/// What a name of math that may be an argument's is inside of after one more character of such a name.
fn argument_with(single: bool, cluster: Cluster, c: char) -> Place
    ensures { result ≡ argument_with single cluster c }
{
    if joins(cluster, c) {
        Place::ArgumentName(single, with_char(cluster, c))
    } else {
        Place::ArgumentName(false, cluster_of(c))
    }
}

/// What a name of math that may be an argument's is inside of after one more character of a name of code.
fn after_argument_name(single: bool, cluster: Cluster, c: char, window: &[u8]) -> Place
    ensures { result ≡ after_argument_name single cluster c window.now }
{
    if is_colon_after(window) {
        Place::Rest(TokenKind::ArgumentName, 0)
    } else if is_math_part(c) {
        argument_with(single, cluster, c)
    } else {
        Place::ArgumentRest
    }
}

/// What a name of math that may be an argument's is inside of after one more character.
pub fn stay_argument_name(single: bool, cluster: Cluster, window: &[u8]) -> Option<Place>
    ensures { result ≡ stay_argument_name single cluster window.now }
{
    match first_char(window) {
        None => None,
        Some(c) => {
            if is_name_part(c) {
                Some(after_argument_name(single, cluster, c, window))
            } else {
                None
            }
        }
    }
}
