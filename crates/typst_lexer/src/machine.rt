//! The machine of the lexer: how a byte begins or continues a token.
ghost use Rattle.std.specs.Prelude.{◌≡◌, ◌<◌, ◌≤◌};
ghost use Rattle.typst_lexer.specs.Machine.{accepts, begin, behind_char, count_of, enter, is_dot, kind_of, may_end, reading, stay, stay_at, stay_inside};

use crate::arguments::{enter_argument, stay_argument, stay_argument_name};
use crate::bytes::{begins_undotted, behind_first};
use crate::characters::begins_inside_char;
use crate::classes::begins_wordy;
use crate::code::{
    after_exponent, enter_code, enter_operator, stay_based, stay_blank, stay_fraction,
    stay_integer, stay_letters, stay_name, stay_power, stay_sign, stay_string,
};
use crate::markup::{
    enter_markup, heading, stay_large, stay_link, stay_number, stay_ref, stay_space, stay_text,
};
use crate::math::{
    enter_math, stay_cluster, stay_math_fraction, stay_math_name, stay_math_number, stay_primes,
};
use crate::mode::Mode;
use crate::names::{name_kind, plain_name};
use crate::numbers::{based_kind, whole_kind};
use crate::place::{Behind, Place, Reading};
use crate::shared::{
    escape_kind, stay_comment, stay_escape, stay_label, stay_line, stay_mark, stay_opening,
    stay_raw,
};
use crate::token::TokenKind;

/// What a token is inside of after its first character.
pub fn enter(mode: Mode, before: Behind, window: &[u8]) -> Place
    ensures { result ≡ enter mode before window.now }
{
    match mode {
        Mode::Markup => enter_markup(before, window),
        Mode::Math => enter_math(window),
        Mode::Argument => enter_argument(window),
        Mode::Code => enter_code(before, window),
        Mode::Operator => enter_operator(before, window),
    }
}

/// What the token is inside of after one more character, if that still belongs to it.
fn stay_at(place: Place, window: &[u8]) -> Option<Place>
    requires { count_of place < usize.MAX }
    ensures { result ≡ stay_at place window.now }
{
    match place {
        Place::Space => stay_space(Place::Space, Place::Line, window),
        Place::Line => stay_space(Place::Line, Place::Parbreak, window),
        Place::Parbreak => stay_space(Place::Parbreak, Place::Parbreak, window),
        Place::LineComment => stay_line(Place::LineComment, window),
        Place::Shebang => stay_line(Place::Shebang, window),
        Place::BlockComment(depth) => Some(stay_comment(depth, window)),
        Place::CommentMark(depth) => Some(stay_mark(depth)),
        Place::RawOpening(n) => stay_opening(n, window),
        Place::RawText(n, run) => Some(stay_raw(n, run, window)),
        Place::EscapeDigits(left) => stay_escape(left, window),
        Place::EscapeEnd => None,
        Place::Link(brackets) => stay_link(brackets, window),
        Place::LinkMark(brackets) => stay_link(brackets, window),
        Place::Label => stay_label(window),
        Place::Ref => stay_ref(window),
        Place::RefMark => stay_ref(window),
        Place::Heading => Some(heading(window)),
        Place::EnumNumber(value) => stay_number(value, window),
        Place::LargeNumber => stay_large(window),
        Place::Text => stay_text(window),
        Place::Blank => stay_blank(window),
        Place::Integer => stay_integer(window),
        Place::Based => stay_based(window),
        Place::Fraction => stay_fraction(window),
        Place::Exponent => after_exponent(window),
        Place::ExponentSign => stay_sign(window),
        Place::Power => stay_power(window),
        Place::Letters(kind) => stay_letters(kind, window),
        Place::Str => Some(stay_string(window)),
        Place::StrEscape => Some(Place::Str),
        Place::Name => stay_name(Place::Name, window),
        Place::FieldName => stay_name(Place::FieldName, window),
        Place::Cluster(kind, cluster) => stay_cluster(kind, cluster, window),
        Place::MathName(single, cluster) => stay_math_name(single, cluster, window),
        Place::MathNumber => stay_math_number(window),
        Place::MathFraction => stay_math_fraction(window),
        Place::Primes => stay_primes(window),
        Place::ArgumentFirst(_) => stay_argument(window),
        Place::ArgumentName(single, cluster) => stay_argument_name(single, cluster, window),
        Place::ArgumentRest => stay_argument(window),
        Place::Rest(_, 0) => None,
        Place::Rest(kind, more) => Some(Place::Rest(kind, more - 1)),
    }
}

/// The kind of a token with this text that ends inside of this.
pub fn kind_of(place: Place, text: &[u8]) -> TokenKind
    ensures { result ≡ kind_of place text.now }
{
    match place {
        Place::Space => TokenKind::Space,
        Place::Line => TokenKind::Space,
        Place::Parbreak => TokenKind::Parbreak,
        Place::LineComment => TokenKind::LineComment,
        Place::Shebang => TokenKind::Shebang,
        Place::BlockComment(_) => TokenKind::BlockComment,
        Place::CommentMark(_) => TokenKind::BlockComment,
        Place::RawOpening(2) => TokenKind::Raw,
        Place::RawOpening(_) => TokenKind::UnclosedRaw,
        Place::RawText(_, _) => TokenKind::UnclosedRaw,
        Place::EscapeDigits(_) => TokenKind::UnclosedEscape,
        Place::EscapeEnd => escape_kind(text),
        Place::Link(0) | Place::LinkMark(0) => TokenKind::Link,
        Place::Link(_) | Place::LinkMark(_) => TokenKind::UnbalancedLink,
        Place::Label => TokenKind::UnclosedLabel,
        Place::Ref => TokenKind::RefMarker,
        Place::RefMark => TokenKind::RefMarker,
        Place::Heading => TokenKind::Text,
        Place::EnumNumber(_) => TokenKind::Text,
        Place::LargeNumber => TokenKind::Text,
        Place::Text => TokenKind::Text,
        Place::Blank => TokenKind::Space,
        Place::Integer => whole_kind(text),
        Place::Based => based_kind(text),
        Place::Fraction => TokenKind::Float,
        Place::Exponent => TokenKind::InvalidFloat,
        Place::ExponentSign => TokenKind::InvalidFloat,
        Place::Power => TokenKind::Float,
        Place::Letters(kind) => kind,
        Place::Str => TokenKind::UnclosedStr,
        Place::StrEscape => TokenKind::UnclosedStr,
        Place::Name => name_kind(text),
        Place::FieldName => plain_name(text),
        Place::Cluster(kind, _) => kind,
        Place::MathName(true, _) => TokenKind::MathLetter,
        Place::MathName(false, _) => TokenKind::MathIdent,
        Place::MathNumber => TokenKind::MathText,
        Place::MathFraction => TokenKind::MathText,
        Place::Primes => TokenKind::MathPrimes,
        Place::ArgumentFirst(kind) => kind,
        Place::ArgumentName(true, _) => TokenKind::MathLetter,
        Place::ArgumentName(false, _) => TokenKind::MathIdent,
        Place::ArgumentRest => TokenKind::ArgumentName,
        Place::Rest(kind, _) => kind,
    }
}

/// Whether a token may end inside of this.
fn may_end(place: Place) -> bool
    ensures { result ≡ may_end place }
{
    !matches!(
        place,
        Place::LinkMark(_) | Place::RefMark | Place::ArgumentRest
    )
}

/// Whether a token may end in the state.
pub fn accepts(state: Reading) -> bool
    ensures { result ≡ accepts state }
{
    may_end(state.place)
}

/// Whether there is a dot before the place.
fn is_dot(behind: Behind) -> bool
    ensures { result ≡ is_dot behind }
{
    matches!(behind, Behind::Dot | Behind::Dots)
}

/// What is directly before the place after the first character, by all rules.
fn behind_by_rules(before: Behind, window: &[u8]) -> Behind
    ensures { result ≡ behind_char before window.now }
{
    if window.starts_with(b".") {
        if is_dot(before) {
            Behind::Dots
        } else {
            Behind::Dot
        }
    } else if window.starts_with(b"@") {
        Behind::At
    } else if begins_wordy(window) {
        Behind::Word
    } else {
        Behind::Other
    }
}

/// What is directly before the place after the first character.
fn behind_char(before: Behind, window: &[u8]) -> Behind
    ensures { result ≡ behind_char before window.now }
{
    if begins_undotted(window) {
        return behind_first(window);
    }
    behind_by_rules(before, window)
}

/// The state after a byte.
fn reading(place: Place, before: Behind, window: &[u8]) -> Reading
    ensures { result ≡ reading place before window.now }
{
    let behind = if begins_inside_char(window) {
        before
    } else {
        behind_char(before, window)
    };
    Reading { place, behind }
}

/// The state after a byte that begins a token.
pub fn begin(mode: Mode, before: Behind, window: &[u8]) -> Reading
    ensures { result ≡ begin mode before window.now }
{
    reading(enter(mode, before, window), before, window)
}

/// The state after one more byte, or `None` if the byte belongs to the next token.
pub fn stay(state: Reading, window: &[u8]) -> Option<Reading>
    requires { count_of state.place < usize.MAX }
    ensures { result ≡ stay state window.now }
{
    let place = if begins_inside_char(window) {
        state.place
    } else {
        stay_at(state.place, window)?
    };
    Some(reading(place, state.behind, window))
}
