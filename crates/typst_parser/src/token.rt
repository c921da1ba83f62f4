//! What tokens become.
ghost use Rattle.std.specs.Prelude.{◌≡◌, ◌++◌, OnOk};
ghost use Rattle.typst_parser.specs.Tokens.{events_as, events_for, leaf_kind, mistake_of, unexpected_of};

use crate::class::fault_of;
use crate::event::Event;
use crate::fault::Fault;
use crate::raw::push_raw;
use std::alloc::{AllocError, Global};
use typst_base::SyntaxKind;
use typst_grammar::{Expectation, Take};
use typst_lexer::TokenKind;

/// The kind of the leaf that a token becomes. For a token that becomes no leaf it is `Text`.
#[inline(always)]
pub(crate) fn leaf_kind(kind: TokenKind) -> SyntaxKind
    ensures { result ≡ leaf_kind kind }
{
    match kind {
        TokenKind::Space => SyntaxKind::Space,
        TokenKind::Parbreak => SyntaxKind::Parbreak,
        TokenKind::LineComment => SyntaxKind::LineComment,
        TokenKind::BlockComment => SyntaxKind::BlockComment,
        TokenKind::Shebang => SyntaxKind::Shebang,
        TokenKind::Raw => SyntaxKind::Raw,
        TokenKind::Escape => SyntaxKind::Escape,
        TokenKind::Linebreak => SyntaxKind::Linebreak,
        TokenKind::Label => SyntaxKind::Label,
        TokenKind::Link => SyntaxKind::Link,
        TokenKind::RefMarker => SyntaxKind::RefMarker,
        TokenKind::Shorthand => SyntaxKind::Shorthand,
        TokenKind::SmartQuote => SyntaxKind::SmartQuote,
        TokenKind::HeadingMarker => SyntaxKind::HeadingMarker,
        TokenKind::ListMarker => SyntaxKind::ListMarker,
        TokenKind::EnumMarker => SyntaxKind::EnumMarker,
        TokenKind::TermMarker => SyntaxKind::TermMarker,
        TokenKind::Star => SyntaxKind::Star,
        TokenKind::Underscore | TokenKind::ArgumentBlank => SyntaxKind::Underscore,
        TokenKind::Hash => SyntaxKind::Hash,
        TokenKind::Dollar => SyntaxKind::Dollar,
        TokenKind::LeftBrace => SyntaxKind::LeftBrace,
        TokenKind::RightBrace => SyntaxKind::RightBrace,
        TokenKind::LeftBracket => SyntaxKind::LeftBracket,
        TokenKind::RightBracket => SyntaxKind::RightBracket,
        TokenKind::LeftParen => SyntaxKind::LeftParen,
        TokenKind::RightParen => SyntaxKind::RightParen,
        TokenKind::Comma => SyntaxKind::Comma,
        TokenKind::Semicolon => SyntaxKind::Semicolon,
        TokenKind::Colon => SyntaxKind::Colon,
        TokenKind::Dot | TokenKind::Field => SyntaxKind::Dot,
        TokenKind::Dots => SyntaxKind::Dots,
        TokenKind::Plus => SyntaxKind::Plus,
        TokenKind::Minus => SyntaxKind::Minus,
        TokenKind::Slash => SyntaxKind::Slash,
        TokenKind::Eq => SyntaxKind::Eq,
        TokenKind::EqEq => SyntaxKind::EqEq,
        TokenKind::ExclEq => SyntaxKind::ExclEq,
        TokenKind::Lt => SyntaxKind::Lt,
        TokenKind::LtEq => SyntaxKind::LtEq,
        TokenKind::Gt => SyntaxKind::Gt,
        TokenKind::GtEq => SyntaxKind::GtEq,
        TokenKind::PlusEq => SyntaxKind::PlusEq,
        TokenKind::HyphEq => SyntaxKind::HyphEq,
        TokenKind::StarEq => SyntaxKind::StarEq,
        TokenKind::SlashEq => SyntaxKind::SlashEq,
        TokenKind::Arrow => SyntaxKind::Arrow,
        TokenKind::Not => SyntaxKind::Not,
        TokenKind::And => SyntaxKind::And,
        TokenKind::Or => SyntaxKind::Or,
        TokenKind::None => SyntaxKind::None,
        TokenKind::Auto => SyntaxKind::Auto,
        TokenKind::Let => SyntaxKind::Let,
        TokenKind::Set => SyntaxKind::Set,
        TokenKind::Show => SyntaxKind::Show,
        TokenKind::Context => SyntaxKind::Context,
        TokenKind::If => SyntaxKind::If,
        TokenKind::Else => SyntaxKind::Else,
        TokenKind::For => SyntaxKind::For,
        TokenKind::In => SyntaxKind::In,
        TokenKind::While => SyntaxKind::While,
        TokenKind::Break => SyntaxKind::Break,
        TokenKind::Continue => SyntaxKind::Continue,
        TokenKind::Return => SyntaxKind::Return,
        TokenKind::Import => SyntaxKind::Import,
        TokenKind::Include => SyntaxKind::Include,
        TokenKind::As => SyntaxKind::As,
        TokenKind::Ident | TokenKind::ArgumentName => SyntaxKind::Ident,
        TokenKind::Bool => SyntaxKind::Bool,
        TokenKind::Int => SyntaxKind::Int,
        TokenKind::Float => SyntaxKind::Float,
        TokenKind::Numeric => SyntaxKind::Numeric,
        TokenKind::Str => SyntaxKind::Str,
        TokenKind::MathText | TokenKind::MathLetter | TokenKind::Opening | TokenKind::Closing =>
            SyntaxKind::MathText,
        TokenKind::MathIdent => SyntaxKind::MathIdent,
        TokenKind::MathShorthand | TokenKind::OpeningShorthand | TokenKind::ClosingShorthand =>
            SyntaxKind::MathShorthand,
        TokenKind::MathPrimes => SyntaxKind::MathPrimes,
        TokenKind::MathAlignPoint => SyntaxKind::MathAlignPoint,
        TokenKind::Hat => SyntaxKind::Hat,
        TokenKind::Bang => SyntaxKind::Bang,
        TokenKind::Root => SyntaxKind::Root,
        _ => SyntaxKind::Text,
    }
}

/// Why a token is an error that isn't expected.
fn unexpected_of(kind: TokenKind) -> Fault
    ensures { result ≡ unexpected_of kind }
{
    match fault_of(kind) {
        Some(fault) => fault,
        None => Fault::Unexpected(leaf_kind(kind)),
    }
}

/// Why a token is an error where something else is expected.
fn mistake_of(what: Expectation, kind: TokenKind) -> Fault
    ensures { result ≡ mistake_of what kind }
{
    match fault_of(kind) {
        Some(fault) => fault,
        None => Fault::Mistake(what, leaf_kind(kind)),
    }
}

/// Puts a token behind other events, as a leaf of this kind if it is a leaf.
fn push_as(
    alloc: Global,
    events: &mut Vec<Event>,
    leaf: SyntaxKind,
    kind: TokenKind,
    bytes: &[u8],
) -> Result<(), AllocError>
    ensures { OnOk result (events.new.items ≡ events.old.items ++ events_as leaf kind bytes.now) }
{
    let len = bytes.len();
    match (kind, fault_of(kind)) {
        (TokenKind::Raw, _) => push_raw(alloc, events, bytes)?,
        (_, Some(fault)) => events.push(Event::Error { fault, len })?,
        (_, None) => events.push(Event::Leaf { kind: leaf, len })?,
    }
    Ok(())
}

/// Puts a token behind other events, as a row says that takes it.
pub(crate) fn push_token(
    alloc: Global,
    events: &mut Vec<Event>,
    take: Take,
    kind: TokenKind,
    bytes: &[u8],
) -> Result<(), AllocError>
    ensures { OnOk result (events.new.items ≡ events.old.items ++ events_for take kind bytes.now) }
{
    let len = bytes.len();
    match take {
        Take::Nothing | Take::Eat => push_as(alloc, events, leaf_kind(kind), kind, bytes),
        Take::EatAs(leaf) => push_as(alloc, events, leaf, kind, bytes),
        Take::Unexpected => Ok(events.push(Event::Error {
            fault: unexpected_of(kind),
            len,
        })?),
        Take::Mistake(what) => Ok(events.push(Event::Error {
            fault: mistake_of(what, kind),
            len,
        })?),
    }
}
