//! The classes of tokens, and why some are errors.
ghost use Rattle.std.specs.Prelude.{◌≡◌};
ghost use Rattle.typst_parser.specs.Classes.{class_of, fault_of};

use crate::fault::Fault;
use typst_grammar::Class;
use typst_lexer::TokenKind;

/// The class of a token.
pub(crate) fn class_of(kind: TokenKind) -> Class
    ensures { result ≡ class_of kind }
{
    match kind {
        TokenKind::Space
        | TokenKind::Parbreak
        | TokenKind::LineComment
        | TokenKind::BlockComment
        | TokenKind::Shebang
        | TokenKind::Link
        | TokenKind::Shorthand
        | TokenKind::SmartQuote
        | TokenKind::Text => Class::Text,
        TokenKind::Raw => Class::Raw,
        TokenKind::Escape => Class::Escape,
        TokenKind::Linebreak => Class::Linebreak,
        TokenKind::Label => Class::Label,
        TokenKind::Ref | TokenKind::RefMarker => Class::RefMarker,
        TokenKind::HeadingMarker => Class::HeadingMarker,
        TokenKind::ListMarker => Class::ListMarker,
        TokenKind::EnumMarker => Class::EnumMarker,
        TokenKind::TermMarker => Class::TermMarker,
        TokenKind::Star => Class::Star,
        TokenKind::Underscore => Class::Underscore,
        TokenKind::Hash => Class::Hash,
        TokenKind::Dollar => Class::Dollar,
        TokenKind::LeftBrace => Class::LeftBrace,
        TokenKind::RightBrace => Class::RightBrace,
        TokenKind::LeftBracket => Class::LeftBracket,
        TokenKind::RightBracket => Class::RightBracket,
        TokenKind::LeftParen => Class::LeftParen,
        TokenKind::RightParen => Class::RightParen,
        TokenKind::Comma => Class::Comma,
        TokenKind::Semicolon => Class::Semicolon,
        TokenKind::Colon => Class::Colon,
        TokenKind::Dot => Class::Dot,
        TokenKind::Field => Class::Field,
        TokenKind::Dots => Class::Dots,
        TokenKind::Plus | TokenKind::Minus => Class::Sign,
        TokenKind::Slash => Class::Slash,
        TokenKind::Eq => Class::Eq,
        TokenKind::EqEq
        | TokenKind::ExclEq
        | TokenKind::Lt
        | TokenKind::LtEq
        | TokenKind::Gt
        | TokenKind::GtEq => Class::Comparison,
        TokenKind::PlusEq | TokenKind::HyphEq | TokenKind::StarEq | TokenKind::SlashEq =>
            Class::Assignment,
        TokenKind::Arrow => Class::Arrow,
        TokenKind::Not => Class::Not,
        TokenKind::And => Class::And,
        TokenKind::Or => Class::Or,
        TokenKind::None | TokenKind::Auto => Class::Constant,
        TokenKind::Let => Class::Let,
        TokenKind::Set => Class::Set,
        TokenKind::Show => Class::Show,
        TokenKind::Context => Class::Context,
        TokenKind::If => Class::If,
        TokenKind::Else => Class::Else,
        TokenKind::For => Class::For,
        TokenKind::In => Class::In,
        TokenKind::While => Class::While,
        TokenKind::Break => Class::Break,
        TokenKind::Continue => Class::Continue,
        TokenKind::Return => Class::Return,
        TokenKind::Import => Class::Import,
        TokenKind::Include => Class::Include,
        TokenKind::As => Class::As,
        TokenKind::Ident => Class::Ident,
        TokenKind::Bool | TokenKind::Int | TokenKind::Float | TokenKind::Numeric => Class::Literal,
        TokenKind::Str => Class::Str,
        TokenKind::Other => Class::Other,
        TokenKind::MathText | TokenKind::MathShorthand | TokenKind::MathAlignPoint =>
            Class::MathText,
        TokenKind::MathLetter => Class::MathLetter,
        TokenKind::MathIdent => Class::MathIdent,
        TokenKind::OpeningShorthand | TokenKind::Opening => Class::Opening,
        TokenKind::ClosingShorthand | TokenKind::Closing => Class::Closing,
        TokenKind::MathPrimes => Class::MathPrimes,
        TokenKind::Hat => Class::Hat,
        TokenKind::Bang => Class::Bang,
        TokenKind::Root => Class::Root,
        TokenKind::ArgumentName => Class::ArgumentName,
        TokenKind::ArgumentBlank => Class::ArgumentBlank,
        TokenKind::UnexpectedCommentEnd
        | TokenKind::UnclosedRaw
        | TokenKind::UnclosedEscape
        | TokenKind::InvalidEscape
        | TokenKind::UnbalancedLink
        | TokenKind::UnclosedLabel
        | TokenKind::UnclosedStr
        | TokenKind::InvalidBinary
        | TokenKind::InvalidOctal
        | TokenKind::InvalidHexadecimal
        | TokenKind::SuffixedBinary
        | TokenKind::SuffixedOctal
        | TokenKind::SuffixedHexadecimal
        | TokenKind::InvalidFloat
        | TokenKind::InvalidSuffix
        | TokenKind::InvalidCharacter => Class::Error,
    }
}

/// Why a token is an error, if it is one.
#[inline(always)]
pub(crate) fn fault_of(kind: TokenKind) -> Option<Fault>
    ensures { result ≡ fault_of kind }
{
    match kind {
        TokenKind::UnexpectedCommentEnd => Some(Fault::CommentEnd),
        TokenKind::UnclosedRaw => Some(Fault::UnclosedRaw),
        TokenKind::UnclosedEscape => Some(Fault::UnclosedEscape),
        TokenKind::InvalidEscape => Some(Fault::InvalidEscape),
        TokenKind::UnbalancedLink => Some(Fault::UnbalancedLink),
        TokenKind::UnclosedLabel => Some(Fault::UnclosedLabel),
        TokenKind::UnclosedStr => Some(Fault::UnclosedStr),
        TokenKind::InvalidBinary => Some(Fault::InvalidBinary),
        TokenKind::InvalidOctal => Some(Fault::InvalidOctal),
        TokenKind::InvalidHexadecimal => Some(Fault::InvalidHexadecimal),
        TokenKind::SuffixedBinary => Some(Fault::SuffixedBinary),
        TokenKind::SuffixedOctal => Some(Fault::SuffixedOctal),
        TokenKind::SuffixedHexadecimal => Some(Fault::SuffixedHexadecimal),
        TokenKind::InvalidFloat => Some(Fault::InvalidFloat),
        TokenKind::InvalidSuffix => Some(Fault::InvalidSuffix),
        TokenKind::InvalidCharacter => Some(Fault::InvalidCharacter),
        _ => None,
    }
}
