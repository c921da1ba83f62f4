//! Where in a token a byte is.

use crate::cluster::Cluster;
use crate::token::TokenKind;

/// What a token is inside of after some of its bytes.
#[derive(Clone, Copy)]
pub enum Place {
    /// White space of markup with no newline yet.
    Space,
    /// White space of markup with one newline.
    Line,
    /// White space of markup with two newlines or more.
    Parbreak,
    /// A comment up to the end of the line.
    LineComment,
    /// `#!` at the beginning, up to the end of the line.
    Shebang,
    /// A block comment, with the number of comments that are open.
    BlockComment(usize),
    /// A block comment after the first byte of a `/*` or `*/`, with the number of comments that are open after the
    /// second byte.
    CommentMark(usize),
    /// The opening run of backticks, with the number of those that have come.
    RawOpening(usize),
    /// Raw text, with the number of backticks that opened it, and the length of the run of backticks before this place.
    RawText(usize, usize),
    /// `\u{` and what follows, with the number of characters that are left of `\u{`.
    EscapeDigits(u8),
    /// `\u{..}` with its end.
    EscapeEnd,
    /// A link, with its open brackets: 0 for none, and after another bracket twice the number before and 1 for `(`, 2
    /// for `[`.
    Link(u64),
    /// A link after a character that it doesn't end with, with its open brackets.
    LinkMark(u64),
    /// A label before its `>`.
    Label,
    /// A reference.
    Ref,
    /// A reference after a character that it doesn't end with.
    RefMark,
    /// A heading's marker before a further `=`.
    Heading,
    /// Digits that an enum's marker may begin with, with their number.
    EnumNumber(u64),
    /// Digits whose number is too large for an enum's marker.
    LargeNumber,
    /// Text.
    Text,
    /// White space of code or math.
    Blank,
    /// Digits of a number that has no dot yet.
    Integer,
    /// A number that begins with `0b`, `0o` or `0x`.
    Based,
    /// A number with a dot.
    Fraction,
    /// A number after the letter of its exponent.
    Exponent,
    /// A number after the sign of its exponent.
    ExponentSign,
    /// A number with digits of an exponent.
    Power,
    /// The letters of a number that is of this kind.
    Letters(TokenKind),
    /// A string before the quote that ends it.
    Str,
    /// A string after a backslash.
    StrEscape,
    /// A name that may be a keyword.
    Name,
    /// A name that is no keyword, whatever it is.
    FieldName,
    /// A token of math that is one grapheme cluster, with its kind and the cluster.
    Cluster(TokenKind, Cluster),
    /// A name of math, with whether it is one grapheme cluster, and the last one of its clusters.
    MathName(bool, Cluster),
    /// A number of math that has no dot yet.
    MathNumber,
    /// A number of math with a dot.
    MathFraction,
    /// A run of primes.
    Primes,
    /// The first character of a name that may be an argument's, which is a token of this kind by itself.
    ArgumentFirst(TokenKind),
    /// A name that may be an argument's, and is a name of math as in `MathName`.
    ArgumentName(bool, Cluster),
    /// A name that can only be an argument's, before its end.
    ArgumentRest,
    /// A token of this kind, with the number of characters that are left of it.
    Rest(TokenKind, u8),
}

/// What is directly before a place, as far as the next token depends on it.
#[derive(Clone, Copy, Debug, PartialEq, Eq, Hash)]
pub enum Behind {
    /// Nothing: the place is at the text's beginning.
    Start,
    /// A wordy character: a letter or a number of a script that puts spaces between words.
    Word,
    /// A dot that no dot is before.
    Dot,
    /// A dot after a dot.
    Dots,
    /// `@`.
    At,
    /// Any other character.
    Other,
}

/// The state of the machine after a byte.
#[derive(Clone, Copy)]
pub struct Reading {
    /// What the token is inside of.
    pub place: Place,
    /// What is directly before the next byte.
    pub behind: Behind,
}
