//! Why an error is one.
use typst_base::SyntaxKind;
use typst_grammar::{Expectation, Unique};

/// Why an error is one.
#[derive(Clone, Copy, Debug, PartialEq, Eq)]
pub enum Fault {
    /// A token of this kind isn't expected.
    Unexpected(SyntaxKind),
    /// Something is missing.
    Expected(Expectation),
    /// Something else is expected than a tree of this kind.
    Mistake(Expectation, SyntaxKind),
    /// No delimiter closes a node.
    Unclosed,
    /// A frame that a token opens would be one too many.
    TooDeep,
    /// A node would have too many levels.
    TooTall,
    /// No row of the table takes a token.
    NoRow,
    /// A name comes again.
    Duplicate(Unique),
    /// Parameters have a second sink.
    SecondSink,
    /// A pattern has a second sink.
    SecondSinkOfPattern,
    /// `*/` outside of a block comment.
    CommentEnd,
    /// No backticks close raw text.
    UnclosedRaw,
    /// `\u{` and digits without a `}`.
    UnclosedEscape,
    /// `\u{..}` with digits that are no character's.
    InvalidEscape,
    /// A link with a bracket that isn't closed.
    UnbalancedLink,
    /// `<name` without the `>`.
    UnclosedLabel,
    /// No quote closes a string.
    UnclosedStr,
    /// A number that is no binary one after its `0b`.
    InvalidBinary,
    /// A number that is no octal one after its `0o`.
    InvalidOctal,
    /// A number that is no hexadecimal one after its `0x`.
    InvalidHexadecimal,
    /// A binary number with a unit.
    SuffixedBinary,
    /// An octal number with a unit.
    SuffixedOctal,
    /// A hexadecimal number with a unit.
    SuffixedHexadecimal,
    /// A number whose exponent has no digits.
    InvalidFloat,
    /// A number with letters that are no unit.
    InvalidSuffix,
    /// A character that isn't valid in code.
    InvalidCharacter,
}
