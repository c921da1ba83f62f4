//! Tokens, of all modes.

/// What a token is.
#[derive(Clone, Copy, Debug, PartialEq, Eq, Hash)]
pub enum TokenKind {
    /// White space; in markup with less than two newlines.
    Space,
    /// White space of markup with two newlines or more.
    Parbreak,
    /// `//` up to the end of the line, without its newline.
    LineComment,
    /// `/*` up to the `*/` that closes it, or to the end of the text.
    BlockComment,
    /// `#!` at the very beginning, up to the end of the line.
    Shebang,
    /// Raw text with its backticks.
    Raw,
    /// A backslash and a character, or `\u{..}` with the digits of a character.
    Escape,
    /// A backslash before white space or the end.
    Linebreak,
    /// `<name>`.
    Label,
    /// `http://` or `https://` and what follows.
    Link,
    /// `@name`.
    Ref,
    /// `@name`.
    RefMarker,
    /// `...`, `---`, `--`, `-?`, `~`, or a minus before a digit.
    Shorthand,
    /// `'` or `"`.
    SmartQuote,
    /// One `=` or more before a blank.
    HeadingMarker,
    /// `-` before a blank.
    ListMarker,
    /// `+`, or digits and a dot, before a blank.
    EnumMarker,
    /// `/` before a blank.
    TermMarker,
    /// Any other text.
    Text,
    /// `*`; in markup unless it is within a word.
    Star,
    /// `_`; in markup unless it is within a word.
    Underscore,
    /// `#`.
    Hash,
    /// `$`.
    Dollar,
    /// `{`.
    LeftBrace,
    /// `}`.
    RightBrace,
    /// `[`.
    LeftBracket,
    /// `]`.
    RightBracket,
    /// `(`.
    LeftParen,
    /// `)`.
    RightParen,
    /// `,`.
    Comma,
    /// `;`.
    Semicolon,
    /// `:`.
    Colon,
    /// A dot, but not directly before the name of a field.
    Dot,
    /// A dot directly before the name of a field: in code a name but `_` alone, in math a name of math.
    Field,
    /// `..`.
    Dots,
    /// `+`.
    Plus,
    /// `-`.
    Minus,
    /// `/`.
    Slash,
    /// `=`.
    Eq,
    /// `==`.
    EqEq,
    /// `!=`.
    ExclEq,
    /// `<`.
    Lt,
    /// `<=`.
    LtEq,
    /// `>`.
    Gt,
    /// `>=`.
    GtEq,
    /// `+=`.
    PlusEq,
    /// `-=`.
    HyphEq,
    /// `*=`.
    StarEq,
    /// `/=`.
    SlashEq,
    /// `=>`.
    Arrow,
    /// The keyword `not`.
    Not,
    /// The keyword `and`.
    And,
    /// The keyword `or`.
    Or,
    /// The keyword `none`.
    None,
    /// The keyword `auto`.
    Auto,
    /// The keyword `let`.
    Let,
    /// The keyword `set`.
    Set,
    /// The keyword `show`.
    Show,
    /// The keyword `context`.
    Context,
    /// The keyword `if`.
    If,
    /// The keyword `else`.
    Else,
    /// The keyword `for`.
    For,
    /// The keyword `in`.
    In,
    /// The keyword `while`.
    While,
    /// The keyword `break`.
    Break,
    /// The keyword `continue`.
    Continue,
    /// The keyword `return`.
    Return,
    /// The keyword `import`.
    Import,
    /// The keyword `include`.
    Include,
    /// The keyword `as`.
    As,
    /// A name of code.
    Ident,
    /// `true` or `false`.
    Bool,
    /// A whole number.
    Int,
    /// A number with a dot or an exponent, or a whole number past the largest one.
    Float,
    /// A number with a unit.
    Numeric,
    /// A string with its quotes.
    Str,
    /// What no operator begins, where only an operator may come: one character.
    Other,
    /// Text of math that is no letter: a number or a sign.
    MathText,
    /// A letter of math.
    MathLetter,
    /// A name of math, which has more than one letter.
    MathIdent,
    /// A shorthand of math, but neither `[|` nor `|]`.
    MathShorthand,
    /// `[|`, which opens as a delimiter of math.
    OpeningShorthand,
    /// `|]`, which closes as a delimiter of math.
    ClosingShorthand,
    /// A character of math that opens, but neither `(` nor `{`.
    Opening,
    /// A character of math that closes, but neither `)` nor `}`.
    Closing,
    /// One `'` or more.
    MathPrimes,
    /// `&`.
    MathAlignPoint,
    /// `^`.
    Hat,
    /// `!`.
    Bang,
    /// `√`, `∛` or `∜`.
    Root,
    /// The name of an argument of math, directly before its colon.
    ArgumentName,
    /// `_` in place of such a name.
    ArgumentBlank,
    /// `*/` outside of a block comment.
    UnexpectedCommentEnd,
    /// Raw text that no backticks close: the rest of the text.
    UnclosedRaw,
    /// `\u{` and digits without a `}`.
    UnclosedEscape,
    /// `\u{..}` with digits that are no character's.
    InvalidEscape,
    /// A link with a bracket that isn't closed.
    UnbalancedLink,
    /// `<name` without the `>`.
    UnclosedLabel,
    /// A string that no quote closes: the rest of the text.
    UnclosedStr,
    /// A number that is no binary one after its `0b`.
    InvalidBinary,
    /// A number that is no octal one after its `0o`.
    InvalidOctal,
    /// A number that is no hexadecimal one after its `0x`.
    InvalidHexadecimal,
    /// A binary number with a unit.
    SuffixedBinary,
    /// An octal number with a unit.
    SuffixedOctal,
    /// A hexadecimal number with a unit.
    SuffixedHexadecimal,
    /// A number whose exponent has no digits.
    InvalidFloat,
    /// A number with letters that are no unit.
    InvalidSuffix,
    /// A character that isn't valid in code.
    InvalidCharacter,
}

/// A token and its text.
#[derive(Clone, Copy, Debug, PartialEq, Eq, Hash)]
pub struct Token<'a> {
    /// What it is.
    pub kind: TokenKind,
    /// Its text, which is never empty.
    pub text: &'a str,
}
