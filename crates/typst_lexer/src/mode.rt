//! The modes of the lexer.

/// How a text is read.
#[derive(Clone, Copy, Debug, PartialEq, Eq, Hash)]
pub enum Mode {
    /// Text with markup.
    Markup,
    /// Math.
    Math,
    /// Math at the beginning of an argument, where a name with a colon or `..` may come.
    Argument,
    /// Code.
    Code,
    /// Code in which only an operator may come. Of anything else one character is read, as a token of the kind `Other`.
    Operator,
}
