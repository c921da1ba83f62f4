//! Places in the text, and what was read of the next token.
ghost use Rattle.std.specs.Prelude.{◌≡◌};
ghost use Rattle.typst_parser.specs.Stack.{unread};

use typst_lexer::{Behind, Mode, TokenKind};

/// A place in the text.
#[derive(Clone, Copy)]
pub struct Place {
    /// How many bytes are before it.
    pub(crate) at: usize,
    /// What is directly before it.
    pub(crate) behind: Behind,
    /// How many characters are before it in its line.
    pub(crate) column: usize,
}

/// What was read of the next token.
#[derive(Clone, Copy)]
pub struct Next {
    /// The mode in which the white space before it was read, if it was.
    pub(crate) space: Option<Mode>,
    /// Whether a newline is in that white space.
    pub(crate) line: bool,
    /// Whether a blank line is in it.
    pub(crate) blank: bool,
    /// Whether it went into a frame already.
    pub(crate) is_flushed: bool,
    /// Where it ends: there the token begins.
    pub(crate) place: Place,
    /// The mode in which the token was read, if it was.
    pub(crate) mode: Option<Mode>,
    /// What it is, or `None` at the end of the text.
    pub(crate) kind: Option<TokenKind>,
    /// How many bytes are before its end.
    pub(crate) end: usize,
    /// What is directly before its end.
    pub(crate) behind: Behind,
}

impl Next {
    /// Nothing was read of the token that comes behind a place.
    pub(crate) fn unread(place: Place) -> Next
        ensures { result ≡ unread place }
    {
        Next {
            space: None,
            line: false,
            blank: false,
            is_flushed: false,
            place,
            mode: None,
            kind: None,
            end: place.at,
            behind: place.behind,
        }
    }
}
