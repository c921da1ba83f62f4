//! Rows of the table.
use crate::expectation::Expectation;
use crate::maps::Map;
use crate::rows::State;
use typst_base::SyntaxKind;

/// What a row does with the innermost frame and its trees.
#[derive(Clone, Copy, Debug, PartialEq, Eq, Hash)]
pub enum Action {
    /// The frame goes on in another state.
    Goto(State),
    /// The frame ends. Its trees are now those of the frame that opened it.
    Return,
    /// The frame goes on in this state. Another one opens in it, with this number, around its last tree if that is a leaf.
    Around(State, usize),
    /// Its trees become the children of one node of this kind. White space before the next token stays behind that node.
    Wrap(SyntaxKind),
    /// White space before the next token goes into it now.
    Flush,
    /// Its number grows by one.
    Up,
    /// Its number falls by one.
    Down,
    /// The last tree is followed by an empty error, unless it is an error. The error isn't made if the next token becomes one.
    Expected(Expectation),
    /// The last tree becomes an error, unless it is one.
    Wrong(Expectation),
    /// The first and the last tree get these kinds, if they are leaves.
    Delimit(SyntaxKind, SyntaxKind),
    /// The first tree becomes an error, if that has no children: the delimiter isn't closed.
    Unclosed,
    /// A map changes the last tree.
    Retag(Map),
    /// In the last tree, names that come again become errors.
    Unique(Unique),
}

/// When a row fits a token.
#[derive(Clone, Copy, Debug, PartialEq, Eq, Hash)]
pub enum Condition {
    /// Always.
    Always,
    /// If a line feed is in the white space before the token.
    Newline,
    /// If nothing is between the token and the one before it.
    Direct,
    /// If the innermost frame has no trees yet.
    Empty,
    /// If the number of the innermost frame is this one.
    Is(usize),
    /// If the number of the innermost frame is at most this one.
    UpTo(usize),
    /// If the innermost frame has one tree, and it is of this kind.
    Only(SyntaxKind),
    /// If the last tree of the innermost frame is of this kind.
    Last(SyntaxKind),
}

/// What a line feed before a token does.
#[derive(Clone, Copy, Debug, PartialEq, Eq, Hash)]
pub enum Newline {
    /// It does nothing.
    Go,
    /// It ends what is open: the token reads as the end.
    Stop,
    /// It ends what is open, unless the token is `else` or a dot.
    Context,
    /// A blank line ends what is open, and a single line feed does nothing.
    Par,
    /// It ends what is open, unless the token is to the right of the one at which the frame opened.
    Column,
}

/// What becomes of the next token.
#[derive(Clone, Copy, Debug, PartialEq, Eq, Hash)]
pub enum Take {
    /// It stays the next one, and the machine looks again.
    Nothing,
    /// It becomes a tree of the innermost frame.
    Eat,
    /// It becomes a leaf of this kind.
    EatAs(SyntaxKind),
    /// It becomes the error that it is unexpected, unless it is an error.
    Unexpected,
    /// It becomes the error that something else is expected, unless it is an error.
    Mistake(Expectation),
}

/// Which names may not come again in a tree.
#[derive(Clone, Copy, Debug, PartialEq, Eq, Hash)]
pub enum Unique {
    /// Those of arguments.
    Argument,
    /// Those of parameters, and a second sink.
    Parameter,
    /// Those that a pattern binds, and a second sink.
    Binding,
    /// The keys of a dictionary.
    Key,
    /// None, but a second sink.
    Sink,
}

/// How the lexer reads.
#[derive(Clone, Copy, Debug, PartialEq, Eq, Hash)]
pub enum Mode {
    /// Markup.
    Markup,
    /// Code.
    Code,
    /// Math.
    Math,
    /// Code where only an operator may come. All else has no length, and is read in the next mode.
    Operator,
    /// Math where a name with a colon or `..` may come.
    Argument,
}

/// A frame that opens.
#[derive(Clone, Copy, Debug, PartialEq, Eq, Hash)]
pub struct Call {
    /// Its state.
    pub state: State,
    /// Its number.
    pub number: usize,
    /// Whether white space before its first token is in it.
    pub enters: bool,
    /// Whether it counts among the frames of which only so many may be open.
    pub is_deep: bool,
    /// What a line feed does in it. For `None` that is what one does in the frame that opened it.
    pub newline: Option<Newline>,
}

/// A row of the table: when it fits, and what it does, in this order.
#[derive(Clone, Copy)]
pub struct Row {
    /// When it fits.
    pub condition: Condition,
    /// What happens before the token is taken.
    pub before: &'static [Action],
    /// What becomes of the token.
    pub take: Take,
    /// What happens behind the token.
    pub after: &'static [Action],
    /// The frame that opens.
    pub call: Option<Call>,
}
