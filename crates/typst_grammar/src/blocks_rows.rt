// Written by bench/grammar_crate.py from crates/grammar.table: change that and run it.
//! The rows of names and blocks of code.
ghost use Rattle.std.specs.Prelude.{◌≡◌};
ghost use Rattle.typst_grammar.specs.Row.{rows_of};
ghost use Rattle.typst_grammar.specs.BlocksRows.{braces, code, code_end, name};

use crate::expectation::Expectation;
use crate::row::{Action, Call, Condition, Newline, Row, Take};
use crate::rows::{Class, State};
use typst_base::SyntaxKind;

/// `| expected identifier; return`
const ROW_0: Row = Row {
    condition: Condition::Always,
    before: &[Action::Expected(Expectation::Identifier), Action::Return],
    take: Take::Nothing,
    after: &[],
    call: None,
};

/// `| eat; return`
const ROW_1: Row = Row {
    condition: Condition::Always,
    before: &[],
    take: Take::Eat,
    after: &[Action::Return],
    call: None,
};

/// `| mistake identifier; return`
const ROW_2: Row = Row {
    condition: Condition::Always,
    before: &[],
    take: Take::Mistake(Expectation::Identifier),
    after: &[Action::Return],
    call: None,
};

/// `| eat; enter code`
const ROW_3: Row = Row {
    condition: Condition::Always,
    before: &[],
    take: Take::Eat,
    after: &[],
    call: Some(Call {
        state: State::Code,
        number: 0,
        enters: true,
        is_deep: false,
        newline: None,
    }),
};

/// `| flush; wrap Code; return; unclosed; wrap CodeBlock; return`
const ROW_4: Row = Row {
    condition: Condition::Always,
    before: &[
        Action::Flush,
        Action::Wrap(SyntaxKind::Code),
        Action::Return,
        Action::Unclosed,
        Action::Wrap(SyntaxKind::CodeBlock),
        Action::Return,
    ],
    take: Take::Nothing,
    after: &[],
    call: None,
};

/// `| unexpected`
const ROW_5: Row = Row {
    condition: Condition::Always,
    before: &[],
    take: Take::Unexpected,
    after: &[],
    call: None,
};

/// `| -> code.end; statement 1`
const ROW_6: Row = Row {
    condition: Condition::Always,
    before: &[Action::Goto(State::CodeEnd)],
    take: Take::Nothing,
    after: &[],
    call: Some(Call {
        state: State::Statement,
        number: 1,
        enters: false,
        is_deep: false,
        newline: Some(Newline::Context),
    }),
};

/// `| flush; wrap Code; return; eat; wrap CodeBlock; return`
const ROW_7: Row = Row {
    condition: Condition::Always,
    before: &[
        Action::Flush,
        Action::Wrap(SyntaxKind::Code),
        Action::Return,
    ],
    take: Take::Eat,
    after: &[Action::Wrap(SyntaxKind::CodeBlock), Action::Return],
    call: None,
};

/// `if newline | -> code`
const ROW_8: Row = Row {
    condition: Condition::Newline,
    before: &[Action::Goto(State::Code)],
    take: Take::Nothing,
    after: &[],
    call: None,
};

/// `| expected semicolon or line break; -> code`
const ROW_9: Row = Row {
    condition: Condition::Always,
    before: &[
        Action::Expected(Expectation::SemicolonOrLineBreak),
        Action::Goto(State::Code),
    ],
    take: Take::Nothing,
    after: &[],
    call: None,
};

/// `| eat; -> code`
const ROW_10: Row = Row {
    condition: Condition::Always,
    before: &[],
    take: Take::Eat,
    after: &[Action::Goto(State::Code)],
    call: None,
};

/// A name.
pub(crate) fn name(class: Class) -> &'static [Row]
    ensures { rows_of result.now ≡ name class }
{
    match class {
        Class::Ident => &[ROW_1],
        Class::Constant
        | Class::Not
        | Class::And
        | Class::Or
        | Class::Let
        | Class::Set
        | Class::Show
        | Class::Context
        | Class::If
        | Class::Else
        | Class::For
        | Class::In
        | Class::While
        | Class::Break
        | Class::Continue
        | Class::Return
        | Class::Import
        | Class::Include
        | Class::As => &[ROW_2],
        _ => &[ROW_0],
    }
}

/// A block of code.
pub(crate) fn braces(class: Class) -> &'static [Row]
    ensures { rows_of result.now ≡ braces class }
{
    match class {
        Class::LeftBrace => &[ROW_3],
        _ => &[],
    }
}

/// The expressions of a block of code.
pub(crate) fn code(class: Class) -> &'static [Row]
    ensures { rows_of result.now ≡ code class }
{
    match class {
        Class::End | Class::RightBracket | Class::RightParen => &[ROW_4],
        Class::Label
        | Class::Raw
        | Class::Dollar
        | Class::LeftBrace
        | Class::LeftBracket
        | Class::LeftParen
        | Class::Underscore
        | Class::Sign
        | Class::Ident
        | Class::Str
        | Class::Literal
        | Class::Constant
        | Class::Not
        | Class::Let
        | Class::Set
        | Class::Show
        | Class::Context
        | Class::If
        | Class::For
        | Class::While
        | Class::Break
        | Class::Continue
        | Class::Return
        | Class::Import
        | Class::Include => &[ROW_6],
        Class::RightBrace => &[ROW_7],
        _ => &[ROW_5],
    }
}

/// The end of an expression of a block of code.
pub(crate) fn code_end(class: Class) -> &'static [Row]
    ensures { rows_of result.now ≡ code_end class }
{
    match class {
        Class::End | Class::RightBracket | Class::RightParen => &[ROW_8, ROW_4],
        Class::RightBrace => &[ROW_8, ROW_7],
        Class::Semicolon => &[ROW_8, ROW_10],
        _ => &[ROW_8, ROW_9],
    }
}
