// Written by bench/grammar_crate.py from crates/grammar.table: change that and run it.
//! The rows of parentheses and arguments.
ghost use Rattle.std.specs.Prelude.{◌≡◌};
ghost use Rattle.typst_grammar.specs.Row.{rows_of};
ghost use Rattle.typst_grammar.specs.GroupsRows.{group, group_close, group_first, group_more, group_one, loose, loose_comma, loose_item};

use crate::expectation::Expectation;
use crate::row::{Action, Call, Condition, Row, Take};
use crate::rows::{Class, State};
use typst_base::SyntaxKind;

/// `| eat; -> group.first`
const ROW_0: Row = Row {
    condition: Condition::Always,
    before: &[],
    take: Take::Eat,
    after: &[Action::Goto(State::GroupFirst)],
    call: None,
};

/// `| -> array.close`
const ROW_1: Row = Row {
    condition: Condition::Always,
    before: &[Action::Goto(State::ArrayClose)],
    take: Take::Nothing,
    after: &[],
    call: None,
};

/// `| unexpected`
const ROW_2: Row = Row {
    condition: Condition::Always,
    before: &[],
    take: Take::Unexpected,
    after: &[],
    call: None,
};

/// `| -> group.one; pair`
const ROW_3: Row = Row {
    condition: Condition::Always,
    before: &[Action::Goto(State::GroupOne)],
    take: Take::Nothing,
    after: &[],
    call: Some(Call {
        state: State::Pair,
        number: 0,
        enters: false,
        is_deep: false,
        newline: None,
    }),
};

/// `| eat; -> dict`
const ROW_4: Row = Row {
    condition: Condition::Always,
    before: &[],
    take: Take::Eat,
    after: &[Action::Goto(State::Dict)],
    call: None,
};

/// `| -> loose.comma; spread`
const ROW_5: Row = Row {
    condition: Condition::Always,
    before: &[Action::Goto(State::LooseComma)],
    take: Take::Nothing,
    after: &[],
    call: Some(Call {
        state: State::Spread,
        number: 0,
        enters: false,
        is_deep: false,
        newline: None,
    }),
};

/// `if last named | -> dict.comma`
const ROW_6: Row = Row {
    condition: Condition::Last(SyntaxKind::Named),
    before: &[Action::Goto(State::DictComma)],
    take: Take::Nothing,
    after: &[],
    call: None,
};

/// `if last keyed | -> dict.comma`
const ROW_7: Row = Row {
    condition: Condition::Last(SyntaxKind::Keyed),
    before: &[Action::Goto(State::DictComma)],
    take: Take::Nothing,
    after: &[],
    call: None,
};

/// `| -> group.close`
const ROW_8: Row = Row {
    condition: Condition::Always,
    before: &[Action::Goto(State::GroupClose)],
    take: Take::Nothing,
    after: &[],
    call: None,
};

/// `| expected comma; -> group.more`
const ROW_9: Row = Row {
    condition: Condition::Always,
    before: &[
        Action::Expected(Expectation::Comma),
        Action::Goto(State::GroupMore),
    ],
    take: Take::Nothing,
    after: &[],
    call: None,
};

/// `| eat; -> array`
const ROW_10: Row = Row {
    condition: Condition::Always,
    before: &[],
    take: Take::Eat,
    after: &[Action::Goto(State::Array)],
    call: None,
};

/// `| -> array`
const ROW_11: Row = Row {
    condition: Condition::Always,
    before: &[Action::Goto(State::Array)],
    take: Take::Nothing,
    after: &[],
    call: None,
};

/// `| unclosed; wrap Parenthesized; return`
const ROW_12: Row = Row {
    condition: Condition::Always,
    before: &[
        Action::Unclosed,
        Action::Wrap(SyntaxKind::Parenthesized),
        Action::Return,
    ],
    take: Take::Nothing,
    after: &[],
    call: None,
};

/// `| eat; wrap Parenthesized; return`
const ROW_13: Row = Row {
    condition: Condition::Always,
    before: &[],
    take: Take::Eat,
    after: &[Action::Wrap(SyntaxKind::Parenthesized), Action::Return],
    call: None,
};

/// `| -> loose.item; pair`
const ROW_14: Row = Row {
    condition: Condition::Always,
    before: &[Action::Goto(State::LooseItem)],
    take: Take::Nothing,
    after: &[],
    call: Some(Call {
        state: State::Pair,
        number: 0,
        enters: false,
        is_deep: false,
        newline: None,
    }),
};

/// `| -> array.comma`
const ROW_15: Row = Row {
    condition: Condition::Always,
    before: &[Action::Goto(State::ArrayComma)],
    take: Take::Nothing,
    after: &[],
    call: None,
};

/// `| expected comma; -> loose`
const ROW_16: Row = Row {
    condition: Condition::Always,
    before: &[
        Action::Expected(Expectation::Comma),
        Action::Goto(State::Loose),
    ],
    take: Take::Nothing,
    after: &[],
    call: None,
};

/// `| eat; -> loose`
const ROW_17: Row = Row {
    condition: Condition::Always,
    before: &[],
    take: Take::Eat,
    after: &[Action::Goto(State::Loose)],
    call: None,
};

/// A parenthesis, an array or a dictionary.
pub(crate) fn group(class: Class) -> &'static [Row]
    ensures { rows_of result.now ≡ group class }
{
    match class {
        Class::LeftParen => &[ROW_0],
        _ => &[],
    }
}

/// The first item, or the colon of a dictionary.
pub(crate) fn group_first(class: Class) -> &'static [Row]
    ensures { rows_of result.now ≡ group_first class }
{
    match class {
        Class::End
        | Class::RightBrace
        | Class::RightBracket
        | Class::RightParen
        | Class::Semicolon => &[ROW_1],
        Class::Label
        | Class::Raw
        | Class::Dollar
        | Class::LeftBrace
        | Class::LeftBracket
        | Class::LeftParen
        | Class::Underscore
        | Class::Sign
        | Class::Ident
        | Class::Str
        | Class::Literal
        | Class::Constant
        | Class::Not
        | Class::Let
        | Class::Set
        | Class::Show
        | Class::Context
        | Class::If
        | Class::For
        | Class::While
        | Class::Break
        | Class::Continue
        | Class::Return
        | Class::Import
        | Class::Include => &[ROW_3],
        Class::Colon => &[ROW_4],
        Class::Dots => &[ROW_5],
        _ => &[ROW_2],
    }
}

/// What may follow the first item.
pub(crate) fn group_one(class: Class) -> &'static [Row]
    ensures { rows_of result.now ≡ group_one class }
{
    match class {
        Class::End
        | Class::RightBrace
        | Class::RightBracket
        | Class::RightParen
        | Class::Semicolon => &[ROW_6, ROW_7, ROW_8],
        Class::Comma => &[ROW_6, ROW_7, ROW_10],
        _ => &[ROW_6, ROW_7, ROW_9],
    }
}

/// What may follow the first item if no comma does.
pub(crate) fn group_more(class: Class) -> &'static [Row]
    ensures { rows_of result.now ≡ group_more class }
{
    match class {
        Class::End
        | Class::RightBrace
        | Class::RightBracket
        | Class::RightParen
        | Class::Semicolon => &[ROW_8],
        Class::Label
        | Class::Raw
        | Class::Dollar
        | Class::LeftBrace
        | Class::LeftBracket
        | Class::LeftParen
        | Class::Dots
        | Class::Underscore
        | Class::Sign
        | Class::Ident
        | Class::Str
        | Class::Literal
        | Class::Constant
        | Class::Not
        | Class::Let
        | Class::Set
        | Class::Show
        | Class::Context
        | Class::If
        | Class::For
        | Class::While
        | Class::Break
        | Class::Continue
        | Class::Return
        | Class::Import
        | Class::Include => &[ROW_11],
        _ => &[ROW_2],
    }
}

/// The end of a parenthesis.
pub(crate) fn group_close(class: Class) -> &'static [Row]
    ensures { rows_of result.now ≡ group_close class }
{
    match class {
        Class::RightParen => &[ROW_13],
        _ => &[ROW_12],
    }
}

/// An item behind items that are spread.
pub(crate) fn loose(class: Class) -> &'static [Row]
    ensures { rows_of result.now ≡ loose class }
{
    match class {
        Class::End
        | Class::RightBrace
        | Class::RightBracket
        | Class::RightParen
        | Class::Semicolon => &[ROW_1],
        Class::Label
        | Class::Raw
        | Class::Dollar
        | Class::LeftBrace
        | Class::LeftBracket
        | Class::LeftParen
        | Class::Underscore
        | Class::Sign
        | Class::Ident
        | Class::Str
        | Class::Literal
        | Class::Constant
        | Class::Not
        | Class::Let
        | Class::Set
        | Class::Show
        | Class::Context
        | Class::If
        | Class::For
        | Class::While
        | Class::Break
        | Class::Continue
        | Class::Return
        | Class::Import
        | Class::Include => &[ROW_14],
        Class::Dots => &[ROW_5],
        _ => &[ROW_2],
    }
}

/// What the first item that isn't spread makes of the list.
pub(crate) fn loose_item(_class: Class) -> &'static [Row]
    ensures { rows_of result.now ≡ loose_item _class }
{
    &[ROW_6, ROW_7, ROW_15]
}

/// The comma behind an item that is spread.
pub(crate) fn loose_comma(class: Class) -> &'static [Row]
    ensures { rows_of result.now ≡ loose_comma class }
{
    match class {
        Class::End
        | Class::RightBrace
        | Class::RightBracket
        | Class::RightParen
        | Class::Semicolon => &[ROW_1],
        Class::Comma => &[ROW_17],
        _ => &[ROW_16],
    }
}
