// Written by bench/grammar_crate.py from crates/grammar.table: change that and run it.
//! The rows of arrays and dictionaries.
ghost use Rattle.std.specs.Prelude.{◌≡◌};
ghost use Rattle.typst_grammar.specs.Row.{rows_of};
ghost use Rattle.typst_grammar.specs.ListsRows.{array, array_close, array_comma, dict, dict_close, dict_comma, pair, pair_colon, pair_colon_rest1, pair_colon_rest2, spread, spread_value, spread_value_rest};

use crate::expectation::Expectation;
use crate::row::{Action, Call, Condition, Row, Take};
use crate::rows::{Class, State};
use typst_base::SyntaxKind;

/// `| -> array.close`
const ROW_0: Row = Row {
    condition: Condition::Always,
    before: &[Action::Goto(State::ArrayClose)],
    take: Take::Nothing,
    after: &[],
    call: None,
};

/// `| unexpected`
const ROW_1: Row = Row {
    condition: Condition::Always,
    before: &[],
    take: Take::Unexpected,
    after: &[],
    call: None,
};

/// `| -> array.comma; pair`
const ROW_2: Row = Row {
    condition: Condition::Always,
    before: &[Action::Goto(State::ArrayComma)],
    take: Take::Nothing,
    after: &[],
    call: Some(Call {
        state: State::Pair,
        number: 0,
        enters: false,
        is_deep: false,
        newline: None,
    }),
};

/// `| -> array.comma; spread`
const ROW_3: Row = Row {
    condition: Condition::Always,
    before: &[Action::Goto(State::ArrayComma)],
    take: Take::Nothing,
    after: &[],
    call: Some(Call {
        state: State::Spread,
        number: 0,
        enters: false,
        is_deep: false,
        newline: None,
    }),
};

/// `| expected comma; -> array`
const ROW_4: Row = Row {
    condition: Condition::Always,
    before: &[
        Action::Expected(Expectation::Comma),
        Action::Goto(State::Array),
    ],
    take: Take::Nothing,
    after: &[],
    call: None,
};

/// `| eat; -> array`
const ROW_5: Row = Row {
    condition: Condition::Always,
    before: &[],
    take: Take::Eat,
    after: &[Action::Goto(State::Array)],
    call: None,
};

/// `| unclosed; wrap Array; return`
const ROW_6: Row = Row {
    condition: Condition::Always,
    before: &[
        Action::Unclosed,
        Action::Wrap(SyntaxKind::Array),
        Action::Return,
    ],
    take: Take::Nothing,
    after: &[],
    call: None,
};

/// `| eat; wrap Array; return`
const ROW_7: Row = Row {
    condition: Condition::Always,
    before: &[],
    take: Take::Eat,
    after: &[Action::Wrap(SyntaxKind::Array), Action::Return],
    call: None,
};

/// `| -> dict.close`
const ROW_8: Row = Row {
    condition: Condition::Always,
    before: &[Action::Goto(State::DictClose)],
    take: Take::Nothing,
    after: &[],
    call: None,
};

/// `| -> dict.comma; pair`
const ROW_9: Row = Row {
    condition: Condition::Always,
    before: &[Action::Goto(State::DictComma)],
    take: Take::Nothing,
    after: &[],
    call: Some(Call {
        state: State::Pair,
        number: 0,
        enters: false,
        is_deep: false,
        newline: None,
    }),
};

/// `| -> dict.comma; spread`
const ROW_10: Row = Row {
    condition: Condition::Always,
    before: &[Action::Goto(State::DictComma)],
    take: Take::Nothing,
    after: &[],
    call: Some(Call {
        state: State::Spread,
        number: 0,
        enters: false,
        is_deep: false,
        newline: None,
    }),
};

/// `| expected comma; -> dict`
const ROW_11: Row = Row {
    condition: Condition::Always,
    before: &[
        Action::Expected(Expectation::Comma),
        Action::Goto(State::Dict),
    ],
    take: Take::Nothing,
    after: &[],
    call: None,
};

/// `| eat; -> dict`
const ROW_12: Row = Row {
    condition: Condition::Always,
    before: &[],
    take: Take::Eat,
    after: &[Action::Goto(State::Dict)],
    call: None,
};

/// `| unclosed; wrap Dict; return`
const ROW_13: Row = Row {
    condition: Condition::Always,
    before: &[
        Action::Unclosed,
        Action::Wrap(SyntaxKind::Dict),
        Action::Return,
    ],
    take: Take::Nothing,
    after: &[],
    call: None,
};

/// `| eat; wrap Dict; return`
const ROW_14: Row = Row {
    condition: Condition::Always,
    before: &[],
    take: Take::Eat,
    after: &[Action::Wrap(SyntaxKind::Dict), Action::Return],
    call: None,
};

/// `| eat; -> spread.value`
const ROW_15: Row = Row {
    condition: Condition::Always,
    before: &[],
    take: Take::Eat,
    after: &[Action::Goto(State::SpreadValue)],
    call: None,
};

/// `| wrap Spread; return`
const ROW_16: Row = Row {
    condition: Condition::Always,
    before: &[Action::Wrap(SyntaxKind::Spread), Action::Return],
    take: Take::Nothing,
    after: &[],
    call: None,
};

/// `| -> spread.value.rest; expr 1`
const ROW_17: Row = Row {
    condition: Condition::Always,
    before: &[Action::Goto(State::SpreadValueRest)],
    take: Take::Nothing,
    after: &[],
    call: Some(Call {
        state: State::Expr,
        number: 1,
        enters: false,
        is_deep: false,
        newline: None,
    }),
};

/// `| -> pair.colon; expr`
const ROW_18: Row = Row {
    condition: Condition::Always,
    before: &[Action::Goto(State::PairColon)],
    take: Take::Nothing,
    after: &[],
    call: Some(Call {
        state: State::Expr,
        number: 0,
        enters: false,
        is_deep: false,
        newline: None,
    }),
};

/// `| return`
const ROW_19: Row = Row {
    condition: Condition::Always,
    before: &[Action::Return],
    take: Take::Nothing,
    after: &[],
    call: None,
};

/// `if only ident | eat; -> pair.colon.rest1; expr`
const ROW_20: Row = Row {
    condition: Condition::Only(SyntaxKind::Ident),
    before: &[],
    take: Take::Eat,
    after: &[Action::Goto(State::PairColonRest1)],
    call: Some(Call {
        state: State::Expr,
        number: 0,
        enters: false,
        is_deep: false,
        newline: None,
    }),
};

/// `| eat; -> pair.colon.rest2; expr`
const ROW_21: Row = Row {
    condition: Condition::Always,
    before: &[],
    take: Take::Eat,
    after: &[Action::Goto(State::PairColonRest2)],
    call: Some(Call {
        state: State::Expr,
        number: 0,
        enters: false,
        is_deep: false,
        newline: None,
    }),
};

/// `| wrap Named; return`
const ROW_22: Row = Row {
    condition: Condition::Always,
    before: &[Action::Wrap(SyntaxKind::Named), Action::Return],
    take: Take::Nothing,
    after: &[],
    call: None,
};

/// `| wrap Keyed; return`
const ROW_23: Row = Row {
    condition: Condition::Always,
    before: &[Action::Wrap(SyntaxKind::Keyed), Action::Return],
    take: Take::Nothing,
    after: &[],
    call: None,
};

/// An item of an array.
pub(crate) fn array(class: Class) -> &'static [Row]
    ensures { rows_of result.now ≡ array class }
{
    match class {
        Class::End
        | Class::RightBrace
        | Class::RightBracket
        | Class::RightParen
        | Class::Semicolon => &[ROW_0],
        Class::Label
        | Class::Raw
        | Class::Dollar
        | Class::LeftBrace
        | Class::LeftBracket
        | Class::LeftParen
        | Class::Underscore
        | Class::Sign
        | Class::Ident
        | Class::Str
        | Class::Literal
        | Class::Constant
        | Class::Not
        | Class::Let
        | Class::Set
        | Class::Show
        | Class::Context
        | Class::If
        | Class::For
        | Class::While
        | Class::Break
        | Class::Continue
        | Class::Return
        | Class::Import
        | Class::Include => &[ROW_2],
        Class::Dots => &[ROW_3],
        _ => &[ROW_1],
    }
}

/// The comma behind an item of an array.
pub(crate) fn array_comma(class: Class) -> &'static [Row]
    ensures { rows_of result.now ≡ array_comma class }
{
    match class {
        Class::End
        | Class::RightBrace
        | Class::RightBracket
        | Class::RightParen
        | Class::Semicolon => &[ROW_0],
        Class::Comma => &[ROW_5],
        _ => &[ROW_4],
    }
}

/// The end of an array.
pub(crate) fn array_close(class: Class) -> &'static [Row]
    ensures { rows_of result.now ≡ array_close class }
{
    match class {
        Class::RightParen => &[ROW_7],
        _ => &[ROW_6],
    }
}

/// A pair of a dictionary.
pub(crate) fn dict(class: Class) -> &'static [Row]
    ensures { rows_of result.now ≡ dict class }
{
    match class {
        Class::End
        | Class::RightBrace
        | Class::RightBracket
        | Class::RightParen
        | Class::Semicolon => &[ROW_8],
        Class::Label
        | Class::Raw
        | Class::Dollar
        | Class::LeftBrace
        | Class::LeftBracket
        | Class::LeftParen
        | Class::Underscore
        | Class::Sign
        | Class::Ident
        | Class::Str
        | Class::Literal
        | Class::Constant
        | Class::Not
        | Class::Let
        | Class::Set
        | Class::Show
        | Class::Context
        | Class::If
        | Class::For
        | Class::While
        | Class::Break
        | Class::Continue
        | Class::Return
        | Class::Import
        | Class::Include => &[ROW_9],
        Class::Dots => &[ROW_10],
        _ => &[ROW_1],
    }
}

/// The comma behind a pair.
pub(crate) fn dict_comma(class: Class) -> &'static [Row]
    ensures { rows_of result.now ≡ dict_comma class }
{
    match class {
        Class::End
        | Class::RightBrace
        | Class::RightBracket
        | Class::RightParen
        | Class::Semicolon => &[ROW_8],
        Class::Comma => &[ROW_12],
        _ => &[ROW_11],
    }
}

/// The end of a dictionary.
pub(crate) fn dict_close(class: Class) -> &'static [Row]
    ensures { rows_of result.now ≡ dict_close class }
{
    match class {
        Class::RightParen => &[ROW_14],
        _ => &[ROW_13],
    }
}

/// An item that is spread.
pub(crate) fn spread(class: Class) -> &'static [Row]
    ensures { rows_of result.now ≡ spread class }
{
    match class {
        Class::Dots => &[ROW_15],
        _ => &[],
    }
}

/// What is spread, which a pattern needn't have.
pub(crate) fn spread_value(class: Class) -> &'static [Row]
    ensures { rows_of result.now ≡ spread_value class }
{
    match class {
        Class::End
        | Class::RightBrace
        | Class::RightBracket
        | Class::RightParen
        | Class::Comma
        | Class::Semicolon => &[ROW_16],
        _ => &[ROW_17],
    }
}

/// An item: a value, or a key with its value.
pub(crate) fn pair(class: Class) -> &'static [Row]
    ensures { rows_of result.now ≡ pair class }
{
    match class {
        Class::Label
        | Class::Raw
        | Class::Dollar
        | Class::LeftBrace
        | Class::LeftBracket
        | Class::LeftParen
        | Class::Underscore
        | Class::Sign
        | Class::Ident
        | Class::Str
        | Class::Literal
        | Class::Constant
        | Class::Not
        | Class::Let
        | Class::Set
        | Class::Show
        | Class::Context
        | Class::If
        | Class::For
        | Class::While
        | Class::Break
        | Class::Continue
        | Class::Return
        | Class::Import
        | Class::Include => &[ROW_18],
        _ => &[],
    }
}

/// The colon behind a key.
pub(crate) fn pair_colon(class: Class) -> &'static [Row]
    ensures { rows_of result.now ≡ pair_colon class }
{
    match class {
        Class::Colon => &[ROW_20, ROW_21],
        _ => &[ROW_19],
    }
}

/// The rest of a row of `spread.value`, once the frame that it opened has returned.
pub(crate) fn spread_value_rest(_class: Class) -> &'static [Row]
    ensures { rows_of result.now ≡ spread_value_rest _class }
{
    &[ROW_16]
}

/// The rest of a row of `pair.colon`, once the frame that it opened has returned.
pub(crate) fn pair_colon_rest1(_class: Class) -> &'static [Row]
    ensures { rows_of result.now ≡ pair_colon_rest1 _class }
{
    &[ROW_22]
}

/// The rest of a row of `pair.colon`, once the frame that it opened has returned.
pub(crate) fn pair_colon_rest2(_class: Class) -> &'static [Row]
    ensures { rows_of result.now ≡ pair_colon_rest2 _class }
{
    &[ROW_23]
}
