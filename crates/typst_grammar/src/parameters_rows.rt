// Written by bench/grammar_crate.py from crates/grammar.table: change that and run it.
//! The rows of parameters.
ghost use Rattle.std.specs.Prelude.{◌≡◌};
ghost use Rattle.typst_grammar.specs.Row.{rows_of};
ghost use Rattle.typst_grammar.specs.ParametersRows.{param, param_name, param_name_rest, params, params_close, params_comma, params_item, sink, sink_rest};

use crate::expectation::Expectation;
use crate::row::{Action, Call, Condition, Row, Take, Unique};
use crate::rows::{Class, State};
use typst_base::SyntaxKind;

/// `| eat; -> params.item`
const ROW_0: Row = Row {
    condition: Condition::Always,
    before: &[],
    take: Take::Eat,
    after: &[Action::Goto(State::ParamsItem)],
    call: None,
};

/// `| -> params.close`
const ROW_1: Row = Row {
    condition: Condition::Always,
    before: &[Action::Goto(State::ParamsClose)],
    take: Take::Nothing,
    after: &[],
    call: None,
};

/// `| unexpected`
const ROW_2: Row = Row {
    condition: Condition::Always,
    before: &[],
    take: Take::Unexpected,
    after: &[],
    call: None,
};

/// `| -> params.comma; param`
const ROW_3: Row = Row {
    condition: Condition::Always,
    before: &[Action::Goto(State::ParamsComma)],
    take: Take::Nothing,
    after: &[],
    call: Some(Call {
        state: State::Param,
        number: 0,
        enters: false,
        is_deep: false,
        newline: None,
    }),
};

/// `| eat; -> param.name`
const ROW_4: Row = Row {
    condition: Condition::Always,
    before: &[],
    take: Take::Eat,
    after: &[Action::Goto(State::ParamName)],
    call: None,
};

/// `| expected comma; -> params.item`
const ROW_5: Row = Row {
    condition: Condition::Always,
    before: &[
        Action::Expected(Expectation::Comma),
        Action::Goto(State::ParamsItem),
    ],
    take: Take::Nothing,
    after: &[],
    call: None,
};

/// `| around params.comma; around argument.colon; around leaf.check 9; -> expr.name`
const ROW_6: Row = Row {
    condition: Condition::Always,
    before: &[
        Action::Around(State::ParamsComma, 0),
        Action::Around(State::ArgumentColon, 0),
        Action::Around(State::LeafCheck, 9),
        Action::Goto(State::ExprName),
    ],
    take: Take::Nothing,
    after: &[],
    call: None,
};

/// `| around params.comma; eat; -> param.name.rest; expr 1`
const ROW_7: Row = Row {
    condition: Condition::Always,
    before: &[Action::Around(State::ParamsComma, 0)],
    take: Take::Eat,
    after: &[Action::Goto(State::ParamNameRest)],
    call: Some(Call {
        state: State::Expr,
        number: 1,
        enters: false,
        is_deep: false,
        newline: None,
    }),
};

/// `| unclosed; wrap Params; unique parameter; return`
const ROW_8: Row = Row {
    condition: Condition::Always,
    before: &[
        Action::Unclosed,
        Action::Wrap(SyntaxKind::Params),
        Action::Unique(Unique::Parameter),
        Action::Return,
    ],
    take: Take::Nothing,
    after: &[],
    call: None,
};

/// `| eat; wrap Params; unique parameter; return`
const ROW_9: Row = Row {
    condition: Condition::Always,
    before: &[],
    take: Take::Eat,
    after: &[
        Action::Wrap(SyntaxKind::Params),
        Action::Unique(Unique::Parameter),
        Action::Return,
    ],
    call: None,
};

/// `| -> argument.colon; pattern`
const ROW_10: Row = Row {
    condition: Condition::Always,
    before: &[Action::Goto(State::ArgumentColon)],
    take: Take::Nothing,
    after: &[],
    call: Some(Call {
        state: State::Pattern,
        number: 0,
        enters: false,
        is_deep: false,
        newline: None,
    }),
};

/// `| eat; -> sink`
const ROW_11: Row = Row {
    condition: Condition::Always,
    before: &[],
    take: Take::Eat,
    after: &[Action::Goto(State::Sink)],
    call: None,
};

/// `| wrap Spread; return`
const ROW_12: Row = Row {
    condition: Condition::Always,
    before: &[Action::Wrap(SyntaxKind::Spread), Action::Return],
    take: Take::Nothing,
    after: &[],
    call: None,
};

/// `| -> sink.rest; leaf`
const ROW_13: Row = Row {
    condition: Condition::Always,
    before: &[Action::Goto(State::SinkRest)],
    take: Take::Nothing,
    after: &[],
    call: Some(Call {
        state: State::Leaf,
        number: 0,
        enters: false,
        is_deep: false,
        newline: None,
    }),
};

/// `| wrap Named; return`
const ROW_14: Row = Row {
    condition: Condition::Always,
    before: &[Action::Wrap(SyntaxKind::Named), Action::Return],
    take: Take::Nothing,
    after: &[],
    call: None,
};

/// The parameters of a function that has a name.
pub(crate) fn params(class: Class) -> &'static [Row]
    ensures { rows_of result.now ≡ params class }
{
    match class {
        Class::LeftParen => &[ROW_0],
        _ => &[],
    }
}

/// A parameter, if another one comes.
pub(crate) fn params_item(class: Class) -> &'static [Row]
    ensures { rows_of result.now ≡ params_item class }
{
    match class {
        Class::End
        | Class::RightBrace
        | Class::RightBracket
        | Class::RightParen
        | Class::Semicolon => &[ROW_1],
        Class::Label
        | Class::Raw
        | Class::Dollar
        | Class::LeftBrace
        | Class::LeftBracket
        | Class::LeftParen
        | Class::Dots
        | Class::Underscore
        | Class::Str
        | Class::Literal
        | Class::Constant
        | Class::Let
        | Class::Set
        | Class::Show
        | Class::Context
        | Class::If
        | Class::For
        | Class::While
        | Class::Break
        | Class::Continue
        | Class::Return
        | Class::Import
        | Class::Include => &[ROW_3],
        Class::Ident => &[ROW_4],
        _ => &[ROW_2],
    }
}

/// The comma behind a parameter.
pub(crate) fn params_comma(class: Class) -> &'static [Row]
    ensures { rows_of result.now ≡ params_comma class }
{
    match class {
        Class::End
        | Class::RightBrace
        | Class::RightBracket
        | Class::RightParen
        | Class::Semicolon => &[ROW_1],
        Class::Comma => &[ROW_0],
        _ => &[ROW_5],
    }
}

/// What may follow a name.
pub(crate) fn param_name(class: Class) -> &'static [Row]
    ensures { rows_of result.now ≡ param_name class }
{
    match class {
        Class::End
        | Class::RightBrace
        | Class::RightBracket
        | Class::RightParen
        | Class::Semicolon => &[ROW_1],
        Class::LeftBracket | Class::LeftParen | Class::Field => &[ROW_6],
        Class::Comma => &[ROW_0],
        Class::Colon => &[ROW_7],
        _ => &[ROW_5],
    }
}

/// The end of parameters.
pub(crate) fn params_close(class: Class) -> &'static [Row]
    ensures { rows_of result.now ≡ params_close class }
{
    match class {
        Class::RightParen => &[ROW_9],
        _ => &[ROW_8],
    }
}

/// A parameter.
pub(crate) fn param(class: Class) -> &'static [Row]
    ensures { rows_of result.now ≡ param class }
{
    match class {
        Class::Label
        | Class::Raw
        | Class::Dollar
        | Class::LeftBrace
        | Class::LeftBracket
        | Class::LeftParen
        | Class::Underscore
        | Class::Ident
        | Class::Str
        | Class::Literal
        | Class::Constant
        | Class::Let
        | Class::Set
        | Class::Show
        | Class::Context
        | Class::If
        | Class::For
        | Class::While
        | Class::Break
        | Class::Continue
        | Class::Return
        | Class::Import
        | Class::Include => &[ROW_10],
        Class::Dots => &[ROW_11],
        _ => &[],
    }
}

/// The name of a sink, if it has one.
pub(crate) fn sink(class: Class) -> &'static [Row]
    ensures { rows_of result.now ≡ sink class }
{
    match class {
        Class::Label
        | Class::Raw
        | Class::Dollar
        | Class::LeftBrace
        | Class::LeftBracket
        | Class::LeftParen
        | Class::Ident
        | Class::Str
        | Class::Literal
        | Class::Constant
        | Class::Let
        | Class::Set
        | Class::Show
        | Class::Context
        | Class::If
        | Class::For
        | Class::While
        | Class::Break
        | Class::Continue
        | Class::Return
        | Class::Import
        | Class::Include => &[ROW_13],
        _ => &[ROW_12],
    }
}

/// The rest of a row of `param.name`, once the frame that it opened has returned.
pub(crate) fn param_name_rest(_class: Class) -> &'static [Row]
    ensures { rows_of result.now ≡ param_name_rest _class }
{
    &[ROW_14]
}

/// The rest of a row of `sink`, once the frame that it opened has returned.
pub(crate) fn sink_rest(_class: Class) -> &'static [Row]
    ensures { rows_of result.now ≡ sink_rest _class }
{
    &[ROW_12]
}
