// Written by bench/grammar_crate.py from crates/grammar.table: change that and run it.
//! The rows of the arguments of a call.
ghost use Rattle.std.specs.Prelude.{◌≡◌};
ghost use Rattle.typst_grammar.specs.Row.{rows_of};
ghost use Rattle.typst_grammar.specs.ArgumentsRows.{args, args_content, argument, argument_colon, argument_colon_rest, argument_name, argument_value, arguments, arguments_comma, named, named_end, named_name, named_rest, named_value, spread_argument, spread_argument_rest};

use crate::expectation::Expectation;
use crate::row::{Action, Call, Condition, Newline, Row, Take, Unique};
use crate::rows::{Class, State};
use typst_base::SyntaxKind;

/// `| -> args.content`
const ROW_0: Row = Row {
    condition: Condition::Always,
    before: &[Action::Goto(State::ArgsContent)],
    take: Take::Nothing,
    after: &[],
    call: None,
};

/// `| eat; -> args.content; enter arguments`
const ROW_1: Row = Row {
    condition: Condition::Always,
    before: &[],
    take: Take::Eat,
    after: &[Action::Goto(State::ArgsContent)],
    call: Some(Call {
        state: State::Arguments,
        number: 0,
        enters: true,
        is_deep: true,
        newline: Some(Newline::Go),
    }),
};

/// `| wrap Args; unique argument; return`
const ROW_2: Row = Row {
    condition: Condition::Always,
    before: &[
        Action::Wrap(SyntaxKind::Args),
        Action::Unique(Unique::Argument),
        Action::Return,
    ],
    take: Take::Nothing,
    after: &[],
    call: None,
};

/// `if direct | content`
const ROW_3: Row = Row {
    condition: Condition::Direct,
    before: &[],
    take: Take::Nothing,
    after: &[],
    call: Some(Call {
        state: State::Content,
        number: 0,
        enters: false,
        is_deep: true,
        newline: Some(Newline::Go),
    }),
};

/// `| return; unclosed`
const ROW_4: Row = Row {
    condition: Condition::Always,
    before: &[Action::Return, Action::Unclosed],
    take: Take::Nothing,
    after: &[],
    call: None,
};

/// `| unexpected`
const ROW_5: Row = Row {
    condition: Condition::Always,
    before: &[],
    take: Take::Unexpected,
    after: &[],
    call: None,
};

/// `| eat; -> argument.value`
const ROW_6: Row = Row {
    condition: Condition::Always,
    before: &[],
    take: Take::Eat,
    after: &[Action::Goto(State::ArgumentValue)],
    call: None,
};

/// `| -> arguments.comma; argument`
const ROW_7: Row = Row {
    condition: Condition::Always,
    before: &[Action::Goto(State::ArgumentsComma)],
    take: Take::Nothing,
    after: &[],
    call: Some(Call {
        state: State::Argument,
        number: 0,
        enters: false,
        is_deep: false,
        newline: None,
    }),
};

/// `| eat; return`
const ROW_8: Row = Row {
    condition: Condition::Always,
    before: &[],
    take: Take::Eat,
    after: &[Action::Return],
    call: None,
};

/// `| -> arguments.comma; spread.argument`
const ROW_9: Row = Row {
    condition: Condition::Always,
    before: &[Action::Goto(State::ArgumentsComma)],
    take: Take::Nothing,
    after: &[],
    call: Some(Call {
        state: State::SpreadArgument,
        number: 0,
        enters: false,
        is_deep: false,
        newline: None,
    }),
};

/// `| eat; -> argument.name`
const ROW_10: Row = Row {
    condition: Condition::Always,
    before: &[],
    take: Take::Eat,
    after: &[Action::Goto(State::ArgumentName)],
    call: None,
};

/// `| expected comma; -> arguments`
const ROW_11: Row = Row {
    condition: Condition::Always,
    before: &[
        Action::Expected(Expectation::Comma),
        Action::Goto(State::Arguments),
    ],
    take: Take::Nothing,
    after: &[],
    call: None,
};

/// `| eat; -> arguments`
const ROW_12: Row = Row {
    condition: Condition::Always,
    before: &[],
    take: Take::Eat,
    after: &[Action::Goto(State::Arguments)],
    call: None,
};

/// `| around arguments.comma; around argument.colon 1; -> expr.after`
const ROW_13: Row = Row {
    condition: Condition::Always,
    before: &[
        Action::Around(State::ArgumentsComma, 0),
        Action::Around(State::ArgumentColon, 1),
        Action::Goto(State::ExprAfter),
    ],
    take: Take::Nothing,
    after: &[],
    call: None,
};

/// `| around arguments.comma; -> argument.colon`
const ROW_14: Row = Row {
    condition: Condition::Always,
    before: &[
        Action::Around(State::ArgumentsComma, 0),
        Action::Goto(State::ArgumentColon),
    ],
    take: Take::Nothing,
    after: &[],
    call: None,
};

/// `| around arguments.comma; eat; -> named`
const ROW_15: Row = Row {
    condition: Condition::Always,
    before: &[Action::Around(State::ArgumentsComma, 0)],
    take: Take::Eat,
    after: &[Action::Goto(State::Named)],
    call: None,
};

/// `| around arguments.comma; around argument.colon 1; -> expr.name`
const ROW_16: Row = Row {
    condition: Condition::Always,
    before: &[
        Action::Around(State::ArgumentsComma, 0),
        Action::Around(State::ArgumentColon, 1),
        Action::Goto(State::ExprName),
    ],
    take: Take::Nothing,
    after: &[],
    call: None,
};

/// `| -> named.rest; expr 1`
const ROW_17: Row = Row {
    condition: Condition::Always,
    before: &[Action::Goto(State::NamedRest)],
    take: Take::Nothing,
    after: &[],
    call: Some(Call {
        state: State::Expr,
        number: 1,
        enters: false,
        is_deep: false,
        newline: None,
    }),
};

/// `| eat; -> named.value`
const ROW_18: Row = Row {
    condition: Condition::Always,
    before: &[],
    take: Take::Eat,
    after: &[Action::Goto(State::NamedValue)],
    call: None,
};

/// `| eat; -> named.name`
const ROW_19: Row = Row {
    condition: Condition::Always,
    before: &[],
    take: Take::Eat,
    after: &[Action::Goto(State::NamedName)],
    call: None,
};

/// `| wrap Named; return`
const ROW_20: Row = Row {
    condition: Condition::Always,
    before: &[Action::Wrap(SyntaxKind::Named), Action::Return],
    take: Take::Nothing,
    after: &[],
    call: None,
};

/// `| around named.end 1; -> expr.after`
const ROW_21: Row = Row {
    condition: Condition::Always,
    before: &[
        Action::Around(State::NamedEnd, 1),
        Action::Goto(State::ExprAfter),
    ],
    take: Take::Nothing,
    after: &[],
    call: None,
};

/// `| around named.end 1; -> expr.name`
const ROW_22: Row = Row {
    condition: Condition::Always,
    before: &[
        Action::Around(State::NamedEnd, 1),
        Action::Goto(State::ExprName),
    ],
    take: Take::Nothing,
    after: &[],
    call: None,
};

/// `| eat; -> spread.argument.rest; expr 1`
const ROW_23: Row = Row {
    condition: Condition::Always,
    before: &[],
    take: Take::Eat,
    after: &[Action::Goto(State::SpreadArgumentRest)],
    call: Some(Call {
        state: State::Expr,
        number: 1,
        enters: false,
        is_deep: false,
        newline: None,
    }),
};

/// `| -> argument.colon; expr 1`
const ROW_24: Row = Row {
    condition: Condition::Always,
    before: &[Action::Goto(State::ArgumentColon)],
    take: Take::Nothing,
    after: &[],
    call: Some(Call {
        state: State::Expr,
        number: 1,
        enters: false,
        is_deep: false,
        newline: None,
    }),
};

/// `| return`
const ROW_25: Row = Row {
    condition: Condition::Always,
    before: &[Action::Return],
    take: Take::Nothing,
    after: &[],
    call: None,
};

/// `| wrong identifier; eat; -> argument.colon.rest; expr 1`
const ROW_26: Row = Row {
    condition: Condition::Always,
    before: &[Action::Wrong(Expectation::Identifier)],
    take: Take::Eat,
    after: &[Action::Goto(State::ArgumentColonRest)],
    call: Some(Call {
        state: State::Expr,
        number: 1,
        enters: false,
        is_deep: false,
        newline: None,
    }),
};

/// `| wrap Spread; return`
const ROW_27: Row = Row {
    condition: Condition::Always,
    before: &[Action::Wrap(SyntaxKind::Spread), Action::Return],
    take: Take::Nothing,
    after: &[],
    call: None,
};

/// The arguments of a call.
pub(crate) fn args(class: Class) -> &'static [Row]
    ensures { rows_of result.now ≡ args class }
{
    match class {
        Class::LeftParen => &[ROW_1],
        _ => &[ROW_0],
    }
}

/// Blocks of content behind arguments.
pub(crate) fn args_content(class: Class) -> &'static [Row]
    ensures { rows_of result.now ≡ args_content class }
{
    match class {
        Class::LeftBracket => &[ROW_3, ROW_2],
        _ => &[ROW_2],
    }
}

/// An argument, if another one comes.
pub(crate) fn arguments(class: Class) -> &'static [Row]
    ensures { rows_of result.now ≡ arguments class }
{
    match class {
        Class::End | Class::RightBrace | Class::RightBracket | Class::Semicolon => &[ROW_4],
        Class::Label | Class::Str | Class::Literal | Class::Constant => &[ROW_6],
        Class::Raw
        | Class::Dollar
        | Class::LeftBrace
        | Class::LeftBracket
        | Class::LeftParen
        | Class::Underscore
        | Class::Sign
        | Class::Not
        | Class::Let
        | Class::Set
        | Class::Show
        | Class::Context
        | Class::If
        | Class::For
        | Class::While
        | Class::Break
        | Class::Continue
        | Class::Return
        | Class::Import
        | Class::Include => &[ROW_7],
        Class::RightParen => &[ROW_8],
        Class::Dots => &[ROW_9],
        Class::Ident => &[ROW_10],
        _ => &[ROW_5],
    }
}

/// The comma behind an argument.
pub(crate) fn arguments_comma(class: Class) -> &'static [Row]
    ensures { rows_of result.now ≡ arguments_comma class }
{
    match class {
        Class::End | Class::RightBrace | Class::RightBracket | Class::Semicolon => &[ROW_4],
        Class::RightParen => &[ROW_8],
        Class::Comma => &[ROW_12],
        _ => &[ROW_11],
    }
}

/// What may follow an expression of one token.
pub(crate) fn argument_value(class: Class) -> &'static [Row]
    ensures { rows_of result.now ≡ argument_value class }
{
    match class {
        Class::End | Class::RightBrace | Class::RightBracket | Class::Semicolon => &[ROW_4],
        Class::LeftBracket
        | Class::LeftParen
        | Class::Dot
        | Class::Field
        | Class::Star
        | Class::Slash
        | Class::Eq
        | Class::Sign
        | Class::Comparison
        | Class::Assignment
        | Class::Not
        | Class::And
        | Class::Or
        | Class::In => &[ROW_13],
        Class::RightParen => &[ROW_8],
        Class::Comma => &[ROW_12],
        Class::Colon => &[ROW_14],
        _ => &[ROW_11],
    }
}

/// What may follow a name.
pub(crate) fn argument_name(class: Class) -> &'static [Row]
    ensures { rows_of result.now ≡ argument_name class }
{
    match class {
        Class::End | Class::RightBrace | Class::RightBracket | Class::Semicolon => &[ROW_4],
        Class::LeftBracket
        | Class::LeftParen
        | Class::Dot
        | Class::Field
        | Class::Star
        | Class::Slash
        | Class::Eq
        | Class::Sign
        | Class::Comparison
        | Class::Assignment
        | Class::Not
        | Class::And
        | Class::Or
        | Class::In => &[ROW_13],
        Class::RightParen => &[ROW_8],
        Class::Comma => &[ROW_12],
        Class::Colon => &[ROW_15],
        Class::Arrow => &[ROW_16],
        _ => &[ROW_11],
    }
}

/// The value of an argument with a name.
pub(crate) fn named(class: Class) -> &'static [Row]
    ensures { rows_of result.now ≡ named class }
{
    match class {
        Class::Label | Class::Str | Class::Literal | Class::Constant => &[ROW_18],
        Class::Ident => &[ROW_19],
        _ => &[ROW_17],
    }
}

/// What may follow a value of one token.
pub(crate) fn named_value(class: Class) -> &'static [Row]
    ensures { rows_of result.now ≡ named_value class }
{
    match class {
        Class::LeftBracket
        | Class::LeftParen
        | Class::Dot
        | Class::Field
        | Class::Star
        | Class::Slash
        | Class::Eq
        | Class::Sign
        | Class::Comparison
        | Class::Assignment
        | Class::Not
        | Class::And
        | Class::Or
        | Class::In => &[ROW_21],
        _ => &[ROW_20],
    }
}

/// What may follow a value that is a name.
pub(crate) fn named_name(class: Class) -> &'static [Row]
    ensures { rows_of result.now ≡ named_name class }
{
    match class {
        Class::LeftBracket
        | Class::LeftParen
        | Class::Dot
        | Class::Field
        | Class::Star
        | Class::Slash
        | Class::Eq
        | Class::Sign
        | Class::Comparison
        | Class::Assignment
        | Class::Not
        | Class::And
        | Class::Or
        | Class::In => &[ROW_21],
        Class::Arrow => &[ROW_22],
        _ => &[ROW_20],
    }
}

/// The end of an argument with a name.
pub(crate) fn named_end(_class: Class) -> &'static [Row]
    ensures { rows_of result.now ≡ named_end _class }
{
    &[ROW_20]
}

/// An argument that is spread.
pub(crate) fn spread_argument(class: Class) -> &'static [Row]
    ensures { rows_of result.now ≡ spread_argument class }
{
    match class {
        Class::Dots => &[ROW_23],
        _ => &[],
    }
}

/// An argument: a value, or a name with its value.
pub(crate) fn argument(class: Class) -> &'static [Row]
    ensures { rows_of result.now ≡ argument class }
{
    match class {
        Class::Label
        | Class::Raw
        | Class::Dollar
        | Class::LeftBrace
        | Class::LeftBracket
        | Class::LeftParen
        | Class::Underscore
        | Class::Sign
        | Class::Ident
        | Class::Str
        | Class::Literal
        | Class::Constant
        | Class::Not
        | Class::Let
        | Class::Set
        | Class::Show
        | Class::Context
        | Class::If
        | Class::For
        | Class::While
        | Class::Break
        | Class::Continue
        | Class::Return
        | Class::Import
        | Class::Include => &[ROW_24],
        _ => &[],
    }
}

/// The colon behind what is no name.
pub(crate) fn argument_colon(class: Class) -> &'static [Row]
    ensures { rows_of result.now ≡ argument_colon class }
{
    match class {
        Class::Colon => &[ROW_26],
        _ => &[ROW_25],
    }
}

/// The rest of a row of `named`, once the frame that it opened has returned.
pub(crate) fn named_rest(_class: Class) -> &'static [Row]
    ensures { rows_of result.now ≡ named_rest _class }
{
    &[ROW_20]
}

/// The rest of a row of `spread.argument`, once the frame that it opened has returned.
pub(crate) fn spread_argument_rest(_class: Class) -> &'static [Row]
    ensures { rows_of result.now ≡ spread_argument_rest _class }
{
    &[ROW_27]
}

/// The rest of a row of `argument.colon`, once the frame that it opened has returned.
pub(crate) fn argument_colon_rest(_class: Class) -> &'static [Row]
    ensures { rows_of result.now ≡ argument_colon_rest _class }
{
    &[ROW_20]
}
