// Written by bench/grammar_crate.py from crates/grammar.table: change that and run it.
//! The rows of delimiters and arguments in math.
ghost use Rattle.std.specs.Prelude.{◌≡◌};
ghost use Rattle.typst_grammar.specs.Row.{rows_of};
ghost use Rattle.typst_grammar.specs.DelimitersRows.{delimited, delimited_body, delimited_rest1, delimited_rest2, math_arg, math_arg_colon, math_arg_colon_rest, math_arg_rest, math_args, math_args_close, math_args_comma, math_args_item, math_named, math_value, math_value_more, math_value_one};

use crate::expectation::Expectation;
use crate::row::{Action, Call, Condition, Row, Take, Unique};
use crate::rows::{Class, State};
use typst_base::SyntaxKind;

/// `| eat MathText; -> delimited.rest1; delimited.body 1`
const ROW_0: Row = Row {
    condition: Condition::Always,
    before: &[],
    take: Take::EatAs(SyntaxKind::MathText),
    after: &[Action::Goto(State::DelimitedRest1)],
    call: Some(Call {
        state: State::DelimitedBody,
        number: 1,
        enters: false,
        is_deep: true,
        newline: None,
    }),
};

/// `| eat; -> delimited.rest2; delimited.body 1`
const ROW_1: Row = Row {
    condition: Condition::Always,
    before: &[],
    take: Take::Eat,
    after: &[Action::Goto(State::DelimitedRest2)],
    call: Some(Call {
        state: State::DelimitedBody,
        number: 1,
        enters: false,
        is_deep: true,
        newline: None,
    }),
};

/// `if is 2 | wrap Math; return; unclosed; wrap Equation; return`
const ROW_2: Row = Row {
    condition: Condition::Is(2),
    before: &[
        Action::Wrap(SyntaxKind::Math),
        Action::Return,
        Action::Unclosed,
        Action::Wrap(SyntaxKind::Equation),
        Action::Return,
    ],
    take: Take::Nothing,
    after: &[],
    call: None,
};

/// `| return; wrap Math`
const ROW_3: Row = Row {
    condition: Condition::Always,
    before: &[Action::Return, Action::Wrap(SyntaxKind::Math)],
    take: Take::Nothing,
    after: &[],
    call: None,
};

/// `| unexpected; -> math`
const ROW_4: Row = Row {
    condition: Condition::Always,
    before: &[],
    take: Take::Unexpected,
    after: &[Action::Goto(State::Math)],
    call: None,
};

/// `| eat; -> math.leaf`
const ROW_5: Row = Row {
    condition: Condition::Always,
    before: &[],
    take: Take::Eat,
    after: &[Action::Goto(State::MathLeaf)],
    call: None,
};

/// `| eat; -> math.letter`
const ROW_6: Row = Row {
    condition: Condition::Always,
    before: &[],
    take: Take::Eat,
    after: &[Action::Goto(State::MathLetter)],
    call: None,
};

/// `| -> math; math.expr`
const ROW_7: Row = Row {
    condition: Condition::Always,
    before: &[Action::Goto(State::Math)],
    take: Take::Nothing,
    after: &[],
    call: Some(Call {
        state: State::MathExpr,
        number: 0,
        enters: false,
        is_deep: false,
        newline: None,
    }),
};

/// `if is 2 | wrap Math; return; eat; wrap Equation; return`
const ROW_8: Row = Row {
    condition: Condition::Is(2),
    before: &[Action::Wrap(SyntaxKind::Math), Action::Return],
    take: Take::Eat,
    after: &[Action::Wrap(SyntaxKind::Equation), Action::Return],
    call: None,
};

/// `if upto 1 | wrap Math; return; eat MathText; wrap MathDelimited`
const ROW_9: Row = Row {
    condition: Condition::UpTo(1),
    before: &[Action::Wrap(SyntaxKind::Math), Action::Return],
    take: Take::EatAs(SyntaxKind::MathText),
    after: &[Action::Wrap(SyntaxKind::MathDelimited)],
    call: None,
};

/// `| eat MathText; -> math.leaf`
const ROW_10: Row = Row {
    condition: Condition::Always,
    before: &[],
    take: Take::EatAs(SyntaxKind::MathText),
    after: &[Action::Goto(State::MathLeaf)],
    call: None,
};

/// `if is 0 | wrap Math; return; eat MathText`
const ROW_11: Row = Row {
    condition: Condition::Is(0),
    before: &[Action::Wrap(SyntaxKind::Math), Action::Return],
    take: Take::EatAs(SyntaxKind::MathText),
    after: &[],
    call: None,
};

/// `| eat; -> math.name`
const ROW_12: Row = Row {
    condition: Condition::Always,
    before: &[],
    take: Take::Eat,
    after: &[Action::Goto(State::MathName)],
    call: None,
};

/// `if upto 1 | wrap Math; return; eat; wrap MathDelimited`
const ROW_13: Row = Row {
    condition: Condition::UpTo(1),
    before: &[Action::Wrap(SyntaxKind::Math), Action::Return],
    take: Take::Eat,
    after: &[Action::Wrap(SyntaxKind::MathDelimited)],
    call: None,
};

/// `| eat; -> math.args.item`
const ROW_14: Row = Row {
    condition: Condition::Always,
    before: &[],
    take: Take::Eat,
    after: &[Action::Goto(State::MathArgsItem)],
    call: None,
};

/// `| -> math.args.close`
const ROW_15: Row = Row {
    condition: Condition::Always,
    before: &[Action::Goto(State::MathArgsClose)],
    take: Take::Nothing,
    after: &[],
    call: None,
};

/// `| -> math.args.comma; math.arg`
const ROW_16: Row = Row {
    condition: Condition::Always,
    before: &[Action::Goto(State::MathArgsComma)],
    take: Take::Nothing,
    after: &[],
    call: Some(Call {
        state: State::MathArg,
        number: 0,
        enters: false,
        is_deep: false,
        newline: None,
    }),
};

/// `| unclosed; wrap MathArgs; unique argument; return`
const ROW_17: Row = Row {
    condition: Condition::Always,
    before: &[
        Action::Unclosed,
        Action::Wrap(SyntaxKind::MathArgs),
        Action::Unique(Unique::Argument),
        Action::Return,
    ],
    take: Take::Nothing,
    after: &[],
    call: None,
};

/// `| eat; wrap MathArgs; unique argument; return`
const ROW_18: Row = Row {
    condition: Condition::Always,
    before: &[],
    take: Take::Eat,
    after: &[
        Action::Wrap(SyntaxKind::MathArgs),
        Action::Unique(Unique::Argument),
        Action::Return,
    ],
    call: None,
};

/// `| -> math.value`
const ROW_19: Row = Row {
    condition: Condition::Always,
    before: &[Action::Goto(State::MathValue)],
    take: Take::Nothing,
    after: &[],
    call: None,
};

/// `| eat; -> math.arg.rest; math.value`
const ROW_20: Row = Row {
    condition: Condition::Always,
    before: &[],
    take: Take::Eat,
    after: &[Action::Goto(State::MathArgRest)],
    call: Some(Call {
        state: State::MathValue,
        number: 0,
        enters: false,
        is_deep: false,
        newline: None,
    }),
};

/// `| eat; -> math.arg.colon`
const ROW_21: Row = Row {
    condition: Condition::Always,
    before: &[],
    take: Take::Eat,
    after: &[Action::Goto(State::MathArgColon)],
    call: None,
};

/// `| mistake identifier; -> math.arg.colon`
const ROW_22: Row = Row {
    condition: Condition::Always,
    before: &[],
    take: Take::Mistake(Expectation::Identifier),
    after: &[Action::Goto(State::MathArgColon)],
    call: None,
};

/// `| eat Colon; -> math.arg.colon.rest; math.named`
const ROW_23: Row = Row {
    condition: Condition::Always,
    before: &[],
    take: Take::EatAs(SyntaxKind::Colon),
    after: &[Action::Goto(State::MathArgColonRest)],
    call: Some(Call {
        state: State::MathNamed,
        number: 0,
        enters: false,
        is_deep: false,
        newline: None,
    }),
};

/// `| expected expression; return`
const ROW_24: Row = Row {
    condition: Condition::Always,
    before: &[Action::Expected(Expectation::Expression), Action::Return],
    take: Take::Nothing,
    after: &[],
    call: None,
};

/// `| flush; wrap Math; return`
const ROW_25: Row = Row {
    condition: Condition::Always,
    before: &[
        Action::Flush,
        Action::Wrap(SyntaxKind::Math),
        Action::Return,
    ],
    take: Take::Nothing,
    after: &[],
    call: None,
};

/// `| unexpected`
const ROW_26: Row = Row {
    condition: Condition::Always,
    before: &[],
    take: Take::Unexpected,
    after: &[],
    call: None,
};

/// `| -> math.value.one; math.expr`
const ROW_27: Row = Row {
    condition: Condition::Always,
    before: &[Action::Goto(State::MathValueOne)],
    take: Take::Nothing,
    after: &[],
    call: Some(Call {
        state: State::MathExpr,
        number: 0,
        enters: false,
        is_deep: false,
        newline: None,
    }),
};

/// `| return`
const ROW_28: Row = Row {
    condition: Condition::Always,
    before: &[Action::Return],
    take: Take::Nothing,
    after: &[],
    call: None,
};

/// `| -> math.value.more`
const ROW_29: Row = Row {
    condition: Condition::Always,
    before: &[Action::Goto(State::MathValueMore)],
    take: Take::Nothing,
    after: &[],
    call: None,
};

/// `| wrap Math; return`
const ROW_30: Row = Row {
    condition: Condition::Always,
    before: &[Action::Wrap(SyntaxKind::Math), Action::Return],
    take: Take::Nothing,
    after: &[],
    call: None,
};

/// `| math.expr`
const ROW_31: Row = Row {
    condition: Condition::Always,
    before: &[],
    take: Take::Nothing,
    after: &[],
    call: Some(Call {
        state: State::MathExpr,
        number: 0,
        enters: false,
        is_deep: false,
        newline: None,
    }),
};

/// `| wrap Spread; return`
const ROW_32: Row = Row {
    condition: Condition::Always,
    before: &[Action::Wrap(SyntaxKind::Spread), Action::Return],
    take: Take::Nothing,
    after: &[],
    call: None,
};

/// `| wrap Named; return`
const ROW_33: Row = Row {
    condition: Condition::Always,
    before: &[Action::Wrap(SyntaxKind::Named), Action::Return],
    take: Take::Nothing,
    after: &[],
    call: None,
};

/// Delimiters with what is between them.
pub(crate) fn delimited(class: Class) -> &'static [Row]
    ensures { rows_of result.now ≡ delimited class }
{
    match class {
        Class::LeftBrace | Class::LeftParen => &[ROW_0],
        Class::Opening => &[ROW_1],
        _ => &[],
    }
}

/// What is between delimiters.
pub(crate) fn delimited_body(class: Class) -> &'static [Row]
    ensures { rows_of result.now ≡ delimited_body class }
{
    match class {
        Class::End => &[ROW_2, ROW_3],
        Class::Linebreak | Class::MathText => &[ROW_5],
        Class::Escape | Class::Str | Class::MathLetter | Class::MathPrimes => &[ROW_6],
        Class::Hash | Class::LeftBrace | Class::LeftParen | Class::Opening | Class::Root => &[
            ROW_7,
        ],
        Class::Dollar => &[ROW_8, ROW_3],
        Class::RightBrace => &[ROW_9, ROW_10],
        Class::RightParen => &[ROW_11, ROW_9, ROW_10],
        Class::Comma | Class::Semicolon | Class::Dot | Class::Field | Class::Bang => &[ROW_10],
        Class::MathIdent => &[ROW_12],
        Class::Closing => &[ROW_13, ROW_5],
        _ => &[ROW_4],
    }
}

/// The arguments of a call in math.
pub(crate) fn math_args(class: Class) -> &'static [Row]
    ensures { rows_of result.now ≡ math_args class }
{
    match class {
        Class::LeftParen => &[ROW_14],
        _ => &[],
    }
}

/// An argument, if another one comes.
pub(crate) fn math_args_item(class: Class) -> &'static [Row]
    ensures { rows_of result.now ≡ math_args_item class }
{
    match class {
        Class::End | Class::Dollar | Class::RightParen => &[ROW_15],
        _ => &[ROW_16],
    }
}

/// The comma or semicolon behind an argument.
pub(crate) fn math_args_comma(class: Class) -> &'static [Row]
    ensures { rows_of result.now ≡ math_args_comma class }
{
    match class {
        Class::End | Class::Dollar | Class::RightParen => &[ROW_15],
        Class::Comma | Class::Semicolon => &[ROW_14],
        _ => &[],
    }
}

/// The end of the arguments.
pub(crate) fn math_args_close(class: Class) -> &'static [Row]
    ensures { rows_of result.now ≡ math_args_close class }
{
    match class {
        Class::RightParen => &[ROW_18],
        _ => &[ROW_17],
    }
}

/// An argument: a value, a name with its value, or values that are spread.
pub(crate) fn math_arg(class: Class) -> &'static [Row]
    ensures { rows_of result.now ≡ math_arg class }
{
    match class {
        Class::Dots => &[ROW_20],
        Class::ArgumentName => &[ROW_21],
        Class::ArgumentBlank => &[ROW_22],
        _ => &[ROW_19],
    }
}

/// The colon behind the name of an argument.
pub(crate) fn math_arg_colon(class: Class) -> &'static [Row]
    ensures { rows_of result.now ≡ math_arg_colon class }
{
    match class {
        Class::MathText => &[ROW_23],
        _ => &[],
    }
}

/// The value of an argument with a name.
pub(crate) fn math_named(class: Class) -> &'static [Row]
    ensures { rows_of result.now ≡ math_named class }
{
    match class {
        Class::End | Class::Dollar | Class::RightParen | Class::Comma | Class::Semicolon => &[
            ROW_24,
        ],
        _ => &[ROW_19],
    }
}

/// The value of an argument.
pub(crate) fn math_value(class: Class) -> &'static [Row]
    ensures { rows_of result.now ≡ math_value class }
{
    match class {
        Class::End | Class::Dollar | Class::RightParen | Class::Comma | Class::Semicolon => &[
            ROW_25,
        ],
        Class::Linebreak
        | Class::Escape
        | Class::Hash
        | Class::LeftBrace
        | Class::RightBrace
        | Class::LeftParen
        | Class::Dot
        | Class::Field
        | Class::Str
        | Class::MathIdent
        | Class::MathLetter
        | Class::MathText
        | Class::MathPrimes
        | Class::Opening
        | Class::Closing
        | Class::Bang
        | Class::Root => &[ROW_27],
        _ => &[ROW_26],
    }
}

/// Whether one expression is the value.
pub(crate) fn math_value_one(class: Class) -> &'static [Row]
    ensures { rows_of result.now ≡ math_value_one class }
{
    match class {
        Class::End | Class::Dollar | Class::RightParen | Class::Comma | Class::Semicolon => &[
            ROW_28,
        ],
        _ => &[ROW_29],
    }
}

/// The value of an argument from the second expression on.
pub(crate) fn math_value_more(class: Class) -> &'static [Row]
    ensures { rows_of result.now ≡ math_value_more class }
{
    match class {
        Class::End | Class::Dollar | Class::RightParen | Class::Comma | Class::Semicolon => &[
            ROW_30,
        ],
        Class::Linebreak
        | Class::Escape
        | Class::Hash
        | Class::LeftBrace
        | Class::RightBrace
        | Class::LeftParen
        | Class::Dot
        | Class::Field
        | Class::Str
        | Class::MathIdent
        | Class::MathLetter
        | Class::MathText
        | Class::MathPrimes
        | Class::Opening
        | Class::Closing
        | Class::Bang
        | Class::Root => &[ROW_31],
        _ => &[ROW_26],
    }
}

/// The rest of a row of `delimited`, once the frame that it opened has returned.
pub(crate) fn delimited_rest1(_class: Class) -> &'static [Row]
    ensures { rows_of result.now ≡ delimited_rest1 _class }
{
    &[ROW_28]
}

/// The rest of a row of `delimited`, once the frame that it opened has returned.
pub(crate) fn delimited_rest2(_class: Class) -> &'static [Row]
    ensures { rows_of result.now ≡ delimited_rest2 _class }
{
    &[ROW_28]
}

/// The rest of a row of `math.arg`, once the frame that it opened has returned.
pub(crate) fn math_arg_rest(_class: Class) -> &'static [Row]
    ensures { rows_of result.now ≡ math_arg_rest _class }
{
    &[ROW_32]
}

/// The rest of a row of `math.arg.colon`, once the frame that it opened has returned.
pub(crate) fn math_arg_colon_rest(_class: Class) -> &'static [Row]
    ensures { rows_of result.now ≡ math_arg_colon_rest _class }
{
    &[ROW_33]
}
