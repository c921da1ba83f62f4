// Written by bench/grammar_crate.py from crates/grammar.table: change that and run it.
//! The rows of what may follow an expression.
ghost use Rattle.std.specs.Prelude.{◌≡◌};
ghost use Rattle.typst_grammar.specs.Row.{rows_of};
ghost use Rattle.typst_grammar.specs.OperatorsRows.{expr_after, expr_after_rest1, expr_after_rest2, expr_after_rest3, expr_after_rest4, expr_after_rest5, expr_after_rest6, expr_after_rest7, expr_after_rest8, expr_after_rest9, expr_blank, expr_blank_rest1, expr_blank_rest2, expr_group, expr_group_rest1, expr_group_rest2, expr_name, expr_name_rest, expr_not, expr_not_rest};

use crate::expectation::Expectation;
use crate::maps::Map;
use crate::row::{Action, Call, Condition, Row, Take, Unique};
use crate::rows::{Class, State};
use typst_base::SyntaxKind;

/// `if is 9 | return`
const ROW_0: Row = Row {
    condition: Condition::Is(9),
    before: &[Action::Return],
    take: Take::Nothing,
    after: &[],
    call: None,
};

/// `| return`
const ROW_1: Row = Row {
    condition: Condition::Always,
    before: &[Action::Return],
    take: Take::Nothing,
    after: &[],
    call: None,
};

/// `if direct | -> expr.after.rest1; args`
const ROW_2: Row = Row {
    condition: Condition::Direct,
    before: &[Action::Goto(State::ExprAfterRest1)],
    take: Take::Nothing,
    after: &[],
    call: Some(Call {
        state: State::Args,
        number: 0,
        enters: false,
        is_deep: false,
        newline: None,
    }),
};

/// `| eat; -> expr.after.rest3; name`
const ROW_3: Row = Row {
    condition: Condition::Always,
    before: &[],
    take: Take::Eat,
    after: &[Action::Goto(State::ExprAfterRest3)],
    call: Some(Call {
        state: State::Name,
        number: 0,
        enters: false,
        is_deep: false,
        newline: None,
    }),
};

/// `if direct | eat; -> expr.after.rest2; name`
const ROW_4: Row = Row {
    condition: Condition::Direct,
    before: &[],
    take: Take::Eat,
    after: &[Action::Goto(State::ExprAfterRest2)],
    call: Some(Call {
        state: State::Name,
        number: 0,
        enters: false,
        is_deep: false,
        newline: None,
    }),
};

/// `if upto 6 | eat; -> expr.after.rest4; expr 7`
const ROW_5: Row = Row {
    condition: Condition::UpTo(6),
    before: &[],
    take: Take::Eat,
    after: &[Action::Goto(State::ExprAfterRest4)],
    call: Some(Call {
        state: State::Expr,
        number: 7,
        enters: false,
        is_deep: false,
        newline: None,
    }),
};

/// `if upto 1 | eat; -> expr.after.rest9; expr 1`
const ROW_6: Row = Row {
    condition: Condition::UpTo(1),
    before: &[],
    take: Take::Eat,
    after: &[Action::Goto(State::ExprAfterRest9)],
    call: Some(Call {
        state: State::Expr,
        number: 1,
        enters: false,
        is_deep: false,
        newline: None,
    }),
};

/// `if upto 5 | eat; -> expr.after.rest5; expr 6`
const ROW_7: Row = Row {
    condition: Condition::UpTo(5),
    before: &[],
    take: Take::Eat,
    after: &[Action::Goto(State::ExprAfterRest5)],
    call: Some(Call {
        state: State::Expr,
        number: 6,
        enters: false,
        is_deep: false,
        newline: None,
    }),
};

/// `if upto 4 | eat; -> expr.after.rest6; expr 5`
const ROW_8: Row = Row {
    condition: Condition::UpTo(4),
    before: &[],
    take: Take::Eat,
    after: &[Action::Goto(State::ExprAfterRest6)],
    call: Some(Call {
        state: State::Expr,
        number: 5,
        enters: false,
        is_deep: false,
        newline: None,
    }),
};

/// `if upto 4 | eat; -> expr.not`
const ROW_9: Row = Row {
    condition: Condition::UpTo(4),
    before: &[],
    take: Take::Eat,
    after: &[Action::Goto(State::ExprNot)],
    call: None,
};

/// `if upto 3 | eat; -> expr.after.rest7; expr 4`
const ROW_10: Row = Row {
    condition: Condition::UpTo(3),
    before: &[],
    take: Take::Eat,
    after: &[Action::Goto(State::ExprAfterRest7)],
    call: Some(Call {
        state: State::Expr,
        number: 4,
        enters: false,
        is_deep: false,
        newline: None,
    }),
};

/// `if upto 2 | eat; -> expr.after.rest8; expr 3`
const ROW_11: Row = Row {
    condition: Condition::UpTo(2),
    before: &[],
    take: Take::Eat,
    after: &[Action::Goto(State::ExprAfterRest8)],
    call: Some(Call {
        state: State::Expr,
        number: 3,
        enters: false,
        is_deep: false,
        newline: None,
    }),
};

/// `| expected keyword `in`; return`
const ROW_12: Row = Row {
    condition: Condition::Always,
    before: &[Action::Expected(Expectation::KeywordIn), Action::Return],
    take: Take::Nothing,
    after: &[],
    call: None,
};

/// `| eat; -> expr.not.rest; expr 5`
const ROW_13: Row = Row {
    condition: Condition::Always,
    before: &[],
    take: Take::Eat,
    after: &[Action::Goto(State::ExprNotRest)],
    call: Some(Call {
        state: State::Expr,
        number: 5,
        enters: false,
        is_deep: false,
        newline: None,
    }),
};

/// `if upto 8 | wrap Params; eat; -> expr.name.rest; expr 1`
const ROW_14: Row = Row {
    condition: Condition::UpTo(8),
    before: &[Action::Wrap(SyntaxKind::Params)],
    take: Take::Eat,
    after: &[Action::Goto(State::ExprNameRest)],
    call: Some(Call {
        state: State::Expr,
        number: 1,
        enters: false,
        is_deep: false,
        newline: None,
    }),
};

/// `if is 0 | return`
const ROW_15: Row = Row {
    condition: Condition::Is(0),
    before: &[Action::Return],
    take: Take::Nothing,
    after: &[],
    call: None,
};

/// `| wrong expression; -> expr.after`
const ROW_16: Row = Row {
    condition: Condition::Always,
    before: &[
        Action::Wrong(Expectation::Expression),
        Action::Goto(State::ExprAfter),
    ],
    take: Take::Nothing,
    after: &[],
    call: None,
};

/// `| wrap Params; eat; -> expr.blank.rest1; expr 1`
const ROW_17: Row = Row {
    condition: Condition::Always,
    before: &[Action::Wrap(SyntaxKind::Params)],
    take: Take::Eat,
    after: &[Action::Goto(State::ExprBlankRest1)],
    call: Some(Call {
        state: State::Expr,
        number: 1,
        enters: false,
        is_deep: false,
        newline: None,
    }),
};

/// `| eat; -> expr.blank.rest2; expr 1`
const ROW_18: Row = Row {
    condition: Condition::Always,
    before: &[],
    take: Take::Eat,
    after: &[Action::Goto(State::ExprBlankRest2)],
    call: Some(Call {
        state: State::Expr,
        number: 1,
        enters: false,
        is_deep: false,
        newline: None,
    }),
};

/// `if is 9 | retag value; unique key; -> expr.after`
const ROW_19: Row = Row {
    condition: Condition::Is(9),
    before: &[
        Action::Retag(Map::Value),
        Action::Unique(Unique::Key),
        Action::Goto(State::ExprAfter),
    ],
    take: Take::Nothing,
    after: &[],
    call: None,
};

/// `| retag value; unique key; -> expr.after`
const ROW_20: Row = Row {
    condition: Condition::Always,
    before: &[
        Action::Retag(Map::Value),
        Action::Unique(Unique::Key),
        Action::Goto(State::ExprAfter),
    ],
    take: Take::Nothing,
    after: &[],
    call: None,
};

/// `| retag params; unique parameter; eat; -> expr.group.rest1; expr 1`
const ROW_21: Row = Row {
    condition: Condition::Always,
    before: &[
        Action::Retag(Map::Params),
        Action::Unique(Unique::Parameter),
    ],
    take: Take::Eat,
    after: &[Action::Goto(State::ExprGroupRest1)],
    call: Some(Call {
        state: State::Expr,
        number: 1,
        enters: false,
        is_deep: false,
        newline: None,
    }),
};

/// `if last array | retag target; unique sink; eat; -> expr.group.rest2; expr 1`
const ROW_22: Row = Row {
    condition: Condition::Last(SyntaxKind::Array),
    before: &[Action::Retag(Map::Target), Action::Unique(Unique::Sink)],
    take: Take::Eat,
    after: &[Action::Goto(State::ExprGroupRest2)],
    call: Some(Call {
        state: State::Expr,
        number: 1,
        enters: false,
        is_deep: false,
        newline: None,
    }),
};

/// `if last dict | retag target; unique sink; eat; -> expr.group.rest2; expr 1`
const ROW_23: Row = Row {
    condition: Condition::Last(SyntaxKind::Dict),
    before: &[Action::Retag(Map::Target), Action::Unique(Unique::Sink)],
    take: Take::Eat,
    after: &[Action::Goto(State::ExprGroupRest2)],
    call: Some(Call {
        state: State::Expr,
        number: 1,
        enters: false,
        is_deep: false,
        newline: None,
    }),
};

/// `| wrap FuncCall; -> expr.after`
const ROW_24: Row = Row {
    condition: Condition::Always,
    before: &[
        Action::Wrap(SyntaxKind::FuncCall),
        Action::Goto(State::ExprAfter),
    ],
    take: Take::Nothing,
    after: &[],
    call: None,
};

/// `| wrap FieldAccess; -> expr.after`
const ROW_25: Row = Row {
    condition: Condition::Always,
    before: &[
        Action::Wrap(SyntaxKind::FieldAccess),
        Action::Goto(State::ExprAfter),
    ],
    take: Take::Nothing,
    after: &[],
    call: None,
};

/// `| wrap Binary; -> expr.after`
const ROW_26: Row = Row {
    condition: Condition::Always,
    before: &[
        Action::Wrap(SyntaxKind::Binary),
        Action::Goto(State::ExprAfter),
    ],
    take: Take::Nothing,
    after: &[],
    call: None,
};

/// `| wrap Closure; -> expr.after`
const ROW_27: Row = Row {
    condition: Condition::Always,
    before: &[
        Action::Wrap(SyntaxKind::Closure),
        Action::Goto(State::ExprAfter),
    ],
    take: Take::Nothing,
    after: &[],
    call: None,
};

/// `| wrap DestructAssignment; -> expr.after`
const ROW_28: Row = Row {
    condition: Condition::Always,
    before: &[
        Action::Wrap(SyntaxKind::DestructAssignment),
        Action::Goto(State::ExprAfter),
    ],
    take: Take::Nothing,
    after: &[],
    call: None,
};

/// What may follow an expression.
pub(crate) fn expr_after(class: Class) -> &'static [Row]
    ensures { rows_of result.now ≡ expr_after class }
{
    match class {
        Class::LeftBracket | Class::LeftParen => &[ROW_2, ROW_0, ROW_1],
        Class::Dot => &[ROW_0, ROW_3],
        Class::Field => &[ROW_4, ROW_0, ROW_3],
        Class::Star | Class::Slash => &[ROW_0, ROW_5, ROW_1],
        Class::Eq | Class::Assignment => &[ROW_0, ROW_6, ROW_1],
        Class::Sign => &[ROW_0, ROW_7, ROW_1],
        Class::Comparison | Class::In => &[ROW_0, ROW_8, ROW_1],
        Class::Not => &[ROW_0, ROW_9, ROW_1],
        Class::And => &[ROW_0, ROW_10, ROW_1],
        Class::Or => &[ROW_0, ROW_11, ROW_1],
        _ => &[ROW_0, ROW_1],
    }
}

/// What has to follow `not` behind an expression.
pub(crate) fn expr_not(class: Class) -> &'static [Row]
    ensures { rows_of result.now ≡ expr_not class }
{
    match class {
        Class::In => &[ROW_13],
        _ => &[ROW_12],
    }
}

/// What may follow a name.
pub(crate) fn expr_name(class: Class) -> &'static [Row]
    ensures { rows_of result.now ≡ expr_name class }
{
    match class {
        Class::LeftBracket | Class::LeftParen => &[ROW_2, ROW_0, ROW_1],
        Class::Dot => &[ROW_0, ROW_3],
        Class::Field => &[ROW_4, ROW_0, ROW_3],
        Class::Arrow => &[ROW_14, ROW_0, ROW_1],
        Class::Star | Class::Slash => &[ROW_0, ROW_5, ROW_1],
        Class::Eq | Class::Assignment => &[ROW_0, ROW_6, ROW_1],
        Class::Sign => &[ROW_0, ROW_7, ROW_1],
        Class::Comparison | Class::In => &[ROW_0, ROW_8, ROW_1],
        Class::Not => &[ROW_0, ROW_9, ROW_1],
        Class::And => &[ROW_0, ROW_10, ROW_1],
        Class::Or => &[ROW_0, ROW_11, ROW_1],
        _ => &[ROW_0, ROW_1],
    }
}

/// What may follow an underscore.
pub(crate) fn expr_blank(class: Class) -> &'static [Row]
    ensures { rows_of result.now ≡ expr_blank class }
{
    match class {
        Class::End
        | Class::RightBrace
        | Class::RightBracket
        | Class::RightParen
        | Class::Comma
        | Class::Semicolon
        | Class::Colon => &[ROW_15, ROW_16],
        Class::Arrow => &[ROW_17],
        Class::Eq => &[ROW_18],
        _ => &[ROW_16],
    }
}

/// What may follow a parenthesis.
pub(crate) fn expr_group(class: Class) -> &'static [Row]
    ensures { rows_of result.now ≡ expr_group class }
{
    match class {
        Class::End
        | Class::RightBrace
        | Class::RightBracket
        | Class::RightParen
        | Class::Comma
        | Class::Semicolon
        | Class::Colon => &[ROW_19, ROW_15, ROW_20],
        Class::Arrow => &[ROW_19, ROW_21],
        Class::Eq => &[ROW_19, ROW_22, ROW_23, ROW_20],
        _ => &[ROW_19, ROW_20],
    }
}

/// The rest of a row of `expr.after`, once the frame that it opened has returned.
pub(crate) fn expr_after_rest1(_class: Class) -> &'static [Row]
    ensures { rows_of result.now ≡ expr_after_rest1 _class }
{
    &[ROW_24]
}

/// The rest of a row of `expr.after`, once the frame that it opened has returned.
pub(crate) fn expr_after_rest2(_class: Class) -> &'static [Row]
    ensures { rows_of result.now ≡ expr_after_rest2 _class }
{
    &[ROW_25]
}

/// The rest of a row of `expr.after`, once the frame that it opened has returned.
pub(crate) fn expr_after_rest3(_class: Class) -> &'static [Row]
    ensures { rows_of result.now ≡ expr_after_rest3 _class }
{
    &[ROW_25]
}

/// The rest of a row of `expr.after`, once the frame that it opened has returned.
pub(crate) fn expr_after_rest4(_class: Class) -> &'static [Row]
    ensures { rows_of result.now ≡ expr_after_rest4 _class }
{
    &[ROW_26]
}

/// The rest of a row of `expr.after`, once the frame that it opened has returned.
pub(crate) fn expr_after_rest5(_class: Class) -> &'static [Row]
    ensures { rows_of result.now ≡ expr_after_rest5 _class }
{
    &[ROW_26]
}

/// The rest of a row of `expr.after`, once the frame that it opened has returned.
pub(crate) fn expr_after_rest6(_class: Class) -> &'static [Row]
    ensures { rows_of result.now ≡ expr_after_rest6 _class }
{
    &[ROW_26]
}

/// The rest of a row of `expr.after`, once the frame that it opened has returned.
pub(crate) fn expr_after_rest7(_class: Class) -> &'static [Row]
    ensures { rows_of result.now ≡ expr_after_rest7 _class }
{
    &[ROW_26]
}

/// The rest of a row of `expr.after`, once the frame that it opened has returned.
pub(crate) fn expr_after_rest8(_class: Class) -> &'static [Row]
    ensures { rows_of result.now ≡ expr_after_rest8 _class }
{
    &[ROW_26]
}

/// The rest of a row of `expr.after`, once the frame that it opened has returned.
pub(crate) fn expr_after_rest9(_class: Class) -> &'static [Row]
    ensures { rows_of result.now ≡ expr_after_rest9 _class }
{
    &[ROW_26]
}

/// The rest of a row of `expr.not`, once the frame that it opened has returned.
pub(crate) fn expr_not_rest(_class: Class) -> &'static [Row]
    ensures { rows_of result.now ≡ expr_not_rest _class }
{
    &[ROW_26]
}

/// The rest of a row of `expr.name`, once the frame that it opened has returned.
pub(crate) fn expr_name_rest(_class: Class) -> &'static [Row]
    ensures { rows_of result.now ≡ expr_name_rest _class }
{
    &[ROW_27]
}

/// The rest of a row of `expr.blank`, once the frame that it opened has returned.
pub(crate) fn expr_blank_rest1(_class: Class) -> &'static [Row]
    ensures { rows_of result.now ≡ expr_blank_rest1 _class }
{
    &[ROW_27]
}

/// The rest of a row of `expr.blank`, once the frame that it opened has returned.
pub(crate) fn expr_blank_rest2(_class: Class) -> &'static [Row]
    ensures { rows_of result.now ≡ expr_blank_rest2 _class }
{
    &[ROW_28]
}

/// The rest of a row of `expr.group`, once the frame that it opened has returned.
pub(crate) fn expr_group_rest1(_class: Class) -> &'static [Row]
    ensures { rows_of result.now ≡ expr_group_rest1 _class }
{
    &[ROW_27]
}

/// The rest of a row of `expr.group`, once the frame that it opened has returned.
pub(crate) fn expr_group_rest2(_class: Class) -> &'static [Row]
    ensures { rows_of result.now ≡ expr_group_rest2 _class }
{
    &[ROW_28]
}
