// Written by bench/grammar_crate.py from crates/grammar.table: change that and run it.
//! The rows of loops and conditionals.
ghost use Rattle.std.specs.Prelude.{◌≡◌};
ghost use Rattle.typst_grammar.specs.Row.{rows_of};
ghost use Rattle.typst_grammar.specs.ControlRows.{body, body_rest1, body_rest2, conditional, conditional_branch, conditional_branch_rest1, conditional_branch_rest2, conditional_else, conditional_rest, for_in, for_in_rest1, for_in_rest1_rest, for_in_rest2, for_in_rest2_rest, for_more};

use crate::expectation::Expectation;
use crate::row::{Action, Call, Condition, Newline, Row, Take};
use crate::rows::{Class, State};
use typst_base::SyntaxKind;

/// `| expected block; return`
const ROW_0: Row = Row {
    condition: Condition::Always,
    before: &[Action::Expected(Expectation::Block), Action::Return],
    take: Take::Nothing,
    after: &[],
    call: None,
};

/// `| -> body.rest1; braces`
const ROW_1: Row = Row {
    condition: Condition::Always,
    before: &[Action::Goto(State::BodyRest1)],
    take: Take::Nothing,
    after: &[],
    call: Some(Call {
        state: State::Braces,
        number: 0,
        enters: false,
        is_deep: true,
        newline: Some(Newline::Go),
    }),
};

/// `| -> body.rest2; content`
const ROW_2: Row = Row {
    condition: Condition::Always,
    before: &[Action::Goto(State::BodyRest2)],
    take: Take::Nothing,
    after: &[],
    call: Some(Call {
        state: State::Content,
        number: 0,
        enters: false,
        is_deep: true,
        newline: Some(Newline::Go),
    }),
};

/// `| eat; -> conditional.rest; expr 1`
const ROW_3: Row = Row {
    condition: Condition::Always,
    before: &[],
    take: Take::Eat,
    after: &[Action::Goto(State::ConditionalRest)],
    call: Some(Call {
        state: State::Expr,
        number: 1,
        enters: false,
        is_deep: false,
        newline: None,
    }),
};

/// `| wrap Conditional; return`
const ROW_4: Row = Row {
    condition: Condition::Always,
    before: &[Action::Wrap(SyntaxKind::Conditional), Action::Return],
    take: Take::Nothing,
    after: &[],
    call: None,
};

/// `| eat; -> conditional.branch`
const ROW_5: Row = Row {
    condition: Condition::Always,
    before: &[],
    take: Take::Eat,
    after: &[Action::Goto(State::ConditionalBranch)],
    call: None,
};

/// `| -> conditional.branch.rest2; body`
const ROW_6: Row = Row {
    condition: Condition::Always,
    before: &[Action::Goto(State::ConditionalBranchRest2)],
    take: Take::Nothing,
    after: &[],
    call: Some(Call {
        state: State::Body,
        number: 0,
        enters: false,
        is_deep: false,
        newline: None,
    }),
};

/// `| -> conditional.branch.rest1; conditional`
const ROW_7: Row = Row {
    condition: Condition::Always,
    before: &[Action::Goto(State::ConditionalBranchRest1)],
    take: Take::Nothing,
    after: &[],
    call: Some(Call {
        state: State::Conditional,
        number: 0,
        enters: false,
        is_deep: false,
        newline: None,
    }),
};

/// `| expected keyword `in`; -> for.in.rest2; expr 1`
const ROW_8: Row = Row {
    condition: Condition::Always,
    before: &[
        Action::Expected(Expectation::KeywordIn),
        Action::Goto(State::ForInRest2),
    ],
    take: Take::Nothing,
    after: &[],
    call: Some(Call {
        state: State::Expr,
        number: 1,
        enters: false,
        is_deep: false,
        newline: None,
    }),
};

/// `| unexpected; -> for.more`
const ROW_9: Row = Row {
    condition: Condition::Always,
    before: &[],
    take: Take::Unexpected,
    after: &[Action::Goto(State::ForMore)],
    call: None,
};

/// `| eat; -> for.in.rest1; expr 1`
const ROW_10: Row = Row {
    condition: Condition::Always,
    before: &[],
    take: Take::Eat,
    after: &[Action::Goto(State::ForInRest1)],
    call: Some(Call {
        state: State::Expr,
        number: 1,
        enters: false,
        is_deep: false,
        newline: None,
    }),
};

/// `| -> for.in`
const ROW_11: Row = Row {
    condition: Condition::Always,
    before: &[Action::Goto(State::ForIn)],
    take: Take::Nothing,
    after: &[],
    call: None,
};

/// `| -> for.in; pattern`
const ROW_12: Row = Row {
    condition: Condition::Always,
    before: &[Action::Goto(State::ForIn)],
    take: Take::Nothing,
    after: &[],
    call: Some(Call {
        state: State::Pattern,
        number: 0,
        enters: false,
        is_deep: false,
        newline: None,
    }),
};

/// `| return`
const ROW_13: Row = Row {
    condition: Condition::Always,
    before: &[Action::Return],
    take: Take::Nothing,
    after: &[],
    call: None,
};

/// `| -> conditional.else; body`
const ROW_14: Row = Row {
    condition: Condition::Always,
    before: &[Action::Goto(State::ConditionalElse)],
    take: Take::Nothing,
    after: &[],
    call: Some(Call {
        state: State::Body,
        number: 0,
        enters: false,
        is_deep: false,
        newline: None,
    }),
};

/// `| -> for.in.rest1.rest; body`
const ROW_15: Row = Row {
    condition: Condition::Always,
    before: &[Action::Goto(State::ForInRest1Rest)],
    take: Take::Nothing,
    after: &[],
    call: Some(Call {
        state: State::Body,
        number: 0,
        enters: false,
        is_deep: false,
        newline: None,
    }),
};

/// `| wrap ForLoop; -> expr.after`
const ROW_16: Row = Row {
    condition: Condition::Always,
    before: &[
        Action::Wrap(SyntaxKind::ForLoop),
        Action::Goto(State::ExprAfter),
    ],
    take: Take::Nothing,
    after: &[],
    call: None,
};

/// `| -> for.in.rest2.rest; body`
const ROW_17: Row = Row {
    condition: Condition::Always,
    before: &[Action::Goto(State::ForInRest2Rest)],
    take: Take::Nothing,
    after: &[],
    call: Some(Call {
        state: State::Body,
        number: 0,
        enters: false,
        is_deep: false,
        newline: None,
    }),
};

/// The block of a loop or a conditional.
pub(crate) fn body(class: Class) -> &'static [Row]
    ensures { rows_of result.now ≡ body class }
{
    match class {
        Class::LeftBrace => &[ROW_1],
        Class::LeftBracket => &[ROW_2],
        _ => &[ROW_0],
    }
}

/// A conditional.
pub(crate) fn conditional(class: Class) -> &'static [Row]
    ensures { rows_of result.now ≡ conditional class }
{
    match class {
        Class::If => &[ROW_3],
        _ => &[],
    }
}

/// Whether a conditional has another branch.
pub(crate) fn conditional_else(class: Class) -> &'static [Row]
    ensures { rows_of result.now ≡ conditional_else class }
{
    match class {
        Class::Else => &[ROW_5],
        _ => &[ROW_4],
    }
}

/// The other branch of a conditional.
pub(crate) fn conditional_branch(class: Class) -> &'static [Row]
    ensures { rows_of result.now ≡ conditional_branch class }
{
    match class {
        Class::If => &[ROW_7],
        _ => &[ROW_6],
    }
}

/// What follows the pattern of a loop.
pub(crate) fn for_in(class: Class) -> &'static [Row]
    ensures { rows_of result.now ≡ for_in class }
{
    match class {
        Class::Comma => &[ROW_9],
        Class::In => &[ROW_10],
        _ => &[ROW_8],
    }
}

/// A second pattern that isn't in a parenthesis.
pub(crate) fn for_more(class: Class) -> &'static [Row]
    ensures { rows_of result.now ≡ for_more class }
{
    match class {
        Class::Label
        | Class::Raw
        | Class::Dollar
        | Class::LeftBrace
        | Class::LeftBracket
        | Class::LeftParen
        | Class::Underscore
        | Class::Ident
        | Class::Str
        | Class::Literal
        | Class::Constant
        | Class::Let
        | Class::Set
        | Class::Show
        | Class::Context
        | Class::If
        | Class::For
        | Class::While
        | Class::Break
        | Class::Continue
        | Class::Return
        | Class::Import
        | Class::Include => &[ROW_12],
        _ => &[ROW_11],
    }
}

/// The rest of a row of `body`, once the frame that it opened has returned.
pub(crate) fn body_rest1(_class: Class) -> &'static [Row]
    ensures { rows_of result.now ≡ body_rest1 _class }
{
    &[ROW_13]
}

/// The rest of a row of `body`, once the frame that it opened has returned.
pub(crate) fn body_rest2(_class: Class) -> &'static [Row]
    ensures { rows_of result.now ≡ body_rest2 _class }
{
    &[ROW_13]
}

/// The rest of a row of `conditional`, once the frame that it opened has returned.
pub(crate) fn conditional_rest(_class: Class) -> &'static [Row]
    ensures { rows_of result.now ≡ conditional_rest _class }
{
    &[ROW_14]
}

/// The rest of a row of `conditional.branch`, once the frame that it opened has returned.
pub(crate) fn conditional_branch_rest1(_class: Class) -> &'static [Row]
    ensures { rows_of result.now ≡ conditional_branch_rest1 _class }
{
    &[ROW_4]
}

/// The rest of a row of `conditional.branch`, once the frame that it opened has returned.
pub(crate) fn conditional_branch_rest2(_class: Class) -> &'static [Row]
    ensures { rows_of result.now ≡ conditional_branch_rest2 _class }
{
    &[ROW_4]
}

/// The rest of a row of `for.in`, once the frame that it opened has returned.
pub(crate) fn for_in_rest1(_class: Class) -> &'static [Row]
    ensures { rows_of result.now ≡ for_in_rest1 _class }
{
    &[ROW_15]
}

/// The rest of a row of `for.in.rest1`, once the frame that it opened has returned.
pub(crate) fn for_in_rest1_rest(_class: Class) -> &'static [Row]
    ensures { rows_of result.now ≡ for_in_rest1_rest _class }
{
    &[ROW_16]
}

/// The rest of a row of `for.in`, once the frame that it opened has returned.
pub(crate) fn for_in_rest2(_class: Class) -> &'static [Row]
    ensures { rows_of result.now ≡ for_in_rest2 _class }
{
    &[ROW_17]
}

/// The rest of a row of `for.in.rest2`, once the frame that it opened has returned.
pub(crate) fn for_in_rest2_rest(_class: Class) -> &'static [Row]
    ensures { rows_of result.now ≡ for_in_rest2_rest _class }
{
    &[ROW_16]
}
