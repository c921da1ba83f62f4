// Written by bench/grammar_crate.py from crates/grammar.table: change that and run it.
//! The rows of statements and control flow.
ghost use Rattle.std.specs.Prelude.{◌≡◌};
ghost use Rattle.typst_grammar.specs.Row.{rows_of};
ghost use Rattle.typst_grammar.specs.StatementsRows.{binding, binding_closure, binding_closure_rest, binding_end, binding_name, binding_name_rest, binding_rest, binding_value, binding_value_rest, return_value, return_value_rest, set_arguments, set_condition, set_condition_rest, show_colon, show_colon_rest, show_selector, target, target_field, target_field_rest};

use crate::expectation::Expectation;
use crate::row::{Action, Call, Condition, Newline, Row, Take, Unique};
use crate::rows::{Class, State};
use typst_base::SyntaxKind;

/// `| -> binding.rest; pattern`
const ROW_0: Row = Row {
    condition: Condition::Always,
    before: &[Action::Goto(State::BindingRest)],
    take: Take::Nothing,
    after: &[],
    call: Some(Call {
        state: State::Pattern,
        number: 0,
        enters: false,
        is_deep: false,
        newline: None,
    }),
};

/// `| eat; -> binding.name`
const ROW_1: Row = Row {
    condition: Condition::Always,
    before: &[],
    take: Take::Eat,
    after: &[Action::Goto(State::BindingName)],
    call: None,
};

/// `| wrap LetBinding; -> expr.after`
const ROW_2: Row = Row {
    condition: Condition::Always,
    before: &[
        Action::Wrap(SyntaxKind::LetBinding),
        Action::Goto(State::ExprAfter),
    ],
    take: Take::Nothing,
    after: &[],
    call: None,
};

/// `if direct | around binding.end; -> binding.closure; params`
const ROW_3: Row = Row {
    condition: Condition::Direct,
    before: &[
        Action::Around(State::BindingEnd, 0),
        Action::Goto(State::BindingClosure),
    ],
    take: Take::Nothing,
    after: &[],
    call: Some(Call {
        state: State::Params,
        number: 0,
        enters: false,
        is_deep: true,
        newline: Some(Newline::Go),
    }),
};

/// `| eat; -> binding.name.rest; expr 1`
const ROW_4: Row = Row {
    condition: Condition::Always,
    before: &[],
    take: Take::Eat,
    after: &[Action::Goto(State::BindingNameRest)],
    call: Some(Call {
        state: State::Expr,
        number: 1,
        enters: false,
        is_deep: false,
        newline: None,
    }),
};

/// `| expected equals sign; wrap Closure; return`
const ROW_5: Row = Row {
    condition: Condition::Always,
    before: &[
        Action::Expected(Expectation::EqualsSign),
        Action::Wrap(SyntaxKind::Closure),
        Action::Return,
    ],
    take: Take::Nothing,
    after: &[],
    call: None,
};

/// `| eat; -> binding.closure.rest; expr 1`
const ROW_6: Row = Row {
    condition: Condition::Always,
    before: &[],
    take: Take::Eat,
    after: &[Action::Goto(State::BindingClosureRest)],
    call: Some(Call {
        state: State::Expr,
        number: 1,
        enters: false,
        is_deep: false,
        newline: None,
    }),
};

/// `| expected equals sign; wrap LetBinding; -> expr.after`
const ROW_7: Row = Row {
    condition: Condition::Always,
    before: &[
        Action::Expected(Expectation::EqualsSign),
        Action::Wrap(SyntaxKind::LetBinding),
        Action::Goto(State::ExprAfter),
    ],
    take: Take::Nothing,
    after: &[],
    call: None,
};

/// `| eat; -> binding.value.rest; expr 1`
const ROW_8: Row = Row {
    condition: Condition::Always,
    before: &[],
    take: Take::Eat,
    after: &[Action::Goto(State::BindingValueRest)],
    call: Some(Call {
        state: State::Expr,
        number: 1,
        enters: false,
        is_deep: false,
        newline: None,
    }),
};

/// `| -> target.field; name`
const ROW_9: Row = Row {
    condition: Condition::Always,
    before: &[Action::Goto(State::TargetField)],
    take: Take::Nothing,
    after: &[],
    call: Some(Call {
        state: State::Name,
        number: 0,
        enters: false,
        is_deep: false,
        newline: None,
    }),
};

/// `| return`
const ROW_10: Row = Row {
    condition: Condition::Always,
    before: &[Action::Return],
    take: Take::Nothing,
    after: &[],
    call: None,
};

/// `| eat; -> target.field.rest; name`
const ROW_11: Row = Row {
    condition: Condition::Always,
    before: &[],
    take: Take::Eat,
    after: &[Action::Goto(State::TargetFieldRest)],
    call: Some(Call {
        state: State::Name,
        number: 0,
        enters: false,
        is_deep: false,
        newline: None,
    }),
};

/// `| expected argument list; -> set.condition; args`
const ROW_12: Row = Row {
    condition: Condition::Always,
    before: &[
        Action::Expected(Expectation::ArgumentList),
        Action::Goto(State::SetCondition),
    ],
    take: Take::Nothing,
    after: &[],
    call: Some(Call {
        state: State::Args,
        number: 0,
        enters: false,
        is_deep: false,
        newline: None,
    }),
};

/// `if direct | -> set.condition; args`
const ROW_13: Row = Row {
    condition: Condition::Direct,
    before: &[Action::Goto(State::SetCondition)],
    take: Take::Nothing,
    after: &[],
    call: Some(Call {
        state: State::Args,
        number: 0,
        enters: false,
        is_deep: false,
        newline: None,
    }),
};

/// `| wrap SetRule; -> expr.after`
const ROW_14: Row = Row {
    condition: Condition::Always,
    before: &[
        Action::Wrap(SyntaxKind::SetRule),
        Action::Goto(State::ExprAfter),
    ],
    take: Take::Nothing,
    after: &[],
    call: None,
};

/// `| eat; -> set.condition.rest; expr 1`
const ROW_15: Row = Row {
    condition: Condition::Always,
    before: &[],
    take: Take::Eat,
    after: &[Action::Goto(State::SetConditionRest)],
    call: Some(Call {
        state: State::Expr,
        number: 1,
        enters: false,
        is_deep: false,
        newline: None,
    }),
};

/// `| -> show.colon; expr 1`
const ROW_16: Row = Row {
    condition: Condition::Always,
    before: &[Action::Goto(State::ShowColon)],
    take: Take::Nothing,
    after: &[],
    call: Some(Call {
        state: State::Expr,
        number: 1,
        enters: false,
        is_deep: false,
        newline: None,
    }),
};

/// `| -> show.colon`
const ROW_17: Row = Row {
    condition: Condition::Always,
    before: &[Action::Goto(State::ShowColon)],
    take: Take::Nothing,
    after: &[],
    call: None,
};

/// `| expected colon; wrap ShowRule; -> expr.after`
const ROW_18: Row = Row {
    condition: Condition::Always,
    before: &[
        Action::Expected(Expectation::Colon),
        Action::Wrap(SyntaxKind::ShowRule),
        Action::Goto(State::ExprAfter),
    ],
    take: Take::Nothing,
    after: &[],
    call: None,
};

/// `| eat; -> show.colon.rest; expr 1`
const ROW_19: Row = Row {
    condition: Condition::Always,
    before: &[],
    take: Take::Eat,
    after: &[Action::Goto(State::ShowColonRest)],
    call: Some(Call {
        state: State::Expr,
        number: 1,
        enters: false,
        is_deep: false,
        newline: None,
    }),
};

/// `| wrap FuncReturn; -> expr.after`
const ROW_20: Row = Row {
    condition: Condition::Always,
    before: &[
        Action::Wrap(SyntaxKind::FuncReturn),
        Action::Goto(State::ExprAfter),
    ],
    take: Take::Nothing,
    after: &[],
    call: None,
};

/// `| -> return.value.rest; expr 1`
const ROW_21: Row = Row {
    condition: Condition::Always,
    before: &[Action::Goto(State::ReturnValueRest)],
    take: Take::Nothing,
    after: &[],
    call: Some(Call {
        state: State::Expr,
        number: 1,
        enters: false,
        is_deep: false,
        newline: None,
    }),
};

/// `| unique binding; -> binding.value`
const ROW_22: Row = Row {
    condition: Condition::Always,
    before: &[
        Action::Unique(Unique::Binding),
        Action::Goto(State::BindingValue),
    ],
    take: Take::Nothing,
    after: &[],
    call: None,
};

/// `| wrap Closure; return`
const ROW_23: Row = Row {
    condition: Condition::Always,
    before: &[Action::Wrap(SyntaxKind::Closure), Action::Return],
    take: Take::Nothing,
    after: &[],
    call: None,
};

/// `| wrap FieldAccess; -> target.field`
const ROW_24: Row = Row {
    condition: Condition::Always,
    before: &[
        Action::Wrap(SyntaxKind::FieldAccess),
        Action::Goto(State::TargetField),
    ],
    take: Take::Nothing,
    after: &[],
    call: None,
};

/// `| wrap ShowRule; -> expr.after`
const ROW_25: Row = Row {
    condition: Condition::Always,
    before: &[
        Action::Wrap(SyntaxKind::ShowRule),
        Action::Goto(State::ExprAfter),
    ],
    take: Take::Nothing,
    after: &[],
    call: None,
};

/// What `let` binds.
pub(crate) fn binding(class: Class) -> &'static [Row]
    ensures { rows_of result.now ≡ binding class }
{
    match class {
        Class::Ident => &[ROW_1],
        _ => &[ROW_0],
    }
}

/// What may follow a name that is bound.
pub(crate) fn binding_name(class: Class) -> &'static [Row]
    ensures { rows_of result.now ≡ binding_name class }
{
    match class {
        Class::LeftParen => &[ROW_3, ROW_2],
        Class::Eq => &[ROW_4],
        _ => &[ROW_2],
    }
}

/// The body of a function that has a name.
pub(crate) fn binding_closure(class: Class) -> &'static [Row]
    ensures { rows_of result.now ≡ binding_closure class }
{
    match class {
        Class::Eq => &[ROW_6],
        _ => &[ROW_5],
    }
}

/// The end of a function that has a name.
pub(crate) fn binding_end(_class: Class) -> &'static [Row]
    ensures { rows_of result.now ≡ binding_end _class }
{
    &[ROW_2]
}

/// The value of a pattern.
pub(crate) fn binding_value(class: Class) -> &'static [Row]
    ensures { rows_of result.now ≡ binding_value class }
{
    match class {
        Class::Eq => &[ROW_8],
        _ => &[ROW_7],
    }
}

/// The function of a set rule.
pub(crate) fn target(_class: Class) -> &'static [Row]
    ensures { rows_of result.now ≡ target _class }
{
    &[ROW_9]
}

/// The fields of such a function.
pub(crate) fn target_field(class: Class) -> &'static [Row]
    ensures { rows_of result.now ≡ target_field class }
{
    match class {
        Class::Dot | Class::Field => &[ROW_11],
        _ => &[ROW_10],
    }
}

/// The arguments of a set rule.
pub(crate) fn set_arguments(class: Class) -> &'static [Row]
    ensures { rows_of result.now ≡ set_arguments class }
{
    match class {
        Class::LeftBracket | Class::LeftParen => &[ROW_13, ROW_12],
        _ => &[ROW_12],
    }
}

/// The condition of a set rule.
pub(crate) fn set_condition(class: Class) -> &'static [Row]
    ensures { rows_of result.now ≡ set_condition class }
{
    match class {
        Class::If => &[ROW_15],
        _ => &[ROW_14],
    }
}

/// The selector of a show rule.
pub(crate) fn show_selector(class: Class) -> &'static [Row]
    ensures { rows_of result.now ≡ show_selector class }
{
    match class {
        Class::Colon => &[ROW_17],
        _ => &[ROW_16],
    }
}

/// The colon of a show rule.
pub(crate) fn show_colon(class: Class) -> &'static [Row]
    ensures { rows_of result.now ≡ show_colon class }
{
    match class {
        Class::Colon => &[ROW_19],
        _ => &[ROW_18],
    }
}

/// The value that `return` may have.
pub(crate) fn return_value(class: Class) -> &'static [Row]
    ensures { rows_of result.now ≡ return_value class }
{
    match class {
        Class::Label
        | Class::Raw
        | Class::Dollar
        | Class::LeftBrace
        | Class::LeftBracket
        | Class::LeftParen
        | Class::Underscore
        | Class::Sign
        | Class::Ident
        | Class::Str
        | Class::Literal
        | Class::Constant
        | Class::Not
        | Class::Let
        | Class::Set
        | Class::Show
        | Class::Context
        | Class::If
        | Class::For
        | Class::While
        | Class::Break
        | Class::Continue
        | Class::Return
        | Class::Import
        | Class::Include => &[ROW_21],
        _ => &[ROW_20],
    }
}

/// The rest of a row of `binding`, once the frame that it opened has returned.
pub(crate) fn binding_rest(_class: Class) -> &'static [Row]
    ensures { rows_of result.now ≡ binding_rest _class }
{
    &[ROW_22]
}

/// The rest of a row of `binding.name`, once the frame that it opened has returned.
pub(crate) fn binding_name_rest(_class: Class) -> &'static [Row]
    ensures { rows_of result.now ≡ binding_name_rest _class }
{
    &[ROW_2]
}

/// The rest of a row of `binding.closure`, once the frame that it opened has returned.
pub(crate) fn binding_closure_rest(_class: Class) -> &'static [Row]
    ensures { rows_of result.now ≡ binding_closure_rest _class }
{
    &[ROW_23]
}

/// The rest of a row of `binding.value`, once the frame that it opened has returned.
pub(crate) fn binding_value_rest(_class: Class) -> &'static [Row]
    ensures { rows_of result.now ≡ binding_value_rest _class }
{
    &[ROW_2]
}

/// The rest of a row of `target.field`, once the frame that it opened has returned.
pub(crate) fn target_field_rest(_class: Class) -> &'static [Row]
    ensures { rows_of result.now ≡ target_field_rest _class }
{
    &[ROW_24]
}

/// The rest of a row of `set.condition`, once the frame that it opened has returned.
pub(crate) fn set_condition_rest(_class: Class) -> &'static [Row]
    ensures { rows_of result.now ≡ set_condition_rest _class }
{
    &[ROW_14]
}

/// The rest of a row of `show.colon`, once the frame that it opened has returned.
pub(crate) fn show_colon_rest(_class: Class) -> &'static [Row]
    ensures { rows_of result.now ≡ show_colon_rest _class }
{
    &[ROW_25]
}

/// The rest of a row of `return.value`, once the frame that it opened has returned.
pub(crate) fn return_value_rest(_class: Class) -> &'static [Row]
    ensures { rows_of result.now ≡ return_value_rest _class }
{
    &[ROW_20]
}
