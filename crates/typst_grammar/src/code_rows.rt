// Written by bench/grammar_crate.py from crates/grammar.table: change that and run it.
//! The rows of code.
ghost use Rattle.std.specs.Prelude.{◌≡◌};
ghost use Rattle.typst_grammar.specs.Row.{rows_of};
ghost use Rattle.typst_grammar.specs.CodeRows.{embedded, embedded_expr, embedded_statement, expr, expr_rest1, expr_rest2, expr_rest3, expr_rest4, expr_rest5, expr_rest5_rest, expr_rest6, expr_rest7, statement};

use crate::expectation::Expectation;
use crate::row::{Action, Call, Condition, Newline, Row, Take, Unique};
use crate::rows::{Class, State};
use typst_base::SyntaxKind;

/// `| expected expression; return`
const ROW_0: Row = Row {
    condition: Condition::Always,
    before: &[Action::Expected(Expectation::Expression), Action::Return],
    take: Take::Nothing,
    after: &[],
    call: None,
};

/// `if direct | unexpected; -> embedded.expr`
const ROW_1: Row = Row {
    condition: Condition::Direct,
    before: &[],
    take: Take::Unexpected,
    after: &[Action::Goto(State::EmbeddedExpr)],
    call: None,
};

/// `if direct | -> embedded.expr; expr 9`
const ROW_2: Row = Row {
    condition: Condition::Direct,
    before: &[Action::Goto(State::EmbeddedExpr)],
    take: Take::Nothing,
    after: &[],
    call: Some(Call {
        state: State::Expr,
        number: 9,
        enters: false,
        is_deep: false,
        newline: None,
    }),
};

/// `if direct | -> embedded.statement; expr 9`
const ROW_3: Row = Row {
    condition: Condition::Direct,
    before: &[Action::Goto(State::EmbeddedStatement)],
    take: Take::Nothing,
    after: &[],
    call: Some(Call {
        state: State::Expr,
        number: 9,
        enters: false,
        is_deep: false,
        newline: None,
    }),
};

/// `| return`
const ROW_4: Row = Row {
    condition: Condition::Always,
    before: &[Action::Return],
    take: Take::Nothing,
    after: &[],
    call: None,
};

/// `| expected semicolon or line break; return`
const ROW_5: Row = Row {
    condition: Condition::Always,
    before: &[
        Action::Expected(Expectation::SemicolonOrLineBreak),
        Action::Return,
    ],
    take: Take::Nothing,
    after: &[],
    call: None,
};

/// `| eat; return`
const ROW_6: Row = Row {
    condition: Condition::Always,
    before: &[],
    take: Take::Eat,
    after: &[Action::Return],
    call: None,
};

/// `if direct | eat; return`
const ROW_7: Row = Row {
    condition: Condition::Direct,
    before: &[],
    take: Take::Eat,
    after: &[Action::Return],
    call: None,
};

/// `| expected expression; -> expr.after`
const ROW_8: Row = Row {
    condition: Condition::Always,
    before: &[
        Action::Expected(Expectation::Expression),
        Action::Goto(State::ExprAfter),
    ],
    take: Take::Nothing,
    after: &[],
    call: None,
};

/// `| eat; -> expr.after`
const ROW_9: Row = Row {
    condition: Condition::Always,
    before: &[],
    take: Take::Eat,
    after: &[Action::Goto(State::ExprAfter)],
    call: None,
};

/// `| -> expr.after; equation`
const ROW_10: Row = Row {
    condition: Condition::Always,
    before: &[Action::Goto(State::ExprAfter)],
    take: Take::Nothing,
    after: &[],
    call: Some(Call {
        state: State::Equation,
        number: 0,
        enters: false,
        is_deep: true,
        newline: Some(Newline::Go),
    }),
};

/// `| -> expr.after; braces`
const ROW_11: Row = Row {
    condition: Condition::Always,
    before: &[Action::Goto(State::ExprAfter)],
    take: Take::Nothing,
    after: &[],
    call: Some(Call {
        state: State::Braces,
        number: 0,
        enters: false,
        is_deep: true,
        newline: Some(Newline::Go),
    }),
};

/// `| -> expr.after; content`
const ROW_12: Row = Row {
    condition: Condition::Always,
    before: &[Action::Goto(State::ExprAfter)],
    take: Take::Nothing,
    after: &[],
    call: Some(Call {
        state: State::Content,
        number: 0,
        enters: false,
        is_deep: true,
        newline: Some(Newline::Go),
    }),
};

/// `| -> expr.group; group`
const ROW_13: Row = Row {
    condition: Condition::Always,
    before: &[Action::Goto(State::ExprGroup)],
    take: Take::Nothing,
    after: &[],
    call: Some(Call {
        state: State::Group,
        number: 0,
        enters: false,
        is_deep: true,
        newline: Some(Newline::Go),
    }),
};

/// `if upto 8 | eat; -> expr.blank`
const ROW_14: Row = Row {
    condition: Condition::UpTo(8),
    before: &[],
    take: Take::Eat,
    after: &[Action::Goto(State::ExprBlank)],
    call: None,
};

/// `if upto 8 | eat; -> expr.rest1; expr 7`
const ROW_15: Row = Row {
    condition: Condition::UpTo(8),
    before: &[],
    take: Take::Eat,
    after: &[Action::Goto(State::ExprRest1)],
    call: Some(Call {
        state: State::Expr,
        number: 7,
        enters: false,
        is_deep: false,
        newline: None,
    }),
};

/// `| eat; -> expr.name`
const ROW_16: Row = Row {
    condition: Condition::Always,
    before: &[],
    take: Take::Eat,
    after: &[Action::Goto(State::ExprName)],
    call: None,
};

/// `if upto 8 | eat; -> expr.rest2; expr 4`
const ROW_17: Row = Row {
    condition: Condition::UpTo(8),
    before: &[],
    take: Take::Eat,
    after: &[Action::Goto(State::ExprRest2)],
    call: Some(Call {
        state: State::Expr,
        number: 4,
        enters: false,
        is_deep: false,
        newline: None,
    }),
};

/// `| eat; -> binding`
const ROW_18: Row = Row {
    condition: Condition::Always,
    before: &[],
    take: Take::Eat,
    after: &[Action::Goto(State::Binding)],
    call: None,
};

/// `| eat; -> set.arguments; target`
const ROW_19: Row = Row {
    condition: Condition::Always,
    before: &[],
    take: Take::Eat,
    after: &[Action::Goto(State::SetArguments)],
    call: Some(Call {
        state: State::Target,
        number: 0,
        enters: false,
        is_deep: false,
        newline: None,
    }),
};

/// `| eat; -> show.selector`
const ROW_20: Row = Row {
    condition: Condition::Always,
    before: &[],
    take: Take::Eat,
    after: &[Action::Goto(State::ShowSelector)],
    call: None,
};

/// `if upto 8 | eat; -> expr.rest3; expr 1`
const ROW_21: Row = Row {
    condition: Condition::UpTo(8),
    before: &[],
    take: Take::Eat,
    after: &[Action::Goto(State::ExprRest3)],
    call: Some(Call {
        state: State::Expr,
        number: 1,
        enters: false,
        is_deep: false,
        newline: None,
    }),
};

/// `| eat; -> expr.rest4; expr 9`
const ROW_22: Row = Row {
    condition: Condition::Always,
    before: &[],
    take: Take::Eat,
    after: &[Action::Goto(State::ExprRest4)],
    call: Some(Call {
        state: State::Expr,
        number: 9,
        enters: false,
        is_deep: false,
        newline: None,
    }),
};

/// `| -> expr.after; conditional`
const ROW_23: Row = Row {
    condition: Condition::Always,
    before: &[Action::Goto(State::ExprAfter)],
    take: Take::Nothing,
    after: &[],
    call: Some(Call {
        state: State::Conditional,
        number: 0,
        enters: false,
        is_deep: false,
        newline: None,
    }),
};

/// `| eat; -> expr.rest6; pattern`
const ROW_24: Row = Row {
    condition: Condition::Always,
    before: &[],
    take: Take::Eat,
    after: &[Action::Goto(State::ExprRest6)],
    call: Some(Call {
        state: State::Pattern,
        number: 0,
        enters: false,
        is_deep: false,
        newline: None,
    }),
};

/// `| eat; -> expr.rest5; expr 1`
const ROW_25: Row = Row {
    condition: Condition::Always,
    before: &[],
    take: Take::Eat,
    after: &[Action::Goto(State::ExprRest5)],
    call: Some(Call {
        state: State::Expr,
        number: 1,
        enters: false,
        is_deep: false,
        newline: None,
    }),
};

/// `| eat; wrap LoopBreak; -> expr.after`
const ROW_26: Row = Row {
    condition: Condition::Always,
    before: &[],
    take: Take::Eat,
    after: &[
        Action::Wrap(SyntaxKind::LoopBreak),
        Action::Goto(State::ExprAfter),
    ],
    call: None,
};

/// `| eat; wrap LoopContinue; -> expr.after`
const ROW_27: Row = Row {
    condition: Condition::Always,
    before: &[],
    take: Take::Eat,
    after: &[
        Action::Wrap(SyntaxKind::LoopContinue),
        Action::Goto(State::ExprAfter),
    ],
    call: None,
};

/// `| eat; -> return.value`
const ROW_28: Row = Row {
    condition: Condition::Always,
    before: &[],
    take: Take::Eat,
    after: &[Action::Goto(State::ReturnValue)],
    call: None,
};

/// `| eat; -> import.as; expr 1`
const ROW_29: Row = Row {
    condition: Condition::Always,
    before: &[],
    take: Take::Eat,
    after: &[Action::Goto(State::ImportAs)],
    call: Some(Call {
        state: State::Expr,
        number: 1,
        enters: false,
        is_deep: false,
        newline: None,
    }),
};

/// `| eat; -> expr.rest7; expr 1`
const ROW_30: Row = Row {
    condition: Condition::Always,
    before: &[],
    take: Take::Eat,
    after: &[Action::Goto(State::ExprRest7)],
    call: Some(Call {
        state: State::Expr,
        number: 1,
        enters: false,
        is_deep: false,
        newline: None,
    }),
};

/// `| wrap Unary; -> expr.after`
const ROW_31: Row = Row {
    condition: Condition::Always,
    before: &[
        Action::Wrap(SyntaxKind::Unary),
        Action::Goto(State::ExprAfter),
    ],
    take: Take::Nothing,
    after: &[],
    call: None,
};

/// `| wrap Contextual; -> expr.after`
const ROW_32: Row = Row {
    condition: Condition::Always,
    before: &[
        Action::Wrap(SyntaxKind::Contextual),
        Action::Goto(State::ExprAfter),
    ],
    take: Take::Nothing,
    after: &[],
    call: None,
};

/// `| -> expr.rest5.rest; body`
const ROW_33: Row = Row {
    condition: Condition::Always,
    before: &[Action::Goto(State::ExprRest5Rest)],
    take: Take::Nothing,
    after: &[],
    call: Some(Call {
        state: State::Body,
        number: 0,
        enters: false,
        is_deep: false,
        newline: None,
    }),
};

/// `| wrap WhileLoop; -> expr.after`
const ROW_34: Row = Row {
    condition: Condition::Always,
    before: &[
        Action::Wrap(SyntaxKind::WhileLoop),
        Action::Goto(State::ExprAfter),
    ],
    take: Take::Nothing,
    after: &[],
    call: None,
};

/// `| unique binding; -> for.in`
const ROW_35: Row = Row {
    condition: Condition::Always,
    before: &[Action::Unique(Unique::Binding), Action::Goto(State::ForIn)],
    take: Take::Nothing,
    after: &[],
    call: None,
};

/// `| wrap ModuleInclude; -> expr.after`
const ROW_36: Row = Row {
    condition: Condition::Always,
    before: &[
        Action::Wrap(SyntaxKind::ModuleInclude),
        Action::Goto(State::ExprAfter),
    ],
    take: Take::Nothing,
    after: &[],
    call: None,
};

/// The code behind a hash.
pub(crate) fn embedded(class: Class) -> &'static [Row]
    ensures { rows_of result.now ≡ embedded class }
{
    match class {
        Class::End => &[ROW_0],
        Class::Label
        | Class::Raw
        | Class::Dollar
        | Class::LeftBrace
        | Class::LeftBracket
        | Class::LeftParen
        | Class::Ident
        | Class::Str
        | Class::Literal
        | Class::Constant
        | Class::Context
        | Class::If
        | Class::For
        | Class::While
        | Class::Break
        | Class::Continue => &[ROW_2, ROW_1, ROW_0],
        Class::Let | Class::Set | Class::Show | Class::Return | Class::Import | Class::Include => &[
            ROW_3, ROW_2, ROW_1, ROW_0,
        ],
        _ => &[ROW_1, ROW_0],
    }
}

/// The end of a statement behind a hash.
pub(crate) fn embedded_statement(class: Class) -> &'static [Row]
    ensures { rows_of result.now ≡ embedded_statement class }
{
    match class {
        Class::End | Class::RightBracket => &[ROW_4],
        Class::Semicolon => &[ROW_6],
        _ => &[ROW_5],
    }
}

/// The end of an expression behind a hash.
pub(crate) fn embedded_expr(class: Class) -> &'static [Row]
    ensures { rows_of result.now ≡ embedded_expr class }
{
    match class {
        Class::Semicolon => &[ROW_7, ROW_4],
        _ => &[ROW_4],
    }
}

/// An expression.
pub(crate) fn expr(class: Class) -> &'static [Row]
    ensures { rows_of result.now ≡ expr class }
{
    match class {
        Class::Label | Class::Raw | Class::Str | Class::Literal | Class::Constant => &[ROW_9],
        Class::Dollar => &[ROW_10],
        Class::LeftBrace => &[ROW_11],
        Class::LeftBracket => &[ROW_12],
        Class::LeftParen => &[ROW_13],
        Class::Underscore => &[ROW_14, ROW_8],
        Class::Sign => &[ROW_15, ROW_8],
        Class::Ident => &[ROW_16],
        Class::Not => &[ROW_17, ROW_8],
        Class::Let => &[ROW_18],
        Class::Set => &[ROW_19],
        Class::Show => &[ROW_20],
        Class::Context => &[ROW_21, ROW_22],
        Class::If => &[ROW_23],
        Class::For => &[ROW_24],
        Class::While => &[ROW_25],
        Class::Break => &[ROW_26],
        Class::Continue => &[ROW_27],
        Class::Return => &[ROW_28],
        Class::Import => &[ROW_29],
        Class::Include => &[ROW_30],
        _ => &[ROW_8],
    }
}

/// An expression of a block of code.
pub(crate) fn statement(class: Class) -> &'static [Row]
    ensures { rows_of result.now ≡ statement class }
{
    expr(class)
}

/// The rest of a row of `expr`, once the frame that it opened has returned.
pub(crate) fn expr_rest1(_class: Class) -> &'static [Row]
    ensures { rows_of result.now ≡ expr_rest1 _class }
{
    &[ROW_31]
}

/// The rest of a row of `expr`, once the frame that it opened has returned.
pub(crate) fn expr_rest2(_class: Class) -> &'static [Row]
    ensures { rows_of result.now ≡ expr_rest2 _class }
{
    &[ROW_31]
}

/// The rest of a row of `expr`, once the frame that it opened has returned.
pub(crate) fn expr_rest3(_class: Class) -> &'static [Row]
    ensures { rows_of result.now ≡ expr_rest3 _class }
{
    &[ROW_32]
}

/// The rest of a row of `expr`, once the frame that it opened has returned.
pub(crate) fn expr_rest4(_class: Class) -> &'static [Row]
    ensures { rows_of result.now ≡ expr_rest4 _class }
{
    &[ROW_32]
}

/// The rest of a row of `expr`, once the frame that it opened has returned.
pub(crate) fn expr_rest5(_class: Class) -> &'static [Row]
    ensures { rows_of result.now ≡ expr_rest5 _class }
{
    &[ROW_33]
}

/// The rest of a row of `expr.rest5`, once the frame that it opened has returned.
pub(crate) fn expr_rest5_rest(_class: Class) -> &'static [Row]
    ensures { rows_of result.now ≡ expr_rest5_rest _class }
{
    &[ROW_34]
}

/// The rest of a row of `expr`, once the frame that it opened has returned.
pub(crate) fn expr_rest6(_class: Class) -> &'static [Row]
    ensures { rows_of result.now ≡ expr_rest6 _class }
{
    &[ROW_35]
}

/// The rest of a row of `expr`, once the frame that it opened has returned.
pub(crate) fn expr_rest7(_class: Class) -> &'static [Row]
    ensures { rows_of result.now ≡ expr_rest7 _class }
{
    &[ROW_36]
}
