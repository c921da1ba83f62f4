// Written by bench/grammar_crate.py from crates/grammar.table: change that and run it.
//! The rows of math.
ghost use Rattle.std.specs.Prelude.{◌≡◌};
ghost use Rattle.typst_grammar.specs.Row.{rows_of};
ghost use Rattle.typst_grammar.specs.MathRows.{equation, math, math_expr, math_expr_rest1, math_expr_rest2, math_expr_rest3, math_expr_rest4, math_expr_rest5, math_expr_rest6, math_leaf, math_leaf_rest, math_letter, math_letter_rest, math_name, math_name_rest1, math_name_rest2};

use crate::expectation::Expectation;
use crate::row::{Action, Call, Condition, Newline, Row, Take};
use crate::rows::{Class, State};
use typst_base::SyntaxKind;

/// `| eat; math 2`
const ROW_0: Row = Row {
    condition: Condition::Always,
    before: &[],
    take: Take::Eat,
    after: &[],
    call: Some(Call {
        state: State::Math,
        number: 2,
        enters: false,
        is_deep: false,
        newline: None,
    }),
};

/// `if is 2 | wrap Math; return; unclosed; wrap Equation; return`
const ROW_1: Row = Row {
    condition: Condition::Is(2),
    before: &[
        Action::Wrap(SyntaxKind::Math),
        Action::Return,
        Action::Unclosed,
        Action::Wrap(SyntaxKind::Equation),
        Action::Return,
    ],
    take: Take::Nothing,
    after: &[],
    call: None,
};

/// `| return; wrap Math`
const ROW_2: Row = Row {
    condition: Condition::Always,
    before: &[Action::Return, Action::Wrap(SyntaxKind::Math)],
    take: Take::Nothing,
    after: &[],
    call: None,
};

/// `| unexpected; -> math`
const ROW_3: Row = Row {
    condition: Condition::Always,
    before: &[],
    take: Take::Unexpected,
    after: &[Action::Goto(State::Math)],
    call: None,
};

/// `| eat; -> math.leaf`
const ROW_4: Row = Row {
    condition: Condition::Always,
    before: &[],
    take: Take::Eat,
    after: &[Action::Goto(State::MathLeaf)],
    call: None,
};

/// `| eat; -> math.letter`
const ROW_5: Row = Row {
    condition: Condition::Always,
    before: &[],
    take: Take::Eat,
    after: &[Action::Goto(State::MathLetter)],
    call: None,
};

/// `| -> math; math.expr`
const ROW_6: Row = Row {
    condition: Condition::Always,
    before: &[Action::Goto(State::Math)],
    take: Take::Nothing,
    after: &[],
    call: Some(Call {
        state: State::MathExpr,
        number: 0,
        enters: false,
        is_deep: false,
        newline: None,
    }),
};

/// `if is 2 | wrap Math; return; eat; wrap Equation; return`
const ROW_7: Row = Row {
    condition: Condition::Is(2),
    before: &[Action::Wrap(SyntaxKind::Math), Action::Return],
    take: Take::Eat,
    after: &[Action::Wrap(SyntaxKind::Equation), Action::Return],
    call: None,
};

/// `if upto 1 | wrap Math; return; eat MathText; wrap MathDelimited`
const ROW_8: Row = Row {
    condition: Condition::UpTo(1),
    before: &[Action::Wrap(SyntaxKind::Math), Action::Return],
    take: Take::EatAs(SyntaxKind::MathText),
    after: &[Action::Wrap(SyntaxKind::MathDelimited)],
    call: None,
};

/// `| eat MathText; -> math.leaf`
const ROW_9: Row = Row {
    condition: Condition::Always,
    before: &[],
    take: Take::EatAs(SyntaxKind::MathText),
    after: &[Action::Goto(State::MathLeaf)],
    call: None,
};

/// `if is 0 | wrap Math; return; eat MathText`
const ROW_10: Row = Row {
    condition: Condition::Is(0),
    before: &[Action::Wrap(SyntaxKind::Math), Action::Return],
    take: Take::EatAs(SyntaxKind::MathText),
    after: &[],
    call: None,
};

/// `| eat; -> math.name`
const ROW_11: Row = Row {
    condition: Condition::Always,
    before: &[],
    take: Take::Eat,
    after: &[Action::Goto(State::MathName)],
    call: None,
};

/// `if upto 1 | wrap Math; return; eat; wrap MathDelimited`
const ROW_12: Row = Row {
    condition: Condition::UpTo(1),
    before: &[Action::Wrap(SyntaxKind::Math), Action::Return],
    take: Take::Eat,
    after: &[Action::Wrap(SyntaxKind::MathDelimited)],
    call: None,
};

/// `| around math; eat; -> math.leaf.rest; math.expr 1`
const ROW_13: Row = Row {
    condition: Condition::Always,
    before: &[Action::Around(State::Math, 0)],
    take: Take::Eat,
    after: &[Action::Goto(State::MathLeafRest)],
    call: Some(Call {
        state: State::MathExpr,
        number: 1,
        enters: false,
        is_deep: false,
        newline: None,
    }),
};

/// `| around math; eat; -> math.below; math.expr 2`
const ROW_14: Row = Row {
    condition: Condition::Always,
    before: &[Action::Around(State::Math, 0)],
    take: Take::Eat,
    after: &[Action::Goto(State::MathBelow)],
    call: Some(Call {
        state: State::MathExpr,
        number: 2,
        enters: false,
        is_deep: false,
        newline: None,
    }),
};

/// `if direct | around math; eat; -> math.primed`
const ROW_15: Row = Row {
    condition: Condition::Direct,
    before: &[Action::Around(State::Math, 0)],
    take: Take::Eat,
    after: &[Action::Goto(State::MathPrimed)],
    call: None,
};

/// `| around math; eat; -> math.above; math.expr 3`
const ROW_16: Row = Row {
    condition: Condition::Always,
    before: &[Action::Around(State::Math, 0)],
    take: Take::Eat,
    after: &[Action::Goto(State::MathAbove)],
    call: Some(Call {
        state: State::MathExpr,
        number: 3,
        enters: false,
        is_deep: false,
        newline: None,
    }),
};

/// `if direct | around math; eat MathText; wrap Math; -> math.after`
const ROW_17: Row = Row {
    condition: Condition::Direct,
    before: &[Action::Around(State::Math, 0)],
    take: Take::EatAs(SyntaxKind::MathText),
    after: &[
        Action::Wrap(SyntaxKind::Math),
        Action::Goto(State::MathAfter),
    ],
    call: None,
};

/// `if direct | around math; -> math.letter.rest; delimited`
const ROW_18: Row = Row {
    condition: Condition::Direct,
    before: &[
        Action::Around(State::Math, 0),
        Action::Goto(State::MathLetterRest),
    ],
    take: Take::Nothing,
    after: &[],
    call: Some(Call {
        state: State::Delimited,
        number: 0,
        enters: false,
        is_deep: false,
        newline: None,
    }),
};

/// `if direct | around math; -> math.name.rest2; math.args`
const ROW_19: Row = Row {
    condition: Condition::Direct,
    before: &[
        Action::Around(State::Math, 0),
        Action::Goto(State::MathNameRest2),
    ],
    take: Take::Nothing,
    after: &[],
    call: Some(Call {
        state: State::MathArgs,
        number: 0,
        enters: false,
        is_deep: true,
        newline: None,
    }),
};

/// `if direct | around math; eat; -> math.name.rest1; field`
const ROW_20: Row = Row {
    condition: Condition::Direct,
    before: &[Action::Around(State::Math, 0)],
    take: Take::Eat,
    after: &[Action::Goto(State::MathNameRest1)],
    call: Some(Call {
        state: State::Field,
        number: 0,
        enters: false,
        is_deep: false,
        newline: None,
    }),
};

/// `| expected expression; -> math.after`
const ROW_21: Row = Row {
    condition: Condition::Always,
    before: &[
        Action::Expected(Expectation::Expression),
        Action::Goto(State::MathAfter),
    ],
    take: Take::Nothing,
    after: &[],
    call: None,
};

/// `| eat; -> math.after`
const ROW_22: Row = Row {
    condition: Condition::Always,
    before: &[],
    take: Take::Eat,
    after: &[Action::Goto(State::MathAfter)],
    call: None,
};

/// `| eat; -> math.joined`
const ROW_23: Row = Row {
    condition: Condition::Always,
    before: &[],
    take: Take::Eat,
    after: &[Action::Goto(State::MathJoined)],
    call: None,
};

/// `| -> math.after; hash`
const ROW_24: Row = Row {
    condition: Condition::Always,
    before: &[Action::Goto(State::MathAfter)],
    take: Take::Nothing,
    after: &[],
    call: Some(Call {
        state: State::Hash,
        number: 0,
        enters: false,
        is_deep: false,
        newline: Some(Newline::Stop),
    }),
};

/// `| eat MathText; -> math.after; delimited.body 1`
const ROW_25: Row = Row {
    condition: Condition::Always,
    before: &[],
    take: Take::EatAs(SyntaxKind::MathText),
    after: &[Action::Goto(State::MathAfter)],
    call: Some(Call {
        state: State::DelimitedBody,
        number: 1,
        enters: false,
        is_deep: true,
        newline: None,
    }),
};

/// `| eat MathText; -> math.after`
const ROW_26: Row = Row {
    condition: Condition::Always,
    before: &[],
    take: Take::EatAs(SyntaxKind::MathText),
    after: &[Action::Goto(State::MathAfter)],
    call: None,
};

/// `if is 0 | eat MathText; -> math.paren; delimited.body`
const ROW_27: Row = Row {
    condition: Condition::Is(0),
    before: &[],
    take: Take::EatAs(SyntaxKind::MathText),
    after: &[Action::Goto(State::MathParen)],
    call: Some(Call {
        state: State::DelimitedBody,
        number: 0,
        enters: false,
        is_deep: true,
        newline: None,
    }),
};

/// `if is 1 | -> math.expr.rest1; math.group 1`
const ROW_28: Row = Row {
    condition: Condition::Is(1),
    before: &[Action::Goto(State::MathExprRest1)],
    take: Take::Nothing,
    after: &[],
    call: Some(Call {
        state: State::MathGroup,
        number: 1,
        enters: false,
        is_deep: false,
        newline: None,
    }),
};

/// `if is 2 | -> math.expr.rest2; math.group 2`
const ROW_29: Row = Row {
    condition: Condition::Is(2),
    before: &[Action::Goto(State::MathExprRest2)],
    take: Take::Nothing,
    after: &[],
    call: Some(Call {
        state: State::MathGroup,
        number: 2,
        enters: false,
        is_deep: false,
        newline: None,
    }),
};

/// `| -> math.expr.rest3; math.group 3`
const ROW_30: Row = Row {
    condition: Condition::Always,
    before: &[Action::Goto(State::MathExprRest3)],
    take: Take::Nothing,
    after: &[],
    call: Some(Call {
        state: State::MathGroup,
        number: 3,
        enters: false,
        is_deep: false,
        newline: None,
    }),
};

/// `| eat; -> math.ident`
const ROW_31: Row = Row {
    condition: Condition::Always,
    before: &[],
    take: Take::Eat,
    after: &[Action::Goto(State::MathIdent)],
    call: None,
};

/// `| eat; -> math.after; delimited.body 1`
const ROW_32: Row = Row {
    condition: Condition::Always,
    before: &[],
    take: Take::Eat,
    after: &[Action::Goto(State::MathAfter)],
    call: Some(Call {
        state: State::DelimitedBody,
        number: 1,
        enters: false,
        is_deep: true,
        newline: None,
    }),
};

/// `if is 3 | eat; -> math.expr.rest4; math.expr 3`
const ROW_33: Row = Row {
    condition: Condition::Is(3),
    before: &[],
    take: Take::Eat,
    after: &[Action::Goto(State::MathExprRest4)],
    call: Some(Call {
        state: State::MathExpr,
        number: 3,
        enters: false,
        is_deep: false,
        newline: None,
    }),
};

/// `if is 2 | eat; -> math.expr.rest5; math.expr 2`
const ROW_34: Row = Row {
    condition: Condition::Is(2),
    before: &[],
    take: Take::Eat,
    after: &[Action::Goto(State::MathExprRest5)],
    call: Some(Call {
        state: State::MathExpr,
        number: 2,
        enters: false,
        is_deep: false,
        newline: None,
    }),
};

/// `| eat; -> math.expr.rest6; math.expr 1`
const ROW_35: Row = Row {
    condition: Condition::Always,
    before: &[],
    take: Take::Eat,
    after: &[Action::Goto(State::MathExprRest6)],
    call: Some(Call {
        state: State::MathExpr,
        number: 1,
        enters: false,
        is_deep: false,
        newline: None,
    }),
};

/// `| wrap MathFrac; -> math.after`
const ROW_36: Row = Row {
    condition: Condition::Always,
    before: &[
        Action::Wrap(SyntaxKind::MathFrac),
        Action::Goto(State::MathAfter),
    ],
    take: Take::Nothing,
    after: &[],
    call: None,
};

/// `| wrap Math; -> math.after`
const ROW_37: Row = Row {
    condition: Condition::Always,
    before: &[
        Action::Wrap(SyntaxKind::Math),
        Action::Goto(State::MathAfter),
    ],
    take: Take::Nothing,
    after: &[],
    call: None,
};

/// `| wrap MathFieldAccess; -> math.ident`
const ROW_38: Row = Row {
    condition: Condition::Always,
    before: &[
        Action::Wrap(SyntaxKind::MathFieldAccess),
        Action::Goto(State::MathIdent),
    ],
    take: Take::Nothing,
    after: &[],
    call: None,
};

/// `| wrap MathCall; -> math.after`
const ROW_39: Row = Row {
    condition: Condition::Always,
    before: &[
        Action::Wrap(SyntaxKind::MathCall),
        Action::Goto(State::MathAfter),
    ],
    take: Take::Nothing,
    after: &[],
    call: None,
};

/// `| return`
const ROW_40: Row = Row {
    condition: Condition::Always,
    before: &[Action::Return],
    take: Take::Nothing,
    after: &[],
    call: None,
};

/// `| wrap MathRoot; -> math.after`
const ROW_41: Row = Row {
    condition: Condition::Always,
    before: &[
        Action::Wrap(SyntaxKind::MathRoot),
        Action::Goto(State::MathAfter),
    ],
    take: Take::Nothing,
    after: &[],
    call: None,
};

/// An equation.
pub(crate) fn equation(class: Class) -> &'static [Row]
    ensures { rows_of result.now ≡ equation class }
{
    match class {
        Class::Dollar => &[ROW_0],
        _ => &[],
    }
}

/// The content of an equation.
pub(crate) fn math(class: Class) -> &'static [Row]
    ensures { rows_of result.now ≡ math class }
{
    match class {
        Class::End => &[ROW_1, ROW_2],
        Class::Linebreak | Class::MathText => &[ROW_4],
        Class::Escape | Class::Str | Class::MathLetter | Class::MathPrimes => &[ROW_5],
        Class::Hash | Class::LeftBrace | Class::LeftParen | Class::Opening | Class::Root => &[
            ROW_6,
        ],
        Class::Dollar => &[ROW_7, ROW_2],
        Class::RightBrace => &[ROW_8, ROW_9],
        Class::RightParen => &[ROW_10, ROW_8, ROW_9],
        Class::Comma | Class::Semicolon | Class::Dot | Class::Field | Class::Bang => &[ROW_9],
        Class::MathIdent => &[ROW_11],
        Class::Closing => &[ROW_12, ROW_4],
        _ => &[ROW_3],
    }
}

/// What may follow a token of the content.
pub(crate) fn math_leaf(class: Class) -> &'static [Row]
    ensures { rows_of result.now ≡ math_leaf class }
{
    match class {
        Class::End => &[ROW_1, ROW_2],
        Class::Linebreak | Class::MathText => &[ROW_4],
        Class::Escape | Class::Str | Class::MathLetter => &[ROW_5],
        Class::Hash | Class::LeftBrace | Class::LeftParen | Class::Opening | Class::Root => &[
            ROW_6,
        ],
        Class::Dollar => &[ROW_7, ROW_2],
        Class::RightBrace => &[ROW_8, ROW_9],
        Class::RightParen => &[ROW_10, ROW_8, ROW_9],
        Class::Comma | Class::Semicolon | Class::Dot | Class::Field => &[ROW_9],
        Class::Slash => &[ROW_13],
        Class::Underscore => &[ROW_14],
        Class::MathIdent => &[ROW_11],
        Class::MathPrimes => &[ROW_15, ROW_5],
        Class::Closing => &[ROW_12, ROW_4],
        Class::Hat => &[ROW_16],
        Class::Bang => &[ROW_17, ROW_9],
        _ => &[ROW_3],
    }
}

/// What may follow a letter or a string of the content.
pub(crate) fn math_letter(class: Class) -> &'static [Row]
    ensures { rows_of result.now ≡ math_letter class }
{
    match class {
        Class::End => &[ROW_1, ROW_2],
        Class::Linebreak | Class::MathText => &[ROW_4],
        Class::Escape | Class::Str | Class::MathLetter => &[ROW_5],
        Class::Hash | Class::Root => &[ROW_6],
        Class::Dollar => &[ROW_7, ROW_2],
        Class::LeftBrace | Class::LeftParen | Class::Opening => &[ROW_18, ROW_6],
        Class::RightBrace => &[ROW_8, ROW_9],
        Class::RightParen => &[ROW_10, ROW_8, ROW_9],
        Class::Comma | Class::Semicolon | Class::Dot | Class::Field => &[ROW_9],
        Class::Slash => &[ROW_13],
        Class::Underscore => &[ROW_14],
        Class::MathIdent => &[ROW_11],
        Class::MathPrimes => &[ROW_15, ROW_5],
        Class::Closing => &[ROW_12, ROW_4],
        Class::Hat => &[ROW_16],
        Class::Bang => &[ROW_17, ROW_9],
        _ => &[ROW_3],
    }
}

/// What may follow a name of the content.
pub(crate) fn math_name(class: Class) -> &'static [Row]
    ensures { rows_of result.now ≡ math_name class }
{
    match class {
        Class::End => &[ROW_1, ROW_2],
        Class::Linebreak | Class::MathText => &[ROW_4],
        Class::Escape | Class::Str | Class::MathLetter => &[ROW_5],
        Class::Hash | Class::Root => &[ROW_6],
        Class::Dollar => &[ROW_7, ROW_2],
        Class::LeftBrace | Class::Opening => &[ROW_18, ROW_6],
        Class::RightBrace => &[ROW_8, ROW_9],
        Class::LeftParen => &[ROW_19, ROW_18, ROW_6],
        Class::RightParen => &[ROW_10, ROW_8, ROW_9],
        Class::Comma | Class::Semicolon | Class::Dot => &[ROW_9],
        Class::Field => &[ROW_20, ROW_9],
        Class::Slash => &[ROW_13],
        Class::Underscore => &[ROW_14],
        Class::MathIdent => &[ROW_11],
        Class::MathPrimes => &[ROW_15, ROW_5],
        Class::Closing => &[ROW_12, ROW_4],
        Class::Hat => &[ROW_16],
        Class::Bang => &[ROW_17, ROW_9],
        _ => &[ROW_3],
    }
}

/// An expression in math.
pub(crate) fn math_expr(class: Class) -> &'static [Row]
    ensures { rows_of result.now ≡ math_expr class }
{
    match class {
        Class::Linebreak | Class::MathText | Class::Closing => &[ROW_22],
        Class::Escape | Class::Str | Class::MathLetter | Class::MathPrimes => &[ROW_23],
        Class::Hash => &[ROW_24],
        Class::LeftBrace => &[ROW_25],
        Class::RightBrace
        | Class::RightParen
        | Class::Comma
        | Class::Semicolon
        | Class::Dot
        | Class::Field
        | Class::Bang => &[ROW_26],
        Class::LeftParen => &[ROW_27, ROW_28, ROW_29, ROW_30],
        Class::MathIdent => &[ROW_31],
        Class::Opening => &[ROW_32],
        Class::Root => &[ROW_33, ROW_34, ROW_35],
        _ => &[ROW_21],
    }
}

/// The rest of a row of `math.leaf`, once the frame that it opened has returned.
pub(crate) fn math_leaf_rest(_class: Class) -> &'static [Row]
    ensures { rows_of result.now ≡ math_leaf_rest _class }
{
    &[ROW_36]
}

/// The rest of a row of `math.letter`, once the frame that it opened has returned.
pub(crate) fn math_letter_rest(_class: Class) -> &'static [Row]
    ensures { rows_of result.now ≡ math_letter_rest _class }
{
    &[ROW_37]
}

/// The rest of a row of `math.name`, once the frame that it opened has returned.
pub(crate) fn math_name_rest1(_class: Class) -> &'static [Row]
    ensures { rows_of result.now ≡ math_name_rest1 _class }
{
    &[ROW_38]
}

/// The rest of a row of `math.name`, once the frame that it opened has returned.
pub(crate) fn math_name_rest2(_class: Class) -> &'static [Row]
    ensures { rows_of result.now ≡ math_name_rest2 _class }
{
    &[ROW_39]
}

/// The rest of a row of `math.expr`, once the frame that it opened has returned.
pub(crate) fn math_expr_rest1(_class: Class) -> &'static [Row]
    ensures { rows_of result.now ≡ math_expr_rest1 _class }
{
    &[ROW_40]
}

/// The rest of a row of `math.expr`, once the frame that it opened has returned.
pub(crate) fn math_expr_rest2(_class: Class) -> &'static [Row]
    ensures { rows_of result.now ≡ math_expr_rest2 _class }
{
    &[ROW_40]
}

/// The rest of a row of `math.expr`, once the frame that it opened has returned.
pub(crate) fn math_expr_rest3(_class: Class) -> &'static [Row]
    ensures { rows_of result.now ≡ math_expr_rest3 _class }
{
    &[ROW_40]
}

/// The rest of a row of `math.expr`, once the frame that it opened has returned.
pub(crate) fn math_expr_rest4(_class: Class) -> &'static [Row]
    ensures { rows_of result.now ≡ math_expr_rest4 _class }
{
    &[ROW_41]
}

/// The rest of a row of `math.expr`, once the frame that it opened has returned.
pub(crate) fn math_expr_rest5(_class: Class) -> &'static [Row]
    ensures { rows_of result.now ≡ math_expr_rest5 _class }
{
    &[ROW_41]
}

/// The rest of a row of `math.expr`, once the frame that it opened has returned.
pub(crate) fn math_expr_rest6(_class: Class) -> &'static [Row]
    ensures { rows_of result.now ≡ math_expr_rest6 _class }
{
    &[ROW_41]
}
