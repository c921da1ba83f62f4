// Written by bench/grammar_crate.py from crates/grammar.table: change that and run it.
//! The rows of what may follow an expression in math.
ghost use Rattle.std.specs.Prelude.{◌≡◌};
ghost use Rattle.typst_grammar.specs.Row.{rows_of};
ghost use Rattle.typst_grammar.specs.ScriptsRows.{field, math_above, math_above_rest, math_after, math_after_rest, math_below, math_below_rest, math_group, math_ident, math_ident_rest1, math_ident_rest2, math_joined, math_joined_rest, math_paren, math_paren_rest, math_primed};

use crate::row::{Action, Call, Condition, Row, Take};
use crate::rows::{Class, State};
use typst_base::SyntaxKind;

/// `| return`
const ROW_0: Row = Row {
    condition: Condition::Always,
    before: &[Action::Return],
    take: Take::Nothing,
    after: &[],
    call: None,
};

/// `if direct | -> math.joined.rest; delimited`
const ROW_1: Row = Row {
    condition: Condition::Direct,
    before: &[Action::Goto(State::MathJoinedRest)],
    take: Take::Nothing,
    after: &[],
    call: Some(Call {
        state: State::Delimited,
        number: 0,
        enters: false,
        is_deep: false,
        newline: None,
    }),
};

/// `if direct | -> math.ident.rest2; math.args`
const ROW_2: Row = Row {
    condition: Condition::Direct,
    before: &[Action::Goto(State::MathIdentRest2)],
    take: Take::Nothing,
    after: &[],
    call: Some(Call {
        state: State::MathArgs,
        number: 0,
        enters: false,
        is_deep: true,
        newline: None,
    }),
};

/// `if direct | eat; -> math.ident.rest1; field`
const ROW_3: Row = Row {
    condition: Condition::Direct,
    before: &[],
    take: Take::Eat,
    after: &[Action::Goto(State::MathIdentRest1)],
    call: Some(Call {
        state: State::Field,
        number: 0,
        enters: false,
        is_deep: false,
        newline: None,
    }),
};

/// `if is 0 | eat; -> math.after.rest; math.expr 1`
const ROW_4: Row = Row {
    condition: Condition::Is(0),
    before: &[],
    take: Take::Eat,
    after: &[Action::Goto(State::MathAfterRest)],
    call: Some(Call {
        state: State::MathExpr,
        number: 1,
        enters: false,
        is_deep: false,
        newline: None,
    }),
};

/// `if is 3 | return`
const ROW_5: Row = Row {
    condition: Condition::Is(3),
    before: &[Action::Return],
    take: Take::Nothing,
    after: &[],
    call: None,
};

/// `| eat; -> math.below; math.expr 2`
const ROW_6: Row = Row {
    condition: Condition::Always,
    before: &[],
    take: Take::Eat,
    after: &[Action::Goto(State::MathBelow)],
    call: Some(Call {
        state: State::MathExpr,
        number: 2,
        enters: false,
        is_deep: false,
        newline: None,
    }),
};

/// `if direct | eat; -> math.primed`
const ROW_7: Row = Row {
    condition: Condition::Direct,
    before: &[],
    take: Take::Eat,
    after: &[Action::Goto(State::MathPrimed)],
    call: None,
};

/// `if is 2 | return`
const ROW_8: Row = Row {
    condition: Condition::Is(2),
    before: &[Action::Return],
    take: Take::Nothing,
    after: &[],
    call: None,
};

/// `| eat; -> math.above; math.expr 3`
const ROW_9: Row = Row {
    condition: Condition::Always,
    before: &[],
    take: Take::Eat,
    after: &[Action::Goto(State::MathAbove)],
    call: Some(Call {
        state: State::MathExpr,
        number: 3,
        enters: false,
        is_deep: false,
        newline: None,
    }),
};

/// `if direct | eat MathText; wrap Math; -> math.after`
const ROW_10: Row = Row {
    condition: Condition::Direct,
    before: &[],
    take: Take::EatAs(SyntaxKind::MathText),
    after: &[
        Action::Wrap(SyntaxKind::Math),
        Action::Goto(State::MathAfter),
    ],
    call: None,
};

/// `| eat MathIdent; return`
const ROW_11: Row = Row {
    condition: Condition::Always,
    before: &[],
    take: Take::EatAs(SyntaxKind::MathIdent),
    after: &[Action::Return],
    call: None,
};

/// `| eat MathText; -> math.paren; delimited.body`
const ROW_12: Row = Row {
    condition: Condition::Always,
    before: &[],
    take: Take::EatAs(SyntaxKind::MathText),
    after: &[Action::Goto(State::MathParen)],
    call: Some(Call {
        state: State::DelimitedBody,
        number: 0,
        enters: false,
        is_deep: true,
        newline: None,
    }),
};

/// `if only math | -> math.after`
const ROW_13: Row = Row {
    condition: Condition::Only(SyntaxKind::Math),
    before: &[Action::Goto(State::MathAfter)],
    take: Take::Nothing,
    after: &[],
    call: None,
};

/// `if only mathdelimited | -> math.after`
const ROW_14: Row = Row {
    condition: Condition::Only(SyntaxKind::MathDelimited),
    before: &[Action::Goto(State::MathAfter)],
    take: Take::Nothing,
    after: &[],
    call: None,
};

/// `if is 0 | wrap MathDelimited; return`
const ROW_15: Row = Row {
    condition: Condition::Is(0),
    before: &[Action::Wrap(SyntaxKind::MathDelimited), Action::Return],
    take: Take::Nothing,
    after: &[],
    call: None,
};

/// `| delimit LeftParen RightParen; wrap Math; return`
const ROW_16: Row = Row {
    condition: Condition::Always,
    before: &[
        Action::Delimit(SyntaxKind::LeftParen, SyntaxKind::RightParen),
        Action::Wrap(SyntaxKind::Math),
        Action::Return,
    ],
    take: Take::Nothing,
    after: &[],
    call: None,
};

/// `if is 0 | delimit LeftParen RightParen; wrap Math; eat; -> math.paren.rest; math.expr 1`
const ROW_17: Row = Row {
    condition: Condition::Is(0),
    before: &[
        Action::Delimit(SyntaxKind::LeftParen, SyntaxKind::RightParen),
        Action::Wrap(SyntaxKind::Math),
    ],
    take: Take::Eat,
    after: &[Action::Goto(State::MathParenRest)],
    call: Some(Call {
        state: State::MathExpr,
        number: 1,
        enters: false,
        is_deep: false,
        newline: None,
    }),
};

/// `if is 3 | delimit LeftParen RightParen; wrap Math; return`
const ROW_18: Row = Row {
    condition: Condition::Is(3),
    before: &[
        Action::Delimit(SyntaxKind::LeftParen, SyntaxKind::RightParen),
        Action::Wrap(SyntaxKind::Math),
        Action::Return,
    ],
    take: Take::Nothing,
    after: &[],
    call: None,
};

/// `| wrap MathDelimited; -> math.after`
const ROW_19: Row = Row {
    condition: Condition::Always,
    before: &[
        Action::Wrap(SyntaxKind::MathDelimited),
        Action::Goto(State::MathAfter),
    ],
    take: Take::Nothing,
    after: &[],
    call: None,
};

/// `if direct | wrap MathDelimited; -> math.after`
const ROW_20: Row = Row {
    condition: Condition::Direct,
    before: &[
        Action::Wrap(SyntaxKind::MathDelimited),
        Action::Goto(State::MathAfter),
    ],
    take: Take::Nothing,
    after: &[],
    call: None,
};

/// `if is 2 | delimit LeftParen RightParen; wrap Math; return`
const ROW_21: Row = Row {
    condition: Condition::Is(2),
    before: &[
        Action::Delimit(SyntaxKind::LeftParen, SyntaxKind::RightParen),
        Action::Wrap(SyntaxKind::Math),
        Action::Return,
    ],
    take: Take::Nothing,
    after: &[],
    call: None,
};

/// `| wrap MathAttach; -> math.after`
const ROW_22: Row = Row {
    condition: Condition::Always,
    before: &[
        Action::Wrap(SyntaxKind::MathAttach),
        Action::Goto(State::MathAfter),
    ],
    take: Take::Nothing,
    after: &[],
    call: None,
};

/// `if is 3 | wrap MathAttach; return`
const ROW_23: Row = Row {
    condition: Condition::Is(3),
    before: &[Action::Wrap(SyntaxKind::MathAttach), Action::Return],
    take: Take::Nothing,
    after: &[],
    call: None,
};

/// `if is 2 | wrap MathAttach; return`
const ROW_24: Row = Row {
    condition: Condition::Is(2),
    before: &[Action::Wrap(SyntaxKind::MathAttach), Action::Return],
    take: Take::Nothing,
    after: &[],
    call: None,
};

/// `| wrap MathAttach; return`
const ROW_25: Row = Row {
    condition: Condition::Always,
    before: &[Action::Wrap(SyntaxKind::MathAttach), Action::Return],
    take: Take::Nothing,
    after: &[],
    call: None,
};

/// `| eat; -> math.below.rest; math.expr 1`
const ROW_26: Row = Row {
    condition: Condition::Always,
    before: &[],
    take: Take::Eat,
    after: &[Action::Goto(State::MathBelowRest)],
    call: Some(Call {
        state: State::MathExpr,
        number: 1,
        enters: false,
        is_deep: false,
        newline: None,
    }),
};

/// `| eat; -> math.above.rest; math.expr 1`
const ROW_27: Row = Row {
    condition: Condition::Always,
    before: &[],
    take: Take::Eat,
    after: &[Action::Goto(State::MathAboveRest)],
    call: Some(Call {
        state: State::MathExpr,
        number: 1,
        enters: false,
        is_deep: false,
        newline: None,
    }),
};

/// `| wrap MathFieldAccess; -> math.ident`
const ROW_28: Row = Row {
    condition: Condition::Always,
    before: &[
        Action::Wrap(SyntaxKind::MathFieldAccess),
        Action::Goto(State::MathIdent),
    ],
    take: Take::Nothing,
    after: &[],
    call: None,
};

/// `| wrap MathCall; -> math.after`
const ROW_29: Row = Row {
    condition: Condition::Always,
    before: &[
        Action::Wrap(SyntaxKind::MathCall),
        Action::Goto(State::MathAfter),
    ],
    take: Take::Nothing,
    after: &[],
    call: None,
};

/// `| wrap Math; -> math.after`
const ROW_30: Row = Row {
    condition: Condition::Always,
    before: &[
        Action::Wrap(SyntaxKind::Math),
        Action::Goto(State::MathAfter),
    ],
    take: Take::Nothing,
    after: &[],
    call: None,
};

/// `| wrap MathFrac; -> math.after`
const ROW_31: Row = Row {
    condition: Condition::Always,
    before: &[
        Action::Wrap(SyntaxKind::MathFrac),
        Action::Goto(State::MathAfter),
    ],
    take: Take::Nothing,
    after: &[],
    call: None,
};

/// What may follow a name in math directly.
pub(crate) fn math_ident(class: Class) -> &'static [Row]
    ensures { rows_of result.now ≡ math_ident class }
{
    match class {
        Class::LeftBrace | Class::Opening => &[ROW_1, ROW_0],
        Class::LeftParen => &[ROW_2, ROW_1, ROW_0],
        Class::Field => &[ROW_3, ROW_0],
        Class::Slash => &[ROW_4, ROW_0],
        Class::Underscore => &[ROW_5, ROW_6],
        Class::MathPrimes => &[ROW_7, ROW_0],
        Class::Hat => &[ROW_8, ROW_9],
        Class::Bang => &[ROW_10, ROW_0],
        _ => &[ROW_0],
    }
}

/// The name of a field in math.
pub(crate) fn field(class: Class) -> &'static [Row]
    ensures { rows_of result.now ≡ field class }
{
    match class {
        Class::MathIdent | Class::MathLetter => &[ROW_11],
        _ => &[],
    }
}

/// A delimiter directly behind a name, a letter or a string.
pub(crate) fn math_joined(class: Class) -> &'static [Row]
    ensures { rows_of result.now ≡ math_joined class }
{
    match class {
        Class::LeftBrace | Class::LeftParen | Class::Opening => &[ROW_1, ROW_0],
        Class::Slash => &[ROW_4, ROW_0],
        Class::Underscore => &[ROW_5, ROW_6],
        Class::MathPrimes => &[ROW_7, ROW_0],
        Class::Hat => &[ROW_8, ROW_9],
        Class::Bang => &[ROW_10, ROW_0],
        _ => &[ROW_0],
    }
}

/// Parentheses of an operand.
pub(crate) fn math_group(class: Class) -> &'static [Row]
    ensures { rows_of result.now ≡ math_group class }
{
    match class {
        Class::LeftParen => &[ROW_12],
        _ => &[],
    }
}

/// Whether parentheses stay.
pub(crate) fn math_paren(class: Class) -> &'static [Row]
    ensures { rows_of result.now ≡ math_paren class }
{
    match class {
        Class::Slash => &[ROW_13, ROW_14, ROW_17, ROW_15, ROW_16],
        Class::Underscore => &[ROW_13, ROW_14, ROW_18, ROW_19],
        Class::MathPrimes | Class::Bang => &[ROW_13, ROW_14, ROW_20, ROW_15, ROW_16],
        Class::Hat => &[ROW_13, ROW_14, ROW_21, ROW_19],
        _ => &[ROW_13, ROW_14, ROW_15, ROW_16],
    }
}

/// What may follow an expression in math.
pub(crate) fn math_after(class: Class) -> &'static [Row]
    ensures { rows_of result.now ≡ math_after class }
{
    match class {
        Class::Slash => &[ROW_4, ROW_0],
        Class::Underscore => &[ROW_5, ROW_6],
        Class::MathPrimes => &[ROW_7, ROW_0],
        Class::Hat => &[ROW_8, ROW_9],
        Class::Bang => &[ROW_10, ROW_0],
        _ => &[ROW_0],
    }
}

/// What may follow primes.
pub(crate) fn math_primed(class: Class) -> &'static [Row]
    ensures { rows_of result.now ≡ math_primed class }
{
    match class {
        Class::Underscore => &[ROW_23, ROW_6],
        Class::Hat => &[ROW_24, ROW_9],
        _ => &[ROW_22],
    }
}

/// Whether a script above follows the one below.
pub(crate) fn math_below(class: Class) -> &'static [Row]
    ensures { rows_of result.now ≡ math_below class }
{
    match class {
        Class::Slash | Class::Underscore | Class::MathPrimes | Class::Bang => &[ROW_22],
        Class::Hat => &[ROW_26],
        _ => &[ROW_25],
    }
}

/// Whether a script below follows the one above.
pub(crate) fn math_above(class: Class) -> &'static [Row]
    ensures { rows_of result.now ≡ math_above class }
{
    match class {
        Class::Slash | Class::MathPrimes | Class::Hat | Class::Bang => &[ROW_22],
        Class::Underscore => &[ROW_27],
        _ => &[ROW_25],
    }
}

/// The rest of a row of `math.ident`, once the frame that it opened has returned.
pub(crate) fn math_ident_rest1(_class: Class) -> &'static [Row]
    ensures { rows_of result.now ≡ math_ident_rest1 _class }
{
    &[ROW_28]
}

/// The rest of a row of `math.ident`, once the frame that it opened has returned.
pub(crate) fn math_ident_rest2(_class: Class) -> &'static [Row]
    ensures { rows_of result.now ≡ math_ident_rest2 _class }
{
    &[ROW_29]
}

/// The rest of a row of `math.joined`, once the frame that it opened has returned.
pub(crate) fn math_joined_rest(_class: Class) -> &'static [Row]
    ensures { rows_of result.now ≡ math_joined_rest _class }
{
    &[ROW_30]
}

/// The rest of a row of `math.paren`, once the frame that it opened has returned.
pub(crate) fn math_paren_rest(_class: Class) -> &'static [Row]
    ensures { rows_of result.now ≡ math_paren_rest _class }
{
    &[ROW_31]
}

/// The rest of a row of `math.after`, once the frame that it opened has returned.
pub(crate) fn math_after_rest(_class: Class) -> &'static [Row]
    ensures { rows_of result.now ≡ math_after_rest _class }
{
    &[ROW_31]
}

/// The rest of a row of `math.below`, once the frame that it opened has returned.
pub(crate) fn math_below_rest(_class: Class) -> &'static [Row]
    ensures { rows_of result.now ≡ math_below_rest _class }
{
    &[ROW_22]
}

/// The rest of a row of `math.above`, once the frame that it opened has returned.
pub(crate) fn math_above_rest(_class: Class) -> &'static [Row]
    ensures { rows_of result.now ≡ math_above_rest _class }
{
    &[ROW_22]
}
