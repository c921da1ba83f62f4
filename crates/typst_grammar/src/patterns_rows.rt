// Written by bench/grammar_crate.py from crates/grammar.table: change that and run it.
//! The rows of patterns.
ghost use Rattle.std.specs.Prelude.{◌≡◌};
ghost use Rattle.typst_grammar.specs.Row.{rows_of};
ghost use Rattle.typst_grammar.specs.PatternsRows.{element, element_colon, element_colon_rest1, element_colon_rest2, leaf, leaf_check, pattern, pattern_rest, tuple, tuple_close, tuple_comma, tuple_first, tuple_item, tuple_more, tuple_one};

use crate::expectation::Expectation;
use crate::row::{Action, Call, Condition, Newline, Row, Take};
use crate::rows::{Class, State};
use typst_base::SyntaxKind;

/// `| expected pattern; return`
const ROW_0: Row = Row {
    condition: Condition::Always,
    before: &[Action::Expected(Expectation::Pattern), Action::Return],
    take: Take::Nothing,
    after: &[],
    call: None,
};

/// `| -> leaf.check; expr 9`
const ROW_1: Row = Row {
    condition: Condition::Always,
    before: &[Action::Goto(State::LeafCheck)],
    take: Take::Nothing,
    after: &[],
    call: Some(Call {
        state: State::Expr,
        number: 9,
        enters: false,
        is_deep: false,
        newline: None,
    }),
};

/// `| mistake pattern; return`
const ROW_2: Row = Row {
    condition: Condition::Always,
    before: &[],
    take: Take::Mistake(Expectation::Pattern),
    after: &[Action::Return],
    call: None,
};

/// `if only ident | return`
const ROW_3: Row = Row {
    condition: Condition::Only(SyntaxKind::Ident),
    before: &[Action::Return],
    take: Take::Nothing,
    after: &[],
    call: None,
};

/// `| wrong pattern; return`
const ROW_4: Row = Row {
    condition: Condition::Always,
    before: &[Action::Wrong(Expectation::Pattern), Action::Return],
    take: Take::Nothing,
    after: &[],
    call: None,
};

/// `| -> pattern.rest; tuple`
const ROW_5: Row = Row {
    condition: Condition::Always,
    before: &[Action::Goto(State::PatternRest)],
    take: Take::Nothing,
    after: &[],
    call: Some(Call {
        state: State::Tuple,
        number: 0,
        enters: false,
        is_deep: true,
        newline: Some(Newline::Go),
    }),
};

/// `| eat; return`
const ROW_6: Row = Row {
    condition: Condition::Always,
    before: &[],
    take: Take::Eat,
    after: &[Action::Return],
    call: None,
};

/// `| eat; -> tuple.first`
const ROW_7: Row = Row {
    condition: Condition::Always,
    before: &[],
    take: Take::Eat,
    after: &[Action::Goto(State::TupleFirst)],
    call: None,
};

/// `| -> tuple.close`
const ROW_8: Row = Row {
    condition: Condition::Always,
    before: &[Action::Goto(State::TupleClose)],
    take: Take::Nothing,
    after: &[],
    call: None,
};

/// `| unexpected`
const ROW_9: Row = Row {
    condition: Condition::Always,
    before: &[],
    take: Take::Unexpected,
    after: &[],
    call: None,
};

/// `| -> tuple.one; element`
const ROW_10: Row = Row {
    condition: Condition::Always,
    before: &[Action::Goto(State::TupleOne)],
    take: Take::Nothing,
    after: &[],
    call: Some(Call {
        state: State::Element,
        number: 0,
        enters: false,
        is_deep: false,
        newline: None,
    }),
};

/// `if last named | -> tuple.comma`
const ROW_11: Row = Row {
    condition: Condition::Last(SyntaxKind::Named),
    before: &[Action::Goto(State::TupleComma)],
    take: Take::Nothing,
    after: &[],
    call: None,
};

/// `if last spread | -> tuple.comma`
const ROW_12: Row = Row {
    condition: Condition::Last(SyntaxKind::Spread),
    before: &[Action::Goto(State::TupleComma)],
    take: Take::Nothing,
    after: &[],
    call: None,
};

/// `| -> group.close`
const ROW_13: Row = Row {
    condition: Condition::Always,
    before: &[Action::Goto(State::GroupClose)],
    take: Take::Nothing,
    after: &[],
    call: None,
};

/// `| expected comma; -> tuple.more`
const ROW_14: Row = Row {
    condition: Condition::Always,
    before: &[
        Action::Expected(Expectation::Comma),
        Action::Goto(State::TupleMore),
    ],
    take: Take::Nothing,
    after: &[],
    call: None,
};

/// `| eat; -> tuple.item`
const ROW_15: Row = Row {
    condition: Condition::Always,
    before: &[],
    take: Take::Eat,
    after: &[Action::Goto(State::TupleItem)],
    call: None,
};

/// `| -> tuple.item`
const ROW_16: Row = Row {
    condition: Condition::Always,
    before: &[Action::Goto(State::TupleItem)],
    take: Take::Nothing,
    after: &[],
    call: None,
};

/// `| -> tuple.comma; element`
const ROW_17: Row = Row {
    condition: Condition::Always,
    before: &[Action::Goto(State::TupleComma)],
    take: Take::Nothing,
    after: &[],
    call: Some(Call {
        state: State::Element,
        number: 0,
        enters: false,
        is_deep: false,
        newline: None,
    }),
};

/// `| expected comma; -> tuple.item`
const ROW_18: Row = Row {
    condition: Condition::Always,
    before: &[
        Action::Expected(Expectation::Comma),
        Action::Goto(State::TupleItem),
    ],
    take: Take::Nothing,
    after: &[],
    call: None,
};

/// `| unclosed; wrap Destructuring; return`
const ROW_19: Row = Row {
    condition: Condition::Always,
    before: &[
        Action::Unclosed,
        Action::Wrap(SyntaxKind::Destructuring),
        Action::Return,
    ],
    take: Take::Nothing,
    after: &[],
    call: None,
};

/// `| eat; wrap Destructuring; return`
const ROW_20: Row = Row {
    condition: Condition::Always,
    before: &[],
    take: Take::Eat,
    after: &[Action::Wrap(SyntaxKind::Destructuring), Action::Return],
    call: None,
};

/// `| -> element.colon; pattern`
const ROW_21: Row = Row {
    condition: Condition::Always,
    before: &[Action::Goto(State::ElementColon)],
    take: Take::Nothing,
    after: &[],
    call: Some(Call {
        state: State::Pattern,
        number: 0,
        enters: false,
        is_deep: false,
        newline: None,
    }),
};

/// `| eat; -> sink`
const ROW_22: Row = Row {
    condition: Condition::Always,
    before: &[],
    take: Take::Eat,
    after: &[Action::Goto(State::Sink)],
    call: None,
};

/// `| return`
const ROW_23: Row = Row {
    condition: Condition::Always,
    before: &[Action::Return],
    take: Take::Nothing,
    after: &[],
    call: None,
};

/// `if only ident | eat; -> element.colon.rest1; pattern`
const ROW_24: Row = Row {
    condition: Condition::Only(SyntaxKind::Ident),
    before: &[],
    take: Take::Eat,
    after: &[Action::Goto(State::ElementColonRest1)],
    call: Some(Call {
        state: State::Pattern,
        number: 0,
        enters: false,
        is_deep: false,
        newline: None,
    }),
};

/// `| wrong identifier; eat; -> element.colon.rest2; pattern`
const ROW_25: Row = Row {
    condition: Condition::Always,
    before: &[Action::Wrong(Expectation::Identifier)],
    take: Take::Eat,
    after: &[Action::Goto(State::ElementColonRest2)],
    call: Some(Call {
        state: State::Pattern,
        number: 0,
        enters: false,
        is_deep: false,
        newline: None,
    }),
};

/// `| wrap Named; return`
const ROW_26: Row = Row {
    condition: Condition::Always,
    before: &[Action::Wrap(SyntaxKind::Named), Action::Return],
    take: Take::Nothing,
    after: &[],
    call: None,
};

/// A pattern that is a name.
pub(crate) fn leaf(class: Class) -> &'static [Row]
    ensures { rows_of result.now ≡ leaf class }
{
    match class {
        Class::Label
        | Class::Raw
        | Class::Dollar
        | Class::LeftBrace
        | Class::LeftBracket
        | Class::LeftParen
        | Class::Ident
        | Class::Str
        | Class::Literal => &[ROW_1],
        Class::Constant
        | Class::Not
        | Class::And
        | Class::Or
        | Class::Let
        | Class::Set
        | Class::Show
        | Class::Context
        | Class::If
        | Class::Else
        | Class::For
        | Class::In
        | Class::While
        | Class::Break
        | Class::Continue
        | Class::Return
        | Class::Import
        | Class::Include
        | Class::As => &[ROW_2],
        _ => &[ROW_0],
    }
}

/// Whether a pattern is a name.
pub(crate) fn leaf_check(_class: Class) -> &'static [Row]
    ensures { rows_of result.now ≡ leaf_check _class }
{
    &[ROW_3, ROW_4]
}

/// A pattern.
pub(crate) fn pattern(class: Class) -> &'static [Row]
    ensures { rows_of result.now ≡ pattern class }
{
    match class {
        Class::Label
        | Class::Raw
        | Class::Dollar
        | Class::LeftBrace
        | Class::LeftBracket
        | Class::Ident
        | Class::Str
        | Class::Literal => &[ROW_1],
        Class::LeftParen => &[ROW_5],
        Class::Underscore => &[ROW_6],
        Class::Constant
        | Class::Not
        | Class::And
        | Class::Or
        | Class::Let
        | Class::Set
        | Class::Show
        | Class::Context
        | Class::If
        | Class::Else
        | Class::For
        | Class::In
        | Class::While
        | Class::Break
        | Class::Continue
        | Class::Return
        | Class::Import
        | Class::Include
        | Class::As => &[ROW_2],
        _ => &[ROW_0],
    }
}

/// A pattern in a parenthesis.
pub(crate) fn tuple(class: Class) -> &'static [Row]
    ensures { rows_of result.now ≡ tuple class }
{
    match class {
        Class::LeftParen => &[ROW_7],
        _ => &[],
    }
}

/// The first item of a pattern.
pub(crate) fn tuple_first(class: Class) -> &'static [Row]
    ensures { rows_of result.now ≡ tuple_first class }
{
    match class {
        Class::End
        | Class::RightBrace
        | Class::RightBracket
        | Class::RightParen
        | Class::Semicolon => &[ROW_8],
        Class::Label
        | Class::Raw
        | Class::Dollar
        | Class::LeftBrace
        | Class::LeftBracket
        | Class::LeftParen
        | Class::Dots
        | Class::Underscore
        | Class::Ident
        | Class::Str
        | Class::Literal
        | Class::Constant
        | Class::Let
        | Class::Set
        | Class::Show
        | Class::Context
        | Class::If
        | Class::For
        | Class::While
        | Class::Break
        | Class::Continue
        | Class::Return
        | Class::Import
        | Class::Include => &[ROW_10],
        _ => &[ROW_9],
    }
}

/// What may follow the first item of a pattern.
pub(crate) fn tuple_one(class: Class) -> &'static [Row]
    ensures { rows_of result.now ≡ tuple_one class }
{
    match class {
        Class::End
        | Class::RightBrace
        | Class::RightBracket
        | Class::RightParen
        | Class::Semicolon => &[ROW_11, ROW_12, ROW_13],
        Class::Comma => &[ROW_11, ROW_12, ROW_15],
        _ => &[ROW_11, ROW_12, ROW_14],
    }
}

/// What may follow the first item of a pattern if no comma does.
pub(crate) fn tuple_more(class: Class) -> &'static [Row]
    ensures { rows_of result.now ≡ tuple_more class }
{
    match class {
        Class::End
        | Class::RightBrace
        | Class::RightBracket
        | Class::RightParen
        | Class::Semicolon => &[ROW_13],
        Class::Label
        | Class::Raw
        | Class::Dollar
        | Class::LeftBrace
        | Class::LeftBracket
        | Class::LeftParen
        | Class::Dots
        | Class::Underscore
        | Class::Ident
        | Class::Str
        | Class::Literal
        | Class::Constant
        | Class::Let
        | Class::Set
        | Class::Show
        | Class::Context
        | Class::If
        | Class::For
        | Class::While
        | Class::Break
        | Class::Continue
        | Class::Return
        | Class::Import
        | Class::Include => &[ROW_16],
        _ => &[ROW_9],
    }
}

/// An item of a pattern, if another one comes.
pub(crate) fn tuple_item(class: Class) -> &'static [Row]
    ensures { rows_of result.now ≡ tuple_item class }
{
    match class {
        Class::End
        | Class::RightBrace
        | Class::RightBracket
        | Class::RightParen
        | Class::Semicolon => &[ROW_8],
        Class::Label
        | Class::Raw
        | Class::Dollar
        | Class::LeftBrace
        | Class::LeftBracket
        | Class::LeftParen
        | Class::Dots
        | Class::Underscore
        | Class::Ident
        | Class::Str
        | Class::Literal
        | Class::Constant
        | Class::Let
        | Class::Set
        | Class::Show
        | Class::Context
        | Class::If
        | Class::For
        | Class::While
        | Class::Break
        | Class::Continue
        | Class::Return
        | Class::Import
        | Class::Include => &[ROW_17],
        _ => &[ROW_9],
    }
}

/// The comma behind an item of a pattern.
pub(crate) fn tuple_comma(class: Class) -> &'static [Row]
    ensures { rows_of result.now ≡ tuple_comma class }
{
    match class {
        Class::End
        | Class::RightBrace
        | Class::RightBracket
        | Class::RightParen
        | Class::Semicolon => &[ROW_8],
        Class::Comma => &[ROW_15],
        _ => &[ROW_18],
    }
}

/// The end of a pattern.
pub(crate) fn tuple_close(class: Class) -> &'static [Row]
    ensures { rows_of result.now ≡ tuple_close class }
{
    match class {
        Class::RightParen => &[ROW_20],
        _ => &[ROW_19],
    }
}

/// An item of a pattern: a pattern, a key with a pattern, or a sink.
pub(crate) fn element(class: Class) -> &'static [Row]
    ensures { rows_of result.now ≡ element class }
{
    match class {
        Class::Label
        | Class::Raw
        | Class::Dollar
        | Class::LeftBrace
        | Class::LeftBracket
        | Class::LeftParen
        | Class::Underscore
        | Class::Ident
        | Class::Str
        | Class::Literal
        | Class::Constant
        | Class::Let
        | Class::Set
        | Class::Show
        | Class::Context
        | Class::If
        | Class::For
        | Class::While
        | Class::Break
        | Class::Continue
        | Class::Return
        | Class::Import
        | Class::Include => &[ROW_21],
        Class::Dots => &[ROW_22],
        _ => &[],
    }
}

/// The colon behind a key of a pattern.
pub(crate) fn element_colon(class: Class) -> &'static [Row]
    ensures { rows_of result.now ≡ element_colon class }
{
    match class {
        Class::Colon => &[ROW_24, ROW_25],
        _ => &[ROW_23],
    }
}

/// The rest of a row of `pattern`, once the frame that it opened has returned.
pub(crate) fn pattern_rest(_class: Class) -> &'static [Row]
    ensures { rows_of result.now ≡ pattern_rest _class }
{
    &[ROW_23]
}

/// The rest of a row of `element.colon`, once the frame that it opened has returned.
pub(crate) fn element_colon_rest1(_class: Class) -> &'static [Row]
    ensures { rows_of result.now ≡ element_colon_rest1 _class }
{
    &[ROW_26]
}

/// The rest of a row of `element.colon`, once the frame that it opened has returned.
pub(crate) fn element_colon_rest2(_class: Class) -> &'static [Row]
    ensures { rows_of result.now ≡ element_colon_rest2 _class }
{
    &[ROW_26]
}
