// Written by bench/grammar_crate.py from crates/grammar.table: change that and run it.
//! The rows of headings, items, references and blocks of content.
ghost use Rattle.std.specs.Prelude.{◌≡◌};
ghost use Rattle.typst_grammar.specs.Row.{rows_of};
ghost use Rattle.typst_grammar.specs.StructureRows.{content, content_body, heading, heading_body, item, item_body, item_rest1, item_rest2, reference, reference_supplement, reference_supplement_rest, term, term_colon, term_colon_rest1, term_colon_rest2, term_head, term_head_rest, term_name};

use crate::expectation::Expectation;
use crate::row::{Action, Call, Condition, Newline, Row, Take};
use crate::rows::{Class, State};
use typst_base::SyntaxKind;

/// `| eat; heading.body`
const ROW_0: Row = Row {
    condition: Condition::Always,
    before: &[],
    take: Take::Eat,
    after: &[],
    call: Some(Call {
        state: State::HeadingBody,
        number: 0,
        enters: false,
        is_deep: false,
        newline: None,
    }),
};

/// `| wrap Markup; return; wrap Heading; return`
const ROW_1: Row = Row {
    condition: Condition::Always,
    before: &[
        Action::Wrap(SyntaxKind::Markup),
        Action::Return,
        Action::Wrap(SyntaxKind::Heading),
        Action::Return,
    ],
    take: Take::Nothing,
    after: &[],
    call: None,
};

/// `| unexpected`
const ROW_2: Row = Row {
    condition: Condition::Always,
    before: &[],
    take: Take::Unexpected,
    after: &[],
    call: None,
};

/// `| eat`
const ROW_3: Row = Row {
    condition: Condition::Always,
    before: &[],
    take: Take::Eat,
    after: &[],
    call: None,
};

/// `| reference`
const ROW_4: Row = Row {
    condition: Condition::Always,
    before: &[],
    take: Take::Nothing,
    after: &[],
    call: Some(Call {
        state: State::Reference,
        number: 0,
        enters: false,
        is_deep: false,
        newline: None,
    }),
};

/// `if newline | heading`
const ROW_5: Row = Row {
    condition: Condition::Newline,
    before: &[],
    take: Take::Nothing,
    after: &[],
    call: Some(Call {
        state: State::Heading,
        number: 0,
        enters: false,
        is_deep: false,
        newline: Some(Newline::Stop),
    }),
};

/// `| eat Text`
const ROW_6: Row = Row {
    condition: Condition::Always,
    before: &[],
    take: Take::EatAs(SyntaxKind::Text),
    after: &[],
    call: None,
};

/// `if newline | item`
const ROW_7: Row = Row {
    condition: Condition::Newline,
    before: &[],
    take: Take::Nothing,
    after: &[],
    call: Some(Call {
        state: State::Item,
        number: 0,
        enters: false,
        is_deep: true,
        newline: Some(Newline::Column),
    }),
};

/// `if newline | term`
const ROW_8: Row = Row {
    condition: Condition::Newline,
    before: &[],
    take: Take::Nothing,
    after: &[],
    call: Some(Call {
        state: State::Term,
        number: 0,
        enters: false,
        is_deep: true,
        newline: Some(Newline::Column),
    }),
};

/// `| hash`
const ROW_9: Row = Row {
    condition: Condition::Always,
    before: &[],
    take: Take::Nothing,
    after: &[],
    call: Some(Call {
        state: State::Hash,
        number: 0,
        enters: false,
        is_deep: false,
        newline: Some(Newline::Stop),
    }),
};

/// `| equation`
const ROW_10: Row = Row {
    condition: Condition::Always,
    before: &[],
    take: Take::Nothing,
    after: &[],
    call: Some(Call {
        state: State::Equation,
        number: 0,
        enters: false,
        is_deep: true,
        newline: Some(Newline::Go),
    }),
};

/// `| eat Text; up`
const ROW_11: Row = Row {
    condition: Condition::Always,
    before: &[],
    take: Take::EatAs(SyntaxKind::Text),
    after: &[Action::Up],
    call: None,
};

/// `if is 0 | wrap Markup; return; wrap Heading; return`
const ROW_12: Row = Row {
    condition: Condition::Is(0),
    before: &[
        Action::Wrap(SyntaxKind::Markup),
        Action::Return,
        Action::Wrap(SyntaxKind::Heading),
        Action::Return,
    ],
    take: Take::Nothing,
    after: &[],
    call: None,
};

/// `if is 0 | unexpected`
const ROW_13: Row = Row {
    condition: Condition::Is(0),
    before: &[],
    take: Take::Unexpected,
    after: &[],
    call: None,
};

/// `| eat Text; down`
const ROW_14: Row = Row {
    condition: Condition::Always,
    before: &[],
    take: Take::EatAs(SyntaxKind::Text),
    after: &[Action::Down],
    call: None,
};

/// `| strong`
const ROW_15: Row = Row {
    condition: Condition::Always,
    before: &[],
    take: Take::Nothing,
    after: &[],
    call: Some(Call {
        state: State::Strong,
        number: 0,
        enters: false,
        is_deep: true,
        newline: Some(Newline::Par),
    }),
};

/// `| emph`
const ROW_16: Row = Row {
    condition: Condition::Always,
    before: &[],
    take: Take::Nothing,
    after: &[],
    call: Some(Call {
        state: State::Emph,
        number: 0,
        enters: false,
        is_deep: true,
        newline: Some(Newline::Par),
    }),
};

/// `| eat; -> item.rest1; item.body`
const ROW_17: Row = Row {
    condition: Condition::Always,
    before: &[],
    take: Take::Eat,
    after: &[Action::Goto(State::ItemRest1)],
    call: Some(Call {
        state: State::ItemBody,
        number: 0,
        enters: false,
        is_deep: false,
        newline: None,
    }),
};

/// `| eat; -> item.rest2; item.body`
const ROW_18: Row = Row {
    condition: Condition::Always,
    before: &[],
    take: Take::Eat,
    after: &[Action::Goto(State::ItemRest2)],
    call: Some(Call {
        state: State::ItemBody,
        number: 0,
        enters: false,
        is_deep: false,
        newline: None,
    }),
};

/// `| wrap Markup; return`
const ROW_19: Row = Row {
    condition: Condition::Always,
    before: &[Action::Wrap(SyntaxKind::Markup), Action::Return],
    take: Take::Nothing,
    after: &[],
    call: None,
};

/// `if empty | heading`
const ROW_20: Row = Row {
    condition: Condition::Empty,
    before: &[],
    take: Take::Nothing,
    after: &[],
    call: Some(Call {
        state: State::Heading,
        number: 0,
        enters: false,
        is_deep: false,
        newline: Some(Newline::Stop),
    }),
};

/// `if empty | item`
const ROW_21: Row = Row {
    condition: Condition::Empty,
    before: &[],
    take: Take::Nothing,
    after: &[],
    call: Some(Call {
        state: State::Item,
        number: 0,
        enters: false,
        is_deep: true,
        newline: Some(Newline::Column),
    }),
};

/// `if empty | term`
const ROW_22: Row = Row {
    condition: Condition::Empty,
    before: &[],
    take: Take::Nothing,
    after: &[],
    call: Some(Call {
        state: State::Term,
        number: 0,
        enters: false,
        is_deep: true,
        newline: Some(Newline::Column),
    }),
};

/// `if is 0 | wrap Markup; return`
const ROW_23: Row = Row {
    condition: Condition::Is(0),
    before: &[Action::Wrap(SyntaxKind::Markup), Action::Return],
    take: Take::Nothing,
    after: &[],
    call: None,
};

/// `| -> term.colon; term.head`
const ROW_24: Row = Row {
    condition: Condition::Always,
    before: &[Action::Goto(State::TermColon)],
    take: Take::Nothing,
    after: &[],
    call: Some(Call {
        state: State::TermHead,
        number: 0,
        enters: false,
        is_deep: false,
        newline: Some(Newline::Stop),
    }),
};

/// `| eat; -> term.head.rest; term.name`
const ROW_25: Row = Row {
    condition: Condition::Always,
    before: &[],
    take: Take::Eat,
    after: &[Action::Goto(State::TermHeadRest)],
    call: Some(Call {
        state: State::TermName,
        number: 0,
        enters: false,
        is_deep: false,
        newline: None,
    }),
};

/// `| expected colon; -> term.colon.rest2; item.body`
const ROW_26: Row = Row {
    condition: Condition::Always,
    before: &[
        Action::Expected(Expectation::Colon),
        Action::Goto(State::TermColonRest2),
    ],
    take: Take::Nothing,
    after: &[],
    call: Some(Call {
        state: State::ItemBody,
        number: 0,
        enters: false,
        is_deep: false,
        newline: None,
    }),
};

/// `| eat; -> term.colon.rest1; item.body`
const ROW_27: Row = Row {
    condition: Condition::Always,
    before: &[],
    take: Take::Eat,
    after: &[Action::Goto(State::TermColonRest1)],
    call: Some(Call {
        state: State::ItemBody,
        number: 0,
        enters: false,
        is_deep: false,
        newline: None,
    }),
};

/// `| eat; -> reference.supplement`
const ROW_28: Row = Row {
    condition: Condition::Always,
    before: &[],
    take: Take::Eat,
    after: &[Action::Goto(State::ReferenceSupplement)],
    call: None,
};

/// `| wrap Ref; return`
const ROW_29: Row = Row {
    condition: Condition::Always,
    before: &[Action::Wrap(SyntaxKind::Ref), Action::Return],
    take: Take::Nothing,
    after: &[],
    call: None,
};

/// `if direct | -> reference.supplement.rest; content`
const ROW_30: Row = Row {
    condition: Condition::Direct,
    before: &[Action::Goto(State::ReferenceSupplementRest)],
    take: Take::Nothing,
    after: &[],
    call: Some(Call {
        state: State::Content,
        number: 0,
        enters: false,
        is_deep: true,
        newline: Some(Newline::Go),
    }),
};

/// `| eat; enter content.body`
const ROW_31: Row = Row {
    condition: Condition::Always,
    before: &[],
    take: Take::Eat,
    after: &[],
    call: Some(Call {
        state: State::ContentBody,
        number: 0,
        enters: true,
        is_deep: false,
        newline: None,
    }),
};

/// `| flush; wrap Markup; return; unclosed; wrap ContentBlock; return`
const ROW_32: Row = Row {
    condition: Condition::Always,
    before: &[
        Action::Flush,
        Action::Wrap(SyntaxKind::Markup),
        Action::Return,
        Action::Unclosed,
        Action::Wrap(SyntaxKind::ContentBlock),
        Action::Return,
    ],
    take: Take::Nothing,
    after: &[],
    call: None,
};

/// `if is 0 | flush; wrap Markup; return; eat; wrap ContentBlock; return`
const ROW_33: Row = Row {
    condition: Condition::Is(0),
    before: &[
        Action::Flush,
        Action::Wrap(SyntaxKind::Markup),
        Action::Return,
    ],
    take: Take::Eat,
    after: &[Action::Wrap(SyntaxKind::ContentBlock), Action::Return],
    call: None,
};

/// `| wrap ListItem; return`
const ROW_34: Row = Row {
    condition: Condition::Always,
    before: &[Action::Wrap(SyntaxKind::ListItem), Action::Return],
    take: Take::Nothing,
    after: &[],
    call: None,
};

/// `| wrap EnumItem; return`
const ROW_35: Row = Row {
    condition: Condition::Always,
    before: &[Action::Wrap(SyntaxKind::EnumItem), Action::Return],
    take: Take::Nothing,
    after: &[],
    call: None,
};

/// `| return`
const ROW_36: Row = Row {
    condition: Condition::Always,
    before: &[Action::Return],
    take: Take::Nothing,
    after: &[],
    call: None,
};

/// `| wrap TermItem; return`
const ROW_37: Row = Row {
    condition: Condition::Always,
    before: &[Action::Wrap(SyntaxKind::TermItem), Action::Return],
    take: Take::Nothing,
    after: &[],
    call: None,
};

/// A heading with its marker.
pub(crate) fn heading(class: Class) -> &'static [Row]
    ensures { rows_of result.now ≡ heading class }
{
    match class {
        Class::HeadingMarker => &[ROW_0],
        _ => &[],
    }
}

/// The content of a heading.
pub(crate) fn heading_body(class: Class) -> &'static [Row]
    ensures { rows_of result.now ≡ heading_body class }
{
    match class {
        Class::End | Class::Label => &[ROW_1],
        Class::Text | Class::Linebreak | Class::Escape | Class::Raw => &[ROW_3],
        Class::RefMarker => &[ROW_4],
        Class::HeadingMarker => &[ROW_5, ROW_6],
        Class::ListMarker | Class::EnumMarker => &[ROW_7, ROW_6],
        Class::TermMarker => &[ROW_8, ROW_6],
        Class::Hash => &[ROW_9],
        Class::Dollar => &[ROW_10],
        Class::Plain | Class::Colon => &[ROW_6],
        Class::LeftBracket => &[ROW_11],
        Class::RightBracket => &[ROW_12, ROW_13, ROW_14],
        Class::Star => &[ROW_15],
        Class::Underscore => &[ROW_16],
        _ => &[ROW_2],
    }
}

/// An item of a list with its marker.
pub(crate) fn item(class: Class) -> &'static [Row]
    ensures { rows_of result.now ≡ item class }
{
    match class {
        Class::ListMarker => &[ROW_17],
        Class::EnumMarker => &[ROW_18],
        _ => &[],
    }
}

/// The content of an item.
pub(crate) fn item_body(class: Class) -> &'static [Row]
    ensures { rows_of result.now ≡ item_body class }
{
    match class {
        Class::End => &[ROW_19],
        Class::Text | Class::Linebreak | Class::Escape | Class::Label | Class::Raw => &[ROW_3],
        Class::RefMarker => &[ROW_4],
        Class::HeadingMarker => &[ROW_20, ROW_5, ROW_6],
        Class::ListMarker | Class::EnumMarker => &[ROW_21, ROW_7, ROW_6],
        Class::TermMarker => &[ROW_22, ROW_8, ROW_6],
        Class::Hash => &[ROW_9],
        Class::Dollar => &[ROW_10],
        Class::Plain | Class::Colon => &[ROW_6],
        Class::LeftBracket => &[ROW_11],
        Class::RightBracket => &[ROW_23, ROW_13, ROW_14],
        Class::Star => &[ROW_15],
        Class::Underscore => &[ROW_16],
        _ => &[ROW_2],
    }
}

/// An item of a term list.
pub(crate) fn term(class: Class) -> &'static [Row]
    ensures { rows_of result.now ≡ term class }
{
    match class {
        Class::TermMarker => &[ROW_24],
        _ => &[],
    }
}

/// The marker of a term with the term.
pub(crate) fn term_head(class: Class) -> &'static [Row]
    ensures { rows_of result.now ≡ term_head class }
{
    match class {
        Class::TermMarker => &[ROW_25],
        _ => &[],
    }
}

/// A term that is described.
pub(crate) fn term_name(class: Class) -> &'static [Row]
    ensures { rows_of result.now ≡ term_name class }
{
    match class {
        Class::End | Class::Colon => &[ROW_19],
        Class::Text | Class::Linebreak | Class::Escape | Class::Label | Class::Raw => &[ROW_3],
        Class::RefMarker => &[ROW_4],
        Class::HeadingMarker => &[ROW_5, ROW_6],
        Class::ListMarker | Class::EnumMarker => &[ROW_7, ROW_6],
        Class::TermMarker => &[ROW_8, ROW_6],
        Class::Hash => &[ROW_9],
        Class::Dollar => &[ROW_10],
        Class::Plain => &[ROW_6],
        Class::LeftBracket => &[ROW_11],
        Class::RightBracket => &[ROW_23, ROW_13, ROW_14],
        Class::Star => &[ROW_15],
        Class::Underscore => &[ROW_16],
        _ => &[ROW_2],
    }
}

/// The colon behind a term, with the description.
pub(crate) fn term_colon(class: Class) -> &'static [Row]
    ensures { rows_of result.now ≡ term_colon class }
{
    match class {
        Class::Colon => &[ROW_27],
        _ => &[ROW_26],
    }
}

/// A reference.
pub(crate) fn reference(class: Class) -> &'static [Row]
    ensures { rows_of result.now ≡ reference class }
{
    match class {
        Class::RefMarker => &[ROW_28],
        _ => &[],
    }
}

/// What may follow the marker of a reference.
pub(crate) fn reference_supplement(class: Class) -> &'static [Row]
    ensures { rows_of result.now ≡ reference_supplement class }
{
    match class {
        Class::LeftBracket => &[ROW_30, ROW_29],
        _ => &[ROW_29],
    }
}

/// A block of content.
pub(crate) fn content(class: Class) -> &'static [Row]
    ensures { rows_of result.now ≡ content class }
{
    match class {
        Class::LeftBracket => &[ROW_31],
        _ => &[],
    }
}

/// The content of a block.
pub(crate) fn content_body(class: Class) -> &'static [Row]
    ensures { rows_of result.now ≡ content_body class }
{
    match class {
        Class::End => &[ROW_32],
        Class::Text | Class::Linebreak | Class::Escape | Class::Label | Class::Raw => &[ROW_3],
        Class::RefMarker => &[ROW_4],
        Class::HeadingMarker => &[ROW_20, ROW_5, ROW_6],
        Class::ListMarker | Class::EnumMarker => &[ROW_21, ROW_7, ROW_6],
        Class::TermMarker => &[ROW_22, ROW_8, ROW_6],
        Class::Hash => &[ROW_9],
        Class::Dollar => &[ROW_10],
        Class::Plain | Class::Colon => &[ROW_6],
        Class::LeftBracket => &[ROW_11],
        Class::RightBracket => &[ROW_33, ROW_13, ROW_14],
        Class::Star => &[ROW_15],
        Class::Underscore => &[ROW_16],
        _ => &[ROW_2],
    }
}

/// The rest of a row of `item`, once the frame that it opened has returned.
pub(crate) fn item_rest1(_class: Class) -> &'static [Row]
    ensures { rows_of result.now ≡ item_rest1 _class }
{
    &[ROW_34]
}

/// The rest of a row of `item`, once the frame that it opened has returned.
pub(crate) fn item_rest2(_class: Class) -> &'static [Row]
    ensures { rows_of result.now ≡ item_rest2 _class }
{
    &[ROW_35]
}

/// The rest of a row of `term.head`, once the frame that it opened has returned.
pub(crate) fn term_head_rest(_class: Class) -> &'static [Row]
    ensures { rows_of result.now ≡ term_head_rest _class }
{
    &[ROW_36]
}

/// The rest of a row of `term.colon`, once the frame that it opened has returned.
pub(crate) fn term_colon_rest1(_class: Class) -> &'static [Row]
    ensures { rows_of result.now ≡ term_colon_rest1 _class }
{
    &[ROW_37]
}

/// The rest of a row of `term.colon`, once the frame that it opened has returned.
pub(crate) fn term_colon_rest2(_class: Class) -> &'static [Row]
    ensures { rows_of result.now ≡ term_colon_rest2 _class }
{
    &[ROW_37]
}

/// The rest of a row of `reference.supplement`, once the frame that it opened has returned.
pub(crate) fn reference_supplement_rest(_class: Class) -> &'static [Row]
    ensures { rows_of result.now ≡ reference_supplement_rest _class }
{
    &[ROW_29]
}
