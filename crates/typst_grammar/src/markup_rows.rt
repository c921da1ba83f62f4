// Written by bench/grammar_crate.py from crates/grammar.table: change that and run it.
//! The rows of markup.
ghost use Rattle.std.specs.Prelude.{◌≡◌};
ghost use Rattle.typst_grammar.specs.Row.{rows_of};
ghost use Rattle.typst_grammar.specs.MarkupRows.{document, emph, emph_body, hash, hash_rest, strong, strong_body};

use crate::row::{Action, Call, Condition, Newline, Row, Take};
use crate::rows::{Class, State};
use typst_base::SyntaxKind;

/// `| unexpected`
const ROW_0: Row = Row {
    condition: Condition::Always,
    before: &[],
    take: Take::Unexpected,
    after: &[],
    call: None,
};

/// `| eat`
const ROW_1: Row = Row {
    condition: Condition::Always,
    before: &[],
    take: Take::Eat,
    after: &[],
    call: None,
};

/// `| reference`
const ROW_2: Row = Row {
    condition: Condition::Always,
    before: &[],
    take: Take::Nothing,
    after: &[],
    call: Some(Call {
        state: State::Reference,
        number: 0,
        enters: false,
        is_deep: false,
        newline: None,
    }),
};

/// `if empty | heading`
const ROW_3: Row = Row {
    condition: Condition::Empty,
    before: &[],
    take: Take::Nothing,
    after: &[],
    call: Some(Call {
        state: State::Heading,
        number: 0,
        enters: false,
        is_deep: false,
        newline: Some(Newline::Stop),
    }),
};

/// `if newline | heading`
const ROW_4: Row = Row {
    condition: Condition::Newline,
    before: &[],
    take: Take::Nothing,
    after: &[],
    call: Some(Call {
        state: State::Heading,
        number: 0,
        enters: false,
        is_deep: false,
        newline: Some(Newline::Stop),
    }),
};

/// `| eat Text`
const ROW_5: Row = Row {
    condition: Condition::Always,
    before: &[],
    take: Take::EatAs(SyntaxKind::Text),
    after: &[],
    call: None,
};

/// `if empty | item`
const ROW_6: Row = Row {
    condition: Condition::Empty,
    before: &[],
    take: Take::Nothing,
    after: &[],
    call: Some(Call {
        state: State::Item,
        number: 0,
        enters: false,
        is_deep: true,
        newline: Some(Newline::Column),
    }),
};

/// `if newline | item`
const ROW_7: Row = Row {
    condition: Condition::Newline,
    before: &[],
    take: Take::Nothing,
    after: &[],
    call: Some(Call {
        state: State::Item,
        number: 0,
        enters: false,
        is_deep: true,
        newline: Some(Newline::Column),
    }),
};

/// `if empty | term`
const ROW_8: Row = Row {
    condition: Condition::Empty,
    before: &[],
    take: Take::Nothing,
    after: &[],
    call: Some(Call {
        state: State::Term,
        number: 0,
        enters: false,
        is_deep: true,
        newline: Some(Newline::Column),
    }),
};

/// `if newline | term`
const ROW_9: Row = Row {
    condition: Condition::Newline,
    before: &[],
    take: Take::Nothing,
    after: &[],
    call: Some(Call {
        state: State::Term,
        number: 0,
        enters: false,
        is_deep: true,
        newline: Some(Newline::Column),
    }),
};

/// `| hash`
const ROW_10: Row = Row {
    condition: Condition::Always,
    before: &[],
    take: Take::Nothing,
    after: &[],
    call: Some(Call {
        state: State::Hash,
        number: 0,
        enters: false,
        is_deep: false,
        newline: Some(Newline::Stop),
    }),
};

/// `| equation`
const ROW_11: Row = Row {
    condition: Condition::Always,
    before: &[],
    take: Take::Nothing,
    after: &[],
    call: Some(Call {
        state: State::Equation,
        number: 0,
        enters: false,
        is_deep: true,
        newline: Some(Newline::Go),
    }),
};

/// `| eat Text; up`
const ROW_12: Row = Row {
    condition: Condition::Always,
    before: &[],
    take: Take::EatAs(SyntaxKind::Text),
    after: &[Action::Up],
    call: None,
};

/// `if is 0 | unexpected`
const ROW_13: Row = Row {
    condition: Condition::Is(0),
    before: &[],
    take: Take::Unexpected,
    after: &[],
    call: None,
};

/// `| eat Text; down`
const ROW_14: Row = Row {
    condition: Condition::Always,
    before: &[],
    take: Take::EatAs(SyntaxKind::Text),
    after: &[Action::Down],
    call: None,
};

/// `| strong`
const ROW_15: Row = Row {
    condition: Condition::Always,
    before: &[],
    take: Take::Nothing,
    after: &[],
    call: Some(Call {
        state: State::Strong,
        number: 0,
        enters: false,
        is_deep: true,
        newline: Some(Newline::Par),
    }),
};

/// `| emph`
const ROW_16: Row = Row {
    condition: Condition::Always,
    before: &[],
    take: Take::Nothing,
    after: &[],
    call: Some(Call {
        state: State::Emph,
        number: 0,
        enters: false,
        is_deep: true,
        newline: Some(Newline::Par),
    }),
};

/// `| eat; -> hash.rest; embedded`
const ROW_17: Row = Row {
    condition: Condition::Always,
    before: &[],
    take: Take::Eat,
    after: &[Action::Goto(State::HashRest)],
    call: Some(Call {
        state: State::Embedded,
        number: 0,
        enters: false,
        is_deep: false,
        newline: None,
    }),
};

/// `| eat; enter strong.body`
const ROW_18: Row = Row {
    condition: Condition::Always,
    before: &[],
    take: Take::Eat,
    after: &[],
    call: Some(Call {
        state: State::StrongBody,
        number: 0,
        enters: true,
        is_deep: false,
        newline: None,
    }),
};

/// `| flush; wrap Markup; return; unclosed; wrap Strong; return`
const ROW_19: Row = Row {
    condition: Condition::Always,
    before: &[
        Action::Flush,
        Action::Wrap(SyntaxKind::Markup),
        Action::Return,
        Action::Unclosed,
        Action::Wrap(SyntaxKind::Strong),
        Action::Return,
    ],
    take: Take::Nothing,
    after: &[],
    call: None,
};

/// `if is 0 | flush; wrap Markup; return; unclosed; wrap Strong; return`
const ROW_20: Row = Row {
    condition: Condition::Is(0),
    before: &[
        Action::Flush,
        Action::Wrap(SyntaxKind::Markup),
        Action::Return,
        Action::Unclosed,
        Action::Wrap(SyntaxKind::Strong),
        Action::Return,
    ],
    take: Take::Nothing,
    after: &[],
    call: None,
};

/// `| flush; wrap Markup; return; eat; wrap Strong; return`
const ROW_21: Row = Row {
    condition: Condition::Always,
    before: &[
        Action::Flush,
        Action::Wrap(SyntaxKind::Markup),
        Action::Return,
    ],
    take: Take::Eat,
    after: &[Action::Wrap(SyntaxKind::Strong), Action::Return],
    call: None,
};

/// `| eat; enter emph.body`
const ROW_22: Row = Row {
    condition: Condition::Always,
    before: &[],
    take: Take::Eat,
    after: &[],
    call: Some(Call {
        state: State::EmphBody,
        number: 0,
        enters: true,
        is_deep: false,
        newline: None,
    }),
};

/// `| flush; wrap Markup; return; unclosed; wrap Emph; return`
const ROW_23: Row = Row {
    condition: Condition::Always,
    before: &[
        Action::Flush,
        Action::Wrap(SyntaxKind::Markup),
        Action::Return,
        Action::Unclosed,
        Action::Wrap(SyntaxKind::Emph),
        Action::Return,
    ],
    take: Take::Nothing,
    after: &[],
    call: None,
};

/// `if is 0 | flush; wrap Markup; return; unclosed; wrap Emph; return`
const ROW_24: Row = Row {
    condition: Condition::Is(0),
    before: &[
        Action::Flush,
        Action::Wrap(SyntaxKind::Markup),
        Action::Return,
        Action::Unclosed,
        Action::Wrap(SyntaxKind::Emph),
        Action::Return,
    ],
    take: Take::Nothing,
    after: &[],
    call: None,
};

/// `| flush; wrap Markup; return; eat; wrap Emph; return`
const ROW_25: Row = Row {
    condition: Condition::Always,
    before: &[
        Action::Flush,
        Action::Wrap(SyntaxKind::Markup),
        Action::Return,
    ],
    take: Take::Eat,
    after: &[Action::Wrap(SyntaxKind::Emph), Action::Return],
    call: None,
};

/// `| return`
const ROW_26: Row = Row {
    condition: Condition::Always,
    before: &[Action::Return],
    take: Take::Nothing,
    after: &[],
    call: None,
};

/// The nodes of the text.
pub(crate) fn document(class: Class) -> &'static [Row]
    ensures { rows_of result.now ≡ document class }
{
    match class {
        Class::Text | Class::Linebreak | Class::Escape | Class::Label | Class::Raw => &[ROW_1],
        Class::RefMarker => &[ROW_2],
        Class::HeadingMarker => &[ROW_3, ROW_4, ROW_5],
        Class::ListMarker | Class::EnumMarker => &[ROW_6, ROW_7, ROW_5],
        Class::TermMarker => &[ROW_8, ROW_9, ROW_5],
        Class::Hash => &[ROW_10],
        Class::Dollar => &[ROW_11],
        Class::Plain | Class::Colon => &[ROW_5],
        Class::LeftBracket => &[ROW_12],
        Class::RightBracket => &[ROW_13, ROW_14],
        Class::Star => &[ROW_15],
        Class::Underscore => &[ROW_16],
        _ => &[ROW_0],
    }
}

/// A hash with the code behind it.
pub(crate) fn hash(class: Class) -> &'static [Row]
    ensures { rows_of result.now ≡ hash class }
{
    match class {
        Class::Hash => &[ROW_17],
        _ => &[],
    }
}

/// Strong content with its delimiters.
pub(crate) fn strong(class: Class) -> &'static [Row]
    ensures { rows_of result.now ≡ strong class }
{
    match class {
        Class::Star => &[ROW_18],
        _ => &[],
    }
}

/// Strong content.
pub(crate) fn strong_body(class: Class) -> &'static [Row]
    ensures { rows_of result.now ≡ strong_body class }
{
    match class {
        Class::End => &[ROW_19],
        Class::Text | Class::Linebreak | Class::Escape | Class::Label | Class::Raw => &[ROW_1],
        Class::RefMarker => &[ROW_2],
        Class::HeadingMarker => &[ROW_4, ROW_5],
        Class::ListMarker | Class::EnumMarker => &[ROW_7, ROW_5],
        Class::TermMarker => &[ROW_9, ROW_5],
        Class::Hash => &[ROW_10],
        Class::Dollar => &[ROW_11],
        Class::Plain | Class::Colon => &[ROW_5],
        Class::LeftBracket => &[ROW_12],
        Class::RightBracket => &[ROW_20, ROW_13, ROW_14],
        Class::Star => &[ROW_21],
        Class::Underscore => &[ROW_16],
        _ => &[ROW_0],
    }
}

/// Emphasized content with its delimiters.
pub(crate) fn emph(class: Class) -> &'static [Row]
    ensures { rows_of result.now ≡ emph class }
{
    match class {
        Class::Underscore => &[ROW_22],
        _ => &[],
    }
}

/// Emphasized content.
pub(crate) fn emph_body(class: Class) -> &'static [Row]
    ensures { rows_of result.now ≡ emph_body class }
{
    match class {
        Class::End => &[ROW_23],
        Class::Text | Class::Linebreak | Class::Escape | Class::Label | Class::Raw => &[ROW_1],
        Class::RefMarker => &[ROW_2],
        Class::HeadingMarker => &[ROW_4, ROW_5],
        Class::ListMarker | Class::EnumMarker => &[ROW_7, ROW_5],
        Class::TermMarker => &[ROW_9, ROW_5],
        Class::Hash => &[ROW_10],
        Class::Dollar => &[ROW_11],
        Class::Plain | Class::Colon => &[ROW_5],
        Class::LeftBracket => &[ROW_12],
        Class::RightBracket => &[ROW_24, ROW_13, ROW_14],
        Class::Star => &[ROW_15],
        Class::Underscore => &[ROW_25],
        _ => &[ROW_0],
    }
}

/// The rest of a row of `hash`, once the frame that it opened has returned.
pub(crate) fn hash_rest(_class: Class) -> &'static [Row]
    ensures { rows_of result.now ≡ hash_rest _class }
{
    &[ROW_26]
}
