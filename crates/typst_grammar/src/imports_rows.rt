// Written by bench/grammar_crate.py from crates/grammar.table: change that and run it.
//! The rows of imports.
ghost use Rattle.std.specs.Prelude.{◌≡◌};
ghost use Rattle.typst_grammar.specs.Row.{rows_of};
ghost use Rattle.typst_grammar.specs.ImportsRows.{import_as, import_close, import_colon, import_list, import_what, import_what_rest1, import_what_rest2, imported, imported_path, imported_path_rest, imports, imports_comma};

use crate::expectation::Expectation;
use crate::row::{Action, Call, Condition, Newline, Row, Take};
use crate::rows::{Class, State};
use typst_base::SyntaxKind;

/// `| wrap ModuleImport; -> expr.after`
const ROW_0: Row = Row {
    condition: Condition::Always,
    before: &[
        Action::Wrap(SyntaxKind::ModuleImport),
        Action::Goto(State::ExprAfter),
    ],
    take: Take::Nothing,
    after: &[],
    call: None,
};

/// `| eat; -> import.what`
const ROW_1: Row = Row {
    condition: Condition::Always,
    before: &[],
    take: Take::Eat,
    after: &[Action::Goto(State::ImportWhat)],
    call: None,
};

/// `| eat; -> import.colon; name`
const ROW_2: Row = Row {
    condition: Condition::Always,
    before: &[],
    take: Take::Eat,
    after: &[Action::Goto(State::ImportColon)],
    call: Some(Call {
        state: State::Name,
        number: 0,
        enters: false,
        is_deep: false,
        newline: None,
    }),
};

/// `| -> import.what.rest2; imports`
const ROW_3: Row = Row {
    condition: Condition::Always,
    before: &[Action::Goto(State::ImportWhatRest2)],
    take: Take::Nothing,
    after: &[],
    call: Some(Call {
        state: State::Imports,
        number: 0,
        enters: false,
        is_deep: false,
        newline: None,
    }),
};

/// `| -> import.what.rest1; import.list`
const ROW_4: Row = Row {
    condition: Condition::Always,
    before: &[Action::Goto(State::ImportWhatRest1)],
    take: Take::Nothing,
    after: &[],
    call: Some(Call {
        state: State::ImportList,
        number: 0,
        enters: false,
        is_deep: true,
        newline: Some(Newline::Go),
    }),
};

/// `| eat; wrap ModuleImport; -> expr.after`
const ROW_5: Row = Row {
    condition: Condition::Always,
    before: &[],
    take: Take::Eat,
    after: &[
        Action::Wrap(SyntaxKind::ModuleImport),
        Action::Goto(State::ExprAfter),
    ],
    call: None,
};

/// `| eat; -> import.close; imports`
const ROW_6: Row = Row {
    condition: Condition::Always,
    before: &[],
    take: Take::Eat,
    after: &[Action::Goto(State::ImportClose)],
    call: Some(Call {
        state: State::Imports,
        number: 0,
        enters: false,
        is_deep: false,
        newline: None,
    }),
};

/// `| unclosed; return`
const ROW_7: Row = Row {
    condition: Condition::Always,
    before: &[Action::Unclosed, Action::Return],
    take: Take::Nothing,
    after: &[],
    call: None,
};

/// `| eat; return`
const ROW_8: Row = Row {
    condition: Condition::Always,
    before: &[],
    take: Take::Eat,
    after: &[Action::Return],
    call: None,
};

/// `| wrap ImportItems; return`
const ROW_9: Row = Row {
    condition: Condition::Always,
    before: &[Action::Wrap(SyntaxKind::ImportItems), Action::Return],
    take: Take::Nothing,
    after: &[],
    call: None,
};

/// `| -> imports.comma; imported`
const ROW_10: Row = Row {
    condition: Condition::Always,
    before: &[Action::Goto(State::ImportsComma)],
    take: Take::Nothing,
    after: &[],
    call: Some(Call {
        state: State::Imported,
        number: 0,
        enters: false,
        is_deep: false,
        newline: None,
    }),
};

/// `| -> imports`
const ROW_11: Row = Row {
    condition: Condition::Always,
    before: &[Action::Goto(State::Imports)],
    take: Take::Nothing,
    after: &[],
    call: None,
};

/// `| expected comma; -> imports`
const ROW_12: Row = Row {
    condition: Condition::Always,
    before: &[
        Action::Expected(Expectation::Comma),
        Action::Goto(State::Imports),
    ],
    take: Take::Nothing,
    after: &[],
    call: None,
};

/// `| eat; -> imports`
const ROW_13: Row = Row {
    condition: Condition::Always,
    before: &[],
    take: Take::Eat,
    after: &[Action::Goto(State::Imports)],
    call: None,
};

/// `| unexpected; -> imported.path`
const ROW_14: Row = Row {
    condition: Condition::Always,
    before: &[],
    take: Take::Unexpected,
    after: &[Action::Goto(State::ImportedPath)],
    call: None,
};

/// `| eat; -> imported.path`
const ROW_15: Row = Row {
    condition: Condition::Always,
    before: &[],
    take: Take::Eat,
    after: &[Action::Goto(State::ImportedPath)],
    call: None,
};

/// `| wrap ImportItemPath; return`
const ROW_16: Row = Row {
    condition: Condition::Always,
    before: &[Action::Wrap(SyntaxKind::ImportItemPath), Action::Return],
    take: Take::Nothing,
    after: &[],
    call: None,
};

/// `| eat; -> imported.path; name`
const ROW_17: Row = Row {
    condition: Condition::Always,
    before: &[],
    take: Take::Eat,
    after: &[Action::Goto(State::ImportedPath)],
    call: Some(Call {
        state: State::Name,
        number: 0,
        enters: false,
        is_deep: false,
        newline: None,
    }),
};

/// `| wrap ImportItemPath; eat; -> imported.path.rest; name`
const ROW_18: Row = Row {
    condition: Condition::Always,
    before: &[Action::Wrap(SyntaxKind::ImportItemPath)],
    take: Take::Eat,
    after: &[Action::Goto(State::ImportedPathRest)],
    call: Some(Call {
        state: State::Name,
        number: 0,
        enters: false,
        is_deep: false,
        newline: None,
    }),
};

/// `| wrap RenamedImportItem; return`
const ROW_19: Row = Row {
    condition: Condition::Always,
    before: &[Action::Wrap(SyntaxKind::RenamedImportItem), Action::Return],
    take: Take::Nothing,
    after: &[],
    call: None,
};

/// What follows the source of an import.
pub(crate) fn import_as(class: Class) -> &'static [Row]
    ensures { rows_of result.now ≡ import_as class }
{
    match class {
        Class::Colon => &[ROW_1],
        Class::As => &[ROW_2],
        _ => &[ROW_0],
    }
}

/// The colon of an import.
pub(crate) fn import_colon(class: Class) -> &'static [Row]
    ensures { rows_of result.now ≡ import_colon class }
{
    match class {
        Class::Colon => &[ROW_1],
        _ => &[ROW_0],
    }
}

/// What is imported.
pub(crate) fn import_what(class: Class) -> &'static [Row]
    ensures { rows_of result.now ≡ import_what class }
{
    match class {
        Class::LeftParen => &[ROW_4],
        Class::Star => &[ROW_5],
        _ => &[ROW_3],
    }
}

/// Items of an import in a parenthesis.
pub(crate) fn import_list(class: Class) -> &'static [Row]
    ensures { rows_of result.now ≡ import_list class }
{
    match class {
        Class::LeftParen => &[ROW_6],
        _ => &[],
    }
}

/// The end of such items.
pub(crate) fn import_close(class: Class) -> &'static [Row]
    ensures { rows_of result.now ≡ import_close class }
{
    match class {
        Class::RightParen => &[ROW_8],
        _ => &[ROW_7],
    }
}

/// The items of an import.
pub(crate) fn imports(class: Class) -> &'static [Row]
    ensures { rows_of result.now ≡ imports class }
{
    match class {
        Class::End
        | Class::RightBrace
        | Class::RightBracket
        | Class::RightParen
        | Class::Semicolon => &[ROW_9],
        _ => &[ROW_10],
    }
}

/// The comma behind an item of an import.
pub(crate) fn imports_comma(class: Class) -> &'static [Row]
    ensures { rows_of result.now ≡ imports_comma class }
{
    match class {
        Class::End
        | Class::RightBrace
        | Class::RightBracket
        | Class::RightParen
        | Class::Semicolon => &[ROW_11],
        Class::Comma => &[ROW_13],
        _ => &[ROW_12],
    }
}

/// An item of an import.
pub(crate) fn imported(class: Class) -> &'static [Row]
    ensures { rows_of result.now ≡ imported class }
{
    match class {
        Class::Ident => &[ROW_15],
        _ => &[ROW_14],
    }
}

/// The path of an item, and the name that it gets.
pub(crate) fn imported_path(class: Class) -> &'static [Row]
    ensures { rows_of result.now ≡ imported_path class }
{
    match class {
        Class::Dot | Class::Field => &[ROW_17],
        Class::As => &[ROW_18],
        _ => &[ROW_16],
    }
}

/// The rest of a row of `import.what`, once the frame that it opened has returned.
pub(crate) fn import_what_rest1(_class: Class) -> &'static [Row]
    ensures { rows_of result.now ≡ import_what_rest1 _class }
{
    &[ROW_0]
}

/// The rest of a row of `import.what`, once the frame that it opened has returned.
pub(crate) fn import_what_rest2(_class: Class) -> &'static [Row]
    ensures { rows_of result.now ≡ import_what_rest2 _class }
{
    &[ROW_0]
}

/// The rest of a row of `imported.path`, once the frame that it opened has returned.
pub(crate) fn imported_path_rest(_class: Class) -> &'static [Row]
    ensures { rows_of result.now ≡ imported_path_rest _class }
{
    &[ROW_19]
}
