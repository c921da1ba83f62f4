//! The diagnostics and the views of the tree that a session holds.
use crate::answers::{Answer, ended, written};
use crate::calls::Call::{Held, Remark, Stack};
use crate::calls::{Call, follow};
use crate::held::HeldCall::Number;
use crate::stack::StackCall::{Hint, PushError, PushLeaf, Warn, Wrap};
use RemarkCall::{Diagnostics, View};
use std::alloc::{AllocError, Global};
use std::test::Fail;
use typst_session::{Asked, Diagnostic, DiagnosticSizes, Session, ViewAnswer};

/// A call that reads what is remarked of a tree, or what a view answers.
#[derive(Clone, Copy)]
pub(crate) enum RemarkCall {
    /// Into buffers of these lengths, of diagnostics and of texts.
    Diagnostics(usize, usize),
    /// By a path, the number of an accessor and an index, into a buffer of this length.
    View(&'static [usize], u32, usize, usize),
}

/// A diagnostic before a call.
const NOTHING: Diagnostic = Diagnostic {
    number: 0,
    start: 0,
    end: 0,
    len: 77,
    severity: 9,
    placed: 0,
};

/// An answer before a call.
const BEFORE: ViewAnswer = ViewAnswer {
    number: 77,
    integer: 77,
    len: 77,
    form: 77,
};

/// What the call answers.
pub(crate) fn answer(alloc: Global, session: &Session, call: RemarkCall) -> Answer {
    match call {
        RemarkCall::Diagnostics(room, bytes) => diagnostics(alloc, session, room, bytes),
        RemarkCall::View(path, accessor, index, room) => {
            view(alloc, session, path, Asked { accessor, index }, room)
        }
    }
}

/// How the call ended, the sizes, each diagnostic, and the bytes of the texts.
fn diagnostics(alloc: Global, session: &Session, room: usize, bytes: usize) -> Answer {
    let mut list = vec![in alloc; NOTHING; room]?;
    let mut texts = vec![in alloc; b'#'; bytes]?;
    let mut sizes = DiagnosticSizes { count: 77, len: 77 };
    let outcome = session.diagnostics(alloc, &mut list, &mut texts, &mut sizes);
    let all = all_of(alloc, &list)?;
    let said = written(alloc, outcome, sizes.len, &texts)?;
    Ok(format!(in alloc; "{said} {}{all}", sizes.count)?)
}

/// The severity, the number, the bytes if there are some, and the length of each diagnostic.
fn all_of(alloc: Global, list: &[Diagnostic]) -> Result<String, AllocError> {
    let mut said = String::new(alloc);
    for one in list {
        let about = format!(in alloc; "; {} {} ", one.severity, one.number)?;
        said.push_str(about.as_str())?;
        let place = format!(in alloc; "{}..{} {} {}", one.start, one.end, one.placed, one.len)?;
        said.push_str(place.as_str())?;
    }
    Ok(said)
}

/// How the call ended, the form, the number and the integer, and the text with its length.
fn view(alloc: Global, session: &Session, path: &[usize], asked: Asked, room: usize) -> Answer {
    let mut out = vec![in alloc; b'#'; room]?;
    let mut told = BEFORE;
    let outcome = session.view(alloc, path, asked, &mut out, &mut told);
    let said = written(alloc, outcome, told.len, &out)?;
    Ok(format!(in alloc; "{} {} {}, {said}", told.form, told.number, told.integer)?)
}

/// Calls on a text with two warnings and an error, with hints of the outer warning and of the error.
const REMARKED: &[(Call, &str)] = &[
    (Remark(Diagnostics(0, 2)), "there is no tree: 77 ## 77"),
    (Stack(PushLeaf(6, b"fine")), "done"),
    (Stack(Warn(b"inner")), "done"),
    (Stack(Warn(b"outer")), "done"),
    (Stack(Hint(b"so")), "done"),
    (Stack(PushError(b"wrong", b"x")), "done"),
    (Stack(Hint(b"this")), "done"),
    (Stack(Wrap(5, 2)), "done"),
    (Held(Number(1, 10, 13)), "done"),
    (
        Remark(Diagnostics(6, 22)),
        "done: 21 wrongthisoutersoinner# 5; 301 12 4..5 1 5; 303 1 0..0 0 4; 302 11 0..4 1 5; \
        303 1 0..0 0 2; 302 11 0..4 1 5; 9 0 0..0 0 77",
    ),
    (
        Remark(Diagnostics(1, 22)),
        "the buffer is too short: 21 ###################### 5; 9 0 0..0 0 77",
    ),
    (
        Remark(Diagnostics(5, 2)),
        "the buffer is too short: 21 ## 5; 9 0 0..0 0 77; 9 0 0..0 0 77; 9 0 0..0 0 77; 9 0 0..0 0 77; 9 0 0..0 0 77",
    ),
];

#[test]
fn each_error_and_warning_is_told_with_its_hints(rt: HostRuntime) -> Result<(), Fail> {
    follow(&rt, rt.alloc(), "", REMARKED)
}

/// Calls on children that answer in all forms.
const VIEWS: &[(Call, &str)] = &[
    (
        Remark(View(&[], 10, 0, 1)),
        "77 77 77, there is no tree: 77 #",
    ),
    (Held(Number(1, 10, 27)), "done"),
    (Remark(View(&[0], 22, 0, 1)), "0 0 0, done: 0 #"),
    (Remark(View(&[1], 10, 0, 1)), "1 1 0, done: 0 #"),
    (Remark(View(&[2], 10, 0, 1)), "1 0 0, done: 0 #"),
    (Remark(View(&[3], 22, 0, 1)), "2 3 0, done: 0 #"),
    (Remark(View(&[4], 16, 0, 1)), "3 0 -5, done: 0 #"),
    (Remark(View(&[5], 7, 0, 1)), "4 9731 0, done: 0 #"),
    (Remark(View(&[6], 24, 0, 6)), "5 0 0, done: 5 fig:a#"),
    (
        Remark(View(&[6], 24, 0, 4)),
        "5 0 0, the buffer is too short: 5 ####",
    ),
    (Remark(View(&[6], 24, 1, 1)), "0 0 0, done: 0 #"),
    (Remark(View(&[7], 20, 0, 3)), "5 0 0, done: 2 a\n#"),
    (Remark(View(&[8], 33, 0, 1)), "6 24 0, done: 0 #"),
    (
        Remark(View(&[9], 10, 0, 1)),
        "77 77 77, the path leads to no node: 77 #",
    ),
    (
        Remark(View(&[1], 119, 0, 1)),
        "77 77 77, the number is no accessor: 77 #",
    ),
];

#[test]
fn each_accessor_answers_by_its_number(rt: HostRuntime) -> Result<(), Fail> {
    let drawing = "Markup[ EnumItem[ HeadingMarker:=== ] SmartQuote:\" SmartQuote:' \
        Heading[ HeadingMarker:=== ] Int:-5 Escape:\\u{2603} Ref[ RefMarker:@@fig:a ] Str:\"a\\n\" \
        Strong[ Star:* Markup[ Text:bold ] Star:* ] ]";
    follow(&rt, rt.alloc(), drawing, VIEWS)
}
