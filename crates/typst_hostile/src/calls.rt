//! The calls, by name.
use crate::changing::{self, Change, Replacing};
use crate::end::{End, Stop};
use crate::lines::{self, Following};
use crate::making::{self, Making};
use crate::reading::Reading;
use crate::reconciling::{OfTree, Reconciling};
use crate::requests::Requests;
use crate::runs::Queue;
use crate::scripts;
use crate::sources::{self, Editing, Finding};
use crate::trees::Ground;
use crate::views::Viewing;
use crate::walks::{self, Walk};
use std::alloc::Global;

/// A call, and what it is made on where that differs.
#[derive(Clone, Copy)]
pub enum Call {
    Make(Making),
    MakeMapper,
    Wrap,
    CloneDiagnostic,
    Change(Change),
    HintAll,
    Replace(Replacing),
    Reconcile(Reconciling),
    ReconcileTree(OfTree),
    Read(Reading),
    View(Viewing),
    Walk(Walk, Ground),
    FindAmongThousand,
    Run(Queue),
    RunScript,
    MakeSource,
    Edit(Editing),
    RunEdits,
    FindInSource(Finding),
    MakeLines,
    Follow(Following),
}

/// The walks, whose calls are named `children, nested` and so on.
const WALKS: &[(&str, Walk)] = &[
    ("children", Walk::Children),
    ("children back", Walk::ChildrenBack),
    ("prev_sibling", Walk::PrevSibling),
    ("next_sibling", Walk::NextSibling),
    ("prev_sibling_with_trivia", Walk::PrevSiblingWithTrivia),
    ("next_sibling_with_trivia", Walk::NextSiblingWithTrivia),
    ("leftmost_leaf", Walk::LeftmostLeaf),
    ("rightmost_leaf", Walk::RightmostLeaf),
    ("prev_leaf", Walk::PrevLeaf),
    ("next_leaf", Walk::NextLeaf),
    ("leaf_at", Walk::LeafAt),
    ("leaf_at_counted", Walk::LeafAtCounted),
    ("find", Walk::Find),
    ("find_counted", Walk::FindCounted),
    ("find_range", Walk::FindRange),
    ("preorder", Walk::Preorder),
    ("path", Walk::Path),
];

/// The trees that walks are made on.
const GROUNDS: &[(&str, Ground)] = &[
    ("nested", Ground::Nested),
    ("wide", Ground::Wide),
    ("ab c", Ground::Text),
    ("let", Ground::Let),
];

/// All other calls with their names.
const CALLS: &[(&str, Call)] = &[
    ("RangeMapper::new", Call::MakeMapper),
    ("leaf", Call::Make(Making::Leaf)),
    ("leaf of 22 bytes", Call::Make(Making::LongLeaf)),
    ("error", Call::Make(Making::Error)),
    ("inner", Call::Make(Making::Inner)),
    ("inner of 11 leaves", Call::Make(Making::InnerOfEleven)),
    ("wrap of 11 leaves", Call::Wrap),
    ("clone", Call::Make(Making::Clone)),
    ("clone of 11 leaves", Call::Make(Making::CloneOfEleven)),
    ("clone of a diagnostic", Call::CloneDiagnostic),
    ("warn", Call::Change(Change::Warn)),
    ("warn_at", Call::Change(Change::WarnAt)),
    ("hint", Call::Change(Change::Hint)),
    ("hint of a warned node", Call::Change(Change::HintWarned)),
    ("hint_at", Call::Change(Change::HintAt)),
    ("with_hints", Call::HintAll),
    ("convert_to_error", Call::Change(Change::ConvertToError)),
    ("expected", Call::Change(Change::Expected)),
    ("unexpected", Call::Change(Change::Unexpected)),
    ("replace_children", Call::Replace(Replacing::Children)),
    (
        "replace_children of 10 leaves",
        Call::Replace(Replacing::ChildrenOfTen),
    ),
    (
        "replace_children of 11 leaves",
        Call::Replace(Replacing::ChildrenOfEleven),
    ),
    (
        "replace_children, a text between two",
        Call::Replace(Replacing::Between),
    ),
    ("replace_at", Call::Replace(Replacing::Below)),
    ("replace_at, one by one", Call::Replace(Replacing::OneByOne)),
    ("reconcile_at, a leaf", Call::Reconcile(Reconciling::Leaf)),
    (
        "reconcile_at, an insertion",
        Call::Reconcile(Reconciling::Insertion),
    ),
    (
        "reconcile_at, a text between two",
        Call::Reconcile(Reconciling::Moving),
    ),
    ("update, a leaf", Call::Reconcile(Reconciling::Update)),
    ("update, anew", Call::Reconcile(Reconciling::Anew)),
    (
        "NumberedTree::reconcile",
        Call::ReconcileTree(OfTree::Reconcile),
    ),
    ("NumberedTree::update", Call::ReconcileTree(OfTree::Update)),
    ("full_text", Call::Read(Reading::FullText)),
    (
        "errors_and_warnings",
        Call::Read(Reading::ErrorsAndWarnings),
    ),
    ("Str::get", Call::View(Viewing::StrGet)),
    ("bare_name", Call::View(Viewing::BareName)),
    (
        "LetBindingKind::bindings",
        Call::View(Viewing::KindBindings),
    ),
    ("Pattern::bindings", Call::View(Viewing::PatternBindings)),
    (
        "Destructuring::bindings",
        Call::View(Viewing::DestructuringBindings),
    ),
    ("leaf_at_counted, of 1000 leaves", Call::FindAmongThousand),
    ("session::run, each reply", Call::Run(Queue::Replies)),
    ("session::run, insertions", Call::Run(Queue::Insertions)),
    (
        "session::run, a text between two",
        Call::Run(Queue::Between),
    ),
    ("session::run, another name", Call::Run(Queue::Renamed)),
    ("script::run", Call::RunScript),
    ("Source::new", Call::MakeSource),
    ("Source::edit, a letter", Call::Edit(Editing::Letter)),
    ("Source::edit, a paragraph", Call::Edit(Editing::Paragraph)),
    ("Source::edit, a delimiter", Call::Edit(Editing::Delimiter)),
    ("Source::run", Call::RunEdits),
    ("Source::find", Call::FindInSource(Finding::Find)),
    ("Source::range", Call::FindInSource(Finding::Range)),
    ("Lines::new", Call::MakeLines),
    ("Lines::edit, a letter", Call::Follow(Following::Letter)),
    ("Lines::edit, two lines", Call::Follow(Following::Lines)),
];

impl Call {
    /// The call with this name.
    pub fn named(name: &str) -> Option<Call> {
        for (named, call) in CALLS {
            if *named == name {
                return Some(*call);
            }
        }
        let (walk, ground) = name.split_once(", ")?;
        Some(Call::Walk(walk_named(walk)?, ground_named(ground)?))
    }

    /// Builds what the call needs, makes these requests, and then makes the call.
    pub fn run(self, alloc: Global, requests: Requests) -> Result<End, Stop> {
        match self {
            Call::Make(making) => making.run(alloc, requests),
            Call::MakeMapper => making::make_mapper(alloc, requests),
            Call::Wrap => making::wrap(alloc, requests),
            Call::CloneDiagnostic => making::clone_diagnostic(alloc, requests),
            Call::Change(change) => change.run(alloc, requests),
            Call::HintAll => changing::hint_all(alloc, requests),
            Call::Replace(replacing) => replacing.run(alloc, requests),
            Call::Reconcile(reconciling) => reconciling.run(alloc, requests),
            Call::ReconcileTree(of_tree) => of_tree.run(alloc, requests),
            Call::Read(reading) => reading.run(alloc, requests),
            Call::View(viewing) => viewing.run(alloc, requests),
            Call::Walk(walk, ground) => walk.run(ground.drawing(), alloc, requests),
            Call::FindAmongThousand => walks::find_among_thousand(alloc, requests),
            Call::Run(queue) => queue.requests().run(alloc, requests),
            Call::RunScript => scripts::run_script(alloc, requests),
            Call::MakeSource => sources::make_source(alloc, requests),
            Call::Edit(editing) => editing.run(alloc, requests),
            Call::RunEdits => sources::run_edits(alloc, requests),
            Call::FindInSource(finding) => finding.run(alloc, requests),
            Call::MakeLines => lines::make_lines(alloc, requests),
            Call::Follow(following) => following.run(alloc, requests),
        }
    }
}

/// The walk of this name.
fn walk_named(name: &str) -> Option<Walk> {
    for (named, walk) in WALKS {
        if *named == name {
            return Some(*walk);
        }
    }
    None
}

/// The tree of this name.
fn ground_named(name: &str) -> Option<Ground> {
    for (named, ground) in GROUNDS {
        if *named == name {
            return Some(*ground);
        }
    }
    None
}
