//! Calls that read from a view into a new value.
use crate::end::{End, Fault, Stop};
use crate::requests::Requests;
use crate::trees::{LET_PARTS, PARTS};
use std::alloc::{AllocError, Global};
use typst_drawn::drawn;
use typst_node::SyntaxNode;
use typst_tree::ast::{Destructuring, Ident, LetBinding, ModuleImport, Pattern, Str};

/// A call of a view.
#[derive(Clone, Copy)]
pub enum Viewing {
    /// `Str::get`, of a text with escapes.
    StrGet,
    /// `ModuleImport::bare_name`, of a path.
    BareName,
    /// `bindings` of the kind of a let.
    KindBindings,
    /// `bindings` of the pattern of a let.
    PatternBindings,
    /// `bindings` of the destructuring itself.
    DestructuringBindings,
}

/// The string `"a\u{41}\x"`.
const ESCAPED: &str = r#"Str:"a\u{41}\x""#;

/// `import "a/b.typ"`
const IMPORT: &str = r#"ModuleImport[ Import:import Space:~ Str:"a/b.typ" ]"#;

impl Viewing {
    /// Makes the call.
    pub fn run(self, alloc: Global, requests: Requests) -> Result<End, Stop> {
        let tree = drawn(alloc, self.lent())?;
        let kept = tree.clone()?;
        requests.make(alloc)?;
        Ok(match self.reads(alloc, &tree) {
            Ok(right) => End::answered(right),
            Err(error) => End::failed(Fault::from(error), tree == kept),
        })
    }

    /// The drawing of the tree that the call reads.
    fn lent(self) -> &'static str {
        match self {
            Viewing::StrGet => ESCAPED,
            Viewing::BareName => IMPORT,
            Viewing::PatternBindings | Viewing::DestructuringBindings => PARTS,
            Viewing::KindBindings => LET_PARTS,
        }
    }

    /// Whether the answer is what the tree says.
    fn reads(self, alloc: Global, tree: &SyntaxNode) -> Result<bool, AllocError> {
        match self {
            Viewing::StrGet => reads_escapes(alloc, tree),
            Viewing::BareName => names_file(alloc, tree),
            Viewing::KindBindings => binds_by_kind(alloc, tree),
            Viewing::PatternBindings => binds_by_pattern(alloc, tree),
            Viewing::DestructuringBindings => binds_by_parts(alloc, tree),
        }
    }
}

/// Whether the string is read with its escapes.
fn reads_escapes(alloc: Global, tree: &SyntaxNode) -> Result<bool, AllocError> {
    match tree.cast::<Str>() {
        Some(view) => Ok(view.get(alloc)?.as_str() == "aA\\x"),
        None => Ok(false),
    }
}

/// Whether the kind of the let binds the names.
fn binds_by_kind(alloc: Global, tree: &SyntaxNode) -> Result<bool, AllocError> {
    match tree.cast::<LetBinding>() {
        Some(view) => Ok(are_three(view.kind().bindings(alloc)?.as_slice())),
        None => Ok(false),
    }
}

/// Whether the pattern binds the names.
fn binds_by_pattern(alloc: Global, tree: &SyntaxNode) -> Result<bool, AllocError> {
    match tree.cast::<Pattern>() {
        Some(view) => Ok(are_three(view.bindings(alloc)?.as_slice())),
        None => Ok(false),
    }
}

/// Whether the destructuring itself binds the names.
fn binds_by_parts(alloc: Global, tree: &SyntaxNode) -> Result<bool, AllocError> {
    match tree.cast::<Destructuring>() {
        Some(view) => Ok(are_three(view.bindings(alloc)?.as_slice())),
        None => Ok(false),
    }
}

/// Whether the import's name is that of its file.
fn names_file(alloc: Global, tree: &SyntaxNode) -> Result<bool, AllocError> {
    let Some(view) = tree.cast::<ModuleImport>() else {
        return Ok(false);
    };
    let name = view.bare_name(alloc, |_: &str| true, |_: &str| Ok(None))?;
    Ok(name.is_ok_and(|name| name.as_str() == "b"))
}

/// Whether these are the names `a`, `c` and `d`.
fn are_three(names: &[Ident]) -> bool {
    match names {
        [first, second, third] => first.get() == "a" && second.get() == "c" && third.get() == "d",
        _ => false,
    }
}
