//! The errors, warnings and hints of the tree that a session holds.
ghost use Rattle.std.specs.Prelude.{◌≡◌, ◌++◌, ◌∷◌, [], map, string_bytes, IfOk, OnOk};
ghost use Rattle.typst_base.specs.DiagSpanKind.{diag_kind_of};
ghost use Rattle.typst_node.specs.Numbered.{IsNumbered};
ghost use Rattle.typst_node.specs.Reported.{report};
ghost use Rattle.typst_session.specs.Diagnostics.{diagnostic_of, diagnostics_of, node_number, severity_number, ReadsDiagnostics};
ghost use Rattle.typst_session.specs.Remarks.{all_remarks, remarks, remarks_of, texts_of};

use crate::refusal::Refusal;
use crate::session::Session;
use std::alloc::{AllocError, Global};
use typst_linked::place_of;
use typst_node::SyntaxDiagnostic;
use typst_tree::{DiagSpan, DiagSpanKind, SyntaxNode};

/// How severe a remark is.
#[derive(Clone, Copy, PartialEq, Eq, Debug, Drop)]
pub enum Severity {
    /// Something that isn't valid syntax.
    Error,
    /// Something that is valid, but may not be what was meant.
    Warning,
    /// How to mend the error or the warning before it.
    Hint,
}

impl Severity {
    /// The number of the severity. No status has it, so that one can't be taken for the other.
    fn number(self) -> u32
        ensures { result ≡ severity_number self }
    {
        match self {
            Severity::Error => 301,
            Severity::Warning => 302,
            Severity::Hint => 303,
        }
    }
}

/// An error, a warning or a hint, as a caller gets it.
#[repr(C)]
#[derive(Clone, Copy, Drop)]
pub struct Diagnostic {
    /// The number of the node that it is about, or 1 if it is about none.
    pub number: u64,
    /// Where the bytes that it is about begin, or 0 if there are none.
    pub start: usize,
    /// Where they end, or 0 if there are none.
    pub end: usize,
    /// The length of its text in bytes.
    pub len: usize,
    /// The number of its severity: 301 for an error, 302 for a warning and 303 for a hint.
    pub severity: u32,
    /// 1 if it is about bytes of the tree's text, else 0.
    pub placed: u32,
}

/// How many diagnostics there are, and how long all their texts are.
#[repr(C)]
#[derive(Clone, Copy, Drop)]
pub struct DiagnosticSizes {
    /// How many errors, warnings and hints.
    pub count: usize,
    /// The length of their texts in bytes.
    pub len: usize,
}

/// The number of the node that something is about, or 1 if there is none.
fn number_of(span: &DiagSpan) -> u64
    ensures { result ≡ node_number (diag_kind_of span.now) }
{
    match span.get() {
        DiagSpanKind::Number { num, .. } => num.0,
        _ => 1,
    }
}

/// A remark, as a caller gets it.
fn told(root: &SyntaxNode, severity: Severity, span: &DiagSpan, text: &str) -> Diagnostic
    requires { IsNumbered root.now }
    ensures { result ≡ diagnostic_of root.now (record { severity = severity; place = span.now; text = text.now }) }
{
    let (start, end, placed) = match place_of(root, span) {
        Some(range) => (range.start, range.end, 1),
        None => (0, 0, 0),
    };
    Diagnostic {
        number: number_of(span),
        start,
        end,
        len: text.len(),
        severity: severity.number(),
        placed,
    }
}

/// The diagnostics of a tree, and their texts one after the other.
#[derive(Drop)]
struct Diagnostics {
    list: Vec<Diagnostic>,
    texts: String,
}

impl Diagnostics {
    /// Adds a remark.
    fn push(
        &mut self,
        root: &SyntaxNode,
        severity: Severity,
        span: &DiagSpan,
        text: &str,
    ) -> Result<(), AllocError>
        requires { IsNumbered root.now }
        ensures list { OnOk result (self.new.list.items ≡ self.old.list.items
            ++ diagnostic_of root.now (record { severity = severity; place = span.now; text = text.now }) ∷ []) }
        ensures texts { OnOk result (string_bytes self.new.texts ≡ string_bytes self.old.texts ++ text.now) }
    {
        self.list.push(told(root, severity, span, text))?;
        self.texts.push_str(text)
    }

    /// Adds an error or a warning, and its hints after it.
    fn push_report(&mut self, root: &SyntaxNode, found: &SyntaxDiagnostic) -> Result<(), AllocError>
        requires { IsNumbered root.now }
        ensures list { OnOk result (self.new.list.items
            ≡ self.old.list.items ++ map (diagnostic_of root.now) (remarks_of (report found.now))) }
        ensures texts { OnOk result
            (string_bytes self.new.texts ≡ string_bytes self.old.texts ++ texts_of (remarks_of (report found.now))) }
    {
        let severity = if found.is_error {
            Severity::Error
        } else {
            Severity::Warning
        };
        self.push(root, severity, &found.span, found.message.as_str())?;
        for hint in &found.hints {
            self.push(root, Severity::Hint, &hint.span, hint.v.as_str())?;
        }
        Ok(())
    }

    /// Adds errors or warnings, each with its hints.
    fn push_reports(
        &mut self,
        root: &SyntaxNode,
        reports: &[SyntaxDiagnostic],
    ) -> Result<(), AllocError>
        requires { IsNumbered root.now }
        ensures list { OnOk result (self.new.list.items
            ≡ self.old.list.items ++ map (diagnostic_of root.now) (all_remarks (map report reports.now))) }
        ensures texts { OnOk result (string_bytes self.new.texts
            ≡ string_bytes self.old.texts ++ texts_of (all_remarks (map report reports.now))) }
    {
        for found in reports {
            self.push_report(root, found)?;
        }
        Ok(())
    }

    /// The diagnostics of a tree.
    fn of(alloc: Global, root: &SyntaxNode) -> Result<Diagnostics, AllocError>
        requires { IsNumbered root.now }
        ensures list { IfOk result (λ all. all.list.items ≡ diagnostics_of root.now) }
        ensures texts { IfOk result (λ all. string_bytes all.texts ≡ texts_of (remarks root.now)) }
    {
        let (errors, warnings) = root.errors_and_warnings(alloc)?;
        let mut all = Diagnostics {
            list: Vec::new(alloc),
            texts: String::new(alloc),
        };
        all.push_reports(root, &errors)?;
        all.push_reports(root, &warnings)?;
        Ok(all)
    }
}

/// # Diagnostics
impl Session {
    /// Writes the errors of the tree in preorder, and then the warnings in preorder, each followed by its hints. Writes
    /// their texts, one after the other in the same order, into another buffer. Tells how many there are and how long
    /// their texts are, even if a buffer is too short.
    ///
    /// It takes time and memory in proportion to what is written, and to the nodes at or below which something is
    /// reported.
    pub fn diagnostics(
        &self,
        alloc: Global,
        out: &mut [Diagnostic],
        texts: &mut [u8],
        sizes: &mut DiagnosticSizes,
    ) -> Result<(), Refusal>
        ensures { ReadsDiagnostics self.now (record { list = out.old; texts = texts.old; sizes = sizes.old })
            (record { list = out.new; texts = texts.new; sizes = sizes.new }) result }
    {
        let Some(root) = self.root() else {
            return Err(Refusal::NoTree);
        };
        let all = Diagnostics::of(alloc, root)?;
        let bytes = all.texts.as_str().as_bytes();
        *sizes = DiagnosticSizes {
            count: all.list.len(),
            len: bytes.len(),
        };
        if out.len() < all.list.len() || texts.len() < bytes.len() {
            return Err(Refusal::Buffer);
        }
        out[..all.list.len()].copy_from_slice(&all.list);
        texts[..bytes.len()].copy_from_slice(bytes);
        Ok(())
    }
}
