//! What a tree reports: errors and warnings, with their places.
ghost use Rattle.std.specs.Prelude.{◌≡◌, ◌≢◌, ◌++◌, ◌∷◌, ◌↔◌, [], map, string_bytes, IfOk, IsTrue, OnOk};
ghost use Rattle.typst_node.specs.Diagnosis.{has_error, has_warning};
ghost use Rattle.typst_node.specs.Diagnostics.{error_report, errors_of, placed, warning_report, warnings_of};
ghost use Rattle.typst_node.specs.Entries.{error_entries, told, warning_entries};
ghost use Rattle.typst_node.specs.Reported.{placed_hint, report};
ghost use Rattle.typst_node.specs.View.{hint_text, shown_warnings, warning_text};

use crate::node::{ErrorNode, Hint, Node, SyntaxNode, Warning};
use std::alloc::{AllocError, Global};
use std::hash::Hash;
use typst_base::{DiagSpan, Span, Spanned};

/// An error or a warning of a node, with the place that it is about.
#[derive(Debug, Hash, Drop)]
pub struct SyntaxDiagnostic {
    /// Whether this is an error. Otherwise it is a warning.
    pub is_error: bool,
    /// The node's span. For a warning it carries the part of the node that the warning is about.
    pub span: DiagSpan,
    /// What is wrong.
    pub message: String,
    /// The suggestions for fixing it. A hint's span is detached, or it is that of the part of the node that the hint is
    /// about.
    pub hints: Vec<Spanned<String, DiagSpan>>,
}

/// Two diagnostics are equal if they report the same about the same place.
impl PartialEq for SyntaxDiagnostic {
    ghost use Rattle.typst_node.specs.EqualReports.{diagnostic_eq, diagnostic_eq_laws};

    ghost eq = { diagnostic_eq };

    ghost laws = { diagnostic_eq_laws };

    fn eq(&self, other: &SyntaxDiagnostic) -> bool
        ensures is { result ≡ diagnostic_eq self.now other.now }
        ensures same { IsTrue result ↔ (report self.now ≡ report other.now) }
    {
        self.is_error == other.is_error
            && self.span == other.span
            && self.message == other.message
            && self.hints == other.hints
    }
}

impl Eq for SyntaxDiagnostic {
    ghost use Rattle.typst_node.specs.EqualReports.{diagnostic_eq_equivalence};

    ghost laws = { diagnostic_eq_equivalence };
}

#[derived]
impl Hash for SyntaxDiagnostic {
    ghost use Rattle.typst_node.specs.HashedReports.{reports_alike};

    ghost respects_eq = { reports_alike };
}

/// # Reports
impl SyntaxNode {
    /// The errors and the warnings of the tree, as two lists in preorder. The warnings of one node run from the
    /// outermost to the innermost. It fails only if memory runs out.
    ///
    /// It takes time in proportion to the nodes that have a report at or below them, to the numbers of their children,
    /// and to what is copied.
    pub fn errors_and_warnings(
        &self,
        alloc: Global,
    ) -> Result<(Vec<SyntaxDiagnostic>, Vec<SyntaxDiagnostic>), AllocError>
        ensures errors { IfOk result (λ lists. map report lists.0.items
            ≡ map (told self.now) (error_entries self.now)) }
        ensures warnings { IfOk result (λ lists. map report lists.1.items
            ≡ map (told self.now) (warning_entries self.now)) }
        ensures error_diagnosed { IfOk result (λ lists. (lists.0.items ≢ []) ↔ IsTrue (has_error self.now)) }
        ensures warning_diagnosed { IfOk result (λ lists. (lists.1.items ≢ []) ↔ IsTrue (has_warning self.now)) }
    {
        let mut errors = Vec::new(alloc);
        let mut warnings = Vec::new(alloc);
        self.push_reports(alloc, &mut errors, &mut warnings)?;
        Ok((errors, warnings))
    }

    /// Adds the errors and the warnings of the tree, if it has any.
    #[cycle(reports)]
    fn push_reports(
        &self,
        alloc: Global,
        errors: &mut Vec<SyntaxDiagnostic>,
        warnings: &mut Vec<SyntaxDiagnostic>,
    ) -> Result<(), AllocError>
        ensures errors { OnOk result
            (map report errors.new.items ≡ map report errors.old.items ++ errors_of self.now) }
        ensures warnings { OnOk result
            (map report warnings.new.items ≡ map report warnings.old.items ++ warnings_of self.now) }
    {
        if !self.diagnosis().either() {
            return Ok(());
        }
        self.push_some_reports(alloc, errors, warnings)
    }

    /// Adds the errors and the warnings of the tree, those of the node first.
    #[inline(never)]
    #[cycle(reports)]
    fn push_some_reports(
        &self,
        alloc: Global,
        errors: &mut Vec<SyntaxDiagnostic>,
        warnings: &mut Vec<SyntaxDiagnostic>,
    ) -> Result<(), AllocError>
        ensures errors { OnOk result
            (map report errors.new.items ≡ map report errors.old.items ++ errors_of self.now) }
        ensures warnings { OnOk result
            (map report warnings.new.items ≡ map report warnings.old.items ++ warnings_of self.now) }
    {
        push_warnings(alloc, self.span, self.node.warnings(), warnings)?;
        match &self.node {
            Node::Short(..) | Node::Long(..) | Node::Leaf(..) => Ok(()),
            Node::Inner(_, _, inner) => {
                for child in &inner.children {
                    child.push_reports(alloc, errors, warnings)?;
                }
                Ok(())
            }
            Node::Error(error) => error.push_report(alloc, self.span, errors),
        }
    }
}

/// Adds the reports of a node's warnings, outermost first.
#[inline(never)]
fn push_warnings(
    alloc: Global,
    span: Span,
    warnings: &[Warning],
    out: &mut Vec<SyntaxDiagnostic>,
) -> Result<(), AllocError>
    ensures { OnOk result (map report out.new.items
        ≡ map report out.old.items ++ map (warning_report span) (shown_warnings warnings.now)) }
{
    let count = warnings.len();
    for done in 0..count {
        let warning = &warnings[count - 1 - done];
        out.push(warning.report(alloc, span)?)?;
    }
    Ok(())
}

impl Warning {
    /// The report of this warning of a node with this span.
    fn report(&self, alloc: Global, span: Span) -> Result<SyntaxDiagnostic, AllocError>
        ensures { IfOk result (λ d. report d ≡ warning_report span (warning_text self.now)) }
    {
        Ok(SyntaxDiagnostic {
            is_error: false,
            span: DiagSpan::from_span(span, self.sub_range),
            message: String::from_str(alloc, self.message.as_str())?,
            hints: place_hints(alloc, span, &self.hints)?,
        })
    }
}

impl ErrorNode {
    /// Adds the report of this error of a node with this span.
    #[inline(never)]
    fn push_report(
        &self,
        alloc: Global,
        span: Span,
        out: &mut Vec<SyntaxDiagnostic>,
    ) -> Result<(), AllocError>
        ensures { OnOk result (map report out.new.items ≡ map report out.old.items
            ++ error_report span (string_bytes self.now.message) (map hint_text self.now.hints.items) ∷ []) }
    {
        out.push(SyntaxDiagnostic {
            is_error: true,
            span: DiagSpan::from_span(span, None),
            message: String::from_str(alloc, self.message.as_str())?,
            hints: place_hints(alloc, span, &self.hints)?,
        })?;
        Ok(())
    }
}

/// The hints of a node with this span, each with the place that it is about.
fn place_hints(
    alloc: Global,
    span: Span,
    hints: &[Hint],
) -> Result<Vec<Spanned<String, DiagSpan>>, AllocError>
    ensures { IfOk result (λ v. map placed_hint v.items ≡ map (placed span) (map hint_text hints.now)) }
{
    let mut placed = Vec::with_capacity(alloc, hints.len())?;
    for hint in hints {
        placed.push(hint.place(alloc, span)?)?;
    }
    Ok(placed)
}

impl Hint {
    /// This hint of a node with this span, with the place that it is about.
    fn place(&self, alloc: Global, span: Span) -> Result<Spanned<String, DiagSpan>, AllocError>
        ensures { IfOk result (λ s. placed_hint s ≡ placed span (hint_text self.now)) }
    {
        let text = String::from_str(alloc, self.text.as_str())?;
        let place = match self.sub_range {
            Some(part) => DiagSpan::from_span(span, Some(part)),
            None => DiagSpan::detached(),
        };
        Ok(Spanned::new(text, place))
    }
}

impl Clone for SyntaxDiagnostic {
    ghost is_clone = { λ d e. report e ≡ report d };

    fn clone(&self) -> Result<SyntaxDiagnostic, AllocError> {
        Ok(SyntaxDiagnostic {
            is_error: self.is_error,
            span: self.span,
            message: self.message.clone()?,
            hints: copy_hints(*self.hints.allocator(), &self.hints)?,
        })
    }
}

/// A copy of the hints.
fn copy_hints(
    alloc: Global,
    hints: &[Spanned<String, DiagSpan>],
) -> Result<Vec<Spanned<String, DiagSpan>>, AllocError>
    ensures { IfOk result (λ v. map placed_hint v.items ≡ map placed_hint hints.now) }
{
    let mut copies = Vec::with_capacity(alloc, hints.len())?;
    for hint in hints {
        copies.push(Spanned::new(hint.v.clone()?, hint.span))?;
    }
    Ok(copies)
}
