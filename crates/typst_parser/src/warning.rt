//! Warnings of nodes.
ghost use Rattle.std.specs.Prelude.{◌≡◌, IfOk};
ghost use Rattle.std.specs.List.{list_any};
ghost use Rattle.typst_parser.specs.Warnings.{empty_warning, holds_text, is_visible, warned_by, warning_for, warning_hint, warning_message};

use std::alloc::{AllocError, Global};
use typst_atoms::expr_kinds::is_expr;
use typst_base::SyntaxKind;
use typst_node::SyntaxNode;

/// Why a node gets a warning.
#[derive(Clone, Copy, Debug, PartialEq, Eq)]
pub enum Warning {
    /// Strong content has no text.
    EmptyStrong,
    /// Emphasized content has no text.
    EmptyEmph,
}

impl Warning {
    /// What the warning says.
    fn message(self) -> &'static str
        ensures { result.now ≡ warning_message self }
    {
        match self {
            Warning::EmptyStrong => "no text within stars",
            Warning::EmptyEmph => "no text within underscores",
        }
    }

    /// The hint of the warning.
    fn hint(self) -> &'static str
        ensures { result.now ≡ warning_hint self }
    {
        match self {
            Warning::EmptyStrong => {
                "using multiple consecutive stars (e.g. **) has no additional effect"
            }
            Warning::EmptyEmph => {
                "using multiple consecutive underscores (e.g. __) has no additional effect"
            }
        }
    }
}

/// Whether a node is an expression or white space.
fn is_visible(node: &SyntaxNode) -> bool
    ensures { result ≡ is_visible node.now }
{
    let kind = node.kind();
    is_expr(kind) || kind == SyntaxKind::Space
}

/// Whether one of some nodes is an expression or white space.
fn has_visible(nodes: &[SyntaxNode]) -> bool
    ensures { result ≡ list_any is_visible nodes.now }
{
    for node in nodes {
        if is_visible(node) {
            return true;
        }
    }
    false
}

/// Whether a child of strong or emphasized content holds text, or is an error.
fn holds_text(child: &SyntaxNode) -> bool
    ensures { result ≡ holds_text child.now }
{
    match child.kind() {
        SyntaxKind::Error => true,
        SyntaxKind::Markup => has_visible(child.child_slice()),
        _ => false,
    }
}

/// Whether one of the children of strong or emphasized content holds text, or is an error.
fn have_text(children: &[SyntaxNode]) -> bool
    ensures { result ≡ list_any holds_text children.now }
{
    for child in children {
        if holds_text(child) {
            return true;
        }
    }
    false
}

/// The warning of strong or emphasized content over these children.
fn empty_warning(warning: Warning, children: &[SyntaxNode]) -> Option<Warning>
    ensures { result ≡ empty_warning warning children.now }
{
    if have_text(children) {
        None
    } else {
        Some(warning)
    }
}

/// Why a node of a kind over these children gets a warning, if it gets one.
pub(crate) fn warning_for(kind: SyntaxKind, children: &[SyntaxNode]) -> Option<Warning>
    ensures { result ≡ warning_for kind children.now }
{
    match kind {
        SyntaxKind::Strong => empty_warning(Warning::EmptyStrong, children),
        SyntaxKind::Emph => empty_warning(Warning::EmptyEmph, children),
        _ => None,
    }
}

/// The node with a warning and its hint, if there is one.
pub(crate) fn warned_by(
    alloc: Global,
    warning: Option<Warning>,
    mut node: SyntaxNode,
) -> Result<SyntaxNode, AllocError>
    ensures { IfOk result (λ t. t ≡ warned_by warning node) }
{
    if let Some(warning) = warning {
        node.warn(alloc, warning.message())?;
        node.hint(alloc, warning.hint())?;
    }
    Ok(node)
}
