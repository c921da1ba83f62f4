//! The equality of nodes apart from spans and bounds.
ghost use Rattle.std.specs.Prelude.{◌≡◌, ◌↔◌, IsTrue, map, string_bytes};
ghost use Rattle.typst_node.specs.Plain.{plain, unbounded};
ghost use Rattle.typst_node.specs.Tree.{AsLeaf};
ghost use Rattle.typst_node.specs.View.{hint_text, warning_text, content, below, IsConsistent};

use crate::node::{Hint, Node, SyntaxNode, Warning};
use crate::short_text::text_in;
use typst_base::SyntaxKind;

pub(super) fn same_kind(kind: SyntaxKind, other: SyntaxKind) -> bool
    ensures { IsTrue result ↔ (kind ≡ other) }
{
    kind == other
}

fn same_hint(hint: &Hint, other: &Hint) -> bool
    ensures { IsTrue result ↔ (hint_text hint.now ≡ hint_text other.now) }
{
    hint.text.as_str() == other.text.as_str() && hint.sub_range == other.sub_range
}

pub(super) fn same_hints(hints: &[Hint], others: &[Hint]) -> bool
    ensures { IsTrue result ↔ (map hint_text hints.now ≡ map hint_text others.now) }
{
    if hints.len() != others.len() {
        return false;
    }
    for i in 0..hints.len() {
        if !same_hint(&hints[i], &others[i]) {
            return false;
        }
    }
    true
}

fn same_warning(warning: &Warning, other: &Warning) -> bool
    ensures { IsTrue result ↔ (warning_text warning.now ≡ warning_text other.now) }
{
    warning.sub_range == other.sub_range
        && warning.message.as_str() == other.message.as_str()
        && same_hints(&warning.hints, &other.hints)
}

pub(super) fn same_warnings(warnings: &[Warning], others: &[Warning]) -> bool
    ensures { IsTrue result ↔ (map warning_text warnings.now ≡ map warning_text others.now) }
{
    if warnings.len() != others.len() {
        return false;
    }
    for i in 0..warnings.len() {
        if !same_warning(&warnings[i], &others[i]) {
            return false;
        }
    }
    true
}

impl Node {
    /// Whether this is a leaf of that kind with that text, however the text is kept.
    pub(super) fn is_leaf_of(&self, kind: SyntaxKind, text: &str) -> bool
        requires { IsConsistent self.now }
        ensures { IsTrue result ↔ (content self.now ≡ AsLeaf kind text.now) }
    {
        match self {
            Node::Short(own, len, bytes) => same_kind(*own, kind) && text_in(*len, bytes) == text,
            Node::Long(own, own_text) => same_kind(*own, kind) && own_text.as_str() == text,
            Node::Leaf(own, leaf) => same_kind(*own, kind) && leaf.text.as_str() == text,
            Node::Inner(..) | Node::Error(_) => false,
        }
    }
}

/// # Comparing trees
impl SyntaxNode {
    /// Whether both trees are the same apart from spans and bounds: they have the same kinds, texts, messages, hints
    /// and warnings, with the same sub-ranges. It takes time at most in proportion to the smaller tree, and no memory.
    #[cycle(alike)]
    pub fn spanless_eq(&self, other: &SyntaxNode) -> bool
        ensures { IsTrue result ↔ (plain self.now ≡ plain other.now) }
    {
        match &self.node {
            Node::Short(kind, len, bytes) => match &other.node {
                // Neither has warnings.
                Node::Short(other_kind, other_len, other_bytes) => {
                    same_kind(*kind, *other_kind)
                        && text_in(*len, bytes) == text_in(*other_len, other_bytes)
                }
                Node::Long(..) | Node::Leaf(..) | Node::Inner(..) | Node::Error(_) => {
                    self.spanless_eq_boxed(other)
                }
            },
            Node::Long(..) | Node::Leaf(..) | Node::Inner(..) | Node::Error(_) => {
                self.spanless_eq_boxed(other)
            }
        }
    }

    /// The same for any nodes. It is out of line, so that two short leaves are compared without a call.
    #[cycle(alike)]
    #[inline(never)]
    fn spanless_eq_boxed(&self, other: &SyntaxNode) -> bool
        ensures { IsTrue result ↔ (plain self.now ≡ plain other.now) }
    {
        same_warnings(self.node.warnings(), other.node.warnings())
            && self.node.spanless_eq(&other.node)
    }
}

impl Node {
    #[cycle(alike)]
    #[tactic(auto, using(crate::proofs::Plain::same_text_of_all, crate::proofs::Plain::same_count_of_all))]
    fn spanless_eq(&self, other: &Node) -> bool
        requires kept { IsConsistent self.now }
        requires other { IsConsistent other.now }
        ensures { IsTrue result ↔ ((unbounded (content self.now) ≡ unbounded (content other.now))
            × (map plain (below self.now) ≡ map plain (below other.now))) }
    {
        match self {
            Node::Short(kind, len, bytes) => other.is_leaf_of(*kind, text_in(*len, bytes)),
            Node::Long(kind, text) => other.is_leaf_of(*kind, text.as_str()),
            Node::Leaf(kind, leaf) => other.is_leaf_of(*kind, leaf.text.as_str()),
            // Where the sums differ, nothing below needs to be read.
            Node::Inner(kind, len, inner) => match other {
                Node::Inner(other_kind, other_len, other_inner) => {
                    same_kind(*kind, *other_kind)
                        && *len == *other_len
                        && inner.descendants == other_inner.descendants
                        && all_alike(&inner.children, &other_inner.children)
                }
                Node::Short(..) | Node::Long(..) | Node::Leaf(..) | Node::Error(_) => false,
            },
            Node::Error(error) => match other {
                Node::Error(other_error) => {
                    error.text.as_str() == other_error.text.as_str()
                        && error.message.as_str() == other_error.message.as_str()
                        && same_hints(&error.hints, &other_error.hints)
                }
                Node::Short(..) | Node::Long(..) | Node::Leaf(..) | Node::Inner(..) => false,
            },
        }
    }
}

/// Whether both lists hold the same trees apart from spans and bounds.
#[cycle(alike)]
pub(super) fn all_alike(nodes: &[SyntaxNode], others: &[SyntaxNode]) -> bool
    ensures { IsTrue result ↔ (map plain nodes.now ≡ map plain others.now) }
{
    if nodes.len() != others.len() {
        return false;
    }
    for i in 0..nodes.len() {
        if !nodes[i].spanless_eq(&others[i]) {
            return false;
        }
    }
    true
}
