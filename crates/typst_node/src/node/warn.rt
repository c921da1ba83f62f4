//! Errors, warnings and hints.
ghost use Rattle.std.specs.Prelude.{◌≡◌, ◌<◌, ◌∷◌, ◌++◌, ◌↔◌, [], length, map, None, string_bytes, vec_len, IfOk, IsTrue, OnErr, OnOk};
ghost use Rattle.typst_node.specs.Hints.{error_tree, hint_for, hint_outermost, hinted, plain_hints, CanHint};
ghost use Rattle.typst_node.specs.Warnings.{part_for, warned, warning, FitsRange};
ghost use Rattle.typst_node.specs.View.{below, content, hint_text, shown_warnings, warning_text, warnings_in, IsConsistent};

use crate::node::{ErrorNode, Hint, LeafNode, Node, SyntaxNode, Warning};
use crate::short_text::text_in;
use std::alloc::{AllocError, Global};
use std::mem;
use std::ops::Range;
use typst_base::{Span, SubRange, SyntaxKind};

/// # Making errors
impl SyntaxNode {
    /// A detached error with a copy of the message, and a copy of the text that is not syntax. Both may be empty. It
    /// fails only if memory runs out.
    pub fn error(alloc: Global, message: &str, text: &str) -> Result<SyntaxNode, AllocError>
        ensures { IfOk result (λ t. t ≡ error_tree message.now text.now) }
    {
        let message = String::from_str(alloc, message)?;
        let text = String::from_str(alloc, text)?;
        SyntaxNode::error_of(alloc, message, text)
    }

    /// A detached error with this message and text. If memory is refused, both are dropped.
    pub(crate) fn error_of(
        alloc: Global,
        message: String,
        text: String,
    ) -> Result<SyntaxNode, AllocError>
        ensures { IfOk result (λ t. t ≡ error_tree (string_bytes message) (string_bytes text)) }
    {
        let error = ErrorNode {
            text,
            message,
            hints: Vec::new(alloc),
            warnings: Vec::new(alloc),
        };
        Ok(SyntaxNode {
            node: Node::Error(Box::new(alloc, error)?),
            span: Span::detached(),
        })
    }
}

/// # Warning
///
/// These calls change the node in place. If memory is refused, nothing has changed.
impl SyntaxNode {
    /// Adds a warning with a copy of the message to the node. It is outside the node's other warnings.
    pub fn warn(&mut self, alloc: Global, message: &str) -> Result<(), AllocError>
        ensures ok { OnOk result (self.new ≡ warned (warning None message.now) self.old) }
        ensures err { OnErr result (self.new ≡ self.old) }
    {
        self.add_warning(alloc, None, message)
    }

    /// Adds a warning about a part of the node's bytes. The part is counted from the node's first byte.
    ///
    /// An end above 2^32 - 1 is cut to that. The test of the condition is `range_fits`.
    pub fn warn_at(
        &mut self,
        alloc: Global,
        range: Range<usize>,
        message: &str,
    ) -> Result<(), AllocError>
        requires fits_ask_range_fits { FitsRange range self.old }
        ensures ok { OnOk result (self.new ≡ warned (warning (part_for range) message.now) self.old) }
        ensures err { OnErr result (self.new ≡ self.old) }
    {
        let part = SubRange::new(range.start, range.end);
        self.add_warning(alloc, part, message)
    }

    /// Adds a warning to the node.
    fn add_warning(
        &mut self,
        alloc: Global,
        sub_range: Option<SubRange>,
        message: &str,
    ) -> Result<(), AllocError>
        ensures ok { OnOk result (self.new ≡ warned (warning sub_range message.now) self.old) }
        ensures err { OnErr result (self.new ≡ self.old) }
    {
        let message = String::from_str(alloc, message)?;
        let warning = Warning {
            sub_range,
            message,
            hints: Vec::new(alloc),
        };
        self.node.push_warning(alloc, warning)
    }

    /// Whether a warning or a hint can be about a range of the node's bytes: it isn't empty, it ends within the node's
    /// text, and it starts below 2^32 - 1.
    pub fn range_fits(&self, range: Range<usize>) -> bool
        ensures { IsTrue result ↔ FitsRange range self.now }
    {
        range.end <= self.len() && SubRange::new(range.start, range.end).is_some()
    }
}

/// # Giving hints
///
/// A hint goes to the outermost warning. If the node has no warning, the hint goes to the error. These calls change the
/// node in place. If memory is refused, nothing has changed.
impl SyntaxNode {
    /// Whether the node takes hints: it is an error, or it has a warning.
    pub fn can_hint(&self) -> bool
        ensures { IsTrue result ↔ CanHint self.now.label }
    {
        !self.node.warnings().is_empty() || matches!(&self.node, Node::Error(_))
    }

    /// Adds a hint with a copy of the text. The test of the condition is `can_hint`.
    pub fn hint(&mut self, alloc: Global, text: &str) -> Result<(), AllocError>
        requires takes_hints_ask_can_hint { CanHint self.old.label }
        ensures ok { OnOk result (self.new ≡ hinted (hint_for None text.now ∷ []) self.old) }
        ensures err { OnErr result (self.new ≡ self.old) }
    {
        self.add_hint(alloc, None, text)
    }

    /// Adds a hint about a part of the node's bytes. The part is counted from the node's first byte.
    ///
    /// An end above 2^32 - 1 is cut to that. The tests of the conditions are `can_hint` and `range_fits`.
    pub fn hint_at(
        &mut self,
        alloc: Global,
        range: Range<usize>,
        text: &str,
    ) -> Result<(), AllocError>
        requires takes_hints_ask_can_hint { CanHint self.old.label }
        requires fits_ask_range_fits { FitsRange range self.old }
        ensures ok { OnOk result (self.new ≡ hinted (hint_for (part_for range) text.now ∷ []) self.old) }
        ensures err { OnErr result (self.new ≡ self.old) }
    {
        let part = SubRange::new(range.start, range.end);
        self.add_hint(alloc, part, text)
    }

    /// Adds a hint.
    fn add_hint(
        &mut self,
        alloc: Global,
        sub_range: Option<SubRange>,
        text: &str,
    ) -> Result<(), AllocError>
        requires { CanHint self.old.label }
        ensures ok { OnOk result (self.new ≡ hinted (hint_for sub_range text.now ∷ []) self.old) }
        ensures err { OnErr result (self.new ≡ self.old) }
    {
        let text = String::from_str(alloc, text)?;
        self.push_hint(Hint { text, sub_range })
    }

    /// The node with one more hint for each text, in the order of the texts. The test of the condition is `can_hint`.
    ///
    /// If memory is refused, the node and the texts are dropped.
    pub fn with_hints(
        mut self,
        _alloc: Global,
        texts: Vec<String>,
    ) -> Result<SyntaxNode, AllocError>
        requires takes_hints_ask_can_hint { CanHint self.label }
        ensures { IfOk result (λ t. t ≡ hinted (plain_hints (map string_bytes texts.items)) self) }
    {
        for text in texts {
            self.push_hint(Hint {
                text,
                sub_range: None,
            })?;
        }
        Ok(self)
    }

    /// Adds a hint.
    pub(super) fn push_hint(&mut self, hint: Hint) -> Result<(), AllocError>
        requires { CanHint self.old.label }
        ensures ok { OnOk result (self.new ≡ hinted (hint_text hint ∷ []) self.old) }
        ensures err { OnErr result (self.new ≡ self.old) }
    {
        if !self.node.warnings().is_empty() {
            return self.node.hint_outermost(hint);
        }
        match &mut self.node {
            Node::Error(error) => error.push_hint(hint),
            Node::Short(..) | Node::Long(..) | Node::Leaf(..) | Node::Inner(..) => unreachable!(),
        }
    }
}

impl Node {
    /// Adds a warning to the node, outside its other warnings. A short leaf gets a list for it.
    #[tactic(auto, using(crate::proofs::Measured::measured_under))]
    fn push_warning(&mut self, alloc: Global, warning: Warning) -> Result<(), AllocError>
        requires { IsConsistent self.old }
        ensures kept { IsConsistent self.new }
        ensures content { content self.new ≡ content self.old }
        ensures below { below self.new ≡ below self.old }
        ensures ok { OnOk result (shown_warnings (warnings_in self.new)
            ≡ warning_text warning ∷ shown_warnings (warnings_in self.old)) }
        ensures err { OnErr result (shown_warnings (warnings_in self.new) ≡ shown_warnings (warnings_in self.old)) }
    {
        if let Node::Short(kind, len, bytes) = &*self {
            let text = String::from_str(alloc, text_in(*len, bytes))?;
            *self = Node::Leaf(*kind, LeafNode::warned(alloc, text, warning)?);
            return Ok(());
        }
        match self {
            Node::Short(..) => unreachable!(),
            Node::Long(kind, text) => {
                let mut leaf = LeafNode::warned(alloc, String::new(alloc), warning)?;
                mem::swap(&mut leaf.text, text);
                *self = Node::Leaf(*kind, leaf);
                Ok(())
            }
            Node::Leaf(_, leaf) => warn_last(&mut leaf.warnings, warning),
            Node::Inner(_, _, inner) => inner.extras.push_warning(alloc, warning),
            Node::Error(error) => warn_last(&mut error.warnings, warning),
        }
    }

    /// Adds a hint after the other hints of the outermost warning.
    #[tactic(auto, using(crate::proofs::Measured::measured_under))]
    fn hint_outermost(&mut self, hint: Hint) -> Result<(), AllocError>
        requires kept { IsConsistent self.old }
        requires warned { 0 < length (warnings_in self.old) }
        ensures kept { IsConsistent self.new }
        ensures content { content self.new ≡ content self.old }
        ensures below { below self.new ≡ below self.old }
        ensures ok { OnOk result (shown_warnings (warnings_in self.new)
            ≡ hint_outermost (hint_text hint ∷ []) (shown_warnings (warnings_in self.old))) }
        ensures err { OnErr result (shown_warnings (warnings_in self.new) ≡ shown_warnings (warnings_in self.old)) }
    {
        match self {
            Node::Short(..) | Node::Long(..) => unreachable!(),
            Node::Leaf(_, leaf) => hint_last(&mut leaf.warnings, hint),
            Node::Inner(_, _, inner) => inner.extras.hint_last(hint),
            Node::Error(error) => hint_last(&mut error.warnings, hint),
        }
    }
}

impl LeafNode {
    /// A leaf with one warning.
    fn warned(alloc: Global, text: String, warning: Warning) -> Result<Box<LeafNode>, AllocError>
        ensures text { IfOk result (λ b. string_bytes b.value.text ≡ string_bytes text) }
        ensures warnings { IfOk result (λ b. b.value.warnings.items ≡ warning ∷ []) }
    {
        let warnings = only(alloc, warning)?;
        Ok(Box::new(alloc, LeafNode { text, warnings })?)
    }
}

impl ErrorNode {
    /// Adds a hint after the error's other hints.
    fn push_hint(&mut self, hint: Hint) -> Result<(), AllocError>
        ensures text { self.new.text ≡ self.old.text }
        ensures message { self.new.message ≡ self.old.message }
        ensures warnings { self.new.warnings ≡ self.old.warnings }
        ensures ok { OnOk result (self.new.hints.items ≡ self.old.hints.items ++ hint ∷ []) }
        ensures err { OnErr result (self.new.hints.items ≡ self.old.hints.items) }
    {
        self.hints.push(hint)?;
        Ok(())
    }
}

/// A list of one warning.
pub(super) fn only(alloc: Global, warning: Warning) -> Result<Vec<Warning>, AllocError>
    ensures { IfOk result (λ v. v.items ≡ warning ∷ []) }
{
    let mut list = Vec::with_capacity(alloc, 1)?;
    list.push(warning)?;
    Ok(list)
}

/// Adds a warning after the others, as the outermost one.
fn warn_last(warnings: &mut Vec<Warning>, warning: Warning) -> Result<(), AllocError>
    ensures ok { OnOk result (shown_warnings warnings.new.items
        ≡ warning_text warning ∷ shown_warnings warnings.old.items) }
    ensures err { OnErr result (shown_warnings warnings.new.items ≡ shown_warnings warnings.old.items) }
{
    warnings.push(warning)?;
    Ok(())
}

/// Adds a hint after the other hints of the last warning, which is the outermost one.
pub(super) fn hint_last(warnings: &mut Vec<Warning>, hint: Hint) -> Result<(), AllocError>
    requires { 0 < vec_len warnings.old }
    ensures ok { OnOk result (shown_warnings warnings.new.items
        ≡ hint_outermost (hint_text hint ∷ []) (shown_warnings warnings.old.items)) }
    ensures err { OnErr result (shown_warnings warnings.new.items ≡ shown_warnings warnings.old.items) }
{
    let last = warnings.len() - 1;
    warnings[last].hints.push(hint)?;
    Ok(())
}
