//! Trees whose nodes all have one span.
ghost use Rattle.std.specs.Prelude.{◌≡◌, length, map};
ghost use Rattle.typst_node.specs.Text.{text_of_all};
ghost use Rattle.typst_node.specs.Synthesized.{synthesized, whole_hint, whole_warning};
ghost use Rattle.typst_node.specs.View.{hint_text, IsMeasured, shown_warnings, warning_text};

use crate::node::{Hint, InnerNode, Node, SyntaxNode, Warning};
use typst_base::Span;

/// # Synthesis
impl SyntaxNode {
    /// Gives every node of the tree this span. All sub-ranges of warnings and hints are removed, and each inner node's
    /// bound becomes the number of the span.
    ///
    /// It takes time in proportion to the nodes, and no memory.
    #[cycle(synthesize)]
    pub fn synthesize(&mut self, span: Span)
        ensures { self.new ≡ synthesized span self.old }
    {
        match &mut self.node {
            Node::Short(..) | Node::Long(..) => self.span = span,
            Node::Leaf(_, leaf) => {
                self.span = span;
                make_whole(&mut leaf.warnings);
            }
            Node::Error(error) => {
                self.span = span;
                make_whole(&mut error.warnings);
                make_hints_whole(&mut error.hints);
            }
            Node::Inner(_, _, inner) => {
                self.span = span;
                inner.synthesize_below(span);
            }
        }
    }
}

impl InnerNode {
    #[cycle(synthesize)]
    fn synthesize_below(&mut self, span: Span)
        requires { IsMeasured self.old }
        ensures measured { IsMeasured self.new }
        ensures len { length (text_of_all self.new.children.items) ≡ length (text_of_all self.old.children.items) }
        ensures upper { self.new.upper ≡ span.low }
        ensures warnings { shown_warnings self.new.extras.warnings
            ≡ map whole_warning (shown_warnings self.old.extras.warnings) }
        ensures children { self.new.children.items ≡ map (synthesized span) self.old.children.items }
    {
        self.upper = span.number();
        self.extras.make_whole();
        for child in self.children.iter_mut() {
            child.synthesize(span);
        }
    }
}

/// Removes the sub-ranges of the warnings and their hints.
pub(super) fn make_whole(warnings: &mut Vec<Warning>)
    ensures { shown_warnings warnings.new.items ≡ map whole_warning (shown_warnings warnings.old.items) }
{
    for warning in warnings.iter_mut() {
        warning.make_whole();
    }
}

/// Removes the sub-ranges of the hints.
pub(super) fn make_hints_whole(hints: &mut Vec<Hint>)
    ensures { map hint_text hints.new.items ≡ map whole_hint (map hint_text hints.old.items) }
{
    for hint in hints.iter_mut() {
        hint.sub_range = None;
    }
}

impl Warning {
    /// Removes the sub-ranges of the warning and its hints.
    fn make_whole(&mut self)
        ensures { warning_text self.new ≡ whole_warning (warning_text self.old) }
    {
        self.sub_range = None;
        make_hints_whole(&mut self.hints);
    }
}
