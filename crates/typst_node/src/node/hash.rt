//! Hashes of whole trees.
ghost use Rattle.std.specs.Prelude.{◌≡◌, fold, map, reverse};
ghost use Rattle.typst_node.specs.Hashed.{sub_range_input, hint_input, hints_input, warning_input, warnings_input, content_input, label_input, tree_input};
ghost use Rattle.typst_node.specs.Tree.{AsLeaf};
ghost use Rattle.typst_node.specs.View.{hint_text, warning_text};

use crate::node::{Hint, Node, SyntaxNode, Warning};
use std::hash::{Hash, Hasher};
use typst_base::{SubRange, SyntaxKind};

fn feed_sub_range<H: Hasher>(sub_range: Option<SubRange>, state: &mut H)
    ensures { state.new ≡ fold H.write state.old (sub_range_input sub_range) }
{
    match sub_range {
        Some(part) => {
            let part = part.to_relative();
            state.write_u8(1);
            state.write_usize(part.start);
            state.write_usize(part.end);
        }
        None => state.write_u8(0),
    }
}

fn feed_hint<H: Hasher>(hint: &Hint, state: &mut H)
    ensures { state.new ≡ fold H.write state.old (hint_input (hint_text hint.now)) }
{
    hint.text.as_str().hash(state);
    feed_sub_range(hint.sub_range, state);
}

fn feed_hints<H: Hasher>(hints: &[Hint], state: &mut H)
    ensures { state.new ≡ fold H.write state.old (hints_input (map hint_text hints.now)) }
{
    state.write_usize(hints.len());
    for hint in hints {
        feed_hint(hint, state);
    }
}

fn feed_warning<H: Hasher>(warning: &Warning, state: &mut H)
    ensures { state.new ≡ fold H.write state.old (warning_input (warning_text warning.now)) }
{
    feed_sub_range(warning.sub_range, state);
    warning.message.as_str().hash(state);
    feed_hints(&warning.hints, state);
}

fn feed_warnings<H: Hasher>(warnings: &[Warning], state: &mut H)
    ensures { state.new ≡ fold H.write state.old (warnings_input (map warning_text warnings.now)) }
{
    state.write_usize(warnings.len());
    for warning in warnings {
        feed_warning(warning, state);
    }
}

fn feed_leaf<H: Hasher>(kind: SyntaxKind, text: &str, state: &mut H)
    ensures { state.new ≡ fold H.write state.old (content_input (AsLeaf kind text.now)) }
{
    state.write_u8(0);
    state.write_u8(kind.to_u8());
    text.hash(state);
}

impl SyntaxNode {
    /// Feeds the node without its span, its warnings and its children.
    fn feed_content<H: Hasher>(&self, state: &mut H)
        ensures { state.new ≡ fold H.write state.old (content_input self.now.label.content) }
    {
        match &self.node {
            Node::Short(..) | Node::Long(..) | Node::Leaf(..) => {
                feed_leaf(self.kind(), self.leaf_text(), state);
            }
            Node::Error(error) => {
                state.write_u8(1);
                error.text.as_str().hash(state);
                error.message.as_str().hash(state);
                feed_hints(&error.hints, state);
            }
            Node::Inner(kind, _, inner) => {
                state.write_u8(2);
                state.write_u8(kind.to_u8());
                state.write_u64(inner.upper);
            }
        }
    }
}

impl SyntaxNode {
    /// Feeds the node without its children.
    fn feed_label<H: Hasher>(&self, state: &mut H)
        ensures { state.new ≡ fold H.write state.old (label_input self.now.label) }
    {
        self.span.hash(state);
        feed_warnings(self.node.warnings(), state);
        self.feed_content(state);
    }

    /// Feeds the whole tree, in preorder.
    fn feed<H: Hasher>(&self, state: &mut H)
        ensures { state.new ≡ fold H.write state.old (tree_input self.now) }
    {
        self.feed_label(state);
        let children = self.child_slice();
        state.write_usize(children.len());
        for child in children {
            child.feed(state);
        }
    }
}

/// A hash of everything that the tree holds, spans and bounds included. It takes time in proportion to the tree.
impl Hash for SyntaxNode {
    ghost use Rattle.typst_node.specs.Hashed.{tree_alike};

    ghost hash_input = { tree_input };

    ghost respects_eq = { tree_alike };

    fn hash<H: Hasher>(&self, state: &mut H) {
        self.feed(state);
    }
}
