//! The bytes of a tree's text that a diagnostic is about.
ghost use Rattle.std.specs.Prelude.{◌≡◌, ◌≤◌, IfSome};
ghost use Rattle.std.specs.Option.{option_map};
ghost use Rattle.typst_base.specs.DiagSpanKind.{diag_kind_of};
ghost use Rattle.typst_node.specs.Numbered.{IsNumbered};
ghost use Rattle.typst_linked.specs.DiagPlaces.{node_range, part_within, place_in};
ghost use Rattle.typst_linked.specs.Search.{with_number};

use crate::halving::last_up_to;
use crate::looks::Looks;
use crate::node::child_begin;
use std::ops::Range;
use typst_base::{DiagSpan, DiagSpanKind, SubRange};
use typst_node::SyntaxNode;

/// The bytes of a numbered tree's text that a diagnostic from `SyntaxNode::errors_and_warnings` is about.
///
/// A node's number leads to the node. A part of the node leads to the bytes of the part. If the node's text is shorter
/// than the part, as after an edit, it leads to the whole node. The answer is `None` for a detached span, another file,
/// a number that no node has, or a range that the text doesn't have. The search goes down one path, and takes no
/// memory.
pub fn place_of(root: &SyntaxNode, span: &DiagSpan) -> Option<Range<usize>>
    ensures { IsNumbered root.now → result ≡ place_in (diag_kind_of span.now) root.now }
{
    let file = root.span().id()?;
    match span.get() {
        DiagSpanKind::Detached => None,
        DiagSpanKind::Number { id, num, sub_range } => {
            if id != file {
                return None;
            }
            let whole = range_of_number(root, num.0)?;
            Some(within(whole, sub_range))
        }
        DiagSpanKind::Range { id, range } => {
            let is_of_text = range.start <= range.end && range.end <= root.len();
            (id == file && is_of_text).then_some(range)
        }
    }
}

/// A part of a node's bytes, or all of them if the part isn't within them.
fn within(whole: Range<usize>, part: Option<SubRange>) -> Range<usize>
    requires { whole.start ≤ whole.end }
    ensures { result ≡ part_within part whole }
{
    match part {
        Some(part) if part.to_relative().end <= whole.end - whole.start => {
            part.to_absolute(whole.start)
        }
        _ => whole,
    }
}

/// The bytes of the node with a number.
fn range_of_number(root: &SyntaxNode, wanted: u64) -> Option<Range<usize>>
    ensures range { IsNumbered root.now
        → result ≡ option_map (λ path. node_range path root.now) (with_number wanted root.now) }
    ensures ordered { IfSome result (λ range. range.start ≤ range.end) }
{
    let mut looks = Looks::new();
    // Read for the proof: the length and the node count are usizes.
    let _sums = (root.len(), root.descendants());
    let mut number = looks.number_of(root);
    if wanted < number {
        return None;
    }
    let mut node = root;
    let mut begin = 0;
    while number != wanted {
        let children = node.child_slice();
        let next = last_up_to(children, wanted, &mut looks)?;
        begin += child_begin(node, next.index);
        number = next.number;
        node = &children[next.index];
    }
    Some(begin..begin + node.len())
}
