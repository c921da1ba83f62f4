//! What the views of nodes answer.

use std::alloc::Global;
use std::io;
use std::io::Write;
use typst_answers::views::of_node;
use typst_answers::{Answers, Form};
use typst_linked::LinkedNode;
use typst_node::SyntaxNode;
use typst_shown::drawing::Sketch;
use typst_shown::part::Line;
use typst_shown::trail::Trail;
use typst_shown::{EditReport, Shown};

/// Draws a tree as `typst_shown` does, and writes what the view of each node answers below the node's line.
pub fn draw_with_answers<W: Write>(
    alloc: Global,
    out: &mut W,
    shown: &Shown<'_>,
    report: Option<&EditReport>,
) -> io::Result<()> {
    let mut sketch = Sketch::new(alloc, shown, report)?;
    let mut answers = Answers::in_form(alloc, shown.root, Form::Ranges);
    // How many nodes are left out from here on.
    let mut hidden = 0usize;
    for node in LinkedNode::new(shown.root).preorder(alloc)? {
        let node = node?;
        if let Some(less) = hidden.checked_sub(1) {
            hidden = less;
            continue;
        }
        match sketch.draw_next(out)? {
            Some(Line::Node(_)) => draw_answers(out, &mut answers, node.get(), &sketch.trail)?,
            Some(Line::Hidden(line)) => hidden = line.nodes.saturating_sub(1),
            None => break,
        }
    }
    Ok(())
}

/// Writes the answers for a node, between its line and those of its children.
fn draw_answers<W: Write>(
    out: &mut W,
    answers: &mut Answers<'_>,
    node: &SyntaxNode,
    trail: &Trail,
) -> io::Result<()> {
    answers.clear();
    of_node(answers, node);
    let has_children = !node.child_slice().is_empty();
    for answer in answers.written()?.lines() {
        trail.draw_below(out, has_children)?;
        out.write_all(answer.as_bytes())?;
        out.write_all(b"\n")?;
    }
    Ok(())
}
