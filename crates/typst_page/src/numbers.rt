//! The numbers of the children of an edited node, drawn on a line with the windows that were tried.

use crate::windows::Change;
use std::alloc::AllocError;
use std::ops::Range;
use typst_node::{Renumbered, SyntaxNode};
use typst_shown::{EditReport, NodeStatus};

/// How many children are drawn on each side of the window.
const BESIDE: usize = 2;

/// How many children are drawn in all.
const MOST: usize = 60;

/// How far the first child is from the left edge, in pixels.
const LEFT: usize = 10;

/// The width of the place of a child, in pixels.
const WIDTH: usize = 130;

/// How far the first window is from the upper edge, in pixels.
const TOP: usize = 80;

/// How far each window is below the one before, in pixels.
const HEIGHT: usize = 24;

/// A node whose children an edit changed, after the edit: the window among its children, and where their list changed.
#[derive(Clone, Copy)]
pub struct EditedNode<'a> {
    /// The node.
    pub node: &'a SyntaxNode,
    /// The children that were numbered anew.
    pub renumbered: &'a Renumbered,
    /// Where the list of its children changed.
    pub change: &'a Change,
}

/// Draws the numbers of the children in the window and next to it: those that stayed, those that are new, and those of
/// nodes that moved.
pub(crate) fn push_numbers(
    out: &mut String,
    report: &EditReport,
    edited: &EditedNode<'_>,
) -> Result<(), AllocError> {
    let children = edited.node.child_slice();
    let Renumbered { window, tried } = edited.renumbered;
    let first = window.start.saturating_sub(BESIDE);
    let behind = window.end.saturating_add(BESIDE).min(children.len());
    let drawn = first..behind.min(first.saturating_add(MOST));
    let width = x_of(&drawn, drawn.end).saturating_add(LEFT);
    let height = TOP.saturating_add(tried.saturating_mul(HEIGHT));
    let left_out = behind.saturating_sub(drawn.end);
    write!(out, "<div class=\"numbers\"><svg width=\"{width}\" ")?;
    writeln!(
        out,
        "height=\"{height}\" role=\"img\" aria-label=\"numbers\">"
    )?;
    write!(out, "<line x1=\"0\" y1=\"40\" x2=\"{width}\" y2=\"40\" ")?;
    writeln!(out, "stroke=\"var(--faint)\"/>")?;
    for (index, child) in children.iter().enumerate() {
        if drawn.contains(&index) {
            let x = x_of(&drawn, index).saturating_add(WIDTH / 2);
            push_number(out, x, child, report.status(child.span().number()))?;
        }
    }
    push_windows(out, &drawn, edited)?;
    out.push_str("</svg>")?;
    if left_out > 0 {
        write!(
            out,
            "<p>{left_out} more children after these aren't drawn.</p>"
        )?;
    }
    out.push_str("</div>\n")
}

/// Where the place of a child begins.
fn x_of(drawn: &Range<usize>, index: usize) -> usize {
    index
        .min(drawn.end)
        .saturating_sub(drawn.start)
        .saturating_mul(WIDTH)
        .saturating_add(LEFT)
}

/// Draws the kind of a child above the line, and its number below.
fn push_number(
    out: &mut String,
    x: usize,
    child: &SyntaxNode,
    status: NodeStatus,
) -> Result<(), AllocError> {
    let colour = match status {
        NodeStatus::Kept => "var(--kept)",
        NodeStatus::Moved => "var(--moved)",
        NodeStatus::New => "var(--new)",
    };
    let (kind, number) = (child.kind(), child.span().number());
    writeln!(
        out,
        "<circle cx=\"{x}\" cy=\"40\" r=\"5\" fill=\"{colour}\"/>"
    )?;
    let text = "text-anchor=\"middle\" font-size=\"12\"";
    writeln!(
        out,
        "<text x=\"{x}\" y=\"24\" {text} fill=\"currentColor\">{kind:?}</text>"
    )?;
    writeln!(
        out,
        "<text x=\"{x}\" y=\"62\" {text} fill=\"{colour}\">{number}</text>"
    )
}

/// Draws the windows that were tried, one below the other.
fn push_windows(
    out: &mut String,
    drawn: &Range<usize>,
    edited: &EditedNode<'_>,
) -> Result<(), AllocError> {
    let EditedNode {
        renumbered,
        change,
        ..
    } = *edited;
    let Some(turns) = change.tried(renumbered) else {
        return Ok(());
    };
    for turn in turns {
        let window = change.window(turn);
        let x = x_of(drawn, window.start);
        let width = x_of(drawn, window.end).saturating_sub(x).max(4);
        let y = TOP.saturating_add(turn.saturating_mul(HEIGHT));
        let (baseline, from) = (y.saturating_add(14), x.saturating_add(8));
        let has_room = turn.saturating_add(1) == renumbered.tried;
        let colour = if has_room {
            "var(--new)"
        } else {
            "var(--faint)"
        };
        write!(out, "<rect x=\"{x}\" y=\"{y}\" width=\"{width}\" ")?;
        write!(out, "height=\"20\" rx=\"5\" fill=\"{colour}\" ")?;
        writeln!(out, "fill-opacity=\"0.15\" stroke=\"{colour}\"/>")?;
        let told = if has_room { "room" } else { "no room" };
        let number = turn.saturating_add(1);
        write!(out, "<text x=\"{from}\" y=\"{baseline}\" font-size=\"12\" ")?;
        writeln!(out, "fill=\"currentColor\">window {number}: {told}</text>")?;
    }
    Ok(())
}
