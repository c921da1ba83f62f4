//! The nodes of a tree in a page.
//!
//! A node is an element with its row, with what is told of it, and with its children. It has no attributes from which the
//! script could tell where it belongs: the leaves come in the order of their texts.

use crate::anchors::Anchors;
use crate::escaped::{is_simple, push_escaped};
use crate::step::Step;
use crate::writer::PageWriter;
use itoa::{Buffer, Integer};
use std::alloc::{AllocError, Global};
use std::rt::Files;
use typst_answers::views::of_node;
use typst_answers::{Answers, Form};
use typst_base::SyntaxKind;
use typst_node::SyntaxNode;
use typst_shown::part::{Hidden, Line, Part};
use typst_shown::quoted::push_beginning;
use typst_shown::{NodeStatus, Problem, Row};

/// How many characters of a node's text are shown next to it.
const SHOWN_CHARS: usize = 48;

/// How many digits of a number are shown before a reader asks for all of them.
const SHOWN_DIGITS: usize = 5;

/// How many bytes the nodes of a step take before the rest is left out: so many for each byte of the text, and so many
/// more. With them no step has more than 20 bytes for each byte of its text, and a megabyte.
const BYTES_EACH: usize = 9;

const BYTES_MORE: usize = 400_000;

/// Adds the nodes of a tree. Returns the part of the tree that is shown.
pub(crate) fn push_nodes<'a, R: Files + Print>(
    alloc: Global,
    page: &mut PageWriter<'_, 'a, R>,
    step: &Step<'_>,
) -> Result<Part, Problem<'a>> {
    let mut part = Part::of(alloc, step.shown.wanted, step.shown.text)?;
    let mut tree = Tree::new(alloc, step);
    let most = step
        .shown
        .text
        .len()
        .saturating_mul(BYTES_EACH)
        .saturating_add(BYTES_MORE);
    let end = page.made().saturating_add(most);
    let mut next = 0usize;
    for _ in 0..step.rows.len() {
        page.pass_on()?;
        let is_full = page.made() > end;
        if is_full {
            part.end_at(next);
        }
        let Some((line, count)) = part.line_at(&step.rows, next) else {
            break;
        };
        match line {
            Line::Node(index) => tree.push_node(&mut page.text, index)?,
            Line::Hidden(hidden) => tree.push_hidden(&mut page.text, next, &hidden, is_full)?,
        }
        next = next.saturating_add(count);
    }
    tree.end(&mut page.text, 0)?;
    Ok(part)
}

/// A tree that is being added.
#[derive(Drop)]
struct Tree<'s> {
    step: &'s Step<'s>,
    /// The nodes whose children are being added, from the root down.
    parents: Vec<Parent<'s>>,
    anchors: Anchors<'s>,
    answers: Answers<'s>,
    /// A text in quotes. It keeps its room from node to node.
    quoted: String,
    alloc: Global,
}

/// A node whose children are being added.
#[derive(Drop)]
struct Parent<'s> {
    node: &'s SyntaxNode,
    /// How the paths of its children begin.
    beginning: String,
}

impl<'s> Tree<'s> {
    /// A tree of which nothing is added.
    fn new(alloc: Global, step: &'s Step<'s>) -> Tree<'s> {
        Tree {
            step,
            parents: Vec::new(alloc),
            anchors: Anchors::new(step.number, &step.reported),
            answers: Answers::in_form(alloc, step.shown.root, Form::Ranges),
            quoted: String::new(alloc),
            alloc,
        }
    }

    /// Ends the nodes that a line with so many nodes above it isn't in.
    fn end(&mut self, out: &mut String, depth: usize) -> Result<(), AllocError> {
        for _ in depth..self.parents.len() {
            out.push_str("</details>\n")?;
        }
        self.parents.truncate(depth);
        Ok(())
    }

    /// Adds the node of a row, up to its children.
    fn push_node(&mut self, out: &mut String, index: usize) -> Result<(), AllocError> {
        let Some(row) = self.step.rows.get(index) else {
            return Ok(());
        };
        self.end(out, row.depth)?;
        // The rows come in preorder, so the node is there.
        let Some(node) = self.node_of(row) else {
            return Ok(());
        };
        let status = self
            .step
            .report
            .map_or(NodeStatus::Kept, |report| report.status(row.number));
        push_opening(out, row, status)?;
        self.anchors.push(out, 'n', index)?;
        self.push_row(out, index, row, status)?;
        push_place(out, self.parents.last(), row)?;
        self.answers.clear();
        of_node(&mut self.answers, node);
        push_escaped(out, self.answers.written()?)?;
        out.push_str("</p>")?;
        if !row.is_inner {
            return out.push_str("</details>\n");
        }
        out.push_str("\n")?;
        let beginning = beginning_below(self.alloc, self.parents.last(), row.index)?;
        self.parents.push(Parent { node, beginning })?;
        Ok(())
    }

    /// The node of a row, which is the root or a child of the last parent.
    fn node_of(&self, row: &Row) -> Option<&'s SyntaxNode> {
        let step = self.step;
        match self.parents.last() {
            None => Some(step.shown.root),
            Some(parent) => parent.node.child_slice().get(row.index),
        }
    }

    /// Adds the row of a node: what a reader sees of it at once.
    fn push_row(
        &mut self,
        out: &mut String,
        index: usize,
        row: &Row,
        status: NodeStatus,
    ) -> Result<(), AllocError> {
        let step = self.step;
        write!(out, "<b>{:?}</b> ", row.kind)?;
        push_number(out, row.start)?;
        out.push_str("..")?;
        push_number(out, row.end)?;
        if let Some(place) = step.places.get(index) {
            out.push_str(" ")?;
            push_number(out, place.line)?;
            out.push_str(":")?;
            push_number(out, place.column)?;
        }
        push_short(out, row.number)?;
        out.push_str(match status {
            NodeStatus::Kept => "  ",
            NodeStatus::Moved => " moved  ",
            NodeStatus::New => " new  ",
        })?;
        let own = step.shown.text.get(row.start..row.end).unwrap_or("");
        push_quoted(out, &mut self.quoted, own)?;
        out.push_str("</summary>")
    }

    /// Adds a line for nodes that are left out, of which the first is that of the row with an index. If they are left out
    /// since the page is full, the line says how to see them.
    fn push_hidden(
        &mut self,
        out: &mut String,
        index: usize,
        hidden: &Hidden,
        is_full: bool,
    ) -> Result<(), AllocError> {
        self.end(out, hidden.depth)?;
        let step = self.step;
        let last = index.saturating_add(hidden.nodes).saturating_sub(1);
        out.push_str("<p class=\"cut\">")?;
        self.anchors.push(out, 'n', last)?;
        write!(out, "{hidden}")?;
        if let (true, Some(from), Some(to)) = (
            is_full,
            step.places.get(index),
            step.places.get(last),
        ) {
            out.push_str("; to see them: ./show ")?;
            push_escaped(out, step.shown.file)?;
            write!(out, " --lines {}-{}", from.line, to.line)?;
        }
        out.push_str("</p>\n")
    }
}

/// Begins a node, up to its anchors. An inner node is open, and its row begins with what folds it.
fn push_opening(out: &mut String, row: &Row, status: NodeStatus) -> Result<(), AllocError> {
    let form = if row.is_inner {
        "i"
    } else if row.kind == SyntaxKind::Error {
        "bad"
    } else if row.kind.is_trivia() {
        "t"
    } else {
        "l"
    };
    let mark = match status {
        NodeStatus::Kept => "",
        NodeStatus::Moved => " moved",
        NodeStatus::New => " new",
    };
    write!(out, "<details class=\"{form}{mark}\"")?;
    out.push_str(if row.is_inner {
        " open><summary><u></u>"
    } else {
        "><summary>"
    })
}

/// Adds a number with its last digits in sight.
fn push_short(out: &mut String, number: u64) -> Result<(), AllocError> {
    let mut digits = Buffer::new();
    let whole = digits.format(number);
    let (first, last) = match whole.len().checked_sub(SHOWN_DIGITS) {
        Some(at) if at > 0 => (whole.get(..at).unwrap_or(""), whole.get(at..).unwrap_or("")),
        _ => ("", whole),
    };
    out.push_str(" <i>#")?;
    if !first.is_empty() {
        out.push_str("<s>")?;
        out.push_str(first)?;
        out.push_str("</s>")?;
    }
    out.push_str(last)?;
    out.push_str("</i>")
}

/// Adds the beginning of a node's text in quotes. Most texts stand in a page as they are. The others are first written to
/// `quoted`, which keeps its room from node to node.
fn push_quoted(out: &mut String, quoted: &mut String, own: &str) -> Result<(), AllocError> {
    if own.len() <= SHOWN_CHARS && is_simple(own.as_bytes()) {
        out.push_str("\"")?;
        out.push_str(own)?;
        return out.push_str("\"");
    }
    quoted.clear();
    push_beginning(quoted, own, SHOWN_CHARS)?;
    push_escaped(out, quoted)
}

/// Begins what is told of a node, and adds its path, and the bound of an inner node. The bound of a leaf is the number
/// after its own.
fn push_place(out: &mut String, parent: Option<&Parent<'_>>, row: &Row) -> Result<(), AllocError> {
    out.push_str("<p>at ")?;
    push_path(out, parent, row.index)?;
    if row.is_inner {
        out.push_str(", bound ")?;
        push_number(out, row.bound)?;
    }
    out.push_str("\n")
}

/// Adds the path of a node: the child indices that lead to it, joined by dots, or `-` for the root. All but the last
/// index are given, with a dot after each.
fn push_path(
    out: &mut String,
    parent: Option<&Parent<'_>>,
    index: usize,
) -> Result<(), AllocError> {
    match parent {
        None => out.push_str("-"),
        Some(parent) => {
            out.push_str(&parent.beginning)?;
            push_number(out, index)
        }
    }
}

/// How the paths of a node's children begin.
fn beginning_below(
    alloc: Global,
    parent: Option<&Parent<'_>>,
    index: usize,
) -> Result<String, AllocError> {
    let mut beginning = String::new(alloc);
    if parent.is_some() {
        push_path(&mut beginning, parent, index)?;
        beginning.push_str(".")?;
    }
    Ok(beginning)
}

/// Adds a number.
fn push_number<I: Integer>(out: &mut String, number: I) -> Result<(), AllocError> {
    let mut digits = Buffer::new();
    out.push_str(digits.format(number))
}
