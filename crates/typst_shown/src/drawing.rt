//! A tree, drawn with branches, one node per line.

use crate::listed::rows;
use crate::paint::Ink;
use crate::part::{Hidden, Line, Part};
use crate::places::{LineColumn, places_of};
use crate::quoted::push_beginning;
use crate::report::{EditReport, NodeStatus};
use crate::row::Row;
use crate::shown::Shown;
use crate::trail::Trail;
use std::alloc::{AllocError, Global};
use std::io;
use std::io::Write;
use typst_base::SyntaxKind;

/// How many characters of an inner node's text are shown.
const SHOWN_CHARS: usize = 32;

/// Draws a tree, and marks the nodes that are new after an edit and those that it moved.
pub fn draw<W: Write>(
    alloc: Global,
    out: &mut W,
    shown: &Shown<'_>,
    report: Option<&EditReport>,
) -> io::Result<()> {
    let mut sketch = Sketch::new(alloc, shown, report)?;
    for _ in 0..sketch.most_lines() {
        if sketch.draw_next(out)?.is_none() {
            break;
        }
    }
    Ok(())
}

/// A drawing of a tree, and how far it has come.
#[derive(Drop)]
pub struct Sketch<'a> {
    shown: Shown<'a>,
    report: Option<&'a EditReport>,
    rows: Vec<Row>,
    /// The place of each row, if places are told.
    places: Vec<LineColumn>,
    part: Part,
    /// The branches of the line that was drawn last.
    pub trail: Trail,
    /// The index of the row that comes next.
    next: usize,
    /// The rest of a line. It keeps its room from line to line.
    rest: String,
}

impl<'a> Sketch<'a> {
    /// A drawing of which nothing is drawn.
    pub fn new(
        alloc: Global,
        shown: &Shown<'a>,
        report: Option<&'a EditReport>,
    ) -> Result<Sketch<'a>, AllocError> {
        let rows = rows(alloc, shown.root)?;
        let places = if shown.manner.has_places {
            places_of(alloc, shown.text, &rows)?
        } else {
            Vec::new(alloc)
        };
        Ok(Sketch {
            shown: *shown,
            report,
            rows,
            places,
            part: Part::of(alloc, shown.wanted, shown.text)?,
            trail: Trail::new(alloc),
            next: 0,
            rest: String::new(alloc),
        })
    }

    /// A number of lines that the drawing doesn't exceed.
    pub fn most_lines(&self) -> usize {
        self.rows.len()
    }

    /// Draws the next line, and returns it. None if all is drawn.
    pub fn draw_next<W: Write>(&mut self, out: &mut W) -> io::Result<Option<Line>> {
        let Some((line, count)) = self.part.line_at(&self.rows, self.next) else {
            return Ok(None);
        };
        match line {
            Line::Node(index) => self.draw_node(out, index)?,
            Line::Hidden(hidden) => self.draw_hidden(out, &hidden)?,
        }
        self.next = self.next.saturating_add(count);
        Ok(Some(line))
    }

    /// Draws the line of a node.
    fn draw_node<W: Write>(&mut self, out: &mut W, index: usize) -> io::Result<()> {
        let Some(row) = self.rows.get(index) else {
            return Ok(());
        };
        self.trail.go_to(row.depth, row.is_last)?;
        self.trail.draw(out)?;
        write_row(out, &self.shown, row, self.places.get(index), self.report)?;
        write_text(out, &mut self.rest, self.shown.text, row)
    }

    /// Draws the line of nodes that are left out.
    fn draw_hidden<W: Write>(&mut self, out: &mut W, hidden: &Hidden) -> io::Result<()> {
        self.trail.go_to(hidden.depth, hidden.is_last)?;
        self.trail.draw(out)?;
        self.rest.clear();
        write!(self.rest, "{hidden}")?;
        Ink::LeftOut.write(out, self.shown.manner.is_coloured, &self.rest)?;
        out.write_all(b"\n")
    }
}

/// Writes the kind of a row, its range, its place if it is told, its number, and whether the node is new or was moved.
pub(crate) fn write_row<W: Write>(
    out: &mut W,
    shown: &Shown<'_>,
    row: &Row,
    place: Option<&LineColumn>,
    report: Option<&EditReport>,
) -> io::Result<()> {
    let is_coloured = shown.manner.is_coloured;
    let ink = if row.kind == SyntaxKind::Error {
        Ink::Error
    } else {
        Ink::Kind
    };
    ink.start(out, is_coloured)?;
    write!(out, "{:?}", row.kind)?;
    ink.end(out, is_coloured)?;
    write!(out, " {}..{} ", row.start, row.end)?;
    if let Some(LineColumn { line, column }) = place {
        write!(out, "{line}:{column} ")?;
    }
    Ink::Number.start(out, is_coloured)?;
    write!(out, "#{}", row.number)?;
    Ink::Number.end(out, is_coloured)?;
    match report.map_or(NodeStatus::Kept, |report| report.status(row.number)) {
        NodeStatus::Kept => Ok(()),
        NodeStatus::Moved => Ink::Moved.write(out, is_coloured, " moved"),
        NodeStatus::New => Ink::New.write(out, is_coloured, " new"),
    }
}

/// Writes the text of a row, or the beginning of the text for an inner node, and the end of the line. `rest` holds this
/// meanwhile.
pub(crate) fn write_text<W: Write>(
    out: &mut W,
    rest: &mut String,
    text: &str,
    row: &Row,
) -> io::Result<()> {
    let own = text.get(row.start..row.end).unwrap_or("");
    let most = if row.is_inner {
        SHOWN_CHARS
    } else {
        usize::MAX
    };
    rest.clear();
    rest.push_str("  ")?;
    push_beginning(rest, own, most)?;
    rest.push_str("\n")?;
    out.write_all(rest.as_bytes())
}
