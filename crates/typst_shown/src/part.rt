//! The part of a tree that is shown, line by line.

use crate::asked::Wanted;
use crate::row::Row;
use std::alloc::{AllocError, Global};
use std::fmt::{self, Display, Formatter, Write};
use std::ops::Range;
use typst_lines::Lines;

/// Which rows of a tree are shown. A row that is shown has all nodes above it shown.
#[derive(Clone, Copy, Debug, PartialEq, Eq)]
pub struct Part {
    /// How many nodes may be above a node.
    depth: usize,
    /// The bytes of which a node must have some.
    start: usize,
    end: usize,
    /// How many rows may come before a row.
    count: usize,
}

/// A line that is shown of a tree.
#[derive(Clone, Copy, Debug, PartialEq, Eq)]
pub enum Line {
    /// The row with this index.
    Node(usize),
    /// Siblings side by side that are left out, with all nodes below them.
    Hidden(Hidden),
}

/// Siblings side by side that are left out, with all nodes below them.
#[derive(Clone, Copy, Debug, PartialEq, Eq)]
pub struct Hidden {
    /// How many nodes are above each sibling.
    pub depth: usize,
    /// Whether no sibling comes after them.
    pub is_last: bool,
    /// How many nodes are left out.
    pub nodes: usize,
    /// Where their text begins.
    pub start: usize,
    /// Where their text ends.
    pub end: usize,
}

impl Display for Hidden {
    /// Tells how many nodes are left out, and the bytes of their text.
    fn fmt<W: Write>(&self, f: &mut Formatter<W>) -> fmt::Result {
        let Hidden {
            nodes,
            start,
            end,
            ..
        } = self;
        let noun = if *nodes == 1 { "node" } else { "nodes" };
        write!(f, "… {nodes} {noun} {start}..{end}")
    }
}

impl Part {
    /// The part of a text's tree that is asked for.
    pub fn of(alloc: Global, wanted: Wanted, text: &str) -> Result<Part, AllocError> {
        let bytes = match wanted.lines {
            Some((first, last)) => bytes_of(alloc, text, first, last)?,
            None => 0..usize::MAX,
        };
        Ok(Part {
            depth: wanted.depth.unwrap_or(usize::MAX),
            start: bytes.start,
            end: bytes.end,
            count: usize::MAX,
        })
    }

    /// Leaves out all rows from an index on.
    pub fn end_at(&mut self, index: usize) {
        self.count = self.count.min(index);
    }

    /// Whether the row with an index is shown. The root always is.
    pub(crate) fn has(&self, index: usize, row: &Row) -> bool {
        let is_touched = row.start < self.end && row.end > self.start
            || row.start == row.end && self.start <= row.start && row.end <= self.end;
        row.depth == 0 || row.depth <= self.depth && index < self.count && is_touched
    }

    /// The line of a tree that begins with the row at an index: the row itself if it is shown, or else its node and the
    /// siblings after it that aren't shown either. And how many rows the line takes. The nodes above the row are shown.
    pub fn line_at(&self, rows: &[Row], index: usize) -> Option<(Line, usize)> {
        let row = rows.get(index)?;
        if self.has(index, row) {
            return Some((Line::Node(index), 1));
        }
        let mut hidden = Hidden {
            depth: row.depth,
            is_last: row.is_last,
            nodes: 0,
            start: row.start,
            end: row.end,
        };
        for next in rows.get(index..).unwrap_or(&[]) {
            let place = index.saturating_add(hidden.nodes);
            if next.depth < row.depth || next.depth == row.depth && self.has(place, next) {
                break;
            }
            hidden.nodes = hidden.nodes.saturating_add(1);
            hidden.end = hidden.end.max(next.end);
            hidden.is_last = hidden.is_last || next.depth == row.depth && next.is_last;
        }
        Some((Line::Hidden(hidden), hidden.nodes))
    }
}

/// The bytes of the lines from one to another, both from 1.
fn bytes_of(
    alloc: Global,
    text: &str,
    first: usize,
    last: usize,
) -> Result<Range<usize>, AllocError> {
    let lines = Lines::new(alloc, text)?;
    let begin = lines.line_to_range(text, first.saturating_sub(1));
    let finish = lines.line_to_range(text, last.saturating_sub(1));
    let start = begin.map_or(text.len(), |range| range.start);
    Ok(start..finish.map_or(text.len(), |range| range.end))
}
