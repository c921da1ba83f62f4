//! Lines and places of a text that is only read.
ghost use Rattle.typst_lines.specs.LineTable.{AreLines};

use crate::asked::Asked;
use crate::drawn::place;
use crate::stopwatch::Stopwatch;
use crate::texts::text;
use anyhow::{Context, Result, ensure};
use std::alloc::Global;
use std::ops::Range;
use typst_language::Typst;
use typst_lines::{ColumnUnit, Lines};
use typst_source::Source;
use typst_tree::{DiagSpan, FileId, LinkedNode};

/// Asks for a place in each round. Returns the sum of the lines or of the bytes that were answered, or how many nodes were
/// found.
pub fn made(alloc: Global, watch: &mut Stopwatch<'_>, asked: Asked<'_>) -> Result<Option<usize>> {
    let text = text(alloc, asked.size)?;
    if asked.verb == "place_of" {
        return Ok(Some(placed(alloc, watch, &text, asked.rounds)?));
    }
    let lines = Lines::new(alloc, &text)?;
    watch.start()?;
    let sum = match asked.verb {
        "byte_to_line" => lines_of(&lines, &text, asked.rounds)?,
        _ => bytes_of(&lines, &text, asked.rounds)?,
    };
    watch.stop()?;
    Ok(Some(sum))
}

/// The sum of the lines of bytes that are spread over the text.
fn lines_of(lines: &Lines, text: &str, rounds: usize) -> Result<usize>
    requires { AreLines lines.now text.now }
{
    let mut sum = 0usize;
    for round in 0..rounds {
        let line = lines.byte_to_line(text, place(round, text.len()));
        sum = sum.saturating_add(line.context("the text is in ASCII")?);
    }
    Ok(sum)
}

/// The sum of the bytes where lines begin that are spread over the text.
fn bytes_of(lines: &Lines, text: &str, rounds: usize) -> Result<usize>
    requires { AreLines lines.now text.now }
{
    let count = lines.len_lines();
    let mut sum = 0usize;
    for round in 0..rounds {
        let byte = lines.line_column_to_byte(text, place(round, count), 0, ColumnUnit::Byte);
        sum = sum.saturating_add(byte.context("each line begins somewhere")?);
    }
    Ok(sum)
}

/// Asks for the places of nodes that are spread over the tree, which must be those of a walk over it.
fn placed(alloc: Global, watch: &mut Stopwatch<'_>, text: &str, rounds: usize) -> Result<usize> {
    let source = Source::new(alloc, FileId::FIRST, text, Typst)?;
    let nodes = nodes(alloc, &source)?;
    watch.start()?;
    for round in 0..rounds {
        let (span, range) = nodes
            .get(place(round, nodes.len()))
            .context("there is a node")?;
        ensure!(
            source.place_of(span).as_ref() == Some(range),
            "another place"
        );
    }
    watch.stop()?;
    Ok(rounds)
}

/// The spans and the ranges of all nodes.
fn nodes(alloc: Global, source: &Source<Typst>) -> Result<Vec<(DiagSpan, Range<usize>)>> {
    let mut all = Vec::new(alloc);
    for node in LinkedNode::new(source.root()).preorder(alloc)? {
        let node = node?;
        all.push((DiagSpan::from(node.get().span()), node.range()))?;
    }
    Ok(all)
}
