//! How far a drawing has come.

use std::alloc::{AllocError, Global};
use std::io;
use std::io::Write;

/// The nodes from a child of the root down to the last one that was drawn.
#[derive(Drop)]
pub struct Trail {
    /// Whether each of these nodes is the last sibling.
    are_last: Vec<bool>,
}

impl Trail {
    /// A trail with nothing drawn.
    pub fn new(alloc: Global) -> Trail {
        Trail {
            are_last: Vec::new(alloc),
        }
    }

    /// Moves on to a line with so many nodes above it, which may be the last one below its parent. Lines come in preorder.
    pub fn go_to(&mut self, depth: usize, is_last: bool) -> Result<(), AllocError> {
        let Some(above) = depth.checked_sub(1) else {
            return Ok(());
        };
        self.are_last.truncate(above);
        self.are_last.push(is_last)?;
        Ok(())
    }

    /// Draws the branches that lead to the node.
    pub fn draw<W: Write>(&self, out: &mut W) -> io::Result<()> {
        let Some((is_last, above)) = self.are_last.split_last() else {
            return Ok(());
        };
        draw_past(out, above)?;
        out.write_all(if *is_last { "└─ " } else { "├─ " }.as_bytes())
    }

    /// Draws the branches that pass next to what is written about the node below its line.
    pub fn draw_below<W: Write>(&self, out: &mut W, has_children: bool) -> io::Result<()> {
        draw_past(out, &self.are_last)?;
        out.write_all(if has_children { "│  " } else { "   " }.as_bytes())
    }
}

/// Draws the branches that pass next to some nodes, each of which may be the last sibling.
fn draw_past<W: Write>(out: &mut W, are_last: &[bool]) -> io::Result<()> {
    for is_last in are_last {
        out.write_all(if *is_last { "   " } else { "│  " }.as_bytes())?;
    }
    Ok(())
}
