//! The places of a page that its links lead to.

use std::alloc::AllocError;

/// The rows that links lead to, and those of them that come next.
#[derive(Clone, Copy)]
pub(crate) struct Anchors<'s> {
    /// The steps before this one.
    step: usize,
    /// The indices of the rows that come next, in order.
    rest: &'s [usize],
}

impl<'s> Anchors<'s> {
    /// The rows of a step, in order.
    pub(crate) fn new(step: usize, reported: &'s [usize]) -> Anchors<'s> {
        Anchors {
            step,
            rest: reported,
        }
    }

    /// Whether a link leads to one of the rows up to an index.
    pub(crate) fn is_at(&self, index: usize) -> bool {
        self.rest.first().is_some_and(|first| *first <= index)
    }

    /// Adds an anchor for each row up to an index. Its name begins with `part`: `n` for the tree, and `t` for the text.
    pub(crate) fn push(
        &mut self,
        out: &mut String,
        part: char,
        index: usize,
    ) -> Result<(), AllocError> {
        let step = self.step;
        let mut last = None;
        for _ in 0..self.rest.len() {
            let Some((row, rest)) = self.rest.split_first() else {
                break;
            };
            if index < *row {
                break;
            }
            if last != Some(*row) {
                write!(out, "<a id=\"{part}{step}-{row}\"></a>")?;
            }
            last = Some(*row);
            self.rest = rest;
        }
        Ok(())
    }
}
