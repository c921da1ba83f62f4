//! A step of a page: a text with its tree, at first or after an edit.

use std::alloc::{AllocError, Global};
use typst_base::DiagSpanKind;
use typst_node::SyntaxDiagnostic;
use typst_shown::places::{LineColumn, places_of};
use typst_shown::{EditReport, Row, Shown, rows};

/// What a step shows.
#[derive(Drop)]
pub(crate) struct Step<'s> {
    /// The steps before it.
    pub(crate) number: usize,
    pub(crate) shown: Shown<'s>,
    pub(crate) report: Option<&'s EditReport>,
    pub(crate) rows: Vec<Row>,
    /// Where the text of each row begins.
    pub(crate) places: Vec<LineColumn>,
    /// The errors and then the warnings.
    pub(crate) found: Vec<SyntaxDiagnostic>,
    /// The indices of the rows that the listed ones of these are about, in order. A row may come twice.
    pub(crate) reported: Vec<usize>,
}

impl<'s> Step<'s> {
    /// What a step shows of a text, with the report of the edit that left it.
    pub(crate) fn new(
        alloc: Global,
        number: usize,
        shown: &Shown<'s>,
        report: Option<&'s EditReport>,
    ) -> Result<Step<'s>, AllocError> {
        let rows = rows(alloc, shown.root)?;
        let places = places_of(alloc, shown.text, &rows)?;
        let (mut found, warnings) = shown.root.errors_and_warnings(alloc)?;
        for warning in warnings {
            found.push(warning)?;
        }
        Ok(Step {
            number,
            shown: *shown,
            report,
            rows,
            places,
            found,
            reported: Vec::new(alloc),
        })
    }

    /// Notes the rows that the first errors and warnings are about, so many as the page lists. Links lead to these rows.
    pub(crate) fn link(&mut self, alloc: Global, listed: usize) -> Result<(), AllocError> {
        let mut reported = Vec::new(alloc);
        for report in self.found.iter().take(listed) {
            if let Some(index) = row_of(&self.rows, report) {
                reported.push(index)?;
            }
        }
        reported.sort()?;
        self.reported = reported;
        Ok(())
    }
}

/// The index of the row that an error or a warning is about. In preorder the numbers grow.
pub(crate) fn row_of(rows: &[Row], found: &SyntaxDiagnostic) -> Option<usize> {
    let DiagSpanKind::Number { num, .. } = found.span.get() else {
        return None;
    };
    let index = rows.partition_point(|row| row.number < num.0);
    match rows.get(index) {
        Some(row) if row.number == num.0 => Some(index),
        _ => None,
    }
}
