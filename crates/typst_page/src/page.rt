//! A page for a browser. It shows a text next to its tree, and both again after each edit. The page is one file, and
//! reads well without scripts.

use crate::escaped::push_escaped;
use crate::leaves::push_leaves;
use crate::nodes::push_nodes;
use crate::numbers::{EditedNode, push_numbers};
use crate::page_parts::{HEAD, LEGEND, STYLE, TAIL};
use crate::reports::push_reports;
use crate::step::Step;
use crate::writer::PageWriter;
use std::alloc::{AllocError, Global};
use std::rt::Files;
use typst_shown::{EditReport, Problem, Shown};

/// Adds the beginning of a page about a file.
pub fn push_head(out: &mut String, file: &str) -> Result<(), AllocError> {
    out.push_str(HEAD)?;
    push_escaped(out, file)?;
    out.push_str(STYLE)?;
    out.push_str("<h1>")?;
    push_escaped(out, file)?;
    out.push_str("</h1>\n")?;
    out.push_str(LEGEND)
}

/// Adds the end of a page.
pub fn push_tail(out: &mut String) -> Result<(), AllocError> {
    out.push_str(TAIL)
}

/// Adds a heading of a step.
pub fn push_title(out: &mut String, title: &str) -> Result<(), AllocError> {
    out.push_str("<h2>")?;
    push_escaped(out, title)?;
    out.push_str("</h2>\n")
}

/// What an edit did.
#[derive(Clone, Copy)]
pub struct Done<'a> {
    /// The report of the edit.
    pub report: &'a EditReport,
    /// The node whose children were numbered anew, if any were.
    pub edited: Option<EditedNode<'a>>,
}

/// Adds a step: the numbers after an edit, errors and warnings, and the tree and the text. The first step has no edit. The
/// tree comes first, since it says which nodes are left out. A browser shows it after the text.
pub fn push_step<'a, R: Files + Print>(
    alloc: Global,
    page: &mut PageWriter<'_, 'a, R>,
    shown: &Shown<'_>,
    done: Option<Done<'_>>,
) -> Result<(), Problem<'a>> {
    let mut step = Step::new(alloc, page.steps, shown, done.map(|done| done.report))?;
    page.steps = page.steps.saturating_add(1);
    if let Some(
        Done {
            report,
            edited: Some(edited),
        },
    ) = done
    {
        push_numbers(&mut page.text, report, &edited)?;
    }
    let listed = push_reports(alloc, &mut page.text, &step)?;
    step.link(alloc, listed)?;
    page.text
        .push_str("<div class=\"pair\">\n<div class=\"tree\">\n")?;
    let part = push_nodes(alloc, page, &step)?;
    page.text.push_str("</div>\n<pre class=\"text\">")?;
    push_leaves(page, &step, &part)?;
    page.text.push_str("</pre>\n</div>\n")?;
    Ok(())
}
