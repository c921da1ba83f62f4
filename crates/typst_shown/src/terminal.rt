//! Texts that are shown in the terminal.

use crate::asked::{Asked, Form};
use crate::carets::write_reports;
use crate::drawing::draw;
use crate::edits::NumberedEdit;
use crate::of_kind::write_of_kind;
use crate::plain::write_plain;
use crate::problem::Problem;
use crate::report::EditReport;
use crate::shown::Shown;
use crate::status::Status;
use crate::text::Text;
use crate::told::told_of;
use std::alloc::Global;
use std::io;
use std::io::{BufWriter, Write};
use std::rt::Files;

/// A way to draw trees.
pub trait Drawing {
    /// Draws a tree, one node per line, and marks the nodes that are new after an edit and those that it moved.
    fn draw<W: Write>(
        alloc: Global,
        out: &mut W,
        shown: &Shown<'_>,
        report: Option<&EditReport>,
    ) -> io::Result<()>;
}

/// The drawing with kinds, ranges, numbers and texts.
pub struct Branches;

impl Drawing for Branches {
    fn draw<W: Write>(
        alloc: Global,
        out: &mut W,
        shown: &Shown<'_>,
        report: Option<&EditReport>,
    ) -> io::Result<()> {
        draw(alloc, out, shown, report)
    }
}

/// Shows a text and its edits in the terminal, as a drawing or plainly.
pub fn show_text<'a, D: Drawing, R: Files + Input + Print + AllocGlobal>(
    rt: &R,
    asked: &Asked<'a>,
) -> Result<Status, Problem<'a>> {
    let alloc = rt.alloc();
    let (mut text, edits) = Text::read(rt, asked)?;
    let mut out = BufWriter::new(alloc, io::writer(rt))?;
    let done = match asked.form {
        Form::Plain => write_last(alloc, &mut out, &mut text, &edits),
        form => write_all::<D, _>(alloc, &mut out, &mut text, &edits, form),
    };
    let flushed = out.flush();
    done?;
    flushed?;
    Ok(Status::of_tree(text.shown().root))
}

/// Writes a text plainly, after all its edits.
fn write_last<'a, W: Write>(
    alloc: Global,
    out: &mut W,
    text: &mut Text<'a>,
    edits: &[NumberedEdit],
) -> Result<(), Problem<'a>> {
    for edit in edits {
        let _ = text.edit(alloc, edit)?;
    }
    write_plain(alloc, out, &text.shown())?;
    Ok(())
}

/// Draws a text, and draws it again after each edit.
fn write_all<'a, D: Drawing, W: Write>(
    alloc: Global,
    out: &mut W,
    text: &mut Text<'a>,
    edits: &[NumberedEdit],
    form: Form<'_>,
) -> Result<(), Problem<'a>> {
    write_tree::<D, _>(alloc, out, &text.shown(), None, form)?;
    for edit in edits {
        let report = text.edit(alloc, edit)?;
        let told = told_of(alloc, edit, &report)?;
        writeln!(out, "\n{told}\n")?;
        write_tree::<D, _>(alloc, out, &text.shown(), Some(&report), form)?;
    }
    Ok(())
}

/// Draws a tree, and writes its errors and warnings below it, or writes the nodes of a kind.
pub fn write_tree<D: Drawing, W: Write>(
    alloc: Global,
    out: &mut W,
    shown: &Shown<'_>,
    report: Option<&EditReport>,
    form: Form<'_>,
) -> io::Result<()> {
    if let Form::Kind(kind) = form {
        return write_of_kind(alloc, out, shown, kind, report);
    }
    D::draw(alloc, out, shown, report)?;
    write_reports(alloc, out, shown)
}
