//! Shows the tree that a script or a look builds.

use crate::WithAnswers;
use crate::built::build;
use crate::language::Language;
use crate::problem::ShowProblem;
use std::alloc::Global;
use std::io;
use std::io::{BufWriter, Write};
use typst_page::PageWriter;
use typst_page::page::{push_head, push_step, push_tail};
use typst_shown::plain::write_plain;
use typst_shown::reading::read;
use typst_shown::terminal::{Branches, write_tree as tree_in_terminal};
use typst_shown::{Asked, Form, Problem, Shown, Status};

/// Builds a tree, and shows it.
pub(crate) fn show_script<'a>(
    rt: &HostRuntime,
    asked: &Asked<'a>,
    language: Language,
) -> Result<Status, ShowProblem<'a>> {
    let alloc = rt.alloc();
    let file = asked.file;
    if asked.edits.is_some() {
        return Err(ShowProblem::NoText { file });
    }
    let tree = build(alloc, file, language, &read(rt, file)?)?;
    let root = tree.root();
    let text = match root.full_text(alloc) {
        Ok(text) => text,
        Err(error) => return Err(ShowProblem::Shared(Problem::from(error))),
    };
    let shown = Shown {
        file,
        text: &text,
        root,
        wanted: asked.wanted,
        manner: asked.manner,
    };
    show_tree(rt, asked.form, &shown)?;
    Ok(Status::of_tree(root))
}

/// Shows a tree, on a page or in the terminal.
fn show_tree<'a>(rt: &HostRuntime, form: Form<'a>, shown: &Shown<'_>) -> Result<(), Problem<'a>> {
    let alloc = rt.alloc();
    if let Form::Page(page) = form {
        let mut writer = PageWriter::in_pieces(rt, page);
        push_page(alloc, &mut writer, shown)?;
        return writer.write();
    }
    let mut out = BufWriter::new(alloc, io::writer(rt))?;
    let done = write_tree(alloc, &mut out, form, shown);
    let flushed = out.flush();
    done?;
    flushed?;
    Ok(())
}

/// Adds a page of a tree.
fn push_page<'a>(
    alloc: Global,
    page: &mut PageWriter<'_, 'a, HostRuntime>,
    shown: &Shown<'_>,
) -> Result<(), Problem<'a>> {
    push_head(&mut page.text, shown.file)?;
    push_step(alloc, page, shown, None)?;
    push_tail(&mut page.text)?;
    Ok(())
}

/// Writes a tree in the form that is asked for.
fn write_tree<W: Write>(
    alloc: Global,
    out: &mut W,
    form: Form<'_>,
    shown: &Shown<'_>,
) -> io::Result<()> {
    match form {
        Form::Plain => write_plain(alloc, out, shown),
        Form::Views => tree_in_terminal::<WithAnswers, _>(alloc, out, shown, None, form),
        _ => tree_in_terminal::<Branches, _>(alloc, out, shown, None, form),
    }
}
