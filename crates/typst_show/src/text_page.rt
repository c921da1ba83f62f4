//! Pages of texts.

use std::alloc::Global;
use typst_linked::node_at;
use typst_node::{SyntaxNode, Touched};
use typst_page::page::{Done, push_head, push_step, push_tail, push_title};
use typst_page::{Change, EditedNode, PageWriter};
use typst_shown::told::told_of;
use typst_shown::{Asked, EditReport, NumberedEdit, Problem, Shown, Status, Text};
use typst_source::Edited;

/// Writes a page of a text to its file. With edits nothing is written before the page is whole, since an edit may not fit.
pub(crate) fn save_page<'a>(
    rt: &HostRuntime,
    asked: &Asked<'a>,
    page: &'a str,
) -> Result<Status, Problem<'a>> {
    let (mut text, edits) = Text::read(rt, asked)?;
    let mut writer = if edits.is_empty() {
        PageWriter::in_pieces(rt, page)
    } else {
        PageWriter::whole(rt, page)
    };
    push_page(rt.alloc(), &mut writer, asked.file, &mut text, &edits)?;
    writer.write()?;
    Ok(Status::of_tree(text.shown().root))
}

/// Adds a page of a text, and of the text again after each edit.
fn push_page<'a>(
    alloc: Global,
    page: &mut PageWriter<'_, 'a, HostRuntime>,
    file: &str,
    text: &mut Text<'a>,
    edits: &[NumberedEdit],
) -> Result<(), Problem<'a>> {
    push_head(&mut page.text, file)?;
    push_step(alloc, page, &text.shown(), None)?;
    for edit in edits {
        let old = text.shown().root.clone()?;
        let report = text.edit(alloc, edit)?;
        push_title(&mut page.text, &told_of(alloc, edit, &report)?)?;
        push_edited(alloc, page, &text.shown(), &old, &report)?;
    }
    push_tail(&mut page.text)?;
    Ok(())
}

/// Adds a text and its tree after an edit, with the numbers of the children that the edit changed.
fn push_edited<'a>(
    alloc: Global,
    page: &mut PageWriter<'_, 'a, HostRuntime>,
    shown: &Shown<'_>,
    old: &SyntaxNode,
    report: &EditReport,
) -> Result<(), Problem<'a>> {
    let Edited {
        path,
        touched,
        reparsed,
        ..
    } = &report.done;
    let (Touched::Window(renumbered), Some(was), Some(node)) = (
        touched,
        node_at(old, path),
        node_at(shown.root, path),
    ) else {
        let done = Done {
            report,
            edited: None,
        };
        return push_step(alloc, page, shown, Some(done));
    };
    // All of the text of a node below the root was parsed anew.
    let bytes = if path.is_empty() {
        reparsed.start..reparsed.end
    } else {
        0..node.len()
    };
    let done = Done {
        report,
        edited: Some(EditedNode {
            node,
            renumbered,
            change: &Change::between(was, node, &bytes),
        }),
    };
    push_step(alloc, page, shown, Some(done))
}
