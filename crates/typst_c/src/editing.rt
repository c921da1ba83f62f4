//! Documents: texts that are edited together with their trees.
ghost use Rattle.std.specs.Prelude.{◌≡◌, Result};
ghost use Rattle.typst_c.specs.Calls.{Changes, Does, Told};
ghost use Rattle.typst_c.specs.Told.{IsEdit, line_ends_of, range_from, Tells};
ghost use Rattle.typst_session.specs.Documents.{Opens, EditsText, SetsLineEnds};
ghost use Rattle.typst_session.specs.declared.editing.TextChange.{TextChange};
ghost use Rattle.typst_session.specs.declared.refusal.Refusal.{Refusal};

use crate::handle::Handle;
use crate::told::{Edited, NOT_MADE, status, tell_edit};
use std::alloc::Global;
use typst_lines::LineEnds;

/// Parses a text of Typst, and makes it the document.
#[unsafe(no_mangle)]
pub extern "C" fn typst_open(alloc: Global, handle: &mut Handle, file: u16, text: &[u8]) -> u32
    ensures { Does (Opens file text.now) handle.old.at.value result handle.new.at.value }
{
    let Some(mut session) = handle.take(alloc) else {
        return NOT_MADE;
    };
    let outcome = session.open(alloc, file, text);
    handle.put(session);
    status(outcome)
}

/// The line ends with a number: 0 is all of Unicode, and any other number those of editors.
fn line_ends_from(number: u32) -> LineEnds
    ensures { result ≡ line_ends_of number }
{
    if number == 0 {
        LineEnds::Unicode
    } else {
        LineEnds::Editor
    }
}

/// Takes other line ends for the document's text.
#[unsafe(no_mangle)]
pub extern "C" fn typst_set_line_ends(alloc: Global, handle: &mut Handle, ends: u32) -> u32
    ensures { Does (SetsLineEnds (line_ends_of ends)) handle.old.at.value result handle.new.at.value }
{
    let Some(mut session) = handle.take(alloc) else {
        return NOT_MADE;
    };
    let outcome = session.set_line_ends(alloc, line_ends_from(ends));
    handle.put(session);
    status(outcome)
}

/// Replaces the document's bytes from `from` up to, not including, `to` by a text.
#[unsafe(no_mangle)]
pub extern "C" fn typst_edit(
    alloc: Global,
    handle: &mut Handle,
    from: usize,
    to: usize,
    with: &[u8],
    edited: &mut Edited,
) -> u32
    ensures { Changes (edited.new ≡ edited.old) (λ s t. Told (Tells IsEdit edited.old edited.new result)
        (λ outcome. EditsText (range_from from to) with.now s outcome t))
        handle.old.at.value result handle.new.at.value }
{
    let Some(mut session) = handle.take(alloc) else {
        return NOT_MADE;
    };
    let outcome = session.edit(alloc, from..to, with);
    handle.put(session);
    tell_edit(outcome, edited)
}
