//! The text of a page, in the leaves of its tree.

use crate::anchors::Anchors;
use crate::escaped::push_escaped;
use crate::step::Step;
use crate::writer::PageWriter;
use std::alloc::AllocError;
use std::ops::Range;
use std::rt::Files;
use typst_base::SyntaxKind;
use typst_shown::Problem;
use typst_shown::part::{Line, Part};

/// Adds the texts of the leaves, each in an element of its own, so that the script can mark it. The text of nodes that are
/// left out is in one element.
pub(crate) fn push_leaves<'a, R: Files + Print>(
    page: &mut PageWriter<'_, 'a, R>,
    step: &Step<'_>,
    part: &Part,
) -> Result<(), Problem<'a>> {
    let mut anchors = Anchors::new(step.number, &step.reported);
    let mut is_fresh = true;
    let mut next = 0usize;
    for _ in 0..step.rows.len() {
        page.pass_on()?;
        let Some((line, count)) = part.line_at(&step.rows, next) else {
            break;
        };
        next = next.saturating_add(count);
        if let Some((class, start, end)) = leaf_of(step, &line) {
            let out = &mut page.text;
            out.push_str(class)?;
            anchors.push(out, 't', next.saturating_sub(1))?;
            is_fresh = push_text(out, step.shown.text, start..end, is_fresh)?;
            out.push_str("</span>")?;
        }
    }
    Ok(())
}

/// The element of a line's text, and its bytes. None for an inner node.
fn leaf_of(step: &Step<'_>, line: &Line) -> Option<(&'static str, usize, usize)> {
    match line {
        Line::Hidden(hidden) => Some(("<span class=\"cut\">", hidden.start, hidden.end)),
        Line::Node(index) => {
            let row = step.rows.get(*index)?;
            match (row.is_inner, row.kind == SyntaxKind::Error) {
                (true, _) => None,
                (false, true) => Some(("<span class=\"bad\">", row.start, row.end)),
                (false, false) => Some(("<span>", row.start, row.end)),
            }
        }
    }
}

/// Adds some bytes of a text. Each line begins with an element that shows its number. `is_fresh` says whether these bytes
/// begin a line. Returns whether what comes after them does.
fn push_text(
    out: &mut String,
    text: &str,
    bytes: Range<usize>,
    is_fresh: bool,
) -> Result<bool, AllocError> {
    let mut is_fresh = is_fresh;
    let mut from = bytes.start;
    let own = text.get(bytes.start..bytes.end).unwrap_or("");
    for (at, c) in own.char_indices() {
        if is_fresh {
            out.push_str("<s></s>")?;
            is_fresh = false;
        }
        let end = bytes.start.saturating_add(at).saturating_add(c.len_utf8());
        let is_pair = c == '\r' && text.get(end..).is_some_and(|rest| rest.starts_with('\n'));
        if !ends_line(c) || is_pair {
            continue;
        }
        push_escaped(out, text.get(from..end).unwrap_or(""))?;
        if c != '\n' {
            out.push_str("<br>")?;
        }
        is_fresh = true;
        from = end;
    }
    push_escaped(out, text.get(from..bytes.end).unwrap_or(""))?;
    Ok(is_fresh)
}

/// Whether a character ends a line.
fn ends_line(c: char) -> bool {
    matches!(
        c,
        '\n' | '\r' | '\u{b}' | '\u{c}' | '\u{85}' | '\u{2028}' | '\u{2029}'
    )
}
