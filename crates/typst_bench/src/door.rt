//! Edits of a text through the session that a handle of the C interface holds.
use crate::asked::Asked;
use crate::stopwatch::Stopwatch;
use crate::texts::{LETTER, bytes, middle, text};
use anyhow::Result;
use std::alloc::Global;
use std::ops::Range;
use typst_session::Session;

/// In each round, inserts a letter in the middle of a text and removes it. Returns how many bytes were parsed anew.
pub fn made(alloc: Global, watch: &mut Stopwatch<'_>, asked: Asked<'_>) -> Result<Option<usize>> {
    let text = text(alloc, asked.size)?;
    let mut session = Session::new(alloc);
    session.open(alloc, 1, text.as_bytes())?;
    let at = middle(asked.size).saturating_add(LETTER);
    let mut seen = 0usize;
    watch.start()?;
    for _ in 0..asked.rounds {
        let come = put(alloc, &mut session, at..at, b"x")?;
        let gone = put(alloc, &mut session, at..at.saturating_add(1), b"")?;
        seen = seen.saturating_add(come).saturating_add(gone);
    }
    watch.stop()?;
    Ok(Some(seen))
}

/// Replaces a range of bytes by a text, and returns how many bytes were parsed anew.
fn put(alloc: Global, session: &mut Session, range: Range<usize>, with: &[u8]) -> Result<usize> {
    let done = session.edit(alloc, range, with)?;
    Ok(bytes(&done.reparsed))
}
