//! Assertions of rows. Each place that makes a message costs the proof of a test some seconds, so messages are made
//! only here.
use std::process::Abort;
use typst_drawn::DrawingError;

/// Asserts that a row holds, and says what it shows.
pub(crate) fn assert_row(rt: &impl Abort, shows: &str, holds: bool) {
    assert!(rt; holds, "{shows}");
}

/// Asserts that a row of a table holds, and says what it shows and the number that tells the row from others.
pub(crate) fn assert_at(rt: &impl Abort, shows: &str, number: usize, holds: bool) {
    assert!(rt; holds, "{shows} {number}");
}

/// Asserts that a row's text is the wanted one, and says what it shows.
pub(crate) fn assert_text(rt: &impl Abort, shows: &str, text: &str, wanted: &str) {
    assert_eq!(rt; text, wanted, "{shows}");
}

/// Asserts that the words for a row are the wanted ones, and says what it shows.
pub(crate) fn assert_said(
    rt: &impl Abort,
    shows: &str,
    said: Result<String, DrawingError>,
    wanted: &str,
) {
    match said {
        Ok(text) => assert_text(rt, shows, &text, wanted),
        Err(error) => panic!(rt; "{shows}: {error:?}"),
    }
}
