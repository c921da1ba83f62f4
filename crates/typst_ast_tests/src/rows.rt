//! Assertions of rows. Each place that makes a message costs the proof of a test some seconds, so messages are made
//! only here.
use std::process::Abort;

/// Asserts that a row holds, and says what it shows.
pub(crate) fn assert_row(rt: &impl Abort, shows: &str, holds: bool) {
    assert!(rt; holds, "{shows}");
}

/// Asserts that each row holds: what it shows, and whether it does.
pub(crate) fn assert_all(rt: &impl Abort, rows: &[(&str, bool)]) {
    for (shows, holds) in rows {
        assert_row(rt, shows, *holds);
    }
}

/// Asserts that a row's text is the wanted one, and says what it shows.
pub(crate) fn assert_text(rt: &impl Abort, shows: &str, text: &str, wanted: &str) {
    assert_eq!(rt; text, wanted, "{shows}");
}

/// Asserts that each text is the wanted one: what a row shows, its text and the wanted one.
pub(crate) fn assert_texts(rt: &impl Abort, rows: &[(&str, &str, &str)]) {
    for (shows, text, wanted) in rows {
        assert_text(rt, shows, text, wanted);
    }
}

/// Asserts that what is said about the kind with a number is what is wanted.
pub(crate) fn assert_told(rt: &impl Abort, number: u8, told: (bool, bool), wanted: (bool, bool)) {
    assert_eq!(rt; told, wanted, "kind {number}");
}
