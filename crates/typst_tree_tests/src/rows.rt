//! Assertions of rows. Each place that makes a message costs the proof of a test some seconds, so messages are made
//! only here. A test hands a table to a function that loops over its rows, so that the test holds none of them.
use std::process::Abort;

/// Asserts that a row's text is the wanted one, and says what it shows and by which way the text came.
pub(crate) fn assert_text(rt: &impl Abort, shows: &str, way: &str, text: &str, wanted: &str) {
    assert_eq!(rt; text, wanted, "{shows}, {way}");
}
