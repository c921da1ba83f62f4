//! Assertions of rows. A test is a table that it hands to one of these, or to one beside it. Each place that makes a
//! message, and each loop over rows, costs the proof of a test some seconds, so both are made only there.
use std::process::Abort;

/// Asserts that a row holds, and says which text and which number it is about.
pub(crate) fn assert_at(rt: &impl Abort, text: &str, number: usize, holds: bool) {
    assert!(rt; holds, "{text:?} {number}");
}

/// Asserts that a row about a line and a column holds, and says which they are.
pub(crate) fn assert_place(rt: &impl Abort, line: usize, column: usize, holds: bool) {
    assert!(rt; holds, "{line} {column}");
}

/// Asserts that the lines of a text begin where they should.
pub(crate) fn assert_starts(rt: &impl Abort, text: &str, starts: &[usize], wanted: &[usize]) {
    assert_eq!(rt; starts, wanted, "{text:?}");
}
