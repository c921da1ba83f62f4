//! The assertion of rows. Each place that makes a message costs the proof some seconds, so messages are made only here.
use std::alloc::{AllocError, Global};
use std::fmt::Debug;
use std::process::Abort;
use std::test::Fail;
use typst_lexer::{Lexer, Mode};

/// Asserts that what is found in a text is what should be.
pub(crate) fn assert_in<T: Debug + PartialEq>(rt: &impl Abort, text: &str, found: &T, wanted: &T) {
    assert_eq!(rt; *found, *wanted, "in {text:?}");
}

/// The tokens that are left, one after the other: the kind and the text of each.
pub(crate) fn shown(alloc: Global, left: Lexer) -> Result<String, AllocError> {
    let mut shown = String::new(alloc);
    let mut lexer = left;
    while let Some(token) = lexer.next() {
        write!(shown, "{:?}[{}]", token.kind, token.text)?;
    }
    Ok(shown)
}

/// Asserts that each of the texts has the tokens that are next to it.
pub(crate) fn are_cut(
    rt: &impl Abort,
    alloc: Global,
    mode: Mode,
    rows: &[(&str, &str)],
) -> Result<(), Fail> {
    for (text, want) in rows {
        let tokens = shown(alloc, Lexer::new(text, mode))?;
        assert_in(rt, text, &tokens.as_str(), want);
    }
    Ok(())
}
