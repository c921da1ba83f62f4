//! The texts of errors.
use crate::rows::assert_text;
use std::alloc::{AllocError, Global};
use std::test::Fail;
use typst_node::{InnerError, ReplaceError, SynthesizeError, Unnumberable};

/// An error.
enum Of {
    Inner(InnerError),
    Number(Unnumberable),
    Replace(ReplaceError),
    Synthesize(SynthesizeError),
}

/// Errors and their texts.
const TEXTS: [(Of, &str); 7] = [
    (
        Of::Number(Unnumberable),
        "cannot number within this interval",
    ),
    (
        Of::Synthesize(SynthesizeError::TooLong { text: 6, mapper: 5 }),
        "text length (6) is greater than mapper length (5)",
    ),
    (Of::Inner(InnerError::Overflow), "the tree is too large"),
    (Of::Inner(InnerError::Memory), "out of memory"),
    (
        Of::Replace(ReplaceError::Unnumberable),
        "no window of children has room for new numbers",
    ),
    (Of::Replace(ReplaceError::Overflow), "the tree is too large"),
    (Of::Replace(ReplaceError::Memory), "out of memory"),
];

/// An error as it is printed.
fn text(alloc: Global, of: &Of) -> Result<String, AllocError> {
    match of {
        Of::Inner(error) => format!(in alloc; "{error}"),
        Of::Number(error) => format!(in alloc; "{error}"),
        Of::Replace(error) => format!(in alloc; "{error}"),
        Of::Synthesize(error) => format!(in alloc; "{error}"),
    }
}

#[test]
fn errors_print_their_texts(rt: HostRuntime) -> Result<(), Fail> {
    for (of, wanted) in &TEXTS {
        let said = text(rt.alloc(), of)?;
        assert_text(&rt, "an error", &said, wanted);
    }
    Ok(())
}
