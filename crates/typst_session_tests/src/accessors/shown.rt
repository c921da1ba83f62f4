//! What an accessor answers, in words.
use std::alloc::{AllocError, Global};
use std::process::Abort;
use std::test::Fail;
use typst_accessors::{Accessor, Answer};
use typst_drawn::drawn;

/// An answer in words.
fn shown(alloc: Global, answer: &Answer) -> Result<String, AllocError> {
    match answer {
        Answer::Nothing => String::from_str(alloc, "none"),
        Answer::Flag(flag) => format!(in alloc; "{flag}"),
        Answer::Natural(number) => format!(in alloc; "{number}"),
        Answer::Integer(value) => format!(in alloc; "{value}"),
        Answer::Character(character) => format!(in alloc; "{character:?}"),
        Answer::Text(text) => format!(in alloc; "{text:?}"),
        Answer::Owned(text) => format!(in alloc; "owned {text:?}"),
        Answer::Node(node) => format!(in alloc; "{node:?}"),
    }
}

/// What an accessor answers of the tree that a drawing shows, or `no accessor`.
pub(crate) fn answer(
    alloc: Global,
    accessor: u32,
    drawing: &str,
    index: usize,
) -> Result<String, Fail> {
    let tree = drawn(alloc, drawing)?;
    let Some(accessor) = Accessor::of_number(accessor) else {
        return Ok(String::from_str(alloc, "no accessor")?);
    };
    match accessor.answer(alloc, &tree, index) {
        Ok(answer) => Ok(shown(alloc, &answer)?),
        Err(error) => Err(error.into()),
    }
}

/// Asserts that the answer is the wanted one.
pub(crate) fn assert_answer(rt: &impl Abort, shows: &str, said: &str, wanted: &str) {
    assert_eq!(rt; said, wanted, "{shows}");
}

/// The parts of a row.
fn parts(row: &str) -> Option<(u32, usize, &str, &str)> {
    let (accessor, rest) = row.split_once('|')?;
    let (index, rest) = rest.split_once('|')?;
    let (drawing, wanted) = rest.split_once('|')?;
    Some((accessor.parse().ok()?, index.parse().ok()?, drawing, wanted))
}

/// Asserts that each accessor answers what it should. A line has the number of an accessor, an index, a tree, and the
/// answer.
pub(crate) fn assert_rows(rt: &(impl Abort + AllocGlobal), rows: &str) -> Result<(), Fail> {
    for row in rows.lines() {
        let (accessor, index, drawing, wanted) = parts(row).ok_or("no row")?;
        let said = answer(rt.alloc(), accessor, drawing, index)?;
        assert_answer(rt, row, said.as_str(), wanted);
    }
    Ok(())
}
