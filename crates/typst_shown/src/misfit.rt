//! Edits that don't fit their text.

use thiserror::Error;

/// Why an edit can't be done.
#[derive(Clone, Copy, Debug, PartialEq, Eq, Error)]
pub enum Misfit {
    #[error("the edit {end} at byte {byte}, but the text has only {len} bytes")]
    Beyond {
        end: &'static str,
        byte: usize,
        len: usize,
    },
    #[error("the edit {end} at byte {byte}, inside the character at bytes {first}..{behind}")]
    Within {
        end: &'static str,
        byte: usize,
        first: usize,
        behind: usize,
    },
    #[error("the edit {end} in line {line}, but the text has only {lines} lines")]
    NoLine {
        end: &'static str,
        line: usize,
        lines: usize,
    },
    #[error("the edit {end} at {line}:{column}, but line {line} has only {chars} characters")]
    NoColumn {
        end: &'static str,
        line: usize,
        column: usize,
        chars: usize,
    },
    #[error("the edit ends at byte {end}, before its start at byte {start}")]
    Backwards {
        start: usize,
        end: usize,
    },
}
