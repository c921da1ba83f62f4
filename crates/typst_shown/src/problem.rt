//! What can go wrong, as it is reported on standard error.

use crate::misfit::Misfit;
use crate::status::Status;
use std::alloc::{AllocError, AllocFailed};
use std::io;
use std::io::ErrorKind;
use thiserror::Error;
use typst_source::SourceError;

/// Why nothing more is shown.
#[derive(Debug, Drop, Error)]
pub enum Problem<'a> {
    #[error("standard input can't be both the text and its edits: name a file for one of them")]
    TwoInputs,
    #[error("--kind {name}: there is no such kind: docs/KINDS.md lists them, as in --kind Heading")]
    NoKind {
        name: &'a str,
    },
    #[error("--lines {word}: expected a first and a last line, which count from 1, as in --lines 3-8")]
    NoLines {
        word: &'a str,
    },
    #[error("{file}: there is no such file")]
    NoFile {
        file: &'a str,
    },
    #[error("{file}: this is a folder: name a file")]
    Folder {
        file: &'a str,
    },
    #[error("{file}: cannot read it: {error}")]
    Read {
        file: &'a str,
        error: io::Error,
    },
    #[error("{file}: this isn't UTF-8 text: no character begins at byte {byte}")]
    NotText {
        file: &'a str,
        byte: usize,
    },
    #[error("{file}: this file has more than {most} bytes, the most that can be shown: split it")]
    TooLarge {
        file: &'a str,
        most: u64,
    },
    #[error("{file}:{line}:{column}: expected {expected}; an edit is written 7..12 \"text\" or 2:5..2:9 \"text\"")]
    BadEdit {
        file: &'a str,
        line: usize,
        column: usize,
        expected: &'static str,
    },
    #[error("{file}:{line}: {misfit}")]
    Misfit {
        file: &'a str,
        line: usize,
        misfit: Misfit,
    },
    #[error("{file}: {error}")]
    Refused {
        file: &'a str,
        error: SourceError,
    },
    #[error("out of memory")]
    Memory,
    #[error("{file}: cannot write it: {error}")]
    Save {
        file: &'a str,
        error: io::Error,
    },
    #[error("cannot write: {0}")]
    Write(io::Error),
}

impl<'a> Problem<'a> {
    /// How `./show` ends after this problem.
    pub fn status(&self) -> Status {
        match self {
            Problem::TwoInputs
            | Problem::NoKind { .. }
            | Problem::NoLines { .. }
            | Problem::BadEdit { .. }
            | Problem::Misfit { .. } => Status::Wrong,
            Problem::NoFile { .. }
            | Problem::Folder { .. }
            | Problem::Read { .. }
            | Problem::NotText { .. }
            | Problem::TooLarge { .. }
            | Problem::Refused { .. }
            | Problem::Memory
            | Problem::Save { .. }
            | Problem::Write(_) => Status::Failed,
        }
    }

    /// A file can't be opened or read.
    pub fn of_reading(file: &'a str, error: io::Error) -> Problem<'a> {
        match error.kind() {
            ErrorKind::OutOfMemory => Problem::Memory,
            ErrorKind::NotFound => Problem::NoFile { file },
            ErrorKind::IsADirectory => Problem::Folder { file },
            _ => Problem::Read { file, error },
        }
    }

    /// A file can't be written.
    pub fn of_saving(file: &'a str, error: io::Error) -> Problem<'a> {
        match error.kind() {
            ErrorKind::OutOfMemory => Problem::Memory,
            ErrorKind::IsADirectory => Problem::Folder { file },
            _ => Problem::Save { file, error },
        }
    }

    /// A text isn't parsed, or an edit of it isn't done.
    pub fn of_source(file: &'a str, error: SourceError) -> Problem<'a> {
        match error {
            SourceError::Memory => Problem::Memory,
            SourceError::Overflow | SourceError::Unnumberable => Problem::Refused { file, error },
        }
    }
}

/// Only writing gives an `io::Error` that isn't about a file.
impl<'a> From<io::Error> for Problem<'a> {
    /// The problem of an error of writing.
    fn from(error: io::Error) -> Problem<'a> {
        match error.kind() {
            ErrorKind::OutOfMemory => Problem::Memory,
            _ => Problem::Write(error),
        }
    }
}

impl<'a> From<AllocError> for Problem<'a> {
    /// Memory was refused.
    fn from(_: AllocError) -> Problem<'a> {
        Problem::Memory
    }
}

impl<'a, T: Drop> From<AllocFailed<T>> for Problem<'a> {
    /// Memory was refused.
    fn from(_: AllocFailed<T>) -> Problem<'a> {
        Problem::Memory
    }
}
