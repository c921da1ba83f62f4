//! What can go wrong, as it is reported on standard error.

use crate::bad_line::BadLine;
use thiserror::Error;
use typst_shown::{Problem, Status};

/// Why nothing more is shown.
#[derive(Debug, Drop, Error)]
pub(crate) enum ShowProblem<'a> {
    /// A problem that a text may have too.
    #[error("{0}")]
    Shared(Problem<'a>),
    #[error("{file}: --edits edits a text, but this is a script: edit its tree by its own lines `replace` and `run`")]
    NoText {
        file: &'a str,
    },
    #[error("{file}:{line}: {bad}")]
    BadLine {
        file: &'a str,
        line: u64,
        bad: BadLine,
    },
    #[error("{file}:{line}: after this line nodes nest in more than {most} levels, the most that can be shown")]
    TooDeep {
        file: &'a str,
        line: u64,
        most: usize,
    },
    #[error("{file}: there is no tree at the end: put `root` after the line that makes the last node")]
    NoTree {
        file: &'a str,
    },
    #[error("{file}: the tree has more bytes or nodes than can be counted or numbered")]
    TooManyNodes {
        file: &'a str,
    },
}

impl<'a> ShowProblem<'a> {
    /// How `./show` ends after this problem.
    pub(crate) fn status(&self) -> Status {
        match self {
            ShowProblem::Shared(problem) => problem.status(),
            ShowProblem::NoText { .. }
            | ShowProblem::BadLine { .. }
            | ShowProblem::TooDeep { .. }
            | ShowProblem::NoTree { .. } => Status::Wrong,
            ShowProblem::TooManyNodes { .. } => Status::Failed,
        }
    }
}

impl<'a> From<Problem<'a>> for ShowProblem<'a> {
    /// The problem that a text may have too.
    fn from(problem: Problem<'a>) -> ShowProblem<'a> {
        ShowProblem::Shared(problem)
    }
}
