//! What ends the program early.

use thiserror::Error;
use typst_script::Fault;

/// Why nothing more is carried out.
#[derive(Clone, Copy, Debug, PartialEq, Eq, Error)]
pub(crate) enum RunProblem {
    /// The first word names no task, or there is none.
    #[error("write `script` or `look` first, and then the files to carry out, or none for standard input")]
    NoTask,
    /// A script or a look can't be carried out, or a file can't be read.
    #[error("{0}")]
    Fault(Fault),
}

impl RunProblem {
    /// The status that the program ends with.
    pub(crate) fn exit_status(&self) -> u8 {
        match self {
            RunProblem::NoTask => 2,
            RunProblem::Fault(fault) => fault.exit_status(),
        }
    }
}

impl From<Fault> for RunProblem {
    fn from(fault: Fault) -> RunProblem {
        RunProblem::Fault(fault)
    }
}
