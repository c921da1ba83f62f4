//! How calls end.
use std::alloc::{AllocError, AllocFailed};
use typst_base::MapperError;
use typst_drawn::DrawingError;
use typst_node::{InnerError, ReplaceError};
use typst_source::SourceError;
use typst_tree::EditError;

/// How a call that was made ended.
#[derive(Clone, Copy, Debug, PartialEq, Eq)]
pub enum End {
    /// Memory was refused, the call said so by this error, and what it borrowed is as it was.
    Refused(Refusal),
    /// Memory was refused, and what the call borrowed has changed.
    Changed,
    /// Nothing was refused, and the answer is the right one.
    Whole,
    /// The answer is neither a refusal of memory nor the right one.
    Wrong,
}

/// The error by which a call says that memory was refused.
#[derive(Clone, Copy, Debug, PartialEq, Eq)]
pub enum Refusal {
    /// `AllocError`
    AllocError,
    /// `Memory`, of the errors that have other cases too.
    Memory,
    /// `NoMemory`, the reply to a search.
    NoMemory,
}

/// Why a call wasn't made.
#[derive(Clone, Copy, Debug, PartialEq, Eq)]
pub enum Stop {
    /// Memory was refused before the call.
    Early,
    /// This number of requests was granted before one was refused.
    Spent(u64),
}

/// Why a call gave no answer.
#[derive(Clone, Copy, Debug, PartialEq, Eq)]
pub enum Fault {
    /// Memory ran out.
    Refused(Refusal),
    /// Another reason, which no call has.
    Other,
}

impl End {
    /// The end of a call that answered. `right` says whether the answer was right.
    pub fn answered(right: bool) -> End {
        if right { End::Whole } else { End::Wrong }
    }

    /// The end of a call that gave no answer. `same` says whether what the call borrowed is as it was.
    pub fn failed(fault: Fault, same: bool) -> End {
        match fault {
            Fault::Other => End::Wrong,
            Fault::Refused(refusal) => {
                if same {
                    End::Refused(refusal)
                } else {
                    End::Changed
                }
            }
        }
    }

    /// The end as it is printed.
    pub fn words(self) -> &'static str {
        match self {
            End::Refused(Refusal::AllocError) => "AllocError",
            End::Refused(Refusal::Memory) => "Memory",
            End::Refused(Refusal::NoMemory) => "NoMemory",
            End::Changed => "changed",
            End::Whole => "whole",
            End::Wrong => "wrong",
        }
    }
}

/// # Where memory is refused before a call
impl From<AllocError> for Stop {
    fn from(_: AllocError) -> Stop {
        Stop::Early
    }
}

impl<T: Drop> From<AllocFailed<T>> for Stop {
    fn from(_: AllocFailed<T>) -> Stop {
        Stop::Early
    }
}

impl From<InnerError> for Stop {
    fn from(_: InnerError) -> Stop {
        Stop::Early
    }
}

impl From<DrawingError> for Stop {
    fn from(_: DrawingError) -> Stop {
        Stop::Early
    }
}

impl From<SourceError> for Stop {
    fn from(_: SourceError) -> Stop {
        Stop::Early
    }
}

impl From<Fault> for Stop {
    fn from(_: Fault) -> Stop {
        Stop::Early
    }
}

/// # Where it is refused in a call
impl From<AllocError> for Fault {
    fn from(_: AllocError) -> Fault {
        Fault::Refused(Refusal::AllocError)
    }
}

impl From<InnerError> for Fault {
    fn from(error: InnerError) -> Fault {
        match error {
            InnerError::Memory => Fault::Refused(Refusal::Memory),
            InnerError::Overflow => Fault::Other,
        }
    }
}

impl From<ReplaceError> for Fault {
    fn from(error: ReplaceError) -> Fault {
        match error {
            ReplaceError::Memory => Fault::Refused(Refusal::Memory),
            ReplaceError::Overflow | ReplaceError::Unnumberable => Fault::Other,
        }
    }
}

impl From<EditError> for Fault {
    fn from(error: EditError) -> Fault {
        match error {
            EditError::Refused(error) => Fault::from(error),
            EditError::NoNode { .. } | EditError::Leaf | EditError::Range { .. } => Fault::Other,
        }
    }
}

impl From<MapperError> for Fault {
    fn from(error: MapperError) -> Fault {
        match error {
            MapperError::Memory => Fault::Refused(Refusal::Memory),
            MapperError::InvalidSegment { .. } => Fault::Other,
        }
    }
}

impl From<SourceError> for Fault {
    fn from(error: SourceError) -> Fault {
        match error {
            SourceError::Memory => Fault::Refused(Refusal::Memory),
            SourceError::Overflow | SourceError::Unnumberable => Fault::Other,
        }
    }
}
