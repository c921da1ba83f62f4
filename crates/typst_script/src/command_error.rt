//! Why a command isn't done, whatever its line.
ghost use Rattle.std.specs.Prelude.{◌≡◌, ◌≢◌};
ghost use Rattle.std.specs.IoError.{error_kind};
ghost use Rattle.std.specs.declared.io.ErrorKind.TheVariants.{OutOfMemory};
ghost use Rattle.typst_script.specs.CommandError.{IsPrintError, error_of, fault_at};
ghost use Rattle.typst_script.specs.declared.command_error.CommandError.TheVariants.{Memory, Write};

use crate::fault::Fault;
use std::alloc::{AllocError, AllocFailed};
use std::io;
use std::io::ErrorKind;
use thiserror::Error;
use typst_tree::InnerError;

/// Why a command isn't done. [`CommandError::at`] makes it the fault of the command's line.
#[derive(Clone, Copy, Debug, PartialEq, Eq, Error)]
pub enum CommandError {
    /// It asks for nodes or a tree that aren't there.
    #[error("bad command")]
    Bad,
    /// The writer failed.
    #[error("cannot write")]
    Write,
    /// A request for memory was refused.
    #[error("no memory")]
    Memory,
    /// The text length or the node count of a new node doesn't fit in a `usize`.
    #[error("overflow")]
    Overflow,
}

impl CommandError {
    /// The fault of the line with this number, which holds the command.
    pub fn at(self, line: u64) -> Fault
        ensures { result ≡ fault_at line self }
    {
        match self {
            CommandError::Bad => Fault::BadCommand { line },
            CommandError::Write => Fault::Write,
            CommandError::Memory => Fault::Memory,
            CommandError::Overflow => Fault::Overflow,
        }
    }
}

impl From<io::Error> for CommandError {
    ghost from_gives = { λ error given. (error_kind error ≡ OutOfMemory → given ≡ Memory)
        × (error_kind error ≢ OutOfMemory → given ≡ Write) × IsPrintError given };

    fn from(error: io::Error) -> CommandError {
        match error.kind() {
            ErrorKind::OutOfMemory => CommandError::Memory,
            _ => CommandError::Write,
        }
    }
}

impl From<AllocError> for CommandError {
    ghost from_gives = { λ _ given. given ≡ Memory };

    fn from(_: AllocError) -> CommandError {
        CommandError::Memory
    }
}

impl<T: Drop> From<AllocFailed<T>> for CommandError {
    ghost from_gives = { λ _ given. given ≡ Memory };

    fn from(_: AllocFailed<T>) -> CommandError {
        CommandError::Memory
    }
}

impl From<InnerError> for CommandError {
    ghost from_gives = { λ error given. given ≡ error_of error };

    fn from(error: InnerError) -> CommandError {
        match error {
            InnerError::Overflow => CommandError::Overflow,
            InnerError::Memory => CommandError::Memory,
        }
    }
}
