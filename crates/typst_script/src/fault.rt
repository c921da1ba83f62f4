//! What stops a script, and how the program then ends.
ghost use Rattle.std.specs.Prelude.{◌≡◌, ◌≢◌};
ghost use Rattle.std.specs.IoError.{error_kind};
ghost use Rattle.typst_script.specs.Fault.{status_of, IsWriteFault};
ghost use Rattle.typst_script.specs.declared.fault.Fault.TheVariants.{Memory, Read, Write};

use std::alloc::{AllocError, AllocFailed};
use std::io;
use std::io::ErrorKind;
use thiserror::Error;

/// What stops a script.
#[derive(Clone, Copy, Debug, PartialEq, Eq, Error)]
pub enum Fault {
    /// A line is no command, or asks for nodes or a tree that aren't there. Lines count from 1.
    #[error("line {line}: bad command")]
    BadCommand { line: u64 },
    /// The reader failed, a line isn't UTF-8, or the script is too long.
    #[error("cannot read")]
    Read,
    /// The writer failed.
    #[error("cannot write")]
    Write,
    /// A request for memory was refused.
    #[error("no memory")]
    Memory,
    /// The text length or the node count of a new node doesn't fit in a `usize`.
    #[error("overflow")]
    Overflow,
}

impl Fault {
    /// The status that the program ends with.
    pub fn exit_status(&self) -> u8
        ensures { result ≡ status_of self.now }
    {
        match self {
            Fault::BadCommand { .. } => 2,
            Fault::Read | Fault::Write | Fault::Memory | Fault::Overflow => 1,
        }
    }

    /// A fault of reading, or that memory ran out while reading.
    pub fn of_reading(error: io::Error) -> Fault
        ensures memory { error_kind error ≡ ErrorKind.OutOfMemory → result ≡ Memory }
        ensures other { error_kind error ≢ ErrorKind.OutOfMemory → result ≡ Read }
    {
        match error.kind() {
            ErrorKind::OutOfMemory => Fault::Memory,
            _ => Fault::Read,
        }
    }

    /// A fault of writing, or that memory ran out while writing.
    pub fn of_writing(error: io::Error) -> Fault
        ensures memory { error_kind error ≡ ErrorKind.OutOfMemory → result ≡ Memory }
        ensures other { error_kind error ≢ ErrorKind.OutOfMemory → result ≡ Write }
        ensures either { IsWriteFault result }
    {
        match error.kind() {
            ErrorKind::OutOfMemory => Fault::Memory,
            _ => Fault::Write,
        }
    }
}

impl From<AllocError> for Fault {
    ghost from_gives = { λ _ fault. fault ≡ Memory };

    fn from(_: AllocError) -> Fault {
        Fault::Memory
    }
}

impl<T: Drop> From<AllocFailed<T>> for Fault {
    ghost from_gives = { λ _ fault. fault ≡ Memory };

    fn from(_: AllocFailed<T>) -> Fault {
        Fault::Memory
    }
}
