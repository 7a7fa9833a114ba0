use meta_types::DefinitionError;
use std::alloc::{AllocError, AllocFailed};
use std::io::{self, ErrorKind};
use std::num::ParseIntError;

/// Why a line has no answer of its own.
#[derive(Clone, Copy)]
pub enum Trouble {
    /// The line asks nothing.
    BadLine,
    /// What the line asks can't be asked.
    NoCase,
    /// Two calls that have to agree don't.
    Differ,
    /// Memory ran out.
    OutOfMemory,
}

/// Whether what a line asks was written.
pub type Answer = Result<(), Trouble>;

impl From<AllocError> for Trouble {
    fn from(_error: AllocError) -> Trouble {
        Trouble::OutOfMemory
    }
}

impl<T: Drop> From<AllocFailed<T>> for Trouble {
    fn from(_failed: AllocFailed<T>) -> Trouble {
        Trouble::OutOfMemory
    }
}

impl From<DefinitionError> for Trouble {
    fn from(fault: DefinitionError) -> Trouble {
        match fault {
            DefinitionError::OutOfMemory => Trouble::OutOfMemory,
            _ => Trouble::NoCase,
        }
    }
}

impl From<ParseIntError> for Trouble {
    fn from(_error: ParseIntError) -> Trouble {
        Trouble::BadLine
    }
}

impl From<Trouble> for io::Error {
    fn from(trouble: Trouble) -> io::Error {
        match trouble {
            Trouble::OutOfMemory => io::Error::from(ErrorKind::OutOfMemory),
            Trouble::BadLine | Trouble::NoCase | Trouble::Differ => {
                io::Error::from(ErrorKind::InvalidInput)
            }
        }
    }
}
