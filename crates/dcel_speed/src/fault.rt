//! Why a run stopped.

use spade_dcel::operations::NoMemory;
use std::alloc::{AllocError, AllocFailed};
use std::fmt;
use std::io::{self, ErrorKind};

/// Why a mesh was not built. It fits a register, so returning one costs an edit nothing.
#[derive(Clone, Copy)]
pub enum BuildError {
    /// There is no memory.
    NoMemory,

    /// The size asks for more elements than there are numbers.
    NoRoom,

    /// None of the edges drawn can be split, or there is an edge before the first one.
    NoEdge,
}

impl From<AllocError> for BuildError {
    fn from(_error: AllocError) -> BuildError {
        BuildError::NoMemory
    }
}

impl<T: Drop> From<AllocFailed<T>> for BuildError {
    fn from(_refused: AllocFailed<T>) -> BuildError {
        BuildError::NoMemory
    }
}

impl<T: Drop> From<NoMemory<T>> for BuildError {
    fn from(_refused: NoMemory<T>) -> BuildError {
        BuildError::NoMemory
    }
}

/// Why a run stopped before its end.
#[derive(Drop)]
pub enum Fault {
    /// A mesh, or a list of the arguments, was not built.
    Build(BuildError),

    /// The program doesn't know an argument.
    BadArguments,

    /// An argument asks how the program is used.
    Help,

    /// A read of the clock or of the arguments failed, or a write.
    Io(io::Error),
}

impl Fault {
    /// Returns whether nobody reads the output any more.
    pub fn is_end_of_reader(&self) -> bool {
        match self {
            Fault::Io(error) => error.kind() == ErrorKind::BrokenPipe,
            _ => false,
        }
    }
}

impl fmt::Display for Fault {
    fn fmt<W: fmt::Write>(&self, f: &mut fmt::Formatter<W>) -> fmt::Result {
        if let Fault::Io(error) = self {
            return write!(f, "{error}");
        }
        f.write_str(match self {
            Fault::Build(BuildError::NoMemory) => "out of memory",
            Fault::Build(BuildError::NoRoom) => "the size is too large",
            Fault::Build(BuildError::NoEdge) => "no edge to split was drawn",
            _ => "usage: dcel_speed [WORKLOAD,WORKLOAD.. [SIZE,SIZE.. [full] [checksums]]]",
        })
    }
}

impl From<BuildError> for Fault {
    fn from(error: BuildError) -> Fault {
        Fault::Build(error)
    }
}

impl From<AllocError> for Fault {
    fn from(error: AllocError) -> Fault {
        Fault::Build(BuildError::from(error))
    }
}

impl From<io::Error> for Fault {
    fn from(error: io::Error) -> Fault {
        Fault::Io(error)
    }
}
