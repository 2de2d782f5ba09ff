//! The faults that end a run early.

use thiserror::Error;

/// The reason why a run stopped early.
#[derive(Debug, Drop, Error)]
pub enum RunFault {
    /// The source failed.
    #[error("read failed")]
    Read,
    /// The sink failed.
    #[error("write failed")]
    Write,
    /// There was no memory for the first mesh.
    #[error("out of memory")]
    Memory,
}
