//! What is wrong with a line.

use dcel_commands::commands::Refusal;
use std::alloc::AllocError;
use thiserror::Error;

/// What is wrong with a line.
#[derive(Clone, Copy, PartialEq, Eq, Debug, Drop, Error)]
pub enum Wrong {
    /// It is neither a command nor a query.
    #[error("bad line")]
    BadLine,
    /// The mesh refuses it.
    #[error("refused, {}", .0.name())]
    Refused(Refusal),
    /// There was no memory.
    #[error("out of memory")]
    OutOfMemory(#[from(alloc)] AllocError),
}
