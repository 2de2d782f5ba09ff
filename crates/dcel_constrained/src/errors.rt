//! Why a segment was not made a constraint or joined, and why points and segments were not loaded.

ghost use Rattle.dcel_constrained.specs.Loading.{IsInsertionFailure, IsReasonFor};

use dcel_delaunay::{RemovalError, Removed};
use dcel_planar::InsertionError;
use spade_dcel::handles::{FixedUndirectedEdgeHandle, FixedVertexHandle};
use std::alloc::{AllocError, Allocator, Global};
use thiserror::Error;

/// Why a segment was not made one of marked edges.
///
/// With any other error than `OutOfMemory` no edge is marked that wasn't, and a whole triangulation
/// is as it was.
#[derive(Drop)]
pub enum ConstraintError<A: Allocator = Global> {
    /// One of its ends is no vertex.
    NoVertex,
    /// These marked edges are in its way, each once: it would cross them, and no others.
    Blocked(Vec<FixedUndirectedEdgeHandle, A>),
    /// There was no memory, or no number for an edge. If the segment can be added, parts of it may be
    /// marked.
    OutOfMemory,
}

/// Why points and segments were not loaded. Segments have their numbers, from 0 on.
#[derive(Clone, Copy, PartialEq, Eq, Debug, Drop, Error)]
pub enum LoadError {
    /// An end of this segment is the number of no point.
    #[error("segment {0} ends at no point")]
    NoPoint(usize),
    /// This segment crosses an earlier one, in a point that is an end of neither.
    #[error("segment {0} crosses an earlier one")]
    Crosses(usize),
    /// In a triangulation of some of the points no numbers are left for another vertex, three edges
    /// and two faces.
    #[error("there are too many points")]
    TooManyPoints,
    /// There was no memory, or no number for an edge.
    #[error("out of memory")]
    OutOfMemory,
}

/// Why a vertex was not removed with the constraint through it joined, or not all was done.
#[derive(Clone, Copy, PartialEq, Eq, Debug, Drop, Error)]
pub enum JoinError {
    /// The vertex was not removed; or it was, no constraint went straight through it, and edges are
    /// left to be flipped.
    #[error("{0}")]
    Removal(RemovalError),
    /// The vertex is gone, but there was no memory to join the constraint that went through it.
    #[error("the vertex is removed, but its constraint isn't joined")]
    NotJoined(Unjoined),
}

/// A vertex that was removed, and the segment that is to be joined where it was.
#[derive(Clone, Copy, PartialEq, Eq, Debug, Drop)]
pub struct Unjoined {
    /// What was removed.
    pub removed: Removed,
    /// The vertex where the segment starts, by its number now.
    pub from: FixedVertexHandle,
    /// The vertex where it ends.
    pub to: FixedVertexHandle,
}

impl From<AllocError> for LoadError {
    ghost use Rattle.std.specs.Prelude.{◌≡◌};
    ghost use Rattle.dcel_constrained.specs.declared.errors.LoadError.TheVariants.{OutOfMemory};

    ghost from_gives = { λ _ error. error ≡ OutOfMemory };

    fn from(_: AllocError) -> Self {
        LoadError::OutOfMemory
    }
}

/// Returns why points were not loaded that could not all be inserted.
pub(crate) fn not_inserted(error: InsertionError) -> LoadError
    ensures { IsInsertionFailure error result }
{
    match error {
        InsertionError::TooManyPoints => LoadError::TooManyPoints,
        InsertionError::OutOfRange => LoadError::OutOfMemory,
        InsertionError::OutOfMemory => LoadError::OutOfMemory,
        InsertionError::Unfinished => LoadError::OutOfMemory,
    }
}

/// Returns why the segment of this number was not loaded that could not be added.
pub(crate) fn not_added<A: Allocator>(error: ConstraintError<A>, number: usize) -> LoadError
    ensures { IsReasonFor number error result }
{
    match error {
        ConstraintError::NoVertex => LoadError::NoPoint(number),
        ConstraintError::Blocked(_) => LoadError::Crosses(number),
        ConstraintError::OutOfMemory => LoadError::OutOfMemory,
    }
}
