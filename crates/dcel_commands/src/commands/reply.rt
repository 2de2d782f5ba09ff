//! The replies to commands, and their refusals, which return the data.

use crate::refusal::Refusal;
use dcel_fixed::{FixedDirectedEdgeHandle, FixedVertexHandle};
use dcel_legalize::Legalized;
use spade_dcel::operations::{IsolateVertexResult, RemovalResult};
use std::alloc::{AllocError, Allocator, Global};

/// The reply to a command that was carried out.
#[derive(Drop)]
pub enum Reply<V, A: Allocator = Global> {
    /// Done; the command has nothing to report.
    Ok,
    /// The vertex that was added, or that an edge now leads to.
    Vertex(FixedVertexHandle),
    /// A half edge that was added.
    Half(FixedDirectedEdgeHandle),
    /// The two parts of a half edge that was split, in order.
    Halves([FixedDirectedEdgeHandle; 2]),
    /// What the removal that is now open has given up, and the edges that it has added.
    Opened(IsolateVertexResult<A>),
    /// The vertex that was taken out.
    Removed(RemovalResult<V>),
    /// How many edges were flipped, and how that ended.
    Flips(Legalized),
}

/// The data that a refused command carried, in their order.
#[derive(Debug, Drop, PartialEq, Eq)]
pub enum Handed<V> {
    /// It carried none.
    Nothing,
    /// It carried one.
    One(V),
    /// It carried three.
    Three(V, V, V),
}

/// The refusal of a command, with the data that it carried.
#[derive(Debug, Drop, PartialEq, Eq)]
pub struct Refused<V> {
    /// The reason.
    pub why: Refusal,
    /// The data that the command carried.
    pub back: Handed<V>,
}

impl<V> From<Refusal> for Refused<V> {
    ghost use Rattle.std.specs.Prelude.{◌≡◌};
    ghost use Rattle.dcel_commands.specs.Replies.{bare};

    ghost from_gives = { λ why refused. refused ≡ bare why };

    /// Refuses a command that carried no datum.
    fn from(why: Refusal) -> Refused<V> {
        Refused {
            why,
            back: Handed::Nothing,
        }
    }
}

impl<V> From<AllocError> for Refused<V> {
    ghost use Rattle.std.specs.Prelude.{◌≡◌};
    ghost use Rattle.dcel_commands.specs.Replies.{bare};
    ghost use Rattle.dcel_commands.specs.declared.refusal.Refusal.TheVariants.{OutOfMemory};

    ghost from_gives = { λ _ refused. refused ≡ bare OutOfMemory };

    /// Refuses a command that carried no datum, because memory ran out.
    fn from(_error: AllocError) -> Refused<V> {
        Refused::from(Refusal::OutOfMemory)
    }
}
