//! What is kept across calls, and the heap that it is in.

use dcel_constrained::ConstrainedTriangulation;
use dcel_delaunay::Triangulation;
use dcel_replay::{Answer, Replay};
use lent_heap::Heap;

/// A Delaunay triangulation in memory of the host.
pub type Points = Triangulation<&'static Heap>;

/// A constrained Delaunay triangulation in memory of the host.
pub type Constrained = ConstrainedTriangulation<&'static Heap>;

/// A mesh that lines edit, in memory of the host.
#[derive(Drop)]
pub struct Conversation {
    pub(crate) replay: Replay<&'static Heap>,
    /// What the last line is answered; `None` before the first one.
    pub(crate) last: Option<Answer<&'static Heap>>,
}

/// What is kept.
#[derive(Drop)]
pub enum Thing {
    /// Nothing: it was freed.
    Nothing,
    /// A Delaunay triangulation.
    Delaunay(Points),
    /// A constrained Delaunay triangulation.
    Constrained(Constrained),
    /// A mesh that lines edit.
    Mesh(Conversation),
}

/// What is kept, and the heap that it is in.
///
/// A desk stays where it is, and is used again once what is on it is freed.
#[derive(Drop)]
pub struct Desk {
    pub(crate) heap: &'static Heap,
    pub(crate) thing: Thing,
}
