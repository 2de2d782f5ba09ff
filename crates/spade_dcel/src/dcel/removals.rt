//! How far an open removal has come, and what it has given up.

ghost use Rattle.std.specs.Prelude.{◌≡◌, ◌↔◌, IsTrue};
ghost use Rattle.dcel_maps.specs.Conditions.{CanSwapRemove};
ghost use Rattle.dcel_maps.specs.Removals.{IsListed};
ghost use Rattle.dcel_record.specs.Record.{state_of};

use crate::dcel::Dcel;
use crate::operations::IsolateVertexResult;
use dcel_fixed::FixedVertexHandle;
use dcel_record::RemovalState;
use std::alloc::Allocator;

/// Removals.
impl<V, DE, UE, F, A: Allocator> Dcel<V, DE, UE, F, A> {
    /// Returns how far a removal has come.
    ///
    /// Either none is open, or one is open and not cleaned up, or one is cleaned up and its vertex
    /// is still there. Cleanup closes a removal that gave up no vertex.
    #[inline]
    pub fn removal_state(&self) -> RemovalState
        ensures { result ≡ state_of self.now.shape.removal }
    {
        self.removal.state()
    }

    /// Returns whether `opened` lists what an open removal has given up.
    ///
    /// The removal has to be open and not yet cleaned up. Each edge and each face that it gave up
    /// has to be listed once, in any order. The time is linear for lists in the order in which the
    /// elements were given up; for others it may grow with the square of their lengths.
    pub fn is_listed<B: Allocator>(&self, opened: &IsolateVertexResult<B>) -> bool
        ensures { IsTrue result ↔ IsListed self.now.shape.removal opened.now.edges_to_remove.items opened.now.faces_to_remove.items }
    {
        self.removal
            .lists(&opened.edges_to_remove, &opened.faces_to_remove)
    }

    /// Returns whether the vertex can be taken out.
    ///
    /// This is what [`swap_remove_vertex`](crate::operations::swap_remove_vertex) asks: no removal
    /// is open and the vertex is unconnected, or a removal is cleaned up and this is the vertex
    /// that it gave up. Any number may be given.
    pub fn can_swap_remove(&self, handle: FixedVertexHandle) -> bool
        ensures { IsTrue result ↔ CanSwapRemove self.now.shape handle }
    {
        match self.removal.state() {
            RemovalState::Closed => self.is_unconnected(handle),
            RemovalState::Isolated => false,
            RemovalState::Cleaned => self.removal.gives_up_vertex(handle),
        }
    }
}
