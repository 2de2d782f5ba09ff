//! The removal record: what an open removal has given up, so that every call can test what is live.
//! `spade_dcel` keeps one in each mesh. Start with [`RemovalRecord`].
//!
//! Contracts see it as the removal of a mesh, `Removal` of `dcel_maps/specs/Removals`.
#![tactic(auto)]

ghost use Rattle.std.specs.Prelude.{◌≡◌, ◌↔◌, IfOk, OnOk, OnErr, IsTrue};
ghost use Rattle.dcel_maps.specs.Removals.{Closed, opened_with, gives_up_vertex, gives_up_edge, gives_up_face, IsInOrder, IsListed};
ghost use Rattle.dcel_maps.specs.Renumbering.{cleaned};
ghost use Rattle.dcel_record.specs.Lists.{edges_of, faces_of};
ghost use Rattle.dcel_record.specs.Record.{state_of};

mod given_up;
mod sorting;

use dcel_fixed::{
    FaceTag, FixedFaceHandle, FixedUndirectedEdgeHandle, FixedVertexHandle, InnerTag,
    UndirectedEdgeTag,
};
use given_up::GivenUp;
use std::alloc::{AllocError, Allocator};
use std::marker::Model;

/// How far the removal of a mesh has come.
#[derive(Clone, Copy, PartialEq, Eq, Debug)]
pub enum RemovalState {
    /// No removal is open.
    Closed,

    /// A removal is open; what it has given up is still stored, and has to be cleaned up.
    Isolated,

    /// A removal is open; the edges and faces that it gave up are gone, and its vertex has still to
    /// be taken out. A removal without a vertex is closed instead.
    Cleaned,
}

/// What an open removal has given up.
///
/// Nothing if no removal is open. Otherwise edges and faces, and a vertex if there is one, until
/// they are cleaned up, and then only the vertex.
#[derive(Drop)]
pub struct RemovalRecord<A: Allocator> {
    state: State,
    // The elements given up, until the removal is cleaned up. Their memory is kept for the next
    // one.
    edges: GivenUp<UndirectedEdgeTag, A>,
    faces: GivenUp<FaceTag, A>,
}

#[derive(Clone, Copy)]
enum State {
    Closed,
    // None if a region of faces is given up without a vertex.
    Isolated(Option<FixedVertexHandle>),
    Cleaned(FixedVertexHandle),
}

impl<A: Allocator> Model for RemovalRecord<A> {
    ghost use Rattle.dcel_maps.specs.Removals.{Removal};

    ghost Value = { Removal };

    ghost use Rattle.dcel_record.specs.Record.{removal_of};

    ghost view = { λ stored. removal_of stored.state stored.edges stored.faces };
}

impl<A: Allocator + Clone> RemovalRecord<A> {
    /// Creates the record of a mesh in which no removal is open.
    ///
    /// Later calls allocate by two clones of `alloc`. This one only clones it, and returns
    /// `AllocError` only if that fails.
    pub fn closed(alloc: &A) -> Result<Self, AllocError>
        ensures { IfOk result (λ closed. closed ≡ Closed) }
    {
        let edges = GivenUp::none(alloc.clone()?);
        let faces = GivenUp::none(alloc.clone()?);
        Ok(RemovalRecord {
            state: State::Closed,
            edges,
            faces,
        })
    }
}

impl<A: Allocator> RemovalRecord<A> {
    /// Opens a removal, which gives up these edges and faces, and the vertex if there is one.
    ///
    /// The lists may be in any order. Asks that no removal is open
    /// ([`is_closed`](Self::is_closed)). It allocates once for the edges and once for the faces, if
    /// earlier removals had fewer. If memory runs out it returns `AllocError`, and no removal is
    /// open.
    pub fn open(
        &mut self,
        edges: &[FixedUndirectedEdgeHandle],
        faces: &[FixedFaceHandle<InnerTag>],
        vertex: &Option<FixedVertexHandle>,
    ) -> Result<(), AllocError>
        requires { self.old ≡ Closed }
        ensures opened { OnOk result (self.new ≡ opened_with edges.now faces.now vertex.now) }
        ensures refused { OnErr result (self.new ≡ self.old) }
    {
        self.edges.give_up(edges)?;
        self.faces.give_up(faces)?;
        self.state = State::Isolated(*vertex);
        Ok(())
    }

    /// Closes the removal, if one is open. It does not allocate, and keeps its memory.
    #[inline]
    pub fn close(&mut self)
        ensures { self.new ≡ Closed }
    {
        self.state = State::Closed;
    }

    /// Forgets the edges and faces, since they are gone.
    ///
    /// The vertex stays given up. If there is none, the removal is closed.
    pub fn clean_up(&mut self)
        ensures { self.new ≡ cleaned self.old }
    {
        if let State::Isolated(given_up) = self.state {
            self.state = match given_up {
                Some(vertex) => State::Cleaned(vertex),
                None => State::Closed,
            };
        }
    }

    /// Returns whether no removal is open.
    #[inline]
    pub fn is_closed(&self) -> bool
        ensures { IsTrue result ↔ (self.now ≡ Closed) }
    {
        matches!(self.state, State::Closed)
    }

    /// Returns how far the removal has come.
    #[inline]
    pub fn state(&self) -> RemovalState
        ensures { result ≡ state_of self.now }
    {
        match self.state {
            State::Closed => RemovalState::Closed,
            State::Isolated(_) => RemovalState::Isolated,
            State::Cleaned(_) => RemovalState::Cleaned,
        }
    }

    /// Returns whether the lists name all edges and faces that are given up and not yet gone.
    ///
    /// They name each once, in any order, and nothing else; if no removal is open or it was cleaned
    /// up, the result is false. Asks that no element was given up twice. The time is linear for lists
    /// in the order in which the elements were given up; for others it may grow with the square of
    /// their lengths.
    pub fn lists(
        &self,
        edges: &[FixedUndirectedEdgeHandle],
        faces: &[FixedFaceHandle<InnerTag>],
    ) -> bool
        requires { IsInOrder self.now }
        ensures { IsTrue result ↔ IsListed self.now edges.now faces.now }
    {
        match self.state {
            State::Isolated(_) => self.edges.matches(edges) && self.faces.matches(faces),
            _ => false,
        }
    }

    /// Returns the edges that are given up and not yet gone, in ascending order.
    #[inline]
    pub fn edges(&self) -> &[FixedUndirectedEdgeHandle]
        ensures { result.now ≡ edges_of self.now }
    {
        match self.state {
            State::Isolated(_) => self.edges.as_slice(),
            _ => &[],
        }
    }

    /// Returns the faces that are given up and not yet gone, in ascending order.
    #[inline]
    pub fn faces(&self) -> &[FixedFaceHandle<InnerTag>]
        ensures { result.now ≡ faces_of self.now }
    {
        match self.state {
            State::Isolated(_) => self.faces.as_slice(),
            _ => &[],
        }
    }

    /// Returns whether the vertex is given up.
    #[inline]
    #[tactic(auto, unfolding(dcel_maps::specs::Removals::gives_up_vertex))]
    pub fn gives_up_vertex(&self, vertex: FixedVertexHandle) -> bool
        ensures { result ≡ gives_up_vertex self.now vertex }
    {
        match self.state {
            State::Closed => false,
            State::Isolated(given_up) => given_up == Some(vertex),
            State::Cleaned(given_up) => given_up == vertex,
        }
    }

    /// Returns whether the edge is given up and not yet gone.
    #[inline]
    #[tactic(auto, unfolding(dcel_maps::specs::Removals::gives_up_edge))]
    pub fn gives_up_edge(&self, edge: FixedUndirectedEdgeHandle) -> bool
        ensures { result ≡ gives_up_edge self.now edge }
    {
        match self.state {
            State::Isolated(_) => self.edges.contains(&edge),
            _ => false,
        }
    }

    /// Returns whether the face is given up and not yet gone.
    #[inline]
    #[tactic(auto, unfolding(dcel_maps::specs::Removals::gives_up_face))]
    pub fn gives_up_face(&self, face: FixedFaceHandle<InnerTag>) -> bool
        ensures { result ≡ gives_up_face self.now face }
    {
        match self.state {
            State::Isolated(_) => self.faces.contains(&face),
            _ => false,
        }
    }
}

impl<A: Allocator + Clone> RemovalRecord<A> {
    /// Returns a copy in memory of clones of `alloc`, or `AllocError` if there is none.
    pub fn try_clone(&self, alloc: &A) -> Result<Self, AllocError>
        ensures { IfOk result (λ copy. copy ≡ self.now) }
    {
        let mut copy = Self::closed(alloc)?;
        if let State::Isolated(_) = self.state {
            copy.edges = self.edges.try_clone(alloc.clone()?)?;
            copy.faces = self.faces.try_clone(alloc.clone()?)?;
        }
        copy.state = self.state;
        Ok(copy)
    }
}
