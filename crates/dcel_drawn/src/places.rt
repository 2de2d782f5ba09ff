//! Where vertices stand, and where edges bend.

ghost use Rattle.std.specs.Prelude.{◌≡◌};
ghost use Rattle.dcel_drawn.specs.Drawn.{entry_of};

use crate::bend::Bend;
use crate::place::Place;
use std::alloc::{Allocator, Global};

/// Where the vertices of a mesh stand, and where its edges bend, by their numbers.
#[derive(Drop)]
pub struct Places<B: Allocator = Global> {
    /// The place of each vertex. One without a place is drawn at the side.
    pub vertices: Vec<Option<Place>, B>,
    /// How each edge that is an arc goes round. The others are straight.
    pub bends: Vec<Option<Bend>, B>,
}

impl<B: Allocator> Places<B> {
    /// Returns the place of a vertex, if it has one.
    pub fn vertex(&self, number: usize) -> Option<Place>
        ensures { result ≡ entry_of self.now.vertices.items number }
    {
        match self.vertices.get(number) {
            Some(place) => *place,
            None => None,
        }
    }

    /// Returns how an edge goes round, if it is an arc.
    pub fn bend(&self, edge: usize) -> Option<Bend>
        ensures { result ≡ entry_of self.now.bends.items edge }
    {
        match self.bends.get(edge) {
            Some(bend) => *bend,
            None => None,
        }
    }
}
