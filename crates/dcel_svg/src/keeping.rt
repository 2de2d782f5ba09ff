//! Places that a mesh keeps from those of another picture.

use crate::bowing::bow;
use crate::given_up::{set_aside, set_given_up};
use crate::spreading::{has_edge, has_places, lies_well, spread};
use dcel_drawn::{Place, Places};
use spade_dcel::dcel::Dcel;
use spade_dcel::handles::{FixedFaceHandle, FixedUndirectedEdgeHandle, InnerTag};
use std::alloc::{AllocError, Allocator};

/// Up to how many edges are compared with one another.
const COMPARED: usize = 600;

/// How far an edge has to be from another, as a part of its length.
const CLEAR: f64 = 0.04;

/// Finds places for the vertices of a mesh, as [`spread`] does, but keeps those that are given if
/// all of the mesh can be drawn there with straight edges.
///
/// They are kept if each vertex with an edge has one, each triangle goes round counterclockwise,
/// and no edge crosses or touches another. What an open removal has given up stands among its
/// neighbors of `before` where no place is given for it. Places of vertices without an edge are
/// left out. With more than 600 edges the mesh gets places of its own. If memory runs out it
/// returns `AllocError`.
pub fn spread_near<V, DE, UE, F, A: Allocator, B: Allocator + Copy>(
    alloc: B,
    mesh: &Dcel<V, DE, UE, F, A>,
    before: Option<&Dcel<V, DE, UE, F, A>>,
    given: &Places<B>,
) -> Result<Places<B>, AllocError> {
    let mut places = Places {
        vertices: Vec::new(alloc),
        bends: Vec::new(alloc),
    };
    for number in 0..mesh.num_vertices() {
        let place = given
            .vertex(number)
            .filter(|_| is_drawn(mesh, before, number));
        places.vertices.push(place)?;
    }
    if !is_well_drawn(mesh, &places) || !are_clear(&sides_of(alloc, mesh, &places)?) {
        return spread(alloc, mesh, before);
    }
    if let Some(before) = before {
        if !has_places(before, &places) {
            set_given_up(mesh, before, &mut places.vertices);
        }
        set_aside(mesh, before, &mut places.vertices);
    }
    bow(alloc, mesh, before, &mut places)?;
    Ok(places)
}

/// Returns whether a vertex has an edge, or had one before.
fn is_drawn<V, DE, UE, F, A: Allocator>(
    mesh: &Dcel<V, DE, UE, F, A>,
    before: Option<&Dcel<V, DE, UE, F, A>>,
    vertex: usize,
) -> bool {
    has_edge(mesh, vertex) || before.is_some_and(|before| has_edge(before, vertex))
}

/// Returns whether vertices have places, and triangles go round counterclockwise, in a mesh that isn't
/// too large to be compared.
fn is_well_drawn<V, DE, UE, F, A: Allocator, B: Allocator>(
    mesh: &Dcel<V, DE, UE, F, A>,
    places: &Places<B>,
) -> bool {
    if mesh.num_undirected_edges() > COMPARED || !has_places(mesh, places) {
        return false;
    }
    for number in 1..mesh.num_faces() {
        let face: FixedFaceHandle<InnerTag> = FixedFaceHandle::new(number);
        if !lies_well(mesh, face, places) {
            return false;
        }
    }
    true
}

/// A straight edge between two vertices.
#[derive(Clone, Copy)]
struct Side {
    vertices: [usize; 2],
    from: Place,
    to: Place,
}

/// Lists the live edges of a mesh whose ends have places.
fn sides_of<V, DE, UE, F, A: Allocator, B: Allocator + Copy>(
    alloc: B,
    mesh: &Dcel<V, DE, UE, F, A>,
    places: &Places<B>,
) -> Result<Vec<Side, B>, AllocError> {
    let mut sides = Vec::new(alloc);
    for number in 0..mesh.num_undirected_edges() {
        let half = FixedUndirectedEdgeHandle::new(number).as_directed();
        if let Some(edge) = mesh.get_directed_edge(half) {
            let (from, to) = (edge.from().index(), edge.to().index());
            if let (Some(start), Some(end)) = (places.vertex(from), places.vertex(to)) {
                sides.push(Side {
                    vertices: [from, to],
                    from: start,
                    to: end,
                })?;
            }
        }
    }
    Ok(sides)
}

/// Returns whether no edge touches another but at a vertex of both.
fn are_clear(sides: &[Side]) -> bool {
    for (number, side) in sides.iter().enumerate() {
        if side.touches_one_of(sides, number) {
            return false;
        }
    }
    true
}

impl Side {
    /// Returns whether the edge touches one of the first of these but at a vertex of both.
    fn touches_one_of(self, sides: &[Side], count: usize) -> bool {
        for other in sides.iter().take(count) {
            if self.touches(*other) {
                return true;
            }
        }
        false
    }

    fn way(self) -> Place {
        self.to.minus(self.from)
    }

    /// Returns the same edge from the other end.
    fn turned(self) -> Side {
        let [first, second] = self.vertices;
        Side {
            vertices: [second, first],
            from: self.to,
            to: self.from,
        }
    }

    /// Returns whether two edges touch but at a vertex of both, or all but do.
    fn touches(self, other: Side) -> bool {
        let [first, second] = self.vertices;
        let [third, fourth] = other.vertices;
        match (
            first == third || first == fourth,
            second == third || second == fourth,
        ) {
            (true, true) => true,
            (true, false) => lies_along(self.way(), other.way_from(first)),
            (false, true) => lies_along(self.turned().way(), other.way_from(second)),
            (false, false) => !self.is_clear_of(other) && !other.is_clear_of(self),
        }
    }

    /// Returns the way from one of the edge's vertices to the other one.
    fn way_from(self, vertex: usize) -> Place {
        if self.vertices[0] == vertex {
            self.way()
        } else {
            self.turned().way()
        }
    }

    /// Returns whether another edge lies on one side of the line through this one, or on this line
    /// beyond one of its ends.
    fn is_clear_of(self, other: Side) -> bool {
        let way = self.way();
        let least = CLEAR * way.dot(way);
        let (near, far) = (other.from.minus(self.from), other.to.minus(self.from));
        let (left, right) = (way.cross(near), way.cross(far));
        let (along, beyond) = (way.dot(near), way.dot(far));
        left.min(right) > least
            || left.max(right) < -least
            || along.max(beyond) < -least
            || along.min(beyond) > way.dot(way) + least
    }
}

/// Returns whether two ways from one vertex all but lie on one another.
fn lies_along(way: Place, other: Place) -> bool {
    let turn = way.cross(other);
    way.dot(other) > 0.0 && turn.max(-turn) < CLEAR * way.length() * other.length()
}
