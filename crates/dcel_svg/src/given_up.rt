//! The vertex that an open removal has given up.

use dcel_drawn::Place;
use spade_dcel::dcel::Dcel;
use spade_dcel::handles::{FixedUndirectedEdgeHandle, FixedVertexHandle};
use std::alloc::Allocator;

/// How far a vertex that is given up is from its only neighbor.
const ALONE: f64 = 0.3;

/// Gives a vertex that is given up a place: inside, in the middle of its neighbors before; on the
/// outer face, beyond them.
pub(crate) fn set_given_up<V, DE, UE, F, A: Allocator>(
    mesh: &Dcel<V, DE, UE, F, A>,
    before: &Dcel<V, DE, UE, F, A>,
    places: &mut [Option<Place>],
) {
    let center = middle_of(places);
    for number in 0..mesh.num_vertices() {
        let vertex = FixedVertexHandle::new(number);
        if !mesh.is_live_vertex(vertex) {
            let place = place_among(before, vertex, places, center);
            if let Some(one) = places.get_mut(number) {
                *one = place;
            }
        }
    }
}

fn place_among<V, DE, UE, F, A: Allocator>(
    before: &Dcel<V, DE, UE, F, A>,
    vertex: FixedVertexHandle,
    places: &[Option<Place>],
    center: Place,
) -> Option<Place> {
    let mut sum = Place::new(0.0, 0.0);
    let mut count: f64 = 0.0;
    // The way along the neighbors, with the outer face on its left, if the vertex was there.
    let mut along = Place::new(0.0, 0.0);
    for edge in before.get_vertex(vertex)?.out_edges() {
        let Some(Some(place)) = places.get(edge.to().index()) else {
            continue;
        };
        sum = sum.plus(*place);
        count += 1.0;
        if edge.face().index() == 0 {
            along = along.plus(*place);
        }
        if edge.rev().face().index() == 0 {
            along = along.minus(*place);
        }
    }
    if count == 0.0 {
        return None;
    }
    let middle = sum.times(1.0 / count);
    if count == 1.0 {
        // Its only neighbor is there.
        return Some(middle.plus(middle.minus(center).unit().times(ALONE)));
    }
    if along.length() == 0.0 {
        return Some(middle);
    }
    Some(middle.plus(along.left()))
}

/// Returns the middle of all places.
fn middle_of(places: &[Option<Place>]) -> Place {
    let mut sum = Place::new(0.0, 0.0);
    let mut count: f64 = 0.0;
    for place in places {
        if let Some(place) = place {
            sum = sum.plus(*place);
            count += 1.0;
        }
    }
    sum.times(1.0 / count.max(1.0))
}

/// Moves a vertex that is given up off the edges that have been put in since, and off vertices.
pub(crate) fn set_aside<V, DE, UE, F, A: Allocator>(
    mesh: &Dcel<V, DE, UE, F, A>,
    before: &Dcel<V, DE, UE, F, A>,
    places: &mut [Option<Place>],
) {
    for number in 0..mesh.num_vertices() {
        let vertex = FixedVertexHandle::new(number);
        if mesh.is_live_vertex(vertex) {
            continue;
        }
        if let Some(Some(place)) = places.get(number) {
            let free = off_new_edges(mesh, before, places, *place);
            let free = off_vertices(before, places, vertex, free);
            if let Some(one) = places.get_mut(number) {
                *one = Some(free);
            }
        }
    }
}

/// Returns a place moved off each edge that has been put in.
fn off_new_edges<V, DE, UE, F, A: Allocator>(
    mesh: &Dcel<V, DE, UE, F, A>,
    before: &Dcel<V, DE, UE, F, A>,
    places: &[Option<Place>],
    place: Place,
) -> Place {
    let mut place = place;
    for number in 0..mesh.num_undirected_edges() {
        let half = FixedUndirectedEdgeHandle::new(number).as_directed();
        if let (Some(edge), None) = (mesh.get_directed_edge(half), before.get_directed_edge(half)) {
            let from = places.get(edge.from().index());
            let to = places.get(edge.to().index());
            if let (Some(Some(from)), Some(Some(to))) = (from, to) {
                place = off_line(place, *from, *to);
            }
        }
    }
    place
}

/// Returns a place moved to the left of a line if it is all but on it.
fn off_line(place: Place, from: Place, to: Place) -> Place {
    let way = to.minus(from);
    let left = way.unit().left();
    let distance = left.dot(place.minus(from));
    let free = 0.13 * way.length();
    if distance < free && -distance < free {
        place.plus(left.times(free - distance))
    } else {
        place
    }
}

/// Returns a place for a vertex moved off each other one that stands all but there.
fn off_vertices<V, DE, UE, F, A: Allocator>(
    before: &Dcel<V, DE, UE, F, A>,
    places: &[Option<Place>],
    vertex: FixedVertexHandle,
    place: Place,
) -> Place {
    let near = 0.25 * reach_of(before, places, vertex, place);
    let mut place = place;
    for (number, other) in places.iter().enumerate() {
        if let Some(other) = other {
            let way = place.minus(*other);
            if number != vertex.index() && way.length() < near {
                place = other.plus(way.unit().times(near));
            }
        }
    }
    place
}

/// Returns how far the farthest neighbor that a vertex had before is from a place.
fn reach_of<V, DE, UE, F, A: Allocator>(
    before: &Dcel<V, DE, UE, F, A>,
    places: &[Option<Place>],
    vertex: FixedVertexHandle,
    place: Place,
) -> f64 {
    let mut reach: f64 = 0.0;
    if let Some(center) = before.get_vertex(vertex) {
        for edge in center.out_edges() {
            if let Some(Some(neighbor)) = places.get(edge.to().index()) {
                reach = reach.max(neighbor.minus(place).length());
            }
        }
    }
    reach
}
