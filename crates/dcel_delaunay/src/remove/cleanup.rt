//! What a removal gave up taken out, with the vertex, and the edges that are listed by their new
//! numbers.

ghost use Rattle.std.specs.Prelude.{◌≡◌, ◌-◌, ◌<◌, ◌≤◌, ◌==◌, ◌↔◌, ◌+◌, IsTrue, None, Some, cond, length, map, reverse, slice_get, slice_set, true, false, vec_len, ℕ};
ghost use Rattle.std.specs.List.{list_any};
ghost use Rattle.dcel_maps.specs.Removals.{Cleaned, IsListed};
ghost use Rattle.dcel_maps.specs.Renumbered.{new_edge};
ghost use Rattle.dcel_maps.specs.Renumbering.{cleaned, cleaned_up, new_number, vertex_taken_out};
ghost use Rattle.dcel_maps.specs.Shapes.{IsMesh, edge_is_live};
ghost use Rattle.dcel_maps.specs.Words.{count_of};

use crate::remove::Due;
use crate::removed::Removed;
use dcel_planar::EdgeMesh;
use spade_dcel::handles::{FixedUndirectedEdgeHandle, FixedVertexHandle};
use spade_dcel::laws::every_mesh;
use spade_dcel::operations::{IsolateVertexResult, cleanup_isolated_vertex, swap_remove_vertex};
use std::alloc::Allocator;

/// How many given-up edges are gone through one by one.
const FEW: usize = 8;

/// Takes out what a removal has given up.
pub(crate) fn take_out<UE: Drop, A: Allocator, L: Allocator, B: Allocator>(
    dcel: &mut EdgeMesh<UE, A>,
    due: &mut Due<L>,
    opened: &mut IsolateVertexResult<B>,
    vertex: FixedVertexHandle,
) -> Removed
    requires listed { IsListed dcel.old.shape.removal opened.old.edges_to_remove.items opened.old.faces_to_remove.items }
    requires given_up { cleaned dcel.old.shape.removal ≡ Cleaned vertex }
    ensures edit { dcel.new ≡ vertex_taken_out (cleaned_up dcel.old) vertex }
    ensures due { due.new.items ≡ map (new_edge dcel.old.shape) due.old.items }
    ensures point { slice_get (cleaned_up dcel.old).vertex_data vertex ≡ Some result.point }
    ensures moved { let last = (cleaned_up dcel.old).shape.vertices - 1 in
        result.moved ≡ cond (vertex == last) None (Some last) }
    ensures clean { IsMesh (cleaned_up dcel.old) }
    ensures mesh { IsMesh dcel.new }
{
    every_mesh(dcel);
    let count = dcel.num_undirected_edges();
    cleanup_isolated_vertex(dcel, opened);
    renumber(due, &opened.edges_to_remove, count);
    let taken = swap_remove_vertex(dcel, vertex);
    Removed {
        point: taken.removed_vertex,
        moved: taken.swapped_in_vertex,
    }
}

/// Drops edges from a list that are given up, which are those of the other list.
pub(crate) fn drop_given_up<UE, A: Allocator, L: Allocator>(
    dcel: &EdgeMesh<UE, A>,
    due: &mut Due<L>,
    given_up: &[FixedUndirectedEdgeHandle],
)
    requires { (u : ℕ) → list_any (λ e. e == u) given_up.now ≡ true → edge_is_live dcel.now.shape u ≡ false }
    ensures { (u : ℕ) → edge_is_live dcel.now.shape u ≡ true → 0 < count_of u due.old.items → 0 < count_of u due.new.items }
{
    if given_up.len() > FEW {
        drop_dead(dcel, due);
    } else {
        drop_each(due, given_up);
    }
}

/// Drops edges from a list that aren't live.
fn drop_dead<UE, A: Allocator, L: Allocator>(dcel: &EdgeMesh<UE, A>, due: &mut Due<L>)
    ensures { (u : ℕ) → edge_is_live dcel.now.shape u ≡ true → 0 < count_of u due.old.items → 0 < count_of u due.new.items }
{
    let mut at = 0;
    while at < due.len() {
        let edge = due[at];
        if dcel.is_live_edge(edge) {
            at += 1;
        } else {
            let _edge = due.swap_remove(at);
        }
    }
}

/// Drops edges from a list, those of the other list.
fn drop_each<L: Allocator>(due: &mut Due<L>, gone: &[FixedUndirectedEdgeHandle])
    ensures { (u : ℕ) → list_any (λ e. e == u) gone.now ≡ false → 0 < count_of u due.old.items → 0 < count_of u due.new.items }
{
    let mut at = 0;
    while at < due.len() {
        let edge = due[at];
        if gone.contains(&edge) {
            let _edge = due.swap_remove(at);
        } else {
            at += 1;
        }
    }
}

/// Gives each edge of a list the number that it has once these edges are taken out, from the last on.
pub(crate) fn renumber<L: Allocator>(
    due: &mut Due<L>,
    taken_out: &[FixedUndirectedEdgeHandle],
    count: usize,
)
    requires { length taken_out.now ≤ count }
    ensures { due.new.items ≡ map (new_number count (reverse taken_out.now)) due.old.items }
{
    let mut at = 0;
    while at < due.len() {
        let edge = due[at];
        put(due, at, number_after(edge, taken_out, count));
        at += 1;
    }
}

/// Writes into a list.
fn put<L: Allocator>(due: &mut Due<L>, at: usize, edge: FixedUndirectedEdgeHandle)
    requires { at < vec_len due.old }
    ensures items { due.new.items ≡ slice_set due.old.items at edge }
    ensures len { vec_len due.new ≡ vec_len due.old }
{
    due[at] = edge;
}

/// Returns the number that an edge has then: each time the last edge gets the number of the one that
/// goes.
fn number_after(
    edge: FixedUndirectedEdgeHandle,
    taken_out: &[FixedUndirectedEdgeHandle],
    count: usize,
) -> FixedUndirectedEdgeHandle
    requires { length taken_out.now ≤ count }
    ensures { result ≡ new_number count (reverse taken_out.now) edge }
{
    let mut number = edge;
    let mut last = count;
    let mut left = taken_out;
    while is_moved(number, last, left.len()) {
        // It keeps its number until it is the last one, and then gets that of the edge that goes.
        let place = number.index();
        let stays = last - 1 - place;
        let (before, _) = left.split_at(left.len() - stays);
        let Some((&gone, others)) = before.split_last() else {
            unreachable!()
        };
        number = gone;
        last = place;
        left = others;
    }
    number
}

/// Returns whether an edge gets another number if so many edges go, each time the one after the last
/// that stays.
fn is_moved(edge: FixedUndirectedEdgeHandle, last: usize, going: usize) -> bool
    ensures { IsTrue result ↔ ((edge < last) × (last ≤ edge + going)) }
{
    let number = edge.index();
    if number >= last {
        return false;
    }
    last - number <= going
}
