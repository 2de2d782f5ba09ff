//! Ways on the graph of a mesh.

use crate::refining::fine_triangle;
use spade_dcel::dcel::Dcel;
use spade_dcel::handles::{FixedVertexHandle, VertexHandle};
use spade_dcel::operations::{Room, append_unconnected_vertex};
use std::alloc::{AllocError, Global};
use std::io;

/// Returns for each vertex over how many edges a shortest way from `start` leads there, and None if
/// no way does.
fn steps_from<V, DE, UE, F>(
    dcel: &Dcel<V, DE, UE, F>,
    start: FixedVertexHandle,
    alloc: Global,
) -> Result<Vec<Option<usize>>, AllocError> {
    let mut steps: Vec<Option<usize>> = Vec::new(alloc);
    steps.resize(dcel.num_vertices(), None)?;
    let mut reached = Vec::new(alloc);
    if let Some(place) = steps.get_mut(start.index()) {
        *place = Some(0);
        reached.push((start, 0))?;
    }
    // No vertex is reached twice.
    for place in 0..dcel.num_vertices() {
        let Some(&(vertex, step)) = reached.get(place) else {
            break;
        };
        if let Some(vertex) = dcel.get_vertex(vertex) {
            reach_neighbors(vertex, step, &mut steps, &mut reached)?;
        }
    }
    Ok(steps)
}

/// Reaches each neighbor that no way has led to yet, over one edge more.
fn reach_neighbors<V, DE, UE, F>(
    vertex: VertexHandle<'_, V, DE, UE, F>,
    step: usize,
    steps: &mut [Option<usize>],
    reached: &mut Vec<(FixedVertexHandle, usize)>,
) -> Result<(), AllocError> {
    let step = step.saturating_add(1);
    for edge in vertex.out_edges() {
        let neighbor = edge.to().fix();
        if let Some(place) = steps.get_mut(neighbor.index()) {
            if place.is_none() {
                *place = Some(step);
                reached.push((neighbor, step))?;
            }
        }
    }
    Ok(())
}

/// Shows the lengths of the ways between all vertices of a mesh, one of which stands alone.
pub fn show(rt: &impl Print, alloc: Global) -> io::Result<()> {
    let mut dcel = fine_triangle(alloc)?;
    show_ways(rt, &mut dcel, alloc)
}

fn show_ways(rt: &impl Print, dcel: &mut Dcel<&'static str>, alloc: Global) -> io::Result<()> {
    append(dcel, "f")?;
    for start in dcel.live_vertices() {
        print!(rt; "ways from {} {}:", start.index(), start.data())?;
        show_steps(rt, dcel, start.fix(), alloc)?;
    }
    Ok(())
}

fn append<V: Drop>(dcel: &mut Dcel<V>, datum: V) -> Result<(), AllocError> {
    if dcel.has_room_for(Room::APPEND_UNCONNECTED_VERTEX) {
        append_unconnected_vertex(dcel, datum)?;
    }
    Ok(())
}

/// Shows the length of a shortest way to each vertex.
fn show_steps<V>(
    rt: &impl Print,
    dcel: &Dcel<V>,
    start: FixedVertexHandle,
    alloc: Global,
) -> io::Result<()> {
    for steps in steps_from(dcel, start, alloc)?.iter() {
        match steps {
            Some(steps) => print!(rt; " {steps}")?,
            None => print!(rt; " -")?,
        }
    }
    println!(rt)
}
