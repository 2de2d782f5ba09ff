//! Edges that join the same two vertices: half edges tell them apart, and corners of faces don't.

use crate::fault::{Fault, Wrong, at_all};
use crate::meshing::{Mesh, repeated};
use std::alloc::{AllocError, Global};

/// Refuses a mesh in which two edges join the same two vertices. Edges with the outer face on both
/// sides don't count: files of faces have none of them.
pub fn refuse_doubled(alloc: Global, mesh: &Mesh) -> Result<(), Fault> {
    match doubled_ends(alloc, mesh)? {
        None => Ok(()),
        Some((from, to)) => Err(at_all(Wrong::Doubled(from, to))),
    }
}

/// Returns two vertices that two edges join, if there are such.
fn doubled_ends(alloc: Global, mesh: &Mesh) -> Result<Option<(usize, usize)>, AllocError> {
    let mut ends = Vec::new(alloc);
    list_ends(mesh, &mut ends)?;
    ends.sort()?;
    Ok(repeated(&ends))
}

/// Lists the vertices that each edge joins, the lesser number first.
fn list_ends(mesh: &Mesh, ends: &mut Vec<(usize, usize)>) -> Result<(), AllocError> {
    for edge in mesh.live_undirected_edges() {
        let half = edge.as_directed();
        if half.face().is_outer() && half.rev().face().is_outer() {
            continue;
        }
        let (from, to) = (half.from().index(), half.to().index());
        ends.push((from.min(to), from.max(to)))?;
    }
    Ok(())
}
