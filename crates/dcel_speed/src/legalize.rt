//! Edges flipped until no more are wanted.

use crate::fault::{BuildError, Fault};
use crate::measure::time_editing;
use crate::workloads::{Mesh, Outcome, Timed, triangulated};
use dcel_legalize::{Legalized, legalize_by_number};
use spade_dcel::handles::FixedUndirectedEdgeHandle;
use std::alloc::{AllocError, Global};
use std::rt::Clock;
use std::time::Instant;

/// The number of edges that a flip adds to the list.
const BESIDE: u64 = 5;

/// Times a legalization by vertex numbers that begins with all edges of a mesh of triangles.
pub fn legalize<D: Default + Drop + Clone>(
    rt: &(impl Clock + AllocGlobal),
    size: u32,
) -> Result<Timed, Fault> {
    let built = triangulated::<D>(rt.alloc(), size)?;
    time_editing(rt, &built, |dcel: &mut Mesh<D>| legalize_once(rt, dcel))
}

/// Times one legalization.
fn legalize_once<D>(rt: &(impl Clock + AllocGlobal), dcel: &mut Mesh<D>) -> Result<Timed, Fault> {
    let list = all_edges(rt.alloc(), dcel)?;
    let start = Instant::now(rt);
    let flips = flip_all(dcel, list);
    let elapsed = start?.elapsed(rt)?;
    let checksum = flips?;
    let outcome = Outcome {
        checksum,
        operations: looked_at(dcel, checksum),
    };
    Ok(Timed { elapsed, outcome })
}

/// Counts the edges looked at: all of the mesh, and those that flips added to the list.
fn looked_at<D>(dcel: &Mesh<D>, flips: u64) -> u64 {
    (dcel.num_undirected_edges() as u64).saturating_add(flips.saturating_mul(BESIDE))
}

/// Lists the edges of a mesh.
fn all_edges<D>(
    alloc: Global,
    dcel: &Mesh<D>,
) -> Result<Vec<FixedUndirectedEdgeHandle>, AllocError> {
    let edges = dcel.num_undirected_edges();
    let mut list = Vec::with_capacity(alloc, edges)?;
    for index in 0..edges {
        list.push(FixedUndirectedEdgeHandle::new(index))?;
    }
    Ok(list)
}

/// Legalizes from these edges on, and returns the number of flips.
fn flip_all<D>(
    dcel: &mut Mesh<D>,
    list: Vec<FixedUndirectedEdgeHandle>,
) -> Result<u64, BuildError> {
    match legalize_by_number(dcel, list, usize::MAX) {
        Legalized::Done { flips } | Legalized::Stopped { flips } => Ok(flips as u64),
        Legalized::OutOfMemory { .. } => Err(BuildError::NoMemory),
    }
}
