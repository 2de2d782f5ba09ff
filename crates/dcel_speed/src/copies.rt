//! Whole meshes, cloned or mapped to other data.

use crate::digest::{digest_of, mix};
use crate::fault::{BuildError, Fault};
use crate::measure::{FEWEST_EDITING, least_of};
use crate::workloads::{Mesh, Outcome, Timed, triangulated};
use std::alloc::Global;
use std::rt::Clock;
use std::time::Instant;

/// Times a clone of a mesh of triangles.
pub fn clone<D: Default + Drop + Clone>(
    rt: &(impl Clock + AllocGlobal),
    size: u32,
) -> Result<Timed, Fault> {
    let built = triangulated::<D>(rt.alloc(), size)?;
    least_of(FEWEST_EDITING, || {
        let start = Instant::now(rt)?;
        let copy = built.try_clone(rt.alloc())?;
        let elapsed = start.elapsed(rt)?;
        let outcome = Outcome {
            checksum: digest_of(&copy),
            operations: copy.num_vertices() as u64,
        };
        Ok(Timed { elapsed, outcome })
    })
}

/// Times the replacement of each vertex's datum in a mesh of triangles.
pub fn map<D: Default + Drop + Clone>(
    rt: &(impl Clock + AllocGlobal),
    size: u32,
) -> Result<Timed, Fault> {
    let built = triangulated::<D>(rt.alloc(), size)?;
    least_of(FEWEST_EDITING, || {
        let copy = built.try_clone(rt.alloc())?;
        map_once(rt, copy)
    })
}

/// Times one replacement of all data.
fn map_once<D: Drop>(rt: &(impl Clock + AllocGlobal), copy: Mesh<D>) -> Result<Timed, Fault> {
    let start = Instant::now(rt)?;
    let mapped = with_other_data(copy, rt.alloc())?;
    let elapsed = start.elapsed(rt)?;
    let outcome = Outcome {
        checksum: folded_data(&mapped),
        operations: mapped.num_vertices() as u64,
    };
    Ok(Timed { elapsed, outcome })
}

/// Maps the datum x of each vertex to 3x + 1.
fn with_other_data<D: Drop>(dcel: Mesh<D>, alloc: Global) -> Result<Mesh<D>, BuildError> {
    let mapped = dcel.map_vertices(alloc, |datum| datum.wrapping_mul(3).wrapping_add(1))?;
    Ok(mapped)
}

/// Mixes the data of the vertices into one number, in order.
fn folded_data<D>(dcel: &Mesh<D>) -> u64 {
    let mut sum: u64 = 0;
    for vertex in dcel.vertices() {
        sum = mix(sum, vertex.data().cast_unsigned());
    }
    sum
}
