//! A mesh made from links.

ghost use Rattle.std.specs.Prelude.{◌≡◌, ◌≢◌, ◌⊎◌, ℕ, All, IfErr, IfOk, length, map};
ghost use Rattle.dcel_c.specs.Calls.{IsSo, IsZero, kept_in};
ghost use Rattle.dcel_c.specs.Given.{IsGiven, NoLinks, claimed};
ghost use Rattle.dcel_exchange.specs.Defaults.{HasDefaults};
ghost use Rattle.dcel_links.specs.Faults.{IsFirst};
ghost use Rattle.spade_dcel.specs.Linked.{Refuses};

use crate::fault::{DcelFault, tell_links};
use crate::held::Numbers;
use crate::links::DcelHalfEdge;
use crate::mesh::DcelMesh;
use crate::status::{FAULTY, OUT_OF_MEMORY};
use crate::whole::keep;
use dcel_exchange::LinkLists;
use spade_dcel::operations::{EdgeData, Links, LinksError, MeshData, from_links};
use std::alloc::{AllocError, Global};

/// Lists the links of half edges, but for the ones before them.
fn list_links(alloc: Global, half_edges: &[DcelHalfEdge]) -> Result<LinkLists<Global>, AllocError>
    ensures next { IfOk result (λ lists. lists.next.items ≡ map (λ half. half.next) half_edges.now) }
    ensures origin { IfOk result (λ lists. lists.origin.items ≡ map (λ half. half.origin) half_edges.now) }
    ensures face { IfOk result (λ lists. lists.face.items ≡ map (λ half. half.face) half_edges.now) }
{
    let count = half_edges.len();
    let mut next = Vec::with_capacity(alloc, count)?;
    let mut origin = Vec::with_capacity(alloc, count)?;
    let mut face = Vec::with_capacity(alloc, count)?;
    let mut at = 0;
    while at < half_edges.len() {
        let half = half_edges[at];
        next.push(half.next)?;
        origin.push(half.origin)?;
        face.push(half.face)?;
        at += 1;
    }
    Ok(LinkLists { next, origin, face })
}

/// Makes data 0 for that many edges.
fn make_edges(alloc: Global, count: usize) -> Result<Vec<EdgeData<u64, u64>, Global>, AllocError>
    ensures count { IfOk result (λ edges. length edges.items ≡ count) }
    ensures each { IfOk result (λ edges. All (HasDefaults IsZero IsZero) edges.items) }
{
    let mut edges = Vec::with_capacity(alloc, count)?;
    for number in 0..count {
        edges.push(EdgeData {
            normalized: 0,
            reversed: 0,
            undirected: 0,
        })?;
    }
    Ok(edges)
}

/// Makes the mesh with these links and data.
fn make(
    alloc: Global,
    half_edges: &[DcelHalfEdge],
    vertices: &[u64],
    faces: &[u64],
) -> Result<Numbers, LinksError>
    ensures given { IfOk result (IsGiven half_edges.now vertices.now faces.now) }
    ensures reason { IfErr result (λ reason. (edges : ℕ) × Refuses ℕ ℕ ℕ ℕ (claimed half_edges.now (length vertices.now) (length faces.now)) edges reason) }
{
    let Ok(lists) = list_links(alloc, half_edges) else {
        return Err(LinksError::OutOfMemory);
    };
    let Ok(edges) = make_edges(alloc, half_edges.len() / 2) else {
        return Err(LinksError::OutOfMemory);
    };
    let Ok(vertices) = Vec::from_slice(alloc, vertices) else {
        return Err(LinksError::OutOfMemory);
    };
    let Ok(faces) = Vec::from_slice(alloc, faces) else {
        return Err(LinksError::OutOfMemory);
    };
    let links = Links {
        next: &lists.next,
        origin: &lists.origin,
        face: &lists.face,
    };
    let given = MeshData {
        vertices,
        edges,
        faces,
    };
    match from_links(alloc, links, given) {
        Ok(dcel) => Ok(dcel),
        Err(refused) => Err(refused.reason),
    }
}

/// Makes the mesh with these links, and with the data of its vertices and faces. A mesh that was
/// kept there before is freed.
///
/// What is given before each half edge isn't read. If no mesh has the links, the first thing that
/// is wrong with them is told.
#[unsafe(no_mangle)]
pub extern "C" fn dcel_from_links(
    alloc: Global,
    mesh: &mut DcelMesh,
    half_edges: &[DcelHalfEdge],
    vertices: &[u64],
    faces: &[u64],
    fault: &mut DcelFault,
) -> u32
    ensures done { result ≡ 0 → IsSo (IsGiven half_edges.now vertices.now faces.now) (kept_in mesh.new) }
    ensures faulty { result ≡ 23 → NoLinks half_edges.now vertices.now faces.now fault.new }
    ensures status { (result ≡ 0) ⊎ ((result ≡ 20) ⊎ (result ≡ 23)) }
    ensures same { result ≢ 0 → kept_in mesh.new ≡ kept_in mesh.old }
    ensures untold { result ≢ 23 → fault.new ≡ fault.old }
{
    match make(alloc, half_edges, vertices, faces) {
        Ok(dcel) => keep(alloc, mesh, dcel),
        Err(LinksError::Links(found)) => {
            *fault = tell_links(found);
            FAULTY
        }
        Err(_) => OUT_OF_MEMORY,
    }
}
