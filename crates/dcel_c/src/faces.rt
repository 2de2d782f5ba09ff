//! A mesh made of faces with their corners.

ghost use Rattle.std.specs.Prelude.{◌≡◌, ◌≢◌, ◌⊎◌, ◌↔◌, IfErr, IfOk, IsTrue, length, sum};
ghost use Rattle.dcel_c.specs.Calls.{IsSo, kept_in};
ghost use Rattle.dcel_c.specs.Faces.{IsOfFaces, NoFaces, RefusesFaces, cut};
ghost use Rattle.dcel_exchange.specs.Corners.{corners_of};

use crate::fault::{DcelFault, other_count, tell_faces};
use crate::held::Numbers;
use crate::mesh::DcelMesh;
use crate::status::{FAULTY, OUT_OF_MEMORY};
use crate::whole::keep;
use dcel_exchange::{FacesError, from_faces};
use std::alloc::{AllocError, Global};

/// Returns whether the counts add up to this number.
fn add_up(counts: &[u32], number: usize) -> bool
    ensures { IsTrue result ↔ (sum counts.now ≡ number) }
{
    let mut left = number;
    let mut at = 0;
    while at < counts.len() {
        if left < counts[at] as usize {
            return false;
        }
        left -= counts[at] as usize;
        at += 1;
    }
    left == 0
}

/// Cuts the row of corners into faces.
fn cut_faces(
    alloc: Global,
    corners: &[u32],
    counts: &[u32],
) -> Result<Vec<Vec<u32, Global>, Global>, AllocError>
    ensures { IfOk result (λ faces. corners_of faces.items ≡ cut counts.now corners.now) }
{
    let mut faces = Vec::with_capacity(alloc, counts.len())?;
    let mut rest = corners;
    let mut at = 0;
    while at < counts.len() {
        let count = (counts[at] as usize).min(rest.len());
        let (face, behind) = rest.split_at(count);
        faces.push(Vec::from_slice(alloc, face)?)?;
        rest = behind;
        at += 1;
    }
    Ok(faces)
}

/// Makes the mesh of these faces, with these data of vertices.
fn make(
    alloc: Global,
    vertices: &[u64],
    corners: &[u32],
    counts: &[u32],
) -> Result<Numbers, FacesError>
    ensures faces { IfOk result (IsOfFaces vertices.now (cut counts.now corners.now)) }
    ensures reason { IfErr result (RefusesFaces (length vertices.now) (cut counts.now corners.now)) }
{
    let faces = cut_faces(alloc, corners, counts)?;
    let vertices = Vec::from_slice(alloc, vertices)?;
    match from_faces(alloc, vertices, &faces) {
        Ok(dcel) => Ok(dcel),
        Err(refused) => Err(refused.reason),
    }
}

/// Makes the mesh of these faces, with these data of its vertices. A mesh that was kept there before
/// is freed.
///
/// `corners` has the corners of the faces in one row, face by face, and `counts` how many each face
/// has. If no mesh is made of them, the reason is told.
#[unsafe(no_mangle)]
pub extern "C" fn dcel_from_faces(
    alloc: Global,
    mesh: &mut DcelMesh,
    vertices: &[u64],
    corners: &[u32],
    counts: &[u32],
    fault: &mut DcelFault,
) -> u32
    ensures counts { result ≡ 0 → sum counts.now ≡ length corners.now }
    ensures done { result ≡ 0 → IsSo (IsOfFaces vertices.now (cut counts.now corners.now)) (kept_in mesh.new) }
    ensures faulty { result ≡ 23 → NoFaces (length vertices.now) corners.now counts.now fault.new }
    ensures status { (result ≡ 0) ⊎ ((result ≡ 20) ⊎ (result ≡ 23)) }
    ensures same { result ≢ 0 → kept_in mesh.new ≡ kept_in mesh.old }
    ensures untold { result ≢ 23 → fault.new ≡ fault.old }
{
    if !add_up(counts, corners.len()) {
        *fault = other_count();
        return FAULTY;
    }
    match make(alloc, vertices, corners, counts) {
        Ok(dcel) => keep(alloc, mesh, dcel),
        Err(FacesError::OutOfMemory) => OUT_OF_MEMORY,
        Err(reason) => {
            *fault = tell_faces(reason);
            FAULTY
        }
    }
}
