//! How many there are of each kind, and Euler's formula.

ghost use Rattle.std.specs.Prelude.{◌≡◌, ◌+◌, ◌-◌, ◌/◌, ◌<◌, ◌≤◌, ◌^◌, ◌↔◌, IfErr, IsTrue, OnOk};
ghost use Rattle.dcel_links.specs.Checks.{ComesTo};
ghost use Rattle.dcel_links.specs.Claims.{HasLists, IsFew, claim_of};
ghost use Rattle.dcel_links.specs.Faults.{Means, stage};
ghost use Rattle.dcel_links.specs.Stages.{Ranges};

use crate::LinksFault;
use crate::lists::Links;

// How many numbers of 32 bits there are.
const MOST: usize = 1 << 32;

/// Checks how many there are of each kind.
///
/// A claim that passes has no more faces than edges and two, so that marks on them take no more
/// memory than its lists.
#[tactic(auto, using(crate::proofs::Stages::comes_to_sizes, crate::proofs::Stages::comes_to_outer_face, crate::proofs::Stages::comes_to_face_count, crate::proofs::Stages::comes_to_ranges))]
pub(crate) fn check_sizes(links: Links<'_>, vertices: usize, faces: usize) -> Result<(), LinksFault>
    ensures lists { OnOk result (HasLists (claim_of links.entry vertices faces)) }
    ensures few { OnOk result (IsFew (claim_of links.entry vertices faces)) }
    ensures some_face { OnOk result (0 < faces) }
    ensures passed { OnOk result (ComesTo (claim_of links.entry vertices faces) Ranges) }
    ensures fault { IfErr result (Means (claim_of links.entry vertices faces)) }
    ensures before { IfErr result (λ fault. ComesTo (claim_of links.entry vertices faces) (stage fault)) }
{
    let Links { next, origin, face } = links;
    if next.len() % 2 != 0 {
        return Err(LinksFault::Lengths);
    }
    if origin.len() != next.len() {
        return Err(LinksFault::Lengths);
    }
    if face.len() != next.len() {
        return Err(LinksFault::Lengths);
    }
    if next.len() > MOST {
        return Err(LinksFault::TooMany);
    }
    if vertices > MOST {
        return Err(LinksFault::TooMany);
    }
    if faces > MOST {
        return Err(LinksFault::TooMany);
    }
    if faces == 0 {
        return Err(LinksFault::NoFace);
    }
    if faces > next.len() / 2 + 2 {
        return Err(LinksFault::MoreFaces);
    }
    Ok(())
}

/// Returns whether this many vertices, half edges and faces are those of a sphere.
#[inline]
pub(crate) fn is_sphere(vertices: usize, half_edges: usize, faces: usize) -> bool
    requires few_vertices { vertices ≤ 2 ^ 32 }
    requires few_faces { faces ≤ 2 ^ 32 }
    ensures { IsTrue result ↔ (vertices + faces ≡ half_edges / 2 + 2) }
{
    vertices + faces == half_edges / 2 + 2
}

/// Returns the genus of a connected surface of so many vertices, half edges and faces.
#[inline]
pub(crate) fn genus(vertices: usize, half_edges: usize, faces: usize) -> usize
    requires few_vertices { vertices ≤ 2 ^ 32 }
    requires few_faces { faces ≤ 2 ^ 32 }
    ensures { result ≡ (half_edges / 2 + 2 - (vertices + faces)) / 2 }
{
    (half_edges / 2 + 2).saturating_sub(vertices + faces) / 2
}
