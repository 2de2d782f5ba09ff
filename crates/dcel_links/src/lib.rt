//! Checks of claimed meshes, given as [`Links`]: lists with the next half edge, the origin and the
//! face of each half edge. Files, other languages and tests represent meshes in this way.
//!
//! Start with [`check_links`], which decides whether such lists are the links of a mesh, as
//! `dcel_maps` defines it, and if not returns the first [`LinksFault`] in a fixed order. Half edges
//! 0 and 1 are edge 0, 2 and 3 edge 1, and so on; face 0 is the outer face. [`find_wrong_anchor`]
//! checks half edges that are given for vertices or faces.
#![tactic(auto)]

ghost use Rattle.std.specs.Prelude.{◌≡◌, ℕ, IfErr, IfOk, List};
ghost use Rattle.dcel_links.specs.Claims.{IsMeshOf, claim_of};
ghost use Rattle.dcel_links.specs.Faults.{IsFirst};

mod anchors;
mod fault;
mod links;
mod lists;
mod marks;
mod rounds;
mod search;
mod sizes;
mod whole;

pub use anchors::find_wrong_anchor;
pub use fault::LinksFault;
pub use lists::Links;
use std::alloc::{AllocError, Allocator};
use whole::{check_each, check_whole};

/// Checks whether links are those of a mesh of this many vertices and faces.
///
/// For a mesh it returns the list of previous half edges, the only one that fits; otherwise a
/// [`LinksFault`], and then there is no fault that is tested before it. Any lists and numbers may
/// be given.
///
/// It reads the lists a fixed number of times. For each half edge it takes less than twelve bytes,
/// and for each vertex one, once the links have passed one by one; claims of more faces than the
/// lists can have are refused before. If memory runs out it returns `AllocError`, and no result.
#[tactic(auto, using(crate::proofs::Stages::first_fault))]
pub fn check_links<A: Allocator + Clone>(
    alloc: &A,
    links: Links<'_>,
    vertices: usize,
    faces: usize,
) -> Result<Result<Vec<u32, A>, LinksFault>, AllocError>
    ensures mesh { IfOk result (λ found. IfOk found (λ prev.
        IsMeshOf (claim_of links.entry vertices faces) prev.items)) }
    ensures only { IfOk result (λ found. IfOk found (λ prev. (other : List ℕ)
        → IsMeshOf (claim_of links.entry vertices faces) other → other ≡ prev.items)) }
    ensures refused { IfOk result (λ found. IfErr found (λ fault. (prev : List ℕ)
        → ¬ IsMeshOf (claim_of links.entry vertices faces) prev)) }
    ensures first { IfOk result (λ found. IfErr found (λ fault.
        IsFirst (claim_of links.entry vertices faces) fault)) }
{
    let mut prev = vec![in alloc.clone()?; 0; links.next.len()]?;
    if let Err(fault) = check_each(links, vertices, faces, &mut prev) {
        return Ok(Err(fault));
    }
    match check_whole(alloc, links, vertices, faces)? {
        Ok(()) => Ok(Ok(prev)),
        Err(fault) => Ok(Err(fault)),
    }
}
