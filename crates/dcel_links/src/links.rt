//! Links one by one: their ranges, that no two lead to one half edge, and that they fit each other.

ghost use Rattle.std.specs.Prelude.{◌≡◌, ◌≤◌, ◌%◌, ◌^◌, IfErr, IfNone, IfOk, IfSome, OnOk, length};
ghost use Rattle.dcel_links.specs.Checks.{AreBelow, ComesTo, Fit, InRange, Undoes};
ghost use Rattle.dcel_links.specs.Claims.{HasLists, claim_of};
ghost use Rattle.dcel_links.specs.Faults.{Means, TwoLead, stage};
ghost use Rattle.dcel_links.specs.Rounds.{AreTurns};
ghost use Rattle.dcel_links.specs.Stages.{FaceRounds, Fitting, Leading, Ranges};

use crate::LinksFault;
use crate::lists::Links;
use dcel_fixed::other_half;
use std::alloc::{AllocError, Allocator};

/// Checks that each link is a number of its kind.
#[tactic(auto, using(crate::proofs::Stages::comes_to_leading))]
pub(crate) fn check_ranges(
    links: Links<'_>,
    vertices: usize,
    faces: usize,
) -> Result<(), LinksFault>
    requires lists { HasLists (claim_of links vertices faces) }
    requires passed { ComesTo (claim_of links vertices faces) Ranges }
    ensures in_range { OnOk result (InRange (claim_of links.entry vertices faces)) }
    ensures passed { OnOk result (ComesTo (claim_of links.entry vertices faces) Leading) }
    ensures fault { IfErr result (Means (claim_of links.entry vertices faces)) }
    ensures before { IfErr result (λ fault. ComesTo (claim_of links.entry vertices faces) (stage fault)) }
{
    let Links { next, origin, face } = links;
    for half in 0..next.len() {
        if next[half] as usize >= next.len() {
            return Err(LinksFault::NextOutOfRange(half));
        }
        if origin[half] as usize >= vertices {
            return Err(LinksFault::OriginOutOfRange(half));
        }
        if face[half] as usize >= faces {
            return Err(LinksFault::FaceOutOfRange(half));
        }
    }
    Ok(())
}

/// Lists the previous half edges, and looks for a half edge that is the next one of two.
pub(crate) fn find_two_leading(next: &[u32], prev: &mut [u32]) -> Option<usize>
    requires lengths { length prev.old ≡ length next.now }
    requires few { length next.now ≤ 2 ^ 32 }
    requires below { AreBelow (length next.now) next.now }
    ensures undone { IfNone result (Undoes next.now prev.new) }
    ensures two { IfSome result (TwoLead next.now) }
{
    for half in 0..next.len() {
        let after = next[half] as usize;
        // A number in the list is not a mark by itself: its half edge has to lead here.
        let before = prev[after] as usize;
        if before < half && next[before] as usize == after {
            return Some(after);
        }
        prev[after] = half as u32;
    }
    None
}

/// Checks that each edge has two ends, and that each link fits the one before it.
#[tactic(auto, using(crate::proofs::Stages::comes_to_face_rounds))]
pub(crate) fn check_fit(links: Links<'_>, vertices: usize, faces: usize) -> Result<(), LinksFault>
    requires lists { HasLists (claim_of links vertices faces) }
    requires below { AreBelow (length links.next.now) links.next.now }
    requires passed { ComesTo (claim_of links vertices faces) Fitting }
    ensures fit { OnOk result (Fit (claim_of links.entry vertices faces)) }
    ensures passed { OnOk result (ComesTo (claim_of links.entry vertices faces) FaceRounds) }
    ensures fault { IfErr result (Means (claim_of links.entry vertices faces)) }
    ensures before { IfErr result (λ fault. ComesTo (claim_of links.entry vertices faces) (stage fault)) }
{
    let Links { next, origin, face } = links;
    for half in 0..next.len() {
        let after = next[half] as usize;
        let end = origin[other_half(half)];
        if origin[half] == end {
            return Err(LinksFault::OneEnd(half));
        }
        if origin[after] != end {
            return Err(LinksFault::Apart(half));
        }
        if face[after] != face[half] {
            return Err(LinksFault::LeavesFace(half));
        }
    }
    Ok(())
}

/// Lists what comes after the other half of each half edge: a turn about its vertex.
pub(crate) fn list_turns<A: Allocator>(alloc: A, next: &[u32]) -> Result<Vec<u32, A>, AllocError>
    requires { length next.now % 2 ≡ 0 }
    ensures { IfOk result (λ turns. AreTurns next.now turns.items) }
{
    let mut turns = Vec::with_capacity(alloc, next.len())?;
    for half in 0..next.len() {
        turns.push(next[other_half(half)])?;
    }
    Ok(turns)
}
