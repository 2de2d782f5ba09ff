//! The checks, in their order.

ghost use Rattle.std.specs.Prelude.{◌≡◌, ◌<◌, IfErr, IfOk, OnOk, length};
ghost use Rattle.dcel_links.specs.Checks.{ComesTo, HasEuler, HasLinks, HasRounds, IsOne, PassesLinks, PassesWhole, UsesFaces};
ghost use Rattle.dcel_links.specs.Claims.{IsFew, claim_of};
ghost use Rattle.dcel_links.specs.Faults.{Means, stage};
ghost use Rattle.dcel_links.specs.Marks.{IsBlank, MarksLabels};
ghost use Rattle.dcel_links.specs.Rounds.{AreMarks};
ghost use Rattle.dcel_links.specs.Stages.{FaceRounds, UsedFaces};

use crate::LinksFault;
use crate::links::{check_fit, check_ranges, find_two_leading, list_turns};
use crate::lists::Links;
use crate::marks::{count_marks, find_unmarked};
use crate::rounds::mark_labels;
use crate::search::find_cut_off;
use crate::sizes::{check_sizes, genus, is_sphere};
use std::alloc::{AllocError, Allocator};

/// Checks the links one by one, and lists the previous half edges.
#[tactic(auto, using(crate::proofs::Stages::comes_to_fitting))]
pub(crate) fn check_each(
    links: Links<'_>,
    vertices: usize,
    faces: usize,
    prev: &mut [u32],
) -> Result<(), LinksFault>
    requires { length prev.old ≡ length links.next.now }
    ensures links { OnOk result (PassesLinks (claim_of links.entry vertices faces) prev.new) }
    ensures few { OnOk result (IsFew (claim_of links.entry vertices faces)) }
    ensures some_face { OnOk result (0 < faces) }
    ensures passed { OnOk result (ComesTo (claim_of links.entry vertices faces) FaceRounds) }
    ensures fault { IfErr result (Means (claim_of links.entry vertices faces)) }
    ensures before { IfErr result (λ fault. ComesTo (claim_of links.entry vertices faces) (stage fault)) }
{
    check_sizes(links, vertices, faces)?;
    check_ranges(links, vertices, faces)?;
    if let Some(half) = find_two_leading(links.next, prev) {
        return Err(LinksFault::TwoLeadTo(half));
    }
    check_fit(links, vertices, faces)
}

/// Checks faces, vertices and the surface, in this order, where each link fits.
pub(crate) fn check_whole<A: Allocator + Clone>(
    alloc: &A,
    links: Links<'_>,
    vertices: usize,
    faces: usize,
) -> Result<Result<(), LinksFault>, AllocError>
    requires links { HasLinks (claim_of links vertices faces) }
    requires few { IsFew (claim_of links vertices faces) }
    requires passed { ComesTo (claim_of links vertices faces) FaceRounds }
    ensures whole { IfOk result (λ found. OnOk found (PassesWhole (claim_of links.entry vertices faces))) }
    ensures fault { IfOk result (λ found. IfErr found (Means (claim_of links.entry vertices faces))) }
    ensures before { IfOk result (λ found. IfErr found (λ fault. ComesTo (claim_of links.entry vertices faces) (stage fault))) }
{
    let mut marks = match check_rounds(alloc, links, vertices, faces)? {
        Ok(marks) => marks,
        Err(fault) => return Ok(Err(fault)),
    };
    let mut reached = vec![in alloc.clone()?; false; links.next.len()]?;
    Ok(check_surface(
        links,
        &marks.vertices,
        &marks.faces,
        &mut reached,
        &mut marks.turns,
    ))
}

/// What is noted while rounds are gone.
#[derive(Drop)]
pub(crate) struct Marks<A: Allocator> {
    /// Which vertices have a half edge.
    pub vertices: Vec<bool, A>,
    /// Which faces have one.
    pub faces: Vec<bool, A>,
    /// What comes after the other half of each half edge, and then room for a queue of them.
    pub turns: Vec<u32, A>,
}

/// Checks that each face and each vertex is one round, and marks those that have a half edge.
fn check_rounds<A: Allocator + Clone>(
    alloc: &A,
    links: Links<'_>,
    vertices: usize,
    faces: usize,
) -> Result<Result<Marks<A>, LinksFault>, AllocError>
    requires links { HasLinks (claim_of links vertices faces) }
    requires passed { ComesTo (claim_of links vertices faces) FaceRounds }
    ensures rounds { IfOk result (λ found. OnOk found (HasRounds (claim_of links.entry vertices faces))) }
    ensures marks { IfOk result (λ found. IfOk found (λ marks. AreMarks (claim_of links.entry vertices faces) marks)) }
    ensures passed { IfOk result (λ found. OnOk found (ComesTo (claim_of links.entry vertices faces) UsedFaces)) }
    ensures fault { IfOk result (λ found. IfErr found (Means (claim_of links.entry vertices faces))) }
    ensures before { IfOk result (λ found. IfErr found (λ fault. ComesTo (claim_of links.entry vertices faces) (stage fault))) }
{
    let used_faces = match mark_labels(alloc, links.next, links.face, faces)? {
        Ok(used) => used,
        Err(face) => return Ok(Err(LinksFault::FaceInParts(face))),
    };
    let turns = list_turns(alloc.clone()?, links.next)?;
    match mark_labels(alloc, &turns, links.origin, vertices)? {
        Ok(used_vertices) => Ok(Ok(Marks {
            vertices: used_vertices,
            faces: used_faces,
            turns,
        })),
        Err(vertex) => Ok(Err(LinksFault::VertexInParts(vertex))),
    }
}

/// Checks that each face has a half edge, that the mesh is connected, and Euler's formula.
fn check_surface(
    links: Links<'_>,
    used_vertices: &[bool],
    used_faces: &[bool],
    reached: &mut [bool],
    queue: &mut [u32],
) -> Result<(), LinksFault>
    requires rounds { HasRounds (claim_of links (length used_vertices.now) (length used_faces.now)) }
    requires few { IsFew (claim_of links (length used_vertices.now) (length used_faces.now)) }
    requires passed { ComesTo (claim_of links (length used_vertices.now) (length used_faces.now)) UsedFaces }
    requires vertices { MarksLabels links.origin.now used_vertices.now }
    requires faces { MarksLabels links.face.now used_faces.now }
    requires reached_length { length reached.old ≡ length links.next.now }
    requires queue_length { length queue.old ≡ length links.next.now }
    requires blank { IsBlank reached.old }
    ensures uses { OnOk result (UsesFaces (claim_of links.entry (length used_vertices.now) (length used_faces.now))) }
    ensures one { OnOk result (IsOne (claim_of links.entry (length used_vertices.now) (length used_faces.now))) }
    ensures euler { OnOk result (HasEuler (claim_of links.entry (length used_vertices.now) (length used_faces.now))) }
    ensures fault { IfErr result (Means (claim_of links.entry (length used_vertices.now) (length used_faces.now))) }
    ensures before { IfErr result (λ fault. ComesTo (claim_of links.entry (length used_vertices.now) (length used_faces.now)) (stage fault)) }
{
    if links.next.is_empty() {
        if let Some(face) = find_unmarked(used_faces, 1) {
            return Err(LinksFault::UnusedFace(face));
        }
        return Ok(());
    }
    if let Some(face) = find_unmarked(used_faces, 0) {
        return Err(LinksFault::UnusedFace(face));
    }
    if let Some(half) = find_cut_off(links.next, reached, queue) {
        return Err(LinksFault::NotConnected(half));
    }
    let vertices = count_marks(used_vertices);
    let faces = count_marks(used_faces);
    if !is_sphere(vertices, links.next.len(), faces) {
        return Err(LinksFault::NotSphere(genus(vertices, links.next.len(), faces)));
    }
    Ok(())
}
