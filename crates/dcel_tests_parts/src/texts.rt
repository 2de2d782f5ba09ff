//! The texts of faults: of links, of faces, and of runs over lines.

use dcel_bench::checks::same;
use dcel_commands::commands::{Refusal, RunFault};
use dcel_exchange::{FacesError, RefusedFaces};
use spade_dcel::operations::{LinksError, LinksFault, RefusedLinks};
use std::alloc::{AllocError, Global};
use std::fmt::Display;
use std::test::Fail;

/// Writes texts, a line each.
fn lines_of<T: Display>(texts: &[T], alloc: Global) -> Result<String, AllocError> {
    let mut lines = String::new(alloc);
    for text in texts {
        let line = format!(in alloc; "{text}\n")?;
        lines.push_str(&line)?;
    }
    Ok(lines)
}

const OF_LINKS: [LinksError; 7] = [
    LinksError::Edges,
    LinksError::Anchors,
    LinksError::Links(LinksFault::NotSphere(1)),
    LinksError::VertexAnchor(7),
    LinksError::FaceAnchor(0),
    LinksError::FaceAnchor(1),
    LinksError::OutOfMemory,
];

const OF_FACES: [FacesError; 5] = [
    FacesError::SideTwice(0, 2, 4, 7),
    FacesError::Links(LinksFault::TwoLeadTo(2)),
    FacesError::Closed,
    FacesError::Borders,
    FacesError::NotConnected(6),
];

#[test]
fn links_and_faces_are_refused_in_words(rt: HostRuntime) -> Result<(), Fail> {
    let found = lines_of(&OF_LINKS, rt.alloc())?;
    let wanted = "the lists and the data differ in the number of edges
the anchors and the data differ in the number of vertices or faces
no mesh has these links: the surface has genus 1, so it is not a sphere
vertex 7 is not anchored at a half edge that starts there
the outer face is not anchored at a half edge that lies there
face 1 is not anchored at a half edge that lies there
out of memory
";
    same(found.as_str(), wanted, "texts of links")?;
    let found = lines_of(&OF_FACES, rt.alloc())?;
    let wanted = "faces 0 and 2 of the list both have the side from 4 to 7
no mesh has these faces: two half edges lead to half edge 2
no side is left for the outer face
the faces leave more than one border
the faces are not connected: half edge 6 isn't reached from half edge 0
";
    same(found.as_str(), wanted, "texts of faces")
}

#[test]
fn refused_lists_show_the_reason(rt: HostRuntime) -> Result<(), Fail> {
    let links = RefusedLinks {
        reason: LinksError::Links(LinksFault::UnusedFace(0)),
        back: (),
    };
    let faces = RefusedFaces {
        reason: FacesError::TooManyCorners,
        back: (),
    };
    let found = format!(in rt.alloc(); "{links}\n{links:?}\n{faces}\n{faces:?}")?;
    let wanted = "no mesh has these links: no half edge lies on the outer face
RefusedLinks { reason: Links(UnusedFace(0)), .. }
there are more than 2^31 corners
RefusedFaces { reason: TooManyCorners, .. }";
    same(found.as_str(), wanted, "texts of what is refused")
}

#[test]
fn runs_fail_in_words(rt: HostRuntime) -> Result<(), Fail> {
    let faults = [RunFault::Read, RunFault::Write, RunFault::Memory];
    let found = lines_of(&faults, rt.alloc())?;
    same(
        found.as_str(),
        "read failed\nwrite failed\nout of memory\n",
        "texts of runs",
    )?;
    let refusal = Refusal::OutOfMemory;
    same(
        (refusal.name(), refusal.number()),
        ("OutOfMemory", 20),
        "a refusal",
    )
}
