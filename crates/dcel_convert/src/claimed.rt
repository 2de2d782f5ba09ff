//! The mesh that a file of words claims.

use crate::claim::{Claim, Lines};
use crate::fault::{Fault, Wrong, at_all, at_line};
use crate::meshing::{Mesh, Solid, is_simple, list_corners};
use dcel_exchange::LinkLists;
use spade_dcel::handles::{FixedDirectedEdgeHandle, FixedFaceHandle, PossiblyOuterTag};
use spade_dcel::operations::{EdgeData, LinksError, LinksFault, MeshData, from_links};
use std::alloc::{AllocError, Global};

/// The data of a mesh.
type Given = MeshData<String, (), (), usize, Global>;

/// Makes the mesh that is claimed, with all coordinates 0. Whether it has the turns that are
/// claimed, and the outer face, is for [`check`].
pub fn claimed_mesh(alloc: Global, claim: &Claim) -> Result<Solid, Fault> {
    let mut links = LinkLists {
        next: Vec::new(alloc),
        origin: Vec::new(alloc),
        face: Vec::new(alloc),
    };
    match claim.list_links(alloc, &mut links) {
        Ok(()) => linked(alloc, claim, &links),
        Err(fault) => Err(fault),
    }
}

/// Makes the mesh that has these links. If there is none, the line is told that shows it, where one
/// does.
fn linked(alloc: Global, claim: &Claim, links: &LinkLists) -> Result<Solid, Fault> {
    let mut given = MeshData {
        vertices: Vec::new(alloc),
        edges: Vec::new(alloc),
        faces: Vec::new(alloc),
    };
    if let Err(error) = fill(alloc, claim, links.next.len() / 2, &mut given) {
        return Err(Fault::OutOfMemory(error));
    }
    match from_links(alloc, links.as_links(), given) {
        Ok(mesh) => Ok(Solid {
            mesh,
            outer: claim.closed,
        }),
        Err(refused) => Err(fault_of(refused.reason, claim, links)),
    }
}

/// Looks whether the mesh has the turns and the outer face that are claimed.
pub fn check(alloc: Global, mesh: &Mesh, claim: &Claim) -> Result<(), Fault> {
    check_turns(mesh, claim)?;
    check_outer(alloc, mesh, claim)
}

/// Fills in data for a mesh with so many edges.
fn fill(alloc: Global, claim: &Claim, edges: usize, given: &mut Given) -> Result<(), AllocError> {
    fill_places(alloc, claim.turns.len(), &mut given.vertices)?;
    fill_edges(edges, &mut given.edges)?;
    given.faces = vec![in alloc; 0; claim.words.len()]?;
    Ok(())
}

fn fill_places(alloc: Global, count: usize, places: &mut Vec<String>) -> Result<(), AllocError> {
    for _ in 0..count {
        let place = String::from_str(alloc, "0 0 0")?;
        places.push(place)?;
    }
    Ok(())
}

fn fill_edges(edges: usize, data: &mut Vec<EdgeData<(), ()>>) -> Result<(), AllocError> {
    for _ in 0..edges {
        data.push(EdgeData {
            normalized: (),
            reversed: (),
            undirected: (),
        })?;
    }
    Ok(())
}

/// Looks for a turn in another order than that of `ccw` in the mesh.
fn check_turns(mesh: &Mesh, claim: &Claim) -> Result<(), Fault> {
    for (vertex, turn) in claim.turns.iter().enumerate() {
        if let Some((half, after, said)) = other_turn(mesh, turn) {
            let line = claim.line_of(Lines::Turns, vertex);
            return Err(at_line(line, Wrong::OtherTurn(half, after, said)));
        }
    }
    Ok(())
}

/// Returns a half edge of a turn, what comes after it by `ccw`, and what comes after it in the turn,
/// if these aren't the same.
fn other_turn(mesh: &Mesh, turn: &[u32]) -> Option<(u32, usize, u32)> {
    let behind = turn.iter().skip(1).chain(turn.first());
    for (half, said) in turn.iter().zip(behind) {
        let edge = FixedDirectedEdgeHandle::new(*half as usize);
        if let Some(edge) = mesh.get_directed_edge(edge) {
            let after = edge.ccw().index();
            if after != *said as usize {
                return Some((*half, after, *said));
            }
        }
    }
    None
}

/// Looks whether the outer face can be one of the surface, if it is said to be.
fn check_outer(alloc: Global, mesh: &Mesh, claim: &Claim) -> Result<(), Fault> {
    if claim.closed.is_some() && !can_be_outer(alloc, mesh)? {
        let line = claim.line_of(Lines::Turns, claim.turns.len());
        return Err(at_line(line, Wrong::NO_OUTER_FACE));
    }
    Ok(())
}

/// Returns whether the outer face can be one of the surface.
fn can_be_outer(alloc: Global, mesh: &Mesh) -> Result<bool, AllocError> {
    let mut corners = Vec::new(alloc);
    if let Some(face) = mesh.get_face(FixedFaceHandle::<PossiblyOuterTag>::new(0)) {
        list_corners(face, &mut corners)?;
    }
    if corners.len() < 3 {
        return Ok(false);
    }
    is_simple(alloc, &corners)
}

/// Returns the reason, with the line that shows it, if one does.
fn fault_of(reason: LinksError, claim: &Claim, links: &LinkLists) -> Fault {
    let fault = match reason {
        LinksError::Links(fault) => fault,
        LinksError::OutOfMemory => return Fault::OutOfMemory(AllocError),
        other => return at_all(Wrong::Lists(other)),
    };
    let wrong = Wrong::Links(fault);
    match line_of(fault, claim, links) {
        Some(line) => at_line(line, wrong),
        None => at_all(wrong),
    }
}

/// Returns the line that shows a fault: the counts, a word or a turn.
fn line_of(fault: LinksFault, claim: &Claim, links: &LinkLists) -> Option<usize> {
    match fault {
        LinksFault::NoFace | LinksFault::MoreFaces => Some(1),
        LinksFault::OneEnd(half) => {
            let vertex = links.origin.get(half)?;
            Some(claim.line_of(Lines::Turns, *vertex as usize))
        }
        LinksFault::Apart(half) | LinksFault::NotConnected(half) => {
            let face = links.face.get(half)?;
            Some(claim.line_of(Lines::Words, *face as usize))
        }
        LinksFault::FaceInParts(face) | LinksFault::UnusedFace(face) => {
            Some(claim.line_of(Lines::Words, face))
        }
        LinksFault::VertexInParts(vertex) => Some(claim.line_of(Lines::Turns, vertex)),
        _ => None,
    }
}
