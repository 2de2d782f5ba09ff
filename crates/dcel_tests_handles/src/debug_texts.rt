//! The `{:?}` texts of borrowed handles.

use crate::borrowed::{live_half_edge, vertex_of};
use dcel_bench::checks::same;
use dcel_bench::lines::{CUT, grown};
use dcel_bench::meshes::{Mesh, inner_face};
use dcel_bench::require;
use spade_dcel::handles::PossiblyOuterTag;
use std::alloc::Global;
use std::test::Fail;

/// A borrowed handle, by number.
#[derive(Clone, Copy, Debug)]
enum Handle {
    Vertex(u32),
    HalfEdge(u32),
    /// The edge of the other half of this half edge.
    EdgeOf(u32),
    Outer,
    /// An inner face.
    Inner(u32),
    /// The same, as a face that may be the outer one.
    Face(u32),
}

use Handle::{EdgeOf, Face, HalfEdge, Inner, Outer, Vertex};

/// Handles, each with its text.
type Texts = &'static [(Handle, &'static str)];

/// The lines of meshes, and texts of handles there.
const ROWS: [(&str, Texts); 3] = [
    // A triangle that vertex 3 cuts into three.
    (
        CUT,
        &[
            (Vertex(3), "VertexHandle(3)"),
            (
                HalfEdge(6),
                "DirectedEdgeHandle - id: 6 (FixedHandle { index: 0 } -> FixedHandle { index: 3 })",
            ),
            (
                EdgeOf(6),
                "UndirectedEdgeHandle - id: 3 (FixedHandle { index: 0 } <-> FixedHandle { index: 3 })",
            ),
            (Outer, "OuterFace"),
            (Inner(1), "FaceHandle - id: 1 (3, 1, 0)"),
            (Face(1), "FaceHandle - id: 1 (3, 1, 0)"),
        ],
    ),
    // A face that a removal has given up has no anchor.
    (
        "triangle 0 1 2\nappend 3\ninsert 3 1\nisolate 3 1 3 5",
        &[(Inner(2), "FaceHandle - id: 2 (none)")],
    ),
    // Neither has the outer face of a mesh without edges.
    (
        "",
        &[
            (Inner(0), "FaceHandle - id: 0 (none)"),
            (Outer, "OuterFace"),
        ],
    ),
];

fn edge_text(dcel: &Mesh, index: u32, alloc: Global) -> Result<String, Fail> {
    let edge = live_half_edge(dcel, index)?.rev().as_undirected();
    Ok(format!(in alloc; "{edge:?}")?)
}

fn inner_text(dcel: &Mesh, index: u32, alloc: Global) -> Result<String, Fail> {
    let handle = inner_face(index);
    require!(handle.index() < dcel.num_faces());
    let face = dcel.face(handle);
    Ok(format!(in alloc; "{face:?}")?)
}

fn face_text(dcel: &Mesh, index: u32, alloc: Global) -> Result<String, Fail> {
    let handle = inner_face(index).adjust_inner_outer::<PossiblyOuterTag>();
    require!(handle.index() < dcel.num_faces());
    let face = dcel.face(handle);
    Ok(format!(in alloc; "{face:?}")?)
}

fn vertex_text(dcel: &Mesh, index: u32, alloc: Global) -> Result<String, Fail> {
    let vertex = vertex_of(dcel, index)?;
    Ok(format!(in alloc; "{vertex:?}")?)
}

fn half_edge_text(dcel: &Mesh, index: u32, alloc: Global) -> Result<String, Fail> {
    let edge = live_half_edge(dcel, index)?;
    Ok(format!(in alloc; "{edge:?}")?)
}

/// Returns the `{:?}` text of the handle.
fn text_of(dcel: &Mesh, handle: Handle, alloc: Global) -> Result<String, Fail> {
    match handle {
        Vertex(index) => vertex_text(dcel, index, alloc),
        HalfEdge(index) => half_edge_text(dcel, index, alloc),
        EdgeOf(index) => edge_text(dcel, index, alloc),
        Outer => Ok(format!(in alloc; "{:?}", dcel.outer_face())?),
        Inner(index) => inner_text(dcel, index, alloc),
        Face(index) => face_text(dcel, index, alloc),
    }
}

fn check_texts(dcel: &Mesh, texts: Texts, alloc: Global) -> Result<(), Fail> {
    for (handle, wanted) in texts {
        let text = text_of(dcel, *handle, alloc)?;
        same(
            text.as_str(),
            *wanted,
            format_args!("the text of {handle:?}"),
        )?;
    }
    Ok(())
}

/// Makes a mesh by its lines, and checks the texts of handles there.
fn check_row((lines, texts): (&str, Texts), alloc: Global) -> Result<(), Fail> {
    let dcel = grown(alloc, lines)?;
    check_texts(&dcel, texts, alloc)
}

#[test]
fn handles_have_texts(rt: HostRuntime) -> Result<(), Fail> {
    for row in ROWS {
        check_row(row, rt.alloc())?;
    }
    Ok(())
}
