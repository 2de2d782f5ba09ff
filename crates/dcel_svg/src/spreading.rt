//! Places for the vertices of any mesh.

ghost use Rattle.std.specs.Prelude.{◌<◌};

use crate::bowing::bow;
use crate::given_up::{set_aside, set_given_up};
use crate::layout::Layout;
use crate::net::net_of;
use crate::rows::{is_path, set_row};
use dcel_drawn::{Bend, Place, Places, round};
use spade_dcel::dcel::Dcel;
use spade_dcel::handles::{
    FixedDirectedEdgeHandle, FixedFaceHandle, FixedUndirectedEdgeHandle, FixedVertexHandle,
    InnerTag, PossiblyOuterTag,
};
use std::alloc::{AllocError, Allocator};

/// Finds places for the vertices of a mesh, and arcs for edges that join the same two vertices; all
/// other edges are straight.
///
/// They are chosen so that no live edge crosses another. This isn't proved: the pictures of meshes
/// made at random are tested for it. It is left open where a vertex lies twice on an inner face, and
/// where edges are nearer than the tenths to which [`write_svg`](crate::write_svg) rounds, as among
/// thousands of vertices. An edge from a vertex to itself has no length. If memory runs out it
/// returns `AllocError`.
///
/// The vertices of a path stand in a row. Vertices without an edge get no place.
///
/// If a removal is open, and it is told what the mesh was `before`, what was given up gets places
/// too. All places are those of before if the faces that are live now lie well there, and no vertex
/// has got its first edge since; else the vertex that was given up stands among those that were its
/// neighbors. Edges that were given up may cross any others, and are arcs where a live one joins the
/// same two vertices.
pub fn spread<V, DE, UE, F, A: Allocator, B: Allocator + Copy>(
    alloc: B,
    mesh: &Dcel<V, DE, UE, F, A>,
    before: Option<&Dcel<V, DE, UE, F, A>>,
) -> Result<Places<B>, AllocError> {
    let mut places = Places {
        vertices: Vec::new(alloc),
        bends: Vec::new(alloc),
    };
    for _ in 0..mesh.num_vertices() {
        places.vertices.push(None)?;
    }
    match before {
        Some(before) => {
            set_live(alloc, before, &mut places)?;
            if !has_places(mesh, &places) || !fits(mesh, before, &places) {
                places.vertices.fill(None);
                places.bends.clear();
                set_live(alloc, mesh, &mut places)?;
                set_given_up(mesh, before, &mut places.vertices);
            }
            set_aside(mesh, before, &mut places.vertices);
        }
        None => set_live(alloc, mesh, &mut places)?,
    }
    bow(alloc, mesh, before, &mut places)?;
    Ok(places)
}

/// Returns whether each vertex that has an edge has a place.
pub(crate) fn has_places<V, DE, UE, F, A: Allocator, B: Allocator>(
    mesh: &Dcel<V, DE, UE, F, A>,
    places: &Places<B>,
) -> bool {
    for number in 0..mesh.num_vertices() {
        if has_edge(mesh, number) && places.vertex(number).is_none() {
            return false;
        }
    }
    true
}

/// Returns whether the corners of each live triangle have places that go round counterclockwise, and
/// the sides of each new one are straight.
fn fits<V, DE, UE, F, A: Allocator, B: Allocator>(
    mesh: &Dcel<V, DE, UE, F, A>,
    before: &Dcel<V, DE, UE, F, A>,
    places: &Places<B>,
) -> bool {
    for number in 1..mesh.num_faces() {
        let face: FixedFaceHandle<InnerTag> = FixedFaceHandle::new(number);
        if !before.is_live_face(face) && has_arc(mesh, FixedFaceHandle::new(number), places) {
            return false;
        }
        if !lies_well(mesh, face, places) {
            return false;
        }
    }
    true
}

/// Returns whether the corners of a face have places that go round counterclockwise, if it is a live
/// triangle.
pub(crate) fn lies_well<V, DE, UE, F, A: Allocator, B: Allocator>(
    mesh: &Dcel<V, DE, UE, F, A>,
    face: FixedFaceHandle<InnerTag>,
    places: &Places<B>,
) -> bool
    requires { 0 < face }
{
    if mesh.is_triangle(face) {
        let [a, b, c] = mesh.face(face).vertices();
        let corners = (
            places.vertex(a.index()),
            places.vertex(b.index()),
            places.vertex(c.index()),
        );
        let (Some(a), Some(b), Some(c)) = corners else {
            return false;
        };
        let (near, far) = (b.minus(a), c.minus(a));
        // Neither turned over nor all but flat.
        return !(near.cross(far) < 0.02 * (near.dot(near) + far.dot(far)));
    }
    true
}

/// Returns whether a side of a face is an arc.
fn has_arc<V, DE, UE, F, A: Allocator, B: Allocator>(
    mesh: &Dcel<V, DE, UE, F, A>,
    face: FixedFaceHandle<PossiblyOuterTag>,
    places: &Places<B>,
) -> bool {
    for edge in round(mesh, face) {
        if places.bend(edge.fix().as_undirected().index()).is_some() {
            return true;
        }
    }
    false
}

/// Gives places to the vertices that have an edge, and to the bends of edges.
fn set_live<V, DE, UE, F, A: Allocator, B: Allocator + Copy>(
    alloc: B,
    mesh: &Dcel<V, DE, UE, F, A>,
    places: &mut Places<B>,
) -> Result<(), AllocError> {
    if is_path(mesh) {
        set_row(mesh, &mut places.vertices);
        return Ok(());
    }
    set_spread(alloc, mesh, places)
}

/// Does the same by a net of triangles, for a mesh that is no path.
fn set_spread<V, DE, UE, F, A: Allocator, B: Allocator + Copy>(
    alloc: B,
    mesh: &Dcel<V, DE, UE, F, A>,
    places: &mut Places<B>,
) -> Result<(), AllocError> {
    let mut net = net_of(alloc, mesh)?;
    let mut layout = Layout::of(alloc, &mut net)?;
    layout.turn(upright(mesh, &layout));
    for (number, place) in places.vertices.iter_mut().enumerate() {
        if has_edge(mesh, number) {
            *place = Some(layout.place(number));
        }
    }
    for number in 0..mesh.num_undirected_edges() {
        let half = FixedUndirectedEdgeHandle::new(number).as_directed();
        let bend = arc_of(mesh, &layout, half, net.bend(number));
        places.bends.push(bend)?;
    }
    Ok(())
}

/// Returns how a half edge goes round, if it bends at a node.
fn arc_of<V, DE, UE, F, A: Allocator, B: Allocator + Copy>(
    mesh: &Dcel<V, DE, UE, F, A>,
    layout: &Layout<B>,
    half: FixedDirectedEdgeHandle,
    node: Option<usize>,
) -> Option<Bend> {
    let edge = mesh.get_directed_edge(half)?;
    Some(layout.arc(edge.from().index(), edge.to().index(), node?))
}

pub(crate) fn has_edge<V, DE, UE, F, A: Allocator>(
    mesh: &Dcel<V, DE, UE, F, A>,
    vertex: usize,
) -> bool {
    vertex < mesh.num_vertices()
        && mesh
            .vertex_out_edge(FixedVertexHandle::new(vertex))
            .is_some()
}

/// Returns the direction that is to lead to the left: that of the least half edge of the outer
/// face, which so lies at the bottom.
fn upright<V, DE, UE, F, A: Allocator, B: Allocator + Copy>(
    mesh: &Dcel<V, DE, UE, F, A>,
    layout: &Layout<B>,
) -> Place {
    for number in 0..mesh.num_directed_edges() {
        if let Some(edge) = mesh.get_directed_edge(FixedDirectedEdgeHandle::new(number)) {
            if edge.face().index() == 0 {
                let (from, to) = (edge.from().index(), edge.to().index());
                return layout.place(to).minus(layout.place(from)).unit();
            }
        }
    }
    Place::new(-1.0, 0.0)
}
