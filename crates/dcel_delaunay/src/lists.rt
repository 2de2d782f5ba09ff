//! What a triangulation's mesh has, as lists by number: its points, triangles, neighbors, edges and
//! hull.
//!
//! Each takes the mesh, [`Triangulation::dcel`](crate::Triangulation::dcel) or that of a constrained
//! triangulation. Vertices and edges have their numbers in the mesh, and triangles their place in
//! the list of [`triangles`]: face 1 is the first.

ghost use Rattle.std.specs.Prelude.{◌≡◌, ◌<◌, true, IfOk, map};
ghost use Rattle.dcel_fixed.specs.HalfEdges.{rev};
ghost use Rattle.dcel_maps.specs.Numbers.{numbers_between};
ghost use Rattle.dcel_maps.specs.Removals.{Closed};
ghost use Rattle.dcel_maps.specs.Shapes.{IsLive, face_is_live, face_of, origin_of};
ghost use Rattle.dcel_maps.specs.Triangulations.{AllTriangles};
ghost use Rattle.spade_dcel.specs.Handles.{mesh_behind, number_of};
ghost use Rattle.dcel_delaunay.specs.Lists.{ListsCorners, across_of, corners_of, ends_of, hull_vertices, inner_faces, place_of};

use crate::triangles::Triangle;
use dcel_planar::{Edge, EdgeMesh, Point, point_of};
use spade_dcel::handles::{FaceHandle, InnerTag};
use spade_dcel::iterators::HullIterator;
use spade_dcel::laws::every_mesh;
use std::alloc::{AllocError, Allocator};

/// The triangles across from the corners of a triangle, by their places in the list of
/// [`triangles`]. On the hull there is none.
#[derive(Clone, Copy, PartialEq, Eq, Debug)]
pub struct Across {
    /// The one across from the first corner: it has the other two as corners, too.
    pub first: Option<u32>,
    /// The one across from the second corner.
    pub second: Option<u32>,
    /// The one across from the third corner.
    pub third: Option<u32>,
}

/// The ends of an edge: two vertices, by their numbers.
#[repr(C)]
#[derive(Clone, Copy, PartialEq, Eq, Debug)]
pub struct Ends {
    /// Where its half edge of an even number starts.
    pub from: u32,
    /// Where that ends.
    pub to: u32,
}

/// Returns the point of each vertex, in the order of their numbers.
///
/// If memory runs out it returns `AllocError`.
pub fn points<UE, A: Allocator, B: Allocator>(
    alloc: B,
    mesh: &EdgeMesh<UE, A>,
) -> Result<Vec<Point, B>, AllocError>
    ensures { IfOk result (λ list. list.items ≡ mesh.now.vertex_data) }
{
    every_mesh(mesh);
    let mut list = Vec::with_capacity(alloc, mesh.num_vertices())?;
    for vertex in mesh.vertices() {
        list.push(point_of(vertex))?;
    }
    Ok(list)
}

/// Returns the corners of each triangle, counterclockwise, in the order of the inner faces' numbers.
///
/// They are in the order of [`vertices`](FaceHandle::vertices) of the face.
///
/// Asks that no removal is open (`removal_state()` is `Closed`), as in each triangulation. If memory
/// runs out it returns `AllocError`.
pub fn triangles<UE, A: Allocator, B: Allocator>(
    alloc: B,
    mesh: &EdgeMesh<UE, A>,
) -> Result<Vec<Triangle, B>, AllocError>
    requires { mesh.now.shape.removal ≡ Closed }
    ensures list { IfOk result (λ list. list.items ≡ map (corners_of mesh.now) (inner_faces mesh.now.shape)) }
    ensures corners { IfOk result (λ list. AllTriangles mesh.now.shape → ListsCorners mesh.now.shape list.items) }
{
    every_mesh(mesh);
    let mut list = Vec::with_capacity(alloc, mesh.num_faces() - 1)?;
    for face in mesh.live_inner_faces() {
        list.push(corners(face))?;
    }
    Ok(list)
}

/// Returns for each triangle the ones across from its corners. The triangles and their corners are
/// in the order of [`triangles`].
///
/// Asks that no removal is open (`removal_state()` is `Closed`), as in each triangulation. If memory
/// runs out it returns `AllocError`.
pub fn neighbors<UE, A: Allocator, B: Allocator>(
    alloc: B,
    mesh: &EdgeMesh<UE, A>,
) -> Result<Vec<Across, B>, AllocError>
    requires { mesh.now.shape.removal ≡ Closed }
    ensures { IfOk result (λ list. list.items ≡ map (across_of mesh.now) (inner_faces mesh.now.shape)) }
{
    every_mesh(mesh);
    let mut list = Vec::with_capacity(alloc, mesh.num_faces() - 1)?;
    for face in mesh.live_inner_faces() {
        list.push(across_corners(face))?;
    }
    Ok(list)
}

/// Returns the ends of each edge, in the order of their numbers.
///
/// Asks that no removal is open (`removal_state()` is `Closed`), as in each triangulation. If memory
/// runs out it returns `AllocError`.
pub fn edges<UE, A: Allocator, B: Allocator>(
    alloc: B,
    mesh: &EdgeMesh<UE, A>,
) -> Result<Vec<Ends, B>, AllocError>
    requires { mesh.now.shape.removal ≡ Closed }
    ensures { IfOk result (λ list. list.items ≡ map (ends_of mesh.now.shape) (numbers_between 0 mesh.now.shape.edges)) }
{
    every_mesh(mesh);
    let mut list = Vec::with_capacity(alloc, mesh.num_undirected_edges())?;
    for edge in mesh.live_undirected_edges() {
        let half = edge.as_directed();
        list.push(Ends {
            from: origin(half),
            to: origin(half.rev()),
        })?;
    }
    Ok(list)
}

/// Returns the vertices of the convex hull, counterclockwise, those on its sides too.
///
/// Along a line it goes there and back, so each vertex comes twice but the ends. A vertex alone is
/// the hull. If memory runs out it returns `AllocError`.
pub fn hull<UE, A: Allocator, B: Allocator>(
    alloc: B,
    mesh: &EdgeMesh<UE, A>,
) -> Result<Vec<u32, B>, AllocError>
    ensures { IfOk result (λ list. list.items ≡ hull_vertices mesh.now) }
{
    if mesh.num_undirected_edges() == 0 {
        return vertices(alloc, mesh);
    }
    let mut list = Vec::new(alloc);
    for edge in HullIterator::new(mesh) {
        list.push(origin(edge))?;
    }
    list.reverse();
    Ok(list)
}

/// Returns the numbers of all vertices.
fn vertices<UE, A: Allocator, B: Allocator>(
    alloc: B,
    mesh: &EdgeMesh<UE, A>,
) -> Result<Vec<u32, B>, AllocError>
    ensures { IfOk result (λ list. list.items ≡ numbers_between 0 mesh.now.shape.vertices) }
{
    let mut list = Vec::new(alloc);
    for vertex in mesh.fixed_vertices() {
        list.push(vertex.index() as u32)?;
    }
    Ok(list)
}

/// Returns the corners of a triangle, the one opposite its anchor first.
fn corners<UE, A: Allocator>(face: FaceHandle<'_, InnerTag, Point, (), UE, (), A>) -> Triangle
    requires live { face_is_live (mesh_behind face).shape (number_of face) ≡ true }
    requires inner { 0 < number_of face }
    ensures { result ≡ corners_of (mesh_behind face.entry) (number_of face.entry) }
{
    let edge = face.adjacent_edge();
    Triangle {
        first: origin(edge.prev()),
        second: origin(edge),
        third: origin(edge.next()),
    }
}

/// Returns the triangles across from these corners.
fn across_corners<UE, A: Allocator>(face: FaceHandle<'_, InnerTag, Point, (), UE, (), A>) -> Across
    requires live { face_is_live (mesh_behind face).shape (number_of face) ≡ true }
    requires inner { 0 < number_of face }
    ensures { result ≡ across_of (mesh_behind face.entry) (number_of face.entry) }
{
    let edge = face.adjacent_edge();
    Across {
        first: place_beyond(edge),
        second: place_beyond(edge.next()),
        third: place_beyond(edge.prev()),
    }
}

/// Returns the number of the vertex where a half edge starts.
fn origin<UE, A: Allocator>(edge: Edge<'_, UE, A>) -> u32
    requires { IsLive (mesh_behind edge).shape (number_of edge) }
    ensures { result ≡ origin_of (mesh_behind edge.entry).shape (number_of edge.entry) }
{
    edge.from().fix().index() as u32
}

/// Returns the place of the triangle on the other side of a half edge.
fn place_beyond<UE, A: Allocator>(edge: Edge<'_, UE, A>) -> Option<u32>
    requires { IsLive (mesh_behind edge).shape (number_of edge) }
    ensures { result ≡ place_of (face_of (mesh_behind edge.entry).shape (rev (number_of edge.entry))) }
{
    let face = edge.rev().face().fix().index() as u32;
    face.checked_sub(1)
}
