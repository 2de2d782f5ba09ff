//! Constructing a mesh from faces with their corners.

ghost use Rattle.std.specs.Prelude.{◌≡◌, ℕ, ◌+◌, ◌/◌, All, IfErr, IfOk, List, length, map};
ghost use Rattle.dcel_exchange.specs.Closed.{IsInRange};
ghost use Rattle.dcel_exchange.specs.Corners.{corners_of};
ghost use Rattle.dcel_exchange.specs.Defaults.{HasDefaults};
ghost use Rattle.dcel_exchange.specs.Links.{lists_claim};
ghost use Rattle.dcel_exchange.specs.Meshes.{AreLinks, HasFaces};
ghost use Rattle.dcel_exchange.specs.Reasons.{Leaves, Means, fault_reason, reason_for};
ghost use Rattle.dcel_exchange.specs.Simple.{HasCorners, IsSimple};
ghost use Rattle.dcel_links.specs.Meshes.{IsLinked};
ghost use Rattle.dcel_maps.specs.Headline.{FacesAreCycles};
ghost use Rattle.dcel_maps.specs.Removals.{Closed};
ghost use Rattle.dcel_maps.specs.Shapes.{IsMesh};

use crate::linking::{find_border, list_links};
use crate::lists::LinkLists;
use crate::numbering::{Numbering, number_sides};
use crate::refusal::{FacesError, RefusedFaces};
use crate::sides::{check_ends, list_sides};
use spade_dcel::dcel::Dcel;
use spade_dcel::laws::the_headline;
use spade_dcel::operations::{EdgeData, LinksError, LinksFault, MeshData, from_links};
use std::alloc::{AllocError, Allocator};
use std::convert::AsSlice;

/// Constructs a mesh from faces, each the list of its corners, counterclockwise (positively
/// oriented).
///
/// The faces keep their order, from number 1 on; face 0, the outer one, is what they leave. A closed
/// surface leaves nothing, and is refused as [`Closed`](FacesError::Closed):
/// [`from_closed_faces`](crate::from_closed_faces) makes one of its faces the outer one. The vertices keep their numbers, and a vertex need not be a corner. The edges are
/// numbered in the order of their first sides, face by face, and such a side is the even half edge.
/// Data of edges and faces are defaults, and no removal is open.
///
/// Any lists may be given. If they are refused, the data of the vertices are returned with a reason
/// ([`FacesError`]). Then no mesh in which no two edges join the same two vertices has these
/// corners, unless memory ran out or there are too many corners. After
/// [`BorderTwice`](FacesError::BorderTwice) such a mesh may have them, but its outer face passes
/// that vertex twice, and the lists don't say how the faces are arranged around it.
///
/// It reads the sides a fixed number of times, and looks each up once by its ends. For the faces of
/// a mesh that takes linear time in all, and for any other faces at most their number of sides
/// times its square root.
pub fn from_faces<
    V: Drop,
    DE: Drop + Default,
    UE: Drop + Default,
    F: Drop + Default,
    A: Allocator + Clone,
    B: Allocator,
>(
    alloc: A,
    vertices: Vec<V, A>,
    faces: &[Vec<u32, B>],
) -> Result<Dcel<V, DE, UE, F, A>, RefusedFaces<Vec<V, A>>>
    ensures faces { IfOk result (λ dcel. HasFaces dcel.shape (length vertices.items) (corners_of faces.now)) }
    ensures vertices { IfOk result (λ dcel. dcel.vertex_data ≡ vertices.items) }
    ensures half_data { IfOk result (λ dcel. All DE.is_default dcel.directed_data) }
    ensures edge_data { IfOk result (λ dcel. All UE.is_default dcel.undirected_data) }
    ensures face_data { IfOk result (λ dcel. All F.is_default dcel.face_data) }
    ensures closed { IfOk result (λ dcel. dcel.shape.removal ≡ Closed) }
    ensures mesh { IfOk result IsMesh }
    ensures corners { IfOk result (λ dcel. HasCorners dcel.shape (length vertices.items) (corners_of faces.now)) }
    ensures simple { IfOk result (λ dcel. IsSimple dcel.shape) }
    ensures reason { IfErr result (λ refused. Means (length vertices.items) (corners_of faces.now) refused.reason) }
    ensures left { IfErr result (λ refused. Leaves V DE UE F (length vertices.items) (corners_of faces.now) refused.reason) }
    ensures back { IfErr result (λ refused. refused.back ≡ vertices) }
{
    from_lists(alloc, vertices, faces)
}

/// Constructs a mesh from triangles, each its three corners, counterclockwise, as [`from_faces`]
/// does from the same faces.
pub fn from_triangles<
    V: Drop,
    DE: Drop + Default,
    UE: Drop + Default,
    F: Drop + Default,
    A: Allocator + Clone,
>(
    alloc: A,
    vertices: Vec<V, A>,
    triangles: &[[u32; 3]],
) -> Result<Dcel<V, DE, UE, F, A>, RefusedFaces<Vec<V, A>>>
    ensures faces { IfOk result (λ dcel. HasFaces dcel.shape (length vertices.items) triangles.now) }
    ensures vertices { IfOk result (λ dcel. dcel.vertex_data ≡ vertices.items) }
    ensures half_data { IfOk result (λ dcel. All DE.is_default dcel.directed_data) }
    ensures edge_data { IfOk result (λ dcel. All UE.is_default dcel.undirected_data) }
    ensures face_data { IfOk result (λ dcel. All F.is_default dcel.face_data) }
    ensures closed { IfOk result (λ dcel. dcel.shape.removal ≡ Closed) }
    ensures mesh { IfOk result IsMesh }
    ensures corners { IfOk result (λ dcel. HasCorners dcel.shape (length vertices.items) triangles.now) }
    ensures simple { IfOk result (λ dcel. IsSimple dcel.shape) }
    ensures reason { IfErr result (λ refused. Means (length vertices.items) triangles.now refused.reason) }
    ensures left { IfErr result (λ refused. Leaves V DE UE F (length vertices.items) triangles.now refused.reason) }
    ensures back { IfErr result (λ refused. refused.back ≡ vertices) }
{
    from_lists(alloc, vertices, triangles)
}

// Constructs a mesh from faces in whatever lends their corners.
fn from_lists<
    V: Drop,
    DE: Drop + Default,
    UE: Drop + Default,
    F: Drop + Default,
    A: Allocator + Clone,
    S: AsSlice<u32>,
>(
    alloc: A,
    vertices: Vec<V, A>,
    faces: &[S],
) -> Result<Dcel<V, DE, UE, F, A>, RefusedFaces<Vec<V, A>>>
    ensures faces { IfOk result (λ dcel. HasFaces dcel.shape (length vertices.items) (map S.items faces.now)) }
    ensures vertices { IfOk result (λ dcel. dcel.vertex_data ≡ vertices.items) }
    ensures half_data { IfOk result (λ dcel. All DE.is_default dcel.directed_data) }
    ensures edge_data { IfOk result (λ dcel. All UE.is_default dcel.undirected_data) }
    ensures face_data { IfOk result (λ dcel. All F.is_default dcel.face_data) }
    ensures closed { IfOk result (λ dcel. dcel.shape.removal ≡ Closed) }
    ensures mesh { IfOk result IsMesh }
    ensures corners { IfOk result (λ dcel. HasCorners dcel.shape (length vertices.items) (map S.items faces.now)) }
    ensures simple { IfOk result (λ dcel. IsSimple dcel.shape) }
    ensures reason { IfErr result (λ refused. Means (length vertices.items) (map S.items faces.now) refused.reason) }
    ensures left { IfErr result (λ refused. Leaves V DE UE F (length vertices.items) (map S.items faces.now) refused.reason) }
    ensures back { IfErr result (λ refused. refused.back ≡ vertices) }
{
    match link_faces(&alloc, vertices.len(), faces) {
        Ok(links) => from_face_links(alloc, vertices, &links, faces.len()),
        Err(reason) => Err(RefusedFaces {
            reason,
            back: vertices,
        }),
    }
}

/// Constructs a mesh from the links of so many faces and of the border that they leave.
pub(crate) fn from_face_links<
    V: Drop,
    DE: Drop + Default,
    UE: Drop + Default,
    F: Drop + Default,
    A: Allocator + Clone,
>(
    alloc: A,
    vertices: Vec<V, A>,
    links: &LinkLists<A>,
    faces: usize,
) -> Result<Dcel<V, DE, UE, F, A>, RefusedFaces<Vec<V, A>>>
    ensures linked { IfOk result (λ dcel. IsLinked dcel.shape (lists_claim links.now (length vertices.items) (faces + 1))) }
    ensures cycles { IfOk result (λ dcel. FacesAreCycles dcel.shape) }
    ensures vertices { IfOk result (λ dcel. dcel.vertex_data ≡ vertices.items) }
    ensures half_data { IfOk result (λ dcel. All DE.is_default dcel.directed_data) }
    ensures edge_data { IfOk result (λ dcel. All UE.is_default dcel.undirected_data) }
    ensures face_data { IfOk result (λ dcel. All F.is_default dcel.face_data) }
    ensures closed { IfOk result (λ dcel. dcel.shape.removal ≡ Closed) }
    ensures mesh { IfOk result IsMesh }
    ensures reason { (listed : List (List ℕ)) → AreLinks (length vertices.items) listed (lists_claim links.now (length vertices.items) (faces + 1)) → IfErr result (λ refused. Means (length vertices.items) listed refused.reason) }
    ensures in_range { IfErr result (λ refused. IsInRange refused.reason) }
    ensures back { IfErr result (λ refused. refused.back ≡ vertices) }
{
    let Ok((edge_data, face_data)) = make_data(&alloc, links.next.len() / 2, faces) else {
        return Err(RefusedFaces {
            reason: FacesError::OutOfMemory,
            back: vertices,
        });
    };
    let given = MeshData {
        vertices,
        edges: edge_data,
        faces: face_data,
    };
    match from_links(alloc, links.as_links(), given) {
        Ok(dcel) => {
            the_headline(&dcel);
            Ok(dcel)
        }
        Err(refused) => Err(RefusedFaces {
            reason: reason_of(refused.reason),
            back: refused.back.vertices,
        }),
    }
}

// Returns what a refusal by `from_links` says of the faces.
#[tactic(auto, using(crate::proofs::Surfaces::named_in_range))]
fn reason_of(reason: LinksError) -> FacesError
    ensures is { result ≡ reason_for reason }
    ensures in_range { IsInRange result }
{
    match reason {
        LinksError::Links(fault) => name_of(fault),
        _ => FacesError::OutOfMemory,
    }
}

// Returns the reason that a fault of the links is.
fn name_of(fault: LinksFault) -> FacesError
    ensures { result ≡ fault_reason fault }
{
    match fault {
        LinksFault::UnusedFace(0) => FacesError::Closed,
        LinksFault::FaceInParts(0) => FacesError::Borders,
        LinksFault::NotConnected(half) => FacesError::NotConnected(half),
        other => FacesError::Links(other),
    }
}

/// Lists the links of the half edges of these faces and of the border that they leave.
pub(crate) fn link_faces<A: Allocator + Clone, S: AsSlice<u32>>(
    alloc: &A,
    vertices: usize,
    faces: &[S],
) -> Result<LinkLists<A>, FacesError>
    ensures links { IfOk result (λ links. AreLinks vertices (map S.items faces.now) (lists_claim links vertices (length faces.now + 1))) }
    ensures reason { IfErr result (Means vertices (map S.items faces.now)) }
    ensures in_range { IfErr result IsInRange }
{
    let sides = list_sides(alloc, faces)?;
    check_ends(&sides, vertices)?;
    let numbering = number_sides(alloc, &sides, vertices)?;
    let border = find_border(alloc, &sides, &numbering, vertices)?;
    let (next, face) = list_links(alloc, &sides, &numbering, &border)?;
    let Numbering { origin, .. } = numbering;
    Ok(LinkLists { next, origin, face })
}

/// Makes default data for edges, and for faces and the outer one.
fn make_data<DE: Drop + Default, UE: Drop + Default, F: Drop + Default, A: Allocator + Clone>(
    alloc: &A,
    edges: usize,
    faces: usize,
) -> Result<(Vec<EdgeData<DE, UE>, A>, Vec<F, A>), AllocError>
    ensures edges { IfOk result (λ made. length made.0.items ≡ edges) }
    ensures faces { IfOk result (λ made. length made.1.items ≡ faces + 1) }
    ensures each_edge { IfOk result (λ made. All (HasDefaults DE.is_default UE.is_default) made.0.items) }
    ensures each_face { IfOk result (λ made. All F.is_default made.1.items) }
{
    let edge_data = make_edges(alloc.clone()?, edges)?;
    let face_data = make_faces(alloc.clone()?, faces)?;
    Ok((edge_data, face_data))
}

/// Makes default data for that many edges.
fn make_edges<DE: Drop + Default, UE: Drop + Default, A: Allocator>(
    alloc: A,
    count: usize,
) -> Result<Vec<EdgeData<DE, UE>, A>, AllocError>
    ensures count { IfOk result (λ made. length made.items ≡ count) }
    ensures each { IfOk result (λ made. All (HasDefaults DE.is_default UE.is_default) made.items) }
{
    let mut made = Vec::new(alloc);
    for number in 0..count {
        made.push(EdgeData {
            normalized: DE::default(),
            reversed: DE::default(),
            undirected: UE::default(),
        })?;
    }
    Ok(made)
}

/// Makes default data for that many faces and the outer one.
fn make_faces<F: Drop + Default, A: Allocator>(
    alloc: A,
    count: usize,
) -> Result<Vec<F, A>, AllocError>
    ensures count { IfOk result (λ made. length made.items ≡ count + 1) }
    ensures each { IfOk result (λ made. All F.is_default made.items) }
{
    let mut made = Vec::new(alloc);
    made.push(F::default())?;
    for number in 0..count {
        made.push(F::default())?;
    }
    Ok(made)
}
