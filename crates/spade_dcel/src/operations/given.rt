//! Constructing a mesh from lists of links, with chosen or given anchors.

ghost use Rattle.std.specs.Prelude.{◌≡◌, ℕ, ◌/◌, ◌<◌, IfErr, IfOk, IfSome, OnOk, length, vec_len};
ghost use Rattle.dcel_edits.specs.Adding.{IsEmpty};
ghost use Rattle.dcel_links.specs.Claims.{IsMeshOf};
ghost use Rattle.dcel_links.specs.Meshes.{IsLinked};
ghost use Rattle.dcel_maps.specs.Numbers.{IsLast};
ghost use Rattle.dcel_maps.specs.Shapes.{IsMesh, Mesh, face_anchor, face_count, vertex_anchor};
ghost use Rattle.dcel_store.specs.EdgeLists.{edges_data, halves_data};
ghost use Rattle.dcel_store.specs.Lists.{HasPlaces};
ghost use Rattle.spade_dcel.specs.Linked.{AreRight, HasFaceAnchors, HasVertexAnchors, Refuses, RefusesAnchored, RefusesGiven, RefusesLinks, claimed, given_stored};

use crate::dcel::Dcel;
use crate::operations::create::with_room;
use dcel_edits::given::{put_anchored_mesh, put_mesh};
pub use dcel_links::{Links, LinksFault};
use dcel_links::{check_links, find_wrong_anchor};
pub use dcel_store::EdgeData;
use dcel_store::Store;
use std::alloc::{Allocator, Global};
use std::error::Error;
use std::fmt;

/// The data of a mesh, by number.
#[derive(Drop)]
pub struct MeshData<V, DE, UE, F, A: Allocator = Global> {
    /// A datum for each vertex.
    pub vertices: Vec<V, A>,

    /// The data of each edge: those of its half edges, and its own.
    pub edges: Vec<EdgeData<DE, UE>, A>,

    /// A datum for each face, that of the outer one first.
    pub faces: Vec<F, A>,
}

/// The anchors of a mesh, by number.
#[derive(Clone, Copy, PartialEq, Eq, Debug)]
pub struct Anchors<'a> {
    /// A half edge that starts at each vertex, or None where none does.
    pub vertices: &'a [Option<u32>],

    /// A half edge of each face's boundary cycle, or None where that is empty.
    pub faces: &'a [Option<u32>],
}

/// The reason why links were refused, in the order in which reasons are looked for.
#[derive(Clone, Copy, PartialEq, Eq, Debug, Drop)]
pub enum LinksError {
    /// The data are for more or fewer edges than the lists have.
    Edges,

    /// The anchors of vertices or of faces are more or fewer than the data of that kind.
    Anchors,

    /// No mesh has these links. This is a first fault: none is found in an earlier stage.
    Links(LinksFault),

    /// The anchor of this vertex doesn't start there, or is missing although a half edge does.
    VertexAnchor(usize),

    /// The anchor of this face isn't on it, or is missing although a half edge is.
    FaceAnchor(usize),

    /// Memory ran out. That can come at any stage, even before a fault is found.
    OutOfMemory,
}

impl fmt::Display for LinksError {
    fn fmt<W: fmt::Write>(&self, f: &mut fmt::Formatter<W>) -> fmt::Result {
        match *self {
            LinksError::Edges => write!(f, "the lists and the data differ in the number of edges"),
            LinksError::Anchors => write!(
                f,
                "the anchors and the data differ in the number of vertices or faces"
            ),
            LinksError::Links(fault) => write!(f, "no mesh has these links: {fault}"),
            LinksError::VertexAnchor(vertex) => {
                write!(
                    f,
                    "vertex {vertex} is not anchored at a half edge that starts there"
                )
            }
            LinksError::FaceAnchor(0) => write!(
                f,
                "the outer face is not anchored at a half edge that lies there"
            ),
            LinksError::FaceAnchor(face) => {
                write!(
                    f,
                    "face {face} is not anchored at a half edge that lies there"
                )
            }
            LinksError::OutOfMemory => write!(f, "out of memory"),
        }
    }
}

impl Error for LinksError {}

/// The data that were passed in, returned with the reason why there is no mesh.
///
/// It converts to [`LinksError`], so `?` passes on the reason where the data may be dropped.
#[derive(Drop)]
pub struct RefusedLinks<T> {
    /// The reason.
    pub reason: LinksError,

    /// The value that was passed in.
    pub back: T,
}

impl<T> fmt::Debug for RefusedLinks<T> {
    /// Shows the reason alone, so that the value may be of any type.
    fn fmt<W: fmt::Write>(&self, f: &mut fmt::Formatter<W>) -> fmt::Result {
        f.debug_struct("RefusedLinks")
            .field("reason", &self.reason)
            .finish_non_exhaustive()
    }
}

impl<T> fmt::Display for RefusedLinks<T> {
    fn fmt<W: fmt::Write>(&self, f: &mut fmt::Formatter<W>) -> fmt::Result {
        write!(f, "{}", self.reason)
    }
}

impl<T: Drop> Error for RefusedLinks<T> {}

impl<T: Drop> From<RefusedLinks<T>> for LinksError {
    ghost from_gives = { λ refused reason. reason ≡ refused.reason };

    /// Returns the reason, and drops the value.
    fn from(refused: RefusedLinks<T>) -> LinksError {
        refused.reason
    }
}

/// Constructs a mesh with these links and data.
///
/// The lists of links have an item for each half edge. Half edges `2 * u` and `2 * u + 1` are edge
/// `u`, and face 0 is the outer face. There are as many vertices and faces as `given` has data for.
/// Each vertex and each face is anchored at its half edge with the greatest number, and no removal
/// is open.
///
/// Any lists may be given. Data for more or fewer edges than the lists have are refused as
/// [`LinksError::Edges`]. Otherwise, if some mesh has these links, the result is that mesh, with
/// the same words; if none has, the reason is [`LinksError::Links`] with a first [`LinksFault`]. A
/// refusal returns the data, also if memory runs out. The lists are read a fixed number of times.
pub fn from_links<V: Drop, DE: Drop, UE: Drop, F: Drop, A: Allocator + Clone>(
    alloc: A,
    links: Links<'_>,
    given: MeshData<V, DE, UE, F, A>,
) -> Result<Dcel<V, DE, UE, F, A>, RefusedLinks<MeshData<V, DE, UE, F, A>>>
    ensures links { IfOk result (λ dcel. IsLinked dcel.shape (claimed links.entry given)) }
    ensures only { IfOk result (λ dcel. (m : Mesh V DE UE F) → IsMesh m → IsLinked m.shape (claimed links.entry given) → m.shape ≡ dcel.shape) }
    ensures vertices { IfOk result (λ dcel. dcel.vertex_data ≡ given.vertices.items) }
    ensures halves { IfOk result (λ dcel. dcel.directed_data ≡ halves_data given.edges.items) }
    ensures edges { IfOk result (λ dcel. dcel.undirected_data ≡ edges_data given.edges.items) }
    ensures faces { IfOk result (λ dcel. dcel.face_data ≡ given.faces.items) }
    ensures vertex_anchors { IfOk result (λ dcel. (v : ℕ) → v < dcel.shape.vertices → IsLast links.entry.origin.now v (vertex_anchor dcel v)) }
    ensures face_anchors { IfOk result (λ dcel. (f : ℕ) → f < face_count dcel.shape → IsLast links.entry.face.now f (face_anchor dcel f)) }
    ensures mesh { IfOk result IsMesh }
    ensures reason { IfErr result (λ refused. Refuses V DE UE F (claimed links.entry given) (length given.edges.items) refused.reason) }
    ensures back { IfErr result (λ refused. refused.back ≡ given) }
{
    make(alloc, links, None, given)
}

/// Constructs a mesh with these links, anchors and data.
///
/// Links and data are as [`from_links`] takes them. Each vertex and each face has the anchor that
/// is given for it: a half edge that starts there or is on the face, or None if there is none. So
/// walks start where they start in the mesh that the links and anchors come from.
///
/// Any lists may be given. If no mesh has these links and anchors, the data come back with the
/// reason, and if memory runs out they come back too. The lists are read a fixed number of times.
pub fn from_anchored_links<V: Drop, DE: Drop, UE: Drop, F: Drop, A: Allocator + Clone>(
    alloc: A,
    links: Links<'_>,
    anchors: Anchors<'_>,
    given: MeshData<V, DE, UE, F, A>,
) -> Result<Dcel<V, DE, UE, F, A>, RefusedLinks<MeshData<V, DE, UE, F, A>>>
    ensures links { IfOk result (λ dcel. IsLinked dcel.shape (claimed links.entry given)) }
    ensures only { IfOk result (λ dcel. (m : Mesh V DE UE F) → IsMesh m → IsLinked m.shape (claimed links.entry given) → m.shape ≡ dcel.shape) }
    ensures vertices { IfOk result (λ dcel. dcel.vertex_data ≡ given.vertices.items) }
    ensures halves { IfOk result (λ dcel. dcel.directed_data ≡ halves_data given.edges.items) }
    ensures edges { IfOk result (λ dcel. dcel.undirected_data ≡ edges_data given.edges.items) }
    ensures faces { IfOk result (λ dcel. dcel.face_data ≡ given.faces.items) }
    ensures vertex_anchors { IfOk result (λ dcel. dcel.vertex_anchors ≡ anchors.entry.vertices.now) }
    ensures face_anchors { IfOk result (λ dcel. dcel.face_anchors ≡ anchors.entry.faces.now) }
    ensures mesh { IfOk result IsMesh }
    ensures reason { IfErr result (λ refused. RefusesAnchored V DE UE F (claimed links.entry given) (length given.edges.items)
        anchors.entry.vertices.now anchors.entry.faces.now refused.reason) }
    ensures back { IfErr result (λ refused. refused.back ≡ given) }
{
    make(alloc, links, Some(anchors), given)
}

// Constructs a mesh with these anchors, or with the last half edge of each vertex and face.
fn make<V: Drop, DE: Drop, UE: Drop, F: Drop, A: Allocator + Clone>(
    alloc: A,
    links: Links<'_>,
    anchors: Option<Anchors<'_>>,
    given: MeshData<V, DE, UE, F, A>,
) -> Result<Dcel<V, DE, UE, F, A>, RefusedLinks<MeshData<V, DE, UE, F, A>>>
    ensures links { IfOk result (λ dcel. IsLinked dcel.shape (claimed links.entry given)) }
    ensures only { IfOk result (λ dcel. (m : Mesh V DE UE F) → IsMesh m → IsLinked m.shape (claimed links.entry given) → m.shape ≡ dcel.shape) }
    ensures vertices { IfOk result (λ dcel. dcel.vertex_data ≡ given.vertices.items) }
    ensures halves { IfOk result (λ dcel. dcel.directed_data ≡ halves_data given.edges.items) }
    ensures edges { IfOk result (λ dcel. dcel.undirected_data ≡ edges_data given.edges.items) }
    ensures faces { IfOk result (λ dcel. dcel.face_data ≡ given.faces.items) }
    ensures vertex_anchors { IfOk result (HasVertexAnchors links.entry anchors.entry) }
    ensures face_anchors { IfOk result (HasFaceAnchors links.entry anchors.entry) }
    ensures mesh { IfOk result IsMesh }
    ensures reason { IfErr result (λ refused. RefusesGiven V DE UE F (claimed links.entry given) (length given.edges.items) anchors.entry refused.reason) }
    ensures back { IfErr result (λ refused. refused.back ≡ given) }
{
    let prev = match check(&alloc, links, anchors, &given) {
        Ok(prev) => prev,
        Err(reason) => {
            return Err(RefusedLinks {
                reason,
                back: given,
            });
        }
    };
    let (vertices, edges, faces) = (given.vertices.len(), given.edges.len(), given.faces.len());
    let Ok((mut store, removal)) = with_room(alloc, vertices, edges, faces) else {
        return Err(RefusedLinks {
            reason: LinksError::OutOfMemory,
            back: given,
        });
    };
    put(&mut store, links, &prev, anchors, given);
    Ok(Dcel { store, removal })
}

// Writes what is given into an empty store.
fn put<V: Drop, DE: Drop, UE: Drop, F: Drop, A: Allocator>(
    store: &mut Store<V, DE, UE, F, A>,
    links: Links<'_>,
    prev: &[u32],
    anchors: Option<Anchors<'_>>,
    given: MeshData<V, DE, UE, F, A>,
)
    requires empty { IsEmpty store.old }
    requires places { HasPlaces store.old (vec_len given.vertices) (vec_len given.edges) (vec_len given.faces) }
    requires edges { length links.next.now / 2 ≡ length given.edges.items }
    requires mesh { IsMeshOf (claimed links given) prev.now }
    requires anchors { IfSome anchors (λ chosen. AreRight (claimed links given) chosen.vertices.now chosen.faces.now) }
    ensures { store.new ≡ given_stored store.old links.entry prev.now anchors.entry given }
{
    let Links { next, origin, face } = links;
    let MeshData {
        vertices,
        edges,
        faces,
    } = given;
    match anchors {
        Some(anchors) => put_anchored_mesh(
            store,
            next,
            prev,
            origin,
            face,
            anchors.vertices,
            anchors.faces,
            vertices,
            edges,
            faces,
        ),
        None => put_mesh(store, next, prev, origin, face, vertices, edges, faces),
    }
}

// Looks for what is wrong with what is given; if it is nothing, returns the links backwards.
fn check<V, DE, UE, F, A: Allocator + Clone>(
    alloc: &A,
    links: Links<'_>,
    anchors: Option<Anchors<'_>>,
    given: &MeshData<V, DE, UE, F, A>,
) -> Result<Vec<u32, A>, LinksError>
    ensures edges { OnOk result (length links.entry.next.now / 2 ≡ length given.now.edges.items) }
    ensures mesh { IfOk result (λ prev. IsMeshOf (claimed links.entry given.now) prev.items) }
    ensures anchors { OnOk result (IfSome anchors.entry (λ chosen. AreRight (claimed links.entry given.now) chosen.vertices.now chosen.faces.now)) }
    ensures reason { IfErr result (RefusesGiven V DE UE F (claimed links.entry given.now) (length given.now.edges.items) anchors.entry) }
{
    if links.next.len() / 2 != given.edges.len() {
        return Err(LinksError::Edges);
    }
    match anchors {
        Some(anchors) => check_anchored(alloc, links, anchors, given),
        None => find_prev(alloc, links, given),
    }
}

// Looks for what is wrong with links and anchors.
fn check_anchored<V, DE, UE, F, A: Allocator + Clone>(
    alloc: &A,
    links: Links<'_>,
    anchors: Anchors<'_>,
    given: &MeshData<V, DE, UE, F, A>,
) -> Result<Vec<u32, A>, LinksError>
    ensures mesh { IfOk result (λ prev. IsMeshOf (claimed links.entry given.now) prev.items) }
    ensures anchors { OnOk result (AreRight (claimed links.entry given.now) anchors.entry.vertices.now anchors.entry.faces.now) }
    ensures reason { (edges : ℕ) → IfErr result (RefusesAnchored V DE UE F (claimed links.entry given.now) edges anchors.entry.vertices.now anchors.entry.faces.now) }
{
    if anchors.vertices.len() != given.vertices.len() {
        return Err(LinksError::Anchors);
    }
    if anchors.faces.len() != given.faces.len() {
        return Err(LinksError::Anchors);
    }
    let prev = find_prev(alloc, links, given)?;
    if let Some(vertex) = find_wrong_anchor(links.origin, anchors.vertices) {
        return Err(LinksError::VertexAnchor(vertex));
    }
    if let Some(face) = find_wrong_anchor(links.face, anchors.faces) {
        return Err(LinksError::FaceAnchor(face));
    }
    Ok(prev)
}

// Looks for what is wrong with links; if it is nothing, returns the links backwards.
fn find_prev<V, DE, UE, F, A: Allocator + Clone>(
    alloc: &A,
    links: Links<'_>,
    given: &MeshData<V, DE, UE, F, A>,
) -> Result<Vec<u32, A>, LinksError>
    ensures mesh { IfOk result (λ prev. IsMeshOf (claimed links.entry given.now) prev.items) }
    ensures reason { IfErr result (RefusesLinks V DE UE F (claimed links.entry given.now)) }
{
    match check_links(alloc, links, given.vertices.len(), given.faces.len()) {
        Ok(Ok(prev)) => Ok(prev),
        Ok(Err(fault)) => Err(LinksError::Links(fault)),
        Err(_) => Err(LinksError::OutOfMemory),
    }
}
