//! Queries, which a mesh answers without changing: what each asks, and the answers.

ghost use Rattle.std.specs.Prelude.{IfOk, IfErr, OnOk};
ghost use Rattle.dcel_commands.specs.Conditions.{AllMet, FirstUnmet};
ghost use Rattle.dcel_commands.specs.Queries.{Tells, TellsOrRefuses, between, fact, get, origin, out, query_asks, told};

use crate::asking::{ask, ask_live_vertices, has_half_edge, has_vertex};
use crate::refusal::Refusal;
use dcel_fixed::{FixedDirectedEdgeHandle, FixedVertexHandle};
use spade_dcel::dcel::Dcel;
use spade_dcel::handles::VertexHandle;
use std::alloc::{Allocator, Global};

/// A question about a mesh, by the numbers of its elements.
#[derive(Clone, Copy)]
pub enum Query {
    /// The numbers of vertices, edges and faces.
    Counts,
    /// The word, or boundary cycle, of each face.
    Words,
    /// The half edges of the outer face.
    Hull,
    /// The half edges that start at a vertex.
    ///
    /// Asks for a live vertex.
    Out(FixedVertexHandle),
    /// The vertex where a half edge starts.
    ///
    /// Asks for a live half edge.
    Origin(FixedDirectedEdgeHandle),
    /// The half edge that leads from one vertex to another.
    ///
    /// Asks for live vertices.
    Between(FixedVertexHandle, FixedVertexHandle),
    /// The datum of a vertex.
    ///
    /// Asks for a number in range.
    Get(FixedVertexHandle),
    /// Whether the mesh passes `sanity_check`.
    Check,
}

/// The answer to a query. It borrows the mesh and allocates nothing.
#[derive(Drop)]
pub enum Told<'a, V, DE, UE, F, A: Allocator = Global> {
    /// The numbers of vertices, edges and faces.
    Counts {
        /// The number of vertices.
        vertices: usize,
        /// The number of undirected edges.
        edges: usize,
        /// The number of faces, including the outer one.
        faces: usize,
    },
    /// The half edges around each live face of this mesh.
    Words(&'a Dcel<V, DE, UE, F, A>),
    /// The half edges around the outer face of this mesh.
    Hull(&'a Dcel<V, DE, UE, F, A>),
    /// The half edges that start at this vertex.
    Out(VertexHandle<'a, V, DE, UE, F, A>),
    /// A vertex.
    Vertex(FixedVertexHandle),
    /// A half edge, if there is one.
    Half(Option<FixedDirectedEdgeHandle>),
    /// A datum.
    Datum(&'a V),
    /// Whether something is true.
    Truth(bool),
}

/// Returns the half edges that start at the vertex, or refuses.
fn tell_out<V, DE, UE, F, A: Allocator>(
    dcel: &Dcel<V, DE, UE, F, A>,
    vertex: FixedVertexHandle,
) -> Result<Told<'_, V, DE, UE, F, A>, Refusal>
    ensures { TellsOrRefuses dcel.now (out vertex) (told result) }
{
    ask(has_vertex(dcel, vertex), Refusal::NoSuchVertex)?;
    ask(dcel.is_live_vertex(vertex), Refusal::GivenUp)?;
    Ok(Told::Out(dcel.vertex(vertex)))
}

/// Returns where the half edge starts, or refuses.
fn tell_origin<V, DE, UE, F, A: Allocator>(
    dcel: &Dcel<V, DE, UE, F, A>,
    edge: FixedDirectedEdgeHandle,
) -> Result<Told<'_, V, DE, UE, F, A>, Refusal>
    ensures { TellsOrRefuses dcel.now (origin edge) (told result) }
{
    ask(has_half_edge(dcel, edge), Refusal::NoSuchEdge)?;
    ask(dcel.is_live_edge(edge.as_undirected()), Refusal::GivenUp)?;
    Ok(Told::Vertex(dcel.directed_edge(edge).from().fix()))
}

/// Returns the half edge that leads from one vertex to the other, or refuses.
fn tell_between<V, DE, UE, F, A: Allocator>(
    dcel: &Dcel<V, DE, UE, F, A>,
    from: FixedVertexHandle,
    to: FixedVertexHandle,
) -> Result<Told<'_, V, DE, UE, F, A>, Refusal>
    ensures { TellsOrRefuses dcel.now (between from to) (told result) }
{
    ask_live_vertices(dcel, from, to)?;
    match dcel.get_edge_from_neighbors(from, to) {
        Some(edge) => Ok(Told::Half(Some(edge.fix()))),
        None => Ok(Told::Half(None)),
    }
}

/// Returns the datum of the vertex, or refuses.
fn tell_get<V, DE, UE, F, A: Allocator>(
    dcel: &Dcel<V, DE, UE, F, A>,
    vertex: FixedVertexHandle,
) -> Result<Told<'_, V, DE, UE, F, A>, Refusal>
    ensures { TellsOrRefuses dcel.now (get vertex) (told result) }
{
    ask(has_vertex(dcel, vertex), Refusal::NoSuchVertex)?;
    Ok(Told::Datum(dcel.vertex_data(vertex)))
}

/// Answers a query, or refuses it.
///
/// The conditions of the query are tested in the order of the refusals' numbers, and the first that
/// isn't met decides which refusal is returned.
pub fn tell<V, DE, UE, F, A: Allocator>(
    dcel: &Dcel<V, DE, UE, F, A>,
    query: Query,
) -> Result<Told<'_, V, DE, UE, F, A>, Refusal>
    ensures tells { IfOk result (λ told. Tells dcel.now query (fact told)) }
    ensures met { OnOk result (AllMet dcel.now.shape (query_asks query)) }
    ensures refused { IfErr result (λ why. FirstUnmet dcel.now.shape (query_asks query) why) }
{
    match query {
        Query::Counts => Ok(Told::Counts {
            vertices: dcel.num_vertices(),
            edges: dcel.num_undirected_edges(),
            faces: dcel.num_faces(),
        }),
        Query::Words => Ok(Told::Words(dcel)),
        Query::Hull => Ok(Told::Hull(dcel)),
        Query::Out(vertex) => tell_out(dcel, vertex),
        Query::Origin(edge) => tell_origin(dcel, edge),
        Query::Between(from, to) => tell_between(dcel, from, to),
        Query::Get(vertex) => tell_get(dcel, vertex),
        Query::Check => Ok(Told::Truth(dcel.sanity_check())),
    }
}
