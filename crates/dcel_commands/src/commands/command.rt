//! Commands, which edit a mesh. Each is carried out by its own file in `request`.

ghost use Rattle.std.specs.Prelude.{◌≡◌, ◌≤◌, ◌^◌, IfOk, IfErr, OnOk, OnErr};
ghost use Rattle.dcel_commands.specs.Edits.{edits_of};
ghost use Rattle.dcel_commands.specs.Instructions.{command_rule, instruction};
ghost use Rattle.dcel_commands.specs.Responses.{answered, response};
ghost use Rattle.dcel_commands.specs.Steps.{Carries, IsRefusal, Legal, Step};
ghost use Rattle.dcel_maps.specs.EditLists.{EditedBy};
ghost use Rattle.dcel_maps.specs.Shapes.{IsMesh};

use crate::commands::reply::{Refused, Reply};
use crate::request::{
    append, cleanup, clear, close, degenerate, extend, flip, half, insert, isolate, legalize, line,
    outside, put, remesh, remove, setup, split, strip, swap, triangle,
};
use dcel_fixed::{
    FixedDirectedEdgeHandle, FixedFaceHandle, FixedUndirectedEdgeHandle, FixedVertexHandle,
    InnerTag,
};
use spade_dcel::dcel::Dcel;
use spade_dcel::laws;
use std::alloc::{Allocator, Global};

/// The greatest limit that [`apply`] and [`run`](crate::run::run) accept, 2^31.
///
/// Handles have numbers for that many edges.
pub const MAX_LIMIT: usize = 2_147_483_648;

/// An edit of a mesh, by the numbers of its elements.
///
/// Any numbers may be given: [`apply`](crate::commands::apply) tests all that a command asks. A
/// command owns its lists. The table in docs/LINES.md has a row for each command: the line that
/// says it, the reply, and the possible refusals.
#[derive(Debug, Drop)]
pub enum Command<V, A: Allocator = Global> {
    /// Adds a vertex with this datum and without an edge.
    ///
    /// The reply is its number, which is the old count of vertices.
    ///
    /// Asks for room for one vertex.
    Append(V),
    /// Replaces the mesh by a single triangle with these data for its vertices.
    ///
    /// Asks for a limit of three or more, so that three vertices, three edges and two faces don't
    /// exceed it.
    Triangle(V, V, V),
    /// Adds the first edge, from the first vertex to the second.
    ///
    /// Asks for two different live vertices, a mesh without edges, and room for one edge.
    Setup(FixedVertexHandle, FixedVertexHandle),
    /// Extends the line that ends at the first vertex by an edge to the second.
    ///
    /// The reply is the second vertex.
    ///
    /// Asks for two different live vertices, of which the second has no edge and the first exactly
    /// one out edge, and for room for one edge.
    Extend(FixedVertexHandle, FixedVertexHandle),
    /// Splits the half edge's edge, which has the same face on both sides, at the vertex.
    ///
    /// The reply is the two parts of the half edge, in order.
    ///
    /// Asks for a live half edge with the same face on both sides, a live vertex without an edge,
    /// and room for one edge.
    Line(FixedDirectedEdgeHandle, FixedVertexHandle),
    /// Closes a triangle between the half edge and the next one on the outer face, by a new edge.
    ///
    /// The reply is the half of the new edge that is on the outer face.
    ///
    /// Asks for a live half edge on the outer face, the next of which doesn't end where it starts,
    /// and for room for one edge and one face.
    Close(FixedDirectedEdgeHandle),
    /// Adds a triangle beside the half edge, with the vertex as its third corner.
    ///
    /// The triangle is cut from the face of the half edge. The reply is the vertex.
    ///
    /// Asks for a live half edge, a live vertex without an edge, and room for two edges and one
    /// face.
    Outside(FixedDirectedEdgeHandle, FixedVertexHandle),
    /// Inserts the vertex into the inner face, and joins it to the three corners.
    ///
    /// The reply is the vertex.
    ///
    /// Asks for a live vertex without an edge, a live inner face with three half edges, and room
    /// for three edges and two faces.
    Insert(FixedVertexHandle, FixedFaceHandle<InnerTag>),
    /// Splits the half edge's edge at the vertex, and the triangle on the half edge's side.
    ///
    /// A new edge joins the vertex to the opposite corner. The reply is the two parts of the half
    /// edge, in order.
    ///
    /// Asks for a live half edge on a face with three half edges, a live vertex without an edge,
    /// and room for two edges and one face.
    Half(FixedDirectedEdgeHandle, FixedVertexHandle),
    /// Splits the half edge's edge at the vertex, and the triangles on both sides.
    ///
    /// Two new edges join the vertex to the opposite corners. The reply is the two parts of the
    /// half edge, in order.
    ///
    /// Asks for a live half edge with a face of three half edges on both sides, a live vertex
    /// without an edge, and room for three edges and two faces.
    Split(FixedDirectedEdgeHandle, FixedVertexHandle),
    /// Flips the edge between the two triangles on its sides.
    ///
    /// Afterwards it joins the corners opposite it. It does not allocate.
    ///
    /// Asks for a live edge with a face of three half edges on both sides, whose opposite corners
    /// are two different vertices.
    Flip(FixedUndirectedEdgeHandle),
    /// Swaps two vertices.
    ///
    /// The half edges out of one start at the other afterwards, and the data are swapped too. It
    /// does not allocate.
    ///
    /// Asks for live vertices, which may be the same.
    Swap(FixedVertexHandle, FixedVertexHandle),
    /// Replaces the datum of the vertex. It does not allocate.
    ///
    /// Asks for a number in range.
    Put(FixedVertexHandle, V),
    /// Gives up a vertex with its edges and triangles, and fills the hole with new triangles.
    ///
    /// This opens a removal. The reply lists what is given up and the new edges.
    ///
    /// Asks for a vertex and half edges in range, for no open removal, for the border loop of the
    /// vertex, and, if the loop has `k` half edges, for room for `k - 3` edges and `k - 2` faces.
    Isolate(FixedVertexHandle, Vec<FixedDirectedEdgeHandle, A>),
    /// Gives up what is inside a ring of half edges, and fills the hole with new triangles.
    ///
    /// Inside are these edges and faces, and a vertex if there are as many edges as faces. This
    /// opens a removal. The reply is like that to `Isolate`, with the lists as they were given.
    ///
    /// Asks for half edges, edges and inner faces in range, for no open removal, for a ring with
    /// these edges and faces inside, and for room as `Isolate` does.
    Remesh(
        Vec<FixedDirectedEdgeHandle, A>,
        Vec<FixedUndirectedEdgeHandle, A>,
        Vec<FixedFaceHandle<InnerTag>, A>,
    ),
    /// Cuts off the vertex of the outer face whose strip these half edges are.
    ///
    /// The vertex is given up with its edges and the triangles around it, which opens a removal.
    /// The reply lists what is given up.
    ///
    /// Asks for half edges in range, for no open removal, and for a strip.
    Strip(Vec<FixedDirectedEdgeHandle, A>),
    /// Takes out the edges and the faces that an open removal has given up.
    ///
    /// Its vertex has still to be taken out; a removal without a vertex is closed. It does not
    /// allocate.
    ///
    /// Asks for edges and inner faces in range, for an open removal that isn't cleaned up, and that
    /// the lists name what it has given up, each once.
    Cleanup(Vec<FixedUndirectedEdgeHandle, A>, Vec<FixedFaceHandle<InnerTag>, A>),
    /// Takes out a vertex by swap-remove, and closes a removal that is cleaned up.
    ///
    /// The last vertex gets its number. The reply has its datum, and the old number of the vertex
    /// that was moved, if one was. It does not allocate.
    ///
    /// Asks for a vertex in range that has no edge, while no removal is open; or that only this
    /// vertex is still given up.
    Remove(FixedVertexHandle),
    /// Takes out a vertex of a mesh that is one vertex or a path, with one edge if it has any.
    ///
    /// The last vertex and the last edge get the numbers that become free. The reply is like that
    /// to `Remove`. It does not allocate.
    ///
    /// Asks for a vertex in range, for no open removal, and for such a mesh.
    Degenerate(FixedVertexHandle),
    /// Flips edges by number, at most this many times, starting with the last edge of the list.
    ///
    /// An edge is flipped if it can be and the lesser of its opposite corners is below the lesser
    /// of its ends. Then it and the other edges of its two triangles are added to the end of the
    /// list. The reply is the number of flips and how they ended
    /// ([`Legalized`](crate::legalize::Legalized)). If there is no memory for the list to grow, the
    /// flips made so far stay.
    ///
    /// Asks for edges in range. Those that are given up are skipped.
    Legalize(usize, Vec<FixedUndirectedEdgeHandle, A>),
    /// Removes all vertices and edges, and all faces but the outer one, which keeps its datum.
    ///
    /// It does not allocate, and asks for nothing.
    Clear,
}

/// Carries out a command by the file of its line.
#[inline(always)]
fn carry_out<
    V: Drop,
    DE: Default + Drop,
    UE: Default + Drop,
    F: Default + Drop,
    A: Allocator + Clone,
    B: Allocator + Copy,
>(
    dcel: &mut Dcel<V, DE, UE, F, A>,
    command: Command<V, B>,
    limit: usize,
) -> Result<Reply<V, A>, Refused<V>>
    requires { limit ≤ 2 ^ 31 }
    ensures { Carries DE.is_default UE.is_default F.is_default limit dcel.old (command_rule (instruction command)) (answered result) dcel.new }
{
    match command {
        Command::Append(datum) => append::carry_out(dcel, datum, limit),
        Command::Triangle(x, y, z) => triangle::carry_out(dcel, (x, y, z), limit),
        Command::Setup(first, second) => setup::carry_out(dcel, first, second, limit),
        Command::Extend(end, new) => extend::carry_out(dcel, end, new, limit),
        Command::Line(edge, vertex) => line::carry_out(dcel, edge, vertex, limit),
        Command::Close(edge) => close::carry_out(dcel, edge, limit),
        Command::Outside(edge, vertex) => outside::carry_out(dcel, edge, vertex, limit),
        Command::Insert(vertex, face) => insert::carry_out(dcel, vertex, face, limit),
        Command::Half(edge, vertex) => half::carry_out(dcel, edge, vertex, limit),
        Command::Split(edge, vertex) => split::carry_out(dcel, edge, vertex, limit),
        Command::Flip(edge) => flip::carry_out(dcel, edge),
        Command::Swap(first, second) => swap::carry_out(dcel, first, second),
        Command::Put(vertex, datum) => put::carry_out(dcel, vertex, datum),
        Command::Isolate(vertex, list) => isolate::carry_out(dcel, vertex, list, limit),
        Command::Remesh(list, edges, faces) => {
            remesh::carry_out(dcel, list, edges, faces, limit)
        }
        Command::Strip(list) => strip::carry_out(dcel, list),
        Command::Cleanup(edges, faces) => cleanup::carry_out(dcel, edges, faces),
        Command::Remove(vertex) => remove::carry_out(dcel, vertex),
        Command::Degenerate(vertex) => degenerate::carry_out(dcel, vertex),
        Command::Legalize(max_flips, list) => legalize::carry_out(dcel, max_flips, list),
        Command::Clear => clear::carry_out(dcel),
    }
}

/// Carries out a command, or refuses it and leaves the mesh as it was.
///
/// The conditions of the command are tested in the order of the refusals' numbers, and the first
/// that isn't met decides which refusal is returned. If all are met, the command is carried out, or
/// refused as [`Refusal::OutOfMemory`](crate::commands::Refusal) if there is no memory for the mesh
/// to grow. A refusal returns the data that the command carried.
///
/// The limit, at most 2^31, bounds the counts of vertices, undirected edges and faces. A command
/// that adds elements is refused as [`Refusal::NoRoom`](crate::commands::Refusal) if one of these
/// counts would exceed the limit, and so is `Triangle` if a count of the new mesh would.
///
/// While a removal is open, the live elements can be edited as usual. Each command is a list of
/// elementary edits (clause `edits`).
#[inline(always)]
pub fn apply<
    V: Drop,
    DE: Default + Drop,
    UE: Default + Drop,
    F: Default + Drop,
    A: Allocator + Clone,
    B: Allocator + Copy,
>(
    dcel: &mut Dcel<V, DE, UE, F, A>,
    command: Command<V, B>,
    limit: usize,
) -> Result<Reply<V, A>, Refused<V>>
    requires { limit ≤ 2 ^ 31 }
    ensures step { IfOk result (λ reply. Step DE.is_default UE.is_default F.is_default dcel.old (instruction command) (response reply) dcel.new) }
    ensures edits { IfOk result (λ reply. EditedBy (edits_of dcel.old (instruction command) (response reply)) dcel.old dcel.new) }
    ensures legal { OnOk result (Legal dcel.old.shape limit (instruction command)) }
    ensures refused { IfErr result (λ refused. IsRefusal dcel.old.shape limit (instruction command) refused) }
    ensures unchanged { OnErr result (dcel.new ≡ dcel.old) }
    ensures mesh { IsMesh dcel.new }
{
    laws::every_mesh(dcel);
    let answer = carry_out(dcel, command, limit);
    laws::every_mesh(dcel);
    answer
}
