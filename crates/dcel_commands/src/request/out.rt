//! Writing the answer to the line `out V`.

ghost use Rattle.std.specs.Prelude.{◌≡◌, IfSome};
ghost use Rattle.std.specs.Option.{option_map};
ghost use Rattle.dcel_commands.specs.Facts.{turn_text};
ghost use Rattle.dcel_commands.specs.Vocabulary.{IsLive, Writes, ccw_of, listed, mesh_behind, number_of, walk_of};
ghost use Rattle.dcel_commands.specs.request.Out.{least_out, turn_of};

use dcel_text::output::Writer;
use dcel_text::sink::LineSink;
use spade_dcel::handles::{DirectedEdgeHandle, VertexHandle};
use spade_dcel::iterators::{CCWEdgesNextBackFn, CircularIterator};
use std::alloc::Allocator;

/// Returns the least half edge that starts at the vertex.
fn least_out_edge<'a, V, DE, UE, F, A: Allocator>(
    vertex: VertexHandle<'a, V, DE, UE, F, A>,
) -> Option<DirectedEdgeHandle<'a, V, DE, UE, F, A>>
    ensures mesh { IfSome result (λ edge. mesh_behind edge ≡ mesh_behind vertex.entry) }
    ensures live { IfSome result (λ edge. IsLive (mesh_behind edge).shape (number_of edge)) }
    ensures least { option_map (λ edge. number_of edge) result ≡ least_out (mesh_behind vertex.entry).shape (number_of vertex.entry) }
{
    let mut least = vertex.out_edge()?;
    for edge in vertex.out_edges() {
        if edge.index() < least.index() {
            least = edge;
        }
    }
    Some(least)
}

/// Writes the half edges around this one's origin, each after a space.
fn write_turn<V, DE, UE, F, A: Allocator, K: LineSink>(
    out: &mut Writer<'_, K>,
    first: DirectedEdgeHandle<'_, V, DE, UE, F, A>,
)
    requires { IsLive (mesh_behind first).shape (number_of first) }
    ensures { let shape = (mesh_behind first.entry).shape in
        Writes K.has_failed K.contents out.old out.new (listed (walk_of shape (ccw_of shape) (number_of first.entry))) }
{
    let turn: CircularIterator<'_, V, DE, UE, F, CCWEdgesNextBackFn, A> = CircularIterator::new(
        first,
    );
    for edge in turn {
        out.spaced_number(edge.index() as u64);
    }
}

/// Writes the half edges that start at a vertex, from the least on, if there are any.
fn write_half_edges<V, DE, UE, F, A: Allocator, K: LineSink>(
    out: &mut Writer<'_, K>,
    vertex: VertexHandle<'_, V, DE, UE, F, A>,
)
    ensures { let shape = (mesh_behind vertex.entry).shape in
        Writes K.has_failed K.contents out.old out.new (listed (turn_of shape (number_of vertex.entry))) }
{
    let Some(least) = least_out_edge(vertex) else {
        return;
    };
    write_turn(out, least);
}

/// Writes the line of the half edges that start at a vertex, from the least on.
pub fn write_turn_line<V, DE, UE, F, A: Allocator, K: LineSink>(
    out: &mut Writer<'_, K>,
    vertex: VertexHandle<'_, V, DE, UE, F, A>,
)
    ensures { Writes K.has_failed K.contents out.old out.new (turn_text (turn_of (mesh_behind vertex.entry).shape (number_of vertex.entry))) }
{
    out.write(b"out");
    write_half_edges(out, vertex);
    out.write(b"\n");
}
