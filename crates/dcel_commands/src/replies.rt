//! Writing replies, answers to queries, and refusals as lines of text.

ghost use Rattle.std.specs.Prelude.{◌≡◌};
ghost use Rattle.dcel_text.specs.Output.{Writes};
ghost use Rattle.dcel_commands.specs.Facts.{counts_text, datum_text, edge_text, fact_text, truth_text};
ghost use Rattle.dcel_commands.specs.Queries.{fact};
ghost use Rattle.dcel_commands.specs.Refusal.{refusal_text};
ghost use Rattle.dcel_commands.specs.Replies.{ending_of, flips_text, half_edge_text, moved_text, opened_text, removed_text, reply_text, vertex_text};
ghost use Rattle.dcel_commands.specs.Responses.{response};
ghost use Rattle.dcel_text.specs.Texts.{listed};

use crate::commands::{Reply, Told};
use crate::refusal::Refusal;
use crate::request::{out as turns, words};
use dcel_fixed::{FixedDirectedEdgeHandle, FixedHandleImpl, FixedVertexHandle, InnerOuterMarker};
use dcel_legalize::Legalized;
use dcel_text::output::Writer;
use dcel_text::sink::LineSink;
use spade_dcel::operations::{IsolateVertexResult, RemovalResult};
use std::alloc::Allocator;

/// Writes the line of a refusal.
pub fn write_refusal<K: LineSink>(out: &mut Writer<'_, K>, why: Refusal)
    ensures { Writes K.has_failed K.contents out.old out.new (refusal_text why) }
{
    out.write(b"refused ");
    out.number(u64::from(why.number()));
    out.write(b" ");
    out.write(why.name().as_bytes());
    out.write(b"\n");
}

/// Writes the line of a vertex.
pub fn write_vertex<K: LineSink>(out: &mut Writer<'_, K>, vertex: FixedVertexHandle)
    ensures { Writes K.has_failed K.contents out.old out.new (vertex_text vertex) }
{
    out.numbered(b"vertex ", vertex.index() as u64);
    out.write(b"\n");
}

/// Writes the line of a half edge.
pub fn write_half_edge<K: LineSink>(out: &mut Writer<'_, K>, edge: FixedDirectedEdgeHandle)
    ensures { Writes K.has_failed K.contents out.old out.new (half_edge_text edge) }
{
    out.numbered(b"half ", edge.index() as u64);
    out.write(b"\n");
}

/// Writes the numbers of elements, each after a space.
fn write_numbers<Kind, InnerOuter: InnerOuterMarker, K: LineSink>(
    out: &mut Writer<'_, K>,
    elements: &[FixedHandleImpl<Kind, InnerOuter>],
)
    ensures { Writes K.has_failed K.contents out.old out.new (listed elements.now) }
{
    for element in elements {
        out.spaced_number(element.index() as u64);
    }
}

/// Writes the line of what a removal has given up, and of the edges that it has added.
fn write_opened<A: Allocator, K: LineSink>(out: &mut Writer<'_, K>, opened: &IsolateVertexResult<A>)
    ensures { Writes K.has_failed K.contents out.old out.new
        (opened_text opened.now.edges_to_remove.items opened.now.faces_to_remove.items opened.now.new_edges.items) }
{
    out.write(b"opened edges");
    write_numbers(out, &opened.edges_to_remove);
    out.write(b" faces");
    write_numbers(out, &opened.faces_to_remove);
    out.write(b" new");
    write_numbers(out, &opened.new_edges);
    out.write(b"\n");
}

/// Writes the vertex that was moved to the number of another, if one was.
fn write_moved<K: LineSink>(out: &mut Writer<'_, K>, moved: Option<FixedVertexHandle>)
    ensures { Writes K.has_failed K.contents out.old out.new (moved_text moved) }
{
    if let Some(vertex) = moved {
        out.numbered(b" moved ", vertex.index() as u64);
    }
}

/// Writes the line of a vertex that was taken out: its datum, and the vertex that was moved.
fn write_removed<K: LineSink>(out: &mut Writer<'_, K>, removed: &RemovalResult<i64>)
    ensures { Writes K.has_failed K.contents out.old out.new
        (removed_text removed.now.removed_vertex removed.now.swapped_in_vertex) }
{
    out.write(b"removed ");
    out.datum(removed.removed_vertex);
    write_moved(out, removed.swapped_in_vertex);
    out.write(b"\n");
}

/// Returns a word for how the flips ended, after a space.
fn ending(legalized: Legalized) -> &'static str
    ensures { result.now ≡ ending_of legalized }
{
    match legalized {
        Legalized::Done { .. } => " done",
        Legalized::Stopped { .. } => " stopped",
        Legalized::OutOfMemory { .. } => " memory",
    }
}

/// Writes the line of how many edges were flipped, and how that ended.
fn write_flips<K: LineSink>(out: &mut Writer<'_, K>, legalized: Legalized)
    ensures { Writes K.has_failed K.contents out.old out.new (flips_text legalized) }
{
    out.numbered(b"flips ", legalized.flips() as u64);
    out.write(ending(legalized).as_bytes());
    out.write(b"\n");
}

/// Writes the line of a reply.
pub fn write_reply<A: Allocator, K: LineSink>(out: &mut Writer<'_, K>, reply: &Reply<i64, A>)
    ensures { Writes K.has_failed K.contents out.old out.new (reply_text (response reply.now)) }
{
    match reply {
        Reply::Ok => out.write(b"ok\n"),
        Reply::Vertex(vertex) => write_vertex(out, *vertex),
        Reply::Half(edge) => write_half_edge(out, *edge),
        Reply::Halves(halves) => {
            out.write(b"halves");
            write_numbers(out, halves);
            out.write(b"\n");
        }
        Reply::Opened(opened) => write_opened(out, opened),
        Reply::Removed(removed) => write_removed(out, removed),
        Reply::Flips(legalized) => write_flips(out, *legalized),
    }
}

/// Writes the line of counts.
fn write_counts<K: LineSink>(out: &mut Writer<'_, K>, vertices: usize, edges: usize, faces: usize)
    ensures { Writes K.has_failed K.contents out.old out.new (counts_text vertices edges faces) }
{
    out.numbered(b"vertices ", vertices as u64);
    out.numbered(b" edges ", edges as u64);
    out.numbered(b" faces ", faces as u64);
    out.write(b"\n");
}

/// Writes the line of a half edge that was looked for.
fn write_found<K: LineSink>(out: &mut Writer<'_, K>, found: Option<FixedDirectedEdgeHandle>)
    ensures { Writes K.has_failed K.contents out.old out.new (edge_text found) }
{
    match found {
        Some(edge) => write_half_edge(out, edge),
        None => out.write(b"none\n"),
    }
}

/// Writes the line of a datum.
fn write_datum<K: LineSink>(out: &mut Writer<'_, K>, datum: i64)
    ensures { Writes K.has_failed K.contents out.old out.new (datum_text datum) }
{
    out.write(b"datum ");
    out.datum(datum);
    out.write(b"\n");
}

/// Writes the line of a truth value.
fn write_truth<K: LineSink>(out: &mut Writer<'_, K>, is_so: bool)
    ensures { Writes K.has_failed K.contents out.old out.new (truth_text is_so) }
{
    if is_so {
        out.write(b"true\n");
    } else {
        out.write(b"false\n");
    }
}

/// Writes the lines of the answer to a query.
pub fn write_told<DE, UE, F, A: Allocator, K: LineSink>(
    out: &mut Writer<'_, K>,
    told: &Told<'_, i64, DE, UE, F, A>,
)
    ensures { Writes K.has_failed K.contents out.old out.new (fact_text (fact told.now)) }
{
    match told {
        Told::Counts {
            vertices,
            edges,
            faces,
        } => write_counts(out, *vertices, *edges, *faces),
        Told::Words(dcel) => words::write_words(out, dcel),
        Told::Hull(dcel) => words::write_hull(out, dcel),
        Told::Out(vertex) => turns::write_turn_line(out, *vertex),
        Told::Vertex(vertex) => write_vertex(out, *vertex),
        Told::Half(found) => write_found(out, *found),
        Told::Datum(datum) => write_datum(out, **datum),
        Told::Truth(is_so) => write_truth(out, *is_so),
    }
}
