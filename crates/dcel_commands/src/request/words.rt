//! The lines `words` and `hull`: the half edges around faces, and how they are written.

ghost use Rattle.std.specs.Prelude.{◌≡◌, ◌<◌};
ghost use Rattle.dcel_commands.specs.Vocabulary.{IsLive, IsMesh, IsSound, Writes, face_count, face_of, listed, mesh_behind, number_of, word_of};
ghost use Rattle.dcel_commands.specs.Facts.{faces_text, hull_text};
ghost use Rattle.dcel_commands.specs.request.Words.{face_at, live_faces, word_round, IsLeastOnFace};

use dcel_fixed::FixedFaceHandle;
use dcel_text::output::Writer;
use dcel_text::sink::LineSink;
use spade_dcel::dcel::Dcel;
use spade_dcel::handles::{
    DirectedEdgeHandle, OUTER_FACE, PossiblyOuterTag, new_fixed_face_handle,
};
use spade_dcel::laws::every_mesh;
use std::alloc::Allocator;

/// Returns the least half edge of the anchor's face.
fn least_on_face<'a, V, DE, UE, F, A: Allocator>(
    anchor: DirectedEdgeHandle<'a, V, DE, UE, F, A>,
) -> DirectedEdgeHandle<'a, V, DE, UE, F, A>
    requires sound { IsSound (mesh_behind anchor).shape }
    requires live { IsLive (mesh_behind anchor).shape (number_of anchor) }
    ensures mesh { mesh_behind result ≡ mesh_behind anchor.entry }
    ensures face { face_of (mesh_behind result).shape (number_of result)
        ≡ face_of (mesh_behind anchor.entry).shape (number_of anchor.entry) }
    ensures least { IsLeastOnFace (mesh_behind result).shape (number_of result) }
{
    let mut least = anchor;
    let mut edge = anchor.next();
    while edge.index() != anchor.index() {
        if edge.index() < least.index() {
            least = edge;
        }
        edge = edge.next();
    }
    least
}

/// Writes the half edges around a face, each after a space, from the least of them on.
fn write_word<V, DE, UE, F, A: Allocator, K: LineSink>(
    out: &mut Writer<'_, K>,
    least: DirectedEdgeHandle<'_, V, DE, UE, F, A>,
)
    requires sound { IsSound (mesh_behind least).shape }
    requires least { IsLeastOnFace (mesh_behind least).shape (number_of least) }
    ensures { let word = word_round (mesh_behind least.entry).shape (number_of least.entry) in
        Writes K.has_failed K.contents out.old out.new (listed word) }
{
    out.spaced_number(least.index() as u64);
    let mut edge = least.next();
    while edge.index() != least.index() {
        out.spaced_number(edge.index() as u64);
        edge = edge.next();
    }
}

/// Writes the half edges around a face, from the least on, if it has any.
fn write_half_edges<V, DE, UE, F, A: Allocator, K: LineSink>(
    out: &mut Writer<'_, K>,
    dcel: &Dcel<V, DE, UE, F, A>,
    face: FixedFaceHandle<PossiblyOuterTag>,
)
    requires mesh { IsMesh dcel.now }
    requires in_range { face < face_count dcel.now.shape }
    ensures { Writes K.has_failed K.contents out.old out.new (listed (word_of dcel.now.shape.words face)) }
{
    let Some(anchor) = dcel.face_adjacent_edge(face) else {
        return;
    };
    write_word(out, least_on_face(dcel.directed_edge(anchor)));
}

/// Writes the line of a face if it is live, and nothing if it isn't.
fn write_face<V, DE, UE, F, A: Allocator, K: LineSink>(
    out: &mut Writer<'_, K>,
    dcel: &Dcel<V, DE, UE, F, A>,
    face: FixedFaceHandle<PossiblyOuterTag>,
)
    requires mesh { IsMesh dcel.now }
    requires in_range { face < face_count dcel.now.shape }
    ensures { Writes K.has_failed K.contents out.old out.new (faces_text (face_at dcel.now.shape face)) }
{
    if !dcel.is_live_face(face) {
        return;
    }
    out.write(b"F");
    out.number(face.index() as u64);
    write_half_edges(out, dcel, face);
    out.write(b"\n");
}

/// Writes a line for each live face: its number, and the half edges around it from the least on.
pub fn write_words<V, DE, UE, F, A: Allocator, K: LineSink>(
    out: &mut Writer<'_, K>,
    dcel: &Dcel<V, DE, UE, F, A>,
)
    ensures { Writes K.has_failed K.contents out.old out.new (faces_text (live_faces dcel.now.shape)) }
{
    every_mesh(dcel);
    for index in 0..dcel.num_faces() {
        write_face(out, dcel, new_fixed_face_handle(index));
    }
}

/// Writes the line of the half edges around the outer face, from the least on.
pub fn write_hull<V, DE, UE, F, A: Allocator, K: LineSink>(
    out: &mut Writer<'_, K>,
    dcel: &Dcel<V, DE, UE, F, A>,
)
    ensures { Writes K.has_failed K.contents out.old out.new (hull_text (word_of dcel.now.shape.words 0)) }
{
    every_mesh(dcel);
    out.write(b"hull");
    write_half_edges(out, dcel, OUTER_FACE);
    out.write(b"\n");
}
