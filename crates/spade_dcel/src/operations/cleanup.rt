//! Cleaning up an open removal: taking out the edges and faces that it gave up.

ghost use Rattle.std.specs.Prelude.{◌≡◌, ◌∷◌, []};
ghost use Rattle.dcel_maps.specs.EditLists.{EditedBy};
ghost use Rattle.dcel_maps.specs.EditLists.EditKind.{numbers_changed};
ghost use Rattle.dcel_maps.specs.Removals.{IsListed, ascending};
ghost use Rattle.dcel_maps.specs.Renumbering.{cleaned_up};
ghost use Rattle.dcel_maps.specs.Shapes.{IsMesh};

use crate::dcel::Dcel;
use crate::operations::IsolateVertexResult;
use dcel_edits::removal::take_out::{take_out_edges, take_out_faces};
use std::alloc::Allocator;

/// Takes out the edges and the faces that an open removal has given up.
///
/// Each is swap-removed, first the edges and then the faces, of each kind the largest number first:
/// the last element of the kind gets the number of the one that goes. Half edges go with their
/// edge; links, origins, data and anchors follow.
///
/// ```text
/// edges 0 1 2 3 4 5, of which 2 and 4 are given up
///
/// 0 1 2 3 4 5   without 4   0 1 2 3 5   without 2   0 1 5 3      so edge 5 is edge 2 now
/// ```
///
/// A vertex that was given up stays until [`swap_remove_vertex`](super::swap_remove_vertex) takes
/// it out; a removal that gave up none is closed. The lists of `opened` are ascending afterwards.
/// Its `new_edges` are left as they are: they have the old numbers of the new edges.
///
/// Asks that `opened` lists what is given up, in any order ([`is_listed`](Dcel::is_listed)).
pub fn cleanup_isolated_vertex<V, DE: Drop, UE: Drop, F: Drop, A: Allocator, B: Allocator>(
    dcel: &mut Dcel<V, DE, UE, F, A>,
    opened: &mut IsolateVertexResult<B>,
)
    requires { IsListed dcel.old.shape.removal opened.old.edges_to_remove.items opened.old.faces_to_remove.items }
    ensures edit { dcel.new ≡ cleaned_up dcel.old }
    ensures edits { EditedBy (numbers_changed ∷ []) dcel.old dcel.new }
    ensures edges { opened.new.edges_to_remove.items ≡ ascending opened.old.edges_to_remove.items }
    ensures faces { opened.new.faces_to_remove.items ≡ ascending opened.old.faces_to_remove.items }
    ensures new_edges { opened.new.new_edges ≡ opened.old.new_edges }
    ensures smallest { opened.new.smallest_new_edge ≡ opened.old.smallest_new_edge }
    ensures mesh { IsMesh dcel.new }
{
    opened.edges_to_remove.copy_from_slice(dcel.removal.edges());
    opened.faces_to_remove.copy_from_slice(dcel.removal.faces());
    take_out_edges(&mut dcel.store, &opened.edges_to_remove);
    take_out_faces(&mut dcel.store, &opened.faces_to_remove);
    dcel.removal.clean_up();
}
