//! Creating a triangle, and inserting a vertex into one.

ghost use Rattle.std.specs.Prelude.{◌≡◌, ◌<◌, ◌∷◌, [], IfOk, IfErr, OnErr, OnOk};
ghost use Rattle.dcel_maps.specs.Conditions.{HasRoom, IsUnconnected, IsTriangle};
ghost use Rattle.dcel_maps.specs.EditLists.{EditedBy, MadeBy};
ghost use Rattle.dcel_maps.specs.EditLists.EditKind.{ear_cut, first_edge, spur_added};
ghost use Rattle.dcel_maps.specs.edits.DefaultData.{AddsEdgesAndFaces};
ghost use Rattle.dcel_maps.specs.edits.Triangle.{triangle_alone, vertex_inserted};
ghost use Rattle.dcel_maps.specs.Shapes.{IsMesh};

use crate::dcel::Dcel;
use crate::operations::NoMemory;
use crate::operations::create::with_room;
use dcel_edits::triangle::{put_insertion, put_triangle};
use dcel_fixed::{FixedFaceHandle, FixedVertexHandle, InnerTag};
use std::alloc::{AllocError, Allocator};

/// Creates a mesh of one triangle, with these data for its vertices 0, 1 and 2.
///
/// ```text
///          2
///         / \
///      2 /   \ 4         outer face    (0, 2, 4)
///       /  F1 \          face 1        (1, 5, 3)
///      1 <---- 0
///          0
/// ```
///
/// If memory runs out it returns [`NoMemory`] with the data.
pub fn new_triangle<
    V: Drop,
    DE: Default + Drop,
    UE: Default + Drop,
    F: Default + Drop,
    A: Allocator + Clone,
>(alloc: A, vertices: (V, V, V)) -> Result<Dcel<V, DE, UE, F, A>, NoMemory<(V, V, V)>>
    ensures triangle { IfOk result (λ dcel. AddsEdgesAndFaces DE.is_default UE.is_default F.is_default 3 2 dcel (triangle_alone vertices)) }
    ensures edits { IfOk result (MadeBy (first_edge ∷ spur_added ∷ ear_cut ∷ [])) }
    ensures back { IfErr result (λ refused. refused.back ≡ vertices) }
    ensures mesh { IfOk result IsMesh }
{
    let Ok((mut store, removal)) = with_room(alloc, 3, 3, 2) else {
        return Err(NoMemory { back: vertices });
    };
    put_triangle(&mut store, vertices);
    Ok(Dcel { store, removal })
}

/// Inserts the vertex `v` into the triangle `f0`, and returns `v`.
///
/// Three new edges lead from the corners to `v` and cut the triangle into three. `f0` keeps its
/// anchor, `a` in the picture.
///
/// ```text
/// before      C                 after       C
///            / \                           /|\
///         c /   \ b                     c / | \ b         f0       (a, n, n + 5)
///          / f0  \                       / .v. \          L        (b, n + 2, n + 1)
///         /       \                     /.' f0'.\         L + 1    (c, n + 4, n + 3)
///        A ------> B                   A -------> B
///            a                              a
/// ```
///
/// Asks that `f0` is a triangle ([`is_triangle`](Dcel::is_triangle)) and not the outer face, that
/// no edge meets `v` ([`is_unconnected`](Dcel::is_unconnected)), and for room for three edges and
/// two faces ([`has_room`](Dcel::has_room)). If memory runs out it returns `AllocError`, and the
/// mesh is as it was.
pub fn insert_into_triangle<V, DE: Default, UE: Default, F: Default, A: Allocator>(
    dcel: &mut Dcel<V, DE, UE, F, A>,
    v: FixedVertexHandle,
    f0: FixedFaceHandle<InnerTag>,
) -> Result<FixedVertexHandle, AllocError>
    requires inner { 0 < f0 }
    requires triangle { IsTriangle dcel.old.shape f0 }
    requires unconnected { IsUnconnected dcel.old.shape v }
    requires room { HasRoom dcel.old.shape 0 3 2 }
    ensures edit { OnOk result (AddsEdgesAndFaces DE.is_default UE.is_default F.is_default 3 2 dcel.new (vertex_inserted dcel.old v f0)) }
    ensures edits { OnOk result (EditedBy (spur_added ∷ ear_cut ∷ ear_cut ∷ []) dcel.old dcel.new) }
    ensures answer { IfOk result (λ vertex. vertex ≡ v) }
    ensures refused { OnErr result (dcel.new ≡ dcel.old) }
    ensures mesh { IsMesh dcel.new }
{
    dcel.store.reserve(0, 3, 2)?;
    let first = match dcel.store.face_anchor(f0.adjust_inner_outer()) {
        Some(edge) => edge,
        None => unreachable!(),
    };
    put_insertion(&mut dcel.store, first, v);
    Ok(v)
}
