//! Fixed handles: comparisons and hashes, and the texts that `Debug` writes.

ghost use Rattle.std.specs.Prelude.{◌≡◌, ◌==◌, nat_lt};

use dcel_bench::checks::{holds, same};
use dcel_fixed::{
    DirectedEdgeTag, DirectedVoronoiEdgeTag, FaceTag, FixedHandleImpl, FixedUndirectedEdgeHandle,
    FixedVertexHandle, InnerOuterMarker, InnerTag, OUTER_FACE, OUTER_FACE_HANDLE, PossiblyOuterTag,
    UndirectedEdgeTag, UndirectedVoronoiEdgeTag, VertexTag, VoronoiFaceTag, new_fixed_face_handle,
};
use std::hash::{BuildHasher, BuildHasherDefault, FoldHasher};
use std::test::Fail;

fn is_equal<Kind, InnerOuter: InnerOuterMarker>(
    a: FixedHandleImpl<Kind, InnerOuter>,
    b: FixedHandleImpl<Kind, InnerOuter>,
) -> bool
    ensures { result ≡ (a == b) }
{
    a == b
}

fn is_below<Kind, InnerOuter: InnerOuterMarker>(
    a: FixedHandleImpl<Kind, InnerOuter>,
    b: FixedHandleImpl<Kind, InnerOuter>,
) -> bool
    ensures { result ≡ nat_lt a b }
{
    a < b
}

#[test]
fn handles_and_tags_have_texts(rt: HostRuntime) -> Result<(), Fail> {
    let vertex = FixedVertexHandle::new(3);
    let handles = format!(in rt.alloc(); "{vertex:?} {OUTER_FACE:?} {OUTER_FACE_HANDLE:?}")?;
    same(
        handles.as_str(),
        "FixedHandle { index: 3 } FixedHandle { index: 0 } FixedHandle { index: 0 }",
        "the texts of handles",
    )?;
    let kinds = (VertexTag, DirectedEdgeTag, UndirectedEdgeTag, FaceTag);
    let duals = (
        DirectedVoronoiEdgeTag,
        UndirectedVoronoiEdgeTag,
        VoronoiFaceTag,
    );
    let tags = format!(in rt.alloc(); "{kinds:?} {duals:?} {InnerTag:?} {PossiblyOuterTag:?}")?;
    same(
        tags.as_str(),
        "(VertexTag, DirectedEdgeTag, UndirectedEdgeTag, FaceTag) (DirectedVoronoiEdgeTag, UndirectedVoronoiEdgeTag, VoronoiFaceTag) InnerTag PossiblyOuterTag",
        "the texts of tags",
    )
}

#[test]
fn the_outer_face_is_face_0() -> Result<(), Fail> {
    for face in [OUTER_FACE, OUTER_FACE_HANDLE] {
        same((face.index(), face.is_outer()), (0, true), "the outer face")?;
        holds(face == new_fixed_face_handle(0), "face 0 is the outer face")?;
    }
    Ok(())
}

#[test]
fn comparisons_see_the_number_alone() -> Result<(), Fail> {
    let three = FixedVertexHandle::from_index(3);
    let four = FixedVertexHandle::from_index(4);
    let found = [
        is_equal(three, FixedVertexHandle::new(3)),
        is_equal(three, four),
        is_below(three, four),
        is_below(four, three),
    ];
    same(found, [true, false, true, false], "comparisons")
}

/// Returns the hash of a handle, if that is the hash of its number, and of another handle with it.
fn hash_of<Kind, InnerOuter: InnerOuterMarker>(
    handle: FixedHandleImpl<Kind, InnerOuter>,
) -> Option<u64> {
    let hasher = BuildHasherDefault::<FoldHasher>::default();
    let other: FixedHandleImpl<Kind, InnerOuter> = FixedHandleImpl::new(handle.index());
    let hash = hasher.hash_one(handle.index() as u32);
    if hasher.hash_one(handle) == hash && hasher.hash_one(other) == hash {
        return Some(hash);
    }
    None
}

#[test]
fn equal_handles_are_hashed_as_their_number() -> Result<(), Fail> {
    let edge = FixedUndirectedEdgeHandle::new(3);
    let half_edge = edge.as_directed();
    let inner_face = new_fixed_face_handle(5).adjust_inner_outer::<InnerTag>();
    let found = [
        hash_of(FixedVertexHandle::from_index(7)),
        hash_of(half_edge.as_undirected()),
        hash_of(half_edge),
        hash_of(half_edge.rev()),
        hash_of(OUTER_FACE),
        hash_of(inner_face),
        hash_of(FixedVertexHandle::new(4_294_967_295)),
    ];
    let hasher = BuildHasherDefault::<FoldHasher>::default();
    let wanted = [7u32, 3, 6, 7, 0, 5, u32::MAX].map(|number| Some(hasher.hash_one(number)));
    same(found, wanted, "hashes")
}
