//! Elements counted by their kinds.

use dcel_bench::checks::same;
use dcel_bench::lines::grown;
use dcel_bench::meshes::Mesh;
use spade_dcel::handles::{
    DelaunayElementType, DirectedEdgeTag, DirectedVoronoiEdgeTag, FaceTag, UndirectedEdgeTag,
    UndirectedVoronoiEdgeTag, VertexTag, VoronoiFaceTag,
};
use std::test::Fail;

/// Returns the number of elements of each kind: of the mesh, and of its dual.
fn elements(dcel: &Mesh) -> [usize; 7] {
    [
        VertexTag::num_elements(dcel),
        VoronoiFaceTag::num_elements(dcel),
        DirectedEdgeTag::num_elements(dcel),
        DirectedVoronoiEdgeTag::num_elements(dcel),
        UndirectedEdgeTag::num_elements(dcel),
        UndirectedVoronoiEdgeTag::num_elements(dcel),
        FaceTag::num_elements(dcel),
    ]
}

#[test]
fn elements_are_counted(rt: HostRuntime) -> Result<(), Fail> {
    let dcel = grown(rt.alloc(), "append 7")?;
    same(elements(&dcel), [1, 1, 0, 0, 0, 0, 1], "elements")
}
