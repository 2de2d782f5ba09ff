//! Walks round a vertex, from one of its half edges on.

ghost use Rattle.std.specs.Prelude.{◌<◌, ◌≤◌, ◌^◌};
ghost use Rattle.dcel_maps.specs.Shapes.{IsLive};
ghost use Rattle.spade_dcel.specs.Handles.{mesh_behind, number_of};

use spade_dcel::handles::DirectedEdgeHandle;
use spade_dcel::iterators::{CCWEdgesNextBackFn, CircularIterator};

/// The half edges out of a vertex, from one of them on.
type RoundVertex<'a, D> = CircularIterator<'a, i64, D, D, D, CCWEdgesNextBackFn>;

/// Returns the number of half edges with the same origin.
pub fn degree<D>(out_edge: DirectedEdgeHandle<'_, i64, D, D, D>) -> usize
    requires { IsLive (mesh_behind out_edge).shape (number_of out_edge) }
    ensures some { 0 < result }
    ensures few { result ≤ 2 ^ 32 }
{
    RoundVertex::new(out_edge).count()
}

/// Returns the least of the half edges with the same origin, and their number.
#[inline]
pub fn least_and_count<D>(
    out_edge: DirectedEdgeHandle<'_, i64, D, D, D>,
) -> (DirectedEdgeHandle<'_, i64, D, D, D>, usize)
    requires { IsLive (mesh_behind out_edge).shape (number_of out_edge) }
    ensures { IsLive (mesh_behind result.0).shape (number_of result.0) }
{
    let mut least = out_edge;
    let mut count: usize = 0;
    for edge in RoundVertex::new(out_edge) {
        if edge.index() < least.index() {
            least = edge;
        }
        count = count.wrapping_add(1);
    }
    (least, count)
}

/// Returns the half edge this many steps further round the origin.
pub fn turned<D>(
    out_edge: DirectedEdgeHandle<'_, i64, D, D, D>,
    steps: usize,
) -> DirectedEdgeHandle<'_, i64, D, D, D>
    requires { IsLive (mesh_behind out_edge).shape (number_of out_edge) }
    ensures { IsLive (mesh_behind result).shape (number_of result) }
{
    let mut edge = out_edge;
    for _ in 0..steps {
        edge = edge.ccw();
    }
    edge
}
