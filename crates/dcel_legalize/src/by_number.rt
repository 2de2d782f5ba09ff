//! Legalization by the numbers of vertices: an example of a test that needs no positions.

ghost use Rattle.std.specs.Prelude.{◌≡◌};
ghost use Rattle.dcel_legalize.specs.ByNumber.{MakesFlips, has_lesser_corner};
ghost use Rattle.dcel_legalize.specs.Outcome.{IsLegalized};

use crate::legalize::legalize_edges;
use crate::legalized::Legalized;
use spade_dcel::dcel::Dcel;
use spade_dcel::handles::{FixedUndirectedEdgeHandle, FixedVertexHandle};
use std::alloc::Allocator;

/// Flips edges towards vertices with lower numbers, as [`legalize_edges`] does.
///
/// An edge is illegal if the lesser of the two corners opposite it is below the lesser of its two
/// ends.
pub fn legalize_by_number<V, DE, UE, F, A: Allocator, L: Allocator>(
    dcel: &mut Dcel<V, DE, UE, F, A>,
    list: Vec<FixedUndirectedEdgeHandle, L>,
    max_flips: usize,
) -> Legalized
    ensures run { IsLegalized has_lesser_corner dcel.old list.items max_flips result dcel.new }
    ensures step { MakesFlips dcel.old list.items max_flips result dcel.new }
{
    legalize_edges(dcel, list, |vertices| is_wanted(vertices), max_flips)
}

fn is_wanted(vertices: &[FixedVertexHandle; 4]) -> bool
    ensures { result ≡ has_lesser_corner vertices.now }
{
    let [from, to, near, far] = *vertices;
    near.index().min(far.index()) < from.index().min(to.index())
}
