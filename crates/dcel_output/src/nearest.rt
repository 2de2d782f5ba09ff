//! Nearest points, by their numbers.

ghost use Rattle.std.specs.Prelude.{◌≡◌, IfOk};
ghost use Rattle.dcel_planar.specs.Outcomes.{IsWholeMesh};
ghost use Rattle.dcel_delaunay.specs.Bulk.{AnswersEach};
ghost use Rattle.dcel_delaunay.specs.Triangulated.{mesh_in};
ghost use Rattle.dcel_output.specs.Numbering.{IsNearestNumbered};

use crate::numbering::number_at;
use dcel_delaunay::{Point, Triangulation};
use std::alloc::{AllocError, Allocator};

/// Returns for each of these places the number that stands at a vertex that is nearest to it, or
/// `None` if there is no vertex.
///
/// Asks for a whole triangulation ([`is_whole`](Triangulation::is_whole)). If memory runs out it
/// returns `AllocError`.
pub fn nearest_numbers<A: Allocator, B: Allocator>(
    alloc: B,
    triangulation: &Triangulation<A>,
    numbers: &[u32],
    places: &[Point],
) -> Result<Vec<Option<u32>, B>, AllocError>
    requires { IsWholeMesh triangulation.now.planar }
    ensures { IfOk result (λ list. AnswersEach (IsNearestNumbered (mesh_in triangulation.now) numbers.now) places.now list.items) }
{
    let mut list = Vec::with_capacity(alloc, places.len())?;
    for place in places {
        list.push(nearest_number(triangulation, numbers, *place))?;
    }
    Ok(list)
}

/// Returns the number that stands at a vertex that is nearest to a place, if there is a vertex.
fn nearest_number<A: Allocator>(
    triangulation: &Triangulation<A>,
    numbers: &[u32],
    place: Point,
) -> Option<u32>
    requires { IsWholeMesh triangulation.now.planar }
    ensures { IsNearestNumbered (mesh_in triangulation.now) numbers.now place result }
{
    match triangulation.nearest_vertex(place) {
        Some(vertex) => Some(number_at(numbers, vertex.index() as u32)),
        None => None,
    }
}
