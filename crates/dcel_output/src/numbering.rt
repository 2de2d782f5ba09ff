//! Numbers of points in the place of those of vertices.

ghost use Rattle.std.specs.Prelude.{◌≡◌, map};
ghost use Rattle.dcel_output.specs.Numbering.{ends_numbered, number_at, triangle_numbered};

use dcel_delaunay::Triangle;
use dcel_delaunay::lists::Ends;

/// Gives the corners of triangles the numbers that stand at their vertices. A vertex beyond these
/// keeps its own.
pub fn number_triangles(triangles: &mut [Triangle], numbers: &[u32])
    ensures { triangles.new ≡ map (triangle_numbered numbers.now) triangles.old }
{
    for triangle in triangles.iter_mut() {
        *triangle = triangle_numbered(numbers, *triangle);
    }
}

/// Gives the ends of edges the numbers that stand at their vertices. A vertex beyond these keeps its
/// own.
pub fn number_edges(edges: &mut [Ends], numbers: &[u32])
    ensures { edges.new ≡ map (ends_numbered numbers.now) edges.old }
{
    for ends in edges.iter_mut() {
        *ends = ends_numbered(numbers, *ends);
    }
}

/// Gives vertices the numbers that stand at them. A vertex beyond these keeps its own.
pub fn number_vertices(vertices: &mut [u32], numbers: &[u32])
    ensures { vertices.new ≡ map (number_at numbers.now) vertices.old }
{
    for vertex in vertices.iter_mut() {
        *vertex = number_at(numbers, *vertex);
    }
}

fn triangle_numbered(numbers: &[u32], triangle: Triangle) -> Triangle
    ensures { result ≡ triangle_numbered numbers.now triangle }
{
    Triangle {
        first: number_at(numbers, triangle.first),
        second: number_at(numbers, triangle.second),
        third: number_at(numbers, triangle.third),
    }
}

fn ends_numbered(numbers: &[u32], ends: Ends) -> Ends
    ensures { result ≡ ends_numbered numbers.now ends }
{
    Ends {
        from: number_at(numbers, ends.from),
        to: number_at(numbers, ends.to),
    }
}

/// Returns the number that stands at a vertex, or its own if none does.
pub(crate) fn number_at(numbers: &[u32], vertex: u32) -> u32
    ensures { result ≡ number_at numbers.now vertex }
{
    match numbers.get(vertex as usize) {
        Some(number) => *number,
        None => vertex,
    }
}
