//! Lists put into a caller's buffer, whole or not at all.

ghost use Rattle.std.specs.Prelude.{◌≡◌, map};
ghost use Rattle.dcel_triangulations.specs.Lists.{IsPut, across_told, point_told};

use crate::points::DcelPoint;
use crate::status::{DONE, SHORT};
use dcel_delaunay::Point;
use dcel_delaunay::lists::Across;

/// The triangles across from the corners of a triangle: C's `dcel_across`.
///
/// They are given by their places in the list of triangles. Where there is none, on the hull, it is
/// 2^32 - 1.
#[repr(C)]
#[derive(Clone, Copy)]
pub struct DcelAcross {
    /// The one across from the first corner: it has the other two as corners, too.
    pub first: u32,
    /// The one across from the second corner.
    pub second: u32,
    /// The one across from the third corner.
    pub third: u32,
}

/// Puts a list into the buffer, from the front, if it fits; what is behind it there stays.
/// `needed` is how many items there are.
pub(crate) fn put_items<T: Copy>(list: &[T], buffer: &mut [T], needed: &mut u64) -> u32
    ensures { IsPut list.now buffer.old buffer.new needed.new result }
{
    *needed = list.len() as u64;
    if buffer.len() < list.len() {
        return SHORT;
    }
    buffer[..list.len()].copy_from_slice(list);
    DONE
}

/// Puts points into the buffer, if they fit, as [`put_items`] does.
pub(crate) fn put_points(list: &[Point], buffer: &mut [DcelPoint], needed: &mut u64) -> u32
    ensures { IsPut (map point_told list.now) buffer.old buffer.new needed.new result }
{
    *needed = list.len() as u64;
    if buffer.len() < list.len() {
        return SHORT;
    }
    let mut at = 0;
    while at < list.len() {
        buffer[at] = tell_point(list[at]);
        at += 1;
    }
    DONE
}

/// Puts neighbors of triangles into the buffer, if they fit, as [`put_items`] does.
pub(crate) fn put_neighbors(list: &[Across], buffer: &mut [DcelAcross], needed: &mut u64) -> u32
    ensures { IsPut (map across_told list.now) buffer.old buffer.new needed.new result }
{
    *needed = list.len() as u64;
    if buffer.len() < list.len() {
        return SHORT;
    }
    let mut at = 0;
    while at < list.len() {
        buffer[at] = tell_neighbors(list[at]);
        at += 1;
    }
    DONE
}

/// Returns a point as C has it.
fn tell_point(point: Point) -> DcelPoint
    ensures { result ≡ point_told point }
{
    DcelPoint {
        x: point.x,
        y: point.y,
    }
}

/// Returns the neighbors of a triangle as C has them.
fn tell_neighbors(across: Across) -> DcelAcross
    ensures { result ≡ across_told across }
{
    DcelAcross {
        first: across.first.unwrap_or(u32::MAX),
        second: across.second.unwrap_or(u32::MAX),
        third: across.third.unwrap_or(u32::MAX),
    }
}
