//! Segments between points, as lines join them.

ghost use Rattle.std.specs.Prelude.{◌≡◌, ◌++◌, IfOk, OnOk, map};
ghost use Rattle.delaunay.specs.Segments.{segment_of, segments_of};

use crate::joins::Join;
use dcel_constrained::Segment;
use std::alloc::{AllocError, Global};

/// Lists the segments that lines join, and then those that other lines join.
pub fn segments_of(
    alloc: Global,
    joins: &[Join],
    others: &[Join],
) -> Result<Vec<Segment>, AllocError>
    ensures { IfOk result (λ list. list.items ≡ segments_of joins.now others.now) }
{
    let mut list = Vec::new(alloc);
    add_segments(&mut list, joins)?;
    add_segments(&mut list, others)?;
    Ok(list)
}

/// Appends the segments that lines join.
fn add_segments(list: &mut Vec<Segment>, joins: &[Join]) -> Result<(), AllocError>
    ensures { OnOk result (list.new.items ≡ list.old.items ++ map segment_of joins.now) }
{
    for join in joins {
        list.push(Segment {
            from: join.from,
            to: join.to,
        })?;
    }
    Ok(())
}
