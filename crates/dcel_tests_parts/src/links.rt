//! Links and anchors that are given as lists.

use dcel_bench::checks::same;
use dcel_links::{Links, LinksFault, check_links, find_wrong_anchor};
use std::alloc::Global;
use std::test::Fail;

/// The next half edges of a triangle, and what comes of each change of its links in the library's
/// tests (`bindings/python/tests/test_surfaces.py`).
const TRIANGLE: [u32; 6] = [2, 5, 4, 1, 0, 3];

/// The vertices at which its half edges start.
const ORIGINS: [u32; 6] = [0, 1, 1, 2, 2, 0];

/// Checks the half edges before each, or what is wrong with these links.
fn check(next: &[u32], wanted: Result<&[u32], LinksFault>, alloc: Global) -> Result<(), Fail> {
    let links = Links {
        next,
        origin: &ORIGINS,
        face: &[0, 1, 0, 1, 0, 1],
    };
    match check_links(&alloc, links, 3, 2)? {
        Ok(prev) => same(Ok(prev.as_slice()), wanted, "links"),
        Err(fault) => same(Err(fault), wanted, "links"),
    }
}

#[test]
fn links_are_looked_at(rt: HostRuntime) -> Result<(), Fail> {
    check(&TRIANGLE, Ok(&[4, 3, 0, 5, 2, 1]), rt.alloc())?;
    let two_lead = [2, 5, 4, 1, 0, 1];
    check(&two_lead, Err(LinksFault::TwoLeadTo(1)), rt.alloc())
}

/// Anchors of vertices, and the number of the wrong one, if one is. There is no vertex 3.
const ANCHORS: [(&[Option<u32>], Option<usize>); 7] = [
    (&[Some(5), Some(1), Some(3)], None),
    (&[Some(0), Some(2), Some(4), None], None),
    // Half edges that start at a vertex without a place are passed over.
    (&[Some(0)], None),
    (&[Some(0), None, Some(4)], Some(1)),
    (&[Some(0), Some(1), Some(5)], Some(2)),
    (&[Some(6), Some(1), Some(3)], Some(0)),
    (&[Some(0), Some(1), Some(3), Some(4)], Some(3)),
];

#[test]
fn wrong_anchors_are_found() -> Result<(), Fail> {
    for (anchors, wanted) in &ANCHORS {
        let found = find_wrong_anchor(&ORIGINS, anchors);
        same(found, *wanted, "a wrong anchor")?;
    }
    Ok(())
}
