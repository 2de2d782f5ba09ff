//! Meshes made of links, alone or with anchors, with each request refused in turn.

use crate::swept::Swept;
use dcel_bench::checks::same;
use dcel_bench::meshes::{adjacent_edge, out_edge};
use dcel_bench::refusing::{Memory, Refusals, Refusing, Watched};
use dcel_bench::snapshots::{Snapshot, snapshot_of};
use spade_dcel::operations::{
    Anchors, EdgeData, Links, LinksError, LinksFault, MeshData, RefusedLinks, from_anchored_links,
    from_links,
};
use std::alloc::{AllocError, Global};
use std::test::Fail;

#[derive(Clone, Copy)]
enum Call {
    FromLinks,
    /// With anchors of the vertices and of the faces.
    FromAnchoredLinks(&'static [Option<u32>], &'static [Option<u32>]),
}

use Call::{FromAnchoredLinks, FromLinks};

/// Returns the function that is called.
fn name(call: Call) -> &'static str {
    match call {
        FromLinks => "from_links",
        FromAnchoredLinks(_, _) => "from_anchored_links",
    }
}

type Data<'a> = MeshData<i64, i64, i64, i64, Memory<'a>>;

/// A call, its links, of how many vertices, edges and faces data are given with them, how many
/// requests for memory it makes, and the reason if the links are refused when there is memory.
struct Row {
    call: Call,
    links: Links<'static>,
    counts: [u32; 3],
    requests: u64,
    refused: Option<LinksError>,
}

const TRIANGLE: Links<'static> = Links {
    next: &[2, 5, 4, 1, 0, 3],
    origin: &[0, 1, 1, 2, 2, 0],
    face: &[0, 1, 0, 1, 0, 1],
};

const NO_LINKS: Links<'static> = Links {
    next: &[],
    origin: &[],
    face: &[],
};

/// Half edge 4 lies in face 1, and half edge 2, the one before, in face 0.
const LEAVING: Links<'static> = Links {
    next: &[2, 5, 4, 1, 0, 3],
    origin: &[0, 1, 1, 2, 2, 0],
    face: &[0, 1, 0, 1, 1, 1],
};

/// A torus of one hexagon.
const TORUS: Links<'static> = Links {
    next: &[3, 2, 5, 4, 1, 0],
    origin: &[0, 1, 0, 1, 0, 1],
    face: &[0, 0, 0, 0, 0, 0],
};

const ROWS: [Row; 15] = [
    Row {
        call: FromLinks,
        links: TRIANGLE,
        counts: [3, 3, 2],
        requests: 15,
        refused: None,
    },
    Row {
        call: FromLinks,
        links: NO_LINKS,
        counts: [2, 0, 1],
        requests: 4,
        refused: None,
    },
    Row {
        call: FromLinks,
        links: TRIANGLE,
        counts: [3, 2, 2],
        requests: 0,
        refused: Some(LinksError::Edges),
    },
    Row {
        call: FromLinks,
        links: LEAVING,
        counts: [3, 3, 2],
        requests: 1,
        refused: Some(LinksError::Links(LinksFault::LeavesFace(2))),
    },
    Row {
        call: FromLinks,
        links: TORUS,
        counts: [2, 3, 1],
        requests: 7,
        refused: Some(LinksError::Links(LinksFault::NotSphere(1))),
    },
    // Not all of them are the last half edges.
    Row {
        call: FromAnchoredLinks(&[Some(0), Some(2), Some(3)], &[Some(2), Some(1)]),
        links: TRIANGLE,
        counts: [3, 3, 2],
        requests: 15,
        refused: None,
    },
    Row {
        call: FromAnchoredLinks(&[None, None], &[None]),
        links: NO_LINKS,
        counts: [2, 0, 1],
        requests: 4,
        refused: None,
    },
    // There are data of another edge too.
    Row {
        call: FromAnchoredLinks(&[], &[]),
        links: TRIANGLE,
        counts: [3, 4, 2],
        requests: 0,
        refused: Some(LinksError::Edges),
    },
    Row {
        call: FromAnchoredLinks(&[Some(0), Some(2)], &[Some(2), Some(1)]),
        links: TRIANGLE,
        counts: [3, 3, 2],
        requests: 0,
        refused: Some(LinksError::Anchors),
    },
    Row {
        call: FromAnchoredLinks(&[Some(0), Some(2), Some(3)], &[Some(2), Some(1), None]),
        links: TRIANGLE,
        counts: [3, 3, 2],
        requests: 0,
        refused: Some(LinksError::Anchors),
    },
    // The links are looked at before the anchors.
    Row {
        call: FromAnchoredLinks(&[Some(0), None, Some(3)], &[Some(2), Some(1), None]),
        links: TRIANGLE,
        counts: [3, 3, 3],
        requests: 7,
        refused: Some(LinksError::Links(LinksFault::UnusedFace(2))),
    },
    // Half edge 0 starts at another vertex.
    Row {
        call: FromAnchoredLinks(&[Some(0), Some(0), Some(3)], &[Some(2), Some(1)]),
        links: TRIANGLE,
        counts: [3, 3, 2],
        requests: 7,
        refused: Some(LinksError::VertexAnchor(1)),
    },
    Row {
        call: FromAnchoredLinks(&[Some(0), Some(2), None], &[Some(2), Some(1)]),
        links: TRIANGLE,
        counts: [3, 3, 2],
        requests: 7,
        refused: Some(LinksError::VertexAnchor(2)),
    },
    // There is no half edge 6.
    Row {
        call: FromAnchoredLinks(&[Some(0), Some(2), Some(3)], &[Some(2), Some(6)]),
        links: TRIANGLE,
        counts: [3, 3, 2],
        requests: 7,
        refused: Some(LinksError::FaceAnchor(1)),
    },
    Row {
        call: FromAnchoredLinks(&[Some(0), Some(2), Some(3)], &[None, Some(1)]),
        links: TRIANGLE,
        counts: [3, 3, 2],
        requests: 7,
        refused: Some(LinksError::FaceAnchor(0)),
    },
];

/// Returns data of vertices or faces, from `first` on.
fn elements<'a>(
    memory: Memory<'a>,
    count: u32,
    first: i64,
) -> Result<Vec<i64, Memory<'a>>, AllocError> {
    let mut data = Vec::new(memory);
    for element in 0..count {
        data.push(first.saturating_add(i64::from(element)))?;
    }
    Ok(data)
}

/// Returns data of edges.
fn edges<'a>(
    memory: Memory<'a>,
    count: u32,
) -> Result<Vec<EdgeData<i64, i64>, Memory<'a>>, AllocError> {
    let mut data = Vec::new(memory);
    for edge in 0..count {
        let edge = i64::from(edge);
        data.push(EdgeData {
            normalized: 100 + edge,
            reversed: 200 + edge,
            undirected: 300 + edge,
        })?;
    }
    Ok(data)
}

/// Returns data for which there is memory, and which tell their elements apart.
fn data<'a>(memory: Memory<'a>, counts: [u32; 3]) -> Result<Data<'a>, AllocError> {
    let [vertex_count, edge_count, face_count] = counts;
    let vertices = elements(memory, vertex_count, 0)?;
    let edges = edges(memory, edge_count)?;
    let faces = elements(memory, face_count, 400)?;
    Ok(MeshData {
        vertices,
        edges,
        faces,
    })
}

/// Checks that these are the data of so many vertices, edges and faces.
fn check_data(found: &Data, counts: [u32; 3]) -> Result<(), Fail> {
    let [vertex_count, edge_count, face_count] = counts;
    same(
        found.vertices.len(),
        vertex_count as usize,
        "data of vertices",
    )?;
    same(found.edges.len(), edge_count as usize, "data of edges")?;
    same(found.faces.len(), face_count as usize, "data of faces")?;
    check_elements(&found.vertices, 0)?;
    check_elements(&found.faces, 400)?;
    check_edges(&found.edges)
}

/// Checks that these are data from `first` on.
fn check_elements(found: &[i64], first: i64) -> Result<(), Fail> {
    let mut wanted = first;
    for datum in found {
        same(*datum, wanted, "a datum")?;
        wanted = wanted.saturating_add(1);
    }
    Ok(())
}

/// Checks that these are data of edges.
fn check_edges(found: &[EdgeData<i64, i64>]) -> Result<(), Fail> {
    let mut wanted: i64 = 100;
    for edge in found {
        let data = [edge.normalized, edge.reversed, edge.undirected];
        let [reversed, undirected] = [wanted.saturating_add(100), wanted.saturating_add(200)];
        same(data, [wanted, reversed, undirected], "data of an edge")?;
        wanted = wanted.saturating_add(1);
    }
    Ok(())
}

/// What making a mesh comes to.
type Outcome<'a> = Result<Watched<'a>, RefusedLinks<Data<'a>>>;

/// Makes the mesh of a row with these requests refused.
fn make<'a>(memory: Memory<'a>, row: &Row, data: Data<'a>, refusals: Refusals) -> Outcome<'a> {
    memory.refuse(refusals);
    match row.call {
        FromLinks => from_links(memory, row.links, data),
        FromAnchoredLinks(vertices, faces) => {
            let anchors = Anchors { vertices, faces };
            from_anchored_links(memory, row.links, anchors, data)
        }
    }
}

/// Returns what the mesh of a row is like if nothing is refused, or None if its links are.
fn left(row: &Row, alloc: Global) -> Result<Option<Snapshot>, Fail> {
    let memory = Refusing::new(alloc);
    let data = data(&memory, row.counts)?;
    match make(&memory, row, data, Refusals::None) {
        Ok(made) => snapshot_of(&made, alloc).map(|seen| Some(seen)),
        Err(_) => Ok(None),
    }
}

/// Checks that the vertices have these anchors.
fn check_vertices(made: &Watched, anchors: &[Option<u32>]) -> Result<(), Fail> {
    for (index, anchor) in anchors.iter().enumerate() {
        let wanted = anchor.map(|edge| edge as usize);
        same(out_edge(made, index)?, wanted, "the anchor of a vertex")?;
    }
    Ok(())
}

/// Checks that the faces have these anchors.
fn check_faces(made: &Watched, anchors: &[Option<u32>]) -> Result<(), Fail> {
    for (index, anchor) in anchors.iter().enumerate() {
        let wanted = anchor.map(|edge| edge as usize);
        same(adjacent_edge(made, index)?, wanted, "the anchor of a face")?;
    }
    Ok(())
}

/// Checks that a mesh has the anchors that were given with its links.
fn check_anchored(made: &Watched, call: Call) -> Result<(), Fail> {
    match call {
        FromLinks => Ok(()),
        FromAnchoredLinks(vertices, faces) => {
            check_vertices(made, vertices)?;
            check_faces(made, faces)
        }
    }
}

/// Checks that where there was memory the mesh is made, or its links are refused for the row's
/// reason.
fn check_made(
    outcome: &Outcome,
    row: &Row,
    left: &Option<Snapshot>,
    alloc: Global,
) -> Result<(), Fail> {
    let call = name(row.call);
    match outcome {
        Ok(made) => {
            same(None, row.refused, call)?;
            check_anchored(made, row.call)?;
            same(&Some(snapshot_of(made, alloc)?), left, call)
        }
        Err(refused) => {
            same(Some(refused.reason), row.refused, call)?;
            check_data(&refused.back, row.counts)
        }
    }
}

/// Checks that no mesh is made, as a request was refused, and makes it again of the data that come
/// back.
fn make_again<'a>(
    memory: Memory<'a>,
    row: &Row,
    outcome: Outcome<'a>,
    left: &Option<Snapshot>,
    alloc: Global,
) -> Result<(), Fail> {
    match outcome {
        Ok(_) => Err(Fail::new("a mesh is made though a request was refused")),
        Err(refused) => {
            check_refused(&refused, row)?;
            let again = make(memory, row, refused.back, Refusals::None);
            check_made(&again, row, left, alloc)
        }
    }
}

/// Checks that memory was the reason, and that the data come back.
fn check_refused(refused: &RefusedLinks<Data>, row: &Row) -> Result<(), Fail> {
    same(refused.reason, LinksError::OutOfMemory, name(row.call))?;
    check_data(&refused.back, row.counts)
}

/// Makes the mesh of a row with the request of this number refused, and again of the data that come
/// back if that request came. Returns whether it came.
fn is_refused(
    row: &Row,
    number: u64,
    left: &Option<Snapshot>,
    alloc: Global,
) -> Result<bool, Fail> {
    let memory = Refusing::new(alloc);
    let data = data(&memory, row.counts)?;
    let outcome = make(&memory, row, data, Refusals::One(number));
    let is_refused = memory.requests() > number;
    if is_refused {
        make_again(&memory, row, outcome, left, alloc)?;
    } else {
        check_made(&outcome, row, left, alloc)?;
    }
    Ok(is_refused)
}

/// Refuses the row each of its requests in turn, and none at last.
fn refuse_each(row: &Row, left: &Option<Snapshot>, alloc: Global) -> Result<(), Fail> {
    for number in 0..=row.requests {
        let is_refused = is_refused(row, number, left, alloc)?;
        let what = format_args!("{}: request {number}", name(row.call));
        same(is_refused, number < row.requests, what)?;
    }
    Ok(())
}

fn refuse(row: &Row, alloc: Global) -> Result<(), Fail> {
    let left = left(row, alloc)?;
    refuse_each(row, &left, alloc)
}

fn sweep(row: &Row, swept: &mut Swept, alloc: Global) -> Result<(), Fail> {
    refuse(row, alloc)?;
    Ok(swept.note(name(row.call), row.requests)?)
}

/// Sweeps all rows.
pub fn sweep_all(swept: &mut Swept, alloc: Global) -> Result<(), Fail> {
    for row in &ROWS {
        sweep(row, swept, alloc)?;
    }
    Ok(())
}
