//! What calls return on a triangle with a vertex inside, and a vertex without edges.

use crate::meshes::{DATA, Mesh, mark_all, small};
use dcel_bench::checks::{holds, same};
use dcel_bench::meshes::{half_edge, handles, inner_face, undirected_edge, vertex};
use dcel_bench::require;
use dcel_convenience::{
    Surroundings, WayOut, WhyNotInserted, WhyNotRemoved, border, border_vertices,
    can_collapse_edge, can_flip_simple, degree, degrees, insert_vertex, is_simple, look_around,
    neighbors, remove_vertex, way_out,
};
use dcel_exchange::{
    TrianglesError, anchor_lists, data_lists, face_corners, face_lists, face_triangles, link_lists,
    links, with_data,
};
use dcel_regions::{Mark, regions};
use spade_dcel::dcel::RemovalState;
use spade_dcel::operations::{
    MeshData, Room, flip_cw, isolate_vertex_and_fill_hole, split_half_edge,
};
use std::alloc::Global;
use std::test::Fail;

const NEXT: [u32; 12] = [2, 11, 4, 6, 0, 9, 8, 1, 3, 10, 5, 7];

const ORIGIN: [u32; 12] = [0, 1, 1, 3, 3, 0, 1, 2, 2, 3, 2, 0];

const FACE: [u32; 12] = [1, 0, 1, 2, 1, 3, 2, 0, 2, 3, 3, 0];

/// The corners of the inner faces, from their anchors on.
const CORNERS: [[u32; 3]; 3] = [[3, 0, 1], [2, 3, 1], [2, 0, 3]];

/// The anchors of the vertices: each is the last half edge that starts there.
const ANCHORS: [Option<u32>; 5] = [Some(11), Some(6), Some(10), Some(9), None];

/// The ends of the edges, by which some are marked one after another, and then the depths of the
/// faces.
const MARKED: [(&[[u32; 2]], [usize; 4]); 4] = [
    (&[], [0, 0, 0, 0]),
    (&[[1, 3], [3, 0]], [0, 0, 0, 0]),
    (&[[0, 1]], [0, 1, 0, 0]),
    (&[[1, 2], [2, 0]], [0, 1, 1, 1]),
];

/// The data of the edges once all these are marked.
const MARKS: [Mark; 6] = [
    Mark::Constraint,
    Mark::Constraint,
    Mark::Constraint,
    Mark::Constraint,
    Mark::Free,
    Mark::Constraint,
];

fn check_neighbors(dcel: &Mesh, alloc: Global) -> Result<(), Fail> {
    let Some(center) = dcel.get_vertex(vertex(3)) else {
        return Err(Fail::new("there is no vertex 3"));
    };
    same(degree(center), 3, "the degree")?;
    let found = neighbors(alloc, center)?;
    let wanted = [vertex(2), vertex(0), vertex(1)];
    same(found.as_slice(), wanted.as_slice(), "neighbors")
}

fn check_degrees(dcel: &Mesh, alloc: Global) -> Result<(), Fail> {
    let found = degrees(alloc, dcel)?;
    same(found.as_slice(), [3, 3, 3, 3, 0].as_slice(), "degrees")
}

fn check_border(dcel: &Mesh, alloc: Global) -> Result<(), Fail> {
    let found = border(alloc, dcel)?;
    let wanted = [half_edge(11), half_edge(7), half_edge(1)];
    same(found.as_slice(), wanted.as_slice(), "the border")
}

fn check_border_vertices(dcel: &Mesh, alloc: Global) -> Result<(), Fail> {
    let found = border_vertices(alloc, dcel)?;
    let wanted = [vertex(0), vertex(2), vertex(1)];
    same(
        found.as_slice(),
        wanted.as_slice(),
        "vertices of the border",
    )
}

/// Checks what is around vertices, and whether edges may be changed.
fn check_tests(dcel: &Mesh) -> Result<(), Fail> {
    let around = [0, 3, 4].map(|number| way_out(dcel, vertex(number)));
    let wanted = [
        Ok(WayOut::Border(half_edge(11))),
        Ok(WayOut::Inside(half_edge(9))),
        Ok(WayOut::Alone),
    ];
    same(around, wanted, "ways out")?;
    check_surroundings(dcel, 0, Surroundings::Border(half_edge(11)))?;
    holds(is_simple(dcel), "no two edges join the same vertices")
}

/// Checks what is around a vertex.
fn check_surroundings(dcel: &Mesh, number: u32, wanted: Surroundings) -> Result<(), Fail> {
    let center = vertex(number);
    require!(center.index() < dcel.num_vertices());
    same(look_around(dcel, center), wanted, "what is around a vertex")
}

/// Checks of which edges a test is true, by their numbers.
fn check_edges(dcel: &Mesh) -> Result<(), Fail> {
    let can = [9, 0, 99].map(|half| can_collapse_edge(dcel, half_edge(half)));
    same(can, [true, false, false], "whether edges can be collapsed")?;
    let can = [1, 0, 99].map(|edge| can_flip_simple(dcel, undirected_edge(edge)));
    same(can, [false; 3], "whether flips keep the mesh simple")
}

fn check_links(dcel: &Mesh, alloc: Global) -> Result<(), Fail> {
    require!(dcel.removal_state() == RemovalState::Closed);
    let lists = link_lists(alloc, dcel)?;
    same(
        lists.next.as_slice(),
        NEXT.as_slice(),
        "the half edges after each",
    )?;
    same(lists.origin.as_slice(), ORIGIN.as_slice(), "origins")?;
    same(lists.face.as_slice(), FACE.as_slice(), "faces")
}

/// Checks the links, one after another.
fn check_each_link(dcel: &Mesh) -> Result<(), Fail> {
    require!(dcel.removal_state() == RemovalState::Closed);
    let mut number: usize = 0;
    for link in links(dcel) {
        let found = [Some(link.next), Some(link.origin), Some(link.face)];
        let wanted = [
            NEXT.get(number).copied(),
            ORIGIN.get(number).copied(),
            FACE.get(number).copied(),
        ];
        same(found, wanted, format_args!("links of half edge {number}"))?;
        number = number.saturating_add(1);
    }
    same(number, NEXT.len(), "half edges")
}

fn check_anchors(dcel: &Mesh, alloc: Global) -> Result<(), Fail> {
    let lists = anchor_lists(alloc, dcel)?;
    same(
        lists.vertices.as_slice(),
        ANCHORS.as_slice(),
        "anchors of vertices",
    )?;
    let wanted = [Some(11), Some(4), Some(8), Some(10)];
    same(
        lists.faces.as_slice(),
        wanted.as_slice(),
        "anchors of faces",
    )
}

fn check_triangles(dcel: &Mesh, alloc: Global) -> Result<(), Fail> {
    require!(dcel.removal_state() == RemovalState::Closed);
    match face_triangles(alloc, dcel) {
        Ok(found) => same(found.as_slice(), CORNERS.as_slice(), "triangles"),
        Err(why) => Err(Fail::new(why)),
    }
}

/// Checks the lists of the faces' corners.
fn check_face_lists(dcel: &Mesh, alloc: Global) -> Result<(), Fail> {
    require!(dcel.removal_state() == RemovalState::Closed);
    let lists = face_lists(alloc, dcel)?;
    same(lists.len(), CORNERS.len(), "inner faces")?;
    for (found, wanted) in lists.iter().zip(&CORNERS) {
        same(found.as_slice(), wanted.as_slice(), "the corners of a face")?;
    }
    Ok(())
}

/// Checks the corners of the faces, one after another.
fn check_corners(dcel: &Mesh) -> Result<(), Fail> {
    require!(dcel.removal_state() == RemovalState::Closed);
    let mut sum: u32 = 0;
    let mut weight: u32 = 1;
    for corners in face_corners(dcel) {
        for corner in corners {
            sum = sum.saturating_add(corner.saturating_mul(weight));
        }
        weight = weight.saturating_mul(10);
    }
    same(
        sum,
        564,
        "the corners of faces 1, 2 and 3, by ones, tens and hundreds",
    )
}

/// Checks the data of a mesh.
fn check_lists(lists: &MeshData<i64, (), Mark, ()>) -> Result<(), Fail> {
    same(
        lists.vertices.as_slice(),
        DATA.as_slice(),
        "data of vertices",
    )?;
    same(lists.faces.len(), 4, "data of faces")?;
    same(lists.edges.len(), MARKS.len(), "data of edges")?;
    for (found, wanted) in lists.edges.iter().zip(&MARKS) {
        same(found.undirected, *wanted, "the datum of an edge")?;
    }
    Ok(())
}

fn check_data(dcel: &Mesh, alloc: Global) -> Result<(), Fail> {
    let lists = data_lists(alloc, dcel)?;
    check_lists(&lists)
}

/// Checks the links, the anchors and the data of the mesh that is made again over the same data.
fn check_made(dcel: &Mesh, alloc: Global) -> Result<(), Fail> {
    check_links(dcel, alloc)?;
    check_anchors(dcel, alloc)?;
    check_data(dcel, alloc)
}

/// Makes the mesh again over these data, which are as many as its elements, and checks it.
fn check_made_of(
    dcel: &Mesh,
    given: MeshData<i64, (), Mark, ()>,
    alloc: Global,
) -> Result<(), Fail> {
    require!(
        dcel.removal_state() == RemovalState::Closed
            && given.vertices.len() == dcel.num_vertices()
            && given.edges.len() == dcel.num_undirected_edges()
            && given.faces.len() == dcel.num_faces()
    );
    match with_data(alloc, dcel, given) {
        Ok(again) => check_made(&again, alloc),
        Err(_) => Err(Fail::new("the data for a mesh are refused")),
    }
}

fn check_again(dcel: &Mesh, alloc: Global) -> Result<(), Fail> {
    check_made_of(dcel, data_lists(alloc, dcel)?, alloc)
}

/// Marks edges, and checks the depths of the faces.
fn check_depths(
    dcel: &mut Mesh,
    marked: &[[u32; 2]],
    wanted: &[usize],
    alloc: Global,
) -> Result<(), Fail> {
    mark_all(dcel, marked)?;
    let found = regions(dcel, alloc)?;
    same(found.as_slice(), wanted, "depths")
}

fn check_regions(dcel: &mut Mesh, alloc: Global) -> Result<(), Fail> {
    for (marked, wanted) in &MARKED {
        check_depths(dcel, marked, wanted.as_slice(), alloc)?;
    }
    Ok(())
}

/// Checks flips beside a vertex that is put in, and one that makes a second edge.
fn check_flips(dcel: &mut Mesh) -> Result<(), Fail> {
    let added = insert_vertex(dcel, 50, inner_face(1)).is_ok();
    let edge = undirected_edge(1);
    holds(added && can_flip_simple(dcel, edge), "corners are apart")?;
    let edge = undirected_edge(4);
    require!(dcel.can_flip(edge));
    flip_cw(dcel, edge);
    holds(!is_simple(dcel), "two edges join two corners")?;
    same(
        way_out(dcel, vertex(9)),
        Err(WhyNotRemoved::NoVertex),
        "no vertex",
    )
}

fn check_around(dcel: &Mesh, alloc: Global) -> Result<(), Fail> {
    check_neighbors(dcel, alloc)?;
    check_degrees(dcel, alloc)?;
    check_border(dcel, alloc)?;
    check_border_vertices(dcel, alloc)?;
    check_tests(dcel)?;
    check_edges(dcel)
}

fn check_faces(dcel: &Mesh, alloc: Global) -> Result<(), Fail> {
    check_each_link(dcel)?;
    check_triangles(dcel, alloc)?;
    check_face_lists(dcel, alloc)?;
    check_corners(dcel)
}

fn check_all(dcel: &mut Mesh, alloc: Global) -> Result<(), Fail> {
    check_around(dcel, alloc)?;
    check_faces(dcel, alloc)?;
    check_regions(dcel, alloc)?;
    check_made(dcel, alloc)?;
    check_again(dcel, alloc)?;
    check_flips(dcel)
}

#[test]
fn calls_return_what_a_mesh_has(rt: HostRuntime) -> Result<(), Fail> {
    let mut dcel = small(rt.alloc())?;
    check_all(&mut dcel, rt.alloc())
}

/// Splits an edge of the border from outside, so that a face gets four corners.
fn split(dcel: &mut Mesh) -> Result<(), Fail> {
    let half = half_edge(1);
    let middle = vertex(4);
    require!(dcel.can_split_half_edge(half, middle));
    require!(dcel.has_room_for(Room::SPLIT_HALF_EDGE));
    split_half_edge(dcel, half, middle)?;
    Ok(())
}

/// Checks what is refused at a face with four corners.
fn check_long(dcel: &mut Mesh, alloc: Global) -> Result<(), Fail> {
    split(dcel)?;
    require!(dcel.removal_state() == RemovalState::Closed);
    let why = face_triangles(alloc, dcel).err();
    let wanted = Some(TrianglesError::NoTriangle(1));
    same(why, wanted, "why a square is no triangle")?;
    check_surroundings(dcel, 0, Surroundings::LongFace)?;
    let why = remove_vertex(dcel, alloc, vertex(0)).err();
    same(why, Some(WhyNotRemoved::NotInside), "why a corner stays")
}

/// Opens the removal of vertex 3, which is inside triangles.
fn open(dcel: &mut Mesh, alloc: Global) -> Result<(), Fail> {
    let border = handles(&[6, 0, 10], alloc)?;
    let center = vertex(3);
    require!(dcel.can_isolate_vertex_and_fill_hole(&border, center));
    require!(dcel.has_room_for(Room::filling(border.len())));
    isolate_vertex_and_fill_hole(dcel, border, center)?;
    Ok(())
}

/// Checks that calls are refused while a removal is open.
fn check_open(dcel: &mut Mesh, alloc: Global) -> Result<(), Fail> {
    let why = [
        way_out(dcel, vertex(0)).err(),
        remove_vertex(dcel, alloc, vertex(0)).err(),
    ];
    same(
        why,
        [Some(WhyNotRemoved::RemovalOpen); 2],
        "why vertices stay",
    )?;
    let why = insert_vertex(dcel, 50, inner_face(4)).map_err(|refused| refused.why);
    same(
        why.err(),
        Some(WhyNotInserted::RemovalOpen),
        "why none is put in",
    )?;
    holds(
        !can_collapse_edge(dcel, half_edge(9)),
        "no edge is collapsed",
    )
}

fn check_refused(dcel: &mut Mesh, alloc: Global) -> Result<(), Fail> {
    let why = remove_vertex(dcel, alloc, vertex(9)).err();
    same(why, Some(WhyNotRemoved::NotInside), "there is no vertex 9")?;
    open(dcel, alloc)?;
    check_open(dcel, alloc)
}

#[test]
fn calls_are_refused(rt: HostRuntime) -> Result<(), Fail> {
    let mut dcel = small(rt.alloc())?;
    check_refused(&mut dcel, rt.alloc())
}

#[test]
fn faces_may_be_long(rt: HostRuntime) -> Result<(), Fail> {
    let mut dcel = small(rt.alloc())?;
    check_long(&mut dcel, rt.alloc())
}
