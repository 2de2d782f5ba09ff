//! What takes no memory, where every request for it is refused.

use dcel_bench::checks::same;
use dcel_bench::data::{Datum, write_all, write_distinct};
use dcel_bench::lines::grown;
use dcel_bench::meshes::{Mesh, half_edge, handles, inner_face, undirected_edge, vertex};
use dcel_bench::refusing::{Refusals, Refusing, Watched};
use dcel_bench::require;
use dcel_bench::snapshots::snapshot_of;
use spade_dcel::handles::{FixedDirectedEdgeHandle, FixedVertexHandle};
use spade_dcel::iterators::HullIterator;
use spade_dcel::operations::{IsolateVertexResult, Room, remove_from_square, remove_from_triangle};
use std::alloc::{AllocError, Allocator, Global};
use std::test::Fail;

/// A triangle that vertex 3 cuts into three, and vertex 4 beside it.
const CUT: &str = "triangle 7 -8 9\nappend 10\ninsert 3 1\nappend 11";

/// The same with vertex 4 on the edge from vertex 0 to vertex 3.
const SPLIT: &str = "triangle 7 -8 9\nappend 10\ninsert 3 1\nappend 11\nsplit 6 4";

/// Empty; cut; split; with vertex 3 given up while a removal is open, and once it is cleaned up; the line
/// 2, 0, 1.
const MESHES: [&str; 6] = [
    "",
    CUT,
    SPLIT,
    "triangle 7 -8 9\nappend 10\ninsert 3 1\nappend 11\nisolate 3 1 3 5",
    "triangle 7 -8 9\nappend 10\ninsert 3 1\nappend 11\nisolate 3 1 3 5\ncleanup 3 4 5 / 1 2 3",
    "append 7\nappend -8\nsetup 0 1\nappend 9\nextend 0 2",
];

/// Data that are written.
const WRITTEN: [(Datum, i64); 6] = [
    (Datum::Vertex(0), 100),
    (Datum::UpdatedVertex(3), 103),
    (Datum::HalfEdge(7), 207),
    (Datum::Edge(5), 305),
    (Datum::Face(0), 400),
    (Datum::InnerFace(3), 403),
];

/// Adds the half edges out of a vertex, from the front and from the back.
fn push_out_edges<A: Allocator>(
    seen: &mut Vec<usize>,
    dcel: &Mesh<A>,
    start: FixedVertexHandle,
) -> Result<(), Fail> {
    require!(start.index() < dcel.num_vertices());
    for edge in dcel.vertex(start).out_edges() {
        seen.push(edge.index())?;
    }
    for edge in dcel.vertex(start).out_edges().rev() {
        seen.push(edge.index())?;
    }
    Ok(())
}

/// Adds the hull, from the front and from the back.
fn push_hull<A: Allocator>(seen: &mut Vec<usize>, dcel: &Mesh<A>) -> Result<(), AllocError> {
    for edge in HullIterator::new(dcel) {
        seen.push(edge.index())?;
    }
    for edge in HullIterator::new(dcel).rev() {
        seen.push(edge.index())?;
    }
    Ok(())
}

/// Returns how many elements of each kind are listed.
fn listed<A: Allocator>(dcel: &Mesh<A>) -> [usize; 6] {
    [
        dcel.vertices().count(),
        dcel.directed_edges().count(),
        dcel.undirected_edges().count(),
        dcel.faces().count(),
        dcel.inner_faces().count(),
        dcel.fixed_faces().count(),
    ]
}

/// Adds the live vertices, edges and inner faces.
fn push_live<A: Allocator>(seen: &mut Vec<usize>, dcel: &Mesh<A>) -> Result<(), AllocError> {
    for vertex in dcel.live_vertices() {
        seen.push(vertex.index())?;
    }
    for edge in dcel.live_undirected_edges() {
        seen.push(edge.index())?;
    }
    for face in dcel.live_inner_faces() {
        seen.push(face.index())?;
    }
    Ok(())
}

/// Adds where the steps from each live half edge lead, on the mesh and on its dual.
fn push_steps<A: Allocator>(seen: &mut Vec<usize>, dcel: &Mesh<A>) -> Result<(), AllocError> {
    for edge in dcel.live_directed_edges() {
        for next in [edge.next(), edge.prev(), edge.rev(), edge.cw(), edge.ccw()] {
            seen.push(next.index())?;
        }
        for end in [edge.from(), edge.to()] {
            seen.push(end.index())?;
        }
        if let Some(corner) = edge.opposite_vertex() {
            seen.push(corner.index())?;
        }
        seen.push(usize::from(edge.is_part_of_convex_hull()))?;
        seen.push(edge.as_voronoi_edge().next().as_delaunay_edge().index())?;
    }
    Ok(())
}

/// Adds the half edges of each live face.
fn push_faces<A: Allocator>(seen: &mut Vec<usize>, dcel: &Mesh<A>) -> Result<(), AllocError> {
    for face in dcel.live_faces() {
        for edge in face.directed_edges() {
            seen.push(edge.index())?;
        }
    }
    Ok(())
}

/// Returns the half edges that walks give, one after another.
fn walked<A: Allocator>(dcel: &Mesh<A>, alloc: Global) -> Result<Vec<usize>, Fail> {
    let mut seen = Vec::new(alloc);
    for start in dcel.fixed_vertices() {
        push_out_edges(&mut seen, dcel, start)?;
    }
    push_hull(&mut seen, dcel)?;
    push_live(&mut seen, dcel)?;
    push_steps(&mut seen, dcel)?;
    push_faces(&mut seen, dcel)?;
    Ok(seen)
}

/// Returns the tests that are about one element, for those with this number.
fn tested_at<A: Allocator>(dcel: &Mesh<A>, index: u32) -> [bool; 15] {
    let at = vertex(index);
    let edge = half_edge(index);
    let face = inner_face(index);
    [
        dcel.is_live_vertex(at),
        dcel.is_unconnected(at),
        dcel.is_line_end(at),
        dcel.can_swap_remove(at),
        dcel.can_remove_degenerate(at),
        dcel.is_live_edge(undirected_edge(index)),
        dcel.can_flip(undirected_edge(index)),
        dcel.is_bridge(edge),
        dcel.can_close_outside(edge),
        dcel.is_live_face(face),
        dcel.is_triangle(face),
        dcel.get_vertex(at).is_some(),
        dcel.get_directed_edge(edge).is_some(),
        dcel.get_undirected_edge(undirected_edge(index)).is_some(),
        dcel.get_face(face).is_some(),
    ]
}

/// Returns the tests of all that a call asks, for the elements with this number and vertex 4.
fn tested_for_calls<A: Allocator>(dcel: &Mesh<A>, index: u32) -> [bool; 7] {
    let new_vertex = vertex(4);
    let edge = half_edge(index);
    [
        dcel.can_setup_initial_two_vertices(vertex(index), new_vertex),
        dcel.can_extend_line(vertex(index), new_vertex),
        dcel.can_split_edge_when_all_vertices_on_line(edge, new_vertex),
        dcel.can_create_new_face_adjacent_to_edge(edge, new_vertex),
        dcel.can_insert_into_triangle(new_vertex, inner_face(index)),
        dcel.can_split_edge(edge, new_vertex),
        dcel.can_split_half_edge(edge, new_vertex),
    ]
}

/// The lists that tests are about.
#[derive(Drop)]
struct Lists {
    border: Vec<FixedDirectedEdgeHandle>,
    opened: IsolateVertexResult,
}

/// Returns the border loop of vertex 4 once it splits an edge.
fn square() -> [FixedDirectedEdgeHandle; 4] {
    [1, 11, 8, 5].map(half_edge)
}

fn make_lists(alloc: Global) -> Result<Lists, AllocError> {
    Ok(Lists {
        border: handles(&[1, 3, 5], alloc)?,
        opened: IsolateVertexResult {
            new_edges: Vec::new(alloc),
            smallest_new_edge: undirected_edge(0),
            edges_to_remove: handles(&[3, 4, 5], alloc)?,
            faces_to_remove: handles(&[2, 3, 1], alloc)?,
        },
    })
}

/// Returns the tests that are about lists and the whole mesh.
fn tested_whole<A: Allocator>(dcel: &Mesh<A>, lists: &Lists) -> [bool; 14] {
    let border = lists.border.as_slice();
    let edges = lists.opened.edges_to_remove.as_slice();
    let faces = lists.opened.faces_to_remove.as_slice();
    [
        dcel.is_border_loop(border, vertex(3)),
        dcel.is_ring(border, edges, faces),
        dcel.is_edge_strip(border),
        dcel.is_listed(&lists.opened),
        lists.opened.is_new_edge(undirected_edge(0)),
        dcel.can_isolate_vertex_and_fill_hole(border, vertex(3)),
        dcel.can_remove_from_triangle(border, vertex(3)),
        dcel.can_remove_from_square(&square(), vertex(4)),
        dcel.can_remesh_edge_ring(border, edges, faces),
        dcel.can_disconnect_edge_strip(border),
        dcel.has_room_for(Room::SPLIT_EDGE),
        dcel.has_room(1, 2, 3),
        dcel.has_room(4_294_967_296, 0, 0),
        dcel.sanity_check(),
    ]
}

/// Returns the first half edge from one vertex to another.
fn joined<A: Allocator>(dcel: &Mesh<A>, from: u32, to: u32) -> Result<Option<usize>, Fail> {
    let from = vertex(from);
    if from.index() >= dcel.num_vertices() {
        return Ok(None);
    }
    Ok(
        dcel.get_edge_from_neighbors(from, vertex(to))
            .map(|edge| edge.index()),
    )
}

/// Checks that the elements with a number are tested and joined as in a mesh that has memory.
fn check_tested(dcel: &Watched, wanted: &Mesh, index: u32) -> Result<(), Fail> {
    let found = (tested_at(dcel, index), tested_for_calls(dcel, index));
    let wanted_tests = (tested_at(wanted, index), tested_for_calls(wanted, index));
    same(found, wanted_tests, "what is tested")?;
    same(
        joined(dcel, index, 0)?,
        joined(wanted, index, 0)?,
        "who is joined",
    )
}

/// Checks that a mesh is read and walked as one that has memory.
fn check_walked(dcel: &Watched, wanted: &Mesh, alloc: Global) -> Result<(), Fail> {
    let found = snapshot_of(dcel, alloc)?;
    same(found, snapshot_of(wanted, alloc)?, "what is read")?;
    let found = walked(dcel, alloc)?;
    same(found, walked(wanted, alloc)?, "what is walked")
}

/// Checks that a mesh is read, walked and tested as one that has memory.
fn check_read(dcel: &Watched, wanted: &Mesh, lists: &Lists, alloc: Global) -> Result<(), Fail> {
    check_walked(dcel, wanted, alloc)?;
    for index in 0..13 {
        check_tested(dcel, wanted, index)?;
    }
    let found = (listed(dcel), tested_whole(dcel, lists));
    let wanted = (listed(wanted), tested_whole(wanted, lists));
    same(found, wanted, "what is listed and tested of all")
}

/// Makes a mesh whose elements have data of their own.
fn made<A: Allocator + Copy>(memory: A, lines: &str) -> Result<Mesh<A>, Fail> {
    let mut dcel = grown(memory, lines)?;
    write_distinct(&mut dcel)?;
    Ok(dcel)
}

/// Checks that a mesh is read, walked and tested with every request refused, as this one is.
fn check_watched(lines: &str, wanted: &Mesh, lists: &Lists, alloc: Global) -> Result<(), Fail> {
    let memory = Refusing::new(alloc);
    let dcel = made(&memory, lines)?;
    memory.refuse(Refusals::From(0));
    check_read(&dcel, wanted, lists, alloc)?;
    same(memory.requests(), 0, "requests")
}

fn check_mesh(lines: &str, lists: &Lists, alloc: Global) -> Result<(), Fail> {
    let wanted = made(alloc, lines)?;
    check_watched(lines, &wanted, lists, alloc)
}

fn check_meshes(lists: &Lists, alloc: Global) -> Result<(), Fail> {
    for lines in &MESHES {
        check_mesh(*lines, lists, alloc)?;
    }
    Ok(())
}

#[test]
fn reads_walks_and_tests_take_no_memory(rt: HostRuntime) -> Result<(), Fail> {
    let lists = make_lists(rt.alloc())?;
    check_meshes(&lists, rt.alloc())
}

fn check_written(alloc: Global) -> Result<(), Fail> {
    let memory = Refusing::new(alloc);
    let mut dcel = made(&memory, CUT)?;
    memory.refuse(Refusals::From(0));
    write_all(&mut dcel, &WRITTEN)?;
    same(memory.requests(), 0, "requests")
}

#[test]
fn data_are_written_without_memory(rt: HostRuntime) -> Result<(), Fail> {
    check_written(rt.alloc())
}

/// Gives a mesh places for more edges and faces.
fn reserve(dcel: &mut Watched, edges: usize, faces: usize) -> Result<(), Fail> {
    require!(dcel.has_room(0, edges, faces));
    Ok(dcel.reserve_capacity(0, edges, faces)?)
}

/// Removes vertex 3 from the triangle. Returns whether there was memory.
fn remove_from_cut<A: Allocator>(dcel: &mut Mesh<A>, lists: &Lists) -> Result<bool, Fail> {
    let border = lists.border.as_slice();
    let center = vertex(3);
    require!(
        dcel.can_remove_from_triangle(border, center)
            && dcel.has_room_for(Room::REMOVE_FROM_TRIANGLE)
    );
    Ok(remove_from_triangle(dcel, border, center).is_ok())
}

/// Removes vertex 4 from the square. Returns whether there was memory.
fn remove_from_split<A: Allocator>(dcel: &mut Mesh<A>) -> Result<bool, Fail> {
    let border = square();
    let center = vertex(4);
    require!(
        dcel.can_remove_from_square(&border, center) && dcel.has_room_for(Room::REMOVE_FROM_SQUARE)
    );
    Ok(remove_from_square(dcel, &border, center).is_ok())
}

fn check_removed(alloc: Global) -> Result<(), Fail> {
    let memory = Refusing::new(alloc);
    let lists = make_lists(alloc)?;
    let mut dcel = made(&memory, CUT)?;
    reserve(&mut dcel, 0, 1)?;
    memory.refuse(Refusals::From(0));
    let is_removed = remove_from_cut(&mut dcel, &lists)?;
    same((is_removed, memory.requests()), (true, 0), "requests")
}

/// The mesh has a place for the face that fills the hole. Without one there is a request, which
/// `dcel_sweep` refuses.
#[test]
fn a_vertex_is_removed_from_a_triangle_without_memory(rt: HostRuntime) -> Result<(), Fail> {
    check_removed(rt.alloc())
}

fn check_removed_from_square(alloc: Global) -> Result<(), Fail> {
    let memory = Refusing::new(alloc);
    let mut dcel = made(&memory, SPLIT)?;
    reserve(&mut dcel, 1, 2)?;
    memory.refuse(Refusals::From(0));
    let is_removed = remove_from_split(&mut dcel)?;
    same((is_removed, memory.requests()), (true, 0), "requests")
}

/// The mesh has places for the edge and the faces that fill the hole.
#[test]
fn a_vertex_is_removed_from_a_square_without_memory(rt: HostRuntime) -> Result<(), Fail> {
    check_removed_from_square(rt.alloc())
}
