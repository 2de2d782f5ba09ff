//! Calls that make, list and edit meshes, with each of their requests for memory refused in turn.
//!
//! A request that is refused fails one call and changes nothing: what comes after it succeeds, and
//! an edit that failed does when it is made again.

use crate::meshes::{DATA, Faces, Mesh, TRIANGLES, data, vectors_of, wheel};
use dcel_bench::checks::{holds, same};
use dcel_bench::meshes::{half_edge, inner_face, vertex};
use dcel_bench::refusing::{Memory, Refusals, Refusing};
use dcel_convenience::{
    WhyNotCollapsed, WhyNotInserted, WhyNotRemoved, border, border_vertices, collapse_edge,
    degrees, insert_vertex, neighbors, remove_any_vertex, remove_vertex,
};
use dcel_exchange::ClosedFacesError::{self, Others};
use dcel_exchange::{
    FacesError, RefusedFaces, anchor_lists, data_lists, face_lists, face_triangles,
    from_closed_faces, from_faces, from_triangles, link_lists, with_data,
};
use dcel_regions::{Mark, regions};
use spade_dcel::dcel::RemovalState;
use spade_dcel::operations::MeshData;
use std::alloc::{Allocator, Global};
use std::test::Fail;

/// No test makes so many requests for memory.
const MANY: u64 = 1000;

/// The calls in their order. Each is refused a request.
const CALLS: [&str; 16] = [
    "from",
    "neighbors",
    "degrees",
    "border",
    "border_vertices",
    "regions",
    "link_lists",
    "anchor_lists",
    "face_lists",
    "face_triangles",
    "data_lists",
    "with_data",
    "insert_vertex",
    "collapse_edge",
    "remove_vertex",
    "remove_any_vertex",
];

/// How many calls were refused memory, and which was the last.
#[derive(Clone, Copy)]
struct Turned {
    count: u64,
    last: &'static str,
}

impl Turned {
    /// Notes whether a call found its memory.
    fn note(&mut self, is_done: bool, name: &'static str) {
        if !is_done {
            self.count = self.count.saturating_add(1);
            self.last = name;
        }
    }
}

/// A call that makes a mesh of faces.
#[derive(Clone, Copy)]
enum Maker {
    Triangles,
    Faces,
    ClosedFaces,
}

const MAKERS: [Maker; 3] = [Maker::Triangles, Maker::Faces, Maker::ClosedFaces];

/// The data of vertices, which come back with a reason.
type Refused<'a> = RefusedFaces<Vec<i64, Memory<'a>>, ClosedFacesError>;

/// Returns the refusal of faces as one of those of a closed surface.
fn as_others<T>(refused: RefusedFaces<T>) -> RefusedFaces<T, ClosedFacesError> {
    RefusedFaces {
        reason: Others(refused.reason),
        back: refused.back,
    }
}

/// Makes the mesh of these faces, the last of which is the outer one.
fn make<'a>(
    maker: Maker,
    faces: &[Vec<u32>],
    vertices: Vec<i64, Memory<'a>>,
    memory: Memory<'a>,
) -> Result<Mesh<Memory<'a>>, Refused<'a>> {
    match maker {
        Maker::Triangles => from_triangles(memory, vertices, &TRIANGLES).map_err(as_others),
        Maker::Faces => {
            let inner = faces.get(..TRIANGLES.len()).unwrap_or(&[]);
            from_faces(memory, vertices, inner).map_err(as_others)
        }
        Maker::ClosedFaces => from_closed_faces(memory, vertices, faces, TRIANGLES.len()),
    }
}

/// Makes the mesh of the data that came back.
fn make_again<'a>(
    maker: Maker,
    faces: &[Vec<u32>],
    refused: Refused<'a>,
    memory: Memory<'a>,
) -> Result<Mesh<Memory<'a>>, Fail> {
    same(
        refused.reason,
        Others(FacesError::OutOfMemory),
        "the reason",
    )?;
    same(refused.back.as_slice(), DATA.as_slice(), "the data")?;
    make(maker, faces, refused.back, memory).map_err(|_| Fail::new("no mesh is made again"))
}

/// Makes the mesh, at the second try if a request is refused.
fn made<'a>(
    maker: Maker,
    faces: &[Vec<u32>],
    vertices: Vec<i64, Memory<'a>>,
    memory: Memory<'a>,
    turned: &mut Turned,
) -> Result<Mesh<Memory<'a>>, Fail> {
    match make(maker, faces, vertices, memory) {
        Ok(dcel) => Ok(dcel),
        Err(refused) => {
            turned.note(false, "from");
            make_again(maker, faces, refused, memory)
        }
    }
}

/// Makes the mesh again over these data, if they are as many as its elements. Returns whether there
/// was memory.
fn is_made_of<'a, A: Allocator>(
    dcel: &Mesh<A>,
    given: MeshData<i64, (), Mark, (), Memory<'a>>,
    memory: Memory<'a>,
) -> bool {
    if dcel.removal_state() != RemovalState::Closed {
        return false;
    }
    if given.vertices.len() != dcel.num_vertices() {
        return false;
    }
    if given.edges.len() != dcel.num_undirected_edges() {
        return false;
    }
    if given.faces.len() != dcel.num_faces() {
        return false;
    }
    with_data(memory, dcel, given).is_ok()
}

/// Lists what is around vertices and faces.
fn list_around<A: Allocator>(dcel: &Mesh<A>, memory: Memory, turned: &mut Turned) {
    if let Some(center) = dcel.get_vertex(vertex(3)) {
        turned.note(neighbors(memory, center).is_ok(), "neighbors");
    }
    turned.note(degrees(memory, dcel).is_ok(), "degrees");
    turned.note(border(memory, dcel).is_ok(), "border");
    turned.note(border_vertices(memory, dcel).is_ok(), "border_vertices");
    turned.note(regions(dcel, memory).is_ok(), "regions");
}

/// Lists links, anchors, faces and data.
fn list_all<A: Allocator>(dcel: &Mesh<A>, memory: Memory, turned: &mut Turned) {
    if dcel.removal_state() != RemovalState::Closed {
        return;
    }
    turned.note(link_lists(memory, dcel).is_ok(), "link_lists");
    turned.note(anchor_lists(memory, dcel).is_ok(), "anchor_lists");
    turned.note(face_lists(memory, dcel).is_ok(), "face_lists");
    turned.note(face_triangles(memory, dcel).is_ok(), "face_triangles");
    match data_lists(memory, dcel) {
        Ok(given) => turned.note(is_made_of(dcel, given, memory), "with_data"),
        Err(_) => turned.note(false, "data_lists"),
    }
}

/// An edit of the mesh.
#[derive(Clone, Copy)]
enum Edit {
    Insert,
    Collapse,
    Remove,
    /// Removes the vertex with this number, whose datum is this.
    RemoveAnywhere(u32, i64),
}

/// Edits, with the calls that make them. A vertex that is put in gets the number 5; vertex 0 is on
/// the border.
const EDITS: [(Edit, &str); 7] = [
    (Edit::Insert, "insert_vertex"),
    (Edit::Collapse, "collapse_edge"),
    (Edit::Insert, "insert_vertex"),
    (Edit::Remove, "remove_vertex"),
    (Edit::Insert, "insert_vertex"),
    (Edit::RemoveAnywhere(5, 50), "remove_any_vertex"),
    (Edit::RemoveAnywhere(0, 0), "remove_any_vertex"),
];

fn is_inserted(dcel: &mut Mesh<Memory>) -> Result<bool, Fail> {
    match insert_vertex(dcel, 50, inner_face(1)) {
        Ok(vertex) => same(vertex.index(), 5, "the vertex").map(|_| true),
        Err(refused) => {
            let found = (refused.why, refused.back);
            same(found, (WhyNotInserted::OutOfMemory, 50), "why").map(|_| false)
        }
    }
}

fn is_collapsed<'a>(dcel: &mut Mesh<Memory<'a>>, memory: Memory<'a>) -> Result<bool, Fail> {
    match collapse_edge(dcel, memory, half_edge(13)) {
        Ok(taken) => same(taken.removed_vertex, 50, "the datum").map(|_| true),
        Err(why) => same(why, WhyNotCollapsed::OutOfMemory, "why").map(|_| false),
    }
}

fn is_removed<'a>(dcel: &mut Mesh<Memory<'a>>, memory: Memory<'a>) -> Result<bool, Fail> {
    match remove_vertex(dcel, memory, vertex(5)) {
        Ok(taken) => same(taken.removed_vertex, 50, "the datum").map(|_| true),
        Err(why) => same(why, WhyNotRemoved::OutOfMemory, "why").map(|_| false),
    }
}

fn is_removed_anywhere<'a>(
    dcel: &mut Mesh<Memory<'a>>,
    number: u32,
    datum: i64,
    memory: Memory<'a>,
) -> Result<bool, Fail> {
    match remove_any_vertex(dcel, memory, vertex(number)) {
        Ok(taken) => same(taken.removed_vertex, datum, "the datum").map(|_| true),
        Err(why) => same(why, WhyNotRemoved::OutOfMemory, "why").map(|_| false),
    }
}

/// Makes an edit. Returns whether there was memory.
fn is_edited<'a>(
    dcel: &mut Mesh<Memory<'a>>,
    edit: Edit,
    memory: Memory<'a>,
) -> Result<bool, Fail> {
    match edit {
        Edit::Insert => is_inserted(dcel),
        Edit::Collapse => is_collapsed(dcel, memory),
        Edit::Remove => is_removed(dcel, memory),
        Edit::RemoveAnywhere(number, datum) => is_removed_anywhere(dcel, number, datum, memory),
    }
}

/// Makes each edit, at the second try if a request is refused.
fn edit_all<'a>(
    dcel: &mut Mesh<Memory<'a>>,
    memory: Memory<'a>,
    turned: &mut Turned,
) -> Result<(), Fail> {
    for (edit, name) in &EDITS {
        let is_done = is_edited(dcel, *edit, memory)?;
        turned.note(is_done, name);
        let is_done = is_done || is_edited(dcel, *edit, memory)?;
        holds(
            is_done,
            format_args!("{name} succeeds when it is made again"),
        )?;
    }
    let left = (
        dcel.num_vertices(),
        dcel.num_undirected_edges(),
        dcel.num_faces(),
    );
    same(left, (4, 3, 2), "what is left")
}

/// Makes a mesh and all calls on it with the request of this number refused. Returns the call that
/// was refused it, if one was.
fn refuse<'a>(
    maker: Maker,
    faces: &[Vec<u32>],
    number: u64,
    memory: Memory<'a>,
) -> Result<Option<&'static str>, Fail> {
    let vertices = data(memory)?;
    memory.refuse(Refusals::One(number));
    let mut turned = Turned { count: 0, last: "" };
    let mut dcel = made(maker, faces, vertices, memory, &mut turned)?;
    list_around(&dcel, memory, &mut turned);
    list_all(&dcel, memory, &mut turned);
    edit_all(&mut dcel, memory, &mut turned)?;
    let came = memory.requests() > number;
    same(
        turned.count,
        u64::from(came),
        "calls that were refused memory",
    )?;
    Ok(if came { Some(turned.last) } else { None })
}

/// Refuses the request of this number in memory of its own.
fn refuse_one(
    maker: Maker,
    faces: &[Vec<u32>],
    number: u64,
    alloc: Global,
) -> Result<Option<&'static str>, Fail> {
    let memory = Refusing::new(alloc);
    refuse(maker, faces, number, &memory)
}

/// Returns the place of a call that was refused: the one of the call before, or the next.
fn place_after(before: usize, name: &str) -> Result<usize, Fail> {
    let next = before.saturating_add(1);
    if CALLS.get(before) == Some(&name) {
        return Ok(before);
    }
    same(CALLS.get(next), Some(&name), "the call that is refused")?;
    Ok(next)
}

/// Checks that no call comes after the last one that was refused.
fn check_last(place: usize) -> Result<(), Fail> {
    let next = CALLS.get(place.saturating_add(1));
    same(next, None, "a call that is refused no request")
}

/// Refuses each request in turn. Each call makes one.
fn refuse_each(maker: Maker, faces: &[Vec<u32>], alloc: Global) -> Result<(), Fail> {
    let mut place = 0;
    for number in 0..MANY {
        match refuse_one(maker, faces, number, alloc)? {
            Some(name) => place = place_after(place, name)?,
            None => return check_last(place),
        }
    }
    Err(Fail::new("more requests than MANY"))
}

/// The triangles of the mesh, and then its outer face.
const ALL_FACES: Faces = &[&[0, 1, 3], &[1, 2, 3], &[2, 0, 3], &[0, 2, 1]];

#[test]
fn each_request_is_refused_in_turn(rt: HostRuntime) -> Result<(), Fail> {
    let faces = vectors_of(ALL_FACES, rt.alloc())?;
    for maker in &MAKERS {
        refuse_each(*maker, &faces, rt.alloc())?;
    }
    Ok(())
}

/// Makes all lists of a large mesh, for which there is memory.
fn list_large(dcel: &Mesh, memory: Memory) -> Result<(), Fail> {
    let mut turned = Turned { count: 0, last: "" };
    list_around(dcel, memory, &mut turned);
    list_all(dcel, memory, &mut turned);
    same(turned.last, "", "a call on a large mesh without memory")
}

/// Makes all lists of a large mesh, and removes the vertex in its middle.
fn check_large(dcel: &mut Mesh, alloc: Global) -> Result<(), Fail> {
    let memory = Refusing::new(alloc);
    list_large(dcel, &memory)?;
    let removed = remove_any_vertex(dcel, alloc, vertex(0));
    same(removed.err(), None, "why the vertex in the middle stays")
}

#[test]
fn large_meshes_are_listed(rt: HostRuntime) -> Result<(), Fail> {
    let mut dcel = wheel(1000, rt.alloc())?;
    check_large(&mut dcel, rt.alloc())
}
