//! The workloads: what each builds, does and returns. Only the work itself is timed.

ghost use Rattle.std.specs.Prelude.{◌≡◌, ◌*◌, IfOk, OnOk};
ghost use Rattle.dcel_maps.specs.Conditions.{HasRoom, IsLineEnd};
ghost use Rattle.spade_dcel.specs.Handles.{mesh_behind, number_of};
ghost use Rattle.dcel_maps.specs.Shapes.{IsLive};
ghost use Rattle.dcel_speed.specs.Growth.{IsGrown, IsTriangulated};

use crate::copies::{clone, map};
use crate::fault::{BuildError, Fault};
use crate::flip::flip;
use crate::legalize::legalize;
use crate::measure::{time_building, time_reading};
use crate::neighbors::neighbors;
use crate::random::Random;
use crate::remove::remove;
use crate::split::split;
use crate::swap::swap;
use spade_dcel::dcel::Dcel;
use spade_dcel::handles::{
    DirectedEdgeHandle, FixedFaceHandle, FixedVertexHandle, InnerTag, VertexHandle,
};
use spade_dcel::iterators::{CircularIterator, HullIterator, HullNextBackFn};
use spade_dcel::laws::every_mesh;
use spade_dcel::operations::{
    append_unconnected_vertex, extend_line, insert_into_triangle, new, new_triangle,
    setup_initial_two_vertices,
};
use std::alloc::Global;
use std::rt::Clock;
use std::time::Duration;

/// The meshes measured: each vertex has a number, and all else a `D`.
pub type Mesh<D> = Dcel<i64, D, D, D>;

/// A walk round a face: the step round the hull goes round any face.
type RoundFace<'a, D> = CircularIterator<'a, i64, D, D, D, HullNextBackFn>;

/// What can be measured.
#[derive(Clone, Copy)]
pub enum Workload {
    /// Puts vertices into faces of a triangle.
    Insert,

    /// Does the same with room reserved for all.
    InsertReserved,

    /// Goes round each vertex.
    Walk,

    /// Does the same from both ends.
    WalkBothEnds,

    /// Goes round each inner face.
    Faces,

    /// Extends a line at one end.
    Extend,

    /// Goes round the outer face of a line.
    Hull,

    /// Seeks the half edge from one vertex to another.
    Neighbors,

    /// Puts vertices into the middle of edges.
    Split,

    /// Flips edges between triangles.
    Flip,

    /// Swaps vertices.
    Swap,

    /// Clones a mesh.
    Clone,

    /// Replaces the data of the vertices.
    Map,

    /// Removes vertices inside triangles.
    Remove,

    /// Flips edges until no more are wanted.
    Legalize,
}

/// All workloads, by their names in the arguments and in the output.
pub const ALL: [(&str, Workload); 15] = [
    ("insert", Workload::Insert),
    ("insert_reserved", Workload::InsertReserved),
    ("walk", Workload::Walk),
    ("walk_both_ends", Workload::WalkBothEnds),
    ("faces", Workload::Faces),
    ("extend", Workload::Extend),
    ("hull", Workload::Hull),
    ("neighbors", Workload::Neighbors),
    ("split", Workload::Split),
    ("flip", Workload::Flip),
    ("swap", Workload::Swap),
    ("clone", Workload::Clone),
    ("map", Workload::Map),
    ("remove", Workload::Remove),
    ("legalize", Workload::Legalize),
];

/// The outcome of a workload.
#[derive(Clone, Copy, Default)]
pub struct Outcome {
    pub checksum: u64,
    pub operations: u64,
}

impl Outcome {
    /// Adds the number of a vertex to the checksum, and counts an operation.
    #[inline]
    fn add<D>(&mut self, vertex: VertexHandle<'_, i64, D, D, D>) {
        self.checksum = self.checksum.wrapping_add(vertex.index() as u64);
        self.operations = self.operations.wrapping_add(1);
    }
}

/// An outcome, with the time that the work took.
#[derive(Clone, Copy)]
pub struct Timed {
    pub elapsed: Duration,
    pub outcome: Outcome,
}

impl Timed {
    /// Returns the time of an operation in tenths of a nanosecond, or of the whole run if there was
    /// no operation.
    pub fn tenths_of_nanoseconds(&self) -> u128 {
        let operations = u128::from(self.outcome.operations.max(1));
        self.elapsed.as_nanos().saturating_mul(10) / operations
    }
}

/// Runs a workload over meshes with data `D`, and returns the fastest run.
pub fn measured<D: Default + Drop + Clone>(
    rt: &(impl Clock + AllocGlobal),
    workload: Workload,
    size: u32,
) -> Result<Timed, Fault> {
    match workload {
        Workload::Insert => insert::<D>(rt, size),
        Workload::InsertReserved => insert_reserved::<D>(rt, size),
        Workload::Walk => walk::<D>(rt, size),
        Workload::WalkBothEnds => walk_both_ends::<D>(rt, size),
        Workload::Faces => faces::<D>(rt, size),
        Workload::Extend => extend::<D>(rt, size),
        Workload::Hull => hull::<D>(rt, size),
        Workload::Neighbors => neighbors::<D>(rt, size),
        Workload::Split => split::<D>(rt, size),
        Workload::Flip => flip::<D>(rt, size),
        Workload::Swap => swap::<D>(rt, size),
        Workload::Clone => clone::<D>(rt, size),
        Workload::Map => map::<D>(rt, size),
        Workload::Remove => remove::<D>(rt, size),
        Workload::Legalize => legalize::<D>(rt, size),
    }
}

/// Times the building of a mesh of triangles.
fn insert<D: Default + Drop>(rt: &(impl Clock + AllocGlobal), size: u32) -> Result<Timed, Fault> {
    time_building(rt, size, || triangulated::<D>(rt.alloc(), size))
}

/// Times the building of the same mesh with room reserved first.
fn insert_reserved<D: Default + Drop>(
    rt: &(impl Clock + AllocGlobal),
    size: u32,
) -> Result<Timed, Fault> {
    time_building(rt, size, || triangulated_in_room::<D>(rt.alloc(), size))
}

/// Times the walk round each vertex of a mesh of triangles.
fn walk<D: Default + Drop>(rt: &(impl Clock + AllocGlobal), size: u32) -> Result<Timed, Fault> {
    let dcel = triangulated::<D>(rt.alloc(), size)?;
    time_reading(rt, || ends_of_out_edges(&dcel))
}

/// Times the walk round each vertex of a mesh of triangles, from both ends in turn.
fn walk_both_ends<D: Default + Drop>(
    rt: &(impl Clock + AllocGlobal),
    size: u32,
) -> Result<Timed, Fault> {
    let dcel = triangulated::<D>(rt.alloc(), size)?;
    time_reading(rt, || ends_from_both_ends(&dcel))
}

/// Times the walk round each inner face of a mesh of triangles.
fn faces<D: Default + Drop>(rt: &(impl Clock + AllocGlobal), size: u32) -> Result<Timed, Fault> {
    let dcel = triangulated::<D>(rt.alloc(), size)?;
    let pass = ||
        requires { IsTriangulated dcel.shape }
    { origins_round_faces(&dcel) };
    time_reading(rt, pass)
}

/// Times the building of a line.
fn extend<D: Default + Drop>(rt: &(impl Clock + AllocGlobal), size: u32) -> Result<Timed, Fault> {
    time_building(rt, size, || line::<D>(rt.alloc(), size))
}

/// Times the walk round the outer face of a line.
fn hull<D: Default + Drop>(rt: &(impl Clock + AllocGlobal), size: u32) -> Result<Timed, Fault> {
    let dcel = line::<D>(rt.alloc(), size)?;
    time_reading(rt, || numbers_round_hull(&dcel))
}

/// Builds a triangle, and puts `size` more vertices into inner faces drawn at random.
pub fn triangulated<D: Default + Drop>(alloc: Global, size: u32) -> Result<Mesh<D>, BuildError>
    ensures { IfOk result (λ dcel. IsTriangulated dcel.shape) }
{
    let mut dcel = triangle_with_numbers_left(alloc, size)?;
    insert_all(&mut dcel, size)?;
    Ok(dcel)
}

/// Builds the same mesh with room reserved first.
fn triangulated_in_room<D: Default + Drop>(
    alloc: Global,
    size: u32,
) -> Result<Mesh<D>, BuildError> {
    let mut dcel = triangle_with_numbers_left(alloc, size)?;
    insert_in_room(&mut dcel, size)?;
    Ok(dcel)
}

/// Reserves room, and puts `size` vertices into inner faces drawn at random.
fn insert_in_room<D: Default + Drop>(dcel: &mut Mesh<D>, size: u32) -> Result<(), BuildError>
    requires triangulated { IsTriangulated dcel.old.shape }
    requires room { HasRoom dcel.old.shape size (3 * size) (2 * size) }
{
    let count = size as usize;
    dcel.reserve_capacity(count, 3 * count, 2 * count)?;
    insert_all(dcel, size)
}

/// Builds a triangle, if there are numbers left for `size` insertions.
fn triangle_with_numbers_left<D: Default + Drop>(
    alloc: Global,
    size: u32,
) -> Result<Mesh<D>, BuildError>
    ensures triangulated { IfOk result (λ dcel. IsTriangulated dcel.shape) }
    ensures room { IfOk result (λ dcel. HasRoom dcel.shape size (3 * size) (2 * size)) }
{
    let dcel = new_triangle(alloc, (0, 1, 2))?;
    let count = size as usize;
    if !dcel.has_room(count, 3 * count, 2 * count) {
        return Err(BuildError::NoRoom);
    }
    Ok(dcel)
}

/// Puts `size` vertices into inner faces drawn at random.
fn insert_all<D: Default + Drop>(dcel: &mut Mesh<D>, size: u32) -> Result<(), BuildError>
    requires triangulated { IsTriangulated dcel.old.shape }
    requires room { HasRoom dcel.old.shape size (3 * size) (2 * size) }
    ensures { OnOk result (IsTriangulated dcel.new.shape) }
{
    let mut random = Random::new(0);
    for index in 0..size {
        insert_next(dcel, &mut random, i64::from(index) + 3)?;
    }
    Ok(())
}

/// Puts one more vertex into an inner face drawn at random.
#[inline]
fn insert_next<D: Default + Drop>(
    dcel: &mut Mesh<D>,
    random: &mut Random,
    datum: i64,
) -> Result<(), BuildError>
    requires triangulated { IsTriangulated dcel.old.shape }
    requires room { HasRoom dcel.old.shape 1 3 2 }
    ensures triangulated { OnOk result (IsTriangulated dcel.new.shape) }
    ensures grown { OnOk result (IsGrown dcel.old.shape 1 3 2 dcel.new.shape) }
{
    every_mesh(dcel);
    let face = FixedFaceHandle::new(1 + random.below(dcel.num_faces() - 1));
    let vertex = append_unconnected_vertex(dcel, datum)?;
    insert_into_triangle(dcel, vertex, face)?;
    Ok(())
}

/// Builds an edge, and extends it at its second vertex by `size` vertices.
fn line<D: Default + Drop>(alloc: Global, size: u32) -> Result<Mesh<D>, BuildError> {
    let mut dcel = new(alloc)?;
    extend_all(&mut dcel, size)?;
    Ok(dcel)
}

/// Adds an edge to an empty mesh, and extends it at its second vertex by `size` vertices.
fn extend_all<D: Default + Drop>(dcel: &mut Mesh<D>, size: u32) -> Result<(), BuildError> {
    let count = size as usize;
    if !dcel.has_room(count + 2, count + 1, 0) {
        return Err(BuildError::NoRoom);
    }
    let mut end = first_edge(dcel)?;
    for index in 0..size {
        end = extend_next(dcel, end, i64::from(index) + 2)?;
    }
    Ok(())
}

/// Adds an edge with its two vertices to an empty mesh, and returns the second vertex.
fn first_edge<D: Default + Drop>(dcel: &mut Mesh<D>) -> Result<FixedVertexHandle, BuildError>
    requires { HasRoom dcel.old.shape 2 1 0 }
    ensures line_end { IfOk result (λ end. IsLineEnd dcel.new.shape end) }
    ensures grown { OnOk result (IsGrown dcel.old.shape 2 1 0 dcel.new.shape) }
{
    every_mesh(dcel);
    let first = append_unconnected_vertex(dcel, 0)?;
    let second = append_unconnected_vertex(dcel, 1)?;
    if !dcel.can_setup_initial_two_vertices(first, second) {
        return Err(BuildError::NoEdge);
    }
    setup_initial_two_vertices(dcel, first, second)?;
    if !dcel.is_line_end(second) {
        return Err(BuildError::NoEdge);
    }
    Ok(second)
}

/// Extends a line by one more vertex, and returns it.
#[inline]
fn extend_next<D: Default + Drop>(
    dcel: &mut Mesh<D>,
    end: FixedVertexHandle,
    datum: i64,
) -> Result<FixedVertexHandle, BuildError>
    requires line_end { IsLineEnd dcel.old.shape end }
    requires room { HasRoom dcel.old.shape 1 1 0 }
    ensures line_end { IfOk result (λ vertex. IsLineEnd dcel.new.shape vertex) }
    ensures grown { OnOk result (IsGrown dcel.old.shape 1 1 0 dcel.new.shape) }
{
    every_mesh(dcel);
    let vertex = append_unconnected_vertex(dcel, datum)?;
    Ok(extend_line(dcel, end, vertex)?)
}

/// Goes round each vertex, and sums the numbers of its neighbors.
fn ends_of_out_edges<D>(dcel: &Mesh<D>) -> Outcome {
    let mut sum = Outcome::default();
    for index in 0..dcel.num_vertices() {
        add_ends(&mut sum, dcel.vertex(FixedVertexHandle::new(index)));
    }
    sum
}

/// Adds the neighbors of a vertex.
#[inline]
fn add_ends<D>(sum: &mut Outcome, vertex: VertexHandle<'_, i64, D, D, D>) {
    for edge in vertex.out_edges() {
        sum.add(edge.to());
    }
}

/// Goes round each vertex from both ends in turn, for the same sum.
fn ends_from_both_ends<D>(dcel: &Mesh<D>) -> Outcome {
    let mut sum = Outcome::default();
    for index in 0..dcel.num_vertices() {
        add_ends_from_both_ends(&mut sum, dcel.vertex(FixedVertexHandle::new(index)));
    }
    sum
}

/// Adds the neighbors of a vertex: the first, the last, the second, and so on.
#[inline]
fn add_ends_from_both_ends<D>(sum: &mut Outcome, vertex: VertexHandle<'_, i64, D, D, D>) {
    let mut edges = vertex.out_edges();
    while let Some(edge) = edges.next() {
        sum.add(edge.to());
        if let Some(edge) = edges.next_back() {
            sum.add(edge.to());
        }
    }
}

/// Goes round each inner face, and sums the numbers of its vertices.
fn origins_round_faces<D>(dcel: &Mesh<D>) -> Outcome
    requires { IsTriangulated dcel.now.shape }
{
    let mut sum = Outcome::default();
    for index in 1..dcel.num_faces() {
        let face: FixedFaceHandle<InnerTag> = FixedFaceHandle::new(index);
        add_origins(&mut sum, dcel.face(face).adjacent_edge());
    }
    sum
}

/// Adds the vertices of a face, from one of its half edges on.
#[inline]
fn add_origins<D>(sum: &mut Outcome, first: DirectedEdgeHandle<'_, i64, D, D, D>)
    requires { IsLive (mesh_behind first).shape (number_of first) }
{
    for edge in RoundFace::new(first) {
        sum.add(edge.from());
    }
}

/// Goes round the outer face, and mixes the numbers of its half edges.
fn numbers_round_hull<D>(dcel: &Mesh<D>) -> Outcome {
    let mut sum = Outcome::default();
    for edge in HullIterator::new(dcel) {
        sum.checksum = sum
            .checksum
            .wrapping_mul(3)
            .wrapping_add(edge.index() as u64);
        sum.operations = sum.operations.wrapping_add(1);
    }
    sum
}
