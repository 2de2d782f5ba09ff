//! What is drawn of a mesh: a stroke for each half edge, a patch for each face, a dot for each
//! vertex.

ghost use Rattle.std.specs.Prelude.{◌≡◌, ◌⊎◌, ◌*◌, IfOk, IfSome, IsNone, Some, None, All, map};
ghost use Rattle.dcel_maps.specs.Numbers.{numbers_between};
ghost use Rattle.dcel_maps.specs.Shapes.{IsLive, face_count};
ghost use Rattle.spade_dcel.specs.Handles.{mesh_behind, number_of};
ghost use Rattle.dcel_drawn.specs.Drawn.{IsDot, IsPatch, IsPicture, IsStroke};

use crate::bend::Bend;
use crate::place::Place;
use crate::places::Places;
use crate::reading::round;
use spade_dcel::dcel::Dcel;
use spade_dcel::handles::{
    DirectedEdgeHandle, FixedDirectedEdgeHandle, FixedFaceHandle, FixedVertexHandle,
    PossiblyOuterTag,
};
use std::alloc::{AllocError, Allocator, Global};

/// Whether an element is live.
#[derive(Clone, Copy, PartialEq, Eq, Debug)]
pub enum State {
    /// It is live.
    Live,
    /// An open removal has given it up.
    GivenUp,
}

/// A straight line, or an arc.
#[derive(Clone, Copy, PartialEq, Debug)]
pub struct Line {
    /// Where it starts.
    pub from: Place,
    /// Where it ends.
    pub to: Place,
    /// How it goes round, if it is an arc.
    pub bend: Option<Bend>,
}

/// A half edge as it is drawn.
#[derive(Clone, Copy, PartialEq, Debug)]
pub struct Stroke {
    /// Its number.
    pub number: usize,
    /// Whether it is live.
    pub state: State,
    /// Where it starts. None if the vertex has no place, or if the half edge is given up and nobody
    /// tells where it lay.
    pub from: Option<Place>,
    /// Where it ends, or None as well.
    pub to: Option<Place>,
    /// How it goes round, if it is an arc.
    pub bend: Option<Bend>,
    /// The face on its left, if it is live.
    pub face: Option<usize>,
    /// Whether it is the anchor of the vertex where it starts.
    pub anchors_vertex: bool,
    /// Whether it is the anchor of the face on its left.
    pub anchors_face: bool,
}

impl Stroke {
    /// Returns the line along which the half edge is drawn, if its ends have places.
    pub fn line(&self) -> Option<Line>
        ensures some { IfSome result (λ line. (self.now.from ≡ Some line.from) × (self.now.to ≡ Some line.to) × (line.bend ≡ self.now.bend)) }
        ensures none { IsNone result → (self.now.from ≡ None) ⊎ (self.now.to ≡ None) }
    {
        Some(Line {
            from: self.from?,
            to: self.to?,
            bend: self.bend,
        })
    }
}

/// A face as it is drawn.
#[derive(Drop)]
pub struct Patch<B: Allocator = Global> {
    /// Its number.
    pub number: usize,
    /// Whether it is live.
    pub state: State,
    /// The lines round it whose ends have places, with the face on their left; none if it is given
    /// up and nobody tells where it lay.
    pub outline: Vec<Line, B>,
}

/// A vertex as it is drawn.
#[derive(Clone, Copy, PartialEq, Debug)]
pub struct Dot {
    /// Its number.
    pub number: usize,
    /// Whether it is live.
    pub state: State,
    /// Where it stands. None for a vertex at the side.
    pub place: Option<Place>,
}

/// A mesh as it is drawn.
#[derive(Drop)]
pub struct Picture<B: Allocator = Global> {
    /// A stroke for each half edge, in the order of their numbers.
    pub strokes: Vec<Stroke, B>,
    /// A patch for each face, in the same order, the outer face first.
    pub patches: Vec<Patch<B>, B>,
    /// A dot for each vertex, in the same order.
    pub dots: Vec<Dot, B>,
}

impl<B: Allocator + Copy> Picture<B> {
    /// Returns what is drawn of a mesh whose vertices stand at these places.
    ///
    /// What an open removal has given up is drawn where it lay `before` the removal was opened, if
    /// that is told. If memory runs out it returns `AllocError`.
    pub fn new<V, DE, UE, F, A: Allocator>(
        alloc: B,
        mesh: &Dcel<V, DE, UE, F, A>,
        before: Option<&Dcel<V, DE, UE, F, A>>,
        places: &Places<B>,
    ) -> Result<Self, AllocError>
        ensures { IfOk result (IsPicture mesh.now places.now.vertices.items) }
    {
        let strokes = strokes_of(alloc, mesh, before, places)?;
        let patches = patches_of(alloc, mesh, before, places)?;
        let dots = dots_of(alloc, mesh, places)?;
        Ok(Picture {
            strokes,
            patches,
            dots,
        })
    }
}

/// Lists the strokes of all half edges.
fn strokes_of<V, DE, UE, F, A: Allocator, B: Allocator + Copy>(
    alloc: B,
    mesh: &Dcel<V, DE, UE, F, A>,
    before: Option<&Dcel<V, DE, UE, F, A>>,
    places: &Places<B>,
) -> Result<Vec<Stroke, B>, AllocError>
    ensures numbers { IfOk result (λ strokes. map (λ s. s.number) strokes.items ≡ numbers_between 0 (2 * mesh.now.shape.edges)) }
    ensures each { IfOk result (λ strokes. All (IsStroke mesh.now places.now.vertices.items) strokes.items) }
{
    let mut strokes = Vec::new(alloc);
    for number in 0..mesh.num_directed_edges() {
        let edge = FixedDirectedEdgeHandle::new(number);
        strokes.push(stroke_of(mesh, before, places, edge))?;
    }
    Ok(strokes)
}

/// Returns the stroke of a half edge.
fn stroke_of<V, DE, UE, F, A: Allocator, B: Allocator>(
    mesh: &Dcel<V, DE, UE, F, A>,
    before: Option<&Dcel<V, DE, UE, F, A>>,
    places: &Places<B>,
    edge: FixedDirectedEdgeHandle,
) -> Stroke
    ensures number { result.number ≡ edge }
    ensures is_stroke { IsStroke mesh.now places.now.vertices.items result }
{
    let bend = places.bend(edge.as_undirected().index());
    let number = edge.index();
    match mesh.get_directed_edge(edge) {
        Some(half) => Stroke {
            number,
            state: State::Live,
            from: places.vertex(half.from().index()),
            to: places.vertex(half.to().index()),
            bend,
            face: Some(half.face().index()),
            anchors_vertex: mesh.vertex_out_edge(half.from().fix()) == Some(edge),
            anchors_face: is_anchor_of_face(half),
        },
        None => {
            let [from, to] = ends_before(before, places, edge);
            Stroke {
                number,
                state: State::GivenUp,
                from,
                to,
                bend,
                face: None,
                anchors_vertex: false,
                anchors_face: false,
            }
        }
    }
}

/// Returns whether a live half edge is the anchor of its face.
fn is_anchor_of_face<V, DE, UE, F, A: Allocator>(
    half: DirectedEdgeHandle<'_, V, DE, UE, F, A>,
) -> bool
    requires { IsLive (mesh_behind half).shape (number_of half) }
{
    match half.face().adjacent_edge() {
        Some(anchor) => anchor.fix() == half.fix(),
        None => false,
    }
}

/// Returns the places of the vertices between which a half edge lay before.
fn ends_before<V, DE, UE, F, A: Allocator, B: Allocator>(
    before: Option<&Dcel<V, DE, UE, F, A>>,
    places: &Places<B>,
    edge: FixedDirectedEdgeHandle,
) -> [Option<Place>; 2] {
    if let Some(before) = before {
        if let Some(half) = before.get_directed_edge(edge) {
            return [
                places.vertex(half.from().index()),
                places.vertex(half.to().index()),
            ];
        }
    }
    [None, None]
}

/// Lists the patches of all faces.
fn patches_of<V, DE, UE, F, A: Allocator, B: Allocator + Copy>(
    alloc: B,
    mesh: &Dcel<V, DE, UE, F, A>,
    before: Option<&Dcel<V, DE, UE, F, A>>,
    places: &Places<B>,
) -> Result<Vec<Patch<B>, B>, AllocError>
    ensures numbers { IfOk result (λ patches. map (λ f. f.number) patches.items ≡ numbers_between 0 (face_count mesh.now.shape)) }
    ensures each { IfOk result (λ patches. All (IsPatch mesh.now) patches.items) }
{
    let mut patches = Vec::new(alloc);
    for number in 0..mesh.num_faces() {
        let face = FixedFaceHandle::new(number);
        let patch = patch_of(alloc, mesh, before, places, face)?;
        patches.push(patch)?;
    }
    Ok(patches)
}

/// Returns the patch of a face.
fn patch_of<V, DE, UE, F, A: Allocator, B: Allocator + Copy>(
    alloc: B,
    mesh: &Dcel<V, DE, UE, F, A>,
    before: Option<&Dcel<V, DE, UE, F, A>>,
    places: &Places<B>,
    face: FixedFaceHandle<PossiblyOuterTag>,
) -> Result<Patch<B>, AllocError>
    ensures number { IfOk result (λ patch. patch.number ≡ face) }
    ensures is_patch { IfOk result (IsPatch mesh.now) }
{
    let number = face.index();
    if mesh.is_live_face(face) {
        let outline = lines_round(alloc, mesh, places, face)?;
        return Ok(Patch {
            number,
            state: State::Live,
            outline,
        });
    }
    let outline = match before {
        Some(before) => lines_round(alloc, before, places, face)?,
        None => Vec::new(alloc),
    };
    Ok(Patch {
        number,
        state: State::GivenUp,
        outline,
    })
}

/// Lists the lines round a face of a mesh, those whose ends have places.
fn lines_round<V, DE, UE, F, A: Allocator, B: Allocator + Copy>(
    alloc: B,
    mesh: &Dcel<V, DE, UE, F, A>,
    places: &Places<B>,
    face: FixedFaceHandle<PossiblyOuterTag>,
) -> Result<Vec<Line, B>, AllocError> {
    let mut lines = Vec::new(alloc);
    for half in round(mesh, face) {
        if let [Some(from), Some(to)] = ends_before(Some(mesh), places, half.fix()) {
            let bend = places.bend(half.fix().as_undirected().index());
            lines.push(Line { from, to, bend })?;
        }
    }
    Ok(lines)
}

/// Lists the dots of all vertices.
fn dots_of<V, DE, UE, F, A: Allocator, B: Allocator + Copy>(
    alloc: B,
    mesh: &Dcel<V, DE, UE, F, A>,
    places: &Places<B>,
) -> Result<Vec<Dot, B>, AllocError>
    ensures numbers { IfOk result (λ dots. map (λ d. d.number) dots.items ≡ numbers_between 0 mesh.now.shape.vertices) }
    ensures each { IfOk result (λ dots. All (IsDot mesh.now places.now.vertices.items) dots.items) }
{
    let mut dots = Vec::new(alloc);
    for number in 0..mesh.num_vertices() {
        let vertex = FixedVertexHandle::new(number);
        dots.push(dot_of(mesh, places, vertex))?;
    }
    Ok(dots)
}

/// Returns the dot of a vertex.
fn dot_of<V, DE, UE, F, A: Allocator, B: Allocator>(
    mesh: &Dcel<V, DE, UE, F, A>,
    places: &Places<B>,
    vertex: FixedVertexHandle,
) -> Dot
    ensures number { result.number ≡ vertex }
    ensures is_dot { IsDot mesh.now places.now.vertices.items result }
{
    let number = vertex.index();
    let state = if mesh.is_live_vertex(vertex) {
        State::Live
    } else {
        State::GivenUp
    };
    Dot {
        number,
        state,
        place: places.vertex(number),
    }
}
