//! A picture of a triangulation, as SVG.

use crate::view::View;
use dcel_delaunay::Point;
use dcel_programs::Text;
use dcel_svg::{Dot, Patch, Picture, Place, Places, Stroke, Style, write_svg};
use spade_dcel::dcel::Dcel;
use std::alloc::{AllocError, Global};
use std::io::{self, Write};
use std::num::nearest_u64_to_f64;

/// A picture of a triangulation: triangles as one area, edges, those of the hull wider, and points,
/// with their numbers if they are few. Where edges may be marked these are the wider ones.
#[derive(Drop)]
pub struct Svg<'a, UE> {
    /// The triangulation.
    pub view: &'a View<'a, UE>,
}

impl<'a, UE> Text for Svg<'a, UE> {
    fn write_to(&self, alloc: Global, writer: &mut impl Write) -> io::Result<()> {
        let mesh = self.view.mesh;
        let mut picture = picture_of(alloc, mesh)?;
        set_numbers(self.view, &mut picture.dots)?;
        set_looks(self.view, &mut picture.strokes);
        leave_out(self.view, &mut picture.patches);
        write_svg(&picture, Style::Edges, writer)
    }
}

/// Gives each dot the number of the point at its vertex.
fn set_numbers<UE>(view: &View<'_, UE>, dots: &mut [Dot]) -> io::Result<()> {
    for dot in dots.iter_mut() {
        dot.number = view.number(dot.number)?;
    }
    Ok(())
}

/// Sets how each edge looks, of whose strokes one follows the other.
fn set_looks<UE>(view: &View<'_, UE>, strokes: &mut [Stroke]) {
    for halves in strokes.chunks_mut(2) {
        if let [half, other] = halves {
            set_look(view, half, other);
        }
    }
}

/// Leaves an edge out if it isn't shown, and sets whether it is wide where edges may be marked.
fn set_look<UE>(view: &View<'_, UE>, half: &mut Stroke, other: &mut Stroke) {
    let edge = half.number / 2;
    if !view.shows_edge(edge) {
        half.from = None;
        other.from = None;
    }
    if let Some(marks) = view.is_marked {
        set_wide(half, other, marks.get(edge) == Some(&true));
    }
}

/// Has an edge drawn wide, as with the outer face on one side, or not. That is the first of the mesh.
fn set_wide(half: &mut Stroke, other: &mut Stroke, is_wide: bool) {
    half.face = Some(if is_wide { 0 } else { 1 });
    other.face = Some(1);
}

/// Leaves out the areas of triangles that aren't shown.
fn leave_out<UE>(view: &View<'_, UE>, patches: &mut [Patch]) {
    for patch in patches.iter_mut() {
        if !view.shows_face(patch.number) {
            patch.outline.clear();
        }
    }
}

/// Returns what is drawn of a mesh.
fn picture_of<'a, UE>(
    alloc: Global,
    mesh: &'a Dcel<Point, (), UE, ()>,
) -> Result<Picture<Global>, AllocError> {
    let places = places_of(alloc, mesh)?;
    let before: Option<&'a Dcel<Point, (), UE, ()>> = None;
    Picture::new(alloc, mesh, before, &places)
}

/// Returns where the vertices stand, as seen from the lower left corner of all.
fn places_of<UE>(alloc: Global, mesh: &Dcel<Point, (), UE, ()>) -> Result<Places, AllocError> {
    let corner = lower_left(mesh);
    let mut vertices = Vec::new(alloc);
    for vertex in mesh.vertices() {
        let point = vertex.data();
        let x = nearest_u64_to_f64(point.x.abs_diff(corner.0));
        let y = nearest_u64_to_f64(point.y.abs_diff(corner.1));
        vertices.push(Some(Place::new(x, y)))?;
    }
    Ok(Places {
        vertices,
        bends: Vec::new(alloc),
    })
}

/// Returns the least coordinates of all vertices.
fn lower_left<UE>(mesh: &Dcel<Point, (), UE, ()>) -> (i64, i64) {
    let (mut left, mut bottom) = (i64::MAX, i64::MAX);
    for vertex in mesh.vertices() {
        let Point { x, y } = *vertex.data();
        (left, bottom) = (left.min(x), bottom.min(y));
    }
    (left, bottom)
}
