//! Pictures of meshes.

use crate::meshing::Mesh;
use dcel_programs::Text;
use dcel_svg::{Picture, Place, Places, Style, bow, spread, write_svg};
use spade_dcel::handles::FixedVertexHandle;
use std::alloc::{AllocError, Global};
use std::io::{self, Write};

/// How wide or high a mesh is drawn that lies in a plane, before it is made large enough.
const EXTENT: f64 = 10.0;

/// A mesh with places for its vertices.
#[derive(Clone, Copy)]
pub struct Drawing<'a> {
    /// The mesh.
    pub mesh: &'a Mesh,
    /// The places.
    pub places: &'a Places,
}

/// Places the vertices of a flat mesh where they lie, and returns whether they can be told apart.
pub fn place_flat(alloc: Global, mesh: &Mesh, places: &mut Places) -> Result<bool, AllocError> {
    if !list_flat(mesh, &mut places.vertices)? || !fit(&mut places.vertices) {
        return Ok(false);
    }
    if !are_apart(mesh, places) {
        return Ok(false);
    }
    bow(alloc, mesh, None, places)?;
    Ok(true)
}

impl<'a> Text for Drawing<'a> {
    fn write_to(&self, alloc: Global, writer: &mut impl Write) -> io::Result<()> {
        let picture = Picture::new(alloc, self.mesh, None, self.places)?;
        write_svg(&picture, Style::HalfEdges { anchors: false }, writer)
    }
}

/// Lists where the vertices lie, and returns whether all lie at one height.
fn list_flat(mesh: &Mesh, places: &mut Vec<Option<Place>>) -> Result<bool, AllocError> {
    let mut height = None;
    for vertex in mesh.vertices() {
        let Some((place, z)) = place_of(vertex.data().as_str()) else {
            return Ok(false);
        };
        if *height.get_or_insert(z) != z {
            return Ok(false);
        }
        places.push(Some(place))?;
    }
    Ok(true)
}

/// Returns the first two coordinates as a place, and the third one.
fn place_of(text: &str) -> Option<(Place, f64)> {
    let mut words = text.split_ascii_whitespace();
    let x = words.next()?.parse::<f64>().ok()?;
    let y = words.next()?.parse::<f64>().ok()?;
    let z = words.next()?.parse::<f64>().ok()?;
    Some((Place::new(x, y), z))
}

/// Moves and scales places so that they fit, unless all are one.
fn fit(places: &mut [Option<Place>]) -> bool {
    let (low, high) = corners_of(places);
    let extent = (high.x - low.x).max(high.y - low.y);
    if !extent.is_finite() || extent <= 0.0 {
        return false;
    }
    for place in places.iter_mut().flatten() {
        let x = (place.x - low.x) / extent * EXTENT;
        let y = (place.y - low.y) / extent * EXTENT;
        *place = Place::new(x, y);
    }
    true
}

/// Returns the lower left and the upper right corner of the box round places.
fn corners_of(places: &[Option<Place>]) -> (Place, Place) {
    let (mut low, mut high) = (
        Place::new(f64::INFINITY, f64::INFINITY),
        Place::new(f64::NEG_INFINITY, f64::NEG_INFINITY),
    );
    for place in places.iter().flatten() {
        low = Place::new(low.x.min(place.x), low.y.min(place.y));
        high = Place::new(high.x.max(place.x), high.y.max(place.y));
    }
    (low, high)
}

/// Returns whether the ends of each edge have different places.
fn are_apart(mesh: &Mesh, places: &Places) -> bool {
    for edge in mesh.live_undirected_edges() {
        let half = edge.as_directed();
        if places.vertex(half.from().index()) == places.vertex(half.to().index()) {
            return false;
        }
    }
    true
}

/// Gives each vertex the place that a picture finds for it, and 0 0 0 if it has no edge.
pub fn place_vertices(alloc: Global, mesh: &mut Mesh) -> Result<(), AllocError> {
    let places = spread(alloc, mesh, None)?;
    for number in 0..mesh.num_vertices() {
        if number < mesh.num_vertices() {
            let Place { x, y } = places.vertex(number).unwrap_or(Place::new(0.0, 0.0));
            let vertex = FixedVertexHandle::new(number);
            *mesh.vertex_data_mut(vertex) = format!(in alloc; "{x} {y} 0")?;
        }
    }
    Ok(())
}
