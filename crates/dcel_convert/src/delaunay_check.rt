//! Whether the faces of a file are a Delaunay triangulation of its vertices, and if not, why.

ghost use Rattle.std.specs.Prelude.{◌<◌, OnErr, OnOk};
ghost use Rattle.dcel_plane.specs.Plane.{point_at};
ghost use Rattle.dcel_plane.specs.covering.Delaunay.{IsDelaunayTriangulation};

use crate::fault::{Fault, Wrong, at_all};
use crate::meshing::fault_of;
use crate::surface::Surface;
use dcel_decimals::{Decimal, DecimalError, Scale};
use dcel_exchange::from_faces;
use dcel_planar::{is_circled, is_delaunay_triangulation};
use dcel_predicates::{Point, orient2d};
use spade_dcel::dcel::Dcel;
use spade_dcel::handles::{FixedFaceHandle, FixedVertexHandle, InnerTag};
use std::alloc::Global;
use std::fmt::{self, Formatter};

/// A mesh whose vertices stand in the plane.
type PlaneMesh = Dcel<Point, (), (), ()>;

/// Why faces are no Delaunay triangulation of the vertices.
///
/// Vertices and faces are told by their places in the file, from 0 on.
#[derive(Clone, Copy, Drop)]
pub enum Flaw {
    /// The first vertex and this one are not at one height.
    OtherHeight(usize),
    /// A coordinate of this vertex has too many digits.
    TooManyDigits(usize),
    /// A coordinate of this vertex, times this scale, is out of the range of points.
    OutOfRange(usize, u64),
    /// This face has more than three corners.
    NoTriangle(usize),
    /// This face is a triangle that goes round clockwise, or whose corners stand on one line.
    NotCounterclockwise(usize),
    /// This vertex is no corner.
    NoEdge(usize),
    /// The first vertex lies inside the circle of the triangle that the others are.
    InCircle(usize, usize, usize, usize),
    /// The border turns inwards here, so it is no convex hull.
    TurnsIn(usize),
    /// The border goes back on itself, or round more than once.
    NotOnce,
}

impl fmt::Display for Flaw {
    fn fmt<W: fmt::Write>(&self, f: &mut Formatter<W>) -> fmt::Result {
        match *self {
            Flaw::OtherHeight(vertex) => {
                write!(
                    f,
                    "vertex {vertex} has another third coordinate than vertex 0"
                )
            }
            Flaw::TooManyDigits(vertex) => {
                write!(f, "a coordinate of vertex {vertex} has too many digits")
            }
            Flaw::OutOfRange(vertex, scale) => {
                let limit = limit_by(scale);
                write!(
                    f,
                    "a coordinate of vertex {vertex} is below -{limit} or above {limit}"
                )
            }
            Flaw::NoTriangle(face) => write!(f, "face {face} is no triangle"),
            Flaw::NotCounterclockwise(face) => {
                write!(
                    f,
                    "the corners of face {face} don't go round counterclockwise"
                )
            }
            Flaw::NoEdge(vertex) => write!(f, "vertex {vertex} has no edge"),
            Flaw::InCircle(vertex, a, b, c) => write!(
                f,
                "vertex {vertex} lies inside the circle through vertices {a}, {b} and {c}"
            ),
            Flaw::TurnsIn(vertex) => write!(f, "the border turns in at vertex {vertex}"),
            Flaw::NotOnce => write!(f, "the border doesn't go round once"),
        }
    }
}

/// Returns the greatest coordinate that a scale leaves in the range of points.
fn limit_by(scale: u64) -> Decimal {
    Decimal::from_scaled(Point::LIMIT as i64, Scale::of(scale).unwrap_or(Scale::ONE))
}

/// Returns that a coordinate is out of the range of points, where it is multiplied by this scale.
fn out_of_range(vertex: usize, scale: Scale) -> Flaw {
    Flaw::OutOfRange(vertex, scale.factor())
}

/// Tells why the faces are no Delaunay triangulation of the vertices, unless they are one.
///
/// The first two coordinates of each vertex, times the least power of ten that makes all of them
/// whole, have to be from -2^53 to 2^53, and the third one, as a double, the same for all of them.
pub fn check_delaunay(alloc: Global, surface: &Surface) -> Result<(), Fault> {
    let points = points_of(alloc, surface)?;
    match from_faces(alloc, points, &surface.faces) {
        Ok(mesh) => check_mesh(surface, &mesh),
        Err(refused) => Err(fault_of(alloc, refused.reason, surface.places.len(), surface)),
    }
}

/// Tells why a mesh is no Delaunay triangulation of its vertices, unless it is one.
fn check_mesh(surface: &Surface, mesh: &PlaneMesh) -> Result<(), Fault>
    ensures is_one { OnOk result (IsDelaunayTriangulation (point_at mesh.now) mesh.now.shape) }
    ensures is_none { OnErr result (¬ IsDelaunayTriangulation (point_at mesh.now) mesh.now.shape) }
{
    if is_delaunay_triangulation(mesh) {
        Ok(())
    } else {
        Err(reason_of(surface, mesh))
    }
}

/// Returns where the vertices stand, with coordinates that a scale makes whole.
fn points_of(alloc: Global, surface: &Surface) -> Result<Vec<Point>, Fault> {
    let mut coordinates = Vec::new(alloc);
    list_coordinates(surface, &mut coordinates)?;
    let mut points = Vec::new(alloc);
    list_points(surface, &coordinates, &mut points)?;
    Ok(points)
}

/// Lists the points that have these coordinates, two each.
fn list_points(
    surface: &Surface,
    coordinates: &[Decimal],
    points: &mut Vec<Point>,
) -> Result<(), Fault> {
    // None has more places than a scale makes whole: `coordinate` has refused it.
    let scale = Scale::least(coordinates).unwrap_or(Scale::ONE);
    for (vertex, pair) in coordinates.chunks(2).enumerate() {
        if let &[x, y] = pair {
            let Some(point) = point_at(x, y, scale) else {
                return Err(at_vertex(surface, vertex, out_of_range(vertex, scale)));
            };
            points.push(point)?;
        }
    }
    Ok(())
}

/// Lists the first two coordinates of each vertex, if the third one is the same for all.
fn list_coordinates(surface: &Surface, coordinates: &mut Vec<Decimal>) -> Result<(), Fault> {
    let mut height = None;
    for (vertex, place) in surface.places.iter().enumerate() {
        let (x, y) = match flat_place(vertex, place.as_str(), &mut height) {
            Ok(place) => place,
            Err(flaw) => return Err(at_vertex(surface, vertex, flaw)),
        };
        coordinates.extend_from_slice(&[x, y])?;
    }
    Ok(())
}

/// Returns the first two coordinates of a vertex, if the third one is that of the first vertex.
fn flat_place(
    vertex: usize,
    text: &str,
    height: &mut Option<f64>,
) -> Result<(Decimal, Decimal), Flaw> {
    let (x, y, z) = place_of(vertex, text)?;
    if *height.get_or_insert(z) != z {
        return Err(Flaw::OtherHeight(vertex));
    }
    Ok((x, y))
}

/// Returns the coordinates of a vertex.
fn place_of(vertex: usize, text: &str) -> Result<(Decimal, Decimal, f64), Flaw> {
    let mut words = text.split_ascii_whitespace();
    let x = coordinate(vertex, words.next())?;
    let y = coordinate(vertex, words.next())?;
    let z = number_of(words.next()).ok_or(Flaw::OtherHeight(vertex))?;
    Ok((x, y, z))
}

fn number_of(word: Option<&str>) -> Option<f64> {
    word?.parse::<f64>().ok()
}

/// Returns the number that a word says.
fn coordinate(vertex: usize, word: Option<&str>) -> Result<Decimal, Flaw> {
    match Decimal::read(word.unwrap_or("")) {
        Ok(number) if Scale::least(&[number]).is_some() => Ok(number),
        Err(DecimalError::OutOfRange) => Err(out_of_range(vertex, Scale::ONE)),
        _ => Err(Flaw::TooManyDigits(vertex)),
    }
}

/// Returns the point with these coordinates times a scale.
fn point_at(x: Decimal, y: Decimal, scale: Scale) -> Option<Point> {
    Point::new(x.scaled(scale).ok()?, y.scaled(scale).ok()?)
}

/// Returns why a mesh is no Delaunay triangulation of its vertices, if it is none.
fn reason_of(surface: &Surface, mesh: &PlaneMesh) -> Fault {
    if mesh.num_faces() == 1 {
        return at_all(Wrong::Plain("there is no face"));
    }
    if let Some((face, flaw)) = flaw_of_face(mesh) {
        return surface.at_face(face, Wrong::Flaw(flaw));
    }
    if let Some(vertex) = vertex_without_edge(mesh) {
        return at_vertex(surface, vertex, Flaw::NoEdge(vertex));
    }
    let flaw = match flaw_of_edge(mesh) {
        Some(flaw) => flaw,
        None => flaw_of_border(mesh),
    };
    at_all(Wrong::Flaw(flaw))
}

/// Returns the first face that is no counterclockwise triangle, and which of both it isn't.
fn flaw_of_face(mesh: &PlaneMesh) -> Option<(usize, Flaw)> {
    for number in 1..mesh.num_faces() {
        let place = number - 1;
        let face: FixedFaceHandle<InnerTag> = FixedFaceHandle::new(number);
        if !mesh.is_triangle(face) {
            return Some((place, Flaw::NoTriangle(place)));
        }
        if !turns_left(mesh, face) {
            return Some((place, Flaw::NotCounterclockwise(place)));
        }
    }
    None
}

fn turns_left(mesh: &PlaneMesh, face: FixedFaceHandle<InnerTag>) -> bool
    requires { 0 < face }
{
    let Some(face) = mesh.get_face(face) else {
        return false;
    };
    let edge = face.adjacent_edge();
    orient2d(
        *edge.from().data(),
        *edge.to().data(),
        *edge.next().to().data(),
    ) > 0
}

fn vertex_without_edge(mesh: &PlaneMesh) -> Option<usize> {
    for number in 0..mesh.num_vertices() {
        if mesh.is_unconnected(FixedVertexHandle::new(number)) {
            return Some(number);
        }
    }
    None
}

/// Tells of an edge between two triangles that the corner of one lies inside the circle of the
/// other.
fn flaw_of_edge(mesh: &PlaneMesh) -> Option<Flaw> {
    for edge in mesh.live_undirected_edges() {
        if is_circled(mesh, edge.fix()) {
            let half = edge.as_directed();
            return Some(Flaw::InCircle(
                half.rev().prev().from().index(),
                half.from().index(),
                half.to().index(),
                half.prev().from().index(),
            ));
        }
    }
    None
}

/// Tells where the border turns in, so that the outer face turns left, or that it goes wrong as a
/// whole.
fn flaw_of_border(mesh: &PlaneMesh) -> Flaw {
    for half in mesh.live_directed_edges() {
        let (corner, after) = (half.to(), half.next().to());
        if half.is_outer_edge()
            && orient2d(*half.from().data(), *corner.data(), *after.data()) > 0
        {
            return Flaw::TurnsIn(corner.index());
        }
    }
    Flaw::NotOnce
}

fn at_vertex(surface: &Surface, vertex: usize, flaw: Flaw) -> Fault {
    surface.at_vertex(vertex, Wrong::Flaw(flaw))
}
