//! The part of the plane that pictures show, and how large things are in it.

ghost use Rattle.std.specs.Prelude.{◌≡◌, ◌≤◌, ◌*◌, length};

use crate::curve::steps_of;
use crate::svg::Style;
use crate::svg::dots::NUMBERED;
use crate::svg::labels::letters_of;
use dcel_drawn::{Bend, Line, Picture, Place};
use std::alloc::Allocator;
use std::num::{nearest_usize_to_f64, saturating_f64_to_usize};

/// How long the shortest edge is to be at least.
const EDGE: f64 = 84.0;

/// How large the circle inside the smallest face is to be: its radius, for a triangle.
const INSIDE: f64 = 33.0;

/// How long the longer side is where edges are drawn alone.
const SIDE: f64 = 800.0;

/// How much is left free on each side.
const MARGIN: f64 = 50.0;

/// How wide a digit is, at most, where edges are drawn alone.
const DIGIT: f64 = 8.0;

/// How far vertices at the side stand from one another.
const APART: f64 = 44.0;

/// How far pictures reach, and how small the least things in them are: what a frame that they share
/// is made for.
#[derive(Clone, Copy)]
pub struct Extent {
    /// The lower left and the upper right corner of all places, if there are any.
    corners: Option<(Place, Place)>,
    /// How large the unit has to be, so that edges and inner faces are large enough.
    wanted: f64,
    /// How many vertices one of the pictures has, at most.
    vertices: usize,
    /// How many vertices of one of the pictures have no place, at most.
    aside: usize,
    /// The greatest number of a vertex.
    greatest: usize,
}

impl Extent {
    /// Starts without a picture.
    pub fn new() -> Extent
        ensures { (result.vertices ≡ 0) × (result.aside ≡ 0) }
    {
        Extent {
            corners: None,
            wanted: 0.0,
            vertices: 0,
            aside: 0,
            greatest: 0,
        }
    }

    /// Takes in one picture more. What was taken in before stays.
    pub fn include<B: Allocator>(&mut self, picture: &Picture<B>)
        ensures holds { length picture.now.dots.items ≤ self.new.vertices }
        ensures keeps { (self.old.vertices ≤ self.new.vertices) × (self.old.aside ≤ self.new.aside) }
    {
        self.corners = widened_to(self.corners, picture);
        self.wanted = wanted_scale(self.wanted, picture);
        self.vertices = self.vertices.max(picture.dots.len());
        self.aside = self.aside.max(count_aside(picture));
        self.greatest = self.greatest.max(greatest_number(picture));
    }
}

/// The part of the plane that pictures show, and how large things are in it.
///
/// In pictures that share a frame each place is at the same point of the page.
#[derive(Clone, Copy)]
pub struct Frame {
    pub(crate) style: Style,
    scale: f64,
    low: Place,
    high: Place,
    /// How much is left free on the right.
    right: f64,
    columns: usize,
    rows: usize,
}

impl Frame {
    /// Returns the part that has all of the pictures that an extent has taken in, so large that the
    /// least things of any can be seen, unless the whole would become too large.
    pub fn of(extent: Extent, style: Style) -> Frame
        ensures style { result.style ≡ style }
        ensures room { extent.aside ≤ result.columns * result.rows }
    {
        let middle = Place::new(0.0, 0.0);
        let (low, high) = extent.corners.unwrap_or((middle, middle));
        let size = high.minus(low);
        let longest = size.x.max(size.y);
        let vertices = nearest_usize_to_f64(extent.vertices);
        let (room, mut scale) = match style {
            Style::HalfEdges { .. } => (600.0 + 280.0 * vertices.sqrt(), extent.wanted),
            Style::Edges => (SIDE, 0.0),
        };
        // Where no edge is drawn no scale is wanted, and the places fill the room.
        if longest > 0.0 && (scale <= 0.0 || longest * scale > room) {
            scale = room / longest;
        }
        let width = size.x * scale + 2.0 * MARGIN;
        let columns = saturating_f64_to_usize((width - MARGIN) / APART)
            .max(8)
            .min(extent.aside);
        Frame {
            style,
            scale,
            low,
            high,
            right: right_margin(extent, style),
            columns,
            rows: if columns == 0 {
                0
            } else {
                extent.aside.div_ceil(columns)
            },
        }
    }

    /// Returns the frame of one picture alone.
    pub(crate) fn around<B: Allocator>(picture: &Picture<B>, style: Style) -> Frame
        ensures { result.style ≡ style }
    {
        let mut extent = Extent::new();
        extent.include(picture);
        Frame::of(extent, style)
    }

    /// Returns where a place is shown.
    pub(crate) fn shown(&self, place: Place) -> Place {
        place.times(self.scale)
    }

    /// Returns where a line is shown.
    pub(crate) fn shown_line(&self, line: Line) -> Line {
        Line {
            from: self.shown(line.from),
            to: self.shown(line.to),
            bend: match line.bend {
                Some(Bend { tip, cut }) => Some(Bend {
                    tip: self.shown(tip),
                    cut,
                }),
                None => None,
            },
        }
    }

    /// Returns the upper left corner.
    pub(crate) fn corner(&self) -> Place {
        Place::new(
            self.low.x * self.scale - MARGIN,
            self.high.y * self.scale + MARGIN,
        )
    }

    /// Returns the width and the height.
    pub(crate) fn size(&self) -> Place {
        let size = self.high.minus(self.low).times(self.scale);
        let aside = Place::new(
            APART * nearest_usize_to_f64(self.columns),
            APART * nearest_usize_to_f64(self.rows),
        );
        Place::new(
            (size.x + MARGIN + self.right).max(aside.x + MARGIN),
            size.y + 2.0 * MARGIN + aside.y,
        )
    }

    /// Returns the place of a vertex at the side, by its number among those.
    pub(crate) fn aside(&self, number: usize) -> Place {
        let column = nearest_usize_to_f64(number % self.columns.max(1));
        let row = nearest_usize_to_f64(number / self.columns.max(1));
        let first = Place::new(
            self.low.x * self.scale - MARGIN + APART,
            self.low.y * self.scale - MARGIN - APART / 2.0,
        );
        first.plus(Place::new(column, -row).times(APART))
    }
}

/// Returns how many vertices have no place.
fn count_aside<B: Allocator>(picture: &Picture<B>) -> usize {
    let mut count = 0usize;
    for dot in &picture.dots {
        if dot.place.is_none() {
            count = count.saturating_add(1);
        }
    }
    count
}

/// Returns the greatest number of a vertex, or 0 if there are none.
fn greatest_number<B: Allocator>(picture: &Picture<B>) -> usize {
    let mut greatest = 0;
    for dot in &picture.dots {
        greatest = greatest.max(dot.number);
    }
    greatest
}

/// Returns how much is left free on the right, where numbers stand beside vertices.
fn right_margin(extent: Extent, style: Style) -> f64 {
    if style != Style::Edges || extent.vertices > NUMBERED {
        return MARGIN;
    }
    // One letter more leaves room for the vertex.
    MARGIN.max(DIGIT * nearest_usize_to_f64(letters_of(extent.greatest)))
}

/// Returns the lower left and the upper right corner of places so far and those of a picture.
fn widened_to<B: Allocator>(
    corners: Option<(Place, Place)>,
    picture: &Picture<B>,
) -> Option<(Place, Place)> {
    let mut corners = corners;
    for dot in &picture.dots {
        corners = widened(corners, dot.place);
    }
    for stroke in &picture.strokes {
        if let Some(line) = stroke.line() {
            for place in steps_of(line) {
                corners = widened(corners, Some(place));
            }
        }
    }
    corners
}

fn widened(corners: Option<(Place, Place)>, place: Option<Place>) -> Option<(Place, Place)> {
    let Some(place) = place else {
        return corners;
    };
    let (low, high) = corners.unwrap_or((place, place));
    Some((
        Place::new(low.x.min(place.x), low.y.min(place.y)),
        Place::new(high.x.max(place.x), high.y.max(place.y)),
    ))
}

/// Returns how large the unit has to be, so that edges and inner faces are large enough, and not
/// below what it had to be so far.
fn wanted_scale<B: Allocator>(so_far: f64, picture: &Picture<B>) -> f64 {
    let mut scale: f64 = so_far;
    for stroke in &picture.strokes {
        if let Some(line) = stroke.line() {
            scale = larger(scale, EDGE, line.to.minus(line.from).length());
        }
    }
    for patch in picture.patches.iter().skip(1) {
        scale = larger(scale, INSIDE, radius(patch.outline.as_slice()));
    }
    scale
}

/// Returns the scale, made larger if something of this length would be drawn shorter than wanted.
/// What would need a scale of 10^9 is passed over.
fn larger(scale: f64, wanted: f64, length: f64) -> f64 {
    if length * 1e9 > wanted {
        scale.max(wanted / length)
    } else {
        scale
    }
}

/// Returns twice the area of a face for the length of its sides: the radius of the circle inside a
/// triangle.
fn radius(outline: &[Line]) -> f64 {
    let (mut area, mut length) = (0.0, 0.0);
    for line in outline {
        area += line.from.cross(line.to);
        length += line.to.minus(line.from).length();
        if let Some(bend) = line.bend {
            // The curve leaves a third of the triangle out that it cuts off at the tip.
            let aside = bend.tip.minus(line.from).cross(line.to.minus(line.from));
            area += aside * (1.0 - bend.cut * bend.cut / 3.0);
        }
    }
    if length > 0.0 { area / length } else { 0.0 }
}
