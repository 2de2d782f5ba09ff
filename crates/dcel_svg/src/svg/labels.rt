//! The numbers of faces, each where there is room for it, and as large as there is.

use crate::curve::Way;
use crate::frame::Frame;
use crate::svg::numbers::Tenths;
use crate::svg::room::{Area, Room};
use dcel_drawn::{Line, Patch, Picture, Place, State};
use std::alloc::Allocator;
use std::io::{self, Write};
use std::num::nearest_usize_to_f64;

/// How many places are tried in each direction.
const TRIED: usize = 18;

/// How far those round the circle inside a triangle are from its middle, as a part of its radius.
const FAR: f64 = 3.0;

/// How large a number is where there is room for it, and how large it is elsewhere.
const SIZES: [f64; 5] = [LARGE, 11.0, 9.5, 8.0, 6.5];

const LARGE: f64 = 13.0;

/// How far a number stays from the edges round its face, beside which arrows lie.
const CLEAR: f64 = 5.0;

/// Writes the numbers of faces: that of the outer face in the corner, each other one inside.
pub(crate) fn write_labels<B: Allocator>(
    picture: &Picture<B>,
    frame: &Frame,
    room: &mut Room<B>,
    out: &mut impl Write,
) -> io::Result<()> {
    let corner = frame.corner().plus(Place::new(22.0, -24.0));
    Label::new(0, LARGE, corner).write("face", out)?;
    for patch in picture.patches.iter().skip(1) {
        if patch.outline.is_empty() {
            continue;
        }
        let class = match patch.state {
            State::Live => "face",
            State::GivenUp => "face over",
        };
        let label = free_label(Inside::of(patch, frame), room);
        room.take(label.area())?;
        label.write(class, out)?;
    }
    Ok(())
}

/// The number of a face on the page.
#[derive(Clone, Copy)]
struct Label {
    number: usize,
    size: f64,
    place: Place,
}

impl Label {
    fn new(number: usize, size: f64, place: Place) -> Self {
        Label {
            number,
            size,
            place,
        }
    }

    fn at(self, place: Place) -> Self {
        Label { place, ..self }
    }

    fn sized(self, size: f64) -> Self {
        Label { size, ..self }
    }

    /// Returns the box in which it stands.
    fn area(self) -> Area {
        let letters: f64 = nearest_usize_to_f64(letters_of(self.number));
        Area::new(self.place, 0.75 * self.size * letters, 0.85 * self.size)
    }

    /// Returns the same box with what is better left free around it.
    fn wide_area(self) -> Area {
        let letters: f64 = nearest_usize_to_f64(letters_of(self.number).max(3));
        Area::new(self.place, 1.08 * self.size * letters, 2.0 * self.size)
    }

    fn write(self, class: &str, out: &mut impl Write) -> io::Result<()> {
        let Label {
            number,
            size,
            place,
        } = self;
        write!(
            out,
            "<text class=\"{class}\" x=\"{}\" y=\"{}\"",
            Tenths(place.x),
            Tenths(size * 4.7 / LARGE - place.y)
        )?;
        if size < LARGE {
            write!(out, " style=\"font-size: {}px\"", Tenths(size))?;
        }
        writeln!(out, ">F{number}</text>")
    }
}

/// Returns how many letters the number of a face has, with the F before it.
pub(crate) fn letters_of(number: usize) -> usize {
    let mut letters = 2usize;
    let mut rest = number / 10;
    for _ in 0..20 {
        if rest == 0 {
            break;
        }
        letters = letters.saturating_add(1);
        rest /= 10;
    }
    letters
}

/// The inside of a face.
#[derive(Clone, Copy)]
struct Inside<'a> {
    number: usize,
    outline: &'a [Line],
    state: State,
    frame: &'a Frame,
}

impl<'a> Inside<'a> {
    fn of<B: Allocator>(patch: &'a Patch<B>, frame: &'a Frame) -> Self {
        Inside {
            number: patch.number,
            outline: patch.outline.as_slice(),
            state: patch.state,
            frame,
        }
    }

    /// Returns the three corners of a face that is a triangle with straight sides.
    fn triangle(&self) -> Option<[Place; 3]> {
        match self.outline {
            [a, b, c] if a.bend.is_none() && b.bend.is_none() && c.bend.is_none() => Some([
                self.frame.shown(a.from),
                self.frame.shown(b.from),
                self.frame.shown(c.from),
            ]),
            _ => None,
        }
    }

    /// Returns how far a place inside is from the outline; outside, the distance is negative.
    fn depth(&self, place: Place) -> f64 {
        let mut least = f64::INFINITY;
        let mut is_inside = false;
        for line in self.outline {
            let way = Way::along(self.frame.shown_line(*line));
            least = least.min(way.distance(place));
            if way.is_crossed(place) {
                is_inside = !is_inside;
            }
        }
        if is_inside { least } else { -least }
    }

    /// Returns whether a box whose middle lies inside keeps clear of the outline.
    fn has_room_for(&self, area: Area) -> bool {
        for line in self.outline {
            let way = Way::along(self.frame.shown_line(*line));
            if area.distance(&way) < CLEAR {
                return false;
            }
        }
        true
    }

    /// Returns the lower left and the upper right corner.
    fn corners(&self) -> (Place, Place) {
        let mut low = Place::new(f64::INFINITY, f64::INFINITY);
        let mut high = Place::new(-f64::INFINITY, -f64::INFINITY);
        for line in self.outline {
            for place in Way::along(self.frame.shown_line(*line)).places {
                low = Place::new(low.x.min(place.x), low.y.min(place.y));
                high = Place::new(high.x.max(place.x), high.y.max(place.y));
            }
        }
        (low, high)
    }
}

/// Returns the number of a face inside it, as large as there is room for.
fn free_label<B: Allocator>(inside: Inside, room: &Room<B>) -> Label {
    let mut label = Label::new(inside.number, LARGE, Place::new(0.0, 0.0));
    for size in SIZES {
        let (place, worth) = best_place(inside, label.sized(size), room);
        label = label.sized(size).at(place);
        if worth > 0.0 {
            break;
        }
    }
    label
}

/// Returns a place for a label, and what it is worth: the middle of a triangle's circle, if nothing
/// stands near; else the best place of those that are tried, or, if it has no room at these, of some
/// that are closer together round that circle.
fn best_place<B: Allocator>(inside: Inside, label: Label, room: &Room<B>) -> (Place, f64) {
    let (low, high) = inside.corners();
    let Some(corners) = inside.triangle() else {
        return best_between(low, high, inside, label, room);
    };
    let middle = middle_of_circle(corners);
    let depth = inside.depth(middle);
    let found = worth(inside, label.at(middle), room);
    // Nor is there room elsewhere for what is higher than the circle.
    if found > 0.9 * depth || depth < 0.4 * label.size + CLEAR {
        return (middle, found);
    }
    let best = best_between(low, high, inside, label, room);
    if best.1 > 0.0 {
        return best;
    }
    let reach = Place::new(FAR * depth, FAR * depth);
    let closer = best_between(middle.minus(reach), middle.plus(reach), inside, label, room);
    if closer.1 > best.1 { closer } else { best }
}

/// Returns the best of places between two corners, and what it is worth.
fn best_between<B: Allocator>(
    low: Place,
    high: Place,
    inside: Inside,
    label: Label,
    room: &Room<B>,
) -> (Place, f64) {
    let step = high.minus(low).times(1.0 / nearest_usize_to_f64(TRIED));
    let (mut best, mut most) = (low.middle(high), -f64::INFINITY);
    for number in 0..TRIED * TRIED {
        let x = low.x + step.x * (0.5 + nearest_usize_to_f64(number % TRIED));
        let y = low.y + step.y * (0.5 + nearest_usize_to_f64(number / TRIED));
        let place = Place::new(x, y);
        let found = worth(inside, label.at(place), room);
        if found > most {
            (best, most) = (place, found);
        }
    }
    (best, most)
}

/// Returns how far a label is from the outline, and from half edges that are given up where the face
/// is live, or the other way round; less if something stands near. Less than 0 if something stands
/// there, or the label has no room in its face.
fn worth<B: Allocator>(inside: Inside, label: Label, room: &Room<B>) -> f64 {
    let depth = inside.depth(label.place);
    let far = depth.min(room.distance(label.place, inside.state));
    let area = label.area();
    if depth <= 0.0 || !inside.has_room_for(area) || !room.is_free(area) {
        far - 10000.0
    } else if !room.is_free(label.wide_area()) {
        (far - 14.0).max(far / 100.0)
    } else {
        far
    }
}

/// Returns the middle of the circle inside a triangle.
fn middle_of_circle([a, b, c]: [Place; 3]) -> Place {
    let opposite_a = c.minus(b).length();
    let opposite_b = a.minus(c).length();
    let opposite_c = b.minus(a).length();
    let around = opposite_a + opposite_b + opposite_c;
    if around > 0.0 {
        let sum = a
            .times(opposite_a)
            .plus(b.times(opposite_b))
            .plus(c.times(opposite_c));
        sum.times(1.0 / around)
    } else {
        a
    }
}
