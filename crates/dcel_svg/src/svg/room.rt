//! Room for numbers on the page: what stands there already.

use crate::curve::Way;
use crate::frame::Frame;
use crate::svg::arrow::Arrow;
use crate::svg::dots::RADIUS;
use dcel_drawn::{Line, Picture, Place, State};
use std::alloc::{AllocError, Allocator};

/// The most vertices that a picture may have so that its numbers make room for one another.
const MOST: usize = 100;

/// A box on the page.
#[derive(Clone, Copy)]
pub(crate) struct Area {
    middle: Place,
    // Half of the width and of the height.
    half: Place,
}

impl Area {
    /// Returns the box with this middle, width and height.
    pub fn new(middle: Place, width: f64, height: f64) -> Self {
        let half = Place::new(width / 2.0, height / 2.0);
        Area { middle, half }
    }

    /// Returns how far it is from a way, at least: less than 0 if they meet.
    pub fn distance(self, way: &Way) -> f64 {
        let mut least = f64::INFINITY;
        let mut from = way.places[0];
        for to in &way.places {
            least = least.min(self.distance_to_step(from, *to));
            from = *to;
        }
        least
    }

    /// Returns the same for a straight step: the widest gap across it, from left to right, or up.
    fn distance_to_step(self, from: Place, to: Place) -> f64 {
        let (near, far) = (from.minus(self.middle), to.minus(self.middle));
        let beside = near.x.min(far.x).max(-near.x.max(far.x)) - self.half.x;
        let above = near.y.min(far.y).max(-near.y.max(far.y)) - self.half.y;
        let left = to.minus(from).unit().left();
        let side = left.dot(near);
        let reach = left.x.max(-left.x) * self.half.x + left.y.max(-left.y) * self.half.y;
        beside.max(above).max(side.max(-side) - reach)
    }

    fn meets(self, other: Area) -> bool {
        let way = other.middle.minus(self.middle);
        let reach = other.half.plus(self.half);
        way.x < reach.x && -way.x < reach.x && way.y < reach.y && -way.y < reach.y
    }
}

/// What stands on the page.
#[derive(Drop)]
pub(crate) struct Room<B: Allocator> {
    areas: Vec<Area, B>,
    live: Vec<Line, B>,
    given_up: Vec<Line, B>,
    is_kept: bool,
}

impl<B: Allocator + Copy> Room<B> {
    /// Returns the room that vertices and the heads of arrows leave.
    pub fn around(picture: &Picture<B>, frame: &Frame) -> Result<Self, AllocError> {
        let alloc = *picture.strokes.allocator();
        let mut room = Room {
            areas: Vec::new(alloc),
            live: Vec::new(alloc),
            given_up: Vec::new(alloc),
            is_kept: picture.dots.len() <= MOST,
        };
        for dot in &picture.dots {
            if let Some(place) = dot.place {
                let across = 2.0 * RADIUS;
                room.take(Area::new(frame.shown(place), across, across))?;
            }
        }
        for stroke in &picture.strokes {
            if let Some(line) = stroke.line() {
                let shown = frame.shown_line(line);
                room.take(Area::new(Arrow::beside(shown).line.to, 5.0, 5.0))?;
                room.note(stroke.state, shown)?;
            }
        }
        Ok(room)
    }
}

impl<B: Allocator> Room<B> {
    /// Returns whether nothing stands in a box.
    pub fn is_free(&self, area: Area) -> bool {
        for other in &self.areas {
            if other.meets(area) {
                return false;
            }
        }
        true
    }

    /// Returns how far a place is from what is drawn over things of this state: from half edges
    /// that are given up, or from live ones.
    pub fn distance(&self, place: Place, state: State) -> f64 {
        let mut least = f64::INFINITY;
        for line in self.lines_over(state) {
            least = least.min(Way::along(*line).distance(place));
        }
        least
    }

    fn lines_over(&self, state: State) -> &[Line] {
        match state {
            State::Live => self.given_up.as_slice(),
            State::GivenUp => self.live.as_slice(),
        }
    }

    /// Notes where a half edge lies, unless the picture is a large one.
    fn note(&mut self, state: State, line: Line) -> Result<(), AllocError> {
        if self.is_kept {
            match state {
                State::Live => self.live.push(line)?,
                State::GivenUp => self.given_up.push(line)?,
            }
        }
        Ok(())
    }

    /// Notes that something stands in a box, unless the picture is a large one.
    pub fn take(&mut self, area: Area) -> Result<(), AllocError> {
        if self.is_kept {
            self.areas.push(area)?;
        }
        Ok(())
    }
}
