//! Vertices and faces that are read number by number.

use crate::fault::Wrong;
use crate::reading::number;
use crate::surface::{BEHIND_COORDINATES, Surface, add_coordinate};
use std::alloc::{AllocError, Global};
use std::mem;

/// A vertex or a face of which some numbers are read.
#[derive(Drop)]
pub struct NumberReader {
    /// How many numbers each vertex has behind its coordinates.
    pub extras: usize,
    /// The coordinates of a vertex that is begun.
    place: String,
    /// How many these are.
    coordinates: usize,
    /// How many numbers are still to come behind the last vertex.
    behind: usize,
    /// The corners of a face that is begun.
    corners: Vec<u32>,
    /// How many are still to come, if one is begun.
    missing: Option<u32>,
}

impl NumberReader {
    /// Makes a reader that has begun nothing.
    pub fn new(alloc: Global) -> Self {
        NumberReader {
            extras: 0,
            place: String::new(alloc),
            coordinates: 0,
            behind: 0,
            corners: Vec::new(alloc),
            missing: None,
        }
    }

    /// Returns whether numbers are still to come behind the last vertex.
    pub fn is_behind(&self) -> bool {
        self.behind > 0
    }

    /// Reads a number of a vertex, and adds it to the surface if it is complete.
    pub fn take_of_vertex(
        &mut self,
        alloc: Global,
        line: usize,
        word: &str,
        surface: &mut Surface,
    ) -> Result<(), Wrong> {
        if self.behind > 0 {
            self.behind -= 1;
            return Ok(());
        }
        add_coordinate(&mut self.place, word)?;
        self.coordinates = self.coordinates.saturating_add(1);
        if self.coordinates == 3 {
            self.end_vertex(alloc, line, surface)?;
        }
        Ok(())
    }

    /// Adds a vertex that is complete to the surface.
    fn end_vertex(
        &mut self,
        alloc: Global,
        line: usize,
        surface: &mut Surface,
    ) -> Result<(), AllocError> {
        let place = mem::replace(&mut self.place, String::new(alloc));
        surface.add_place(line, place)?;
        self.coordinates = 0;
        self.behind = self.extras;
        if self.extras > 0 {
            surface.left_out.note(BEHIND_COORDINATES)?;
        }
        Ok(())
    }

    /// Reads a number of a face, and adds it to the surface if it is complete.
    pub fn take_of_face(
        &mut self,
        alloc: Global,
        line: usize,
        word: &str,
        surface: &mut Surface,
    ) -> Result<(), Wrong> {
        let number = number(word)?;
        let missing = match self.missing {
            None => number,
            Some(missing) => {
                self.corners.push(number)?;
                missing.saturating_sub(1)
            }
        };
        if missing > 0 {
            self.missing = Some(missing);
            return Ok(());
        }
        self.missing = None;
        let corners = mem::replace(&mut self.corners, Vec::new(alloc));
        surface.add_face(line, corners)?;
        Ok(())
    }
}
