//! A talk as a page: each line with its reply, beside the picture of the mesh after it.

mod parts;
mod texts;

use crate::page::parts::{BEGIN, END};
use crate::page::texts::{write_address, write_text};
use crate::talk::Step;
use dcel_programs::Text;
use dcel_replay::Replay;
use dcel_svg::{
    Extent, Frame, Marks, Picture, Places, Style, spread, spread_near, write_marked_svg,
};
use std::alloc::{AllocError, Global};
use std::io::{self, Write};

/// A talk, with the places of vertices after each line, and the frame of all pictures.
///
/// It keeps the mesh after each line, and one before a removal that is open, so it takes memory as
/// for all of these meshes. Pictures are made twice, and there is one at a time.
#[derive(Drop)]
pub struct Page<'a> {
    steps: Vec<Step<'a>>,
    places: Vec<Places>,
    frame: Frame,
}

impl<'a> Page<'a> {
    /// Finds places for the vertices after each line, from the last one on. From line to line they
    /// are kept if the mesh can be drawn there, and the frame has all of them.
    pub fn new(alloc: Global, steps: Vec<Step<'a>>, style: Style) -> Result<Self, AllocError> {
        let places = places_of(alloc, &steps)?;
        let extent = extent_of(alloc, &steps, &places)?;
        Ok(Page {
            steps,
            places,
            frame: Frame::of(extent, style),
        })
    }
}

/// Finds places for the vertices after each line, from the last one on.
fn places_of(alloc: Global, steps: &[Step]) -> Result<Vec<Places>, AllocError> {
    let mut places: Vec<Places> = Vec::new(alloc);
    for step in steps.iter().rev() {
        let found = places_before(alloc, step, places.last())?;
        places.push(found)?;
    }
    places.reverse();
    Ok(places)
}

/// Finds places for the vertices after a line, near to those after the next one.
fn places_before(alloc: Global, step: &Step, later: Option<&Places>) -> Result<Places, AllocError> {
    let (mesh, before) = (step.replay.mesh(), step.replay.before());
    match later {
        Some(later) => spread_near(alloc, mesh, before, later),
        None => spread(alloc, mesh, before),
    }
}

/// Returns how far all pictures reach.
fn extent_of(alloc: Global, steps: &[Step], places: &[Places]) -> Result<Extent, AllocError> {
    let mut extent = Extent::new();
    for (step, places) in steps.iter().zip(places) {
        extent.include(&step.picture(alloc, places)?);
    }
    Ok(extent)
}

impl<'a> Text for Page<'a> {
    fn write_to(&self, alloc: Global, writer: &mut impl Write) -> io::Result<()> {
        write!(writer, "{BEGIN}")?;
        let mut last: Option<&Step> = None;
        for (count, (step, places)) in (1usize..usize::MAX).zip(
            self.steps.iter().zip(&self.places),
        ) {
            writeln!(writer, "<section id=\"step-{count}\">")?;
            write_said(step, writer)?;
            self.write_picture(alloc, writer, last, step, places)?;
            writeln!(writer, "\">\n</section>")?;
            last = Some(step);
        }
        write!(writer, "{END}")
    }
}

impl<'a> Page<'a> {
    /// Begins an image: the mesh after a line, with what is other than after the last one marked.
    fn write_picture(
        &self,
        alloc: Global,
        writer: &mut impl Write,
        last: Option<&Step>,
        step: &Step,
        places: &Places,
    ) -> io::Result<()> {
        let marks = marks_of(alloc, last, step)?;
        let svg = self.svg_of(alloc, &step.picture(alloc, places)?, &marks)?;
        write!(
            writer,
            "<img alt=\"The mesh after line {}\" src=\"data:image/svg+xml,",
            step.number
        )?;
        write_address(&svg, writer)
    }

    fn svg_of(&self, alloc: Global, picture: &Picture, marks: &Marks) -> io::Result<Vec<u8>> {
        let mut svg = Vec::new(alloc);
        write_marked_svg(picture, &self.frame, marks, &mut svg)?;
        Ok(svg)
    }
}

/// Marks what is other after a line than after the last one; after the first one, what is other than
/// in an empty mesh.
fn marks_of(alloc: Global, last: Option<&Step>, step: &Step) -> Result<Marks, AllocError> {
    match last {
        Some(last) => Marks::of_changes(alloc, last.replay.mesh(), step.replay.mesh()),
        None => Marks::of_changes(alloc, Replay::new(alloc)?.mesh(), step.replay.mesh()),
    }
}

/// Writes a line and its reply.
fn write_said(step: &Step, out: &mut impl Write) -> io::Result<()> {
    write!(out, "<div><kbd>")?;
    write_text(step.line, out)?;
    write!(out, "</kbd><samp>")?;
    write_text(&step.reply, out)?;
    writeln!(out, "</samp></div>")
}
