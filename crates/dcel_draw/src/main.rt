//! Draws a half-edge mesh. The program reads commands, one per line, carries them out on an empty
//! mesh, and writes the resulting mesh as SVG, or an HTML page with the mesh after each line.
//!
//! `dcel_draw --help` describes its input and its options. The exit status is 0 on success, even if
//! the reader of the output stops early. It is 1 if a line is bad or refused, if places are given
//! for a page, if a read or a write fails, or if there is no memory; the picture is then incomplete
//! or missing. It is 2 if the arguments are bad.
#![tactic(auto)]

mod arguments;
mod fault;
mod page;
mod placing;
mod talk;

use crate::arguments::{Arguments, PROGRAM};
use crate::fault::{Fault, Wrong};
use crate::page::Page;
use crate::placing::read_places;
use crate::talk::talk_of;
use dcel_programs::{Text, before_comment, numbered_lines, read_text, report_wait, run, write_out};
use dcel_replay::Replay;
use dcel_svg::{Picture, Places, Style, bow, spread, write_svg};
use std::alloc::Global;
use std::io::{self, IsTerminal, Write};
use std::process::ExitCode;
use std::rt::Files;

fn main(rt: HostRuntime) -> ExitCode {
    let is_typed = rt.stdin().is_terminal();
    run(&rt, &PROGRAM, |given| {
        draw(&rt, is_typed, &Arguments::of(given))
    })
}

/// Reads the lines, and draws the mesh that they leave, or the mesh after each. Standard input may
/// be typed at a terminal.
fn draw(
    rt: &(impl Files + Input + Print + Eprint + AllocGlobal),
    is_typed: bool,
    arguments: &Arguments,
) -> Result<(), Fault> {
    report_wait(rt, PROGRAM.name, is_typed && arguments.file.is_none())?;
    let text = read_text(rt, arguments.file)?;
    let style = Style::HalfEdges {
        anchors: arguments.anchors,
    };
    if !arguments.page {
        let replay = replay_of(rt.alloc(), &text)?;
        return draw_last(rt, arguments.places, &replay, style);
    }
    if arguments.places.is_some() {
        return Err(Fault::Input(Wrong::PlacesOfPage));
    }
    let page = Page::new(rt.alloc(), talk_of(rt.alloc(), &text)?, style)?;
    write_out(rt, None, &page)
}

/// Draws the mesh that is left.
fn draw_last(
    rt: &(impl Files + Input + Print + AllocGlobal),
    file: Option<&str>,
    replay: &Replay,
    style: Style,
) -> Result<(), Fault> {
    let places = find_places(rt, file, replay)?;
    let drawn = Drawn {
        replay,
        places: &places,
        style,
    };
    write_out(rt, None, &drawn)
}

/// Carries all lines out, up to one that is wrong.
fn replay_of(alloc: Global, text: &str) -> Result<Replay, Fault> {
    let mut replay = Replay::new(alloc)?;
    for (line, said) in numbered_lines(text) {
        let said = before_comment(said).trim_ascii_end();
        if said.is_empty() {
            continue;
        }
        if let Err(wrong) = replay.take(said.as_bytes()) {
            let wrong = Wrong::Line(wrong);
            return Err(Fault::Line { line, wrong });
        }
    }
    Ok(replay)
}

/// Finds places for the vertices, or reads them from a file.
fn find_places(
    rt: &(impl Files + Input + AllocGlobal),
    file: Option<&str>,
    replay: &Replay,
) -> Result<Places, Fault> {
    let (mesh, before) = (replay.mesh(), replay.before());
    match file {
        None => Ok(spread(rt.alloc(), mesh, before)?),
        Some(path) => {
            let mut places = read_places(rt, path, mesh)?;
            bow(rt.alloc(), mesh, before, &mut places)?;
            Ok(places)
        }
    }
}

/// A mesh, and how it is drawn.
#[derive(Clone, Copy)]
struct Drawn<'a> {
    replay: &'a Replay,
    places: &'a Places,
    style: Style,
}

impl<'a> Text for Drawn<'a> {
    fn write_to(&self, alloc: Global, writer: &mut impl Write) -> io::Result<()> {
        let (mesh, before) = (self.replay.mesh(), self.replay.before());
        let picture = Picture::new(alloc, mesh, before, self.places)?;
        write_svg(&picture, self.style, writer)
    }
}
