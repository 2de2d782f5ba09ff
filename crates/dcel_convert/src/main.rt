//! Converts meshes between files of faces (OBJ, OFF, PLY, STL) and the words of half edges, checks
//! them, and draws them. `dcel_convert --help` says what it reads and writes. It uses `dcel_exchange`,
//! `dcel_planar` and `dcel_svg`.
//!
//! It exits with status 0, even if nobody reads its output any more; with 1 if the file has no
//! mesh, or no Delaunay triangulation where that is asked, or if a read, a write or memory failed;
//! and with 2 if its arguments are bad.
#![tactic(auto)]

mod arguments;
mod bytes;
mod claim;
mod claimed;
mod delaunay_check;
mod doubled;
mod drawing;
mod fault;
mod header;
mod joining;
mod left_out;
mod meshing;
mod numbers;
mod obj;
mod off;
mod parts;
mod ply;
mod reading;
mod shortest;
mod shown;
mod stats;
mod stl;
mod surface;
mod target;
mod words;
mod writing;

use crate::arguments::{Arguments, Format, Output, PROGRAM, Source};
use crate::claim::Claim;
use crate::claimed::{check, claimed_mesh};
use crate::delaunay_check::check_delaunay;
use crate::doubled::refuse_doubled;
use crate::drawing::{Drawing, place_flat, place_vertices};
use crate::fault::{Fault, Wrong, at_all};
use crate::left_out::tell_left_out;
use crate::meshing::{Mesh, Solid};
use crate::parts::{ALONE, check_faces, make_all, name_of, split};
use crate::reading::{read_claim, read_surface};
use crate::stats::Stats;
use crate::surface::Surface;
use crate::target::{check_target, check_targets};
use crate::writing::Written;
use dcel_programs::{Progress, report_wait, run, write_out};
use dcel_svg::{Places, spread};
use std::io::IsTerminal;
use std::process::ExitCode;
use std::rt::Files;

fn main(rt: HostRuntime) -> ExitCode {
    let progress = Progress::at(&rt.stderr());
    let is_typed = rt.stdin().is_terminal();
    run(&rt, &PROGRAM, |given| {
        convert(&rt, progress, is_typed, &Arguments::of(given))
    })
}

/// Reads the file, makes its mesh, and writes what is asked for. Standard input may be typed at a
/// terminal.
fn convert(
    rt: &(impl Files + Input + Print + Eprint + AllocGlobal),
    progress: Progress,
    is_typed: bool,
    arguments: &Arguments,
) -> Result<(), Fault> {
    check_target(rt, arguments)?;
    report_wait(rt, PROGRAM.name, is_typed && arguments.file.is_none())?;
    convert_file(rt, progress, arguments)
}

/// Reads the file, makes its mesh, and writes what is asked for.
fn convert_file(
    rt: &(impl Files + Input + Print + Eprint + AllocGlobal),
    progress: Progress,
    arguments: &Arguments,
) -> Result<(), Fault> {
    if let Source::Words = arguments.source {
        if arguments.has_parts {
            return Err(at_all(Wrong::WORDS_IN_PARTS));
        }
        let mut claim = Claim::new(rt.alloc());
        convert_words(rt, progress, arguments, &mut claim)
    } else {
        let mut surface = Surface::new(rt.alloc());
        convert_faces(rt, progress, arguments, &mut surface)
    }
}

/// Reads faces, makes their mesh, and writes what is asked for.
fn convert_faces(
    rt: &(impl Files + Input + Print + Eprint + AllocGlobal),
    progress: Progress,
    arguments: &Arguments,
    surface: &mut Surface,
) -> Result<(), Fault> {
    read_surface(rt, progress, arguments, surface)?;
    tell_of_surface(rt, arguments, surface)?;
    if let Output::CheckDelaunay = arguments.output {
        return check_delaunay(rt.alloc(), surface);
    }
    if arguments.has_parts {
        return convert_parts(rt, arguments, surface);
    }
    convert_surface(rt, arguments, surface)
}

/// Makes the meshes of the parts of a surface, and then writes a file for each.
fn convert_parts(
    rt: &(impl Files + Print + Eprint + AllocGlobal),
    arguments: &Arguments,
    surface: &Surface,
) -> Result<(), Fault> {
    if !arguments.output.is_check() && arguments.target.is_none() {
        return Err(at_all(Wrong::NO_FILES));
    }
    check_faces(rt.alloc(), surface)?;
    let mut parts = Vec::new(rt.alloc());
    convert_split(rt, arguments, surface, &mut parts)
}

/// Splits a surface into its parts, makes their meshes, and then writes a file for each.
fn convert_split(
    rt: &(impl Files + Print + Eprint + AllocGlobal),
    arguments: &Arguments,
    surface: &Surface,
    parts: &mut Vec<Surface>,
) -> Result<(), Fault> {
    let alone = split(rt.alloc(), surface, parts)?;
    if !arguments.output.is_check() {
        tell_left_out(rt, ALONE, alone)?;
    }
    let mut solids = Vec::new(rt.alloc());
    write_parts(rt, arguments, parts, &mut solids)
}

/// Makes the meshes of parts, and then writes a file for each.
fn write_parts(
    rt: &(impl Files + Print + Eprint + AllocGlobal),
    arguments: &Arguments,
    parts: &mut [Surface],
    solids: &mut Vec<Solid>,
) -> Result<(), Fault> {
    make_all(rt.alloc(), parts, solids)?;
    check_targets(rt, arguments, solids.len())?;
    for (number, solid) in solids.iter().enumerate() {
        write_part(rt, arguments, number, solid)?;
    }
    Ok(())
}

/// Writes what is asked for of a part.
fn write_part(
    rt: &(impl Files + Print + Eprint + AllocGlobal),
    arguments: &Arguments,
    number: usize,
    solid: &Solid,
) -> Result<(), Fault> {
    if !arguments.output.is_check() {
        if let Some(place) = solid.outer {
            eprintln!(rt;
                "dcel_convert: part {number} is closed: its face {place} becomes the outer face"
            )?;
        }
    }
    match arguments.target {
        Some(target) => {
            let target = name_of(rt.alloc(), target, number)?;
            let own = Arguments {
                target: Some(target.as_str()),
                ..*arguments
            };
            draw_part(rt, &own, number, solid)
        }
        None => draw_part(rt, arguments, number, solid),
    }
}

/// Writes what is asked for of a part, and draws it into a file of its own, if that is asked for.
fn draw_part(
    rt: &(impl Files + Print + Eprint + AllocGlobal),
    arguments: &Arguments,
    number: usize,
    solid: &Solid,
) -> Result<(), Fault> {
    match arguments.svg {
        Some(svg) => {
            let svg = name_of(rt.alloc(), svg, number)?;
            let own = Arguments {
                svg: Some(svg.as_str()),
                ..*arguments
            };
            write_marked(rt, &own, solid)
        }
        None => write_marked(rt, arguments, solid),
    }
}

/// Makes the mesh of a surface, and writes what is asked for.
fn convert_surface(
    rt: &(impl Files + Print + Eprint + AllocGlobal),
    arguments: &Arguments,
    surface: &mut Surface,
) -> Result<(), Fault> {
    match Solid::of(rt.alloc(), surface) {
        Ok(mut solid) => write_faces(rt, arguments, surface, &mut solid),
        Err(fault) => refuse_faces(rt, arguments, fault),
    }
}

/// Names what is left out of a surface, unless only what is wrong is told. A surface of nothing is
/// wrong, and one of vertices alone if it is checked.
fn tell_of_surface(
    rt: &(impl Eprint + AllocGlobal),
    arguments: &Arguments,
    surface: &Surface,
) -> Result<(), Fault> {
    if !arguments.output.is_silent() {
        surface.left_out.tell(rt)?;
    }
    if surface.places.is_empty() && surface.faces.is_empty() {
        return Err(at_all(Wrong::NOTHING));
    }
    if arguments.output.is_check() && surface.faces.is_empty() {
        return Err(at_all(Wrong::NO_FACE));
    }
    Ok(())
}

/// Writes the numbers of a surface that is no mesh, if they are asked for, and fails.
fn refuse_faces(
    rt: &(impl Files + Print + AllocGlobal),
    arguments: &Arguments,
    fault: Fault,
) -> Result<(), Fault> {
    if let Output::Stats = arguments.output {
        if let Some(stats) = stats_of(&fault) {
            write_out(rt, arguments.target, &stats)?;
        }
    }
    Err(fault)
}

/// Returns the numbers of a surface that is no mesh as a whole.
fn stats_of(fault: &Fault) -> Option<Stats> {
    match fault {
        Fault::Input(it) => match it.wrong {
            Wrong::Surface(stats) => Some(stats),
            _ => None,
        },
        _ => None,
    }
}

/// Writes what is asked for of a mesh of faces.
fn write_faces(
    rt: &(impl Files + Print + Eprint + AllocGlobal),
    arguments: &Arguments,
    surface: &Surface,
    solid: &mut Solid,
) -> Result<(), Fault> {
    solid.mark(rt.alloc(), &surface.faces)?;
    if !arguments.output.is_check() {
        if let Some(place) = solid.outer {
            eprintln!(rt;
                "dcel_convert: the surface is closed: face {place} becomes the outer face"
            )?;
        }
    }
    write_marked(rt, arguments, solid)
}

/// Writes what is asked for of a mesh that has noted where its faces begin.
fn write_marked(
    rt: &(impl Files + Print + Eprint + AllocGlobal),
    arguments: &Arguments,
    solid: &Solid,
) -> Result<(), Fault> {
    if let Output::Mesh(Format::Words) = arguments.output {
        tell_left_out(rt, COORDINATES, solid.mesh.num_vertices())?;
    }
    write_solid(rt, arguments, solid)
}

const COORDINATES: &str = "a vertex's coordinates";

/// Reads words, makes their mesh, and writes what is asked for.
fn convert_words(
    rt: &(impl Files + Input + Print + Eprint + AllocGlobal),
    progress: Progress,
    arguments: &Arguments,
    claim: &mut Claim,
) -> Result<(), Fault> {
    read_claim(rt, progress, arguments, claim)?;
    match claimed_mesh(rt.alloc(), claim) {
        Ok(mut solid) => write_claimed(rt, arguments, claim, &mut solid),
        Err(fault) => Err(fault),
    }
}

/// Writes what is asked for of a mesh of words, if it is as these claim.
fn write_claimed(
    rt: &(impl Files + Print + Eprint + AllocGlobal),
    arguments: &Arguments,
    claim: &Claim,
    solid: &mut Solid,
) -> Result<(), Fault> {
    check(rt.alloc(), &solid.mesh, claim)?;
    if let Output::Mesh(Format::Off | Format::Obj | Format::Ply) = arguments.output {
        set_places(rt, arguments, solid)?;
    }
    write_solid(rt, arguments, solid)
}

/// Finds coordinates for the vertices of words, if these are asked for, and else tells that they have
/// none. Faces that would not tell the mesh are refused.
fn set_places(
    rt: &(impl Eprint + AllocGlobal),
    arguments: &Arguments,
    solid: &mut Solid,
) -> Result<(), Fault> {
    refuse_doubled(rt.alloc(), &solid.mesh)?;
    tell_left_out(rt, EDGE_OUTSIDE, solid.num_edges_outside())?;
    if arguments.are_placed {
        place_vertices(rt.alloc(), &mut solid.mesh)?;
    } else if solid.mesh.num_vertices() > 0 {
        eprintln!(rt;
            "dcel_convert: words have no coordinates: all are 0, and --places finds some"
        )?;
    }
    Ok(())
}

const EDGE_OUTSIDE: &str = "an edge with the outer face on both sides";

/// Draws a mesh, if that is asked for, and writes what is.
fn write_solid(
    rt: &(impl Files + Print + Eprint + AllocGlobal),
    arguments: &Arguments,
    solid: &Solid,
) -> Result<(), Fault> {
    if let Some(path) = arguments.svg {
        draw(rt, arguments, path, &solid.mesh)?;
    }
    match arguments.output {
        Output::Check => Ok(()),
        // Faces are checked before, so these are words.
        Output::CheckDelaunay => Err(at_all(Wrong::NO_COORDINATES)),
        Output::Stats => write_out(rt, arguments.target, &Stats::of_mesh(solid)),
        Output::Mesh(format) => write_out(rt, arguments.target, &Written { format, solid }),
    }
}

/// Draws a mesh into a file, where it lies if it is flat.
fn draw(
    rt: &(impl Files + Print + Eprint + AllocGlobal),
    arguments: &Arguments,
    path: &str,
    mesh: &Mesh,
) -> Result<(), Fault> {
    let mut places = Places {
        vertices: Vec::new(rt.alloc()),
        bends: Vec::new(rt.alloc()),
    };
    draw_at(rt, arguments, path, mesh, &mut places)
}

/// Draws a mesh into a file at places that are to be found.
fn draw_at(
    rt: &(impl Files + Print + Eprint + AllocGlobal),
    arguments: &Arguments,
    path: &str,
    mesh: &Mesh,
    places: &mut Places,
) -> Result<(), Fault> {
    if !place_flat(rt.alloc(), mesh, places)? {
        if !matches!(arguments.source, Source::Words) {
            tell_left_out(rt, COORDINATES, mesh.num_vertices())?;
        }
        *places = spread(rt.alloc(), mesh, None)?;
    }
    write_out(rt, Some(path), &Drawing { mesh, places })
}
