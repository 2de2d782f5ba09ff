//! The words that the program is started with.

use dcel_programs::{Choice, Given, Program, Switch, Takes, Target};

/// What a file is read as.
#[derive(Clone, Copy)]
pub enum Source {
    /// The Object File Format.
    Off,
    /// Wavefront's OBJ.
    Obj,
    /// The Polygon File Format, as text or binary.
    Ply,
    /// Triangles of stereolithography, as text or binary.
    Stl,
    /// Words, as they are written.
    Words,
}

/// How a mesh is written.
#[derive(Clone, Copy)]
pub enum Format {
    /// The Object File Format.
    Off,
    /// Wavefront's OBJ.
    Obj,
    /// The Polygon File Format, as text.
    Ply,
    /// What `dcel_run` answers to `counts`, to `words`, and to `out` for each vertex.
    Words,
}

/// What is written.
#[derive(Clone, Copy)]
pub enum Output {
    /// The mesh, in a format.
    Mesh(Format),
    /// How much it has of what.
    Stats,
    /// Nothing but whether the file has a mesh.
    Check,
    /// Nothing but whether the file has a Delaunay triangulation.
    CheckDelaunay,
}

impl Output {
    /// Returns whether it is only told whether the file has a mesh.
    pub fn is_check(self) -> bool {
        matches!(self, Output::Check)
    }

    /// Returns whether nothing is told but what is wrong.
    pub fn is_silent(self) -> bool {
        matches!(self, Output::Check | Output::CheckDelaunay)
    }
}

/// What the program is asked to do.
#[derive(Clone, Copy)]
pub struct Arguments<'a> {
    /// The file; if there is none, standard input.
    pub file: Option<&'a str>,
    /// What the file is written in.
    pub source: Source,
    /// What to write.
    pub output: Output,
    /// The file to write; if there is none, standard output.
    pub target: Option<&'a str>,
    /// The file that is read, if it must not be written: one to write is named behind it.
    pub kept: Option<&'a str>,
    /// Whether an option or the ending of the file to write says what to write.
    pub has_format: bool,
    /// The file for a picture.
    pub svg: Option<&'a str>,
    /// Whether each part of a surface becomes a mesh of its own.
    pub has_parts: bool,
    /// Whether places are found for vertices that have no coordinates.
    pub are_placed: bool,
}

/// What a file may be written in, by the ending of its name too.
const FORMATS: &[&str] = &["obj", "off", "ply", "stl", "words"];

const ABOUT: &str = "\
Converts a file of a mesh, or tells what is wrong with it. It is for surfaces of one connected part,
of genus 0 (spheres, and discs in space or in the plane), with at most one border";

const DETAILS: &str = "\
The file is read as OFF, or as its name ends: .obj, .ply, .stl or .words. Faces list their corners
counterclockwise, as seen from outside. The border is the outer face; on a surface without one, the
first face that comes to no vertex twice is, and standard error tells which.

OFF and PLY as text are read line by line, with what else a line has left out, or else number by
number, wherever lines end. In OBJ a line that ends in \\ goes on in the next one. Floats of binary
PLY and STL become the shortest decimals that read back to them by their own size, and messages
number bytes from 0. In STL corners whose floats are equal become one vertex. It is binary where the
file has 84 bytes, and 50 more for each triangle that it counts.

A file of words has what dcel_run answers to counts, to words, and to out for each vertex in their
order. A word or an out line may begin with any of its half edges. A last line 'closed N' tells that
the outer face is one of the surface, at place N of the list of faces. Vertices, half edges and
faces keep their numbers as words. Words have no coordinates: in other formats all are 0, or with
--places those that a picture gives.

With --parts each connected part of a surface is a mesh by itself. Parts are numbered from 0 in the
order of their least vertices, and keep the order of vertices and faces. With --output made.off the
files are made-0.off, made-1.off and so on; so are those of --svg. Nothing is written unless all
parts are meshes. Vertices without a face are left out.

In a Delaunay triangulation each face is a counterclockwise triangle, no vertex lies inside the
circle of one, the border is a convex hull that passes no vertex twice, and each vertex has an edge.
For --check-delaunay all vertices have one third coordinate. The first two, times the least power
of ten that makes all of them whole, are from -9007199254740992 to 9007199254740992.

What the output has no place for is left out, and named on standard error. A file that has no mesh
is refused with the first thing that is wrong with it; so are words with two edges between the same
vertices where faces are written, and by --check a surface without a face. Messages number vertices and faces from 0,
those of OBJ files too.";

/// What the program takes.
pub const PROGRAM: Program<'static, Output> = Program {
    name: "dcel_convert",
    about: ABOUT,
    input: "The file; without it, or with -, standard input",
    switches: &[
        Switch {
            name: "from",
            letter: None,
            takes: Takes::Format(FORMATS),
            help: "What the file is written in, whatever its name",
        },
        Switch {
            name: "output",
            letter: Some('o'),
            takes: Takes::File,
            help: "Writes into this file; its ending tells the format, unless a choice below does",
        },
        Switch {
            name: "places",
            letter: None,
            takes: Takes::Nothing,
            help: "Finds coordinates for words, as a picture does",
        },
        Switch {
            name: "parts",
            letter: None,
            takes: Takes::Nothing,
            help: "Takes each part of a surface for itself, and writes a file for each",
        },
        Switch {
            name: "svg",
            letter: None,
            takes: Takes::File,
            help: "Draws a picture into this file, too: of the mesh where it lies if it is flat",
        },
    ],
    choices: OUTPUTS,
    details: DETAILS,
    output: Some(Target {
        help: "The file to write, which isn't FILE, in the format that its ending tells",
        excludes: &["output", "check", "check-delaunay"],
    }),
};

/// What is written.
const OUTPUTS: &[Choice<'static, Output>] = &[
    Choice {
        name: "off",
        means: Output::Mesh(Format::Off),
        excludes: &[],
        help: "Writes OFF, as it does without a choice",
    },
    Choice {
        name: "obj",
        means: Output::Mesh(Format::Obj),
        excludes: &[],
        help: "Writes OBJ",
    },
    Choice {
        name: "ply",
        means: Output::Mesh(Format::Ply),
        excludes: &[],
        help: "Writes PLY, as text",
    },
    Choice {
        name: "words",
        means: Output::Mesh(Format::Words),
        excludes: &[],
        help: "Writes words",
    },
    Choice {
        name: "stats",
        means: Output::Stats,
        excludes: &[],
        help: "Writes how many vertices, edges, faces, parts and borders there are, and the genus",
    },
    Choice {
        name: "check",
        means: Output::Check,
        excludes: &[],
        help: "Writes nothing but what is wrong",
    },
    Choice {
        name: "check-delaunay",
        means: Output::CheckDelaunay,
        excludes: &["svg", "parts"],
        help: "Writes nothing but why the file has no Delaunay triangulation of its vertices",
    },
];

impl<'a> Arguments<'a> {
    /// Returns what the words say. Without a choice the mesh is written, in the format that the
    /// name of the file for it says.
    pub fn of(given: &Given<'a>) -> Self {
        let file = given.input();
        let second = given.output();
        let target = second.or(given.file("output"));
        let format = format_of(ending_of(target));
        let choice = given.choice(OUTPUTS);
        Arguments {
            file,
            source: source_named(given.value("from").unwrap_or(ending_of(file))),
            output: choice.unwrap_or(Output::Mesh(format.unwrap_or(Format::Off))),
            target,
            kept: match second {
                Some(_) => Some(file.unwrap_or(STANDARD_INPUT)),
                None => None,
            },
            has_format: choice.is_some() || format.is_some(),
            svg: given.value("svg"),
            has_parts: given.has("parts"),
            are_placed: given.has("places"),
        }
    }
}

/// The path of the file that standard input is.
const STANDARD_INPUT: &str = "/dev/stdin";

/// Returns what stands behind the last point of a file's name, if there is one.
fn ending_of(file: Option<&str>) -> &str {
    match file {
        Some(name) => match name.rsplit_once('.') {
            Some((_, ending)) => ending,
            None => "",
        },
        None => "",
    }
}

/// Returns what a file of this ending is read as, in upper or lower case, or else OFF.
fn source_named(name: &str) -> Source {
    if name.eq_ignore_ascii_case("stl") {
        return Source::Stl;
    }
    match format_of(name) {
        Some(Format::Obj) => Source::Obj,
        Some(Format::Ply) => Source::Ply,
        Some(Format::Words) => Source::Words,
        _ => Source::Off,
    }
}

/// Returns the format of this name, in upper or lower case, if it is one.
fn format_of(name: &str) -> Option<Format> {
    if name.eq_ignore_ascii_case("off") {
        Some(Format::Off)
    } else if name.eq_ignore_ascii_case("obj") {
        Some(Format::Obj)
    } else if name.eq_ignore_ascii_case("ply") {
        Some(Format::Ply)
    } else if name.eq_ignore_ascii_case("words") {
        Some(Format::Words)
    } else {
        None
    }
}
