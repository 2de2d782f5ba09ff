//! The words that the program is started with.

use dcel_programs::{Given, Program, Switch, Takes};

/// What the program is asked to do.
#[derive(Clone, Copy)]
pub struct Arguments<'a> {
    /// The file that has the lines; if there is none, standard input.
    pub file: Option<&'a str>,
    /// The file that has the places of vertices, if they are not to be found.
    pub places: Option<&'a str>,
    /// Whether to mark anchors.
    pub anchors: bool,
    /// Whether to write a page with a picture for each line.
    pub page: bool,
}

/// What the program takes.
pub const PROGRAM: Program<'static, ()> = Program {
    name: "dcel_draw",
    about: "Draws the mesh that commands leave, as SVG",
    input: "The lines; without it, or with -, standard input",
    switches: &[
        Switch {
            name: "places",
            letter: None,
            takes: Takes::File,
            help: "Takes the places of vertices from this file",
        },
        Switch {
            name: "anchors",
            letter: None,
            takes: Takes::Nothing,
            help: "Marks the anchors of vertices by dots, and those of faces by squares",
        },
        Switch {
            name: "page",
            letter: None,
            takes: Takes::Nothing,
            help: "Writes a page in HTML: each line with its reply, and the mesh after it",
        },
    ],
    choices: &[],
    details: DETAILS,
    output: None,
};

const DETAILS: &str = "\
Each line of the input is a command or a query as docs/LINES.md lists them, on a mesh that is empty
at first. Blank lines and what follows a # are skipped. A line that is bad or refused ends the
program with nothing drawn.

Each half edge is an arrow beside its edge, on the side of its face. What a removal that is still
open has given up is dashed and hatched.

Each line of the file for --places has the number of a vertex and its two coordinates, with blanks
between them; the second coordinate goes up. A vertex without a place stands below the mesh, and an
edge that ends there isn't drawn.

A page shows one line at a time, by arrow keys or a slider, and all of them where scripts don't run.
What a line has changed is blue. All pictures have the same scale. A vertex keeps its place from
line to line unless the mesh can't be drawn so; then all may move. A line that is refused has its
reply there. --places is refused for a page.";

impl<'a> Arguments<'a> {
    /// Returns what the words say.
    pub fn of(given: &Given<'a>) -> Self {
        Arguments {
            file: given.input(),
            places: given.value("places"),
            anchors: given.has("anchors"),
            page: given.has("page"),
        }
    }
}
