//! The words that the program is started with.

ghost use Rattle.std.specs.Prelude.{◌≡◌, None, false};

use crate::fault::{Fault, Wrong};
use crate::format::{FORMATS, Format};
use crate::geojson::Which;
use crate::joins::Form;
use crate::limits::Limits;
use crate::quoting::Sentence;
use crate::task::Task;
use dcel_decimals::Scale;
use dcel_programs::{Choice, Given, Program, Switch, Takes};

/// What is written to standard output.
#[derive(Clone, Copy)]
pub enum Output {
    /// The triangles.
    Triangles,
    /// The edges.
    Edges,
    /// The points of the hull, in their order.
    Hull,
    /// The counts.
    Stats,
    /// The triangle across from each corner of each triangle.
    Neighbors,
    /// The points and the triangles, in the Object File Format.
    Off,
    /// The same as Wavefront's OBJ.
    Obj,
    /// The points.
    Points,
    /// The words of half edges.
    Words,
    /// The corners and edges of the Voronoi diagram.
    Voronoi,
}

impl Output {
    /// Returns whether it has a line for each triangle.
    fn lists_triangles(self) -> bool {
        matches!(
            self,
            Output::Triangles | Output::Neighbors | Output::Off | Output::Obj
        )
    }
}

/// What the program is asked to do.
#[derive(Clone, Copy)]
pub struct Arguments<'a> {
    /// The file that has the points; if there is none, standard input.
    pub file: Option<&'a str>,
    /// The format of that file.
    pub format: Format,
    /// Which columns are the coordinates of points; if there is nothing, there are two.
    pub columns: Option<&'a str>,
    /// Whether constraints that cross are split.
    pub splits_crossings: bool,
    /// The smallest angle that triangles are refined to, in degrees.
    pub refine: Option<&'a str>,
    /// The largest area that they are refined to.
    pub max_area: Option<&'a str>,
    /// How many points are added at most.
    pub max_points: Option<&'a str>,
    /// The file for a picture.
    pub svg: Option<&'a str>,
    /// The file with the numbers of points that are removed.
    pub remove: Option<&'a str>,
    /// The file with the points that constraints join.
    pub constraints: Option<&'a str>,
    /// The file with the curves of an outline.
    pub outline: Option<&'a str>,
    /// The file with the points to which the nearest one is asked for.
    pub nearest: Option<&'a str>,
    /// The file with the points of which the places in the triangulation are asked for.
    pub locate: Option<&'a str>,
    /// Files for the outputs of `FILES`, each at its place.
    pub files: [Option<&'a str>; FILE_COUNT],
    /// What to write.
    pub output: Option<Output>,
    /// What coordinates are multiplied by; if there is none, the least that makes them whole.
    pub scale: Option<Scale>,
    /// What is given for that and is no scale.
    pub no_scale: Option<&'a str>,
    /// Whether they are rounded to a grid.
    pub is_on_grid: bool,
    /// Whether to tell how long the insertions took.
    pub is_timed: bool,
}

/// What the program takes.
pub const PROGRAM: Program<'static, Output> = Program {
    name: "delaunay",
    about: ABOUT,
    input: "The points; without it, or with -, standard input",
    switches: &[
        Switch {
            name: "format",
            letter: None,
            takes: Takes::Format(FORMATS),
            help: "Reads the points in this format, whatever the file's name",
        },
        Switch {
            name: "columns",
            letter: None,
            takes: Takes::Text("X,Y"),
            help: "Takes the coordinates of points from these columns, by number from 1 or by name",
        },
        Switch {
            name: "remove",
            letter: None,
            takes: Takes::File,
            help: "Removes the points whose numbers this file has, after all are inserted",
        },
        Switch {
            name: "constraints",
            letter: None,
            takes: Takes::File,
            help: "Joins the pairs of points whose numbers this file has, by edges that stay",
        },
        Switch {
            name: "outline",
            letter: None,
            takes: Takes::File,
            help: "Joins the points of closed curves, and writes the triangles inside alone",
        },
        Switch {
            name: "split-crossings",
            letter: None,
            takes: Takes::Nothing,
            help: "Adds a point where constraints cross, if it is on the grid",
        },
        Switch {
            name: "refine",
            letter: None,
            takes: Takes::Text("ANGLE"),
            help: "Adds points until no angle is smaller, from 0 to 45 degrees, but between constraints",
        },
        Switch {
            name: "max-area",
            letter: None,
            takes: Takes::Text("AREA"),
            help: "With --refine, adds points until no triangle is larger, too",
        },
        Switch {
            name: "max-points",
            letter: None,
            takes: Takes::Text("N"),
            help: "With --refine, adds at most so many points, in place of ten million",
        },
        Switch {
            name: "nearest",
            letter: None,
            takes: Takes::File,
            help: "Writes for each point of this file the number of a nearest one, -1 if there is none",
        },
        Switch {
            name: "locate",
            letter: None,
            takes: Takes::File,
            help: "Writes for each point of this file in which triangle it is, on an edge or outside",
        },
        Switch {
            name: "svg",
            letter: None,
            takes: Takes::File,
            help: "Draws a picture into this file, too",
        },
        Switch {
            name: "triangles-to",
            letter: None,
            takes: Takes::File,
            help: "Writes the triangles into this file",
        },
        Switch {
            name: "edges-to",
            letter: None,
            takes: Takes::File,
            help: "Writes the edges into this file",
        },
        Switch {
            name: "hull-to",
            letter: None,
            takes: Takes::File,
            help: "Writes the points of the hull into this file",
        },
        Switch {
            name: "stats-to",
            letter: None,
            takes: Takes::File,
            help: "Writes the counts into this file",
        },
        Switch {
            name: "neighbors-to",
            letter: None,
            takes: Takes::File,
            help: "Writes what --neighbors writes into this file",
        },
        Switch {
            name: "off-to",
            letter: None,
            takes: Takes::File,
            help: "Writes what --off writes into this file",
        },
        Switch {
            name: "obj-to",
            letter: None,
            takes: Takes::File,
            help: "Writes what --obj writes into this file",
        },
        Switch {
            name: "points-to",
            letter: None,
            takes: Takes::File,
            help: "Writes all points into this file, those that are added too",
        },
        Switch {
            name: "scale",
            letter: None,
            takes: Takes::Text("K"),
            help: "Multiplies the coordinates by this power of ten, from 1 to 10^18",
        },
        Switch {
            name: "grid",
            letter: None,
            takes: Takes::Nothing,
            help: "Rounds the coordinates to the finest power of two on which all are in range",
        },
        Switch {
            name: "time",
            letter: None,
            takes: Takes::Nothing,
            help: "Tells on standard error how long the insertions took, and what else is asked for",
        },
    ],
    choices: OUTPUTS,
    details: DETAILS,
    output: None,
};

/// How many outputs are written into files.
pub const FILE_COUNT: usize = 8;

/// The options that write outputs into files.
pub const FILES: [(&str, Output); FILE_COUNT] = [
    ("triangles-to", Output::Triangles),
    ("edges-to", Output::Edges),
    ("hull-to", Output::Hull),
    ("stats-to", Output::Stats),
    ("neighbors-to", Output::Neighbors),
    ("off-to", Output::Off),
    ("obj-to", Output::Obj),
    ("points-to", Output::Points),
];

/// What no output to standard output can stand beside.
const ALONE: &[&str] = &[
    "locate",
    "triangles-to",
    "edges-to",
    "hull-to",
    "stats-to",
    "neighbors-to",
    "off-to",
    "obj-to",
    "points-to",
];

const OUTPUTS: &[Choice<'static, Output>] = &[
    Choice {
        name: "edges",
        means: Output::Edges,
        excludes: ALONE,
        help: "Writes the edges in place of the triangles",
    },
    Choice {
        name: "hull",
        means: Output::Hull,
        excludes: ALONE,
        help: "Writes the points of the hull, counterclockwise; along a line, there and back",
    },
    Choice {
        name: "stats",
        means: Output::Stats,
        excludes: ALONE,
        help: "Writes how many points, edges and triangles there are",
    },
    Choice {
        name: "neighbors",
        means: Output::Neighbors,
        excludes: ALONE,
        help: "Writes for each triangle the ones across from its corners, -1 for none",
    },
    Choice {
        name: "off",
        means: Output::Off,
        excludes: ALONE,
        help: "Writes the points and triangles as OFF, equal points too",
    },
    Choice {
        name: "obj",
        means: Output::Obj,
        excludes: ALONE,
        help: "Writes them as OBJ, which counts from 1",
    },
    Choice {
        name: "points",
        means: Output::Points,
        excludes: ALONE,
        help: "Writes all points, those that are added too",
    },
    Choice {
        name: "words",
        means: Output::Words,
        excludes: &["outline", "locate"],
        help: "Writes the half edges round each triangle and out of each point",
    },
    Choice {
        name: "voronoi",
        means: Output::Voronoi,
        excludes: &["constraints", "outline", "locate"],
        help: "Writes the corners and edges of the Voronoi diagram",
    },
];

const ABOUT: &str = "\
Writes the Delaunay triangulation of points

Examples:
  delaunay points.txt > triangles.txt
  delaunay --columns lon,lat --grid --svg towns.svg towns.csv
  delaunay --outline lake.txt --refine 25 --off points.txt > lake.off";

const DETAILS: &str = "\
Each line of the input has the two coordinates of a point, decimals with blanks, a comma or a
semicolon between them, in quotes or not. What follows a # is a comment, and lines without a word
are skipped, as is a first line whose columns all begin with a letter, and one of units behind it.
Points are numbered from 0 in the order of the input. Equal points are one, with the least of their
numbers.

With --columns X,Y lines may have more columns, with a tab between them, or else a semicolon, a
comma, or blanks, but for those in quotes. X and Y are numbers from 1, or names in the first line.
This holds of the files of --nearest and --locate, too.

Files named .node and .poly have the formats of the program Triangle, as --format says of others.
Attributes and markers aren't read. Their points may be numbered from 1: all other numbers are from
0. The segments of a .poly are constraints, or an outline if --outline names that file, and then
curves inside others are its holes. --constraints and --outline take those of another .poly, too.

Files named .geojson and .json are GeoJSON, as --format says of others. Each position is a point, in
the order of the file, also the last one of a ring, which equals the first. Two coordinates are
read, to the last digit. Lines are constraints, and the rings of polygons an outline, in which those
inside others are holes. If --constraints or --outline is given, only what these name is joined:
where one of them names the points' file, all its lines and rings are that, and where both do, they
are what they are without. Positions that are equal, one behind the other, aren't joined.

The file of --remove has a number in each line, with comments and empty lines as above. Points keep
their numbers, and those that are removed belong to no triangle; of equal points one stays as long
as one of them isn't removed. The file of --nearest has points as the input has, and what is written
of them stands in place of the triangles, or below what another option writes.

The file of --locate has points, too. For each it writes 'OnFace N', the number of its triangle,
'OnEdge A B' and 'OnVertex A', the numbers of points, 'OutsideOfConvexHull A B' for a place on the
left of the way from A to B along the hull, 'BeyondLine A' where all points are on one line and A is
the end of them before the place, or 'NoTriangulation'. It stands alone.

The file of --constraints has two numbers in each line, with blanks, a comma or both between them,
and comments and empty lines as above. The segment between these two points becomes an edge that
stays, or several, from point to point, where it passes some. No other edge has a corner of the
triangle on one side inside the circle of the triangle on the other. Two segments may cross at
points alone; along one line they may lie on each other.

The file of --outline has a closed curve in each line, the numbers of three points or more, with
comments and empty lines as above: edges that stay join each of them to the next one, and the last
to the first. Triangles are written to which a way from outside crosses sides an odd number of
times, so a curve inside another one is a hole. --edges, --stats and --neighbors know these
triangles alone then, while --hull and --nearest take all points. --words can't stand beside
--outline, nor --voronoi beside --outline or --constraints.

With --refine points are added until no angle of a triangle that is written is smaller, but for
angles between two edges that stay, and with --max-area until none is larger: an area in the square
of the coordinates' unit. New points are numbered behind all others, and --points and --points-to
write all of them. Without an outline the sides of the hull are split as constraints are. Up to 20.7
degrees this mostly ends, and above 34 rarely. If a triangle isn't as asked in the end, all is
written, and the status is 1. --stats says the smallest and largest angle and area, too, and how many
angles there are of each ten degrees.

With --split-crossings constraints and outlines may cross: a point is added where they do, if it is
one of the grid. If it isn't, that is refused, with the place and the nearest point of the grid.

Only at points of the grid segments can be split. So, with these two options, coordinates are
multiplied by 10000 more than makes them whole, or as much as is in range, unless --scale says by
what; and --grid takes a step 4096 times as large. Standard error says how many bits that leaves free,
and how many points were added. --nearest, --locate and --voronoi can't stand beside them.

--triangles-to, --edges-to and their like write outputs into files, several in one run, and then
none goes to standard output but that of --nearest. No file is written before all are computed.

Points are removed first, then constraints are put in, then outlines, and then points are added. A
picture has the edges that stay wide, in place of the hull.

Coordinates are multiplied by the least power of ten that makes all of them whole, and have to be
from -9007199254740992 to 9007199254740992 then. Unless it is 1, --stats and --time say on standard
error which power that is. What is written has the coordinates that were given.

With --grid any decimals of up to 25 digits between -2^63 and 2^63 are taken, as doubles are
written: each coordinate is rounded to the nearest multiple of the finest power of two, at least
2^-96, for which all are from -2^53 to 2^53 times it. Standard error says how many points that
moves, and how far. What is written has the coordinates of the grid, exactly.

Each line of the output has the numbers of a triangle's three corners, counterclockwise, the least
first. Triangles are numbered from 0 in that order. --voronoi writes 'corner X Y' for each triangle,
the center of the circle through its corners, and then for each edge, in the order of --edges,
'edge A B', the numbers of the corners that it joins; at the hull 'ray A X Y', out of a corner in
this direction; and where there is no triangle 'line X Y X Y', through a place in this direction.
Its numbers are exact: whole, or fractions as 7/2.";

impl<'a> Arguments<'a> {
    /// Returns what the words say.
    pub fn of(given: &Given<'a>) -> Self {
        let nearest = given.value("nearest");
        let locate = given.value("locate");
        let files = FILES.map(|row| given.value(row.0));
        let is_asked = nearest.is_some() || locate.is_some() || has_some(&files);
        let unasked = if is_asked {
            None
        } else {
            Some(Output::Triangles)
        };
        let file = given.input();
        let format = Format::of(given.value("format"), file);
        let outline = given.value("outline");
        Arguments {
            file,
            format,
            columns: given.value("columns"),
            svg: given.value("svg"),
            remove: given.value("remove"),
            constraints: given
                .value("constraints")
                .or(own_segments(file, format, outline)),
            outline,
            splits_crossings: given.has("split-crossings"),
            refine: given.value("refine"),
            max_area: given.value("max-area"),
            max_points: given.value("max-points"),
            nearest,
            locate,
            files,
            output: given.choice(OUTPUTS).or(unasked),
            scale: given.value("scale").and_then(scale_of),
            no_scale: given.value("scale").filter(|word| scale_of(word).is_none()),
            is_on_grid: given.has("grid"),
            is_timed: given.has("time"),
        }
    }

    /// Returns the fault that something is wrong with them, if it is.
    pub fn checked(&self) -> Result<(), Fault> {
        match self.check() {
            Ok(()) => Ok(()),
            Err(wrong) => Err(Fault::Input(wrong)),
        }
    }

    /// Returns what is wrong with them, if something is.
    fn check(&self) -> Result<(), Wrong> {
        if let Some(word) = self.no_scale {
            return Err(Wrong::quoting(Sentence::NoScale, word));
        }
        if let Some(path) = self.locate.filter(|_| self.asks_for_more()) {
            return Err(Wrong::quoting(Sentence::LocatesAlone, path));
        }
        if let (None, Format::Poly) = (self.file, self.format) {
            return Err(Wrong::quoting(Sentence::ReadTwice, "--format poly"));
        }
        self.check_added()?;
        self.check_joins()
    }

    /// Returns what is wrong with what adds points, if something is.
    fn check_added(&self) -> Result<(), Wrong> {
        let _limits = Limits::of(self)?;
        if self.adds_points() && (self.places().is_some() || self.is_voronoi()) {
            return Err(Wrong::quoting(Sentence::AddsAlone, self.adding_option()));
        }
        Ok(())
    }

    /// Returns what is wrong with what joins points, if something is.
    fn check_joins(&self) -> Result<(), Wrong> {
        let mut paths = [self.constraints, self.outline].into_iter().flatten();
        if let Some(path) = paths.find(|path| self.has_other_points(path)) {
            return Err(Wrong::quoting(Sentence::OtherPaths, path));
        }
        match self.output {
            Some(Output::Voronoi) if self.has_constraints() => {
                Err(Wrong::quoting(Sentence::Constrained, self.name()))
            }
            Some(Output::Words) if self.outline.is_some() => {
                Err(Wrong::quoting(Sentence::Outlined, self.name()))
            }
            _ => Ok(()),
        }
    }

    /// Returns the name of the points' file.
    fn name(&self) -> &'a str {
        self.file.unwrap_or("standard input")
    }

    /// Returns whether a file is GeoJSON and not that of the points.
    fn has_other_points(&self, path: &str) -> bool {
        path != self.name() && matches!(Format::of_file(path), Format::Geojson)
    }

    /// Returns whether lines and rings of the points' own file are constraints and an outline.
    pub fn takes_own_joins(&self) -> bool {
        matches!(self.format, Format::Geojson) && !self.has_constraints()
    }

    /// Returns them with the constraints and the outline that the points' own file has.
    pub fn with_own_joins(self, task: &Task) -> Self {
        if !self.takes_own_joins() {
            return self;
        }
        let name = Some(self.name());
        Arguments {
            constraints: name.filter(|_| !task.constraints.is_empty()),
            outline: name.filter(|_| task.has_rings),
            ..self
        }
    }

    /// Returns which paths of the points' own file are joined where it is named for constraints or
    /// for an outline: all, unless it is for both.
    pub fn which(&self, form: Form) -> Which {
        match form {
            _ if self.constraints != self.outline => Which::All,
            Form::Pairs => Which::Lines,
            Form::Curves => Which::Rings,
        }
    }

    /// Returns whether something is asked for that can't stand beside places.
    fn asks_for_more(&self) -> bool {
        self.nearest.is_some()
            || self.svg.is_some()
            || self.has_constraints()
            || has_some(&self.files)
    }

    /// Returns whether points may be added.
    pub fn adds_points(&self) -> bool
        ensures { self.now.refine ≡ None → self.now.splits_crossings ≡ false → result ≡ false }
    {
        self.refine.is_some() || self.splits_crossings
    }

    /// Returns the option that adds points.
    fn adding_option(&self) -> &'a str {
        match self.refine {
            Some(_) => "--refine",
            None => "--split-crossings",
        }
    }

    /// Returns whether the Voronoi diagram is asked for.
    fn is_voronoi(&self) -> bool {
        matches!(self.output, Some(Output::Voronoi))
    }

    /// Returns the file with points that are looked for, if there is one.
    pub fn places(&self) -> Option<&'a str> {
        self.nearest.or(self.locate)
    }

    /// Returns whether a list of triangles is asked for.
    pub fn asks_for_triangles(&self) -> bool {
        for (path, row) in self.files.iter().zip(FILES.iter()) {
            if path.is_some() && row.1.lists_triangles() {
                return true;
            }
        }
        match self.output {
            Some(output) => output.lists_triangles(),
            None => false,
        }
    }

    /// Returns whether standard error is to say by what coordinates are multiplied.
    pub fn reports_scale(&self) -> bool {
        self.is_timed || matches!(self.output, Some(Output::Stats))
    }

    /// Returns the format of a file: that of the points, if it is the same file, or by its name.
    pub fn format_of(&self, path: &str) -> Format {
        match self.file {
            Some(file) if file == path => self.format,
            _ => Format::of_file(path),
        }
    }

    /// Returns whether some edges are to stay.
    pub fn has_constraints(&self) -> bool
        ensures none { self.now.constraints ≡ None → self.now.outline ≡ None → result ≡ false }
        ensures some { result ≡ false → (self.now.constraints ≡ None) × (self.now.outline ≡ None) }
    {
        self.constraints.is_some() || self.outline.is_some()
    }
}

/// Returns whether a file is asked for.
fn has_some(files: &[Option<&str>]) -> bool {
    files.iter().any(|file| file.is_some())
}

/// Returns the file of points, if its own segments are constraints, and not an outline.
fn own_segments<'a>(
    file: Option<&'a str>,
    format: Format,
    outline: Option<&'a str>,
) -> Option<&'a str> {
    if matches!(format, Format::Poly) && outline != file {
        file
    } else {
        None
    }
}

/// Returns the scale that a word says, if it says one.
fn scale_of(word: &str) -> Option<Scale> {
    Scale::of(word.parse::<u64>().ok()?)
}
