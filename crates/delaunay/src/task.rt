//! What the program is asked to do, as its files say.

ghost use Rattle.std.specs.Prelude.{◌≡◌, IfOk, OnOk, true};
ghost use Rattle.delaunay.specs.Asked.{AddsNone};
ghost use Rattle.delaunay.specs.Placed.{ArePointsOf, IsOnFinest};

use crate::arguments::Arguments;
use crate::counts::Count;
use crate::fault::{Fault, Wrong};
use crate::format::Format;
use crate::freeing::{Room, finest_scale};
use crate::geojson::{Which, joins_along};
use crate::joins::{Form, Join, read_joins};
use crate::numbering::Numbering;
use crate::quoting::Sentence;
use crate::reading::{Coordinates, in_file, read_coordinates};
use crate::removal::read_marks;
use crate::unit::{Moves, Unit};
use dcel_decimals::Scale;
use dcel_delaunay::Point;
use dcel_programs::read_text;
use std::alloc::{AllocError, Global};
use std::io;
use std::rt::Files;

/// Points, and what is to be done with them.
#[derive(Drop)]
pub struct Task {
    /// The points.
    pub points: Vec<Point>,
    /// Which of them are removed, if any are.
    pub is_removed: Vec<bool>,
    /// Which of them are joined by constraints.
    pub constraints: Vec<Join>,
    /// Which of them are joined by the curves of an outline.
    pub outline: Vec<Join>,
    /// Whether that is made of the rings of the points' own file.
    pub has_rings: bool,
    /// The points to which the nearest one is asked for, or that are located.
    pub places: Vec<Point>,
    /// What all coordinates stand for.
    pub unit: Unit,
}

impl Task {
    /// Reads all files. Coordinates are multiplied by the scale that is asked for, or the least, or
    /// put on a grid. On standard error it says which scale that is, if that is asked for, and what
    /// the grid moves.
    pub fn read(
        rt: &(impl Files + Input + Eprint + AllocGlobal),
        arguments: &Arguments,
    ) -> Result<Self, Fault> {
        let alloc = rt.alloc();
        let mut task = Task {
            points: Vec::new(alloc),
            is_removed: Vec::new(alloc),
            constraints: Vec::new(alloc),
            outline: Vec::new(alloc),
            has_rings: false,
            places: Vec::new(alloc),
            unit: Unit::Scale(Scale::ONE),
        };
        task.fill(rt, arguments)?;
        Ok(task)
    }

    fn fill(
        &mut self,
        rt: &(impl Files + Input + Eprint + AllocGlobal),
        arguments: &Arguments,
    ) -> Result<(), Fault> {
        let coordinates = Coordinates::of(
            rt.alloc(),
            &read_text(rt, arguments.file)?,
            arguments.format,
            arguments.columns,
        )?;
        match arguments.places() {
            None => self.take(rt, arguments, &coordinates, &Coordinates::none(rt.alloc())),
            Some(path) => self.take(
                rt,
                arguments,
                &coordinates,
                &read_coordinates(rt, path, arguments.columns)?,
            ),
        }
    }

    /// Takes the points with these coordinates and the places with those, and reads the files of
    /// numbers.
    fn take(
        &mut self,
        rt: &(impl Files + Input + Eprint + AllocGlobal),
        arguments: &Arguments,
        coordinates: &Coordinates,
        asked: &Coordinates,
    ) -> Result<(), Fault>
        ensures points { OnOk result (AddsNone arguments.now → ArePointsOf self.new.unit coordinates.now.all.items self.new.points.items) }
        ensures places { OnOk result (ArePointsOf self.new.unit asked.now.all.items self.new.places.items) }
        ensures grid { OnOk result (AddsNone arguments.now → arguments.now.is_on_grid ≡ true → IsOnFinest self.new.unit coordinates.now.all.items asked.now.all.items) }
    {
        report_first(rt, coordinates.first)?;
        self.take_points(rt, arguments, coordinates, asked)?;
        self.read_numbers(rt, arguments, coordinates)?;
        self.take_places(rt.alloc(), arguments, asked)
    }

    /// Takes the points with these coordinates, and says on standard error what a grid has made of
    /// them.
    fn take_points(
        &mut self,
        rt: &(impl Eprint + AllocGlobal),
        arguments: &Arguments,
        coordinates: &Coordinates,
        asked: &Coordinates,
    ) -> Result<(), Fault>
        ensures points { OnOk result (AddsNone arguments.now → ArePointsOf self.new.unit coordinates.now.all.items self.new.points.items) }
        ensures grid { OnOk result (AddsNone arguments.now → arguments.now.is_on_grid ≡ true → IsOnFinest self.new.unit coordinates.now.all.items asked.now.all.items) }
    {
        let room = room_of(rt, arguments, coordinates, asked)?;
        let mut moves = Moves::NONE;
        self.unit = room.unit;
        self.points = coordinates.points(rt.alloc(), room.unit, &mut moves)?;
        self.report_moves(rt, moves, coordinates)?;
        if arguments.adds_points() {
            return self.take_room(rt, room);
        }
        Ok(())
    }

    /// Takes the places with these coordinates.
    fn take_places(
        &mut self,
        alloc: Global,
        arguments: &Arguments,
        asked: &Coordinates,
    ) -> Result<(), Fault>
        ensures points { self.new.points ≡ self.old.points }
        ensures unit { self.new.unit ≡ self.old.unit }
        ensures places { OnOk result (ArePointsOf self.new.unit asked.now.all.items self.new.places.items) }
    {
        let mut moves = Moves::NONE;
        match asked.points(alloc, self.unit, &mut moves) {
            Ok(places) => self.places = places,
            Err(fault) => return Err(in_file(alloc, arguments.places(), fault)),
        }
        Ok(())
    }

    /// Leaves bits of the coordinates free for new points, and says on standard error how many.
    fn take_room(&mut self, rt: &(impl Eprint + AllocGlobal), room: Room) -> Result<(), Fault> {
        self.points = room.finer(rt.alloc(), &self.points)?;
        self.unit = room.finer_unit();
        let bits = Count {
            count: room.bits as usize,
            one: "bit of coordinates is free",
            many: "bits of coordinates are free",
        };
        eprintln!(rt; "delaunay: {bits} for new points")?;
        Ok(())
    }

    /// Says on standard error what a grid has made of the points, if there is one.
    fn report_moves(
        &self,
        rt: &(impl Eprint + AllocGlobal),
        moves: Moves,
        coordinates: &Coordinates,
    ) -> Result<(), Fault> {
        let Unit::Grid(grid) = self.unit else {
            return Ok(());
        };
        let before = coordinates.count_different(rt.alloc())?;
        let equal = before.saturating_sub(count_different(rt.alloc(), &self.points)?);
        let power = grid.power();
        let thousandths = moves.most.saturating_mul(1000).div_ceil(1024);
        eprintln!(rt;
            "delaunay: the grid's step is 2^{power}; moved {} of {} points, by at most 0.{thousandths:03} of a step; made {equal} equal to others",
            moves.count,
            self.points.len()
        )?;
        Ok(())
    }

    /// Reads the files that have numbers of points, and what the points' own file joins.
    fn read_numbers(
        &mut self,
        rt: &(impl Files + Input + AllocGlobal),
        arguments: &Arguments,
        coordinates: &Coordinates,
    ) -> Result<(), Fault>
        ensures points { self.new.points ≡ self.old.points }
        ensures unit { self.new.unit ≡ self.old.unit }
    {
        if let Some(path) = arguments.remove {
            self.is_removed = read_marks(rt, path, self.points.len())?;
        }
        if let Some(path) = arguments.constraints {
            self.constraints = self.joins(rt, arguments, coordinates, path, Form::Pairs)?;
        }
        if let Some(path) = arguments.outline {
            self.outline = self.joins(rt, arguments, coordinates, path, Form::Curves)?;
        }
        if arguments.takes_own_joins() {
            self.take_paths(rt.alloc(), coordinates)?;
        }
        Ok(())
    }

    /// Returns the joins that a file says, which may be that of the points.
    fn joins(
        &self,
        rt: &(impl Files + Input + AllocGlobal),
        arguments: &Arguments,
        coordinates: &Coordinates,
        path: &str,
        form: Form,
    ) -> Result<Vec<Join>, Fault> {
        let format = arguments.format_of(path);
        if matches!(format, Format::Geojson) {
            let which = arguments.which(form);
            return Ok(joins_along(rt.alloc(), coordinates, &self.points, which)?);
        }
        let numbering = Numbering {
            count: self.points.len(),
            first: coordinates.first,
        };
        read_joins(rt, path, format, form, numbering)
    }

    /// Takes the lines of the points' file as constraints, and its rings as an outline.
    fn take_paths(&mut self, alloc: Global, coordinates: &Coordinates) -> Result<(), AllocError>
        ensures points { self.new.points ≡ self.old.points }
        ensures unit { self.new.unit ≡ self.old.unit }
    {
        self.constraints = joins_along(alloc, coordinates, &self.points, Which::Lines)?;
        self.outline = joins_along(alloc, coordinates, &self.points, Which::Rings)?;
        self.has_rings = coordinates.paths.iter().any(|path| path.is_ring);
        Ok(())
    }
}

/// Returns what coordinates are to stand for, and which of their bits are to be free.
fn room_of(
    rt: &(impl Eprint + AllocGlobal),
    arguments: &Arguments,
    coordinates: &Coordinates,
    asked: &Coordinates,
) -> Result<Room, Fault>
    ensures { IfOk result (λ room. AddsNone arguments.now → arguments.now.is_on_grid ≡ true → IsOnFinest room.unit coordinates.now.all.items asked.now.all.items) }
{
    if !arguments.adds_points() {
        let unit = unit_of(rt, arguments, coordinates, asked)?;
        return Ok(Room { unit, bits: 0 });
    }
    match (arguments.is_on_grid, arguments.scale) {
        (true, None) => Ok(Room::by_grid(coordinates.grid(asked))),
        (true, Some(_)) => Err(Fault::Input(Wrong::Said(Sentence::ScaledGrid))),
        (false, Some(scale)) => Ok(Room::by_scale(scale, coordinates.scale()?)),
        (false, None) => {
            let least = coordinates.scale()?;
            let scale = finest_scale(rt.alloc(), coordinates, least)?;
            report_scale(rt, arguments, scale)?;
            Ok(Room::by_scale(scale, least))
        }
    }
}

/// Returns what coordinates are to stand for.
fn unit_of(
    rt: &(impl Eprint + AllocGlobal),
    arguments: &Arguments,
    coordinates: &Coordinates,
    asked: &Coordinates,
) -> Result<Unit, Fault>
    ensures { IfOk result (λ unit. arguments.now.is_on_grid ≡ true → IsOnFinest unit coordinates.now.all.items asked.now.all.items) }
{
    match (arguments.is_on_grid, arguments.scale) {
        (true, None) => Ok(Unit::Grid(coordinates.grid(asked))),
        (true, Some(_)) => Err(Fault::Input(Wrong::Said(Sentence::ScaledGrid))),
        (false, Some(scale)) => Ok(Unit::Scale(scale)),
        (false, None) => {
            let scale = asked
                .scale()
                .map_err(|fault| in_file(rt.alloc(), arguments.places(), fault));
            let least = greater(coordinates.scale()?, scale?);
            report_scale(rt, arguments, least)?;
            Ok(Unit::Scale(least))
        }
    }
}

/// Says on standard error that a file numbers its points from 1, if it does.
fn report_first(rt: &impl Eprint, first: usize) -> io::Result<()> {
    if first > 0 {
        eprintln!(rt; "delaunay: the file numbers its points from 1, and all else here from 0")?;
    }
    Ok(())
}

/// Says on standard error which scale it is, if that is asked for, unless it is 1.
fn report_scale(rt: &impl Eprint, arguments: &Arguments, scale: Scale) -> io::Result<()> {
    if scale != Scale::ONE && arguments.reports_scale() {
        eprintln!(rt; "delaunay: the scale is {}", scale.factor())?;
    }
    Ok(())
}

/// Returns how many different points there are.
fn count_different(alloc: Global, points: &[Point]) -> Result<usize, AllocError> {
    let mut places = Vec::with_capacity(alloc, points.len())?;
    for point in points {
        places.push((point.x, point.y))?;
    }
    places.sort_unstable();
    places.dedup();
    Ok(places.len())
}

/// Returns the greater one of two scales.
fn greater(a: Scale, b: Scale) -> Scale {
    if a.power < b.power { b } else { a }
}
