//! The formats of files with points.

/// The format of a file with points.
#[derive(Clone, Copy)]
pub enum Format {
    /// A line for each point.
    Lines,
    /// Triangle's points.
    Node,
    /// Triangle's points and segments.
    Poly,
    /// GeoJSON's points, lines and rings.
    Geojson,
}

/// The names of the formats.
pub const FORMATS: &[&str] = &["lines", "node", "poly", "geojson"];

impl Format {
    /// Returns the format of a file: that of this name, if one is given, or else by the file's name.
    pub fn of(name: Option<&str>, file: Option<&str>) -> Self {
        match name {
            Some("node") => Format::Node,
            Some("poly") => Format::Poly,
            Some("geojson") => Format::Geojson,
            Some(_) => Format::Lines,
            None => file.map_or(Format::Lines, Format::of_file),
        }
    }

    /// Returns the format of a file by its name.
    pub fn of_file(file: &str) -> Self {
        if file.ends_with(".node") {
            Format::Node
        } else if file.ends_with(".poly") {
            Format::Poly
        } else if file.ends_with(".geojson") || file.ends_with(".json") {
            Format::Geojson
        } else {
            Format::Lines
        }
    }
}
