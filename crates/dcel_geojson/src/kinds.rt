//! The types of GeoJSON's objects.

/// What an object is.
#[derive(Clone, Copy)]
pub enum Kind {
    /// A geometry with coordinates.
    Plain(Geometry),
    /// A list of geometries.
    Collection,
    /// Something with a geometry.
    Feature,
    /// A list of these.
    Features,
}

/// A geometry with coordinates.
#[derive(Clone, Copy)]
pub struct Geometry {
    /// In how many arrays the numbers of a position are.
    pub nesting: usize,
    /// What its positions are.
    pub form: Form,
}

/// What positions are.
#[derive(Clone, Copy)]
pub enum Form {
    /// Points by themselves.
    Points,
    /// Lines.
    Lines,
    /// Rings.
    Rings,
}

/// Where an object is.
#[derive(Clone, Copy)]
pub enum Role {
    /// It is the outermost one.
    Root,
    /// It is one of some features.
    Feature,
    /// It is the geometry of a feature, or one of some geometries.
    Geometry,
}

/// The types.
const KINDS: [(&str, Kind); 9] = [
    (
        "Point",
        Kind::Plain(Geometry {
            nesting: 1,
            form: Form::Points,
        }),
    ),
    (
        "MultiPoint",
        Kind::Plain(Geometry {
            nesting: 2,
            form: Form::Points,
        }),
    ),
    (
        "LineString",
        Kind::Plain(Geometry {
            nesting: 2,
            form: Form::Lines,
        }),
    ),
    (
        "MultiLineString",
        Kind::Plain(Geometry {
            nesting: 3,
            form: Form::Lines,
        }),
    ),
    (
        "Polygon",
        Kind::Plain(Geometry {
            nesting: 3,
            form: Form::Rings,
        }),
    ),
    (
        "MultiPolygon",
        Kind::Plain(Geometry {
            nesting: 4,
            form: Form::Rings,
        }),
    ),
    ("GeometryCollection", Kind::Collection),
    ("Feature", Kind::Feature),
    ("FeatureCollection", Kind::Features),
];

/// The most arrays in which the numbers of a position are.
pub const MOST_NESTING: usize = 4;

impl Kind {
    /// Returns the kind of the objects of this type, if there are such.
    pub fn of(name: &str) -> Option<Kind> {
        let row = KINDS.iter().find(|row| row.0 == name)?;
        Some(row.1)
    }

    /// Returns whether an object of this kind can be there.
    pub fn can_be(self, role: Role) -> bool {
        match (role, self) {
            (Role::Root, _) | (Role::Feature, Kind::Feature) => true,
            (Role::Geometry, Kind::Plain(_) | Kind::Collection) => true,
            _ => false,
        }
    }
}
