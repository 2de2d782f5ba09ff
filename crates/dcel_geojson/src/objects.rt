//! Objects, and arrays of them.

use crate::kinds::{Form, Kind, Role};
use crate::reading::Parser;
use crate::refusal::{ReadError, Reason, Refusal};
use json::Token;

/// What is open.
#[derive(Clone, Copy, Drop)]
pub enum Open {
    /// An object.
    Object(Object),
    /// An array of objects, and where these are.
    Objects(Role),
}

/// What was read of an object.
#[derive(Clone, Copy, Drop)]
pub struct Object {
    role: Role,
    /// Where it begins.
    begins: Refusal,
    kind: Option<Kind>,
    content: Option<Content>,
}

/// The member that the type of an object needs.
#[derive(Clone, Copy, Drop)]
enum Content {
    /// Coordinates, with the numbers of each position in so many arrays.
    Coordinates(usize),
    /// One geometry.
    Geometry,
    /// Several.
    Geometries,
    /// Features.
    Features,
}

impl Object {
    /// Returns that it is refused.
    fn refused(self, reason: Reason) -> ReadError {
        ReadError::Refused(Refusal {
            reason,
            ..self.begins
        })
    }
}

impl Parser<'_> {
    /// Begins the outermost object.
    pub fn begin_root(&mut self) -> Result<(), ReadError> {
        match self.source.next()? {
            Token::BeginObject => self.begin_object(Role::Root),
            _ => Err(self.source.refused(Reason::NoObject).into()),
        }
    }

    /// Begins an object.
    fn begin_object(&mut self, role: Role) -> Result<(), ReadError> {
        let begins = self.source.refused(Reason::NoType);
        self.open.push(Open::Object(Object {
            role,
            begins,
            kind: None,
            content: None,
        }))?;
        Ok(())
    }

    /// Reads on in what was open.
    pub fn read_on(&mut self, open: Open) -> Result<(), ReadError> {
        match open {
            Open::Object(object) => self.read_member(object),
            Open::Objects(role) => self.read_item(role),
        }
    }

    /// Reads the beginning of the next object of an array, or its end.
    fn read_item(&mut self, role: Role) -> Result<(), ReadError> {
        match self.source.next()? {
            Token::BeginObject => {
                self.open.push(Open::Objects(role))?;
                self.begin_object(role)
            }
            Token::EndArray => Ok(()),
            _ => Err(self.source.refused(Reason::NoObject).into()),
        }
    }

    /// Reads the next member of an object, or its end.
    fn read_member(&mut self, object: Object) -> Result<(), ReadError> {
        match self.source.next()? {
            Token::Key("type") => self.read_type(object),
            Token::Key(key) => self.read_value(object, key),
            Token::EndObject => self.end_object(object),
            _ => Err(self.source.refused(Reason::NotJson).into()),
        }
    }

    /// Reads the type of an object.
    fn read_type(&mut self, object: Object) -> Result<(), ReadError> {
        if object.kind.is_some() {
            return Err(self.source.refused(Reason::Twice).into());
        }
        let Token::String(name) = self.source.next()? else {
            return Err(self.source.refused(Reason::UnknownType).into());
        };
        match Kind::of(name) {
            None => Err(self.source.refused(Reason::UnknownType).into()),
            Some(kind) if kind.can_be(object.role) => self.keep(Object {
                kind: Some(kind),
                ..object
            }),
            Some(_) => Err(self.source.refused(Reason::WrongType).into()),
        }
    }

    /// Reads a member that isn't the type, and passes one that is no part of GeoJSON.
    fn read_value(&mut self, object: Object, key: &str) -> Result<(), ReadError> {
        match key {
            "coordinates" => self.read_shape(object),
            "geometry" => {
                self.keep_content(object, Content::Geometry)?;
                self.begin_geometry()
            }
            "geometries" => {
                self.keep_content(object, Content::Geometries)?;
                self.begin_list(Role::Geometry)
            }
            "features" => {
                self.keep_content(object, Content::Features)?;
                self.begin_list(Role::Feature)
            }
            _ => {
                self.source.skip()?;
                self.keep(object)
            }
        }
    }

    /// Keeps an object open.
    fn keep(&mut self, object: Object) -> Result<(), ReadError> {
        self.open.push(Open::Object(object))?;
        Ok(())
    }

    /// Keeps an object open, with what it has.
    fn keep_content(&mut self, object: Object, content: Content) -> Result<(), ReadError> {
        if object.content.is_some() {
            return Err(self.source.refused(Reason::Twice).into());
        }
        self.keep(Object {
            content: Some(content),
            ..object
        })
    }

    /// Reads the coordinates of an object.
    fn read_shape(&mut self, object: Object) -> Result<(), ReadError> {
        if object.content.is_some() {
            return Err(self.source.refused(Reason::Twice).into());
        }
        let nesting = self.read_coordinates()?;
        self.keep_content(object, Content::Coordinates(nesting))
    }

    /// Begins the geometry of a feature, which may be null.
    fn begin_geometry(&mut self) -> Result<(), ReadError> {
        match self.source.next()? {
            Token::BeginObject => self.begin_object(Role::Geometry),
            Token::Null => Ok(()),
            _ => Err(self.source.refused(Reason::NoObject).into()),
        }
    }

    /// Begins an array of objects.
    fn begin_list(&mut self, role: Role) -> Result<(), ReadError> {
        match self.source.next()? {
            Token::BeginArray => {
                self.open.push(Open::Objects(role))?;
                Ok(())
            }
            _ => Err(self.source.refused(Reason::NoObject).into()),
        }
    }

    /// Ends an object, which has what its type needs.
    fn end_object(&mut self, object: Object) -> Result<(), ReadError> {
        let Some(kind) = object.kind else {
            return Err(object.refused(Reason::NoType));
        };
        match (kind, object.content) {
            (Kind::Plain(geometry), Some(Content::Coordinates(nesting))) => {
                if nesting > 0 && nesting != geometry.nesting {
                    return Err(object.refused(Reason::OtherNesting));
                }
                self.add_paths(geometry.form)
            }
            (Kind::Collection, Some(Content::Geometries))
            | (Kind::Feature, Some(Content::Geometry))
            | (Kind::Features, Some(Content::Features)) => Ok(()),
            _ => Err(object.refused(Reason::NoMember)),
        }
    }

    /// Adds the lines or rings of the geometry that was read.
    fn add_paths(&mut self, form: Form) -> Result<(), ReadError> {
        match form {
            Form::Points => Ok(()),
            Form::Lines => self.add_all(false),
            Form::Rings => self.add_all(true),
        }
    }

    /// Adds each run of positions as a line or a ring.
    fn add_all(&mut self, is_ring: bool) -> Result<(), ReadError> {
        for run in self.runs.iter() {
            self.shapes.add_path(*run, is_ring)?;
        }
        Ok(())
    }
}
