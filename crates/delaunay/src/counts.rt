//! Counts, each with what is counted.

use std::fmt;

/// A count, with the singular and plural of what it counts.
#[derive(Clone, Copy)]
pub struct Count<'a> {
    /// How many there are.
    pub count: usize,
    /// What is said of one.
    pub one: &'a str,
    /// What is said of several.
    pub many: &'a str,
}

impl fmt::Display for Count<'_> {
    fn fmt<W: fmt::Write>(&self, f: &mut fmt::Formatter<W>) -> fmt::Result {
        let words = if self.count == 1 { self.one } else { self.many };
        write!(f, "{} {words}", self.count)
    }
}

/// How many points were added.
#[derive(Clone, Copy)]
pub struct Added(pub usize);

impl fmt::Display for Added {
    fn fmt<W: fmt::Write>(&self, f: &mut fmt::Formatter<W>) -> fmt::Result {
        let words = Count {
            count: self.0,
            one: "point was added",
            many: "points were added",
        };
        write!(f, "{words}")
    }
}
