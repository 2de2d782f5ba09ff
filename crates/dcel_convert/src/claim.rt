//! What a file of words claims of a mesh, before anything of it is known to hold.

use crate::fault::{Fault, Wrong, at_line};
use dcel_exchange::LinkLists;
use std::alloc::{AllocError, Global};

/// The two kinds of lines that list half edges.
#[derive(Clone, Copy)]
pub enum Lines {
    /// For each face the half edges round it, by `next`.
    Words,
    /// For each vertex the half edges out of it, by `ccw`.
    Turns,
}

impl Lines {
    fn name(self) -> &'static str {
        match self {
            Lines::Words => "words",
            Lines::Turns => "out lines",
        }
    }
}

/// What a file of words claims: that each half edge of so many edges stands once in a word, and
/// once in a turn. Half edges are below twice the number of edges.
#[derive(Drop)]
pub struct Claim {
    /// How many edges there are.
    pub edges: usize,
    /// The word of each face.
    pub words: Vec<Vec<u32>>,
    /// The turn of each vertex.
    pub turns: Vec<Vec<u32>>,
    /// The place of the outer face among those of the surface, if it is one of them.
    pub closed: Option<usize>,
}

impl Claim {
    /// Makes a claim of nothing.
    pub fn new(alloc: Global) -> Self {
        Claim {
            edges: 0,
            words: Vec::new(alloc),
            turns: Vec::new(alloc),
            closed: None,
        }
    }

    /// Returns the lists of one kind.
    pub fn lists(&self, lines: Lines) -> &[Vec<u32>] {
        match lines {
            Lines::Words => &self.words,
            Lines::Turns => &self.turns,
        }
    }

    /// Returns the line of a list: counts stand before the words, and these before the turns.
    pub fn line_of(&self, lines: Lines, place: usize) -> usize {
        let before = match lines {
            Lines::Words => 0,
            Lines::Turns => self.words.len(),
        };
        place.saturating_add(before).saturating_add(2)
    }

    /// Lists the links that the lists say. A half edge that stands in no list of a kind, or in two,
    /// is refused.
    pub fn list_links(&self, alloc: Global, links: &mut LinkLists) -> Result<(), Fault> {
        self.list_owners(alloc, Lines::Words, &mut links.face)?;
        self.list_owners(alloc, Lines::Turns, &mut links.origin)?;
        links.next = vec![in alloc; 0; links.face.len()]?;
        for word in &self.words {
            link_round(word, &mut links.next);
        }
        Ok(())
    }

    /// Lists for each half edge the list of a kind that it stands in.
    fn list_owners(&self, alloc: Global, lines: Lines, owners: &mut Vec<u32>) -> Result<(), Fault> {
        let mut noted = vec![in alloc; None; self.num_looked_for(self.lists(lines))]?;
        self.note_all(lines, &mut noted)?;
        match list_noted(&noted, owners)? {
            None => Ok(()),
            Some(half) => Err(at_line(1, Wrong::NotOnce(half, "nowhere", lines.name()))),
        }
    }

    /// Notes of each half edge the list of a kind that it stands in.
    fn note_all(&self, lines: Lines, noted: &mut [Option<u32>]) -> Result<(), Fault> {
        for (owner, list) in (0..u32::MAX).zip(self.lists(lines)) {
            if let Some(half) = note(list, owner, noted) {
                let line = self.line_of(lines, owner as usize);
                let wrong = Wrong::NotOnce(half as usize, "twice", lines.name());
                return Err(at_line(line, wrong));
            }
        }
        Ok(())
    }

    /// Counts the half edges that are looked for in the lists: all, or if the lists are too short
    /// for them one more than they have, of which one must be missing. So the memory that is taken
    /// goes by what the file has, and not by its count of edges.
    fn num_looked_for(&self, lists: &[Vec<u32>]) -> usize {
        let mut listed: usize = 0;
        for list in lists {
            listed = listed.saturating_add(list.len());
        }
        self.edges.saturating_mul(2).min(listed.saturating_add(1))
    }
}

/// Notes that these half edges stand in this list, or returns one that stands in a list already.
fn note(list: &[u32], owner: u32, noted: &mut [Option<u32>]) -> Option<u32> {
    for half in list {
        if let Some(known) = noted.get_mut(*half as usize) {
            if known.is_some() {
                return Some(*half);
            }
            *known = Some(owner);
        }
    }
    None
}

/// Lists what is noted of the half edges, and returns the first one of which nothing is.
fn list_noted(noted: &[Option<u32>], owners: &mut Vec<u32>) -> Result<Option<usize>, AllocError> {
    for (half, owner) in noted.iter().enumerate() {
        match owner {
            Some(owner) => owners.push(*owner)?,
            None => return Ok(Some(half)),
        }
    }
    Ok(None)
}

/// Has each half edge of a word lead to the one behind it, and the last to the first.
fn link_round(word: &[u32], next: &mut [u32]) {
    let Some(mut before) = word.last() else {
        return;
    };
    for half in word {
        if let Some(link) = next.get_mut(*before as usize) {
            *link = *half;
        }
        before = half;
    }
}
