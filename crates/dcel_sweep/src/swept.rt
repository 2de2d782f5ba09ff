//! What was swept, for each function.

use std::alloc::{AllocError, Global};

/// A function, how many rows call it, and how many requests for memory it was refused.
type Function = (&'static str, u64, u64);

/// The functions that were swept so far, in the order of their first rows.
#[derive(Drop)]
pub struct Swept {
    functions: Vec<Function>,
}

impl Swept {
    /// Returns one of no function.
    pub fn new(alloc: Global) -> Swept {
        Swept {
            functions: Vec::new(alloc),
        }
    }

    /// Returns the functions.
    pub fn functions(&self) -> &[Function] {
        self.functions.as_slice()
    }

    /// Adds a row, each of whose requests was refused.
    pub fn note(&mut self, name: &'static str, refused: u64) -> Result<(), AllocError> {
        for (function, rows, requests) in self.functions.iter_mut() {
            if *function == name {
                *rows = rows.saturating_add(1);
                *requests = requests.saturating_add(refused);
                return Ok(());
            }
        }
        self.functions.push((name, 1, refused))?;
        Ok(())
    }
}
