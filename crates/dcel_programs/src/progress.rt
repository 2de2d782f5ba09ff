//! How far a program is, told where someone is waiting.

ghost use Rattle.std.specs.Prelude.{◌≡◌, false, IsOk};

use std::io::{self, IsTerminal};

/// Tells on standard error how far a program is, if that is a terminal.
#[derive(Clone, Copy)]
pub struct Progress {
    is_shown: bool,
}

/// After how many things the next number is shown.
const STEP: usize = 65_536;

impl Progress {
    /// Tells it if this is a terminal.
    pub fn at(stderr: &impl IsTerminal) -> Self {
        Progress {
            is_shown: stderr.is_terminal(),
        }
    }

    /// Shows how many of all things are done, now and then until all are.
    pub fn show(self, rt: &impl Eprint, done: usize, all: usize, things: &str) -> io::Result<()>
        ensures { self.is_shown ≡ false → IsOk result }
    {
        if self.is_worth(all) && done < all && done % STEP == 0 {
            eprint!(rt; "\r{done} of {all} {things}")?;
        }
        Ok(())
    }

    /// Clears what was shown.
    pub fn clear(self, rt: &impl Eprint, all: usize) -> io::Result<()>
        ensures { self.is_shown ≡ false → IsOk result }
    {
        if self.is_worth(all) {
            eprint!(rt; "\r\x1b[K")?;
        }
        Ok(())
    }

    /// Returns whether there are so many things that somebody would wait.
    fn is_worth(self, all: usize) -> bool
        ensures { self.is_shown ≡ false → result ≡ false }
    {
        self.is_shown && all >= STEP
    }
}
