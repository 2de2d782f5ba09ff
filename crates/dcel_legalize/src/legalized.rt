//! How a legalization ends.

ghost use Rattle.std.specs.Prelude.{◌≡◌};
ghost use Rattle.dcel_legalize.specs.Outcome.{flips_told};

/// How [`legalize_edges`](crate::legalize_edges) ended, with the number of flips made.
#[derive(Clone, Copy, PartialEq, Eq, Debug)]
pub enum Legalized {
    /// No edge of the list, and none of a triangle that a flip changed, is left to flip.
    Done {
        /// The number of flips.
        flips: usize,
    },
    /// The greatest allowed number of flips was made, and another one is due.
    Stopped {
        /// The number of flips.
        flips: usize,
    },
    /// The list could not grow for lack of memory, and another flip is due.
    OutOfMemory {
        /// The number of flips.
        flips: usize,
    },
}

impl Legalized {
    /// Returns the number of flips made, however it ended.
    pub fn flips(self) -> usize
        ensures { result ≡ flips_told self }
    {
        match self {
            Legalized::Done { flips } => flips,
            Legalized::Stopped { flips } => flips,
            Legalized::OutOfMemory { flips } => flips,
        }
    }
}
