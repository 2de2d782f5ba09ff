//! Random numbers that are the same on every machine.

ghost use Rattle.std.specs.Prelude.{◌<◌, ◌≤◌, ◌^◌};

/// The first state of a workload whose own number is 0.
const SEED: u64 = 20_240_607;

const MULTIPLIER: u64 = 6_364_136_223_846_793_005;

const INCREMENT: u64 = 1_442_695_040_888_963_407;

/// A linear congruential generator with the constants of D. E. Knuth's MMIX, and with a state of 64
/// bits, of which the upper 31 make a number.
#[derive(Drop)]
pub struct Random {
    state: u64,
}

impl Random {
    /// Makes the generator of a workload. Each workload has a seed of its own, `own`.
    pub fn new(own: u64) -> Self {
        Random {
            state: SEED.wrapping_add(own),
        }
    }

    /// Returns the next number, reduced below `count`. Asks for a count from 1 to 2^32.
    #[inline]
    pub fn below(&mut self, count: usize) -> usize
        requires some { 0 < count }
        requires few { count ≤ 2 ^ 32 }
        ensures { result < count }
    {
        self.state = self.state.wrapping_mul(MULTIPLIER).wrapping_add(INCREMENT);
        let drawn = self.state >> 33;
        ((drawn * count as u64) >> 31) as usize
    }
}
