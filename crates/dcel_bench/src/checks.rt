//! Comparisons and conditions that make a test fail.
//!
//! A function that compares has no clause. What a test compares only to see it, the prover needn't
//! carry along.

use std::fmt::{Debug, Display};
use std::test::Fail;

/// Fails the test unless the condition holds, which is known from there on.
#[macro_export]
macro_rules! require {
    ($condition:expr) => {
        if !$condition {
            return Err(std::test::Fail::new(concat!(
                "this doesn't hold: ",
                stringify!($condition)
            )));
        }
    };
}

/// Fails the test if the two values differ, naming both and what they are.
pub fn same<T: PartialEq + Debug + Drop, W: Display + Drop>(
    found: T,
    wanted: T,
    what: W,
) -> Result<(), Fail> {
    if found == wanted {
        return Ok(());
    }
    Err(Fail::new(format_args!("{what}: {found:?}, and not {wanted:?}")))
}

/// Fails the test unless this is so.
pub fn holds<W: Display + Drop>(is_so: bool, what: W) -> Result<(), Fail> {
    if is_so {
        return Ok(());
    }
    Err(Fail::new(what))
}
