//! Times that are told.

use crate::arguments::Arguments;
use crate::fault::Fault;
use std::rt::Clock;
use std::time::Instant;

/// Tells how much time has passed, if that is asked for.
pub fn tell_time(
    rt: &(impl Clock + Eprint),
    arguments: &Arguments,
    start: Instant,
    to_do: &str,
) -> Result<(), Fault> {
    if arguments.is_timed {
        let took = start.elapsed(rt)?;
        eprintln!(rt; "{} nanoseconds{to_do}", took.as_nanos())?;
    }
    Ok(())
}
