//! Commands that a mesh carries out or refuses by name, and queries that it answers; the reader of
//! lines, each a command or a query; the writers of replies, as lines; and the runner, which answers
//! lines.

mod command;
mod lists;
mod query;
mod reply;

pub use crate::faults::RunFault;
pub use crate::reading::{Said, read};
pub use crate::refusal::Refusal;
pub use crate::replies::{write_refusal, write_reply, write_told};
pub use crate::request::{LineMesh, Request};
pub use crate::run::run;
pub use crate::session::Session;
pub use command::{Command, MAX_LIMIT, apply};
pub use dcel_text::faults::Failed;
pub use dcel_text::output::Writer;
pub use dcel_text::sink::{LineSink, StdSink};
pub use dcel_text::source::{LineSource, StdSource};
pub use lists::{StoppedAt, apply_all};
pub use query::{Query, Told, tell};
pub use reply::{Handed, Refused, Reply};
