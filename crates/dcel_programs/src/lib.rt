//! What the programs share: their arguments, the texts that they read and write, progress, and how
//! they end. Start with [`run`] and [`Program`]. It uses no other crate of the project.
#![tactic(auto)]

mod arguments;
mod fault;
mod input;
mod output;
mod progress;
mod running;

pub use arguments::{Choice, Given, Program, Switch, Takes, Target};
pub use fault::Fault;
pub use input::{NumberedLines, before_comment, numbered_lines, read_text, report_wait};
pub use output::{Text, write_out};
pub use progress::Progress;
pub use running::run;
