//! Commands and queries for the half-edge mesh of `spade_dcel`: each is tested and carried out, or
//! refused by name and without effect. Programs and other languages edit meshes with them.
//!
//! Start with [`commands`] and `apply` there. `run` reads commands and queries as lines of text
//! from a source of `dcel_text`, and writes the replies to a sink.
#![tactic(auto)]

mod answering;
mod asking;
pub mod commands;
mod faults;
mod given;
pub mod laws;
pub mod legalize;
mod reading;
mod refusal;
mod replies;
mod request;
mod run;
mod session;
