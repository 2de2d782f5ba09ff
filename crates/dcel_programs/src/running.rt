//! How programs run and end.

ghost use Rattle.std.specs.Fn.{FnOnceReturnsAt};
ghost use Rattle.std.specs.Prelude.{◌≡◌, IfErr, IfOk};
ghost use Rattle.std.specs.Process.{exit_status};
ghost use Rattle.clap.specs.Words.{kind_of};
ghost use Rattle.dcel_programs.specs.Endings.{IsEndOfWords, IsEndOfWork, IsOfSystem, IsStatus, MayEnd};

use crate::arguments::{Given, Program};
use crate::fault::Fault;
use clap::ArgMatches;
use clap::error::ErrorKind;
use std::alloc::AllocError;
use std::env;
use std::fmt::{Debug, Display};
use std::process::ExitCode;
use std::rt::Env;

/// Runs a program: does its work as its words ask for, or prints the help that these ask for, or
/// what is wrong with them.
///
/// Returns status 0, also if nobody reads the output any more; 1 if the work fails or the words
/// can't be read, and says why on standard error; and 2 if the words are wrong.
pub fn run<'a, T, W: Display + Debug + Drop, F: FnOnce(&Given<'_>) -> Result<(), Fault<W>>>(
    rt: &(impl Env + Print + Eprint + AllocGlobal),
    program: &'a Program<'a, T>,
    work: F,
) -> ExitCode
    requires { F.IsAlwaysCallable work }
    ensures { (ending : _)
        × MayEnd (λ outcome. (given : _) × FnOnceReturnsAt F.FnOnce work given outcome) ending
        × IsStatus ending (exit_status result) }
{
    let ending = try_run(rt, program, work);
    end(rt, program.name, ending)
}

/// Reads the words that the program was started with, and does what they ask for.
fn try_run<'a, T, W: Display + Debug + Drop, F: FnOnce(&Given<'_>) -> Result<(), Fault<W>>>(
    rt: &(impl Env + Print + Eprint + AllocGlobal),
    program: &'a Program<'a, T>,
    work: F,
) -> Result<ExitCode, Fault<W>>
    requires { F.IsAlwaysCallable work }
    ensures { MayEnd (λ outcome. (given : _) × FnOnceReturnsAt F.FnOnce work given outcome) result }
{
    let words = words_of(rt)?;
    match program.command(rt.alloc()) {
        Ok(command) => begin(rt, command.try_get_matches_from(words.as_slice()), work),
        Err(error) => Err(Fault::OutOfMemory(error)),
    }
}

/// Reads the words that the program was started with.
fn words_of<W: Display + Debug + Drop>(
    rt: &(impl Env + AllocGlobal),
) -> Result<Vec<String>, Fault<W>>
    ensures { IfErr result IsOfSystem }
{
    match env::args(rt) {
        Ok(words) => match words.collect(rt.alloc()) {
            Ok(words) => Ok(words),
            Err(error) => Err(Fault::OutOfMemory(error)),
        },
        Err(error) => Err(Fault::System(error)),
    }
}

/// Does the work, or says why the words don't ask for it.
fn begin<W: Display + Debug + Drop, F: FnOnce(&Given<'_>) -> Result<(), Fault<W>>>(
    rt: &(impl Print + Eprint),
    parsed: Result<ArgMatches<'_>, clap::Error>,
    work: F,
) -> Result<ExitCode, Fault<W>>
    requires { F.IsAlwaysCallable work }
    ensures work { IfOk parsed.entry (λ matches. (outcome : _)
        × FnOnceReturnsAt F.FnOnce work (record { matches = matches }) outcome
        × IsEndOfWork outcome result) }
    ensures words { IfErr parsed.entry (λ message. IsEndOfWords (kind_of message) result) }
{
    match parsed {
        Ok(matches) => {
            work(&Given { matches })?;
            Ok(ExitCode::SUCCESS)
        }
        Err(message) => answer(rt, &message),
    }
}

/// Prints help, the version, or what is wrong with the words. That nobody reads the latter changes
/// nothing.
fn answer<W: Display + Debug + Drop>(
    rt: &(impl Print + Eprint),
    message: &clap::Error,
) -> Result<ExitCode, Fault<W>>
    ensures { IsEndOfWords (kind_of message.now) result }
{
    let printed = message.print(rt);
    match message.kind() {
        ErrorKind::DisplayHelp | ErrorKind::DisplayVersion => match printed {
            Ok(()) => Ok(ExitCode::SUCCESS),
            Err(error) => Err(Fault::Output(error)),
        },
        ErrorKind::OutOfMemory => Err(Fault::OutOfMemory(AllocError)),
        _ => Ok(ExitCode::from(2)),
    }
}

/// Says why a program gives up, if it does, and returns its status.
fn end<W: Display + Debug + Drop>(
    rt: &impl Eprint,
    name: &str,
    ending: Result<ExitCode, Fault<W>>,
) -> ExitCode
    ensures { IsStatus ending (exit_status result) }
{
    match ending {
        Ok(code) => code,
        Err(fault) if fault.is_end_of_reader() => ExitCode::SUCCESS,
        Err(fault) => {
            let _ = eprintln!(rt; "{name}: {fault}");
            ExitCode::FAILURE
        }
    }
}
