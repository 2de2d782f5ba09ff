//! The words that a program is started with.

ghost use Rattle.std.specs.Prelude.{◌≡◌, ◌≢◌, ◌⊎◌, IfNone, IfSome, None, Some, codes, find, option_map};
ghost use Rattle.dcel_programs.specs.Given.{is_there, value_of};

use clap::builder::ValueParser;
use clap::{Arg, ArgAction, ArgMatches, Command};
use std::alloc::{AllocError, Global};

/// What a program takes. Besides its options that is a file, in place of standard input, and behind
/// it maybe another one to write.
#[derive(Clone, Copy)]
pub struct Program<'a, T> {
    /// Its name.
    pub name: &'a str,
    /// What it does.
    pub about: &'a str,
    /// What the file has.
    pub input: &'a str,
    /// The options.
    pub switches: &'a [Switch<'a>],
    /// The options of which one is chosen at most, with what they stand for.
    pub choices: &'a [Choice<'a, T>],
    /// What stands below the options in its help.
    pub details: &'a str,
    /// The file to write, if the program takes one behind the first.
    pub output: Option<Target<'a>>,
}

/// The file to write, which follows the one to read without an option.
#[derive(Clone, Copy)]
pub struct Target<'a> {
    /// What it is for.
    pub help: &'a str,
    /// The names of the options that it can't stand beside.
    pub excludes: &'a [&'a str],
}

/// An option.
#[derive(Clone, Copy)]
pub struct Switch<'a> {
    /// Its name, without hyphens.
    pub name: &'a str,
    /// Its other name, of one letter.
    pub letter: Option<char>,
    /// What it takes.
    pub takes: Takes<'a>,
    /// What it is for.
    pub help: &'a str,
}

/// What an option takes.
#[derive(Clone, Copy)]
pub enum Takes<'a> {
    /// Nothing.
    Nothing,
    /// A file.
    File,
    /// Any text, by this name in the help.
    Text(&'a str),
    /// One of these names of formats.
    Format(&'a [&'a str]),
}

/// An option of which no other one is chosen too.
#[derive(Clone, Copy)]
pub struct Choice<'a, T> {
    /// Its name, without hyphens.
    pub name: &'a str,
    /// What it stands for.
    pub means: T,
    /// The names of the other options that it can't stand beside.
    pub excludes: &'a [&'a str],
    /// What it is for.
    pub help: &'a str,
}

/// The version of the programs. The file VERSION at the top says the same.
const VERSION: &str = "0.2.0";

/// The group that all choices are in.
const CHOICES: &str = "choices";

/// The argument that is no option.
const FILE: &str = "file";

/// The second argument that is no option.
const OUT: &str = "out";

impl<'a, T> Program<'a, T> {
    /// Describes the arguments that the program takes.
    pub(crate) fn command(&self, alloc: Global) -> Result<Command<'a>, AllocError> {
        let file = Arg::new(alloc, FILE).value_name("FILE").help(self.input);
        let mut command = Command::new(alloc, self.name)
            .about(self.about)
            .version(VERSION)
            .after_help(self.details)
            .arg(file)?;
        if let Some(target) = self.output {
            command = command.arg(target.arg(alloc)?)?;
        }
        for switch in self.switches {
            command = command.arg(switch.arg(alloc))?;
        }
        for choice in self.choices {
            command = command.arg(choice.arg(alloc)?)?;
        }
        Ok(command)
    }
}

impl<'a> Target<'a> {
    fn arg(&self, alloc: Global) -> Result<Arg<'a>, AllocError> {
        Arg::new(alloc, OUT)
            .value_name("OUT")
            .help(self.help)
            .conflicts_with_all(self.excludes)
    }
}

impl<'a> Switch<'a> {
    fn arg(&self, alloc: Global) -> Arg<'a> {
        let arg = Arg::new(alloc, self.name).long(self.name).help(self.help);
        with_values(with_letter(arg, self.letter), self.takes)
    }
}

/// Gives an option its other name, if it has one.
fn with_letter(arg: Arg<'_>, letter: Option<char>) -> Arg<'_> {
    match letter {
        Some(letter) => arg.short(letter),
        None => arg,
    }
}

/// Has an option take these values.
fn with_values<'a>(arg: Arg<'a>, takes: Takes<'a>) -> Arg<'a> {
    match takes {
        Takes::Nothing => arg.action(ArgAction::SetTrue),
        Takes::File => arg.value_name("FILE"),
        Takes::Text(name) => arg.value_name(name),
        Takes::Format(names) => arg
            .value_name("FORMAT")
            .value_parser(ValueParser::Names(names)),
    }
}

impl<'a, T> Choice<'a, T> {
    fn arg(&self, alloc: Global) -> Result<Arg<'a>, AllocError> {
        Arg::new(alloc, self.name)
            .long(self.name)
            .action(ArgAction::SetTrue)
            .help(self.help)
            .conflicts_with_all(self.excludes)?
            .group(CHOICES)
    }
}

/// What a program was started with.
#[derive(Drop)]
pub struct Given<'a> {
    pub(crate) matches: ArgMatches<'a>,
}

impl<'a> Given<'a> {
    /// Returns the file to read. There is none if it is standard input.
    pub fn input(&self) -> Option<&'a str>
        ensures some { IfSome result (λ file. (value_of self.now (codes "file") ≡ Some file.now)
            × (file.now ≢ codes "-")) }
        ensures none { IfNone result ((value_of self.now (codes "file") ≡ None)
            ⊎ (value_of self.now (codes "file") ≡ Some (codes "-"))) }
    {
        self.file(FILE)
    }

    /// Returns the file to write that follows the one to read. There is none if it is - or isn't
    /// there.
    pub fn output(&self) -> Option<&'a str>
        ensures some { IfSome result (λ file. (value_of self.now (codes "out") ≡ Some file.now)
            × (file.now ≢ codes "-")) }
        ensures none { IfNone result ((value_of self.now (codes "out") ≡ None)
            ⊎ (value_of self.now (codes "out") ≡ Some (codes "-"))) }
    {
        self.file(OUT)
    }

    /// Returns the file that follows an option. There is none if it is - or the option isn't there.
    pub fn file(&self, name: &str) -> Option<&'a str>
        ensures some { IfSome result (λ file. (value_of self.now name.now ≡ Some file.now)
            × (file.now ≢ codes "-")) }
        ensures none { IfNone result ((value_of self.now name.now ≡ None)
            ⊎ (value_of self.now name.now ≡ Some (codes "-"))) }
    {
        self.value(name).filter(|file| *file != "-")
    }

    /// Returns what follows an option, if it is there.
    pub fn value(&self, name: &str) -> Option<&'a str>
        ensures { option_map (λ value. value.now) result ≡ value_of self.now name.now }
    {
        self.matches.get_str(name)
    }

    /// Returns whether an option that takes nothing is there.
    pub fn has(&self, name: &str) -> bool
        ensures { result ≡ is_there self.now name.now }
    {
        self.value(name) == Some("true")
    }

    /// Returns what the option stands for that is chosen, if one is.
    pub fn choice<T: Copy>(&self, choices: &[Choice<'_, T>]) -> Option<T>
        ensures { result ≡ option_map (λ choice. choice.means)
            (find (λ choice. is_there self.now choice.name.now) choices.now) }
    {
        let chosen = choices.iter().find(|choice| self.has(choice.name))?;
        Some(chosen.means)
    }
}
