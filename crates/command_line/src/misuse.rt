//! Why do the values of a subcommand ask for nothing?

ghost use Rattle.std.specs.Prelude.{◌≡◌};
ghost use Rattle.command_line.specs.declared.misuse.Misuse.TheVariants.{Memory};

use crate::commands::command_of;
use crate::rows::{Range, Row, Takes};
use crate::table::{Asks, CommandRow, row_of};
use clap::error::ErrorKind;
use clap::{Command, Error};
use command_streams::{Sink, Source};
use std::alloc::{AllocError, Global};

/// Why the values of a subcommand ask for nothing.
#[derive(Clone, Copy)]
pub enum Misuse<'a> {
    /// When one is missing, which `clap` has seen to.
    Missing,
    /// When the value of this row is no number within its range.
    Number(&'static Row, Range, &'a str),
    /// When a file would be written by this row over another one of the command; this is said of it.
    Overwriting(&'static Row, &'static str, &'a str),
    /// When the value of this row doesn't go with another one; this is said of it.
    Unserved(&'static Row, &'static str, &'a str),
    /// When memory was wanted, and refused.
    Memory,
}

impl From<AllocError> for Misuse<'_> {
    ghost from_gives = { λ _ e. e ≡ Memory };

    fn from(_error: AllocError) -> Self {
        Misuse::Memory
    }
}

/// What is said of a word that is no number within the range of a row.
fn number_text(alloc: Global, row: &Row, range: Range, word: &str) -> Result<String, AllocError> {
    let (least, most) = (range.least, range.most);
    format!(in alloc;
        "invalid value '{word}' for '{row}': a whole number from {least} to {most} is expected"
    )
}

/// What is said of a word that a row doesn't take.
fn refused_text(alloc: Global, row: &Row, why: &str, word: &str) -> Result<String, AllocError> {
    format!(in alloc; "invalid value '{word}' for '{row}': {why}")
}

/// A command by the name by which it is called.
fn called(alloc: Global, command: &'static CommandRow) -> Result<Command<'static>, AllocError> {
    let name = command.name;
    let whole = format!(in alloc; "ttplan {name}")?;
    command_of(alloc, command)?.bin_name(whole.as_str())
}

/// What is said of a command's words, as an error of `clap`.
fn error_of(alloc: Global, command: &'static CommandRow, text: &str) -> Result<Error, AllocError> {
    let mut command = called(alloc, command)?;
    command.error(ErrorKind::ValueValidation, text)
}

impl Misuse<'_> {
    /// What is said of it, in the words of `clap`.
    fn text(self, alloc: Global) -> Result<String, AllocError> {
        match self {
            Misuse::Missing => String::from_str(
                alloc,
                "the subcommand is unknown, or lacks a value",
            ),
            Misuse::Number(row, range, word) => number_text(alloc, row, range, word),
            Misuse::Overwriting(row, why, word) | Misuse::Unserved(row, why, word) => {
                refused_text(alloc, row, why, word)
            }
            Misuse::Memory => Err(AllocError),
        }
    }

    /// It as an error of `clap`, of this command.
    pub fn error(self, alloc: Global, command: &'static CommandRow) -> Result<Error, AllocError> {
        let text = self.text(alloc)?;
        error_of(alloc, command, text.as_str())
    }
}

/// The row by which a command writes to a sink, and what is said where that is its instance, or another file of it.
fn written_by(
    command: &CommandRow,
    sink: Sink,
    over: Option<Source>,
) -> Option<(&'static Row, &'static str)> {
    for row in command.rows {
        match row.takes {
            Takes::File(written) if written.sink == sink => {
                let why = match over {
                    Some(Source::Instance) => written.over_instance,
                    Some(Source::Plan) | Some(Source::Certificate) | None => written.over_other,
                };
                return Some((*row, why));
            }
            _ => {}
        }
    }
    None
}

/// Why a command is refused that would write to this sink, by this name, over another file that its words name, by a link, or by a way
/// through other folders: one that it reads as this, or one that it writes besides.
pub fn written_over(
    alloc: Global,
    asks: Asks,
    sink: Sink,
    file: &str,
    over: Option<Source>,
) -> Error {
    let command = row_of(asks);
    let misuse = match written_by(command, sink, over) {
        Some((row, why)) => Misuse::Overwriting(row, why, file),
        None => Misuse::Missing,
    };
    match misuse.error(alloc, command) {
        Ok(error) => error,
        Err(error) => Error::from(error),
    }
}
