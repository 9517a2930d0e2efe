//! How does `clap` know the command line?

use crate::rows::{Place, Row, Takes};
use crate::table::{COMMANDS, CommandRow, row_of};
use crate::words::VERSION;
use clap::{Arg, ArgAction, Command};
use std::alloc::{AllocError, Global};

/// An option that is used or not.
fn flag<'a>(arg: Arg<'a>, name: &'a str) -> Arg<'a> {
    arg.long(name).action(ArgAction::SetTrue)
}

/// An option with a value, which help calls this.
fn option<'a>(arg: Arg<'a>, name: &'a str, value: &'a str) -> Arg<'a> {
    arg.long(name).value_name(value)
}

/// A word, and more behind it.
fn words<'a>(arg: Arg<'a>) -> Arg<'a> {
    arg.required(true).num_args(1..)
}

/// The same, or nothing.
fn maybe_words<'a>(arg: Arg<'a>) -> Arg<'a> {
    arg.num_args(0..)
}

/// An option or a word, where its value stands.
fn placed<'a>(arg: Arg<'a>, row: &'static Row) -> Result<Arg<'a>, AllocError> {
    match row.place {
        Place::Flag => Ok(flag(arg, row.name)),
        Place::Option(value) => Ok(option(arg, row.name, value)),
        Place::InsteadOf(value, word) => option(arg, row.name, value).conflicts_with(word),
        Place::Word => Ok(arg.required(true)),
        Place::MaybeWord => Ok(arg),
        Place::Words => Ok(words(arg)),
        Place::MaybeWords => Ok(maybe_words(arg)),
    }
}

/// The same, where it isn't given.
fn by_default<'a>(arg: Arg<'a>, default: Option<&'a str>) -> Arg<'a> {
    match default {
        Some(default) => arg.default_value(default),
        None => arg,
    }
}

/// The same with what it takes. What a number is, and which file may be written, isn't left to `clap`.
fn taking<'a>(arg: Arg<'a>, takes: Takes) -> Arg<'a> {
    match takes {
        Takes::Nothing | Takes::Text | Takes::File(_) => arg,
        Takes::OneOf(texts) => by_default(arg.value_parser(texts), texts.first().copied()),
        Takes::AnyOf(texts) => arg.value_parser(texts),
        Takes::Number(range) => by_default(arg.allow_negative_numbers(true), range.default),
    }
}

/// A command with its words and options.
pub fn command_of<'a>(alloc: Global, row: &'static CommandRow) -> Result<Command<'a>, AllocError> {
    let mut command = Command::new(alloc, row.name).about(row.about);
    if let Some(after) = row.after {
        command = command.after_help(after);
    }
    for row in row.rows {
        let arg = placed(Arg::new(alloc, row.name).help(row.help), row)?;
        command = command.arg(taking(arg, row.takes))?;
    }
    Ok(command)
}

/// The command line that is understood.
pub fn program<'a>(alloc: Global) -> Result<Command<'a>, AllocError> {
    let mut program = Command::new(alloc, "ttplan")
        .about("Plans time-triggered clusters, and checks their plans")
        .version(VERSION)
        .after_help(
            "Without words it reads an instance, a line `%%` and a plan from standard input, and verifies the plan.",
        );
    for asks in COMMANDS {
        program = program.subcommand(command_of(alloc, row_of(*asks))?)?;
    }
    Ok(program)
}
