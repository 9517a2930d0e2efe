//! What is told of an option, or of a word that stands by itself?

ghost use Rattle.std.specs.Prelude.{IfSome};
ghost use Rattle.command_line.specs.Rows.{IsIn};

use command_streams::Sink;
use std::fmt;

/// Where the value of a row stands.
#[derive(Clone, Copy)]
pub enum Place {
    /// Nowhere: an option is used or not.
    Flag,
    /// Behind an option; help calls it this.
    Option(&'static str),
    /// Behind an option, in place of the word of the other name; help calls it the first.
    InsteadOf(&'static str, &'static str),
    /// By itself.
    Word,
    /// By itself, or nowhere.
    MaybeWord,
    /// By itself, and more behind it.
    Words,
    /// The same, or nowhere.
    MaybeWords,
}

/// A range of whole numbers.
#[derive(Clone, Copy)]
pub struct Range {
    pub least: u64,
    pub most: u64,
    /// Which it is where none is given, if one is then.
    pub default: Option<&'static str>,
}

/// A file that is written, and what is said where that is another file of the command.
#[derive(Clone, Copy)]
pub struct Written {
    pub sink: Sink,
    pub over_instance: &'static str,
    pub over_other: &'static str,
}

/// What a row takes.
#[derive(Clone, Copy)]
pub enum Takes {
    Nothing,
    /// The name of a file that is read, or any text.
    Text,
    /// One of these texts, the first where none is given.
    OneOf(&'static [&'static str]),
    /// One of these texts, or none.
    AnyOf(&'static [&'static str]),
    Number(Range),
    File(Written),
}

/// An option, or a word that stands by itself.
#[derive(Clone, Copy)]
pub struct Row {
    pub name: &'static str,
    pub place: Place,
    pub takes: Takes,
    pub help: &'static str,
}

impl Range {
    /// The number that a word says, where it is within the range.
    pub fn read(self, word: &str) -> Option<u64>
        ensures { IfSome result (IsIn (Takes.Number self)) }
    {
        let Ok(number) = word.parse::<u64>() else {
            return None;
        };
        if number < self.least || self.most < number {
            return None;
        }
        Some(number)
    }
}

/// As the line of a usage names it.
impl fmt::Display for Row {
    fn fmt<W: fmt::Write>(&self, f: &mut fmt::Formatter<W>) -> fmt::Result {
        let name = self.name;
        match self.place {
            Place::Flag => write!(f, "--{name}"),
            Place::Option(value) | Place::InsteadOf(value, _) => write!(f, "--{name} <{value}>"),
            Place::Word | Place::MaybeWord | Place::Words | Place::MaybeWords => {
                write!(f, "<{name}>")
            }
        }
    }
}
