//! What is a line on standard error made of? Words, with numbers and places behind them.

ghost use Rattle.std.specs.Prelude.{Some};
ghost use Rattle.std.specs.List.{flat_map};
ghost use Rattle.command_streams.specs.Wording.{place_text, spaced, words_text};

use std::fmt;

/// The words for a place, and its number behind them.
#[derive(Clone, Copy)]
pub enum PlaceWords {
    Alone(&'static str),
    Numbered(&'static str, u64),
}

impl fmt::Display for PlaceWords {
    ghost output = { λ x. Some (place_text x) };

    fn fmt<W: fmt::Write>(&self, f: &mut fmt::Formatter<W>) -> fmt::Result {
        match self {
            PlaceWords::Alone(words) => f.write_str(words),
            PlaceWords::Numbered(words, number) => write!(f, "{words}{number}"),
        }
    }
}

/// A line without its end. Its first words end with a space where something stands behind them.
#[derive(Clone, Copy)]
pub enum Words<'a> {
    Alone(&'static str),
    Number(&'static str, u64),
    /// Two numbers, with a space between.
    Two(&'static str, u128, u64),
    /// Three, with spaces between.
    Three(&'static str, u64, u64, u64),
    /// A code, and a number behind it.
    Coded(&'static str, &'static str, u64),
    At(&'static str, PlaceWords),
    /// A place, and what is named there.
    Named(&'static str, PlaceWords, &'static str),
    /// Numbers, with a space before each.
    All(&'static str, &'a [u32]),
}

#[derive(Drop)]
struct Spaced<'a>(&'a [u32]);

impl<'a> fmt::Display for Spaced<'a> {
    ghost output = { λ x. Some (flat_map spaced x.0.now) };

    fn fmt<W: fmt::Write>(&self, f: &mut fmt::Formatter<W>) -> fmt::Result {
        for n in self.0 {
            write!(f, " {n}")?;
        }
        Ok(())
    }
}

impl<'a> fmt::Display for Words<'a> {
    ghost output = { λ x. Some (words_text x) };

    fn fmt<W: fmt::Write>(&self, f: &mut fmt::Formatter<W>) -> fmt::Result {
        match self {
            Words::Alone(words) => f.write_str(words),
            Words::Number(words, n) => write!(f, "{words}{n}"),
            Words::Two(words, n, m) => write!(f, "{words}{n} {m}"),
            Words::Three(words, n, m, k) => write!(f, "{words}{n} {m} {k}"),
            Words::Coded(words, code, n) => write!(f, "{words}{code} {n}"),
            Words::At(words, place) => write!(f, "{words}{place}"),
            Words::Named(words, place, name) => write!(f, "{words}{place} {name}"),
            Words::All(words, numbers) => write!(f, "{words}{}", Spaced(numbers)),
        }
    }
}
