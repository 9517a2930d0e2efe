//! How is a sentence told?

use crate::counts::{Bytes, Counted, Ticks};
use line_text::Told;
use std::fmt;

/// What stands in a hole of a sentence.
#[derive(Clone, Copy)]
pub enum Word<'a> {
    /// As it is.
    Text(&'a str),
    /// A name of a refused text, as it is told.
    Told(&'a str),
    /// A piece of a refused text, as it is told.
    Piece(&'a [u8]),
    Number(u64),
    /// So many ticks.
    Ticks(u64),
    /// So many bytes.
    Bytes(u64),
    /// A number with what it counts.
    Count(Counted),
}

impl<'a> fmt::Display for Word<'a> {
    fn fmt<W: fmt::Write>(&self, f: &mut fmt::Formatter<W>) -> fmt::Result {
        match *self {
            Word::Text(text) => f.write_str(text),
            Word::Told(name) => {
                let bytes = name.as_bytes();
                write!(f, "{}", Told { bytes })
            }
            Word::Piece(bytes) => write!(f, "{}", Told { bytes }),
            Word::Number(number) => write!(f, "{number}"),
            Word::Ticks(number) => write!(f, "{}", Ticks(number)),
            Word::Bytes(number) => write!(f, "{}", Bytes(number)),
            Word::Count(counted) => write!(f, "{counted}"),
        }
    }
}

/// Tells a sentence, with a word in place of each `{}`. It is `write!` with unnamed holes, whose steps are proved once here: in a sentence
/// of `write!` they would be proved anew, which takes seconds for each.
pub fn tell<W: fmt::Write>(
    f: &mut fmt::Formatter<W>,
    sentence: &str,
    words: &[Word<'_>],
) -> fmt::Result {
    let mut rest = sentence;
    for word in words {
        let (before, behind) = rest.split_once("{}").unwrap_or((rest, ""));
        f.write_str(before)?;
        write!(f, "{word}")?;
        rest = behind;
    }
    f.write_str(rest)
}
