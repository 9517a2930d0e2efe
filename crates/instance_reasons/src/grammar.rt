//! Why are bytes no TOML?

use line_text::{MOST_TOLD, cut};
use sentences::Word::Piece;
use sentences::{Member, tell, write_members};
use serde::{Described, Serialize, Serializer};
use std::alloc::{AllocError, Global};
use std::fmt::Display;
use std::{fmt, str};

/// How many lines are told of what the reader of TOML says.
const MOST_LINES: usize = 60;

/// What the reader of TOML says of bytes that are none, of which nothing is known.
#[derive(Drop)]
pub struct NotToml {
    pub said: String,
}

/// What it says of bytes.
pub fn not_toml(alloc: Global, bytes: &[u8]) -> Result<NotToml, AllocError> {
    let Ok(text) = str::from_utf8(bytes) else {
        return Ok(NotToml {
            said: String::from_str(alloc, "it is no UTF-8")?,
        });
    };
    let said = match toml::table_from_str(alloc, text) {
        Ok(_) => String::from_str(alloc, "")?,
        Err(error) => {
            if error.is_memory() {
                return Err(AllocError);
            }
            format!(in alloc; "{error}")?
        }
    };
    Ok(NotToml { said })
}

/// One of its lines.
#[derive(Clone, Copy)]
struct SaidLine<'a> {
    bytes: &'a [u8],
}

impl<'a> fmt::Display for SaidLine<'a> {
    fn fmt<W: fmt::Write>(&self, f: &mut fmt::Formatter<W>) -> fmt::Result {
        let (front, rest) = self.bytes.split_at(self.bytes.len().min(MOST_TOLD));
        tell(f, "  {}{}\n", &[Piece(front), Piece(rest)])
    }
}

/// The first line of a text.
fn first_line(text: &str) -> &str {
    let (line, _) = text.split_once('\n').unwrap_or((text, ""));
    line
}

impl Described for NotToml {}

impl Serialize for NotToml {
    fn serialize<S: Serializer>(&self, out: &mut S) -> Result<(), S::Error> {
        write_members(
            &[("said", Member::Told(first_line(self.said.as_str())))],
            out,
        )
    }
}

impl fmt::Display for NotToml {
    fn fmt<W: fmt::Write>(&self, f: &mut fmt::Formatter<W>) -> fmt::Result {
        f.write_str("The text is no TOML:\n")?;
        let mut rest = self.said.as_bytes();
        for _ in 0..MOST_LINES {
            match cut(b'\n', rest) {
                None => {
                    if rest.is_empty() {
                        return Ok(());
                    }
                    return SaidLine { bytes: rest }.fmt(f);
                }
                Some((line, behind)) => {
                    SaidLine { bytes: line }.fmt(f)?;
                    rest = behind;
                }
            }
        }
        Ok(())
    }
}
