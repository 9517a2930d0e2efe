//! Which line of a text is at fault?

ghost use Rattle.std.specs.Prelude.{◌≡◌, ◌++◌, OnOk, string_bytes};
ghost use Rattle.line_text.specs.TextLines.{empty_line, full_line, line_words, numbered_line, line_or_empty};

use crate::told::put_told;
use std::alloc::AllocError;

/// The line of this number of a text, from 1; nothing where there is none.
pub fn numbered_line(text: &[u8], number: u64) -> &[u8]
    ensures { result.now ≡ numbered_line text.now number }
{
    let place = number.saturating_sub(1) as usize;
    text.split(|byte| *byte == b'\n').nth(place).unwrap_or(b"")
}

/// Adds that a line is empty.
#[tactic(auto, unfolding(crate::specs::TextLines::empty_line))]
fn put_empty_line(text: &mut String, number: u64) -> Result<(), AllocError>
    ensures { OnOk result (string_bytes text.new ≡ string_bytes text.old ++ empty_line number) }
{
    writeln!(text, "Line {number} is empty.")
}

/// Adds a line with its number.
#[tactic(auto, unfolding(crate::specs::TextLines::full_line))]
fn put_full_line(text: &mut String, number: u64, line: &[u8]) -> Result<(), AllocError>
    ensures { OnOk result (string_bytes text.new ≡ string_bytes text.old ++ full_line number line.now) }
{
    write!(text, "Line {number} is: ")?;
    put_told(text, line)?;
    text.push_str("\n")
}

/// Adds the line of this number of a text.
pub fn put_line(text: &mut String, bytes: &[u8], number: u64) -> Result<(), AllocError>
    ensures { OnOk result (string_bytes text.new ≡ string_bytes text.old ++ line_words bytes.now number) }
{
    let line = numbered_line(bytes, number);
    if line.is_empty() {
        put_empty_line(text, number)
    } else {
        put_full_line(text, number, line)
    }
}
