//! How do sentences come into a text?

ghost use Rattle.std.specs.Prelude.{OnOk, string_bytes};
ghost use Rattle.sentences.specs.Shown.{Gains, IsShown};

use line_text::{put_told, told_is_printable};
use std::alloc::{AllocError, Global};
use std::fmt::Display;

/// Adds what a value displays. A byte that can't be shown is told as `\xHH`; names of an instance and pieces of a refused text that are
/// `Told` have none. Takes memory for what is added, twice. After an error some of it may have been added.
pub fn put<D: Display>(alloc: Global, text: &mut String, sentences: &D) -> Result<(), AllocError>
    ensures { OnOk result (Gains IsShown (string_bytes text.old) (string_bytes text.new)) }
{
    let words = sentences.to_string(alloc)?;
    put_shown(text, words.as_bytes())
}

/// Adds bytes, as they are shown.
fn put_shown(text: &mut String, bytes: &[u8]) -> Result<(), AllocError>
    ensures { OnOk result (Gains IsShown (string_bytes text.old) (string_bytes text.new)) }
{
    for byte in bytes {
        put_byte(text, *byte)?;
    }
    Ok(())
}

/// Adds a byte, as it is shown.
fn put_byte(text: &mut String, byte: u8) -> Result<(), AllocError>
    ensures { OnOk result (Gains IsShown (string_bytes text.old) (string_bytes text.new)) }
{
    if byte == b'\n' {
        text.push_str("\n")
    } else {
        told_is_printable();
        put_told(text, &[byte])
    }
}
