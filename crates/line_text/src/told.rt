//! How is a byte told, and how many of a piece?

ghost use Rattle.std.specs.Prelude.{◌≡◌, ◌<◌, ◌++◌, OnOk, Some, length, string_bytes};
ghost use Rattle.line_text.specs.Told.{hex_digit, is_printable, told, told_byte};

use std::alloc::AllocError;
use std::fmt;

/// How many bytes a piece has as it is told, at most.
pub const MOST_TOLD: usize = 60;

/// Whether a byte stands in a line as it is.
fn is_printable(byte: u8) -> bool
    ensures { result ≡ is_printable byte }
{
    32 <= byte && byte <= 126
}

/// How many bytes a byte has as it is told.
#[tactic(auto, unfolding(crate::specs::Told::told_byte))]
fn told_length(byte: u8) -> usize
    ensures { result ≡ length (told_byte byte) }
{
    if is_printable(byte) { 1 } else { 4 }
}

/// A hexadecimal digit, in lower case.
fn hex_digit(digit: u8) -> u8
    requires { digit < 16 }
    ensures value { result ≡ hex_digit digit }
    ensures ascii { result < 128 }
{
    if digit < 10 { 48 + digit } else { 87 + digit }
}

/// A byte as it is told.
#[derive(Clone, Copy)]
struct ToldByte {
    byte: u8,
}

impl fmt::Display for ToldByte {
    ghost output = { λ x. Some (told_byte x.byte) };

    #[tactic(auto, unfolding(crate::specs::Told::told_byte))]
    fn fmt<W: fmt::Write>(&self, f: &mut fmt::Formatter<W>) -> fmt::Result {
        let byte = self.byte;
        if is_printable(byte) {
            let same = byte as char;
            write!(f, "{same}")
        } else {
            let (high, low) = (hex_digit(byte / 16) as char, hex_digit(byte % 16) as char);
            write!(f, "\\x{high}{low}")
        }
    }
}

/// A piece of a refused text, as much of it as is told. To print it takes time in the number of bytes told.
#[derive(Clone, Copy)]
pub struct Told<'a> {
    pub bytes: &'a [u8],
}

impl<'a> fmt::Display for Told<'a> {
    ghost output = { λ x. Some (told x.bytes.now) };

    fn fmt<W: fmt::Write>(&self, f: &mut fmt::Formatter<W>) -> fmt::Result {
        let bytes = self.bytes;
        let mut room = MOST_TOLD;
        for byte in bytes {
            let length = told_length(*byte);
            if room < length {
                return Ok(());
            }
            let byte = ToldByte { byte: *byte };
            write!(f, "{byte}")?;
            room -= length;
        }
        Ok(())
    }
}

/// Adds as much of a piece of a text as is told of it. After an error some of it may have been added.
pub fn put_told(text: &mut String, bytes: &[u8]) -> Result<(), AllocError>
    ensures { OnOk result (string_bytes text.new ≡ string_bytes text.old ++ told bytes.now) }
{
    let told = Told { bytes };
    write!(text, "{told}")
}
