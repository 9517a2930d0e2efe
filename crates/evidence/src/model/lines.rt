//! Texts: where one is cut, and which numbers are read.

ghost use Rattle.std.specs.Prelude.{◌≡◌, ◌+◌, IfSome, length};

use line_text::{NumberWord, cut, number_word};

/// How long the parts of a text are that is cut: only the byte between them is in neither.
pub fn lengths_of_parts(byte: u8, bytes: &[u8]) -> Option<(usize, usize)>
    ensures { IfSome result (λ lengths. lengths.0 + 1 + lengths.1 ≡ length bytes.now) }
{
    let (front, rest) = cut(byte, bytes)?;
    Some((front.len(), rest.len()))
}

#[tactic(auto, unfolding(line_text::specs::Numbers::number_word))]
/// The first number that is too large for a word.
pub fn number_past_the_last() -> NumberWord
    ensures { result ≡ NumberWord.TooLarge }
{
    number_word(b"4294967296")
}
