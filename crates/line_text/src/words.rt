//! How is a line written word by word, with a space before each word?

ghost use Rattle.std.specs.Prelude.{◌≡◌, ◌++◌, OnOk, decimal};
ghost use Rattle.line_text.specs.Words.{spaced};

use crate::number::push_number;
use std::alloc::AllocError;

/// Adds a space and a word. After an error the space may have been added.
#[tactic(auto, unfolding(crate::specs::Words::spaced))]
pub fn push_word(text: &mut Vec<u8>, word: &[u8]) -> Result<(), AllocError>
    ensures { OnOk result (text.new.items ≡ text.old.items ++ spaced word.now) }
{
    text.push(b' ')?;
    text.extend_from_slice(word)
}

/// Adds a space and a number's digits. After an error the space may have been added.
#[tactic(auto, unfolding(crate::specs::Words::spaced))]
pub fn push_number_word(text: &mut Vec<u8>, number: u64) -> Result<(), AllocError>
    ensures { OnOk result (text.new.items ≡ text.old.items ++ spaced (decimal number)) }
{
    text.push(b' ')?;
    push_number(text, number)
}
