//! Which number does a word spell, and how is a number spelled?

ghost use Rattle.std.specs.Prelude.{◌≡◌, ◌++◌, ◌^◌, min, OnOk, OnErr, decimal};
ghost use Rattle.std.specs.List.{list_all};
ghost use Rattle.std.specs.Char.{is_ascii_digit};
ghost use Rattle.line_text.specs.Numbers.{number_word, value_after};

use itoa::Buffer;
use std::alloc::AllocError;

/// The first number that is too large for a word.
const LIMIT: u64 = 1 << 32;

/// What a word is as a number.
#[derive(Clone, Copy, PartialEq, Eq)]
pub enum NumberWord {
    /// The word is empty, has another byte than a digit, or a zero in front of other digits.
    Malformed,
    /// The word is a number above 4,294,967,295.
    TooLarge,
    /// The word is this number's one spelling.
    Number(u32),
}

fn are_digits(word: &[u8]) -> bool
    ensures { result ≡ list_all is_ascii_digit word.now }
{
    word.iter().all(|b| b.is_ascii_digit())
}

fn value_of(word: &[u8]) -> u64
    ensures { result ≡ min (value_after 0 word.now) (2 ^ 32) }
{
    let mut value = 0u64;
    for digit in word {
        value = (value * 10 + u64::from(digit.saturating_sub(b'0'))).min(LIMIT);
    }
    value
}

/// The number that a word spells: decimal, without a sign or leading zeros. Linear in the word,
/// which may be of any length.
#[tactic(auto, unfolding(crate::specs::Numbers::number_word))]
pub fn number_word(word: &[u8]) -> NumberWord
    ensures { result ≡ number_word word.now }
{
    if word.is_empty() || !are_digits(word) || (word[0] == b'0' && word.len() != 1) {
        return NumberWord::Malformed;
    }
    let value = value_of(word);
    if value >= LIMIT {
        return NumberWord::TooLarge;
    }
    NumberWord::Number(value as u32)
}

/// Writes the number's spelling at the end of the text. After an error the text is as it was.
pub fn push_number(text: &mut Vec<u8>, number: u64) -> Result<(), AllocError>
    ensures ok { OnOk result (text.new.items ≡ text.old.items ++ decimal number) }
    ensures err { OnErr result (text.new.items ≡ text.old.items) }
{
    let mut buffer = Buffer::new();
    text.extend_from_slice(buffer.format(number).as_bytes())
}
