//! What holds of all texts: what is put together is cut there again, and numbers are one word.

ghost use Rattle.std.specs.Prelude.{◌≡◌, ◌<◌, ◌∷◌, ◌++◌, ◌^◌, ◌↔◌, ℕ, List, decimal};
ghost use Rattle.line_text.specs.Parts.{cut, after_keyword, Lacks};
ghost use Rattle.line_text.specs.Numbers.{number_word};

use crate::number::NumberWord;

/// Two texts that are joined by a byte which the first one lacks are cut there.
pub fn joined_text_is_cut_there()
    ensures { (byte : ℕ) (front rest : List ℕ) → Lacks byte front →
        cut byte (front ++ byte ∷ rest) ≡ Some (front, rest) }
{}

/// A keyword in front of a text is left off.
pub fn keyword_is_left_off()
    ensures { (keyword rest : List ℕ) → after_keyword keyword (keyword ++ rest) ≡ Some rest }
{}

/// A word is read as a number exactly where it is that number's spelling, and the number fits.
pub fn number_word_is_the_spelling()
    ensures { (word : List ℕ) (n : ℕ) →
        number_word word ≡ NumberWord.Number n ↔ ((word ≡ decimal n) × (n < 2 ^ 32)) }
{}

/// No byte that comes before the digits, as a space or a line's end, stands in a number.
pub fn numbers_lack_other_bytes()
    ensures { (byte n : ℕ) → byte < 48 → n < 2 ^ 64 → Lacks byte (decimal n) }
{}
