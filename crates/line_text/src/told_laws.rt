//! What follows from the definitions alone. These functions do nothing: their contracts are the laws.

ghost use Rattle.std.specs.Prelude.{◌≡◌, ◌≤◌, ℕ, List, All, IsTrue, length};
ghost use Rattle.line_text.specs.Limits.{most_told};
ghost use Rattle.line_text.specs.Told.{IsBeginning, is_printable, told};

/// Each byte that is told is from 0x20 to 0x7e, whatever the text has.
pub fn told_is_printable()
    ensures { (bytes : List ℕ) → All (λ b. IsTrue (is_printable b)) (told bytes) }
{}

/// A piece has at most 60 bytes as it is told.
pub fn told_is_short()
    ensures { (bytes : List ℕ) → length (told bytes) ≤ most_told }
{}

/// A short piece that can be printed is told as it is.
pub fn printable_is_told_as_it_is()
    ensures { (bytes : List ℕ) → All (λ b. IsTrue (is_printable b)) bytes → length bytes ≤ most_told
        → told bytes ≡ bytes }
{}

/// What is told is all of a piece, or a beginning behind which one byte more, as it is told, would pass the limit.
pub fn told_is_a_beginning()
    ensures { (bytes : List ℕ) → IsBeginning bytes (told bytes) }
{}
