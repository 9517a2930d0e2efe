//! How does a text take the place of what a file holds?

ghost use Rattle.std.specs.Prelude.{◌≡◌, ◌≢◌, ◌⊎◌, ℕ, List, IfOk, IfSome, string_bytes, true};
ghost use Rattle.solve_command.specs.Beside.{name_beside};
ghost use Rattle.solve_command.specs.declared.folder.Made.TheVariants.{Whole};

use std::alloc::{AllocError, Global};

/// What became of a file that was to be made.
#[derive(Clone, Copy, PartialEq, Eq)]
pub enum Made {
    /// It is there, with its whole text.
    Whole,
    /// Its name was that of something already.
    Taken,
    /// It couldn't be made, or not as a whole, and isn't there.
    Failed,
}

/// Files by their names. The name of one that is made, as long as it has it, is of no other.
pub trait Folder: Drop {
    /// The file of this name holds this text, as far as the program is told.
    ghost is_written: { Self → List ℕ → List ℕ → Type 0 };

    /// It holds this text on the disk, and would after a crash of the machine.
    ghost holds: { Self → List ℕ → List ℕ → Type 0 };

    /// At some moment so far the file of this name has held these bytes, also while it was being written.
    ghost has_held: { Self → List ℕ → List ℕ → Type 0 };

    /// Makes a file of this name, where there is none, with this text.
    fn create(&mut self, name: &str, text: &[u8]) -> Made
        ensures written { result ≡ Whole → is_written self.new name.now text.now }
        ensures others { (other bytes : List ℕ) → other ≢ name.now → has_held self.new other bytes → has_held self.old other bytes };

    /// Flushes the file of this name to the disk. Where it can't, that one is taken away.
    fn flush(&mut self, name: &str) -> bool
        ensures flushed { result ≡ true → (text : List ℕ) → is_written self.old name.now text → holds self.new name.now text }
        ensures others { (other bytes : List ℕ) → other ≢ name.now → has_held self.new other bytes → has_held self.old other bytes };

    /// Gives the file of one name another name, at one moment, of whatever that was. Where it can't, that file is taken away.
    fn rename(&mut self, from: &str, to: &str) -> bool
        ensures moved { result ≡ true → (text : List ℕ) → holds self.old from.now text → holds self.new to.now text }
        ensures any_moment { (text bytes : List ℕ) → holds self.old from.now text → has_held self.new to.now bytes
            → has_held self.old to.now bytes ⊎ (bytes ≡ text) };
}

/// How many names beside a file's are tried.
pub const MOST_BESIDE: u32 = 100;

/// The name of this number beside a file's.
pub fn name_beside(alloc: Global, name: &str, number: u32) -> Result<String, AllocError>
    ensures { IfOk result (λ beside. string_bytes beside ≡ name_beside name.now number) }
{
    if number == 0 {
        format!(in alloc; "{name}.new")
    } else {
        format!(in alloc; "{name}.new.{number}")
    }
}

/// Makes a file with this text beside another one, by the first name that is free. Its name, where it could.
fn written_beside<D: Folder>(
    alloc: Global,
    folder: &mut D,
    name: &str,
    text: &[u8],
) -> Option<String>
    ensures written { IfSome result (λ beside. D.is_written folder.new (string_bytes beside) text.now) }
    ensures other { IfSome result (λ beside. string_bytes beside ≢ name.now) }
    ensures same { (bytes : List ℕ) → D.has_held folder.new name.now bytes → D.has_held folder.old name.now bytes }
{
    for number in 0..MOST_BESIDE {
        let Ok(beside) = name_beside(alloc, name, number) else {
            return None;
        };
        match folder.create(beside.as_str(), text) {
            Made::Whole => return Some(beside),
            Made::Taken => {}
            Made::Failed => return None,
        }
    }
    None
}

/// Puts a text in place of what the file of this name holds, by way of a file beside it, and says whether it could. At each moment the file
/// holds what it held before, or the whole text.
pub fn replaced<D: Folder>(alloc: Global, folder: &mut D, name: &str, text: &[u8]) -> bool
    ensures any_moment { (bytes : List ℕ) → D.has_held folder.new name.now bytes
        → D.has_held folder.old name.now bytes ⊎ (bytes ≡ text.now) }
    ensures stands { result ≡ true → D.holds folder.new name.now text.now }
{
    let Some(beside) = written_beside(alloc, folder, name, text) else {
        return false;
    };
    if !folder.flush(beside.as_str()) {
        return false;
    }
    folder.rename(beside.as_str(), name)
}
