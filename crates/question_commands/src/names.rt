//! Which processes do words name?

ghost use Rattle.std.specs.Prelude.{◌≡◌, ◌≢◌, ◌<◌, ℕ, length, IsFalse, IsTrue, MatchOption, MatchResult};
ghost use Rattle.std.specs.Bool.{Decides};
ghost use Rattle.ttp_model.specs.Lists.{EachBelow};
ghost use Rattle.question_commands.specs.Names.{AreNamed, HasName, IsFirst, IsNameFault, NamesAnother, texts_of, word_at};

use command_streams::Fault;
use std::alloc::Global;
use ttp_model::{Instance, Part};

/// The process of a name.
fn process_of(instance: &Instance, name: &str) -> Option<u32>
    ensures { MatchOption result
        (EachBelow (length instance.now.processes) (λ p. ¬ HasName instance.now name.now p))
        (HasName instance.now name.now) }
{
    instance.index_named(Part::Processes, name.as_bytes())
}

/// Whether no word before that of an index is the same.
fn is_first(words: &[&str], k: usize) -> bool
    requires { k < length words.now }
    ensures { Decides result (IsFirst (texts_of words.now) k) }
{
    for j in 0..k {
        if words[j].as_bytes() == words[k].as_bytes() {
            return false;
        }
    }
    true
}

/// The process that the word of an index names, where no word before it is the same.
fn another_of(instance: &Instance, words: &[&str], k: usize) -> Option<u32>
    requires { k < length words.now }
    ensures { MatchOption result
        (¬ NamesAnother instance.now (texts_of words.now) k)
        (λ p. HasName instance.now (word_at (texts_of words.now) k) p × IsFirst (texts_of words.now) k) }
{
    if is_first(words, k) {
        process_of(instance, words[k])
    } else {
        None
    }
}

/// The processes that words name, or the first word that names none, or one that a word before it names.
pub fn processes_of(alloc: Global, instance: &Instance, words: &[&str]) -> Result<Vec<u32>, Fault>
    ensures { MatchResult result
        (λ processes. AreNamed instance.now (texts_of words.now) processes.items)
        (IsNameFault instance.now (texts_of words.now)) }
{
    let mut processes = Vec::with_capacity(alloc, words.len())?;
    for k in 0..words.len() {
        match another_of(instance, words, k) {
            Some(p) => processes.push(p)?,
            None => return Err(Fault::NoSuchProcess(k)),
        }
    }
    Ok(processes)
}
