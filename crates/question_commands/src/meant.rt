//! Which processes do words mean, where none means all?

ghost use Rattle.std.specs.Prelude.{◌≡◌, IfOk, MatchResult, length};
ghost use Rattle.std.specs.List.{range_with_len};
ghost use Rattle.question_commands.specs.Margins.{AreMeant, IsUnmeant};
ghost use Rattle.question_commands.specs.Names.{texts_of};

use crate::names::processes_of;
use command_streams::Fault;
use std::alloc::{AllocError, Global};
use ttp_model::Instance;

/// All processes.
fn all_of(alloc: Global, instance: &Instance) -> Result<Vec<u32>, AllocError>
    ensures { IfOk result (λ all. all.items ≡ range_with_len 0 (length instance.now.processes)) }
{
    let count = instance.processes().len();
    let mut all = Vec::new(alloc);
    for p in 0..count {
        all.push(p as u32)?;
    }
    Ok(all)
}

/// The processes that words name, or all where there are no words; or the first word that names none, or one that a word before it names.
#[tactic(auto, using(crate::proofs::Meaning::meant_all, crate::proofs::Meaning::meant_named))]
pub fn meant_by(alloc: Global, instance: &Instance, words: &[&str]) -> Result<Vec<u32>, Fault>
    ensures { MatchResult result
        (λ processes. AreMeant instance.now (texts_of words.now) processes.items)
        (IsUnmeant instance.now (texts_of words.now)) }
{
    if words.is_empty() {
        let all = all_of(alloc, instance)?;
        return Ok(all);
    }
    match processes_of(alloc, instance, words) {
        Ok(processes) => Ok(processes),
        Err(Fault::NoSuchProcess(k)) => Err(Fault::NoSuchRunner(k)),
        // Only memory is refused beside that.
        Err(_) => Err(Fault::Memory),
    }
}
