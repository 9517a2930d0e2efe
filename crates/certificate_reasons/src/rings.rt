//! What are the processes of a circle called?

ghost use Rattle.std.specs.Prelude.{IfOk};
ghost use Rattle.sentences.specs.Lists.{AreTold};
ghost use Rattle.certificate_reasons.specs.Closers.{IsNameOf};

use std::alloc::Global;
use ttp_model::{Instance, MemoryFault};

/// The names of these processes.
pub fn names_of<'a>(
    alloc: Global,
    instance: &'a Instance,
    processes: &[u32],
) -> Result<Vec<&'a str>, MemoryFault>
    ensures { IfOk result (λ names. AreTold (IsNameOf instance.now) processes.now names.items) }
{
    let mut names = Vec::new(alloc);
    for p in processes {
        names.push(instance.process_name(*p as usize))?;
    }
    Ok(names)
}
