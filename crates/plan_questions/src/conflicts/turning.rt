//! In which order are constraints to be left out?

ghost use Rattle.std.specs.Prelude.{◌≡◌};
ghost use Rattle.std.specs.List.Sorted.{IsPermutation};

use super::conflict::Conflict;
use super::mentions::Mentions;
use instance_variants::Constraint;
use std::alloc::Global;
use ttp_model::{Instance, MemoryFault};

/// How many of these constraints a certificate doesn't mention.
fn others(pending: &[Constraint], mentions: &Mentions) -> usize {
    pending
        .iter()
        .filter(|constraint| !mentions.has(**constraint))
        .count()
}

/// Lets those be left out next, all at once, that the certificate at hand doesn't mention, and one alone where it mentions all.
pub fn turn(alloc: Global, instance: &Instance, conflict: &mut Conflict) -> Result<(), MemoryFault>
    ensures kept { conflict.new.kept ≡ conflict.old.kept }
    ensures cert { conflict.new.cert ≡ conflict.old.cert }
    ensures needed { conflict.new.needed ≡ conflict.old.needed }
    ensures pending { IsPermutation conflict.old.pending.items conflict.new.pending.items }
{
    let mentions = Mentions::by(alloc, instance, &conflict.kept, &conflict.cert)?;
    conflict.stride = others(conflict.pending.as_slice(), &mentions).max(1);
    conflict
        .pending
        .sort_by_key(|constraint| !mentions.has(*constraint))?;
    Ok(())
}
