//! Which names does either of two instances have?

ghost use Rattle.std.specs.Prelude.{◌≡◌, ◌++◌, IfOk, OnOk, map};
ghost use Rattle.ttp_model.specs.Names.{names_in};
ghost use Rattle.plan_changes.specs.Names.{gone_from, names_of_either};

use std::alloc::{AllocError, Global};
use ttp_model::{Instance, MemoryFault, Part};

/// Adds the names in a list of an instance.
fn push_names<'a>(
    names: &mut Vec<&'a [u8]>,
    instance: &'a Instance,
    part: Part,
) -> Result<(), AllocError>
    ensures { OnOk result (map (λ n. n.now) names.new.items ≡ map (λ n. n.now) names.old.items ++ names_in instance.now part) }
{
    for k in 0..instance.name_count(part) {
        names.push(instance.name_in(part, k))?;
    }
    Ok(())
}

/// Adds those in a list of the old instance that the new one doesn't have there.
fn push_gone<'a>(
    names: &mut Vec<&'a [u8]>,
    old: &'a Instance,
    new: &Instance,
    part: Part,
) -> Result<(), AllocError>
    ensures { OnOk result (map (λ n. n.now) names.new.items
        ≡ map (λ n. n.now) names.old.items ++ gone_from (names_in new.now part) (names_in old.now part)) }
{
    for k in 0..old.name_count(part) {
        let name = old.name_in(part, k);
        if new.index_named(part, name).is_none() {
            names.push(name)?;
        }
    }
    Ok(())
}

/// The names of either: those of the new one, and then those of the old one that are gone. Each name of the old one is looked
/// for in the new one.
pub fn names_of_either<'a>(
    alloc: Global,
    old: &'a Instance,
    new: &'a Instance,
    part: Part,
) -> Result<Vec<&'a [u8]>, MemoryFault>
    ensures { IfOk result (λ v. map (λ n. n.now) v.items ≡ names_of_either (names_in old.now part) (names_in new.now part)) }
{
    let mut names = Vec::new(alloc);
    push_names(&mut names, new, part)?;
    push_gone(&mut names, old, new, part)?;
    Ok(names)
}
