//! What are jobs and stores called?

ghost use Rattle.std.specs.Prelude.{◌≡◌, IfOk};
ghost use Rattle.endless_schedules.specs.Names.{numbered, stored_name};

use std::alloc::{AllocError, Global};
use ttp_model::Name;

/// A name with a number behind it; by itself where there is only one of them.
#[tactic(auto, unfolding(crate::specs::Names::numbered))]
pub fn numbered(alloc: Global, name: &Name, count: u32, k: u32) -> Result<Name, AllocError>
    ensures { IfOk result (λ made. made ≡ numbered name.now count k) }
{
    if count == 1 {
        let same = name.copy(alloc)?;
        return Ok(same);
    }
    let mut text = String::from_str(alloc, name.as_str())?;
    write!(text, "_{k}")?;
    Ok(Name::new(text))
}

/// The name of a message's store at a node.
#[tactic(auto, unfolding(crate::specs::Names::stored_name))]
pub fn stored_name(alloc: Global, message: &Name, node: &Name) -> Result<Name, AllocError>
    ensures { IfOk result (λ made. made ≡ stored_name message.now node.now) }
{
    let mut text = String::from_str(alloc, message.as_str())?;
    text.push_str("_at_")?;
    text.push_str(node.as_str())?;
    Ok(Name::new(text))
}
