//! How is what was read told?

ghost use Rattle.std.specs.Prelude.{◌≡◌, ◌⊎◌, OnOk};
ghost use Rattle.tt_infer.specs.Added.{AddsFacts};

use crate::fact::Fact;
use ttp_model::MemoryFault;

/// Adds a fact.
#[tactic(auto, using(crate::proofs::AddedFacts::adds_one))]
pub fn add(reads: &mut Vec<Fact>, fact: Fact) -> Result<(), MemoryFault>
    ensures { OnOk result (AddsFacts (λ other. other ≡ fact) reads.old.items reads.new.items) }
{
    reads.push(fact)?;
    Ok(())
}

/// Adds two.
#[tactic(auto, using(crate::proofs::AddedFacts::adds_both))]
pub fn add_two(reads: &mut Vec<Fact>, one: Fact, other: Fact) -> Result<(), MemoryFault>
    ensures { OnOk result (AddsFacts (λ fact. (fact ≡ one) ⊎ (fact ≡ other))
        reads.old.items reads.new.items) }
{
    add(reads, one)?;
    add(reads, other)
}
