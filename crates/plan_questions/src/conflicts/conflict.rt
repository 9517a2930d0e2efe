//! What is known of constraints that leave no plan, while more and more of them are left out?

ghost use Rattle.std.specs.Prelude.{◌≡◌, [], IfOk};
ghost use Rattle.instance_variants.specs.Constraints.{listed};

use certificate::Cert;
use instance_variants::{Constraint, Constraints};
use std::alloc::Global;
use ttp_model::MemoryFault;

/// Constraints of an instance that leave no plan by themselves.
#[derive(Drop)]
pub struct Conflict {
    /// Those that are kept so far.
    pub kept: Constraints,
    /// That these leave no plan.
    pub cert: Cert,
    /// Those of them that are known to be needed, in the order in which they were found.
    pub needed: Vec<Constraint>,
    /// Those that are still to be left out, the last one first.
    pub pending: Vec<Constraint>,
    /// How many of these are left out at once next, at most.
    pub stride: usize,
}

/// Constraints that leave no plan, none of which is left out yet: one alone is the first to be.
pub fn begun(alloc: Global, kept: Constraints, cert: Cert) -> Result<Conflict, MemoryFault>
    ensures kept { IfOk result (λ conflict. conflict.kept ≡ kept) }
    ensures cert { IfOk result (λ conflict. conflict.cert ≡ cert) }
    ensures needed { IfOk result (λ conflict. conflict.needed.items ≡ []) }
    ensures pending { IfOk result (λ conflict. conflict.pending.items ≡ listed kept) }
{
    let pending = kept.list(alloc)?;
    Ok(Conflict {
        kept,
        cert,
        needed: Vec::new(alloc),
        pending,
        stride: 1,
    })
}
