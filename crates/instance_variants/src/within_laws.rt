//! What do plans say of an instance in which all has to end by a tick? These functions do nothing: their contracts are laws.

ghost use Rattle.std.specs.Prelude.{◌≡◌, ◌≤◌, ◌↔◌, ℕ};
ghost use Rattle.ttp_model.specs.declared.plan.Plan.{Plan};
ghost use Rattle.ttp_model.specs.Limits.{most_ticks};
ghost use Rattle.ttp_model.specs.Instance.{Instance};
ghost use Rattle.ttp_model.specs.Rules.{IsInstance};
ghost use Rattle.ttp_model.specs.Plans.{IsValid};
ghost use Rattle.ttp_model.specs.Delays.{delay};
ghost use Rattle.instance_variants.specs.Within.{within};

/// A plan is valid where all has to end by d exactly where it is valid and its delay is at most d.
pub fn plans_end_within()
    ensures { (i : Instance) (d : ℕ) (plan : Plan) → IsValid (within i d) plan ↔ (IsValid i plan × (delay i plan ≤ d)) }
{}

/// An instance in which all has to end by a tick keeps all rules, and it is the same where that is the latest that can be said.
pub fn instances_within_keep_the_rules()
    ensures rules { (i : Instance) (d : ℕ) → IsInstance i → 1 ≤ d → IsInstance (within i d) }
    ensures same { (i : Instance) → IsInstance i → within i most_ticks ≡ i }
{}
