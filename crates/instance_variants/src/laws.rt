//! What holds of all instances that differ in times, ends or parts? These functions do nothing: their contracts are laws.

ghost use Rattle.std.specs.Prelude.{◌≡◌, ℕ, List};
ghost use Rattle.ttp_model.specs.declared.parts.Process.{Process};
ghost use Rattle.ttp_model.specs.declared.plan.Plan.{Plan};
ghost use Rattle.ttp_model.specs.Instance.{Instance};
ghost use Rattle.ttp_model.specs.Rules.{IsInstance};
ghost use Rattle.ttp_model.specs.Plans.{Ends, IsValid, Keeps, Releases};
ghost use Rattle.instance_variants.specs.Variants.{AreSentAlike, DifferInTimes, HasWindows, IsNoneLonger, IsVariant, KeepsTimes, Variant, own, sent_otherwise, timed, varied, with_times};

/// Rules are kept where each window is left: whatever the horizon, releases, deadlines and execution times, and whichever links and
/// messages are there.
pub fn rules_are_kept_with_windows()
    ensures { (i : Instance) (v : Variant) → IsInstance i → IsVariant i v → HasWindows (varied i v)
        → IsInstance (varied i v) }
{}

/// A plan that is valid in an instance is valid in a variant of it by its times alone, without what it says of messages that aren't
/// there. Where no process takes longer, when each starts and has to end is enough.
pub fn plans_are_valid_by_their_times()
    ensures parts { (i : Instance) (v : Variant) (plan : Plan) (rounds channels : List ℕ) → IsVariant i v
        → AreSentAlike v plan rounds channels → IsValid i plan
        → KeepsTimes (varied i v) (sent_otherwise plan rounds channels)
        → IsValid (varied i v) (sent_otherwise plan rounds channels) }
    ensures times { (i : Instance) (horizon : ℕ) (processes : List Process) (plan : Plan)
        → DifferInTimes i.processes processes → IsValid i plan → KeepsTimes (with_times i horizon processes) plan
        → IsValid (with_times i horizon processes) plan }
    ensures ends { (i : Instance) (horizon : ℕ) (processes : List Process) (plan : Plan)
        → DifferInTimes i.processes processes → IsValid i plan → IsNoneLonger i.processes processes
        → Keeps (with_times i horizon processes) plan Releases → Keeps (with_times i horizon processes) plan Ends
        → KeepsTimes (with_times i horizon processes) plan }
{}

/// All that the laws ask for can be met: other times alone make a variant, each instance is one of its own with windows, and its valid
/// plans keep its times.
pub fn instances_are_their_own_variants()
    ensures timed { (i : Instance) (horizon : ℕ) (processes : List Process) → DifferInTimes i.processes processes
        → IsVariant i (timed i horizon processes) }
    ensures same { (i : Instance) → varied i (own i) ≡ i }
    ensures differ { (i : Instance) → DifferInTimes i.processes i.processes }
    ensures windows { (i : Instance) → IsInstance i → HasWindows i }
    ensures times { (i : Instance) (plan : Plan) → IsValid i plan → KeepsTimes i plan }
{}
