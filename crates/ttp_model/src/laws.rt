//! What follows from the definitions alone. These functions do nothing: their contracts are the laws.

ghost use Rattle.std.specs.Prelude.{◌≡◌, ◌+◌, ◌<◌, ◌≤◌, ◌↔◌, ℕ, All, Contains, List, length, slice_index};
ghost use Rattle.ttp_model.specs.declared.limits.TheConstants.{BOTH_CHANNELS, MOST_BYTES};
ghost use Rattle.ttp_model.specs.declared.fault.PlanFault.{PlanFault};
ghost use Rattle.ttp_model.specs.Lists.{EachBelow};
ghost use Rattle.ttp_model.specs.Instance.{Instance};
ghost use Rattle.ttp_model.specs.Rules.{IsInstance};
ghost use Rattle.ttp_model.specs.Plans.{IsValid, IsNodeOrder, end_of, load_on};
ghost use Rattle.ttp_model.specs.Delays.{IsLowerBound, HasNoPlan, delay};
ghost use Rattle.ttp_model.specs.Chains.{ChainEnds, IsPathBound};
ghost use Rattle.ttp_model.specs.Faults.{IsFirstFault};
ghost use Rattle.ttp_model.specs.declared.plan.Plan.{Plan};

/// The delay is at least each end, and some process ends just then.
pub fn delay_is_an_end()
    ensures each { (i : Instance) (plan : Plan)
        → EachBelow (length i.processes) (λ p. end_of i plan p ≤ delay i plan) }
    ensures last { (i : Instance) (plan : Plan) → 0 < length i.processes
        → (p : ℕ) × (p < length i.processes) × (end_of i plan p ≡ delay i plan) }
{}

/// In a valid plan no frame of any node and round is overfull on any channel, whether a message is in it or not.
pub fn frames_fit()
    ensures { (i : Instance) (plan : Plan) (n r c : ℕ) → IsValid i plan → c < i.cluster.channels
        → load_on i plan n r c ≤ slice_index plan.caps n }
{}

/// To say that every valid plan ends after the horizon is to say that there is none.
pub fn lower_bound_past_horizon()
    ensures { (i : Instance) → IsInstance i → IsLowerBound i (i.cluster.horizon + 1) ↔ HasNoPlan i }
{}

/// An order of nodes has each node.
pub fn every_node_has_a_slot()
    ensures { (count : ℕ) (order : List ℕ) (n : ℕ) → IsNodeOrder count order → n < count
        → Contains order n }
{}

/// The numbers of a valid plan are small: nodes in the order, options as capacities, starts and rounds below the
/// horizon, channels up to the number that stands for both. So each fits 32 bits.
pub fn valid_numbers_are_small()
    ensures order { (i : Instance) (plan : Plan) → IsValid i plan → All (λ n. n < length i.nodes) plan.order }
    ensures capacities { (i : Instance) (plan : Plan) → IsInstance i → IsValid i plan
        → All (λ capacity. capacity ≤ MOST_BYTES) plan.caps }
    ensures starts { (i : Instance) (plan : Plan) → IsInstance i → IsValid i plan
        → All (λ start. start < i.cluster.horizon) plan.starts }
    ensures rounds { (i : Instance) (plan : Plan) → IsInstance i → IsValid i plan
        → All (λ round. round < i.cluster.horizon) plan.rounds }
    ensures channels { (i : Instance) (plan : Plan) → IsValid i plan
        → All (λ channel. channel ≤ BOTH_CHANNELS) plan.channels }
    ensures delay { (i : Instance) (plan : Plan) → IsInstance i → IsValid i plan
        → delay i plan ≤ i.cluster.horizon }
{}

/// No chain of links and messages ends before its last process does in any valid plan, so the path bound is a
/// lower bound.
pub fn path_bound_is_lower_bound()
    ensures chains { (i : Instance) (plan : Plan) (p time : ℕ) → IsInstance i → IsValid i plan
        → ChainEnds i p time → time ≤ end_of i plan p }
    ensures bound { (i : Instance) (bound : ℕ) → IsInstance i → IsPathBound i bound → IsLowerBound i bound }
    ensures one { (i : Instance) (a b : ℕ) → IsPathBound i a → IsPathBound i b → a ≡ b }
{}

/// Each instance has a path bound: chains pass no process twice, so there are finitely many.
pub fn each_instance_has_a_path_bound()
    ensures { (i : Instance) → IsInstance i → (bound : ℕ) × IsPathBound i bound }
{}

/// A plan that has a fault is not valid.
pub fn faulty_plans_are_not_valid()
    ensures { (i : Instance) (plan : Plan) (fault : PlanFault) → IsFirstFault i plan fault → ¬ IsValid i plan }
{}
