//! What follows from the definitions alone? These functions do nothing: their contracts are laws.

ghost use Rattle.std.specs.Prelude.{◌≡◌, ◌+◌, ◌≤◌, ◌⊎◌, ◌↔◌, ℕ};
ghost use Rattle.ttp_model.specs.declared.plan.Plan.{Plan};
ghost use Rattle.ttp_model.specs.Instance.{Instance};
ghost use Rattle.ttp_model.specs.Rules.{IsInstance};
ghost use Rattle.ttp_model.specs.Plans.{IsValid};
ghost use Rattle.ttp_model.specs.Delays.{delay};
ghost use Rattle.ttp_model.specs.Moves.{Move, MoveOnChannels, MovesLead, IsLighter, IsSettled, weight};

/// Each move from a valid plan to a valid plan lowers the weight.
pub fn moves_lower_the_weight()
    ensures { (i : Instance) (plan moved : Plan)
        → IsInstance i → IsValid i plan → IsValid i moved → Move i plan moved
        → IsLighter (weight i moved) (weight i plan) }
{}

/// No move from a valid plan to a valid plan raises the delay.
pub fn moves_keep_the_delay()
    ensures { (i : Instance) (plan moved : Plan)
        → IsInstance i → IsValid i plan → IsValid i moved → Move i plan moved
        → delay i moved ≤ delay i plan }
{}

/// Weights can't fall for ever: no sequence of plans has a lighter plan at each next place.
pub fn weights_end()
    ensures { (i : Instance) (plans : ℕ → Plan)
        → ¬ ((k : ℕ) → IsLighter (weight i (plans (k + 1))) (weight i (plans k))) }
{}

/// Wherever moves lead from a valid plan, plans stay valid and end no later; and one that moves led to is lighter.
pub fn moves_lead_down()
    ensures valid { (i : Instance) (plan last : Plan)
        → IsInstance i → IsValid i plan → MovesLead i plan last → IsValid i last }
    ensures delay { (i : Instance) (plan last : Plan)
        → IsInstance i → IsValid i plan → MovesLead i plan last → delay i last ≤ delay i plan }
    ensures weight { (i : Instance) (plan last : Plan)
        → IsInstance i → IsValid i plan → MovesLead i plan last
        → (last ≡ plan) ⊎ IsLighter (weight i last) (weight i plan) }
{}

/// From each valid plan the moves lead to a settled one.
pub fn a_settled_plan_is_reached()
    ensures { (i : Instance) (plan : Plan)
        → IsInstance i → IsValid i plan
        → (settled : Plan) × MovesLead i plan settled × IsSettled i settled }
{}

/// With one channel no frame of a valid plan is turned: a plan is settled exactly where it is valid and none of the four moves that
/// leave messages on their channels gives a valid plan.
pub fn one_channel_turns_no_frame()
    ensures { (i : Instance) (plan : Plan) → i.cluster.channels ≡ 1
        → IsSettled i plan ↔ (IsValid i plan × ((moved : Plan) → MoveOnChannels i plan moved → ¬ IsValid i moved)) }
{}
