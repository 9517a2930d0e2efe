//! What follows from the definitions alone. These functions do nothing: their contracts are the laws.

ghost use Rattle.std.specs.Prelude.{◌*◌, ◌≤◌, ℕ};
ghost use Rattle.ttp_model.specs.declared.plan.Plan.{Plan};
ghost use Rattle.ttp_model.specs.Instance.{Instance};
ghost use Rattle.ttp_model.specs.Rules.{HasTrail, IsInstance};
ghost use Rattle.ttp_model.specs.Plans.{IsValid};
ghost use Rattle.ttp_model.specs.Slots.{round_length};
ghost use Rattle.tt_layout.specs.Cycle.{cycle_rounds};
ghost use Rattle.plan_cycles.specs.Cycles.{whole_rounds};
ghost use Rattle.plan_cycles.specs.Repeating.{RepeatsForEver, StartBehindFrames};

/// A valid plan may begin anew for ever each period that holds the rounds of its cycle, and so as soon as these are over.
pub fn plans_repeat_for_ever()
    ensures period { (i : Instance) (plan : Plan) (period : ℕ) → IsInstance i → IsValid i plan
        → cycle_rounds i plan ≤ whole_rounds period i plan
        → RepeatsForEver period (whole_rounds period i plan) i plan }
    ensures at_once { (i : Instance) (plan : Plan) → IsInstance i → IsValid i plan
        → RepeatsForEver (cycle_rounds i plan * round_length i.cluster plan.caps) (cycle_rounds i plan) i plan }
{}

/// By its own clock no process of a valid plan starts before what it reads has left the bus, however often the plan begins
/// anew. Of all rules of an instance this needs the one on the trail alone.
pub fn processes_start_behind_frames()
    ensures { (i : Instance) (plan : Plan) (period : ℕ) → HasTrail i → IsValid i plan
        → StartBehindFrames period i plan }
{}
