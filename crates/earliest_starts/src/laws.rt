//! What follows from the definitions alone? These functions do nothing: their contracts are laws.

ghost use Rattle.std.specs.Prelude.{◌≤◌, ℕ};
ghost use Rattle.ttp_model.specs.declared.plan.Plan.{Plan};
ghost use Rattle.ttp_model.specs.Instance.{Instance};
ghost use Rattle.ttp_model.specs.Rules.{IsInstance};
ghost use Rattle.ttp_model.specs.Plans.{IsValid, start_of};
ghost use Rattle.tt_choice.specs.Choice.{Choice, IsIn, IsChoice, IsComplete};
ghost use Rattle.earliest_starts.specs.declared.clash.Clash.{Clash};
ghost use Rattle.earliest_starts.specs.Clashes.{WaitsUntil, IsClash};
ghost use Rattle.earliest_starts.specs.Answers.{IsBarren};

/// In each valid plan of a complete choice a process waits as long as its reasons say.
pub fn reasons_hold_in_each_plan()
    ensures { (i : Instance) (c : Choice) (plan : Plan) (p time : ℕ)
        → IsInstance i → IsChoice i c → IsComplete i c → IsValid i plan → IsIn i c plan
        → WaitsUntil i c p time → time ≤ start_of plan p }
{}

/// A clash leaves no valid plan in a complete choice.
pub fn clashes_leave_no_plan()
    ensures { (i : Instance) (c : Choice) (clash : Clash)
        → IsInstance i → IsChoice i c → IsComplete i c → IsClash i c clash → IsBarren i c }
{}
