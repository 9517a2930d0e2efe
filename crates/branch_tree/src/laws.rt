//! What follows from the definitions alone? These functions do nothing: their contracts are laws.

ghost use Rattle.std.specs.Prelude.{◌<◌, ◌≤◌, ℕ, length};
ghost use Rattle.ttp_model.specs.declared.plan.Plan.{Plan};
ghost use Rattle.ttp_model.specs.declared.step.Step.TheVariants.{XWindow};
ghost use Rattle.ttp_model.specs.Instance.{Instance};
ghost use Rattle.ttp_model.specs.Rules.{IsInstance};
ghost use Rattle.ttp_model.specs.Delays.{delay};
ghost use Rattle.tt_choice.specs.Choice.{Choice, IsChoice, IsComplete};
ghost use Rattle.earliest_starts.specs.declared.clash.Clash.{Clash};
ghost use Rattle.earliest_starts.specs.Clashes.{IsClash};
ghost use Rattle.earliest_starts.specs.Answers.{IsEarliest};
ghost use Rattle.branch_tree.specs.Closers.{IsClosedBy, closer_of};

/// A complete choice with a clash is closed at every goal by the clash's own closer, after steps
/// that hold of plans whether they are settled or not.
pub fn clashes_are_closed_by_their_closers()
    ensures { (i : Instance) (c : Choice) (goal : ℕ) (clash : Clash)
        → IsInstance i → IsChoice i c → IsComplete i c → IsClash i c clash
        → IsClosedBy i c goal (closer_of i clash) }
{}

/// A complete choice with a plan is closed so by the window of a process, at each goal up to the
/// delay of its earliest plan.
pub fn plans_are_closed_up_to_their_delay()
    ensures { (i : Instance) (c : Choice) (goal : ℕ) (plan : Plan)
        → IsInstance i → IsChoice i c → IsComplete i c → IsEarliest i c plan → goal ≤ delay i plan
        → (p : ℕ) × (p < length i.processes) × IsClosedBy i c goal (XWindow p) }
{}
