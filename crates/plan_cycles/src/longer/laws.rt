//! What follows from the definitions alone. These functions do nothing: their contracts are the laws.

ghost use Rattle.std.specs.Prelude.{◌≡◌, ◌≤◌, ℕ, []};
ghost use Rattle.ttp_model.specs.declared.plan.Plan.{Plan};
ghost use Rattle.ttp_model.specs.Instance.{Instance};
ghost use Rattle.ttp_model.specs.Rules.{IsInstance};
ghost use Rattle.ttp_model.specs.Plans.{IsValid};
ghost use Rattle.tt_layout.specs.Cycle.{cycle_rounds};
ghost use Rattle.medl_tables.specs.Medl.{medl_of};
ghost use Rattle.medl_tables.specs.Rows.{entries_of};
ghost use Rattle.guardian_windows.specs.Windows.{cycle_windows};
ghost use Rattle.plan_cycles.specs.Rounds.{tables_in, windows_in};

/// Of as many rounds as its cycle has, a plan's tables and windows are those of its cycle.
pub fn cycles_of_their_own_rounds()
    ensures tables { (i : Instance) (plan : Plan) → tables_in (cycle_rounds i plan) i plan ≡ medl_of i plan }
    ensures windows { (i : Instance) (plan : Plan) → windows_in (cycle_rounds i plan) i plan ≡ cycle_windows i plan }
{}

/// In a round behind the cycle of a valid plan no frame carries anything.
pub fn rounds_behind_the_cycle_are_empty()
    ensures { (i : Instance) (plan : Plan) (node n r : ℕ) → IsInstance i → IsValid i plan → cycle_rounds i plan ≤ r
        → entries_of i plan node n r ≡ [] }
{}
