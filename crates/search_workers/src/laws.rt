//! What follows where a task needn't be worked? This function does nothing: its contract is a law.

ghost use Rattle.std.specs.Prelude.{ℕ, List};
ghost use Rattle.ttp_model.specs.declared.plan.Plan.{Plan};
ghost use Rattle.ttp_model.specs.Instance.{Instance};
ghost use Rattle.ttp_model.specs.Rules.{IsInstance};
ghost use Rattle.sought_plans.specs.Known.{IsSought};
ghost use Rattle.branch_tree.specs.piece.Piece.{Piece};
ghost use Rattle.branch_tree.specs.Task.{Task, choice_of, IsTask};
ghost use Rattle.search_workers.specs.Report.{IsReachedBy, IsSpared};

/// Of a task that needn't be worked no plan is left below a bound that no leaf of the pieces is below: so nothing is lost with it.
pub fn spared_tasks_have_no_plan()
    ensures { (i : Instance) (low : ℕ) (made : List Piece) (task : Task) → IsInstance i → IsTask i task
        → IsSpared i made task → IsReachedBy i low made → (plan : Plan) → ¬ IsSought i (choice_of i task) low plan }
{}
