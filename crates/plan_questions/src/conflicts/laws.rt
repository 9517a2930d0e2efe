//! What follows from the definitions alone? These functions do nothing: their contracts are laws.

ghost use Rattle.std.specs.Prelude.{List};
ghost use Rattle.ttp_model.specs.Instance.{Instance};
ghost use Rattle.ttp_model.specs.Rules.{IsInstance};
ghost use Rattle.ttp_model.specs.Delays.{HasNoPlan};
ghost use Rattle.certificate.specs.Cert.{Cert};
ghost use Rattle.planner.specs.outcome.Options.{Options};
ghost use Rattle.instance_variants.specs.declared.kept.constraints.Constraint.{Constraint};
ghost use Rattle.instance_variants.specs.declared.kept.constraints.Constraints.{Constraints};
ghost use Rattle.plan_questions.specs.Conflicts.{IsConflict};

/// Where some constraints of an instance leave no plan by themselves, it has none.
pub fn conflicts_leave_no_plan()
    ensures { (i : Instance) (options : Options) (K : Constraints) (cert : Cert) (needed : List Constraint) → IsInstance i
        → IsConflict i options K cert needed → HasNoPlan i }
{}
