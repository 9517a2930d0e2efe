//! What follows from what steps read and write? These functions do nothing: their contracts are laws.

ghost use Rattle.std.specs.Prelude.{◌≡◌, true, [], ◌++◌, ℕ, List};
ghost use Rattle.ttp_model.specs.declared.plan.Plan.{Plan};
ghost use Rattle.ttp_model.specs.declared.step.Step.{Step};
ghost use Rattle.ttp_model.specs.declared.step.Leaf.{Leaf};
ghost use Rattle.ttp_model.specs.Instance.{Instance};
ghost use Rattle.ttp_model.specs.Rules.{IsInstance};
ghost use Rattle.tt_choice.specs.declared.decision.Decision.{Decision};
ghost use Rattle.tt_choice.specs.Choice.{Choice, IsChoice};
ghost use Rattle.tt_choice.specs.Branches.{root_choice};
ghost use Rattle.tt_choice.specs.Decisions.{AreOpenDecisions, chosen};
ghost use Rattle.tt_choice.specs.Inside.{IsInside};
ghost use Rattle.tt_choice.specs.Kept.{Marked, all_of, kept_of, KeepsPlaces};
ghost use Rattle.sought_plans.specs.Known.{Known, IsSought, first_facts};
ghost use Rattle.sought_plans.specs.Conclusions.{Conclusion};
ghost use Rattle.tt_infer.specs.Table.{rule};
ghost use Rattle.tt_infer.specs.Leaves.{ClosesSharply};
ghost use Rattle.tt_infer.specs.Targets.{fact_of, target};
ghost use Rattle.tt_infer.specs.Reads.{AgreeOnReads, Gives};
ghost use Rattle.tt_infer.specs.Shared.{ReadShared};
ghost use Rattle.tt_infer.specs.Uses.{UseKept};
ghost use Rattle.tt_infer.specs.RuledOut.{IsRuledOut};

/// A step writes one fact, and gives the same where what it reads is the same: at any other choice with its goal, and whatever else is
/// known there. So a leaf each of whose steps sharpens what is known closes each wider choice too that says the same, at first, of
/// what its steps read and none of them wrote before.
pub fn steps_rest_on_what_they_read()
    ensures writes { (i : Instance) (c : Choice) (goal : ℕ) (f : Known) (step : Step) (k : Conclusion)
        → (rule i c goal f step).concludes k → fact_of k ≡ target i step }
    ensures same { (i : Instance) (c : Choice) (goal : ℕ) (f : Known) (d : Choice) (aim : ℕ) (g : Known) (step : Step) (k : Conclusion)
        → AgreeOnReads i c goal f d aim g step → Gives i c goal f step k → Gives i d aim g step k }
    ensures leaves { (i : Instance) (inner outer : Choice) (leaf : Leaf)
        → IsInstance i → IsChoice i inner → IsChoice i outer → IsInside i inner outer
        → ReadShared i inner outer leaf.goal (first_facts i inner) [] leaf.steps
        → ClosesSharply i inner leaf → ClosesSharply i outer leaf }
    ensures used { (i : Instance) (ms : List Marked) (leaf : Leaf)
        → IsInstance i → AreOpenDecisions i (root_choice i) (all_of ms) → KeepsPlaces true ms
        → UseKept i ms leaf.goal (first_facts i (chosen i (all_of ms))) [] leaf.steps
        → ClosesSharply i (chosen i (all_of ms)) leaf → ClosesSharply i (chosen i (kept_of ms)) leaf }
{}

/// No plan below a bound is left where the decisions are made that a subtree needs: so where one child of a branch needs nothing of what leads to it, none is
/// left in the other children either.
pub fn needed_decisions_rule_out()
    ensures needed { (i : Instance) (low : ℕ) (ms : List Marked) → IsInstance i
        → IsRuledOut i low ms → AreOpenDecisions i (root_choice i) (all_of ms) → KeepsPlaces true ms
        → (plan : Plan) → ¬ IsSought i (chosen i (kept_of ms)) low plan }
    ensures below { (i : Instance) (low : ℕ) (ms : List Marked) (more : List Decision) → IsInstance i
        → IsRuledOut i low ms → AreOpenDecisions i (root_choice i) (all_of ms ++ more) → KeepsPlaces true ms
        → (plan : Plan) → ¬ IsSought i (chosen i (all_of ms ++ more)) low plan }
{}
