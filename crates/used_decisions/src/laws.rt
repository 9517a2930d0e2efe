//! What follows from the definitions, where a leaf's steps use kept decisions alone, and where a subtree is proved? These functions do
//! nothing: their contracts are laws.

ghost use Rattle.std.specs.Prelude.{ℕ, ◌++◌, List, Bool, ◌≡◌, ◌≤◌, length, None, Some, All, true, IsTrue, IsFalse, []};
ghost use Rattle.ttp_model.specs.Instance.{Instance};
ghost use Rattle.ttp_model.specs.Rules.{IsInstance};
ghost use Rattle.ttp_model.specs.declared.plan.Plan.{Plan};
ghost use Rattle.ttp_model.specs.declared.step.Leaf.{Leaf};
ghost use Rattle.sought_plans.specs.Known.{IsSought, first_facts};
ghost use Rattle.tt_infer.specs.RuledOut.{IsRuledOut};
ghost use Rattle.tt_infer.specs.Uses.{UseKept};
ghost use Rattle.tt_choice.specs.Branches.{root_choice};
ghost use Rattle.tt_choice.specs.Decisions.{AreOpenDecisions, chosen};
ghost use Rattle.tt_choice.specs.Kept.{Marked, all_of, kept_of, last_kept, KeepsPlaces};
ghost use Rattle.tt_choice.specs.declared.decision.Decision.{Decision};
ghost use Rattle.tt_infer.specs.Leaves.{ClosesSharply};
ghost use Rattle.used_decisions.specs.Marks.{KeepsLevels, IsTold, ArePlacesTold};
ghost use Rattle.used_decisions.specs.Proved.{all_kept, IsProvedBy};
ghost use Rattle.used_decisions.specs.Turns.{last_of, IsLast, placed_of, nodes_of};
ghost use Rattle.used_decisions.specs.declared.turn.Turn.{Turn};

/// Of the decisions of a path that a test picks the last one counts: none behind it is picked, and none at all where there is no
/// last one. Where its level is told, it is kept in each marking that keeps the levels told.
pub fn the_last_decision_counts()
    ensures some { (picks : Decision → Bool) (turns : List Turn) (turn : Turn)
        → last_of picks turns ≡ Some turn → IsLast picks turns turn }
    ensures none { (picks : Decision → Bool) (turns : List Turn)
        → last_of picks turns ≡ None → All (λ turn. IsFalse (picks turn.decision)) turns }
    ensures kept { (picks : Decision → Bool) (levels : List Bool) (turns : List Turn) (ms : List Marked)
        → KeepsLevels levels turns ms → IsTold levels (last_of picks turns)
        → IsTrue (last_kept picks true ms) }
{}

/// A path's decisions make the slot order of the nodes that they place. Where the levels of the first of them are told, each marking
/// that keeps the levels told keeps as many places.
pub fn told_places_are_kept()
    ensures order { (i : Instance) (levels : List Bool) (turns : List Turn) (ms : List Marked)
        → KeepsLevels levels turns ms → (chosen i (all_of ms)).prefix ≡ nodes_of (placed_of turns) }
    ensures places { (i : Instance) (levels : List Bool) (turns : List Turn) (ms : List Marked) (count : ℕ)
        → KeepsLevels levels turns ms → ArePlacesTold levels count (placed_of turns) → count ≤ length (placed_of turns)
        → count ≤ length (chosen i (kept_of ms)).prefix }
{}

/// Where the steps of a leaf use kept decisions alone, as `Reader::used_by` tells, the leaf closes by the same steps what the kept
/// decisions alone make, and no plan below a bound up to its goal is left there.
pub fn used_decisions_rule_out()
    ensures closes { (i : Instance) (ms : List Marked) (leaf : Leaf)
        → IsInstance i → AreOpenDecisions i (root_choice i) (all_of ms) → KeepsPlaces true ms
        → UseKept i ms leaf.goal (first_facts i (chosen i (all_of ms))) [] leaf.steps
        → ClosesSharply i (chosen i (all_of ms)) leaf → ClosesSharply i (chosen i (kept_of ms)) leaf }
    ensures none_left { (i : Instance) (low : ℕ) (ms : List Marked) (leaf : Leaf)
        → IsInstance i → AreOpenDecisions i (root_choice i) (all_of ms) → KeepsPlaces true ms → low ≤ leaf.goal
        → UseKept i ms leaf.goal (first_facts i (chosen i (all_of ms))) [] leaf.steps
        → ClosesSharply i (chosen i (all_of ms)) leaf → (plan : Plan) → ¬ IsSought i (chosen i (kept_of ms)) low plan }
{}

/// Where all decisions that lead to a branch are kept, its places are, from the first on: so where it is proved, no plan below the
/// bound is left there, whatever else is decided, and so none in the subtrees that aren't worked for that. What proves it by some of the decisions
/// proves it by all.
pub fn proved_subtrees_are_ruled_out()
    ensures all { (i : Instance) (low : ℕ) (used : List Bool) (decisions : List Decision)
        → IsProvedBy i low used decisions → IsRuledOut i low (all_kept decisions) }
    ensures below { (i : Instance) (low : ℕ) (decisions more : List Decision) → IsInstance i
        → IsRuledOut i low (all_kept decisions) → AreOpenDecisions i (root_choice i) (decisions ++ more)
        → (plan : Plan) → ¬ IsSought i (chosen i (decisions ++ more)) low plan }
{}
