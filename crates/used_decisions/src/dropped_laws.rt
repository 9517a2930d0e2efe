//! What follows where no plan is left by some of the decisions? This function does nothing: its contract is a law.

ghost use Rattle.std.specs.Prelude.{ℕ, ◌∷◌, [], List, true};
ghost use Rattle.ttp_model.specs.Instance.{Instance};
ghost use Rattle.ttp_model.specs.Rules.{IsInstance};
ghost use Rattle.tt_choice.specs.Branches.{root_choice};
ghost use Rattle.tt_choice.specs.Decisions.{AreOpenDecisions, chosen};
ghost use Rattle.tt_choice.specs.Kept.{Marked, all_of, kept_of, KeepsPlaces};
ghost use Rattle.tt_infer.specs.RuledOut.{IsRuledOut};
ghost use Rattle.certificate.specs.Trees.{Trees};
ghost use Rattle.tree_check.specs.Proofs.{AreProofs};

/// Where no plan is left by leaves that use kept decisions alone, there is a tree that proves it for what the kept decisions make: without
/// the branches of which one child needs no more than what is kept, and without their other children.
pub fn ruled_out_choices_have_proofs()
    ensures { (i : Instance) (low : ℕ) (ms : List Marked) → IsInstance i → IsRuledOut i low ms
        → AreOpenDecisions i (root_choice i) (all_of ms) → KeepsPlaces true ms
        → (tree : Trees) × AreProofs i low (chosen i (kept_of ms) ∷ []) tree }
{}
