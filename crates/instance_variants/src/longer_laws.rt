//! What do plans say of an instance in which some processes run longer with a number? These functions do nothing: their contracts are laws.

ghost use Rattle.std.specs.Prelude.{◌<◌, ◌≤◌, ◌↔◌, ℕ, List, length};
ghost use Rattle.ttp_model.specs.declared.plan.Plan.{Plan};
ghost use Rattle.ttp_model.specs.Instance.{Instance};
ghost use Rattle.ttp_model.specs.Lists.{EachBelow};
ghost use Rattle.ttp_model.specs.Rules.{IsInstance};
ghost use Rattle.ttp_model.specs.Plans.{IsValid};
ghost use Rattle.ttp_model.specs.Delays.{HasNoPlan};
ghost use Rattle.instance_variants.specs.declared.scale.Scale.{Scale};
ghost use Rattle.instance_variants.specs.Ends.{AreThere};
ghost use Rattle.instance_variants.specs.Grown.{grown};
ghost use Rattle.instance_variants.specs.Longer.{HasRoom, longer, own_margin, window_margin};

/// A plan that is valid where processes run longer is valid where none of them runs longer by more, and where they run as long as they did; so
/// where a number leaves no plan, no greater one does.
pub fn shorter_runs_keep_plans()
    ensures less { (i : Instance) (plan : Plan) (less more : ℕ → ℕ) → EachBelow (length i.processes) (λ p. less p ≤ more p)
        → IsValid (grown i more) plan → IsValid (grown i less) plan }
    ensures own { (i : Instance) (plan : Plan) (more : ℕ → ℕ) → IsValid (grown i more) plan → IsValid i plan }
    ensures none { (i : Instance) (ps : List ℕ) (scale : Scale) (x y : ℕ) → x ≤ y → HasNoPlan (longer i ps scale x)
        → HasNoPlan (longer i ps scale y) }
{}

/// A valid plan stays valid where processes run longer with a number exactly where the number is at most its own margin: that of its slack.
pub fn own_margins_are_had_at_once()
    ensures { (i : Instance) (ps : List ℕ) (scale : Scale) (plan : Plan) (x top : ℕ) → IsInstance i → IsValid i plan → x ≤ top
        → IsValid (longer i ps scale x) plan ↔ (x ≤ own_margin i ps scale plan top) }
{}

/// An instance in which processes run longer keeps all rules with each number for which their windows have room, and beyond that it has no plan.
pub fn windows_bound_margins()
    ensures rules { (i : Instance) (ps : List ℕ) (scale : Scale) (x : ℕ) → IsInstance i → x ≤ window_margin i ps scale
        → IsInstance (longer i ps scale x) }
    ensures none { (i : Instance) (ps : List ℕ) (scale : Scale) (x : ℕ) → IsInstance i → AreThere i ps → 1 ≤ length ps
        → window_margin i ps scale < x → HasNoPlan (longer i ps scale x) }
    ensures room { (i : Instance) (ps : List ℕ) (scale : Scale) (x : ℕ) → IsInstance i → AreThere i ps → 1 ≤ length ps
        → window_margin i ps scale < x → ¬ EachBelow (length i.processes) (HasRoom i ps scale x) }
{}
