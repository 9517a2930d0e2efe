//! What do plans of a cut instance say? These functions do nothing: their contracts are laws.

ghost use Rattle.std.specs.Prelude.{◌≡◌, ◌+◌, ◌<◌, ◌≤◌, ◌↔◌, ℕ, List, length};
ghost use Rattle.ttp_model.specs.declared.plan.Plan.{Plan};
ghost use Rattle.ttp_model.specs.Instance.{Instance};
ghost use Rattle.ttp_model.specs.Rules.{IsInstance};
ghost use Rattle.ttp_model.specs.Plans.{IsValid};
ghost use Rattle.ttp_model.specs.Delays.{HasNoPlan, IsLeastDelay, IsLowerBound, delay};
ghost use Rattle.instance_variants.specs.Cut.{CanEndBy, cut};
ghost use Rattle.instance_variants.specs.Ends.{AreThere, EndBy, IsLeastDelayBy, IsLowerBoundBy, IsLowerEnd, last_end};

/// A plan is valid with these deadlines cut to d exactly where it is valid with these ends at most d.
pub fn cut_deadlines_end_by()
    ensures { (i : Instance) (ps : List ℕ) (d : ℕ) (plan : Plan) → AreThere i ps
        → IsValid (cut i ps d) plan ↔ (IsValid i plan × EndBy i ps plan d) }
{}

/// The last of some processes ends by d exactly where each of them does.
pub fn ends_are_by()
    ensures { (i : Instance) (ps : List ℕ) (plan : Plan) (d : ℕ) → (last_end i plan ps ≤ d) ↔ EndBy i ps plan d }
{}

/// A plan's delay is the same, whichever deadlines are cut.
pub fn delays_are_kept()
    ensures { (i : Instance) (ps : List ℕ) (d : ℕ) (plan : Plan) → delay (cut i ps d) plan ≡ delay i plan }
{}

/// Where each of these processes can end by d, the instance with their deadlines cut to d keeps all rules.
pub fn cut_instances_keep_the_rules()
    ensures { (i : Instance) (ps : List ℕ) (d : ℕ) → IsInstance i → CanEndBy i ps d → IsInstance (cut i ps d) }
{}

/// Where the cut instance has no plan, these processes end later in each.
pub fn no_plan_is_a_later_end()
    ensures { (i : Instance) (ps : List ℕ) (d : ℕ) → AreThere i ps → HasNoPlan (cut i ps d)
        → IsLowerEnd i ps (d + 1) }
{}

/// What is shown of delays in the cut instance holds of all plans that end these processes by d.
pub fn least_delays_are_kept()
    ensures least { (i : Instance) (ps : List ℕ) (d least : ℕ) → AreThere i ps → IsLeastDelay (cut i ps d) least
        → IsLeastDelayBy i ps d least }
    ensures bound { (i : Instance) (ps : List ℕ) (d low : ℕ) → AreThere i ps → IsLowerBound (cut i ps d) low
        → IsLowerBoundBy i ps d low }
{}
