//! What do plans say of an instance in which all may end later? These functions do nothing: their contracts are laws.

ghost use Rattle.std.specs.Prelude.{◌≡◌, ◌≤◌, ℕ};
ghost use Rattle.ttp_model.specs.declared.plan.Plan.{Plan};
ghost use Rattle.ttp_model.specs.Limits.{most_ticks};
ghost use Rattle.ttp_model.specs.Instance.{Instance};
ghost use Rattle.ttp_model.specs.Rules.{IsInstance};
ghost use Rattle.ttp_model.specs.Plans.{IsValid};
ghost use Rattle.ttp_model.specs.Delays.{HasNoPlan};
ghost use Rattle.instance_variants.specs.Later.{later};
ghost use Rattle.instance_variants.specs.Lateness.{lateness};

/// An instance in which all may end later keeps all rules; and where nothing is put off it is the same.
pub fn later_ends_keep_the_rules()
    ensures rules { (i : Instance) (x : ℕ) → IsInstance i → IsInstance (later i x) }
    ensures same { (i : Instance) → IsInstance i → later i 0 ≡ i }
{}

/// A plan that is valid where all ends are x ticks later is valid where they are more ticks later; so where there is none, there is
/// none where they are fewer ticks later.
pub fn later_ends_keep_plans()
    ensures plan { (i : Instance) (plan : Plan) (x y : ℕ) → x ≤ y → IsValid (later i x) plan → IsValid (later i y) plan }
    ensures none { (i : Instance) (x y : ℕ) → x ≤ y → HasNoPlan (later i y) → HasNoPlan (later i x) }
{}

/// A plan that is valid with later ends is late by no more, and it is valid where all ends are later by just its own lateness.
pub fn lateness_is_enough()
    ensures most { (i : Instance) (plan : Plan) (x : ℕ) → IsValid (later i x) plan → lateness i plan ≤ x }
    ensures enough { (i : Instance) (plan : Plan) (x : ℕ) → IsValid (later i x) plan → IsValid (later i (lateness i plan)) plan }
{}

/// Where there is no plan with all ends as late as can be said, there is none however late.
pub fn no_plan_however_late()
    ensures { (i : Instance) (x : ℕ) → HasNoPlan (later i most_ticks) → HasNoPlan (later i x) }
{}
