//! What follows from the definitions alone? These functions do nothing: their contracts are laws.

ghost use Rattle.std.specs.Prelude.{◌≡◌, All, Contains, List, true, false};
ghost use Rattle.ttp_model.specs.declared.plan.Plan.{Plan};
ghost use Rattle.ttp_model.specs.Instance.{Instance};
ghost use Rattle.ttp_model.specs.Rules.{IsInstance};
ghost use Rattle.ttp_model.specs.Plans.{IsValid};
ghost use Rattle.ttp_model.specs.Delays.{HasNoPlan};
ghost use Rattle.instance_variants.specs.declared.kept.constraints.Constraint.{Constraint};
ghost use Rattle.instance_variants.specs.declared.kept.constraints.Constraints.{Constraints};
ghost use Rattle.instance_variants.specs.Constraints.{all_of, keeps, listed, without, without_all};
ghost use Rattle.instance_variants.specs.Only.{only, plan_with};
ghost use Rattle.instance_variants.specs.Fewer.{AreAmong, HasPlan};

/// What some of the constraints of an instance make of it keeps the rules of instances; and all of them make it itself.
pub fn kept_constraints_make_instances()
    ensures rules { (i : Instance) (K : Constraints) → IsInstance i → IsInstance (only i K) }
    ensures all { (i : Instance) → IsInstance i → only i (all_of i) ≡ i }
{}

/// What is left once a constraint is left out is among what there was, and where there was more, more is left.
pub fn what_is_left_is_fewer()
    ensures one { (K : Constraints) (c : Constraint) → AreAmong (without K c) K }
    ensures many { (K : Constraints) (cs : List Constraint) → AreAmong (without_all K cs) K }
    ensures more { (fewer more : Constraints) (c : Constraint) → AreAmong fewer more
        → AreAmong (without fewer c) (without more c) }
    ensures gone { (K : Constraints) (cs : List Constraint) → All (λ c. keeps (without_all K cs) c ≡ false) cs }
{}

/// Just the constraints that are kept are listed, and each is kept among more of them.
pub fn kept_constraints_are_listed()
    ensures listed { (K : Constraints) → All (λ c. keeps K c ≡ true) (listed K) }
    ensures kept { (K : Constraints) (c : Constraint) → keeps K c ≡ true → Contains (listed K) c }
    ensures among { (fewer more : Constraints) (c : Constraint) → AreAmong fewer more
        → keeps fewer c ≡ true → keeps more c ≡ true }
{}

/// A valid plan, without what it says of the messages that are left out, is valid by fewer constraints. So where there is a plan by some
/// constraints there is one by fewer of them; and where some leave no plan, there is none, and none by more of them.
pub fn fewer_constraints_keep_the_plans()
    ensures plans { (i : Instance) (K : Constraints) (plan : Plan) → IsInstance i → IsValid i plan
        → IsValid (only i K) (plan_with i K plan) }
    ensures none { (i : Instance) (K : Constraints) → IsInstance i → HasNoPlan (only i K) → HasNoPlan i }
    ensures fewer { (i : Instance) (fewer more : Constraints) → IsInstance i → AreAmong fewer more
        → HasPlan (only i more) → HasPlan (only i fewer) }
    ensures more { (i : Instance) (fewer more : Constraints) → IsInstance i → AreAmong fewer more
        → HasNoPlan (only i fewer) → HasNoPlan (only i more) }
{}
