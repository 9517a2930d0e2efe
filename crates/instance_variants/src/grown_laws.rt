//! What do plans say of an instance in which processes run longer? These functions do nothing: their contracts are laws.

ghost use Rattle.std.specs.Prelude.{◌≤◌, ◌↔◌, ℕ};
ghost use Rattle.ttp_model.specs.declared.plan.Plan.{Plan};
ghost use Rattle.ttp_model.specs.Instance.{Instance};
ghost use Rattle.ttp_model.specs.Rules.{IsInstance};
ghost use Rattle.ttp_model.specs.Plans.{IsValid};
ghost use Rattle.instance_variants.specs.Grown.{LeavesWindows, grown};
ghost use Rattle.instance_variants.specs.Slack.{IsWithinSlack};

/// Where processes run longer and all else of a plan stays, it stays valid just where none runs longer by more than its own slack: all may
/// use the whole of it at once. The eleven rules of a plan are asked, in the instance with these worst-case execution times.
pub fn all_slack_is_had_at_once()
    ensures { (i : Instance) (plan : Plan) (growth : ℕ → ℕ) → IsInstance i → IsValid i plan
        → IsValid (grown i growth) plan ↔ IsWithinSlack i plan growth }
{}

/// An instance in which processes run longer keeps all rules where each window is left, and so it does where a plan stays valid.
pub fn grown_instances_keep_the_rules()
    ensures rules { (i : Instance) (growth : ℕ → ℕ) → IsInstance i → LeavesWindows i growth → IsInstance (grown i growth) }
    ensures within { (i : Instance) (plan : Plan) (growth : ℕ → ℕ) → IsInstance i → IsValid i plan
        → IsWithinSlack i plan growth → LeavesWindows i growth }
{}
