//! What follows from the definitions alone. These functions do nothing: their contracts are the laws.

ghost use Rattle.std.specs.Prelude.{◌≡◌, ◌==◌, ◌<◌, ◌≤◌, ◌↔◌, ℕ, AllPairs, filter, length};
ghost use Rattle.std.specs.List.{range_with_len};
ghost use Rattle.std.specs.List.Sorted.{IsNonDecreasingBy, IsPermutation};
ghost use Rattle.ttp_model.specs.declared.plan.Plan.{Plan};
ghost use Rattle.ttp_model.specs.Instance.{Instance, message_at, node_of};
ghost use Rattle.ttp_model.specs.Rules.{IsInstance};
ghost use Rattle.ttp_model.specs.Plans.{EndsBefore, IsValid, start_of};
ghost use Rattle.ttp_model.specs.Lists.{EachBelow};
ghost use Rattle.instance_variants.specs.Grown.{alone, grown};
ghost use Rattle.instance_variants.specs.Slack.{IsWithinSlack, slack};
ghost use Rattle.plan_sheets.specs.Deliveries.{IsInTime, delivery_of};
ghost use Rattle.plan_sheets.specs.Order.{order_of};
ghost use Rattle.plan_sheets.specs.Slots.{slot_of};

/// Where processes run longer and all else stays, the plan stays valid just where none runs longer by more than its slack: all may use the whole
/// of it at once, and one alone no more. The instance is one too then.
pub fn slack_is_exact()
    ensures at_once { (i : Instance) (plan : Plan) (growth : ℕ → ℕ) → IsInstance i → IsValid i plan
        → IsValid (grown i growth) plan ↔ IsWithinSlack i plan growth }
    ensures alone { (i : Instance) (plan : Plan) (p ticks : ℕ) → IsInstance i → IsValid i plan → p < length i.processes
        → IsValid (grown i (alone p ticks)) plan ↔ (ticks ≤ slack i plan p) }
    ensures lawful { (i : Instance) (plan : Plan) (growth : ℕ → ℕ) → IsInstance i → IsValid i plan
        → IsWithinSlack i plan growth → IsInstance (grown i growth) }
{}

/// The rows of a node's processes are all of these, each once, by rising starts, and each ends before the next starts.
pub fn dispatch_has_each_process()
    ensures all { (i : Instance) (plan : Plan) (n : ℕ)
        → IsPermutation (filter (λ p. node_of i p == n) (range_with_len 0 (length i.processes))) (order_of i plan n) }
    ensures sorted { (i : Instance) (plan : Plan) (n : ℕ) → IsNonDecreasingBy (start_of plan) (order_of i plan n) }
    ensures apart { (i : Instance) (plan : Plan) (n : ℕ) → IsInstance i → IsValid i plan
        → AllPairs (EndsBefore i plan) (order_of i plan n) }
{}

/// No frame carries more bytes than its capacity, on any channel.
pub fn frames_are_used_within_capacity()
    ensures { (i : Instance) (plan : Plan) (r k c : ℕ) → IsValid i plan → c < i.cluster.channels
        → (slot_of i plan r k c).used ≤ (slot_of i plan r k c).capacity }
{}

/// Each message is ready before its slot begins, and has arrived at each receiver before that one needs it.
pub fn messages_are_in_time()
    ensures { (i : Instance) (plan : Plan) (m k : ℕ) → IsValid i plan → m < length i.messages
        → k < length (message_at i m).receivers → IsInTime i plan m k }
{}
