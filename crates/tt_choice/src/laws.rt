//! What follows from the definitions alone? These functions do nothing: their contracts are laws.

ghost use Rattle.std.specs.Prelude.{◌≡◌, ◌-◌, ◌<◌, ◌≤◌, ℕ, List, length, Bool, true, IsTrue, Some};
ghost use Rattle.ttp_model.specs.declared.plan.Plan.{Plan};
ghost use Rattle.ttp_model.specs.declared.step.Kind.{Kind};
ghost use Rattle.ttp_model.specs.declared.step.Kind.TheVariants.{Place};
ghost use Rattle.ttp_model.specs.Instance.{Instance};
ghost use Rattle.ttp_model.specs.Rules.{IsInstance};
ghost use Rattle.ttp_model.specs.Plans.{IsValid};
ghost use Rattle.tt_choice.specs.Choice.{Choice, IsChoice, IsIn, fixed_channel, is_before, least_round, greatest_round};
ghost use Rattle.tt_choice.specs.Branches.{IsOpen, children, child, root_choice};
ghost use Rattle.tt_choice.specs.declared.decision.Decision.{Decision};
ghost use Rattle.tt_choice.specs.Decisions.{choice_after, IsOpenDecision, choice_after_all, AreOpenDecisions, chosen, decision_of, reversal_of, kept_after, taken_back, IsUndone};
ghost use Rattle.tt_choice.specs.Sizes.{size_left, Halves};
ghost use Rattle.tt_choice.specs.Extremes.{IsLeastOf, IsMostOf, start_at, end_at, cap_least, cap_most, place_of, start_least, start_most, end_least, end_most};
ghost use Rattle.tt_choice.specs.Inside.{IsInside};
ghost use Rattle.tt_choice.specs.Kept.{Marked, all_of, kept_of, KeepsPlaces, last_kept, sets_least, sets_greatest, sets_order, fixes_above, fixes_below, fixes_channel, passes};

/// The search rests on this: the children of an open branch have all the valid plans of the
/// choice and no others, and each leaves less to choose. A round has to halve its range for that,
/// as the search's do; else it leaves no more than before.
pub fn children_share_the_plans()
    ensures none_lost { (i : Instance) (c : Choice) (kind : Kind) (plan : Plan)
        → IsChoice i c → IsOpen i c kind → IsValid i plan → IsIn i c plan
        → (k : ℕ) × (k < children i c kind) × IsIn i (child i c kind k) plan }
    ensures none_gained { (i : Instance) (c : Choice) (kind : Kind) (k : ℕ) (plan : Plan)
        → IsChoice i c → IsOpen i c kind → k < children i c kind
        → IsIn i (child i c kind k) plan → IsIn i c plan }
    ensures choices { (i : Instance) (c : Choice) (kind : Kind) (k : ℕ)
        → IsChoice i c → IsOpen i c kind → k < children i c kind → IsChoice i (child i c kind k) }
    ensures smaller { (i : Instance) (c : Choice) (kind : Kind) (k : ℕ)
        → IsChoice i c → IsOpen i c kind → Halves c kind
        → size_left i (child i c kind k) < size_left i c }
    ensures no_larger { (i : Instance) (c : Choice) (kind : Kind) (k : ℕ)
        → IsChoice i c → IsOpen i c kind → size_left i (child i c kind k) ≤ size_left i c }
{}

/// Each child of an open branch is the choice with one open decision more; and a choice with open decisions more is one of
/// the instance, whose plans were plans before.
pub fn decisions_lead_to_the_children()
    ensures child { (i : Instance) (c : Choice) (kind : Kind) (k : ℕ)
        → child i c kind k ≡ choice_after i c (decision_of i c kind k) }
    ensures is_open { (i : Instance) (c : Choice) (kind : Kind) (k : ℕ)
        → IsOpen i c kind → k < children i c kind → IsOpenDecision i c (decision_of i c kind k) }
    ensures choice { (i : Instance) (c : Choice) (decisions : List Decision)
        → IsChoice i c → AreOpenDecisions i c decisions → IsChoice i (choice_after_all i c decisions) }
    ensures plans { (i : Instance) (c : Choice) (decision : Decision) (plan : Plan)
        → IsChoice i c → IsOpenDecision i c decision → IsIn i (choice_after i c decision) plan → IsIn i c plan }
{}

/// A decision that is kept is taken back by what is kept of it: the choice is what it was. So whatever `undo` makes of a choice
/// after `decide` is the choice that stood before, with the decisions that it kept.
pub fn decisions_are_taken_back()
    ensures taken_back { (i : Instance) (c : Choice) (decision : Decision)
        → IsChoice i c → IsOpenDecision i c decision
        → record (taken_back (kept_after i c decision) (reversal_of c decision)) { kept = c.kept } ≡ c }
    ensures undone { (i : Instance) (c back : Choice) (decision : Decision)
        → IsChoice i c → IsOpenDecision i c decision
        → IsUndone (kept_after i c decision) back → back ≡ c }
{}

/// In a cluster of one channel each message is fixed to it, whatever is chosen.
pub fn the_only_channel_is_fixed()
    ensures { (i : Instance) (c : Choice) (m : ℕ)
        → i.cluster.channels ≡ 1 → IsChoice i c → m < length i.messages → fixed_channel c m ≡ Some 0 }
{}

/// A place has as many children as there are nodes beside the prefix.
pub fn unplaced_nodes_are_the_rest()
    ensures { (i : Instance) (c : Choice)
        → IsChoice i c → children i c Place ≡ length i.nodes - length c.prefix }
{}

/// The sums of slot times are the extremes over all orders and capacities that agree with a choice, in every round.
pub fn sums_are_the_extremes()
    ensures start_least { (i : Instance) (c : Choice) (n r : ℕ)
        → IsInstance i → IsChoice i c → n < length i.nodes
        → IsLeastOf i c (start_at i n r) (start_least i c n r) }
    ensures start_most { (i : Instance) (c : Choice) (n r : ℕ)
        → IsInstance i → IsChoice i c → n < length i.nodes
        → IsMostOf i c (start_at i n r) (start_most i c n r) }
    ensures end_least { (i : Instance) (c : Choice) (n r : ℕ)
        → IsInstance i → IsChoice i c → n < length i.nodes
        → IsLeastOf i c (end_at i n r) (end_least i c n r) }
    ensures end_most { (i : Instance) (c : Choice) (n r : ℕ)
        → IsInstance i → IsChoice i c → n < length i.nodes
        → IsMostOf i c (end_at i n r) (end_most i c n r) }
{}

/// Of decisions some are kept, of places the first. These are open by themselves, and what all make is inside of what they make; and a round,
/// an order, a capacity, the times of a slot, or whether a channel is fixed that passes a test, are the same by both where the last of the
/// decisions on it is kept.
pub fn kept_decisions_say_alike()
    ensures are_open { (i : Instance) (ms : List Marked)
        → IsInstance i → AreOpenDecisions i (root_choice i) (all_of ms) → KeepsPlaces true ms
        → AreOpenDecisions i (root_choice i) (kept_of ms) }
    ensures inside { (i : Instance) (ms : List Marked)
        → IsInstance i → AreOpenDecisions i (root_choice i) (all_of ms) → KeepsPlaces true ms
        → IsInside i (chosen i (all_of ms)) (chosen i (kept_of ms)) }
    ensures least { (i : Instance) (ms : List Marked)
        → IsInstance i → AreOpenDecisions i (root_choice i) (all_of ms) → KeepsPlaces true ms
        → (m : ℕ) → IsTrue (last_kept (sets_least m) true ms)
        → least_round (chosen i (all_of ms)) m ≡ least_round (chosen i (kept_of ms)) m }
    ensures greatest { (i : Instance) (ms : List Marked)
        → IsInstance i → AreOpenDecisions i (root_choice i) (all_of ms) → KeepsPlaces true ms
        → (m : ℕ) → IsTrue (last_kept (sets_greatest m) true ms)
        → greatest_round (chosen i (all_of ms)) m ≡ greatest_round (chosen i (kept_of ms)) m }
    ensures orders { (i : Instance) (ms : List Marked)
        → IsInstance i → AreOpenDecisions i (root_choice i) (all_of ms) → KeepsPlaces true ms
        → (p q : ℕ) → IsTrue (last_kept (sets_order p q) true ms)
        → is_before (chosen i (all_of ms)) p q ≡ is_before (chosen i (kept_of ms)) p q }
    ensures least_frame { (i : Instance) (ms : List Marked)
        → IsInstance i → AreOpenDecisions i (root_choice i) (all_of ms) → KeepsPlaces true ms
        → (n : ℕ) → IsTrue (last_kept (fixes_above n) true ms)
        → cap_least i (chosen i (all_of ms)) n ≡ cap_least i (chosen i (kept_of ms)) n }
    ensures greatest_frame { (i : Instance) (ms : List Marked)
        → IsInstance i → AreOpenDecisions i (root_choice i) (all_of ms) → KeepsPlaces true ms
        → (n : ℕ) → IsTrue (last_kept (fixes_below i n) true ms)
        → cap_most i (chosen i (all_of ms)) n ≡ cap_most i (chosen i (kept_of ms)) n }
    ensures channels { (i : Instance) (ms : List Marked)
        → IsInstance i → AreOpenDecisions i (root_choice i) (all_of ms) → KeepsPlaces true ms
        → (test : ℕ → Bool) (m : ℕ) → IsTrue (last_kept (fixes_channel test m) true ms)
        → passes test (fixed_channel (chosen i (all_of ms)) m) ≡ passes test (fixed_channel (chosen i (kept_of ms)) m) }
    ensures least_slot { (i : Instance) (ms : List Marked)
        → IsInstance i → AreOpenDecisions i (root_choice i) (all_of ms) → KeepsPlaces true ms
        → ((v : ℕ) → v < length i.nodes → IsTrue (last_kept (fixes_above v) true ms))
        → (n : ℕ) → n < length i.nodes
        → place_of n (chosen i (all_of ms)).prefix ≤ length (chosen i (kept_of ms)).prefix
        → (r : ℕ) → (start_least i (chosen i (all_of ms)) n r ≡ start_least i (chosen i (kept_of ms)) n r)
        × (end_least i (chosen i (all_of ms)) n r ≡ end_least i (chosen i (kept_of ms)) n r) }
    ensures greatest_slot { (i : Instance) (ms : List Marked)
        → IsInstance i → AreOpenDecisions i (root_choice i) (all_of ms) → KeepsPlaces true ms
        → ((v : ℕ) → v < length i.nodes → IsTrue (last_kept (fixes_below i v) true ms))
        → (n : ℕ) → n < length i.nodes
        → (place_of n (chosen i (all_of ms)).prefix < length (chosen i (all_of ms)).prefix
        → place_of n (chosen i (all_of ms)).prefix < length (chosen i (kept_of ms)).prefix)
        → (r : ℕ) → (start_most i (chosen i (all_of ms)) n r ≡ start_most i (chosen i (kept_of ms)) n r)
        × (end_most i (chosen i (all_of ms)) n r ≡ end_most i (chosen i (kept_of ms)) n r) }
{}
