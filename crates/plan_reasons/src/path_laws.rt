//! What follows from the definitions alone. These functions do nothing: their contracts are the laws.

ghost use Rattle.std.specs.Prelude.{◌≡◌, ◌≢◌, ℕ, ◌<◌, ◌≤◌, ◌++◌, ◌∷◌, [], List, length};
ghost use Rattle.ttp_model.specs.Instance.{Instance};
ghost use Rattle.ttp_model.specs.Rules.{IsInstance};
ghost use Rattle.ttp_model.specs.Chains.{IsPathBound};
ghost use Rattle.ttp_model.specs.Delays.{HasNoPlan};
ghost use Rattle.plan_facts.specs.Longest.{AreLongest};
ghost use Rattle.plan_reasons.specs.declared.path_parts.ChainPart.{ChainPart};
ghost use Rattle.plan_reasons.specs.PathChains.{AreJoined, BeginsAtRelease, IsChain};
ghost use Rattle.plan_reasons.specs.Late.{late_parts};

/// A chain has a part, and its last process, which is told first, ends at the path bound.
pub fn chains_end_at_the_path_bound()
    ensures some { (i : Instance) → ¬ IsChain i [] }
    ensures bound { (i : Instance) (part : ChainPart) (parts : List ChainPart) → IsChain i (part ∷ parts) → IsPathBound i part.until }
{}

/// Each two neighbours of a chain are joined by an equality of ticks: one ends when the next begins, or its message is there.
pub fn parts_are_joined()
    ensures { (i : Instance) (later earlier : List ChainPart) (part before : ChainPart)
        → IsChain i (later ++ part ∷ before ∷ earlier) → AreJoined i part before }
{}

/// A chain begins at a release.
pub fn path_chains_begin_at_a_release()
    ensures { (i : Instance) (later : List ChainPart) (part : ChainPart)
        → IsChain i (later ++ part ∷ []) → BeginsAtRelease i part }
{}

/// A chain has no more parts than there are processes.
pub fn path_chains_are_short()
    ensures { (i : Instance) (parts : List ChainPart) → IsInstance i → IsChain i parts → length parts ≤ length i.processes }
{}

/// Where the path bound is past the horizon no plan is valid.
pub fn bounds_past_the_horizon_leave_no_plan()
    ensures { (i : Instance) (bound : ℕ) → IsInstance i → IsPathBound i bound → i.cluster.horizon < bound → HasNoPlan i }
{}

/// What ends too late even at the earliest does so in each plan: where there is such a process no plan is valid.
pub fn late_processes_leave_no_plan()
    ensures { (i : Instance) (ends : List ℕ) → IsInstance i → AreLongest i ends → late_parts i ends ≢ [] → HasNoPlan i }
{}

/// There is one such chain.
pub fn one_chain_is_told()
    ensures { (i : Instance) (a b : List ChainPart) → IsChain i a → IsChain i b → a ≡ b }
{}
