//! What follows from the definitions alone. These functions do nothing: their contracts are the laws.

ghost use Rattle.std.specs.Prelude.{◌≡◌, ◌+◌, ◌≤◌, ◌++◌, ◌∷◌, [], List, length};
ghost use Rattle.ttp_model.specs.declared.plan.Plan.{Plan};
ghost use Rattle.ttp_model.specs.Instance.{Instance};
ghost use Rattle.ttp_model.specs.Rules.{IsInstance};
ghost use Rattle.ttp_model.specs.Plans.{IsValid};
ghost use Rattle.ttp_model.specs.Moves.{IsSettled};
ghost use Rattle.ttp_model.specs.Delays.{delay};
ghost use Rattle.plan_reasons.specs.declared.plan_links.ChainLink.{ChainLink};
ghost use Rattle.plan_reasons.specs.PlanChains.{AreJoined, IsChain, StartsAtRelease, until_of};

/// A chain has a link, and the last of a plan, which is told first, ends at the plan's delay.
pub fn chains_end_at_the_delay()
    ensures some { (i : Instance) (plan : Plan) → ¬ IsChain i plan [] }
    ensures delay { (i : Instance) (plan : Plan) (link : ChainLink) (links : List ChainLink)
        → IsChain i plan (link ∷ links) → until_of link ≡ delay i plan }
{}

/// Each two neighbours of a chain are joined: by an equality of ticks, or by the least round that begins in time and isn't too full.
pub fn links_are_joined()
    ensures { (i : Instance) (plan : Plan) (later earlier : List ChainLink) (link before : ChainLink)
        → IsChain i plan (later ++ link ∷ before ∷ earlier) → AreJoined i plan link before }
{}

/// The chain of a settled plan begins at a release.
pub fn plan_chains_begin_at_a_release()
    ensures { (i : Instance) (plan : Plan) (later : List ChainLink) (link : ChainLink)
        → IsInstance i → IsSettled i plan → IsChain i plan (later ++ link ∷ []) → StartsAtRelease i link }
{}

/// A chain of a valid plan has no more links than there are processes and messages.
pub fn plan_chains_are_short()
    ensures { (i : Instance) (plan : Plan) (links : List ChainLink)
        → IsInstance i → IsValid i plan → IsChain i plan links → length links ≤ length i.processes + length i.messages }
{}
