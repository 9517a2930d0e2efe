//! What follows from the definitions alone? These functions do nothing: their contracts are laws.

ghost use Rattle.std.specs.Prelude.{◌≡◌, ◌+◌, ◌<◌, ◌≤◌, IsTrue, ℕ, length};
ghost use Rattle.ttp_model.specs.declared.plan.Plan.{Plan};
ghost use Rattle.ttp_model.specs.Instance.{Instance};
ghost use Rattle.ttp_model.specs.Rules.{IsInstance};
ghost use Rattle.ttp_model.specs.Plans.{IsValid, round_of, start_of};
ghost use Rattle.ttp_model.specs.Twins.{AreSilentTwins, AreTwins};
ghost use Rattle.ttp_model.specs.Moves.{exchanged, leads_turned, sent, started, swapped, turned, weight};
ghost use Rattle.tt_moves.specs.Earlier.{CanBeSent, CanStart};

/// A plan stays valid where a process starts earlier, at a time by which all is over that it waits
/// for.
pub fn earlier_starts_stay_valid()
    ensures { (i : Instance) (plan : Plan) (p time : ℕ)
        → IsInstance i → IsValid i plan → p < length i.processes → time ≤ start_of plan p
        → CanStart i plan p time → IsValid i (started plan p time) }
{}

/// A plan stays valid where a message is sent in an earlier round, for which it is ready and which
/// has room for it.
pub fn earlier_rounds_stay_valid()
    ensures { (i : Instance) (plan : Plan) (m r : ℕ)
        → IsValid i plan → m < length i.messages → r ≤ round_of plan m
        → CanBeSent i plan m r → IsValid i (sent plan m r) }
{}

/// A plan stays valid where twins exchange their starts.
pub fn exchanged_twins_stay_valid()
    ensures { (i : Instance) (plan : Plan) (p q : ℕ)
        → IsInstance i → IsValid i plan → AreTwins i p q → IsValid i (swapped plan p q) }
{}

/// A plan stays valid where silent twins exchange their positions and capacities: no slot but
/// theirs begins or ends at another time.
pub fn exchanged_silent_twins_stay_valid()
    ensures { (i : Instance) (plan : Plan) (u v : ℕ)
        → IsValid i plan → AreSilentTwins i u v → IsValid i (exchanged plan u v) }
{}

/// A plan stays valid where the channels of a turned frame are exchanged: both halves of a frame have the same capacity.
pub fn turned_frames_stay_valid()
    ensures { (i : Instance) (plan : Plan) (m : ℕ)
        → IsInstance i → IsValid i plan → m < length i.messages → IsTrue (leads_turned i plan m)
        → IsValid i (turned i plan m) }
{}

/// To exchange the channels of a turned frame lowers the third part of a plan's weight by one, and leaves the first two.
pub fn turned_frames_weigh_one_less()
    ensures times { (i : Instance) (plan : Plan) (m : ℕ) → (weight i (turned i plan m)).times ≡ (weight i plan).times }
    ensures twins { (i : Instance) (plan : Plan) (m : ℕ) → (weight i (turned i plan m)).twins ≡ (weight i plan).twins }
    ensures frames { (i : Instance) (plan : Plan) (m : ℕ)
        → m < length i.messages → IsTrue (leads_turned i plan m)
        → (weight i (turned i plan m)).frames + 1 ≡ (weight i plan).frames }
{}
