//! What holds after any events? These functions do nothing: their contracts are laws.

ghost use Rattle.std.specs.Prelude.{◌≡◌, ℕ, List, ◌++◌, ◌≤◌, Result, map};
ghost use Rattle.ttp_model.specs.Instance.{Instance};
ghost use Rattle.ttp_model.specs.Rules.{IsInstance};
ghost use Rattle.search_trees.specs.Pieces.{AreRight};
ghost use Rattle.search_trees.specs.Account.{IsWholeTree};
ghost use Rattle.search_core.specs.declared.event.Event.{Event};
ghost use Rattle.search_core.specs.declared.reply.Illegal.{Illegal};
ghost use Rattle.search_core.specs.World.{World, start, worker_at, open_names, all_pieces};
ghost use Rattle.search_core.specs.Bounds.{IsTop, AreHonest, Bounds};
ghost use Rattle.search_core.specs.Ledger.{Done, Goes, IsAccount};
ghost use Rattle.search_core.specs.Steps.{Runs};

/// After any events, legal or not, the names of all pieces and the open names are those of a tree.
pub fn names_are_a_tree()
    ensures { (workers top : ℕ) (events : List Event) (result : Result Unit Illegal) (last : World)
        → 1 ≤ workers → Runs (start workers top) events result last
        → IsWholeTree (all_pieces last) (open_names last) }
{}

/// After any events each worker's account balances: by name, what it popped or stole is what its
/// pieces are and what it still holds or left, and what stands below its pieces is what it pushed, and
/// what it still holds or left. The events that a run does are the first of those that it is given.
pub fn accounts_balance()
    ensures balance { (workers top : ℕ) (dones : List Done) (last : World) (w : ℕ)
        → Goes (start workers top) dones last → IsAccount w dones (worker_at last w) }
    ensures done { (m : World) (events : List Event) (result : Result Unit Illegal) (last : World)
        → Runs m events result last
        → (dones : List Done) × ((rest : List Event) × (Goes m dones last × (map (λ d. d.event) dones ++ rest ≡ events))) }
{}

/// After any events of which each is honest when it comes, the bounds hold: no leaf has a goal below
/// the known delay, that is a delay or what the search began with, and what is below it stands open.
pub fn bounds_hold()
    ensures { (i : Instance) (workers top : ℕ) (events : List Event) (result : Result Unit Illegal) (last : World)
        → IsInstance i → 1 ≤ workers → IsTop i top
        → AreHonest i (start workers top) events → Runs (start workers top) events result last
        → Bounds i top last }
{}

/// After any events of which each is honest when it comes, each piece is right for the choice at its name.
pub fn pieces_are_right()
    ensures { (i : Instance) (workers top : ℕ) (events : List Event) (result : Result Unit Illegal) (last : World)
        → 1 ≤ workers → AreHonest i (start workers top) events → Runs (start workers top) events result last
        → AreRight i (all_pieces last) }
{}
