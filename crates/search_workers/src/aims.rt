//! At which goal does one work who has seen a delay?

ghost use Rattle.std.specs.Prelude.{◌≡◌};
ghost use Rattle.search_workers.specs.Goals.{goal_of};

use ttp_model::Instance;

/// How much better than the best plan a plan has to be for which a search looks, in ticks.
#[derive(Clone, Copy, PartialEq, Eq)]
pub struct Aims {
    /// A subtree is left as soon as no plan in it is better by more. With 0 all better ones are sought.
    pub gap: u32,
    /// A delay that no plan is below, as far as whoever sets it knows: no subtree is left for less.
    pub floor: u32,
}

impl Aims {
    /// Each better plan is sought.
    pub fn all() -> Self
        ensures { result ≡ record { gap = 0; floor = 0 } }
    {
        Aims { gap: 0, floor: 0 }
    }
}

/// The goal of who has seen a delay, in ticks: less the gap, but no less than the floor. What is past the horizon is no plan's delay, and stays.
pub fn goal_of(instance: &Instance, aims: Aims, seen: u32) -> u32
    ensures { result ≡ goal_of instance.now aims seen }
{
    if seen <= instance.cluster().horizon {
        seen.saturating_sub(aims.gap).max(seen.min(aims.floor))
    } else {
        seen
    }
}
