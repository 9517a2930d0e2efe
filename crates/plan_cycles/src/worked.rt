//! The laws on a worked example. These functions do nothing: their contracts are the figures.

ghost use Rattle.std.specs.Prelude.{◌≡◌, ℕ};
ghost use Rattle.ttp_model.specs.Rules.{IsInstance, Trail};
ghost use Rattle.ttp_model.specs.Plans.{IsValid};
ghost use Rattle.ttp_model.specs.Slots.{round_length};
ghost use Rattle.tt_layout.specs.Cycle.{cycle_rounds};
ghost use Rattle.plan_cycles.specs.Cycles.{whole_rounds};
ghost use Rattle.plan_cycles.specs.Repeating.{RepeatsForEver, StartBehindFrames};
ghost use Rattle.plan_cycles.specs.Worked.{BreaksAlone, pair_plan, pair_with};

/// All that the laws ask for can be met: a plan of two rounds of ten ticks begins anew each 25 ticks.
pub fn pair_that_repeats()
    ensures instance { IsInstance (pair_with 1) }
    ensures valid { IsValid (pair_with 1) (pair_plan 10) }
    ensures round { round_length (pair_with 1).cluster (pair_plan 10).caps ≡ 10 }
    ensures cycle { cycle_rounds (pair_with 1) (pair_plan 10) ≡ 2 }
    ensures held { whole_rounds 25 (pair_with 1) (pair_plan 10) ≡ 2 }
    ensures repeats { RepeatsForEver 25 2 (pair_with 1) (pair_plan 10) }
    ensures behind { StartBehindFrames 25 (pair_with 1) (pair_plan 10) }
{}

/// Why the trail is no less than the precision: where it is, and all other rules are kept, a process of a valid plan may start
/// by its own clock while its message is still on the bus.
pub fn trail_below_the_precision()
    ensures alone { BreaksAlone (pair_with 0) Trail }
    ensures valid { IsValid (pair_with 0) (pair_plan 8) }
    ensures early { (period : ℕ) → ¬ StartBehindFrames period (pair_with 0) (pair_plan 8) }
{}
