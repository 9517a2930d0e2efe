//! The law for ever on a worked example. The function does nothing: its contract is the figures.

ghost use Rattle.std.specs.Prelude.{◌≡◌};
ghost use Rattle.ttp_model.specs.Rules.{IsInstance};
ghost use Rattle.ttp_model.specs.Plans.{IsValid};
ghost use Rattle.rates_model.specs.Rules.{IsRates};
ghost use Rattle.endless_schedules.specs.Unrolled.{unrolled};
ghost use Rattle.endless_schedules.specs.Endless.{IsEndless};
ghost use Rattle.endless_schedules.specs.Worked.{late_jobs, late_pair, late_plan};

/// All that the law asks for can be met: by a cluster of two rates with a store and a chain, and a plan of its cycle.
pub fn late_pair_repeats()
    ensures rates { IsRates late_pair }
    ensures unrolled { unrolled late_pair ≡ late_jobs }
    ensures instance { IsInstance (unrolled late_pair) }
    ensures valid { IsValid (unrolled late_pair) late_plan }
    ensures endless { IsEndless late_pair late_plan }
{}
