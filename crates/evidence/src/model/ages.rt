//! How old is what the chain of a worked cluster of two rates carries? The function does nothing: its contract is the figures.

ghost use Rattle.rates_model.specs.Rates.{chain_at};
ghost use Rattle.endless_schedules.specs.Worked.{late_pair, late_plan};
ghost use Rattle.endless_schedules.specs.Ages.{AreAgesWithin};

use endless_schedules::{ages_are_bounds, late_pair_repeats};

/// In its plan it is at times as old as its bound, which is 14 ticks, and never older.
pub fn just_as_old_as_its_bound()
    ensures within { AreAgesWithin late_pair late_plan (chain_at late_pair 0) 14 }
    ensures no_less { ¬ AreAgesWithin late_pair late_plan (chain_at late_pair 0) 13 }
{
    late_pair_repeats();
    ages_are_bounds();
}
