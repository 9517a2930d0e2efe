//! What holds of the ages of chains? These functions do nothing: their contracts are laws.

ghost use Rattle.std.specs.Prelude.{◌<◌, ◌≤◌, ℕ, length};
ghost use Rattle.ttp_model.specs.declared.plan.Plan.{Plan};
ghost use Rattle.ttp_model.specs.Rules.{IsInstance};
ghost use Rattle.ttp_model.specs.Plans.{IsValid};
ghost use Rattle.rates_model.specs.Rates.{Rates, chain_at};
ghost use Rattle.rates_model.specs.Rules.{IsRates};
ghost use Rattle.endless_schedules.specs.Unrolled.{unrolled};
ghost use Rattle.endless_schedules.specs.Ages.{IsAge};

use crate::laws::plans_repeat_as_they_are_valid;

/// In a valid plan no chain has an age of 0: what its last process carries was released before that ends.
pub fn ages_take_ticks()
    ensures { (rho : Rates) (plan : Plan) (x age : ℕ) → IsRates rho → IsInstance (unrolled rho) → x < length rho.chains
        → IsValid (unrolled rho) plan → IsAge rho plan (chain_at rho x) age → 1 ≤ age }
{
    plans_repeat_as_they_are_valid();
}
