//! What follows from the definitions alone. These functions do nothing: their contracts are the laws.

ghost use Rattle.std.specs.Prelude.{◌≡◌, ◌<◌, ◌≤◌, ◌↔◌, ℕ, length};
ghost use Rattle.ttp_model.specs.declared.plan.Plan.{Plan};
ghost use Rattle.ttp_model.specs.Rules.{IsInstance};
ghost use Rattle.ttp_model.specs.Plans.{IsValid};
ghost use Rattle.rates_model.specs.Rates.{Rates, chain_at};
ghost use Rattle.rates_model.specs.Rules.{IsRates};
ghost use Rattle.endless_schedules.specs.Unrolled.{unrolled};
ghost use Rattle.endless_schedules.specs.Ages.{AreAgesWithin, IsAge};
ghost use Rattle.endless_schedules.specs.Bounds.{with_age};

/// With a lesser bound in place of that of chain `x` a plan is valid just where it is valid and no age of the chain is above the bound.
/// The instance with the lesser bound needn't keep its rules.
pub fn ages_are_bounds()
    ensures { (rho : Rates) (plan : Plan) (x most : ℕ) → IsRates rho → IsInstance (unrolled rho)
        → x < length rho.chains → most ≤ (chain_at rho x).age
        → IsValid (unrolled (with_age rho x most)) plan ↔ (IsValid (unrolled rho) plan × AreAgesWithin rho plan (chain_at rho x) most) }
{}

/// Whatever the plan, each chain has an age for ever, and no other.
pub fn chains_have_one_age()
    ensures some { (rho : Rates) (plan : Plan) (x : ℕ) → IsRates rho → x < length rho.chains → (age : ℕ) × IsAge rho plan (chain_at rho x) age }
    ensures one { (rho : Rates) (plan : Plan) (x one other : ℕ) → IsAge rho plan (chain_at rho x) one → IsAge rho plan (chain_at rho x) other → one ≡ other }
{}
