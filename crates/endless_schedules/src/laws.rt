//! What follows from the definitions alone. These functions do nothing: their contracts are the laws.

ghost use Rattle.std.specs.Prelude.{◌≡◌, ◌≢◌, ◌+◌, ◌≤◌, ◌↔◌, ℕ};
ghost use Rattle.ttp_model.specs.declared.plan.Plan.{Plan};
ghost use Rattle.ttp_model.specs.Rules.{IsInstance};
ghost use Rattle.ttp_model.specs.Plans.{IsValid};
ghost use Rattle.rates_model.specs.Rates.{Rates};
ghost use Rattle.rates_model.specs.Rules.{IsRates};
ghost use Rattle.endless_schedules.specs.Unrolled.{unrolled};
ghost use Rattle.endless_schedules.specs.Clocks.{StartBehindFrames, StoreBehindFrames};
ghost use Rattle.endless_schedules.specs.Endless.{IsEndless, IsFormed, IsStoredFor, Receives};

/// A plan is valid for the instance of one cycle just where it repeats rightly for ever.
pub fn plans_repeat_as_they_are_valid()
    ensures { (rho : Rates) (plan : Plan) → IsRates rho → IsInstance (unrolled rho)
        → IsValid (unrolled rho) plan ↔ (IsFormed rho plan × IsEndless rho plan) }
{}

/// What a job reads of an earlier cycle is of the last cycle before its own, and is stored on its node.
pub fn earlier_cycles_are_stored()
    ensures { (rho : Rates) (m q c j d k : ℕ) → IsRates rho → Receives rho m q c j d k → c ≢ d
        → (d + 1 ≡ c) × IsStoredFor rho m q }
{}

/// By its own node's clock no job starts, and no store begins, before what it takes has left the bus. Of all rules this needs the one on
/// the trail alone.
pub fn jobs_start_behind_frames()
    ensures jobs { (rho : Rates) (plan : Plan) → rho.cluster.precision ≤ rho.cluster.trail → IsEndless rho plan → StartBehindFrames rho plan }
    ensures stores { (rho : Rates) (plan : Plan) → rho.cluster.precision ≤ rho.cluster.trail → IsEndless rho plan → StoreBehindFrames rho plan }
{}
