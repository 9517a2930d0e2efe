//! What holds of what is told? These functions do nothing: their contracts are laws.

ghost use Rattle.std.specs.Prelude.{◌≡◌, ℕ, Bool, Option, codes};
ghost use Rattle.ttp_model.specs.Instance.{Instance};
ghost use Rattle.certificate.specs.Cert.{Cert};
ghost use Rattle.planner.specs.found.FoundPlan.{FoundPlan};
ghost use Rattle.planner.specs.outcome.Options.{Options};
ghost use Rattle.planner.specs.outcome.Outcome.TheVariants.{Stopped};
ghost use Rattle.planner.specs.outcome.Why.{Why};
ghost use Rattle.planner.specs.Answers.{IsOutcome};
ghost use Rattle.planner.specs.Ends.{IsNear};
ghost use Rattle.solve_command.specs.Patience.{is_enough, IsEnough};
ghost use Rattle.solve_command.specs.Solved.{why_word};

/// Where a search stopped by the word `until`, its best plan takes at most as long as was asked for.
pub fn untils_are_met()
    ensures { (until best : Option ℕ) (why : Why) → why_word why (is_enough until best) ≡ codes "until"
        → IsEnough until best }
{}

/// Where a search stopped by the word `gap`, it has a plan that takes at most as many ticks more than the bound as the gap is.
pub fn gaps_are_met()
    ensures { (i : Instance) (options : Options) (gap : ℕ) (enough : Bool) (why : Why) (low : ℕ) (best : Option FoundPlan) (cert : Cert)
        → IsOutcome i options gap (Stopped why low best cert) → why_word why enough ≡ codes "gap" → IsNear gap low best }
{}
