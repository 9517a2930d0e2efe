//! What holds of all answers? These functions do nothing: their contracts are laws.

ghost use Rattle.std.specs.Prelude.{ℕ};
ghost use Rattle.ttp_model.specs.declared.plan.Plan.{Plan};
ghost use Rattle.certificate.specs.Cert.{Cert};
ghost use Rattle.certificate.specs.Versions.{Allows};
ghost use Rattle.planner.specs.outcome.Options.{Options};
ghost use Rattle.rates_model.specs.Rates.{Rates};
ghost use Rattle.plan_questions.specs.LeastAges.{IsShownLeast};

/// The version of an answer's certificate allows all its lines, so it has a text.
pub fn ages_have_certificate_texts()
    ensures { (rho : Rates) (x : ℕ) (options : Options) (age : ℕ) (plan : Plan) (cert : Cert)
        → IsShownLeast rho x options age plan cert → Allows cert.version cert.tree }
{}
