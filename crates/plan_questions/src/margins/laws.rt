//! What holds of all answers? These functions do nothing: their contracts are laws.

ghost use Rattle.std.specs.Prelude.{ℕ, List};
ghost use Rattle.ttp_model.specs.declared.plan.Plan.{Plan};
ghost use Rattle.ttp_model.specs.Instance.{Instance};
ghost use Rattle.certificate.specs.Cert.{Cert};
ghost use Rattle.certificate.specs.Versions.{Allows};
ghost use Rattle.planner.specs.outcome.Options.{Options};
ghost use Rattle.instance_variants.specs.declared.scale.Scale.{Scale};
ghost use Rattle.plan_questions.specs.MarginAnswers.{IsGreatest};

/// The version of an answer's certificate allows all its lines, so it has a text.
pub fn margins_have_certificate_texts()
    ensures { (i : Instance) (ps : List ℕ) (scale : Scale) (options : Options) (x : ℕ) (plan : Plan) (cert : Cert)
        → IsGreatest i ps scale options x plan cert → Allows cert.version cert.tree }
{}
