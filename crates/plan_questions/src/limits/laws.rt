//! What holds of all answers? These functions do nothing: their contracts are laws.

ghost use Rattle.std.specs.Prelude.{ℕ, List};
ghost use Rattle.ttp_model.specs.Instance.{Instance};
ghost use Rattle.ttp_model.specs.Rules.{IsInstance};
ghost use Rattle.certificate.specs.Versions.{Allows};
ghost use Rattle.planner.specs.outcome.Options.{Options};
ghost use Rattle.instance_variants.specs.Ends.{AreThere};
ghost use Rattle.plan_questions.specs.declared.limits.limit.EndLimit.{EndLimit};
ghost use Rattle.plan_questions.specs.EndAnswers.{cert_of, IsEndLimit};

/// The version of an answer's certificate allows all its lines, so it has a text.
pub fn limits_have_certificate_texts()
    ensures { (i : Instance) (ps : List ℕ) (options : Options) (limit : EndLimit) → IsInstance i → AreThere i ps
        → IsEndLimit i ps options limit → Allows (cert_of limit).version (cert_of limit).tree }
{}
