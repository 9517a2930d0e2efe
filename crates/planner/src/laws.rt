//! What holds of all answers? These functions do nothing: their contracts are laws.

ghost use Rattle.std.specs.Prelude.{◌++◌, ℕ, List, Option};
ghost use Rattle.ttp_model.specs.Instance.{Instance};
ghost use Rattle.ttp_model.specs.Rules.{IsInstance};
ghost use Rattle.certificate.specs.Cert.{Cert};
ghost use Rattle.certificate.specs.Versions.{Allows};
ghost use Rattle.search_workers.specs.piece.Piece.{Piece};
ghost use Rattle.search_workers.specs.Gathering.{IsGathered};
ghost use Rattle.search_workers.specs.declared.found.FoundPlan.{FoundPlan};
ghost use Rattle.search_workers.specs.declared.outcome.Options.{Options};
ghost use Rattle.search_workers.specs.declared.outcome.Outcome.{Outcome};
ghost use Rattle.search_workers.specs.declared.outcome.Why.{Why};
ghost use Rattle.search_workers.specs.declared.aims.Aims.{Aims};
ghost use Rattle.certificate.specs.Trees.{preorder};
ghost use Rattle.planner.specs.Answers.{cert_of, from_low, in_answer, IsOutcome, Shows};
ghost use Rattle.planner.specs.Searched.{AreAims, IsEndTree, IsLowest, IsSearched};
ghost use Rattle.search_workers.specs.Ends.{IsAnswerOf, IsCauseTold};
ghost use Rattle.search_workers.specs.Searching.{limit_of, IsFound};

/// What a search leaves at its end, gathered, and in the version of the instance's answers, is a tree that makes its answer: the best plan where the least
/// goal of its leaves is its delay, no plan where that is past the horizon, and else that it was stopped, by the gap where the plan is within it.
pub fn searches_answer()
    ensures tree { (i : Instance) (options : Options) (why : Why) (best : Option FoundPlan)
        (aims : Aims) (worked closed : List Piece) (low : ℕ) (cert : Cert) → IsInstance i → AreAims i aims
        → IsSearched i options aims why best worked closed low → IsGathered low (worked ++ closed) cert
        → IsEndTree i options aims.gap why best (in_answer i cert) }
    ensures answer { (i : Instance) (options : Options) (gap : ℕ) (why cause : Why) (best : Option FoundPlan)
        (low : ℕ) (cert : Cert) (outcome : Outcome) → IsInstance i → IsFound i best → IsEndTree i options gap why best cert
        → IsLowest (limit_of i best) (preorder cert.tree) low → IsCauseTold why gap low best cause
        → IsAnswerOf i cause best low (from_low low cert) outcome → IsOutcome i options gap outcome }
{}

/// A plan that is answered is valid and has the least delay; where no plan is answered none is valid;
/// and a search that was stopped gives a bound below and, where it found a plan, one above.
pub fn answers_show()
    ensures { (i : Instance) (options : Options) (gap : ℕ) (outcome : Outcome) → IsInstance i
        → IsOutcome i options gap outcome → Shows i outcome }
{}

/// The version of an answer's certificate allows all its lines, so it has a text.
pub fn answers_have_certificate_texts()
    ensures { (i : Instance) (options : Options) (gap : ℕ) (outcome : Outcome) → IsInstance i
        → IsOutcome i options gap outcome → Allows (cert_of outcome).version (cert_of outcome).tree }
{}
