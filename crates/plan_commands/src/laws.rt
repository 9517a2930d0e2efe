//! What do judgements say? These functions do nothing: their contracts are laws.

ghost use Rattle.std.specs.Prelude.{◌≡◌, ◌<◌, ◌↔◌, ℕ, List, Option, length};
ghost use Rattle.ttp_model.specs.Instance.{Instance};
ghost use Rattle.ttp_model.specs.Delays.{HasNoPlan, IsLeastDelay, IsLowerBound};
ghost use Rattle.command_streams.specs.Instances.{HasInstance};
ghost use Rattle.plan_commands.specs.Certified.{HasBound};
ghost use Rattle.plan_commands.specs.Fronts.{IsAnswerLine, longest_answer_line};
ghost use Rattle.plan_commands.specs.Judged.{IsJudged, IsJudgementOf, IsReached, StandsFor, limit_of};
ghost use Rattle.plan_commands.specs.declared.front.Front.{Front};
ghost use Rattle.plan_commands.specs.declared.judge.Judgement.{Judgement};

/// A delay that is judged to be the least is that of some valid plan, and no valid plan has a smaller one.
pub fn least_is_the_least_delay()
    ensures { (limit : ℕ) (instance plan certificate : List ℕ) (d : ℕ) → IsJudged limit instance plan certificate (Judgement.Least d)
        → (i : Instance) × HasInstance instance i × IsLeastDelay i d }
{}

/// Where it is judged that there is no plan, none is valid.
pub fn none_is_that_there_is_no_plan()
    ensures { (limit : ℕ) (instance plan certificate : List ℕ) → IsJudged limit instance plan certificate Judgement.NoPlan
        → (i : Instance) × HasInstance instance i × HasNoPlan i }
{}

/// Where the least delay is judged to be between two, no valid plan is below the first, which is below the second, and some valid
/// plan has that one; where there is no second, the first is within the horizon.
pub fn between_has_the_least_delay()
    ensures { (limit : ℕ) (instance plan certificate : List ℕ) (low : ℕ) (best : Option ℕ) → IsJudged limit instance plan certificate (Judgement.Between low best)
        → (i : Instance) × HasInstance instance i × IsLowerBound i low × (low < limit_of i best) × IsReached i best }
{}

/// The line in front of a printed plan is short, so that no text within its limits is left unread.
pub fn answer_lines_are_short()
    ensures { (line : List ℕ) (front : Front) → IsAnswerLine line front → length line < longest_answer_line }
{}

/// Texts without a fault are judged.
pub fn texts_are_judged()
    ensures { (limit : ℕ) (instance plan certificate : List ℕ) (i : Instance) (best : Option ℕ) (low : ℕ)
        → HasInstance instance i → StandsFor i plan best → HasBound limit i certificate low
        → (judgement : Judgement) × IsJudged limit instance plan certificate judgement }
{}

/// They are judged by what they say, and by nothing else: so each judgement is made just where the plan and the bound call for it.
pub fn texts_are_judged_by_what_they_say()
    ensures { (limit : ℕ) (instance plan certificate : List ℕ) (i : Instance) (best : Option ℕ) (low : ℕ) (judgement : Judgement)
        → HasInstance instance i → StandsFor i plan best → HasBound limit i certificate low
        → IsJudged limit instance plan certificate judgement ↔ IsJudgementOf i best low judgement }
{}

/// No texts are judged in two ways.
pub fn texts_are_judged_once()
    ensures { (limit : ℕ) (instance plan certificate : List ℕ) (a b : Judgement)
        → IsJudged limit instance plan certificate a → IsJudged limit instance plan certificate b → a ≡ b }
{}
