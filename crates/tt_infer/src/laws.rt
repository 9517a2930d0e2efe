//! What follows from the table of steps alone? These functions do nothing: their contracts are laws.

ghost use Rattle.std.specs.Prelude.{◌≡◌, ◌<◌, ◌≤◌, IsTrue, IsFalse, ◌∷◌, ◌++◌, ◌⊎◌, ℕ, List, Result};
ghost use Rattle.ttp_model.specs.declared.plan.Plan.{Plan};
ghost use Rattle.ttp_model.specs.declared.step.Step.{Step};
ghost use Rattle.ttp_model.specs.declared.step.Leaf.{Leaf};
ghost use Rattle.ttp_model.specs.declared.step.Kind.{Kind};
ghost use Rattle.ttp_model.specs.Instance.{Instance};
ghost use Rattle.ttp_model.specs.Rules.{IsInstance};
ghost use Rattle.tt_choice.specs.Choice.{Choice, IsChoice};
ghost use Rattle.tt_choice.specs.Branches.{IsOpen, children, child};
ghost use Rattle.tt_choice.specs.Inside.{IsInside};
ghost use Rattle.sought_plans.specs.Known.{Known, Fits, IsSought, AreTrueOf, Hold, es_of, le_of, lo_of, top_of, bef_of, first_facts};
ghost use Rattle.sought_plans.specs.Conclusions.{Conclusion, IsTrueOf, IsAbout};
ghost use Rattle.tt_infer.specs.Table.{rule, IsLawful};
ghost use Rattle.tt_infer.specs.declared.fault.StepFault.{StepFault};
ghost use Rattle.tt_infer.specs.Answers.{IsStepFault, Takes};
ghost use Rattle.tt_infer.specs.Leaves.{Lead, ClosesLeaf};
ghost use Rattle.tt_infer.specs.Sharper.{IsSharper, LeadsAsFar, MissesRound, LeadAsFar, LeadToClose};

/// Each rule of the table is sound: of a sought plan of which the facts are true, what the rule
/// concludes is true too, and it is about processes and messages that are there.
pub fn rules_are_sound()
    ensures true_of_the_plan { (i : Instance) (c : Choice) (goal : ℕ) (f : Known) (step : Step) (k : Conclusion) (plan : Plan)
        → IsInstance i → IsChoice i c → IsSought i c goal plan → AreTrueOf i plan f
        → (rule i c goal f step).there → (rule i c goal f step).premise → (rule i c goal f step).concludes k
        → IsTrueOf i plan k }
    ensures about_the_instance { (i : Instance) (c : Choice) (goal : ℕ) (f : Known) (step : Step) (k : Conclusion)
        → IsInstance i
        → (rule i c goal f step).there → (rule i c goal f step).premise → (rule i c goal f step).concludes k
        → IsAbout i k }
{}

/// After a lawful step the facts hold again.
pub fn steps_are_sound()
    ensures holds { (i : Instance) (c : Choice) (goal : ℕ) (f : Known) (step : Step) (g : Known)
        → IsInstance i → IsChoice i c → Fits i f → IsLawful i c goal f step g
        → Hold i c goal f → Hold i c goal g }
    ensures fits { (i : Instance) (c : Choice) (goal : ℕ) (f : Known) (step : Step) (g : Known)
        → Fits i f → IsLawful i c goal f step g → Fits i g }
{}

/// After a lawful step at least as much is known as before it: times and rounds are bounded as
/// closely, the same processes go before the same, and where no plan was left none is.
pub fn steps_only_sharpen()
    ensures starts { (i : Instance) (c : Choice) (goal : ℕ) (f : Known) (step : Step) (g : Known)
        → IsInstance i → Fits i f → IsLawful i c goal f step g
        → (p : ℕ) → es_of f p ≤ es_of g p }
    ensures ends { (i : Instance) (c : Choice) (goal : ℕ) (f : Known) (step : Step) (g : Known)
        → IsInstance i → Fits i f → IsLawful i c goal f step g
        → (p : ℕ) → le_of g p ≤ le_of f p }
    ensures from { (i : Instance) (c : Choice) (goal : ℕ) (f : Known) (step : Step) (g : Known)
        → IsInstance i → Fits i f → IsLawful i c goal f step g
        → (m : ℕ) → lo_of f m ≤ lo_of g m }
    ensures before { (i : Instance) (c : Choice) (goal : ℕ) (f : Known) (step : Step) (g : Known)
        → IsInstance i → Fits i f → IsLawful i c goal f step g
        → (m : ℕ) → top_of g m ≤ top_of f m }
    ensures orders { (i : Instance) (c : Choice) (goal : ℕ) (f : Known) (step : Step) (g : Known)
        → IsInstance i → Fits i f → IsLawful i c goal f step g
        → (p q : ℕ) → IsTrue (bef_of f p q) → IsTrue (bef_of g p q) }
    ensures closed { (i : Instance) (c : Choice) (goal : ℕ) (f : Known) (step : Step) (g : Known)
        → IsInstance i → Fits i f → IsLawful i c goal f step g
        → IsTrue f.closed → IsTrue g.closed }
{}

/// What is known at first holds at each goal.
pub fn first_facts_hold()
    ensures holds { (i : Instance) (c : Choice) (goal : ℕ)
        → IsChoice i c → Hold i c goal (first_facts i c) }
    ensures fits { (i : Instance) (c : Choice) → IsChoice i c → Fits i (first_facts i c) }
{}

/// A leaf that closes a choice leaves no plan of it below the leaf's goal; and none closes it whose
/// steps lead to one that is refused there, whatever follows it.
pub fn leaves_rule_out()
    ensures none_left { (i : Instance) (c : Choice) (leaf : Leaf)
        → IsInstance i → IsChoice i c → ClosesLeaf i c leaf
        → (plan : Plan) → ¬ IsSought i c leaf.goal plan }
    ensures refused { (i : Instance) (c : Choice) (goal : ℕ) (steps others : List Step) (g : Known) (step : Step) (fault : StepFault)
        → Lead i c goal (first_facts i c) steps g → IsStepFault i c goal g step fault
        → ¬ ClosesLeaf i c (record { goal = goal; steps = steps ++ step ∷ others }) }
{}

/// A step gives one thing at most, and so steps lead from what is known to one place at most. One
/// answer is right, with what is known after it.
pub fn steps_are_determined()
    ensures one { (i : Instance) (c : Choice) (goal : ℕ) (f : Known) (step : Step) (g h : Known)
        → IsLawful i c goal f step g → IsLawful i c goal f step h → g ≡ h }
    ensures several { (i : Instance) (c : Choice) (goal : ℕ) (f : Known) (steps : List Step) (g h : Known)
        → Lead i c goal f steps g → Lead i c goal f steps h → g ≡ h }
    ensures answers { (i : Instance) (c : Choice) (goal : ℕ) (f : Known) (step : Step) (g h : Known) (one other : Result Unit StepFault)
        → Takes i c goal f step g one → Takes i c goal f step h other → (g ≡ h) × (one ≡ other) }
{}

/// A step whose premise holds concludes something, so none is refused for want of a conclusion.
pub fn rules_conclude()
    ensures { (i : Instance) (c : Choice) (goal : ℕ) (f : Known) (step : Step)
        → IsInstance i → (rule i c goal f step).premise
        → (k : Conclusion) × (rule i c goal f step).concludes k }
{}

/// Steps that are lawful at a choice and a goal are lawful at each choice inside it and each goal no
/// larger, from where at least as much is known, and lead to where at least as much is known: so steps
/// needn't be looked for again there. The exceptions are `LeSend` and `UsSettled`, where a message has
/// no round left: then its `XRound` is lawful, and no plan is left. So it is of whole leaves.
pub fn steps_lead_as_far_inside()
    ensures first { (i : Instance) (inner outer : Choice)
        → IsChoice i inner → IsChoice i outer → IsInside i inner outer
        → IsSharper (first_facts i outer) (first_facts i inner) }
    ensures children { (i : Instance) (c : Choice) (kind : Kind) (k : ℕ)
        → IsChoice i c → IsOpen i c kind → k < children i c kind → IsInside i (child i c kind k) c }
    ensures one { (i : Instance) (inner outer : Choice) (aim goal : ℕ) (f h : Known) (step : Step) (g : Known)
        → IsInstance i → IsChoice i inner → IsChoice i outer → IsInside i inner outer → aim ≤ goal
        → Fits i f → Fits i h → IsSharper f h → IsFalse h.closed → IsLawful i outer goal f step g
        → LeadsAsFar i inner aim h step g ⊎ MissesRound i inner aim h step }
    ensures several { (i : Instance) (inner outer : Choice) (aim goal : ℕ) (f h : Known) (steps : List Step) (g : Known)
        → IsInstance i → IsChoice i inner → IsChoice i outer → IsInside i inner outer → aim ≤ goal
        → Fits i f → Fits i h → IsSharper f h → IsFalse h.closed → Lead i outer goal f steps g
        → LeadAsFar i inner aim h steps g ⊎ LeadToClose i inner aim h steps }
    ensures from_first { (i : Instance) (inner outer : Choice) (aim goal : ℕ) (steps : List Step) (g : Known)
        → IsInstance i → IsChoice i inner → IsChoice i outer → IsInside i inner outer → aim ≤ goal
        → Lead i outer goal (first_facts i outer) steps g
        → LeadAsFar i inner aim (first_facts i inner) steps g ⊎ LeadToClose i inner aim (first_facts i inner) steps }
    ensures leaves { (i : Instance) (inner outer : Choice) (aim : ℕ) (leaf : Leaf)
        → IsInstance i → IsChoice i inner → IsChoice i outer → IsInside i inner outer → aim ≤ leaf.goal
        → ClosesLeaf i outer leaf
        → ClosesLeaf i inner (record { goal = aim; steps = leaf.steps })
        ⊎ LeadToClose i inner aim (first_facts i inner) leaf.steps }
{}
