//! What holds of all plan texts?

ghost use Rattle.std.specs.Prelude.{◌≡◌, ◌∷◌, ◌↔◌, ℕ, List, [], IsTrue, codes, false};
ghost use Rattle.ttp_model.specs.Instance.{Instance};
ghost use Rattle.ttp_model.specs.Rules.{IsInstance, IsName};
ghost use Rattle.ttp_model.specs.declared.plan.Plan.{Plan};
ghost use Rattle.ttp_model.specs.Worked.{one_message, two_messages, two_messages_plan};
ghost use Rattle.plan_format.specs.declared.column.Column.TheVariants.{Channel};
ghost use Rattle.plan_format.specs.declared.fault.LineFault.TheVariants.{Form, Name};
ghost use Rattle.plan_format.specs.Names.{is_name};
ghost use Rattle.plan_format.specs.Reading.{head_at, named_number};
ghost use Rattle.plan_format.specs.Spelling.{HasText, channel_lines, plan_text};

use crate::fault::PlanTextError;

/// A word has the form of a name exactly where it is a name by the model's rule.
pub fn word_is_a_name_by_the_model()
    ensures { (word : List ℕ) → IsTrue (is_name word) ↔ IsName word }
{}

/// No spelling of one plan and delay is the spelling of another.
pub fn spelling_is_of_one_plan()
    ensures { (i : Instance) (p q : Plan) (d e : ℕ) → IsInstance i → HasText i p d → HasText i q e →
        plan_text i p d ≡ plan_text i q e → (p ≡ q) × (d ≡ e) }
{}

/// The text of a worked plan of two channels in full, and the lines of its channels with a message on both.
pub fn text_of_two_channels()
    ensures text { plan_text (two_messages false) (two_messages_plan (0 ∷ 1 ∷ [])) 6 ≡
        codes "ttplan 2\ndelay 6\norder B A\ncap A 2\ncap B 0\nstart p 0\nstart q 4\nstart r 5\nround m 0\nround l 0\nchan m 0\nchan l 1\n" }
    ensures both { channel_lines (two_messages false) (2 ∷ 1 ∷ []) ≡ codes "chan m both\nchan l 1\n" }
{}

/// In the line of a channel the form goes before the name, and a word that is no channel's has another form. The first line is
/// that of the cluster's version.
pub fn faults_of_two_channels()
    ensures form { named_number 11 Channel (codes "m") (codes "chan l 2") ≡ Err (PlanTextError.At 11 Form) }
    ensures name { named_number 11 Channel (codes "m") (codes "chan l both") ≡ Err (PlanTextError.At 11 Name) }
    ensures first { head_at (two_messages false) (codes "ttplan 1\n") ≡ Err (PlanTextError.At 1 Form) }
    ensures second { head_at one_message (codes "ttplan 2\n") ≡ Err (PlanTextError.At 1 Form) }
{}
