//! What is a valid plan of a bus with two channels? The first two of these functions do nothing: their contracts are laws over the
//! definitions alone, for a worked instance.

ghost use Rattle.std.specs.Prelude.{◌≡◌, ◌∷◌, [], Bool, IsErr, Ok, false, true};
ghost use Rattle.ttp_model.specs.declared.fault.PlanFault.TheVariants.{OverfullOn, WrongChannel};
ghost use Rattle.ttp_model.specs.Plans.{HasOwnChannel, IsValid, load_of, load_on};
ghost use Rattle.ttp_model.specs.Rules.{IsInstance};
ghost use Rattle.ttp_model.specs.Delays.{delay};
ghost use Rattle.ttp_model.specs.Faults.{IsFirstFault};
ghost use Rattle.ttp_model.specs.Worked.{two_messages, two_messages_plan};

use plan_check::check;
use ttp_model::{Instance, Plan, PlanFault};

/// Two messages that fill a frame each go in one slot, on a channel each.
pub fn frames_on_two_channels()
    ensures instance { (both : Bool) → IsInstance (two_messages both) }
    ensures first { load_on (two_messages false) (two_messages_plan (0 ∷ 1 ∷ [])) 0 0 0 ≡ 2 }
    ensures second { load_on (two_messages false) (two_messages_plan (0 ∷ 1 ∷ [])) 0 0 1 ≡ 2 }
    ensures doubled { load_on (two_messages false) (two_messages_plan (2 ∷ 1 ∷ [])) 0 0 1 ≡ 4 }
    ensures once { load_of (two_messages false) (two_messages_plan (2 ∷ 1 ∷ [])) 0 0 ≡ 4 }
    ensures valid { IsValid (two_messages false) (two_messages_plan (0 ∷ 1 ∷ [])) }
    ensures delay { delay (two_messages false) (two_messages_plan (0 ∷ 1 ∷ [])) ≡ 6 }
{}

/// Both on the first channel overfill it, and so does one on both channels beside one on the second. A third channel
/// isn't there, and a message that is to be on both may be on nothing else.
pub fn faults_on_two_channels()
    ensures first { IsFirstFault (two_messages false) (two_messages_plan (0 ∷ 0 ∷ [])) (OverfullOn 0 0 0) }
    ensures second { IsFirstFault (two_messages false) (two_messages_plan (2 ∷ 1 ∷ [])) (OverfullOn 0 0 1) }
    ensures unknown { IsFirstFault (two_messages false) (two_messages_plan (0 ∷ 3 ∷ [])) (WrongChannel 1) }
    ensures alone { ¬ HasOwnChannel (two_messages true) (two_messages_plan (0 ∷ 1 ∷ [])) 1 }
    ensures both { HasOwnChannel (two_messages true) (two_messages_plan (0 ∷ 2 ∷ [])) 1 }
{}

/// The check tells the delay of the one, and refuses those of both on the first channel, and of one on both beside the other.
pub fn plans_on_two_channels(instance: &Instance, plan: &Plan) -> Result<u64, PlanFault>
    ensures valid { instance.now ≡ two_messages false → plan.now ≡ two_messages_plan (0 ∷ 1 ∷ []) → result ≡ Ok 6 }
    ensures together { instance.now ≡ two_messages false → plan.now ≡ two_messages_plan (0 ∷ 0 ∷ []) → IsErr result }
    ensures doubled { instance.now ≡ two_messages false → plan.now ≡ two_messages_plan (2 ∷ 1 ∷ []) → IsErr result }
{
    check(instance, plan)
}
