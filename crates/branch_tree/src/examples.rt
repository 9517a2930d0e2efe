//! Complete choices of a worked example. These functions do nothing: their contracts are what the choices come to.

ghost use Rattle.std.specs.Prelude.{◌<◌, ◌≤◌, ℕ, length};
ghost use Rattle.ttp_model.specs.declared.step.Step.TheVariants.{XRound, XWindow};
ghost use Rattle.ttp_model.specs.Rules.{IsInstance};
ghost use Rattle.ttp_model.specs.Worked.{one_message, one_message_plan};
ghost use Rattle.tt_choice.specs.Choice.{IsChoice, IsComplete};
ghost use Rattle.earliest_starts.specs.declared.clash.Clash.TheVariants.{Round};
ghost use Rattle.earliest_starts.specs.Clashes.{IsClash};
ghost use Rattle.earliest_starts.specs.Answers.{IsEarliest};
ghost use Rattle.branch_tree.specs.Closers.{IsClosedBy};
ghost use Rattle.branch_tree.specs.Examples.{one_message_in};

/// With the message in round 1, from 4 to 7, p starts at 0 and q at 7, and ends at 9: the choice is
/// closed at each goal up to 9.
pub fn one_message_in_round_1()
    ensures instance { IsInstance one_message }
    ensures choice { IsChoice one_message (one_message_in 1) }
    ensures complete { IsComplete one_message (one_message_in 1) }
    ensures plan { IsEarliest one_message (one_message_in 1) (one_message_plan 0) }
    ensures closed { (goal : ℕ) → goal ≤ 9
        → (p : ℕ) × (p < length one_message.processes) × IsClosedBy one_message (one_message_in 1) goal (XWindow p) }
{}

/// In round 0 its slot begins before p has ended: the choice is closed at every goal.
pub fn one_message_in_round_0()
    ensures choice { IsChoice one_message (one_message_in 0) }
    ensures complete { IsComplete one_message (one_message_in 0) }
    ensures clash { IsClash one_message (one_message_in 0) (Round 0) }
    ensures closed { (goal : ℕ) → IsClosedBy one_message (one_message_in 0) goal (XRound 0) }
{}
