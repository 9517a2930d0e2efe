//! Decisions on worked examples. These functions do nothing: their contracts are what the decisions come to.

ghost use Rattle.std.specs.Prelude.{◌≡◌, ◌∷◌, [], Some};
ghost use Rattle.ttp_model.specs.Worked.{one_message, three_alike};
ghost use Rattle.tt_choice.specs.declared.decision.Decision.TheVariants.{Place, Cap, Before, AtMost, AtLeast, Channel};
ghost use Rattle.tt_choice.specs.declared.reversal.Reversal.TheVariants.{Unplace};
ghost use Rattle.tt_choice.specs.Choice.{IsChoice, fixed_channel};
ghost use Rattle.tt_choice.specs.Branches.{root_choice, place_next};
ghost use Rattle.tt_choice.specs.Decisions.{choice_after, IsOpenDecision, kept_after, IsUndone};
ghost use Rattle.tt_choice.specs.Worked.{message_of_two};

/// Where nothing is chosen of the example with one message, B may come first, A may take its only option, and the message may be
/// sent in round 1 at most, or in round 1 at least. That B comes first is kept, and taken back.
pub fn one_message_is_decided_and_undone()
    ensures choice { IsChoice one_message (root_choice one_message) }
    ensures place { IsOpenDecision one_message (root_choice one_message) (Place 1) }
    ensures cap { IsOpenDecision one_message (root_choice one_message) (Cap 0 0) }
    ensures at_most { IsOpenDecision one_message (root_choice one_message) (AtMost 0 1) }
    ensures at_least { IsOpenDecision one_message (root_choice one_message) (AtLeast 0 1) }
    ensures decided { choice_after one_message (root_choice one_message) (Place 1) ≡ place_next (root_choice one_message) 1 }
    ensures kept { (kept_after one_message (root_choice one_message) (Place 1)).kept ≡ Unplace ∷ [] }
    ensures undone { IsUndone (kept_after one_message (root_choice one_message) (Place 1)) (root_choice one_message) }
{}

/// Where nothing is chosen of the same example on two channels, the message may be on either, or on both. That it is on both is kept,
/// and taken back.
pub fn a_channel_is_fixed_and_freed()
    ensures choice { IsChoice message_of_two (root_choice message_of_two) }
    ensures first { IsOpenDecision message_of_two (root_choice message_of_two) (Channel 0 0) }
    ensures second { IsOpenDecision message_of_two (root_choice message_of_two) (Channel 0 1) }
    ensures both { IsOpenDecision message_of_two (root_choice message_of_two) (Channel 0 2) }
    ensures decided { fixed_channel (choice_after message_of_two (root_choice message_of_two) (Channel 0 2)) 0 ≡ Some 2 }
    ensures undone { IsUndone (kept_after message_of_two (root_choice message_of_two) (Channel 0 2)) (root_choice message_of_two) }
{}

/// Where nothing is chosen of the three processes of one node, each may go before another.
pub fn three_alike_may_be_ordered()
    ensures choice { IsChoice three_alike (root_choice three_alike) }
    ensures before { IsOpenDecision three_alike (root_choice three_alike) (Before 0 1) }
{}
