//! The definitions on worked examples. These functions do nothing: their contracts are the figures.

ghost use Rattle.std.specs.Prelude.{◌≡◌, ◌∷◌, [], IsFalse, IsTrue, false};
ghost use Rattle.ttp_model.specs.Slots.{duration, round_length, slot_start, slot_end};
ghost use Rattle.ttp_model.specs.Plans.{IsValid, end_of, load_of, sent_from, sent_until};
ghost use Rattle.ttp_model.specs.Delays.{delay};
ghost use Rattle.ttp_model.specs.Chains.{IsPathBound};
ghost use Rattle.ttp_model.specs.Twins.{AreTwins};
ghost use Rattle.ttp_model.specs.Moves.{IsSettled, Move, MovesLead, leads_turned, turned, turned_frames, weight};
ghost use Rattle.ttp_model.specs.Worked.{plain_cluster, one_message, one_message_plan, three_alike, three_alike_plan, two_messages, two_messages_plan};

/// Slots of three ticks and one: rounds of four, and m on the bus from 4 to 7.
pub fn slots_of_one_message()
    ensures first { duration plain_cluster (2 ∷ 0 ∷ []) 0 ≡ 3 }
    ensures second { duration plain_cluster (2 ∷ 0 ∷ []) 1 ≡ 1 }
    ensures round { round_length plain_cluster (2 ∷ 0 ∷ []) ≡ 4 }
    ensures other_order { slot_start plain_cluster (1 ∷ 0 ∷ []) (2 ∷ 0 ∷ []) 0 2 ≡ 9 }
    ensures from { sent_from one_message (one_message_plan 0) 0 ≡ 4 }
    ensures until { sent_until one_message (one_message_plan 0) 0 ≡ 7 }
{}

/// Its plan keeps all eleven rules.
pub fn plan_of_one_message_is_valid()
    ensures { IsValid one_message (one_message_plan 0) }
{}

/// The delay of its plan is 9, its frame in round 1 holds two bytes, and its weight is 8, then 94, with no frame
/// turned.
pub fn figures_of_one_message()
    ensures end { end_of one_message (one_message_plan 0) 0 ≡ 3 }
    ensures delay { delay one_message (one_message_plan 0) ≡ 9 }
    ensures load { load_of one_message (one_message_plan 0) 0 1 ≡ 2 }
    ensures empty { load_of one_message (one_message_plan 0) 0 0 ≡ 0 }
    ensures weight { weight one_message (one_message_plan 0) ≡ record { times = 8; twins = 94; frames = 0 } }
{}

/// No chain takes more than 8 ticks: p's three, the slot's three and q's two.
pub fn path_bound_of_one_message()
    ensures { IsPathBound one_message 8 }
{}

/// Three processes that are alike are twins; starting one of them earlier, or exchanging two, is a move.
pub fn moves_of_three_alike()
    ensures twins { AreTwins three_alike 0 2 }
    ensures earlier { Move three_alike (three_alike_plan (4 ∷ 2 ∷ 1 ∷ [])) (three_alike_plan (4 ∷ 2 ∷ 0 ∷ [])) }
    ensures exchange { Move three_alike (three_alike_plan (4 ∷ 2 ∷ 0 ∷ [])) (three_alike_plan (0 ∷ 2 ∷ 4 ∷ [])) }
    ensures heavier { weight three_alike (three_alike_plan (4 ∷ 2 ∷ 0 ∷ [])) ≡ record { times = 6; twins = 298; frames = 0 } }
    ensures lighter { weight three_alike (three_alike_plan (0 ∷ 2 ∷ 4 ∷ [])) ≡ record { times = 6; twins = 290; frames = 0 } }
{}

/// From starts 5, 2, 0 of the three the moves lead to 0, 2, 4: one starts a tick earlier, then two are exchanged. There
/// no move is left.
pub fn where_moves_of_three_alike_lead()
    ensures valid { IsValid three_alike (three_alike_plan (5 ∷ 2 ∷ 0 ∷ [])) }
    ensures leads { MovesLead three_alike (three_alike_plan (5 ∷ 2 ∷ 0 ∷ [])) (three_alike_plan (0 ∷ 2 ∷ 4 ∷ [])) }
    ensures settled { IsSettled three_alike (three_alike_plan (0 ∷ 2 ∷ 4 ∷ [])) }
{}

/// Two messages of one frame, each on a channel of its own: where the first is on channel 1 the frame is turned, and
/// exchanging its channels is a move. Behind a message on both channels the next one leads the frame.
pub fn move_of_two_messages()
    ensures leads { IsTrue (leads_turned (two_messages false) (two_messages_plan (1 ∷ 0 ∷ [])) 0) }
    ensures follows { IsFalse (leads_turned (two_messages false) (two_messages_plan (0 ∷ 1 ∷ [])) 1) }
    ensures turned { turned (two_messages false) (two_messages_plan (1 ∷ 0 ∷ [])) 0 ≡ two_messages_plan (0 ∷ 1 ∷ []) }
    ensures exchange { Move (two_messages false) (two_messages_plan (1 ∷ 0 ∷ [])) (two_messages_plan (0 ∷ 1 ∷ [])) }
    ensures heavier { weight (two_messages false) (two_messages_plan (1 ∷ 0 ∷ [])) ≡ record { times = 9; twins = 288; frames = 1 } }
    ensures lighter { weight (two_messages false) (two_messages_plan (0 ∷ 1 ∷ [])) ≡ record { times = 9; twins = 288; frames = 0 } }
    ensures behind_both { turned_frames (two_messages false) (two_messages_plan (2 ∷ 1 ∷ [])) ≡ 1 }
{}
