//! Steps on worked examples. These functions do nothing: their contracts are what the steps come to.

ghost use Rattle.std.specs.Prelude.{◌≡◌, ◌∷◌, [], ℕ, false};
ghost use Rattle.ttp_model.specs.declared.step.Step.TheVariants.{EsRelease, LoSend, EsArrive, LeOwn, LeSend, HiArrive, OrdTwin, UsSettled, XWindow, XRound, XLoad, XFrames, XChannel, XLate, XSilent, XMirror};
ghost use Rattle.ttp_model.specs.Delays.{IsLowerBound};
ghost use Rattle.ttp_model.specs.Worked.{one_message, three_alike, two_messages};
ghost use Rattle.tt_choice.specs.Branches.{root_choice, at_least, place_next};
ghost use Rattle.tt_choice.specs.Inside.{IsInside};
ghost use Rattle.tt_infer.specs.declared.fault.StepFault.TheVariants.{NoPremise, NoSuchIndex};
ghost use Rattle.sought_plans.specs.Known.{Known, first_facts};
ghost use Rattle.tt_infer.specs.Leaves.{Lead, ClosesLeaf};
ghost use Rattle.tt_infer.specs.Answers.{IsStepFault};
ghost use Rattle.tt_infer.specs.Worked.{two_silent, on_one_channel, one_on_both, first_on_second, next_on_second, next_behind_both};

/// Process p takes 3 ticks, so its message is sent in round 1, from 4 to 7, and q ends at 9: five
/// steps close the root choice at 9. At 10 they don't. No plan has a smaller delay, settled or not.
pub fn one_message_closes_at_9()
    ensures at_9 { ClosesLeaf one_message (root_choice one_message) (record {
      goal = 9;
      steps = EsRelease 0 ∷ LoSend 0 ∷ EsArrive 0 1 ∷ LeOwn 1 ∷ XWindow 1 ∷ [];
    }) }
    ensures at_10 { ¬ ClosesLeaf one_message (root_choice one_message) (record {
      goal = 10;
      steps = EsRelease 0 ∷ LoSend 0 ∷ EsArrive 0 1 ∷ LeOwn 1 ∷ XWindow 1 ∷ [];
    }) }
    ensures bound { IsLowerBound one_message 9 }
{}

/// The choice in which B is placed first is inside the root, so the five steps that close the root at
/// 9 close it too, at 8. Three other steps lead on at the root at 9; inside at 3 the third asks for a
/// round, and the message has none left: it is refused, and the closer on its rounds closes the choice.
pub fn one_message_closes_inside()
    ensures inside { IsInside one_message (place_next (root_choice one_message) 1) (root_choice one_message) }
    ensures at_8 { ClosesLeaf one_message (place_next (root_choice one_message) 1) (record {
      goal = 8;
      steps = EsRelease 0 ∷ LoSend 0 ∷ EsArrive 0 1 ∷ LeOwn 1 ∷ XWindow 1 ∷ [];
    }) }
    ensures leads { (g : Known) × Lead one_message (root_choice one_message) 9 (first_facts one_message (root_choice one_message))
        (LeOwn 1 ∷ HiArrive 0 1 ∷ LeSend 0 ∷ []) g }
    ensures refused { (g : Known) × Lead one_message (place_next (root_choice one_message) 1) 3 (first_facts one_message (place_next (root_choice one_message) 1))
        (LeOwn 1 ∷ HiArrive 0 1 ∷ []) g
        × IsStepFault one_message (place_next (root_choice one_message) 1) 3 g (LeSend 0) NoPremise }
    ensures at_3 { ClosesLeaf one_message (place_next (root_choice one_message) 1) (record {
      goal = 3;
      steps = LeOwn 1 ∷ HiArrive 0 1 ∷ XRound 0 ∷ [];
    }) }
{}

/// A settled plan sends the message in round 0 or 1: two steps close the choice in which it is sent in
/// round 2 or later, at each goal, since process p ends by 3 and the slot of round 1 begins at 4 or
/// later.
pub fn one_message_is_not_sent_late()
    ensures { (goal : ℕ) → ClosesLeaf one_message (at_least (root_choice one_message) 0 2) (record {
      goal = goal;
      steps = UsSettled 0 ∷ XLate 0 1 ∷ [];
    }) }
{}

/// Three processes of two ticks each that end by 5 are a tick too many for one node: four steps
/// close the root choice at 6. At 7 they don't.
pub fn three_alike_close_at_6()
    ensures at_6 { ClosesLeaf three_alike (root_choice three_alike) (record {
      goal = 6;
      steps = LeOwn 0 ∷ LeOwn 1 ∷ LeOwn 2 ∷ XLoad 0 0 5 ∷ [];
    }) }
    ensures at_7 { ¬ ClosesLeaf three_alike (root_choice three_alike) (record {
      goal = 7;
      steps = LeOwn 0 ∷ LeOwn 1 ∷ LeOwn 2 ∷ XLoad 0 0 5 ∷ [];
    }) }
{}

/// The three are twins, two by two, so in a settled plan they go in their order, and none waits for
/// what comes after it: six steps tell that they end by 2, 4 and 6. That the second goes before the
/// first is refused.
pub fn three_alike_end_by_2_4_6()
    ensures ends { (goal : ℕ) → (g : Known)
        × Lead three_alike (root_choice three_alike) goal (first_facts three_alike (root_choice three_alike))
        (OrdTwin 0 1 ∷ OrdTwin 0 2 ∷ OrdTwin 1 2 ∷ UsSettled 0 ∷ UsSettled 1 ∷ UsSettled 2 ∷ []) g
        × (g.le ≡ 2 ∷ 4 ∷ 6 ∷ []) }
    ensures turned { (goal : ℕ) → IsStepFault three_alike (root_choice three_alike) goal (first_facts three_alike (root_choice three_alike)) (OrdTwin 1 0) NoPremise }
{}

/// A settled plan has two silent nodes with the same capacities in their order: one step closes the
/// choice in which the second is placed first, at each goal. Where they are placed in their order it
/// is refused.
pub fn silent_twins_stand_in_order()
    ensures turned { (goal : ℕ) → ClosesLeaf two_silent (place_next (root_choice two_silent) 1) (record {
      goal = goal;
      steps = XSilent 0 1 ∷ [];
    }) }
    ensures in_order { (goal : ℕ) → IsStepFault two_silent (place_next (place_next (root_choice two_silent) 0) 1) goal
        (first_facts two_silent (place_next (place_next (root_choice two_silent) 0) 1)) (XSilent 0 1) NoPremise }
{}

/// Two messages that fill a frame each go in one round of two channels. Both on channel 0 are too much for
/// it alone, and not for both halves of the frame. One of them on both channels beside the other, wherever
/// that is, is too much for both halves, and for neither alone. Where there is one channel a step on one is
/// refused.
pub fn messages_of_two_channels_close()
    ensures on_one { (goal : ℕ) → ClosesLeaf (two_messages false) on_one_channel (record {
      goal = goal;
      steps = XChannel 0 0 0 1 ∷ [];
    }) }
    ensures other { (goal : ℕ) → IsStepFault (two_messages false) on_one_channel goal
        (first_facts (two_messages false) on_one_channel) (XChannel 1 0 0 1) NoPremise }
    ensures carried { (goal : ℕ) → IsStepFault (two_messages false) on_one_channel goal
        (first_facts (two_messages false) on_one_channel) (XFrames 0 0 1) NoPremise }
    ensures on_both { (goal : ℕ) → ClosesLeaf (two_messages false) one_on_both (record {
      goal = goal;
      steps = XFrames 0 0 1 ∷ [];
    }) }
    ensures half { (goal : ℕ) → IsStepFault (two_messages false) one_on_both goal
        (first_facts (two_messages false) one_on_both) (XChannel 0 0 0 1) NoPremise }
    ensures alone { (goal : ℕ) → IsStepFault one_message (root_choice one_message) goal
        (first_facts one_message (root_choice one_message)) (XChannel 0 0 0 1) NoSuchIndex }
{}

/// A settled plan has the first message that is on one channel alone on channel 0, in each frame: one step closes the choice in which
/// the first of two is on channel 1, and that in which the second is and the first on both, at each goal. It is refused where no channel
/// is chosen, where the first may lead the frame of the second, and where there is one channel.
pub fn messages_lead_on_the_first_channel()
    ensures first { (goal : ℕ) → ClosesLeaf (two_messages false) first_on_second (record { goal = goal; steps = XMirror 0 ∷ [] }) }
    ensures behind_both { (goal : ℕ) → ClosesLeaf (two_messages false) next_behind_both (record { goal = goal; steps = XMirror 1 ∷ [] }) }
    ensures free { (goal : ℕ) → IsStepFault (two_messages false) (root_choice (two_messages false)) goal
        (first_facts (two_messages false) (root_choice (two_messages false))) (XMirror 0) NoPremise }
    ensures behind_free { (goal : ℕ) → IsStepFault (two_messages false) next_on_second goal
        (first_facts (two_messages false) next_on_second) (XMirror 1) NoPremise }
    ensures alone { (goal : ℕ) → IsStepFault one_message (root_choice one_message) goal
        (first_facts one_message (root_choice one_message)) (XMirror 0) NoPremise }
{}
