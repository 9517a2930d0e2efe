//! The definitions on worked examples. These functions do nothing: their contracts say that there are such losses, and
//! what is told of messages on two channels.

ghost use Rattle.std.specs.Prelude.{◌≡◌, ◌∷◌, ◌+◌, ◌<◌, []};
ghost use Rattle.ttp_model.specs.Plans.{IsValid};
ghost use Rattle.medl_tables.specs.Rows.{entries_of};
ghost use Rattle.medl_tables.specs.Worked.{two_channels, two_channels_plan};
ghost use Rattle.membership_replay.specs.declared.trace.Event.TheVariants.{Deliver};
ghost use Rattle.membership_replay.specs.Losses.{CanBeReplayed};
ghost use Rattle.membership_replay.specs.LostFrames.{LosesOneFrame};
ghost use Rattle.membership_replay.specs.Trace.{deliveries, slot_count};
ghost use Rattle.membership_replay.specs.Worked.{first_frame_lost, three_nodes, three_nodes_plan, three_nodes_tables};

/// Of three nodes the first one's frame is lost at the other two, and two slots follow it in the cycle.
pub fn first_frame_of_three_nodes_is_lost()
    ensures valid { IsValid three_nodes three_nodes_plan }
    ensures lost { LosesOneFrame three_nodes_tables first_frame_lost 0 }
    ensures replayed { CanBeReplayed three_nodes_tables first_frame_lost }
    ensures follow { 0 + 2 < slot_count three_nodes_tables }
{}

/// On two channels n stands twice in the row of C, and is told once; o stands before m in that of B, and is told behind it, as
/// it stands behind it in the instance.
pub fn messages_of_two_channels_are_told_once()
    ensures once { deliveries 2 (entries_of two_channels two_channels_plan 2 0 1) ≡ Deliver 1 2 ∷ [] }
    ensures in_order { deliveries 1 (entries_of two_channels two_channels_plan 1 0 1) ≡ Deliver 0 1 ∷ Deliver 2 1 ∷ [] }
{}
