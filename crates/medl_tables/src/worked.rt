//! The definitions on a worked example. This function does nothing: its contract is what was written by hand.

ghost use Rattle.std.specs.Prelude.{◌≡◌, ◌∷◌, [], codes};
ghost use Rattle.medl_tables.specs.Rows.{entries_of};
ghost use Rattle.medl_tables.specs.Text.{entry_text, head_text};
ghost use Rattle.medl_tables.specs.Worked.{entry, two_channels, two_channels_plan};

/// On two channels a frame of A has n and o on channel 0, and m and n on channel 1. A's own table shows all of them, that
/// of B what q receives, and that of C what s does, which is n on either channel.
pub fn rows_of_two_channels()
    ensures sender { entries_of two_channels two_channels_plan 0 0 1
        ≡ entry 1 0 0 ∷ entry 2 0 3 ∷ entry 0 1 0 ∷ entry 1 1 2 ∷ [] }
    ensures first { entries_of two_channels two_channels_plan 1 0 1 ≡ entry 2 0 3 ∷ entry 0 1 0 ∷ [] }
    ensures second { entries_of two_channels two_channels_plan 2 0 1 ≡ entry 1 0 0 ∷ entry 1 1 2 ∷ [] }
    ensures head { head_text two_channels ≡ codes "ttmedl 2\nrounds" }
    ensures text { entry_text two_channels (entry 1 1 2) ≡ codes " n:1:2" }
{}
