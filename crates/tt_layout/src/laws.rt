//! What follows from the definitions alone. These functions do nothing: their contracts are the laws.

ghost use Rattle.std.specs.Prelude.{◌≡◌, ◌+◌, ◌*◌, ◌<◌, ◌≤◌, ◌⊎◌, ℕ, List, length, slice_index};
ghost use Rattle.ttp_model.specs.declared.parts.Cluster.{Cluster};
ghost use Rattle.ttp_model.specs.Plans.{IsNodeOrder};
ghost use Rattle.ttp_model.specs.Slots.{round_length, slot_end, slot_start};

/// Slots don't overlap: the slots at two positions of an order end and begin one after the other,
/// in one round as their positions are, and in two rounds as the rounds are.
pub fn slots_are_apart()
    ensures { (c : Cluster) (order caps : List ℕ) (j k r s : ℕ) → IsNodeOrder (length caps) order
        → j < length order → k < length order → (r < s) ⊎ ((r ≡ s) × (j < k))
        → slot_end c order caps (slice_index order j) r ≤ slot_start c order caps (slice_index order k) s }
{}
