//! What follows from the definitions alone. These functions do nothing: their contracts are the laws.

ghost use Rattle.std.specs.Prelude.{◌≡◌, ◌≢◌, ◌⊎◌, ◌↔◌, ℕ, List, AllPairs, Contains};
ghost use Rattle.std.specs.List.{flat_map};
ghost use Rattle.ttp_model.specs.Rules.{IsInstance};
ghost use Rattle.ttp_model.specs.declared.error.Part.TheVariants.{Nodes};
ghost use Rattle.ttp_model.specs.Names.{names_in};
ghost use Rattle.plan_changes.specs.declared.fate.Fate.TheVariants.{Same};
ghost use Rattle.plan_changes.specs.Planned.{Planned};
ghost use Rattle.plan_changes.specs.Units.{IsLoadedAlike, fate_line, fate_of, nodes_of_either};
ghost use Rattle.plan_changes.specs.Changes.{IsUnchanged, changes_text};

/// What is compared with itself is unchanged: of each node `same` is told, and nothing else.
pub fn what_is_compared_with_itself_is_unchanged()
    ensures unchanged { (p : Planned) → IsUnchanged p p }
    ensures text { (p : Planned) → changes_text p p ≡ flat_map (fate_line Same) (names_in p.instance Nodes) }
{}

/// Of a node `same` is told just where both have it, and in both its table and its slots' windows are the same bytes, and the rows of
/// its processes in the table that `schedule` writes are the same but for their slack.
pub fn same_is_by_what_is_loaded()
    ensures { (old new : Planned) (name : List ℕ) → (fate_of old new name ≡ Same) ↔ IsLoadedAlike old new name }
{}

/// The nodes that are told are those of either, and none is told twice.
pub fn each_node_is_told_once()
    ensures all { (old new : Planned) (name : List ℕ) → Contains (nodes_of_either old new) name
        ↔ (Contains (names_in old.instance Nodes) name ⊎ Contains (names_in new.instance Nodes) name) }
    ensures once { (old new : Planned) → IsInstance old.instance → IsInstance new.instance
        → AllPairs (λ a b. a ≢ b) (nodes_of_either old new) }
{}
