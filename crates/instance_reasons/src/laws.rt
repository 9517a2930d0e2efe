//! What follows from the definitions alone. These functions do nothing: their contracts are the laws.

ghost use Rattle.std.specs.Prelude.{◌≡◌, ◌<◌, ◌≤◌, Contains, List, Some, false, length, true, ℕ};
ghost use Rattle.std.specs.List.{AllByRecursion};
ghost use Rattle.toml.specs.Data.{Data, Members};
ghost use Rattle.ttp_model.specs.Delays.{HasNoPlan};
ghost use Rattle.ttp_model.specs.Instance.{Instance};
ghost use Rattle.ttp_model.specs.Rules.{IsInstance};
ghost use Rattle.instance_text.specs.Rows.{rows};
ghost use Rattle.instance_text.specs.Tables.{has_key, keys_at};
ghost use Rattle.instance_text.specs.declared.error.Place.{Place};
ghost use Rattle.instance_reasons.specs.Described.{is_large};
ghost use Rattle.instance_reasons.specs.Near.{distance, nearest};
ghost use Rattle.instance_reasons.specs.Reading.{shape_of};
ghost use Rattle.instance_reasons.specs.Unknown.{is_known, unknown_key, unknown_name};
ghost use Rattle.instance_reasons.specs.Values.{wanted};

/// What is told as near is one of the names, and at most two characters away.
pub fn near_names_are_there()
    ensures { (word : List ℕ) (names : List (List ℕ)) (name : List ℕ) → nearest word names ≡ Some name
        → Contains names name × (distance word name ≤ 2) }
{}

/// A key that is told as one that can't stand at a place can't.
pub fn odd_keys_are_unknown()
    ensures { (place : Place) (ms : Members) (key : List ℕ) → unknown_key place ms ≡ Some key → has_key (keys_at place) key ≡ false }
{}

/// A name that is told as one that nothing has is none of the names.
pub fn odd_names_are_unknown()
    ensures { (names : List (List ℕ)) (d : Data) (name : List ℕ) → unknown_name (is_known names) d ≡ Some name → is_known names name ≡ false }
{}

/// What has to stand at a key is told by the kind that is read there.
pub fn what_is_wanted_is_read()
    ensures { (place : Place) → AllByRecursion (λ r. wanted place r.key ≡ shape_of r.kind) (rows place) }
{}

/// Where a message fits into no capacity of its sender's node no plan is valid, as is told.
pub fn large_messages_leave_no_plan()
    ensures { (i : Instance) (m : ℕ) → IsInstance i → m < length i.messages → is_large i m ≡ true → HasNoPlan i }
{}
