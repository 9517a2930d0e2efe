//! What would be known if one process went before another?

ghost use Rattle.std.specs.Prelude.{◌≡◌};

use crate::journal::Journal;
use std::marker::Model;
use tt_infer::Facts;

/// What would be known of the plans in which one process goes before another. It serves the choice of a branch alone: no steps
/// lead to it from what is known at first.
#[derive(Drop)]
pub struct Supposition<'a> {
    pub(crate) journal: Journal<'a>,
}

impl<'a> Model for Supposition<'a> {
    ghost use Rattle.tt_infer.specs.Facts.{Facts};

    ghost Value = { Facts };

    ghost view = { λ s. s.journal.facts };
}

impl<'a> Supposition<'a> {
    /// What would be known.
    pub fn facts(&self) -> &Facts<'a>
        ensures { result.now ≡ self.now }
    {
        self.journal.facts()
    }
}
